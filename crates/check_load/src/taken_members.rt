//! Which members of which items are loaded.
ghost use Rattle.std.specs.Prelude.{◌≡◌, ◌==◌, ◌&&◌, ◌||◌, ℕ, OnOk, false};
ghost use Rattle.check_load.specs.Taken.{has_item, has_member};

use indexmap::IndexSet;
use std::alloc::{AllocError, Global};

/// The members that are loaded, by the numbers of their items and the offsets of their headers.
#[derive(Drop)]
pub struct Taken {
    members: IndexSet<(u64, u64)>,
    items: IndexSet<u64>,
}

impl Taken {
    /// No members. Takes no memory.
    #[tactic(auto, unfolding(crate::specs::Taken::has_member, crate::specs::Taken::has_item))]
    pub fn new(alloc: Global) -> Taken
        ensures members { (item offset : ℕ) → has_member result item offset ≡ false }
        ensures items { (item : ℕ) → has_item result item ≡ false }
    {
        Taken {
            members: IndexSet::new(alloc),
            items: IndexSet::new(alloc),
        }
    }

    /// Notes a member of an item.
    pub fn add(&mut self, item: u64, offset: u64) -> Result<(), AllocError>
        ensures members { OnOk result ((i k : ℕ) →
            has_member self.new i k ≡ (item == i && offset == k || has_member self.old i k)) }
        ensures items { OnOk result ((i : ℕ) →
            has_item self.new i ≡ (item == i || has_item self.old i)) }
    {
        self.members.insert((item, offset))?;
        self.items.insert(item)?;
        Ok(())
    }

    /// Whether a member of an item was noted.
    #[tactic(auto, unfolding(crate::specs::Taken::has_member))]
    pub fn has_member(&self, item: u64, offset: u64) -> bool
        ensures { result ≡ has_member self.now item offset }
    {
        self.members.contains(&(item, offset))
    }

    /// Whether any member of an item was noted.
    #[tactic(auto, unfolding(crate::specs::Taken::has_item))]
    pub fn has_item(&self, item: u64) -> bool
        ensures { result ≡ has_item self.now item }
    {
        self.items.contains(&item)
    }
}
