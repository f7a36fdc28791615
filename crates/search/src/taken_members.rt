//! Which members of which items are loaded.
ghost use Rattle.std.specs.Prelude.{◌≡◌, [], OnOk};
ghost use Rattle.search.specs.Taken.{has_item, has_member, with_member_taken};

use indexmap::IndexSet;
use std::alloc::{AllocError, Global};
use std::marker::Model;

/// The members that are loaded, by the numbers of their items and the offsets of their headers.
#[derive(Drop)]
pub struct Taken {
    members: IndexSet<(u64, u64)>,
    items: IndexSet<u64>,
}

impl Model for Taken {
    ghost use Rattle.search.specs.Taken.{TakenMembers};

    ghost Value = { TakenMembers };

    ghost view = { λ t. record { members = t.members.keys; items = t.items.keys } };
}

impl Taken {
    /// No members. Takes no memory.
    pub fn new(alloc: Global) -> Taken
        ensures { result ≡ record { members = []; items = [] } }
    {
        Taken {
            members: IndexSet::new(alloc),
            items: IndexSet::new(alloc),
        }
    }

    /// Notes a member of an item.
    pub fn add(&mut self, item: u64, offset: u64) -> Result<(), AllocError>
        ensures { OnOk result (self.new ≡ with_member_taken self.old item offset) }
    {
        self.members.insert((item, offset))?;
        self.items.insert(item)?;
        Ok(())
    }

    /// Whether a member of an item was noted.
    pub fn has_member(&self, item: u64, offset: u64) -> bool
        ensures { result ≡ has_member self.now item offset }
    {
        self.members.contains(&(item, offset))
    }

    /// Whether any member of an item was noted.
    pub fn has_item(&self, item: u64) -> bool
        ensures { result ≡ has_item self.now item }
    {
        self.items.contains(&item)
    }
}
