//! Which entries of archives' indexes may give a member: an entry is awake from when its name is asked for until it
//! is found to give none any more.
ghost use Rattle.std.specs.Prelude.{◌≡◌, ◌==◌, ◌&&◌, ◌||◌, ◌≤◌, ◌<◌, ℕ, IfNone, IfSome, OnOk, false, not, true};
ghost use Rattle.std.specs.List.{list_any};
ghost use Rattle.check_load.specs.Awake.{awake_count, is_awake, is_place};

use std::alloc::{AllocError, Global};
use std::collections::BTreeSet;

/// Entries that are awake, by the numbers of their items and their own in the index.
#[derive(Drop)]
pub struct Awake {
    places: BTreeSet<(u64, usize)>,
}

impl Awake {
    /// No entries. Takes no memory.
    #[tactic(auto, unfolding(crate::specs::Awake::is_awake))]
    pub fn new(alloc: Global) -> Awake
        ensures { (item entry : ℕ) → is_awake result item entry ≡ false }
    {
        Awake {
            places: BTreeSet::new(alloc),
        }
    }

    /// Wakes an entry.
    fn wake(&mut self, place: (u64, usize)) -> Result<(), AllocError>
        ensures { OnOk result ((i q : ℕ) →
            is_awake self.new i q ≡ (is_place i q place || is_awake self.old i q)) }
    {
        self.places.insert(place)?;
        Ok(())
    }

    /// Wakes entries.
    pub fn wake_all(&mut self, places: &[(u64, usize)]) -> Result<(), AllocError>
        ensures { OnOk result ((i q : ℕ) →
            is_awake self.new i q ≡ (list_any (is_place i q) places.now || is_awake self.old i q)) }
    {
        for place in places {
            self.wake(*place)?;
        }
        Ok(())
    }

    /// The first entry of an item, by the order of its index, that is awake.
    pub fn first(&self, item: u64) -> Option<usize>
        ensures there { IfSome result (λ p. is_awake self.now item p ≡ true) }
        ensures least { IfSome result (λ p. (q : ℕ) → is_awake self.now item q ≡ true → p ≤ q) }
        ensures none { IfNone result ((q : ℕ) → is_awake self.now item q ≡ false) }
    {
        let place = self.places.range((item, 0)..).next()?;
        if place.0 != item {
            return None;
        }
        Some(place.1)
    }

    /// The first item, of those that have at least a number, that has an entry that is awake.
    pub fn first_item(&self, from: u64) -> Option<u64>
        ensures behind { IfSome result (λ k. from ≤ k) }
        ensures least { IfSome result (λ k. (j q : ℕ) →
            from ≤ j → j < k → is_awake self.now j q ≡ false) }
        ensures none { IfNone result ((j q : ℕ) → from ≤ j → is_awake self.now j q ≡ false) }
    {
        let place = self.places.range((from, 0)..).next()?;
        Some(place.0)
    }

    /// Lets an entry that is awake sleep.
    pub fn lull(&mut self, item: u64, entry: usize)
        requires { is_awake self.old item entry ≡ true }
        ensures asleep { (i q : ℕ) → is_awake self.new i q
            ≡ (not (is_place i q (item, entry)) && is_awake self.old i q) }
        ensures fewer { awake_count self.new < awake_count self.old }
    {
        self.places.remove(&(item, entry));
    }
}
