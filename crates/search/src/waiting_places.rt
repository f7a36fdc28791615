//! Places in the indexes of the archives of a group, in the order in which a round comes to them.
ghost use Rattle.std.specs.Prelude.{◌≡◌, ◌&&◌, ◌||◌, ◌≤◌, ◌<◌, ℕ, IfNone, IfSome, OnOk, false, not, true};
ghost use Rattle.std.specs.List.{list_any};
ghost use Rattle.search.specs.Places.{is_place, is_waiting, waiting_count};

use std::alloc::{AllocError, Global};
use std::collections::BTreeSet;

/// Places that wait, each by the number of its archive in the group and that of the entry in the archive's index.
#[derive(Drop)]
pub struct WaitingPlaces {
    places: BTreeSet<(usize, usize)>,
}

impl WaitingPlaces {
    /// No places. Takes no memory.
    #[tactic(auto, unfolding(crate::specs::Places::is_waiting))]
    pub fn new(alloc: Global) -> WaitingPlaces
        ensures { (k q : ℕ) → is_waiting result k q ≡ false }
    {
        WaitingPlaces {
            places: BTreeSet::new(alloc),
        }
    }

    /// Lets a place wait.
    pub fn add(&mut self, place: (usize, usize)) -> Result<(), AllocError>
        ensures { OnOk result ((k q : ℕ) →
            is_waiting self.new k q ≡ (is_place k q place || is_waiting self.old k q)) }
    {
        self.places.insert(place)?;
        Ok(())
    }

    /// Lets places wait.
    pub fn add_all(&mut self, places: &[(usize, usize)]) -> Result<(), AllocError>
        ensures { OnOk result ((k q : ℕ) →
            is_waiting self.new k q
            ≡ (list_any (is_place k q) places.now || is_waiting self.old k q)) }
    {
        for place in places {
            self.add(*place)?;
        }
        Ok(())
    }

    /// Lets a place wait no longer.
    pub fn remove(&mut self, place: (usize, usize))
        ensures rest { (k q : ℕ) → is_waiting self.new k q
            ≡ (not (is_place k q place) && is_waiting self.old k q) }
        ensures fewer { is_waiting self.old place.0 place.1 ≡ true
            → waiting_count self.new < waiting_count self.old }
    {
        self.places.remove(&place);
    }

    /// The first archive, of those with at least this number, that has a place that waits.
    pub fn first_archive(&self, from: usize) -> Option<usize>
        ensures behind { IfSome result (λ k. from ≤ k) }
        ensures least { IfSome result (λ k. (j q : ℕ) →
            from ≤ j → j < k → is_waiting self.now j q ≡ false) }
        ensures none { IfNone result ((j q : ℕ) → from ≤ j → is_waiting self.now j q ≡ false) }
    {
        let place = self.places.range((from, 0)..).next()?;
        Some(place.0)
    }

    /// The first entry of an archive whose place waits.
    pub fn first_entry(&self, archive: usize) -> Option<usize>
        ensures there { IfSome result (λ q. is_waiting self.now archive q ≡ true) }
        ensures least { IfSome result (λ q. (r : ℕ) →
            is_waiting self.now archive r ≡ true → q ≤ r) }
        ensures none { IfNone result ((r : ℕ) → is_waiting self.now archive r ≡ false) }
    {
        let place = self.places.range((archive, 0)..).next()?;
        if place.0 != archive {
            return None;
        }
        Some(place.1)
    }
}
