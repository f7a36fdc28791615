//! Whether no two things share an address, by one sweep over them in the order of their addresses.
ghost use Rattle.std.specs.Prelude.{◌+◌, ◌↔◌, AllPairs, IsTrue, MatchOption};
ghost use Rattle.std.specs.List.Sorted.{IsNonDecreasingBy};
ghost use Rattle.elf_model.specs.Link.Placement.{AreApart};
ghost use Rattle.check_places.specs.Sweeps.{Follows, Overlaps};

use elf_model::Thing;

/// Whether no address lies in two of the things, which stand in the order of their addresses. An empty one covers nothing.
pub fn are_apart(sorted: &[Thing]) -> bool
    requires rising { IsNonDecreasingBy (λ t. t.at) sorted.now }
    ensures { IsTrue result ↔ AllPairs AreApart sorted.now }
{
    let mut end: u128 = 0;
    for thing in sorted {
        let Some(next) = next_end(end, thing) else {
            return false;
        };
        end = next;
    }
    true
}

/// The greatest end so far behind a thing, or None where the thing begins below the one before it. An end may be above 2^64.
fn next_end(end: u128, thing: &Thing) -> Option<u128>
    ensures { MatchOption result (Overlaps end thing.now) (Follows end thing.now) }
{
    if thing.size == 0 {
        return Some(end);
    }
    if (thing.at as u128) < end {
        return None;
    }
    Some(thing.at as u128 + thing.size as u128)
}
