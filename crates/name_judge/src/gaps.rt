//! What takes up memory next to an address.
ghost use Rattle.std.specs.Prelude.{◌↔◌, ℕ};
ghost use Rattle.name_judge.specs.Clear.{IsBeside, IsFrom, IsLastIn, IsNextIn, IsUpTo};

use elf_model::Thing;

/// The least address from one on that a thing covers.
fn next_of(t: &Thing, from: u64) -> Option<u64>
    ensures { (to : ℕ) → IsUpTo to result ↔ IsBeside from to t.now }
{
    if t.size == 0 {
        return None;
    }
    if from <= t.at {
        return Some(t.at);
    }
    if t.size <= from - t.at {
        return None;
    }
    Some(from)
}

/// The lesser of two addresses, each of which may be none.
fn lesser(a: Option<u64>, b: Option<u64>) -> Option<u64>
    ensures { (to : ℕ) → IsUpTo to result ↔ (IsUpTo to a × IsUpTo to b) }
{
    match (a, b) {
        (Some(x), Some(y)) => Some(x.min(y)),
        (Some(x), None) => Some(x),
        (None, Some(y)) => Some(y),
        (None, None) => None,
    }
}

/// The least address from one on that a thing covers; None where none does.
pub fn next_in(things: &[Thing], from: u64) -> Option<u64>
    ensures { IsNextIn things.now from result }
{
    let mut next = None;
    for t in things {
        next = lesser(next, next_of(t, from));
    }
    next
}

/// The end of the addresses below one that a thing covers; None where it covers none.
fn last_of(t: &Thing, to: u64) -> Option<u64>
    ensures { (from : ℕ) → IsFrom from result ↔ IsBeside from to t.now }
{
    if t.size == 0 || to <= t.at {
        return None;
    }
    if t.size >= to - t.at {
        return Some(to);
    }
    Some(t.at + t.size)
}

/// The greater of two addresses, each of which may be none.
fn greater(a: Option<u64>, b: Option<u64>) -> Option<u64>
    ensures { (from : ℕ) → IsFrom from result ↔ (IsFrom from a × IsFrom from b) }
{
    match (a, b) {
        (Some(x), Some(y)) => Some(x.max(y)),
        (Some(x), None) => Some(x),
        (None, Some(y)) => Some(y),
        (None, None) => None,
    }
}

/// The end of the last addresses below one that things cover; None where none covers any.
pub fn last_in(things: &[Thing], to: u64) -> Option<u64>
    ensures { IsLastIn things.now to result }
{
    let mut last = None;
    for t in things {
        last = greater(last, last_of(t, to));
    }
    last
}
