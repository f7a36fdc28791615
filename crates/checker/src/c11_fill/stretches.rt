//! Parts of a list of things that stand in the order of their addresses, found by bisection.
ghost use Rattle.std.specs.Prelude.{◌≡◌, ◌+◌, ◌-◌, ◌≤◌, ◌<◌, ℕ, All, Contains, IfOk, length, max, nat_le, slice_index_or};
ghost use Rattle.std.specs.List.Sorted.{IsNonDecreasingBy};
ghost use Rattle.check_places.specs.Sweeps.{EndFits, stretched};

use elf_model::Thing;
use std::alloc::{AllocError, Global};

/// How many of the things begin below an address.
fn count_below(sorted: &[Thing], address: u64) -> usize
    requires { IsNonDecreasingBy (λ t. t.at) sorted.now }
    ensures within { result ≤ length sorted.now }
    ensures below { (k : ℕ) (d : Thing) →
        k < result → (slice_index_or sorted.now k d).at < address }
    ensures above { (k : ℕ) (d : Thing) →
        result ≤ k → k < length sorted.now → address ≤ (slice_index_or sorted.now k d).at }
{
    sorted.partition_point(|t| t.at < address)
}

fn ends_by(thing: &Thing, address: u64) -> bool
    ensures { result ≡ nat_le (thing.now.at + thing.now.size) address }
{
    thing.at <= address && thing.size <= address - thing.at
}

/// How many of the things, whose ends rise as their addresses do, end at or below an address.
fn count_ended(sorted: &[Thing], address: u64) -> usize
    requires { IsNonDecreasingBy (λ t. t.at + t.size) sorted.now }
    ensures within { result ≤ length sorted.now }
    ensures ended { (k : ℕ) (d : Thing) →
        k < result → (slice_index_or sorted.now k d).at + (slice_index_or sorted.now k d).size
        ≤ address }
    ensures not_yet { (k : ℕ) (d : Thing) →
        result ≤ k → k < length sorted.now
        → address < (slice_index_or sorted.now k d).at + (slice_index_or sorted.now k d).size }
{
    sorted.partition_point(|t| ends_by(t, address))
}

/// The things that begin from one address on and below another.
pub fn begun_between(sorted: &[Thing], from: u64, to: u64) -> &[Thing]
    requires { IsNonDecreasingBy (λ t. t.at) sorted.now }
    ensures there { All (Contains sorted.entry.now) result.now }
    ensures all { All (λ t. from ≤ t.at → t.at < to → Contains result.now t) sorted.entry.now }
{
    let (begun, _later) = sorted.split_at(count_below(sorted, to));
    let (_earlier, part) = begun.split_at(count_below(begun, from));
    part
}

/// The things, whose ends rise as their addresses do, that lie partly from one address on and below another.
pub fn lying_between(sorted: &[Thing], from: u64, to: u64) -> &[Thing]
    requires fits { All EndFits sorted.now }
    requires rising { IsNonDecreasingBy (λ t. t.at) sorted.now }
    requires ends { IsNonDecreasingBy (λ t. t.at + t.size) sorted.now }
    ensures there { All (Contains sorted.entry.now) result.now }
    ensures all { All (λ t. from < t.at + t.size → t.at < to
        → Contains result.now t) sorted.entry.now }
    ensures fits { All EndFits result.now }
    ensures rising { IsNonDecreasingBy (λ t. t.at) result.now }
{
    let (begun, _later) = sorted.split_at(count_below(sorted, to));
    let (_ended, part) = begun.split_at(count_ended(begun, from));
    part
}

/// The thing, up to the greatest end so far where it ends below that.
fn stretch(end: u64, thing: &Thing) -> Thing
    requires { EndFits thing.now }
    ensures { result ≡ record thing.now {
      size = max end
          (thing.now.at + thing.now.size) - thing.now.at;
    } }
{
    Thing {
        size: end.max(thing.at + thing.size) - thing.at,
        ..*thing
    }
}

/// Things that take up the same addresses, whose ends rise as their addresses do: each reaches up to the
/// greatest end so far.
pub fn stretched(alloc: Global, sorted: &[Thing]) -> Result<Vec<Thing>, AllocError>
    requires { All EndFits sorted.now }
    ensures { IfOk result (λ v. v.items ≡ stretched 0 sorted.now) }
{
    let mut end = 0;
    let mut out = Vec::with_capacity(alloc, sorted.len())?;
    for thing in sorted {
        out.push(stretch(end, thing))?;
        end = end.max(thing.at + thing.size);
    }
    Ok(out)
}
