//! Whether anything but sections of its name lies in the gap of a run: of all that takes up memory and begins before a gap's end
//! the greatest end is known, and that of what has another name than this one.
ghost use Rattle.std.specs.Prelude.{◌≡◌, ◌↔◌, ◌≤◌, ◌<◌, ℕ, All, IfOk, IsTrue, List, false, length, slice_index_or, true};
ghost use Rattle.std.specs.List.Sorted.{IsNonDecreasingBy};
ghost use Rattle.run_judge.specs.Clear.{AreAllTops, EndsBy, IsGapClear, Misses, beside, is_named};
ghost use Rattle.run_judge.specs.declared.stretches.Stretch.{Stretch};

use crate::gaps::gap_of;
use crate::names::run_name;
use crate::pairs::RunPair;
use crate::stretches::Stretch;
use memory_judge::Span;
use std::alloc::{AllocError, Global};

/// The greatest end of stretches with that one's name, and the greatest end of those of other names; 0 without any.
#[derive(Clone, Copy, Debug)]
pub struct Tops<'a> {
    pub name: Option<&'a [u8]>,
    pub end: u64,
    pub other_end: u64,
}

/// Whether two names are one, or both none.
fn is_same_name(a: Option<&[u8]>, b: Option<&[u8]>) -> bool
    ensures same { IsTrue result → (name : List ℕ) → is_named a.entry name ≡ is_named b.entry name }
    ensures other { result ≡ false →
        (name : List ℕ) → is_named a.entry name ≡ true → is_named b.entry name ≡ false }
{
    match (a, b) {
        (Some(x), Some(y)) => x == y,
        (None, None) => true,
        (_, _) => false,
    }
}

/// The greatest ends once another stretch is seen.
fn next_tops<'a>(tops: Tops<'a>, s: &Stretch<'a>) -> Tops<'a>
    requires { tops.other_end ≤ tops.end }
    ensures low { result.other_end ≤ result.end }
    ensures told { (name : List ℕ) (v : ℕ) →
        (beside result name ≤ v) ↔ ((beside tops.entry name ≤ v) × EndsBy name v s.now) }
{
    if is_same_name(tops.name, s.name) {
        return Tops {
            end: tops.end.max(s.to),
            ..tops
        };
    }
    if tops.end < s.to {
        return Tops {
            name: s.name,
            end: s.to,
            other_end: tops.end,
        };
    }
    Tops {
        other_end: tops.other_end.max(s.to),
        ..tops
    }
}

/// The greatest ends of the first stretches, of each number of them from none to all.
pub fn tops_of<'a>(alloc: Global, stretches: &[Stretch<'a>]) -> Result<Vec<Tops<'a>>, AllocError>
    ensures { IfOk result (λ v. AreAllTops stretches.now v.items) }
{
    let mut all = Vec::new(alloc);
    let mut tops = Tops {
        name: None,
        end: 0,
        other_end: 0,
    };
    all.push(tops)?;
    for s in stretches {
        tops = next_tops(tops, s);
        all.push(tops)?;
    }
    Ok(all)
}

/// The greatest end of what has another name than this.
fn beside(tops: &Tops<'_>, name: &[u8]) -> u64
    ensures { result ≡ beside tops.now name.now }
{
    match tops.name {
        Some(held) if name == held => tops.other_end,
        _ => tops.end,
    }
}

/// How many of the stretches begin below an address.
fn count_before(stretches: &[Stretch<'_>], to: u64) -> usize
    requires { IsNonDecreasingBy (λ s. s.from) stretches.now }
    ensures within { result ≤ length stretches.now }
    ensures before { (k : ℕ) (d : Stretch) →
        k < result → (slice_index_or stretches.now k d).from < to }
    ensures behind { (k : ℕ) (d : Stretch) →
        result ≤ k → k < length stretches.now → to ≤ (slice_index_or stretches.now k d).from }
{
    stretches.partition_point(|s| s.from < to)
}

/// Whether no stretch of another name has one of some addresses.
fn are_addresses_clear(stretches: &[Stretch<'_>], tops: &[Tops<'_>], gap: Span, name: &[u8]) -> bool
    requires rising { IsNonDecreasingBy (λ s. s.from) stretches.now }
    requires tops { AreAllTops stretches.now tops.now }
    ensures { IsTrue result ↔ All (Misses name.now gap.from gap.to) stretches.now }
{
    let before = count_before(stretches, gap.to);
    beside(&tops[before], name) <= gap.from
}

/// Whether no stretch of another name has an address of the gap between two neighbours.
fn is_gap_clear(stretches: &[Stretch<'_>], tops: &[Tops<'_>], pair: &RunPair<'_>) -> bool
    requires rising { IsNonDecreasingBy (λ s. s.from) stretches.now }
    requires tops { AreAllTops stretches.now tops.now }
    ensures { IsTrue result ↔ IsGapClear stretches.now pair.now }
{
    match gap_of(pair) {
        Some(gap) => are_addresses_clear(stretches, tops, gap, run_name(pair.first.piece.name)),
        None => true,
    }
}

/// Whether no stretch of another name has an address of a gap of some neighbours.
pub fn are_gaps_clear(stretches: &[Stretch<'_>], tops: &[Tops<'_>], pairs: &[RunPair<'_>]) -> bool
    requires rising { IsNonDecreasingBy (λ s. s.from) stretches.now }
    requires tops { AreAllTops stretches.now tops.now }
    ensures { IsTrue result ↔ All (IsGapClear stretches.now) pairs.now }
{
    for pair in pairs {
        if !is_gap_clear(stretches, tops, pair) {
            return false;
        }
    }
    true
}
