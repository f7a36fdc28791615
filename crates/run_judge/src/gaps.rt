//! The gaps between neighbours of runs.
ghost use Rattle.std.specs.Prelude.{◌≡◌, ◌↔◌, ◌⊎◌, ◌<◌, ◌≤◌, ℕ, All, AllPairs, Any, IfOk, IsSomeAnd, OnOk, SomeIff, filter};
ghost use Rattle.elf_model.specs.Link.Placement.{Covers};
ghost use Rattle.judge_model.specs.Fill as fill;
ghost use Rattle.judge_model.specs.Links.{ForeignLink, sections_of};
ghost use Rattle.judge_model.specs.Placed.{things_of};
ghost use Rattle.link_fields.specs.Parts.{AreTaken};
ghost use Rattle.memory_judge.specs.Spans.{IsInSpan, IsSpanBefore, far, span};
ghost use Rattle.run_judge.specs.Clear.{IsInGap, gap_from, gap_to};
ghost use Rattle.run_judge.specs.Pairs.{AreRunPairs, is_code_pair};

use crate::names::runs_through;
use crate::pairs::RunPair;
use elf_model::Thing;
use memory_judge::{Span, spans_of};
use std::alloc::{AllocError, Global};

/// The addresses between two neighbours, where there are any.
pub fn gap_of(pair: &RunPair<'_>) -> Option<Span>
    ensures { SomeIff result (gap_from pair.now < gap_to pair.now)
        (span (gap_from pair.now) (gap_to pair.now)) }
{
    let to = pair.second.at;
    match pair.first.at.checked_add(pair.first.piece.header.sh_size) {
        Some(from) if from < to => Some(Span { from, to }),
        _ => None,
    }
}

/// The addresses of a gap as a thing.
fn gap_thing(gap: Span) -> Thing
    requires { gap.from < gap.to }
    ensures { (a : ℕ) → Covers result a ↔ IsInSpan a gap }
{
    Thing {
        at: gap.from,
        size: gap.to - gap.from,
        align: 1,
        rights: 4,
        in_file: false,
    }
}

/// Puts the gap of two neighbours behind other things, where there is one.
fn add_gap(things: &mut Vec<Thing>, pair: &RunPair<'_>) -> Result<(), AllocError>
    ensures { OnOk result ((a : ℕ) → Any (λ t. Covers t a) things.new.items
        ↔ (Any (λ t. Covers t a) things.old.items ⊎ IsInGap a pair.now)) }
{
    if let Some(gap) = gap_of(pair) {
        things.push(gap_thing(gap))?;
    }
    Ok(())
}

/// Puts the gaps of neighbours behind other things.
fn add_gaps(things: &mut Vec<Thing>, pairs: &[RunPair<'_>]) -> Result<(), AllocError>
    ensures { OnOk result ((a : ℕ) → Any (λ t. Covers t a) things.new.items
        ↔ (Any (λ t. Covers t a) things.old.items ⊎ Any (IsInGap a) pairs.now)) }
{
    for pair in pairs {
        add_gap(things, pair)?;
    }
    Ok(())
}

/// Whether two neighbours are executed one behind the other.
fn is_code_pair(pair: &RunPair<'_>) -> bool
    ensures { result ≡ is_code_pair pair.now }
{
    runs_through(pair.first.piece.name)
}

/// The neighbours that are executed one behind the other.
fn code_pairs<'a>(alloc: Global, pairs: &[RunPair<'a>]) -> Result<Vec<RunPair<'a>>, AllocError>
    ensures { IfOk result (λ v. v.items ≡ filter is_code_pair pairs.now) }
{
    let mut code = Vec::new(alloc);
    for pair in pairs {
        if is_code_pair(pair) {
            code.push(*pair)?;
        }
    }
    Ok(code)
}

/// Addresses have 64 bits.
fn is_low(pair: &RunPair<'_>)
    ensures { gap_to pair.now ≤ far }
{
    let _to = pair.second.at;
}

pub fn are_low(pairs: &[RunPair<'_>])
    ensures { All (λ n. gap_to n ≤ far) pairs.now }
{
    for pair in pairs {
        is_low(pair);
    }
}

/// The gaps of runs of code, as spans that rise apart: those between the neighbours in .init and in .fini, given all neighbours.
///
/// # Errors
///
/// Only where memory is refused.
pub fn run_gaps(alloc: Global, pairs: &[RunPair<'_>]) -> Result<Vec<Span>, AllocError>
    ensures some { IfOk result (λ v. All (λ s. s.from < s.to) v.items) }
    ensures rising { IfOk result (λ v. AllPairs IsSpanBefore v.items) }
    ensures gaps { (l : ForeignLink) → AreRunPairs (sections_of l) pairs.now
        → IfOk result (λ v. (a : ℕ) → Any (IsInSpan a) v.items ↔ fill.IsRunThrough l a) }
{
    are_low(pairs);
    let code = code_pairs(alloc, pairs)?;
    let mut gaps = Vec::new(alloc);
    add_gaps(&mut gaps, &code)?;
    spans_of(alloc, &gaps)
}

/// Where no slot may be: what takes up memory, and the gaps of all runs, given their neighbours.
///
/// # Errors
///
/// Only where memory is refused.
pub fn taken_of(
    alloc: Global,
    things: &[Thing],
    pairs: &[RunPair<'_>],
) -> Result<Vec<Thing>, AllocError>
    ensures { (l : ForeignLink) → things_of l ≡ things.now
        → AreRunPairs (sections_of l) pairs.now → IfOk result (λ v. AreTaken l v.items) }
{
    let mut taken = Vec::from_slice(alloc, things)?;
    add_gaps(&mut taken, pairs)?;
    Ok(taken)
}
