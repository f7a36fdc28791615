//! The pairs of sections that are neighbours in a run, found in one walk that keeps the last section of each run.
ghost use Rattle.std.specs.Prelude.{◌≡◌, ◌↔◌, ◌⊎◌, ◌+◌, ◌<◌, ℕ, Any, IfOk, IfSome, IsSomeAnd, OnOk, Some, false, length, slice_index_or};
ghost use Rattle.std.specs.BTreeMap.{get};
ghost use Rattle.elf_model.specs.Link.Placement as placement;
ghost use Rattle.check_link.specs.OutputSections.{section_order};
ghost use Rattle.check_link.specs.Views.{piece_view, placed_view, placed_views};
ghost use Rattle.check_link.specs.declared.output_sections.OutputSection.{OutputSection};
ghost use Rattle.judge_model.specs.Runs.{is_free};
ghost use Rattle.run_judge.specs.Pairs.{AreLasts, ArePairsBelow, AreRunPairs, IsBefore, IsPair, IsRunSection, over_last};

use crate::names::{is_free, run_name};
use crate::order::in_run_order;
use check_link::{OutputSection, Piece, Placed};
use std::alloc::{AllocError, Global};
use std::collections::BTreeMap;

/// Two sections of a run, the second one the next after the first.
#[derive(Clone, Copy, Debug)]
pub struct RunPair<'a> {
    pub first: Placed<'a>,
    pub second: Placed<'a>,
}

/// What the sections of a run have in common.
fn run_section<'a>(piece: &Piece<'a>) -> OutputSection<'a>
    ensures { IsRunSection (piece_view piece.now) result }
{
    let header = &piece.header;
    OutputSection {
        name: run_name(piece.name),
        writable: header.is_writable(),
        executable: header.is_executable(),
        thread_local: header.is_thread_local(),
        nobits: header.is_nobits(),
    }
}

/// Takes in the next section of a run, and answers the number of the one before it, if there is one.
fn replace<'a>(
    lasts: &mut BTreeMap<OutputSection<'a>, usize>,
    section: OutputSection<'a>,
    at: usize,
) -> Result<Option<usize>, AllocError>
    ensures before { IfOk result (λ o. o ≡ get section_order lasts.old section.entry) }
    ensures known { OnOk result ((t : OutputSection) → get section_order lasts.new t
        ≡ over_last section.entry at (get section_order lasts.old) t) }
{
    let before = lasts.get(&section).copied();
    lasts.insert(section, at)?;
    Ok(before)
}

/// The number of a section, where it isn't one that may stand anywhere.
fn counted(ordered: &[Placed<'_>], last: Option<usize>) -> Option<usize>
    requires { IfSome last (λ i. i < length ordered.now) }
    ensures { (i : ℕ) (d : placement.Placed) → (result ≡ Some i) ↔ ((last ≡ Some i)
        × (is_free (slice_index_or (placed_views ordered.now) i d).piece.name ≡ false)) }
{
    let i = last?;
    if is_free(ordered[i].piece.name) {
        return None;
    }
    Some(i)
}

/// The number of the section before section `at` in its run, given the last ones that are like those in front of this. It
/// becomes one of these.
fn before<'a>(
    lasts: &mut BTreeMap<OutputSection<'a>, usize>,
    ordered: &[Placed<'a>],
    at: usize,
) -> Result<Option<usize>, AllocError>
    requires within { at < length ordered.now }
    requires lasts { AreLasts (placed_views ordered.now) at (get section_order lasts.old) }
    ensures before { IfOk result (IsBefore (placed_views ordered.now) at) }
    ensures lasts { OnOk result
        (AreLasts (placed_views ordered.now) (at + 1) (get section_order lasts.new)) }
{
    let last = replace(lasts, run_section(&ordered[at].piece), at)?;
    Ok(counted(ordered, last))
}

/// A section and the one before it in its run, where there is one.
fn pair_of<'a>(ordered: &[Placed<'a>], first: Option<usize>, second: usize) -> Option<RunPair<'a>>
    requires first { IfSome first (λ i. i < length ordered.now) }
    requires second { second < length ordered.now }
    ensures { (p q d : placement.Placed) → IsSomeAnd result (IsPair p q)
        ↔ IsSomeAnd first (λ i. (slice_index_or (placed_views ordered.now) i d ≡ p)
        × (slice_index_or (placed_views ordered.now) second d ≡ q)) }
{
    match first {
        Some(i) => Some(RunPair {
            first: ordered[i],
            second: ordered[second],
        }),
        None => None,
    }
}

/// Puts a pair behind others, where there is one.
fn add_pair<'a>(pairs: &mut Vec<RunPair<'a>>, pair: Option<RunPair<'a>>) -> Result<(), AllocError>
    ensures { OnOk result ((p q : placement.Placed) → Any (IsPair p q) pairs.new.items
        ↔ (Any (IsPair p q) pairs.old.items ⊎ IsSomeAnd pair.entry (IsPair p q))) }
{
    if let Some(pair) = pair {
        pairs.push(pair)?;
    }
    Ok(())
}

/// The neighbours of sections that stand in the order of their runs.
fn pairs_in<'a>(alloc: Global, ordered: &[Placed<'a>]) -> Result<Vec<RunPair<'a>>, AllocError>
    ensures { IfOk result (λ v.
        ArePairsBelow (placed_views ordered.now) (length ordered.now) v.items) }
{
    let mut lasts = BTreeMap::new(alloc);
    let mut pairs = Vec::new(alloc);
    for at in 0..ordered.len() {
        let first = before(&mut lasts, ordered, at)?;
        add_pair(&mut pairs, pair_of(ordered, first, at))?;
    }
    Ok(pairs)
}

/// The neighbours in the runs of sections, in the order of the second ones.
///
/// # Errors
///
/// Only where memory is refused.
pub fn run_pairs<'a>(alloc: Global, sections: &[Placed<'a>]) -> Result<Vec<RunPair<'a>>, AllocError>
    ensures { IfOk result (λ v. AreRunPairs (placed_views sections.now) v.items) }
{
    let ordered = in_run_order(alloc, sections)?;
    pairs_in(alloc, &ordered)
}
