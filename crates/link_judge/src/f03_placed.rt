//! F3: sections and common blocks are aligned, apart and in memory, in their runs, and where the words ask for them.
ghost use Rattle.std.specs.Prelude.{◌≡◌, ◌↔◌, All, Any, IfOk, IsTrue, None, map, true};
ghost use Rattle.linkmap.specs.Borrowed.{common_row};
ghost use Rattle.judge_model.specs.Certificates.{IsInOrder};
ghost use Rattle.elf_model.specs.Image.MemoryImage.{loads};
ghost use Rattle.judge_model.specs.Links.{placed_of, sections_of};
ghost use Rattle.judge_model.specs.Placed.{AreRuns, MayBeBoth, is_both};
ghost use Rattle.judge_model.specs.RightForeign.{Holds};
ghost use Rattle.judge_model.specs.declared.judgement.Requirement.TheVariants as requirement;
ghost use Rattle.foreign_words.specs.Says as says;
ghost use Rattle.place_judge.specs.Places as places;
ghost use Rattle.place_judge.specs.Places.{LiesIfThere};
ghost use Rattle.run_judge.specs.Pairs.{AreRunPairs};
ghost use Rattle.link_judge.specs.Placed.{AreLinesRight, IsLaidApart, IsMapped, KeepsStarts};

use check_link::CommonLines;
use foreign_words::Start as WordStart;
use judge_stages::PlacedClaim;
use linkmap::BorrowedCommon;
use place_judge::{
    Start, are_aligned, are_apart, are_commons_right, are_in_memory, are_lines_of,
    are_starts_right, are_threads_apart, begins_at, do_sections_ask_for_both, is_some_both,
    things_of,
};
use run_judge::{RunPair, are_runs_right};
use std::alloc::{AllocError, Global};
use thread_judge::are_low;

/// Whether the lines of sections and common blocks are those of a link.
fn are_lines_right(
    placed: &PlacedClaim<'_, '_>,
    rows: &[BorrowedCommon<'_>],
    lines: &CommonLines<'_>,
) -> bool
    requires rows { map common_row rows.now ≡ placed.now.certificate.commons }
    requires lines { lines.now ≡ placed.now.certificate.commons }
    ensures { IsTrue result ↔ AreLinesRight placed.now }
{
    let claim = placed.claim();
    if !are_lines_of(&claim.certificate.places, placed.plain()) {
        return false;
    }
    are_commons_right(rows, lines, placed.names(), claim.wider.collects)
}

/// Whether all parts are low enough, aligned and apart.
fn are_laid_apart(alloc: Global, placed: &PlacedClaim<'_, '_>) -> Result<bool, AllocError>
    ensures { IfOk result (λ b. IsTrue b ↔ IsLaidApart placed.now) }
{
    if !are_low(placed.placed()) || !are_aligned(placed.placed()) {
        return Ok(false);
    }
    if !are_apart(alloc, placed.things())? {
        return Ok(false);
    }
    if !are_threads_apart(alloc, placed.placed())? {
        return Ok(false);
    }
    Ok(true)
}

/// Whether words or sections ask for memory that is written and executed.
fn may_be_both(placed: &PlacedClaim<'_, '_>) -> bool
    requires script { placed.now.plan.script ≡ None }
    ensures { IsTrue result ↔ MayBeBoth placed.now }
{
    let claim = placed.claim();
    claim.wider.writes_code || do_sections_ask_for_both(placed.pieces())
}

/// Whether all parts are in memory with their rights.
fn are_all_in_memory(placed: &PlacedClaim<'_, '_>) -> bool
    ensures { IsTrue result ↔ All (LiesIfThere (loads placed.now.image)) (placed_of placed.now) }
{
    are_in_memory(placed.image().segments(), placed.placed())
}

/// Whether a segment may be written and executed.
fn has_both(placed: &PlacedClaim<'_, '_>) -> bool
    ensures { IsTrue result ↔ Any (λ h. is_both h ≡ true) (loads placed.now.image) }
{
    is_some_both(placed.image().segments())
}

/// Whether all parts are in memory with their rights, and no segment has more than it may.
fn are_mapped(placed: &PlacedClaim<'_, '_>) -> bool
    requires script { placed.now.plan.script ≡ None }
    ensures { IsTrue result ↔ IsMapped placed.now }
{
    if !are_all_in_memory(placed) {
        return false;
    }
    if !has_both(placed) {
        return true;
    }
    may_be_both(placed)
}

/// The output section of a word that gives it an address.
fn start_of<'w>(start: &WordStart<'w>) -> Start<'w>
    ensures { places.start_view result ≡ says.start_view start.now }
{
    Start {
        name: start.name.as_bytes(),
        address: start.address,
    }
}

/// The output sections of words that give them addresses.
fn starts_of<'w>(alloc: Global, starts: &[WordStart<'w>]) -> Result<Vec<Start<'w>>, AllocError>
    ensures { IfOk result (λ v. map places.start_view v.items ≡ map says.start_view starts.now) }
{
    let mut all = Vec::with_capacity(alloc, starts.len())?;
    for start in starts {
        all.push(start_of(start))?;
    }
    Ok(all)
}

/// Whether the first segment and output sections begin where the words say, in a link whose parts are low enough.
fn keeps_starts(alloc: Global, placed: &PlacedClaim<'_, '_>) -> Result<bool, AllocError>
    requires { IsLaidApart placed.now }
    ensures { IfOk result (λ b. IsTrue b ↔ KeepsStarts placed.now) }
{
    let claim = placed.claim();
    if !begins_at(placed.image().segments(), claim.wider.segment) {
        return Ok(false);
    }
    let starts = starts_of(alloc, &claim.wider.starts)?;
    are_starts_right(alloc, placed.placed(), &starts)
}

/// Whether the runs of a link are right, given their neighbours.
fn has_right_runs(
    alloc: Global,
    placed: &PlacedClaim<'_, '_>,
    pairs: &[RunPair<'_>],
) -> Result<bool, AllocError>
    requires { AreRunPairs (sections_of placed.now) pairs.now }
    ensures { IfOk result (λ b. IsTrue b ↔ AreRuns placed.now) }
{
    let made = things_of(alloc, placed.image(), placed.filled(), &[])?;
    are_runs_right(alloc, pairs, &made, placed.placed())
}

/// Whether a link without a script, whose lines are in order, is placed right, given the neighbours of its
/// runs.
pub fn holds(
    alloc: Global,
    placed: &PlacedClaim<'_, '_>,
    rows: &[BorrowedCommon<'_>],
    lines: &CommonLines<'_>,
    pairs: &[RunPair<'_>],
) -> Result<bool, AllocError>
    requires pairs { AreRunPairs (sections_of placed.now) pairs.now }
    requires rows { map common_row rows.now ≡ placed.now.certificate.commons }
    requires lines { lines.now ≡ placed.now.certificate.commons }
    requires ordered { IsInOrder placed.now.certificate }
    requires script { placed.now.plan.script ≡ None }
    ensures { IfOk result (λ b. IsTrue b ↔ Holds requirement.F3 placed.now) }
{
    if !are_lines_right(placed, rows, lines) || !are_mapped(placed) {
        return Ok(false);
    }
    if !are_laid_apart(alloc, placed)? {
        return Ok(false);
    }
    if !keeps_starts(alloc, placed)? {
        return Ok(false);
    }
    has_right_runs(alloc, placed, pairs)
}
