//! F10: memory has nothing else: the linker's own notes are right, no slot is behind the end of all, and gaps have fill.
ghost use Rattle.std.specs.Prelude.{◌≡◌, ◌++◌, ◌↔◌, IfOk, IsTrue, map};
ghost use Rattle.judge_model.specs.Links.{sections_of};
ghost use Rattle.judge_model.specs.Notes.{AreNotesRight};
ghost use Rattle.judge_model.specs.Fill.{IsFilled};
ghost use Rattle.judge_model.specs.Headers.{table_stretches};
ghost use Rattle.judge_model.specs.Placed.{explained_things, listed, stretch_of};
ghost use Rattle.judge_model.specs.RightForeign.{Holds};
ghost use Rattle.judge_model.specs.declared.judgement.Requirement.TheVariants as requirement;
ghost use Rattle.link_fields.specs.Parts.{AreTaken};
ghost use Rattle.run_judge.specs.Pairs.{AreRunPairs};

use elf_model::Thing;
use gap_judge::are_gaps_filled;
use judge_model::StretchLine;
use judge_stages::{BoundClaim, PlacedClaim, part_stretches, table_stretches};
use link_fields::slots_of;
use memory_judge::Taken;
use name_judge::do_bounds_spare_slots;
use note_judge::are_notes_right;
use place_judge::things_of;
use run_judge::{RunPair, run_gaps};
use std::alloc::{AllocError, Global};

/// Whether the notes that the linker made are right.
fn has_right_notes(placed: &PlacedClaim<'_, '_>) -> bool
    ensures { IsTrue result ↔ AreNotesRight placed.now }
{
    let claim = placed.claim();
    let objects = placed.names().objects();
    let notes = &claim.certificate.notes;
    are_notes_right(placed.image(), objects, notes, claim.wider.features)
}

/// Where the tables of call frames are.
fn tables_of(alloc: Global, placed: &PlacedClaim<'_, '_>) -> Result<Vec<StretchLine>, AllocError>
    ensures { IfOk result (λ v. v.items ≡ table_stretches placed.now.image) }
{
    table_stretches(alloc, placed.image())
}

/// What the linker filled: notes, merged strings and constants, the list of call frames and its tables.
fn filled_stretches(
    alloc: Global,
    placed: &PlacedClaim<'_, '_>,
) -> Result<Vec<StretchLine>, AllocError>
    ensures { IfOk result (λ v. v.items
        ≡ placed.now.certificate.notes ++ (map stretch_of placed.now.certificate.merged
        ++ (listed placed.now.certificate.list ++ table_stretches placed.now.image))) }
{
    let certificate = placed.claim().certificate;
    let tables = tables_of(alloc, placed)?;
    let list = certificate.list;
    part_stretches(
        alloc,
        &certificate.notes,
        &certificate.merged,
        list,
        &tables,
    )
}

/// What the bytes of memory are of, beside slots: headers, notes, merged strings and constants, the list of call frames and its tables,
/// sections and common blocks.
fn explained_things(alloc: Global, placed: &PlacedClaim<'_, '_>) -> Result<Vec<Thing>, AllocError>
    ensures { IfOk result (λ v. v.items ≡ explained_things placed.now) }
{
    let stretches = filled_stretches(alloc, placed)?;
    things_of(alloc, placed.image(), &stretches, placed.placed())
}

/// Whether the names for where zeros begin and for the end of all spare the slots, and gaps have fill, given where no slot may be, and
/// the neighbours of runs.
fn is_filled(
    alloc: Global,
    bound: &BoundClaim<'_, '_, '_>,
    taken: &Taken<'_>,
    pairs: &[RunPair<'_>],
) -> Result<bool, AllocError>
    requires taken { AreTaken bound.now taken.now }
    requires pairs { AreRunPairs (sections_of bound.now) pairs.now }
    ensures { IfOk result (λ b. IsTrue b ↔ IsFilled bound.now) }
{
    let placed = bound.placed();
    let slots = slots_of(alloc, bound.parts(), taken, placed.drops())?;
    if !do_bounds_spare_slots(bound.parts(), &slots) {
        return Ok(false);
    }
    let gaps = run_gaps(alloc, pairs)?;
    let things = explained_things(alloc, placed)?;
    if !are_gaps_filled(alloc, placed.image(), &things, &slots, &gaps)? {
        return Ok(false);
    }
    Ok(true)
}

/// Whether a link has nothing else, given where no slot may be, and the neighbours of runs.
pub fn holds(
    alloc: Global,
    bound: &BoundClaim<'_, '_, '_>,
    taken: &Taken<'_>,
    pairs: &[RunPair<'_>],
) -> Result<bool, AllocError>
    requires taken { AreTaken bound.now taken.now }
    requires pairs { AreRunPairs (sections_of bound.now) pairs.now }
    ensures { IfOk result (λ b. IsTrue b ↔ Holds requirement.F10 bound.now) }
{
    if !has_right_notes(bound.placed()) {
        return Ok(false);
    }
    is_filled(alloc, bound, taken, pairs)
}
