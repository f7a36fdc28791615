//! What explains the addresses of a link, and its gaps.
ghost use Rattle.std.specs.Prelude.{◌≡◌, ◌↔◌, ◌++◌, ◌<◌, All, AllPairs, IfOk, IsTrue, map};
ghost use Rattle.judge_model.specs.Fields as fields;
ghost use Rattle.judge_model.specs.Links.{ForeignLink};
ghost use Rattle.judge_model.specs.Placed.{explained_things};
ghost use Rattle.memory_judge.specs.Spans.{IsSpanBefore};
ghost use Rattle.link_fields.specs.Slots.{AreSlots};
ghost use Rattle.gap_judge.specs.Links.{AreGapsFilled, AreRunGaps};

use crate::gaps::are_segments_filled;
use elf_model::Thing;
use foreign_image::ForeignImage;
use memory_judge::{Span, spans_of};
use std::alloc::{AllocError, Global};

/// The eight bytes of a slot.
fn slot_thing(at: u64) -> Thing
    ensures { result ≡ fields.slot_thing at }
{
    Thing {
        at,
        size: 8,
        align: 8,
        rights: 4,
        in_file: true,
    }
}

/// Things, and slots behind them.
fn explained(alloc: Global, things: &[Thing], slots: &[u64]) -> Result<Vec<Thing>, AllocError>
    ensures { IfOk result (λ v. v.items ≡ things.now ++ map fields.slot_thing slots.now) }
{
    let mut all = Vec::from_slice(alloc, things)?;
    for at in slots {
        all.push(slot_thing(*at))?;
    }
    Ok(all)
}

/// Whether each gap of a link has fill, given the things of which it is made, the addresses of the slots for which its fields ask,
/// and the gaps of its runs of code, as spans that rise apart.
///
/// # Errors
///
/// Only where memory is refused.
pub fn are_gaps_filled(
    alloc: Global,
    image: &ForeignImage<'_>,
    things: &[Thing],
    slots: &[u64],
    runs: &[Span],
) -> Result<bool, AllocError>
    requires some { All (λ s. s.from < s.to) runs.now }
    requires rising { AllPairs IsSpanBefore runs.now }
    ensures { (l : ForeignLink) → l.image ≡ image.now → explained_things l ≡ things.now
        → AreSlots l slots.now → AreRunGaps l runs.now
        → IfOk result (λ b. IsTrue b ↔ AreGapsFilled l) }
{
    let _program = image.image();
    let all = explained(alloc, things, slots)?;
    let spans = spans_of(alloc, &all)?;
    let filled = are_segments_filled(image, &spans, runs);
    Ok(filled)
}
