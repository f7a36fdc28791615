//! F8: the call frames are right of which the linker made one list, and the tables of that.
ghost use Rattle.std.specs.Prelude.{◌≡◌, ◌↔◌, IfOk, IsTrue};
ghost use Rattle.judge_model.specs.Certificates.{IsInOrder};
ghost use Rattle.judge_model.specs.RightForeign.{Holds, IsJudged};
ghost use Rattle.judge_model.specs.declared.judgement.Requirement.TheVariants as requirement;
ghost use Rattle.link_fields.specs.Parts.{AreTaken};

use frame_judge::{FramedSections, are_frames_right};
use judge_stages::{BoundClaim, PlacedClaim, framed_pieces};
use link_fields::MergedLines;
use memory_judge::Taken;
use std::alloc::{AllocError, Global};

/// Whether the words ask for a table of call frames.
fn asks_for_tables(placed: &PlacedClaim<'_, '_>) -> bool
    ensures { result ≡ placed.now.plan.tables }
{
    placed.claim().wider.tables
}

/// Whether the call frames of a link are right, given where no slot may be.
pub fn holds(
    alloc: Global,
    bound: &BoundClaim<'_, '_, '_>,
    taken: &Taken<'_>,
) -> Result<bool, AllocError>
    requires taken { AreTaken bound.now taken.now }
    requires judged { IsJudged bound.now }
    requires ordered { IsInOrder bound.now.certificate }
    ensures { IfOk result (λ b. IsTrue b ↔ Holds requirement.F8 bound.now) }
{
    let placed = bound.placed();
    let certificate = placed.claim().certificate;
    let pieces = framed_pieces(alloc, placed.loaded())?;
    let Some(framed) = FramedSections::read(alloc, &pieces)? else {
        return Ok(false);
    };
    let lines = MergedLines::new(&certificate.frames);
    let areas = &certificate.areas;
    let drops = placed.drops();
    let list = certificate.list;
    let tables = asks_for_tables(placed);
    are_frames_right(
        alloc,
        bound.parts(),
        taken,
        &framed,
        &lines,
        drops,
        areas,
        list,
        tables,
    )
}
