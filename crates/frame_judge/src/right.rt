//! F8, whole.
ghost use Rattle.std.specs.Prelude.{◌≡◌, ◌↔◌, IfOk, IsTrue, map};
ghost use Rattle.judge_model.specs.Links.{ForeignLink, framed_of};
ghost use Rattle.judge_model.specs.Frames.{AreFramesRight};
ghost use Rattle.judge_model.specs.RightForeign.{Holds};
ghost use Rattle.judge_model.specs.declared.judgement.Requirement.TheVariants as requirement;
ghost use Rattle.link_fields.specs.Parts.{AreTaken, parts_of};
ghost use Rattle.frame_judge.specs.Tables.{IsListRead};

use crate::list::has_right_list;
use crate::list_fields::are_list_fields_right;
use crate::sections::FramedSections;
use crate::tables::are_tables_right;
use judge_model::StretchLine;
use link_fields::{Drops, LinkParts, MergedLines};
use memory_judge::Taken;
use std::alloc::{AllocError, Global};

/// Whether the call frames of a link are right of which its linker made one list, but for the tables of that, given its parts, where memory
/// is taken, its sections of call frames, the lines of their records and of the sections that are left out, the areas and the list.
fn is_list_right(
    alloc: Global,
    parts: &LinkParts<'_, '_, '_>,
    taken: &Taken<'_>,
    framed: &FramedSections<'_, '_>,
    lines: &MergedLines<'_>,
    drops: &Drops<'_>,
    areas: &[StretchLine],
    list: Option<StretchLine>,
) -> Result<bool, AllocError>
    ensures read { IfOk result (λ b. IsTrue b → IsListRead parts.now.image list) }
    ensures right { (l : ForeignLink) → parts_of l ≡ parts.now → AreTaken l taken.now → framed_of l ≡ framed.now
        → l.certificate.frames ≡ lines.now → l.certificate.drops ≡ drops.now
        → l.certificate.areas ≡ areas.now → l.certificate.list ≡ list
        → IfOk result (λ b. IsTrue b ↔ AreFramesRight l) }
{
    let objects = parts.names.objects();
    if !has_right_list(
        alloc,
        parts.image,
        objects,
        drops,
        framed,
        lines,
        areas,
        list,
    )? {
        return Ok(false);
    }
    Ok(are_list_fields_right(parts, taken, framed, lines, drops))
}

/// Whether the call frames of a link are right of which its linker made one list, given its parts, where memory is taken, its sections
/// of call frames, the lines of their records and of the sections that are left out, the areas, the list, and whether the words ask for
/// a table of it.
///
/// # Errors
///
/// Only where memory is refused.
pub fn are_frames_right(
    alloc: Global,
    parts: &LinkParts<'_, '_, '_>,
    taken: &Taken<'_>,
    framed: &FramedSections<'_, '_>,
    lines: &MergedLines<'_>,
    drops: &Drops<'_>,
    areas: &[StretchLine],
    list: Option<StretchLine>,
    tables: bool,
) -> Result<bool, AllocError>
    ensures { (l : ForeignLink) → parts_of l ≡ parts.now → AreTaken l taken.now → framed_of l ≡ framed.now
        → l.certificate.frames ≡ lines.now → l.certificate.drops ≡ drops.now
        → l.certificate.areas ≡ areas.now → l.certificate.list ≡ list → l.plan.tables ≡ tables
        → IfOk result (λ b. IsTrue b ↔ Holds requirement.F8 l) }
{
    if !is_list_right(alloc, parts, taken, framed, lines, drops, areas, list)? {
        return Ok(false);
    }
    are_tables_right(alloc, parts.image, areas, list, tables)
}
