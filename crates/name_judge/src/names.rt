//! Whether the names that a linker defines have values that they may have.
ghost use Rattle.std.specs.Prelude.{◌≡◌, ◌↔◌, ◌++◌, IfOk, IsTrue};
ghost use Rattle.check_link.specs.PieceParts.{AreInLimit};
ghost use Rattle.judge_model.specs.Links.{ForeignLink};
ghost use Rattle.judge_model.specs.Names.{AreNamesRight};
ghost use Rattle.judge_model.specs.Placed.{things_of};
ghost use Rattle.link_fields.specs.Parts.{parts_of};
ghost use Rattle.name_judge.specs.Bounds.{AreNamesBy, ArePairsOne};

use crate::marks::{Marks, marks_of};
use crate::rows::{are_rows_right, is_pair_one};
use check_link::{Span, spans_of};
use elf_model::Thing;
use judge_model::StretchLine;
use link_fields::LinkParts;
use std::alloc::{AllocError, Global};
use std::collections::BTreeMap;

/// Whether the beginning and the end of each array that has nothing are one.
fn are_pairs_one(parts: &LinkParts<'_, '_, '_>, spans: &BTreeMap<&[u8], Span>) -> bool
    ensures { IsTrue result ↔ ArePairsOne parts.now spans.now }
{
    if !is_pair_one(parts, spans, b"__init_array_start", b"__init_array_end") {
        return false;
    }
    if !is_pair_one(parts, spans, b"__fini_array_start", b"__fini_array_end") {
        return false;
    }
    is_pair_one(
        parts,
        spans,
        b"__preinit_array_start",
        b"__preinit_array_end",
    )
}

/// Whether all names are right by the addresses of a link.
fn are_names_by(parts: &LinkParts<'_, '_, '_>, marks: &Marks, spans: &BTreeMap<&[u8], Span>) -> bool
    ensures { IsTrue result ↔ AreNamesBy parts.now marks.now spans.now }
{
    if !are_rows_right(parts, marks, spans, parts.rows) {
        return false;
    }
    are_pairs_one(parts, spans)
}

/// Whether the names that a linker defines have values that they may have, given a link's parts, all that takes up memory
/// (headers, notes, areas, sections and common blocks), and what of these the linker filled: notes and areas.
///
/// # Errors
///
/// Only where memory is refused.
pub fn are_names_right(
    alloc: Global,
    parts: &LinkParts<'_, '_, '_>,
    things: &[Thing],
    filled: &[StretchLine],
) -> Result<bool, AllocError>
    requires { AreInLimit parts.now.placed }
    ensures { (l : ForeignLink) → parts_of l ≡ parts.now → things_of l ≡ things.now
        → l.certificate.notes ++ l.certificate.areas ≡ filled.now
        → IfOk result (λ b. IsTrue b ↔ AreNamesRight l) }
{
    let placed = parts.addresses.placed();
    let spans = spans_of(alloc, placed)?;
    let marks = marks_of(parts.image, placed, things, filled);
    Ok(are_names_by(parts, &marks, &spans))
}
