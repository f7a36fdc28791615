//! Whether memory has merged strings and constants where lines say.
ghost use Rattle.std.specs.Prelude.{◌≡◌, ◌↔◌, ◌<◌, All, Any, IfOk, IsSomeAnd, IsTrue, find, length, max};
ghost use Rattle.check_link.specs.Views.{piece_view, piece_views};
ghost use Rattle.elf_model.specs.Image.MapText.{Ascends};
ghost use Rattle.elf_model.specs.Image.MemoryImage.{Encloses, loads};
ghost use Rattle.judge_model.specs.Certificates.{StretchBefore};
ghost use Rattle.judge_model.specs.Memory.{Holds};
ghost use Rattle.judge_model.specs.Merged.{IsMergedRight, IsPieceRight, is_section_of};
ghost use Rattle.merge_judge.specs.Lines.{AreEnclosed, AreSized, IsSized};

use crate::alignment::is_aligned_like;
use crate::areas::has_area;
use crate::sections::Sections;
use crate::units::is_piece;
use byteview::View;
use check_link::Piece;
use foreign_image::ForeignImage;
use judge_model::{MergedLine, StretchLine};
use memory_judge::holds_rest;
use std::alloc::{AllocError, Global};

/// Whether memory holds bytes at an address, in one segment.
fn holds(image: &ForeignImage<'_>, at: u64, bytes: &[u8]) -> bool
    requires { 0 < length bytes.now → Any (λ h. Encloses h at (length bytes.now)) (loads image.now) }
    ensures { IsTrue result ↔ Holds image.now at bytes.now }
{
    holds_rest(image, at, bytes.len() as u64, bytes, &[])
}

/// The alignment of a section, where 0 means 1.
fn align_of(piece: &Piece<'_>) -> u64
    ensures align { result ≡ (piece_view piece.now).align }
    ensures some { 0 < result }
{
    piece.header.sh_addralign.max(1)
}

/// Whether a section has what a line says, and memory has it where the line says.
fn is_piece_right(image: &ForeignImage<'_>, m: &MergedLine, piece: &Piece<'_>) -> bool
    requires sized { IsSized (piece_view piece.now) }
    requires enclosed { Any (λ h. Encloses h m.now.address m.now.size) (loads image.now) }
    ensures { IsTrue result ↔ IsPieceRight image.now m.now (piece_view piece.now) }
{
    if !is_piece(piece, m.offset, m.size) {
        return false;
    }
    if !is_aligned_like(align_of(piece), m.offset, m.address) {
        return false;
    }
    let bytes = View::new(piece.bytes).part(m.offset as usize, m.size as usize);
    holds(image, m.address, bytes)
}

/// The same of the section that a line names, where it is one of some.
fn is_section_right(image: &ForeignImage<'_>, sections: &Sections<'_, '_>, m: &MergedLine) -> bool
    requires sized { All IsSized sections.now }
    requires enclosed { Any (λ h. Encloses h m.now.address m.now.size) (loads image.now) }
    ensures { IsTrue result
        ↔ IsSomeAnd (find (is_section_of m.now) sections.now) (IsPieceRight image.now m.now) }
{
    match sections.find(m.object, m.section) {
        Some(piece) => is_piece_right(image, m, piece),
        None => false,
    }
}

/// Whether a line is right, given the sections that were merged, and areas.
fn is_line_right(
    image: &ForeignImage<'_>,
    sections: &Sections<'_, '_>,
    areas: &[StretchLine],
    m: &MergedLine,
) -> bool
    requires sized { All IsSized sections.now }
    requires rising { Ascends StretchBefore areas.now }
    requires enclosed { AreEnclosed image.now areas.now }
    ensures { IsTrue result ↔ IsMergedRight image.now sections.now areas.now m.now }
{
    if m.size == 0 {
        return false;
    }
    if !has_area(areas, m) {
        return false;
    }
    is_section_right(image, sections, m)
}

fn are_all_right(
    image: &ForeignImage<'_>,
    sections: &Sections<'_, '_>,
    areas: &[StretchLine],
    lines: &[MergedLine],
) -> bool
    requires sized { All IsSized sections.now }
    requires rising { Ascends StretchBefore areas.now }
    requires enclosed { AreEnclosed image.now areas.now }
    ensures { IsTrue result
        ↔ All (IsMergedRight image.now sections.now areas.now) lines.now }
{
    for m in lines {
        if !is_line_right(image, sections, areas, m) {
            return false;
        }
    }
    true
}

/// Whether memory has each merged string and constant where its line says, whole and as aligned as it was, in one of the areas, each
/// of which lies in a segment.
///
/// # Errors
///
/// Only where memory is refused.
pub fn are_lines_right(
    alloc: Global,
    image: &ForeignImage<'_>,
    merged: &[Piece<'_>],
    areas: &[StretchLine],
    lines: &[MergedLine],
) -> Result<bool, AllocError>
    requires sized { AreSized (piece_views merged.now) }
    requires rising { Ascends StretchBefore areas.now }
    requires enclosed { AreEnclosed image.now areas.now }
    ensures { IfOk result (λ b. IsTrue b
        ↔ All (IsMergedRight image.now (piece_views merged.now) areas.now) lines.now) }
{
    let sections = Sections::new(alloc, merged)?;
    let right = are_all_right(image, &sections, areas, lines);
    Ok(right)
}
