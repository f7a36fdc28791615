//! Whether linkers edit a section in a way that isn't judged: they merge strings and constants (SHF_MERGE) that relocations change, or
//! that aren't read-only data by their name, unless a line says where such a section is as it came.
ghost use Rattle.std.specs.Prelude.{◌≡◌, ◌↔◌, ◌&&◌, ◌||◌, ℕ, All, IfOk, IsTrue, false, map, not};
ghost use Rattle.check_link.specs.Views.{piece_view, piece_views};
ghost use Rattle.check_load.specs.Views.{loaded_views};
ghost use Rattle.elf_model.specs.Image.MapRecord.{place_row};
ghost use Rattle.input_judge.specs.Edited.{is_edited_by, is_unmergeable_by};
ghost use Rattle.input_judge.specs.SectionSets.{has_section};
ghost use Rattle.judge_model.specs.Links.{ForeignLink, objects_of};
ghost use Rattle.judge_model.specs.RightForeign.{is_edited, is_of_constants};

use crate::section_sets::SectionSet;
use check_link::Piece;
use check_load::Loaded;
use elf_model::PlaceLine;
use header_judge::is_gathered;
use link_fields::is_mergeable;
use std::alloc::{AllocError, Global};

/// The names of read-only data.
static CONSTANT_NAMES: [&[u8]; 2] = [b".rodata", b".lrodata"];

/// Whether a section is one of read-only data, by its name.
fn is_of_constants(piece: &Piece<'_>) -> bool
    ensures { result ≡ is_of_constants (piece_view piece.now) }
{
    is_gathered(piece.name, &CONSTANT_NAMES)
}

/// Whether linkers merge what a section has in a way that isn't judged, given the sections that relocations change.
fn is_unmergeable(piece: &Piece<'_>, relocated: &SectionSet) -> bool
    ensures { result ≡ is_unmergeable_by (has_section relocated.now) (piece_view piece.now) }
{
    is_mergeable(piece) && (relocated.has(piece.object, piece.section) || !is_of_constants(piece))
}

/// Whether linkers edit a section, given those that have lines and those that relocations change.
fn is_edited(piece: &Piece<'_>, placed: &SectionSet, relocated: &SectionSet) -> bool
    ensures { result ≡ is_edited_by (has_section placed.now) (has_section relocated.now)
        (piece_view piece.now) }
{
    if placed.has(piece.object, piece.section) {
        return false;
    }
    is_unmergeable(piece, relocated)
}

fn is_unedited(piece: &Piece<'_>, placed: &SectionSet, relocated: &SectionSet) -> bool
    ensures { IsTrue result ↔ (is_edited_by (has_section placed.now) (has_section relocated.now)
        (piece_view piece.now) ≡ false) }
{
    !is_edited(piece, placed, relocated)
}

fn are_unedited_by(pieces: &[Piece<'_>], placed: &SectionSet, relocated: &SectionSet) -> bool
    ensures { IsTrue result
        ↔ All (λ p. is_edited_by (has_section placed.now) (has_section relocated.now) p ≡ false)
        (piece_views pieces.now) }
{
    for piece in pieces {
        if !is_unedited(piece, placed, relocated) {
            return false;
        }
    }
    true
}

/// Whether linkers edit none of some sections of objects in a way that isn't judged, given the lines of sections: strings and constants
/// that may be merged, and that relocations change or whose section isn't one of read-only data by its name, have lines, which say where
/// they are as they came.
///
/// # Errors
///
/// Only where memory is refused.
pub fn are_unedited(
    alloc: Global,
    objects: &[Loaded<'_>],
    pieces: &[Piece<'_>],
    places: &[PlaceLine],
) -> Result<bool, AllocError>
    ensures { (l : ForeignLink) → objects_of l ≡ loaded_views objects.now
        → l.certificate.places ≡ map place_row places.now
        → IfOk result (λ b. IsTrue b
        ↔ All (λ p. is_edited l p ≡ false) (piece_views pieces.now)) }
{
    let placed = SectionSet::of_places(alloc, places)?;
    let relocated = SectionSet::of_relocations(alloc, objects)?;
    Ok(are_unedited_by(pieces, &placed, &relocated))
}
