//! Whether property notes, which linkers join into one (Linux Extensions to gABI, "Program Property"), have no line that says where one
//! is as it came.
ghost use Rattle.std.specs.Prelude.{◌≡◌, ◌↔◌, All, IfOk, IsTrue, map};
ghost use Rattle.check_link.specs.Views.{piece_view, piece_views};
ghost use Rattle.elf_model.specs.Image.MapRecord.{place_row};
ghost use Rattle.input_judge.specs.Joined.{IsJoinedBy};
ghost use Rattle.input_judge.specs.SectionSets.{has_section};
ghost use Rattle.judge_model.specs.Links.{ForeignLink, is_property};
ghost use Rattle.judge_model.specs.RightForeign.{IsJoined};

use crate::section_sets::SectionSet;
use check_link::Piece;
use elf_model::PlaceLine;
use std::alloc::{AllocError, Global};

fn is_property(piece: &Piece<'_>) -> bool
    ensures { result ≡ is_property (piece_view piece.now) }
{
    piece.name == b".note.gnu.property".as_slice()
}

/// Whether a section is no property note, or none of those that have lines.
fn is_joined(piece: &Piece<'_>, placed: &SectionSet) -> bool
    ensures { IsTrue result ↔ IsJoinedBy (has_section placed.now) (piece_view piece.now) }
{
    if !is_property(piece) {
        return true;
    }
    !placed.has(piece.object, piece.section)
}

fn are_joined_by(pieces: &[Piece<'_>], placed: &SectionSet) -> bool
    ensures { IsTrue result
        ↔ All (IsJoinedBy (has_section placed.now)) (piece_views pieces.now) }
{
    for piece in pieces {
        if !is_joined(piece, placed) {
            return false;
        }
    }
    true
}

/// Whether no property note among some sections of objects has a line, given the lines of sections: what one object's note says would
/// else be said of all.
///
/// # Errors
///
/// Only where memory is refused.
pub fn are_notes_joined(
    alloc: Global,
    pieces: &[Piece<'_>],
    places: &[PlaceLine],
) -> Result<bool, AllocError>
    ensures { (l : ForeignLink) → l.certificate.places ≡ map place_row places.now
        → IfOk result (λ b. IsTrue b ↔ All (IsJoined l) (piece_views pieces.now)) }
{
    let placed = SectionSet::of_places(alloc, places)?;
    Ok(are_joined_by(pieces, &placed))
}
