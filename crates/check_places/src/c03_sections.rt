//! C3: whether kept sections have lawful kinds, common symbols are sound, and the drop, place and common lines of the map
//! are those of the objects.
ghost use Rattle.std.specs.Prelude.{◌≡◌, ◌↔◌, IfOk, IsTrue, map};
ghost use Rattle.linkmap.specs.Borrowed.{place_row};
ghost use Rattle.elf_model.specs.Image.RightLink.{Holds, drop_rows, facts_of_piece, facts_of_row, objects_of};
ghost use Rattle.elf_model.specs.declared.verdict.Clause.TheVariants as clause;
ghost use Rattle.check_link.specs.Views.{piece_view, piece_views};

use crate::c03_sections::drops::{are_drops, drops_of};
use crate::c03_sections::kinds::are_lawful_kinds;
use check_link::Piece;
use check_stages::LoadedLink;
use elf_model::DropLine;
use linkmap::BorrowedPlace;
use std::alloc::{AllocError, Global};

pub mod drops;
mod kinds;

/// Whether a place line says of a piece what it is.
pub fn is_line_of(line: &BorrowedPlace<'_>, piece: &Piece<'_>) -> bool
    ensures { IsTrue result ↔ (facts_of_row (place_row line.now)
        ≡ facts_of_piece (piece_view piece.now)) }
{
    if line.object != piece.object || line.section != piece.section {
        return false;
    }
    line.size == piece.header.sh_size && line.name.as_slice() == piece.name
}

/// Whether the place lines are those of the pieces, in order, but for addresses.
fn are_lines_of(lines: &[BorrowedPlace<'_>], pieces: &[Piece<'_>]) -> bool
    ensures { IsTrue result ↔ (map facts_of_row (map place_row lines.now)
        ≡ map facts_of_piece (piece_views pieces.now)) }
{
    if lines.len() != pieces.len() {
        return false;
    }
    for (k, line) in lines.iter().enumerate() {
        if !is_line_of(line, &pieces[k]) {
            return false;
        }
    }
    true
}

/// Whether the third clause holds of a link.
pub fn holds(alloc: Global, loaded: &LoadedLink<'_, '_>) -> Result<bool, AllocError>
    ensures { IfOk result (λ b. IsTrue b ↔ Holds clause.C3 loaded.now) }
{
    let drops = drops_of(alloc, loaded.names().objects())?;
    let listed = are_sections_listed(loaded, &drops);
    Ok(listed)
}

/// Whether each piece is of a lawful kind, the common symbols are sound, and the drop, place and common lines of a link's
/// map are those of its dropped sections, its pieces and its common blocks.
fn are_sections_listed(loaded: &LoadedLink<'_, '_>, drops: &[DropLine]) -> bool
    requires { drops.now ≡ drop_rows 0 (objects_of loaded.now) }
    ensures { IsTrue result ↔ Holds clause.C3 loaded.now }
{
    let names = loaded.names();
    let pieces = loaded.pieces();
    let link = loaded.link();
    if !are_lawful_kinds(pieces) {
        return false;
    }
    if !names.are_sound_commons() {
        return false;
    }
    if !loaded.lines().are_of_blocks(names) {
        return false;
    }
    if !are_drops(&link.map.drops, drops) {
        return false;
    }
    are_lines_of(&link.map.places, pieces)
}
