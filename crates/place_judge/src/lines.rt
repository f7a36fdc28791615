//! Whether the place lines of a certificate are those of the plain sections.
ghost use Rattle.std.specs.Prelude.{◌≡◌, ◌↔◌, IsTrue, map};
ghost use Rattle.elf_model.specs.Image.MapRecord.{place_row};
ghost use Rattle.elf_model.specs.Image.RightLink.{facts_of_piece, facts_of_row};
ghost use Rattle.check_link.specs.Views.{piece_view, piece_views};

use check_link::Piece;
use elf_model::PlaceLine;

/// Whether a line says of a section what it is.
fn is_line_of(line: &PlaceLine, piece: &Piece<'_>) -> bool
    ensures { IsTrue result ↔ (facts_of_row (place_row line.now)
        ≡ facts_of_piece (piece_view piece.now)) }
{
    if line.object != piece.object || line.section != piece.section {
        return false;
    }
    line.size == piece.header.sh_size && line.name.as_slice() == piece.name
}

/// Whether lines say of sections what they are, but for their addresses, each in its turn.
pub fn are_lines_of(lines: &[PlaceLine], pieces: &[Piece<'_>]) -> bool
    ensures { IsTrue result ↔ (map facts_of_row (map place_row lines.now)
        ≡ map facts_of_piece (piece_views pieces.now)) }
{
    if lines.len() != pieces.len() {
        return false;
    }
    for (k, line) in lines.iter().enumerate() {
        if !is_line_of(line, &pieces[k]) {
            return false;
        }
    }
    true
}
