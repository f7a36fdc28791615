//! Whether arrays of functions can stand one behind the other without a gap (System V gABI 4, .init_array): programs walk over them.
ghost use Rattle.std.specs.Prelude.{◌≡◌, ◌↔◌, All, IsTrue};
ghost use Rattle.check_link.specs.Views.{piece_view, piece_views};
ghost use Rattle.judge_model.specs.RightForeign.{IsWholeArray, is_of_array};

use check_link::Piece;
use header_judge::is_gathered;

/// The names of arrays.
static ARRAY_NAMES: [&[u8]; 5] = [
    b".init_array",
    b".fini_array",
    b".preinit_array",
    b".ctors",
    b".dtors",
];

/// Whether a section is a part of an array, by its name.
fn is_of_array(piece: &Piece<'_>) -> bool
    ensures { result ≡ is_of_array (piece_view piece.now) }
{
    is_gathered(piece.name, &ARRAY_NAMES)
}

/// Whether a section is of no array, or has whole entries of eight bytes at addresses that are multiples of eight.
fn is_whole(piece: &Piece<'_>) -> bool
    ensures { IsTrue result ↔ IsWholeArray (piece_view piece.now) }
{
    if !is_of_array(piece) {
        return true;
    }
    piece.header.sh_addralign == 8 && piece.header.sh_size % 8 == 0
}

/// Whether each part of an array of functions has an alignment of eight bytes, and a size that is a multiple of it.
pub fn are_arrays_whole(pieces: &[Piece<'_>]) -> bool
    ensures { IsTrue result ↔ All IsWholeArray (piece_views pieces.now) }
{
    for piece in pieces {
        if !is_whole(piece) {
            return false;
        }
    }
    true
}
