//! Sections of call frames.
ghost use Rattle.std.specs.Prelude.{◌≡◌};
ghost use Rattle.check_link.specs.Views.{piece_view};
ghost use Rattle.judge_model.specs.Links.{is_frames};

use check_link::Piece;

/// Whether a section has call frames, by its name (LSB Core 10.6).
pub fn is_frames(piece: &Piece<'_>) -> bool
    ensures { result ≡ is_frames (piece_view piece.now) }
{
    piece.name == b".eh_frame".as_slice()
}
