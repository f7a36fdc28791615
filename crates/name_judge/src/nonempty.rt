//! Where the sections begin and end that aren't empty: programs clear their zeros, and keep their data.
ghost use Rattle.std.specs.Prelude.{◌≡◌};
ghost use Rattle.elf_model.specs.Link.LinkerValues.{end_of_pieces, start_of_pieces};
ghost use Rattle.elf_model.proofs.PieceBounds.{earlier, further};
ghost use Rattle.check_link.specs.PieceParts.{AreInLimit, IsInLimit};
ghost use Rattle.check_link.specs.Views.{piece_view, placed_view, placed_views};
ghost use Rattle.judge_model.specs.Names.{is_some_small_data, is_some_zeros};

use crate::marks::is_small_data;
use check_link::{Piece, Placed};

fn is_some_zeros(piece: &Piece<'_>) -> bool
    ensures { result ≡ is_some_zeros (piece_view piece.now) }
{
    let header = &piece.header;
    header.is_nobits() && !header.is_thread_local() && header.sh_size > 0
}

/// The lesser of a start and the address of such a piece.
fn earlier_zeros(start: Option<u64>, placed: &Placed<'_>) -> Option<u64>
    ensures { result ≡ earlier is_some_zeros start (placed_view placed.now) }
{
    if !is_some_zeros(&placed.piece) {
        return start;
    }
    match start {
        Some(at) => Some(placed.at.min(at)),
        None => Some(placed.at),
    }
}

/// The least address of zeros that aren't empty; None without any.
pub fn start_of_zeros(placed: &[Placed<'_>]) -> Option<u64>
    ensures { result ≡ start_of_pieces is_some_zeros (placed_views placed.now) }
{
    let mut start = None;
    for q in placed {
        start = earlier_zeros(start, q);
    }
    start
}

fn is_some_data(piece: &Piece<'_>) -> bool
    ensures { result ≡ is_some_small_data (piece_view piece.now) }
{
    is_small_data(piece) && piece.header.sh_size > 0
}

/// The greater of an end and that of such a piece.
fn further_data(end: u64, placed: &Placed<'_>) -> u64
    requires { IsInLimit (placed_view placed.now) }
    ensures { result ≡ further is_some_small_data end (placed_view placed.now) }
{
    if is_some_data(&placed.piece) {
        return end.max(placed.at + placed.piece.header.sh_size);
    }
    end
}

/// The greatest end of data in the file that aren't large nor empty; 0 without any.
pub fn end_of_data(placed: &[Placed<'_>]) -> u64
    requires { AreInLimit (placed_views placed.now) }
    ensures { result ≡ end_of_pieces is_some_small_data (placed_views placed.now) }
{
    let mut end = 0;
    for q in placed {
        end = further_data(end, q);
    }
    end
}
