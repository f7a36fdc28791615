//! Whether pieces are at multiples of their alignments.
ghost use Rattle.std.specs.Prelude.{◌↔◌, All, IsTrue};
ghost use Rattle.check_link.specs.Views.{placed_view, placed_views};
ghost use Rattle.place_judge.specs.Places.{IsAligned};

use check_link::Placed;

fn is_aligned(q: &Placed<'_>) -> bool
    ensures { IsTrue result ↔ IsAligned (placed_view q.now) }
{
    q.at % q.piece.header.sh_addralign.max(1) == 0
}

fn are_all_aligned(placed: &[Placed<'_>]) -> bool
    ensures { IsTrue result ↔ All (λ q. IsAligned (placed_view q)) placed.now }
{
    placed.iter().all(|q| is_aligned(q))
}

/// Whether the address of each piece is a multiple of its alignment.
pub fn are_aligned(placed: &[Placed<'_>]) -> bool
    ensures { IsTrue result ↔ All IsAligned (placed_views placed.now) }
{
    are_all_aligned(placed)
}
