//! F9: PT_TLS is the block of thread-local storage.
ghost use Rattle.std.specs.Prelude.{◌↔◌, IsTrue};
ghost use Rattle.judge_model.specs.RightForeign.{Holds};
ghost use Rattle.judge_model.specs.declared.judgement.Requirement.TheVariants as requirement;

use judge_stages::PlacedClaim;
use thread_judge::is_thread_block_right;

/// Whether the thread block is right of a link whose sections are placed right.
pub fn holds(placed: &PlacedClaim<'_, '_>) -> bool
    requires placed { Holds requirement.F3 placed.now }
    ensures { IsTrue result ↔ Holds requirement.F9 placed.now }
{
    is_thread_block_right(placed.image(), placed.placed())
}
