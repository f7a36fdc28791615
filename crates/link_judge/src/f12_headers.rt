//! F12: the headers are those of a program, and give it no more rights than the link does.
ghost use Rattle.std.specs.Prelude.{◌↔◌, IsTrue};
ghost use Rattle.judge_model.specs.RightForeign.{Holds};
ghost use Rattle.judge_model.specs.declared.judgement.Requirement.TheVariants as requirement;

use header_judge::are_headers_right;
use judge_stages::PlacedClaim;

/// Whether the headers of a link without a script are right.
pub fn holds(placed: &PlacedClaim<'_, '_>) -> bool
    ensures { IsTrue result ↔ Holds requirement.F12 placed.now }
{
    let objects = placed.names().objects();
    let executes = placed.claim().wider.executes_stack;
    are_headers_right(placed.image(), objects, placed.placed(), false, executes)
}
