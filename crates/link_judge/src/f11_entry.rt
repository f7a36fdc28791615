//! F11: the program is entered at the definition of its entry's name.
ghost use Rattle.std.specs.Prelude.{◌↔◌, IsTrue};
ghost use Rattle.judge_model.specs.RightForeign.{Holds};
ghost use Rattle.judge_model.specs.declared.judgement.Requirement.TheVariants as requirement;

use check_link::entry_of;
use entry_judge::is_entry_right;
use judge_stages::BoundClaim;

/// Whether the entry of a link is right.
pub fn holds(bound: &BoundClaim<'_, '_, '_>) -> bool
    ensures { IsTrue result ↔ Holds requirement.F11 bound.now }
{
    let claim = bound.placed().claim();
    is_entry_right(bound.parts(), entry_of(&claim.plan))
}
