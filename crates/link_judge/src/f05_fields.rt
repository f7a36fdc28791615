//! F5: the fields of relocations hold what their formulas say.
ghost use Rattle.std.specs.Prelude.{◌≡◌, IfSome, None};
ghost use Rattle.judge_model.specs.RightForeign.{Holds};
ghost use Rattle.judge_model.specs.declared.judgement.Requirement.TheVariants as requirement;
ghost use Rattle.link_fields.specs.Parts.{AreTaken};
ghost use Rattle.link_fields.specs.Wrong.{IsWrongField};

use judge_stages::BoundClaim;
use link_fields::{WrongField, wrong_field};
use memory_judge::Taken;

/// The first field of a link that isn't right, given where no slot may be; None where all are.
pub fn wrong(bound: &BoundClaim<'_, '_, '_>, taken: &Taken<'_>) -> Option<WrongField>
    requires { AreTaken bound.now taken.now }
    ensures right { result ≡ None → Holds requirement.F5 bound.now }
    ensures wrong { IfSome result (IsWrongField bound.now) }
{
    wrong_field(bound.parts(), taken, bound.placed().drops())
}
