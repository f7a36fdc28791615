//! F7: beside the fields of relocations the bytes of sections are those of the inputs.
ghost use Rattle.std.specs.Prelude.{◌≡◌, IfOk, IfSome, None};
ghost use Rattle.judge_model.specs.RightForeign.{Holds};
ghost use Rattle.judge_model.specs.declared.judgement.Requirement.TheVariants as requirement;
ghost use Rattle.link_fields.specs.Wrong.{IsWrongRest};

use judge_stages::BoundClaim;
use link_fields::{WrongRest, wrong_rest};
use std::alloc::{AllocError, Global};

/// The first section or common block whose bytes beside fields aren't right, of a link whose sections are placed right; None where
/// there is none.
pub fn wrong(alloc: Global, bound: &BoundClaim<'_, '_, '_>) -> Result<Option<WrongRest>, AllocError>
    requires placed { Holds requirement.F3 bound.now }
    ensures right { IfOk result (λ r. r ≡ None → Holds requirement.F7 bound.now) }
    ensures wrong { IfOk result (λ r. IfSome r (IsWrongRest bound.now)) }
{
    wrong_rest(alloc, bound.parts(), bound.placed().drops())
}
