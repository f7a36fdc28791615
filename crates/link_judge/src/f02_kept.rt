//! F2: the image has all sections but those that no image has, or with --gc-sections at least those that stay.
ghost use Rattle.std.specs.Prelude.{◌≡◌, ◌↔◌, IfOk, IsTrue, None};
ghost use Rattle.judge_model.specs.RightForeign.{Holds};
ghost use Rattle.judge_model.specs.declared.judgement.Requirement.TheVariants as requirement;

use judge_stages::LoadedClaim;
use keep_judge::are_sections_kept;
use std::alloc::{AllocError, Global};

/// Whether a link without a script keeps its sections.
pub fn holds(alloc: Global, loaded: &LoadedClaim<'_, '_>) -> Result<bool, AllocError>
    requires script { loaded.now.plan.script ≡ None }
    ensures { IfOk result (λ b. IsTrue b ↔ Holds requirement.F2 loaded.now) }
{
    let claim = loaded.claim();
    let collects = claim.wider.collects;
    are_sections_kept(alloc, loaded.names(), &claim.plan, collects, loaded.drops())
}
