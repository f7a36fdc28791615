//! F13: section headers and the symbol table are true.
ghost use Rattle.std.specs.Prelude.{◌↔◌, IfOk, IsTrue};
ghost use Rattle.judge_model.specs.RightForeign.{Holds};
ghost use Rattle.judge_model.specs.declared.judgement.Requirement.TheVariants as requirement;

use elf_model::NameSeed;
use judge_stages::BoundClaim;
use std::alloc::{AllocError, Global};
use symbol_judge::are_tables_right;

/// Whether the tables of a link are right.
pub fn holds(
    alloc: Global,
    bound: &BoundClaim<'_, '_, '_>,
    seed: Option<NameSeed>,
) -> Result<bool, AllocError>
    ensures { IfOk result (λ b. IsTrue b ↔ Holds requirement.F13 bound.now) }
{
    let strips = bound.placed().claim().plan.strip;
    are_tables_right(alloc, bound.parts(), strips, seed)
}
