//! F4: the names that the linker defines have values that they may have, and merged strings and constants are where the certificate
//! says.
ghost use Rattle.std.specs.Prelude.{◌≡◌, ◌↔◌, IfOk, IsTrue, None};
ghost use Rattle.judge_model.specs.Merged.{AreMergedRight, may_write_all};
ghost use Rattle.judge_model.specs.Names.{AreNamesRight};
ghost use Rattle.judge_model.specs.RightForeign.{Holds};
ghost use Rattle.judge_model.specs.declared.judgement.Requirement.TheVariants as requirement;

use judge_stages::{BoundClaim, PlacedClaim, merged_pieces};
use merge_judge::{are_areas_right, are_lines_right};
use name_judge::are_names_right;
use std::alloc::{AllocError, Global};

/// Whether the words ask for memory that is written and executed.
fn may_write_all(placed: &PlacedClaim<'_, '_>) -> bool
    requires script { placed.now.plan.script ≡ None }
    ensures { result ≡ may_write_all placed.now }
{
    placed.claim().wider.writes_code
}

/// Whether merged strings and constants are right.
fn are_merged_right(alloc: Global, placed: &PlacedClaim<'_, '_>) -> Result<bool, AllocError>
    requires placed { Holds requirement.F3 placed.now }
    requires script { placed.now.plan.script ≡ None }
    ensures { IfOk result (λ b. IsTrue b ↔ AreMergedRight placed.now) }
{
    let certificate = placed.claim().certificate;
    let areas = &certificate.areas;
    if !are_areas_right(placed.image(), areas, may_write_all(placed)) {
        return Ok(false);
    }
    let merged = merged_pieces(alloc, placed.loaded())?;
    are_lines_right(alloc, placed.image(), &merged, areas, &certificate.merged)
}

/// Whether the linker's names are right.
fn has_right_names(alloc: Global, bound: &BoundClaim<'_, '_, '_>) -> Result<bool, AllocError>
    requires placed { Holds requirement.F3 bound.now }
    ensures { IfOk result (λ b. IsTrue b ↔ AreNamesRight bound.now) }
{
    let placed = bound.placed();
    are_names_right(alloc, bound.parts(), placed.things(), placed.filled())
}

/// Whether the names and the merged strings and constants of a link without a script are right whose sections are placed right.
pub fn holds(alloc: Global, bound: &BoundClaim<'_, '_, '_>) -> Result<bool, AllocError>
    requires placed { Holds requirement.F3 bound.now }
    requires script { bound.now.plan.script ≡ None }
    ensures { IfOk result (λ b. IsTrue b ↔ Holds requirement.F4 bound.now) }
{
    if !has_right_names(alloc, bound)? {
        return Ok(false);
    }
    are_merged_right(alloc, bound.placed())
}
