//! Whether a link with --gc-sections has the sections that it is to have.
ghost use Rattle.std.specs.Prelude.{◌≡◌, ◌↔◌, ◌∷◌, ◌<◌, ℕ, All, IfOk, IsTrue, None, Some, true};
ghost use Rattle.std.specs.List.{slice_get};
ghost use Rattle.check_load.specs.Views.{loaded_view, loaded_views};
ghost use Rattle.judge_model.specs.Kept.{root_symbols};
ghost use Rattle.judge_model.specs.Links.{ForeignLink, objects_of};
ghost use Rattle.judge_model.specs.RightForeign.{Holds};
ghost use Rattle.judge_model.specs.declared.judgement.Requirement.TheVariants as requirement;
ghost use Rattle.keep_judge.specs.Collected.{AreObjectsRight, IsNameThere, IsObjectRight, has_name};

use crate::asked_bounds::{are_bounds_kept, lost_names};
use crate::groups::are_groups_whole;
use crate::object_sections::are_own_right;
use crate::root_symbols::is_name_there;
use check_link::Names;
use check_load::Loaded;
use command::Plan;
use link_fields::Drops;
use std::alloc::{AllocError, Global};
use std::collections::BTreeMap;

/// Whether the sections that define names aren't left out.
fn are_all_there(names: &Names<'_, '_>, drops: &Drops<'_>, all: &[&str]) -> bool
    ensures { IsTrue result ↔ All (λ s. IsNameThere names.now drops.now s.now) all.now }
{
    all.iter()
        .all(|name| is_name_there(names, drops, name.as_bytes()))
}

/// Whether the sections that define the entry and the names of -u aren't left out.
fn are_names_there(names: &Names<'_, '_>, drops: &Drops<'_>, plan: &Plan<'_>) -> bool
    ensures { IsTrue result ↔ All (IsNameThere names.now drops.now)
        (plan.now.entry ∷ plan.now.undefined) }
{
    if !is_name_there(names, drops, plan.entry.as_bytes()) {
        return false;
    }
    are_all_there(names, drops, &plan.undefined)
}

/// Whether the sections, the groups and the relocations of object `number` are right.
fn is_object_right(
    alloc: Global,
    names: &Names<'_, '_>,
    drops: &Drops<'_>,
    lost: &BTreeMap<&[u8], bool>,
    number: u64,
    loaded: &Loaded<'_>,
) -> Result<bool, AllocError>
    ensures { IfOk result (λ b. IsTrue b ↔ IsObjectRight names.now drops.now (has_name lost.now) number
        (loaded_view loaded.now)) }
{
    if !are_own_right(alloc, drops, number, loaded)? {
        return Ok(false);
    }
    if !are_groups_whole(drops, number, loaded) {
        return Ok(false);
    }
    are_bounds_kept(alloc, drops, names, lost, number, loaded)
}

/// Whether all objects are right.
fn are_objects_right(
    alloc: Global,
    names: &Names<'_, '_>,
    drops: &Drops<'_>,
    lost: &BTreeMap<&[u8], bool>,
) -> Result<bool, AllocError>
    ensures { IfOk result (λ b. IsTrue b ↔ AreObjectsRight names.now drops.now (has_name lost.now)) }
{
    let objects = names.objects();
    for k in 0..objects.len() {
        if !is_object_right(alloc, names, drops, lost, k as u64, &objects[k])? {
            return Ok(false);
        }
    }
    Ok(true)
}

/// Whether the sections are in an image that --gc-sections has to keep (ld(1)): those of the entry and of the names of -u, those that
/// programs run or walk over, notes, those with SHF_GNU_RETAIN, those of which a name tells where they begin or end, and those of
/// types that are not known; whether groups are there as wholes, and sections with SHF_LINK_ORDER where those are to which they are
/// linked; and no section with SHF_EXCLUDE. The words have no script.
pub fn are_collected(
    alloc: Global,
    names: &Names<'_, '_>,
    plan: &Plan<'_>,
    drops: &Drops<'_>,
) -> Result<bool, AllocError>
    ensures { (l : ForeignLink) → objects_of l ≡ names.now
        → root_symbols l ≡ plan.now.entry ∷ plan.now.undefined
        → l.certificate.drops ≡ drops.now → l.plan.collects ≡ true → l.plan.script ≡ None
        → IfOk result (λ b. IsTrue b ↔ Holds requirement.F2 l) }
{
    if !are_names_there(names, drops, plan) {
        return Ok(false);
    }
    let lost = lost_names(alloc, names.objects(), drops)?;
    are_objects_right(alloc, names, drops, &lost)
}
