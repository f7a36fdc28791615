//! The objects whose debug data are left out: those with data that can't be joined, and those that rely on such ones.
ghost use Rattle.std.specs.Prelude.{◌≡◌, IfOk, List};
ghost use Rattle.std.specs.List.{list_any};
ghost use Rattle.elf_model.specs.Inputs.ObjectFile.{groups};
ghost use Rattle.elf_model.specs.Link.Loading as loading;
ghost use Rattle.search.specs.Views.{loaded_view, loaded_views};
ghost use Rattle.debug_image.specs.DebugSections as spec;
ghost use Rattle.debug_image.specs.KeptGroups.{groups_from};
ghost use Rattle.debug_image.specs.KeptTables.{AreKept};

use crate::debug_sections::{has_unjoinable, is_debug_section};
use crate::kept_groups::{KeptGroups, is_comdat, kept_of};
use elf_read::Group;
use search::LoadedObject;
use std::alloc::{AllocError, Global};

/// Whether section `n` of an object is dropped debug data.
fn is_lost(loaded: &LoadedObject<'_>, n: usize) -> bool
    ensures { result ≡ spec.is_lost (loaded_view loaded.now) n }
{
    loaded.is_dropped(n) && is_debug_section(loaded, n)
}

/// Whether one of some sections of an object is dropped debug data.
fn has_lost(loaded: &LoadedObject<'_>, numbers: &[u32]) -> bool
    ensures { result ≡ list_any (spec.is_lost (loaded_view loaded.now)) numbers.now }
{
    for number in numbers {
        if is_lost(loaded, *number as usize) {
            return true;
        }
    }
    false
}

/// Whether a group of an object is a COMDAT one with debug data that are dropped.
fn loses_debug_data(loaded: &LoadedObject<'_>, group: &Group<'_>) -> bool
    ensures { result ≡ spec.loses_debug_data (loaded_view loaded.now) group.now }
{
    is_comdat(group) && has_lost(loaded, group.members())
}

/// Whether an object is left out, by the flags of the objects up to it.
pub fn is_flagged(flags: &[bool], object: u64) -> bool
    ensures { result ≡ spec.is_flagged flags.now object }
{
    match flags.get(object as usize) {
        Some(flag) => *flag,
        None => false,
    }
}

/// Whether the kept group of a group's signature is in an object that is left out.
fn is_kept_left(kept: &KeptGroups<'_>, flags: &[bool], group: &Group<'_>) -> bool
    ensures { (objects : List loading.LoadedObject) → AreKept (groups_from 0 objects) kept.now
        → result ≡ spec.is_kept_left objects flags.now group.now }
{
    match kept_of(kept, group) {
        Some(found) => is_flagged(flags, found.object),
        None => false,
    }
}

/// Whether a group of an object has debug data that are dropped for those of an object that is left out.
fn relies_on_left(
    kept: &KeptGroups<'_>,
    flags: &[bool],
    loaded: &LoadedObject<'_>,
    group: &Group<'_>,
) -> bool
    ensures { (objects : List loading.LoadedObject) → AreKept (groups_from 0 objects) kept.now
        → result ≡ spec.relies_on_left objects flags.now (loaded_view loaded.now) group.now }
{
    loses_debug_data(loaded, group) && is_kept_left(kept, flags, group)
}

/// Whether one of the groups of an object has such data.
fn has_relying_group(kept: &KeptGroups<'_>, flags: &[bool], loaded: &LoadedObject<'_>) -> bool
    ensures { (objects : List loading.LoadedObject) → AreKept (groups_from 0 objects) kept.now
        → result
        ≡ list_any (spec.relies_on_left objects flags.now (loaded_view loaded.now))
        (groups loaded.now.object) }
{
    for group in loaded.object.groups() {
        if relies_on_left(kept, flags, loaded, group) {
            return true;
        }
    }
    false
}

/// Whether an object is left out, which comes after those that have flags.
fn is_left_out(kept: &KeptGroups<'_>, flags: &[bool], loaded: &LoadedObject<'_>) -> bool
    ensures { (objects : List loading.LoadedObject) → AreKept (groups_from 0 objects) kept.now
        → result ≡ spec.is_left_out objects flags.now (loaded_view loaded.now) }
{
    has_unjoinable(loaded) || has_relying_group(kept, flags, loaded)
}

/// For each object whether it is left out.
pub fn left_flags(
    alloc: Global,
    kept: &KeptGroups<'_>,
    objects: &[LoadedObject<'_>],
) -> Result<Vec<bool>, AllocError>
    requires { AreKept (groups_from 0 (loaded_views objects.now)) kept.now }
    ensures { IfOk result (λ v. v.items ≡ spec.left_flags (loaded_views objects.now)) }
{
    let mut flags = Vec::new(alloc);
    for loaded in objects {
        let left = is_left_out(kept, &flags, loaded);
        flags.push(left)?;
    }
    Ok(flags)
}
