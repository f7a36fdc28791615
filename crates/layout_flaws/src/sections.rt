//! Kept sections that by themselves take up more than all addresses.
ghost use Rattle.std.specs.Prelude.{◌≡◌, [], All, IfOk, OnOk};
ghost use Rattle.elf_model.specs.Inputs.Command.{IsBase};
ghost use Rattle.elf_model.specs.Inputs.ObjectFile.{sections};
ghost use Rattle.elf_model.specs.Link.Pieces.{kept_sections, pieces_from};
ghost use Rattle.elf_model.specs.Own.OwnLayout.{IsNotTooLarge};
ghost use Rattle.search.specs.KeptLists.{IsKeptSection, piece_at};
ghost use Rattle.search.specs.Views.{loaded_view, loaded_views};
ghost use Rattle.flaws.specs.Flaws.{AreAdded};
ghost use Rattle.layout_flaws.specs.LayoutFlaws.{AddsLarge, AreLargeSections, IsLargeSection, basis_of};

use crate::flaw::{Added, LayoutFlaw};
use search::{Loaded, LoadedObject};
use std::alloc::{AllocError, Global};

/// All addresses of an image are below this one.
const TOP: u64 = 1 << 46;

/// Adds a kept section of object `object`, where it takes up more than all addresses from a base on.
fn add_section(
    flaws: &mut Vec<LayoutFlaw>,
    base: u64,
    object: usize,
    one: &LoadedObject<'_>,
    section: u32,
) -> Added
    requires base { IsBase base }
    requires kept { IsKeptSection (loaded_view one.now) section }
    ensures { OnOk result (AddsLarge base (piece_at object (loaded_view one.now) section)
        flaws.old.items flaws.new.items) }
{
    let size = one.object.section(section as usize).sh_size;
    if size <= TOP - base {
        return Ok(());
    }
    flaws.push(LayoutFlaw::Large(object as u64, u64::from(section)))?;
    Ok(())
}

/// Adds the kept sections of object `object` that take up more than all addresses from a base on.
fn add_sections(
    flaws: &mut Vec<LayoutFlaw>,
    base: u64,
    object: usize,
    one: &LoadedObject<'_>,
) -> Added
    requires { IsBase base }
    ensures { OnOk result (AreAdded (AddsLarge base)
        (pieces_from object (loaded_view one.now) 0 (sections one.now.object))
        flaws.old.items flaws.new.items) }
{
    let sections = one.kept_sections();
    for section in sections {
        add_section(flaws, base, object, one, *section)?;
    }
    Ok(())
}

/// Adds the kept sections of all objects that take up more than all addresses from a base on.
fn add_all_sections(flaws: &mut Vec<LayoutFlaw>, base: u64, objects: &[LoadedObject<'_>]) -> Added
    requires { IsBase base }
    ensures { OnOk result (AreAdded (AddsLarge base) (kept_sections (loaded_views objects.now))
        flaws.old.items flaws.new.items) }
{
    for k in 0..objects.len() {
        add_sections(flaws, base, k, &objects[k])?;
    }
    Ok(())
}

/// The kept sections that take up more than all addresses from the plan's base on, in load order. There are none where the own
/// layout isn't too large.
///
/// # Errors
///
/// Only where memory is refused.
pub fn large_sections(alloc: Global, loaded: &Loaded<'_>) -> Result<Vec<LayoutFlaw>, AllocError>
    requires { IsBase loaded.now.plan.base }
    ensures all { IfOk result (λ flaws. AreLargeSections (basis_of loaded.now) flaws.items) }
    ensures none { IsNotTooLarge loaded.now.plan.base loaded.now.objects
        → IfOk result (λ flaws. flaws.items ≡ []) }
    ensures each { IfOk result (λ flaws. All (IsLargeSection (basis_of loaded.now)) flaws.items) }
{
    let mut flaws = Vec::new(alloc);
    add_all_sections(&mut flaws, loaded.plan().base, loaded.objects())?;
    Ok(flaws)
}
