//! Kept relocations whose values at the linker's own addresses don't fit their fields.
ghost use Rattle.std.specs.Prelude.{◌≡◌, All, IfOk, OnOk, length};
ghost use Rattle.elf_model.specs.Link.Pieces.{AreLawfulKinds};
ghost use Rattle.elf_model.specs.Link.Slots as wanted;
ghost use Rattle.elf_model.specs.Own.OwnLayout.{OwnValuesFit};
ghost use Rattle.relocate.specs.References.{IsObjectAt};
ghost use Rattle.relocate.specs.SymbolTables.{IsValued, all_valued, valued_object, where_of};
ghost use Rattle.relocate.specs.Values.{pointer_in, where_in};
ghost use Rattle.search.specs.KeptLists.{IsKeptRela, kept_relas};
ghost use Rattle.search.specs.Views.{loaded_view, loaded_views};
ghost use Rattle.flaws.specs.Flaws.{AreAdded};
ghost use Rattle.wrong_references.specs.Entries.{entries, entries_in, entries_of_relas, entry_of, rela_entries};
ghost use Rattle.layout_flaws.specs.LayoutFlaws.{AddsUnfit, AreUnfitValues, IsLaidOut, IsUnfitValue};

use crate::flaw::{Added, LayoutFlaw};
use elf_model::Rela;
use got_tls::Slots;
use layout::Placement;
use relocate::{Kind, Valued, address_or_none, fitting_value, pointer_of, wanted_value};
use resolve::Resolved;
use search::{KeptRela, Loaded, LoadedObject, is_some_kind};
use std::alloc::{AllocError, Global};
use wrong_references::EntryNumber;

/// Loaded objects whose names are resolved, where they are laid out, the GOT has slots, and the thread pointer is known.
#[derive(Clone, Copy)]
struct LaidOut<'v, 'a> {
    resolved: &'v Resolved<'a>,
    placement: &'v Placement<'a>,
    slots: &'v Slots<'a>,
    pointer: u64,
}

/// Adds entry `number` of a kept RELA section, where its value doesn't fit.
fn add_entry(
    flaws: &mut Vec<LayoutFlaw>,
    valued: &Valued<'_, '_>,
    rela: KeptRela,
    number: usize,
    entry: &Rela,
) -> Added
    requires { IsValued valued.now }
    ensures { OnOk result (AddsUnfit (all_valued valued.now) (where_of valued.now)
        (entry_of valued.now.number (valued_object valued.now) rela number entry.now)
        flaws.old.items flaws.new.items) }
{
    if !is_some_kind(entry) {
        return Ok(());
    }
    let Some(kind) = Kind::of(entry.kind()) else {
        return Ok(());
    };
    let target = u64::from(rela.target);
    let start = address_or_none(valued.placement, valued.number, target as usize);
    let None = fitting_value(valued, target, start, entry) else {
        return Ok(());
    };
    let at = EntryNumber {
        table: u64::from(rela.number),
        number: number as u64,
    };
    let value = wanted_value(valued, target, start, kind, entry);
    let address = start.wrapping_add(entry.r_offset);
    flaws.push(LayoutFlaw::Unfit(valued.number as u64, at, value, address))?;
    Ok(())
}

/// Adds the entries of a kept RELA section whose values don't fit.
fn add_entries(flaws: &mut Vec<LayoutFlaw>, valued: &Valued<'_, '_>, rela: KeptRela) -> Added
    requires known { IsValued valued.now }
    requires kept { IsKeptRela (valued_object valued.now) rela }
    ensures { OnOk result (AreAdded (AddsUnfit (all_valued valued.now) (where_of valued.now))
        (entries_in valued.now.number (valued_object valued.now) rela 0
        (rela_entries (valued_object valued.now) rela))
        flaws.old.items flaws.new.items) }
{
    let run = valued.loaded.all_entries(rela);
    for number in 0..run.len() {
        let entry = run.at(number);
        add_entry(flaws, valued, rela, number, &entry)?;
    }
    Ok(())
}

/// Adds the relocations of an object whose values don't fit.
fn add_relas(flaws: &mut Vec<LayoutFlaw>, valued: &Valued<'_, '_>) -> Added
    requires { IsValued valued.now }
    ensures { OnOk result (AreAdded (AddsUnfit (all_valued valued.now) (where_of valued.now))
        (entries_of_relas valued.now.number (valued_object valued.now)
        (kept_relas (valued_object valued.now)))
        flaws.old.items flaws.new.items) }
{
    let relas = valued.loaded.kept_relas();
    for rela in relas {
        add_entries(flaws, valued, *rela)?;
    }
    Ok(())
}

/// Adds the relocations of object `k` whose values don't fit.
fn add_object<'a>(
    alloc: Global,
    flaws: &mut Vec<LayoutFlaw>,
    laid: LaidOut<'_, 'a>,
    k: usize,
    one: &LoadedObject<'a>,
) -> Added
    requires here { IsObjectAt laid.resolved.now k (loaded_view one.now) }
    requires laid { IsLaidOut laid }
    ensures { OnOk result (AreAdded
        (AddsUnfit laid.entry.resolved.now (where_in laid.entry.placement.now))
        (entries_of_relas k (loaded_view one.now) (kept_relas (loaded_view one.now)))
        flaws.old.items flaws.new.items) }
{
    let LaidOut {
        resolved,
        placement,
        slots,
        pointer,
    } = laid;
    let valued = Valued::new(alloc, resolved, placement, slots, pointer, k, one)?;
    add_relas(flaws, &valued)
}

/// Adds the kept relocations of all objects whose values don't fit.
fn add_all_values<'a>(
    alloc: Global,
    flaws: &mut Vec<LayoutFlaw>,
    laid: LaidOut<'_, 'a>,
    objects: &[LoadedObject<'a>],
) -> Added
    requires same { laid.resolved.now ≡ loaded_views objects.now }
    requires laid { IsLaidOut laid }
    ensures { OnOk result (AreAdded
        (AddsUnfit laid.entry.resolved.now (where_in laid.entry.placement.now))
        (entries (loaded_views objects.now)) flaws.old.items flaws.new.items) }
{
    for k in 0..objects.len() {
        add_object(alloc, flaws, laid, k, &objects[k])?;
    }
    Ok(())
}

/// The kept relocations whose values don't fit their fields, in load order, where what is loaded has resolved names, is laid out,
/// and the GOT has its slots: each with its value and the address of its field. There are none exactly where all values fit.
///
/// # Errors
///
/// Only where memory is refused.
pub fn unfit_values<'a>(
    alloc: Global,
    loaded: &Loaded<'a>,
    resolved: &Resolved<'a>,
    placement: &Placement<'a>,
    slots: &Slots<'a>,
) -> Result<Vec<LayoutFlaw>, AllocError>
    requires loaded { loaded.now.objects ≡ placement.now.objects }
    requires resolved { resolved.now ≡ placement.now.objects }
    requires kinds { AreLawfulKinds placement.now.objects }
    requires slots { slots.now.slots ≡ wanted.slots placement.now.objects }
    requires slots_of { slots.now.objects ≡ placement.now.objects }
    ensures all { IfOk result (λ flaws. AreUnfitValues placement.now flaws.items) }
    ensures each { IfOk result (λ flaws. All (IsUnfitValue placement.now) flaws.items) }
    ensures none { IfOk result (λ flaws. length flaws.items ≡ 0
        → OwnValuesFit placement.now.base placement.now.objects) }
{
    let pointer = pointer_of(placement);
    let laid = LaidOut {
        resolved,
        placement,
        slots,
        pointer,
    };
    let mut flaws = Vec::new(alloc);
    add_all_values(alloc, &mut flaws, laid, loaded.objects())?;
    Ok(flaws)
}
