//! The patches of all objects.
ghost use Rattle.std.specs.Prelude.{◌≡◌, All, IfErr, IfOk, OnOk};
ghost use Rattle.elf_model.specs.Own.OwnLayout.{OwnValuesFit};
ghost use Rattle.elf_model.specs.Link.Loading.{AreObjects};
ghost use Rattle.elf_model.specs.Link.Pieces.{AreLawfulKinds};
ghost use Rattle.elf_model.specs.Link.Relocation.{AreLawfulRelocations, relocations_from};
ghost use Rattle.elf_model.specs.Link.RelocationValues.{Fits};
ghost use Rattle.elf_model.specs.Link.Slots as wanted;
ghost use Rattle.search.specs.Views.{loaded_view, loaded_views};
ghost use Rattle.relocate.specs.References.{IsObjectAt};
ghost use Rattle.relocate.specs.SymbolTables.{AreChosenValues};
ghost use Rattle.relocate.specs.Values.{ArePatchRows, ArePatches, FittingFails, IsPatchable, ValuesFail, pointer_in, where_in};

use crate::faults::RelocFault;
use crate::object_patches::object_patches;
use crate::object_rows::ObjectPatches;
use crate::patch_table::Patches;
use crate::symbol_values::{SymbolValue, Valued, chosen_values};
use crate::thread_pointer::pointer_of;
use got_tls::Slots;
use layout::Placement;
use resolve::Resolved;
use search::{Loaded, LoadedObject};
use std::alloc::Global;

/// The rows of patches of object `number`.
fn row_of<'a>(
    alloc: Global,
    resolved: &Resolved<'a>,
    placement: &Placement<'a>,
    slots: &Slots<'a>,
    chosen: &[SymbolValue],
    pointer: u64,
    number: usize,
    loaded: &LoadedObject<'a>,
) -> Result<ObjectPatches, RelocFault>
    requires kinds { AreLawfulKinds placement.now.objects }
    requires slots { slots.now.slots ≡ wanted.slots placement.now.objects }
    requires slots_of { slots.now.objects ≡ resolved.now }
    requires pointer { pointer ≡ pointer_in (where_in placement.now) }
    requires chosen { AreChosenValues resolved.now (where_in placement.now) chosen.now }
    requires here { IsObjectAt resolved.now number (loaded_view loaded.now) }
    requires patchable { All IsPatchable (relocations_from number (loaded_view loaded.now)) }
    ensures rows { IfOk result (ArePatchRows resolved.now (where_in placement.now)
        (relocations_from number (loaded_view loaded.now))) }
    ensures fit { OnOk result (All (Fits resolved.now (where_in placement.now))
        (relocations_from number (loaded_view loaded.now))) }
    ensures fault { IfErr result (FittingFails resolved.now (where_in placement.now)
        (relocations_from number (loaded_view loaded.now))) }
{
    let valued = Valued::with_values(
        alloc, resolved, placement, slots, chosen, pointer, number, loaded,
    )?;
    object_patches(alloc, &valued)
}

/// The rows of patches of all objects.
fn rows_of<'a>(
    alloc: Global,
    objects: &[LoadedObject<'a>],
    resolved: &Resolved<'a>,
    placement: &Placement<'a>,
    slots: &Slots<'a>,
) -> Result<Vec<ObjectPatches>, RelocFault>
    requires resolved { resolved.now ≡ loaded_views objects.now }
    requires placed { placement.now.objects ≡ loaded_views objects.now }
    requires slots { slots.now.slots ≡ wanted.slots (loaded_views objects.now) }
    requires slots_of { slots.now.objects ≡ resolved.now }
    requires objects { AreObjects (loaded_views objects.now) }
    requires kinds { AreLawfulKinds (loaded_views objects.now) }
    requires lawful { AreLawfulRelocations (loaded_views objects.now) }
    ensures rows { IfOk result (λ v. ArePatches placement.now v.items) }
    ensures fit { OnOk result (OwnValuesFit placement.now.base placement.now.objects) }
    ensures fault { IfErr result (ValuesFail placement.now) }
{
    let pointer = pointer_of(placement);
    let chosen = chosen_values(alloc, objects, resolved, placement)?;
    let mut rows = Vec::with_capacity(alloc, objects.len())?;
    for k in 0..objects.len() {
        let row = row_of(
            alloc,
            resolved,
            placement,
            slots,
            &chosen,
            pointer,
            k,
            &objects[k],
        )?;
        rows.push(row)?;
    }
    Ok(rows)
}

/// The patches of what is loaded, whose sections' kinds and relocations are lawful, where it is laid out with its GOT,
/// which has these slots.
///
/// # Errors
///
/// `Overflow` where the value of a relocation doesn't fit its field; `Memory`.
pub fn patches<'a>(
    alloc: Global,
    loaded: &Loaded<'a>,
    resolved: &Resolved<'a>,
    placement: &Placement<'a>,
    slots: &Slots<'a>,
) -> Result<Patches<'a>, RelocFault>
    requires resolved { resolved.now ≡ loaded.now.objects }
    requires placed { placement.now.objects ≡ loaded.now.objects }
    requires slots { slots.now.slots ≡ wanted.slots loaded.now.objects }
    requires slots_of { slots.now.objects ≡ loaded.now.objects }
    requires kinds { AreLawfulKinds loaded.now.objects }
    requires lawful { AreLawfulRelocations loaded.now.objects }
    ensures exact { IfOk result (λ p. p ≡ placement.now) }
    ensures fit { OnOk result (OwnValuesFit placement.now.base placement.now.objects) }
    ensures fault { IfErr result (ValuesFail placement.now) }
{
    let rows = rows_of(alloc, loaded.objects(), resolved, placement, slots)?;
    let patches = Patches::new(loaded, placement, rows)?;
    Ok(patches)
}
