//! The patches of an object, by the sections that they are for.
ghost use Rattle.std.specs.Prelude.{◌≡◌, ◌<◌, ◌≤◌, ◌+◌, ◌^◌, ◌++◌, [], All, IfErr, IfOk, List, OnOk, length, map};
ghost use Rattle.std.specs.List.Sorted.{IsNonDecreasingBy};
ghost use Rattle.elf_model.specs.Link.ArrayOrder.{by_rank};
ghost use Rattle.elf_model.specs.Link.Relocation.{Relocation, relocations_from};
ghost use Rattle.elf_model.specs.Link.RelocationValues.{Fits};
ghost use Rattle.search.specs.KeptLists.{IsKeptRela, kept_relas, relocations_by, relocations_of_relas};
ghost use Rattle.relocate.specs.RelaOrders.{target_of};
ghost use Rattle.relocate.specs.ObjectRows.{HasRows};
ghost use Rattle.relocate.specs.SymbolTables.{IsValued, all_valued, valued_object, where_of};
ghost use Rattle.relocate.specs.Values.{ArePatchRows, FittingFails, IsPatchable, patch_of};

use crate::faults::RelocFault;
use crate::object_rows::ObjectPatches;
use crate::referrer::entry_count;
use crate::rela_order::{ascend, ordered, row_end};
use crate::row_order::order_from;
use crate::symbol_values::Valued;
use crate::values::{address_or_none, fitting_value};
use elf_model::Rela;
use reloc_values::Patch;
use search::KeptRela;
use std::alloc::Global;

/// The first byte of an entry's field, in the section that it relocates: a part of an object's file, which has fewer than
/// 2 ^ 32 bytes.
fn first_byte(entry: &Rela) -> u32
    requires { entry.now.r_offset < 2 ^ 32 }
    ensures { result ≡ entry.now.r_offset }
{
    entry.r_offset as u32
}

/// Adds the patches of a kept RELA section of an object, whose entries get patches. Overflow where a value doesn't fit.
fn add_section(
    valued: &Valued<'_, '_>,
    rela: KeptRela,
    patches: &mut Vec<Patch>,
) -> Result<(), RelocFault>
    requires valued { IsValued valued.now }
    requires kept { IsKeptRela (valued_object valued.now) rela }
    requires patchable { All IsPatchable
        (relocations_by valued.now.number (valued_object valued.now) rela) }
    ensures patches { OnOk result (patches.new.items
        ≡ patches.old.items
        ++ map (patch_of (all_valued valued.now) (where_of valued.now))
        (relocations_by valued.now.number (valued_object valued.now) rela)) }
    ensures fit { OnOk result (All (Fits (all_valued valued.now) (where_of valued.now))
        (relocations_by valued.now.number (valued_object valued.now) rela)) }
    ensures fault { IfErr result (FittingFails (all_valued valued.now) (where_of valued.now)
        (relocations_by valued.now.number (valued_object valued.now) rela)) }
{
    let target = rela.target as u64;
    let at = address_or_none(valued.placement, valued.number, target as usize);
    for entry in valued.loaded.kept_entries(rela) {
        let Some(fitting) = fitting_value(valued, target, at, &entry) else {
            return Err(RelocFault::Overflow);
        };
        let place = first_byte(&entry);
        patches.push(Patch {
            value: fitting.value,
            at: place,
            width: fitting.width,
        })?;
    }
    Ok(())
}

/// Adds the patches of kept RELA sections, which relocate one section.
fn add_sections(
    valued: &Valued<'_, '_>,
    relas: &[KeptRela],
    patches: &mut Vec<Patch>,
) -> Result<(), RelocFault>
    requires valued { IsValued valued.now }
    requires kept { All (IsKeptRela (valued_object valued.now)) relas.now }
    requires patchable { All IsPatchable
        (relocations_of_relas valued.now.number (valued_object valued.now) relas.now) }
    ensures patches { OnOk result (patches.new.items
        ≡ patches.old.items
        ++ map (patch_of (all_valued valued.now) (where_of valued.now))
        (relocations_of_relas valued.now.number (valued_object valued.now) relas.now)) }
    ensures fit { OnOk result (All (Fits (all_valued valued.now) (where_of valued.now))
        (relocations_of_relas valued.now.number (valued_object valued.now) relas.now)) }
    ensures fault { IfErr result (FittingFails (all_valued valued.now) (where_of valued.now)
        (relocations_of_relas valued.now.number (valued_object valued.now) relas.now)) }
{
    for rela in relas {
        add_section(valued, *rela, patches)?;
    }
    Ok(())
}

/// Adds the row of the section `target`, which these RELA sections relocate; there are rows of sections before it only.
fn add_row(
    valued: &Valued<'_, '_>,
    target: u32,
    relas: &[KeptRela],
    rows: &mut ObjectPatches,
) -> Result<(), RelocFault>
    requires valued { IsValued valued.now }
    requires kept { All (IsKeptRela (valued_object valued.now)) relas.now }
    requires target { All (λ k. k.target ≡ target) relas.now }
    requires later { length rows.old.begins.items ≤ target + 1 }
    requires patchable { All IsPatchable
        (relocations_of_relas valued.now.number (valued_object valued.now) relas.now) }
    ensures rows { OnOk result ((done : List Relocation) →
        HasRows (all_valued valued.now) (where_of valued.now) done rows.old
        → HasRows (all_valued valued.now) (where_of valued.now)
        (done ++ relocations_of_relas valued.now.number
        (valued_object valued.now) relas.now) rows.new) }
    ensures begins { OnOk result (length rows.new.begins.items ≡ target + 2) }
    ensures fit { OnOk result (All (Fits (all_valued valued.now) (where_of valued.now))
        (relocations_of_relas valued.now.number (valued_object valued.now) relas.now)) }
    ensures fault { IfErr result (FittingFails (all_valued valued.now) (where_of valued.now)
        (relocations_of_relas valued.now.number (valued_object valued.now) relas.now)) }
{
    let begin = rows.patches.len();
    rows.begins.resize(target as usize + 1, begin)?;
    add_sections(valued, relas, &mut rows.patches)?;
    order_from(&mut rows.patches, begin);
    rows.begins.push(rows.patches.len())?;
    Ok(())
}

/// Adds the rows of kept RELA sections, which are in the order of the sections that they relocate, where there are none yet.
fn add_rows(
    valued: &Valued<'_, '_>,
    relas: &[KeptRela],
    rows: &mut ObjectPatches,
) -> Result<(), RelocFault>
    requires valued { IsValued valued.now }
    requires kept { All (IsKeptRela (valued_object valued.now)) relas.now }
    requires rises { IsNonDecreasingBy target_of relas.now }
    requires patchable { All IsPatchable
        (relocations_of_relas valued.now.number (valued_object valued.now) relas.now) }
    requires none { rows.old.patches.items ≡ [] }
    requires nowhere { rows.old.begins.items ≡ [] }
    ensures rows { OnOk result (HasRows (all_valued valued.now) (where_of valued.now)
        (relocations_of_relas valued.now.number
        (valued_object valued.now) relas.now) rows.new) }
    ensures fit { OnOk result (All (Fits (all_valued valued.now) (where_of valued.now))
        (relocations_of_relas valued.now.number (valued_object valued.now) relas.now)) }
    ensures fault { IfErr result (FittingFails (all_valued valued.now) (where_of valued.now)
        (relocations_of_relas valued.now.number (valued_object valued.now) relas.now)) }
{
    let mut from = 0;
    'rows: while from < relas.len() {
        let end = row_end(relas, from);
        add_row(valued, relas[from].target, &relas[from..end], rows)?;
        from = end;
    }
    Ok(())
}

/// The patches of an object whose relocations get patches, and whose kept RELA sections these are, in the order of the
/// sections that they relocate.
fn rows_of(
    alloc: Global,
    valued: &Valued<'_, '_>,
    relas: &[KeptRela],
) -> Result<ObjectPatches, RelocFault>
    requires valued { IsValued valued.now }
    requires order { relas.now ≡ by_rank target_of (kept_relas (valued_object valued.now)) }
    requires rises { IsNonDecreasingBy target_of relas.now }
    requires patchable { All IsPatchable
        (relocations_from valued.now.number (valued_object valued.now)) }
    ensures rows { IfOk result (ArePatchRows (all_valued valued.now) (where_of valued.now)
        (relocations_from valued.now.number (valued_object valued.now))) }
    ensures fit { OnOk result (All (Fits (all_valued valued.now) (where_of valued.now))
        (relocations_from valued.now.number (valued_object valued.now))) }
    ensures fault { IfErr result (FittingFails (all_valued valued.now) (where_of valued.now)
        (relocations_from valued.now.number (valued_object valued.now))) }
{
    let mut rows = ObjectPatches {
        patches: Vec::with_capacity(alloc, entry_count(valued.loaded))?,
        begins: Vec::new(alloc),
    };
    add_rows(valued, relas, &mut rows)?;
    Ok(rows)
}

/// The patches of an object whose relocations get patches, those of each section in the order of their places. Overflow
/// where a value doesn't fit.
pub fn object_patches(alloc: Global, valued: &Valued<'_, '_>) -> Result<ObjectPatches, RelocFault>
    requires valued { IsValued valued.now }
    requires patchable { All IsPatchable
        (relocations_from valued.now.number (valued_object valued.now)) }
    ensures rows { IfOk result (ArePatchRows (all_valued valued.now) (where_of valued.now)
        (relocations_from valued.now.number (valued_object valued.now))) }
    ensures fit { OnOk result (All (Fits (all_valued valued.now) (where_of valued.now))
        (relocations_from valued.now.number (valued_object valued.now))) }
    ensures fault { IfErr result (FittingFails (all_valued valued.now) (where_of valued.now)
        (relocations_from valued.now.number (valued_object valued.now))) }
{
    let relas = valued.loaded.kept_relas();
    if ascend(relas) {
        return rows_of(alloc, valued, relas);
    }
    let relas = ordered(alloc, relas)?;
    rows_of(alloc, valued, &relas)
}
