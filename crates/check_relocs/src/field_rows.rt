//! The fields of all kept relocations, object by object and in order: the ninth clause of a right link.
ghost use Rattle.std.specs.Prelude.{◌≡◌, ◌↔◌, All, IfOk, IfSome, IsSome, Some, map};
ghost use Rattle.std.specs.List.{slice_get};
ghost use Rattle.elf_model.specs.Inputs.ObjectFile.{section, sections};
ghost use Rattle.elf_model.specs.Link.Relocation.{AreLawfulRelocations, relocations, relocations_from};
ghost use Rattle.elf_model.specs.Link.RelocationValues.{AllFit};
ghost use Rattle.elf_model.specs.Link.Placement.{section_address};
ghost use Rattle.check_relocs.specs.KnownSlots.{AreSymbolsKnown};
ghost use Rattle.check_relocs.specs.LawfulFields.{IsRelocated, is_frames};
ghost use Rattle.check_relocs.specs.Fields.{AreRight, AreRows, IsRight, IsRowOf, field_of};
ghost use Rattle.check_relocs.specs.Referrers.{objects_here, relocations_here};
ghost use Rattle.check_load.specs.Views.{loaded_view};

use crate::bindings::Bindings;
use crate::fields::{Field, in_order};
use crate::known_symbols::{KnownSymbols, unknown_symbols};
use crate::lawful_fields::{Relocated, right_field};
use crate::referrer::Referrer;
use crate::targets::entry_count;
use check_load::Loaded;
use elf_model::RELA_SIZE;
use elf_read::ObjectFile;
use std::alloc::{AllocError, Global};

/// Whether a section has the name `.eh_frame`.
fn is_frames(object: &ObjectFile<'_>, number: usize) -> bool
    ensures { result ≡ is_frames object.now number }
{
    match object.section_name(number) {
        Some(name) => name == b".eh_frame".as_slice(),
        None => false,
    }
}

/// What the entries relocate whose section names the section `target` of object `number`.
pub fn relocated(
    bindings: &Bindings<'_, '_, '_>,
    number: u64,
    object: &ObjectFile<'_>,
    target: u32,
) -> Relocated
    ensures section { result.section ≡ target }
    ensures size { result.size ≡ (section (sections object.now) result.section).sh_size }
    ensures frames { result.frames ≡ is_frames object.now result.section }
    ensures address { result.address
        ≡ section_address bindings.now.places.placed number result.section }
{
    Relocated {
        section: target,
        size: object.section(target as usize).sh_size,
        address: bindings.address_of(number, target as u64),
        frames: is_frames(object, target as usize),
    }
}

/// Lets what is told of a relocated section be that of another one. It is found out again only where the section isn't the same.
fn turn_to(here: &Referrer<'_, '_, '_, '_>, to: &mut Relocated, section: u32)
    requires { IsRelocated here.now to.old }
    ensures told { IsRelocated here.now to.new }
    ensures section { to.new.section ≡ section }
{
    if to.section == section {
        return;
    }
    *to = relocated(here.bindings, here.number, &here.loaded.object, section);
}

/// For how many fields of an object there should be room: one for each entry, as far as the entries don't share bytes.
fn room_for_fields(loaded: &Loaded<'_>) -> usize {
    entry_count(loaded).min(loaded.object.bytes().len() / RELA_SIZE)
}

/// The fields of an object's kept relocations; None where one of these isn't right. What its symbols mean is looked up where
/// it isn't known.
fn object_fields(
    alloc: Global,
    here: &Referrer<'_, '_, '_, '_>,
    known: &mut KnownSymbols,
) -> Result<Option<Vec<Field>>, AllocError>
    requires { AreSymbolsKnown here.now known.old }
    ensures right { IfOk result (λ o. IsSome o
        ↔ All (IsRight (objects_here here.now) here.now.bindings.now.places)
        (relocations_here here.now)) }
    ensures fields { IfOk result (λ o.
        IfSome o (λ v. v.items
        ≡ map (field_of (objects_here here.now) here.now.bindings.now.places)
        (relocations_here here.now))) }
{
    let mut fields = Vec::new(alloc);
    fields.reserve(room_for_fields(here.loaded))?;
    let mut to = relocated(here.bindings, here.number, &here.loaded.object, 0);
    for relocation in here.loaded.relocations() {
        turn_to(here, &mut to, relocation.section);
        let Some(field) = right_field(here, known, &to, &relocation) else {
            return Ok(None);
        };
        fields.push(field)?;
    }
    Ok(Some(fields))
}

/// The fields in order of the kept relocations of object `number`; None where one of these isn't right, and where
/// a byte lies in two fields.
pub fn own_row<'a>(
    alloc: Global,
    bindings: &Bindings<'_, '_, 'a>,
    number: u64,
    loaded: &Loaded<'a>,
) -> Result<Option<Vec<Field>>, AllocError>
    requires { slice_get bindings.now.objects number ≡ Some (loaded_view loaded.now) }
    ensures right { IfOk result (λ o. IsSome o
        ↔ AreRight bindings.now.objects bindings.now.places
        (relocations_from number (loaded_view loaded.now))) }
    ensures row { IfOk result (λ o.
        IfSome o (λ v.
        IsRowOf bindings.now.objects bindings.now.places number (loaded_view loaded.now) v.items)) }
{
    let here = Referrer {
        bindings,
        number,
        loaded,
    };
    let mut known = unknown_symbols(alloc, &here)?;
    let Some(fields) = object_fields(alloc, &here, &mut known)? else {
        return Ok(None);
    };
    let row = in_order(fields)?;
    Ok(row)
}

/// The rows of all objects; None where relocations aren't right.
fn all_rows(
    alloc: Global,
    bindings: &Bindings<'_, '_, '_>,
) -> Result<Option<Vec<Vec<Field>>>, AllocError>
    ensures right { IfOk result (λ o. IsSome o
        ↔ AreRight bindings.now.objects bindings.now.places (relocations bindings.now.objects)) }
    ensures rows { IfOk result (λ o.
        IfSome o (λ v. AreRows bindings.now.objects bindings.now.places v.items)) }
{
    let objects = bindings.objects();
    let mut rows = Vec::with_capacity(alloc, objects.len())?;
    for k in 0..objects.len() {
        let Some(row) = own_row(alloc, bindings, k as u64, &objects[k])? else {
            return Ok(None);
        };
        rows.push(row)?;
    }
    Ok(Some(rows))
}

/// The fields of all kept relocations, a row for each object, where each relocation is lawful, its value fits
/// and no byte lies in two fields; None where that doesn't hold.
pub fn fields_right(
    alloc: Global,
    bindings: &Bindings<'_, '_, '_>,
) -> Result<Option<Vec<Vec<Field>>>, AllocError>
    ensures right { IfOk result (λ o. IsSome o
        ↔ (AreLawfulRelocations bindings.now.objects
        × AllFit bindings.now.objects bindings.now.places)) }
    ensures rows { IfOk result (λ o.
        IfSome o (λ v. AreRows bindings.now.objects bindings.now.places v.items)) }
{
    let rows = all_rows(alloc, bindings)?;
    Ok(rows)
}
