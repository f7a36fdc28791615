//! Where things are that debug data speak of: the addresses of what is in memory, and the offsets of debug data in what is
//! joined; and what symbols stand for there.
ghost use Rattle.std.specs.Prelude.{◌≡◌, ◌%◌, ◌^◌, false, option_map, unwrap_or};
ghost use Rattle.std.specs.BTreeMap.{get};
ghost use Rattle.std.specs.List.{slice_get};
ghost use Rattle.std.specs.Option.{option_and_then};
ghost use Rattle.std.specs.Ordering.{nat_cmp};
ghost use Rattle.elf_model.specs.Link.Meaning as meaning;
ghost use Rattle.elf_model.specs.Link.Resolution.{SymbolOf};
ghost use Rattle.resolve.specs.Views.{meaning_view};
ghost use Rattle.debug_image.specs.DebugPlaces.{AreDataPlaces, IsUseOf, data_at};
ghost use Rattle.debug_image.specs.DebugSections as sections;
ghost use Rattle.debug_image.specs.DebugValues as spec;
ghost use Rattle.debug_image.specs.KeptTables.{stand_in_at};

use crate::data_index::DataSection;
use crate::stand_ins::StandIns;
use crate::symbol_values::SymbolValue;
use elf_model::{ObjectId, SHN_ABS, SectionRef, Symbol};
use layout::{Place, Placement};
use resolve::Definition;
use search::LoadedObject;
use std::collections::BTreeMap;

/// Where things are: the objects, the places of their pieces, the sections of each that hold debug data, at their offsets, an
/// index of each row of these, and what stands for the dropped sections of each.
#[derive(Clone, Copy)]
pub struct DataPlaces<'c, 'a> {
    pub objects: &'c [LoadedObject<'a>],
    pub placement: &'c Placement<'a>,
    pub rows: &'c [Vec<Place<'a>>],
    pub index: &'c [BTreeMap<u64, DataSection>],
    pub stand_ins: &'c [StandIns],
}

/// A section of debug data, by the numbers of its object and its own.
pub fn data_section<'c>(
    places: &DataPlaces<'c, '_>,
    object: u64,
    number: u64,
) -> Option<&'c DataSection>
    ensures { option_map (λ s. s.now) result
        ≡ option_and_then (λ d. get nat_cmp d number) (slice_get places.now.index.now object) }
{
    let index = places.index;
    match index.get(object as usize) {
        Some(sections) => sections.get(&number),
        None => None,
    }
}

/// The offset of a section of debug data, by the numbers of its object and its own.
fn debug_offset(places: &DataPlaces<'_, '_>, object: u64, number: u64) -> Option<u64>
    requires { AreDataPlaces places.now }
    ensures { result ≡ sections.debug_offset (data_at places.now).rows object number }
{
    match data_section(places, object, number) {
        Some(section) => Some(section.at),
        None => None,
    }
}

/// The address of a section of an object or of a common block, by their numbers, where it is kept.
fn address_of(places: &DataPlaces<'_, '_>, object: u64, section: u64) -> Option<u64>
    ensures { result ≡ spec.address_of (data_at places.now) object section }
{
    places.placement.numbered_address(SectionRef {
        object: ObjectId(object),
        section,
    })
}

/// Where a section of an object is, by their numbers: its address, or its offset in debug data.
fn section_value(places: &DataPlaces<'_, '_>, object: u64, section: u64) -> Option<u64>
    requires { AreDataPlaces places.now }
    ensures { result ≡ spec.section_value (data_at places.now) object section }
{
    match address_of(places, object, section) {
        Some(at) => Some(at),
        None => debug_offset(places, object, section),
    }
}

/// What stands for a dropped section, by the numbers of its object and its own.
fn stand_in(places: &DataPlaces<'_, '_>, object: u64, number: u64) -> Option<SectionRef>
    ensures { result
        ≡ option_and_then (λ t. stand_in_at t number)
        (slice_get places.now.stand_ins.now object) }
{
    let tables = places.stand_ins;
    match tables.get(object as usize) {
        Some(table) => match table.get(&number) {
            Some(section) => *section,
            None => None,
        },
        None => None,
    }
}

/// The section in which a symbol of a section stands: that section, or what stands for it where it is dropped.
fn section_meant(places: &DataPlaces<'_, '_>, object: u64, number: u64) -> Option<SectionRef>
    requires { AreDataPlaces places.now }
    ensures { result ≡ spec.section_meant (data_at places.now) object number }
{
    let objects = places.objects;
    let loaded = objects.get(object as usize)?;
    if loaded.is_dropped(number as usize) {
        return stand_in(places, object, number);
    }
    Some(SectionRef {
        object: ObjectId(object),
        section: number,
    })
}

/// Where the section is in which a symbol of a section stands.
fn meant_value(places: &DataPlaces<'_, '_>, object: u64, number: u64) -> Option<u64>
    requires { AreDataPlaces places.now }
    ensures { result ≡ spec.meant_value (data_at places.now) object number }
{
    let meant = section_meant(places, object, number)?;
    section_value(places, meant.object.0, meant.section)
}

/// Whether a section of an object is no part of memory.
fn is_outside_memory(places: &DataPlaces<'_, '_>, object: u64, number: u64) -> bool
    requires { AreDataPlaces places.now }
    ensures { result ≡ spec.is_outside_memory (data_at places.now) object number }
{
    let objects = places.objects;
    match objects.get(object as usize) {
        Some(loaded) => !loaded.object.section(number as usize).is_alloc(),
        None => false,
    }
}

/// What a symbol of an object stands for.
pub fn symbol_value(places: &DataPlaces<'_, '_>, object: u64, entry: &Symbol) -> SymbolValue
    requires { AreDataPlaces places.now }
    ensures { (s : SymbolOf) → s.object ≡ object → s.entry ≡ entry.now
        → result ≡ spec.symbol_value (data_at places.now) s }
{
    if entry.st_shndx == SHN_ABS {
        return SymbolValue::Known(entry.st_value);
    }
    let number = entry.st_shndx as u64;
    if let Some(at) = meant_value(places, object, number) {
        return SymbolValue::Known(at.wrapping_add(entry.st_value));
    }
    if is_outside_memory(places, object, number) {
        SymbolValue::NoData
    } else {
        SymbolValue::NoAddress
    }
}

/// What a common block stands for: its address.
fn block_value(places: &DataPlaces<'_, '_>, object: u64, number: u64) -> SymbolValue
    ensures { result ≡ spec.value_in false (spec.address_of (data_at places.now) object number) }
{
    match address_of(places, object, number) {
        Some(at) => SymbolValue::Known(at),
        None => SymbolValue::NoAddress,
    }
}

/// What a name stands for, by what it means.
fn meaning_value(places: &DataPlaces<'_, '_>, meaning: &Definition<'_>) -> SymbolValue
    requires { AreDataPlaces places.now }
    ensures { result ≡ spec.meaning_value (data_at places.now) (meaning_view meaning.now) }
{
    match meaning {
        Definition::Symbol(symbol) => symbol_value(places, symbol.object, &symbol.entry),
        Definition::Common(block) => block_value(places, block.object, block.number),
        Definition::Linker(name, bound) => {
            SymbolValue::Known(places.placement.bound(name, *bound))
        }
    }
}

/// The size of what an entry uses; 0 of nothing, and of the linker's own names.
fn size_of(used: &Option<Definition<'_>>) -> u64
    ensures { result ≡ unwrap_or (option_map meaning.meaning_size
        (option_map meaning_view used.now)) 0 % 2 ^ 64 }
{
    match used {
        Some(Definition::Symbol(symbol)) => symbol.entry.st_size,
        Some(Definition::Common(block)) => block.size,
        Some(Definition::Linker(_, _)) => 0,
        None => 0,
    }
}

/// What a definition stands for that an entry uses; no address without one.
fn value_of(places: &DataPlaces<'_, '_>, used: &Option<Definition<'_>>) -> SymbolValue
    requires { AreDataPlaces places.now }
    ensures { result
        ≡ spec.definition_value (data_at places.now) (option_map meaning_view used.now) }
{
    match used {
        Some(definition) => meaning_value(places, definition),
        None => SymbolValue::NoAddress,
    }
}

/// What an entry uses: what that stands for, and its size in bytes.
#[derive(Clone, Copy, Debug)]
pub struct Used {
    pub value: SymbolValue,
    pub size: u64,
}

/// What an entry uses that is defined so.
pub fn used_of(places: &DataPlaces<'_, '_>, definition: &Option<Definition<'_>>) -> Used
    requires { AreDataPlaces places.now }
    ensures { IsUseOf (data_at places.now) (option_map meaning_view definition.now) result }
{
    Used {
        value: value_of(places, definition),
        size: size_of(definition),
    }
}
