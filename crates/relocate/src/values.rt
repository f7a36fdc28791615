//! The value that a relocation wants where the objects are laid out.
ghost use Rattle.std.specs.Prelude.{◌≡◌, ◌%◌, ◌^◌, IsSome, Some, SomeIff, option_map, unwrap_or};
ghost use Rattle.std.specs.Option.{option_map_or};
ghost use Rattle.elf_model.specs.Link.Meaning.{meaning_size, meaning_value};
ghost use Rattle.elf_model.specs.Link.Pieces.{AreLawfulKinds};
ghost use Rattle.elf_model.specs.Link.Placement.{got_start, section_address, symbol_value};
ghost use Rattle.elf_model.specs.Link.Relocation.{relocation_kind, relocation_of};
ghost use Rattle.elf_model.specs.Link.RelocationValues as values;
ghost use Rattle.elf_model.specs.Link.RelocationValues.{Fits, terms_of};
ghost use Rattle.elf_model.specs.Link.Slots as wanted;
ghost use Rattle.resolve.specs.Views.{meaning_view, symbol_view};
ghost use Rattle.got_tls.specs.Asking.{offset_of};
ghost use Rattle.reloc_values.specs.Kinds.{kind_view};
ghost use Rattle.reloc_values.specs.Terms.{Reduces};
ghost use Rattle.relocate.specs.SymbolTables.{IsValued, all_valued, valued_object, where_of};
ghost use Rattle.relocate.specs.Values.{fitting_of, where_in};

use crate::symbol_values::Valued;
use crate::thread_pointer::offset_from;
use elf_model::{ObjectId, Rela, SHN_ABS, SectionRef, SymbolRef};
use layout::Placement;
use reloc_values::{Kind, Terms, fits, slot_kind, value};
use resolve::{Definition, SymbolOf};

/// A section of an object, by their numbers.
fn section_ref(object: u64, section: u64) -> SectionRef
    ensures object { result.object.0 ≡ object }
    ensures section { result.section ≡ section }
{
    SectionRef {
        object: ObjectId(object),
        section,
    }
}

/// The address of a section of an object, or of a common block, 0 where it isn't kept.
pub fn address_or_none(placement: &Placement<'_>, number: usize, target: usize) -> u64
    ensures { result ≡ section_address (where_in placement.now).placed number target }
{
    match placement.numbered_address(section_ref(number as u64, target as u64)) {
        Some(at) => at,
        None => 0,
    }
}

/// The value of a symbol that is defined, modulo 2 to the 64: an absolute one's own, else the address of its
/// section plus its own, 0 where the section isn't kept.
pub fn symbol_value(placement: &Placement<'_>, symbol: &SymbolOf<'_>) -> u64
    ensures { result ≡ symbol_value (where_in placement.now).placed
        (symbol_view symbol.now) % 2 ^ 64 }
{
    let entry = symbol.entry;
    if entry.st_shndx == SHN_ABS {
        return entry.st_value;
    }
    match placement.numbered_address(section_ref(symbol.object, entry.st_shndx as u64)) {
        Some(at) => at.wrapping_add(entry.st_value),
        None => 0,
    }
}

/// The value of what a name means, modulo 2 to the 64.
fn value_of(placement: &Placement<'_>, meaning: &Definition<'_>) -> u64
    requires { AreLawfulKinds placement.now.objects }
    ensures { result ≡ meaning_value (where_in placement.now) (meaning_view meaning.now) % 2 ^ 64 }
{
    match meaning {
        Definition::Symbol(symbol) => symbol_value(placement, symbol),
        Definition::Common(block) => {
            address_or_none(placement, block.object as usize, block.number as usize)
        }
        Definition::Linker(name, bound) => placement.bound(name, *bound),
    }
}

pub fn value_or_none(placement: &Placement<'_>, definition: &Option<Definition<'_>>) -> u64
    requires { AreLawfulKinds placement.now.objects }
    ensures { result ≡ unwrap_or
        (option_map (meaning_value (where_in placement.now))
        (option_map meaning_view definition.now)) 0 % 2 ^ 64 }
{
    match definition {
        Some(meaning) => value_of(placement, meaning),
        None => 0,
    }
}

/// The size of a symbol that is defined.
pub fn symbol_size(symbol: &SymbolOf<'_>) -> u64
    ensures { result ≡ (symbol_view symbol.now).entry.st_size % 2 ^ 64 }
{
    symbol.entry.st_size
}

/// The size of what a name means; 0 for the linker's own names.
fn size_of(meaning: &Definition<'_>) -> u64
    ensures { result ≡ meaning_size (meaning_view meaning.now) % 2 ^ 64 }
{
    match meaning {
        Definition::Symbol(symbol) => symbol_size(symbol),
        Definition::Common(block) => block.size,
        Definition::Linker(_, _) => 0,
    }
}

pub fn size_or_none(definition: &Option<Definition<'_>>) -> u64
    ensures { result ≡ unwrap_or
        (option_map meaning_size (option_map meaning_view definition.now)) 0 % 2 ^ 64 }
{
    match definition {
        Some(meaning) => size_of(meaning),
        None => 0,
    }
}

/// The address of the GOT, modulo 2 to the 64; 0 without one.
pub fn got_or_none(placement: &Placement<'_>) -> u64
    ensures { result ≡ got_start (where_in placement.now).got % 2 ^ 64 }
{
    match placement.got() {
        Some(at) => at,
        None => 0,
    }
}

/// How far behind the GOT's beginning the slot stands that an entry of a kind asks for, modulo 2 to the 64; 0 where it
/// asks for none.
fn slot_offset(valued: &Valued<'_, '_>, target: u64, kind: Kind, entry: &Rela) -> u64
    requires known { IsValued valued.now }
    requires kind { relocation_kind
        (relocation_of valued.now.number (valued_object valued.now) target entry.now)
        ≡ Some (kind_view kind) }
    ensures { result ≡ option_map_or (offset_of valued.now.slots.now.slots)
        (wanted.request_of
        (relocation_of valued.now.number
        (valued_object valued.now) target entry.now)) 0 % 2 ^ 64 }
{
    match slot_kind(kind.formula) {
        Some(kind) => {
            let symbol = SymbolRef {
                object: ObjectId(valued.number as u64),
                symbol: entry.symbol() as u64,
            };
            valued.slots.symbol_offset(kind, symbol, valued.loaded)
        }
        None => 0,
    }
}

/// The terms of the value of an entry of a kind; `at` is the address of the section `target` that it relocates.
fn terms(valued: &Valued<'_, '_>, target: u64, at: u64, kind: Kind, entry: &Rela) -> Terms
    requires known { IsValued valued.now }
    requires at { at ≡ section_address (where_of valued.now).placed valued.now.number target }
    requires kind { relocation_kind
        (relocation_of valued.now.number (valued_object valued.now) target entry.now)
        ≡ Some (kind_view kind) }
    ensures { Reduces result
        (terms_of (all_valued valued.now) (where_of valued.now)
        (relocation_of valued.now.number (valued_object valued.now) target entry.now)) }
{
    let symbol = valued.symbol_value(entry.symbol() as usize);
    Terms {
        symbol: symbol.value,
        addend: entry.r_addend,
        place: at.wrapping_add(entry.r_offset),
        slot: slot_offset(valued, target, kind, entry),
        got: valued.got,
        size: symbol.size,
        thread: offset_from(valued.pointer, symbol.value),
    }
}

/// The value that an entry of a kind wants, which relocates the section `target`; `at` is that section's address.
pub fn wanted_value(valued: &Valued<'_, '_>, target: u64, at: u64, kind: Kind, entry: &Rela) -> u64
    requires valued { IsValued valued.now }
    requires at { at ≡ section_address (where_of valued.now).placed valued.now.number target }
    requires kind { relocation_kind
        (relocation_of valued.now.number (valued_object valued.now) target entry.now)
        ≡ Some (kind_view kind) }
    ensures { result ≡ values.value_of (all_valued valued.now) (where_of valued.now)
        (relocation_of valued.now.number (valued_object valued.now) target entry.now) }
{
    value(kind, terms(valued, target, at, kind, entry))
}

/// A value that fits its field, and the field's width in bytes.
#[derive(Clone, Copy, Debug)]
pub struct Fitting {
    pub value: u64,
    pub width: u8,
}

/// The value that an entry of a known kind wants, and how wide its field is; None where the value doesn't fit it.
pub fn fitting_value(valued: &Valued<'_, '_>, target: u64, at: u64, entry: &Rela) -> Option<Fitting>
    requires valued { IsValued valued.now }
    requires at { at ≡ section_address (where_of valued.now).placed valued.now.number target }
    requires known { IsSome (relocation_kind
        (relocation_of valued.now.number (valued_object valued.now) target entry.now)) }
    ensures { SomeIff result
        (Fits (all_valued valued.now) (where_of valued.now)
        (relocation_of valued.now.number (valued_object valued.now) target entry.now))
        (fitting_of (all_valued valued.now) (where_of valued.now)
        (relocation_of valued.now.number (valued_object valued.now) target entry.now)) }
{
    let Some(kind) = Kind::of(entry.kind()) else {
        unreachable!()
    };
    let value = wanted_value(valued, target, at, kind, entry);
    if !fits(kind, value) {
        return None;
    }
    Some(Fitting {
        value,
        width: kind.width,
    })
}
