//! What the symbols that relocations name mean: their values, their sizes, and whether they are in thread-local storage.
ghost use Rattle.std.specs.Prelude.{◌≡◌, ◌%◌, ◌^◌, false, map, option_map, true};
ghost use Rattle.std.specs.Option.{option_map_or};
ghost use Rattle.elf_model.specs.Link.Meaning as meanings;
ghost use Rattle.elf_model.specs.Link.Relocation.{is_local};
ghost use Rattle.check_link.specs.Views.{meaning_view, symbol_view};
ghost use Rattle.check_load.specs.Views.{loaded_views};
ghost use Rattle.judge_model.specs.Certificates.{name_row};
ghost use Rattle.judge_model.specs.Means as means;
ghost use Rattle.judge_model.specs.Means.{undefined_value};
ghost use Rattle.link_fields.specs.Parts as parts;
ghost use Rattle.link_fields.specs.Parts.{IsMeant, is_thread_use, size_of};

use crate::addresses::Addresses;
use crate::linker_values::row_value;
use crate::merged_lines::MergedLines;
use crate::parts::LinkParts;
use check_link::{
    Meaning, Names, Outputs, SymbolOf, fixed_bound, is_in_thread_section, named_output,
    output_bound,
};
use check_load::Loaded;
use elf_model::{Bound, SHN_ABS, SHN_UNDEF, STB_LOCAL, STB_WEAK, STT_SECTION};
use judge_model::NameLine;

/// What a relocation's symbol means: its value modulo 2^64, where it has one, whether it is in thread-local storage, and its size
/// in bytes, 0 where it has none.
#[derive(Clone, Copy, Debug)]
pub struct Meant {
    pub value: Option<u64>,
    pub thread: bool,
    pub size: u64,
}

/// Where the string or the constant is of which a symbol has a byte; None where its section has no such line.
pub fn merged_value(merged: &MergedLines<'_>, symbol: &SymbolOf<'_>) -> Option<u128>
    ensures { result ≡ means.merged_value merged.now (symbol_view symbol.now) }
{
    let entry = symbol.entry;
    merged.at(symbol.object, entry.st_shndx as u64, entry.st_value as u128)
}

/// The value of a section itself to a relocation with an addend that says which string or constant of the section is meant.
fn merged_base(merged: &MergedLines<'_>, symbol: &SymbolOf<'_>, addend: u64) -> Option<u128>
    ensures { result ≡ means.merged_base merged.now (symbol_view symbol.now) addend }
{
    let entry = symbol.entry;
    let meant = entry.st_value as u128 + addend as u128;
    let at = merged.at(symbol.object, entry.st_shndx as u64, meant)?;
    at.checked_sub(addend as u128)
}

/// The same, where there is such an addend.
fn reference(merged: &MergedLines<'_>, symbol: &SymbolOf<'_>, added: Option<u64>) -> Option<u128>
    ensures { result ≡ parts.reference merged.now (symbol_view symbol.now) added }
{
    match added {
        Some(addend) => merged_base(merged, symbol, addend),
        None => None,
    }
}

/// How many values 64 bits have.
const VALUES: u128 = 1 << 64;

/// The lowest 64 bits of a number.
fn low(value: Option<u128>) -> Option<u64>
    ensures { result ≡ option_map (λ v. v % 2 ^ 64) value }
{
    match value {
        Some(value) => Some((value % VALUES) as u64),
        None => None,
    }
}

/// The value of a defined symbol modulo 2^64: an absolute one's `st_value`, else the address of its section plus `st_value`;
/// another one where the section has no address.
fn value_in_section(
    addresses: &Addresses<'_, '_>,
    symbol: &SymbolOf<'_>,
    merged: Option<u128>,
) -> Option<u64>
    ensures { result ≡ option_map (λ v. v % 2 ^ 64)
        (parts.value_in_section addresses.now (symbol_view symbol.now) merged) }
{
    let entry = symbol.entry;
    if entry.st_shndx == SHN_ABS {
        return Some(entry.st_value);
    }
    match addresses.address(symbol.object, entry.st_shndx as u64) {
        Some(at) => Some(at.wrapping_add(entry.st_value)),
        None => low(merged),
    }
}

/// The value of a defined symbol modulo 2^64; None where the image hasn't got its section, or what is there.
fn symbol_value(
    addresses: &Addresses<'_, '_>,
    merged: &MergedLines<'_>,
    symbol: &SymbolOf<'_>,
) -> Option<u64>
    ensures { result ≡ option_map (λ v. v % 2 ^ 64)
        (parts.symbol_value addresses.now merged.now (symbol_view symbol.now)) }
{
    value_in_section(addresses, symbol, merged_value(merged, symbol))
}

/// The value of what a name means, modulo 2^64; None where the image hasn't got it.
fn value_of(
    addresses: &Addresses<'_, '_>,
    merged: &MergedLines<'_>,
    rows: &[NameLine],
    meaning: &Meaning<'_>,
) -> Option<u64>
    ensures { result ≡ option_map (λ v. v % 2 ^ 64)
        (parts.value_of addresses.now merged.now (map name_row rows.now)
        (meaning_view meaning.now)) }
{
    match meaning {
        Meaning::Symbol(symbol) => symbol_value(addresses, merged, symbol),
        Meaning::Common(block) => addresses.address(block.object, block.number),
        Meaning::Linker(name, _) => row_value(rows, name),
    }
}

/// The value of a name's definition modulo 2^64; without one, 0 of a WEAK symbol, and None of another.
fn value_by(
    addresses: &Addresses<'_, '_>,
    merged: &MergedLines<'_>,
    rows: &[NameLine],
    definition: &Option<Meaning<'_>>,
    symbol: &SymbolOf<'_>,
) -> Option<u64>
    ensures { result ≡ option_map (λ v. v % 2 ^ 64) (option_map_or
        (parts.value_of addresses.now merged.now (map name_row rows.now))
        (option_map meaning_view definition.now) (undefined_value (symbol_view symbol.now))) }
{
    match definition {
        Some(meaning) => value_of(addresses, merged, rows, meaning),
        None => {
            if symbol.entry.binding() == STB_WEAK {
                Some(0)
            } else {
                None
            }
        }
    }
}

/// What a name of the linker's stands for; None where the linker defines nothing for it.
fn bound_of(outputs: &Outputs<'_, '_>, name: &[u8]) -> Option<Bound>
    ensures { result ≡ parts.bound_of outputs.now name.now }
{
    if let Some(bound) = fixed_bound(name) {
        return Some(bound);
    }
    if outputs.has(named_output(name)) {
        output_bound(name)
    } else {
        None
    }
}

/// What the linker defines for a name.
fn linker_meaning<'a>(outputs: &Outputs<'_, 'a>, name: &'a [u8]) -> Option<Meaning<'a>>
    ensures { option_map meaning_view result
        ≡ option_map (meanings.Linker name.now) (parts.bound_of outputs.now name.now) }
{
    let bound = bound_of(outputs, name)?;
    Some(Meaning::Linker(name, bound))
}

/// What a name means that an object defines.
fn object_meaning<'a>(names: &Names<'_, 'a>, name: &[u8]) -> Option<Meaning<'a>>
    ensures { option_map meaning_view result ≡ meanings.object_meaning names.now name.now }
{
    let symbol = names.chosen(name)?;
    names.meant(&symbol)
}

/// What a name means: what objects define, or else what the linker does.
pub fn definition_of<'a>(
    names: &Names<'_, 'a>,
    outputs: &Outputs<'_, 'a>,
    name: &'a [u8],
) -> Option<Meaning<'a>>
    ensures { option_map meaning_view result
        ≡ parts.object_or_linker names.now outputs.now name.now }
{
    match object_meaning(names, name) {
        Some(meaning) => Some(meaning),
        None => linker_meaning(outputs, name),
    }
}

/// Whether there is a definition, one of a section with SHF_TLS.
fn is_thread_use(objects: &[Loaded<'_>], definition: &Option<Meaning<'_>>) -> bool
    ensures { result ≡ is_thread_use (loaded_views objects.now)
        (option_map meaning_view definition.now) }
{
    match definition {
        Some(Meaning::Symbol(symbol)) => is_in_thread_section(objects, symbol),
        Some(Meaning::Common(_)) => false,
        Some(Meaning::Linker(_, _)) => false,
        None => false,
    }
}

/// The size of a definition, 0 without one.
fn size_of(definition: &Option<Meaning<'_>>) -> u64
    ensures { result ≡ size_of (option_map meaning_view definition.now) }
{
    match definition {
        Some(Meaning::Symbol(symbol)) => symbol.entry.st_size,
        Some(Meaning::Common(block)) => block.size,
        Some(Meaning::Linker(_, _)) => 0,
        None => 0,
    }
}

/// The value of a defined LOCAL symbol modulo 2^64 to a relocation with an addend that may say what is meant.
fn defined_value(
    addresses: &Addresses<'_, '_>,
    merged: &MergedLines<'_>,
    symbol: &SymbolOf<'_>,
    added: Option<u64>,
) -> Option<u64>
    ensures { result ≡ option_map (λ v. v % 2 ^ 64)
        (parts.defined_value addresses.now merged.now (symbol_view symbol.now) added) }
{
    if symbol.entry.symbol_type() == STT_SECTION {
        value_in_section(addresses, symbol, reference(merged, symbol, added))
    } else {
        symbol_value(addresses, merged, symbol)
    }
}

/// The value of a LOCAL symbol modulo 2^64; number 0 stands for none.
fn local_value(
    addresses: &Addresses<'_, '_>,
    merged: &MergedLines<'_>,
    symbol: &SymbolOf<'_>,
    added: Option<u64>,
) -> Option<u64>
    ensures { result ≡ option_map (λ v. v % 2 ^ 64)
        (parts.local_value addresses.now merged.now (symbol_view symbol.now) added) }
{
    if symbol.number == 0 {
        return Some(0);
    }
    if symbol.entry.st_shndx == SHN_UNDEF {
        return None;
    }
    defined_value(addresses, merged, symbol, added)
}

/// Whether a section has frames, by its name, and a symbol is one of a section that has no address.
fn is_frame_of_missing(addresses: &Addresses<'_, '_>, frames: bool, symbol: &SymbolOf<'_>) -> bool
    ensures { result ≡ parts.is_frame_of_missing addresses.now frames (symbol_view symbol.now) }
{
    frames
        && addresses
            .address(symbol.object, symbol.entry.st_shndx as u64)
            .is_none()
}

/// What a LOCAL symbol's value is to a relocation of a section, modulo 2^64: frames have 0 for those of what the image lacks.
fn local_meant(
    addresses: &Addresses<'_, '_>,
    merged: &MergedLines<'_>,
    frames: bool,
    symbol: &SymbolOf<'_>,
    added: Option<u64>,
) -> Option<u64>
    ensures { result ≡ option_map (λ v. v % 2 ^ 64)
        (parts.local_meant addresses.now merged.now frames (symbol_view symbol.now) added) }
{
    if let Some(value) = local_value(addresses, merged, symbol, added) {
        return Some(value);
    }
    if is_frame_of_missing(addresses, frames, symbol) && symbol.entry.st_shndx != SHN_UNDEF {
        Some(0)
    } else {
        None
    }
}

/// What a LOCAL symbol itself defines.
fn local_definition<'a>(symbol: &SymbolOf<'a>) -> Option<Meaning<'a>>
    ensures { option_map meaning_view result ≡ parts.local_definition (symbol_view symbol.now) }
{
    if symbol.entry.st_shndx == SHN_UNDEF {
        return None;
    }
    Some(Meaning::Symbol(*symbol))
}

/// What a LOCAL symbol means to relocations of a section.
fn own_local<'a>(
    parts: &LinkParts<'_, '_, 'a>,
    frames: bool,
    symbol: &SymbolOf<'a>,
    added: Option<u64>,
) -> Meant
    requires { is_local (symbol_view symbol.now) ≡ true }
    ensures { IsMeant parts.now frames (symbol_view symbol.now) added result }
{
    let definition = local_definition(symbol);
    Meant {
        value: local_meant(parts.addresses, parts.merged, frames, symbol, added),
        thread: is_thread_use(parts.names.objects(), &definition),
        size: size_of(&definition),
    }
}

/// What a symbol means that isn't LOCAL, by its name.
fn own_visible<'a>(
    parts: &LinkParts<'_, '_, 'a>,
    frames: bool,
    symbol: &SymbolOf<'a>,
    added: Option<u64>,
) -> Meant
    requires { is_local (symbol_view symbol.now) ≡ false }
    ensures { IsMeant parts.now frames (symbol_view symbol.now) added result }
{
    let definition = definition_of(parts.names, parts.outputs, symbol.name);
    Meant {
        value: value_by(
            parts.addresses,
            parts.merged,
            parts.rows,
            &definition,
            symbol,
        ),
        thread: is_thread_use(parts.names.objects(), &definition),
        size: size_of(&definition),
    }
}

/// What a symbol means to a relocation of a section, which has frames or hasn't, with the addend that says which string or constant
/// of a section is meant, where it does.
pub fn symbol_meant<'a>(
    parts: &LinkParts<'_, '_, 'a>,
    frames: bool,
    symbol: &SymbolOf<'a>,
    added: Option<u64>,
) -> Meant
    ensures { IsMeant parts.now frames (symbol_view symbol.now) added result }
{
    if symbol.entry.binding() == STB_LOCAL {
        own_local(parts, frames, symbol, added)
    } else {
        own_visible(parts, frames, symbol, added)
    }
}
