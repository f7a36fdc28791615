//! Whether e_entry is the value of the definition of the entry's name.
ghost use Rattle.std.specs.Prelude.{◌≡◌, ◌↔◌, List, IsTrue, Some};
ghost use Rattle.check_link.specs.Views.{block_view, symbol_view};
ghost use Rattle.check_load.specs.Views.{loaded_views};
ghost use Rattle.elf_model.specs.Link.Meaning as meanings;
ghost use Rattle.judge_model.specs.Certificates.{NameRow};
ghost use Rattle.judge_model.specs.Links.{ForeignLink};
ghost use Rattle.judge_model.specs.RightForeign.{Holds};
ghost use Rattle.judge_model.specs.declared.judgement.Requirement.TheVariants as requirement;
ghost use Rattle.link_fields.specs.Parts as words;
ghost use Rattle.entry_judge.specs.Entries.{EntersAt, HasValue, IsAt, IsOutside};

use check_link::{Block, Meaning, Names, SymbolOf, is_in_thread_section};
use check_load::Loaded;
use elf_model::SHN_ABS;
use link_fields::{Addresses, LinkParts, MergedLines, merged_value};

/// Whether there is a value, and which.
fn is_some(found: Option<u128>, value: u64) -> bool
    ensures { IsTrue result ↔ (found ≡ Some value) }
{
    match found {
        Some(found) => found == value as u128,
        None => false,
    }
}

/// Whether a defined symbol has a value: an absolute one's `st_value`, else the address of its section plus `st_value`, or of a
/// section that was merged where its string or constant is.
fn has_value(
    addresses: &Addresses<'_, '_>,
    merged: &MergedLines<'_>,
    symbol: &SymbolOf<'_>,
    value: u64,
) -> bool
    ensures { IsTrue result
        ↔ (words.symbol_value addresses.now merged.now (symbol_view symbol.now) ≡ Some value) }
{
    let entry = symbol.entry;
    if entry.st_shndx == SHN_ABS {
        return entry.st_value == value;
    }
    match addresses.address(symbol.object, entry.st_shndx as u64) {
        Some(at) => at <= value && entry.st_value == value - at,
        None => is_some(merged_value(merged, symbol), value),
    }
}

/// Whether a common block is at an address.
fn is_block_at(addresses: &Addresses<'_, '_>, block: &Block<'_>, value: u64) -> bool
    ensures { IsTrue result
        ↔ (words.address_of addresses.now block.now.object block.now.number ≡ Some value) }
{
    match addresses.address(block.object, block.number) {
        Some(at) => at == value,
        None => false,
    }
}

/// Whether what a chosen symbol means has a value.
fn is_at<'a>(
    names: &Names<'_, 'a>,
    addresses: &Addresses<'_, '_>,
    merged: &MergedLines<'_>,
    symbol: &SymbolOf<'a>,
    value: u64,
) -> bool
    ensures { (rows : List NameRow) → IsTrue result
        ↔ IsAt names.now addresses.now merged.now rows value (symbol_view symbol.now) }
{
    match names.meant(symbol) {
        Some(Meaning::Symbol(own)) => has_value(addresses, merged, &own, value),
        Some(Meaning::Common(block)) => is_block_at(addresses, &block, value),
        Some(Meaning::Linker(_, _)) => false,
        None => false,
    }
}

/// Whether a symbol isn't in thread-local storage.
fn is_outside(objects: &[Loaded<'_>], symbol: &SymbolOf<'_>) -> bool
    ensures { IsTrue result ↔ IsOutside (loaded_views objects.now) (symbol_view symbol.now) }
{
    !is_in_thread_section(objects, symbol)
}

/// Whether objects define a name outside of thread-local storage, and `e_entry` of the image is its value.
fn enters_at(parts: &LinkParts<'_, '_, '_>, name: &[u8]) -> bool
    ensures { IsTrue result ↔ EntersAt parts.now name.now }
{
    let Some(symbol) = parts.names.chosen(name) else {
        return false;
    };
    if !is_outside(parts.names.objects(), &symbol) {
        return false;
    }
    is_at(
        parts.names,
        parts.addresses,
        parts.merged,
        &symbol,
        parts.image.entry(),
    )
}

/// Whether the program of a link, given its parts, is entered at the definition of its entry's name: objects define it outside of
/// thread-local storage, and `e_entry` is its value.
pub fn is_entry_right(parts: &LinkParts<'_, '_, '_>, name: &[u8]) -> bool
    ensures { (l : ForeignLink) → words.parts_of l ≡ parts.now → l.plan.plan.entry ≡ name.now
        → IsTrue result ↔ Holds requirement.F11 l }
{
    enters_at(parts, name)
}
