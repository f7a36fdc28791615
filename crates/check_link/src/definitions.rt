//! Which symbols are definitions, where they stand, and their values.
ghost use Rattle.std.specs.Prelude.{◌≡◌, ◌↔◌, ◌&&◌, IsTrue, not};
ghost use Rattle.elf_model.specs.Link.ChosenSymbols.{is_definition};
ghost use Rattle.elf_model.specs.Link.Placement.{symbol_value};
ghost use Rattle.elf_model.specs.Link.Commons.{is_common_symbol};
ghost use Rattle.elf_model.specs.Link.Resolution.{is_common_definition, is_in_thread_section, is_placed_symbol, is_strong, is_weak_definition};
ghost use Rattle.check_load.specs.Views.{loaded_views};
ghost use Rattle.check_link.specs.Views.{symbol_view};

use crate::places::Places;
use crate::symbols::section_of;
use crate::things::SymbolOf;
use check_load::Loaded;
use elf_model::{SHN_ABS, SHN_COMMON, SHN_UNDEF, STB_GLOBAL, STB_WEAK, Symbol};

/// Whether a symbol stands in a section or is absolute.
fn is_placed(entry: &Symbol) -> bool
    ensures { result ≡ is_placed_symbol entry.now }
{
    entry.st_shndx != SHN_UNDEF && entry.st_shndx != SHN_COMMON
}

/// Whether a symbol stands in a section that isn't dropped or is absolute.
fn is_defined(symbol: &SymbolOf<'_>) -> bool
    ensures { result ≡ (is_placed_symbol symbol.now.entry && not symbol.now.dropped) }
{
    is_placed(&symbol.entry) && !symbol.dropped
}

/// Whether a symbol is a strong definition: GLOBAL, in a section that isn't dropped or absolute.
pub fn is_strong(symbol: &SymbolOf<'_>) -> bool
    ensures { result ≡ is_strong (symbol_view symbol.now) }
{
    symbol.entry.binding() == STB_GLOBAL && is_defined(symbol)
}

/// Whether a symbol is a weak definition: WEAK, in a section that isn't dropped or absolute.
pub fn is_weak_definition(symbol: &SymbolOf<'_>) -> bool
    ensures { result ≡ is_weak_definition (symbol_view symbol.now) }
{
    symbol.entry.binding() == STB_WEAK && is_defined(symbol)
}

/// Whether a symbol is a common one.
pub fn is_common(symbol: &SymbolOf<'_>) -> bool
    ensures { result ≡ is_common_symbol (symbol_view symbol.now) }
{
    symbol.entry.st_shndx == SHN_COMMON
}

/// Whether a symbol is a common definition: GLOBAL, and a common one.
pub fn is_common_definition(symbol: &SymbolOf<'_>) -> bool
    ensures { result ≡ is_common_definition (symbol_view symbol.now) }
{
    symbol.entry.binding() == STB_GLOBAL && (is_common(symbol) && !symbol.dropped)
}

/// Whether a symbol is a definition, strong, common or weak.
pub fn is_definition(symbol: &SymbolOf<'_>) -> bool
    ensures { result ≡ is_definition (symbol_view symbol.now) }
{
    is_strong(symbol) || (is_common_definition(symbol) || is_weak_definition(symbol))
}

/// Whether a symbol stands in a section with SHF_TLS.
pub fn is_in_thread_section(objects: &[Loaded<'_>], symbol: &SymbolOf<'_>) -> bool
    ensures { result ≡ is_in_thread_section (loaded_views objects.now) (symbol_view symbol.now) }
{
    match section_of(objects, symbol) {
        Some(section) => section.is_thread_local(),
        None => false,
    }
}

/// Whether a defined symbol's value is a number: an absolute one's `st_value`, else the address of its
/// section plus `st_value`, 0 where the section isn't placed. No sum past 2^64 is one.
pub fn has_value(places: &Places<'_, '_>, symbol: &SymbolOf<'_>, value: u64) -> bool
    ensures { IsTrue result ↔ (value ≡ symbol_value places.now.placed (symbol_view symbol.now)) }
{
    let entry = symbol.entry;
    if entry.st_shndx == SHN_ABS {
        return value == entry.st_value;
    }
    match places.address(symbol.object, entry.st_shndx as u64) {
        Some(at) => at.checked_add(entry.st_value) == Some(value),
        None => value == 0,
    }
}
