//! The entry that the definition of a name has in a symbol table (System V gABI 4, "Symbol Table").
ghost use Rattle.std.specs.Prelude.{◌≡◌, ◌+◌, ◌*◌, ◌<◌, ◌^◌, ◌∷◌, [], ℕ, List, IfNone, IfSome, option_map};
ghost use Rattle.std.specs.Cow.{cow_slice_items};
ghost use Rattle.linkmap.specs.Borrowed.{symbol_row};
ghost use Rattle.elf_model.specs.Link.Meaning as meaning;
ghost use Rattle.elf_model.specs.Link.Meaning.{meaning_size, object_meaning};
ghost use Rattle.elf_model.specs.Image.SymbolTable.{entry_binding, entry_type, has_entry, tabled};
ghost use Rattle.elf_model.specs.declared.bound.Bound.{Bound};
ghost use Rattle.check_link.specs.Views.{meaning_view, symbol_view};
ghost use Rattle.check_tables.specs.Listed.{IsLine};
ghost use Rattle.check_tables.specs.Tabled.{IsTabled, entry_at, entry_if_tabled};

use crate::c13_symbols::meaning_of_line;
use crate::c13_symbols::own_choices::OwnChoices;
use check_link::{Meaning, SymbolOf};
use check_relocs::Bindings;
use elf_model::{SHN_ABS, STB_GLOBAL, STB_WEAK, STT_FUNC, STT_NOTYPE, STT_OBJECT, Symbol};
use linkmap::BorrowedSymbol;

/// The binding and the type of a symbol of an object, as `st_info` has them.
fn symbol_info(symbol: &SymbolOf<'_>) -> u8
    ensures { result ≡ entry_binding (meaning.Symbol (symbol_view symbol.now)) * 16 + entry_type
        (meaning.Symbol (symbol_view symbol.now)) }
{
    let info = symbol.entry.st_info;
    let binding = if info / 16 == STB_WEAK {
        STB_WEAK
    } else {
        STB_GLOBAL
    };
    let symbol_type = if info % 16 <= STT_FUNC {
        info % 16
    } else {
        STT_NOTYPE
    };
    binding * 16 + symbol_type
}

/// The binding and the type of a definition, as `st_info` has them.
fn info_of(meaning: &Meaning<'_>) -> u8
    ensures { result ≡ entry_binding (meaning_view meaning.now) * 16 + entry_type
        (meaning_view meaning.now) }
{
    match meaning {
        Meaning::Symbol(symbol) => symbol_info(symbol),
        Meaning::Common(_) => STB_GLOBAL * 16 + STT_OBJECT,
        Meaning::Linker(_, _) => STB_GLOBAL * 16 + STT_NOTYPE,
    }
}

/// The size of a definition in bytes.
fn size_of(meaning: &Meaning<'_>) -> u64
    ensures { result ≡ meaning_size (meaning_view meaning.now) }
{
    match meaning {
        Meaning::Symbol(symbol) => symbol.entry.st_size,
        Meaning::Common(block) => block.size,
        Meaning::Linker(_, _) => 0,
    }
}

/// Whether a definition has an entry: it stands in no section with SHF_TLS.
fn is_tabled(bindings: &Bindings<'_, '_, '_>, meaning: &Meaning<'_>) -> bool
    ensures { result ≡ has_entry bindings.now.objects (meaning_view meaning.now) }
{
    match meaning {
        Meaning::Symbol(symbol) => !bindings.is_in_thread_section(symbol),
        Meaning::Common(_) | Meaning::Linker(_, _) => true,
    }
}

/// The entry of a definition that is at an address.
fn entry_of(meaning: &Meaning<'_>, name_at: u32, address: u64) -> Symbol
    ensures { result ≡ entry_at name_at address (meaning_view meaning.now) }
{
    Symbol {
        st_name: name_at,
        st_info: info_of(meaning),
        st_other: 0,
        st_shndx: SHN_ABS,
        st_value: address,
        st_size: size_of(meaning),
    }
}

/// The entry of a name of the linker's own that stands for an address.
fn linkers_entry(name_at: u32, address: u64) -> Symbol
    ensures entry { (name : List ℕ) (bound : Bound) →
        result ≡ entry_at name_at address (meaning.Linker name bound) }
    ensures fits { address < 2 ^ 64 }
{
    Symbol {
        st_name: name_at,
        st_info: STB_GLOBAL * 16 + STT_NOTYPE,
        st_other: 0,
        st_shndx: SHN_ABS,
        st_value: address,
        st_size: 0,
    }
}

/// The entry of a definition that is at an address, where it has one.
fn object_entry(
    bindings: &Bindings<'_, '_, '_>,
    meaning: &Meaning<'_>,
    name_at: u32,
    address: u64,
) -> Option<Symbol>
    ensures entry { result ≡ entry_if_tabled bindings.now.objects name_at address
        (meaning_view meaning.now) }
    ensures fits { address < 2 ^ 64 }
{
    if is_tabled(bindings, meaning) {
        Some(entry_of(meaning, name_at, address))
    } else {
        None
    }
}

/// The entry of the definition of a line, where it has one, given what objects define for the line's name. The line is that
/// of what its name means.
fn entry_with(
    bindings: &Bindings<'_, '_, '_>,
    meaning: &Option<Meaning<'_>>,
    line: &BorrowedSymbol<'_>,
    name_at: u32,
) -> Option<Symbol>
    requires line { IsLine bindings.now.objects bindings.now.places (symbol_row line.now) }
    requires meaning { option_map meaning_view meaning.now
        ≡ object_meaning bindings.now.objects line.now.name.now }
    ensures none { IfNone result (tabled bindings.now.objects (symbol_row line.now ∷ []) ≡ []) }
    ensures some { IfSome result (IsTabled bindings.now.objects bindings.now.places
        (symbol_row line.now) name_at) }
{
    match meaning {
        Some(meaning) => object_entry(bindings, meaning, name_at, line.address),
        None => Some(linkers_entry(name_at, line.address)),
    }
}

/// The entry of the definition of a line, where it has one, given the chosen definitions that lines name: of a line that names
/// its own no name is looked up. The line is that of what its name means.
pub fn entry_by<'a>(
    bindings: &Bindings<'_, '_, 'a>,
    choices: &OwnChoices<'_, 'a>,
    line: &BorrowedSymbol<'_>,
    name_at: u32,
) -> Option<Symbol>
    requires line { IsLine bindings.now.objects bindings.now.places (symbol_row line.now) }
    requires choices { choices.now ≡ bindings.now.objects }
    ensures none { IfNone result (tabled bindings.now.objects (symbol_row line.now ∷ []) ≡ []) }
    ensures some { IfSome result (IsTabled bindings.now.objects bindings.now.places
        (symbol_row line.now) name_at) }
{
    let meaning = meaning_of_line(bindings, choices, line);
    entry_with(bindings, &meaning, line, name_at)
}
