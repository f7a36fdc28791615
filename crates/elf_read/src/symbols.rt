//! Whether the symbol table of an object is a good one (System V gABI 4, "Symbol Table").
ghost use Rattle.std.specs.Prelude.{◌≡◌, ◌↔◌, ◌/◌, ◌<◌, ◌^◌, length, IfErr, IfOk, OnOk, IsTrue};
ghost use Rattle.byteview.specs.Numbers.{IsInside, part};
ghost use Rattle.elf_model.specs.Inputs.ObjectFile.{AreGoodSymbols, AreSectionsNamed, AreSymbolsNamed, IsGoodSymbol, LiesInside, StandsIn, contents, entries, section, symbol_table, symbols_of};
ghost use Rattle.elf_model.specs.Inputs.Records.{symbol};
ghost use Rattle.elf_read.specs.Reading.{HasGoodSections};

use crate::run::Run;
use crate::sections::{are_sections_named, section_strings, symbol_strings};
use byteview::View;
use elf_model::{
    FileHeader, ObjFault, SHN_ABS, SHN_COMMON, STB_WEAK, STT_TLS, SYM_SIZE, SectionHeader, Symbol,
};
use std::alloc::{AllocError, Global};

/// The symbols of a table that lies inside the file.
pub fn symbols_in<'a>(file: &View<'a>, table: &SectionHeader) -> Run<'a, Symbol>
    requires { LiesInside (length file.now) table.now }
    ensures { result ≡ entries symbol 24 file.now table.now.sh_offset (table.now.sh_size / 24) }
{
    Run::new(
        file.bytes(),
        table.sh_offset as usize,
        table.sh_size as usize / SYM_SIZE,
    )
}

/// The symbols of a table that lies inside the file, as a table of their own.
pub fn read_symbols(
    alloc: Global,
    file: &View<'_>,
    table: &SectionHeader,
) -> Result<Vec<Symbol>, AllocError>
    requires { LiesInside (length file.now) table.now }
    ensures { IfOk result (λ v. v.items
        ≡ entries symbol 24 file.now table.now.sh_offset (table.now.sh_size / 24)) }
{
    symbols_in(file, table).to_vec(alloc)
}

/// Judges the symbols, and the names of sections and symbols.
pub fn judge_symbols(
    file: &View<'_>,
    header: &FileHeader,
    sections: &[SectionHeader],
    symbols: &[Symbol],
) -> Result<(), ObjFault>
    requires sections { HasGoodSections file.now header.now sections.now }
    requires symbols_are { symbols.now ≡ symbols_of file.now sections.now }
    ensures symbols { OnOk result (AreGoodSymbols header.now.e_shnum symbols.now) }
    ensures section_names { OnOk result (AreSectionsNamed
        (contents file.now (section sections.now header.now.e_shstrndx)) sections.now) }
    ensures symbol_names { OnOk result (AreSymbolsNamed
        (contents file.now
        (section sections.now (symbol_table sections.now).sh_link)) symbols.now) }
    ensures fault { IfErr result (StandsIn file.now header.now sections.now symbols.now) }
{
    if !are_good_symbols(symbols, header.e_shnum) {
        return Err(ObjFault::BadSymbolTable);
    }
    if !are_sections_named(&section_strings(file, header, sections), sections) {
        return Err(ObjFault::BadString);
    }
    if !are_symbols_named(&symbol_strings(file, sections), symbols) {
        return Err(ObjFault::BadString);
    }
    Ok(())
}

/// Whether the symbols are those of a file with `count` sections.
fn are_good_symbols(symbols: &[Symbol], count: u16) -> bool
    ensures { IsTrue result ↔ AreGoodSymbols count symbols.now }
{
    let first = symbols.first().copied().unwrap_or(Symbol::NULL);
    first == Symbol::NULL && symbols.iter().all(|symbol| is_good_symbol(symbol, count))
}

/// Whether each symbol's name is a text of the string table.
fn are_symbols_named(strings: &View<'_>, symbols: &[Symbol]) -> bool
    ensures { IsTrue result ↔ AreSymbolsNamed strings.now symbols.now }
{
    let limit = strings.text_limit();
    symbols
        .iter()
        .all(|symbol| (symbol.st_name as usize) < limit)
}

/// Whether binding, type and section of a symbol are those of a file with `count` sections.
pub fn is_good_symbol(symbol: &Symbol, count: u16) -> bool
    ensures { IsTrue result ↔ IsGoodSymbol count symbol.now }
{
    if symbol.binding() > STB_WEAK || symbol.symbol_type() > STT_TLS {
        return false;
    }
    symbol.st_shndx < count || symbol.st_shndx == SHN_ABS || symbol.st_shndx == SHN_COMMON
}
