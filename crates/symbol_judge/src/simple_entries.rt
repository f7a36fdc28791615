//! Entries of a symbol table that name no symbol of an object: those of files, of sections, and of what nothing defines.
ghost use Rattle.std.specs.Prelude.{◌↔◌, IsSomeAnd, IsTrue};
ghost use Rattle.std.specs.List.{slice_get};
ghost use Rattle.judge_model.specs.Tables.{IsFile};
ghost use Rattle.symbol_judge.specs.Entries.{BeginsAt, IsMissingBy, IsSectionBy};

use elf_model::{SHN_ABS, SHN_UNDEF, STB_WEAK, STT_FILE, STT_SECTION, SectionHeader, Symbol};

/// Whether an entry is WEAK or LOCAL, and undefined with the value 0, and its name isn't defined.
pub fn is_missing(defined: bool, entry: &Symbol) -> bool
    ensures { IsTrue result ↔ IsMissingBy defined entry.now }
{
    if defined || entry.st_shndx != SHN_UNDEF {
        return false;
    }
    entry.st_value == 0 && (entry.binding() == STB_WEAK || entry.is_local())
}

/// Whether an entry stands for a file: LOCAL, absolute, with the value 0.
pub fn is_file(entry: &Symbol) -> bool
    ensures { IsTrue result ↔ IsFile entry.now }
{
    if entry.symbol_type() != STT_FILE || !entry.is_local() {
        return false;
    }
    entry.st_value == 0 && entry.st_shndx == SHN_ABS
}

/// Whether a value is the address of the section that has a number.
fn begins_section(sections: &[SectionHeader], number: usize, value: u64) -> bool
    ensures { IsTrue result ↔ IsSomeAnd (slice_get sections.now number) (BeginsAt value) }
{
    match sections.get(number) {
        Some(section) => value == section.sh_addr,
        None => false,
    }
}

/// Whether an entry stands for a section: LOCAL, with the section's address.
pub fn is_section(sections: &[SectionHeader], entry: &Symbol) -> bool
    ensures { IsTrue result ↔ IsSectionBy sections.now entry.now }
{
    if entry.symbol_type() != STT_SECTION || !entry.is_local() {
        return false;
    }
    begins_section(sections, entry.st_shndx as usize, entry.st_value)
}
