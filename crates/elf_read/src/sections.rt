//! Whether the sections of an object lie inside it and have names (System V gABI 4, "Sections").
ghost use Rattle.std.specs.Prelude.{◌≡◌, ◌↔◌, ◌+◌, ◌<◌, ◌≤◌, ◌==◌, List, length, IfErr, OnOk, IsTrue, count_by, option_copied};
ghost use Rattle.std.specs.Int.{IsPowerOfTwo};
ghost use Rattle.std.specs.List.{All, find};
ghost use Rattle.byteview.specs.Numbers.{HasText};
ghost use Rattle.elf_model.specs.declared.records.Symbol.{Symbol};
ghost use Rattle.elf_model.specs.Inputs.ObjectFile.{AreGoodGroupSections, AreGoodRelaSections, AreSectionsNamed, HasGoodSymbolTable, HasTable, IsAlignment, IsGoodTable, IsPlaced, IsStringTable, IsSymbolTable, LiesInside, LinksToSymbols, StandsIn, contents, has_no_bytes, section, symbol_table};

use crate::groups::are_good_group_sections;
use crate::relas::are_good_rela_sections;
use byteview::View;
use elf_model::{
    FileHeader, ObjFault, SHT_NOBITS, SHT_NULL, SHT_STRTAB, SHT_SYMTAB, SHT_SYMTAB_SHNDX, SYM_SIZE,
    SectionHeader,
};

/// The greatest alignment of this profile.
const ALIGN_LIMIT: u64 = 1 << 21;

/// Judges all that section headers tell, but for names.
pub fn judge_sections(
    file: &View<'_>,
    header: &FileHeader,
    sections: &[SectionHeader],
) -> Result<(), ObjFault>
    requires long { 64 ≤ length file.now }
    requires ehsize { header.now.e_ehsize ≡ 64 }
    requires table { HasTable (length file.now) header.now }
    ensures table { OnOk result (IsGoodTable (length file.now) header.now sections.now) }
    ensures ranges { OnOk result (All (IsPlaced (length file.now)) sections.now) }
    ensures symbols { OnOk result (HasGoodSymbolTable sections.now) }
    ensures relas { OnOk result (AreGoodRelaSections sections.now) }
    ensures groups { OnOk result (AreGoodGroupSections sections.now) }
    ensures fault { IfErr result (λ f. (symbols : List Symbol) →
        StandsIn file.now header.now sections.now symbols f) }
{
    if section(sections, 0).sh_type != SHT_NULL {
        return Err(ObjFault::BadSectionTable);
    }
    if !is_string_table(sections, header.e_shstrndx as usize) {
        return Err(ObjFault::BadSectionTable);
    }
    let len = file.len();
    if !sections.iter().all(|section| is_placed(section, len)) {
        return Err(ObjFault::BadSectionRange);
    }
    if !has_good_symbol_table(sections) {
        return Err(ObjFault::BadSymbolTable);
    }
    if !are_good_rela_sections(sections) {
        return Err(ObjFault::BadRela);
    }
    if !are_good_group_sections(sections) {
        return Err(ObjFault::BadGroup);
    }
    Ok(())
}

/// The section of a number; a null one where there is none.
pub fn section(sections: &[SectionHeader], number: usize) -> SectionHeader
    ensures { result ≡ section sections.now number }
{
    sections.get(number).copied().unwrap_or(SectionHeader::NULL)
}

/// The symbol table; a null section where there is none.
pub fn symbol_table(sections: &[SectionHeader]) -> SectionHeader
    ensures { result ≡ symbol_table sections.now }
{
    first_symbol_table(sections)
        .copied()
        .unwrap_or(SectionHeader::NULL)
}

fn first_symbol_table(sections: &[SectionHeader]) -> Option<&SectionHeader>
    ensures { option_copied result ≡ find (λ s. s.sh_type == 2) sections.now }
{
    sections
        .iter()
        .find(|section| section.sh_type == SHT_SYMTAB)
}

/// Whether the section that `sh_link` names is the symbol table.
pub fn links_to_symbols(sections: &[SectionHeader], linked: &SectionHeader) -> bool
    requires one { count_by (λ s. s.sh_type == 2) sections.now ≤ 1 }
    ensures { IsTrue result ↔ LinksToSymbols sections.now linked.now }
{
    section(sections, linked.sh_link as usize).sh_type == SHT_SYMTAB
}

/// The bytes that a section names, as far as the file has them.
pub fn contents<'a>(file: &View<'a>, section: &SectionHeader) -> View<'a>
    ensures { result ≡ contents file.now section.now }
{
    View::new(file.part(section.sh_offset as usize, section.sh_size as usize))
}

/// The string table that holds the names of sections.
pub fn section_strings<'a>(
    file: &View<'a>,
    header: &FileHeader,
    sections: &[SectionHeader],
) -> View<'a>
    ensures { result ≡ contents file.now (section sections.now header.now.e_shstrndx) }
{
    contents(file, &section(sections, header.e_shstrndx as usize))
}

/// The string table that holds the names of symbols.
pub fn symbol_strings<'a>(file: &View<'a>, sections: &[SectionHeader]) -> View<'a>
    ensures { result ≡ contents file.now
        (section sections.now (symbol_table sections.now).sh_link) }
{
    contents(
        file,
        &section(sections, symbol_table(sections).sh_link as usize),
    )
}

/// Whether a section has no bytes in the file.
pub fn has_no_bytes(section: &SectionHeader) -> bool
    ensures { result ≡ has_no_bytes section.now }
{
    section.sh_type == SHT_NULL || section.sh_type == SHT_NOBITS
}

/// Whether each section's name is a text of the string table.
pub fn are_sections_named(strings: &View<'_>, sections: &[SectionHeader]) -> bool
    ensures { IsTrue result ↔ AreSectionsNamed strings.now sections.now }
{
    let limit = strings.text_limit();
    sections
        .iter()
        .all(|section| (section.sh_name as usize) < limit)
}

fn is_string_table(sections: &[SectionHeader], number: usize) -> bool
    ensures { IsTrue result ↔ IsStringTable sections.now number }
{
    section(sections, number).sh_type == SHT_STRTAB
}

/// Whether a section lies inside a file of a length, and its alignment is one of the profile's.
pub fn is_placed(section: &SectionHeader, len: usize) -> bool
    ensures { IsTrue result ↔ IsPlaced len section.now }
{
    let is_inside = section.sh_type == SHT_NULL
        || section.sh_type == SHT_NOBITS
        || lies_inside(section, len);
    is_inside && is_alignment(section.sh_addralign)
}

/// Whether the bytes that a section names lie inside a file of a length.
pub fn lies_inside(section: &SectionHeader, len: usize) -> bool
    ensures { IsTrue result ↔ LiesInside len section.now }
{
    section.sh_offset as usize <= len
        && section.sh_size as usize <= len - section.sh_offset as usize
}

fn is_alignment(align: u64) -> bool
    ensures { IsTrue result ↔ IsAlignment align }
{
    align == 0 || (is_power_of_two(align) && align <= ALIGN_LIMIT)
}

/// Whether a number is a power of two.
pub fn is_power_of_two(number: u64) -> bool
    ensures { IsTrue result ↔ IsPowerOfTwo number }
{
    number.is_power_of_two()
}

/// Whether the sections have at most one symbol table, a good one, and no extended section numbers.
pub fn has_good_symbol_table(sections: &[SectionHeader]) -> bool
    ensures { IsTrue result ↔ HasGoodSymbolTable sections.now }
{
    let count = sections
        .iter()
        .filter(|section| section.sh_type == SHT_SYMTAB)
        .count();
    if count > 1 {
        return false;
    }
    if sections
        .iter()
        .any(|section| section.sh_type == SHT_SYMTAB_SHNDX)
    {
        return false;
    }
    sections.iter().all(|section| section.sh_type != SHT_SYMTAB
        || is_symbol_table(sections, section))
}

/// Whether the header of a symbol table is a good one.
pub fn is_symbol_table(sections: &[SectionHeader], section: &SectionHeader) -> bool
    ensures { IsTrue result ↔ IsSymbolTable sections.now section.now }
{
    if section.sh_entsize as usize != SYM_SIZE || section.sh_size == 0 {
        return false;
    }
    section.sh_size as usize % SYM_SIZE == 0 && is_string_table(sections, section.sh_link as usize)
}
