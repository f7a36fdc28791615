//! The first part of a file that has a fault, which may be no object: a section, what one holds, or a symbol.
ghost use Rattle.std.specs.Prelude.{◌≡◌, ◌+◌, ◌*◌, ◌<◌, ◌^◌, IfOk, IfSome, IsTrue, Some, length};
ghost use Rattle.std.specs.List.{slice_get};
ghost use Rattle.std.specs.Option.{ForSome};
ghost use Rattle.elf_model.specs.Inputs.ObjectFile.{HasSymbols, HasTable, LiesInside, ObjFaultStands, section, sections, symbols_of};
ghost use Rattle.elf_model.specs.Inputs.Records.{file_header};
ghost use Rattle.elf_model.specs.declared.faults.ObjFault.TheVariants as fault;
ghost use Rattle.bad_parts.specs.BadParts.{AreTables, IsBadOf, IsOfType, IsSectionPart, IsSymbolPart};

use crate::part::{BadPart, Held, Part, SectionPart, SymbolPart};
use byteview::View;
use elf_model::{
    FileHeader, ObjFault, RELA_SIZE, SHDR_SIZE, SHT_GROUP, SHT_REL, SHT_RELA, SHT_STRTAB,
    SHT_SYMTAB, SHT_SYMTAB_SHNDX, SYM_SIZE, SectionHeader, Symbol,
};
use elf_read::{
    ObjectFile, RelaRun, Run, contents, has_good_symbol_table, is_good_symbol, is_group_section,
    is_placed, is_rela_section, is_symbol_table, lies_inside, may_be_member, read_header,
    read_sections, section, symbol_table,
};
use std::alloc::{AllocError, Global};

/// The bytes of a group's flags, and of a member.
const WORD_SIZE: usize = 4;

/// Where entry `number` of a table is, whose entries have so many bytes.
fn entry_at(table: u64, number: usize, size: usize) -> Option<u64>
    ensures { IfSome result (λ at. at ≡ table + size * number) }
{
    table.checked_add(number.checked_mul(size)? as u64)
}

/// The symbols of a file, where they can be read.
fn symbols_in<'a>(
    file: &View<'a>,
    header: &FileHeader,
    sections: &[SectionHeader],
) -> Option<Run<'a, Symbol>>
    requires { HasTable (length file.now) header.now }
    ensures { ForSome result (λ run. HasSymbols (length file.now) header.now sections.now
        × (run ≡ symbols_of file.now sections.now)) }
{
    let _header = header;
    let table = symbol_table(sections);
    let tables = sections.iter().filter(|s| s.sh_type == SHT_SYMTAB);
    if tables.count() != 1 || table.sh_entsize as usize != SYM_SIZE || table.sh_size == 0 {
        return None;
    }
    let (offset, size) = (table.sh_offset as usize, table.sh_size as usize);
    if size % SYM_SIZE != 0 || !lies_inside(&table, file.len()) {
        return None;
    }
    Some(Run::new(file.bytes(), offset, size / SYM_SIZE))
}

/// A file that has a section header table, and its symbols where they can be read.
#[derive(Drop)]
struct Tables<'a> {
    file: View<'a>,
    header: FileHeader,
    sections: Vec<SectionHeader>,
    symbols: Option<Run<'a, Symbol>>,
    ghost are: { AreTables file header sections.items symbols },
}

impl<'a> Tables<'a> {
    /// The tables of a file; None where it has no section header table, or its header is no object's.
    fn read(alloc: Global, file: View<'a>) -> Result<Option<Tables<'a>>, AllocError>
        ensures { IfOk result (λ o. IfSome o (λ t. t.file ≡ file.entry)) }
    {
        let Ok(header) = read_header(&file) else {
            return Ok(None);
        };
        let sections = read_sections(alloc, &file, &header)?;
        let symbols = symbols_in(&file, &header, &sections);
        Ok(Some(Tables {
            file,
            header,
            sections,
            symbols,
        }))
    }

    /// Whether a section is a string table inside the file.
    fn has_strings(&self, number: usize) -> bool
        ensures strings { IsTrue result → (section (sections self.now.file) number).sh_type ≡ 3 }
        ensures inside { IsTrue result → LiesInside (length self.now.file)
            (section (sections self.now.file) number) }
    {
        let strings = section(&self.sections, number);
        strings.sh_type == SHT_STRTAB && lies_inside(&strings, self.file.len())
    }

    /// The section that has a number.
    fn section(&self, number: usize) -> Option<SectionPart<'a>>
        ensures { IfSome result (IsSectionPart self.now.file) }
    {
        let (file, header) = (&self.file, &self.header);
        let entry = self.sections.get(number).copied()?;
        let strings = contents(file, &section(&self.sections, header.e_shstrndx as usize));
        Some(Part {
            number: number as u64,
            at: entry_at(header.e_shoff, number, SHDR_SIZE)?,
            entry,
            name: strings.text_at(entry.sh_name as usize),
        })
    }

    /// The symbol that has a number.
    fn symbol(&self, number: usize) -> Option<SymbolPart<'a>>
        ensures { IfSome result (IsSymbolPart self.now.file) }
    {
        let entry = self.symbols.as_ref()?.get(number)?;
        let table = symbol_table(&self.sections);
        let strings = contents(&self.file, &section(&self.sections, table.sh_link as usize));
        Some(Part {
            number: number as u64,
            at: entry_at(table.sh_offset, number, SYM_SIZE)?,
            entry,
            name: strings.text_at(entry.st_name as usize),
        })
    }
}

/// A symbol table, where it is the second one.
fn second_table<'a>(tables: &Tables<'a>, part: SectionPart<'a>) -> Option<BadPart<'a>>
    requires { IsOfType tables.now.file 2 part }
    ensures { IfSome result (IsBadOf tables.now.file fault.BadSymbolTable) }
{
    let mut headers = tables.sections.iter();
    let first = tables.section(headers.position(|h| h.sh_type == SHT_SYMTAB)?)?;
    if first.entry.sh_type != SHT_SYMTAB || first.number >= part.number {
        return None;
    }
    Some(BadPart::SecondTable(first, part))
}

/// Section `i`, where it has a fault: by its own header, by its name, or beside what else there is, where it is a second symbol
/// table, or lists a group whose signature isn't there.
fn bad_section<'a>(tables: &Tables<'a>, fault: ObjFault, i: usize) -> Option<BadPart<'a>>
    ensures { IfSome result (IsBadOf tables.now.file fault) }
{
    let part = tables.section(i)?;
    let (sections, header) = (&tables.sections, &part.entry);
    let strings = tables.header.e_shstrndx as usize;
    match (fault, header.sh_type) {
        (ObjFault::BadSectionRange, _) if !is_placed(header, tables.file.len()) => {
            Some(BadPart::Range(part))
        }
        (ObjFault::BadString, _) if part.name.is_none() && tables.has_strings(strings) => {
            Some(BadPart::SectionName(part))
        }
        (ObjFault::BadSymbolTable, SHT_SYMTAB_SHNDX) => Some(BadPart::Extension(part)),
        (ObjFault::BadSymbolTable, SHT_SYMTAB) if !is_symbol_table(sections, header) => {
            Some(BadPart::SymbolTable(part))
        }
        (ObjFault::BadSymbolTable, SHT_SYMTAB) => second_table(tables, part),
        (ObjFault::BadRela, SHT_REL) => Some(BadPart::Rel(part)),
        (ObjFault::BadRela, SHT_RELA)
            if has_good_symbol_table(sections) && !is_rela_section(sections, header) => {
            Some(BadPart::Relas(part))
        }
        (ObjFault::BadGroup, SHT_GROUP)
            if has_good_symbol_table(sections) && !is_group_section(sections, header) => {
            Some(BadPart::Group(part))
        }
        (ObjFault::BadGroup, SHT_GROUP)
            if header.sh_info as usize >= tables.symbols.as_ref()?.len() => {
            Some(BadPart::Signature(part))
        }
        _ => None,
    }
}

/// Symbol `j`, where it or its name has a fault.
fn bad_symbol<'a>(tables: &Tables<'a>, fault: ObjFault, j: usize) -> Option<BadPart<'a>>
    ensures { IfSome result (IsBadOf tables.now.file fault) }
{
    let part = tables.symbol(j)?;
    let strings = symbol_table(&tables.sections).sh_link as usize;
    match fault {
        ObjFault::BadString if part.name.is_none() && tables.has_strings(strings) => {
            Some(BadPart::SymbolName(part))
        }
        ObjFault::BadSymbolTable if part.number == 0 && part.entry != Symbol::NULL => {
            Some(BadPart::NullSymbol(part))
        }
        ObjFault::BadSymbolTable if !is_good_symbol(&part.entry, tables.header.e_shnum) => {
            Some(BadPart::Symbol(part))
        }
        _ => None,
    }
}

/// The first entry of section `i` that names a symbol which isn't there, where that is a RELA section whose entries can be read.
fn bad_entry<'a>(tables: &Tables<'a>, fault: ObjFault, i: usize) -> Option<BadPart<'a>>
    ensures { IfSome result (IsBadOf tables.now.file fault) }
{
    let section = tables.section(i)?;
    let (header, count) = (&section.entry, tables.symbols.as_ref()?.len());
    match (fault, header.sh_type) {
        (ObjFault::BadRela, SHT_RELA) if lies_inside(header, tables.file.len()) => {}
        _ => return None,
    }
    if header.sh_size as usize % RELA_SIZE != 0 {
        return None;
    }
    let entries = RelaRun::of_section(&tables.file, header);
    for j in 0..entries.len() {
        let entry = entries.get(j)?;
        if entry.symbol() as usize >= count {
            return Some(BadPart::Entry(Held {
                section,
                number: j as u64,
                at: entry_at(header.sh_offset, j, RELA_SIZE)?,
                entry,
            }));
        }
    }
    None
}

/// The first member of the group that section `i` lists that may be none, where its members can be read.
#[tactic(auto, using(crate::proofs::Members::member_there))]
fn bad_member<'a>(tables: &Tables<'a>, fault: ObjFault, i: usize) -> Option<BadPart<'a>>
    ensures { IfSome result (IsBadOf tables.now.file fault) }
{
    let section = tables.section(i)?;
    let (header, size) = (&section.entry, section.entry.sh_size as usize);
    match (fault, header.sh_type) {
        (ObjFault::BadGroup, SHT_GROUP) if lies_inside(header, tables.file.len()) => {}
        _ => return None,
    }
    if size % WORD_SIZE != 0 {
        return None;
    }
    for j in 0..(size / WORD_SIZE).checked_sub(1)? {
        let at = header.sh_offset as usize + WORD_SIZE + WORD_SIZE * j;
        let entry = tables.file.u32_inside(at);
        if !may_be_member(&tables.sections, entry as usize) {
            return Some(BadPart::Member(Held {
                section,
                number: j as u64,
                at: at as u64,
                entry,
            }));
        }
    }
    None
}

/// The first section that has a fault; else the first entry of a section, or the first symbol.
fn part_of_fault<'a>(tables: &Tables<'a>, fault: ObjFault) -> Option<BadPart<'a>>
    ensures { IfSome result (IsBadOf tables.now.file fault) }
{
    for i in 0..tables.sections.len() {
        if let Some(part) = bad_section(tables, fault, i) {
            return Some(part);
        }
    }
    for i in 0..tables.sections.len() {
        if let Some(part) = bad_entry(tables, fault, i) {
            return Some(part);
        }
        if let Some(part) = bad_member(tables, fault, i) {
            return Some(part);
        }
    }
    for j in 0..tables.symbols.as_ref()?.len() {
        if let Some(part) = bad_symbol(tables, fault, j) {
            return Some(part);
        }
    }
    None
}

/// The first part of a file that has a fault with which the reader refuses the file as an object. None where the fault is one of
/// the file as a whole, where the reader answers another one or none, or where no part is found.
///
/// # Errors
///
/// Only where memory is refused.
pub fn bad_part<'a>(
    alloc: Global,
    bytes: &'a [u8],
    fault: ObjFault,
) -> Result<Option<BadPart<'a>>, AllocError>
    ensures bad { IfOk result (λ o. IfSome o (IsBadOf bytes.entry.now fault)) }
    ensures stands { IfOk result (λ o. IfSome o (λ _. ObjFaultStands bytes.entry.now fault)) }
{
    match ObjectFile::read(alloc, View::new(bytes)) {
        Err(ObjFault::Memory) => return Err(AllocError),
        Err(found) if found == fault => {}
        _ => return Ok(None),
    }
    match Tables::read(alloc, View::new(bytes))? {
        Some(tables) => Ok(part_of_fault(&tables, fault)),
        None => Ok(None),
    }
}
