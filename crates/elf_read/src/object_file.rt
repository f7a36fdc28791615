//! A relocatable object file, judged, and what it holds: all of it is read where it is in the file.
ghost use Rattle.std.specs.Prelude.{◌≡◌, ◌↔◌, ◌<◌, [], List, ℕ, All, length, IfErr, IfOk, IfSome, IsTrue, OnOk, option_copied, slice_index_or, unwrap_or};
ghost use Rattle.elf_model.specs.Inputs.ObjectFile.{IsObject, ObjFaultStands, groups, null_symbol, relas, section, section_bytes, section_name, sections, symbol_name, symbols, symbols_of};
ghost use Rattle.elf_model.specs.declared.faults.ObjFault.TheVariants as fault;
ghost use Rattle.elf_read.specs.Reading.{HasGoodEntries, HasGoodHeader, HasGoodSections, is_begun};

use crate::groups::{Group, judge_groups};
use crate::header::{read_header, read_sections, section_table};
use crate::relas::{RelaRun, have_good_entries};
use crate::run::Run;
use crate::sections::{
    contents, has_no_bytes, judge_sections, section_strings, symbol_strings, symbol_table,
};
use crate::symbols::{judge_symbols, symbols_in};
use byteview::View;
use elf_model::{FileHeader, ObjFault, SHT_RELA, SectionHeader, Symbol};
use std::alloc::Global;
use std::marker::Model;

/// A relocatable object file of the profile, judged, whose bytes it borrows. Sections and symbols go
/// by their numbers in the section header table and in the symbol table.
#[derive(Drop)]
pub struct ObjectFile<'a> {
    file: View<'a>,
    section_strings: View<'a>,
    symbol_strings: View<'a>,
    sections: Run<'a, SectionHeader>,
    symbols: Run<'a, Symbol>,
    groups: Vec<Group<'a>>,
}

impl<'a> Model for ObjectFile<'a> {
    ghost use Rattle.std.specs.Prelude.{List, ℕ};

    ghost Value = { List ℕ };

    ghost use Rattle.elf_read.specs.Reading.{IsRead};

    ghost view = { λ o. o.file };

    ghost invariant = { λ o. IsRead o.file o.section_strings o.symbol_strings o.sections o.symbols o.groups.items };
}

/// The file header, one of the profile, of a file whose section header table can be read.
fn good_header(file: &View<'_>) -> Result<FileHeader, ObjFault>
    ensures good { IfOk result (HasGoodHeader file.now) }
    ensures fault { IfErr result (ObjFaultStands file.now) }
{
    read_header(file)
}

/// The section headers of a file, which tell nothing bad, but for names.
fn good_sections(
    alloc: Global,
    file: &View<'_>,
    header: &FileHeader,
) -> Result<Vec<SectionHeader>, ObjFault>
    requires { HasGoodHeader file.now header.now }
    ensures good { IfOk result (λ v. HasGoodSections file.now header.now v.items) }
    ensures fault { IfErr result (ObjFaultStands file.now) }
{
    let sections = read_sections(alloc, file, header)?;
    judge_sections(file, header, &sections)?;
    Ok(sections)
}

/// The symbols of a file whose section headers are good.
fn symbols_of<'a>(
    file: &View<'a>,
    header: &FileHeader,
    sections: &[SectionHeader],
) -> Run<'a, Symbol>
    requires { HasGoodSections file.now header.now sections.now }
    ensures { result ≡ symbols_of file.now sections.now }
{
    let _header = header;
    symbols_in(file, &symbol_table(sections))
}

/// The symbols of a file, which are good, as all names and relocation entries are.
fn good_symbols(
    alloc: Global,
    file: &View<'_>,
    header: &FileHeader,
    sections: &[SectionHeader],
) -> Result<Vec<Symbol>, ObjFault>
    requires header { HasGoodHeader file.now header.now }
    requires sections { HasGoodSections file.now header.now sections.now }
    ensures good { IfOk result (λ v. HasGoodEntries file.now header.now sections.now v.items) }
    ensures fault { IfErr result (ObjFaultStands file.now) }
{
    let symbols = symbols_of(file, header, sections).to_vec(alloc)?;
    judge_symbols(file, header, sections, &symbols)?;
    if !have_good_entries(file, sections, symbols.len()) {
        return Err(ObjFault::BadRela);
    }
    Ok(symbols)
}

/// The groups of a file whose sections and symbols are good, which makes it an object.
fn good_groups<'a>(
    alloc: Global,
    file: &View<'a>,
    header: &FileHeader,
    sections: &[SectionHeader],
    symbols: &[Symbol],
) -> Result<Vec<Group<'a>>, ObjFault>
    requires header { HasGoodHeader file.now header.now }
    requires sections { HasGoodSections file.now header.now sections.now }
    requires entries { HasGoodEntries file.now header.now sections.now symbols.now }
    ensures object { OnOk result (IsObject file.now) }
    ensures groups { IfOk result (λ v. v.items ≡ groups file.now) }
    ensures fault { IfErr result (ObjFaultStands file.now) }
{
    let _header = header;
    judge_groups(
        alloc,
        file,
        sections,
        symbols,
        &symbol_strings(file, sections),
    )
}

/// Whether a text has begun in bytes: the first of them isn't the NUL that ends one.
fn is_begun(bytes: &[u8]) -> bool
    ensures { result ≡ is_begun bytes.now }
{
    match bytes.first() {
        Some(byte) => *byte != 0,
        None => false,
    }
}

impl<'a> ObjectFile<'a> {
    /// The object in a file's bytes, or a fault of them.
    ///
    /// # Errors
    ///
    /// `ObjFault` says what stands against the bytes (docs/PROFILE.md); `Memory` alone may be
    /// answered of an object.
    pub fn read(alloc: Global, view: View<'a>) -> Result<ObjectFile<'a>, ObjFault>
        ensures exact { IfOk result (λ o. o ≡ view.entry) }
        ensures object { OnOk result (IsObject view.entry) }
        ensures fault { IfErr result (ObjFaultStands view.entry) }
        ensures only { IsObject view.entry → IfErr result (λ f. f ≡ fault.Memory) }
    {
        ObjectFile::judge(alloc, view)
    }

    /// The object in a file's bytes, or a fault of them.
    fn judge(alloc: Global, view: View<'a>) -> Result<ObjectFile<'a>, ObjFault>
        ensures exact { IfOk result (λ o. o ≡ view.entry) }
        ensures object { OnOk result (IsObject view.entry) }
        ensures fault { IfErr result (ObjFaultStands view.entry) }
    {
        let header = good_header(&view)?;
        let sections = good_sections(alloc, &view, &header)?;
        let symbols = good_symbols(alloc, &view, &header, &sections)?;
        let groups = good_groups(alloc, &view, &header, &sections, &symbols)?;
        Ok(ObjectFile {
            section_strings: section_strings(&view, &header, &sections),
            symbol_strings: symbol_strings(&view, &sections),
            sections: section_table(&view, &header),
            symbols: symbols_of(&view, &header, &sections),
            file: view,
            groups,
        })
    }

    /// All bytes of the file, which are an object's.
    pub fn bytes(&self) -> &'a [u8]
        ensures exact { result.now ≡ self.now }
        ensures object { IsObject self.now }
    {
        self.file.bytes()
    }

    /// The section header table, its null section too.
    pub fn sections(&self) -> &Run<'a, SectionHeader>
        ensures { result.now ≡ sections self.now }
    {
        &self.sections
    }

    /// The header of section `i`; that of a null section where there is no such section.
    pub fn section(&self, i: usize) -> SectionHeader
        ensures { result ≡ section (sections self.now) i }
    {
        self.sections.get(i).unwrap_or(SectionHeader::NULL)
    }

    /// The symbols, the null symbol too; none where the file has no symbol table.
    pub fn symbols(&self) -> &Run<'a, Symbol>
        ensures { result.now ≡ symbols self.now }
    {
        &self.symbols
    }

    /// Symbol `j`; the null symbol where there is no such symbol.
    pub fn symbol(&self, j: usize) -> Symbol
        ensures { result ≡ slice_index_or (symbols self.now) j null_symbol }
    {
        self.symbols.get(j).unwrap_or(Symbol::NULL)
    }

    /// The name of section `i`; None where there is no such section.
    pub fn section_name(&self, i: usize) -> Option<&'a [u8]>
        ensures { option_copied result ≡ section_name self.now i }
    {
        let section = self.sections.get(i)?;
        self.section_strings.text_at(section.sh_name as usize)
    }

    /// The name of symbol `j`; None where there is no such symbol.
    pub fn name(&self, j: usize) -> Option<&'a [u8]>
        ensures { option_copied result ≡ symbol_name self.now j }
    {
        let symbol = self.symbols.get(j)?;
        self.symbol_strings.text_at(symbol.st_name as usize)
    }

    /// The name of symbol `j`; empty where there is no such symbol.
    pub fn symbol_name(&self, j: usize) -> &'a [u8]
        ensures { result.now ≡ unwrap_or (symbol_name self.now j) [] }
    {
        match self.name(j) {
            Some(name) => name,
            None => &[],
        }
    }

    /// Whether symbol `j` is there, and has a name that isn't empty. Reads one byte of the name.
    pub fn is_named(&self, j: usize) -> bool
        ensures { IsTrue result ↔ (0 < length (unwrap_or (symbol_name self.now j) [])) }
    {
        match self.symbols.get(j) {
            Some(symbol) => is_begun(self.symbol_strings.part(symbol.st_name as usize, 1)),
            None => false,
        }
    }

    /// The bytes of section `i`; None where there is no such section, and where it is one of type
    /// NULL or NOBITS.
    pub fn section_bytes(&self, i: usize) -> Option<&'a [u8]>
        ensures exact { option_copied result ≡ section_bytes self.now i }
        ensures size { IfSome result (λ bytes. length bytes.now
            ≡ (section (sections self.now) i).sh_size) }
    {
        let section = self.sections.get(i)?;
        if has_no_bytes(&section) {
            return None;
        }
        Some(contents(&self.file, &section).bytes())
    }

    /// The entries of section `i`, one of type RELA; None where there is no such section, and where
    /// it is of another type.
    pub fn relas(&self, i: usize) -> Option<RelaRun<'a>>
        ensures { result ≡ relas self.now i }
    {
        let section = self.sections.get(i)?;
        if section.sh_type != SHT_RELA {
            return None;
        }
        Some(RelaRun::of_section(&self.file, &section))
    }

    /// The entries of section `i`, one of type RELA; none where there is no such section, and where
    /// it is of another type.
    pub fn entries(&self, i: usize) -> RelaRun<'a>
        ensures { result ≡ unwrap_or (relas self.now i) [] }
    {
        match self.relas(i) {
            Some(entries) => entries,
            None => RelaRun::none(),
        }
    }

    /// The groups of sections, in the order of the sections that list them.
    pub fn groups(&self) -> &[Group<'a>]
        ensures exact { result.now ≡ groups self.now }
        ensures members { All (λ g. All (λ k.
            k < length (sections self.now)) g.members) result.now }
    {
        self.groups.as_slice()
    }
}
