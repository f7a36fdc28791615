//! An object file and tables of its own of what it holds.
ghost use Rattle.std.specs.Prelude.{◌≡◌, IfErr, IfOk, IfSome, OnOk, All, ◌<◌, length, option_copied, option_map};
ghost use Rattle.elf_model.specs.Inputs.ObjectFile.{IsObject, ObjFaultStands, groups, relas, section, section_bytes, section_name, sections, symbol_name, symbols};
ghost use Rattle.elf_model.specs.declared.faults.ObjFault.TheVariants as fault;
ghost use Rattle.elf_read.specs.Reading.{AreKept};

use crate::groups::Group;
use crate::object_file::ObjectFile;
use byteview::View;
use elf_model::{ObjFault, Rela, SectionHeader, Symbol};
use std::alloc::{AllocError, Global};
use std::marker::Model;

/// A relocatable object file of the profile and tables of its sections, symbols and relocation
/// entries. Whoever reads each of them once has enough of an `ObjectFile`, which copies nothing.
#[derive(Drop)]
pub struct Object<'a> {
    file: ObjectFile<'a>,
    sections: Vec<SectionHeader>,
    symbols: Vec<Symbol>,
    relas: Vec<Option<Vec<Rela>>>,
}

impl<'a> Model for Object<'a> {
    ghost use Rattle.std.specs.Prelude.{List, ℕ};

    ghost Value = { List ℕ };

    ghost use Rattle.elf_read.specs.Reading.{AreTables};

    ghost view = { λ o. o.file };

    ghost invariant = { λ o. AreTables o.file o.sections.items o.symbols.items o.relas.items };
}

/// The entries of section `i`; None where there is no such section, and where it is no RELA section.
fn entries_of(
    alloc: Global,
    file: &ObjectFile<'_>,
    i: usize,
) -> Result<Option<Vec<Rela>>, AllocError>
    ensures { IfOk result (λ o. option_map (λ v. v.items) o ≡ relas file.now i) }
{
    match file.relas(i) {
        Some(entries) => Ok(Some(entries.to_vec(alloc)?)),
        None => Ok(None),
    }
}

/// Of each section its entries, where it is a RELA section.
fn read_relas(alloc: Global, file: &ObjectFile<'_>) -> Result<Vec<Option<Vec<Rela>>>, AllocError>
    ensures { IfOk result (λ v. AreKept file.now v.items) }
{
    let count = file.sections().len();
    let mut relas = Vec::with_capacity(alloc, count)?;
    for i in 0..count {
        relas.push(entries_of(alloc, file, i)?)?;
    }
    Ok(relas)
}

impl<'a> Object<'a> {
    /// The object in a file's bytes, or a fault of them.
    ///
    /// # Errors
    ///
    /// `ObjFault` says what stands against the bytes (docs/PROFILE.md); `Memory` alone may be
    /// answered of an object.
    pub fn read(alloc: Global, view: View<'a>) -> Result<Object<'a>, ObjFault>
        ensures exact { IfOk result (λ o. o ≡ view.entry) }
        ensures object { OnOk result (IsObject view.entry) }
        ensures fault { IfErr result (ObjFaultStands view.entry) }
        ensures only { IsObject view.entry → IfErr result (λ f. f ≡ fault.Memory) }
    {
        let file = ObjectFile::read(alloc, view)?;
        let sections = file.sections().to_vec(alloc)?;
        let symbols = file.symbols().to_vec(alloc)?;
        let relas = read_relas(alloc, &file)?;
        Ok(Object {
            file,
            sections,
            symbols,
            relas,
        })
    }

    /// The object without tables.
    pub fn file(&self) -> &ObjectFile<'a>
        ensures { result.now ≡ self.now }
    {
        &self.file
    }

    /// The section header table, its null section too.
    pub fn sections(&self) -> &[SectionHeader]
        ensures { result.now ≡ sections self.now }
    {
        self.sections.as_slice()
    }

    /// The symbols, the null symbol too; none where the file has no symbol table.
    pub fn symbols(&self) -> &[Symbol]
        ensures { result.now ≡ symbols self.now }
    {
        self.symbols.as_slice()
    }

    /// The name of section `i`; None where there is no such section.
    pub fn section_name(&self, i: usize) -> Option<&'a [u8]>
        ensures { option_copied result ≡ section_name self.now i }
    {
        self.file.section_name(i)
    }

    /// The name of symbol `j`; None where there is no such symbol.
    pub fn name(&self, j: usize) -> Option<&'a [u8]>
        ensures { option_copied result ≡ symbol_name self.now j }
    {
        self.file.name(j)
    }

    /// The bytes of section `i`; None where there is no such section, and where it is one of type
    /// NULL or NOBITS.
    pub fn section_bytes(&self, i: usize) -> Option<&'a [u8]>
        ensures exact { option_copied result ≡ section_bytes self.now i }
        ensures size { IfSome result (λ bytes. length bytes.now
            ≡ (section (sections self.now) i).sh_size) }
    {
        self.file.section_bytes(i)
    }

    /// The entries of section `i`, one of type RELA; None where there is no such section, and where
    /// it is of another type.
    pub fn relas(&self, i: usize) -> Option<&[Rela]>
        ensures { option_copied result ≡ relas self.now i }
    {
        match self.relas.get(i)? {
            Some(entries) => Some(entries.as_slice()),
            None => None,
        }
    }

    /// The groups of sections, in the order of the sections that list them.
    pub fn groups(&self) -> &[Group<'a>]
        ensures exact { result.now ≡ groups self.now }
        ensures members { All (λ g. All (λ k.
            k < length (sections self.now)) g.members) result.now }
    {
        self.file.groups()
    }
}
