//! Makes relocatable objects: sections, symbols and relocations in, the bytes of a file out.
use elf_model::{
    EHDR_SIZE, EM_X86_64, ET_REL, EV_CURRENT, FileHeader, Rela, SHT_GROUP, SHT_RELA, SHT_STRTAB,
    SHT_SYMTAB, SectionHeader, Symbol,
};
use std::alloc::Global;
use std::test::Fail;

/// A section; the first one of an object has the number 1. One of type NOBITS has no bytes, and a size in
/// memory; one of type GROUP has the number of its signature's symbol.
#[derive(Clone, Copy)]
pub struct Section<'a> {
    pub name: &'a str,
    pub sh_type: u32,
    pub sh_flags: u64,
    pub sh_addralign: u64,
    pub bytes: &'a [u8],
    pub memory: u64,
    pub signature: u32,
}

/// A relocation: the number of the section, the offset in it, the kind, the number of the symbol and the addend.
#[derive(Clone, Copy)]
pub struct Relocation(pub u32, pub u64, pub u32, pub u32, pub i64);

/// A symbol; the first one of an object has the number 1. Local symbols stand before the others.
#[derive(Clone, Copy)]
pub struct NamedSymbol<'a> {
    pub name: &'a str,
    pub st_info: u8,
    pub st_shndx: u16,
    pub st_value: u64,
    pub st_size: u64,
}

const STRING_TABLE: SectionHeader = SectionHeader {
    sh_type: SHT_STRTAB,
    sh_addralign: 1,
    ..SectionHeader::NULL
};

const IDENT: [u8; 16] = [0x7f, b'E', b'L', b'F', 2, 1, 1, 0, 0, 0, 0, 0, 0, 0, 0, 0];

/// An object so far: the file's bytes behind the file header, the section headers, and the section names.
#[derive(Drop)]
struct Draft {
    bytes: Vec<u8>,
    headers: Vec<SectionHeader>,
    names: Vec<u8>,
}

/// Appends a name and its NUL to a string table, and answers the name's offset.
fn add_name(table: &mut Vec<u8>, name: &str) -> Result<u32, Fail> {
    let offset = u32::try_from(table.len())?;
    table.extend_from_slice(name.as_bytes())?;
    table.push(0)?;
    Ok(offset)
}

/// Appends zeros up to a multiple of `align`.
fn pad(bytes: &mut Vec<u8>, align: u64) -> Result<(), Fail> {
    let align = usize::try_from(align.max(1))?;
    let end = bytes
        .len()
        .checked_next_multiple_of(align)
        .ok_or("too long")?;
    bytes.resize(end, 0)?;
    Ok(())
}

impl Draft {
    fn new(alloc: Global) -> Result<Draft, Fail> {
        Ok(Draft {
            bytes: Vec::from_slice(alloc, &[0; EHDR_SIZE])?,
            headers: Vec::from_slice(alloc, &[SectionHeader::NULL])?,
            names: Vec::from_slice(alloc, &[0])?,
        })
    }

    /// Appends a section of that name, where its alignment lets it stand.
    fn add(&mut self, name: &str, header: SectionHeader, bytes: &[u8]) -> Result<(), Fail> {
        let sh_name = add_name(&mut self.names, name)?;
        pad(&mut self.bytes, header.sh_addralign)?;
        self.headers.push(SectionHeader {
            sh_name,
            sh_offset: u64::try_from(self.bytes.len())?,
            sh_size: u64::try_from(bytes.len())?.max(header.sh_size),
            ..header
        })?;
        self.bytes.extend_from_slice(bytes)?;
        Ok(())
    }

    /// Appends the relocations of a section, if there are any; the symbol table's number is `table`.
    fn add_relocations(
        &mut self,
        section: u32,
        table: u32,
        relocations: &[Relocation],
    ) -> Result<(), Fail> {
        let mut entries = Vec::new(*self.bytes.allocator());
        for relocation in relocations {
            if relocation.0 == section {
                entries.extend_from_slice(&entry_bytes(relocation))?;
            }
        }
        if entries.is_empty() {
            return Ok(());
        }
        let header = SectionHeader {
            sh_type: SHT_RELA,
            sh_link: table,
            sh_info: section,
            sh_addralign: 8,
            sh_entsize: 24,
            ..SectionHeader::NULL
        };
        self.add(".rela", header, &entries)
    }

    /// Appends the symbol table, whose names stand in the section behind it.
    fn add_symbols(&mut self, symbols: &[u8], locals: usize) -> Result<(), Fail> {
        let header = SectionHeader {
            sh_type: SHT_SYMTAB,
            sh_link: u32::try_from(self.headers.len())?.saturating_add(1),
            sh_info: u32::try_from(locals)?.saturating_add(1),
            sh_addralign: 8,
            sh_entsize: 24,
            ..SectionHeader::NULL
        };
        self.add(".symtab", header, symbols)
    }

    /// Appends the section names, as the last section, and the section header table.
    fn finish(mut self) -> Result<Vec<u8>, Fail> {
        let mut names = self.names.clone()?;
        add_name(&mut names, ".shstrtab")?;
        self.add(".shstrtab", STRING_TABLE, &names)?;
        pad(&mut self.bytes, 8)?;
        let header = file_header(self.bytes.len(), self.headers.len())?;
        let mut file = Vec::from_slice(*self.bytes.allocator(), &header)?;
        file.extend_from_slice(self.bytes.get(EHDR_SIZE..).ok_or("no file header")?)?;
        for section in &self.headers {
            let mut bytes = [0; 64];
            section.write_to(&mut bytes);
            file.extend_from_slice(&bytes)?;
        }
        Ok(file)
    }
}

/// The bytes of a relocation's entry.
fn entry_bytes(relocation: &Relocation) -> [u8; 24] {
    let Relocation(_, r_offset, kind, symbol, r_addend) = *relocation;
    let entry = Rela {
        r_offset,
        r_info: u64::from(symbol) << 32 | u64::from(kind),
        r_addend,
    };
    let mut bytes = [0; 24];
    entry.write_to(&mut bytes);
    bytes
}

/// The file header of an object whose `sections` headers stand at `table`; the last names them.
fn file_header(table: usize, sections: usize) -> Result<[u8; 64], Fail> {
    let e_shnum = u16::try_from(sections)?;
    let header = FileHeader {
        e_ident: IDENT,
        e_type: ET_REL,
        e_machine: EM_X86_64,
        e_version: u32::from(EV_CURRENT),
        e_entry: 0,
        e_phoff: 0,
        e_shoff: u64::try_from(table)?,
        e_flags: 0,
        e_ehsize: 64,
        e_phentsize: 0,
        e_phnum: 0,
        e_shentsize: 64,
        e_shnum,
        e_shstrndx: e_shnum.saturating_sub(1),
    };
    let mut bytes = [0; 64];
    header.write_to(&mut bytes);
    Ok(bytes)
}

/// The header of a section, in an object whose symbol table has the number.
fn header_of(section: &Section<'_>, table: u32) -> SectionHeader {
    let is_group = section.sh_type == SHT_GROUP;
    SectionHeader {
        sh_type: section.sh_type,
        sh_flags: section.sh_flags,
        sh_addralign: section.sh_addralign,
        sh_size: section.memory,
        sh_link: if is_group { table } else { 0 },
        sh_info: section.signature,
        ..SectionHeader::NULL
    }
}

/// The bytes of an object without relocations.
pub fn object(
    alloc: Global,
    sections: &[Section<'_>],
    symbols: &[NamedSymbol<'_>],
) -> Result<Vec<u8>, Fail> {
    relocatable(alloc, sections, symbols, &[])
}

/// The bytes of an object. Its symbol table, their names, the relocations and the section names are its last
/// sections.
pub fn relocatable(
    alloc: Global,
    sections: &[Section<'_>],
    symbols: &[NamedSymbol<'_>],
    relocations: &[Relocation],
) -> Result<Vec<u8>, Fail> {
    let mut draft = Draft::new(alloc)?;
    let number = u32::try_from(sections.len())?.saturating_add(1);
    for section in sections {
        draft.add(section.name, header_of(section, number), section.bytes)?;
    }
    let mut names = Vec::from_slice(alloc, &[0])?;
    let table = symbol_table(alloc, symbols, &mut names)?;
    let locals = symbols.iter().filter(|s| s.st_info >> 4 == 0).count();
    draft.add_symbols(&table, locals)?;
    draft.add(".strtab", STRING_TABLE, &names)?;
    for section in 1..number {
        draft.add_relocations(section, number, relocations)?;
    }
    draft.finish()
}

/// The entries of a symbol table, of which entry 0 is all zero; their names go to the end of `names`, one after another of the
/// same name once.
fn symbol_table(
    alloc: Global,
    symbols: &[NamedSymbol<'_>],
    names: &mut Vec<u8>,
) -> Result<Vec<u8>, Fail> {
    let mut table = Vec::from_slice(alloc, &[0; 24])?;
    let mut last = ("", 0);
    for symbol in symbols {
        if symbol.name != last.0 {
            last = (symbol.name, add_name(names, symbol.name)?);
        }
        let entry = Symbol {
            st_name: last.1,
            st_info: symbol.st_info,
            st_other: 0,
            st_shndx: symbol.st_shndx,
            st_value: symbol.st_value,
            st_size: symbol.st_size,
        };
        let mut bytes = [0; 24];
        entry.write_to(&mut bytes);
        table.extend_from_slice(&bytes)?;
    }
    Ok(table)
}
