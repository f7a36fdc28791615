//! Makes objects of sections, symbols and relocations, and loads them.
use command::{Item, Plan, Source};
use elf_model::{
    EM_X86_64, ET_REL, FileHeader, InputFile, Rela, SHF_ALLOC, SHF_EXECINSTR, SHF_WRITE,
    SHT_NOBITS, SHT_PROGBITS, SHT_RELA, SHT_STRTAB, SHT_SYMTAB, SectionHeader, Symbol,
};
use search::{Loaded, load};
use std::alloc::{AllocError, Global};
use std::test::Fail;

const HEADER: FileHeader = FileHeader {
    e_ident: [0x7f, b'E', b'L', b'F', 2, 1, 1, 0, 0, 0, 0, 0, 0, 0, 0, 0],
    e_type: ET_REL,
    e_machine: EM_X86_64,
    e_version: 1,
    e_entry: 0,
    e_phoff: 0,
    e_shoff: 0,
    e_flags: 0,
    e_ehsize: 64,
    e_phentsize: 0,
    e_phnum: 0,
    e_shentsize: 64,
    e_shnum: 0,
    e_shstrndx: 1,
};

/// The names of the sections and symbols of every object here: the numbers are where each begins.
static NAMES: &[u8] =
    b"\0.rodata\0.text\0.data\0.bss\0.rodata.b\0notes\0_start\0_etext\0f\0g\0h\0__stop_a\0_GLOBAL_OFFSET_TABLE_\0";

pub const RODATA_B_NAME: u32 = 26;

pub const NOTES_NAME: u32 = 36;

pub const START_NAME: u32 = 42;

pub const ETEXT_NAME: u32 = 49;

pub const F_NAME: u32 = 56;

pub const G_NAME: u32 = 58;

pub const H_NAME: u32 = 60;

pub const STOP_NAME: u32 = 62;

/// The name `a`, with which `__stop_a` ends.
pub const A_NAME: u32 = 69;

/// The bytes of `.rodata` at 160, of `.text` at 168 and of `.data` at 184.
static BYTES: [u8; 32] = [
    0, 0, 0, 0, 5, 0, 0, 0, 0xb8, 0x3c, 0, 0, 0, 0x31, 0xff, 0x0f, 0x05, 0, 0, 0, 0, 0, 0, 0, 0, 0,
    0, 0, 0, 0, 0, 0,
];

pub const RODATA: SectionHeader = SectionHeader {
    sh_name: 1,
    sh_type: SHT_PROGBITS,
    sh_flags: SHF_ALLOC,
    sh_offset: 160,
    sh_size: 5,
    sh_addralign: 4,
    ..SectionHeader::NULL
};

pub const TEXT: SectionHeader = SectionHeader {
    sh_name: 9,
    sh_type: SHT_PROGBITS,
    sh_flags: SHF_ALLOC | SHF_EXECINSTR,
    sh_offset: 168,
    sh_size: 9,
    sh_addralign: 1,
    ..SectionHeader::NULL
};

pub const DATA: SectionHeader = SectionHeader {
    sh_name: 15,
    sh_type: SHT_PROGBITS,
    sh_flags: SHF_ALLOC | SHF_WRITE,
    sh_offset: 184,
    sh_size: 8,
    sh_addralign: 8,
    ..SectionHeader::NULL
};

pub const BSS: SectionHeader = SectionHeader {
    sh_name: 21,
    sh_type: SHT_NOBITS,
    sh_flags: SHF_ALLOC | SHF_WRITE,
    sh_offset: 192,
    sh_size: 8,
    sh_addralign: 8,
    ..SectionHeader::NULL
};

/// A table of two symbols behind the null symbol.
pub const SYMBOLS: SectionHeader = SectionHeader {
    sh_type: SHT_SYMTAB,
    sh_offset: 192,
    sh_size: 72,
    sh_link: 1,
    sh_addralign: 8,
    sh_entsize: 24,
    ..SectionHeader::NULL
};

/// One relocation behind these symbols; which section it relocates and which one has the symbols isn't said.
pub const ENTRY: SectionHeader = SectionHeader {
    sh_type: SHT_RELA,
    sh_offset: 264,
    sh_size: 24,
    sh_addralign: 8,
    sh_entsize: 24,
    ..SectionHeader::NULL
};

fn put_section(bytes: &mut Vec<u8>, section: &SectionHeader) -> Result<(), AllocError> {
    let mut record = [0; 64];
    section.write_to(&mut record);
    bytes.extend_from_slice(&record)
}

fn put_symbol(bytes: &mut Vec<u8>, symbol: &Symbol) -> Result<(), AllocError> {
    let mut record = [0; 24];
    symbol.write_to(&mut record);
    bytes.extend_from_slice(&record)
}

fn put_entry(bytes: &mut Vec<u8>, entry: &Rela) -> Result<(), AllocError> {
    let mut record = [0; 24];
    entry.write_to(&mut record);
    bytes.extend_from_slice(&record)
}

/// The file behind its header, up to the section headers: names, bytes, symbols and relocations.
fn contents_of(alloc: Global, symbols: &[Symbol], entries: &[Rela]) -> Result<Vec<u8>, AllocError> {
    let mut bytes = Vec::from_slice(alloc, NAMES)?;
    bytes.resize(96, 0)?;
    bytes.extend_from_slice(&BYTES)?;
    bytes.extend_from_slice(&[0; 24])?;
    for symbol in symbols {
        put_symbol(&mut bytes, symbol)?;
    }
    for entry in entries {
        put_entry(&mut bytes, entry)?;
    }
    Ok(bytes)
}

/// An object with these sections, 4096 at most, behind the null section and the names, which are section 1. Symbols
/// stand from 192 on, the null one too, and relocations behind them.
pub fn object_with(
    alloc: Global,
    sections: &[SectionHeader],
    symbols: &[Symbol],
    entries: &[Rela],
) -> Result<Vec<u8>, AllocError> {
    let contents = contents_of(alloc, symbols, entries)?;
    let count = sections.len().min(4096) as u16;
    let header = FileHeader {
        e_shoff: (contents.len() as u64).saturating_add(64),
        e_shnum: 2 + count,
        ..HEADER
    };
    let mut record = [0; 64];
    header.write_to(&mut record);
    let mut bytes = Vec::from_slice(alloc, &record)?;
    bytes.extend_from_slice(&contents)?;
    put_section(&mut bytes, &SectionHeader::NULL)?;
    let names = SectionHeader {
        sh_type: SHT_STRTAB,
        sh_offset: 64,
        sh_size: NAMES.len() as u64,
        sh_addralign: 1,
        ..SectionHeader::NULL
    };
    put_section(&mut bytes, &names)?;
    for section in sections {
        put_section(&mut bytes, section)?;
    }
    Ok(bytes)
}

/// An object with these sections, 4096 at most, behind the null section and the section names.
pub fn object_of(alloc: Global, sections: &[SectionHeader]) -> Result<Vec<u8>, AllocError> {
    object_with(alloc, sections, &[], &[])
}

/// A file of a name with these bytes.
fn put_file(
    alloc: Global,
    files: &mut Vec<InputFile>,
    name: &str,
    bytes: &[u8],
) -> Result<(), AllocError> {
    files.push(InputFile {
        name: String::from_str(alloc, name)?,
        bytes: Vec::from_slice(alloc, bytes)?,
    })?;
    Ok(())
}

/// The file `a.o`.
pub fn one_file(alloc: Global, bytes: &[u8]) -> Result<Vec<InputFile>, AllocError> {
    let mut files = Vec::new(alloc);
    put_file(alloc, &mut files, "a.o", bytes)?;
    Ok(files)
}

/// The files `a.o` and `b.o`.
pub fn two_files(alloc: Global, a: &[u8], b: &[u8]) -> Result<Vec<InputFile>, AllocError> {
    let mut files = one_file(alloc, a)?;
    put_file(alloc, &mut files, "b.o", b)?;
    Ok(files)
}

/// The objects of files, as a plan of these items loads them.
pub fn load_files<'a>(alloc: Global, files: &'a [InputFile]) -> Result<Loaded<'a>, Fail> {
    let mut items = Vec::new(alloc);
    for file in files {
        items.push(Item {
            source: Source::Path(&file.name),
            archive: false,
            whole: false,
            group: None,
        })?;
    }
    let plan = Plan {
        items,
        directories: Vec::new(alloc),
        undefined: Vec::new(alloc),
        entry: "_start",
        base: 0x400000,
        output: "a.out",
        map: None,
        check: false,
        strip: false,
    };
    Ok(load(alloc, &plan, files)?)
}
