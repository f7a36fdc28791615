//! Small objects for links that are judged, and what the checker loads of them (System V gABI 4).
ghost use Rattle.std.specs.Prelude.{IfOk};
ghost use Rattle.check_load.specs.Numbered.{AreNumbered};

use check_load::{NamedObjects, open_named};
use command::read_words;
use elf_model::{
    EHDR_SIZE, EM_X86_64, ET_REL, FileHeader, InputFile, SHT_NOBITS, SHT_STRTAB, SHT_SYMTAB,
    SectionHeader, Symbol,
};
use std::alloc::{AllocError, Global};
use std::test::Fail;

/// A section: its name, type, flags, alignment and size; the bytes of one that has some are zeros. The first one of an object has
/// the number 1.
#[derive(Clone, Copy)]
pub struct Part(pub &'static str, pub u32, pub u64, pub u64, pub u64);

/// A symbol: its name, binding and type, section and value; LOCAL ones stand before the others.
#[derive(Clone, Copy)]
pub struct Named(pub &'static str, pub u8, pub u16, pub u64);

const TABLE: SectionHeader = SectionHeader {
    sh_type: SHT_STRTAB,
    sh_addralign: 1,
    ..SectionHeader::NULL
};

const HEADER: FileHeader = FileHeader {
    e_ident: [0x7f, b'E', b'L', b'F', 2, 1, 1, 0, 0, 0, 0, 0, 0, 0, 0, 0],
    e_type: ET_REL,
    e_machine: EM_X86_64,
    e_version: 1,
    e_entry: 0,
    e_phoff: 0,
    e_shoff: 0,
    e_flags: 0,
    e_ehsize: 64,
    e_phentsize: 0,
    e_phnum: 0,
    e_shentsize: 64,
    e_shnum: 0,
    e_shstrndx: 0,
};

/// An object so far: the file's bytes, the section headers, and the section names.
#[derive(Drop)]
struct Draft {
    bytes: Vec<u8>,
    headers: Vec<SectionHeader>,
    names: Vec<u8>,
}

/// Appends a name and its NUL, and answers the name's offset.
fn add_name(table: &mut Vec<u8>, name: &str) -> Result<u32, Fail> {
    let offset = u32::try_from(table.len())?;
    table.extend_from_slice(name.as_bytes())?;
    table.push(0)?;
    Ok(offset)
}

/// Appends a section with these bytes.
fn add(draft: &mut Draft, name: &str, header: SectionHeader, bytes: &[u8]) -> Result<(), Fail> {
    let sh_name = add_name(&mut draft.names, name)?;
    let sh_offset = u64::try_from(draft.bytes.len())?;
    draft.headers.push(SectionHeader {
        sh_name,
        sh_offset,
        ..header
    })?;
    draft.bytes.extend_from_slice(bytes)?;
    Ok(())
}

fn add_parts(draft: &mut Draft, parts: &[Part]) -> Result<(), Fail> {
    let zeros = [0; 128];
    for part in parts {
        let header = SectionHeader {
            sh_type: part.1,
            sh_flags: part.2,
            sh_addralign: part.3,
            sh_size: part.4,
            ..SectionHeader::NULL
        };
        let len = if part.1 == SHT_NOBITS { 0 } else { part.4 };
        let bytes = zeros.get(..usize::try_from(len)?).ok_or("too long")?;
        add(draft, part.0, header, bytes)?;
    }
    Ok(())
}

/// The bytes of a symbol table, and of its names.
fn tables(alloc: Global, symbols: &[Named]) -> Result<(Vec<u8>, Vec<u8>), Fail> {
    let mut entries = Vec::from_slice(alloc, &[0; 24])?;
    let mut names = Vec::from_slice(alloc, &[0])?;
    for symbol in symbols {
        let entry = Symbol {
            st_name: add_name(&mut names, symbol.0)?,
            st_info: symbol.1,
            st_other: 0,
            st_shndx: symbol.2,
            st_value: symbol.3,
            st_size: 0,
        };
        let mut record = [0; 24];
        entry.write_to(&mut record);
        entries.extend_from_slice(&record)?;
    }
    Ok((entries, names))
}

fn add_tables(draft: &mut Draft, alloc: Global, symbols: &[Named]) -> Result<(), Fail> {
    let (entries, names) = tables(alloc, symbols)?;
    let locals = symbols.iter().filter(|s| s.1 < 16).count();
    let table = SectionHeader {
        sh_type: SHT_SYMTAB,
        sh_size: u64::try_from(entries.len())?,
        sh_link: u32::try_from(draft.headers.len())?.saturating_add(1),
        sh_info: u32::try_from(locals)?.saturating_add(1),
        sh_addralign: 1,
        sh_entsize: 24,
        ..SectionHeader::NULL
    };
    add(draft, ".symtab", table, &entries)?;
    let strings = SectionHeader {
        sh_size: u64::try_from(names.len())?,
        ..TABLE
    };
    add(draft, ".strtab", strings, &names)
}

/// The file: the file header, what the draft has, the names of sections and the section headers.
fn finish(alloc: Global, mut draft: Draft) -> Result<Vec<u8>, Fail> {
    let mut names = draft.names.clone()?;
    add_name(&mut names, ".shstrtab")?;
    let table = SectionHeader {
        sh_size: u64::try_from(names.len())?,
        ..TABLE
    };
    add(&mut draft, ".shstrtab", table, &names)?;
    let header = FileHeader {
        e_shoff: u64::try_from(draft.bytes.len())?,
        e_shnum: u16::try_from(draft.headers.len())?,
        e_shstrndx: u16::try_from(draft.headers.len())?.saturating_sub(1),
        ..HEADER
    };
    let mut record = [0; EHDR_SIZE];
    header.write_to(&mut record);
    let mut bytes = Vec::from_slice(alloc, &record)?;
    bytes.extend_from_slice(draft.bytes.get(EHDR_SIZE..).ok_or("too short")?)?;
    for section in &draft.headers {
        let mut record = [0; 64];
        section.write_to(&mut record);
        bytes.extend_from_slice(&record)?;
    }
    Ok(bytes)
}

/// The bytes of an object.
pub fn object(alloc: Global, parts: &[Part], symbols: &[Named]) -> Result<Vec<u8>, Fail> {
    let mut draft = Draft {
        bytes: Vec::from_slice(alloc, &[0; EHDR_SIZE])?,
        headers: Vec::from_slice(alloc, &[SectionHeader::NULL])?,
        names: Vec::from_slice(alloc, &[0])?,
    };
    add_parts(&mut draft, parts)?;
    add_tables(&mut draft, alloc, symbols)?;
    finish(alloc, draft)
}

/// The file a.o, which has an object.
pub fn file(alloc: Global, bytes: Vec<u8>) -> Result<Vec<InputFile>, AllocError> {
    let mut files = Vec::new(alloc);
    files.push(InputFile {
        name: String::from_str(alloc, "a.o")?,
        bytes,
    })?;
    Ok(files)
}

/// The object of that file as words load it.
pub fn loaded<'a>(
    alloc: Global,
    words: &'a [String],
    files: &'a [InputFile],
) -> Result<NamedObjects<'a>, Fail>
    ensures { IfOk result (λ n. AreNumbered n.names n.objects.items) }
{
    let plan = read_words(alloc, words)?;
    match open_named(alloc, &plan, &[], files, None)? {
        Some(named) => Ok(named),
        None => Err(Fail::from("no object")),
    }
}

/// The words of a link of that file.
pub fn words(alloc: Global) -> Result<Vec<String>, AllocError> {
    let mut words = Vec::new(alloc);
    words.push(String::from_str(alloc, "a.o")?)?;
    Ok(words)
}

/// Puts a number of a width into bytes, the least significant byte first.
pub fn put(bytes: &mut [u8], at: usize, number: u64, width: usize) {
    let field = bytes.iter_mut().skip(at).take(width);
    for (byte, new) in field.zip(number.to_le_bytes()) {
        *byte = new;
    }
}

/// A relocation: its offset and its type.
pub type Place = (u64, u64);

/// Makes the section whose header is at an offset one of relocations of section 1 with the symbols of section 4, and puts its entry
/// at another offset.
pub fn put_relocation(bytes: &mut [u8], header: usize, entry: usize, place: Place) {
    put(bytes, header.saturating_add(40), 4, 4);
    put(bytes, header.saturating_add(44), 1, 4);
    put(bytes, header.saturating_add(56), 24, 8);
    put(bytes, entry, place.0, 8);
    put(bytes, entry.saturating_add(8), 0x1_0000_0000 | place.1, 8);
}
