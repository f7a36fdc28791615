//! Objects as they are read.
use byteview::View;
use elf_model::{
    FileHeader, Rela, SHF_ALLOC, SHF_EXECINSTR, SHT_NOBITS, SHT_PROGBITS, SHT_REL, SHT_RELA,
    SHT_STRTAB, SHT_SYMTAB, SectionHeader, Symbol,
};
use elf_read::{Object, ObjectFile};
use std::alloc::{AllocError, Global};
use std::test::Fail;

static TEXT: [u8; 9] = [0xb8, 0x3c, 0, 0, 0, 0x31, 0xff, 0x0f, 0x05];

const SYMTAB: SectionHeader = SectionHeader {
    sh_name: 7,
    sh_type: SHT_SYMTAB,
    sh_offset: 80,
    sh_size: 48,
    sh_link: 3,
    sh_info: 1,
    sh_addralign: 8,
    sh_entsize: 24,
    ..SectionHeader::NULL
};

/// The header of the object of `_start`: ET_REL and EM_X86_64 by their numbers, five section headers at 176, of which the
/// last names them.
pub const HEADER: FileHeader = FileHeader {
    e_ident: [0x7f, b'E', b'L', b'F', 2, 1, 1, 0, 0, 0, 0, 0, 0, 0, 0, 0],
    e_type: 1,
    e_machine: 62,
    e_version: 1,
    e_entry: 0,
    e_phoff: 0,
    e_shoff: 176,
    e_flags: 0,
    e_ehsize: 64,
    e_phentsize: 0,
    e_phnum: 0,
    e_shentsize: 64,
    e_shnum: 5,
    e_shstrndx: 4,
};

/// A function in section 1 whose name is the first of its string table.
pub const START: Symbol = Symbol {
    st_name: 1,
    st_info: 0x12,
    st_shndx: 1,
    st_size: 9,
    ..Symbol::NULL
};

const TEXT_SECTION: SectionHeader = SectionHeader {
    sh_name: 1,
    sh_type: SHT_PROGBITS,
    sh_flags: SHF_ALLOC | SHF_EXECINSTR,
    sh_offset: 64,
    sh_size: 9,
    sh_addralign: 1,
    ..SectionHeader::NULL
};

// The relocations of `.text`, one entry behind a table of six sections.
const RELOCATIONS: SectionHeader = SectionHeader {
    sh_type: SHT_RELA,
    sh_offset: 560,
    sh_size: 24,
    sh_link: 2,
    sh_info: 1,
    sh_addralign: 8,
    sh_entsize: 24,
    ..SectionHeader::NULL
};

// R_X86_64_PLT32 against symbol 1.
const CALL: Rela = Rela {
    r_offset: 5,
    r_info: 0x1_0000_0004,
    r_addend: -4,
};

/// An object whose one symbol besides the null one is the function `_start`, in its `.text`.
pub fn start_object(alloc: Global) -> Result<Vec<u8>, AllocError> {
    object_of(alloc, &HEADER, &TEXT_SECTION)
}

fn object_of(
    alloc: Global,
    header: &FileHeader,
    text: &SectionHeader,
) -> Result<Vec<u8>, AllocError> {
    let mut bytes = Vec::new(alloc);
    let mut record = [0; 64];
    header.write_to(&mut record);
    bytes.extend_from_slice(&record)?;
    bytes.extend_from_slice(&TEXT)?;
    bytes.extend_from_slice(&[0; 31])?;
    let mut entry = [0; 24];
    START.write_to(&mut entry);
    bytes.extend_from_slice(&entry)?;
    bytes.extend_from_slice(b"\0_start\0")?;
    bytes.extend_from_slice(b"\0.text\0.symtab\0.strtab\0.shstrtab\0")?;
    bytes.extend_from_slice(&[0; 7])?;
    put_section(&mut bytes, &SectionHeader::NULL)?;
    put_section(&mut bytes, text)?;
    put_section(&mut bytes, &SYMTAB)?;
    put_section(&mut bytes, &strings(15, 128, 8))?;
    put_section(&mut bytes, &strings(23, 136, 33))?;
    Ok(bytes)
}

/// The object of `_start` with one section more, and a relocation entry behind the table.
fn relocated_object(
    alloc: Global,
    text: &SectionHeader,
    relocations: &SectionHeader,
    entry: &Rela,
) -> Result<Vec<u8>, AllocError> {
    let header = FileHeader {
        e_shnum: 6,
        ..HEADER
    };
    let mut bytes = object_of(alloc, &header, text)?;
    put_section(&mut bytes, relocations)?;
    let mut record = [0; 24];
    entry.write_to(&mut record);
    bytes.extend_from_slice(&record)?;
    Ok(bytes)
}

pub fn put_section(bytes: &mut Vec<u8>, section: &SectionHeader) -> Result<(), AllocError> {
    let mut record = [0; 64];
    section.write_to(&mut record);
    bytes.extend_from_slice(&record)
}

fn strings(name: u32, offset: u64, size: u64) -> SectionHeader {
    SectionHeader {
        sh_name: name,
        sh_type: SHT_STRTAB,
        sh_offset: offset,
        sh_size: size,
        sh_addralign: 1,
        ..SectionHeader::NULL
    }
}

/// `read`, or the fault of the bytes.
pub fn outcome(alloc: Global, bytes: &[u8]) -> Result<String, Fail> {
    let text = match Object::read(alloc, View::new(bytes)) {
        Ok(_) => format!(in alloc; "read")?,
        Err(fault) => format!(in alloc; "{fault}")?,
    };
    Ok(text)
}

/// Whether the sections and the symbol of the object of `_start` have their names.
fn has_names(object: &Object<'_>) -> bool {
    object.section_name(0) == Some(b"".as_slice())
        && object.section_name(1) == Some(b".text".as_slice())
        && object.section_name(4) == Some(b".shstrtab".as_slice())
        && object.section_name(5).is_none()
        && object.name(1) == Some(b"_start".as_slice())
        && object.name(2).is_none()
}

/// Whether that object answers by number, where it has such a section or symbol and where it has none.
fn answers_by_number(object: &ObjectFile<'_>) -> bool {
    object.section(1) == TEXT_SECTION
        && object.section(5) == SectionHeader::NULL
        && object.symbol(1) == START
        && object.symbol(2) == Symbol::NULL
        && object.symbol_name(1) == b"_start".as_slice()
        && object.symbol_name(2).is_empty()
}

/// Whether that object has its tables, and its sections their bytes.
fn has_tables(object: &Object<'_>) -> bool {
    let sections = [
        SectionHeader::NULL,
        TEXT_SECTION,
        SYMTAB,
        strings(15, 128, 8),
        strings(23, 136, 33),
    ];
    object.sections() == sections.as_slice()
        && object.symbols() == [Symbol::NULL, START].as_slice()
        && object.section_bytes(0).is_none()
        && object.section_bytes(1) == Some(TEXT.as_slice())
        && object.section_bytes(5).is_none()
}

#[test]
fn an_object_is_read(rt: HostRuntime) -> Result<(), Fail> {
    let bytes = start_object(rt.alloc())?;
    let object = Object::read(rt.alloc(), View::new(&bytes))?;
    let found = [
        bytes.len() == 496 && object.file().bytes() == bytes.as_slice(),
        has_tables(&object),
        has_names(&object),
        answers_by_number(object.file()),
    ];
    assert_eq!(rt; found, [true; 4]);
    Ok(())
}

/// Bytes of the object of `_start`, each by its offset with another value, how many of its bytes are there, and what
/// becomes of it.
static FAULTS: [(usize, u8, usize, &str); 17] = [
    // EI_CLASS, e_type, e_machine, e_shoff, e_shnum, and e_shstrndx, which names `.text`.
    (4, 1, 496, "NotElf64 (3)"),
    (16, 2, 496, "NotRelocatable (4)"),
    (18, 3, 496, "WrongMachine (5)"),
    (47, 0xff, 496, "BadSectionTable (6)"),
    (60, 6, 496, "BadSectionTable (6)"),
    (62, 1, 496, "BadSectionTable (6)"),
    // The type of section 0; the offset, the name and the type of `.text`, which becomes a second symbol table.
    (180, 1, 496, "BadSectionTable (6)"),
    (271, 0xff, 496, "BadSectionRange (7)"),
    (243, 0xff, 496, "BadString (8)"),
    (244, 2, 496, "BadSymbolTable (9)"),
    // The name, the binding and the section of `_start`.
    (104, 8, 496, "BadString (8)"),
    (108, 0x32, 496, "BadSymbolTable (9)"),
    (110, 5, 496, "BadSymbolTable (9)"),
    // Its beginnings.
    (0, 0x7f, 63, "Truncated (2)"),
    (0, 0x7f, 64, "BadSectionTable (6)"),
    (0, 0x7f, 495, "BadSectionTable (6)"),
    (0, 0x7f, 496, "read"),
];

/// What becomes of the object of `_start` with another byte, of which so many bytes are there.
fn changed(alloc: Global, at: usize, byte: u8, len: usize) -> Result<String, Fail> {
    let mut bytes = start_object(alloc)?;
    *bytes.get_mut(at).ok_or("the object")? = byte;
    outcome(alloc, View::new(&bytes).part(0, len))
}

#[test]
fn faulty_objects_are_refused(rt: HostRuntime) -> Result<(), Fail> {
    for (at, byte, len, text) in FAULTS {
        let found = changed(rt.alloc(), at, byte, len)?;
        assert_eq!(rt; found.as_str(), text, "{byte} at {at} of {len}");
    }
    Ok(())
}

/// Whether an object whose relocations are section 5 tells one entry, by a section that relocates and by others.
fn tells_entry(object: &Object<'_>) -> bool {
    object.relas(5) == Some([CALL].as_slice())
        && object.relas(1).is_none()
        && object.relas(6).is_none()
}

/// Whether that object tells them where they are in the file.
fn lends_entry(object: &ObjectFile<'_>) -> bool {
    object.entries(5).len() == 1
        && object.entries(5).get(0) == Some(CALL)
        && object.entries(5).get(1).is_none()
        && object.entries(1).len() == 0
}

#[test]
fn relocations_are_read(rt: HostRuntime) -> Result<(), Fail> {
    let bytes = relocated_object(rt.alloc(), &TEXT_SECTION, &RELOCATIONS, &CALL)?;
    let object = Object::read(rt.alloc(), View::new(&bytes))?;
    let told = tells_entry(&object) && lends_entry(object.file());
    assert!(rt; told && CALL.symbol() == 1 && CALL.kind() == 4);
    Ok(())
}

#[test]
fn no_relocation_is_lawful(rt: HostRuntime) -> Result<(), Fail> {
    let relocations = SectionHeader {
        sh_size: 0,
        ..RELOCATIONS
    };
    let bytes = relocated_object(rt.alloc(), &TEXT_SECTION, &relocations, &CALL)?;
    let object = Object::read(rt.alloc(), View::new(&bytes))?;
    assert!(rt; object.relas(5) == Some([].as_slice()));
    Ok(())
}

/// `.text` without bytes in the file.
const NO_BYTES: SectionHeader = SectionHeader {
    sh_type: SHT_NOBITS,
    ..TEXT_SECTION
};

/// `.text`, RELA sections and entries, with what becomes of their object.
static RELOCATED: [(SectionHeader, SectionHeader, Rela, &str); 8] = [
    (TEXT_SECTION, RELOCATIONS, CALL, "read"),
    // A relocation of no symbol.
    (
        TEXT_SECTION,
        RELOCATIONS,
        Rela {
            r_info: 0x2_0000_0004,
            ..CALL
        },
        "BadRela (10)",
    ),
    // Entries without addends, half an entry, a link to strings.
    (
        TEXT_SECTION,
        SectionHeader {
            sh_type: SHT_REL,
            ..RELOCATIONS
        },
        CALL,
        "BadRela (10)",
    ),
    (
        TEXT_SECTION,
        SectionHeader {
            sh_size: 12,
            ..RELOCATIONS
        },
        CALL,
        "BadRela (10)",
    ),
    (
        TEXT_SECTION,
        SectionHeader {
            sh_link: 3,
            ..RELOCATIONS
        },
        CALL,
        "BadRela (10)",
    ),
    // Relocations of strings, of a section past the table, and of no bytes.
    (
        TEXT_SECTION,
        SectionHeader {
            sh_info: 3,
            ..RELOCATIONS
        },
        CALL,
        "BadRela (10)",
    ),
    (
        TEXT_SECTION,
        SectionHeader {
            sh_info: 6,
            ..RELOCATIONS
        },
        CALL,
        "BadRela (10)",
    ),
    (
        NO_BYTES,
        RELOCATIONS,
        Rela {
            r_offset: 0,
            r_info: 0,
            r_addend: 0,
        },
        "BadRela (10)",
    ),
];

#[test]
fn bad_relocation_sections_are_refused(rt: HostRuntime) -> Result<(), Fail> {
    for (number, (text, section, entry, wanted)) in RELOCATED.iter().enumerate() {
        let bytes = relocated_object(rt.alloc(), text, section, entry)?;
        let found = outcome(rt.alloc(), &bytes)?;
        assert_eq!(rt; found.as_str(), *wanted, "row {number}");
    }
    Ok(())
}
