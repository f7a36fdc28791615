//! Records of ELF files, the texts of faults, and what becomes of refused memory.
use crate::tests::objects::HEADER;
use byteview::View;
use elf_model::{
    ArFault, CmdFault, FileHeader, GroupFault, LinkError, LoadFault, MapFault, ObjFault, PF_R,
    PT_LOAD, ProgramHeader, Rela, STB_GLOBAL, STT_FUNC, SectionHeader, Symbol,
};
use std::alloc::{AllocError, AllocFailed, Global};
use std::fmt::Display;
use std::process::Abort;
use std::test::Fail;

// The global function `_start` at the beginning of section 1, nine bytes long.
static START: [u8; 24] = [
    1, 0, 0, 0, 0x12, 0, 1, 0, 0, 0, 0, 0, 0, 0, 0, 0, 9, 0, 0, 0, 0, 0, 0, 0,
];

// A read-only PT_LOAD of 0xe8 bytes at 0x400000, from the file's beginning on.
static HEADERS: [u8; 56] = [
    1, 0, 0, 0, 4, 0, 0, 0, 0, 0, 0, 0, 0, 0, 0, 0, 0, 0, 0x40, 0, 0, 0, 0, 0, 0, 0, 0x40, 0, 0, 0,
    0, 0, 0xe8, 0, 0, 0, 0, 0, 0, 0, 0xe8, 0, 0, 0, 0, 0, 0, 0, 0, 0x10, 0, 0, 0, 0, 0, 0,
];

// An object's, with five section headers at 176, of which the last names them.
static OBJECT: [u8; 64] = [
    0x7f, 0x45, 0x4c, 0x46, 2, 1, 1, 0, 0, 0, 0, 0, 0, 0, 0, 0, 1, 0, 0x3e, 0, 1, 0, 0, 0, 0, 0, 0,
    0, 0, 0, 0, 0, 0, 0, 0, 0, 0, 0, 0, 0, 0xb0, 0, 0, 0, 0, 0, 0, 0, 0, 0, 0, 0, 0x40, 0, 0, 0, 0,
    0, 0x40, 0, 5, 0, 4, 0,
];

// That of the symbol table of two symbols at 80, whose names stand in section 3.
static SYMBOLS: [u8; 64] = [
    7, 0, 0, 0, 2, 0, 0, 0, 0, 0, 0, 0, 0, 0, 0, 0, 0, 0, 0, 0, 0, 0, 0, 0, 0x50, 0, 0, 0, 0, 0, 0,
    0, 0x30, 0, 0, 0, 0, 0, 0, 0, 3, 0, 0, 0, 1, 0, 0, 0, 8, 0, 0, 0, 0, 0, 0, 0, 0x18, 0, 0, 0, 0,
    0, 0, 0,
];

#[test]
fn a_file_header_is_read_and_written(rt: HostRuntime) -> Result<(), Fail> {
    let header = FileHeader::read(View::new(&OBJECT)).ok_or("64 bytes")?;
    assert_eq!(rt; header, HEADER);
    let mut out = [0; 64];
    header.write_to(&mut out);
    assert_eq!(rt; out, OBJECT);
    assert_eq!(rt; FileHeader::read(View::new(&OBJECT[1..])), None);
    Ok(())
}

#[test]
fn a_section_header_is_read_and_written(rt: HostRuntime) -> Result<(), Fail> {
    let header = SectionHeader::read(View::new(&SYMBOLS)).ok_or("64 bytes")?;
    let wanted = SectionHeader {
        sh_name: 7,
        sh_type: 2,
        sh_flags: 0,
        sh_addr: 0,
        sh_offset: 80,
        sh_size: 48,
        sh_link: 3,
        sh_info: 1,
        sh_addralign: 8,
        sh_entsize: 24,
    };
    assert_eq!(rt; header, wanted);
    let mut out = [0; 64];
    header.write_to(&mut out);
    assert_eq!(rt; out, SYMBOLS);
    assert_eq!(rt; SectionHeader::read(View::new(&SYMBOLS[1..])), None);
    let null = SectionHeader::read(View::new(&[0; 64]));
    assert_eq!(rt; null, Some(SectionHeader::NULL));
    Ok(())
}

fn section_of(sh_type: u32, sh_flags: u64) -> SectionHeader {
    SectionHeader {
        sh_type,
        sh_flags,
        sh_size: 1,
        sh_addralign: 1,
        ..SectionHeader::NULL
    }
}

/// What a section header tells of its flags and its type: writable, in memory, executable, thread-local, without bytes.
fn told(sh_type: u32, sh_flags: u64) -> [bool; 5] {
    let header = section_of(sh_type, sh_flags);
    [
        header.is_writable(),
        header.is_alloc(),
        header.is_executable(),
        header.is_thread_local(),
        header.is_nobits(),
    ]
}

/// Types and flags: SHF_WRITE is 1, SHF_ALLOC 2, SHF_EXECINSTR 4 and SHF_TLS 0x400; 0xbf8 has all other flags up to 0x800.
/// SHT_NULL is 0, SHT_PROGBITS 1, SHT_NOBITS 8 and SHT_REL 9.
static TOLD: [(u32, u64, [bool; 5]); 11] = [
    (1, 0, [false, false, false, false, false]),
    (1, 1, [true, false, false, false, false]),
    (1, 2, [false, true, false, false, false]),
    (1, 4, [false, false, true, false, false]),
    (1, 0x400, [false, false, false, true, false]),
    (1, 0x407, [true, true, true, true, false]),
    (1, 0xbf8, [false, false, false, false, false]),
    (0, 2, [false, true, false, false, false]),
    (1, 2, [false, true, false, false, false]),
    (8, 2, [false, true, false, false, true]),
    (9, 2, [false, true, false, false, false]),
];

#[test]
fn a_section_header_tells_its_flags_and_nobits(rt: HostRuntime) {
    for (sh_type, sh_flags, wanted) in TOLD {
        assert_eq!(rt; told(sh_type, sh_flags), wanted, "{sh_type} {sh_flags}");
    }
}

#[test]
fn a_symbol_is_read_and_written(rt: HostRuntime) -> Result<(), Fail> {
    let start = Symbol::read(View::new(&START)).ok_or("24 bytes")?;
    let wanted = Symbol {
        st_name: 1,
        st_info: STB_GLOBAL << 4 | STT_FUNC,
        st_other: 0,
        st_shndx: 1,
        st_value: 0,
        st_size: 9,
    };
    assert_eq!(rt; start, wanted);
    let mut out = [0; 24];
    start.write_to(&mut out);
    assert_eq!(rt; out, START);
    assert_eq!(rt; Symbol::read(View::new(&START[1..])), None);
    let null = Symbol::read(View::new(&[0; 24]));
    assert_eq!(rt; null, Some(Symbol::NULL));
    Ok(())
}

#[test]
fn a_program_header_is_read_and_written(rt: HostRuntime) -> Result<(), Fail> {
    let headers = ProgramHeader::read(View::new(&HEADERS)).ok_or("56 bytes")?;
    let wanted = ProgramHeader {
        p_type: PT_LOAD,
        p_flags: PF_R,
        p_offset: 0,
        p_vaddr: 0x40_0000,
        p_paddr: 0x40_0000,
        p_filesz: 0xe8,
        p_memsz: 0xe8,
        p_align: 0x1000,
    };
    assert_eq!(rt; headers, wanted);
    let mut out = [0; 56];
    headers.write_to(&mut out);
    assert_eq!(rt; out, HEADERS);
    Ok(())
}

#[test]
fn an_addend_has_a_sign(rt: HostRuntime) -> Result<(), Fail> {
    let rela = Rela {
        r_offset: 1,
        r_info: 0x1_0000_0002,
        r_addend: -4,
    };
    assert_eq!(rt; rela.symbol(), 1);
    assert_eq!(rt; rela.kind(), 2);
    let mut out = [0; 24];
    rela.write_to(&mut out);
    assert_eq!(rt; out[16], 0xfc);
    assert_eq!(rt; out[23], 0xff);
    assert_eq!(rt; Rela::read(View::new(&out)), Some(rela));
    Ok(())
}

/// The texts of faults, one after the other.
fn texts<F: Display>(alloc: Global, faults: &[F]) -> Result<String, Fail> {
    let mut text = String::new(alloc);
    for fault in faults {
        text.push_str(&format!(in alloc; "{fault};")?)?;
    }
    Ok(text)
}

static WORDS: [CmdFault; 7] = [
    CmdFault::Memory,
    CmdFault::UnknownOption,
    CmdFault::MissingValue,
    CmdFault::BadNumber,
    CmdFault::GroupNesting,
    CmdFault::NoInput,
    CmdFault::NotArchiveInGroup,
];

static OBJECTS: [ObjFault; 12] = [
    ObjFault::Memory,
    ObjFault::Truncated,
    ObjFault::NotElf64,
    ObjFault::NotRelocatable,
    ObjFault::WrongMachine,
    ObjFault::BadSectionTable,
    ObjFault::BadSectionRange,
    ObjFault::BadString,
    ObjFault::BadSymbolTable,
    ObjFault::BadRela,
    ObjFault::BadGroup,
    ObjFault::TooMany,
];

static ARCHIVES: [ArFault; 7] = [
    ArFault::Memory,
    ArFault::NotArchive,
    ArFault::Truncated,
    ArFault::BadHeader,
    ArFault::BadIndex,
    ArFault::BadName,
    ArFault::TooMany,
];

static GROUPS: [GroupFault; 4] = [
    GroupFault::Memory,
    GroupFault::NamelessSignature,
    GroupFault::BadFlags,
    GroupFault::TwoGroups,
];

static IMAGES: [LoadFault; 5] = [
    LoadFault::Memory,
    LoadFault::BadHeader,
    LoadFault::BadSegment,
    LoadFault::Order,
    LoadFault::SharedPage,
];

static MAPS: [MapFault; 2] = [MapFault::Memory, MapFault::Line(4)];

/// What faults print, one after the other, is a text.
fn print<F: Display>(rt: &impl Abort, alloc: Global, faults: &[F], text: &str) -> Result<(), Fail> {
    assert_eq!(rt; texts(alloc, faults)?.as_str(), text);
    Ok(())
}

#[test]
fn faults_print_their_number(rt: HostRuntime) -> Result<(), Fail> {
    let alloc = rt.alloc();
    print(
        &rt,
        alloc,
        &WORDS,
        "Memory (1);UnknownOption (2);MissingValue (3);BadNumber (4);GroupNesting (5);NoInput (6);NotArchiveInGroup (7);",
    )?;
    print(
        &rt,
        alloc,
        &OBJECTS,
        "Memory (1);Truncated (2);NotElf64 (3);NotRelocatable (4);WrongMachine (5);BadSectionTable (6);BadSectionRange (7);BadString (8);BadSymbolTable (9);BadRela (10);BadGroup (11);TooMany (12);",
    )?;
    print(
        &rt,
        alloc,
        &ARCHIVES,
        "Memory (1);NotArchive (2);Truncated (3);BadHeader (4);BadIndex (5);BadName (6);TooMany (7);",
    )?;
    print(
        &rt,
        alloc,
        &GROUPS,
        "Memory (1);NamelessSignature (2);BadFlags (3);TwoGroups (4);",
    )?;
    print(
        &rt,
        alloc,
        &IMAGES,
        "Memory (1);BadHeader (2);BadSegment (3);Order (4);SharedPage (5);",
    )?;
    print(&rt, alloc, &MAPS, "Memory (1);Line 4 (2);")
}

fn prints(rt: &impl Abort, alloc: Global, error: LinkError, text: &str) -> Result<(), Fail> {
    assert_eq!(rt; format!(in alloc; "{error}")?.as_str(), text);
    Ok(())
}

#[test]
fn refusals_of_names_print_their_number(rt: HostRuntime) -> Result<(), Fail> {
    let alloc = rt.alloc();
    let name = Vec::from_slice(alloc, b"f")?;
    prints(&rt, alloc, LinkError::Duplicate(name), "Duplicate (9)")?;
    let name = Vec::from_slice(alloc, b"f")?;
    prints(&rt, alloc, LinkError::Undefined(name), "Undefined (10)")
}

#[test]
fn refusals_print_their_number(rt: HostRuntime) -> Result<(), Fail> {
    let alloc = rt.alloc();
    prints(&rt, alloc, LinkError::Memory, "Memory (1)")?;
    prints(
        &rt,
        alloc,
        LinkError::Command(CmdFault::NoInput),
        "Command (2): NoInput (6)",
    )?;
    prints(&rt, alloc, LinkError::FileMissing, "FileMissing (3)")?;
    prints(
        &rt,
        alloc,
        LinkError::BadObject(ObjFault::Truncated),
        "BadObject (4): Truncated (2)",
    )?;
    prints(&rt, alloc, LinkError::SectionKind, "SectionKind (7)")?;
    prints(&rt, alloc, LinkError::RefToDropped, "RefToDropped (11)")?;
    prints(&rt, alloc, LinkError::RelocKind, "RelocKind (12)")?;
    prints(&rt, alloc, LinkError::FieldOutside, "FieldOutside (13)")?;
    prints(
        &rt,
        alloc,
        LinkError::OverlappingFields,
        "OverlappingFields (14)",
    )?;
    prints(&rt, alloc, LinkError::Overflow, "Overflow (15)")?;
    prints(&rt, alloc, LinkError::TlsMismatch, "TlsMismatch (16)")?;
    prints(&rt, alloc, LinkError::BadCommon, "BadCommon (17)")?;
    prints(&rt, alloc, LinkError::NoEntry, "NoEntry (18)")?;
    prints(&rt, alloc, LinkError::MixedSection, "MixedSection (19)")?;
    prints(&rt, alloc, LinkError::TooLarge, "TooLarge (20)")?;
    prints(&rt, alloc, LinkError::BadSymbol, "BadSymbol (21)")
}

/// What `push` answers where memory is refused.
fn no_room() -> AllocFailed<u8> {
    AllocFailed { value: 1 }
}

#[test]
fn refused_memory_is_a_fault(rt: HostRuntime) {
    let found = [
        matches!(CmdFault::from(AllocError), CmdFault::Memory),
        matches!(CmdFault::from(no_room()), CmdFault::Memory),
        matches!(ObjFault::from(AllocError), ObjFault::Memory),
        matches!(GroupFault::from(AllocError), GroupFault::Memory),
        matches!(GroupFault::from(no_room()), GroupFault::Memory),
        matches!(LoadFault::from(AllocError), LoadFault::Memory),
        matches!(MapFault::from(AllocError), MapFault::Memory),
        matches!(&LinkError::from(AllocError), LinkError::Memory),
        matches!(&LinkError::from(no_room()), LinkError::Memory),
    ];
    assert_eq!(rt; found, [true; 9]);
}
