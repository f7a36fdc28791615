//! Which sections an image has, where they end, and which section a symbol is of. The addresses are those of the profile's layout
//! and the fields those of System V gABI 4 ("Sections", "Symbol Table"), by hand.
use crate::tests::found::{find, has_section, offset_of, section_count, symbol_named};
use crate::tests::tables::debuggable_of;
use elf_model::{SHF_ALLOC, SHF_EXECINSTR, SHN_ABS, SHN_COMMON, SYM_SIZE};
use ld_main::prepare;
use link_samples::links::{File, files_of};
use link_samples::objects::{NamedSymbol, Relocation, Section, relocatable};
use link_samples::one_object::{one_file, words_of};
use link_samples::parts::{
    BSS, DATA, F, FOO, LOADER, RODATA, START, TEXT, THREAD_DATA, THREAD_ZEROS, V, ZEROS_FOO,
};
use std::alloc::Global;
use std::test::Fail;

/// What the header of a section says: sh_type, sh_flags, sh_addr, sh_offset, sh_size and sh_addralign.
type Header = (&'static str, [u64; 6]);

/// What a symbol says: st_info, st_shndx, st_value and st_size.
type Entry = (&'static str, [u64; 4]);

/// Files that are linked by `-s a.o`, or by `-s a.o b.o` where there are two; the sections that hold the image; those of which
/// there are none; the symbols, of which so many are LOCAL, with that of number 0.
struct Row {
    files: &'static [File],
    headers: &'static [Header],
    absent: &'static [&'static str],
    locals: u32,
    entries: &'static [Entry],
}

/// The image of a row, with LOCAL symbols.
fn image_of(alloc: Global, row: &Row) -> Result<Vec<u8>, Fail> {
    let files = files_of(alloc, row.files)?;
    let line = if row.files.len() > 1 {
        "-s a.o b.o"
    } else {
        "-s a.o"
    };
    let words = words_of(alloc, line)?;
    let Ok(linkage) = prepare(alloc, &files, &words) else {
        return Err(Fail::from("the link is refused"));
    };
    let Ok(image) = debuggable_of(alloc, &linkage, true)? else {
        return Err(Fail::from("the image is refused"));
    };
    Ok(image)
}

/// Whether the headers of sections are as a row says, and there are no others but number 0 and the three tables.
fn are_headers(image: &[u8], headers: &[Header]) -> Result<bool, Fail> {
    for (name, fields) in headers {
        let there = find(image, name)?;
        let found = [
            there.sh_type as u64,
            there.sh_flags,
            there.sh_addr,
            there.sh_offset,
            there.sh_size,
            there.sh_addralign,
        ];
        if found != *fields {
            return Ok(false);
        }
    }
    Ok(section_count(image)? as usize == headers.len().wrapping_add(4))
}

/// Whether there are no sections of these names.
fn are_absent(image: &[u8], names: &[&'static str]) -> Result<bool, Fail> {
    for name in names {
        if has_section(image, name)? {
            return Ok(false);
        }
    }
    Ok(true)
}

/// Whether the symbols behind that of number 0 are as a row says, and no others.
fn are_entries(image: &[u8], entries: &[Entry]) -> Result<bool, Fail> {
    for (k, (name, fields)) in entries.iter().enumerate() {
        let Some(there) = symbol_named(image, k.wrapping_add(1), name)? else {
            return Ok(false);
        };
        let found = [
            there.st_info as u64,
            there.st_shndx as u64,
            there.st_value,
            there.st_size,
        ];
        if found != *fields {
            return Ok(false);
        }
    }
    let wanted = (entries.len() as u64).wrapping_add(1).wrapping_mul(24);
    Ok(find(image, ".symtab")?.sh_size == wanted)
}

/// Whether the image of a row is as it says.
fn is_right(alloc: Global, row: &Row) -> Result<bool, Fail> {
    let image = image_of(alloc, row)?;
    Ok(
        are_headers(&image, row.headers)?
            && are_absent(&image, row.absent)?
            && are_entries(&image, row.entries)?
            && find(&image, ".symtab")?.sh_info == row.locals,
    )
}

/// A `.text` and a `.data` without bytes, at multiples of 16.
const NO_TEXT: Section<'static> = Section {
    sh_addralign: 16,
    bytes: &[],
    ..TEXT
};

const NO_DATA: Section<'static> = Section {
    sh_addralign: 16,
    bytes: &[],
    ..DATA
};

/// `.data` of four bytes.
const FOUR: Section<'static> = Section {
    sh_addralign: 4,
    bytes: &[1, 2, 3, 4],
    ..DATA
};

/// `.bss` of five bytes, and one of none at a multiple of 16.
const FIVE_ZEROS: Section<'static> = Section {
    sh_addralign: 1,
    memory: 5,
    ..BSS
};

const NO_BSS: Section<'static> = Section {
    sh_addralign: 16,
    memory: 0,
    ..BSS
};

/// Global names without a type at the beginning of sections 1, 2 and 3.
const AT_FIRST: NamedSymbol<'static> = NamedSymbol {
    name: "e",
    st_info: 0x10,
    st_shndx: 1,
    st_value: 0,
    st_size: 0,
};

const AT_SECOND: NamedSymbol<'static> = NamedSymbol {
    name: "g",
    st_shndx: 2,
    ..AT_FIRST
};

const AT_THIRD: NamedSymbol<'static> = NamedSymbol {
    name: "h",
    st_shndx: 3,
    ..AT_FIRST
};

/// A common block of 16 bytes at a multiple of 8.
const BLOCK: NamedSymbol<'static> = NamedSymbol {
    name: "b",
    st_info: 0x11,
    st_shndx: SHN_COMMON,
    st_value: 8,
    st_size: 16,
};

const OTHER_BLOCK: NamedSymbol<'static> = NamedSymbol { name: "c", ..BLOCK };

/// One of no bytes at a multiple of 64.
const NO_BLOCK: NamedSymbol<'static> = NamedSymbol {
    name: "e",
    st_value: 64,
    st_size: 0,
    ..BLOCK
};

/// A LOCAL function of two bytes in section 1, and one of the same name of three.
const LOCAL_TWO: NamedSymbol<'static> = NamedSymbol {
    name: "l",
    st_info: 0x2,
    st_shndx: 1,
    st_value: 4,
    st_size: 2,
};

const LOCAL_THREE: NamedSymbol<'static> = NamedSymbol {
    st_value: 1,
    st_size: 3,
    ..LOCAL_TWO
};

/// `.tdata` and `.tbss` without bytes, and names in them.
const NO_THREAD_DATA: Section<'static> = Section {
    sh_addralign: 32,
    bytes: &[],
    ..THREAD_DATA
};

const NO_THREAD_ZEROS: Section<'static> = Section {
    sh_addralign: 64,
    memory: 0,
    ..THREAD_ZEROS
};

const THREAD_FIRST: NamedSymbol<'static> = NamedSymbol {
    st_info: 0x16,
    ..AT_FIRST
};

const THREAD_SECOND: NamedSymbol<'static> = NamedSymbol {
    st_info: 0x16,
    ..AT_SECOND
};

/// The text of nine bytes, `_start` in it, and both where the text is at a multiple of 16.
const TEXT_HEADER: Header = (
    ".text",
    [1, SHF_ALLOC | SHF_EXECINSTR, 0x401000, 0x1000, 9, 1],
);

const ALIGNED_TEXT: Header = (
    ".text",
    [1, SHF_ALLOC | SHF_EXECINSTR, 0x401000, 0x1000, 9, 16],
);

const START_ENTRY: Entry = ("_start", [0x12, 1, 0x401000, 9]);

const ABS: u64 = SHN_ABS as u64;

/// Sections of two segments whose last pieces are empty, and that of common blocks, end where those before do; symbols stay where
/// their pieces are.
static LAST_PIECES: [Row; 4] = [
    Row {
        files: &[
            File::Object("a.o", &[TEXT, FOUR], &[START], &[]),
            File::Object("b.o", &[NO_TEXT, NO_DATA], &[AT_FIRST, AT_SECOND], &[]),
        ],
        headers: &[ALIGNED_TEXT, (".data", [1, 3, 0x402000, 0x2000, 4, 16])],
        absent: &[],
        locals: 1,
        entries: &[
            START_ENTRY,
            ("e", [0x10, 1, 0x401010, 0]),
            ("g", [0x10, 2, 0x402010, 0]),
        ],
    },
    Row {
        files: &[
            File::Object("a.o", &[TEXT, FOUR, FIVE_ZEROS], &[START], &[]),
            File::Object("b.o", &[NO_DATA, NO_BSS], &[AT_FIRST, AT_SECOND], &[]),
        ],
        headers: &[
            TEXT_HEADER,
            (".data", [1, 3, 0x402000, 0x2000, 4, 16]),
            (".bss", [8, 3, 0x402010, 0x2010, 5, 16]),
        ],
        absent: &[],
        locals: 1,
        entries: &[
            START_ENTRY,
            ("e", [0x10, 2, 0x402010, 0]),
            ("g", [0x10, 3, 0x402020, 0]),
        ],
    },
    Row {
        files: &[File::Object("a.o", &[TEXT], &[START, BLOCK, OTHER_BLOCK, NO_BLOCK], &[])],
        headers: &[TEXT_HEADER, ("COMMON", [8, 3, 0x402000, 0x2000, 32, 64])],
        absent: &[],
        locals: 1,
        entries: &[
            START_ENTRY,
            ("b", [0x11, 2, 0x402000, 16]),
            ("c", [0x11, 2, 0x402010, 16]),
            ("e", [0x11, 2, 0x402040, 0]),
        ],
    },
    Row {
        files: &[
            File::Object("a.o", &[TEXT, THREAD_DATA], &[START], &[]),
            File::Object(
                "b.o",
                &[NO_THREAD_DATA, NO_THREAD_ZEROS],
                &[THREAD_FIRST, THREAD_SECOND],
                &[],
            ),
        ],
        headers: &[TEXT_HEADER, (".tdata", [1, 0x403, 0x402000, 0x2000, 4, 32])],
        absent: &[".tbss"],
        locals: 1,
        entries: &[
            START_ENTRY,
            ("e", [0x16, 2, 32, 0]),
            ("g", [0x16, ABS, 64, 0]),
        ],
    },
];

/// A section without bytes at a multiple of 64 that may be executed, and one at a multiple of 32 that may be written.
const NO_CODE: Section<'static> = Section {
    name: ".first",
    sh_addralign: 64,
    ..NO_TEXT
};

const NO_OTHER: Section<'static> = Section {
    name: ".other",
    sh_addralign: 32,
    ..NO_DATA
};

/// Sections of which all pieces are empty have no header, also those of two such pieces, and symbols in them are absolute. LOCAL
/// symbols of two objects and one name are both there.
static EMPTY_SECTIONS: [Row; 4] = [
    Row {
        files: &[File::Object(
            "a.o",
            &[TEXT, NO_CODE, NO_OTHER],
            &[START, AT_SECOND, AT_THIRD],
            &[],
        )],
        headers: &[TEXT_HEADER],
        absent: &[".first", ".other"],
        locals: 1,
        entries: &[
            START_ENTRY,
            ("g", [0x10, ABS, 0x401040, 0]),
            ("h", [0x10, ABS, 0x402000, 0]),
        ],
    },
    Row {
        files: &[
            File::Object("a.o", &[TEXT, NO_OTHER, FOUR], &[START, AT_SECOND], &[]),
            File::Object("b.o", &[NO_OTHER, FIVE_ZEROS], &[AT_FIRST], &[]),
        ],
        headers: &[
            TEXT_HEADER,
            (".data", [1, 3, 0x402000, 0x2000, 4, 4]),
            (".bss", [8, 3, 0x402004, 0x2004, 5, 1]),
        ],
        absent: &[".other"],
        locals: 1,
        entries: &[
            START_ENTRY,
            ("e", [0x10, ABS, 0x402000, 0]),
            ("g", [0x10, ABS, 0x402000, 0]),
        ],
    },
    Row {
        files: &[File::Object("a.o", &[TEXT], &[START, NO_BLOCK], &[])],
        headers: &[TEXT_HEADER],
        absent: &["COMMON"],
        locals: 1,
        entries: &[START_ENTRY, ("e", [0x11, ABS, 0x402000, 0])],
    },
    Row {
        files: &[
            File::Object("a.o", &[TEXT], &[LOCAL_TWO, START], &[]),
            File::Object("b.o", &[TEXT], &[LOCAL_THREE, F], &[]),
        ],
        headers: &[(
            ".text",
            [1, SHF_ALLOC | SHF_EXECINSTR, 0x401000, 0x1000, 18, 1],
        )],
        absent: &[],
        locals: 3,
        entries: &[
            ("l", [0x2, 1, 0x401004, 2]),
            ("l", [0x2, 1, 0x40100a, 3]),
            START_ENTRY,
            ("f", [0x12, 1, 0x401009, 9]),
        ],
    },
];

#[test]
fn sections_end_with_their_last_piece_that_is_not_empty(rt: HostRuntime) -> Result<(), Fail> {
    for row in &LAST_PIECES {
        assert!(rt; is_right(rt.alloc(), row)?);
    }
    Ok(())
}

#[test]
fn sections_without_bytes_have_no_header(rt: HostRuntime) -> Result<(), Fail> {
    for row in &EMPTY_SECTIONS {
        assert!(rt; is_right(rt.alloc(), row)?);
    }
    Ok(())
}

/// A LOCAL symbol of a file whose name begins as the compiler's own do, one of a section that has a name, and a function whose
/// name begins with a dot; and others like them.
const FILE_LOCAL: NamedSymbol<'static> = NamedSymbol {
    name: ".L1.c",
    st_info: 0x4,
    st_shndx: SHN_ABS,
    st_value: 0,
    st_size: 0,
};

const OTHER_FILE: NamedSymbol<'static> = NamedSymbol {
    name: ".L2.c",
    ..FILE_LOCAL
};

const NAMED_SECTION: NamedSymbol<'static> = NamedSymbol {
    name: "whole",
    st_info: 0x3,
    st_shndx: 1,
    ..FILE_LOCAL
};

const DOTTED: NamedSymbol<'static> = NamedSymbol {
    name: ".dot",
    ..LOCAL_TWO
};

const OTHER_DOTTED: NamedSymbol<'static> = NamedSymbol {
    name: ".other",
    ..LOCAL_THREE
};

/// Strings that may be merged.
const STRINGS: Section<'static> = Section {
    sh_flags: SHF_ALLOC | 0x30,
    bytes: &[0x61, 0, 0x62, 0, 0x63, 0, 0x64, 0],
    ..RODATA
};

/// `.data` of four bytes at a multiple of 16, and four bytes of another name.
const FOUR_AT_16: Section<'static> = Section {
    sh_addralign: 16,
    ..FOUR
};

const OTHER_FOUR: Section<'static> = Section {
    name: ".other",
    ..FOUR
};

/// A load by way of the GOT.
const LOAD: [Relocation; 1] = [Relocation(1, 3, 42, 2, -4)];

/// Flags that only tell how sections may be joined are left out, and the GOT has a section; two sections have one name where they
/// differ in what they hold; the alignment is one that the address has; and LOCAL symbols that tools want.
static KINDS: [Row; 4] = [
    Row {
        files: &[File::Object("a.o", &[LOADER, DATA, STRINGS], &[START, V], &LOAD)],
        headers: &[
            (".rodata", [1, 2, 0x400120, 0x120, 8, 8]),
            (
                ".text",
                [1, SHF_ALLOC | SHF_EXECINSTR, 0x401000, 0x1000, 16, 1],
            ),
            (".data", [1, 3, 0x402000, 0x2000, 8, 8]),
            (".got", [1, 3, 0x402008, 0x2008, 16, 8]),
        ],
        absent: &["COMMON"],
        locals: 1,
        entries: &[
            ("_start", [0x12, 2, 0x401000, 9]),
            ("v", [0x11, 3, 0x402000, 8]),
        ],
    },
    Row {
        files: &[
            File::Object("a.o", &[TEXT, FOO, ZEROS_FOO], &[START], &[]),
            File::Object("b.o", &[FOO, ZEROS_FOO], &[AT_FIRST, AT_SECOND], &[]),
        ],
        headers: &[
            TEXT_HEADER,
            ("foo", [1, 3, 0x402000, 0x2000, 16, 8]),
            ("foo", [1, 3, 0x402000, 0x2000, 16, 8]),
        ],
        absent: &[],
        locals: 1,
        entries: &[
            START_ENTRY,
            ("e", [0x10, 2, 0x402008, 0]),
            ("g", [0x10, 3, 0x402018, 0]),
        ],
    },
    Row {
        files: &[
            File::Object("a.o", &[TEXT, OTHER_FOUR, FOUR], &[START], &[]),
            File::Object("b.o", &[FOUR_AT_16], &[AT_FIRST], &[]),
        ],
        headers: &[
            TEXT_HEADER,
            (".other", [1, 3, 0x402000, 0x2000, 4, 4]),
            (".data", [1, 3, 0x402004, 0x2004, 16, 4]),
        ],
        absent: &[],
        locals: 1,
        entries: &[START_ENTRY, ("e", [0x10, 3, 0x402010, 0])],
    },
    Row {
        files: &[
            File::Object(
                "a.o",
                &[TEXT],
                &[FILE_LOCAL, NAMED_SECTION, DOTTED, START],
                &[],
            ),
            File::Object(
                "b.o",
                &[TEXT],
                &[OTHER_FILE, NAMED_SECTION, OTHER_DOTTED, F],
                &[],
            ),
        ],
        headers: &[(
            ".text",
            [1, SHF_ALLOC | SHF_EXECINSTR, 0x401000, 0x1000, 18, 1],
        )],
        absent: &[],
        locals: 5,
        entries: &[
            (".L1.c", [0x4, ABS, 0, 0]),
            (".dot", [0x2, 1, 0x401004, 2]),
            (".L2.c", [0x4, ABS, 0, 0]),
            (".other", [0x2, 1, 0x40100a, 3]),
            START_ENTRY,
            ("f", [0x12, 1, 0x401009, 9]),
        ],
    },
];

#[test]
fn sections_and_symbols_are_of_their_kinds(rt: HostRuntime) -> Result<(), Fail> {
    for (number, row) in KINDS.iter().enumerate() {
        assert!(rt; is_right(rt.alloc(), row)?, "row {number}");
    }
    Ok(())
}

/// The symbols of an object by their numbers, and what their st_other becomes: hidden and protected (System V gABI 4, "Symbol
/// Visibility").
static OTHERS: [(usize, &str, u8); 2] = [(1, "_start", 2), (2, "f", 3)];

/// An object whose symbols have such st_other. Its symbol table is section 2.
fn object_with_others(alloc: Global) -> Result<Vec<u8>, Fail> {
    let mut object = relocatable(alloc, &[TEXT], &[START, F], &[])?;
    let table = offset_of(&object, 2)? as usize;
    for (number, _, other) in &OTHERS {
        let at = table.wrapping_add(SYM_SIZE.wrapping_mul(*number));
        *object.get_mut(at.wrapping_add(5)).ok_or("a symbol")? = *other;
    }
    Ok(object)
}

/// The image of the link of an object.
fn image_of_object(alloc: Global, object: &[u8]) -> Result<Vec<u8>, Fail> {
    let files = one_file(alloc, "a.o", object)?;
    let words = words_of(alloc, "-s a.o")?;
    let Ok(linkage) = prepare(alloc, &files, &words) else {
        return Err(Fail::from("the link is refused"));
    };
    let Ok(image) = debuggable_of(alloc, &linkage, true)? else {
        return Err(Fail::from("the image is refused"));
    };
    Ok(image)
}

#[test]
fn symbols_keep_their_visibility(rt: HostRuntime) -> Result<(), Fail> {
    let image = image_of_object(rt.alloc(), &object_with_others(rt.alloc())?)?;
    for (number, name, other) in &OTHERS {
        let symbol = symbol_named(&image, *number, name)?.ok_or("a symbol")?;
        assert_eq!(rt; symbol.st_other, *other, "{name}");
    }
    Ok(())
}
