//! Objects that are refused: the lines that tell the section, the symbol, the entry or the member at fault.
use crate::tests::lines::lines_of;
use bad_parts::bad_part;
use elf_model::{InputFile, ObjFault, SHT_REL, SHT_SYMTAB, SHT_SYMTAB_SHNDX};
use link_samples::objects::{NamedSymbol, Relocation, Section, relocatable};
use link_samples::one_object::one_file;
use link_samples::parts::{DATA, F, GROUP, NOTES, R_PC32, START, TEXT};
use std::alloc::Global;
use std::test::Fail;

/// Sections, symbols and relocations of an object, bytes of it that are changed, and the line on it, after `a.o: `.
type Row = (
    &'static [Section<'static>],
    &'static [NamedSymbol<'static>],
    &'static [Relocation],
    &'static [(usize, u8)],
    &'static str,
);

/// Bytes of the plain object that are changed, and a fault of which no part is told, since what has it can't be read.
type Unread = (&'static [(usize, u8)], ObjFault);

/// Changes bytes of an object.
fn change(bytes: &mut Vec<u8>, changes: &[(usize, u8)]) -> Result<(), Fail> {
    for (at, byte) in changes.iter() {
        *bytes.get_mut(*at).ok_or("the object")? = *byte;
    }
    Ok(())
}

/// The file of a row's object.
fn file_of(alloc: Global, row: &Row) -> Result<Vec<InputFile>, Fail> {
    let (sections, symbols, relocations, changes, _) = row;
    let mut bytes = relocatable(alloc, sections, symbols, relocations)?;
    change(&mut bytes, changes)?;
    one_file(alloc, "a.o", &bytes)
}

const SKEWED: Section<'static> = Section {
    sh_addralign: 3,
    ..DATA
};

const SECTION_NUMBERS: Section<'static> = Section {
    name: ".shndx",
    sh_type: SHT_SYMTAB_SHNDX,
    sh_addralign: 4,
    bytes: &[0; 4],
    ..NOTES
};

const OTHER_SYMBOLS: Section<'static> = Section {
    name: ".symtab",
    sh_type: SHT_SYMTAB,
    bytes: &[0; 24],
    ..NOTES
};

/// A function that is resolved when the program runs, and one that is unique in a process.
const INDIRECT: NamedSymbol<'static> = NamedSymbol { st_info: 0x1a, ..F };

const UNIQUE: NamedSymbol<'static> = NamedSymbol { st_info: 0xa2, ..F };

/// A string table, a section name and a symbol name are changed, then the null symbol, the header of the symbol table, and
/// those of the second one, so that it is good by itself.
static SECTIONS_AND_SYMBOLS: [Row; 9] = [
    (
        &[TEXT, SKEWED],
        &[START],
        &[],
        &[],
        "BadSectionRange (7): section 2 .data (header at byte 0x138): 0x8 bytes from byte 0x4b on, aligned to 0x3: not inside \
         the file, or no lawful alignment\n",
    ),
    (
        &[TEXT],
        &[START],
        &[],
        &[(0xf0, 0xff)],
        "BadString (8): section 1 (header at byte 0xf0): its name, from byte 0xff of the string table on, doesn't end there\n",
    ),
    (
        &[TEXT],
        &[START],
        &[],
        &[(0x68, 0xff)],
        "BadString (8): symbol 1 (entry at byte 0x68): its name, from byte 0xff of the string table on, doesn't end there\n",
    ),
    (
        &[TEXT],
        &[START],
        &[],
        &[(0x58, 1)],
        "BadSymbolTable (9): symbol 0 (entry at byte 0x50): not the null symbol\n",
    ),
    (
        &[TEXT],
        &[START],
        &[],
        &[(0x168, 25)],
        "BadSymbolTable (9): section 2 .symtab (header at byte 0x130): a symbol table of 0x30 bytes, sh_entsize 25, sh_link 3 \
         and sh_info 1 is unlawful\n",
    ),
    (
        &[TEXT, OTHER_SYMBOLS],
        &[START],
        &[],
        &[(0x178, 4), (0x188, 24)],
        "BadSymbolTable (9): section 3 .symtab (header at byte 0x190): a symbol table, as section 2 is\n",
    ),
    (
        &[TEXT, SECTION_NUMBERS],
        &[START],
        &[],
        &[],
        "BadSymbolTable (9): section 2 .shndx (header at byte 0x130): extended section numbers are not linked\n",
    ),
    (
        &[TEXT],
        &[START, INDIRECT],
        &[],
        &[],
        "BadSymbolTable (9): symbol 2 f (entry at byte 0x80): binding 1, type 10 (an indirect function, as glibc has: musl has none), section 0x1: not \
         linked\n",
    ),
    (
        &[TEXT],
        &[START, UNIQUE],
        &[],
        &[],
        "BadSymbolTable (9): symbol 2 f (entry at byte 0x80): binding 10 (a unique symbol: -fno-gnu-unique of g++ makes none), type 2, section 0x1: not linked\n",
    ),
];

const NO_ADDENDS: Section<'static> = Section {
    name: ".rel",
    sh_type: SHT_REL,
    bytes: &[0; 16],
    ..NOTES
};

/// A group of five bytes, one whose signature is symbol 9, and one of which section 0 is a member.
const CUT_GROUP: Section<'static> = Section {
    bytes: &[1, 0, 0, 0, 2],
    signature: 1,
    ..GROUP
};

const UNSIGNED: Section<'static> = Section {
    bytes: &[1, 0, 0, 0, 2, 0, 0, 0],
    signature: 9,
    ..CUT_GROUP
};

const OF_NOTHING: Section<'static> = Section {
    bytes: &[1, 0, 0, 0, 0, 0, 0, 0],
    ..CUT_GROUP
};

/// Of the second one sh_info, the section that is relocated, is changed to a string table.
static RELOCATIONS_AND_GROUPS: [Row; 6] = [
    (
        &[TEXT, NO_ADDENDS],
        &[START],
        &[],
        &[],
        "BadRela (10): section 2 .rel (header at byte 0x140): relocations without addends are not linked\n",
    ),
    (
        &[TEXT],
        &[START],
        &[Relocation(1, 0, R_PC32, 1, 0)],
        &[(0x1f4, 3)],
        "BadRela (10): section 4 .rela (header at byte 0x1c8): a table of relocations of 0x18 bytes, sh_entsize 24, sh_link 2 \
         and sh_info 3 is unlawful\n",
    ),
    (
        &[TEXT],
        &[START],
        &[
            Relocation(1, 0, R_PC32, 1, 0),
            Relocation(1, 4, R_PC32, 9, 0),
        ],
        &[],
        "BadRela (10): section 4 .rela (header at byte 0x1e0): relocation 1 (entry at byte 0xa0) names symbol 9, which isn't \
         there\n",
    ),
    (
        &[CUT_GROUP, TEXT],
        &[START],
        &[],
        &[],
        "BadGroup (11): section 1 .group (header at byte 0xf0): a group of 0x5 bytes, sh_entsize 0, sh_link 3 and sh_info 1 is \
         unlawful\n",
    ),
    (
        &[UNSIGNED, TEXT],
        &[START],
        &[],
        &[],
        "BadGroup (11): section 1 .group (header at byte 0xf8): the group's signature is symbol 9, which isn't there\n",
    ),
    (
        &[OF_NOTHING, TEXT],
        &[START],
        &[],
        &[],
        "BadGroup (11): section 1 .group (header at byte 0xf8): member 0 of the group (word at byte 0x44) is section 0, which \
         may be in no group\n",
    ),
];

#[test]
fn bad_parts_are_named(rt: HostRuntime) -> Result<(), Fail> {
    let tables: [&[Row]; 2] = [&SECTIONS_AND_SYMBOLS, &RELOCATIONS_AND_GROUPS];
    for rows in tables {
        for (number, row) in rows.iter().enumerate() {
            let files = file_of(rt.alloc(), row)?;
            let lines = lines_of(rt.alloc(), &files, "a.o", 9)?;
            assert_eq!(rt; lines.strip_prefix("a.o: "), Some(row.4), "row {number}");
        }
    }
    Ok(())
}

/// A name that isn't there, beside a symbol table whose entries are said to have 25 bytes, and beside the table that should hold
/// the name, of sections and of symbols, which is no string table.
static UNREAD: [Unread; 3] = [
    (&[(0x168, 25), (0x68, 0xff)], ObjFault::BadString),
    (&[(0x1b4, 1), (0xf0, 0xff)], ObjFault::BadString),
    (&[(0x174, 1), (0x68, 0xff)], ObjFault::BadString),
];

#[test]
fn what_cannot_be_read_is_not_judged(rt: HostRuntime) -> Result<(), Fail> {
    for (number, (changes, fault)) in UNREAD.iter().enumerate() {
        let mut bytes = relocatable(rt.alloc(), &[TEXT], &[START], &[])?;
        change(&mut bytes, changes)?;
        let part = bad_part(rt.alloc(), &bytes, *fault)?;
        assert_eq!(rt; part.is_some(), false, "row {number}");
    }
    Ok(())
}
