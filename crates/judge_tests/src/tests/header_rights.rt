//! Headers that give a program no more than its link does, and such that do: physical addresses, PT_GNU_RELRO, PT_GNU_STACK.
use crate::tests::images::{CODE, HEADER, HEADERS, image_of};
use crate::tests::sample_objects::{Part, file, loaded, object, words};
use byteview::View;
use check_link::{Piece, Placed};
use check_load::Loaded;
use elf_model::{
    PT_GNU_STACK, ProgramHeader, SHF_ALLOC, SHF_EXECINSTR, SHF_WRITE, SHT_PROGBITS, SectionHeader,
};
use foreign_image::ForeignImage;
use header_judge::are_headers_right;
use std::alloc::{AllocError, Global};
use std::test::Fail;

/// A header beside those of `HEADERS` and `CODE`, and eight bytes of a section: its name, its flags and its address; whether the
/// script has AT, and whether the words ask for a stack that can be executed, forbid it, or say nothing of it.
#[derive(Clone, Copy)]
struct Row {
    header: ProgramHeader,
    name: &'static [u8],
    flags: u64,
    at: u64,
    physical: bool,
    executes: Option<bool>,
}

/// From the code's beginning to the end of its page, which begins at 0x201000.
const RELRO: ProgramHeader = ProgramHeader {
    p_type: 0x6474_e552,
    p_flags: 4,
    p_memsz: 0xf18,
    ..CODE
};

const STACK: ProgramHeader = ProgramHeader {
    p_type: PT_GNU_STACK,
    p_flags: 6,
    p_offset: 0,
    p_vaddr: 0,
    p_paddr: 0,
    p_filesz: 0,
    p_memsz: 0,
    p_align: 16,
};

const DATA: Row = Row {
    header: RELRO,
    name: b".data",
    flags: SHF_WRITE + SHF_ALLOC,
    at: 0x20_10f0,
    physical: false,
    executes: None,
};

/// Code, which can't be executed where memory is read-only (mprotect with PROT_READ alone).
const TEXT: Row = Row {
    name: b".text",
    flags: SHF_ALLOC + SHF_EXECINSTR,
    ..DATA
};

/// Sections that are written early, one that isn't written, data before the page and behind it, code before it, data in a page that
/// PT_GNU_RELRO doesn't reach the end of; a stack that isn't executed, one that the words ask for; a physical address that the
/// script gives.
static RIGHT: [Row; 10] = [
    Row {
        name: b".data.rel.ro.local",
        ..DATA
    },
    Row {
        name: b".init_array",
        ..DATA
    },
    Row {
        name: b".rodata",
        flags: SHF_ALLOC,
        ..DATA
    },
    Row {
        at: 0x20_0ff8,
        ..DATA
    },
    Row {
        at: 0x20_0ff8,
        ..TEXT
    },
    Row {
        at: 0x20_2000,
        ..DATA
    },
    Row {
        header: ProgramHeader {
            p_memsz: 0xf17,
            ..RELRO
        },
        ..DATA
    },
    Row {
        header: STACK,
        ..DATA
    },
    Row {
        header: ProgramHeader {
            p_flags: 7,
            ..STACK
        },
        executes: Some(true),
        ..DATA
    },
    Row {
        header: ProgramHeader {
            p_paddr: 4096,
            ..STACK
        },
        physical: true,
        ..DATA
    },
];

/// Data and code in the page, data of names that are like early ones, before PT_GNU_RELRO but in its page, and that reach into it; a
/// stack that the words forbid; a physical address that no script gives.
static WRONG: [Row; 8] = [
    DATA,
    TEXT,
    Row {
        name: b".data.rel",
        ..DATA
    },
    Row {
        name: b".tdata2",
        ..DATA
    },
    Row {
        at: 0x20_1000,
        ..DATA
    },
    Row {
        at: 0x20_0ff9,
        ..DATA
    },
    Row {
        header: ProgramHeader {
            p_flags: 7,
            ..STACK
        },
        executes: Some(false),
        ..DATA
    },
    Row {
        header: ProgramHeader {
            p_paddr: 4096,
            ..STACK
        },
        ..DATA
    },
];

fn section(row: &Row) -> Placed<'static> {
    let header = SectionHeader {
        sh_type: SHT_PROGBITS,
        sh_flags: row.flags,
        sh_size: 8,
        sh_addralign: 1,
        ..SectionHeader::NULL
    };
    Placed {
        at: row.at,
        piece: Piece {
            object: 0,
            section: 1,
            header,
            name: row.name,
            bytes: &[],
        },
    }
}

/// Whether the headers of a row are right, with some objects; None where the image isn't read.
fn judged(alloc: Global, objects: &[Loaded<'_>], row: &Row) -> Result<Option<bool>, AllocError> {
    let bytes = image_of(alloc, &HEADER, &[HEADERS, CODE, row.header])?;
    let placed = [section(row)];
    match ForeignImage::read(alloc, View::new(&bytes))? {
        Some(image) => Ok(Some(are_headers_right(
            &image,
            objects,
            &placed,
            row.physical,
            row.executes,
        ))),
        None => Ok(None),
    }
}

/// The same with an object that has a section of a name and of flags.
fn judged_with(
    alloc: Global,
    name: &'static str,
    flags: u64,
    row: &Row,
) -> Result<Option<bool>, Fail> {
    let bytes = object(alloc, &[Part(name, SHT_PROGBITS, flags, 1, 0)], &[])?;
    let files = file(alloc, bytes)?;
    let words = words(alloc)?;
    let named = loaded(alloc, &words, &files)?;
    Ok(judged(alloc, &named.objects, row)?)
}

#[test]
fn headers_within_the_link_are_right(rt: HostRuntime) -> Result<(), Fail> {
    let mut all = true;
    for row in &RIGHT {
        all = judged_with(rt.alloc(), ".text", SHF_EXECINSTR, row)? == Some(true) && all;
    }
    assert!(rt; all);
    Ok(())
}

#[test]
fn headers_beyond_the_link_are_not(rt: HostRuntime) -> Result<(), Fail> {
    let mut all = true;
    for row in &WRONG {
        all = judged_with(rt.alloc(), ".text", SHF_EXECINSTR, row)? == Some(false) && all;
    }
    assert!(rt; all);
    Ok(())
}

/// Whether a stack that can be executed is right where words say this of it, and an object has a section of a name and of flags.
fn executed_with(
    alloc: Global,
    executes: Option<bool>,
    name: &'static str,
    flags: u64,
) -> Result<Option<bool>, Fail> {
    let row = Row {
        header: ProgramHeader {
            p_flags: 7,
            ..STACK
        },
        executes,
        ..DATA
    };
    judged_with(alloc, name, flags, &row)
}

/// A note asks for it by EXECINSTR, and an object without one does, as GNU ld and gold have it; words that forbid it come first.
#[test]
fn an_object_asks_for_an_executed_stack(rt: HostRuntime) -> Result<(), Fail> {
    let asked = executed_with(rt.alloc(), None, ".note.GNU-stack", SHF_EXECINSTR)?;
    let not = executed_with(rt.alloc(), None, ".note.GNU-stack", 0)?;
    let silent = executed_with(rt.alloc(), None, ".text", SHF_EXECINSTR)?;
    let forbidden = executed_with(rt.alloc(), Some(false), ".text", SHF_EXECINSTR)?;
    let told = (asked, not, silent, forbidden);
    assert!(rt; told == (Some(true), Some(false), Some(true), Some(false)));
    Ok(())
}

/// What words say of the stack, whether an object's note asks for one that is executed or it has none, the flags of PT_GNU_STACK
/// where there is one, and whether that is right.
struct Told(Option<bool>, Ask, Option<u32>, bool);

enum Ask {
    Executed,
    NotExecuted,
    Silent,
}

const STACK_NOTE: &str = ".note.GNU-stack";

/// GNU ld and gold write RWE where a note asks, LLD 14 and mold 1.10 RW, and a program with code on its stack then dies. Without the
/// header Linux before 5.8 executes whatever may be read.
static STACKS: [Told; 10] = [
    Told(None, Ask::Executed, Some(7), true),
    Told(None, Ask::Executed, Some(6), false),
    Told(None, Ask::Executed, None, false),
    Told(Some(true), Ask::NotExecuted, Some(7), true),
    Told(Some(true), Ask::NotExecuted, Some(6), false),
    Told(Some(false), Ask::Executed, Some(6), true),
    Told(None, Ask::NotExecuted, Some(6), true),
    Told(None, Ask::NotExecuted, None, false),
    Told(None, Ask::Silent, None, true),
    Told(Some(false), Ask::Silent, None, false),
];

fn row_of(stack: &Told) -> Row {
    match stack.2 {
        Some(flags) => Row {
            header: ProgramHeader {
                p_flags: flags,
                ..STACK
            },
            executes: stack.0,
            ..DATA
        },
        None => Row {
            name: b".data.rel.ro",
            executes: stack.0,
            ..DATA
        },
    }
}

fn judged_stack(alloc: Global, stack: &Told) -> Result<Option<bool>, Fail> {
    let row = row_of(stack);
    match stack.1 {
        Ask::Executed => judged_with(alloc, STACK_NOTE, SHF_EXECINSTR, &row),
        Ask::NotExecuted => judged_with(alloc, STACK_NOTE, 0, &row),
        Ask::Silent => judged_with(alloc, ".text", SHF_EXECINSTR, &row),
    }
}

#[test]
fn stacks_are_what_is_asked_for(rt: HostRuntime) -> Result<(), Fail> {
    let mut all = true;
    for stack in &STACKS {
        all = judged_stack(rt.alloc(), stack)? == Some(stack.3) && all;
    }
    assert!(rt; all);
    Ok(())
}
