//! Two objects with call frames, and the lists that GNU ld, gold and LLD make of these (LSB Core 10.6, "Exception Frames"). GNU as 2.40
//! makes the first object of
//!
//! ```text
//!     .section .text.shared,"axG",@progbits,shared,comdat
//!     .weak shared
//! shared:
//!     .cfi_startproc
//!     ret
//!     .cfi_endproc
//!     .text
//!     .globl main
//! main:
//!     .cfi_startproc
//!     push %rbp
//!     .cfi_def_cfa_offset 16
//!     .cfi_offset 6,-16
//!     .cfi_escape 0x2e,0
//!     call shared
//!     ud2
//!     .cfi_endproc
//! ```
//!
//! by `as a.s -o a.o`; b.o is the same with `second` for `main`. Linkers make a program of them by `-static -e main -T at.ld -o x a.o b.o`,
//! where at.ld is
//!
//! ```text
//! SECTIONS {
//!   .eh_frame 0x2000e8 : { *(.eh_frame) }
//!   .text 0x201168 : { *(.text) *(.text.shared) }
//! }
//! ```
use crate::tests::sample_objects::{Named, Part, object, put};
use elf_model::{SHF_ALLOC, SHF_EXECINSTR, SHF_GROUP, SHT_GROUP, SHT_PROGBITS, SHT_RELA};
use std::alloc::Global;
use std::test::Fail;

/// Where an object has its call frames, the relocations of these, and the section of the LOCAL symbol of its code.
pub const FRAMES: usize = 81;

pub const ENTRIES: usize = 177;

pub const SYMBOL_SECTION: usize = 255;

/// What the sections of both objects have, by `objdump -s`: the group, but for the number of its section; the code of the function and
/// that of `shared`; the common part and the records of `shared` and of the function; the relocation of the code, and those of the
/// call frames.
static GROUP: [u8; 8] = [1, 0, 0, 0, 3, 0, 0, 0];

static FUNCTIONS: [u8; 9] = [0x55, 0xe8, 0, 0, 0, 0, 0x0f, 0x0b, 0xc3];

static RECORDS: [u8; 72] = [
    0x14, 0, 0, 0, 0, 0, 0, 0, 1, 0x7a, 0x52, 0, 1, 0x78, 0x10, 1, 0x1b, 0x0c, 7, 8, 0x90, 1, 0, 0,
    0x10, 0, 0, 0, 0x1c, 0, 0, 0, 0, 0, 0, 0, 1, 0, 0, 0, 0, 0, 0, 0, 0x18, 0, 0, 0, 0x30, 0, 0, 0,
    0, 0, 0, 0, 8, 0, 0, 0, 0, 0x41, 0x0e, 0x10, 0x86, 2, 0x2e, 0, 0, 0, 0, 0,
];

static CALLED: [u8; 24] = [
    2, 0, 0, 0, 0, 0, 0, 0, 4, 0, 0, 0, 3, 0, 0, 0, 0xfc, 0xff, 0xff, 0xff, 0xff, 0xff, 0xff, 0xff,
];

static DESCRIBED: [u8; 48] = [
    0x20, 0, 0, 0, 0, 0, 0, 0, 2, 0, 0, 0, 2, 0, 0, 0, 0, 0, 0, 0, 0, 0, 0, 0, 0x34, 0, 0, 0, 0, 0,
    0, 0, 2, 0, 0, 0, 1, 0, 0, 0, 0, 0, 0, 0, 0, 0, 0, 0,
];

/// The list of `ld.bfd` (GNU ld 2.40), of four records: the common part, which both objects have, `shared`, `main` and `second`. That of
/// `second` lacks four zeros at its end.
static LD: [u8; 96] = [
    0x14, 0, 0, 0, 0, 0, 0, 0, 1, 0x7a, 0x52, 0, 1, 0x78, 0x10, 1, 0x1b, 0x0c, 7, 8, 0x90, 1, 0, 0,
    0x10, 0, 0, 0, 0x1c, 0, 0, 0, 0x70, 0x10, 0, 0, 1, 0, 0, 0, 0, 0, 0, 0, 0x18, 0, 0, 0, 0x30, 0,
    0, 0, 0x4c, 0x10, 0, 0, 8, 0, 0, 0, 0, 0x41, 0x0e, 0x10, 0x86, 2, 0x2e, 0, 0, 0, 0, 0, 0x14, 0,
    0, 0, 0x4c, 0, 0, 0, 0x38, 0x10, 0, 0, 8, 0, 0, 0, 0, 0x41, 0x0e, 0x10, 0x86, 2, 0x2e, 0,
];

/// Its list with `*b.o(.eh_frame) *a.o(.eh_frame)` in at.ld: the common part, `second`, `shared` and `main`. The two functions' records lack
/// four zeros each.
static ORDERED: [u8; 92] = [
    0x14, 0, 0, 0, 0, 0, 0, 0, 1, 0x7a, 0x52, 0, 1, 0x78, 0x10, 1, 0x1b, 0x0c, 7, 8, 0x90, 1, 0, 0,
    0x14, 0, 0, 0, 0x1c, 0, 0, 0, 0x68, 0x10, 0, 0, 8, 0, 0, 0, 0, 0x41, 0x0e, 0x10, 0x86, 2, 0x2e,
    0, 0x10, 0, 0, 0, 0x34, 0, 0, 0, 0x58, 0x10, 0, 0, 1, 0, 0, 0, 0, 0, 0, 0, 0x14, 0, 0, 0, 0x48,
    0, 0, 0, 0x34, 0x10, 0, 0, 8, 0, 0, 0, 0, 0x41, 0x0e, 0x10, 0x86, 2, 0x2e, 0,
];

/// The list of `ld.gold` (gold 1.16), and that of `ld.lld` (LLD 14), which has a length of 0 behind it: the common part, `shared`, `main`
/// and `second`, the last three longer by four zeros each.
static PADDED: [u8; 112] = [
    0x14, 0, 0, 0, 0, 0, 0, 0, 1, 0x7a, 0x52, 0, 1, 0x78, 0x10, 1, 0x1b, 0x0c, 7, 8, 0x90, 1, 0, 0,
    0x14, 0, 0, 0, 0x1c, 0, 0, 0, 0x70, 0x10, 0, 0, 1, 0, 0, 0, 0, 0, 0, 0, 0, 0, 0, 0, 0x1c, 0, 0,
    0, 0x34, 0, 0, 0, 0x48, 0x10, 0, 0, 8, 0, 0, 0, 0, 0x41, 0x0e, 0x10, 0x86, 2, 0x2e, 0, 0, 0, 0,
    0, 0, 0, 0, 0, 0x1c, 0, 0, 0, 0x54, 0, 0, 0, 0x30, 0x10, 0, 0, 8, 0, 0, 0, 0, 0x41, 0x0e, 0x10,
    0x86, 2, 0x2e, 0, 0, 0, 0, 0, 0, 0, 0, 0,
];

/// The code of the program, which is the same by all of them: `main`, `second` and `shared`.
pub static CODE: [u8; 17] = [
    0x55, 0xe8, 0x0a, 0, 0, 0, 0x0f, 0x0b, 0x55, 0xe8, 2, 0, 0, 0, 0x0f, 0x0b, 0xc3,
];

/// A list of call frames by the linker that made it.
#[derive(Clone, Copy)]
pub enum Made {
    Ld,
    Ordered,
    Padded,
}

/// The bytes of a list.
pub fn list_bytes(list: Made) -> &'static [u8] {
    match list {
        Made::Ld => &LD,
        Made::Ordered => &ORDERED,
        Made::Padded => &PADDED,
    }
}

/// A line of a record: its object, section, offset and size, and where in the list it is.
#[derive(Clone, Copy)]
pub struct Line(pub u64, pub u64, pub u64, pub u64, pub u64);

/// The lines of a list, given where it has `shared`, `main` and `second`. The second object's record of `shared` has none.
fn lines(shared: u64, main: u64, second: u64) -> [Option<Line>; 6] {
    [
        Some(Line(0, 4, 0, 24, 0)),
        Some(Line(0, 4, 24, 20, shared)),
        Some(Line(0, 4, 44, 28, main)),
        Some(Line(1, 4, 0, 24, 0)),
        None,
        Some(Line(1, 4, 44, 28, second)),
    ]
}

/// The lines of a list's records.
pub fn list_lines(list: Made) -> [Option<Line>; 6] {
    match list {
        Made::Ld => lines(24, 44, 72),
        Made::Ordered => lines(48, 68, 24),
        Made::Padded => lines(24, 48, 80),
    }
}

/// Puts bytes at an offset.
pub fn put_all(bytes: &mut [u8], at: usize, all: &[u8]) {
    for (index, byte) in all.iter().enumerate() {
        put(bytes, at.saturating_add(index), *byte as u64, 1);
    }
}

/// Makes a section, whose header is at an offset, one of entries of a size that is linked to another section, and to a third thing.
fn put_links(bytes: &mut [u8], header: usize, link: u64, info: u64, size: u64) {
    put(bytes, header.saturating_add(40), link, 4);
    put(bytes, header.saturating_add(44), info, 4);
    put(bytes, header.saturating_add(56), size, 8);
}

/// The bytes of an object that has a function of a name. Its sections stand behind its file header, and its section headers are its last
/// bytes.
pub fn object_of(alloc: Global, function: &'static str) -> Result<Vec<u8>, Fail> {
    let code = SHF_ALLOC + SHF_EXECINSTR;
    let parts = [
        Part(".group", SHT_GROUP, 0, 4, 8),
        Part(".text", SHT_PROGBITS, code, 1, 8),
        Part(".text.shared", SHT_PROGBITS, code + SHF_GROUP, 1, 1),
        Part(".eh_frame", SHT_PROGBITS, SHF_ALLOC, 8, 72),
        Part(".rela.text", SHT_RELA, 0, 8, 24),
        Part(".rela.eh_frame", SHT_RELA, 0, 8, 48),
    ];
    let symbols = [
        Named("", 3, 2, 0),
        Named("", 3, 3, 0),
        Named("shared", 0x22, 3, 0),
        Named(function, 0x12, 2, 0),
    ];
    let mut bytes = object(alloc, &parts, &symbols)?;
    let headers = bytes.len().saturating_sub(10 * 64);
    put_all(&mut bytes, 64, &GROUP);
    put_all(&mut bytes, 72, &FUNCTIONS);
    put_all(&mut bytes, FRAMES, &RECORDS);
    put_all(&mut bytes, 153, &CALLED);
    put_all(&mut bytes, ENTRIES, &DESCRIBED);
    put_links(&mut bytes, headers.saturating_add(64), 7, 3, 4);
    put_links(&mut bytes, headers.saturating_add(5 * 64), 7, 2, 24);
    put_links(&mut bytes, headers.saturating_add(6 * 64), 7, 4, 24);
    Ok(bytes)
}
