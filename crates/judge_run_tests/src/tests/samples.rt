//! A link of two objects as LLD lays it out, in bytes (System V gABI 4 and 5, AMD64 psABI 4.4), and its certificate (docs/MAP.md).
use elf_model::{EM_X86_64, ET_EXEC, FileHeader, PT_LOAD, ProgramHeader};
use link_samples::objects::{NamedSymbol, Relocation, Section, relocatable};
use link_samples::parts::{F, NO_F, R_PLT32, START, TEXT};
use std::alloc::{AllocError, Global};
use std::test::Fail;

/// `_start` calls `f`, which another object has: the field at 1 is of symbol 2.
const CALL: Section<'static> = Section {
    bytes: &[0xe8, 0, 0, 0, 0],
    ..TEXT
};

const CALLED: Relocation = Relocation(1, 1, R_PLT32, 2, -4);

/// xor eax, eax; ret.
const RETURN: Section<'static> = Section {
    sh_addralign: 8,
    bytes: &[0x31, 0xc0, 0xc3],
    ..TEXT
};

/// The object `a.o`, whose code has five bytes.
pub fn first_object(alloc: Global) -> Result<Vec<u8>, Fail> {
    let start = NamedSymbol {
        st_size: 5,
        ..START
    };
    relocatable(alloc, &[CALL], &[start, NO_F], &[CALLED])
}

/// The object `b.o`, whose code has three bytes, aligned to eight.
pub fn second_object(alloc: Global) -> Result<Vec<u8>, Fail> {
    let f = NamedSymbol { st_size: 3, ..F };
    relocatable(alloc, &[RETURN], &[f], &[])
}

const HEADER: FileHeader = FileHeader {
    e_ident: [0x7f, b'E', b'L', b'F', 2, 1, 1, 0, 0, 0, 0, 0, 0, 0, 0, 0],
    e_type: ET_EXEC,
    e_machine: EM_X86_64,
    e_version: 1,
    e_entry: 0x20_10e8,
    e_phoff: 64,
    e_shoff: 0,
    e_flags: 0,
    e_ehsize: 64,
    e_phentsize: 56,
    e_phnum: 3,
    e_shentsize: 0,
    e_shnum: 0,
    e_shstrndx: 0,
};

/// The headers, the code on the next page, and the rights of the stack.
const HEADERS: ProgramHeader = ProgramHeader {
    p_type: PT_LOAD,
    p_flags: 4,
    p_offset: 0,
    p_vaddr: 0x20_0000,
    p_paddr: 0x20_0000,
    p_filesz: 232,
    p_memsz: 232,
    p_align: 4096,
};

const CODE: ProgramHeader = ProgramHeader {
    p_flags: 5,
    p_offset: 232,
    p_vaddr: 0x20_10e8,
    p_paddr: 0x20_10e8,
    p_filesz: 11,
    p_memsz: 11,
    ..HEADERS
};

const STACK: ProgramHeader = ProgramHeader {
    p_type: 0x6474_e551,
    p_flags: 6,
    p_offset: 0,
    p_vaddr: 0,
    p_paddr: 0,
    p_filesz: 0,
    p_memsz: 0,
    p_align: 0,
};

/// The code: a call that jumps over three bytes, which are one instruction that does nothing, and the second object's.
const BYTES: [u8; 11] = [0xe8, 3, 0, 0, 0, 0x0f, 0x1f, 0, 0x31, 0xc0, 0xc3];

/// Offsets in the image: what kind of file it is, the entry, the physical address of the headers, the type of the third program
/// header, the field of the call, the gap, and the second object's code.
pub const KIND: usize = 16;

pub const ENTRY: usize = 24;

pub const PHYSICAL: usize = 88;

pub const THIRD_TYPE: usize = 176;

pub const FIELD: usize = 233;

pub const GAP: usize = 237;

pub const SECOND: usize = 240;

/// The image.
pub fn image(alloc: Global) -> Result<Vec<u8>, AllocError> {
    let mut image = Vec::new(alloc);
    let mut record = [0; 64];
    HEADER.write_to(&mut record);
    image.extend_from_slice(&record)?;
    for segment in &[HEADERS, CODE, STACK] {
        let mut record = [0; 56];
        segment.write_to(&mut record);
        image.extend_from_slice(&record)?;
    }
    image.extend_from_slice(&BYTES)?;
    Ok(image)
}

/// The certificate: a map of both objects and their sections.
pub const CERTIFICATE: &str = "ldmap 2\n\
    object 0 0 0 a.o\n\
    object 1 1 0 b.o\n\
    place 00000000002010e8 5 0 1 .text\n\
    place 00000000002010f0 3 1 1 .text\n\
    end\n";
