//! Images as other linkers make them, and such that no system maps (System V gABI 4 and 5).
use byteview::View;
use elf_model::{EM_X86_64, ET_EXEC, ET_REL, FileHeader, PT_LOAD, PT_TLS, ProgramHeader};
use foreign_image::ForeignImage;
use std::alloc::{AllocError, Global};
use std::test::Fail;

pub const HEADER: FileHeader = FileHeader {
    e_ident: [0x7f, b'E', b'L', b'F', 2, 1, 1, 3, 0, 0, 0, 0, 0, 0, 0, 0],
    e_type: ET_EXEC,
    e_machine: EM_X86_64,
    e_version: 1,
    e_entry: 0x20_1010,
    e_phoff: 64,
    e_shoff: 0,
    e_flags: 0,
    e_ehsize: 64,
    e_phentsize: 56,
    e_phnum: 3,
    e_shentsize: 0,
    e_shnum: 0,
    e_shstrndx: 0,
};

/// The headers, as lld maps them.
pub const HEADERS: ProgramHeader = ProgramHeader {
    p_type: PT_LOAD,
    p_flags: 4,
    p_offset: 0,
    p_vaddr: 0x20_0000,
    p_paddr: 0x20_0000,
    p_filesz: 232,
    p_memsz: 232,
    p_align: 4096,
};

/// Sixteen bytes of code in the middle of the next page, then zeros.
pub const CODE: ProgramHeader = ProgramHeader {
    p_flags: 7,
    p_offset: 232,
    p_vaddr: 0x20_10e8,
    p_paddr: 0x20_10e8,
    p_filesz: 16,
    p_memsz: 32,
    ..HEADERS
};

pub const BLOCK: ProgramHeader = ProgramHeader {
    p_type: PT_TLS,
    p_flags: 4,
    p_align: 8,
    ..CODE
};

/// The headers with another file header, which is that of no program.
const OTHER_HEADERS: [FileHeader; 7] = [
    FileHeader {
        e_type: ET_REL,
        ..HEADER
    },
    FileHeader {
        e_machine: 3,
        ..HEADER
    },
    FileHeader {
        e_flags: 1,
        ..HEADER
    },
    FileHeader {
        e_phoff: 65,
        ..HEADER
    },
    FileHeader {
        e_phnum: 74,
        ..HEADER
    },
    FileHeader {
        e_shnum: 1,
        ..HEADER
    },
    FileHeader {
        e_ident: [0x7f, b'E', b'L', b'F', 2, 1, 1, 9, 0, 0, 0, 0, 0, 0, 0, 0],
        ..HEADER
    },
];

/// A note, and memory that is read-only up to the end of its page.
const NOTE: ProgramHeader = ProgramHeader { p_type: 4, ..BLOCK };

const RELRO: ProgramHeader = ProgramHeader {
    p_type: 0x6474_e552,
    p_memsz: 0xf18,
    ..BLOCK
};

/// Program headers of no program: a tail that can't be cleared, one that can't be read, one at another place of its page, more
/// bytes than memory, falling addresses, a page of two, two blocks, headers that aren't mapped, of which the C library reads where
/// it starts, be there a block or not, a type that isn't known, memory that is read-only pages behind its segment.
const OTHER_SEGMENTS: [[ProgramHeader; 3]; 11] = [
    [HEADERS, ProgramHeader { p_flags: 5, ..CODE }, BLOCK],
    [HEADERS, ProgramHeader { p_flags: 2, ..CODE }, BLOCK],
    [
        HEADERS,
        ProgramHeader {
            p_offset: 200,
            ..CODE
        },
        BLOCK,
    ],
    [
        HEADERS,
        ProgramHeader {
            p_filesz: 33,
            ..CODE
        },
        BLOCK,
    ],
    [CODE, HEADERS, BLOCK],
    [
        HEADERS,
        ProgramHeader {
            p_vaddr: 0x20_00e8,
            ..CODE
        },
        BLOCK,
    ],
    [HEADERS, BLOCK, BLOCK],
    [
        ProgramHeader {
            p_filesz: 231,
            ..HEADERS
        },
        CODE,
        BLOCK,
    ],
    [
        ProgramHeader {
            p_filesz: 231,
            ..HEADERS
        },
        CODE,
        NOTE,
    ],
    [HEADERS, CODE, ProgramHeader { p_type: 2, ..BLOCK }],
    [
        HEADERS,
        CODE,
        ProgramHeader {
            p_memsz: 0x1f18,
            ..RELRO
        },
    ],
];

pub fn image_of(
    alloc: Global,
    header: &FileHeader,
    segments: &[ProgramHeader],
) -> Result<Vec<u8>, AllocError> {
    image_with(alloc, header, segments, b"sixteen of code.")
}

/// An image with these sixteen bytes behind its headers.
pub fn image_with(
    alloc: Global,
    header: &FileHeader,
    segments: &[ProgramHeader],
    bytes: &[u8; 16],
) -> Result<Vec<u8>, AllocError> {
    let mut image = Vec::new(alloc);
    let mut record = [0; 64];
    header.write_to(&mut record);
    image.extend_from_slice(&record)?;
    for segment in segments {
        let mut record = [0; 56];
        segment.write_to(&mut record);
        image.extend_from_slice(&record)?;
    }
    image.extend_from_slice(bytes)?;
    Ok(image)
}

fn is_program(
    alloc: Global,
    header: &FileHeader,
    segments: &[ProgramHeader],
) -> Result<bool, AllocError> {
    let image = image_of(alloc, header, segments)?;
    Ok(ForeignImage::read(alloc, View::new(&image))?.is_some())
}

#[test]
fn the_headers_are_those_of_a_program(rt: HostRuntime) -> Result<(), Fail> {
    let told = is_program(rt.alloc(), &HEADER, &[HEADERS, CODE, BLOCK])?;
    assert!(rt; told);
    let noted = is_program(rt.alloc(), &HEADER, &[HEADERS, CODE, NOTE])?;
    assert!(rt; noted);
    let protected = is_program(rt.alloc(), &HEADER, &[HEADERS, CODE, RELRO])?;
    assert!(rt; protected);
    Ok(())
}

#[test]
fn other_file_headers_are_refused(rt: HostRuntime) -> Result<(), Fail> {
    let mut taken = false;
    for header in &OTHER_HEADERS {
        if is_program(rt.alloc(), header, &[HEADERS, CODE, BLOCK])? {
            taken = true;
        }
    }
    assert!(rt; !taken);
    Ok(())
}

#[test]
fn other_program_headers_are_refused(rt: HostRuntime) -> Result<(), Fail> {
    let mut taken = false;
    for segments in &OTHER_SEGMENTS {
        if is_program(rt.alloc(), &HEADER, segments)? {
            taken = true;
        }
    }
    assert!(rt; !taken);
    Ok(())
}

/// Whether an image tells the bytes, the entry and the headers of `HEADER`, `HEADERS`, `CODE` and `BLOCK`.
fn tells(image: &ForeignImage<'_>) -> bool {
    let found = (
        image.byte(0x20_0001),
        image.byte(0x20_10e8),
        image.byte(0x20_10f8),
        image.byte(0x20_1108),
        image.entry(),
    );
    if found != (Some(b'E'), Some(b's'), Some(0), None, 0x20_1010) {
        return false;
    }
    image.segments() == [HEADERS, CODE].as_slice() && image.thread_blocks() == [BLOCK].as_slice()
}

#[test]
fn memory_is_that_of_the_segments(rt: HostRuntime) -> Result<(), Fail> {
    let bytes = image_of(rt.alloc(), &HEADER, &[HEADERS, CODE, BLOCK])?;
    let told = match ForeignImage::read(rt.alloc(), View::new(&bytes))? {
        Some(image) => tells(&image),
        None => false,
    };
    assert!(rt; told);
    Ok(())
}
