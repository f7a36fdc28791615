//! Memory as an image's segments make it.
use crate::tests::objects::HEADER as OBJECT_HEADER;
use byteview::View;
use elf_model::{ET_EXEC, ET_REL, FileHeader, PT_GNU_STACK, PT_LOAD, PT_TLS, ProgramHeader};
use loader_model::{Memory, Rights};
use std::alloc::{AllocError, Global};
use std::test::Fail;

/// The header of an image with two program headers.
const HEADER: FileHeader = FileHeader {
    e_type: ET_EXEC,
    e_entry: 0x40_0000,
    e_phoff: 64,
    e_shoff: 0,
    e_phentsize: 56,
    e_phnum: 2,
    e_shnum: 0,
    e_shstrndx: 0,
    ..OBJECT_HEADER
};

/// 176 bytes of the file, then 24 zeros.
const SEGMENT: ProgramHeader = ProgramHeader {
    p_type: PT_LOAD,
    p_flags: 4,
    p_offset: 0,
    p_vaddr: 0x40_0000,
    p_paddr: 0x40_0000,
    p_filesz: 176,
    p_memsz: 200,
    p_align: 4096,
};

/// The header of an object file.
const OBJECT: FileHeader = FileHeader {
    e_type: ET_REL,
    ..HEADER
};

/// May be read, written and executed.
const ANY_RIGHT: ProgramHeader = ProgramHeader {
    p_flags: 7,
    ..SEGMENT
};

const STACK: ProgramHeader = ProgramHeader {
    p_type: PT_GNU_STACK,
    p_flags: 6,
    p_offset: 0,
    p_vaddr: 0,
    p_paddr: 0,
    p_filesz: 0,
    p_memsz: 0,
    p_align: 0,
};

/// A block of 8 bytes of the file and 8 zeros.
const BLOCK: ProgramHeader = ProgramHeader {
    p_type: PT_TLS,
    p_flags: 4,
    p_offset: 64,
    p_vaddr: 0x40_0040,
    p_paddr: 0x40_0040,
    p_filesz: 8,
    p_memsz: 16,
    p_align: 8,
};

fn an_image(
    alloc: Global,
    header: &FileHeader,
    segments: &[ProgramHeader],
) -> Result<Vec<u8>, AllocError> {
    let mut image = Vec::new(alloc);
    let mut record = [0; 64];
    header.write_to(&mut record);
    image.extend_from_slice(&record)?;
    for segment in segments {
        let mut record = [0; 56];
        segment.write_to(&mut record);
        image.extend_from_slice(&record)?;
    }
    Ok(image)
}

/// An image of `SEGMENT` alone.
fn one_segment(alloc: Global) -> Result<Vec<u8>, AllocError> {
    an_image(alloc, &HEADER, &[SEGMENT, STACK])
}

/// `loaded`, or the fault of the beginning of an image of these headers.
fn outcome(
    alloc: Global,
    header: &FileHeader,
    segments: &[ProgramHeader],
    len: usize,
) -> Result<String, Fail> {
    let image = an_image(alloc, header, segments)?;
    let text = match Memory::load(alloc, View::new(View::new(&image).part(0, len))) {
        Ok(_) => format!(in alloc; "loaded")?,
        Err(fault) => format!(in alloc; "{fault}")?,
    };
    Ok(text)
}

#[test]
fn a_segment_is_bytes_and_then_zeros(rt: HostRuntime) -> Result<(), Fail> {
    let image = one_segment(rt.alloc())?;
    let memory = Memory::load(rt.alloc(), View::new(&image))?;
    let found = (
        memory.byte(0x40_0001),
        memory.byte(0x40_00b0),
        memory.byte(0x40_00c8),
        memory.rights(0x40_0000),
        memory.entry(),
    );
    assert!(rt; found == (Some(b'E'), Some(0), None, Some(Rights::Read), 0x40_0000));
    Ok(())
}

/// Whether a memory tells the headers of its image, with these segments and blocks.
fn tells(
    memory: &Memory<'_>,
    image: &[u8],
    segments: &[ProgramHeader],
    blocks: &[ProgramHeader],
) -> bool {
    memory.image() == image && memory.segments() == segments && memory.thread_blocks() == blocks
}

#[test]
fn headers_are_the_files(rt: HostRuntime) -> Result<(), Fail> {
    let image = one_segment(rt.alloc())?;
    let memory = Memory::load(rt.alloc(), View::new(&image))?;
    let told = tells(&memory, &image, &[SEGMENT], &[]);
    assert!(rt; told && memory.header() == HEADER);
    Ok(())
}

#[test]
fn a_thread_block_is_told(rt: HostRuntime) -> Result<(), Fail> {
    let whole = ProgramHeader {
        p_memsz: 232,
        ..LONG
    };
    let image = an_image(rt.alloc(), &THREE, &[whole, BLOCK, STACK])?;
    let memory = Memory::load(rt.alloc(), View::new(&image))?;
    assert!(rt; tells(&memory, &image, &[whole], &[BLOCK]));
    Ok(())
}

/// The first bytes and the number of zeros of a run; None where there is none.
fn run_of(memory: &Memory<'_>, address: u64, len: u64) -> Option<(usize, Option<u8>, u64)> {
    let run = memory.run(address, len)?;
    Some((run.bytes.len(), run.bytes.first().copied(), run.zeros))
}

/// Runs of bytes, of bytes and zeros, and past either end.
#[test]
fn runs_lie_in_one_segment(rt: HostRuntime) -> Result<(), Fail> {
    let image = one_segment(rt.alloc())?;
    let memory = Memory::load(rt.alloc(), View::new(&image))?;
    let magic = memory.run(0x40_0000, 4).ok_or("mapped")?;
    let is_magic = magic.bytes == b"\x7fELF".as_slice() && magic.zeros == 0;
    let others = [
        run_of(&memory, 0x40_00ac, 28),
        run_of(&memory, 0x40_00ac, 29),
        run_of(&memory, 0x3f_ffff, 2),
    ];
    assert!(rt; is_magic && others == [Some((4, Some(0), 24)), None, None]);
    Ok(())
}

/// A second segment, in the page in which the first one ends.
const NEXT: ProgramHeader = ProgramHeader {
    p_flags: 6,
    p_offset: 0x1000,
    p_vaddr: 0x40_1000,
    p_paddr: 0x40_1000,
    p_filesz: 0,
    p_memsz: 1,
    ..SEGMENT
};

/// The header of three program headers, and a segment that ends in a second page.
const THREE: FileHeader = FileHeader {
    e_phnum: 3,
    ..HEADER
};

const LONG: ProgramHeader = ProgramHeader {
    p_filesz: 232,
    p_memsz: 0x1001,
    ..SEGMENT
};

/// Headers of images, how many bytes of these are there, and what comes of them. The file header has 64 bytes, and two
/// program headers end at 176.
static FAULTS: [(FileHeader, &[ProgramHeader], usize, &str); 7] = [
    (OBJECT, &[SEGMENT, STACK], 176, "BadHeader (2)"),
    (HEADER, &[ANY_RIGHT, STACK], 176, "BadSegment (3)"),
    (HEADER, &[STACK, SEGMENT], 176, "Order (4)"),
    (THREE, &[LONG, NEXT, STACK], 232, "SharedPage (5)"),
    (HEADER, &[SEGMENT, STACK], 63, "BadHeader (2)"),
    (HEADER, &[SEGMENT, STACK], 175, "BadHeader (2)"),
    (HEADER, &[SEGMENT, STACK], 176, "loaded"),
];

#[test]
fn faults_are_told(rt: HostRuntime) -> Result<(), Fail> {
    for (header, segments, len, text) in &FAULTS {
        let found = outcome(rt.alloc(), header, segments, *len)?;
        assert_eq!(rt; found.as_str(), *text, "{len} bytes");
    }
    Ok(())
}
