//! PT_TLS as linkers write it for eight bytes and four zeros behind them, and as none should.
use crate::tests::images::{BLOCK, CODE, HEADER, HEADERS, image_of};
use byteview::View;
use check_link::{Piece, Placed};
use elf_model::{
    ProgramHeader, SHF_ALLOC, SHF_TLS, SHF_WRITE, SHT_NOBITS, SHT_PROGBITS, SectionHeader,
};
use foreign_image::ForeignImage;
use std::alloc::{AllocError, Global};
use std::test::Fail;
use thread_judge::{are_low, is_thread_block_right};

const DATA: SectionHeader = SectionHeader {
    sh_name: 0,
    sh_type: SHT_PROGBITS,
    sh_flags: SHF_WRITE + SHF_ALLOC + SHF_TLS,
    sh_addr: 0,
    sh_offset: 0,
    sh_size: 8,
    sh_link: 0,
    sh_info: 0,
    sh_addralign: 8,
    sh_entsize: 0,
};

const ZEROS: SectionHeader = SectionHeader {
    sh_type: SHT_NOBITS,
    sh_size: 4,
    sh_addralign: 4,
    ..DATA
};

/// The block of both: LLD and GNU ld end it with the last section, gold at a multiple of its alignment.
const EXACT: ProgramHeader = ProgramHeader {
    p_filesz: 8,
    p_memsz: 12,
    p_align: 8,
    ..BLOCK
};

const RIGHT: [ProgramHeader; 2] = [
    EXACT,
    ProgramHeader {
        p_memsz: 16,
        ..EXACT
    },
];

/// Another size, fewer initial bytes, another alignment, the offset 0 as mold writes it, another beginning, no block.
const WRONG: [ProgramHeader; 6] = [
    ProgramHeader {
        p_memsz: 20,
        ..EXACT
    },
    ProgramHeader {
        p_filesz: 4,
        ..EXACT
    },
    ProgramHeader {
        p_align: 16,
        ..EXACT
    },
    ProgramHeader {
        p_offset: 0,
        ..EXACT
    },
    ProgramHeader {
        p_vaddr: 0x20_10f0,
        p_offset: 240,
        p_filesz: 0,
        p_memsz: 4,
        ..EXACT
    },
    ProgramHeader { p_type: 4, ..EXACT },
];

fn placed_at(at: u64, header: SectionHeader) -> Placed<'static> {
    Placed {
        at,
        piece: Piece {
            object: 0,
            section: 1,
            header,
            name: &[],
            bytes: &[],
        },
    }
}

/// Whether a header is right of two sections at addresses; None where the image isn't read.
fn judged_at(
    alloc: Global,
    block: &ProgramHeader,
    data: u64,
    zeros: Placed<'static>,
) -> Result<Option<bool>, AllocError> {
    let bytes = image_of(alloc, &HEADER, &[HEADERS, CODE, *block])?;
    let placed = [placed_at(data, DATA), zeros];
    if !are_low(&placed) {
        return Ok(None);
    }
    match ForeignImage::read(alloc, View::new(&bytes))? {
        Some(image) => Ok(Some(is_thread_block_right(&image, &placed))),
        None => Ok(None),
    }
}

/// The same of both sections one behind the other.
fn judged(alloc: Global, block: &ProgramHeader) -> Result<Option<bool>, AllocError> {
    judged_at(alloc, block, 0x20_10e8, placed_at(0x20_10f0, ZEROS))
}

/// Zeros with a greater alignment than the data.
const ALIGNED_ZEROS: SectionHeader = SectionHeader {
    sh_addralign: 16,
    ..ZEROS
};

/// A block begins at a multiple of its alignment: GNU ld, gold, LLD and mold have it so, and the offsets from the thread pointer that
/// the standard and glibc compute are the same only there.
#[test]
fn blocks_begin_at_their_alignment(rt: HostRuntime) -> Result<(), Fail> {
    let beside = ProgramHeader {
        p_align: 16,
        ..EXACT
    };
    let at = ProgramHeader {
        p_vaddr: 0x20_10f0,
        p_offset: 240,
        p_memsz: 20,
        ..beside
    };
    let alloc = rt.alloc();
    let right = judged_at(alloc, &at, 0x20_10f0, placed_at(0x20_1100, ALIGNED_ZEROS))?;
    let wrong = judged_at(
        alloc,
        &beside,
        0x20_10e8,
        placed_at(0x20_10f0, ALIGNED_ZEROS),
    )?;
    assert!(rt; (right, wrong) == (Some(true), Some(false)));
    Ok(())
}

#[test]
fn blocks_of_linkers_are_right(rt: HostRuntime) -> Result<(), Fail> {
    let mut all = true;
    for block in &RIGHT {
        all = judged(rt.alloc(), block)? == Some(true) && all;
    }
    assert!(rt; all);
    Ok(())
}

#[test]
fn other_blocks_are_not(rt: HostRuntime) -> Result<(), Fail> {
    let mut all = true;
    for block in &WRONG {
        all = judged(rt.alloc(), block)? == Some(false) && all;
    }
    assert!(rt; all);
    Ok(())
}

/// An image without thread-local sections has no block.
#[test]
fn block_without_sections_is_not_right(rt: HostRuntime) -> Result<(), Fail> {
    let bytes = image_of(rt.alloc(), &HEADER, &[HEADERS, CODE, BLOCK])?;
    let told = match ForeignImage::read(rt.alloc(), View::new(&bytes))? {
        Some(image) => is_thread_block_right(&image, &[]),
        None => true,
    };
    assert!(rt; !told);
    Ok(())
}
