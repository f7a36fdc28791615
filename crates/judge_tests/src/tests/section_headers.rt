//! Section headers that are true of an image, and such that aren't.
use crate::tests::images::{BLOCK, CODE, HEADER, HEADERS, image_of};
use byteview::View;
use elf_model::{
    FileHeader, SHF_ALLOC, SHF_EXECINSTR, SHF_TLS, SHF_WRITE, SHT_NOBITS, SHT_PROGBITS,
    SectionHeader,
};
use foreign_image::ForeignImage;
use std::alloc::{AllocError, Global};
use std::test::Fail;
use table_judge::{are_sections_true, has_tables, sections_of};

/// A file header that tells of two section headers behind the code.
const TABLED: FileHeader = FileHeader {
    e_shoff: 248,
    e_shentsize: 64,
    e_shnum: 2,
    ..HEADER
};

/// One that leaves the number of section headers to the first of them.
const COUNTED: FileHeader = FileHeader {
    e_shnum: 0,
    ..TABLED
};

/// The sixteen bytes of code.
const TEXT: SectionHeader = SectionHeader {
    sh_type: SHT_PROGBITS,
    sh_flags: SHF_ALLOC + SHF_EXECINSTR,
    sh_addr: 0x20_10e8,
    sh_offset: 232,
    sh_size: 16,
    sh_addralign: 1,
    ..SectionHeader::NULL
};

const ZEROS: SectionHeader = SectionHeader {
    sh_type: SHT_NOBITS,
    sh_flags: SHF_ALLOC + SHF_WRITE,
    sh_addr: 0x20_10f8,
    ..TEXT
};

/// Code, zeros, thread-local zeros, which are in no segment, the file's first bytes, and the null section.
static RIGHT: [SectionHeader; 5] = [
    TEXT,
    ZEROS,
    SectionHeader {
        sh_flags: SHF_ALLOC + SHF_WRITE + SHF_TLS,
        sh_addr: 0x30_0000,
        ..ZEROS
    },
    SectionHeader {
        sh_flags: 0,
        sh_addr: 0,
        sh_offset: 0,
        ..TEXT
    },
    SectionHeader::NULL,
];

/// Another address, another offset, a size behind the file's part, zeros behind memory, rights that the first segment lacks, bytes
/// behind the file.
static WRONG: [SectionHeader; 6] = [
    SectionHeader {
        sh_addr: 0x20_10e0,
        ..TEXT
    },
    SectionHeader {
        sh_offset: 224,
        ..TEXT
    },
    SectionHeader {
        sh_size: 17,
        ..TEXT
    },
    SectionHeader {
        sh_size: 17,
        ..ZEROS
    },
    SectionHeader {
        sh_addr: 0x20_0000,
        sh_offset: 0,
        ..TEXT
    },
    SectionHeader {
        sh_flags: 0,
        sh_offset: 370,
        ..TEXT
    },
];

/// An image with a null section header, of a size, and this one.
fn image_with(
    alloc: Global,
    header: &FileHeader,
    count: u64,
    section: &SectionHeader,
) -> Result<Vec<u8>, AllocError> {
    let mut image = image_of(alloc, header, &[HEADERS, CODE, BLOCK])?;
    let mut record = [0; 64];
    let first = SectionHeader {
        sh_size: count,
        ..SectionHeader::NULL
    };
    first.write_to(&mut record);
    image.extend_from_slice(&record)?;
    section.write_to(&mut record);
    image.extend_from_slice(&record)?;
    Ok(image)
}

/// Whether the section headers of an image are true; None where they aren't read.
fn judged(
    alloc: Global,
    header: &FileHeader,
    section: &SectionHeader,
) -> Result<Option<bool>, AllocError> {
    judged_of(alloc, header, 0, section)
}

/// The same where the first header has a size.
fn judged_of(
    alloc: Global,
    header: &FileHeader,
    count: u64,
    section: &SectionHeader,
) -> Result<Option<bool>, AllocError> {
    let bytes = image_with(alloc, header, count, section)?;
    let Some(image) = ForeignImage::read(alloc, View::new(&bytes))? else {
        return Ok(None);
    };
    if !has_tables(&image) {
        return Ok(None);
    }
    match sections_of(alloc, &image)? {
        Some(headers) => Ok(Some(are_sections_true(&image, &headers))),
        None => Ok(None),
    }
}

#[test]
fn true_sections_are_right(rt: HostRuntime) -> Result<(), Fail> {
    let mut all = true;
    for section in &RIGHT {
        all = judged(rt.alloc(), &TABLED, section)? == Some(true) && all;
    }
    assert!(rt; all);
    Ok(())
}

#[test]
fn other_sections_are_not(rt: HostRuntime) -> Result<(), Fail> {
    let mut all = true;
    for section in &WRONG {
        all = judged(rt.alloc(), &TABLED, section)? == Some(false) && all;
    }
    assert!(rt; all);
    Ok(())
}

/// Where e_shnum is 0 the first header's size is their number (System V gABI 4, e_shnum): two, one of which is true and one isn't;
/// three, of which the last is behind the file; and more than there can be.
#[test]
fn first_headers_tell_how_many_there_are(rt: HostRuntime) -> Result<(), Fail> {
    let told = (
        judged_of(rt.alloc(), &COUNTED, 2, &TEXT)?,
        judged_of(rt.alloc(), &COUNTED, 2, &WRONG[0])?,
        judged_of(rt.alloc(), &COUNTED, 3, &TEXT)?,
        judged_of(rt.alloc(), &COUNTED, u64::MAX, &TEXT)?,
    );
    assert!(rt; told == (Some(true), Some(false), None, None));
    Ok(())
}

/// Headers behind the file's end, and none at all.
#[test]
fn tables_outside_the_file_are_not_read(rt: HostRuntime) -> Result<(), Fail> {
    let behind = FileHeader {
        e_shoff: 249,
        ..TABLED
    };
    let first = judged(rt.alloc(), &behind, &TEXT)?;
    let second = judged(rt.alloc(), &COUNTED, &TEXT)?;
    assert!(rt; (first, second) == (None, None));
    Ok(())
}
