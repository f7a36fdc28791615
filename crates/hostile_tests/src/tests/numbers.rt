//! Numbers of a file at which a sum or a product would wrap.
use elf_model::LinkError;
use ld_main::Output;
use link_samples::links::{File, Row, Wanted, first_wrong, is_as_wanted, linked_bytes};
use link_samples::objects::Section;
use link_samples::parts::{BSS, START, TEXT};
use link_samples::vectors::OBJECT;
use std::alloc::Global;
use std::test::Fail;

/// Bytes at offsets of the object of `vectors`, and what becomes of its link: sh_offset, sh_size and sh_name of
/// `.text`, e_shoff, and the size of the symbol table.
static NUMBERS: [(usize, &[u8], Wanted); 6] = [
    (
        264,
        &[0xff; 8],
        Wanted::Refused("BadObject (4): BadSectionRange (7)"),
    ),
    (
        272,
        &[0xff; 8],
        Wanted::Refused("BadObject (4): BadSectionRange (7)"),
    ),
    (
        240,
        &[0xff; 4],
        Wanted::Refused("BadObject (4): BadString (8)"),
    ),
    (
        40,
        &[0xc0, 0xff, 0xff, 0xff, 0xff, 0xff, 0xff, 0xff],
        Wanted::Refused("BadObject (4): BadSectionTable (6)"),
    ),
    (
        40,
        &[0xff; 8],
        Wanted::Refused("BadObject (4): BadSectionTable (6)"),
    ),
    (
        336,
        &[0xf0, 0xff, 0xff, 0xff, 0xff, 0xff, 0xff, 0xff],
        Wanted::Refused("BadObject (4): BadSectionRange (7)"),
    ),
];

/// The link of the object of `vectors` with other bytes at an offset.
fn linked_with(alloc: Global, at: usize, bytes: &[u8]) -> Result<Result<Output, LinkError>, Fail> {
    let mut object = Vec::from_slice(alloc, &OBJECT)?;
    for (offset, byte) in bytes.iter().enumerate() {
        *object
            .get_mut(at.saturating_add(offset))
            .ok_or("the object")? = *byte;
    }
    linked_bytes(alloc, object)
}

#[test]
fn numbers_of_an_object_do_not_wrap(rt: HostRuntime) -> Result<(), Fail> {
    for (at, bytes, wanted) in &NUMBERS {
        let answer = linked_with(rt.alloc(), *at, bytes)?;
        assert!(rt; is_as_wanted(rt.alloc(), &answer, wanted)?, "{at}");
    }
    Ok(())
}

/// Zeros in memory up to the last address, with both alignments of which one adds to it.
static ZEROS: [Row; 2] = [
    (
        &[File::Object(
            "a.o",
            &[
                TEXT,
                Section {
                    sh_addralign: 1,
                    memory: u64::MAX,
                    ..BSS
                },
            ],
            &[START],
            &[],
        )],
        "a.o",
        Wanted::Refused("TooLarge (20)"),
    ),
    (
        &[File::Object(
            "a.o",
            &[
                TEXT,
                Section {
                    memory: u64::MAX,
                    ..BSS
                },
                BSS,
            ],
            &[START],
            &[],
        )],
        "a.o",
        Wanted::Refused("TooLarge (20)"),
    ),
];

#[test]
fn sizes_in_memory_do_not_wrap(rt: HostRuntime) -> Result<(), Fail> {
    assert_eq!(rt; first_wrong(rt.alloc(), &ZEROS)?, None);
    Ok(())
}
