//! Sections that a link has: without --gc-sections all but those with SHF_EXCLUDE, with it at least those that stay (ld(1),
//! --gc-sections; System V gABI 4, "Section Groups", SHF_LINK_ORDER).
ghost use Rattle.check_load.specs.Numbered.{AreNumbered};

use crate::tests::sample_objects::{Named, Part, file, loaded, object, put};
use check_link::Names;
use check_load::{Loaded, NameTable, NamedObjects};
use command::{Plan, read_words};
use elf_model::{
    DropLine, SHF_ALLOC, SHF_EXECINSTR, SHF_LINK_ORDER, SHF_WRITE, SHT_FINI_ARRAY, SHT_GROUP,
    SHT_INIT_ARRAY, SHT_NOBITS, SHT_NOTE, SHT_PREINIT_ARRAY, SHT_PROGBITS, SHT_RELA,
};
use keep_judge::are_sections_kept;
use link_fields::Drops;
use std::alloc::{AllocError, Global};
use std::test::Fail;

/// SHF_EXCLUDE and SHF_GNU_RETAIN of GNU ld.
const EXCLUDE: u64 = 0x8000_0000;

const RETAIN: u64 = 0x20_0000;

const CODE: u64 = SHF_ALLOC + SHF_EXECINSTR;

const DATA: u64 = SHF_ALLOC + SHF_WRITE;

const START: Named = Named("_start", 0x12, 1, 0);

/// Code and data, and behind them two sections that no image has.
static PARTS: [Part; 4] = [
    Part(".text", SHT_PROGBITS, CODE, 1, 8),
    Part(".rodata", SHT_PROGBITS, SHF_ALLOC, 1, 8),
    Part(".left", SHT_PROGBITS, SHF_ALLOC + EXCLUDE, 1, 8),
    Part(".right", SHT_PROGBITS, SHF_ALLOC + EXCLUDE, 1, 8),
];

/// The lines of sections of the first object that are left out, by their numbers.
const S1: DropLine = DropLine {
    object: 0,
    section: 1,
};

const S2: DropLine = DropLine {
    object: 0,
    section: 2,
};

const S3: DropLine = DropLine {
    object: 0,
    section: 3,
};

const S4: DropLine = DropLine {
    object: 0,
    section: 4,
};

const S5: DropLine = DropLine {
    object: 0,
    section: 5,
};

const S6: DropLine = DropLine {
    object: 0,
    section: 6,
};

const S7: DropLine = DropLine {
    object: 0,
    section: 7,
};

/// Whether the sections of objects are right by a plan, where some are left out.
fn are_kept<'a>(
    alloc: Global,
    objects: &[Loaded<'a>],
    table: NameTable<'a>,
    plan: &Plan<'_>,
    collects: bool,
    drops: &Drops<'_>,
) -> Result<bool, AllocError>
    requires { AreNumbered table objects.now }
{
    let names = Names::new(alloc, objects, table)?;
    are_sections_kept(alloc, &names, plan, collects, drops)
}

/// Whether the sections of an object are right by a line of words, where some are left out.
fn is_right_by(
    alloc: Global,
    bytes: &[u8],
    line: &str,
    collects: bool,
    drops: &Drops<'_>,
) -> Result<bool, Fail> {
    let files = file(alloc, Vec::from_slice(alloc, bytes)?)?;
    let mut words = Vec::new(alloc);
    for word in line.split_ascii_whitespace() {
        words.push(String::from_str(alloc, word)?)?;
    }
    let plan = read_words(alloc, &words)?;
    let NamedObjects { objects, names } = loaded(alloc, &words, &files)?;
    Ok(are_kept(alloc, &objects, names, &plan, collects, drops)?)
}

/// Whether the right sections of the object are left out.
fn is_right(alloc: Global, drops: &Drops<'_>) -> Result<bool, Fail> {
    let bytes = object(alloc, &PARTS, &[START])?;
    is_right_by(alloc, &bytes, "a.o", false, drops)
}

#[test]
fn both_sections_that_no_image_has_are_left_out(rt: HostRuntime) -> Result<(), Fail> {
    assert!(rt; is_right(rt.alloc(), &Drops::new(&[S3, S4]))?);
    Ok(())
}

#[test]
fn sections_that_no_image_has_may_not_be_there(rt: HostRuntime) -> Result<(), Fail> {
    let alloc = rt.alloc();
    assert!(rt; !is_right(alloc, &Drops::new(&[]))?);
    assert!(rt; !is_right(alloc, &Drops::new(&[S3]))?);
    assert!(rt; !is_right(alloc, &Drops::new(&[S4]))?);
    let bytes = object(alloc, &PARTS, &[START])?;
    assert!(rt; !is_right_by(alloc, &bytes, "a.o", true, &Drops::new(&[]))?);
    assert!(rt; !is_right_by(alloc, &bytes, "a.o", true, &Drops::new(&[S3]))?);
    assert!(rt; !is_right_by(alloc, &bytes, "a.o", true, &Drops::new(&[S4]))?);
    Ok(())
}

#[test]
fn no_other_section_may_be_left_out(rt: HostRuntime) -> Result<(), Fail> {
    assert!(rt; !is_right(rt.alloc(), &Drops::new(&[S1, S3, S4]))?);
    assert!(rt; !is_right(rt.alloc(), &Drops::new(&[S2, S3, S4]))?);
    Ok(())
}

/// Sections, and whether --gc-sections keeps each for itself.
static KINDS: [(Part, bool); 18] = [
    (Part(".text.f", SHT_PROGBITS, CODE, 1, 8), false),
    (Part(".data.f", SHT_PROGBITS, DATA, 1, 8), false),
    (Part(".bss.f", SHT_NOBITS, DATA, 1, 8), false),
    (Part(".initial", SHT_PROGBITS, CODE, 1, 8), false),
    (Part(".x", 0x7000_0001, SHF_ALLOC, 1, 8), false),
    (Part(".init", SHT_PROGBITS, CODE, 1, 8), true),
    (Part(".fini.f", SHT_PROGBITS, CODE, 1, 8), true),
    (Part(".ctors", SHT_PROGBITS, DATA, 8, 8), true),
    (Part(".dtors.9", SHT_PROGBITS, DATA, 8, 8), true),
    (Part(".init_array.7", SHT_PROGBITS, DATA, 8, 8), true),
    (Part(".fini_array", SHT_PROGBITS, DATA, 8, 8), true),
    (Part(".preinit_array", SHT_PROGBITS, DATA, 8, 8), true),
    (Part(".eh_frame", SHT_PROGBITS, SHF_ALLOC, 8, 8), true),
    (Part(".y", SHT_INIT_ARRAY, DATA, 8, 8), true),
    (Part(".y", SHT_FINI_ARRAY, DATA, 8, 8), true),
    (Part(".y", SHT_PREINIT_ARRAY, DATA, 8, 8), true),
    (Part(".note.y", SHT_NOTE, SHF_ALLOC, 4, 16), true),
    (Part(".y", 0x6000_0001, SHF_ALLOC, 1, 8), true),
];

#[test]
fn sections_stay_by_their_names_and_types(rt: HostRuntime) -> Result<(), Fail> {
    for (part, stays) in &KINDS {
        let kept = Part(part.0, part.1, part.2 + RETAIN, part.3, part.4);
        for (this, wanted) in [(*part, *stays), (kept, true)] {
            let parts = [PARTS[0], PARTS[1], this, this];
            let bytes = object(rt.alloc(), &parts, &[START])?;
            assert!(rt;
                is_right_by(rt.alloc(), &bytes, "a.o", true, &Drops::new(&[S3]))? != wanted,
                "{}",
                this.0
            );
            assert!(rt;
                is_right_by(rt.alloc(), &bytes, "a.o", true, &Drops::new(&[S4]))? != wanted,
                "{}",
                this.0
            );
            assert!(rt;
                is_right_by(rt.alloc(), &bytes, "a.o", true, &Drops::new(&[S2, S3]))? != wanted,
                "{}",
                this.0
            );
            assert!(rt;
                is_right_by(rt.alloc(), &bytes, "a.o", true, &Drops::new(&[S3, S4]))? != wanted,
                "{}",
                this.0
            );
            assert!(rt; is_right_by(rt.alloc(), &bytes, "a.o", true, &Drops::new(&[S2]))?);
        }
    }
    Ok(())
}

#[test]
fn definitions_of_root_names_stay(rt: HostRuntime) -> Result<(), Fail> {
    let parts = [
        PARTS[0],
        Part(".text.f", SHT_PROGBITS, CODE, 1, 8),
        Part(".text.g", SHT_PROGBITS, CODE, 1, 8),
    ];
    let symbols = [START, Named("f", 0x12, 2, 0), Named("g", 0x12, 3, 0)];
    let bytes = object(rt.alloc(), &parts, &symbols)?;
    let alloc = rt.alloc();
    assert!(rt; is_right_by(alloc, &bytes, "a.o", true, &Drops::new(&[S2, S3]))?);
    assert!(rt; !is_right_by(alloc, &bytes, "a.o", true, &Drops::new(&[S1]))?);
    assert!(rt; is_right_by(alloc, &bytes, "a.o -e f", true, &Drops::new(&[S1, S3]))?);
    assert!(rt; !is_right_by(alloc, &bytes, "a.o -e f", true, &Drops::new(&[S1, S2]))?);
    assert!(rt; !is_right_by(alloc, &bytes, "a.o -u f", true, &Drops::new(&[S2]))?);
    assert!(rt; !is_right_by(alloc, &bytes, "a.o -u f -u g", true, &Drops::new(&[S3]))?);
    assert!(rt; is_right_by(alloc, &bytes, "a.o -u f -u none", true, &Drops::new(&[S3]))?);
    Ok(())
}

/// The offset of the header of a section.
fn header_of(bytes: &[u8], section: usize) -> Result<usize, Fail> {
    let number = bytes.get(40..48).ok_or("too short")?;
    let at = usize::try_from(u64::from_le_bytes(number.try_into()?))?;
    Ok(at.saturating_add(section.saturating_mul(64)))
}

/// The offset of a section's bytes.
fn bytes_of(bytes: &[u8], section: usize) -> Result<usize, Fail> {
    let from = header_of(bytes, section)?.saturating_add(24);
    let number = bytes.get(from..from.saturating_add(8)).ok_or("too short")?;
    Ok(usize::try_from(u64::from_le_bytes(number.try_into()?))?)
}

#[test]
fn linked_sections_stay_with_theirs(rt: HostRuntime) -> Result<(), Fail> {
    let alloc = rt.alloc();
    let linked = SHF_ALLOC + SHF_LINK_ORDER;
    let parts = [
        PARTS[0],
        Part(".text.f", SHT_PROGBITS, CODE, 1, 8),
        Part(".of_f", SHT_PROGBITS, linked, 1, 8),
        Part(".of_start", SHT_PROGBITS, linked, 1, 8),
    ];
    let mut bytes = object(alloc, &parts, &[START])?;
    for (section, to) in [(3, 2), (4, 1)] {
        let header = header_of(&bytes, section)?;
        put(&mut bytes, header.saturating_add(40), to, 4);
    }
    assert!(rt; is_right_by(alloc, &bytes, "a.o", true, &Drops::new(&[]))?);
    assert!(rt; is_right_by(alloc, &bytes, "a.o", true, &Drops::new(&[S2, S3]))?);
    assert!(rt; !is_right_by(alloc, &bytes, "a.o", true, &Drops::new(&[S2]))?);
    assert!(rt; !is_right_by(alloc, &bytes, "a.o", true, &Drops::new(&[S3]))?);
    assert!(rt; !is_right_by(alloc, &bytes, "a.o", true, &Drops::new(&[S2, S3, S4]))?);
    Ok(())
}

#[test]
fn groups_stay_or_go_as_wholes(rt: HostRuntime) -> Result<(), Fail> {
    let alloc = rt.alloc();
    let parts = [
        PARTS[0],
        Part(".text.f", SHT_PROGBITS, CODE, 1, 8),
        Part(".data.f", SHT_PROGBITS, DATA, 1, 8),
        Part(".note.f", SHT_NOTE, SHF_ALLOC, 4, 16),
        Part(".group", SHT_GROUP, 0, 4, 16),
        Part(".text.g", SHT_PROGBITS, CODE, 1, 8),
        Part(".data.g", SHT_PROGBITS, DATA + EXCLUDE, 1, 8),
        Part(".group", SHT_GROUP, 0, 4, 12),
    ];
    let symbols = [START, Named("f", 0x12, 2, 0), Named("g", 0x12, 6, 0)];
    let mut bytes = object(alloc, &parts, &symbols)?;
    for (section, signature, members) in [(5, 2, [2, 3, 4].as_slice()), (8, 3, &[6, 7])] {
        let header = header_of(&bytes, section)?;
        put(&mut bytes, header.saturating_add(40), 9, 4);
        put(&mut bytes, header.saturating_add(44), signature, 4);
        put(&mut bytes, header.saturating_add(56), 4, 8);
        let mut at = bytes_of(&bytes, section)?;
        put(&mut bytes, at, 1, 4);
        for member in members {
            at = at.saturating_add(4);
            put(&mut bytes, at, *member, 4);
        }
    }
    assert!(rt; is_right_by(alloc, &bytes, "a.o", true, &Drops::new(&[S7]))?);
    assert!(rt; is_right_by(alloc, &bytes, "a.o", true, &Drops::new(&[S2, S3, S4, S7]))?);
    assert!(rt; is_right_by(alloc, &bytes, "a.o", true, &Drops::new(&[S6, S7]))?);
    assert!(rt;
        is_right_by(
            alloc,
            &bytes,
            "a.o",
            true,
            &Drops::new(&[S2, S3, S4, S6, S7])
        )?
    );
    assert!(rt; !is_right_by(alloc, &bytes, "a.o", true, &Drops::new(&[S2, S7]))?);
    assert!(rt; !is_right_by(alloc, &bytes, "a.o", true, &Drops::new(&[S2, S3, S7]))?);
    assert!(rt; !is_right_by(alloc, &bytes, "a.o", true, &Drops::new(&[S4, S7]))?);
    assert!(rt;
        !is_right_by(
            alloc,
            &bytes,
            "a.o -u f",
            true,
            &Drops::new(&[S2, S3, S4, S7])
        )?
    );
    Ok(())
}

#[test]
fn sections_stay_whose_bounds_are_asked_for(rt: HostRuntime) -> Result<(), Fail> {
    let alloc = rt.alloc();
    let parts = [
        PARTS[0],
        Part("one", SHT_PROGBITS, DATA, 1, 8),
        Part("two", SHT_PROGBITS, DATA, 1, 8),
        Part("one", SHT_PROGBITS, DATA, 1, 8),
        Part(".text.f", SHT_PROGBITS, CODE, 1, 8),
        Part(".rela.text", SHT_RELA, 0, 8, 24),
        Part(".rela.text.f", SHT_RELA, 0, 8, 24),
    ];
    let symbols = [
        START,
        Named("__stop_one", 0x10, 0, 0),
        Named("__start_two", 0x10, 0, 0),
    ];
    let mut bytes = object(alloc, &parts, &symbols)?;
    for (section, target, symbol) in [(6, 1, 2), (7, 5, 3)] {
        let header = header_of(&bytes, section)?;
        put(&mut bytes, header.saturating_add(40), 8, 4);
        put(&mut bytes, header.saturating_add(44), target, 4);
        put(&mut bytes, header.saturating_add(56), 24, 8);
        let entry = bytes_of(&bytes, section)?.saturating_add(8);
        put(&mut bytes, entry, 2, 4);
        put(&mut bytes, entry.saturating_add(4), symbol, 4);
    }
    assert!(rt; is_right_by(alloc, &bytes, "a.o", true, &Drops::new(&[]))?);
    assert!(rt; is_right_by(alloc, &bytes, "a.o", true, &Drops::new(&[S3, S5]))?);
    assert!(rt; !is_right_by(alloc, &bytes, "a.o", true, &Drops::new(&[S3]))?);
    assert!(rt; !is_right_by(alloc, &bytes, "a.o", true, &Drops::new(&[S2, S3, S5]))?);
    assert!(rt; !is_right_by(alloc, &bytes, "a.o", true, &Drops::new(&[S4, S5]))?);
    Ok(())
}
