//! Links that use names of the linker's for where the sections of an output name begin and end.
use elf_model::{InputFile, LinkError, SHF_ALLOC, SHF_WRITE, SHT_NOBITS, SHT_PROGBITS};
use ld_main::{Clause, Output, Verdict};
use link_samples::links::{
    Change, File, Judged, Row as LinkRow, Wanted as LinkWanted, first_misjudged, first_wrong,
    has_bytes, linked,
};
use link_samples::objects::{NamedSymbol, Relocation, Section, object, relocatable};
use link_samples::parts::{DATA, NO_F, R_64, START, TEXT};
use std::alloc::Global;
use std::test::Fail;

/// What a link comes to: the low bytes of the address of the name, or a refusal.
#[derive(Clone, Copy)]
enum Wanted {
    Address([u8; 3]),
    Mixed,
    Undefined,
}

/// A text, and a section of 4 bytes of a type, with flags.
#[derive(Clone, Copy)]
struct First {
    name: &'static str,
    sh_type: u32,
    sh_flags: u64,
}

const WRITABLE: First = First {
    name: "foo",
    sh_type: SHT_PROGBITS,
    sh_flags: SHF_WRITE,
};

const CONSTANT: First = First {
    sh_flags: 0,
    ..WRITABLE
};

const ZEROS: First = First {
    sh_type: SHT_NOBITS,
    ..WRITABLE
};

/// The first object's section; the name of the second one's, which is writable and has 8 bytes; the binding and the name
/// of the symbol whose address these are; and what is wanted.
type Row = (First, &'static str, u8, &'static str, Wanted);

static ROWS: [Row; 18] = [
    (
        WRITABLE,
        "foo",
        0x10,
        "__stop_foo",
        Wanted::Address([0x10, 0x20, 0x40]),
    ),
    (
        WRITABLE,
        "foo",
        0x10,
        "__start_foo",
        Wanted::Address([0, 0x20, 0x40]),
    ),
    // Of two output sections: one isn't writable, or has no bytes in the file.
    (CONSTANT, "foo", 0x10, "__stop_foo", Wanted::Mixed),
    (CONSTANT, "foo", 0x10, "__start_foo", Wanted::Mixed),
    (ZEROS, "foo", 0x10, "__stop_foo", Wanted::Mixed),
    (CONSTANT, "foo", 0x20, "__stop_foo", Wanted::Mixed),
    // One of the two sections; none; none, and WEAK.
    (
        First {
            name: "bar",
            ..CONSTANT
        },
        "foo",
        0x10,
        "__start_foo",
        Wanted::Address([0, 0x20, 0x40]),
    ),
    (
        First {
            name: "bar",
            ..CONSTANT
        },
        "baz",
        0x10,
        "__stop_foo",
        Wanted::Undefined,
    ),
    (
        First {
            name: "bar",
            ..CONSTANT
        },
        "baz",
        0x20,
        "__stop_foo",
        Wanted::Address([0, 0, 0]),
    ),
    // Identifiers, and names that are none.
    (
        First {
            name: "_1A",
            ..WRITABLE
        },
        "_1A",
        0x10,
        "__stop__1A",
        Wanted::Address([0x10, 0x20, 0x40]),
    ),
    (
        First {
            name: "1a",
            ..WRITABLE
        },
        "1a",
        0x10,
        "__start_1a",
        Wanted::Undefined,
    ),
    (
        First {
            name: "foo.x",
            ..WRITABLE
        },
        "foo.x",
        0x10,
        "__start_foo.x",
        Wanted::Undefined,
    ),
    (WRITABLE, "foo", 0x10, "__start_", Wanted::Undefined),
    // The arrays of functions, whose names are always defined.
    (
        First {
            name: ".init_array",
            ..WRITABLE
        },
        ".init_array",
        0x10,
        "__init_array_end",
        Wanted::Address([0x10, 0x20, 0x40]),
    ),
    (
        First {
            name: ".init_array",
            ..CONSTANT
        },
        ".init_array",
        0x10,
        "__init_array_start",
        Wanted::Mixed,
    ),
    (
        First {
            name: ".fini_array.x",
            ..WRITABLE
        },
        ".fini_array",
        0x10,
        "__fini_array_start",
        Wanted::Address([0, 0x20, 0x40]),
    ),
    (
        First {
            name: ".preinit_array",
            ..WRITABLE
        },
        ".data",
        0x10,
        "__preinit_array_end",
        Wanted::Address([4, 0x20, 0x40]),
    ),
    (
        First {
            name: ".data",
            ..WRITABLE
        },
        ".data",
        0x10,
        "__init_array_start",
        Wanted::Address([0, 0, 0]),
    ),
];

/// The first object's section.
fn first_section(first: First) -> Section<'static> {
    let in_file = first.sh_type == SHT_PROGBITS;
    Section {
        name: first.name,
        sh_type: first.sh_type,
        sh_flags: SHF_ALLOC | first.sh_flags,
        sh_addralign: 1,
        bytes: if in_file { &[0; 4] } else { &[] },
        memory: 4,
        signature: 0,
    }
}

/// The files `a.o`, a text and the first section, and `b.o`, the second one, which is the address of a symbol.
fn files_of(
    alloc: Global,
    first: First,
    second: &str,
    symbol: NamedSymbol<'_>,
) -> Result<Vec<InputFile>, Fail> {
    let mut files = Vec::new(alloc);
    files.push(InputFile {
        name: String::from_str(alloc, "a.o")?,
        bytes: object(alloc, &[TEXT, first_section(first)], &[START])?,
    })?;
    let second = Section {
        name: second,
        ..DATA
    };
    let address = Relocation(1, 0, R_64, 1, 0);
    files.push(InputFile {
        name: String::from_str(alloc, "b.o")?,
        bytes: relocatable(alloc, &[second], &[symbol], &[address])?,
    })?;
    Ok(files)
}

/// Where the second section's bytes stand in the image.
fn offset_of(first: First) -> usize {
    if first.sh_type == SHT_PROGBITS && first.sh_flags == SHF_WRITE {
        0x2008
    } else {
        0x2000
    }
}

fn is_as_wanted(row: &Row, answer: &Result<Output, LinkError>) -> bool {
    let (first, _, _, name, wanted) = row;
    match (wanted, answer) {
        (Wanted::Address(bytes), Ok(output)) => {
            has_bytes(&output.image, offset_of(*first), bytes)
        }
        (Wanted::Mixed, Err(LinkError::MixedSection)) => true,
        (Wanted::Undefined, Err(LinkError::Undefined(of))) => of.as_slice() == name.as_bytes(),
        _ => false,
    }
}

/// What the link of a row answers.
fn answer_of(alloc: Global, row: &Row) -> Result<Result<Output, LinkError>, Fail> {
    let (first, second, st_info, name, _) = *row;
    let symbol = NamedSymbol {
        name,
        st_info,
        ..NO_F
    };
    let files = files_of(alloc, first, second, symbol)?;
    linked(alloc, &files, "a.o b.o")
}

#[test]
fn names_stand_for_the_ends_of_output_sections(rt: HostRuntime) -> Result<(), Fail> {
    for (number, row) in ROWS.iter().enumerate() {
        let answer = answer_of(rt.alloc(), row)?;
        assert!(rt; is_as_wanted(row, &answer), "row {number}");
    }
    Ok(())
}

/// `foo` of 4 bytes: writable, constant, and without bytes in the file; and the writable one of 8 bytes.
const FOO: Section<'static> = Section {
    name: "foo",
    sh_addralign: 1,
    bytes: &[0; 4],
    ..DATA
};

const CONSTANT_FOO: Section<'static> = Section {
    sh_flags: SHF_ALLOC,
    ..FOO
};

const ZEROS_FOO: Section<'static> = Section {
    sh_type: SHT_NOBITS,
    bytes: &[],
    memory: 4,
    ..FOO
};

const FOO_8: Section<'static> = Section {
    name: "foo",
    ..DATA
};

const STOP: NamedSymbol<'static> = NamedSymbol {
    name: "__stop_foo",
    ..NO_F
};

/// That one as the address of symbol 1, the bound.
const STOPPED: File = File::Object("b.o", &[FOO_8], &[STOP], &[Relocation(1, 0, R_64, 1, 0)]);

const STOP_MAP: &[u8] = b"ldmap 2\n\
    object 0 0 0 a.o\n\
    object 1 1 0 b.o\n\
    place 0000000000401000 9 0 1 .text\n\
    place 0000000000402000 4 0 2 foo\n\
    place 0000000000402008 8 1 1 foo\n\
    symbol 0000000000402010 linker __stop_foo\n\
    symbol 0000000000401000 strong 0 1 _start\n\
    end\n";

static LINKS: [LinkRow; 2] = [
    // A bound has a line.
    (
        &[File::Object("a.o", &[TEXT, FOO], &[START], &[]), STOPPED],
        "a.o b.o",
        LinkWanted::Linked(0, &[], STOP_MAP),
    ),
    // An object may define a bound of several output sections.
    (
        &[
            File::Object("a.o", &[TEXT, CONSTANT_FOO], &[START], &[]),
            STOPPED,
            File::Object(
                "c.o",
                &[],
                &[NamedSymbol {
                    st_shndx: 0xfff1,
                    st_value: 0x1234,
                    ..STOP
                }],
                &[],
            ),
        ],
        "a.o b.o c.o",
        LinkWanted::Linked(0, &[(0x2000, &[0x34, 0x12, 0, 0])], b""),
    ),
];

/// A text, `foo` without bytes in the file, and one with 8 bytes.
const MIXED: &[Section<'static>] = &[TEXT, ZEROS_FOO, FOO_8];

/// A bound of several output sections fails the ninth clause: the link of an object without its relocation, judged where
/// the object has it.
static JUDGED: [Judged; 1] = [(
    Change::Files(&[File::Object(
        "a.o",
        MIXED,
        &[START, STOP],
        &[Relocation(3, 0, R_64, 2, 0)],
    )]),
    Verdict::No(Clause::C9),
)];

const RIGHT: &[File] = &[File::Object("a.o", MIXED, &[START, STOP], &[Relocation(3, 0, 0, 2, 0)])];

#[test]
fn bounds_have_lines_and_one_output_section(rt: HostRuntime) -> Result<(), Fail> {
    let linked = first_wrong(rt.alloc(), &LINKS)?;
    let judged = first_misjudged(rt.alloc(), RIGHT, "a.o", &JUDGED)?;
    assert_eq!(rt; [linked, judged], [None, None]);
    Ok(())
}
