//! C9: relocations that are not lawful, or whose value doesn't fit. An object links with a relocation of type NONE; that which is
//! checked has the relocation that is at fault.
use crate::tests::lines::{Row, assert_rows, lines_of};
use elf_model::InputFile;
use link_samples::links::{Change, File, linked_by};
use link_samples::objects::{NamedSymbol, Relocation, Section, relocatable};
use link_samples::one_object::{one_file, words_of};
use link_samples::parts::{
    ABSOLUTE_F, DATA, FOO, LOCAL, NO_F, NOTES, R_64, R_PC32, START, STOP_FOO, TEXT, THREAD_DATA,
    ZEROS_FOO,
};
use std::alloc::Global;
use std::test::Fail;

/// Sections and symbols of an object, the relocation that is at fault, and the line on it.
type Unlawful = (
    &'static [Section<'static>],
    &'static [NamedSymbol<'static>],
    Relocation,
    &'static str,
);

static UNLAWFUL: [Unlawful; 7] = [
    (
        &[TEXT],
        &[START, ABSOLUTE_F],
        Relocation(1, 0, 5, 2, 0),
        "a.o: .text+0x0: not a type of relocation that is linked (relocation 0 of section 4, R_X86_64_COPY, to symbol \
         2)\n",
    ),
    (
        &[TEXT],
        &[START, ABSOLUTE_F],
        Relocation(1, 0, 10, 2, 0),
        "a.o: .text+0x0: the value 0x100000000 for f does not fit the field at 0x401000 (relocation 0 of section 4, \
         R_X86_64_32, to symbol 2)\n",
    ),
    (
        &[TEXT],
        &[START, ABSOLUTE_F],
        Relocation(1, 6, R_PC32, 2, 0),
        "a.o: .text+0x6: the field is not inside its section (relocation 0 of section 4, R_X86_64_PC32, to symbol 2)\n",
    ),
    (
        &[TEXT],
        &[START, NO_F],
        Relocation(1, 0, R_64, 2, 0),
        "a.o: .text+0x0: f is not defined (relocation 0 of section 4, R_X86_64_64, to symbol 2)\n",
    ),
    (
        &[TEXT, NOTES],
        &[LOCAL, START],
        Relocation(1, 0, R_PC32, 1, 0),
        "a.o: .text+0x0: l is LOCAL in a section that is not loaded (relocation 0 of section 5, R_X86_64_PC32, to \
         symbol 1)\n",
    ),
    (
        &[TEXT, THREAD_DATA],
        &[LOCAL, START],
        Relocation(1, 0, R_PC32, 1, 0),
        "a.o: .text+0x0: l is thread-local, or not, against the relocation's type (relocation 0 of section 5, \
         R_X86_64_PC32, to symbol 1)\n",
    ),
    (
        &[TEXT, ZEROS_FOO, FOO],
        &[START, STOP_FOO],
        Relocation(3, 0, R_64, 2, 0),
        "a.o: foo+0x0: __stop_foo is a bound of an output name of several output sections (relocation 0 of section 6, \
         R_X86_64_64, to symbol 2)\n",
    ),
];

/// The object of a row, with a relocation in place of its own.
fn object_of(
    alloc: Global,
    row: &Unlawful,
    relocation: Relocation,
) -> Result<Vec<InputFile>, Fail> {
    let (sections, symbols, _, _) = row;
    let bytes = relocatable(alloc, sections, symbols, &[relocation])?;
    one_file(alloc, "a.o", &bytes)
}

/// The lines of where the check of a row's object fails, of the link of the one with type NONE.
fn unlawful_lines(alloc: Global, row: &Unlawful) -> Result<String, Fail> {
    let Relocation(section, offset, _, symbol, addend) = row.2;
    let words = words_of(alloc, "-s a.o")?;
    let files = object_of(alloc, row, Relocation(section, offset, 0, symbol, addend))?;
    let output = linked_by(alloc, &files, &words)??;
    let files = object_of(alloc, row, row.2)?;
    lines_of(alloc, &files, &words, &output.image, &output.map, 9)
}

const TO_ABSOLUTE: &[File] = &[File::Object(
    "a.o",
    &[TEXT],
    &[START, ABSOLUTE_F],
    &[Relocation(1, 0, 0, 2, 0)],
)];

/// Two definitions of `f`, as of which the thirteenth clause fails, and not the ninth.
const TWICE: &[NamedSymbol] = &[START, ABSOLUTE_F, ABSOLUTE_F];

static DEFINED_TWICE: [Row; 2] = [
    (
        TO_ABSOLUTE,
        Change::Files(&[File::Object(
            "a.o",
            &[TEXT],
            TWICE,
            &[Relocation(1, 1, R_64, 2, 0), Relocation(1, 0, R_64, 2, 0)],
        )]),
        "a.o: .text+0x0: relocation 1 of section 4, R_X86_64_64, to symbol 2 f: its field shares a byte with that of \
         a.o: .text+0x1: relocation 0 of section 4, R_X86_64_64, to symbol 2 f\n",
    ),
    (
        TO_ABSOLUTE,
        Change::Files(&[File::Object("a.o", &[TEXT], TWICE, &[])]),
        "clause C13 as a whole\n",
    ),
];

const WITH_DATA: &[File] = &[File::Object(
    "a.o",
    &[TEXT, DATA],
    &[START],
    &[Relocation(1, 0, 0, 1, 0), Relocation(2, 0, 0, 1, 0)],
)];

/// Fields of two sections at like offsets: those of the first share a byte, and that of the second is between them.
static OF_TWO_SECTIONS: [Row; 1] = [(
    WITH_DATA,
    Change::Files(&[File::Object(
        "a.o",
        &[TEXT, DATA],
        &[START],
        &[
            Relocation(1, 0, R_PC32, 1, 0),
            Relocation(2, 1, R_PC32, 1, 0),
            Relocation(1, 2, R_PC32, 1, 0),
        ],
    )]),
    "a.o: .text+0x0: relocation 0 of section 5, R_X86_64_PC32, to symbol 1 _start: its field shares a byte with that of \
     a.o: .text+0x2: relocation 1 of section 5, R_X86_64_PC32, to symbol 1 _start\n",
)];

#[test]
fn wrong_relocations_are_told(rt: HostRuntime) -> Result<(), Fail> {
    for (number, row) in UNLAWFUL.iter().enumerate() {
        let lines = unlawful_lines(rt.alloc(), row)?;
        assert_eq!(rt; lines.as_str(), row.3, "row {number}");
    }
    assert_rows(&rt, &DEFINED_TWICE)?;
    assert_rows(&rt, &OF_TWO_SECTIONS)
}
