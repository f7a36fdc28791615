//! The source lines that explanations tell of relocations, in an object with a line table (DWARF 3). Which lines it says was read
//! by llvm-dwarfdump: from offset 0 on a.c:3, from 4 on line 7 of a file of `inc` with a line feed in its name, at 8 a.c:4.
use crate::tests::lines::lines_of;
use link_samples::links::{File, files_of};
use link_samples::objects::{NamedSymbol, Relocation, Section};
use link_samples::parts::{NO_F, NOTES, R_64, R_PC32, START, TEXT};
use std::test::Fail;

const LINES: Section<'static> = Section {
    name: ".debug_line",
    sh_addralign: 1,
    bytes: b"\x4a\0\0\0\x03\0\x23\0\0\0\x01\x01\xfb\x0e\x0a\0\x01\x01\x01\x01\0\0\0\x01inc\0\0a.c\0\0\0\0h\x0a.h\0\x01\0\0\0\
        \0\x09\x02\0\0\0\0\0\0\0\0\x03\x02\x01\x04\x02\x02\x04\x03\x04\x01\x04\x01\x02\x04\x03\x7d\x01\x02\x01\0\x01\x01",
    ..NOTES
};

const NO_G: NamedSymbol<'static> = NamedSymbol { name: "g", ..NO_F };

/// The address at the beginning of the line table's sequence, that of `_start`.
const ADDRESS: Relocation = Relocation(2, 48, R_64, 1, 0);

/// Files that `a.o` links, and what is said of them.
static ROWS: [(&[File], &str); 3] = [
    (
        &[File::Object(
            "a.o",
            &[TEXT, LINES],
            &[START, NO_F, NO_G],
            &[
                ADDRESS,
                Relocation(1, 0, R_PC32, 2, 0),
                Relocation(1, 4, R_PC32, 3, 0),
            ],
        )],
        "a.o: .text+0x0 in _start (a.c:3): f is not defined (relocation 0 of section 5, R_X86_64_PC32, to symbol 2)\n\
         a.o: .text+0x4 in _start (inc/h\\x0a.h:7): g is not defined (relocation 1 of section 5, R_X86_64_PC32, to symbol \
         3)\n",
    ),
    (
        &[File::Object(
            "a.o",
            &[TEXT, LINES],
            &[START, NO_F],
            &[ADDRESS, Relocation(1, 8, 14, 1, 0)],
        )],
        "a.o: .text+0x8 in _start (a.c:4): the value 0x401000 for _start does not fit the field at 0x401008, which takes \
         -0x80 to 0xff (relocation 0 of section 5, R_X86_64_8, to symbol 1 of .text)\n",
    ),
    // The line table doesn't say which section it is of.
    (
        &[File::Object(
            "a.o",
            &[TEXT, LINES],
            &[START, NO_F],
            &[Relocation(1, 4, R_PC32, 2, 0)],
        )],
        "a.o: .text+0x4 in _start: f is not defined (relocation 0 of section 5, R_X86_64_PC32, to symbol 2)\n",
    ),
];

#[test]
fn source_lines_are_told(rt: HostRuntime) -> Result<(), Fail> {
    for (files, wanted) in &ROWS {
        let files = files_of(rt.alloc(), files)?;
        let text = lines_of(rt.alloc(), &files, "a.o", 9)?;
        assert_eq!(rt; text.as_str(), *wanted);
    }
    Ok(())
}
