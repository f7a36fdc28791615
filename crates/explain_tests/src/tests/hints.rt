//! What is told beside a fault: names that are like those which nothing defines, all names that have two definitions, the member
//! at which a file is no archive, and what words lack.
use crate::tests::lines::lines_of;
use link_samples::links::{File, files_of};
use link_samples::objects::{NamedSymbol, Relocation, Section};
use link_samples::parts::{F, LOCAL, NO_F, R_PC32, START, TEXT};
use std::process::Abort;
use std::test::Fail;

/// Files, the words of a line, and the text of their places.
type Row = (&'static [File], &'static str, &'static str);

/// Asserts that the links of rows are explained as they say.
fn assert_rows<R: AllocGlobal + Abort>(rt: &R, rows: &[Row]) -> Result<(), Fail> {
    for (files, line, wanted) in rows {
        let files = files_of(rt.alloc(), files)?;
        let text = lines_of(rt.alloc(), &files, line, 9)?;
        assert_eq!(rt; text.as_str(), *wanted, "{line}");
    }
    Ok(())
}

const LONG_TEXT: Section<'static> = Section {
    bytes: &[0x90; 24],
    ..TEXT
};

/// References to symbols 2 and 3.
const REFERENCES: [Relocation; 2] = [
    Relocation(1, 0, R_PC32, 2, 0),
    Relocation(1, 4, R_PC32, 3, 0),
];

const NOTHING: File = File::Object(
    "n.o",
    &[TEXT],
    &[
        NamedSymbol {
            name: "colour",
            ..NO_F
        },
        NamedSymbol {
            name: "fornt",
            ..NO_F
        },
    ],
    &[],
);

/// Names by one edit, of several objects: a byte inserted or left out, one replaced, two exchanged. A name of two edits, one of
/// other objects alone, a short one, and one that is asked for only, are none.
const SIMILAR: [Row; 4] = [
    (
        &[
            File::Object(
                "a.o",
                &[LONG_TEXT],
                &[
                    START,
                    NamedSymbol {
                        name: "colour",
                        ..NO_F
                    },
                    NamedSymbol {
                        name: "fornt",
                        ..NO_F
                    },
                ],
                &REFERENCES,
            ),
            NOTHING,
            File::Object(
                "b.o",
                &[TEXT],
                &[
                    NamedSymbol {
                        name: "color",
                        st_shndx: 1,
                        ..LOCAL
                    },
                    NamedSymbol { name: "front", ..F },
                ],
                &[],
            ),
            File::Object(
                "c.o",
                &[TEXT],
                &[
                    NamedSymbol { name: "colr", ..F },
                    NamedSymbol { name: "color", ..F },
                ],
                &[],
            ),
        ],
        "a.o n.o b.o c.o",
        "a.o: .text+0x0 in _start: colour is not defined (relocation 0 of section 4, R_X86_64_PC32, to symbol 2); did you \
         mean color (in c.o)?\n\
         a.o: .text+0x4 in _start: fornt is not defined (relocation 1 of section 4, R_X86_64_PC32, to symbol 3); did you \
         mean front (in b.o)?\n",
    ),
    (
        &[
            File::Object(
                "a.o",
                &[LONG_TEXT],
                &[
                    START,
                    NamedSymbol {
                        name: "size",
                        ..NO_F
                    },
                    NamedSymbol {
                        name: "stert",
                        ..NO_F
                    },
                ],
                &REFERENCES,
            ),
            File::Object(
                "b.o",
                &[TEXT],
                &[
                    NamedSymbol { name: "sized", ..F },
                    NamedSymbol { name: "sizes", ..F },
                ],
                &[],
            ),
            File::Object("c.o", &[TEXT], &[NamedSymbol { name: "start", ..F }], &[]),
        ],
        "a.o b.o c.o",
        "a.o: .text+0x0 in _start: size is not defined (relocation 0 of section 4, R_X86_64_PC32, to symbol 2); did you mean \
         sized (in b.o)?\n\
         a.o: .text+0x4 in _start: stert is not defined (relocation 1 of section 4, R_X86_64_PC32, to symbol 3); did you mean \
         start (in c.o)?\n",
    ),
    (
        &[
            File::Object(
                "a.o",
                &[LONG_TEXT],
                &[
                    START,
                    NamedSymbol { name: "go", ..NO_F },
                    NamedSymbol {
                        name: "stort",
                        ..NO_F
                    },
                ],
                &REFERENCES,
            ),
            File::Object(
                "b.o",
                &[TEXT],
                &[
                    NamedSymbol { name: "to", ..F },
                    NamedSymbol {
                        name: "starts",
                        ..F
                    },
                    NamedSymbol {
                        name: "tsorts",
                        ..F
                    },
                ],
                &[],
            ),
        ],
        "a.o b.o",
        "a.o: .text+0x0 in _start: go is not defined (relocation 0 of section 4, R_X86_64_PC32, to symbol 2)\n\
         a.o: .text+0x4 in _start: stort is not defined (relocation 1 of section 4, R_X86_64_PC32, to symbol 3)\n",
    ),
    // Two neighbours that are exchanged stand at the beginning, or at the end.
    (
        &[
            File::Object(
                "a.o",
                &[LONG_TEXT],
                &[
                    START,
                    NamedSymbol {
                        name: "raed",
                        ..NO_F
                    },
                    NamedSymbol {
                        name: "wrtie",
                        ..NO_F
                    },
                ],
                &REFERENCES,
            ),
            File::Object(
                "b.o",
                &[TEXT],
                &[
                    NamedSymbol { name: "write", ..F },
                    NamedSymbol { name: "read", ..F },
                ],
                &[],
            ),
        ],
        "a.o b.o",
        "a.o: .text+0x0 in _start: raed is not defined (relocation 0 of section 4, R_X86_64_PC32, to symbol 2); did you mean \
         read (in b.o)?\n\
         a.o: .text+0x4 in _start: wrtie is not defined (relocation 1 of section 4, R_X86_64_PC32, to symbol 3); did you mean \
         write (in b.o)?\n",
    ),
];

#[test]
fn similar_names_are_told(rt: HostRuntime) -> Result<(), Fail> {
    assert_rows(&rt, &SIMILAR)
}

/// Functions of C++ that are those of C, and the other way round; they are told before similar names, which come first. A function
/// of a namespace, and one whose number of bytes is another one, are none.
const MANGLED: [Row; 2] = [
    (
        &[
            File::Object(
                "a.o",
                &[LONG_TEXT],
                &[
                    START,
                    NamedSymbol {
                        name: "scan",
                        ..NO_F
                    },
                    NamedSymbol {
                        name: "draw",
                        ..NO_F
                    },
                ],
                &REFERENCES,
            ),
            File::Object(
                "b.o",
                &[TEXT],
                &[
                    NamedSymbol { name: "scans", ..F },
                    NamedSymbol {
                        name: "_ZN1n4scanEv",
                        ..F
                    },
                ],
                &[],
            ),
            File::Object(
                "c.o",
                &[TEXT],
                &[
                    NamedSymbol {
                        name: "_Z5scan1v",
                        ..F
                    },
                    NamedSymbol {
                        name: "_Z4scanPKc",
                        ..F
                    },
                    NamedSymbol {
                        name: "_Z4drawv",
                        ..F
                    },
                ],
                &[],
            ),
        ],
        "a.o b.o c.o",
        "a.o: .text+0x0 in _start: scan is not defined (relocation 0 of section 4, R_X86_64_PC32, to symbol 2); c.o defines \
         _Z4scanPKc, the function scan of C++: declare it extern \"C\" there\n\
         a.o: .text+0x4 in _start: draw is not defined (relocation 1 of section 4, R_X86_64_PC32, to symbol 3); c.o defines \
         _Z4drawv, the function draw of C++: declare it extern \"C\" there\n",
    ),
    (
        &[
            File::Object(
                "a.o",
                &[LONG_TEXT],
                &[
                    START,
                    NamedSymbol {
                        name: "_Z4scani",
                        ..NO_F
                    },
                    NamedSymbol {
                        name: "_Z11draw_circlev",
                        ..NO_F
                    },
                ],
                &REFERENCES,
            ),
            File::Object(
                "b.o",
                &[TEXT],
                &[
                    NamedSymbol {
                        name: "_Z4scanl",
                        ..F
                    },
                    NamedSymbol {
                        name: "draw_circle",
                        ..F
                    },
                ],
                &[],
            ),
            File::Object(
                "c.o",
                &[TEXT],
                &[
                    NamedSymbol { name: "scan", ..F },
                    NamedSymbol { name: "draw", ..F },
                ],
                &[],
            ),
        ],
        "a.o b.o c.o",
        "a.o: .text+0x0 in _start: _Z4scani is not defined (relocation 0 of section 4, R_X86_64_PC32, to symbol 2); c.o \
         defines scan: declare it extern \"C\" where it is called\n\
         a.o: .text+0x4 in _start: _Z11draw_circlev is not defined (relocation 1 of section 4, R_X86_64_PC32, to symbol 3); \
         b.o defines draw_circle: declare it extern \"C\" where it is called\n",
    ),
];

#[test]
fn functions_of_cpp_are_told(rt: HostRuntime) -> Result<(), Fail> {
    assert_rows(&rt, &MANGLED)
}

const WEAK_G: NamedSymbol<'static> = NamedSymbol {
    name: "g",
    st_info: 0x22,
    ..F
};

const TWICE: [Row; 2] = [
    // Names in another order than their objects, and one that three define; weak definitions are none.
    (
        &[
            File::Object(
                "a.o",
                &[TEXT],
                &[
                    START,
                    NamedSymbol { name: "h", ..F },
                    NamedSymbol { name: "f", ..F },
                    WEAK_G,
                ],
                &[],
            ),
            File::Object(
                "b.o",
                &[TEXT],
                &[
                    NamedSymbol { name: "f", ..F },
                    NamedSymbol { name: "g", ..F },
                    NamedSymbol { name: "e", ..F },
                ],
                &[],
            ),
            File::Object(
                "c.o",
                &[TEXT],
                &[
                    NamedSymbol { name: "h", ..F },
                    NamedSymbol { name: "e", ..F },
                    WEAK_G,
                    NamedSymbol { name: "f", ..F },
                ],
                &[],
            ),
        ],
        "a.o b.o c.o",
        "a.o: symbol 2 h of .text: defined here\n\
         a.o: symbol 3 f of .text: defined here\n\
         b.o: symbol 1 f of .text: defined here\n\
         b.o: symbol 3 e of .text: defined here\n\
         c.o: symbol 1 h of .text: defined here\n\
         c.o: symbol 2 e of .text: defined here\n\
         c.o: symbol 4 f of .text: defined here\n",
    ),
    // Two definitions of a name in one object, beside two of another name in two.
    (
        &[
            File::Object(
                "a.o",
                &[TEXT],
                &[
                    START,
                    NamedSymbol { name: "f", ..F },
                    NamedSymbol { name: "f", ..F },
                ],
                &[],
            ),
            File::Object(
                "b.o",
                &[TEXT],
                &[
                    NamedSymbol { name: "g", ..F },
                    NamedSymbol {
                        name: "_start",
                        ..F
                    },
                ],
                &[],
            ),
        ],
        "a.o b.o",
        "a.o: symbol 1 _start of .text: defined here\n\
         a.o: symbol 2 f of .text: defined here\n\
         a.o: symbol 3 f of .text: defined here\n\
         b.o: symbol 2 _start of .text: defined here\n",
    ),
];

#[test]
fn all_names_that_are_defined_twice_are_told(rt: HostRuntime) -> Result<(), Fail> {
    assert_rows(&rt, &TWICE)
}

const PLAIN: File = File::Object("a.o", &[TEXT], &[START], &[]);

/// Archives of two members: the second one is cut, in its data and in its header; its header has no end, and the byte behind its
/// data is no line feed. The first member is cut.
const BROKEN: [Row; 5] = [
    (
        &[
            PLAIN,
            File::Bytes(
                "cut.a",
                b"!<arch>\n\
                  one.o/          0           0     0     644     4         `\n\
                  \x7fELF\
                  two.o/          0           0     0     644     4         `\n\
                  \x7fEL",
            ),
        ],
        "a.o cut.a",
        "cut.a(two.o at 0x48): Truncated (3): the file ends within this member\n",
    ),
    (
        &[
            PLAIN,
            File::Bytes(
                "half.a",
                b"!<arch>\n\
                  one.o/          0           0     0     644     3         `\n\
                  \x7fEL\n\
                  two.o/          0           0",
            ),
        ],
        "a.o half.a",
        "half.a(two.o at 0x48): Truncated (3): the file ends within this member\n",
    ),
    (
        &[
            PLAIN,
            File::Bytes(
                "over.a",
                b"!<arch>\n\
                  one.o/          0           0     0     644     2         `\n\
                  \x7fE\
                  two.o/          0           0     0     644     4         x\n\
                  \x7fELF",
            ),
        ],
        "a.o over.a",
        "over.a(two.o at 0x46): BadHeader (4): this is no header of a member, or no line feed makes its data even\n",
    ),
    (
        &[
            PLAIN,
            File::Bytes(
                "odd.a",
                b"!<arch>\n\
                  one.o/          0           0     0     644     1         `\n\
                  x\n\
                  two.o/          0           0     0     644     1         `\n\
                  yz",
            ),
        ],
        "a.o odd.a",
        "odd.a(two.o at 0x46): BadHeader (4): this is no header of a member, or no line feed makes its data even\n",
    ),
    (
        &[
            PLAIN,
            File::Bytes(
                "one.a",
                b"!<arch>\n\
                  one.o/          0           0     0     644     9         `\n\
                  \x7fELF",
            ),
        ],
        "a.o one.a",
        "one.a(one.o at 0x8): Truncated (3): the file ends within this member\n",
    ),
];

#[test]
fn broken_members_are_told(rt: HostRuntime) -> Result<(), Fail> {
    assert_rows(&rt, &BROKEN)
}

const WORDS: [Row; 5] = [
    (
        &[],
        "a.o --start-group b.a",
        "the words together: GroupNesting (5): --start-group is not closed: --end-group is missing\n",
    ),
    (
        &[],
        "-( b.a -( c.a -)",
        "word 2 -(: GroupNesting (5): a group in a group: --end-group is missing before it\n",
    ),
    (
        &[],
        "a.o --end-group",
        "word 1 --end-group: GroupNesting (5): no --start-group is before it\n",
    ),
    (
        &[],
        "--start-group b.a -) -)",
        "word 3 -): GroupNesting (5): no --start-group is before it\n",
    ),
    (
        &[],
        "a.o -Ttext-segment=0x401001",
        "word 1 -Ttext-segment=0x401001: BadNumber (4): a base is 0x and hexadecimal digits, a multiple of 4096 from 0x1000 on \
         and below 2^46\n",
    ),
];

#[test]
fn what_words_lack_is_told(rt: HostRuntime) -> Result<(), Fail> {
    assert_rows(&rt, &WORDS)
}
