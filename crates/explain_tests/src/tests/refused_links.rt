//! Why links are refused: the lines of each error, the places in the order in which they are met.
use crate::tests::lines::lines_of;
use elf_model::{SHF_ALLOC, SHF_EXECINSTR, SHF_WRITE};
use link_samples::links::{File, Member, files_of};
use link_samples::objects::{NamedSymbol, Relocation, Section};
use link_samples::one_object::one_file;
use link_samples::parts::{
    BSS, COMMON, DATA, F, FOO, GROUP, LOCAL, NO_F, NOTES, R_64, R_PC32, R_PLT32, START, STOP_FOO,
    TEXT, THREAD_DATA, ZEROS_FOO,
};
use std::process::Abort;
use std::test::Fail;

/// Files, the words of a line, how many places are told, and the text of these.
type Row = (&'static [File], &'static str, usize, &'static str);

/// Asserts that the links of rows are explained as they say.
fn assert_rows<R: AllocGlobal + Abort>(rt: &R, rows: &[Row]) -> Result<(), Fail> {
    for (files, line, most, wanted) in rows {
        let files = files_of(rt.alloc(), files)?;
        let text = lines_of(rt.alloc(), &files, line, *most)?;
        assert_eq!(rt; text.as_str(), *wanted, "{line}");
    }
    Ok(())
}

const PLAIN: File = File::Object("a.o", &[TEXT], &[START], &[]);

const WORDS: [Row; 7] = [
    (&[], "", 9, "the words together: NoInput (6)\n"),
    (&[PLAIN], "a.o", 9, ""),
    (
        &[PLAIN],
        "a.o -oout",
        9,
        "word 1 -oout: UnknownOption (2)\n",
    ),
    (
        &[PLAIN],
        "a.o -\u{1b}[2J",
        9,
        "word 1 -\\x1b[2J: UnknownOption (2)\n",
    ),
    (&[PLAIN], "a.o -o", 9, "word 1 -o: MissingValue (3)\n"),
    (
        &[PLAIN],
        "a.o -Ttext-segment=4096",
        9,
        "word 1 -Ttext-segment=4096: BadNumber (4): a base is 0x and hexadecimal digits, a multiple of 4096 from 0x1000 on and \
         below 2^46\n",
    ),
    (
        &[PLAIN],
        "--start-group a.o",
        9,
        "word 1 a.o: NotArchiveInGroup (7)\n",
    ),
];

#[test]
fn words_are_named(rt: HostRuntime) -> Result<(), Fail> {
    assert_rows(&rt, &WORDS)
}

const CUT: File = File::Bytes("cut.o", &[0x7f, b'E', b'L', b'F']);

const EMPTY_ARCHIVE: File = File::Bytes("e.a", b"!<arch>\n");

const THIN: File = File::Bytes("thin.a", b"!<thin>\n");

const UNINDEXED: File = File::Archive(
    "n.a",
    &[],
    &[Member {
        sections: &[TEXT],
        symbols: &[F],
        relocations: &[],
    }],
);

/// An archive of which the second member is no object.
const BROKEN: File = File::Bytes(
    "b.a",
    b"!<arch>\n\
      /               0           0     0     644     10        `\n\
      \0\0\0\x01\0\0\0\x4ef\0\
      long_named.o/   0           0     0     644     4         `\n\
      \x7fELF",
);

/// The same with a space in its member's name; then with a name of two slashes, which stands behind three members.
const SPACED: File = File::Bytes(
    "s.a",
    b"!<arch>\n\
      /               0           0     0     644     10        `\n\
      \0\0\0\x01\0\0\0\x4ef\0\
      my file.o/      0           0     0     644     4         `\n\
      \x7fELF",
);

const NESTED: File = File::Bytes(
    "d.a",
    b"!<arch>\n\
      /               0           0     0     644     10        `\n\
      \0\0\0\x01\0\0\x01\x4cf\0\
      1.o/            0           0     0     644     0         `\n\
      2.o/            0           0     0     644     0         `\n\
      3.o/            0           0     0     644     0         `\n\
      //              0           0     0     644     14        `\n\
      sub/dir/x.o/\n\n\
      /0              0           0     0     644     4         `\n\
      \x7fELF",
);

/// A group whose flags are none of COMDAT's.
const BAD_GROUP: Section<'static> = Section {
    bytes: &[2, 0, 0, 0, 2, 0, 0, 0],
    signature: 1,
    ..GROUP
};

const START_IN_2: NamedSymbol<'static> = NamedSymbol {
    st_shndx: 2,
    ..START
};

/// A member of one byte, with the byte that pads it, and then one that is no object.
const ODD: File = File::Bytes(
    "o.a",
    b"!<arch>\n\
      /               0           0     0     644     10        `\n\
      \0\0\0\x01\0\0\0\x8cf\0\
      1.o/            0           0     0     644     1         `\n\
      x\n\
      odd.o/          0           0     0     644     4         `\n\
      \x7fELF",
);

/// The same before the long names, among which the last member's is.
const ODD_BEFORE_NAMES: File = File::Bytes(
    "l.a",
    b"!<arch>\n\
      /               0           0     0     644     10        `\n\
      \0\0\0\x01\0\0\0\xd6f\0\
      1.o/            0           0     0     644     1         `\n\
      x\n\
      //              0           0     0     644     14        `\n\
      long/name.o/\n\n\
      /0              0           0     0     644     4         `\n\
      \x7fELF",
);

/// A file of the name of another one, which comes first.
const LATER: File = File::Bytes(
    "b.a",
    b"!<arch>\n\
      /               0           0     0     644     10        `\n\
      \0\0\0\x01\0\0\0\x4ef\0\
      later.o/        0           0     0     644     4         `\n\
      \x7fELF",
);

const FILES: [Row; 15] = [
    (
        &[PLAIN, ODD],
        "a.o -u f o.a",
        9,
        "o.a(odd.o at 0x8c): Truncated (2): shorter than the header of an ELF file\n",
    ),
    (
        &[PLAIN, ODD_BEFORE_NAMES],
        "a.o -u f l.a",
        9,
        "l.a(long/name.o at 0xd6): Truncated (2): shorter than the header of an ELF file\n",
    ),
    (
        &[PLAIN, BROKEN, LATER],
        "a.o -u f b.a",
        9,
        "b.a(long_named.o at 0x4e): Truncated (2): shorter than the header of an ELF file\n",
    ),
    // A library of a name isn't a file whose name ends alike.
    (
        &[
            PLAIN,
            File::Bytes("q/xlibn.a", b"!<thin>\n"),
            File::Bytes("q/libn.a", b"!<arch>\n"),
        ],
        "a.o -Lq q/xlibn.a -ln",
        9,
        "q/xlibn.a: NotArchive (2): a thin archive, which has no members of its own: ar makes one that has without T\n",
    ),
    (
        &[File::Object("a.o", &[BAD_GROUP, TEXT], &[START_IN_2], &[])],
        "a.o",
        9,
        "a.o: BadFlags (3)\n",
    ),
    (
        &[PLAIN],
        "a.o b.o -lc",
        9,
        "b.o: item 1: there is no such file\n\
         -lc: item 2: no directory of -L has libc.a\n",
    ),
    (
        &[PLAIN, THIN],
        "a.o thin.a",
        9,
        "thin.a: NotArchive (2): a thin archive, which has no members of its own: ar makes one that has without T\n",
    ),
    (
        &[PLAIN, UNINDEXED, EMPTY_ARCHIVE],
        "a.o e.a n.a",
        9,
        "n.a: the archive has no index: ranlib makes one\n",
    ),
    (
        &[PLAIN, CUT],
        "a.o cut.o",
        9,
        "cut.o: Truncated (2): shorter than the header of an ELF file\n",
    ),
    (
        &[PLAIN, BROKEN],
        "a.o -u f b.a",
        9,
        "b.a(long_named.o at 0x4e): Truncated (2): shorter than the header of an ELF file\n",
    ),
    (&[PLAIN, BROKEN], "a.o b.a", 9, ""),
    (
        &[PLAIN, SPACED],
        "a.o -u f s.a",
        9,
        "s.a(my\\x20file.o at 0x4e): Truncated (2): shorter than the header of an ELF file\n",
    ),
    (
        &[PLAIN, NESTED],
        "a.o -u f d.a",
        9,
        "d.a(sub/dir/x.o at 0x14c): Truncated (2): shorter than the header of an ELF file\n",
    ),
    (
        &[PLAIN, UNINDEXED],
        "a.o --whole-archive n.a --no-whole-archive n.a",
        9,
        "n.a (item 2): the archive has no index: ranlib makes one\n",
    ),
    (
        &[PLAIN],
        "a.o -Ttext-segment=0x3ffffffff000",
        9,
        "all together: the addresses end above 2^46, or the image has 2^32 bytes or more\n",
    ),
];

const TRUNCATED: &str = "Truncated (2): shorter than the header of an ELF file: ";

/// First bytes of files that are no objects, and what they are.
const KINDS: [(&[u8], &str); 7] = [
    (b"", "an empty file"),
    (
        b"GROUP ( libm-2.so )\n",
        "a text, as a source or a linker script",
    ),
    (
        b"BC\xc0\xde\x35\x14",
        "an LLVM bitcode file, which -flto makes in place of an object",
    ),
    (b"\xcf\xfa\xed\xfe\x07", "a Mach-O file"),
    (b"\x7fELF\x01\x01\x01\0", "an ELF file of 32 bits"),
    (
        b"\x7fELF\x02\x01\x01\0\0\0\0\0\0\0\0\0\x03\0\x3e\0",
        "a shared object, or a position-independent executable",
    ),
    (
        b"\x7fELF\x02\x01\x01\0\0\0\0\0\0\0\0\0\x01\0\xb7\0",
        "for AArch64",
    ),
];

#[test]
fn what_files_are_is_told(rt: HostRuntime) -> Result<(), Fail> {
    for (bytes, kind) in KINDS.iter() {
        let files = one_file(rt.alloc(), "x.o", bytes)?;
        let text = lines_of(rt.alloc(), &files, "x.o", 9)?;
        let told = text
            .strip_prefix("x.o: ")
            .and_then(|t| t.strip_prefix(TRUNCATED));
        assert_eq!(rt; told.map(str::trim_end), Some(*kind));
    }
    Ok(())
}

#[test]
fn files_are_named(rt: HostRuntime) -> Result<(), Fail> {
    assert_rows(&rt, &FILES)
}

const WRITABLE_CODE: Section<'static> = Section {
    name: ".wx",
    sh_flags: SHF_ALLOC | SHF_WRITE | SHF_EXECINSTR,
    ..DATA
};

const HUGE: Section<'static> = Section {
    memory: 0xffff_ffff_ffff_ffff,
    ..BSS
};

const NAMELESS: NamedSymbol<'static> = NamedSymbol { name: "", ..F };

const SKEWED_COMMON: NamedSymbol<'static> = NamedSymbol {
    st_value: 3,
    ..COMMON
};

const OTHER_F: File = File::Object("b.o", &[TEXT], &[F], &[]);

/// A section with SHF_GNU_RETAIN.
const RETAINED: Section<'static> = Section {
    name: ".keep",
    sh_flags: SHF_ALLOC | 0x20_0000,
    ..DATA
};

/// A symbol behind its section's end.
const LATE: NamedSymbol<'static> = NamedSymbol {
    name: "late",
    st_value: 1000,
    ..F
};

/// In each of two objects a section of an unlawful kind, a common symbol and another one that aren't sound, and a definition that
/// both have.
const TWO_OF_EACH: [File; 2] = [
    File::Object(
        "a.o",
        &[TEXT, WRITABLE_CODE],
        &[START, NAMELESS, SKEWED_COMMON, F],
        &[],
    ),
    File::Object(
        "b.o",
        &[TEXT, WRITABLE_CODE],
        &[LATE, F, SKEWED_COMMON],
        &[],
    ),
];

const NAMES: [Row; 8] = [
    (
        &[File::Object("a.o", &[TEXT, RETAINED], &[START], &[])],
        "a.o",
        9,
        "a.o: section 2 .keep: type PROGBITS, flags ALLOC GNU_RETAIN: not linked, as of __attribute__((retain)) or \
         Rust's \
         #[used]\n",
    ),
    (
        &[File::Object("a.o", &[TEXT, WRITABLE_CODE], &[START], &[])],
        "a.o",
        9,
        "a.o: section 2 .wx: type PROGBITS, flags WRITE ALLOC EXECINSTR: not linked\n",
    ),
    (
        &[File::Object("a.o", &[TEXT], &[START, NAMELESS], &[])],
        "a.o",
        9,
        "a.o: symbol 2 of .text: a symbol that isn't LOCAL needs a name and a section that is loaded, and any symbol \
         lies within \
         its section\n",
    ),
    (
        &[File::Object("a.o", &[TEXT], &[START, SKEWED_COMMON], &[])],
        "a.o",
        9,
        "a.o: symbol 2 c: a common symbol must be GLOBAL, not of type TLS, and aligned to a power of two up to 2^21\n",
    ),
    (
        &[
            File::Object("a.o", &[TEXT], &[START, F], &[]),
            OTHER_F,
            OTHER_F,
        ],
        "a.o b.o b.o",
        2,
        "a.o: symbol 2 f of .text: defined here\n\
         b.o (item 1): symbol 1 f of .text: defined here\n\
         and 1 more place\n",
    ),
    // All that is wrong with sections and symbols, two of each kind, in load order.
    (
        &TWO_OF_EACH,
        "a.o b.o",
        9,
        "a.o: section 2 .wx: type PROGBITS, flags WRITE ALLOC EXECINSTR: not linked\n\
         b.o: section 2 .wx: type PROGBITS, flags WRITE ALLOC EXECINSTR: not linked\n\
         a.o: symbol 2 of .text: a symbol that isn't LOCAL needs a name and a section that is loaded, and any symbol \
         lies within its section\n\
         a.o: symbol 3 c: a common symbol must be GLOBAL, not of type TLS, and aligned to a power of two up to 2^21\n\
         a.o: symbol 4 f of .text: defined here\n\
         b.o: symbol 1 late of .text: a symbol that isn't LOCAL needs a name and a section that is loaded, and any symbol \
         lies within its section\n\
         b.o: symbol 2 f of .text: defined here\n\
         b.o: symbol 3 c: a common symbol must be GLOBAL, not of type TLS, and aligned to a power of two up to 2^21\n",
    ),
    (
        &TWO_OF_EACH,
        "a.o b.o",
        1,
        "a.o: section 2 .wx: type PROGBITS, flags WRITE ALLOC EXECINSTR: not linked\n\
         and 7 more places\n",
    ),
    (
        &[File::Object("a.o", &[TEXT, HUGE], &[START], &[])],
        "a.o",
        9,
        "a.o: section 2 .bss: 0xffffffffffffffff bytes, more than the addresses from the base on up to 2^46\n",
    ),
];

#[test]
fn sections_and_symbols_are_named(rt: HostRuntime) -> Result<(), Fail> {
    assert_rows(&rt, &NAMES)
}

const LONG_TEXT: Section<'static> = Section {
    bytes: &[0x90; 24],
    ..TEXT
};

const NO_G: NamedSymbol<'static> = NamedSymbol { name: "g", ..NO_F };

/// An archive that defines `f`, searched before something asks for it.
const EARLY: File = File::Archive(
    "e.a",
    &[(b"f\0", 0)],
    &[Member {
        sections: &[TEXT],
        symbols: &[F],
        relocations: &[],
    }],
);

/// What an object has that gcc makes by -flto alone.
const SLIM: NamedSymbol<'static> = NamedSymbol {
    name: "__gnu_lto_slim",
    st_value: 1,
    st_size: 1,
    ..COMMON
};

/// A second function, right after the nine bytes of the first.
const SECOND: NamedSymbol<'static> = NamedSymbol {
    name: "second",
    st_value: 9,
    st_size: 4,
    ..START
};

/// R_X86_64_8, and R_X86_64_COPY, which isn't linked.
const R_8: u32 = 14;

const COPY: u32 = 5;

/// Two objects that both ask for `f` and `g`, have a relocation that isn't linked, and fields that share bytes: in the first one
/// those of one byte with that of eight before both.
const WRONG_BOTH: [File; 2] = [
    File::Object(
        "a.o",
        &[LONG_TEXT],
        &[START, NO_F, NO_G],
        &[
            Relocation(1, 0, R_64, 1, 0),
            Relocation(1, 1, R_8, 1, 0),
            Relocation(1, 3, R_8, 1, 0),
            Relocation(1, 8, R_PC32, 2, 0),
            Relocation(1, 12, R_PC32, 3, 0),
            Relocation(1, 16, R_PC32, 2, 0),
            Relocation(1, 20, COPY, 1, 0),
        ],
    ),
    File::Object(
        "b.o",
        &[LONG_TEXT],
        &[NO_G, NO_F],
        &[
            Relocation(1, 8, R_PC32, 1, 0),
            Relocation(1, 10, R_PC32, 2, 0),
            Relocation(1, 20, COPY, 1, 0),
        ],
    ),
];

const FAR_FIELDS: File = File::Object(
    "a.o",
    &[LONG_TEXT],
    &[START],
    &[
        Relocation(1, 0, R_64, 1, 0),
        Relocation(1, 3, R_8, 1, 0),
        Relocation(1, 1, R_8, 1, 0),
    ],
);

/// All that is wrong with references, of any of their errors.
const REFERENCES: [Row; 4] = [
    (
        &WRONG_BOTH,
        "a.o b.o -e x",
        8,
        "a.o: .text+0x8 in _start: f is not defined (relocation 3 of section 4, R_X86_64_PC32, to symbol 2); and 2 more \
         references to it\n\
         a.o: .text+0xc: g is not defined (relocation 4 of section 4, R_X86_64_PC32, to symbol 3); and 1 more reference \
         to it\n\
         a.o: .text+0x14: not a type of relocation that is linked (relocation 6 of section 4, R_X86_64_COPY, to symbol 1 \
         of .text)\n\
         b.o: .text+0x14: not a type of relocation that is linked (relocation 2 of section 4, R_X86_64_COPY, to symbol 1); \
         g is not defined\n\
         the entry x has no definition outside thread-local storage\n\
         a.o: .text+0x0 in _start: relocation 0 of section 4, R_X86_64_64, to symbol 1 _start of .text: its field shares \
         a byte with that of a.o: .text+0x1 in _start: relocation 1 of section 4, R_X86_64_8, to symbol 1 _start of \
         .text\n\
         a.o: .text+0x0 in _start: relocation 0 of section 4, R_X86_64_64, to symbol 1 _start of .text: its field shares \
         a byte with that of a.o: .text+0x3 in _start: relocation 2 of section 4, R_X86_64_8, to symbol 1 _start of \
         .text\n\
         b.o: .text+0x8: relocation 0 of section 4, R_X86_64_PC32, to symbol 1 g: its field shares a byte with that of \
         b.o: .text+0xa: relocation 1 of section 4, R_X86_64_PC32, to symbol 2 f\n",
    ),
    (
        &WRONG_BOTH,
        "a.o b.o -e x",
        1,
        "a.o: .text+0x8 in _start: f is not defined (relocation 3 of section 4, R_X86_64_PC32, to symbol 2); and 2 more \
         references to it\n\
         and 7 more places\n",
    ),
    (
        &[FAR_FIELDS],
        "a.o -e x",
        9,
        "the entry x has no definition outside thread-local storage\n\
         a.o: .text+0x0 in _start: relocation 0 of section 4, R_X86_64_64, to symbol 1 _start of .text: its field shares \
         a byte with that of a.o: .text+0x1 in _start: relocation 2 of section 4, R_X86_64_8, to symbol 1 _start of \
         .text\n\
         a.o: .text+0x0 in _start: relocation 0 of section 4, R_X86_64_64, to symbol 1 _start of .text: its field shares \
         a byte with that of a.o: .text+0x3 in _start: relocation 1 of section 4, R_X86_64_8, to symbol 1 _start of \
         .text\n",
    ),
    (
        &[FAR_FIELDS],
        "a.o",
        1,
        "a.o: .text+0x0 in _start: relocation 0 of section 4, R_X86_64_64, to symbol 1 _start of .text: its field shares \
         a byte with that of a.o: .text+0x1 in _start: relocation 2 of section 4, R_X86_64_8, to symbol 1 _start of \
         .text\n\
         and 1 more place\n",
    ),
];

#[test]
fn all_that_is_wrong_with_references_is_told(rt: HostRuntime) -> Result<(), Fail> {
    assert_rows(&rt, &REFERENCES)
}

const RELOCATIONS: [Row; 17] = [
    // Two functions: the byte after the first is the second's, and that after the second no function's.
    (
        &[File::Object(
            "a.o",
            &[LONG_TEXT],
            &[START, SECOND, NO_F, NO_G],
            &[
                Relocation(1, 4, R_PC32, 3, 0),
                Relocation(1, 9, R_PC32, 4, 0),
            ],
        )],
        "a.o",
        9,
        "a.o: .text+0x4 in _start: f is not defined (relocation 0 of section 4, R_X86_64_PC32, to symbol 3)\n\
         a.o: .text+0x9 in second: g is not defined (relocation 1 of section 4, R_X86_64_PC32, to symbol 4)\n",
    ),
    (
        &[File::Object(
            "a.o",
            &[LONG_TEXT],
            &[START, SECOND, NO_F],
            &[Relocation(1, 13, R_PC32, 3, 0)],
        )],
        "a.o",
        9,
        "a.o: .text+0xd: f is not defined (relocation 0 of section 4, R_X86_64_PC32, to symbol 3)\n",
    ),
    // Fields of two sections at like offsets: those of the first share a byte.
    (
        &[File::Object(
            "a.o",
            &[TEXT, DATA],
            &[START],
            &[
                Relocation(1, 0, R_PC32, 1, 0),
                Relocation(2, 1, R_PC32, 1, 0),
                Relocation(1, 2, R_PC32, 1, 0),
            ],
        )],
        "a.o",
        9,
        "a.o: .text+0x0 in _start: relocation 0 of section 5, R_X86_64_PC32, to symbol 1 _start of .text: its field \
         shares a byte with that of a.o: .text+0x2 in _start: relocation 1 of section 5, R_X86_64_PC32, to symbol 1 \
         _start of .text\n",
    ),
    (
        &[File::Object("s.o", &[], &[SLIM], &[])],
        "s.o",
        9,
        "the entry _start has no definition outside thread-local storage\n\
         s.o: no code, only data for optimization at link time: compile it without -flto, or with -ffat-lto-objects\n",
    ),
    (
        &[File::Object(
            "a.o",
            &[TEXT],
            &[START],
            &[Relocation(1, 1, 10, 1, -0x50_0000)],
        )],
        "a.o",
        9,
        "a.o: .text+0x1 in _start: the value 0xfffffffffff01000 for _start does not fit the field at 0x401001, which \
         takes 0 to 0xffffffff; code of -mcmodel=large has no such limit (relocation 0 of section 4, R_X86_64_32, to \
         symbol 1 of .text)\n",
    ),
    (
        &[File::Object(
            "a.o",
            &[TEXT, ZEROS_FOO, FOO],
            &[START, STOP_FOO],
            &[Relocation(3, 0, R_64, 2, 0)],
        )],
        "a.o",
        9,
        "a.o: foo+0x0: __stop_foo is a bound of an output name of several output sections (relocation 0 of section 6, \
         R_X86_64_64, to symbol 2); a.o has section 2 foo: type NOBITS, flags WRITE ALLOC; a.o has section 3 foo: type \
         PROGBITS, flags WRITE ALLOC\n",
    ),
    (
        &[File::Object(
            "a.o",
            &[TEXT],
            &[START, NO_F],
            &[
                Relocation(1, 0, R_PLT32, 2, -4),
                Relocation(1, 5, R_PC32, 2, 0),
            ],
        )],
        "a.o",
        9,
        "a.o: .text+0x0 in _start: f is not defined (relocation 0 of section 4, R_X86_64_PLT32, to symbol 2); and 1 more \
         reference to it\n",
    ),
    (
        &[File::Object(
            "a.o",
            &[LONG_TEXT],
            &[START, NO_F, NO_G],
            &[
                Relocation(1, 0, R_PC32, 2, 0),
                Relocation(1, 4, R_PC32, 2, 0),
                Relocation(1, 8, R_PC32, 2, 0),
                Relocation(1, 12, R_PC32, 2, 0),
                Relocation(1, 16, R_PC32, 2, 0),
                Relocation(1, 20, R_PC32, 3, 0),
            ],
        )],
        "a.o",
        9,
        "a.o: .text+0x0 in _start: f is not defined (relocation 0 of section 4, R_X86_64_PC32, to symbol 2); and 4 more \
         references to it\n\
         a.o: .text+0x14: g is not defined (relocation 5 of section 4, R_X86_64_PC32, to symbol 3)\n",
    ),
    (
        &[
            File::Object(
                "a.o",
                &[TEXT],
                &[START, NO_F],
                &[Relocation(1, 0, R_PC32, 2, 0)],
            ),
            EARLY,
        ],
        "e.a a.o",
        9,
        "a.o: .text+0x0 in _start: f is not defined (relocation 0 of section 4, R_X86_64_PC32, to symbol 2); e.a (item \
         0) defines f, but was searched before it was needed: name it later, or in a group\n",
    ),
    (
        &[File::Object(
            "a.o",
            &[TEXT, NOTES],
            &[LOCAL, START],
            &[Relocation(1, 0, R_PC32, 1, 0)],
        )],
        "a.o",
        9,
        "a.o: .text+0x0 in _start: l is LOCAL in a section that is not loaded (relocation 0 of section 5, \
         R_X86_64_PC32, to symbol 1 of .notes)\n",
    ),
    (
        &[File::Object("a.o", &[TEXT], &[START, NO_F], &[Relocation(1, 0, 5, 1, 0)])],
        "a.o",
        9,
        "a.o: .text+0x0 in _start: not a type of relocation that is linked (relocation 0 of section 4, R_X86_64_COPY, \
         to symbol 1 of .text)\n",
    ),
    (
        &[File::Object(
            "a.o",
            &[TEXT],
            &[START, NO_F],
            &[Relocation(1, 6, R_PC32, 1, 0)],
        )],
        "a.o",
        9,
        "a.o: .text+0x6 in _start: the field is not inside its section (relocation 0 of section 4, R_X86_64_PC32, to \
         symbol 1 of .text)\n",
    ),
    (
        &[File::Object(
            "a.o",
            &[TEXT, THREAD_DATA],
            &[LOCAL, START],
            &[Relocation(1, 0, R_PC32, 1, 0)],
        )],
        "a.o",
        9,
        "a.o: .text+0x0 in _start: l is thread-local, or not, against the relocation's type (relocation 0 of section \
         5, R_X86_64_PC32, to symbol 1 of .tdata)\n",
    ),
    (
        &[File::Object(
            "a.o",
            &[TEXT],
            &[START, NO_F],
            &[
                Relocation(1, 4, R_PC32, 1, 0),
                Relocation(1, 1, R_PC32, 1, 0),
            ],
        )],
        "a.o",
        9,
        "a.o: .text+0x1 in _start: relocation 1 of section 4, R_X86_64_PC32, to symbol 1 _start of .text: its field \
         shares a byte with that of a.o: .text+0x4 in _start: relocation 0 of section 4, R_X86_64_PC32, to symbol 1 \
         _start of .text\n",
    ),
    (
        &[File::Object(
            "a.o",
            &[TEXT],
            &[START, NO_F],
            &[Relocation(1, 1, 14, 1, 0)],
        )],
        "a.o",
        9,
        "a.o: .text+0x1 in _start: the value 0x401000 for _start does not fit the field at 0x401001, which takes -0x80 \
         to 0xff (relocation 0 of section 4, R_X86_64_8, to symbol 1 of .text)\n",
    ),
    (
        &[File::Object("a.o", &[TEXT], &[START], &[Relocation(1, 0, 19, 1, 0)])],
        "a.o",
        9,
        "a.o: .text+0x0 in _start: not a type of relocation that is linked: -ftls-model=local-exec or -fno-pic avoids \
         it (relocation 0 of section 4, R_X86_64_TLSGD, to symbol 1 of .text)\n",
    ),
    (
        &[PLAIN],
        "a.o -e x",
        9,
        "the entry x has no definition outside thread-local storage\n",
    ),
];

#[test]
fn relocations_are_named(rt: HostRuntime) -> Result<(), Fail> {
    assert_rows(&rt, &RELOCATIONS)
}
