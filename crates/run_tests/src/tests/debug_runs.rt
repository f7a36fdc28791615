//! `ld-debug` on a system in memory: which words it takes, which files it reads and makes, what it prints, and its status.
use crate::tests::machine::{NewFiles, SOUND, StoredFile};
use crate::tests::runs::{Outcome, Program, run_program_line};
use elf_model::{SHF_COMPRESSED, SHN_ABS};
use link_samples::objects::{NamedSymbol, Relocation, Section, relocatable};
use link_samples::parts::{F, R_64, START, TEXT};
use std::alloc::Global;
use std::io::ErrorKind;
use std::test::Fail;

/// Debug data of eight zeros.
const INFO: Section<'static> = Section {
    name: ".debug_info",
    sh_flags: 0,
    bytes: &[0; 8],
    ..TEXT
};

/// Five bytes of another name.
const LINES: Section<'static> = Section {
    name: ".debug_line",
    bytes: &[0xee; 5],
    ..INFO
};

/// Compressed debug data.
const PACKED: Section<'static> = Section {
    sh_flags: SHF_COMPRESSED,
    ..INFO
};

/// Debug data that no image takes: SHF_EXCLUDE.
const TAKEN_BY_NONE: Section<'static> = Section {
    sh_flags: 0x8000_0000,
    ..LINES
};

/// Another function.
const G: NamedSymbol<'static> = NamedSymbol { name: "g", ..F };

/// A LOCAL function in section 1.
const LOCAL: NamedSymbol<'static> = NamedSymbol {
    name: "hidden",
    st_info: 2,
    ..START
};

/// A LOCAL function with a name of 200 bytes.
const LONG: NamedSymbol<'static> = NamedSymbol {
    name: "hidden_hidden_hidden_hidden_hidden_hidden_hidden_hidden_hidden_hidden_hidden_hidden_hidden_hidden_hidden_hidden_hidden_hidden_hidden_hidden_hidden_hidden_hidden_hidden_hidden_hidden_hidden_hidden_hidden",
    ..LOCAL
};

/// Twenty of them: their names come to more bytes than an object has in which they are one text.
const LONGS: [NamedSymbol<'static>; 21] = [
    LONG, LONG, LONG, LONG, LONG, LONG, LONG, LONG, LONG, LONG, LONG, LONG, LONG, LONG, LONG, LONG,
    LONG, LONG, LONG, LONG, F,
];

/// What an object begins with, and no more: it has no header of 64 bytes (System V gABI 4, "ELF Header").
static CUT: [u8; 4] = [0x7f, 0x45, 0x4c, 0x46];

/// Files of the system: two objects with debug data, one with compressed data, one with data that no image takes, two whose
/// debug data have relocations of an unknown type, the second one in two sections, and one with LOCAL symbols of one long name.
fn outcome(alloc: Global, new_files: NewFiles, line: &str) -> Result<Outcome, Fail> {
    let unknown = [Relocation(2, 0, 200, 2, 0)];
    let two_unknown = [Relocation(2, 0, 200, 2, 0), Relocation(3, 0, 201, 2, 0)];
    let first = [Relocation(2, 0, R_64, 2, 0)];
    let one = relocatable(alloc, &[TEXT, INFO], &[LOCAL, START], &first)?;
    let two = relocatable(alloc, &[TEXT, INFO, LINES], &[F], &[])?;
    let packed = relocatable(alloc, &[TEXT, PACKED, LINES], &[F], &[])?;
    let taken = relocatable(alloc, &[TEXT, TAKEN_BY_NONE], &[G], &[])?;
    let odd = relocatable(alloc, &[TEXT, INFO], &[LOCAL, F], &unknown)?;
    let strange = relocatable(alloc, &[TEXT, LINES, INFO], &[LOCAL, G], &two_unknown)?;
    let long = relocatable(alloc, &[TEXT], &LONGS, &[])?;
    let stored = [
        StoredFile::sound("a.o", &one),
        StoredFile::sound("b.o", &two),
        StoredFile::sound("packed.o", &packed),
        StoredFile::sound("taken.o", &taken),
        StoredFile::sound("odd.o", &odd),
        StoredFile::sound("strange.o", &strange),
        StoredFile::sound("long.o", &long),
        StoredFile::sound("cut.o", &CUT),
    ];
    run_program_line(alloc, Program::Debug, &stored, new_files, line)
}

/// The disk is full in the middle of the image, and of the map.
const TORN: NewFiles = NewFiles {
    torn: Some((".a.out", 4200, ErrorKind::StorageFull)),
    ..SOUND
};

const MAP_TORN: NewFiles = NewFiles {
    torn: Some((".a.map", 10, ErrorKind::StorageFull)),
    ..SOUND
};

/// There is no folder `no`.
const NO_FOLDER: NewFiles = NewFiles {
    locked: Some(("no/", ErrorKind::NotFound)),
    ..SOUND
};

/// There is no memory for the map's new file.
const MAP_POOR: NewFiles = NewFiles {
    locked: Some((".a.map", ErrorKind::OutOfMemory)),
    ..SOUND
};

/// There is no memory for a new file, or to give it its name.
const POOR: NewFiles = NewFiles {
    locked: Some(("", ErrorKind::OutOfMemory)),
    ..SOUND
};

const HELD: NewFiles = NewFiles {
    bound: Some(("a.out", ErrorKind::OutOfMemory)),
    ..SOUND
};

/// The image can't get its name.
const TAKEN: NewFiles = NewFiles {
    bound: Some(("a.out", ErrorKind::IsADirectory)),
    ..SOUND
};

/// Each takes a byte a write, and every other write is interrupted.
const SLOW: NewFiles = NewFiles {
    step: 1,
    interrupts: true,
    ..SOUND
};

/// Lines, how new files answer, all that comes of a run but the bytes of files, and the paths of what it leaves.
static ROWS: [(&str, NewFiles, &str, &str); 30] = [
    (
        "a.o b.o -Map=a.map",
        SLOW,
        "stat a.out\nstat a.map\nread a.o\nread b.o\nopen a.out\nnew .a.out.ld-0\nmode 100755\nopen a.map\nnew .a.map.ld-0\nrename .a.out.ld-0 to a.out\nrename .a.map.ld-0 to a.map\nout: \nerr: \nstatus 0",
        "a.out a.map ",
    ),
    // The words are refused as those of `ld` are: a last option takes no word for its value.
    (
        "a.o -o",
        SOUND,
        "out: \nerr: ld: Command (2): MissingValue (3)\n\nstatus 2",
        "",
    ),
    (
        "-o x -Map=m a.o -L",
        SOUND,
        "out: \nerr: ld: Command (2): MissingValue (3)\n\nstatus 2",
        "",
    ),
    (
        "a.o -e",
        SOUND,
        "out: \nerr: ld: Command (2): MissingValue (3)\n\nstatus 2",
        "",
    ),
    (
        "a.o -u",
        SOUND,
        "out: \nerr: ld: Command (2): MissingValue (3)\n\nstatus 2",
        "",
    ),
    (
        "a.o -l",
        SOUND,
        "out: \nerr: ld: Command (2): MissingValue (3)\n\nstatus 2",
        "",
    ),
    (
        "a.o -m",
        SOUND,
        "out: \nerr: ld: Command (2): MissingValue (3)\n\nstatus 2",
        "",
    ),
    (
        "",
        SOUND,
        "out: \nerr: ld: Command (2): NoInput (6)\n\nstatus 2",
        "",
    ),
    (
        "-S",
        SOUND,
        "out: \nerr: ld: Command (2): NoInput (6)\n\nstatus 2",
        "",
    ),
    // What an option takes is its value, also `-S` and `-s`.
    (
        "-o y a.o -e -S",
        SOUND,
        "stat y\nread a.o\nout: \nerr: ld: NoEntry (18)\n\nstatus 1",
        "",
    ),
    (
        "a.o -m -S",
        SOUND,
        "out: \nerr: ld: Command (2): UnknownOption (2)\n\nstatus 2",
        "",
    ),
    (
        "-o -S a.o",
        SOUND,
        "stat -S\nread a.o\nopen -S\nnew .-S.ld-0\nmode 100755\nrename .-S.ld-0 to -S\nout: \nerr: \nstatus 0",
        "-S ",
    ),
    (
        "a.o gone.o",
        SOUND,
        "stat a.out\nread a.o\nread gone.o\nout: \nerr: ld: FileMissing (3)\n\nstatus 3",
        "",
    ),
    (
        "a.o -o a.o",
        SOUND,
        "stat a.o\nread a.o\nout: \nerr: ld: cannot write a.o\n\nstatus 3",
        "",
    ),
    // After a fault nothing new is left, but the image where the map can't be written for another reason than memory.
    (
        "a.o -Map=a.map",
        TORN,
        "stat a.out\nstat a.map\nread a.o\nopen a.out\nnew .a.out.ld-0\nremove .a.out.ld-0\nout: \nerr: ld: cannot write a.out\n\nstatus 3",
        "",
    ),
    (
        "a.o -Map=a.map",
        MAP_TORN,
        "stat a.out\nstat a.map\nread a.o\nopen a.out\nnew .a.out.ld-0\nmode 100755\nopen a.map\nnew .a.map.ld-0\nremove .a.map.ld-0\nrename .a.out.ld-0 to a.out\nout: \nerr: ld: cannot write a.map\n\nstatus 3",
        "a.out ",
    ),
    (
        "a.o -Map=no/m.map",
        NO_FOLDER,
        "stat a.out\nstat no/m.map\nread a.o\nopen a.out\nnew .a.out.ld-0\nmode 100755\nopen no/m.map\nnew no/.m.map.ld-0\nrename .a.out.ld-0 to a.out\nout: \nerr: ld: cannot write no/m.map\n\nstatus 3",
        "a.out ",
    ),
    (
        "a.o -Map=a.map",
        MAP_POOR,
        "stat a.out\nstat a.map\nread a.o\nopen a.out\nnew .a.out.ld-0\nmode 100755\nopen a.map\nnew .a.map.ld-0\nremove .a.out.ld-0\nout: \nerr: ld: Memory (1)\n\nstatus 4",
        "",
    ),
    (
        "a.o",
        POOR,
        "stat a.out\nread a.o\nopen a.out\nnew .a.out.ld-0\nout: \nerr: ld: Memory (1)\n\nstatus 4",
        "",
    ),
    (
        "a.o",
        HELD,
        "stat a.out\nread a.o\nopen a.out\nnew .a.out.ld-0\nmode 100755\nrename .a.out.ld-0 to a.out\nremove .a.out.ld-0\nout: \nerr: ld: Memory (1)\n\nstatus 4",
        "",
    ),
    (
        "a.o -Map=a.map",
        TAKEN,
        "stat a.out\nstat a.map\nread a.o\nopen a.out\nnew .a.out.ld-0\nmode 100755\nopen a.map\nnew .a.map.ld-0\nrename .a.out.ld-0 to a.out\nremove .a.out.ld-0\nremove .a.map.ld-0\nout: \nerr: ld: cannot write a.out\n\nstatus 3",
        "",
    ),
    // Debug data that can't be joined, and relocations that can't be done.
    (
        "a.o packed.o",
        SOUND,
        "stat a.out\nread a.o\nread packed.o\nopen a.out\nnew .a.out.ld-0\nmode 100755\nrename .a.out.ld-0 to a.out\nout: \nerr: ld: left out the debug data of 1 object (2 sections); compressed in 1 object: compile with -gz=none\n\nstatus 0",
        "a.out ",
    ),
    (
        "a.o taken.o",
        SOUND,
        "stat a.out\nread a.o\nread taken.o\nopen a.out\nnew .a.out.ld-0\nmode 100755\nrename .a.out.ld-0 to a.out\nout: \nerr: ld: left out the debug data of 1 object (1 section)\n\nstatus 0",
        "a.out ",
    ),
    (
        "a.o packed.o taken.o",
        SOUND,
        "stat a.out\nread a.o\nread packed.o\nread taken.o\nopen a.out\nnew .a.out.ld-0\nmode 100755\nrename .a.out.ld-0 to a.out\nout: \nerr: ld: left out the debug data of 2 objects (3 sections); compressed in 1 object: compile with -gz=none\n\nstatus 0",
        "a.out ",
    ),
    // Sections of one name are told after each other, in the order in which names come.
    (
        "a.o odd.o strange.o",
        SOUND,
        "stat a.out\nread a.o\nread odd.o\nread strange.o\nopen a.out\nnew .a.out.ld-0\nmode 100755\nrename .a.out.ld-0 to a.out\nout: \nerr: ld: odd.o: .debug_info: some relocations of debug data can't be done\nld: strange.o: .debug_info: some relocations of debug data can't be done\nld: strange.o: .debug_line: some relocations of debug data can't be done\n\nstatus 0",
        "a.out ",
    ),
    (
        "a.o odd.o",
        SOUND,
        "stat a.out\nread a.o\nread odd.o\nopen a.out\nnew .a.out.ld-0\nmode 100755\nrename .a.out.ld-0 to a.out\nout: \nerr: ld: odd.o: .debug_info: some relocations of debug data can't be done\n\nstatus 0",
        "a.out ",
    ),
    // LOCAL symbols that are left out for their long names, where they are wanted at all.
    (
        "a.o long.o",
        SOUND,
        "stat a.out\nread a.o\nread long.o\nopen a.out\nnew .a.out.ld-0\nmode 100755\nrename .a.out.ld-0 to a.out\nout: \nerr: ld: left out the LOCAL symbols of 1 object: their names come to more bytes than the object has\n\nstatus 0",
        "a.out ",
    ),
    (
        "-s a.o long.o",
        SOUND,
        "stat a.out\nread a.o\nread long.o\nopen a.out\nnew .a.out.ld-0\nmode 100755\nrename .a.out.ld-0 to a.out\nout: \nerr: \nstatus 0",
        "a.out ",
    ),
    // A refused link: the name and number of the error, and what it names.
    (
        "a.o b.o b.o",
        SOUND,
        "stat a.out\nread a.o\nread b.o\nout: \nerr: ld: Duplicate (9): f\n\nstatus 1",
        "",
    ),
    (
        "a.o cut.o",
        SOUND,
        "stat a.out\nread a.o\nread cut.o\nout: \nerr: ld: BadObject (4): Truncated (2)\n\nstatus 1",
        "",
    ),
];

#[test]
fn images_for_tools_are_whole_or_not_there(rt: HostRuntime) -> Result<(), Fail> {
    for (line, new_files, wanted, left) in &ROWS {
        let run = outcome(rt.alloc(), *new_files, line)?;
        assert_eq!(rt; run.told.as_str(), *wanted, "{line}");
        let mut paths = String::new(rt.alloc());
        for file in &run.made {
            paths.push_str(&file.name)?;
            paths.push_str(" ")?;
        }
        assert_eq!(rt; paths.as_str(), *left, "{line}");
    }
    Ok(())
}

/// Whether bytes have some others in them.
fn has(bytes: &[u8], part: &[u8]) -> bool {
    for at in 0..bytes.len() {
        if matches!(bytes.get(at..), Some(rest) if rest.starts_with(part)) {
            return true;
        }
    }
    false
}

/// Lines, and whether the image then has debug data and LOCAL names.
static WANTED: [(&str, bool, bool); 6] = [
    ("a.o", true, true),
    ("-S a.o", false, true),
    ("-s a.o", true, false),
    ("-S -s a.o", false, false),
    ("-u -S a.o", true, true),
    ("-u -s a.o", true, true),
];

#[test]
fn words_say_what_an_image_has(rt: HostRuntime) -> Result<(), Fail> {
    for (line, data, locals) in &WANTED {
        let run = outcome(rt.alloc(), SOUND, line)?;
        let [image] = run.made.as_slice() else {
            return Err(Fail::from("an image"));
        };
        assert_eq!(rt; has(&image.bytes, b".debug_info"), *data, "{line}");
        assert_eq!(rt; has(&image.bytes, b"hidden"), *locals, "{line}");
        assert!(rt; has(&image.bytes, b"_start"), "{line}");
    }
    Ok(())
}

#[test]
fn data_with_undone_relocations_are_in_the_image(rt: HostRuntime) -> Result<(), Fail> {
    let run = outcome(rt.alloc(), SOUND, "a.o strange.o")?;
    let [image] = run.made.as_slice() else {
        return Err(Fail::from("an image"));
    };
    assert!(rt; has(&image.bytes, LINES.bytes));
    Ok(())
}

/// What is changed of an image between its link and its check.
enum Change {
    Nothing,
    /// A byte at an offset from the beginning, or from the end on.
    Byte(usize, u8),
    FromEnd(usize, u8),
    Cut(usize),
    More(u8),
    /// The image is that of `ld`, with or without a symbol table.
    Plain(&'static str),
}

/// Changes, the line of the check, and what it prints, with `AT` for the offset of what is changed.
static CHECKS: [(Change, &str, &str); 12] = [
    (Change::Nothing, "a.o b.o", "yes"),
    (Change::Nothing, "-S a.o b.o", "no tables 0x"),
    (Change::Nothing, "-s a.o b.o", "no tables 0x"),
    // The text's first byte.
    (Change::Byte(0x1000, 1), "a.o b.o", "no C10"),
    // e_shoff in the file header, and the last byte of the last section header, which is 0.
    (
        Change::Byte(0x28, 1),
        "a.o b.o",
        "no tables 0x28: 01, wanted ",
    ),
    (
        Change::FromEnd(1, 7),
        "a.o b.o",
        "no tables AT: 07, wanted 00",
    ),
    (Change::Cut(1), "a.o b.o", "no tables AT: end, wanted 00"),
    (Change::More(9), "a.o b.o", "no tables AT: 09, wanted end"),
    (Change::Plain("a.o b.o"), "a.o b.o", "no tables\n"),
    (Change::Plain("-s a.o b.o"), "a.o b.o", "no tables\n"),
    (Change::Plain("-s a.o b.o"), "-S -s a.o b.o", "no tables\n"),
    // Its objects are others.
    (Change::Nothing, "a.o", "no C2"),
];

/// The bytes of an image that is changed, and the offset of the change.
fn changed(alloc: Global, image: &[u8], change: &Change) -> Result<(Vec<u8>, usize), Fail> {
    let mut bytes = Vec::from_slice(alloc, image)?;
    let len = bytes.len();
    let (at, byte) = match change {
        Change::Nothing | Change::Plain(_) => return Ok((bytes, 0)),
        Change::Byte(at, byte) => (*at, *byte),
        Change::FromEnd(at, byte) => (len.saturating_sub(*at), *byte),
        Change::Cut(count) => {
            let at = len.saturating_sub(*count);
            bytes.truncate(at);
            return Ok((bytes, at));
        }
        Change::More(byte) => {
            bytes.push(*byte)?;
            return Ok((bytes, len));
        }
    };
    if let Some(old) = bytes.get_mut(at) {
        *old = byte;
    }
    Ok((bytes, at))
}

/// Two objects with debug data.
fn two_objects(alloc: Global) -> Result<(Vec<u8>, Vec<u8>), Fail> {
    let first = [Relocation(2, 0, R_64, 2, 0)];
    let one = relocatable(alloc, &[TEXT, INFO], &[LOCAL, START], &first)?;
    let two = relocatable(alloc, &[TEXT, INFO, LINES], &[F], &[])?;
    Ok((one, two))
}

/// The image that is linked from two objects and then changed, the map that `ld-debug` writes of them, and the offset of
/// the change.
fn linked(alloc: Global, change: &Change) -> Result<(Vec<u8>, Vec<u8>, usize), Fail> {
    let (one, two) = two_objects(alloc)?;
    let inputs = [
        StoredFile::sound("a.o", &one),
        StoredFile::sound("b.o", &two),
    ];
    let (program, words) = match change {
        Change::Plain(words) => (Program::Ld, *words),
        _ => (Program::Debug, "a.o b.o"),
    };
    let link = format!(in alloc; "{words} -Map=a.map")?;
    let run = run_program_line(alloc, program, &inputs, SOUND, &link)?;
    let [image, _] = run.made.as_slice() else {
        return Err(Fail::from("two files"));
    };
    let debug = run_program_line(alloc, Program::Debug, &inputs, SOUND, "a.o b.o -Map=a.map")?;
    let [_, map] = debug.made.as_slice() else {
        return Err(Fail::from("two files"));
    };
    let (bytes, at) = changed(alloc, &image.bytes, change)?;
    Ok((bytes, Vec::from_slice(alloc, &map.bytes)?, at))
}

/// What the check of an image prints that was linked from two objects and then changed, and the offset of the change.
fn checked(alloc: Global, change: &Change, line: &str) -> Result<(Outcome, usize), Fail> {
    let (image, map, at) = linked(alloc, change)?;
    let (one, two) = two_objects(alloc)?;
    let long = relocatable(alloc, &[TEXT], &LONGS, &[])?;
    let stored = [
        StoredFile::sound("a.o", &one),
        StoredFile::sound("b.o", &two),
        StoredFile::sound("a.out", &image),
        StoredFile::sound("a.map", &map),
    ];
    let check = format!(in alloc; "{line} -Map=a.map --check")?;
    let run = run_program_line(alloc, Program::Debug, &stored, SOUND, &check)?;
    Ok((run, at))
}

/// An entry that is an address, without any section.
const NOWHERE: NamedSymbol<'static> = NamedSymbol {
    st_info: 0x10,
    st_shndx: SHN_ABS,
    st_value: 0x40_1000,
    ..START
};

/// What the check of an image for tools prints that has no section but the tables.
fn checked_without_sections(alloc: Global) -> Result<Outcome, Fail> {
    let object = relocatable(alloc, &[], &[NOWHERE], &[])?;
    let input = StoredFile::sound("a.o", &object);
    let run = run_program_line(alloc, Program::Debug, &[input], SOUND, "a.o -Map=a.map")?;
    let [image, map] = run.made.as_slice() else {
        return Err(Fail::from("two files"));
    };
    let stored = [
        input,
        StoredFile::sound("a.out", &image.bytes),
        StoredFile::sound("a.map", &map.bytes),
    ];
    run_program_line(
        alloc,
        Program::Debug,
        &stored,
        SOUND,
        "a.o -Map=a.map --check",
    )
}

#[test]
fn an_image_for_tools_without_sections_is_right(rt: HostRuntime) -> Result<(), Fail> {
    let run = checked_without_sections(rt.alloc())?;
    assert!(rt;
        run.told.ends_with("out: yes\n\nerr: \nstatus 0"),
        "{}",
        run.told
    );
    Ok(())
}

#[test]
fn a_check_judges_all_of_an_image_for_tools(rt: HostRuntime) -> Result<(), Fail> {
    for (change, line, answer) in &CHECKS {
        let (run, at) = checked(rt.alloc(), change, line)?;
        let at = format!(in rt.alloc(); "{at:#x}")?;
        let answer = answer.replace(rt.alloc(), "AT", &at)?;
        let (_, printed) = run.told.split_once("out: ").ok_or("what is printed")?;
        let status = if answer.as_str() == "yes" {
            "\nerr: \nstatus 0"
        } else {
            "\nerr: \nstatus 1"
        };
        assert!(rt; printed.starts_with(answer.as_str()), "{line}: {printed}");
        assert!(rt; printed.ends_with(status), "{line}: {printed}");
    }
    Ok(())
}

/// Lines of a check, and all that comes of it: which files are read, and in which order.
static READS: [(&str, &str); 3] = [
    (
        "a.o b.o -Map=a.map --check",
        "read a.o\nread b.o\nread a.out\nout: \nerr: ld: cannot read a.out\n\nstatus 3",
    ),
    (
        "a.o b.o -o odd.o -Map=a.map --check",
        "read a.o\nread b.o\nread odd.o\nread a.map\nout: \nerr: ld: cannot read a.map\n\nstatus 3",
    ),
    (
        "a.o --check",
        "out: \nerr: ld: Command (2): MissingValue (3)\n\nstatus 2",
    ),
];

#[test]
fn a_check_reads_the_image_and_then_the_map(rt: HostRuntime) -> Result<(), Fail> {
    for (line, wanted) in &READS {
        let run = outcome(rt.alloc(), SOUND, line)?;
        assert_eq!(rt; run.told.as_str(), *wanted);
    }
    Ok(())
}
