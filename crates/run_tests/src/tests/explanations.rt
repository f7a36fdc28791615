//! What `ld-why` prints of a check, on a system in memory.
use crate::tests::machine::{Disk, Kind, Machine, NewFiles, SOUND, StoredFile};
use crate::tests::runs::{Program, run_program_line};
use elf_model::{InputFile, SHF_ALLOC};
use link_samples::links::{Change, File, changed};
use link_samples::objects::{NamedSymbol, Relocation, Section, relocatable};
use link_samples::one_object::words_of;
use link_samples::parts::{COMMON, DATA, F, NO_F, R_64, START, TEXT};
use link_samples::vectors::OBJECT;
use std::alloc::Global;
use std::io;
use std::io::{ErrorKind, Write};
use std::test::Fail;
use why_main::run;

const PLAIN: &[File] = &[File::Object("a.o", &[TEXT], &[START], &[])];

/// What is changed between a link and its check, and what is told: a right link, a byte of the text, and a line of the map.
static ROWS: [(Change, &str); 3] = [
    (Change::Nothing, "yes\n\nerr: \nstatus 0"),
    (
        Change::Image(0x1001, 0x3d),
        "no C10\na.o: section 1 .text: byte 0x1 at 0x401001 is 0x3d, and should be 0x3c\n\nerr: \nstatus 1",
    ),
    (
        Change::Text("ldmap 2", "ldmap 3"),
        "no C1\na.map: line 1 is none of a map\n\nerr: \nstatus 1",
    ),
];

/// What `ld-why` does with files, what it prints and its status, of a check of a link that is changed.
fn told(alloc: Global, change: &Change) -> Result<String, Fail> {
    let (files, output) = changed(alloc, PLAIN, &words_of(alloc, "-s a.o")?, change)?;
    let mut stored = Vec::new(alloc);
    for file in &files {
        stored.push(StoredFile::sound(&file.name, &file.bytes))?;
    }
    stored.push(StoredFile::sound("a.out", &output.image))?;
    stored.push(StoredFile::sound("a.map", &output.map))?;
    let line = "-s a.o -Map=a.map --check";
    Ok(run_program_line(alloc, Program::Why, &stored, SOUND, line)?.told)
}

#[test]
fn the_check_of_ld_why_prints_the_clause_and_its_places(rt: HostRuntime) -> Result<(), Fail> {
    for (change, answer) in &ROWS {
        let wanted = format!(in rt.alloc(); "read a.o\nread a.out\nread a.map\nout: {answer}")?;
        assert_eq!(rt; told(rt.alloc(), change)?, wanted);
    }
    Ok(())
}

/// There is no folder `no`, and no memory for a new file.
const NO_FOLDER: NewFiles = NewFiles {
    locked: Some(("no/", ErrorKind::NotFound)),
    ..SOUND
};

const POOR: NewFiles = NewFiles {
    locked: Some(("", ErrorKind::OutOfMemory)),
    ..SOUND
};

/// No folder takes a new file.
const LOCKED: NewFiles = NewFiles {
    locked: Some(("", ErrorKind::PermissionDenied)),
    ..SOUND
};

/// Lines, how new files answer, and all that comes of a run of `ld-why`: whether the outputs of a link can be written. Nothing is
/// left but the device.
static OUTPUTS: [(&str, NewFiles, &str); 10] = [
    (
        "-s a.o",
        SOUND,
        "stat a.out\nread a.o\nopen a.out\nnew .a.out.ld-0\nremove .a.out.ld-0\nout: \nerr: \nstatus 0",
    ),
    (
        "-s a.o -Map=a.map",
        SOUND,
        "stat a.out\nstat a.map\nread a.o\nopen a.out\nnew .a.out.ld-0\nremove .a.out.ld-0\nopen a.map\nnew .a.map.ld-0\nremove .a.map.ld-0\nout: \nerr: \nstatus 0",
    ),
    (
        "-s a.o -o folder",
        SOUND,
        "stat folder\nread a.o\nopen folder\nout: ld: cannot write folder\nfolder: is a directory\n\nerr: \nstatus 3",
    ),
    (
        "-s a.o -o no/x",
        NO_FOLDER,
        "stat no/x\nread a.o\nopen no/x\nnew no/.x.ld-0\nout: ld: cannot write no/x\nno/x: entity not found\n\nerr: \nstatus 3",
    ),
    (
        "-s a.o -Map=no/x",
        NO_FOLDER,
        "stat a.out\nstat no/x\nread a.o\nopen a.out\nnew .a.out.ld-0\nremove .a.out.ld-0\nopen no/x\nnew no/.x.ld-0\nout: ld: cannot write no/x\nno/x: entity not found\n\nerr: \nstatus 3",
    ),
    (
        "-s a.o -o a.o",
        SOUND,
        "stat a.o\nread a.o\nout: ld: cannot write a.o\na.o: one of the files that are read\n\nerr: \nstatus 3",
    ),
    (
        "-s a.o",
        POOR,
        "stat a.out\nread a.o\nopen a.out\nnew .a.out.ld-0\nout: ld: Memory (1)\n\nerr: \nstatus 4",
    ),
    // A device is opened and not written; a file whose folder takes no new one has no number here by which it is known again.
    (
        "-s a.o -o null",
        SOUND,
        "stat null\nread a.o\nopen null\nout: \nerr: \nstatus 0",
    ),
    (
        "-s a.o -o old",
        LOCKED,
        "stat old\nread a.o\nopen old\nnew .old.ld-0\nopen old\nout: ld: cannot write old\nold: permission denied\n\nerr: \nstatus 3",
    ),
    (
        "-s a.o folder",
        SOUND,
        "stat a.out\nread a.o\nread folder\nread folder\nout: ld: cannot read folder\nfolder: is a directory\n\nerr: \nstatus 3",
    ),
];

/// Whether a file is the device, which is opened, and has no bytes.
fn is_untouched_device(file: &InputFile) -> bool {
    file.name.as_str() == "null" && file.bytes.is_empty()
}

#[test]
fn ld_why_says_why_an_output_can_not_be_written(rt: HostRuntime) -> Result<(), Fail> {
    let alloc = rt.alloc();
    let folder = StoredFile {
        kind: Kind::Folder,
        torn: Some((0, ErrorKind::IsADirectory)),
        ..StoredFile::sound("folder", b"")
    };
    let null = StoredFile {
        kind: Kind::Device,
        ..StoredFile::sound("null", b"")
    };
    let stored = [
        StoredFile::sound("a.o", &OBJECT),
        StoredFile::sound("old", b"old"),
        folder,
        null,
    ];
    for (line, new_files, wanted) in &OUTPUTS {
        let run = run_program_line(alloc, Program::Why, &stored, *new_files, line)?;
        assert_eq!(rt; run.told.as_str(), *wanted, "{line}");
        let kept = run.made.iter().all(is_untouched_device);
        assert!(rt; kept, "{line}");
    }
    Ok(())
}

/// A common symbol with an unlawful alignment, and a symbol past the end of its section.
const SKEWED: NamedSymbol<'static> = NamedSymbol {
    st_value: 3,
    ..COMMON
};

const FAR: NamedSymbol<'static> = NamedSymbol { st_value: 10, ..F };

const WITH_COMMON: &[File] = &[File::Object("a.o", &[TEXT], &[START, COMMON], &[])];

const WITH_F: &[File] = &[File::Object("a.o", &[TEXT], &[START, F], &[])];

/// A link, what is changed of its map, the symbols that its object has when it is checked, and what `ld-why` prints: why no image
/// and map are a right link of it. The lines of the map are those that the object asks for.
static FAULTY: [(&[File], Change, &[NamedSymbol], &str); 3] = [
    (
        WITH_COMMON,
        Change::Text(" 8 8 c\n", " 8 3 c\n"),
        &[START, SKEWED],
        "no C3\na.o: symbol 2 c: a common symbol must be GLOBAL, not of type TLS, and aligned to a power of two up to 2^21\n",
    ),
    (
        WITH_F,
        Change::Text("0401000 strong 0 2 f", "040100a strong 0 2 f"),
        &[START, FAR],
        "no C13\na.o: symbol 2 f of .text: a symbol that isn't LOCAL needs a name and a section that is loaded, and any symbol lies within its section\n",
    ),
    (
        PLAIN,
        Change::Nothing,
        &[START, START],
        "no C13\na.o: symbol 1 _start of .text: defined here\na.o: symbol 2 _start of .text: defined here\n",
    ),
];

/// What `ld-why` prints of the check of a link after a change, with further files, by a line.
fn checked(
    alloc: Global,
    linked: &[File],
    change: &Change,
    files: &[StoredFile<'_>],
    line: &str,
) -> Result<String, Fail> {
    let words = words_of(alloc, "-s a.o")?;
    let (_, output) = changed(alloc, linked, &words, change)?;
    let mut stored = Vec::new(alloc);
    stored.push(StoredFile::sound("a.out", &output.image))?;
    stored.push(StoredFile::sound("a.map", &output.map))?;
    for file in files {
        stored.push(*file)?;
    }
    let line = format!(in alloc; "{line} -Map=a.map --check")?;
    let run = run_program_line(alloc, Program::Why, &stored, SOUND, &line)?;
    let (_, printed) = run.told.split_once("out: ").ok_or("what is printed")?;
    Ok(String::from_str(alloc, printed)?)
}

#[test]
fn what_is_wrong_with_the_inputs_of_a_check_is_told(rt: HostRuntime) -> Result<(), Fail> {
    let alloc = rt.alloc();
    for (linked, change, symbols, wanted) in &FAULTY {
        let object = relocatable(alloc, &[TEXT], symbols, &[])?;
        let files = [StoredFile::sound("a.o", &object)];
        let printed = checked(alloc, linked, change, &files, "-s a.o")?;
        assert!(rt; printed.starts_with(*wanted), "{printed}");
        assert!(rt; printed.ends_with("status 1"), "{printed}");
    }
    let files = [
        StoredFile::sound("a.o", &OBJECT),
        StoredFile::sound("thin.a", b"!<thin>\n"),
    ];
    let printed = checked(alloc, PLAIN, &Change::Nothing, &files, "-s a.o thin.a")?;
    assert_eq!(rt;
        printed.as_str(),
        "no C2\nthin.a: NotArchive (2): a thin archive, which has no members of its own: ar makes one that has without T\n\nerr: \nstatus 1"
    );
    Ok(())
}

/// A section with SHF_GNU_RETAIN.
const RETAINED: Section<'static> = Section {
    name: ".keep",
    sh_flags: SHF_ALLOC | 0x20_0000,
    ..DATA
};

#[test]
fn what_is_wrong_with_the_inputs_is_told_before_what_the_map_lacks(
    rt: HostRuntime,
) -> Result<(), Fail> {
    let alloc = rt.alloc();
    let object = relocatable(alloc, &[TEXT, RETAINED], &[START], &[])?;
    let files = [StoredFile::sound("a.o", &object)];
    let printed = checked(alloc, PLAIN, &Change::Nothing, &files, "-s a.o")?;
    assert_eq!(rt;
        printed.as_str(),
        "no C3\na.o: section 2 .keep: type PROGBITS, flags ALLOC GNU_RETAIN: not linked, as of __attribute__((retain)) or Rust's #[used]\nthe map lacks: place 0000000000000000 8 0 2 .keep, at any address\n\nerr: \nstatus 1"
    );
    Ok(())
}

/// How many names are undefined, and the last line of what is printed: twenty places at most, and how many more there are.
static UNDEFINED: [(u32, &str); 3] = [
    (
        20,
        "f is not defined (relocation 19 of section 4, R_X86_64_64, to symbol 21)\n",
    ),
    (21, "and 1 more place\n"),
    (23, "and 3 more places\n"),
];

#[test]
fn at_most_twenty_places_are_printed(rt: HostRuntime) -> Result<(), Fail> {
    let alloc = rt.alloc();
    for (count, last) in &UNDEFINED {
        let mut names = Vec::new(alloc);
        let mut relocations = Vec::new(alloc);
        for k in 0..*count {
            names.push(format!(in alloc; "{k}f")?)?;
            relocations.push(Relocation(
                1,
                u64::from(k).saturating_mul(8),
                R_64,
                k.saturating_add(2),
                0,
            ))?;
        }
        let mut symbols = Vec::new(alloc);
        symbols.push(START)?;
        for name in &names {
            symbols.push(NamedSymbol { name, ..NO_F })?;
        }
        let text = link_samples::objects::Section {
            bytes: &[0x90; 200],
            ..TEXT
        };
        let object = relocatable(alloc, &[text], &symbols, &relocations)?;
        let stored = [StoredFile::sound("a.o", &object)];
        let run = run_program_line(alloc, Program::Why, &stored, SOUND, "a.o")?;
        let (_, printed) = run.told.split_once("out: ").ok_or("what is printed")?;
        let (lines, _) = printed.split_once("\nerr: ").ok_or("what is printed")?;
        assert!(rt; lines.ends_with(*last), "{lines}");
        let told = lines.lines().count();
        let more = usize::from(*count > 20);
        assert_eq!(rt; told, more.saturating_add(21));
    }
    Ok(())
}

/// A writer that takes nothing.
#[derive(Drop)]
struct Closed;

impl Write for Closed {
    fn write(&mut self, _buf: &[u8]) -> io::Result<usize> {
        Err(io::Error::from(ErrorKind::BrokenPipe))
    }

    fn flush(&mut self) -> io::Result<()> {
        Ok(())
    }
}

#[test]
fn a_line_that_can_not_be_printed_is_no_refusal(rt: HostRuntime) -> Result<(), Fail> {
    let stored = [StoredFile::sound("a.o", &OBJECT)];
    let disk = Disk::new(rt.alloc(), &stored, SOUND);
    let machine = Machine {
        disk: &disk,
        words: &[],
        random: None,
    };
    let words = words_of(rt.alloc(), "a.o -e x")?;
    assert_eq!(rt; run(&machine, &words, &mut Closed), 3);
    Ok(())
}
