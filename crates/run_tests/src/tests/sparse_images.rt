//! Images with pages of zeros: which bytes are passed over, and what the file holds.
use crate::tests::machine::{Kind, NewFiles, SOUND, StoredFile};
use crate::tests::runs::{Outcome, Program, run_line, run_line_with, run_program_line};
use link_samples::objects::{Section, relocatable};
use link_samples::parts::{DATA, START, TEXT};
use std::alloc::Global;
use std::io::ErrorKind;
use std::test::Fail;

/// Pages are not passed over.
const RIGID: NewFiles = NewFiles {
    rigid: Some(ErrorKind::Unsupported),
    ..SOUND
};

/// The length isn't set.
const FIXED: NewFiles = NewFiles {
    fixed: Some(ErrorKind::StorageFull),
    ..SOUND
};

/// An object with a text of nine bytes and with data.
fn object(alloc: Global, alignment: u64, data: &[u8]) -> Result<Vec<u8>, Fail> {
    let data = Section {
        sh_addralign: alignment,
        bytes: data,
        ..DATA
    };
    relocatable(alloc, &[TEXT, data], &[START], &[])
}

fn device<'a>(path: &'a str) -> StoredFile<'a> {
    StoredFile {
        kind: Kind::Device,
        ..StoredFile::sound(path, &[])
    }
}

/// What comes of a line on a system with objects: `far.o`, whose 8 bytes of data come 2 MiB on,
/// `zeros.o`, whose data are three pages of zeros, and `split.o`, whose data are a page of zeros,
/// of which the image's file has no whole one, in the middle of other bytes.
fn outcome(alloc: Global, new_files: NewFiles, line: &str) -> Result<Outcome, Fail> {
    let far = object(alloc, 1 << 21, &[1; 8])?;
    let zeros = object(alloc, 4096, &[0; 12_288])?;
    let mut bytes = Vec::from_slice(alloc, &[1; 12_288])?;
    for byte in bytes.iter_mut().skip(100).take(4096) {
        *byte = 0;
    }
    let split = object(alloc, 4096, &bytes)?;
    let stored = [
        StoredFile::sound("far.o", &far),
        StoredFile::sound("zeros.o", &zeros),
        StoredFile::sound("split.o", &split),
        device("null"),
    ];
    run_line_with(alloc, &stored, new_files, line)
}

/// Lines, how new files answer, how many bytes are passed over, how many the file has then, and all
/// that comes of a run else. The image's first page has the headers, the second one the text, and
/// then come data or zeros up to them.
static ROWS: [(&str, NewFiles, u64, usize, &str); 6] = [
    (
        "-s far.o",
        SOUND,
        0x1f_e000,
        0x20_0008,
        "stat a.out\nread far.o\nopen a.out\nnew .a.out.ld-0\nmode 100755\nrename .a.out.ld-0 to a.out\nout: \nerr: \nstatus 0",
    ),
    // The length is set where the last bytes are passed over.
    (
        "-s zeros.o",
        SOUND,
        0x3000,
        0x5000,
        "stat a.out\nread zeros.o\nopen a.out\nnew .a.out.ld-0\nlength 20480\nmode 100755\nrename .a.out.ld-0 to a.out\nout: \nerr: \nstatus 0",
    ),
    (
        "-s split.o",
        SOUND,
        0,
        0x5000,
        "stat a.out\nread split.o\nopen a.out\nnew .a.out.ld-0\nmode 100755\nrename .a.out.ld-0 to a.out\nout: \nerr: \nstatus 0",
    ),
    // A device is given each byte.
    (
        "-s zeros.o -o null",
        SOUND,
        0,
        0x5000,
        "stat null\nread zeros.o\nopen null\nout: \nerr: \nstatus 0",
    ),
    (
        "-s zeros.o",
        RIGID,
        0,
        0,
        "stat a.out\nread zeros.o\nopen a.out\nnew .a.out.ld-0\nremove .a.out.ld-0\nout: \nerr: ld: cannot write a.out\n\nstatus 3",
    ),
    (
        "-s zeros.o",
        FIXED,
        0x3000,
        0,
        "stat a.out\nread zeros.o\nopen a.out\nnew .a.out.ld-0\nlength 20480\nremove .a.out.ld-0\nout: \nerr: ld: cannot write a.out\n\nstatus 3",
    ),
];

#[test]
fn pages_of_zeros_are_passed_over(rt: HostRuntime) -> Result<(), Fail> {
    for (line, new_files, passed, len, told) in &ROWS {
        let run = outcome(rt.alloc(), *new_files, line)?;
        assert_eq!(rt; run.told.as_str(), *told);
        assert_eq!(rt; run.passed, *passed, "{line}");
        let made = run.made.first().map_or(0, |file| file.bytes.len());
        assert_eq!(rt; made, *len, "{line}");
    }
    Ok(())
}

#[test]
fn an_image_with_holes_is_a_right_link(rt: HostRuntime) -> Result<(), Fail> {
    let alloc = rt.alloc();
    let object = object(alloc, 1 << 21, &[1; 8])?;
    let input = StoredFile::sound("far.o", &object);
    let run = run_line(alloc, &[input], "far.o -Map=a.map")?;
    let [image, map] = run.made.as_slice() else {
        return Err(Fail::from("two files"));
    };
    let stored = [
        input,
        StoredFile::sound("a.out", &image.bytes),
        StoredFile::sound("a.map", &map.bytes),
    ];
    let check = run_line(alloc, &stored, "far.o -Map=a.map --check")?;
    assert_eq!(rt;
        check.told.as_str(),
        "read far.o\nread a.out\nread a.map\nout: yes\n\nerr: \nstatus 0"
    );
    Ok(())
}

/// Debug data of one byte at a multiple of 2^21, of two names.
const INFO: Section<'static> = Section {
    name: ".debug_info",
    sh_flags: 0,
    sh_addralign: 1 << 21,
    bytes: &[1],
    ..TEXT
};

const LINES: Section<'static> = Section {
    name: ".debug_line",
    ..INFO
};

/// The text ends at 0x1009, the debug data are at 0x200000 and at 0x400000: whole pages are between from 0x2000 on, and from
/// 0x201000 on.
const PAGES_BETWEEN: u64 = 0x1f_e000 + 0x1f_f000;

#[test]
fn zeros_between_debug_data_are_passed_over(rt: HostRuntime) -> Result<(), Fail> {
    let alloc = rt.alloc();
    let object = relocatable(alloc, &[TEXT, INFO, LINES], &[START], &[])?;
    let stored = [StoredFile::sound("a.o", &object)];
    let run = run_program_line(alloc, Program::Debug, &stored, SOUND, "a.o")?;
    let [image] = run.made.as_slice() else {
        return Err(Fail::from("an image"));
    };
    assert_eq!(rt; image.bytes.get(0x20_0000).copied(), Some(1));
    assert_eq!(rt; image.bytes.get(0x40_0000).copied(), Some(1));
    assert!(rt; run.passed >= PAGES_BETWEEN, "{}", run.passed);
    Ok(())
}
