//! What a run makes, and in which order: a new file beside each path, which gets its name at the
//! end; and what is there after a fault.
use crate::tests::machine::{Kind, NewFiles, SOUND, StoredFile};
use crate::tests::runs::{Program, run_line_with, run_program_line};
use link_samples::vectors::{MAP, OBJECT};
use std::alloc::Global;
use std::io::ErrorKind;
use std::test::Fail;

/// A file that is there, and is none of an input's.
fn stored<'a>(path: &'a str, kind: Kind) -> StoredFile<'a> {
    StoredFile {
        kind,
        ..StoredFile::sound(path, b"old")
    }
}

/// One that can't be opened.
fn locked<'a>(path: &'a str, kind: Kind, why: ErrorKind) -> StoredFile<'a> {
    StoredFile {
        locked: Some(why),
        ..stored(path, kind)
    }
}

/// The folder takes no new file.
const LOCKED: NewFiles = NewFiles {
    locked: Some(("", ErrorKind::PermissionDenied)),
    ..SOUND
};

/// There is no room for a new file.
const CROWDED: NewFiles = NewFiles {
    locked: Some(("", ErrorKind::StorageFull)),
    ..SOUND
};

/// There is no memory for one.
const POOR: NewFiles = NewFiles {
    locked: Some(("", ErrorKind::OutOfMemory)),
    ..SOUND
};

/// There is no memory for that of the map.
const MAP_POOR: NewFiles = NewFiles {
    locked: Some((".a.map", ErrorKind::OutOfMemory)),
    ..SOUND
};

/// There is no folder `no`.
const NO_FOLDER: NewFiles = NewFiles {
    locked: Some(("no/", ErrorKind::NotFound)),
    ..SOUND
};

/// The disk is full in the middle of the image.
const TORN: NewFiles = NewFiles {
    torn: Some((".a.out", 100, ErrorKind::StorageFull)),
    ..SOUND
};

/// The disk is full in the middle of the map.
const MAP_TORN: NewFiles = NewFiles {
    torn: Some((".a.map", 10, ErrorKind::StorageFull)),
    ..SOUND
};

/// What is at the image's path can't be replaced.
const IMAGE_TAKEN: NewFiles = NewFiles {
    bound: Some(("a.out", ErrorKind::IsADirectory)),
    ..SOUND
};

/// What is at the map's path can't be replaced.
const MAP_TAKEN: NewFiles = NewFiles {
    bound: Some(("a.map", ErrorKind::IsADirectory)),
    ..SOUND
};

/// The same, for want of memory.
const IMAGE_POOR: NewFiles = NewFiles {
    bound: Some(("a.out", ErrorKind::OutOfMemory)),
    ..SOUND
};

/// Something is at the image's path that nothing can replace, and that isn't what was there before.
const IMAGE_HELD: NewFiles = NewFiles {
    bound: Some(("a.out", ErrorKind::ResourceBusy)),
    ..SOUND
};

/// What is at the image's path is on another file system, or may not be replaced.
const IMAGE_ELSEWHERE: NewFiles = NewFiles {
    bound: Some(("a.out", ErrorKind::CrossesDevices)),
    ..SOUND
};

const IMAGE_DENIED: NewFiles = NewFiles {
    bound: Some(("a.out", ErrorKind::PermissionDenied)),
    ..SOUND
};

/// Every other write is interrupted.
const INTERRUPTED: NewFiles = NewFiles {
    interrupts: true,
    ..SOUND
};

/// Each takes a byte a write.
const SLOW: NewFiles = NewFiles { step: 1, ..SOUND };

/// Lines, how new files answer, all that comes of a run but the bytes of files, and the paths of
/// what it leaves.
static ROWS: [(&str, NewFiles, &str, &str); 38] = [
    // The old image and the old map are replaced once both new ones are whole.
    (
        "-s a.o",
        SLOW,
        "stat a.out\nread a.o\nopen a.out\nnew .a.out.ld-0\nmode 100755\nrename .a.out.ld-0 to a.out\nout: \nerr: \nstatus 0",
        "a.out ",
    ),
    (
        "-s a.o",
        INTERRUPTED,
        "stat a.out\nread a.o\nopen a.out\nnew .a.out.ld-0\nmode 100755\nrename .a.out.ld-0 to a.out\nout: \nerr: \nstatus 0",
        "a.out ",
    ),
    (
        "-s a.o -Map=a.map",
        SOUND,
        "stat a.out\nstat a.map\nread a.o\nopen a.out\nnew .a.out.ld-0\nmode 100755\nopen a.map\nnew .a.map.ld-0\nrename .a.out.ld-0 to a.out\nrename .a.map.ld-0 to a.map\nout: \nerr: \nstatus 0",
        "a.out a.map ",
    ),
    (
        "-s a.o -o both -Map=both",
        SOUND,
        "stat both\nstat both\nread a.o\nopen both\nnew .both.ld-0\nmode 100755\nopen both\nnew .both.ld-0\nnew .both.ld-1\nrename .both.ld-0 to both\nrename .both.ld-1 to both\nout: \nerr: \nstatus 0",
        "both ",
    ),
    // A new file is in the folder of its path.
    (
        "-s a.o -o bin/start",
        SOUND,
        "stat bin/start\nread a.o\nopen bin/start\nnew bin/.start.ld-0\nmode 100755\nrename bin/.start.ld-0 to bin/start\nout: \nerr: \nstatus 0",
        "bin/start ",
    ),
    (
        "-s a.o -o /start",
        SOUND,
        "stat /start\nread a.o\nopen /start\nnew /.start.ld-0\nmode 100755\nrename /.start.ld-0 to /start\nout: \nerr: \nstatus 0",
        "/start ",
    ),
    (
        "-s a.o -o /dev/shm/start",
        SOUND,
        "stat /dev/shm/start\nread a.o\nlink /dev/shm/start\nopen /dev/shm/start\nnew /dev/shm/.start.ld-0\nmode 100755\nrename /dev/shm/.start.ld-0 to /dev/shm/start\nout: \nerr: \nstatus 0",
        "/dev/shm/start ",
    ),
    // A name that something has is left alone.
    (
        "-s a.o -o full/start",
        SOUND,
        "stat full/start\nread a.o\nopen full/start\nnew full/.start.ld-0\nnew full/.start.ld-1\nmode 100755\nrename full/.start.ld-1 to full/start\nout: \nerr: \nstatus 0",
        "full/start ",
    ),
    (
        "-s a.o -o full/third",
        SOUND,
        "stat full/third\nread a.o\nopen full/third\nnew full/.third.ld-0\nnew full/.third.ld-1\nnew full/.third.ld-2\nmode 100755\nrename full/.third.ld-2 to full/third\nout: \nerr: \nstatus 0",
        "full/third ",
    ),
    // After a fault nothing new is left, and what was there is.
    (
        "-s a.o -Map=a.map",
        CROWDED,
        "stat a.out\nstat a.map\nread a.o\nopen a.out\nnew .a.out.ld-0\nout: \nerr: ld: cannot write a.out\n\nstatus 3",
        "",
    ),
    (
        "-s a.o -Map=a.map",
        POOR,
        "stat a.out\nstat a.map\nread a.o\nopen a.out\nnew .a.out.ld-0\nout: \nerr: ld: Memory (1)\n\nstatus 4",
        "",
    ),
    // A file whose folder takes no new one would be written as it is, but this one has no number by which it is known again.
    (
        "-s a.o -Map=a.map",
        LOCKED,
        "stat a.out\nstat a.map\nread a.o\nopen a.out\nnew .a.out.ld-0\nopen a.out\nout: \nerr: ld: cannot write a.out\n\nstatus 3",
        "",
    ),
    (
        "-s a.o -Map=a.map",
        TORN,
        "stat a.out\nstat a.map\nread a.o\nopen a.out\nnew .a.out.ld-0\nremove .a.out.ld-0\nout: \nerr: ld: cannot write a.out\n\nstatus 3",
        "",
    ),
    (
        "-s a.o",
        IMAGE_TAKEN,
        "stat a.out\nread a.o\nopen a.out\nnew .a.out.ld-0\nmode 100755\nrename .a.out.ld-0 to a.out\nremove .a.out.ld-0\nout: \nerr: ld: cannot write a.out\n\nstatus 3",
        "",
    ),
    (
        "-s a.o -Map=a.map",
        IMAGE_TAKEN,
        "stat a.out\nstat a.map\nread a.o\nopen a.out\nnew .a.out.ld-0\nmode 100755\nopen a.map\nnew .a.map.ld-0\nrename .a.out.ld-0 to a.out\nremove .a.out.ld-0\nremove .a.map.ld-0\nout: \nerr: ld: cannot write a.out\n\nstatus 3",
        "",
    ),
    (
        "-s a.o",
        IMAGE_POOR,
        "stat a.out\nread a.o\nopen a.out\nnew .a.out.ld-0\nmode 100755\nrename .a.out.ld-0 to a.out\nremove .a.out.ld-0\nout: \nerr: ld: Memory (1)\n\nstatus 4",
        "",
    ),
    // The same of a file that nothing can replace.
    (
        "-s a.o",
        IMAGE_HELD,
        "stat a.out\nread a.o\nopen a.out\nnew .a.out.ld-0\nmode 100755\nrename .a.out.ld-0 to a.out\nread .a.out.ld-0\nremove .a.out.ld-0\nout: \nerr: ld: cannot write a.out\n\nstatus 3",
        "",
    ),
    (
        "-s a.o",
        IMAGE_ELSEWHERE,
        "stat a.out\nread a.o\nopen a.out\nnew .a.out.ld-0\nmode 100755\nrename .a.out.ld-0 to a.out\nread .a.out.ld-0\nremove .a.out.ld-0\nout: \nerr: ld: cannot write a.out\n\nstatus 3",
        "",
    ),
    (
        "-s a.o",
        IMAGE_DENIED,
        "stat a.out\nread a.o\nopen a.out\nnew .a.out.ld-0\nmode 100755\nrename .a.out.ld-0 to a.out\nread .a.out.ld-0\nremove .a.out.ld-0\nout: \nerr: ld: cannot write a.out\n\nstatus 3",
        "",
    ),
    // Where memory is refused for the map there is no image either.
    (
        "-s a.o -Map=a.map",
        MAP_POOR,
        "stat a.out\nstat a.map\nread a.o\nopen a.out\nnew .a.out.ld-0\nmode 100755\nopen a.map\nnew .a.map.ld-0\nremove .a.out.ld-0\nout: \nerr: ld: Memory (1)\n\nstatus 4",
        "",
    ),
    // Where the map can't be written or get its name for another reason, the image has got its own.
    (
        "-s a.o -Map=a.map",
        MAP_TORN,
        "stat a.out\nstat a.map\nread a.o\nopen a.out\nnew .a.out.ld-0\nmode 100755\nopen a.map\nnew .a.map.ld-0\nremove .a.map.ld-0\nrename .a.out.ld-0 to a.out\nout: \nerr: ld: cannot write a.map\n\nstatus 3",
        "a.out ",
    ),
    (
        "-s a.o -Map=no/m.map",
        NO_FOLDER,
        "stat a.out\nstat no/m.map\nread a.o\nopen a.out\nnew .a.out.ld-0\nmode 100755\nopen no/m.map\nnew no/.m.map.ld-0\nrename .a.out.ld-0 to a.out\nout: \nerr: ld: cannot write no/m.map\n\nstatus 3",
        "a.out ",
    ),
    (
        "-s a.o -Map=a.map",
        MAP_TAKEN,
        "stat a.out\nstat a.map\nread a.o\nopen a.out\nnew .a.out.ld-0\nmode 100755\nopen a.map\nnew .a.map.ld-0\nrename .a.out.ld-0 to a.out\nrename .a.map.ld-0 to a.map\nremove .a.map.ld-0\nout: \nerr: ld: cannot write a.map\n\nstatus 3",
        "a.out ",
    ),
    // A file that may not be written, and a program that runs, are replaced.
    (
        "-s a.o -o readonly",
        SOUND,
        "stat readonly\nread a.o\nopen readonly\nstat readonly\nnew .readonly.ld-0\nmode 100755\nrename .readonly.ld-0 to readonly\nout: \nerr: \nstatus 0",
        "readonly ",
    ),
    (
        "-s a.o -o running",
        SOUND,
        "stat running\nread a.o\nopen running\nstat running\nnew .running.ld-0\nmode 100755\nrename .running.ld-0 to running\nout: \nerr: \nstatus 0",
        "running ",
    ),
    // What is no regular file is written as it is, and has its mode.
    (
        "-s a.o -o shut",
        SOUND,
        "stat shut\nread a.o\nopen shut\nstat shut\nout: \nerr: ld: cannot write shut\n\nstatus 3",
        "",
    ),
    (
        "-s a.o -o /proc/self/fd/1",
        SOUND,
        "stat /proc/self/fd/1\nread a.o\nlink /proc/self/fd/1\nappend /proc/self/fd/1\nout: \nerr: \nstatus 0",
        "/proc/self/fd/1 ",
    ),
    (
        "-s a.o -o null -Map=a.map",
        SOUND,
        "stat null\nstat a.map\nread a.o\nopen null\nopen a.map\nnew .a.map.ld-0\nrename .a.map.ld-0 to a.map\nout: \nerr: \nstatus 0",
        "null a.map ",
    ),
    (
        "-s a.o -Map=/dev/stdout",
        SOUND,
        "stat a.out\nstat /dev/stdout\nread a.o\nopen a.out\nnew .a.out.ld-0\nmode 100755\nlink /dev/stdout\nappend /dev/stdout\nrename .a.out.ld-0 to a.out\nout: \nerr: \nstatus 0",
        "/dev/stdout a.out ",
    ),
    (
        "-s a.o -o /dev/fd/9",
        SOUND,
        "stat /dev/fd/9\nread a.o\nlink /dev/fd/9\nappend /dev/fd/9\nout: \nerr: ld: cannot write /dev/fd/9\n\nstatus 3",
        "",
    ),
    (
        "-s a.o -o drained",
        SOUND,
        "stat drained\nread a.o\nopen drained\nout: \nerr: ld: cannot write drained\n\nstatus 3",
        "drained ",
    ),
    (
        "-s a.o -Map=drained",
        SOUND,
        "stat a.out\nstat drained\nread a.o\nopen a.out\nnew .a.out.ld-0\nmode 100755\nopen drained\nrename .a.out.ld-0 to a.out\nout: \nerr: ld: cannot write drained\n\nstatus 3",
        "drained a.out ",
    ),
    (
        "-s a.o -Map=folder",
        SOUND,
        "stat a.out\nstat folder\nread a.o\nopen a.out\nnew .a.out.ld-0\nmode 100755\nopen folder\nrename .a.out.ld-0 to a.out\nout: \nerr: ld: cannot write folder\n\nstatus 3",
        "a.out ",
    ),
    // An input is no output. A link that is refused for that makes nothing, whatever else is wrong
    // with it.
    (
        "-s a.o -o a.o",
        SOUND,
        "stat a.o\nread a.o\nout: \nerr: ld: cannot write a.o\n\nstatus 3",
        "",
    ),
    // Also where other files are read before and after it.
    (
        "-s b.o a.o c.o -o a.o",
        SOUND,
        "stat a.o\nread b.o\nread a.o\nread c.o\nout: \nerr: ld: cannot write a.o\n\nstatus 3",
        "",
    ),
    (
        "gone.o a.o -Map=a.o -e x",
        SOUND,
        "stat a.out\nstat a.o\nread gone.o\nread a.o\nout: \nerr: ld: cannot write a.o\n\nstatus 3",
        "",
    ),
    // A check writes nothing, so its image and its map may be inputs.
    (
        "-s a.o --check -Map=a.o",
        SOUND,
        "read a.o\nread a.out\nread a.o\nout: no C1\n\nerr: \nstatus 1",
        "",
    ),
    // What is refused for another reason makes nothing either.
    (
        "a.o a.o -Map=a.map",
        SOUND,
        "stat a.out\nstat a.map\nread a.o\nout: \nerr: ld: Duplicate (9): _start\n\nstatus 1",
        "",
    ),
];

/// What comes of a line: all but the bytes of files, and the paths of the files that were made and
/// are left.
fn outcome(alloc: Global, line: &str, new_files: NewFiles) -> Result<(String, String), Fail> {
    let stored = [
        StoredFile::sound("a.o", &OBJECT),
        StoredFile::sound("b.o", &OBJECT),
        StoredFile::sound("c.o", &OBJECT),
        stored("a.out", Kind::Regular),
        stored("a.map", Kind::Regular),
        stored("/dev/shm/start", Kind::Regular),
        stored("full/.start.ld-0", Kind::Regular),
        stored("full/.third.ld-0", Kind::Regular),
        stored("full/.third.ld-1", Kind::Regular),
        stored("null", Kind::Device),
        stored("folder", Kind::Folder),
        stored("/dev/stdout", Kind::Link),
        stored("/proc/self/fd/1", Kind::Link),
        locked("readonly", Kind::Regular, ErrorKind::PermissionDenied),
        locked("running", Kind::Regular, ErrorKind::ExecutableFileBusy),
        locked("shut", Kind::Device, ErrorKind::PermissionDenied),
        stored("/dev/fd/9", Kind::Dangling),
        StoredFile {
            torn: Some((1, ErrorKind::StorageFull)),
            ..stored("drained", Kind::Device)
        },
    ];
    let run = run_line_with(alloc, &stored, new_files, line)?;
    let mut paths = String::new(alloc);
    for file in &run.made {
        paths.push_str(&file.name)?;
        paths.push_str(" ")?;
    }
    Ok((run.told, paths))
}

#[test]
fn outputs_are_whole_or_not_there(rt: HostRuntime) -> Result<(), Fail> {
    for (line, new_files, wanted, left) in &ROWS {
        let (told, paths) = outcome(rt.alloc(), line, *new_files)?;
        assert_eq!(rt; told.as_str(), *wanted, "{line}");
        assert_eq!(rt; paths.as_str(), *left, "{line}");
    }
    Ok(())
}

#[test]
fn the_file_of_one_path_is_the_map(rt: HostRuntime) -> Result<(), Fail> {
    let stored = [StoredFile::sound("a.o", &OBJECT)];
    for program in [Program::Ld, Program::Debug] {
        let line = "-s a.o -o both -Map=both";
        let run = run_program_line(rt.alloc(), program, &stored, SOUND, line)?;
        let [both] = run.made.as_slice() else {
            return Err(Fail::from("one file"));
        };
        assert_eq!(rt; both.name.as_str(), "both");
        assert!(rt; both.bytes.as_slice() == MAP);
    }
    Ok(())
}
