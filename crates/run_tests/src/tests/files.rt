//! The files that a run opens, in order, and what comes of input that answers in another way than a disk mostly does.
use crate::tests::machine::StoredFile;
use crate::tests::runs::{Outcome, run_line};
use link_samples::objects::{Relocation, relocatable};
use link_samples::parts::{NO_F, R_PC32, START, TEXT};
use link_samples::vectors::{MAP, OBJECT, image};
use std::alloc::Global;
use std::io::ErrorKind;
use std::test::Fail;

/// An empty archive.
static ARCHIVE: &[u8] = b"!<arch>\n";

/// The object, but for its path and how it answers.
fn object<'a>(path: &'a str) -> StoredFile<'a> {
    StoredFile::sound(path, &OBJECT)
}

fn locked<'a>(path: &'a str, why: ErrorKind) -> StoredFile<'a> {
    StoredFile {
        locked: Some(why),
        ..object(path)
    }
}

fn torn<'a>(path: &'a str, place: usize, why: ErrorKind) -> StoredFile<'a> {
    StoredFile {
        torn: Some((place, why)),
        ..object(path)
    }
}

fn told<'a>(path: &'a str, told: u64) -> StoredFile<'a> {
    StoredFile {
        told,
        ..object(path)
    }
}

fn slow<'a>(path: &'a str, bytes: &'a [u8], step: usize) -> StoredFile<'a> {
    StoredFile {
        step,
        ..StoredFile::sound(path, bytes)
    }
}

/// What comes of a line on a system with the object in many states, an object that uses `f`, two archives, one of them
/// locked, and the object's image and map, also slow, torn and locked.
fn outcome(alloc: Global, line: &str) -> Result<Outcome, Fail> {
    let image = image(alloc)?;
    let distance = [Relocation(1, 0, R_PC32, 2, 0)];
    let caller = relocatable(alloc, &[TEXT], &[START, NO_F], &distance)?;
    let stored = [
        object("a.o"),
        slow("slow.o", &OBJECT, 1),
        StoredFile {
            step: 7,
            ..told("pipe.o", 0)
        },
        told("grown.o", 100),
        told("shrunk.o", 5000),
        StoredFile::sound("empty.o", &[]),
        StoredFile::sound("caller.o", &caller),
        StoredFile::sound("libs/libx.a", ARCHIVE),
        locked("locked/libx.a", ErrorKind::PermissionDenied),
        locked("locked.o", ErrorKind::PermissionDenied),
        locked("poor.o", ErrorKind::OutOfMemory),
        told("huge.o", u64::MAX),
        torn("torn.o", 100, ErrorKind::Other),
        torn("lost.o", 100, ErrorKind::NotFound),
        torn("drained.o", 100, ErrorKind::OutOfMemory),
        torn("folder.o", 0, ErrorKind::IsADirectory),
        StoredFile::sound("a.out", &image),
        StoredFile::sound("a.map", MAP),
        slow("slow.out", &image, 1000),
        slow("slow.map", MAP, 1),
    ];
    run_line(alloc, &stored, line)
}

/// Lines, and all that comes of a run but the bytes of files.
static ROWS: [(&str, &str); 30] = [
    // A link writes the image and then the map, and nothing else.
    (
        "-s a.o",
        "stat a.out\nread a.o\nopen a.out\nnew .a.out.ld-0\nmode 100755\nrename .a.out.ld-0 to a.out\nout: \nerr: \nstatus 0",
    ),
    (
        "-s a.o -Map=start.map -o start",
        "stat start\nstat start.map\nread a.o\nopen start\nnew .start.ld-0\nmode 100755\nopen start.map\nnew .start.map.ld-0\nrename .start.ld-0 to start\nrename .start.map.ld-0 to start.map\nout: \nerr: \nstatus 0",
    ),
    // Each candidate is read once, in order, wherever it stands in the line; one that isn't there is left out.
    (
        "-s a.o -Lnone -lx -L libs libs/libx.a",
        "stat a.out\nread a.o\nread none/libx.a\nread libs/libx.a\nopen a.out\nnew .a.out.ld-0\nmode 100755\nrename .a.out.ld-0 to a.out\nout: \nerr: \nstatus 0",
    ),
    (
        "a.o a.o",
        "stat a.out\nread a.o\nout: \nerr: ld: Duplicate (9): _start\n\nstatus 1",
    ),
    (
        "gone.o a.o",
        "stat a.out\nread gone.o\nread a.o\nout: \nerr: ld: FileMissing (3)\n\nstatus 3",
    ),
    // A file that may not be read doesn't count as missing, and none is read after it.
    (
        "-s a.o -Llocked -lx -Llibs",
        "stat a.out\nread a.o\nread locked/libx.a\nout: \nerr: ld: cannot read locked/libx.a\n\nstatus 3",
    ),
    (
        "gone.o locked.o a.o",
        "stat a.out\nread gone.o\nread locked.o\nout: \nerr: ld: cannot read locked.o\n\nstatus 3",
    ),
    (
        "folder.o",
        "stat a.out\nread folder.o\nout: \nerr: ld: cannot read folder.o\n\nstatus 3",
    ),
    (
        "torn.o",
        "stat a.out\nread torn.o\nout: \nerr: ld: cannot read torn.o\n\nstatus 3",
    ),
    (
        "lost.o",
        "stat a.out\nread lost.o\nout: \nerr: ld: cannot read lost.o\n\nstatus 3",
    ),
    // Nor does an empty one.
    (
        "empty.o",
        "stat a.out\nread empty.o\nout: \nerr: ld: BadObject (4): Truncated (2)\n\nstatus 1",
    ),
    // Want of memory is told as such.
    (
        "gone.o poor.o",
        "stat a.out\nread gone.o\nread poor.o\nout: \nerr: ld: Memory (1)\n\nstatus 4",
    ),
    (
        "drained.o",
        "stat a.out\nread drained.o\nout: \nerr: ld: Memory (1)\n\nstatus 4",
    ),
    (
        "huge.o",
        "stat a.out\nread huge.o\nout: \nerr: ld: Memory (1)\n\nstatus 4",
    ),
    // Refused words open nothing, a refused link writes nothing.
    (
        "a.o -o",
        "out: \nerr: ld: Command (2): MissingValue (3)\n\nstatus 2",
    ),
    (
        "a.o --check",
        "out: \nerr: ld: Command (2): MissingValue (3)\n\nstatus 2",
    ),
    (
        "a.o -e x -Map=start.map",
        "stat a.out\nstat start.map\nread a.o\nout: \nerr: ld: NoEntry (18)\n\nstatus 1",
    ),
    (
        "caller.o",
        "stat a.out\nread caller.o\nout: \nerr: ld: Undefined (10): f\n\nstatus 1",
    ),
    // A check reads the image and then the map, and writes nothing.
    (
        "-s a.o --check -Map=a.map",
        "read a.o\nread a.out\nread a.map\nout: yes\n\nerr: \nstatus 0",
    ),
    (
        "-s a.o --check -Map=slow.map -o slow.out",
        "read a.o\nread slow.out\nread slow.map\nout: yes\n\nerr: \nstatus 0",
    ),
    (
        "-s gone.o --check -Map=a.map",
        "read gone.o\nread a.out\nread a.map\nout: no C2\n\nerr: \nstatus 1",
    ),
    (
        "-s a.o --check -Map=empty.o",
        "read a.o\nread a.out\nread empty.o\nout: no C1\n\nerr: \nstatus 1",
    ),
    (
        "-s a.o --check -Map=a.map -o empty.o",
        "read a.o\nread empty.o\nread a.map\nout: no C4\n\nerr: \nstatus 1",
    ),
    (
        "-s locked.o --check -Map=a.map",
        "read locked.o\nout: \nerr: ld: cannot read locked.o\n\nstatus 3",
    ),
    (
        "-s a.o --check -Map=a.map -o gone",
        "read a.o\nread gone\nout: \nerr: ld: cannot read gone\n\nstatus 3",
    ),
    (
        "-s a.o --check -Map=gone",
        "read a.o\nread a.out\nread gone\nout: \nerr: ld: cannot read gone\n\nstatus 3",
    ),
    (
        "-s a.o --check -Map=a.map -o torn.o",
        "read a.o\nread torn.o\nout: \nerr: ld: cannot read torn.o\n\nstatus 3",
    ),
    (
        "-s a.o --check -Map=lost.o",
        "read a.o\nread a.out\nread lost.o\nout: \nerr: ld: cannot read lost.o\n\nstatus 3",
    ),
    (
        "-s a.o --check -Map=a.map -o poor.o",
        "read a.o\nread poor.o\nout: \nerr: ld: Memory (1)\n\nstatus 4",
    ),
    (
        "-s a.o --check -Map=drained.o",
        "read a.o\nread a.out\nread drained.o\nout: \nerr: ld: Memory (1)\n\nstatus 4",
    ),
];

#[test]
fn files_are_opened_in_order_and_faults_are_told(rt: HostRuntime) -> Result<(), Fail> {
    for (line, wanted) in &ROWS {
        let told = outcome(rt.alloc(), line)?.told;
        assert_eq!(rt; told.as_str(), *wanted);
    }
    Ok(())
}

/// The image that a link without a symbol table of one object makes, and the map but for the object's path.
fn is_link(alloc: Global, path: &str, run: &Outcome) -> Result<bool, Fail> {
    let [start, map] = run.made.as_slice() else {
        return Ok(false);
    };
    let (head, tail) = str::from_utf8(MAP)?.split_once("a.o").ok_or("a path")?;
    let wanted = format!(in alloc; "{head}{path}{tail}")?;
    Ok(start.bytes == image(alloc)? && map.bytes.as_slice() == wanted.as_bytes())
}

/// Objects that give a byte or seven a read, whose metadata tell no length, too small a one and too large a one.
static SLOW_OBJECTS: [&str; 5] = ["a.o", "slow.o", "pipe.o", "grown.o", "shrunk.o"];

#[test]
fn a_file_is_read_whole_however_it_answers(rt: HostRuntime) -> Result<(), Fail> {
    for path in &SLOW_OBJECTS {
        let line = format!(in rt.alloc(); "-s {path} -o start -Map=start.map")?;
        let run = outcome(rt.alloc(), &line)?;
        assert!(rt; is_link(rt.alloc(), path, &run)?, "{path}");
    }
    Ok(())
}
