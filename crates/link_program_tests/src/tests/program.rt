//! Runs of the whole program, over files in a folder of each test's own.
use ld_main::run_ld;
use link_samples::objects::{NamedSymbol, Relocation, object, relocatable};
use link_samples::one_object::{function, words_of};
use link_samples::parts::{NO_F, R_PC32, START, TEXT};
use link_samples::vectors::{MAP, OBJECT, image};
use std::fs::Permissions;
use std::io::{self, Write};
use std::os::unix::fs::PermissionsExt;
use std::path::PathBuf;
use std::process::Abort;
use std::random::RandomSource;
use std::rt::Files;
use std::test::Fail;
use std::{env, fs, process};

/// Makes a folder, with the row's `a.o` in it, and goes there.
fn enter_folder(rt: &HostRuntime, name: &str) -> Result<PathBuf, Fail> {
    let process = process::id(rt.process());
    let name = format!(in rt.alloc(); "ld-{name}-{process}")?;
    let folder = env::temp_dir(rt)?.join(rt.alloc(), &name)?;
    fs::create_dir(rt, &folder)?;
    env::set_current_dir(rt, &folder)?;
    fs::write(rt, "a.o", &OBJECT)?;
    Ok(folder)
}

/// Removes a folder, and all in it.
fn leave_folder(rt: &HostRuntime, folder: &PathBuf) -> Result<(), Fail> {
    env::set_current_dir(rt, "/")?;
    fs::remove_dir_all(rt, folder)?;
    Ok(())
}

/// Asserts the exit status of a command line, and what it prints on each stream.
fn assert_run<R: Files + AllocGlobal + RandomSource + Abort>(
    rt: &R,
    line: &str,
    status: u8,
    printed: &str,
    complaint: &str,
) -> Result<(), Fail> {
    let words = words_of(rt.alloc(), line)?;
    let mut out = Vec::new(rt.alloc());
    let mut err = Vec::new(rt.alloc());
    let answered = run_ld(rt, &words, &mut out, &mut err);
    assert_eq!(rt; String::from_utf8(err)?.as_str(), complaint, "{line}");
    assert_eq!(rt; String::from_utf8(out)?.as_str(), printed, "{line}");
    assert_eq!(rt; answered, status, "{line}");
    Ok(())
}

/// Asserts that a file is the image of `a.o`.
fn assert_image<R: Files + AllocGlobal + Abort>(rt: &R, path: &str) -> Result<(), Fail> {
    assert!(rt; fs::read(rt, path)? == image(rt.alloc())?, "{path}");
    Ok(())
}

#[test]
fn links_and_checks(rt: HostRuntime) -> Result<(), Fail> {
    let folder = enter_folder(&rt, "links")?;
    assert_run(&rt, "-s a.o", 0, "", "")?;
    assert_image(&rt, "a.out")?;
    assert_run(&rt, "-s a.o -o start -Map=start.map", 0, "", "")?;
    assert_image(&rt, "start")?;
    assert!(rt; fs::read(&rt, "start.map")?.as_slice() == MAP);
    assert_run(
        &rt,
        "-s a.o -o start -Map=start.map --check",
        0,
        "yes\n",
        "",
    )?;
    assert_run(
        &rt,
        "-s b.o -o start -Map=start.map --check",
        1,
        "no C2\n",
        "",
    )?;
    fs::write(&rt, "start.map", MAP.strip_suffix(b"end\n").ok_or("a map")?)?;
    assert_run(
        &rt,
        "-s a.o -o start -Map=start.map --check",
        1,
        "no C1\n",
        "",
    )?;
    leave_folder(&rt, &folder)
}

/// Writes an object with a text and symbols.
fn write_object(rt: &HostRuntime, path: &str, symbols: &[NamedSymbol<'_>]) -> Result<(), Fail> {
    let bytes = object(rt.alloc(), &[TEXT], symbols)?;
    fs::write(rt, path, &bytes)?;
    Ok(())
}

/// Writes an object that defines `_start`, and a name twice.
fn write_twice(rt: &HostRuntime, path: &str, name: &str) -> Result<(), Fail> {
    let symbols = [START, function(name), function(name)];
    write_object(rt, path, &symbols)
}

/// Writes `caller.o`, an object that uses `f` and doesn't define it.
fn write_caller(rt: &HostRuntime) -> Result<(), Fail> {
    let distance = Relocation(1, 0, R_PC32, 2, 0);
    let bytes = relocatable(rt.alloc(), &[TEXT], &[START, NO_F], &[distance])?;
    fs::write(rt, "caller.o", &bytes)?;
    Ok(())
}

#[test]
fn refuses_words_and_links(rt: HostRuntime) -> Result<(), Fail> {
    let folder = enter_folder(&rt, "refuses")?;
    fs::write(&rt, "cut.o", &OBJECT[..63])?;
    write_object(&rt, "nameless.o", &[function("")])?;
    write_twice(&rt, "twice.o", "f")?;
    write_twice(&rt, "spaced.o", "f g")?;
    write_caller(&rt)?;
    fs::write(&rt, "thin.a", "!<thin>\n".as_bytes())?;
    let words = [
        ("", "ld: Command (2): NoInput (6)\n"),
        ("a.o -o", "ld: Command (2): MissingValue (3)\n"),
        ("a.o --check", "ld: Command (2): MissingValue (3)\n"),
        ("a.o -oout", "ld: Command (2): UnknownOption (2)\n"),
    ];
    for (line, complaint) in words {
        assert_run(&rt, line, 2, "", complaint)?;
    }
    let rows = [
        ("cut.o", "ld: BadObject (4): Truncated (2)\n"),
        ("nameless.o", "ld: BadSymbol (21)\n"),
        ("a.o a.o", "ld: Duplicate (9): _start\n"),
        ("a.o thin.a", "ld: BadArchive (5): NotArchive (2)\n"),
        ("twice.o", "ld: Duplicate (9): f\n"),
        ("spaced.o", "ld: Duplicate (9): f\\x20g\n"),
        ("caller.o", "ld: Undefined (10): f\n"),
        ("a.o -e x", "ld: NoEntry (18)\n"),
    ];
    for (line, complaint) in rows {
        assert_run(&rt, line, 1, "", complaint)?;
    }
    assert!(rt; !fs::exists(&rt, "a.out")?);
    leave_folder(&rt, &folder)
}

#[test]
fn tells_faults_of_files(rt: HostRuntime) -> Result<(), Fail> {
    let folder = enter_folder(&rt, "files")?;
    fs::create_dir(&rt, "d.o")?;
    let rows = [
        ("b.o", "ld: FileMissing (3)\n"),
        ("a.o b.a", "ld: FileMissing (3)\n"),
        ("d.o", "ld: cannot read d.o\n"),
        ("b.o d.o", "ld: cannot read d.o\n"),
        ("a.o --check -Map=start.map", "ld: cannot read a.out\n"),
        ("a.o -o d.o", "ld: cannot write d.o\n"),
        (
            "-s a.o -Map=no/start.map",
            "ld: cannot write no/start.map\n",
        ),
        ("a.o -o /dev/full", "ld: cannot write /dev/full\n"),
        (
            "a.o -o /dev/full -Map=full.map",
            "ld: cannot write /dev/full\n",
        ),
        (
            "a.o --check -Map=no/start.map -o a.o",
            "ld: cannot read no/start.map\n",
        ),
    ];
    for (line, complaint) in rows {
        assert_run(&rt, line, 3, "", complaint)?;
    }
    // The image is there and whole where its map can't be written, and no map is where the image can't be.
    assert_image(&rt, "a.out")?;
    assert!(rt; !fs::exists(&rt, "full.map")?);
    leave_folder(&rt, &folder)
}

#[test]
fn images_may_be_run_by_those_who_may_read_them(rt: HostRuntime) -> Result<(), Fail> {
    let folder = enter_folder(&rt, "mode")?;
    // `a.o` has the mode that the umask leaves of a file.
    let plain = fs::metadata(&rt, "a.o")?.permissions().mode() & 0o777;
    let after = plain | (plain & 0o444) >> 2;
    let rows = [0o644, 0o600, 0o444, 0o000];
    for before in rows {
        fs::write(&rt, "old", b"")?;
        fs::set_permissions(&rt, "old", Permissions::from_mode(before))?;
        fs::rename(&rt, "old", "a.out")?;
        assert_run(&rt, "a.o", 0, "", "")?;
        let mode = fs::metadata(&rt, "a.out")?.permissions().mode() & 0o777;
        assert_eq!(rt; mode, after, "{before:o}");
    }
    leave_folder(&rt, &folder)
}

/// A stream that takes nothing.
#[derive(Clone, Copy, Debug)]
struct Closed;

impl Write for Closed {
    fn write(&mut self, _bytes: &[u8]) -> io::Result<usize> {
        Err(io::Error::from(io::ErrorKind::BrokenPipe))
    }

    fn flush(&mut self) -> io::Result<()> {
        Ok(())
    }
}

/// The exit status of a command line whose streams take nothing.
fn silent_status<R: Files + AllocGlobal + RandomSource>(rt: &R, line: &str) -> Result<u8, Fail> {
    let words = words_of(rt.alloc(), line)?;
    Ok(run_ld(rt, &words, &mut Closed, &mut Closed))
}

#[test]
fn streams_that_fail_change_no_status(rt: HostRuntime) -> Result<(), Fail> {
    let folder = enter_folder(&rt, "closed")?;
    let rows = [
        ("a.o -o start -Map=start.map", 0),
        ("a.o -o start -Map=start.map --check", 0),
        ("b.o -o start -Map=start.map --check", 1),
        ("a.o -e x", 1),
        ("a.o -o", 2),
        ("b.o", 3),
    ];
    for (line, status) in rows {
        assert_eq!(rt; silent_status(&rt, line)?, status, "{line}");
    }
    leave_folder(&rt, &folder)
}
