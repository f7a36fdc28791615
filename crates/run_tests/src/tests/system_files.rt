//! The program on the files of the system: which are replaced, which are written as they are, and
//! which are refused.
use file_io::{OutputPath, file_id, make_executable, overwritten};
use ld_main::run_ld;
use link_samples::objects::{Section, relocatable};
use link_samples::one_object::words_of;
use link_samples::parts::{DATA, START, TEXT};
use link_samples::vectors::{OBJECT, image};
use std::fs;
use std::fs::{File, Permissions};
use std::os::unix::fs::{FileTypeExt, MetadataExt, PermissionsExt, symlink};
use std::random::RandomSource;
use std::rt::Files;
use std::test::Fail;

/// The status of a run with the words of a line, and what is on standard error.
fn run<R: Files + AllocGlobal + RandomSource>(rt: &R, line: &str) -> Result<(u8, String), Fail> {
    let words = words_of(rt.alloc(), line)?;
    let mut out = Vec::new(rt.alloc());
    let mut err = Vec::new(rt.alloc());
    let status = run_ld(rt, &words, &mut out, &mut err);
    Ok((status, String::from_utf8(err)?))
}

/// Makes a folder with an object.
fn prepare<R: Files + AllocGlobal>(rt: &R, folder: &str, object: &[u8]) -> Result<(), Fail> {
    let _ = fs::remove_dir_all(rt, folder);
    fs::create_dir(rt, folder)?;
    let path = format!(in rt.alloc(); "{folder}/a.o")?;
    fs::write(rt, &path, object)?;
    Ok(())
}

/// Whether a file holds so many bytes, and these.
fn holds<R: Files + AllocGlobal>(rt: &R, path: &str, bytes: &[u8]) -> Result<bool, Fail> {
    Ok(fs::read(rt, path)?.as_slice() == bytes)
}

/// Lines by which an input would be written: by its own name, by another spelling of its path, by a
/// second link, by a symbolic link; as the image and as the map.
static INPUTS: [(&str, &str); 8] = [
    ("in_files/a.o in_files/b.o -o in_files/a.o", "in_files/a.o"),
    (
        "in_files/b.o in_files/a.o -o in_files/start -Map=in_files/second.o",
        "in_files/second.o",
    ),
    ("in_files/a.o -o in_files/a.o", "in_files/a.o"),
    ("in_files/a.o -o ./in_files/a.o", "./in_files/a.o"),
    ("in_files/a.o -o in_files/second.o", "in_files/second.o"),
    ("in_files/second.o -o in_files/a.o", "in_files/a.o"),
    ("in_files/a.o -o in_files/symbolic.o", "in_files/symbolic.o"),
    (
        "in_files/a.o -o in_files/start -Map=in_files/second.o",
        "in_files/second.o",
    ),
];

#[test]
fn an_input_is_no_output(rt: HostRuntime) -> Result<(), Fail> {
    prepare(&rt, "in_files", &OBJECT)?;
    fs::write(&rt, "in_files/b.o", OBJECT.as_slice())?;
    fs::hard_link(&rt, "in_files/a.o", "in_files/second.o")?;
    symlink(&rt, "a.o", "in_files/symbolic.o")?;
    for (line, path) in &INPUTS {
        let (status, err) = run(&rt, line)?;
        assert_eq!(rt; status, 3, "{line}");
        assert_eq!(rt; err, format!(in rt.alloc(); "ld: cannot write {path}\n")?);
    }
    assert!(rt; holds(&rt, "in_files/a.o", &OBJECT)?);
    assert!(rt; !fs::exists(&rt, "in_files/start")?);
    fs::remove_dir_all(&rt, "in_files")?;
    Ok(())
}

#[test]
fn an_old_output_is_replaced(rt: HostRuntime) -> Result<(), Fail> {
    prepare(&rt, "out_files", &OBJECT)?;
    let image = image(rt.alloc())?;
    fs::write(&rt, "out_files/start", b"old".as_slice())?;
    fs::set_permissions(&rt, "out_files/start", Permissions::from_mode(0o444))?;
    fs::hard_link(&rt, "out_files/start", "out_files/kept")?;
    symlink(&rt, "kept", "out_files/link")?;
    symlink(&rt, "gone", "out_files/nowhere")?;
    for path in &["start", "link", "nowhere"] {
        let line = format!(in rt.alloc();
            "-s out_files/a.o -o out_files/{path} -Map=out_files/{path}.map"
        )?;
        let (status, err) = run(&rt, &line)?;
        assert_eq!(rt; status, 0, "{err}");
        let path = format!(in rt.alloc(); "out_files/{path}")?;
        assert!(rt; holds(&rt, &path, &image)?, "{path}");
        assert!(rt; fs::symlink_metadata(&rt, &path)?.is_file(), "{path}");
        let mode = fs::metadata(&rt, &path)?.mode();
        let map = format!(in rt.alloc(); "{path}.map")?;
        let plain = fs::metadata(&rt, &map)?.mode();
        assert_eq!(rt; mode, plain | (plain & 0o444) >> 2, "{path}");
    }
    assert!(rt; holds(&rt, "out_files/kept", b"old")?);
    assert!(rt; !fs::exists(&rt, "out_files/gone")?);
    let mut count = 0u32;
    for _entry in fs::read_dir(&rt, "out_files")? {
        count = count.saturating_add(1);
    }
    assert_eq!(rt; count, 8);
    fs::remove_dir_all(&rt, "out_files")?;
    Ok(())
}

/// Two names of one file, as a second link and as a symbolic one.
static NAMES_OF_ONE: [(&str, &str); 2] = [
    ("two_files/one", "two_files/second"),
    ("two_files/one", "two_files/symbolic"),
];

#[test]
fn two_names_of_one_file_get_the_image_and_the_map(rt: HostRuntime) -> Result<(), Fail> {
    prepare(&rt, "two_files", &OBJECT)?;
    let image = image(rt.alloc())?;
    fs::write(&rt, "two_files/one", b"old".as_slice())?;
    fs::hard_link(&rt, "two_files/one", "two_files/second")?;
    symlink(&rt, "one", "two_files/symbolic")?;
    for (start, map) in &NAMES_OF_ONE {
        let line = format!(in rt.alloc(); "-s two_files/a.o -o {start} -Map={map}")?;
        let (status, err) = run(&rt, &line)?;
        assert_eq!(rt; status, 0, "{err}");
        assert!(rt; holds(&rt, start, &image)?, "{line}");
        let check = format!(in rt.alloc(); "{line} --check")?;
        let (verdict, _) = run(&rt, &check)?;
        assert_eq!(rt; verdict, 0, "{line}");
    }
    fs::remove_dir_all(&rt, "two_files")?;
    Ok(())
}

/// Lines whose output is a device, a folder or nowhere; what becomes of them.
static DEVICES: [(&str, u8, &str); 6] = [
    ("-s dev_files/a.o -o /dev/null", 0, ""),
    ("-s dev_files/a.o -o dev_files/start -Map=/dev/null", 0, ""),
    (
        "-s dev_files/a.o -o /dev/full",
        3,
        "ld: cannot write /dev/full\n",
    ),
    (
        "-s dev_files/a.o -o dev_files/start -Map=/dev/full",
        3,
        "ld: cannot write /dev/full\n",
    ),
    (
        "-s dev_files/a.o -o dev_files",
        3,
        "ld: cannot write dev_files\n",
    ),
    (
        "-s dev_files/a.o -o dev_files/start -Map=dev_files/no/m.map",
        3,
        "ld: cannot write dev_files/no/m.map\n",
    ),
];

#[test]
fn a_device_stays_one(rt: HostRuntime) -> Result<(), Fail> {
    prepare(&rt, "dev_files", &OBJECT)?;
    let before = fs::metadata(&rt, "/dev/null")?;
    for (line, wanted, told) in &DEVICES {
        let (status, err) = run(&rt, line)?;
        assert_eq!(rt; status, *wanted, "{line}");
        assert_eq!(rt; err.as_str(), *told);
    }
    let after = fs::metadata(&rt, "/dev/null")?;
    assert!(rt; after.file_type().is_char_device());
    assert_eq!(rt; after.mode(), before.mode());
    fs::remove_dir_all(&rt, "dev_files")?;
    Ok(())
}

#[test]
fn pages_of_zeros_take_no_room(rt: HostRuntime) -> Result<(), Fail> {
    let data = Section {
        sh_addralign: 1 << 21,
        bytes: &[1; 8],
        ..DATA
    };
    let far = relocatable(rt.alloc(), &[TEXT, data], &[START], &[])?;
    prepare(&rt, "far_files", &far)?;
    let (status, _) = run(&rt, "-s far_files/a.o -o far_files/start")?;
    assert_eq!(rt; status, 0);
    let metadata = fs::metadata(&rt, "far_files/start")?;
    assert_eq!(rt; metadata.len(), 0x20_0008);
    assert!(rt; metadata.blocks() < 256);
    fs::remove_dir_all(&rt, "far_files")?;
    Ok(())
}

#[test]
fn an_image_is_whole_where_its_map_is_not(rt: HostRuntime) -> Result<(), Fail> {
    prepare(&rt, "map_files", &OBJECT)?;
    let image = image(rt.alloc())?;
    for map in &["map_files/no/m.map", "map_files/folder", "/dev/full"] {
        let _ = fs::create_dir(&rt, "map_files/folder");
        let line = format!(in rt.alloc(); "-s map_files/a.o -o map_files/start -Map={map}")?;
        let (status, err) = run(&rt, &line)?;
        assert_eq!(rt; status, 3, "{line}");
        assert_eq!(rt; err, format!(in rt.alloc(); "ld: cannot write {map}\n")?);
        assert!(rt; holds(&rt, "map_files/start", &image)?, "{line}");
        fs::remove_file(&rt, "map_files/start")?;
    }
    fs::remove_dir_all(&rt, "map_files")?;
    Ok(())
}

#[test]
fn a_file_is_written_as_it_is_where_its_folder_takes_no_other(rt: HostRuntime) -> Result<(), Fail> {
    prepare(&rt, "held_files", &OBJECT)?;
    let image = image(rt.alloc())?;
    fs::create_dir(&rt, "held_files/out")?;
    fs::write(&rt, "held_files/out/start", [1; 9000].as_slice())?;
    fs::write(&rt, "held_files/out/a.o", OBJECT.as_slice())?;
    fs::set_permissions(&rt, "held_files/out", Permissions::from_mode(0o555))?;
    let (status, err) = run(&rt, "-s held_files/a.o -o held_files/out/start")?;
    assert_eq!(rt; status, 0, "{err}");
    assert!(rt; holds(&rt, "held_files/out/start", &image)?);
    assert!(rt; fs::metadata(&rt, "held_files/out/start")?.mode() & 0o100 != 0);
    let (status, _) = run(&rt, "held_files/out/a.o -o held_files/out/a.o")?;
    assert_eq!(rt; status, 3);
    assert!(rt; holds(&rt, "held_files/out/a.o", &OBJECT)?);
    fs::set_permissions(&rt, "held_files/out", Permissions::from_mode(0o755))?;
    fs::remove_dir_all(&rt, "held_files")?;
    Ok(())
}

/// Modes of a new file, and those that it gets: those may run it who may read it.
static MODES: [(u32, u32); 4] = [
    (0o600, 0o700),
    (0o640, 0o750),
    (0o644, 0o755),
    (0o604, 0o705),
];

#[test]
fn those_may_run_an_image_who_may_read_it(rt: HostRuntime) -> Result<(), Fail> {
    for (before, after) in &MODES {
        let file = File::create(&rt, "mode_file")?;
        fs::set_permissions(&rt, "mode_file", Permissions::from_mode(*before))?;
        make_executable(&file)?;
        assert_eq!(rt; fs::metadata(&rt, "mode_file")?.mode() & 0o777, *after);
        fs::remove_file(&rt, "mode_file")?;
    }
    Ok(())
}

/// Folders on file systems of their own, each of which has the number 1 there.
static ROOTS: [&str; 2] = ["/proc", "/sys"];

#[test]
fn files_of_two_devices_are_told_apart(rt: HostRuntime) -> Result<(), Fail> {
    let [one, other] = ROOTS;
    let first = fs::metadata(&rt, one)?;
    let second = fs::metadata(&rt, other)?;
    assert_eq!(rt; first.ino(), second.ino());
    let outputs = [OutputPath::new(&rt, one)];
    assert!(rt; overwritten(&outputs, other, file_id(&second)).is_none());
    assert!(rt; overwritten(&outputs, other, file_id(&first)) == Some(one));
    Ok(())
}
