//! Files that are written under another name beside their path, and get their own at the end; or what is there, where that is
//! no regular file, or no other file can get its name.
ghost use Rattle.std.specs.Prelude.{◌≡◌, ◌≤◌, None, IfOk, IfSome, length};
ghost use Rattle.std.specs.Io.{StartsWith};
ghost use Rattle.std.specs.Path.{path_buf_bytes};
ghost use Rattle.ld_main.specs.NewFiles.{IsBeside};

use file_io::{OutputPath, make_executable};
use std::alloc::{AllocError, Global};
use std::fs::{File, OpenFile, OpenOptions};
use std::io::{ErrorKind, copy};
use std::path::{Path, PathBuf};
use std::random::RandomSource;
use std::rt::Files;
use std::{fs, io};

/// How many names are tried for a new file.
const NAMES: u64 = 1024;

/// How many bytes of an output's name the name of a new file has at most, since a system takes no names of more than 255.
const MOST_BYTES: usize = 200;

/// The first bytes of a name, in whole characters.
fn front_of(name: &str) -> &str
    ensures front { StartsWith name.now result.now }
    ensures short { length result.now ≤ MOST_BYTES }
{
    for less in 0..4 {
        let end = name.len().min(MOST_BYTES).saturating_sub(less);
        if let Some(front) = name.get(..end) {
            return front;
        }
    }
    ""
}

/// The path of a new file in the folder of a path.
fn path_beside(alloc: Global, path: &str, number: u64) -> Result<PathBuf, AllocError>
    ensures { IfOk result (λ p. IsBeside path.now (path_buf_bytes p)) }
{
    let path = Path::new(path);
    let front = front_of(path.file_name().unwrap_or(""));
    let name = format!(in alloc; ".{front}.ld-{number}")?;
    path.with_file_name(alloc, &name)
}

/// A number that others hardly have; 0 where the system gives no random bytes.
fn first_number<R: RandomSource>(rt: &R) -> u64 {
    let mut bytes = [0u8; 8];
    match rt.fill_bytes(&mut bytes) {
        Ok(()) => u64::from_le_bytes(bytes),
        Err(_) => 0,
    }
}

/// Whether a path is a link by which the system names an open file, such as `/dev/stdout`, be that
/// open or not.
fn is_system_link<R: Files>(rt: &R, path: &str) -> bool {
    if !path.starts_with("/dev/") && !path.starts_with("/proc/") {
        return false;
    }
    match fs::symlink_metadata(rt, path) {
        Ok(metadata) => metadata.is_symlink(),
        Err(_) => false,
    }
}

/// What such a link leads to, opened to be written behind what it has.
fn open_link<R: Files>(rt: &R, path: &str) -> io::Result<R::File> {
    let mut options = OpenOptions::new();
    options.append(true);
    options.open(rt, path)
}

/// Opens what is at a path to be written, and neither makes nor cuts it.
fn open_there<R: Files>(rt: &R, path: &str) -> io::Result<R::File> {
    let mut options = OpenOptions::new();
    options.write(true);
    options.open(rt, path)
}

/// Whether an open file is a regular one, as far as the system tells.
fn is_regular<F: OpenFile>(file: &F) -> bool {
    match file.metadata() {
        Ok(metadata) => metadata.is_file(),
        Err(_) => false,
    }
}

/// Whether there is something at a path that is no regular file.
fn is_special<R: Files>(rt: &R, path: &str) -> bool {
    match fs::metadata(rt, path) {
        Ok(metadata) => !metadata.is_file(),
        Err(_) => false,
    }
}

/// What is at a path, open to be written as it is: what a system's link leads to, a device, a pipe or another thing that is no
/// regular file. None where there is nothing, or a regular file, which is judged by the open file itself: what has its path
/// meanwhile is left alone.
///
/// # Errors
///
/// As the system answers, where there is such a thing and it can't be opened.
fn open_special<R: Files>(rt: &R, path: &str) -> io::Result<Option<R::File>> {
    if is_system_link(rt, path) {
        return Ok(Some(open_link(rt, path)?));
    }
    let error = match open_there(rt, path) {
        Ok(file) => return Ok((!is_regular(&file)).then_some(file)),
        Err(error) => error,
    };
    match error.kind() {
        ErrorKind::NotFound => Ok(None),
        ErrorKind::PermissionDenied | ErrorKind::ExecutableFileBusy if !is_special(rt, path) => {
            Ok(None)
        }
        _ => Err(error),
    }
}

/// The regular file that was at a path before the input was read, which is none of that, open to be written.
///
/// # Errors
///
/// As the system answers; PermissionDenied where something else is there.
fn open_old<R: Files>(rt: &R, output: &OutputPath<'_>) -> io::Result<R::File> {
    let file = open_there(rt, output.path())?;
    let metadata = file.metadata()?;
    if metadata.is_file() && output.is_of(&metadata) {
        return Ok(file);
    }
    Err(io::Error::from(ErrorKind::PermissionDenied))
}

/// The same file, cut to nothing.
fn cut_old<R: Files>(rt: &R, output: &OutputPath<'_>) -> io::Result<R::File> {
    let file = open_old(rt, output)?;
    file.set_len(0)?;
    Ok(file)
}

/// Makes a file at a path where there is none.
fn create_new<R: Files>(rt: &R, name: &Path<'_>) -> io::Result<R::File> {
    let mut options = OpenOptions::new();
    options.write(true).create_new(true);
    options.open(rt, *name)
}

/// Makes a file that wasn't there in the folder of a path, and tells its path.
///
/// # Errors
///
/// As the system answers; AlreadyExists where all names are taken.
fn create_beside<R: Files + AllocGlobal + RandomSource>(
    rt: &R,
    path: &str,
) -> io::Result<(R::File, PathBuf)>
    ensures { IfOk result (λ f. IsBeside path.now (path_buf_bytes f.1)) }
{
    let first = first_number(rt);
    for k in 0..NAMES {
        let name = path_beside(rt.alloc(), path, first.wrapping_add(k))?;
        match create_new(rt, &name.as_path()) {
            Ok(file) => return Ok((file, name)),
            Err(error) => {
                if error.kind() != ErrorKind::AlreadyExists {
                    return Err(error);
                }
            }
        }
    }
    Err(io::Error::from(ErrorKind::AlreadyExists))
}

/// An output that is written, and has its own name yet to get where it is a new file.
#[derive(Debug, Drop)]
pub struct NewFile<'a> {
    /// The path that was opened for, which it gets.
    pub output: OutputPath<'a>,
    beside: Option<PathBuf>,
}

/// A file that is open to be written, and what it is to become.
#[derive(Drop)]
pub struct Opened<'a, F: Drop> {
    pub file: F,
    /// Whether it is a regular file with nothing in it, in which zeros may be passed over.
    pub is_new: bool,
    pub output: NewFile<'a>,
}

/// An output that is written as it is.
fn in_place<'a, F: Drop>(file: F, is_new: bool, output: OutputPath<'a>) -> Opened<'a, F>
    ensures path { result.output.output ≡ output.entry }
    ensures none { result.output.beside ≡ None }
{
    Opened {
        file,
        is_new,
        output: NewFile {
            output,
            beside: None,
        },
    }
}

impl<'a> NewFile<'a> {
    /// Opens an output to be written: a new file beside its path, or what is there, where that is no
    /// regular file, or a regular one whose folder takes no new file.
    ///
    /// # Errors
    ///
    /// As the system answers.
    pub fn open<R: Files + AllocGlobal + RandomSource>(
        rt: &R,
        output: OutputPath<'a>,
    ) -> io::Result<Opened<'a, R::File>>
        ensures path { IfOk result (λ o. o.output.output ≡ output.entry) }
        ensures beside { IfOk result (λ o.
            IfSome o.output.beside (λ p. IsBeside output.entry.path.now (path_buf_bytes p))) }
    {
        if let Some(file) = open_special(rt, output.path())? {
            return Ok(in_place(file, false, output));
        }
        match create_beside(rt, output.path()) {
            Ok((file, name)) => Ok(Opened {
                file,
                is_new: true,
                output: NewFile {
                    output,
                    beside: Some(name),
                },
            }),
            Err(error) => match cut_old_where(rt, &output, &error) {
                Some(file) => Ok(in_place(file, true, output)),
                None => Err(error),
            },
        }
    }

    /// Whether an output could be opened so. Nothing is cut, and a file that is made is removed again.
    ///
    /// # Errors
    ///
    /// As the system answers where it couldn't.
    pub fn probe<R: Files + AllocGlobal + RandomSource>(
        rt: &R,
        output: OutputPath<'_>,
    ) -> io::Result<()> {
        if open_special(rt, output.path())?.is_some() {
            return Ok(());
        }
        let error = match create_beside(rt, output.path()) {
            Ok((_, name)) => return fs::remove_file(rt, name.as_path()),
            Err(error) => error,
        };
        if error.kind() == ErrorKind::PermissionDenied && open_old(rt, &output).is_ok() {
            return Ok(());
        }
        Err(error)
    }

    /// Removes a new file again.
    pub fn discard<R: Files>(self, rt: &R) {
        if let Some(name) = &self.beside {
            let _ = fs::remove_file(rt, name.as_path());
        }
    }

    /// Gives a new file its name, in place of what had that; where the system refuses that, and a regular file was at the path
    /// before the input was read, that gets the bytes. Where that fails too the new file is removed.
    ///
    /// # Errors
    ///
    /// As the system answers.
    pub fn finish<R: Files>(self, rt: &R, is_program: bool) -> io::Result<()> {
        let NewFile { output, beside } = self;
        let Some(name) = beside else {
            return Ok(());
        };
        let error = match fs::rename(rt, name.as_path(), output.path()) {
            Ok(()) => return Ok(()),
            Err(error) => error,
        };
        let is_copied = may_copy(&error)
            && copy_over(rt, &name.as_path(), &output, is_program).is_ok();
        let _ = fs::remove_file(rt, name.as_path());
        if is_copied { Ok(()) } else { Err(error) }
    }
}

/// The old file, cut to nothing, where a new one can't be made for want of rights; None where it can't be had either.
fn cut_old_where<R: Files>(rt: &R, output: &OutputPath<'_>, error: &io::Error) -> Option<R::File> {
    if error.kind() != ErrorKind::PermissionDenied {
        return None;
    }
    cut_old(rt, output).ok()
}

/// Whether a new file may be copied where it can't be renamed: the old one may then be written.
fn may_copy(error: &io::Error) -> bool {
    match error.kind() {
        ErrorKind::PermissionDenied | ErrorKind::ResourceBusy | ErrorKind::CrossesDevices => true,
        _ => false,
    }
}

/// Gives the regular file that was at a path before the input was read the bytes of a new file.
fn copy_over<R: Files>(
    rt: &R,
    name: &Path<'_>,
    output: &OutputPath<'_>,
    is_program: bool,
) -> io::Result<()> {
    let mut new = File::open(rt, *name)?;
    let mut old = cut_old(rt, output)?;
    copy(&mut new, &mut old)?;
    if is_program {
        let _ = make_executable(&old);
    }
    Ok(())
}
