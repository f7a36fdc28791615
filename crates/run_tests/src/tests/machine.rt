//! A system in memory that the program runs on: files by their paths, the words of the command
//! line, and a journal of what is asked for, opened, made, named and removed, in order.
ghost use Rattle.std.specs.Prelude.{◌≤◌, IfOk, IsErr, length};

use elf_model::InputFile;
use std::alloc::{Allocator, Global};
use std::cell::RefCell;
use std::env::FillError;
use std::fs::{Metadata, OpenFile, OpenOptions, Permissions};
use std::io;
use std::io::{ErrorKind, Read, Seek, SeekFrom, Write};
use std::os::unix::fs::PermissionsExt;
use std::random::RandomSource;
use std::rt::{Env, Files};

/// What is at a path.
#[derive(Clone, Copy)]
pub enum Kind {
    /// A regular file.
    Regular,
    /// A folder.
    Folder,
    /// A device, which is no regular file and takes what is written.
    Device,
    /// A link to an open file that is regular, as the system has in `/dev`.
    Link,
    /// A link to a file that isn't open any more.
    Dangling,
}

/// A file that is there before a run, and how it answers.
#[derive(Clone, Copy)]
pub struct StoredFile<'a> {
    pub path: &'a str,
    pub bytes: &'a [u8],
    pub kind: Kind,
    /// The length that its metadata tell.
    pub told: u64,
    /// How many bytes a read gives at most, and a write takes, one at least.
    pub step: usize,
    /// Why it can be neither opened nor made.
    pub locked: Option<ErrorKind>,
    /// The offset from which on it can be neither read nor written, and why.
    pub torn: Option<(usize, ErrorKind)>,
}

impl<'a> StoredFile<'a> {
    /// A file with nothing wrong.
    pub const fn sound(path: &'a str, bytes: &'a [u8]) -> StoredFile<'a> {
        StoredFile {
            path,
            bytes,
            kind: Kind::Regular,
            told: bytes.len() as u64,
            step: usize::MAX,
            locked: None,
            torn: None,
        }
    }

    /// Whether it is whole up to an offset.
    fn whole_until(&self, place: usize) -> io::Result<()> {
        match self.torn {
            Some((torn, why)) if place >= torn => Err(io::Error::from(why)),
            _ => Ok(()),
        }
    }

    /// The bytes of a read from an offset on, into room for some.
    fn part(&self, place: usize, room: usize) -> io::Result<&'a [u8]> {
        self.whole_until(place)?;
        let end = place
            .saturating_add(room.min(self.step))
            .min(self.bytes.len())
            .min(self.torn.map_or(usize::MAX, |(torn, _)| torn));
        Ok(self.bytes.get(place..end).unwrap_or(&[]))
    }
}

/// How files answer that a run makes where there were none. What is said of a path is said of all that begin with it.
#[derive(Clone, Copy)]
pub struct NewFiles {
    /// How many bytes a write takes at most, one at least.
    pub step: usize,
    /// Whether every other write is interrupted.
    pub interrupts: bool,
    /// The paths of those that can't be written from an offset on, and why.
    pub torn: Option<(&'static str, usize, ErrorKind)>,
    /// The paths at which none is made, and why.
    pub locked: Option<(&'static str, ErrorKind)>,
    /// Why none is passed over in.
    pub rigid: Option<ErrorKind>,
    /// Why the length of none is set.
    pub fixed: Option<ErrorKind>,
    /// The paths that none gets, and why.
    pub bound: Option<(&'static str, ErrorKind)>,
}

/// Files with nothing wrong.
pub const SOUND: NewFiles = NewFiles {
    step: usize::MAX,
    interrupts: false,
    torn: None,
    locked: None,
    rigid: None,
    fixed: None,
    bound: None,
};

/// Fails at a path where there is a reason for it.
fn unless_at(why: Option<(&'static str, ErrorKind)>, path: &str) -> io::Result<()> {
    match why {
        Some((front, why)) if path.starts_with(front) => Err(io::Error::from(why)),
        _ => Ok(()),
    }
}

/// Fails where there is a reason.
fn unless(why: Option<ErrorKind>) -> io::Result<()> {
    match why {
        Some(why) => Err(io::Error::from(why)),
        None => Ok(()),
    }
}

/// The files of a system.
#[derive(Drop)]
pub struct Disk<'a> {
    alloc: Global,
    stored: &'a [StoredFile<'a>],
    new_files: NewFiles,
    made: RefCell<Vec<InputFile>>,
    passed: RefCell<u64>,
    interrupted: RefCell<bool>,
    draws: RefCell<u64>,
    journal: RefCell<String>,
}

impl<'a> Disk<'a> {
    /// A disk with files, and nothing made yet.
    pub fn new(alloc: Global, stored: &'a [StoredFile<'a>], new_files: NewFiles) -> Disk<'a> {
        Disk {
            alloc,
            stored,
            new_files,
            made: RefCell::new(Vec::new(alloc)),
            passed: RefCell::new(0),
            interrupted: RefCell::new(false),
            draws: RefCell::new(0),
            journal: RefCell::new(String::new(alloc)),
        }
    }

    /// The files that were made, how many bytes were passed over in them, and the journal.
    pub fn into_parts(self) -> (Vec<InputFile>, u64, String) {
        (
            self.made.into_inner(),
            self.passed.into_inner(),
            self.journal.into_inner(),
        )
    }

    /// How often random bytes were asked for.
    pub fn draws(&self) -> io::Result<u64> {
        let draws = self.draws.try_borrow()?;
        Ok(*draws)
    }

    /// Counts that random bytes are asked for.
    fn draw(&self) -> io::Result<()> {
        let mut draws = self.draws.try_borrow_mut()?;
        *draws = draws.saturating_add(1);
        Ok(())
    }

    /// Adds a line to the journal.
    fn note(&self, deed: &str, path: &str) -> io::Result<()> {
        let line = format!(in self.alloc; "{deed} {path}\n")?;
        let mut journal = self.journal.try_borrow_mut()?;
        Ok(journal.push_str(&line)?)
    }

    /// Notes the place in a file from which on it is read.
    fn note_place(&self, place: u64) -> io::Result<()> {
        let place = format!(in self.alloc; "{place}")?;
        self.note("at", &place)
    }

    /// Notes a deed that no run may do, and says why it fails.
    fn refusal(&self, deed: &str, path: &str) -> io::Error {
        match self.note(deed, path) {
            Ok(()) => io::Error::from(ErrorKind::Unsupported),
            Err(why) => why,
        }
    }

    /// Notes a deed that no run may do, and fails.
    fn refuse<T>(&self, deed: &str, path: &str) -> io::Result<T>
        ensures { IsErr result }
    {
        Err(self.refusal(deed, path))
    }

    /// The file at a path, None where there is none, unless it is locked.
    fn find(&self, path: &str) -> io::Result<Option<&'a StoredFile<'a>>> {
        let found = self.stored.iter().find(|file| file.path == path);
        match found.and_then(|file| file.locked) {
            Some(why) => Err(io::Error::from(why)),
            None => Ok(found),
        }
    }

    /// Opens a file to read it.
    fn open(&self, path: &str) -> io::Result<&'a StoredFile<'a>> {
        self.note("read", path)?;
        let found = self.find(path)?;
        found.ok_or(io::Error::from(ErrorKind::NotFound))
    }

    /// Opens what is at a path to write it as it is.
    fn open_there(&self, deed: &str, path: &str) -> io::Result<Handle<'a>> {
        self.note(deed, path)?;
        let found = self.find(path)?;
        let file = found.ok_or(io::Error::from(ErrorKind::NotFound))?;
        match file.kind {
            Kind::Folder => Err(io::Error::from(ErrorKind::IsADirectory)),
            Kind::Dangling => Err(io::Error::from(ErrorKind::NotFound)),
            Kind::Regular => Ok(Handle::Read(file, 0)),
            Kind::Device | Kind::Link => Ok(Handle::Made(self.add(path)?, 0, file.kind)),
        }
    }

    /// Makes a file where there is none, and answers its number.
    fn make_new(&self, path: &str) -> io::Result<usize> {
        self.note("new", path)?;
        if self.find(path)?.is_some() || self.is_made(path)? {
            return Err(io::Error::from(ErrorKind::AlreadyExists));
        }
        unless_at(self.new_files.locked, path)?;
        self.add(path)
    }

    /// Whether a file was made at a path.
    fn is_made(&self, path: &str) -> io::Result<bool> {
        let made = self.made.try_borrow()?;
        Ok(made.iter().any(|file| file.name.as_str() == path))
    }

    /// Adds an empty file to those that were made.
    fn add(&self, path: &str) -> io::Result<usize> {
        let mut made = self.made.try_borrow_mut()?;
        let number = made.len();
        made.push(InputFile {
            name: String::from_str(self.alloc, path)?,
            bytes: Vec::new(self.alloc),
        })?;
        Ok(number)
    }

    /// The offset from which on a new file can't be written, and why.
    fn torn_at(&self, path: &str) -> Option<(usize, ErrorKind)> {
        match self.new_files.torn {
            Some((front, place, why)) if path.starts_with(front) => Some((place, why)),
            _ => None,
        }
    }

    /// Interrupts every other write, where writes are interrupted.
    fn interrupt(&self) -> io::Result<()> {
        if !self.new_files.interrupts {
            return Ok(());
        }
        let mut interrupted = self.interrupted.try_borrow_mut()?;
        *interrupted = !*interrupted;
        unless(interrupted.then_some(ErrorKind::Interrupted))
    }

    /// How many bytes a write takes of some that come at an offset of a file.
    fn room(&self, path: &str, place: usize, count: usize) -> io::Result<usize> {
        let (step, torn) = match self.find(path)? {
            Some(file) => (file.step, file.torn),
            None => (self.new_files.step, self.torn_at(path)),
        };
        let count = count.min(step);
        match torn {
            Some((torn, why)) if place.saturating_add(count) >= torn => Err(io::Error::from(why)),
            _ => Ok(count),
        }
    }

    /// Puts the first of some bytes into a file that was made, from an offset on, behind zeros where
    /// it hasn't got there, and answers how many.
    fn put(&self, number: usize, place: usize, bytes: &[u8]) -> io::Result<usize>
        ensures { IfOk result (λ n. n ≤ length bytes.now) }
    {
        self.interrupt()?;
        let mut made = self.made.try_borrow_mut()?;
        let Some(file) = made.get_mut(number) else {
            return Err(io::Error::from(ErrorKind::NotFound));
        };
        let room = self.room(&file.name, place, bytes.len())?;
        let count = room.min(bytes.len());
        file.bytes.resize(place, 0)?;
        let (part, _) = bytes.split_at(count);
        file.bytes.extend_from_slice(part)?;
        Ok(count)
    }

    /// Counts bytes that are passed over.
    fn pass(&self, count: u64) -> io::Result<()> {
        unless(self.new_files.rigid)?;
        let mut passed = self.passed.try_borrow_mut()?;
        *passed = passed.saturating_add(count);
        Ok(())
    }

    /// Makes a file that was made as long as is told.
    fn set_length(&self, number: usize, size: u64) -> io::Result<()> {
        let line = format!(in self.alloc; "{size}")?;
        self.note("length", &line)?;
        unless(self.new_files.fixed)?;
        let mut made = self.made.try_borrow_mut()?;
        match made.get_mut(number) {
            Some(file) => Ok(file.bytes.resize(size as usize, 0)?),
            None => Err(io::Error::from(ErrorKind::NotFound)),
        }
    }

    /// Takes a file that was made away.
    fn take(&self, path: &str) -> io::Result<InputFile> {
        let mut made = self.made.try_borrow_mut()?;
        match made.iter().position(|file| file.name.as_str() == path) {
            Some(number) => Ok(made.remove(number)),
            None => Err(io::Error::from(ErrorKind::NotFound)),
        }
    }

    /// Gives a file that was made another path, in place of what was made there.
    fn name(&self, from: &str, to: &str) -> io::Result<()> {
        let line = format!(in self.alloc; "{from} to {to}")?;
        self.note("rename", &line)?;
        unless_at(self.new_files.bound, to)?;
        let file = self.take(from)?;
        let _ = self.take(to);
        let mut made = self.made.try_borrow_mut()?;
        Ok(made.push(InputFile {
            name: String::from_str(self.alloc, to)?,
            bytes: file.bytes,
        })?)
    }

    /// What there is at a path, where a link leads to its file.
    fn look(&self, path: &str) -> io::Result<Metadata> {
        self.note("stat", path)?;
        let Some(file) = self.stored.iter().find(|file| file.path == path) else {
            return Err(io::Error::from(ErrorKind::NotFound));
        };
        match file.kind {
            Kind::Regular | Kind::Link => Ok(Metadata::of_file(file.told)),
            Kind::Folder => Ok(Metadata::of_dir()),
            // No metadata of a device can be made; these are of no regular file either.
            Kind::Device => Ok(Metadata::of_symlink(0)),
            Kind::Dangling => Err(io::Error::from(ErrorKind::NotFound)),
        }
    }
}

/// An open file: one that is there, or one that was made, by its number, and the offset that it has come to.
#[derive(Clone, Copy)]
enum Handle<'a> {
    Read(&'a StoredFile<'a>, usize),
    Made(usize, usize, Kind),
}

/// An open file of a disk.
#[derive(Drop)]
pub struct OpenedFile<'a> {
    disk: &'a Disk<'a>,
    handle: Handle<'a>,
}

impl Read for OpenedFile<'_> {
    fn read(&mut self, buf: &mut [u8]) -> io::Result<usize> {
        let Handle::Read(file, place) = self.handle else {
            return Err(io::Error::from(ErrorKind::PermissionDenied));
        };
        let part = file.part(place, buf.len())?;
        let count = part.len().min(buf.len());
        buf[..count].copy_from_slice(&part[..count]);
        self.handle = Handle::Read(file, place.saturating_add(count));
        Ok(count)
    }
}

impl Write for OpenedFile<'_> {
    fn write(&mut self, buf: &[u8]) -> io::Result<usize> {
        match self.handle {
            Handle::Read(file, _) => self.disk.refuse("write", file.path),
            Handle::Made(number, place, kind) => {
                let count = self.disk.put(number, place, buf)?;
                self.handle = Handle::Made(number, place.saturating_add(count), kind);
                Ok(count)
            }
        }
    }

    fn flush(&mut self) -> io::Result<()> {
        Ok(())
    }
}

impl Seek for OpenedFile<'_> {
    fn seek(&mut self, to: SeekFrom) -> io::Result<u64> {
        match (self.handle, to) {
            (Handle::Made(number, place, kind), SeekFrom::Current(count)) => {
                let Ok(count) = u64::try_from(count) else {
                    return self.disk.refuse("seek", "");
                };
                self.disk.pass(count)?;
                let place = place.saturating_add(count as usize);
                self.handle = Handle::Made(number, place, kind);
                Ok(place as u64)
            }
            (Handle::Read(file, _), SeekFrom::Start(place)) => {
                self.disk.note_place(place)?;
                self.handle = Handle::Read(file, place as usize);
                Ok(place)
            }
            _ => self.disk.refuse("seek", ""),
        }
    }
}

impl OpenFile for OpenedFile<'_> {
    fn metadata(&self) -> io::Result<Metadata> {
        match self.handle {
            Handle::Read(file, _) => Ok(Metadata::of_file(file.told)),
            // No metadata of a device can be made; these are of no regular file either.
            Handle::Made(_, _, Kind::Device) => Ok(Metadata::of_symlink(0)),
            Handle::Made(_, _, _) => Ok(Metadata::of_file(0)),
        }
    }

    fn set_len(&self, size: u64) -> io::Result<()> {
        match self.handle {
            Handle::Read(file, _) => self.disk.refuse("length", file.path),
            Handle::Made(number, _, _) => self.disk.set_length(number, size),
        }
    }

    fn sync_all(&self) -> io::Result<()> {
        self.disk.refuse("sync", "")
    }

    fn sync_data(&self) -> io::Result<()> {
        self.disk.refuse("sync", "")
    }

    fn set_permissions(&self, perm: Permissions) -> io::Result<()> {
        let mode = format!(in self.disk.alloc; "{:o}", perm.mode())?;
        self.disk.note("mode", &mode)
    }
}

/// The system that a run has: a disk, and the words of the command line, the program's name among
/// them. Each random byte that it gives is the same, and it may give none.
#[derive(Clone, Copy)]
pub struct Machine<'a> {
    pub disk: &'a Disk<'a>,
    pub words: &'a [&'a [u8]],
    pub random: Option<u8>,
}

impl Alloc for Machine<'_> {
    type A = Global;

    fn alloc(&self) -> Global {
        self.disk.alloc
    }
}

impl RandomSource for Machine<'_> {
    fn fill_bytes(&self, buf: &mut [u8]) -> io::Result<()> {
        self.disk.draw()?;
        match self.random {
            Some(byte) => Ok(buf.fill(byte)),
            None => Err(io::Error::from(ErrorKind::Unsupported)),
        }
    }
}

impl Env for Machine<'_> {
    fn arg(&self, i: usize, buf: &mut [u8]) -> Result<usize, FillError> {
        let word = self.words.get(i).ok_or(FillError::NotPresent)?;
        let room = buf.get_mut(..word.len()).ok_or(FillError::TooLong)?;
        room.copy_from_slice(word);
        Ok(word.len())
    }

    fn var(&self, _name: &str, _buf: &mut [u8]) -> Result<usize, FillError> {
        Err(FillError::NotPresent)
    }

    fn var_at(&self, _i: usize, _buf: &mut [u8]) -> Result<usize, FillError> {
        Err(FillError::NotPresent)
    }
}

impl<'a> Files for Machine<'a> {
    type File = OpenedFile<'a>;

    type Dir = OpenedFile<'a>;

    fn open_file(&self, how: &OpenOptions, path: &str) -> io::Result<OpenedFile<'a>> {
        how.check()?;
        let handle = if how.asks_create_new() {
            Handle::Made(self.disk.make_new(path)?, 0, Kind::Regular)
        } else if how.asks_create() || how.asks_truncate() {
            return Err(self.disk.refusal("cut", path));
        } else if how.asks_append() {
            self.disk.open_there("append", path)?
        } else if how.asks_write() {
            self.disk.open_there("open", path)?
        } else {
            Handle::Read(self.disk.open(path)?, 0)
        };
        Ok(OpenedFile {
            disk: self.disk,
            handle,
        })
    }

    fn open_dir(&self, path: &str) -> io::Result<OpenedFile<'a>> {
        Err(self.disk.refusal("list", path))
    }

    fn metadata(&self, path: &str) -> io::Result<Metadata> {
        self.disk.look(path)
    }

    fn symlink_metadata(&self, path: &str) -> io::Result<Metadata> {
        self.disk.note("link", path)?;
        let found = self.disk.stored.iter().find(|file| file.path == path);
        match found.map(|file| file.kind) {
            Some(Kind::Link | Kind::Dangling) => Ok(Metadata::of_symlink(0)),
            Some(_) => Ok(Metadata::of_file(0)),
            None => Err(io::Error::from(ErrorKind::NotFound)),
        }
    }

    fn copy(&self, _from: &str, to: &str) -> io::Result<u64> {
        self.disk.refuse("copy to", to)
    }

    fn rename(&self, from: &str, to: &str) -> io::Result<()> {
        self.disk.name(from, to)
    }

    fn remove_file(&self, path: &str) -> io::Result<()> {
        self.disk.note("remove", path)?;
        self.disk.take(path)?;
        Ok(())
    }

    fn create_dir(&self, path: &str) -> io::Result<()> {
        self.disk.refuse("make the folder", path)
    }

    fn remove_dir(&self, path: &str) -> io::Result<()> {
        self.disk.refuse("remove", path)
    }

    fn remove_dir_all<B: Allocator>(&self, _alloc: B, path: &str) -> io::Result<()> {
        self.disk.refuse("remove", path)
    }
}
