//! A system in memory that the program runs on: files by their paths, which are only read, the words of the command line, and a
//! journal of what is asked for and opened, in order.
use std::alloc::{Allocator, Global};
use std::cell::RefCell;
use std::env::FillError;
use std::fs::{Metadata, OpenFile, OpenOptions, Permissions};
use std::io;
use std::io::{ErrorKind, Read, Seek, SeekFrom, Write};
use std::random::RandomSource;
use std::rt::{Env, Files};

/// A file that is there: its path, its bytes, and why it can't be opened, if so.
#[derive(Clone, Copy)]
pub struct StoredFile<'a> {
    pub path: &'a str,
    pub bytes: &'a [u8],
    pub locked: Option<ErrorKind>,
}

/// The files of a system.
#[derive(Drop)]
pub struct Disk<'a> {
    alloc: Global,
    stored: &'a [StoredFile<'a>],
    journal: RefCell<String>,
}

impl<'a> Disk<'a> {
    /// A disk with files.
    pub fn new(alloc: Global, stored: &'a [StoredFile<'a>]) -> Disk<'a> {
        Disk {
            alloc,
            stored,
            journal: RefCell::new(String::new(alloc)),
        }
    }

    /// What was asked for and opened.
    pub fn into_journal(self) -> String {
        self.journal.into_inner()
    }

    /// Adds a line to the journal.
    fn note(&self, deed: &str, path: &str) -> io::Result<()> {
        let line = format!(in self.alloc; "{deed} {path}\n")?;
        let mut journal = self.journal.try_borrow_mut()?;
        Ok(journal.push_str(&line)?)
    }

    /// Notes a deed that no run may do, and says why it fails.
    fn refusal(&self, deed: &str, path: &str) -> io::Error {
        match self.note(deed, path) {
            Ok(()) => io::Error::from(ErrorKind::Unsupported),
            Err(why) => why,
        }
    }

    /// Opens a file to read it.
    fn open(&self, path: &str) -> io::Result<&'a [u8]> {
        self.note("read", path)?;
        match self.stored.iter().find(|file| file.path == path) {
            Some(file) => match file.locked {
                Some(why) => Err(io::Error::from(why)),
                None => Ok(file.bytes),
            },
            None => Err(io::Error::from(ErrorKind::NotFound)),
        }
    }
}

/// An open file, and the offset that it has come to.
#[derive(Drop)]
pub struct OpenedFile<'a> {
    bytes: &'a [u8],
    place: usize,
}

impl Read for OpenedFile<'_> {
    fn read(&mut self, buf: &mut [u8]) -> io::Result<usize> {
        let rest = self.bytes.get(self.place..).unwrap_or(&[]);
        let count = rest.len().min(buf.len());
        buf[..count].copy_from_slice(&rest[..count]);
        self.place = self.place.saturating_add(count);
        Ok(count)
    }
}

impl Write for OpenedFile<'_> {
    fn write(&mut self, _buf: &[u8]) -> io::Result<usize> {
        Err(io::Error::from(ErrorKind::PermissionDenied))
    }

    fn flush(&mut self) -> io::Result<()> {
        Err(io::Error::from(ErrorKind::PermissionDenied))
    }
}

impl Seek for OpenedFile<'_> {
    fn seek(&mut self, _to: SeekFrom) -> io::Result<u64> {
        Err(io::Error::from(ErrorKind::PermissionDenied))
    }
}

impl OpenFile for OpenedFile<'_> {
    fn metadata(&self) -> io::Result<Metadata> {
        Ok(Metadata::of_file(self.bytes.len() as u64))
    }

    fn set_len(&self, _size: u64) -> io::Result<()> {
        Err(io::Error::from(ErrorKind::PermissionDenied))
    }

    fn sync_all(&self) -> io::Result<()> {
        Err(io::Error::from(ErrorKind::PermissionDenied))
    }

    fn sync_data(&self) -> io::Result<()> {
        Err(io::Error::from(ErrorKind::PermissionDenied))
    }

    fn set_permissions(&self, _perm: Permissions) -> io::Result<()> {
        Err(io::Error::from(ErrorKind::PermissionDenied))
    }
}

/// The system that a run has: a disk, and the words of the command line, the program's name among them. It gives no random bytes.
#[derive(Clone, Copy)]
pub struct Machine<'a> {
    pub disk: &'a Disk<'a>,
    pub words: &'a [&'a [u8]],
}

impl Alloc for Machine<'_> {
    type A = Global;

    fn alloc(&self) -> Global {
        self.disk.alloc
    }
}

impl RandomSource for Machine<'_> {
    fn fill_bytes(&self, _buf: &mut [u8]) -> io::Result<()> {
        Err(io::Error::from(ErrorKind::Unsupported))
    }
}

impl Env for Machine<'_> {
    fn arg(&self, i: usize, buf: &mut [u8]) -> Result<usize, FillError> {
        let word = self.words.get(i).ok_or(FillError::NotPresent)?;
        let room = buf.get_mut(..word.len()).ok_or(FillError::TooLong)?;
        room.copy_from_slice(word);
        Ok(word.len())
    }

    fn var(&self, _name: &str, _buf: &mut [u8]) -> Result<usize, FillError> {
        Err(FillError::NotPresent)
    }

    fn var_at(&self, _i: usize, _buf: &mut [u8]) -> Result<usize, FillError> {
        Err(FillError::NotPresent)
    }
}

impl<'a> Files for Machine<'a> {
    type File = OpenedFile<'a>;

    type Dir = OpenedFile<'a>;

    fn open_file(&self, how: &OpenOptions, path: &str) -> io::Result<OpenedFile<'a>> {
        how.check()?;
        if how.asks_write() || how.asks_append() || how.asks_create() || how.asks_create_new() {
            return Err(self.disk.refusal("write", path));
        }
        Ok(OpenedFile {
            bytes: self.disk.open(path)?,
            place: 0,
        })
    }

    fn open_dir(&self, path: &str) -> io::Result<OpenedFile<'a>> {
        Err(self.disk.refusal("list", path))
    }

    fn metadata(&self, path: &str) -> io::Result<Metadata> {
        Err(self.disk.refusal("stat", path))
    }

    fn symlink_metadata(&self, path: &str) -> io::Result<Metadata> {
        Err(self.disk.refusal("link", path))
    }

    fn copy(&self, _from: &str, to: &str) -> io::Result<u64> {
        Err(self.disk.refusal("copy to", to))
    }

    fn rename(&self, _from: &str, to: &str) -> io::Result<()> {
        Err(self.disk.refusal("rename", to))
    }

    fn remove_file(&self, path: &str) -> io::Result<()> {
        Err(self.disk.refusal("remove", path))
    }

    fn create_dir(&self, path: &str) -> io::Result<()> {
        Err(self.disk.refusal("make the folder", path))
    }

    fn remove_dir(&self, path: &str) -> io::Result<()> {
        Err(self.disk.refusal("remove", path))
    }

    fn remove_dir_all<B: Allocator>(&self, _alloc: B, path: &str) -> io::Result<()> {
        Err(self.disk.refusal("remove", path))
    }
}
