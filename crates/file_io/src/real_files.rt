//! The files of the system: read as input, and written as an image.
ghost use Rattle.std.specs.Prelude.{◌≡◌, ℕ, List, Option, None, Some, IfErr, IfOk, OnOk, option_map};
ghost use Rattle.std.specs.Borrow.{Bor};
ghost use Rattle.std.specs.Option.{option_or};
ghost use Rattle.file_io.specs.FileIds.{IsOverwritten};
ghost use Rattle.file_io.specs.Sources.{FetchFails};

use crate::file_ids::{FileId, OutputPath, file_id, overwritten};
use crate::file_source::{FetchFault, FileSource};
use crate::placed_bytes::{PlacedFile, read_parts};
use ar_index::PartFile;
use std::alloc::Global;
use std::fs::{File, OpenFile, Permissions};
use std::io;
use std::io::{ErrorKind, Read, Seek};
use std::os::unix::fs::PermissionsExt;
use std::rt::Files;

/// The bytes of an open file. Room for its length and one byte more is reserved first, so that the
/// read that meets the end finds room too; a file that has grown meanwhile, or has no length, as a
/// pipe has none, is read on.
fn contents<F: Read>(alloc: Global, file: &mut F, len: u64) -> io::Result<Vec<u8>> {
    let mut bytes = Vec::with_capacity(alloc, (len as usize).saturating_add(1))?;
    file.read_to_end(&mut bytes)?;
    Ok(bytes)
}

/// A file that is open to be read; None where there is no such file.
fn opened<R: Files>(rt: &R, path: &str) -> io::Result<Option<R::File>> {
    match File::open(rt, path) {
        Ok(file) => Ok(Some(file)),
        Err(error) if error.kind() == ErrorKind::NotFound => Ok(None),
        Err(error) => Err(error),
    }
}

/// How many bytes a file has, and which file it is, where the system tells that.
fn length_and_id<F: OpenFile>(file: &F) -> (u64, Option<FileId>) {
    match file.metadata() {
        Ok(metadata) => (metadata.len(), file_id(&metadata)),
        Err(_) => (0, None),
    }
}

/// The bytes of a file, and which file it is, where the system tells that.
fn read_opened<R: Files + AllocGlobal>(
    rt: &R,
    file: &mut R::File,
) -> io::Result<(Vec<u8>, Option<FileId>)> {
    let (len, id) = length_and_id(file);
    let bytes = contents(rt.alloc(), file, len)?;
    Ok((bytes, id))
}

/// The bytes of the file at a path, and which file it is, where the system tells that; None where
/// there is no such file.
fn read_with_id<R: Files + AllocGlobal>(
    rt: &R,
    path: &str,
) -> io::Result<Option<(Vec<u8>, Option<FileId>)>> {
    match opened(rt, path)? {
        Some(mut file) => Ok(Some(read_opened(rt, &mut file)?)),
        None => Ok(None),
    }
}

/// The bytes of the file at a path; None where there is no such file.
///
/// # Errors
///
/// As the system answers in opening or reading it; `OutOfMemory` where memory is refused.
pub fn read_whole<R: Files + AllocGlobal>(rt: &R, path: &str) -> io::Result<Option<Vec<u8>>> {
    match read_with_id(rt, path)? {
        Some((bytes, _)) => Ok(Some(bytes)),
        None => Ok(None),
    }
}

/// From how many bytes on an archive is read in part.
const LARGE: u64 = 8 << 20;

/// An archive that was read in part, and the file from which more of it is read.
#[derive(Drop)]
pub struct LargeArchive<F: Read + Seek + Drop> {
    pub parts: PartFile,
    pub file: PlacedFile<F>,
}

/// The files of the system as a source of input, some of whose paths are to be written later. It
/// doesn't tell them.
#[derive(Drop)]
pub struct RealFiles<'r, 'a, R: Files + AllocGlobal> {
    rt: &'r R,
    outputs: &'r [OutputPath<'a>],
    overwritten: Option<&'a str>,
    failures: u64,
    /// The large archives, where they are read in part.
    large: Option<Vec<LargeArchive<R::File>>>,
}

impl<'r, 'a, R: Files + AllocGlobal> RealFiles<'r, 'a, R> {
    /// The files that a runtime reaches, and those that will be written.
    pub fn new(rt: &'r R, outputs: &'r [OutputPath<'a>]) -> RealFiles<'r, 'a, R>
        ensures { result.failures ≡ 0 }
    {
        RealFiles {
            rt,
            outputs,
            overwritten: None,
            failures: 0,
            large: None,
        }
    }

    /// The same, where archives from 8 MB on whose paths end in `.a` are read in part. For these no bytes are answered, as if there
    /// were no such files: `into_large` has them.
    pub fn in_part(rt: &'r R, outputs: &'r [OutputPath<'a>]) -> RealFiles<'r, 'a, R>
        ensures { result.failures ≡ 0 }
    {
        RealFiles {
            rt,
            outputs,
            overwritten: None,
            failures: 0,
            large: Some(Vec::new(rt.alloc())),
        }
    }

    /// The large archives that were read in part.
    pub fn into_large(self) -> Vec<LargeArchive<R::File>> {
        match self.large {
            Some(large) => large,
            None => Vec::new(self.rt.alloc()),
        }
    }

    /// A path that will be written, and is one of the files that were read; None where there is
    /// none.
    pub fn overwritten(&self) -> Option<&'a str>
        ensures { result ≡ self.now.overwritten }
    {
        self.overwritten
    }

    /// Notes a path that will be written where it is the file at a path that was read; the first one that is noted stays.
    fn note(&mut self, path: &str, id: Option<FileId>)
        ensures first { (told : Option (Bor (List ℕ)))
            × IsOverwritten self.old.outputs.now path.now id told
            × (self.new.overwritten ≡ option_or self.old.overwritten told) }
        ensures kept { self.new.failures ≡ self.old.failures }
    {
        let told = overwritten(self.outputs, path, id);
        self.overwritten = self.overwritten.or(told);
    }

    /// Reads a large archive in part, and keeps it; hands the file back where that can't be.
    fn keep_large(&mut self, path: &str, len: u64, file: R::File) -> io::Result<Option<R::File>>
        ensures failures { self.new.failures ≡ self.old.failures }
        ensures overwritten { self.new.overwritten ≡ self.old.overwritten }
    {
        let alloc = self.rt.alloc();
        let Some(large) = &mut self.large else {
            return Ok(Some(file));
        };
        let name = String::from_str(alloc, path)?;
        let mut file = PlacedFile::new(file);
        match read_parts(alloc, &mut file, name, len as usize) {
            Ok(Some(parts)) => {
                large.push(LargeArchive { parts, file })?;
                Ok(None)
            }
            _ => Ok(Some(file.into_file()?)),
        }
    }

    /// The bytes of the file at a path; None where there is no such file, or where it is kept in part.
    fn read(&mut self, path: &str) -> io::Result<Option<Vec<u8>>>
        ensures failures { self.new.failures ≡ self.old.failures }
        ensures noted { (p : Bor (List ℕ)) → self.old.overwritten ≡ Some p
            → self.new.overwritten ≡ Some p }
    {
        let Some(file) = opened(self.rt, path)? else {
            return Ok(None);
        };
        let (len, id) = length_and_id(&file);
        self.note(path, id);
        let mut file = file;
        if len >= LARGE && path.ends_with(".a") {
            match self.keep_large(path, len, file)? {
                Some(whole) => file = whole,
                None => return Ok(None),
            }
        }
        Ok(Some(contents(self.rt.alloc(), &mut file, len)?))
    }

    /// As `fetch`; what was noted before stays.
    fn fetched(&mut self, path: &str) -> Result<Option<Vec<u8>>, FetchFault>
        requires { self.old.failures ≡ 0 }
        ensures kept { OnOk result (self.new.failures ≡ self.old.failures) }
        ensures fault { IfErr result (λ f. FetchFails f self.old.failures self.new.failures) }
        ensures noted { (p : Bor (List ℕ)) → self.old.overwritten ≡ Some p
            → self.new.overwritten ≡ Some p }
    {
        match self.read(path) {
            Ok(bytes) => Ok(bytes),
            Err(error) => match error.kind() {
                ErrorKind::OutOfMemory => Err(FetchFault::Memory),
                _ => {
                    self.failures += 1;
                    Err(FetchFault::Device)
                }
            },
        }
    }
}

impl<'r, 'a, R: Files + AllocGlobal> FileSource for RealFiles<'r, 'a, R> {
    ghost files = { λ _. None };

    ghost failed = { λ f. f.failures };

    fn fetch(&mut self, path: &str) -> Result<Option<Vec<u8>>, FetchFault> {
        self.fetched(path)
    }

    fn failures(&self) -> u64 {
        self.failures
    }
}

/// Lets those run a file who may read it.
///
/// # Errors
///
/// As the system answers; the rights are then as before.
pub fn make_executable<F: OpenFile>(file: &F) -> io::Result<()> {
    let mode = file.metadata()?.permissions().mode();
    file.set_permissions(Permissions::from_mode(mode | (mode & 0o444) >> 2))
}
