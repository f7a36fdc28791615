//! Files in which runs of zeros are passed over, so that they take no room on a disk.
ghost use Rattle.std.specs.Prelude.{◌≡◌, ◌≤◌, ℕ, List, Option, None, IfOk, OnErr, OnOk, length, replicate, take};
ghost use Rattle.image_write.specs.Streams.{Took};

use std::fs::OpenFile;
use std::io;
use std::io::{Seek, SeekFrom, Write};

/// Something that bytes are written to, and in which some may be passed over, which are zeros then. It may tell what it
/// holds: one over memory does, one over a file of the system doesn't.
pub trait SparseWrite {
    // The bytes that it holds, where it tells them.
    ghost held: { Self → Option (List ℕ) };

    /// Writes the first of some bytes, and answers how many they are.
    ///
    /// # Errors
    ///
    /// As the system answers; none of the bytes is then written.
    fn write_some(&mut self, bytes: &[u8]) -> io::Result<usize>
        ensures count { IfOk result (λ n. n ≤ length bytes.now) }
        ensures took { IfOk result (λ n. Took (held self.old) (take n bytes.now)
            (held self.new)) }
        ensures refused { OnErr result (held self.new ≡ held self.old) };

    /// Goes so many bytes on.
    ///
    /// # Errors
    ///
    /// Where the writer can't: it is then where it was.
    fn skip(&mut self, count: u64) -> io::Result<()>
        ensures skipped { OnOk result (Took (held self.old) (replicate count 0)
            (held self.new)) }
        ensures refused { OnErr result (held self.new ≡ held self.old) };

    /// Ends the file here, also where the last bytes were passed over.
    fn end(&mut self) -> io::Result<()>
        ensures { held self.new ≡ held self.old };
}

/// A new file of the system: what is passed over in it is a hole. It doesn't tell its bytes.
#[derive(Drop)]
pub struct SparseFile<F: Write + Seek + OpenFile + Drop> {
    file: F,
}

impl<F: Write + Seek + OpenFile + Drop> SparseFile<F> {
    /// A file that nothing was written to yet.
    pub fn new(file: F) -> SparseFile<F> {
        SparseFile { file }
    }

    /// The file.
    pub fn file(&self) -> &F {
        &self.file
    }
}

impl<F: Write + Seek + OpenFile + Drop> SparseWrite for SparseFile<F> {
    ghost held = { λ _. None };

    fn write_some(&mut self, bytes: &[u8]) -> io::Result<usize> {
        self.file.write(bytes)
    }

    fn skip(&mut self, count: u64) -> io::Result<()> {
        let Ok(count) = i64::try_from(count) else {
            return Err(io::Error::from(io::ErrorKind::InvalidInput));
        };
        self.file.seek(SeekFrom::Current(count))?;
        Ok(())
    }

    fn end(&mut self) -> io::Result<()> {
        let length = self.file.stream_position()?;
        self.file.set_len(length)
    }
}
