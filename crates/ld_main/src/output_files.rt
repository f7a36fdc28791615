//! The system in whose files outputs are written: each is filled first, and gets its name afterwards.
ghost use Rattle.std.specs.Prelude.{◌≡◌, ℕ, List, IfErr, IfOk, OnOk};
ghost use Rattle.std.specs.Io.KnownBytes.{Appends};
ghost use Rattle.image_write.specs.declared.sink.WriteFault.{WriteFault};

use crate::content::Content;
use crate::failure::fault_of;
use crate::new_file::{NewFile, Opened};
use file_io::{FileSink, OutputPath, SparseFile, SparseWrite, make_executable};
use image_write::WriteFault;
use std::alloc::Global;
use std::fs::OpenFile;
use std::io::{Seek, Write};
use std::random::RandomSource;
use std::rt::Files;

/// Gives a writer a content; in a regular file with nothing in it zeros are passed over.
fn filled<W: SparseWrite + Drop, C: Content + Drop>(
    alloc: Global,
    writer: W,
    is_new: bool,
    content: C,
) -> Result<(C, FileSink<W>), WriteFault>
    requires { C.ready content }
    ensures { IfOk result (λ f. (bytes : List ℕ) × C.says content bytes
        × Appends (W.held writer) (W.held f.1.file) bytes) }
{
    let sink = FileSink::new(writer, is_new);
    let (content, mut sink, done) = content.put(alloc, sink);
    done?;
    sink.end()?;
    Ok((content, sink))
}

/// Fills an opened file with a content; a new one may then be run by those who may read it, where the content is a program.
fn fill<F: Write + Seek + OpenFile + Drop, C: Content + Drop>(
    alloc: Global,
    file: F,
    is_new: bool,
    content: C,
) -> Result<C, WriteFault>
    requires { C.ready content }
{
    let (content, sink) = filled(alloc, SparseFile::new(file), is_new, content)?;
    if is_new && content.is_program() {
        let _ = make_executable(sink.file().file());
    }
    Ok(content)
}

/// A content that is written at a path, and has its name yet to get.
#[derive(Drop)]
pub struct Pending<'a, C: Drop> {
    pub file: NewFile<'a>,
    pub content: C,
}

/// A system in whose files outputs are written. No clause can say what a system does with a file; what is told of a fault holds
/// for any meaning of `failed` and `named` that fits the calls: a path at which nothing failed isn't told.
pub trait OutputFiles: Files + AllocGlobal + RandomSource {
    // Writing the output of a path came to a fault.
    ghost failed: { Self → List ℕ → WriteFault → Type 0 };
    // What was written for a path has its name.
    ghost named: { Self → List ℕ → Type 0 };

    /// Writes a content at a path; where it is a new file it doesn't have its name yet.
    ///
    /// # Errors
    ///
    /// Memory where memory is refused; Device where the file can't be opened, or not all of it be written. A new file is removed
    /// again.
    fn write_content<'a, C: Content + Drop>(
        &self,
        output: OutputPath<'a>,
        content: C,
    ) -> Result<Pending<'a, C>, WriteFault>
        requires { C.ready content }
        ensures path { IfOk result (λ w. w.file.output ≡ output.entry) }
        ensures fault { IfErr result (failed self.now output.entry.path.now) };

    /// Gives a content its name, and hands it back.
    ///
    /// # Errors
    ///
    /// Memory where memory is refused; Device where it can't get its name. A new file is removed again.
    fn name_content<'a, C: Content + Drop>(&self, written: Pending<'a, C>) -> Result<C, WriteFault>
        ensures named { OnOk result (named self.now written.entry.file.output.path.now) }
        ensures fault { IfErr result (failed self.now written.entry.file.output.path.now) };
}

impl<R: Files + AllocGlobal + RandomSource> OutputFiles for R {
    ghost failed = { λ _ _ _. Unit {0} };

    ghost named = { λ _ _. Unit {0} };

    fn write_content<'a, C: Content + Drop>(
        &self,
        output: OutputPath<'a>,
        content: C,
    ) -> Result<Pending<'a, C>, WriteFault> {
        let Opened {
            file,
            is_new,
            output,
        } = match NewFile::open(self, output) {
            Ok(opened) => opened,
            Err(error) => return Err(fault_of(&error)),
        };
        match fill(self.alloc(), file, is_new, content) {
            Ok(content) => Ok(Pending {
                file: output,
                content,
            }),
            Err(fault) => {
                output.discard(self);
                Err(fault)
            }
        }
    }

    fn name_content<'a, C: Content + Drop>(
        &self,
        written: Pending<'a, C>,
    ) -> Result<C, WriteFault> {
        let Pending { file, content } = written;
        match file.finish(self, content.is_program()) {
            Ok(()) => Ok(content),
            Err(error) => Err(fault_of(&error)),
        }
    }
}
