//! What takes the lines of a map: a text in memory, or a device, which is given runs of them.
ghost use Rattle.std.specs.Prelude.{◌≡◌, [], ◌++◌, ℕ, List, Option, Some, IfOk, OnErr, OnOk};
ghost use Rattle.std.specs.Io.KnownBytes.{Appends, append_known};
ghost use Rattle.elf_model.specs.Image.MapText.{line_text};
ghost use Rattle.linkmap.specs.Lines.{line_view};

use image_write::{Sink, WriteFault, put_all};
use linkmap::{Line, put_line};
use std::alloc::{AllocError, Global};

/// Something that takes lines of a map, one behind the other.
pub trait LineSink {
    /// Why a line isn't taken.
    type Fault: From<AllocError>;

    // The text that was put so far, where it is told.
    ghost told: { Self → Option (List ℕ) };

    /// Puts a line behind those before.
    fn put(&mut self, line: &Line<'_>) -> Result<(), Self::Fault>
        ensures { OnOk result (Appends (told self.old) (told self.new)
            (line_text (line_view line.now))) };
}

impl LineSink for Vec<u8> {
    type Fault = AllocError;

    ghost told = { λ text. Some text.items };

    fn put(&mut self, line: &Line<'_>) -> Result<(), AllocError> {
        put_line(self, line)
    }
}

/// How many bytes of text are gathered before they are written.
const RUN: usize = 65536;

/// A device that takes the text of a map. Lines are gathered, and given to it when they are a run.
#[derive(Drop)]
pub struct LineFile<S: Sink + Drop> {
    sink: S,
    run: Vec<u8>,
}

/// Room for a run, and for the line that makes it one.
pub fn room_for_run(alloc: Global) -> Result<Vec<u8>, AllocError>
    ensures { IfOk result (λ v. v.items ≡ []) }
{
    Vec::with_capacity(alloc, 2 * RUN)
}

impl<S: Sink + Drop> LineFile<S> {
    /// A device behind whose bytes lines are put, which are gathered in an empty list.
    pub fn new(sink: S, run: Vec<u8>) -> LineFile<S>
        ensures { (result.sink ≡ sink) × (result.run ≡ run) }
    {
        LineFile { sink, run }
    }

    /// The device.
    pub fn into_sink(self) -> S
        ensures { result ≡ self.sink }
    {
        self.sink
    }

    /// Gives the device what was gathered; it isn't called again once it has failed.
    fn write_run(&mut self) -> Result<(), WriteFault>
        ensures written { OnOk result (Appends (S.told self.old.sink) (S.told self.new.sink)
            self.old.run.items) }
        ensures empty { OnOk result (self.new.run.items ≡ []) }
    {
        if self.sink.failures() > 0 {
            return Err(WriteFault::Device);
        }
        put_all(&mut self.sink, &self.run)?;
        self.run.clear();
        Ok(())
    }

    /// Gives the device the lines that are left.
    ///
    /// # Errors
    ///
    /// Device where it doesn't take them all; it may have taken a part.
    pub fn finish(&mut self) -> Result<(), WriteFault>
        ensures { OnOk result (Appends (S.told self.old.sink) (S.told self.new.sink)
            self.old.run.items) }
    {
        self.write_run()
    }
}

impl<S: Sink + Drop> LineSink for LineFile<S> {
    type Fault = WriteFault;

    ghost told = { λ l. append_known (S.told l.sink) l.run.items };

    fn put(&mut self, line: &Line<'_>) -> Result<(), WriteFault> {
        put_line(&mut self.run, line)?;
        if self.run.len() >= RUN {
            self.write_run()?;
        }
        Ok(())
    }
}
