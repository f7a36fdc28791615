//! What the check of an image for tools comes to, and the line that says so.
ghost use Rattle.std.specs.Prelude.{◌≡◌, ◌≤◌, OnOk};
ghost use Rattle.std.specs.Io.KnownBytes.{Appends};
ghost use Rattle.debug_main.specs.Lines.{byte_text, difference_line, offset_text, verdict_text};
ghost use Rattle.debug_main.specs.Verdicts.{verdict_status};

use elf_model::Clause;
use std::io;
use std::io::Write;

/// The first byte of a file that isn't what it is to be: its offset, what is there and what is wanted; None where the file or
/// what is wanted ends there.
#[derive(Clone, Copy, Debug, PartialEq, Eq)]
pub struct Difference {
    pub offset: u64,
    pub there: Option<u8>,
    pub wanted: Option<u8>,
}

/// What the check of an image for tools comes to.
#[derive(Clone, Copy, Debug, PartialEq, Eq)]
pub enum DebugVerdict {
    /// The image at its beginning is a right link, and what tools read is that of the link.
    Yes,
    /// The image at its beginning is no right link, by the least clause that fails.
    No(Clause),
    /// It is one, and what tools read isn't that of the link: the first byte that is wrong, None where there are no tables.
    NoTables(Option<Difference>),
}

/// Writes a byte in two hexadecimal digits, or `end` for what has none.
fn write_byte<O: Write>(out: &mut O, byte: Option<u8>) -> io::Result<()>
    ensures { OnOk result (Appends (O.contents out.old) (O.contents out.new) (byte_text byte)) }
{
    match byte {
        Some(byte) => write!(out, "{byte:02x}"),
        None => write!(out, "end"),
    }
}

/// Writes where an image differs.
fn write_offset<O: Write>(out: &mut O, offset: u64) -> io::Result<()>
    ensures { OnOk result (Appends (O.contents out.old) (O.contents out.new) (offset_text offset)) }
{
    write!(out, "no tables 0x{offset:x}: ")
}

/// Writes where an image differs, what is there and what is wanted.
fn write_difference<O: Write>(out: &mut O, at: Difference) -> io::Result<()>
    ensures { OnOk result (Appends (O.contents out.old) (O.contents out.new) (difference_line at)) }
{
    write_offset(out, at.offset)?;
    write_byte(out, at.there)?;
    write!(out, ", wanted ")?;
    write_byte(out, at.wanted)?;
    writeln!(out)
}

impl DebugVerdict {
    /// 0 for yes, 1 for no.
    pub fn status(self) -> u8
        ensures exact { result ≡ verdict_status self }
        ensures least { result ≤ 1 }
    {
        match self {
            DebugVerdict::Yes => 0,
            DebugVerdict::No(_) | DebugVerdict::NoTables(_) => 1,
        }
    }

    /// Prints the verdict's line.
    pub fn print<O: Write>(self, out: &mut O) -> io::Result<()>
        ensures { OnOk result (Appends (O.contents out.old) (O.contents out.new)
            (verdict_text self)) }
    {
        match self {
            DebugVerdict::Yes => writeln!(out, "yes"),
            DebugVerdict::No(clause) => writeln!(out, "no C{}", clause as u8),
            DebugVerdict::NoTables(None) => writeln!(out, "no tables"),
            DebugVerdict::NoTables(Some(at)) => write_difference(out, at),
        }
    }
}
