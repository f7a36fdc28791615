//! Why a run ends with a line on standard error.
ghost use Rattle.std.specs.Prelude.{◌≡◌, ◌↔◌, ◌⊎◌, ◌≤◌, IsTrue, None, OnOk, Some};
ghost use Rattle.std.specs.IoError.{error_kind};
ghost use Rattle.std.specs.declared.io.ErrorKind.TheVariants.{OutOfMemory};
ghost use Rattle.std.specs.Io.KnownBytes.{Appends};
ghost use Rattle.image_write.specs.declared.sink.WriteFault.TheVariants as write_fault;
ghost use Rattle.ld_main.specs.Program.{IsUnread, IsUnwritten, PrintsFailure, error_status, failure_status, path_line, unread_path, unwritten_path, words_status};

use crate::refusal_texts::print_refusal;
use elf_model::{CmdFault, LinkError};
use file_io::GatherFault;
use image_write::WriteFault;
use linker::command_error;
use linkmap::escape;
use std::alloc::{AllocError, AllocFailed, Global};
use std::borrow::CowStr;
use std::io;
use std::io::{ErrorKind, Write};

/// Why a run ends with a line on standard error.
#[derive(Debug, Drop)]
pub enum Failure<'a> {
    /// The words or the link are refused; a symbol that the refusal names, as a map spells it.
    Refused {
        error: LinkError,
        symbol: Option<Vec<u8>>,
    },
    /// The path of a file that there may be, and that was not read.
    CannotRead(CowStr<'a>),
    /// The path of a file that was not written, or of a device that was written only in part.
    CannotWrite(&'a str),
    /// The path of an output that is one of the files that are read, and isn't written.
    Overwrites(&'a str),
}

impl<'a> From<LinkError> for Failure<'a> {
    ghost from_gives = { λ error failure.
        (failure_status failure ≡ error_status error) × (unwritten_path failure ≡ None) };

    fn from(error: LinkError) -> Failure<'a> {
        Failure::Refused {
            error,
            symbol: None,
        }
    }
}

impl<'a> From<CmdFault> for Failure<'a> {
    ghost from_gives = { λ fault failure.
        (failure_status failure ≡ words_status fault) × (unwritten_path failure ≡ None) };

    fn from(fault: CmdFault) -> Failure<'a> {
        Failure::from(command_error(fault))
    }
}

impl<'a> From<AllocError> for Failure<'a> {
    ghost from_gives = { λ _ failure.
        (failure_status failure ≡ 4) × (unwritten_path failure ≡ None) };

    fn from(_error: AllocError) -> Failure<'a> {
        Failure::from(LinkError::Memory)
    }
}

impl<'a, T: Drop> From<AllocFailed<T>> for Failure<'a> {
    ghost from_gives = { λ _ failure.
        (failure_status failure ≡ 4) × (unwritten_path failure ≡ None) };

    fn from(_error: AllocFailed<T>) -> Failure<'a> {
        Failure::from(LinkError::Memory)
    }
}

impl<'a> From<GatherFault> for Failure<'a> {
    ghost from_gives = { λ _ failure.
        (3 ≤ failure_status failure) × (unwritten_path failure ≡ None) };

    fn from(fault: GatherFault) -> Failure<'a> {
        match fault {
            GatherFault::Memory => Failure::from(LinkError::Memory),
            GatherFault::CannotRead(path) => Failure::CannotRead(CowStr::Owned(path)),
        }
    }
}

impl Failure<'_> {
    /// 1 for a refused link, 2 for refused words, 3 for a fault of a file, 4 for want of memory.
    pub fn status(&self) -> u8
        ensures { result ≡ failure_status self.now }
    {
        match self {
            Failure::Refused { error, symbol: _ } => status_of(error),
            Failure::CannotRead(_) | Failure::CannotWrite(_) | Failure::Overwrites(_) => 3,
        }
    }

    /// Prints the failure's line, and takes no memory.
    pub fn print<W: Write>(&self, err: &mut W) -> io::Result<()>
        ensures { OnOk result (PrintsFailure self.now (W.contents err.old) (W.contents err.new)) }
    {
        match self {
            Failure::Refused { error, symbol } => print_refusal(err, error, symbol.as_deref()),
            Failure::CannotRead(path) => writeln!(err, "ld: cannot read {}", path.as_str()),
            Failure::CannotWrite(path) | Failure::Overwrites(path) => {
                writeln!(err, "ld: cannot write {path}")
            }
        }
    }
}

fn status_of(error: &LinkError) -> u8
    ensures { result ≡ error_status error.now }
{
    match error {
        LinkError::Command(_) => 2,
        LinkError::FileMissing => 3,
        LinkError::Memory => 4,
        _ => 1,
    }
}

/// The symbol that a refusal names.
fn symbol_of(error: &LinkError) -> Option<&[u8]> {
    match error {
        LinkError::Duplicate(name) | LinkError::Undefined(name) => Some(name.as_slice()),
        _ => None,
    }
}

/// A refusal together with the spelling of the symbol that it names.
pub fn refused<'a>(alloc: Global, error: LinkError) -> Failure<'a>
    ensures status { (failure_status result ≡ error_status error) ⊎ (failure_status result ≡ 4) }
    ensures unwritten { unwritten_path result ≡ None }
{
    let Some(name) = symbol_of(&error) else {
        return Failure::from(error);
    };
    match escape(alloc, name) {
        Ok(spelling) => Failure::Refused {
            error,
            symbol: Some(spelling),
        },
        Err(no_memory) => Failure::from(no_memory),
    }
}

/// Whether the system refused memory.
fn is_of_memory(error: &io::Error) -> bool
    ensures { IsTrue result ↔ error_kind error.now ≡ OutOfMemory }
{
    error.kind() == ErrorKind::OutOfMemory
}

/// The fault where the system refuses something about a file that is written.
pub fn fault_of(error: &io::Error) -> WriteFault
    ensures memory { error_kind error.now ≡ OutOfMemory → result ≡ write_fault.Memory }
    ensures device { (error_kind error.now ≡ OutOfMemory → ⊥) → result ≡ write_fault.Device }
{
    if is_of_memory(error) {
        WriteFault::Memory
    } else {
        WriteFault::Device
    }
}

/// The failure to read a file: want of memory, or any other fault of its path.
pub fn unread<'a>(path: &'a str, error: &io::Error) -> Failure<'a>
    ensures memory { error_kind error.now ≡ OutOfMemory → failure_status result ≡ 4 }
    ensures device { (error_kind error.now ≡ OutOfMemory → ⊥)
        → unread_path result ≡ Some path.entry.now }
    ensures either { IsUnread path.entry.now result }
    ensures unwritten { unwritten_path result ≡ None }
{
    if is_of_memory(error) {
        Failure::from(LinkError::Memory)
    } else {
        Failure::CannotRead(CowStr::Borrowed(path))
    }
}

/// The failure to write a file.
pub fn unwritten<'a>(path: &'a str, fault: WriteFault) -> Failure<'a>
    ensures { IsUnwritten path.entry.now fault result }
{
    match fault {
        WriteFault::Memory => Failure::from(LinkError::Memory),
        WriteFault::Device => Failure::CannotWrite(path),
    }
}
