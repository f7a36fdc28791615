//! Calls that are made again where memory was refused.
use elf_model::{ArFault, CmdFault, GroupFault, LinkError, LoadFault, MapFault, ObjFault};
use image_write::WriteFault;
use resolve::ResolveFault;
use search::SearchFault;
use std::alloc::{AllocError, Global};
use std::fmt::Display;

/// A fault of a call, of which one is that memory was refused.
pub trait Refusal {
    fn is_memory(&self) -> bool;
}

impl Refusal for AllocError {
    fn is_memory(&self) -> bool {
        true
    }
}

impl Refusal for CmdFault {
    fn is_memory(&self) -> bool {
        matches!(self, CmdFault::Memory)
    }
}

impl Refusal for ObjFault {
    fn is_memory(&self) -> bool {
        matches!(self, ObjFault::Memory)
    }
}

impl Refusal for ArFault {
    fn is_memory(&self) -> bool {
        matches!(self, ArFault::Memory)
    }
}

impl Refusal for GroupFault {
    fn is_memory(&self) -> bool {
        matches!(self, GroupFault::Memory)
    }
}

impl Refusal for SearchFault {
    fn is_memory(&self) -> bool {
        matches!(self, SearchFault::Memory)
    }
}

impl Refusal for ResolveFault {
    fn is_memory(&self) -> bool {
        matches!(self, ResolveFault::Memory)
    }
}

impl Refusal for LinkError {
    fn is_memory(&self) -> bool {
        matches!(self, LinkError::Memory)
    }
}

impl Refusal for WriteFault {
    fn is_memory(&self) -> bool {
        matches!(self, WriteFault::Memory)
    }
}

impl Refusal for MapFault {
    fn is_memory(&self) -> bool {
        matches!(self, MapFault::Memory)
    }
}

impl Refusal for LoadFault {
    fn is_memory(&self) -> bool {
        matches!(self, LoadFault::Memory)
    }
}

/// Where the calls take memory and print their answers.
#[derive(Drop)]
pub struct Run<'r> {
    pub rt: &'r HostRuntime,
}

impl<'r> Run<'r> {
    pub fn new(rt: &'r HostRuntime) -> Run<'r> {
        Run { rt }
    }

    pub fn alloc(&self) -> Global {
        self.rt.alloc()
    }

    /// Prints that memory was refused in a call.
    pub fn tell_refused(&self, call: &str) {
        let _ = println!(self.rt; "Memory: {call}");
    }

    /// Whether memory was refused in a call, which is printed.
    pub fn is_refused<T, F: Refusal>(&self, call: &str, answer: &Result<T, F>) -> bool {
        let Err(fault) = answer else {
            return false;
        };
        let refused = fault.is_memory();
        if refused {
            self.tell_refused(call);
        }
        refused
    }

    /// What a call gave; a fault is printed.
    pub fn kept<T: Drop, F: Display + Drop>(&self, call: &str, answer: Result<T, F>) -> Option<T> {
        match answer {
            Ok(value) => Some(value),
            Err(fault) => {
                let _ = println!(self.rt; "{call}: {fault}");
                None
            }
        }
    }

    /// Prints whether bytes that a call gave are the wanted ones.
    pub fn tell_bytes(&self, call: &str, bytes: &[u8], wanted: &[u8]) {
        let told = if bytes == wanted {
            "as wanted"
        } else {
            "other bytes"
        };
        let _ = println!(self.rt; "{call}: {told}");
    }
}

/// What a call gives, where it gives anything; it is made a second time where the first one is refused memory.
macro_rules! answered {
    ($run:expr, $call:literal, $answer:expr) => {{
        let first = $answer;
        let last = if $run.is_refused($call, &first) {
            $answer
        } else {
            first
        };
        $run.kept($call, last)
    }};
}

pub(crate) use answered;
