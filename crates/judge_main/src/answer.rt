//! What a run answers: its exit status, and whether its line was printed.
ghost use Rattle.std.specs.Prelude.{◌≡◌, OnOk};
ghost use Rattle.std.specs.Io.KnownBytes.{Appends};
ghost use Rattle.judge_main.specs.Faults.{PrintsFault, fault_status};
ghost use Rattle.judge_main.specs.Opinions.{opinion_status, opinion_text};

use crate::fault::Fault;
use crate::opinion::Opinion;
use std::io;
use std::io::Write;

/// What a run answers.
#[derive(Debug, Drop)]
pub struct Answer {
    /// The exit status.
    pub status: u8,
    /// Whether the run's line was printed.
    pub printed: io::Result<()>,
}

/// Prints what is said of a link.
pub fn tell<O: Write>(out: &mut O, opinion: Opinion) -> Answer
    ensures status { result.status ≡ opinion_status opinion }
    ensures printed { OnOk result.printed
        (Appends (O.contents out.old) (O.contents out.new) (opinion_text opinion)) }
{
    Answer {
        status: opinion.status(),
        printed: opinion.print(out),
    }
}

/// Prints why nothing is said of a link.
pub fn fail<E: Write>(err: &mut E, fault: &Fault<'_>) -> Answer
    ensures status { result.status ≡ fault_status fault.now }
    ensures printed { OnOk result.printed
        (PrintsFault fault.now (E.contents err.old) (E.contents err.new)) }
{
    Answer {
        status: fault.status(),
        printed: fault.print(err),
    }
}
