//! Why `ld-judge` says nothing of a link.
ghost use Rattle.std.specs.Prelude.{◌≡◌, ◌≤◌, OnOk};
ghost use Rattle.std.specs.Io.KnownBytes.{Appends};
ghost use Rattle.judge_main.specs.Faults.{PrintsFault, fault_status};

use ld_main::Failure;
use std::alloc::AllocError;
use std::io;
use std::io::Write;

/// The word that names the certificate.
pub const CERTIFICATE: &str = "--certificate=";

/// Why nothing is said of a link.
#[derive(Debug, Drop)]
pub enum Fault<'a> {
    /// The first word names no certificate.
    NoCertificate,
    /// The path of a certificate, and the first line, from 1, that is none of one.
    BadCertificate(&'a str, u64),
    /// A file can't be read, or memory can't be had.
    Failed(Failure<'a>),
}

impl<'a> From<Failure<'a>> for Fault<'a> {
    ghost use Rattle.judge_main.specs.Faults.{fault_status};
    ghost use Rattle.ld_main.specs.Program.{failure_status};

    ghost from_gives = { λ failure fault. fault_status fault ≡ failure_status failure };

    fn from(failure: Failure<'a>) -> Fault<'a> {
        Fault::Failed(failure)
    }
}

impl<'a> From<AllocError> for Fault<'a> {
    ghost use Rattle.judge_main.specs.Faults.{fault_status};

    ghost from_gives = { λ _ fault. fault_status fault ≡ 4 };

    fn from(error: AllocError) -> Fault<'a> {
        Fault::Failed(Failure::from(error))
    }
}

impl Fault<'_> {
    /// 2 where no certificate is named or its text is none, 3 for a file that can't be read, 4 for want of memory.
    pub fn status(&self) -> u8
        ensures { result ≡ fault_status self.now }
    {
        match self {
            Fault::NoCertificate | Fault::BadCertificate(_, _) => 2,
            Fault::Failed(failure) => failure.status(),
        }
    }

    /// Prints the fault's line.
    pub fn print<W: Write>(&self, err: &mut W) -> io::Result<()>
        ensures { OnOk result (PrintsFault self.now (W.contents err.old) (W.contents err.new)) }
    {
        match self {
            Fault::NoCertificate => writeln!(err, "ld-judge: the first word is {CERTIFICATE}FILE"),
            Fault::BadCertificate(path, line) => {
                writeln!(
                    err,
                    "ld-judge: {path}: line {line} is none of a certificate"
                )
            }
            Fault::Failed(failure) => failure.print(err),
        }
    }
}
