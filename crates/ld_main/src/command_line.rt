//! The program from its start on: the words of the command line are read, and run.
ghost use Rattle.std.specs.Prelude.{◌≡◌, ◌≤◌, IfErr, OnOk};

use crate::program::run_ld;
use std::io::{ErrorKind, Write};
use std::random::RandomSource;
use std::rt::{Env, Files};
use std::{env, io};

/// The words behind the program's name, in just the room that they take.
fn words<R: Env + AllocGlobal>(rt: &R) -> io::Result<Vec<String>> {
    let mut words = Vec::new(rt.alloc());
    for word in env::args(rt)?.skip(1) {
        words.push(String::from_str(rt.alloc(), &word)?)?;
    }
    Ok(words)
}

/// The line and the exit status where the words can't be had.
fn no_words(error: &io::Error) -> (&'static str, u8)
    ensures { (2 ≤ result.1) × (result.1 ≤ 4) }
{
    match error.kind() {
        ErrorKind::InvalidData => ("ld: a word is not UTF-8", 2),
        _ => ("ld: Memory (1)", 4),
    }
}

/// The words that a runtime has behind the program's name. Where they can't be had, `err` gets one line that says so, and the
/// exit status is answered: 2 where a word isn't UTF-8, and 4 where memory is refused.
pub fn given_words<R: Env + AllocGlobal, E: Write>(rt: &R, err: &mut E) -> Result<Vec<String>, u8>
    ensures statuses { IfErr result (λ n. (2 ≤ n) × (n ≤ 4)) }
    ensures quiet { OnOk result (err.new ≡ err.old) }
{
    match words(rt) {
        Ok(words) => Ok(words),
        Err(error) => {
            let (line, status) = no_words(&error);
            let _ = writeln!(err, "{line}");
            Err(status)
        }
    }
}

/// Runs `ld` with the words that a runtime has behind the program's name, as `run_ld` does, and answers its exit status.
/// Where they can't be had, that is 2 or 4, as `given_words` says.
pub fn run_args<R: Env + Files + AllocGlobal + RandomSource, O: Write, E: Write>(
    rt: &R,
    out: &mut O,
    err: &mut E,
) -> u8
    ensures statuses { result ≤ 4 }
    ensures out_quiet { 2 ≤ result → out.new ≡ out.old }
    ensures err_quiet { result ≡ 0 → err.new ≡ err.old }
{
    match given_words(rt, err) {
        Ok(words) => run_ld(rt, &words, out, err),
        Err(status) => status,
    }
}
