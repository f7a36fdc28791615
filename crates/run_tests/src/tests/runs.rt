//! Runs of the program on a system in memory, and all that comes of one.
use crate::tests::machine::{Disk, Machine, NewFiles, SOUND, StoredFile};
use debug_main::run_args as run_debug_args;
use elf_model::InputFile;
use ld_main::run_args;
use std::alloc::Global;
use std::test::Fail;
use why_main::run_args as run_why_args;

/// What comes of a run: the files that it made, how many bytes it passed over in them, and all else
/// as a text.
#[derive(Drop)]
pub struct Outcome {
    pub made: Vec<InputFile>,
    pub passed: u64,
    pub told: String,
}

/// The programs.
#[derive(Clone, Copy)]
pub enum Program {
    Ld,
    Debug,
    Why,
}

impl Program {
    /// Runs a program on a system, and answers its status.
    pub fn start(self, machine: &Machine<'_>, out: &mut Vec<u8>, err: &mut Vec<u8>) -> u8 {
        match self {
            Program::Ld => run_args(machine, out, err),
            Program::Debug => run_debug_args(machine, out, err),
            Program::Why => run_why_args(machine, out),
        }
    }
}

/// Runs a program with words, its name among them, on a system with files, and with others that
/// are made. The text has the journal of what was done with files, then what is on standard output
/// and on standard error, then the status.
pub fn run_program(
    alloc: Global,
    program: Program,
    stored: &[StoredFile<'_>],
    new_files: NewFiles,
    words: &[&[u8]],
) -> Result<Outcome, Fail> {
    let disk = Disk::new(alloc, stored, new_files);
    let machine = Machine {
        disk: &disk,
        words,
        random: None,
    };
    let mut out = Vec::new(alloc);
    let mut err = Vec::new(alloc);
    let status = program.start(&machine, &mut out, &mut err);
    let (made, passed, journal) = disk.into_parts();
    let out = String::from_utf8(out)?;
    let err = String::from_utf8(err)?;
    let told = format!(in alloc; "{journal}out: {out}\nerr: {err}\nstatus {status}")?;
    Ok(Outcome { made, passed, told })
}

/// Runs `ld` so.
pub fn run(
    alloc: Global,
    stored: &[StoredFile<'_>],
    new_files: NewFiles,
    words: &[&[u8]],
) -> Result<Outcome, Fail> {
    run_program(alloc, Program::Ld, stored, new_files, words)
}

/// Runs a program with the words of a line.
pub fn run_program_line(
    alloc: Global,
    program: Program,
    stored: &[StoredFile<'_>],
    new_files: NewFiles,
    line: &str,
) -> Result<Outcome, Fail> {
    let mut words = Vec::new(alloc);
    words.push("ld".as_bytes())?;
    for word in line.split_ascii_whitespace() {
        words.push(word.as_bytes())?;
    }
    run_program(alloc, program, stored, new_files, &words)
}

/// Runs the program with the words of a line, where the files that are made answer so.
pub fn run_line_with(
    alloc: Global,
    stored: &[StoredFile<'_>],
    new_files: NewFiles,
    line: &str,
) -> Result<Outcome, Fail> {
    run_program_line(alloc, Program::Ld, stored, new_files, line)
}

/// Runs the program with the words of a line.
pub fn run_line(alloc: Global, stored: &[StoredFile<'_>], line: &str) -> Result<Outcome, Fail> {
    run_line_with(alloc, stored, SOUND, line)
}
