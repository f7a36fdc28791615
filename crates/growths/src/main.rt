//! Runs each public call of a link, one after the other, and prints what it answers. Where a call answers Memory, it says
//! so, and calls again: the answer must then be the one that would have come. `tools/growths_of_calls.py` refuses one growth
//! after the other, and compares what is printed.
//!
//! usage: growths IMAGE MAP WORDS; the words are those of a link, each of whose files stands among them by its name. The
//! exit status is 3 where a file isn't read.
#![tactic(auto)]

mod calls;
mod comparing_sink;
mod refusals;
mod tables;

use crate::calls::run_calls;
use crate::refusals::Run;
use crate::tables::run_tables;
use elf_model::InputFile;
use std::process::ExitCode;
use std::{env, fs, io};

/// What is linked, and the image and the map that are wanted of it.
#[derive(Drop)]
pub struct Row {
    pub words: Vec<String>,
    pub files: Vec<InputFile>,
    pub image: Vec<u8>,
    pub map: Vec<u8>,
}

/// Whether a word is the path of an input.
fn is_path(word: &str) -> bool {
    word.ends_with(".o") || word.ends_with(".a")
}

/// Reads the files that stand among words.
fn read_files(rt: &HostRuntime, words: &[String]) -> io::Result<Vec<InputFile>> {
    let mut files = Vec::new(rt.alloc());
    for word in words {
        if is_path(word) {
            let name = word.clone()?;
            let bytes = fs::read(rt, word)?;
            files.push(InputFile { name, bytes })?;
        }
    }
    Ok(files)
}

/// Reads the row that the program's words name.
fn read_row(rt: &HostRuntime) -> io::Result<Row> {
    let mut words = env::args(rt)?.skip(1);
    let image = fs::read(rt, &words.next().unwrap_or(String::new(rt.alloc())))?;
    let map = fs::read(rt, &words.next().unwrap_or(String::new(rt.alloc())))?;
    let mut rest = Vec::new(rt.alloc());
    for word in words {
        rest.push(word)?;
    }
    let files = read_files(rt, &rest)?;
    Ok(Row {
        words: rest,
        files,
        image,
        map,
    })
}

fn main(rt: HostRuntime) -> ExitCode {
    let Ok(row) = read_row(&rt) else {
        return ExitCode::from(3);
    };
    let run = Run::new(&rt);
    run_calls(&run, &row);
    run_tables(&run, &row.files);
    ExitCode::SUCCESS
}
