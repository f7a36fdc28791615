//! The lines of an explanation.
use elf_model::{InputFile, NameSeed};
use explain::{Inputs, explain, write_places};
use ld_main::prepare;
use link_samples::one_object::words_of;
use std::alloc::Global;
use std::test::Fail;

/// The lines that say why the link of files by the words of a line is refused, so many at most, and how many more there are
/// where there are more.
pub fn lines_of(
    alloc: Global,
    files: &[InputFile],
    line: &str,
    most: usize,
) -> Result<String, Fail> {
    let line = words_of(alloc, line)?;
    let words = line.as_slice();
    let Err(error) = prepare(alloc, files, words) else {
        return Ok(String::new(alloc));
    };
    let found = explain(alloc, files, words, &error, most, NameSeed::fixed())?;
    let inputs = Inputs {
        alloc,
        files,
        words,
    };
    let mut text = Vec::new(alloc);
    write_places(&mut text, inputs, &found)?;
    Ok(String::from_utf8(text)?)
}
