//! An object of one text, the list of its file, and the words of a command.
use crate::objects::{NamedSymbol, Section};
use crate::parts::{START, TEXT};
use elf_model::InputFile;
use std::alloc::Global;
use std::test::Fail;

/// A `.text` of the nine bytes, with section number 1.
pub fn text_section() -> Section<'static> {
    TEXT
}

/// A global function at the beginning of section 1.
pub fn function<'a>(name: &'a str) -> NamedSymbol<'a> {
    NamedSymbol { name, ..START }
}

/// The words of a command line.
pub fn words_of(alloc: Global, line: &str) -> Result<Vec<String>, Fail> {
    let mut words = Vec::new(alloc);
    for word in line.split_ascii_whitespace() {
        words.push(String::from_str(alloc, word)?)?;
    }
    Ok(words)
}

/// The list of one file.
pub fn one_file(alloc: Global, name: &str, bytes: &[u8]) -> Result<Vec<InputFile>, Fail> {
    let mut files = Vec::new(alloc);
    files.push(InputFile {
        name: String::from_str(alloc, name)?,
        bytes: Vec::from_slice(alloc, bytes)?,
    })?;
    Ok(files)
}
