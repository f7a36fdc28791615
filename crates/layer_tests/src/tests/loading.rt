//! Loading of objects.
use crate::tests::objects::{DATA, TEXT, object_of};
use command::read_words;
use elf_model::{CmdFault, InputFile};
use search::{Loaded, SearchFault, load};
use std::alloc::{AllocError, Global};
use std::test::Fail;

/// The words of a line, cut at spaces.
pub fn words(alloc: Global, line: &str) -> Result<Vec<String>, AllocError> {
    let mut list = Vec::new(alloc);
    for word in line.split_whitespace() {
        list.push(String::from_str(alloc, word)?)?;
    }
    Ok(list)
}

/// Puts a file at the end of a list.
pub fn put_file(
    files: &mut Vec<InputFile>,
    alloc: Global,
    name: &str,
    bytes: Vec<u8>,
) -> Result<(), AllocError> {
    files.push(InputFile {
        name: String::from_str(alloc, name)?,
        bytes,
    })?;
    Ok(())
}

/// What comes of the loading of the objects that words name.
pub fn load_words<'a>(
    alloc: Global,
    words: &'a [String],
    files: &'a [InputFile],
) -> Result<Result<Loaded<'a>, SearchFault>, CmdFault> {
    let plan = read_words(alloc, words)?;
    let loaded = load(alloc, &plan, files);
    Ok(loaded)
}

/// The files `a.o` and `b.o`, with one and with two sections besides those of each object, and `s.o`, which is the
/// beginning of an object.
fn files(alloc: Global) -> Result<Vec<InputFile>, AllocError> {
    let mut files = Vec::new(alloc);
    put_file(&mut files, alloc, "a.o", object_of(alloc, &[TEXT])?)?;
    put_file(&mut files, alloc, "b.o", object_of(alloc, &[DATA, TEXT])?)?;
    put_file(&mut files, alloc, "s.o", Vec::from_slice(alloc, &[0; 63])?)?;
    Ok(files)
}

/// The item, the path and the number of sections of each loaded object, and the number of items.
fn contents_of(alloc: Global, loaded: &Loaded<'_>) -> Result<String, AllocError> {
    let mut text = String::new(alloc);
    for o in loaded.objects() {
        let sections = o.object.sections().len();
        text.push_str(&format!(in alloc; "{} {} {sections};", o.item, o.path)?)?;
    }
    let count = loaded.plan().items.len();
    text.push_str(&format!(in alloc; "{count}")?)?;
    Ok(text)
}

/// Those of the objects that words load; or the fault.
fn told_words(alloc: Global, words: &[String], files: &[InputFile]) -> Result<String, Fail> {
    match load_words(alloc, words, files)? {
        Ok(loaded) => Ok(contents_of(alloc, &loaded)?),
        Err(fault) => Ok(format!(in alloc; "{fault}")?),
    }
}

/// Those of the objects that a line loads; or the fault.
fn told(alloc: Global, line: &str) -> Result<String, Fail> {
    let files = files(alloc)?;
    let words = words(alloc, line)?;
    told_words(alloc, &words, &files)
}

/// Lines, and what they load. Objects stand in command order; missing files come before bad objects.
static LINES: [(&str, &str); 4] = [
    ("b.o a.o b.o", "0 b.o 4;1 a.o 3;2 b.o 4;3"),
    ("a.o", "0 a.o 3;1"),
    ("a.o s.o", "BadObject (3): Truncated (2)"),
    ("s.o c.o", "FileMissing (2)"),
];

#[test]
fn objects_stand_in_command_order(rt: HostRuntime) -> Result<(), Fail> {
    for (line, wanted) in &LINES {
        assert_eq!(rt; told(rt.alloc(), line)?.as_str(), *wanted, "{line}");
    }
    Ok(())
}
