//! Links as rows of tables: files in, and what is wanted of the link; and checks of links after a change.
use crate::archives::archive;
use crate::objects::{NamedSymbol, Relocation, Section, relocatable};
use crate::one_object::words_of;
use crate::vectors::image;
use elf_model::{InputFile, LinkError};
use ld_main::{Output, Verdict, check, link};
use std::alloc::Global;
use std::test::Fail;

/// A member of an archive: the parts of its object.
pub struct Member {
    pub sections: &'static [Section<'static>],
    pub symbols: &'static [NamedSymbol<'static>],
    pub relocations: &'static [Relocation],
}

/// A file: an object of parts, an archive with the entries of its index (names with their NULs, and members by
/// number), or any bytes.
pub enum File {
    Object(
        &'static str,
        &'static [Section<'static>],
        &'static [NamedSymbol<'static>],
        &'static [Relocation],
    ),
    Archive(&'static str, &'static [(&'static [u8], usize)], &'static [Member]),
    Bytes(&'static str, &'static [u8]),
}

/// Bytes of an image at offsets.
pub type Part = (usize, &'static [u8]);

/// What comes of a link: an image that has a length (0 stands for any) and bytes at offsets, with a map that ends with
/// a text; the image of `vectors` with a map; or the error, with the name that it tells.
pub enum Wanted {
    Linked(usize, &'static [Part], &'static [u8]),
    Vectors(&'static [u8]),
    Refused(&'static str),
}

/// Files, the words of a line, and what comes of their link.
pub type Row = (&'static [File], &'static str, Wanted);

/// What is changed of a link before it is checked: the words, a byte of the first file or of the image at an offset, the
/// files, the map, or a text in it where it first occurs.
pub enum Change {
    Nothing,
    Words(&'static str),
    Input(usize, u8),
    Image(usize, u8),
    Files(&'static [File]),
    Map(&'static [u8]),
    Text(&'static str, &'static str),
}

/// A change of a link, and the verdict on what it makes.
pub type Judged = (Change, Verdict);

/// The path of a file.
pub fn path_of(file: &File) -> &'static str {
    match file {
        File::Object(path, _, _, _) | File::Archive(path, _, _) | File::Bytes(path, _) => *path,
    }
}

/// The bytes of a file, and its path.
fn file_of(alloc: Global, file: &File) -> Result<InputFile, Fail> {
    let bytes = match file {
        File::Object(_, sections, symbols, relocations) => {
            relocatable(alloc, sections, symbols, relocations)?
        }
        File::Archive(_, entries, members) => archive(alloc, entries, members)?,
        File::Bytes(_, bytes) => Vec::from_slice(alloc, bytes)?,
    };
    Ok(InputFile {
        name: String::from_str(alloc, path_of(file))?,
        bytes,
    })
}

/// The files of a row.
pub fn files_of(alloc: Global, files: &[File]) -> Result<Vec<InputFile>, Fail> {
    let mut list = Vec::new(alloc);
    for file in files {
        list.push(file_of(alloc, file)?)?;
    }
    Ok(list)
}

/// The words of a line behind `-s`: the rows' images have no symbol table.
fn stripped(alloc: Global, line: &str) -> Result<Vec<String>, Fail> {
    let line = format!(in alloc; "-s {line}")?;
    words_of(alloc, &line)
}

/// The link that words ask for, which the checker finds right where there is one.
pub fn linked_by(
    alloc: Global,
    files: &[InputFile],
    words: &[String],
) -> Result<Result<Output, LinkError>, Fail> {
    let answer = link(alloc, files, words);
    if let Ok(output) = &answer {
        let verdict = check(alloc, files, words, &output.image, &output.map)?;
        if verdict != Verdict::Yes {
            return Err("a wrong link".into());
        }
    }
    Ok(answer)
}

/// The link of a line without a symbol table.
pub fn linked(
    alloc: Global,
    files: &[InputFile],
    line: &str,
) -> Result<Result<Output, LinkError>, Fail> {
    let words = stripped(alloc, line)?;
    linked_by(alloc, files, &words)
}

/// The link of one file `a.o` of these bytes.
pub fn linked_bytes(alloc: Global, bytes: Vec<u8>) -> Result<Result<Output, LinkError>, Fail> {
    let mut files = Vec::new(alloc);
    files.push(InputFile {
        name: String::from_str(alloc, "a.o")?,
        bytes,
    })?;
    linked(alloc, &files, "a.o")
}

/// Whether an image has bytes at an offset.
pub fn has_bytes(image: &[u8], from: usize, bytes: &[u8]) -> bool {
    let to = from.saturating_add(bytes.len());
    image.get(from..to) == Some(bytes)
}

/// Whether an image has a length, where it isn't 0, and bytes at offsets.
fn has_parts(image: &[u8], len: usize, parts: &[Part]) -> bool {
    (len == 0 || image.len() == len) && parts.iter().all(|(at, bytes)| has_bytes(image, *at, bytes))
}

/// The text of an error, with the name that it tells.
pub fn text_of(alloc: Global, error: &LinkError) -> Result<String, Fail> {
    let mut text = format!(in alloc; "{error}")?;
    if let LinkError::Undefined(name) | LinkError::Duplicate(name) = error {
        text.push_str(": ")?;
        text.push_str(str::from_utf8(name)?)?;
    }
    Ok(text)
}

/// Whether the answer of a link is as wanted.
pub fn is_as_wanted(
    alloc: Global,
    answer: &Result<Output, LinkError>,
    wanted: &Wanted,
) -> Result<bool, Fail> {
    match (answer, wanted) {
        (Ok(output), Wanted::Linked(len, parts, map)) => {
            Ok(has_parts(&output.image, *len, parts) && output.map.ends_with(map))
        }
        (Ok(output), Wanted::Vectors(map)) => {
            let wanted = image(alloc)?;
            Ok(output.image == wanted && output.map.as_slice() == *map)
        }
        (Err(error), Wanted::Refused(text)) => Ok(text_of(alloc, error)?.as_str() == *text),
        _ => Ok(false),
    }
}

/// Whether the link of a row is as wanted.
fn is_row(alloc: Global, row: &Row) -> Result<bool, Fail> {
    let files = files_of(alloc, row.0)?;
    let answer = linked(alloc, &files, row.1)?;
    is_as_wanted(alloc, &answer, &row.2)
}

/// The number of the first row whose link is another than wanted.
pub fn first_wrong(alloc: Global, rows: &[Row]) -> Result<Option<usize>, Fail> {
    for (number, row) in rows.iter().enumerate() {
        if !is_row(alloc, row)? {
            return Ok(Some(number));
        }
    }
    Ok(None)
}

/// A text in which another one is replaced where it first occurs.
pub fn replaced(alloc: Global, text: &[u8], old: &str, new: &str) -> Result<Vec<u8>, Fail> {
    let text = str::from_utf8(text)?;
    let (front, rest) = text.split_once(old).ok_or("no such text")?;
    let mut bytes = Vec::from_slice(alloc, front.as_bytes())?;
    bytes.extend_from_slice(new.as_bytes())?;
    bytes.extend_from_slice(rest.as_bytes())?;
    Ok(bytes)
}

/// Makes a change of a link, but for one of its words.
fn apply(
    alloc: Global,
    files: &mut Vec<InputFile>,
    output: &mut Output,
    change: &Change,
) -> Result<(), Fail> {
    match change {
        Change::Nothing | Change::Words(_) => {}
        Change::Input(at, byte) => {
            let file = files.first_mut().ok_or("a file")?;
            *file.bytes.get_mut(*at).ok_or("the file")? = *byte;
        }
        Change::Image(at, byte) => *output.image.get_mut(*at).ok_or("the image")? = *byte,
        Change::Files(others) => *files = files_of(alloc, others)?,
        Change::Map(map) => output.map = Vec::from_slice(alloc, map)?,
        Change::Text(old, new) => output.map = replaced(alloc, &output.map, old, new)?,
    }
    Ok(())
}

/// The link of files by words after a change, but for one of its words: the files and what comes of them.
pub fn changed(
    alloc: Global,
    files: &[File],
    words: &[String],
    change: &Change,
) -> Result<(Vec<InputFile>, Output), Fail> {
    let mut files = files_of(alloc, files)?;
    let mut output = linked_by(alloc, &files, words)??;
    apply(alloc, &mut files, &mut output, change)?;
    Ok((files, output))
}

/// What the check says of the link of files by a line once it is changed.
fn verdict_of(alloc: Global, files: &[File], line: &str, change: &Change) -> Result<Verdict, Fail> {
    let words = stripped(alloc, line)?;
    let (files, output) = changed(alloc, files, &words, change)?;
    let line = if let Change::Words(other) = change {
        other
    } else {
        line
    };
    let words = stripped(alloc, line)?;
    Ok(check(alloc, &files, &words, &output.image, &output.map)?)
}

/// The number of the first change of the link of files by a line on which the verdict is another than wanted.
pub fn first_misjudged(
    alloc: Global,
    files: &[File],
    line: &str,
    rows: &[Judged],
) -> Result<Option<usize>, Fail> {
    for (number, (change, wanted)) in rows.iter().enumerate() {
        if verdict_of(alloc, files, line, change)? != *wanted {
            return Ok(Some(number));
        }
    }
    Ok(None)
}
