//! Rows of links that are changed, and the lines that say where their check fails.
use check_link::Link;
use elf_model::InputFile;
use explain_check::{explain_check, read_link, write_check_place};
use link_samples::links::{Change, File, changed, path_of};
use link_samples::one_object::words_of;
use std::alloc::Global;
use std::process::Abort;
use std::test::Fail;

/// Files, a change of their link without a symbol table, and the lines of where its check fails.
pub type Row = (&'static [File], Change, &'static str);

/// The lines of where the check of a link fails, whose map has this text, so many at most, and how many more places there are.
fn places_of(alloc: Global, link: &Link<'_>, map: &[u8], most: usize) -> Result<String, Fail> {
    let found = explain_check(alloc, link, most)?;
    let mut lines = Vec::new(alloc);
    for place in found.places() {
        write_check_place(alloc, &mut lines, link, map, place)?;
        lines.push(b'\n')?;
    }
    let mut lines = String::from_utf8(lines)?;
    if found.more() > 0 {
        let more = format!(in alloc; "and {} more\n", found.more())?;
        lines.push_str(&more)?;
    }
    Ok(lines)
}

/// The lines of where the check of an image and a map fails, so many at most, and how many more places there are.
pub fn lines_of(
    alloc: Global,
    files: &[InputFile],
    words: &[String],
    image: &[u8],
    map: &[u8],
    most: usize,
) -> Result<String, Fail> {
    let link = read_link(alloc, files, words, image, map)?.ok_or("no link")?;
    places_of(alloc, &link, map, most)
}

/// The lines of where the check of a changed link fails, so many at most, and how many more places there are.
pub fn changed_lines(
    alloc: Global,
    files: &[File],
    line: &str,
    change: &Change,
    most: usize,
) -> Result<String, Fail> {
    let words = words_of(alloc, line)?;
    let (files, output) = changed(alloc, files, &words, change)?;
    let line = if let Change::Words(other) = change {
        other
    } else {
        line
    };
    let words = words_of(alloc, line)?;
    lines_of(alloc, &files, &words, &output.image, &output.map, most)
}

/// That of the link of a row's files.
pub fn row_lines(alloc: Global, row: &Row, most: usize) -> Result<String, Fail> {
    let (files, change, _) = row;
    let mut line = String::from_str(alloc, "-s")?;
    for file in files.iter() {
        line.push(' ')?;
        line.push_str(path_of(file))?;
    }
    changed_lines(alloc, files, &line, change, most)
}

/// Asserts that the checks of rows fail where they say.
pub fn assert_rows<R: AllocGlobal + Abort>(rt: &R, rows: &[Row]) -> Result<(), Fail> {
    for (number, row) in rows.iter().enumerate() {
        let lines = row_lines(rt.alloc(), row, 9)?;
        assert_eq!(rt; lines.as_str(), row.2, "row {number}");
    }
    Ok(())
}
