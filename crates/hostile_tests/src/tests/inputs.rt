//! Objects and archives that are cut off, or that have another byte: they are refused, or their link is right.
use crate::tests::samples::{CHANGES, change_byte};
use byteview::View;
use elf_model::{InputFile, LinkError};
use elf_read::Object;
use ld_main::{Verdict, check, link};
use link_samples::links::{File, Member, files_of};
use link_samples::objects::Relocation;
use link_samples::one_object::words_of;
use link_samples::parts::{F, NO_F, R_64, START, TEXT};
use link_samples::vectors::OBJECT;
use std::alloc::{AllocError, Global};
use std::test::Fail;

/// The fault of a beginning of the object of `vectors`.
fn fault_of_beginning(alloc: Global, len: usize) -> Result<String, Fail> {
    let front = View::new(&OBJECT).part(0, len);
    match Object::read(alloc, View::new(front)) {
        Ok(_) => Err("an object".into()),
        Err(fault) => Ok(format!(in alloc; "{fault}")?),
    }
}

#[test]
fn beginnings_of_an_object_are_none(rt: HostRuntime) -> Result<(), Fail> {
    for len in 0..OBJECT.len() {
        let wanted = if len < 64 {
            "Truncated (2)"
        } else {
            "BadSectionTable (6)"
        };
        let fault = fault_of_beginning(rt.alloc(), len)?;
        assert_eq!(rt; fault.as_str(), wanted, "{len}");
    }
    Ok(())
}

/// Files, the words of their link, which of the files is changed, and how long it is.
type Row = (&'static [File], &'static str, usize, usize);

/// The object of `vectors`; and an object that wants `f`, with an archive of a member that defines it.
static ROWS: [Row; 2] = [
    (
        &[File::Object("a.o", &[TEXT], &[START], &[])],
        "a.o",
        0,
        496,
    ),
    (
        &[
            File::Object(
                "a.o",
                &[TEXT],
                &[START, NO_F],
                &[Relocation(1, 0, R_64, 2, 0)],
            ),
            File::Archive(
                "libx.a",
                &[(b"f\0", 0)],
                &[Member {
                    sections: &[TEXT],
                    symbols: &[F],
                    relocations: &[],
                }],
            ),
        ],
        "a.o libx.a",
        1,
        626,
    ),
];

/// Whether files are refused, but not for want of memory, or linked right.
fn is_refused_or_right(
    alloc: Global,
    files: &[InputFile],
    words: &[String],
) -> Result<bool, AllocError> {
    match link(alloc, files, words) {
        Ok(output) => {
            Ok(check(alloc, files, words, &output.image, &output.map)? == Verdict::Yes)
        }
        Err(error) => Ok(!matches!(error, LinkError::Memory)),
    }
}

/// The first change of the byte of a file at an offset with which the files aren't refused, nor linked right.
fn wrong_change(
    alloc: Global,
    files: &mut Vec<InputFile>,
    words: &[String],
    file: usize,
    at: usize,
) -> Result<Option<u8>, Fail> {
    for change in CHANGES {
        change_byte(&mut files.get_mut(file).ok_or("a file")?.bytes, at, change);
        let passed = is_refused_or_right(alloc, files, words)?;
        change_byte(&mut files.get_mut(file).ok_or("a file")?.bytes, at, change);
        if !passed {
            return Ok(Some(change));
        }
    }
    Ok(None)
}

/// The first byte of the file of a row with a change that is wrong, and the change.
fn first_wrong_change(alloc: Global, row: &Row) -> Result<Option<(usize, u8)>, Fail> {
    let mut files = files_of(alloc, row.0)?;
    let words = words_of(alloc, row.1)?;
    for at in 0..row.3 {
        if let Some(change) = wrong_change(alloc, &mut files, &words, row.2, at)? {
            return Ok(Some((at, change)));
        }
    }
    Ok(None)
}

#[test]
fn changed_files_are_refused_or_linked_right(rt: HostRuntime) -> Result<(), Fail> {
    for row in &ROWS {
        let wrong = first_wrong_change(rt.alloc(), row)?;
        assert_eq!(rt; wrong, None, "{}", row.1);
    }
    Ok(())
}

/// The length of the first beginning of the file of a row that isn't refused; the whole file isn't.
fn first_accepted_beginning(alloc: Global, row: &Row) -> Result<Option<usize>, Fail> {
    let mut files = files_of(alloc, row.0)?;
    let words = words_of(alloc, row.1)?;
    let whole = files.get(row.2).ok_or("a file")?.bytes.clone()?;
    for len in 0..=whole.len() {
        let front = Vec::from_slice(alloc, whole.get(..len).ok_or("a beginning")?)?;
        files.get_mut(row.2).ok_or("a file")?.bytes = front;
        if link(alloc, &files, &words).is_ok() {
            return Ok(Some(len));
        }
    }
    Ok(None)
}

#[test]
fn beginnings_of_files_are_refused(rt: HostRuntime) -> Result<(), Fail> {
    for row in &ROWS {
        let accepted = first_accepted_beginning(rt.alloc(), row)?;
        assert_eq!(rt; accepted, Some(row.3), "{}", row.1);
    }
    Ok(())
}
