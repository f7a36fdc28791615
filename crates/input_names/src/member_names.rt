//! The names of an archive's members, as their headers spell them, for reading only (ar(5)).
use std::str;

/// What is before the first member, and what a member's header takes up; where in that the size is.
const MAGIC_SIZE: usize = 8;

const HEADER_SIZE: usize = 60;

const SIZE_AT: usize = 48;

/// So many bytes of a file from an offset on; None where it hasn't got them.
fn part(file: &[u8], from: usize, len: usize) -> Option<&[u8]> {
    file.get(from..from.checked_add(len)?)
}

/// The number that a field of a header spells.
fn number(field: &[u8]) -> Option<usize> {
    let digits = str::from_utf8(field.trim_ascii_end()).ok()?;
    digits.parse().ok()
}

/// A name without the slash that ends it, where one does, and without what comes behind the slash.
fn without_slash(name: &[u8]) -> Option<&[u8]> {
    name.get(..name.iter().rposition(|b| *b == b'/')?)
}

/// The data of the member whose header is at an offset.
fn member_data(file: &[u8], at: usize) -> Option<&[u8]> {
    let size = number(part(file, at.checked_add(SIZE_AT)?, 10)?)?;
    part(file, at.checked_add(HEADER_SIZE)?, size)
}

/// The data of the member `//`, which holds long names.
fn long_names(file: &[u8]) -> Option<&[u8]> {
    let mut at = MAGIC_SIZE;
    for _ in 0..file.len() {
        let names = member_data(file, at)?;
        if part(file, at, 16)?.starts_with(b"// ") {
            return Some(names);
        }
        let size = HEADER_SIZE.checked_add(names.len())?;
        at = at.checked_add(size)?.checked_add(size % 2)?;
    }
    None
}

/// The name of the member of an archive whose header is at an offset, as it is spelled there, or, where it is long, among the
/// long names: the text up to the slash before a line feed.
pub fn member_name(file: &[u8], offset: u64) -> Option<&[u8]> {
    let field = part(file, offset as usize, 16)?;
    let name = match field.strip_prefix(b"/") {
        Some(place) => long_names(file)?
            .get(number(place)?..)?
            .split(|b| *b == b'\n')
            .next()?,
        None => field.trim_ascii_end(),
    };
    Some(without_slash(name).unwrap_or(name))
}
