//! The tables of directories and files of a unit, one entry after the other. Version 5 numbers both from 0 and says the form of
//! their entries; those before it number them from 1, and end each table by an empty name (DWARF 4, 6.2.4; DWARF 5, 6.2.4).
use crate::cursor::Cursor;
use crate::forms::{Value, read_value};
use crate::header::Unit;

const DW_LNCT_PATH: u64 = 1;

const DW_LNCT_DIRECTORY_INDEX: u64 = 2;

/// A directory or a file: its name, and of a file the number of its directory.
#[derive(Clone, Copy)]
pub struct Entry {
    pub name: Value,
    pub directory: u64,
}

/// The form of entries: where its pairs of a content and a form are, and how many there are.
#[derive(Clone, Copy)]
struct Format {
    at: usize,
    count: u8,
}

/// A table of version 5: the form of its entries, how many there are, and where they begin.
#[derive(Clone, Copy)]
struct Table {
    format: Format,
    count: u64,
    entries: usize,
}

impl Format {
    /// The form of the entries of a table.
    fn read(cursor: &mut Cursor<'_>) -> Option<Format> {
        let count = cursor.u8()?;
        let at = cursor.at;
        for _ in 0..count {
            cursor.uleb()?;
            cursor.uleb()?;
        }
        Some(Format { at, count })
    }

    /// An entry.
    fn entry(self, cursor: &mut Cursor<'_>, is_wide: bool) -> Option<Entry> {
        let mut pairs = Cursor {
            bytes: cursor.bytes,
            at: self.at,
        };
        let (mut name, mut directory) = (Value::Other, 0);
        for _ in 0..self.count {
            let content = pairs.uleb()?;
            let form = pairs.uleb()?;
            match (content, read_value(cursor, form, is_wide)?) {
                (DW_LNCT_PATH, path) => name = path,
                (DW_LNCT_DIRECTORY_INDEX, Value::Number(number)) => directory = number,
                _ => {}
            }
        }
        Some(Entry { name, directory })
    }
}

impl Table {
    /// The table that begins where a cursor is, which comes to its entries.
    fn read(cursor: &mut Cursor<'_>) -> Option<Table> {
        let format = Format::read(cursor)?;
        let count = cursor.uleb()?;
        // Each entry has a byte at least.
        if count > 0 && (format.count == 0 || count > cursor.bytes.len() as u64) {
            return None;
        }
        Some(Table {
            format,
            count,
            entries: cursor.at,
        })
    }

    /// Passes over entries.
    fn skip(&self, cursor: &mut Cursor<'_>, is_wide: bool, count: u64) -> Option<()> {
        for _ in 0..count {
            self.format.entry(cursor, is_wide)?;
        }
        Some(())
    }

    /// The entry of a number.
    fn get(&self, bytes: &[u8], is_wide: bool, number: u64) -> Option<Entry> {
        if number >= self.count {
            return None;
        }
        let mut cursor = Cursor {
            bytes,
            at: self.entries,
        };
        self.skip(&mut cursor, is_wide, number)?;
        self.format.entry(&mut cursor, is_wide)
    }
}

/// Passes over names up to the empty one.
fn skip_names(cursor: &mut Cursor<'_>) -> Option<()> {
    'names: while cursor.text()? > 0 {}
    Some(())
}

/// The next directory of a version before 5; None at the end of the table.
fn next_directory(cursor: &mut Cursor<'_>) -> Option<Value> {
    let name = Value::Text(cursor.at);
    if cursor.text()? == 0 {
        return None;
    }
    Some(name)
}

/// The next file of a version before 5; None at the end of the table.
fn next_file(cursor: &mut Cursor<'_>) -> Option<Entry> {
    let name = next_directory(cursor)?;
    let directory = cursor.uleb()?;
    // When it was changed, and its size.
    cursor.uleb()?;
    cursor.uleb()?;
    Some(Entry { name, directory })
}

/// A file by its number, from 1.
fn numbered_file(cursor: &mut Cursor<'_>, number: u64) -> Option<Entry> {
    skip_names(cursor)?;
    for _ in 1..number {
        next_file(cursor)?;
    }
    if number == 0 { None } else { next_file(cursor) }
}

/// A directory by its number, from 1.
fn numbered_directory(cursor: &mut Cursor<'_>, number: u64) -> Option<Value> {
    for _ in 1..number {
        next_directory(cursor)?;
    }
    next_directory(cursor)
}

impl Unit {
    /// The file of a number, in the bytes of the unit.
    pub fn file(&self, bytes: &[u8], number: u64) -> Option<Entry> {
        let mut cursor = Cursor {
            bytes,
            at: self.tables,
        };
        if self.version < 5 {
            return numbered_file(&mut cursor, number);
        }
        let directories = Table::read(&mut cursor)?;
        directories.skip(&mut cursor, self.is_wide, directories.count)?;
        Table::read(&mut cursor)?.get(bytes, self.is_wide, number)
    }

    /// The name of the directory of a number, but for that of the compilation, number 0.
    pub fn directory(&self, bytes: &[u8], number: u64) -> Option<Value> {
        if number == 0 {
            return None;
        }
        let mut cursor = Cursor {
            bytes,
            at: self.tables,
        };
        if self.version < 5 {
            return numbered_directory(&mut cursor, number);
        }
        let entry = Table::read(&mut cursor)?.get(bytes, self.is_wide, number)?;
        Some(entry.name)
    }
}
