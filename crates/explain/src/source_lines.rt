//! Which line of a source a relocation is of, where its object has debug data that say it.

use elf_read::ObjectFile;
use input_names::{Name, RelocationPlace};
use line_tables::source_line;
use std::fmt;
use std::fmt::{Formatter, Write};

/// Writes the source line of a relocation's field in parentheses, with a space before; nothing where its object doesn't say it.
pub fn write_source_line<W: Write>(
    f: &mut Formatter<W>,
    object: &ObjectFile<'_>,
    place: &RelocationPlace<'_>,
) -> fmt::Result {
    let section = place.section as usize;
    let Some(found) = source_line(object, section, place.entry.r_offset) else {
        return Ok(());
    };
    f.write_str(" (")?;
    if let Some(directory) = found.directory {
        write!(f, "{}/", Name(directory))?;
    }
    write!(f, "{}:{})", Name(found.file), found.line)
}
