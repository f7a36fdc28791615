//! The source line of a place of an object.
ghost use Rattle.std.specs.Prelude.{IfSome};
ghost use Rattle.line_tables.specs.Texts.{IsLineOf, IsTextOf};

use crate::forms::Value;
use crate::header::{Extent, Unit};
use crate::rows::{Row, row_at};
use crate::section::{Lines, Spot};
use byteview::View;
use elf_read::ObjectFile;

/// A line of a source file. Names are as the line table has them.
#[derive(Clone, Copy, Debug)]
pub struct SourceLine<'a> {
    /// The directory of the file; None where it is that of the compilation, or no name is there.
    pub directory: Option<&'a [u8]>,
    pub file: &'a [u8],
    /// From 1.
    pub line: u64,
}

/// The text that a name of an entry is.
fn text<'a>(lines: &Lines<'_, 'a>, name: Value) -> Option<&'a [u8]>
    ensures { IfSome result (λ t. IsTextOf lines.now.object.now t.now) }
{
    let spot = match name {
        Value::Text(at) => lines.spot(at),
        Value::Pointer(at) => lines.target(at)?,
        _ => return None,
    };
    lines.text(spot)
}

/// The row of a unit that covers a place, and the unit's header. Its bytes end where the unit does.
fn row_in(lines: &Lines<'_, '_>, bytes: &[u8], extent: Extent, place: Spot) -> Option<(Unit, Row)> {
    let unit = Unit::read(bytes, extent)?;
    let row = row_at(lines, bytes, &unit, place)?;
    Some((unit, row))
}

/// The line that a row of a unit says.
fn line_of<'a>(lines: &Lines<'_, 'a>, bytes: &[u8], unit: &Unit, row: Row) -> Option<SourceLine<'a>>
    ensures { IfSome result (IsLineOf lines.now.object.now) }
{
    if row.line == 0 {
        return None;
    }
    let file = unit.file(bytes, row.file)?;
    let directory = match unit.directory(bytes, file.directory) {
        Some(name) => text(lines, name),
        None => None,
    };
    Some(SourceLine {
        directory,
        file: text(lines, file.name)?,
        line: row.line,
    })
}

/// The source line of a byte of a section of an object, by the object's line tables; None where they don't say it. The names are
/// texts of the object, and the line isn't 0: that is proved. Which line it is isn't proved, only tested.
pub fn source_line<'a>(
    object: &ObjectFile<'a>,
    section: usize,
    offset: u64,
) -> Option<SourceLine<'a>>
    ensures { IfSome result (IsLineOf object.now) }
{
    let lines = Lines::of(object)?;
    let place = Spot { section, offset };
    let mut at = 0;
    'units: while at < lines.bytes.len() {
        let extent = Extent::at(lines.bytes, at)?;
        let bytes = View::new(lines.bytes).part(0, extent.end);
        // Names are looked up once, whatever becomes of it: a text of any length may be named again and again.
        if let Some((unit, row)) = row_in(&lines, bytes, extent, place) {
            return line_of(&lines, bytes, &unit, row);
        }
        at = extent.end;
    }
    None
}
