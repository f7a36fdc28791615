//! The header of a unit of line tables (DWARF 5, 6.2.4).
ghost use Rattle.std.specs.Prelude.{◌<◌, ◌≤◌, IfSome, OnSome};

use crate::cursor::Cursor;

/// What a unit of 64 bits begins with; other lengths from `RESERVED` on mean nothing (DWARF 5, 7.2.2).
const WIDE: u32 = 0xffff_ffff;

const RESERVED: u32 = 0xffff_fff0;

/// Where a unit is: from behind its length on.
#[derive(Clone, Copy)]
pub struct Extent {
    pub is_wide: bool,
    pub start: usize,
    pub end: usize,
}

/// What the header of a unit says, as far as lines need it.
#[derive(Clone, Copy)]
pub struct Unit {
    pub version: u16,
    /// Whether the unit is of 64 bits, so that offsets take eight bytes.
    pub is_wide: bool,
    /// Where the lengths of standard opcodes are, the tables of directories and files, and the program.
    pub lengths: usize,
    pub tables: usize,
    pub program: usize,
    pub line_base: i8,
    pub line_range: u8,
    pub opcode_base: u8,
    ghost divides: { 0 < line_range },
}

/// The length of a unit behind its first four bytes, which are the length itself, or say that it takes eight bytes more.
fn length_of(cursor: &mut Cursor<'_>, first: u32) -> Option<u64>
    ensures { OnSome result (cursor.old.at ≤ cursor.new.at) }
{
    if first == WIDE {
        return cursor.u64();
    }
    if first >= RESERVED {
        return None;
    }
    Some(u64::from(first))
}

impl Extent {
    /// The unit at an offset (DWARF 5, 7.4).
    pub fn at(bytes: &[u8], at: usize) -> Option<Extent>
        ensures { IfSome result (λ e. at < e.end) }
    {
        let mut cursor = Cursor { bytes, at };
        let first = cursor.u32()?;
        let len = length_of(&mut cursor, first)?;
        let start = cursor.at;
        cursor.skip(len)?;
        Some(Extent {
            is_wide: first == WIDE,
            start,
            end: cursor.at,
        })
    }
}

/// The version of a unit, one of 2 to 5. In version 5 it has the size of addresses and of segment selectors behind it.
fn version(cursor: &mut Cursor<'_>) -> Option<u16> {
    let version = cursor.u16()?;
    if version < 2 || version > 5 {
        return None;
    }
    if version == 5 && (cursor.u8()? != 8 || cursor.u8()? != 0) {
        return None;
    }
    Some(version)
}

/// Passes over the lengths of instructions, which are those of x86-64, and over whether rows begin statements.
fn skip_lengths(cursor: &mut Cursor<'_>, version: u16) -> Option<()> {
    if cursor.u8()? != 1 {
        return None;
    }
    if version >= 4 && cursor.u8()? != 1 {
        return None;
    }
    cursor.skip(1)
}

impl Unit {
    /// The header of a unit, whose bytes end where the unit does.
    pub fn read(bytes: &[u8], extent: Extent) -> Option<Unit> {
        let mut cursor = Cursor {
            bytes,
            at: extent.start,
        };
        let version = version(&mut cursor)?;
        let len = cursor.offset(extent.is_wide)?;
        let program = cursor.at.checked_add(len as usize)?;
        skip_lengths(&mut cursor, version)?;
        let line_base = cursor.u8()?.cast_signed();
        let line_range = cursor.u8()?;
        let opcode_base = cursor.u8()?;
        if line_range == 0 || opcode_base == 0 {
            return None;
        }
        let lengths = cursor.at;
        cursor.skip(u64::from(opcode_base - 1))?;
        Some(Unit {
            version,
            is_wide: extent.is_wide,
            lengths,
            tables: cursor.at,
            program,
            line_base,
            line_range,
            opcode_base,
        })
    }
}
