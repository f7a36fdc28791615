//! The instructions of a line program (DWARF 5, 6.2.5).
ghost use Rattle.std.specs.Prelude.{◌≡◌, ◌<◌, ◌≤◌, OnSome};

use crate::cursor::Cursor;
use crate::header::Unit;

const DW_LNS_COPY: u8 = 1;

const DW_LNS_ADVANCE_PC: u8 = 2;

const DW_LNS_ADVANCE_LINE: u8 = 3;

const DW_LNS_SET_FILE: u8 = 4;

const DW_LNS_CONST_ADD_PC: u8 = 8;

const DW_LNS_FIXED_ADVANCE_PC: u8 = 9;

const DW_LNE_END_SEQUENCE: u8 = 1;

const DW_LNE_SET_ADDRESS: u8 = 2;

/// How many bytes DW_LNE_set_address has with its address of eight.
const ADDRESS_LEN: u64 = 9;

/// What an instruction does to addresses, files and lines.
#[derive(Clone, Copy)]
pub enum Instruction {
    /// Adds to the address.
    Address(u64),
    /// Adds to the line.
    Line(i64),
    /// Adds to both, and appends a row.
    Row(u64, i64),
    /// Sets the number of the file.
    File(u64),
    /// Sets the address to what the field at an offset of the line tables holds.
    At(usize),
    /// Ends the sequence, at an address behind its last instruction.
    End,
    Other,
}

/// A special opcode: adds to the address and the line, and appends a row.
fn special(unit: &Unit, opcode: u8) -> Instruction {
    let adjusted = opcode.saturating_sub(unit.opcode_base);
    let (address, line) = (adjusted / unit.line_range, adjusted % unit.line_range);
    Instruction::Row(
        u64::from(address),
        i64::from(unit.line_base) + i64::from(line),
    )
}

/// An extended opcode, behind its zero.
fn extended(cursor: &mut Cursor<'_>) -> Option<Instruction>
    ensures same { OnSome result (cursor.new.bytes ≡ cursor.old.bytes) }
    ensures moves { OnSome result (cursor.old.at < cursor.new.at) }
{
    let len = cursor.uleb()?;
    let opcode = cursor.u8()?;
    let field = cursor.at;
    cursor.skip(len.checked_sub(1)?)?;
    match opcode {
        DW_LNE_END_SEQUENCE => Some(Instruction::End),
        DW_LNE_SET_ADDRESS if len == ADDRESS_LEN => Some(Instruction::At(field)),
        DW_LNE_SET_ADDRESS => None,
        _ => Some(Instruction::Other),
    }
}

/// Passes over the operands of a standard opcode, LEB128 numbers, of which the header says how many there are.
fn skip_operands(cursor: &mut Cursor<'_>, unit: &Unit, opcode: u8) -> Option<()>
    ensures same { OnSome result (cursor.new.bytes ≡ cursor.old.bytes) }
    ensures moves { OnSome result (cursor.old.at ≤ cursor.new.at) }
{
    let at = unit.lengths.checked_add(opcode as usize)?;
    let count = *cursor.bytes.get(at.checked_sub(1)?)?;
    for _ in 0..count {
        cursor.uleb()?;
    }
    Some(())
}

/// A standard opcode.
fn standard(cursor: &mut Cursor<'_>, unit: &Unit, opcode: u8) -> Option<Instruction>
    ensures same { OnSome result (cursor.new.bytes ≡ cursor.old.bytes) }
    ensures moves { OnSome result (cursor.old.at ≤ cursor.new.at) }
{
    match opcode {
        DW_LNS_COPY => Some(Instruction::Row(0, 0)),
        DW_LNS_ADVANCE_PC => Some(Instruction::Address(cursor.uleb()?)),
        DW_LNS_ADVANCE_LINE => Some(Instruction::Line(cursor.sleb()?)),
        DW_LNS_SET_FILE => Some(Instruction::File(cursor.uleb()?)),
        DW_LNS_CONST_ADD_PC => {
            let address = (u8::MAX - unit.opcode_base) / unit.line_range;
            Some(Instruction::Address(u64::from(address)))
        }
        DW_LNS_FIXED_ADVANCE_PC => Some(Instruction::Address(u64::from(cursor.u16()?))),
        _ => {
            skip_operands(cursor, unit, opcode)?;
            Some(Instruction::Other)
        }
    }
}

/// The next instruction of a program.
pub fn next_instruction(cursor: &mut Cursor<'_>, unit: &Unit) -> Option<Instruction>
    ensures same { OnSome result (cursor.new.bytes ≡ cursor.old.bytes) }
    ensures moves { OnSome result (cursor.old.at < cursor.new.at) }
{
    let opcode = cursor.u8()?;
    if opcode >= unit.opcode_base {
        return Some(special(unit, opcode));
    }
    if opcode == 0 {
        return extended(cursor);
    }
    standard(cursor, unit, opcode)
}
