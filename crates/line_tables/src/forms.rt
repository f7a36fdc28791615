//! The values that entries of directories and files have in version 5 (DWARF 5, 6.2.4.1, 7.5.5 and 7.5.6).
use crate::cursor::Cursor;

const DW_FORM_DATA2: u64 = 0x05;

const DW_FORM_DATA4: u64 = 0x06;

const DW_FORM_DATA8: u64 = 0x07;

const DW_FORM_STRING: u64 = 0x08;

const DW_FORM_BLOCK: u64 = 0x09;

const DW_FORM_DATA1: u64 = 0x0b;

const DW_FORM_STRP: u64 = 0x0e;

const DW_FORM_UDATA: u64 = 0x0f;

const DW_FORM_DATA16: u64 = 0x1e;

const DW_FORM_LINE_STRP: u64 = 0x1f;

/// A value, as far as lines need it.
#[derive(Clone, Copy)]
pub enum Value {
    Number(u64),
    /// A text at an offset of the line tables.
    Text(usize),
    /// A text where the field at an offset of the line tables points to.
    Pointer(usize),
    Other,
}

/// A number.
fn number(cursor: &mut Cursor<'_>, form: u64) -> Option<u64> {
    match form {
        DW_FORM_DATA1 => Some(u64::from(cursor.u8()?)),
        DW_FORM_DATA2 => Some(u64::from(cursor.u16()?)),
        DW_FORM_DATA4 => Some(u64::from(cursor.u32()?)),
        DW_FORM_DATA8 => cursor.u64(),
        DW_FORM_UDATA => cursor.uleb(),
        _ => None,
    }
}

/// A value of a form, of a unit that may be of 64 bits.
pub fn read_value(cursor: &mut Cursor<'_>, form: u64, is_wide: bool) -> Option<Value> {
    let at = cursor.at;
    match form {
        DW_FORM_STRING => {
            cursor.text()?;
            Some(Value::Text(at))
        }
        DW_FORM_LINE_STRP | DW_FORM_STRP => {
            cursor.offset(is_wide)?;
            Some(Value::Pointer(at))
        }
        DW_FORM_DATA16 => {
            cursor.skip(16)?;
            Some(Value::Other)
        }
        DW_FORM_BLOCK => {
            let len = cursor.uleb()?;
            cursor.skip(len)?;
            Some(Value::Other)
        }
        _ => Some(Value::Number(number(cursor, form)?)),
    }
}
