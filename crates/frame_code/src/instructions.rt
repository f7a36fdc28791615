//! Instructions of call frames (DWARF 4, 6.4.2 and 7.23): where one ends, and whether bytes are whole ones.
ghost use Rattle.std.specs.Prelude.{◌≡◌, option_copied};
ghost use Rattle.judge_model.specs.FrameCode.{are_instructions, behind_instruction, behind_numbers_of, behind_operands};

use crate::operands::{behind, behind_block, behind_number, behind_two_numbers, is_among};

/// What is behind the numbers and the block of the instruction with a code; None where it has none of these, or isn't known.
fn behind_numbers_of(code: u8, bytes: &[u8]) -> Option<&[u8]>
    ensures { option_copied result ≡ behind_numbers_of code bytes.now }
{
    if is_among(&[0x06, 0x07, 0x08, 0x0d, 0x0e, 0x13, 0x2e], code) {
        return behind_number(bytes);
    }
    if is_among(&[0x05, 0x09, 0x0c, 0x11, 0x12, 0x14, 0x15, 0x2f], code) {
        return behind_two_numbers(bytes);
    }
    if code == 0x0f {
        return behind_block(bytes);
    }
    if is_among(&[0x10, 0x16], code) {
        let rest = behind_number(bytes)?;
        return behind_block(rest);
    }
    None
}

/// What is behind the operands of the instruction with a code below 0x40; None where it isn't known.
fn behind_operands(code: u8, bytes: &[u8]) -> Option<&[u8]>
    ensures { option_copied result ≡ behind_operands code bytes.now }
{
    if is_among(&[0x00, 0x0a, 0x0b], code) {
        return Some(bytes);
    }
    if code == 0x02 {
        return behind(1, bytes);
    }
    if code == 0x03 {
        return behind(2, bytes);
    }
    if code == 0x04 {
        return behind(4, bytes);
    }
    behind_numbers_of(code, bytes)
}

/// What is behind the instruction with which bytes begin; None where they begin with no whole one that is known.
fn behind_instruction(bytes: &[u8]) -> Option<&[u8]>
    ensures { option_copied result ≡ behind_instruction bytes.now }
{
    match bytes {
        [] => None,
        [code, rest @ ..] => {
            if *code < 0x40 {
                return behind_operands(*code, rest);
            }
            if 0x80 <= *code && *code < 0xc0 {
                return behind_number(rest);
            }
            Some(rest)
        }
    }
}

/// Whether bytes are whole instructions, one behind the other. Takes time by the number of the bytes.
pub fn are_instructions(bytes: &[u8]) -> bool
    ensures { result ≡ are_instructions bytes.now }
{
    let mut rest = bytes;
    for _ in 0..bytes.len() + 1 {
        if rest.is_empty() {
            return true;
        }
        match behind_instruction(rest) {
            Some(further) => rest = further,
            None => return false,
        }
    }
    false
}
