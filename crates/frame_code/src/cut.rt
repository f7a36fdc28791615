//! Whether a record may be cut off: where its instructions begin, and what is left and left out of them.
ghost use Rattle.std.specs.Prelude.{◌≡◌, ◌+◌, ◌≤◌, length, option_copied};
ghost use Rattle.byteview.specs.Numbers.{part};
ghost use Rattle.judge_model.specs.FrameCode.{are_nops, code_of, code_of_common, code_of_function, common_fields, ends_whole, is_cut_at, is_part};

use crate::common::{address_width, augmentation_of, behind_data, behind_head};
use crate::instructions::are_instructions;
use crate::operands::{behind, front};
use byteview::View;
use judge_model::FrameRecord;

/// The instructions of a common part, given what is behind its number.
fn code_of_common(fields: &[u8]) -> Option<&[u8]>
    ensures { option_copied result ≡ code_of_common fields.now }
{
    let _width = address_width(fields)?;
    let bytes = behind_head(fields)?;
    behind_data(augmentation_of(fields), bytes)
}

/// The instructions of a function's record, given what is behind the number of its common part, and of its own.
fn code_of_function<'a>(common: &[u8], fields: &'a [u8]) -> Option<&'a [u8]>
    ensures { option_copied result
        ≡ code_of_function common.entry.now fields.entry.now }
{
    let width = address_width(common)?;
    let length = behind(width, fields)?;
    let bytes = behind(width, length)?;
    behind_data(augmentation_of(common), bytes)
}

/// What is behind the number of a function's common part, as far as 256 bytes, given a record that begins in the bytes.
pub fn common_fields<'a>(bytes: &'a [u8], r: &FrameRecord) -> Option<&'a [u8]>
    requires { r.now.offset + 4 ≤ length bytes.now }
    ensures { option_copied result ≡ common_fields bytes.entry.now r.entry.now }
{
    let number = r.offset + 4;
    if r.id > number {
        return None;
    }
    let common = View::new(bytes).part((number - r.id) as usize, 264);
    behind(8, common)
}

/// The instructions of a record, given what is behind its number.
fn code_of<'a>(bytes: &[u8], r: &FrameRecord, fields: &'a [u8]) -> Option<&'a [u8]>
    requires { r.now.offset + 4 ≤ length bytes.now }
    ensures { option_copied result
        ≡ code_of bytes.entry.now r.entry.now fields.entry.now }
{
    if r.id == 0 {
        return code_of_common(fields);
    }
    let common = common_fields(bytes, r)?;
    code_of_function(common, fields)
}

/// The part of bytes that begins at an offset.
pub fn part(bytes: &[u8], offset: usize, len: usize) -> &[u8]
    requires { offset + len ≤ length bytes.now }
    ensures { result.now ≡ part bytes.now offset len }
{
    let (_before, rest) = bytes.split_at(offset);
    front(len, rest)
}

pub fn are_nops(bytes: &[u8]) -> bool
    ensures { result ≡ are_nops bytes.now }
{
    bytes.iter().all(|b| *b == 0)
}

/// Whether a record lies in bytes, and has so many, with a length and a number.
fn is_part(bytes: &[u8], r: &FrameRecord, size: u64) -> bool
    ensures { result ≡ is_part bytes.now r.now size }
{
    let len = bytes.len() as u64;
    if size < 8 || r.size < size {
        return false;
    }
    r.offset <= len && r.size <= len - r.offset
}

/// Whether so many bytes of a record end with a whole instruction.
fn ends_whole(bytes: &[u8], r: &FrameRecord, size: u64) -> bool
    requires eight { 8 ≤ size }
    requires inside { r.now.offset + size ≤ length bytes.now }
    ensures { result ≡ ends_whole bytes.now r.now size }
{
    let fields = part(bytes, (r.offset + 8) as usize, (size - 8) as usize);
    match code_of(bytes, r, fields) {
        Some(code) => are_instructions(code),
        None => false,
    }
}

/// Whether a record of a section's bytes may end behind so many bytes, counted from its first one: what it has behind these is
/// zeros, and they end with a whole instruction (LSB Core 10.6; DWARF 4, 6.4.2). Where a record isn't read, it may not: one that
/// isn't in the bytes, whose common part has another version than 1 and 3 or letters other than z, R, L, P, S and B, or with
/// instructions that aren't known. Takes time by the size of the record and that of its common part's fields, and no memory.
#[tactic(auto, unfolding(judge_model::specs::FrameCode::is_cut_at))]
pub fn is_cut_at(bytes: &[u8], r: &FrameRecord, size: u64) -> bool
    ensures { result ≡ is_cut_at bytes.now r.now size }
{
    if !is_part(bytes, r, size) {
        return false;
    }
    let left_out = part(bytes, (r.offset + size) as usize, (r.size - size) as usize);
    if !are_nops(left_out) {
        return false;
    }
    ends_whole(bytes, r, size)
}
