//! A list of call frames is read record by record, up to its end or to a length of 0 (LSB Core 10.6.1).
ghost use Rattle.std.specs.Prelude.{◌≡◌, ◌≤◌, ◌↔◌, IfOk, IsTrue, SomeIff, drop, length, option_map, true};
ghost use Rattle.byteview.specs.Numbers.{le_at};
ghost use Rattle.judge_model.specs.Frames.{are_zeros, frame_records, is_whole_record, record_at};

use byteview::{View, all_byte};
use judge_model::FrameRecord;
use std::alloc::{AllocError, Global};

/// Whether the length that begins at an offset, as far as there are bytes, is 0.
fn is_length_zero(bytes: &[u8], at: usize) -> bool
    ensures { IsTrue result ↔ (le_at 4 bytes.now at ≡ 0) }
{
    all_byte(View::new(bytes).part(at, 4), 0)
}

/// Whether all bytes from an offset on are 0.
pub fn are_zeros(bytes: &[u8], at: usize) -> bool
    requires { at ≤ length bytes.now }
    ensures { IsTrue result ↔ (are_zeros (drop at bytes.now) ≡ true) }
{
    let (_front, rest) = bytes.split_at(at);
    all_byte(rest, 0)
}

/// The record that begins at an offset; None where it isn't whole.
fn whole_record(bytes: &[u8], at: usize) -> Option<FrameRecord>
    requires { at ≤ length bytes.now }
    ensures { SomeIff result
        (is_whole_record bytes.now (record_at bytes.now at) ≡ true) (record_at bytes.now at) }
{
    let left = bytes.len() - at;
    if left < 8 {
        return None;
    }
    let view = View::new(bytes);
    let size = 4 + view.u32_inside(at) as u64;
    if size < 8 || size > u32::MAX as u64 || size > left as u64 {
        return None;
    }
    let id = view.u32_inside(at + 4) as u64;
    Some(FrameRecord {
        offset: at as u64,
        size,
        id,
    })
}

/// All records of a list; None where it isn't one.
///
/// # Errors
///
/// Only where memory is refused.
pub fn records_of(alloc: Global, bytes: &[u8]) -> Result<Option<Vec<FrameRecord>>, AllocError>
    ensures { IfOk result (λ o. option_map (λ v. v.items) o ≡ frame_records bytes.now) }
{
    let mut records = Vec::new(alloc);
    let mut at = 0;
    for _ in 0..bytes.len() + 1 {
        if is_length_zero(bytes, at) {
            if are_zeros(bytes, at) {
                return Ok(Some(records));
            }
            return Ok(None);
        }
        let Some(record) = whole_record(bytes, at) else {
            return Ok(None);
        };
        at += record.size as usize;
        records.push(record)?;
    }
    Ok(None)
}
