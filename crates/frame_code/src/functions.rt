//! What the record of a function says of it: its address, and whether it has bytes.
ghost use Rattle.std.specs.Prelude.{◌≡◌, ◌+◌, ◌≤◌, length};
ghost use Rattle.judge_model.specs.FrameCode.{encoding_of, fields_of, function_at, has_size, is_size};

use crate::addresses::{address_by, width_of};
use crate::common::address_encoding;
use crate::cut::{are_nops, common_fields, part};
use byteview::View;
use judge_model::FrameRecord;

/// How the address in a function's record is encoded; None where that isn't read.
fn encoding_of(bytes: &[u8], r: &FrameRecord) -> Option<u8>
    requires { r.now.offset + 4 ≤ length bytes.now }
    ensures { result ≡ encoding_of bytes.now r.now }
{
    let common = common_fields(bytes, r)?;
    address_encoding(common)
}

/// What is behind the number of a record.
fn fields_of<'a>(bytes: &'a [u8], r: &FrameRecord) -> &'a [u8]
    requires eight { 8 ≤ r.now.size }
    requires inside { r.now.offset + r.now.size ≤ length bytes.now }
    ensures { result.now ≡ fields_of bytes.entry.now r.entry.now }
{
    part(bytes, (r.offset + 8) as usize, (r.size - 8) as usize)
}

/// The address of the function of a record, where the bytes of its list begin at an address; None where its encoding isn't read. It takes
/// time by the size of the common part's fields.
#[tactic(auto, unfolding(judge_model::specs::FrameCode::function_at))]
pub fn function_at(bytes: &[u8], start: u64, r: &FrameRecord) -> Option<u64>
    requires eight { 8 ≤ r.now.size }
    requires inside { r.now.offset + r.now.size ≤ length bytes.now }
    ensures { result ≡ function_at bytes.now start r.now }
{
    let encoding = encoding_of(bytes, r)?;
    let place = start as u128 + (r.offset as u128 + 8);
    address_by(encoding, fields_of(bytes, r), place)
}

/// Whether a size that follows an address as wide isn't 0, as far as there are bytes.
fn is_size(fields: &[u8], width: usize) -> bool
    ensures { result ≡ is_size fields.now width }
{
    !are_nops(View::new(fields).part(width, width))
}

/// Whether the function of a record has bytes; no where the encoding of its address isn't read. It takes time by the size of the common
/// part's fields.
#[tactic(auto, unfolding(judge_model::specs::FrameCode::has_size))]
pub fn has_size(bytes: &[u8], r: &FrameRecord) -> bool
    requires eight { 8 ≤ r.now.size }
    requires inside { r.now.offset + r.now.size ≤ length bytes.now }
    ensures { result ≡ has_size bytes.now r.now }
{
    let Some(encoding) = encoding_of(bytes, r) else {
        return false;
    };
    match width_of(encoding) {
        Some(width) => is_size(fields_of(bytes, r), width),
        None => false,
    }
}
