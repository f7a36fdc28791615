//! The rows of a table are read (LSB Core 10.6.2).
ghost use Rattle.std.specs.Prelude.{◌≡◌, ◌+◌, ◌*◌, ◌<◌, ◌≤◌, ◌^◌, IfOk, length};
ghost use Rattle.judge_model.specs.FrameTables.{counted, row_at, row_count, rows_of};

use byteview::View;
use frame_code::{signed_32, sum_modulo};
use judge_model::FrameRow;
use std::alloc::{AllocError, Global};

/// What 4 bytes at an offset say that is counted from an address.
pub fn counted(from: u128, bytes: &[u8], at: usize) -> u64
    requires low { from < 2 ^ 66 }
    requires inside { at + 4 ≤ length bytes.now }
    ensures { result ≡ counted from bytes.now at }
{
    sum_modulo(from, signed_32(View::new(bytes).u32_inside(at)))
}

/// The row with a number of a table that begins at an address.
fn row_at(start: u64, bytes: &[u8], k: usize) -> FrameRow
    requires { 20 + 8 * k ≤ length bytes.now }
    ensures { result ≡ row_at start bytes.now k }
{
    FrameRow {
        function: counted(start as u128, bytes, 12 + 8 * k),
        place: counted(start as u128, bytes, 16 + 8 * k),
    }
}

/// How many rows a table says that it has.
pub fn row_count(bytes: &[u8]) -> u32
    requires { 12 ≤ length bytes.now }
    ensures { result ≡ row_count bytes.now }
{
    View::new(bytes).u32_inside(8)
}

/// The rows of a table that begins at an address, and has as many as it says.
///
/// # Errors
///
/// Only where memory is refused.
pub fn rows_of(alloc: Global, start: u64, bytes: &[u8]) -> Result<Vec<FrameRow>, AllocError>
    requires { 12 + 8 * row_count bytes.now ≤ length bytes.now }
    ensures { IfOk result (λ v. v.items ≡ rows_of start bytes.now) }
{
    let count = row_count(bytes) as usize;
    let mut rows = Vec::with_capacity(alloc, count)?;
    for k in 0..count {
        rows.push(row_at(start, bytes, k))?;
    }
    Ok(rows)
}
