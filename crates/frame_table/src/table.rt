//! Whether bytes are the table of a list of call frames (LSB Core 10.6.2).
ghost use Rattle.std.specs.Prelude.{◌≡◌, ◌↔◌, ◌+◌, ◌*◌, ◌≤◌, IfOk, IfSome, IsTrue, length, take};
ghost use Rattle.judge_model.specs.FrameTables.{AreRowsRight, IsTable, counted, row_count, start_of, table_head};
ghost use Rattle.frame_table.specs.Heads.{HasRoom, IsHead};
ghost use Rattle.judge_model.specs.FrameTables as tables;

use crate::reading::{counted, row_count, rows_of};
use crate::rows::are_rows_right;
use byteview::{View, equal_run};
use call_frames::{CallFrames, are_zeros};
use judge_model::StretchLine;
use std::alloc::{AllocError, Global};

/// What a table begins with: version 1, and how the list's address, the number of rows and these are encoded.
const HEAD: [u8; 4] = [0x01, 0x1b, 0x03, 0x3b];

fn has_head(bytes: &[u8]) -> bool
    ensures { IsTrue result ↔ (take 4 bytes.now ≡ table_head) }
{
    equal_run(View::new(bytes).part(0, 4), &HEAD)
}

/// Whether a table at an address points to a list, where there is one.
fn points_to(list: Option<StretchLine>, at: u64, bytes: &[u8]) -> bool
    requires { 8 ≤ length bytes.now }
    ensures { IsTrue result ↔ IfSome list (λ s. counted (at + 4) bytes.now 4 ≡ s.address) }
{
    match list {
        Some(s) => counted(at as u128 + 4, bytes, 4) == s.address,
        None => true,
    }
}

/// Whether bytes have the rows of which they say the number, and zeros behind them.
fn has_room(bytes: &[u8]) -> bool
    requires { 12 ≤ length bytes.now }
    ensures { IsTrue result ↔ HasRoom bytes.now }
{
    let end = 12 + 8 * row_count(bytes) as usize;
    if bytes.len() < end {
        return false;
    }
    are_zeros(bytes, end)
}

/// Whether bytes at an address are a table of a list but for the rows.
fn is_head(list: Option<StretchLine>, at: u64, bytes: &[u8]) -> bool
    ensures { IsTrue result ↔ IsHead list at bytes.now }
{
    if at % 4 != 0 || bytes.len() < 12 {
        return false;
    }
    if !has_head(bytes) || !points_to(list, at, bytes) {
        return false;
    }
    has_room(bytes)
}

/// Where a list begins.
fn start_of(list: Option<StretchLine>) -> u64
    ensures { result ≡ start_of list }
{
    match list {
        Some(s) => s.address,
        None => 0,
    }
}

/// Whether bytes at an address are the table of a list, given where the list is and its records; where there is no list, given no records.
/// It takes the number of rows and of records, and the logarithms of these.
///
/// # Errors
///
/// Only where memory is refused.
pub fn is_table(
    alloc: Global,
    list: Option<StretchLine>,
    frames: &CallFrames<'_>,
    at: u64,
    bytes: &[u8],
) -> Result<bool, AllocError>
    ensures { IfOk result (λ b. IsTrue b ↔ IsTable list frames.now at bytes.now) }
{
    if !is_head(list, at, bytes) {
        return Ok(false);
    }
    let rows = rows_of(alloc, at, bytes)?;
    Ok(are_rows_right(frames, start_of(list), &rows))
}
