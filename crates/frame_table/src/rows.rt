//! The rows of a table are those of functions' records in a list.
ghost use Rattle.std.specs.Prelude.{◌≡◌, ◌↔◌, All, Contains, IfSome, IsTrue};
ghost use Rattle.judge_model.specs.FrameTables.{AreRowsRight, IsRow, IsRowOf};
ghost use Rattle.judge_model.specs.Frames.{record_with, records_of};

use crate::finding::{find_all, function_at};
use crate::order::are_rising;
use call_frames::CallFrames;
use judge_model::{FrameRecord, FrameRow};

/// Whether a row is that of a record of a list that begins at an address.
fn is_row_of(list: &CallFrames<'_>, start: u64, row: &FrameRow, frame: &FrameRecord) -> bool
    requires { Contains (records_of list.now) frame.now }
    ensures { IsTrue result ↔ IsRowOf list.now start row.now frame.now }
{
    if frame.id == 0 {
        return false;
    }
    match function_at(list, start, frame) {
        Some(address) => address == row.function,
        None => false,
    }
}

/// The record of a list that begins at an offset.
fn record_with(list: &CallFrames<'_>, offset: u64) -> Option<FrameRecord>
    ensures exact { result ≡ record_with list.now offset }
    ensures there { IfSome result (λ r. Contains (records_of list.now) r) }
{
    list.find(offset)
}

/// Whether a row is that of a function's record in a list that begins at an address. It takes the logarithm of the number of records.
fn is_row(list: &CallFrames<'_>, start: u64, row: &FrameRow) -> bool
    ensures { IsTrue result ↔ IsRow list.now start row.now }
{
    if row.place < start {
        return false;
    }
    match record_with(list, row.place - start) {
        Some(frame) => is_row_of(list, start, row, &frame),
        None => false,
    }
}

fn are_rows(list: &CallFrames<'_>, start: u64, rows: &[FrameRow]) -> bool
    ensures { IsTrue result ↔ All (IsRow list.now start) rows.now }
{
    rows.iter().all(|row| is_row(list, start, row))
}

/// Whether rows rise, are those of records of functions of a list that begins at an address, and find each of these that has bytes.
pub fn are_rows_right(list: &CallFrames<'_>, start: u64, rows: &[FrameRow]) -> bool
    ensures { IsTrue result ↔ AreRowsRight list.now start rows.now }
{
    if !are_rising(rows) {
        return false;
    }
    if !are_rows(list, start, rows) {
        return false;
    }
    find_all(rows, list, start)
}
