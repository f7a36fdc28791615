//! Each function of a list that has bytes is found by rows.
ghost use Rattle.std.specs.Prelude.{◌≡◌, ◌↔◌, ◌+◌, ◌<◌, ◌^◌, All, Contains, IsTrue};
ghost use Rattle.std.specs.List.Sorted.{IsNonDecreasingBy};
ghost use Rattle.judge_model.specs.FrameCode.{function_at, has_size};
ghost use Rattle.judge_model.specs.FrameTables.{Finds, FindsAt};
ghost use Rattle.judge_model.specs.Frames.{records_of};

use crate::order::count_not_behind;
use call_frames::CallFrames;
use judge_model::{FrameRecord, FrameRow};

/// Whether rows that rise find a function's record at a place, by the function's address. It takes the logarithm of their number.
fn finds_at(rows: &[FrameRow], place: u128, address: u64) -> bool
    requires { IsNonDecreasingBy (λ row. row.function) rows.now }
    ensures { IsTrue result ↔ FindsAt rows.now place address }
{
    let count = count_not_behind(rows, address);
    if count == 0 {
        return false;
    }
    let last = &rows[count - 1];
    last.function == address && last.place as u128 == place
}

/// The address of the function of a list's record.
pub fn function_at(list: &CallFrames<'_>, start: u64, frame: &FrameRecord) -> Option<u64>
    requires { Contains (records_of list.now) frame.now }
    ensures { result ≡ function_at list.now start frame.now }
{
    let _records = list.records();
    frame_code::function_at(list.bytes(), start, frame)
}

/// Whether it has bytes.
fn has_size(list: &CallFrames<'_>, frame: &FrameRecord) -> bool
    requires { Contains (records_of list.now) frame.now }
    ensures { result ≡ has_size list.now frame.now }
{
    let _records = list.records();
    frame_code::has_size(list.bytes(), frame)
}

/// Whether rows that rise find a record of a list that begins at an address, if it is of a function that has bytes.
fn finds(rows: &[FrameRow], list: &CallFrames<'_>, start: u64, frame: &FrameRecord) -> bool
    requires rising { IsNonDecreasingBy (λ row. row.function) rows.now }
    requires listed { Contains (records_of list.now) frame.now }
    ensures { IsTrue result ↔ Finds rows.now list.now start frame.now }
{
    if frame.id == 0 || !has_size(list, frame) {
        return true;
    }
    match function_at(list, start, frame) {
        Some(address) => finds_at(rows, start as u128 + frame.offset as u128, address),
        None => false,
    }
}

/// Whether rows that rise find each such record. It takes the number of records and the logarithm of that of rows.
pub fn find_all(rows: &[FrameRow], list: &CallFrames<'_>, start: u64) -> bool
    requires { IsNonDecreasingBy (λ row. row.function) rows.now }
    ensures { IsTrue result ↔ All (Finds rows.now list.now start) (records_of list.now) }
{
    for frame in list.records() {
        if !finds(rows, list, start, frame) {
            return false;
        }
    }
    true
}
