//! Records of call frames are found by their offsets, by bisection.
ghost use Rattle.std.specs.Prelude.{◌≡◌, ◌==◌, ◌↔◌, ◌+◌, ◌<◌, ◌≤◌, ℕ, Any, IsTrue, find, length, slice_index_or};
ghost use Rattle.std.specs.List.Sorted.{IsNonDecreasingBy};
ghost use Rattle.judge_model.specs.Frames.{records_of};
ghost use Rattle.call_frames.specs.Order.{AreInOrder, HasField};
ghost use Rattle.judge_model.specs.declared.frame_record.FrameRecord.{FrameRecord as Record};

use crate::frames::CallFrames;
use judge_model::FrameRecord;

/// How many of the records begin below an offset.
fn count_below(records: &[FrameRecord], offset: u64) -> usize
    requires { IsNonDecreasingBy (λ r. r.offset) records.now }
    ensures within { result ≤ length records.now }
    ensures below { (k : ℕ) (d : Record) → k < result
        → (slice_index_or records.now k d).offset < offset }
    ensures not_below { (k : ℕ) (d : Record) → result ≤ k → k < length records.now
        → offset ≤ (slice_index_or records.now k d).offset }
{
    records.partition_point(|r| r.offset < offset)
}

/// The record that begins at an offset, among records that rise.
fn record_at(records: &[FrameRecord], offset: u64) -> Option<FrameRecord>
    requires { (len : ℕ) × AreInOrder len records.now }
    ensures { result ≡ find (λ r. r.offset == offset) records.now }
{
    let frame = records.get(count_below(records, offset))?;
    if frame.offset == offset {
        Some(*frame)
    } else {
        None
    }
}

/// Whether a record has bytes behind its length and its number.
fn has_field(frame: &FrameRecord, at: u64, width: u64) -> bool
    ensures { IsTrue result ↔ HasField at width frame.now }
{
    if (at as u128) < frame.offset as u128 + 8 {
        return false;
    }
    at as u128 + width as u128 <= frame.offset as u128 + frame.size as u128
}

/// Whether one of records that rise has bytes behind its length and its number.
fn is_field_of_one(records: &[FrameRecord], at: u64, width: u64) -> bool
    requires { (len : ℕ) × AreInOrder len records.now }
    ensures { IsTrue result ↔ Any (HasField at width) records.now }
{
    let count = count_below(records, at);
    if count == 0 {
        return false;
    }
    has_field(&records[count - 1], at, width)
}

impl<'a> CallFrames<'a> {
    /// The record that begins at an offset of the list, in bytes; None where none does. It takes the logarithm of their number.
    pub fn find(&self, offset: u64) -> Option<FrameRecord>
        ensures { result ≡ find (λ r. r.offset == offset) (records_of self.now) }
    {
        record_at(self.records(), offset)
    }

    /// Whether `width` bytes from an offset of the list on lie in one record, behind its length and its number. Both are any numbers
    /// of bytes. It takes the logarithm of the number of records.
    pub fn lies_in_record(&self, at: u64, width: u64) -> bool
        ensures { IsTrue result
            ↔ Any (λ f. (f.offset + 8 ≤ at) × (at + width ≤ f.offset + f.size))
            (records_of self.now) }
    {
        is_field_of_one(self.records(), at, width)
    }
}
