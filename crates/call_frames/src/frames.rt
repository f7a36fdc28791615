//! A list of call frames with its records.
ghost use Rattle.std.specs.Prelude.{◌≡◌, ◌<◌, ◌+◌, ◌^◌, ℕ, Contains, IfOk, SomeIff, is_some, length, slice_index, true};
ghost use Rattle.judge_model.specs.Frames.{frame_records, records_of};
ghost use Rattle.call_frames.specs.Order.{AreInOrder};

use crate::reading::records_of;
use byteview::View;
use judge_model::FrameRecord;
use std::alloc::{AllocError, Global};
use std::marker::Model;

/// The bytes of a list of call frames, as a section `.eh_frame` is one (LSB Core 10.6.1), with its records.
#[derive(Drop)]
pub struct CallFrames<'a> {
    bytes: &'a [u8],
    records: Vec<FrameRecord>,
}

impl<'a> Model for CallFrames<'a> {
    ghost use Rattle.std.specs.Prelude.{◌≡◌, List, Some, ℕ};
    ghost use Rattle.judge_model.specs.Frames.{frame_records};

    ghost Value = { List ℕ };

    ghost view = { λ f. f.bytes.now };

    ghost invariant = { λ f. frame_records f.bytes.now ≡ Some f.records.items };
}

impl<'a> CallFrames<'a> {
    /// Reads a list's records, in one pass. None where the bytes are no list: where a record's size, with its length, is below 8
    /// bytes, above 2^32 - 1 (longer ones have another form, which isn't read) or past the end, or where a length of 0 isn't
    /// followed by zeros alone.
    ///
    /// # Errors
    ///
    /// Only where memory is refused.
    pub fn read(alloc: Global, bytes: &'a [u8]) -> Result<Option<CallFrames<'a>>, AllocError>
        ensures { IfOk result (λ o. SomeIff o
            (is_some (frame_records bytes.entry.now) ≡ true) bytes.entry.now) }
    {
        match records_of(alloc, bytes)? {
            Some(records) => Ok(Some(CallFrames { bytes, records })),
            None => Ok(None),
        }
    }

    /// The list's bytes.
    pub fn bytes(&self) -> &'a [u8]
        ensures { result.now ≡ self.now }
    {
        self.bytes
    }

    /// The records, in their order. Each lies in the list and has 8 bytes or more, and it ends where the next one begins, or before.
    pub fn records(&self) -> &[FrameRecord]
        ensures records { result.now ≡ records_of self.now }
        ensures order { AreInOrder (length self.now) result.now }
        ensures fits { length self.now < 2 ^ 64 }
    {
        &self.records
    }

    /// The bytes of a record of the list.
    pub fn part(&self, frame: &FrameRecord) -> &'a [u8]
        requires { Contains (records_of self.now) frame.now }
        ensures size { length result.now ≡ frame.now.size }
        ensures fits { frame.now.offset + frame.now.size < 2 ^ 64 }
        ensures same { (k : ℕ) → k < frame.now.size
            → slice_index self.now (frame.now.offset + k) ≡ slice_index result.now k }
    {
        View::new(self.bytes).part(frame.offset as usize, frame.size as usize)
    }
}
