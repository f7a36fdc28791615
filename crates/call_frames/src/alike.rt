//! Whether a record of call frames is like its copy in another list, but for the fields that relocations fill in, and with zeros behind
//! it, which are instructions that do nothing (DWARF 4, 6.4.2).
ghost use Rattle.std.specs.Prelude.{◌≡◌, ◌↔◌, ◌+◌, ◌-◌, ◌<◌, ◌^◌, Contains, IsTrue, min};
ghost use Rattle.std.specs.List.Sorted.{IsNonDecreasingBy};
ghost use Rattle.judge_model.specs.Frames.{records_of};
ghost use Rattle.call_frames.specs.Alike.{IsAlike, IsRestAt};

use crate::fields::SectionFields;
use crate::frames::CallFrames;
use byteview::all_byte;
use judge_model::FrameRecord;
use memory_judge::{FieldSpan, are_equal};

/// Where a field ends, from a byte of its section on.
fn end_behind(span: &FieldSpan, start: u64) -> u64
    ensures { result ≡ min (span.now.at + span.now.width) (2 ^ 64 - 1) - start }
{
    span.at
        .saturating_add(span.width as u64)
        .saturating_sub(start)
}

/// Whether two runs of `size` bytes, of which one begins at an offset of a section, are equal from their ninth byte on but for the
/// section's fields.
fn are_equal_beside(held: &[u8], bytes: &[u8], spans: &[FieldSpan], start: u64, size: u64) -> bool
    requires rising { IsNonDecreasingBy (λ s. s.at) spans.now }
    requires fits { start + size < 2 ^ 64 }
    ensures { IsTrue result ↔ IsRestAt held.now bytes.now spans.now start 8 size }
{
    let mut from = 8;
    for span in spans {
        let to = span.at.saturating_sub(start).min(size).max(from);
        if !are_equal(held, bytes, from, to) {
            return false;
        }
        from = end_behind(span, start).max(from);
    }
    are_equal(held, bytes, from, size.max(from))
}

/// Whether a record `copy` of a list is like a record of a section, given the section's fields: the same behind the length and the number
/// outside of fields, as far as both go, and 0 behind what the record has. It takes the record's size, and the fields that may touch it.
pub fn is_alike(
    frames: &CallFrames<'_>,
    frame: &FrameRecord,
    list: &CallFrames<'_>,
    copy: &FrameRecord,
    fields: &SectionFields<'_>,
) -> bool
    requires listed { Contains (records_of frames.now) frame.now }
    requires copied { Contains (records_of list.now) copy.now }
    ensures { IsTrue result ↔ IsAlike frames.now list.now fields.now frame.now copy.now }
{
    let common = frame.size.min(copy.size);
    let (held, zeros) = list.part(copy).split_at(common as usize);
    if !all_byte(zeros, 0) {
        return false;
    }
    let bytes = frames.part(frame);
    let spans = fields.near(frame.offset, frame.offset + frame.size);
    are_equal_beside(held, bytes, spans, frame.offset, common)
}
