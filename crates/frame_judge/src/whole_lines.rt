//! Whether lines of call frames are of whole records.
ghost use Rattle.std.specs.Prelude.{◌≡◌, ◌↔◌, All, IsSomeAnd, IsTrue};
ghost use Rattle.judge_model.specs.Frames.{IsWholeLine, record_with};

use crate::sections::FramedSections;
use call_frames::CallFrames;
use judge_model::MergedLine;

/// Whether a list of call frames has a record of a size at an offset.
fn has_record(frames: &CallFrames<'_>, offset: u64, size: u64) -> bool
    ensures { IsTrue result ↔ IsSomeAnd (record_with frames.now offset) (λ r. r.size ≡ size) }
{
    match frames.find(offset) {
        Some(record) => record.size == size,
        None => false,
    }
}

/// Whether a line is of a whole record of one of the sections.
fn is_line_whole(framed: &FramedSections<'_, '_>, line: &MergedLine) -> bool
    ensures { IsTrue result ↔ IsWholeLine framed.now line.now }
{
    match framed.find(line.object, line.section) {
        Some(frames) => has_record(frames, line.offset, line.size),
        None => false,
    }
}

/// Whether each line is of a whole record of one of the sections. It takes the number of lines and the logarithm of that of records.
pub fn are_lines_whole(framed: &FramedSections<'_, '_>, lines: &[MergedLine]) -> bool
    ensures { IsTrue result ↔ All (IsWholeLine framed.now) lines.now }
{
    for line in lines {
        if !is_line_whole(framed, line) {
            return false;
        }
    }
    true
}
