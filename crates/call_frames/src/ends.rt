//! Whether a length of 0 ends a list of call frames (LSB Core 10.6.1).
ghost use Rattle.std.specs.Prelude.{◌↔◌, ◌+◌, ◌≤◌, ℕ, All, IsTrue};
ghost use Rattle.judge_model.specs.Frames.{IsEnded};

use crate::frames::CallFrames;
use judge_model::FrameRecord;

/// Whether each record ends so that a length is behind it.
fn are_before(records: &[FrameRecord], len: u64) -> bool
    ensures { IsTrue result ↔ All (λ r. r.offset + r.size + 4 ≤ len) records.now }
{
    records
        .iter()
        .all(|r| r.offset as u128 + r.size as u128 + 4 <= len as u128)
}

/// Whether a length of 0 ends a list, behind all of its records. It takes their number.
pub fn is_ended(frames: &CallFrames<'_>) -> bool
    ensures { IsTrue result ↔ IsEnded frames.now }
{
    let len = frames.bytes().len() as u64;
    if len < 4 {
        return false;
    }
    are_before(frames.records(), len)
}
