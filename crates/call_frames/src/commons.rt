//! The common parts of records of call frames (LSB Core 10.6.1.1): each record has one in its list.
ghost use Rattle.std.specs.Prelude.{◌≡◌, ◌↔◌, ◌+◌, ◌<◌, ◌^◌, All, IsTrue};
ghost use Rattle.judge_model.specs.Frames.{HasCommon, records_of};

use crate::frames::CallFrames;
use judge_model::FrameRecord;

/// Whether a record is a common part, or has one in a list.
fn has_common(frames: &CallFrames<'_>, frame: &FrameRecord) -> bool
    requires { frame.now.offset + 8 < 2 ^ 64 }
    ensures { IsTrue result ↔ HasCommon (records_of frames.now) frame.now }
{
    if frame.id == 0 {
        return true;
    }
    let place = frame.offset + 4;
    if place < frame.id {
        return false;
    }
    match frames.find(place - frame.id) {
        Some(common) => common.id == 0,
        None => false,
    }
}

/// Whether each record of a list that is no common part has one in the list, which begins as many bytes before the record's number as
/// that says. It takes the number of records and its logarithm.
pub fn are_commons_there(frames: &CallFrames<'_>) -> bool
    ensures { IsTrue result ↔ All (HasCommon (records_of frames.now)) (records_of frames.now) }
{
    let records = frames.records();
    for frame in records {
        if !has_common(frames, frame) {
            return false;
        }
    }
    true
}
