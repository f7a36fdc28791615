//! Whether the addresses of functions can be read in a list.
ghost use Rattle.std.specs.Prelude.{◌↔◌, All, Contains, IsTrue};
ghost use Rattle.judge_model.specs.Frames.{HasAddress, records_of};

use crate::finding::function_at;
use call_frames::CallFrames;
use judge_model::FrameRecord;

/// Whether the address in a record of a list can be read, if it is one of a function.
fn has_address(list: &CallFrames<'_>, frame: &FrameRecord) -> bool
    requires { Contains (records_of list.now) frame.now }
    ensures { IsTrue result ↔ HasAddress list.now frame.now }
{
    frame.id == 0 || function_at(list, 0, frame).is_some()
}

/// Whether the addresses in the records of a list can be read that are of functions. It takes the number of records.
pub fn have_addresses(list: &CallFrames<'_>) -> bool
    ensures { IsTrue result ↔ All (HasAddress list.now) (records_of list.now) }
{
    for frame in list.records() {
        if !has_address(list, frame) {
            return false;
        }
    }
    true
}
