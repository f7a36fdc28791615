//! What a right link of another linker is: the certificate that says where its parts are, and what a judge answers.
//! Beside the profile's definition of a right link, which asks for its own layout, this one takes the image as the
//! other linker made it (docs/DEFINITIONS.md).
#![tactic(auto)]

mod certificate;
mod frame_record;
mod judgement;
mod rewriting;

pub use certificate::{Certificate, MergedLine, NameLine, StretchLine};
pub use frame_record::{FrameRecord, FrameRow};
pub use judgement::{Judgement, Requirement};
pub use rewriting::Rewriting;
