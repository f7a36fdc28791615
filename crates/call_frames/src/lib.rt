//! Call frames, by which a program that runs finds its callers (LSB Core 10.6, "Exception Frames"): lists of records are read, records
//! found in them, and a record compared with its copy in another list.
#![tactic(auto)]

mod alike;
mod commons;
mod ends;
mod fields;
mod finding;
mod frames;
mod reading;

pub use alike::is_alike;
pub use commons::are_commons_there;
pub use ends::is_ended;
pub use fields::SectionFields;
pub use frames::CallFrames;
pub use reading::are_zeros;
