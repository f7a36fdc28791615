//! Whether an image that another linker made is a right link of its inputs, as a certificate shows (docs/DEFINITIONS.md): the
//! requirements one by one, and all of them.
//!
//! Begin with `judge`.
#![tactic(auto)]

mod f02_kept;
mod f03_placed;
mod f04_names;
mod f05_fields;
mod f07_rests;
mod f08_frames;
mod f09_threads;
mod f10_nothing_else;
mod f11_entry;
mod f12_headers;
mod f13_tables;
mod inputs;
mod judgement;
mod rewrites;
mod verdict;

pub use judgement::{Judgement, Place, Reason};
pub use verdict::judge;
