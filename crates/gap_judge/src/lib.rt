//! Whether an image that another linker made has nothing but fill where nothing is placed (docs/DEFINITIONS.md).
//!
//! `are_gaps_filled` decides the gaps of F10, given what is placed, which `place_judge` lists, and the slots that fields ask for.
#![tactic(auto)]

mod explained;
mod gaps;

pub use explained::are_gaps_filled;
