//! Whether the notes that a linker made itself are right: build ids, and the property note of the whole program (System V gABI 5,
//! "Note Section"; the Linux gABI extensions for `.note.gnu.property`).
#![tactic(auto)]

mod features;
mod notes;
mod numbers;

pub use notes::are_notes_right;
