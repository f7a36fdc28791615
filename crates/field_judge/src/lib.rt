//! Whether one field of a link that another linker made holds what its relocation asks, given what the relocation's symbol
//! means (AMD64 psABI 4.4, "Relocation Types"; docs/DEFINITIONS.md).
#![tactic(auto)]

mod fields;
mod formulas;
mod instructions;
mod kinds;
mod pointers;
mod ranges;
mod rewrites;
mod rewritten;

pub use fields::{Asked, asked_slot, is_right, slot_kind_of};
pub use instructions::{Instruction, front_of, instruction_in};
pub use kinds::{Formula, Kind, Range, foreign_kind};
pub use pointers::thread_pointer;
pub use rewritten::{is_of_kind, is_place_right};
