//! Kinds of relocations: what their values are made of, which values fit their fields, and how values are written over the
//! bytes of a section; the symbol that an entry names, and offsets from the thread pointer.
//!
//! Begin with `Kind::of` and `value`.
#![tactic(auto)]

mod entry_symbols;
mod formulas;
mod kinds;
mod patch;
mod row_parts;
mod thread_offsets;

pub use entry_symbols::referred;
pub use formulas::{Terms, fits, is_mismatch, value};
pub use kinds::{Formula, Kind, Range, asked_slot, asks_of_got, slot_kind};
pub use patch::{Patch, write_all};
pub use row_parts::{ending_after, reaching};
pub use thread_offsets::{thread_pointer, tp_offset};
