//! The objects of a link that another linker made, in the order in which its certificate has them (ld(1)): that tells which
//! copy of a COMDAT group counts, and which of several weak definitions.
//!
//! Begin with `open_rows`.
#![tactic(auto)]

mod rows;

pub use rows::{load_row, open_rows};
