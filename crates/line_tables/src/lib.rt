//! Source lines of relocatable objects, by their DWARF line tables (DWARF 5, 6.2; versions 2 to 5, of 32 and of 64 bits).
//!
//! Begin with `source_line`.
#![tactic(auto)]

mod cursor;
mod forms;
mod header;
mod lookup;
mod names;
mod program;
mod rows;
mod section;

pub use lookup::{SourceLine, source_line};
