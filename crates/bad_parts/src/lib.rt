//! Which part of a file makes it no object of the profile: the first section, symbol, relocation entry or member of a group
//! that has the fault which the reader answers. The reader's own tests judge each part.
//!
//! Begin with `bad_part`.
#![tactic(auto)]

mod part;
mod search;

pub use part::{BadPart, Held, Part, SectionPart, SymbolPart};
pub use search::bad_part;
