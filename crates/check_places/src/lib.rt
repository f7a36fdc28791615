//! The clauses that ask where things stand: the map's sections and the kinds of what is kept (C3), the image as one that can be
//! loaded (C4), places (C5), the rights of memory (C6) and the entry (C12).
//!
//! Begin with `c05_placed::holds`.
#![tactic(auto)]

pub mod c03_sections;
pub mod c04_image;
pub mod c05_placed;
pub mod c06_rights;
pub mod c12_entry;
