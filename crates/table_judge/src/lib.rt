//! Whether the section headers of an image, where it has any, say where its sections are (System V gABI 4, "Sections"). Programs
//! run without them; debuggers and profilers believe them.
#![tactic(auto)]

mod sections;

pub use sections::{are_sections_true, has_tables, is_in_memory, sections_of};
