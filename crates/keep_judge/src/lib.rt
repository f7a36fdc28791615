//! Whether an image has the sections that it is to have (ld(1), --gc-sections; SHF_EXCLUDE).
//!
//! Begin with `are_sections_kept`, which decides F2. That what is kept refers to nothing that is left out is a matter of F5: no
//! field can be right that does.
#![tactic(auto)]

mod asked_bounds;
mod collected;
mod groups;
mod kept;
mod object_sections;
mod presence;
mod root_kinds;
mod root_symbols;

pub use kept::are_sections_kept;
