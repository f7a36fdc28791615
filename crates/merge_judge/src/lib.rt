//! Whether the strings and constants that a linker merged are right (System V gABI 4, SHF_MERGE, SHF_STRINGS): memory has each whole
//! where the certificate says, as aligned as it was, in an area that isn't written.
#![tactic(auto)]

mod alignment;
mod areas;
mod lines;
mod sections;
mod units;

pub use areas::are_areas_right;
pub use lines::are_lines_right;
pub use sections::Sections;
