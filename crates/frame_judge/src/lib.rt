//! Whether the call frames of a link are right of which its linker made one list (LSB Core 10.6, "Exception Frames"; F8 of
//! docs/DEFINITIONS.md): each record of the list is a copy of a section's, the fields of relocations in it hold what they ask for, and
//! each function that the image has keeps its record, which the list's table finds.
//!
//! Begin with `FramedSections`. `are_frames_readable` says whether such a link is judged, `are_frames_right` decides F8.
#![tactic(auto)]

mod addresses;
mod copies;
mod held_fields;
mod list;
mod list_fields;
mod plain_relocations;
mod right;
mod sections;
mod tables;
mod whole_lines;

pub use plain_relocations::are_relocations_plain;
pub use right::are_frames_right;
pub use sections::FramedSections;
pub use whole_lines::are_lines_whole;
