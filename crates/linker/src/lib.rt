//! The whole link: from files and the words of a command, phase by phase, to a link that is prepared; its definitions in the
//! order of their names, and its map, as a value, as a text and as lines that go into a file.
//!
//! Begin with `prepare`.
#![tactic(auto)]

mod line_sink;
mod listed_definitions;
mod name_order;
mod own_definitions;
mod own_map;
mod own_text;
mod phases;
mod refusals;
mod slot_lines;
mod spelled_lines;

pub use listed_definitions::definitions;
pub use own_text::{map_text, write_map};
pub use phases::{link_map, prepare, prepare_in, prepare_parts, prepare_seeded};
pub use refusals::command_error;
