//! Whether the inputs of a link leave nothing open, so that it can be judged: no object for link-time optimization, one strong
//! definition a name, whole arrays of functions, fields inside their sections and apart, no symbol inside an instruction that
//! linkers may rewrite, nothing that linkers edit, and property notes without lines (System V gABI 4; AMD64 psABI 4.4).
//!
//! Whether common symbols are sound is told by `check_link::Names`, and whether names for where sections begin and end speak of one
//! run of them by `name_judge`.
#![tactic(auto)]

mod arrays;
mod compiled;
mod edited;
mod fields_apart;
mod fields_inside;
mod joined;
mod section_sets;
mod unique;
mod whole_code;

pub use arrays::are_arrays_whole;
pub use compiled::are_compiled;
pub use edited::are_unedited;
pub use fields_apart::are_fields_apart;
pub use fields_inside::are_fields_inside;
pub use joined::are_notes_joined;
pub use unique::are_unique;
pub use whole_code::are_instructions_whole;
