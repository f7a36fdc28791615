//! What the items of a plan hold: the file of each, and what an archive among them has. Which objects these load is said by
//! `search` in the linker and by `check_load` in the checker, each in its own way.
//!
//! Begin with `inputs_of`.
#![tactic(auto)]

mod archives;
mod faults;
mod files;
mod inputs;
mod opened_items;
mod searched;

pub use archives::{Input, read_input};
pub use faults::OpenFault;
pub use files::{FileIndex, FileSet};
pub use inputs::{inputs_of, inputs_of_parts};
pub use opened_items::{OpenedItem, find_source};
pub use searched::are_searched;
