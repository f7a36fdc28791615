//! Which objects a command loads (ld(1)): reads its objects, and takes members of archives for the names that are needed, in load order.
//!
//! Begin with `load_parts`.
#![tactic(auto)]

mod faults;
mod kept_entries;
mod kept_lists;
mod kept_sections;
mod load_steps;
mod loaded;
mod loader;
mod name_places;
mod names;
mod rounds;
mod taken_members;
mod turns;
mod waiting_places;
mod waits;
mod wanted;

pub use faults::SearchFault;
pub use kept_entries::{KeptEntries, is_some_kind};
pub use kept_lists::KeptRela;
pub use load_steps::{load, load_in, load_parts, load_seeded, refused_object};
pub use loaded::{Loaded, LoadedObject, NO_NUMBER};
pub use loader::{Reached, RefusedObject};
pub use wanted::{WantedMember, wanted_members};
