//! The checker's own loading: which objects a command loads (ld(1)), apart from the linker's.
#![tactic(auto)]

mod awake_entries;
mod copies;
mod kept_relocations;
mod kept_sections;
mod known_names;
mod lawfulness;
mod load_steps;
mod loaded;
mod loader;
mod marks;
mod name_table;
mod names;
mod places;
mod rounds;
mod signatures;
mod stops;
mod symbol_numbers;
mod taken_members;
mod turns;

pub use copies::filled;
pub use kept_relocations::{KeptRelocation, Relocations, is_some_kind};
pub use kept_sections::KeptRela;
pub use load_steps::{open, open_named};
pub use loaded::Loaded;
pub use loader::{Loader, NamedObjects};
pub use name_table::NameTable;
pub use places::Places;
pub use signatures::Dropped;
pub use stops::Stop;
pub use symbol_numbers::SymbolNumbers;
