//! Which definition a name means: whether the symbols of the loaded objects are sound, the chosen
//! definitions in load order, the common blocks, and for each symbol the definition that a reference
//! to it uses (System V gABI 4, "Symbol Table"; what is refused is the profile's); and the names of output sections.
//!
//! Begin with `resolve_in`.
#![tactic(auto)]

mod blocks;
mod bounds;
mod candidates;
mod chosen;
mod definition;
mod definition_list;
mod definitions;
mod entries;
mod faults;
mod linker_names;
mod output_names;
mod output_sections;
mod outputs;
mod owners;
mod places;
mod resolved;
mod sections;
mod soundness;
mod taken;
mod targets;

pub use blocks::Block;
pub use bounds::named_output;
pub use definition::Definition;
pub use definitions::Definitions;
pub use entries::{SymbolOf, is_dropped};
pub use faults::ResolveFault;
pub use output_names::output_name;
pub use output_sections::{OutputSection, OutputSections};
pub use resolved::{Resolved, resolve, resolve_in};
pub use soundness::{is_sound, is_sound_common};
pub use symbols::is_strong;
pub use targets::target_of;
