//! How explanations name inputs: objects by their files and members, sections and symbols by their names, types of relocations,
//! types and flags of sections, and files that are no objects by what they are.
#![tactic(auto)]

mod file_kinds;
mod member_names;
mod number_names;
mod relocation_faults;
mod relocation_places;
mod text;

pub use file_kinds::file_kind;
pub use number_names::{SectionFlags, SectionType};
pub use relocation_faults::{FaultOf, RelocationEntry, RelocationFault, RelocationSymbol};
pub use relocation_places::{RelocationPlace, begins_in, relocation_place, section_name};
pub use text::{Called, Name, ObjectName};
