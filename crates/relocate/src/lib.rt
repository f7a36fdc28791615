//! Relocations (AMD64 psABI 4.4): whether the kept ones of the loaded objects are lawful, the values
//! that they want at the linker's own places, the writing of these into the bytes of a section, and the linker's own
//! names that they use.
//!
//! Begin with `references`, then `patches`.
#![tactic(auto)]

mod faults;
mod field_list;
mod field_run;
mod fields;
mod lawful_fields;
mod lawful_relocations;
mod linker_uses;
mod object_patches;
mod object_rows;
mod patch_rows;
mod patch_table;
mod referrer;
mod rela_order;
mod row_order;
mod slots;
mod symbol_values;
mod targets;
mod thread_pointer;
mod values;

pub use faults::{RelocFault, RelocationFault};
pub use lawful_fields::lawful_kind;
pub use lawful_relocations::{references, referred_slots};
pub use linker_uses::linker_lines;
pub use patch_rows::patches;
pub use patch_table::{Patches, apply, apply_part, next_field};
pub use referrer::{Referrer, Relocated};
pub use reloc_values::{Formula, Kind, Range, Terms, fits, value};
pub use slots::slot_values;
pub use symbol_values::Valued;
pub use thread_pointer::pointer_of;
pub use values::{address_or_none, fitting_value, wanted_value};
