//! What relocations want, as the checker has it: the kinds, the targets and the values of entries, the requests for slots,
//! and the fields with the bytes that they want.
#![tactic(auto)]

mod answers;
mod bindings;
mod entry_requests;
mod field_rows;
mod fields;
mod kinds;
mod known_symbols;
mod known_targets;
mod lawful_fields;
mod linker_uses;
mod needs;
mod referrer;
mod section_fields;
mod slots;
mod targets;
mod values;

pub use bindings::Bindings;
pub use check_load::is_some_kind;
pub use entry_requests::request_of;
pub use field_rows::{fields_right, own_row, relocated};
pub use fields::Field;
pub use kinds::{Kind, kind_of};
pub use known_symbols::{KnownSymbols, unknown_symbols};
pub use lawful_fields::{
    LinkTerms, Relocated, is_mismatch, link_terms, refers_to_dropped, right_field,
};
pub use linker_uses::{linker_lines, used_names};
pub use needs::{Needs, needs_of};
pub use referrer::Referrer;
pub use section_fields::{fields_in, part_of};
pub use targets::{Target, target_of_symbol};
pub use values::{Terms, fits, value_of};
