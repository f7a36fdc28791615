//! What the symbols of a link mean that another linker made, by a certificate of where its parts are, and whether the fields of
//! its relocations hold that (docs/DEFINITIONS.md).
//!
//! Begin with `LinkParts`, the parts of a link without a script. `wrong_field` decides F5, given where memory is taken, and
//! `wrong_rest` F7, where each section lies whole in a segment as F3 asks. A field's own bytes tell where its slot is;
//! `slots_of` lists these. Code that linkers rewrite may stand in place of what takes an address from a slot.
//! What names a string or a constant that was merged means the place that the certificate gives it. Fields of call frames that the
//! linker made one list of are passed over here: F8 is about them.
#![tactic(auto)]

mod addresses;
mod call_frames;
mod drops;
mod linker_values;
mod meanings;
mod mergeable;
mod merged_lines;
mod object_fields;
mod own_rests;
mod parts;
mod relocations;
mod slots;
mod wrong_places;

pub use addresses::Addresses;
pub use call_frames::is_frames;
pub use drops::Drops;
pub use meanings::{Meant, definition_of, merged_value, symbol_meant};
pub use mergeable::is_mergeable;
pub use merged_lines::MergedLines;
pub use object_fields::{ObjectFields, fields_of_object, place_of, turned_to};
pub use own_rests::{kept_spans, wrong_rest};
pub use parts::LinkParts;
pub use relocations::{asked_of, is_in_list, wrong_field};
pub use slots::slots_of;
pub use wrong_places::{WrongField, WrongRest};
