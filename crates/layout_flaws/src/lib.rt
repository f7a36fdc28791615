//! What is wrong with the own layout of loaded objects whose references are right: the kept sections that by themselves take up
//! more than all addresses, and the kept relocations whose values don't fit their fields, told all, in load order.
//!
//! Begin with `unfit_values`.
#![tactic(auto)]

mod flaw;
mod sections;
mod values;

pub use flaw::LayoutFlaw;
pub use sections::large_sections;
pub use values::unfit_values;
