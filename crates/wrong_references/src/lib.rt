//! What is wrong with the references of loaded objects whose names are resolved: the kept relocations that aren't lawful, the
//! entry, and fields that share bytes, told all, in load order.
//!
//! Begin with `reference_flaws`.
#![tactic(auto)]

mod flaw;
mod overlaps;
mod references;
mod relocation_flaws;

pub use flaw::{EntryNumber, ReferenceFlaw};
pub use references::reference_flaws;
