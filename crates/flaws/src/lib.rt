//! Flaws: what refuses the link of loaded objects, at one section or symbol each, found by phase. The flaws of a phase are told
//! all, in load order, so that whoever explains a refused link leaves none out.
//!
//! Begin with `resolution_flaws`.
#![tactic(auto)]

mod flaw;
mod resolution;
mod section_flaws;
mod strong_names;
mod symbol_flaws;

pub use flaw::Flaw;
pub use resolution::resolution_flaws;
