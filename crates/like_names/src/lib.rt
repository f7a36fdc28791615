//! How a name that nothing defines is like one that something defines: one edit away, or the name of a function of C++ where the
//! other one is that of a function of C.
//!
//! Begin with `liken`.
#![tactic(auto)]

mod likeness;
mod mangling;
mod one_edit;

pub use likeness::{Likeness, liken};
