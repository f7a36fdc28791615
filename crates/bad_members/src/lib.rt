//! The member of a file at which it is no archive: the first one whose header, data or name have the fault that the reader answers.
//! The walk is the reader's, told once more, since the reader keeps no place of a fault.
//!
//! Begin with `bad_member`.
#![tactic(auto)]

mod fields;
mod names;
mod walk;

pub use walk::bad_member;
