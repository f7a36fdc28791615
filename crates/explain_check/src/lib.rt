//! Why an image and a map are no right link: the places at which the first clause that fails does so, each with what is
//! there and what should be. The clauses are judged by the checker; this crate only looks for places where one says no.
#![tactic(auto)]

mod bytes;
mod explain;
mod found;
mod lines;
mod memory;
mod place;
mod placement;
mod relocations;
mod tables;
mod text;

pub use explain::{explain_check, read_link};
pub use found::{Found, clause_of};
pub use place::{ByteOf, BytePlace, CheckPlace, LineKey, NumberName, Part, TableEntry};
pub use text::write_check_place;
