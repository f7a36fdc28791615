//! Pieces of memory, and how they are placed one behind the other from an address on.
//!
//! Begin with `place_run`.
#![tactic(auto)]

mod faults;
mod piece;
mod runs;

pub use faults::LayoutFault;
pub use piece::Piece;
pub use runs::{ADDRESS_LIMIT, PAGE, Place, page_up, place_run, round_up};
