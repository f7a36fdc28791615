//! What may stand between the pieces of code in an image: instructions that do nothing, breakpoints and zeros.
#![tactic(auto)]

mod fillers;
mod nops;
mod padded;

pub use fillers::{are_nops, is_code_fill};
pub use padded::are_zeros;
