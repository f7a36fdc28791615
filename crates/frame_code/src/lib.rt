//! What is in a record of call frames: where it may end, as bytes that are left out behind are instructions that do nothing, and what is
//! left ends with a whole instruction (LSB Core 10.6; DWARF 4, 6.4.2); and which function it is for.
#![tactic(auto)]

mod addresses;
mod common;
mod cut;
mod functions;
mod instructions;
mod operands;

pub use addresses::{signed_32, sum_modulo};
pub use cut::is_cut_at;
pub use functions::{function_at, has_size};
