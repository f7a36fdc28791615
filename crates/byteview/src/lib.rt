//! Bounded views of byte slices: parts, numbers in either byte order and NUL-ended texts, none of
//! which reads outside the bytes or needs memory.
#![tactic(auto)]

mod compare;
mod view;

pub use compare::{all_byte, equal_run};
pub use view::View;
