//! Whether the sections and the common blocks of a link are where its certificate says: aligned, apart, and in memory with
//! the rights that they need (System V gABI 5, "Program Loading").
#![tactic(auto)]

mod alignment;
mod apart;
mod commons;
mod lines;
mod memory;
mod order;
mod starts;
mod things;

pub use alignment::are_aligned;
pub use apart::{are_apart, are_threads_apart};
pub use commons::are_commons_right;
pub use lines::are_lines_of;
pub use memory::{are_in_memory, do_sections_ask_for_both, is_some_both};
pub use order::is_in_order;
pub use starts::{Start, are_starts_right, begins_at};
pub use things::things_of;
