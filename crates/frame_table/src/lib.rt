//! Tables of call frames, in which a program that runs looks up the record of a function (LSB Core 10.6.2, "The .eh_frame_hdr section"):
//! their rows are read, and judged against the list of records.
//!
//! Begin with `is_table`; `have_addresses` says whether such a table can be judged.
#![tactic(auto)]

mod addresses;
mod finding;
mod order;
mod reading;
mod rows;
mod table;

pub use addresses::have_addresses;
pub use table::is_table;
