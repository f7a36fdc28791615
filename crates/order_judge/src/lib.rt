//! Whether the objects that a certificate names are those that a command loads, in an order that a linker may come to
//! (ld(1), "-l namespec", --start-group, --whole-archive and -u).
//!
//! Begin with `load_in_order`.
#![tactic(auto)]

mod faults;
mod lines;
mod loading;
mod member_names;
mod origins;
mod turns;

pub use faults::OrderFault;
pub use loading::load_in_order;
