//! Whether a program is entered where its words say (System V gABI 4, "ELF Header", e_entry; ld(1), -e).
#![tactic(auto)]

mod entries;

pub use entries::is_entry_right;
