//! Whether the tables of an image, where it has section headers, are true (System V gABI 4, "Sections", "Symbol Table"): each
//! section is that of memory, each piece of the inputs lies in one, and each symbol is one of the inputs or of the linker's
//! names, with its value, size, type, binding and section. Programs run without them; debuggers and profilers believe them.
//!
//! Begin with `are_tables_right`.
#![tactic(auto)]

mod entries;
mod entry_names;
mod locals;
mod made_names;
mod meanings;
mod name_values;
mod piece_sizes;
mod simple_entries;
mod stretches;
mod symbols;
mod tables;
mod there;
mod wanted;

pub use tables::are_tables_right;
