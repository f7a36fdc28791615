//! The clauses of symbols: whether the map's lines are those of the chosen definitions (C13), and whether the symbol table
//! behind the image's last file part has an entry for each of these lines (C14).
//!
//! Begin with `c13_symbols::choices` and `c14_tables::holds`.
#![tactic(auto)]

pub mod c13_symbols;
pub mod c14_tables;
