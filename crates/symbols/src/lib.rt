//! Tables of names: for each name that objects define, which symbols define it first, strong, weak or
//! common, and how large its common block is (System V gABI 4, "Symbol Table"). A table is a finite map
//! from names to rows, kept as a list or by hash. And which symbols are definitions, and which of these a name means.
//!
//! Begin with the trait `NameTable`.
#![tactic(auto)]

mod candidate;
mod indexed_table;
mod kinds;
mod list_table;
mod name_table;
mod owner;
mod row;

pub use candidate::{Candidate, CandidateKind};
pub use elf_model::{ObjectId, SymbolRef};
pub use indexed_table::IndexedTable;
pub use kinds::{is_common_definition, is_definition, is_strong, kind_by};
pub use list_table::ListTable;
pub use name_table::NameTable;
pub use owner::{Owner, owner_of_name, take_in};
pub use row::Row;
