//! Reads relocatable object files (System V gABI 4): accepts exactly those of the profile, and says
//! of the others why they are none.
//!
//! Begin with `ObjectFile::read`.
#![tactic(auto)]

mod groups;
mod header;
mod object;
mod object_file;
mod relas;
mod run;
mod sections;
mod symbols;

pub use elf_model::ObjFault;
pub use groups::{Group, is_group_section, may_be_member, read_members};
pub use header::{read_header, read_sections};
pub use object::Object;
pub use object_file::ObjectFile;
pub use relas::{RelaRun, is_rela_section};
pub use run::{Record, Run};
pub use sections::{
    contents, has_good_symbol_table, is_placed, is_power_of_two, is_symbol_table, lies_inside,
    section, symbol_table,
};
pub use symbols::{is_good_symbol, read_symbols};
