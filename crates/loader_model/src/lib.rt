//! What a loader maps of an ELF-64 executable: memory as the PT_LOAD segments make it, byte by byte and
//! in runs (System V gABI 5); and things of memory in the order of their addresses.
//!
//! Begin with `Memory::load`.
#![tactic(auto)]

mod memory;
mod sorted_things;
mod table;

pub use elf_model::LoadFault;
pub use memory::{Memory, Rights, Run};
pub use sorted_things::by_address;
