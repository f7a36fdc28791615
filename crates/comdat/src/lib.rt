//! COMDAT groups (System V gABI 4, "Section Groups"): of the groups that objects have in common, the
//! first one is kept, and the sections of each later one are dropped.
//!
//! Begin with `Groups::admit`.
#![tactic(auto)]

mod dropped;
mod groups;
mod lawfulness;
mod marks;

pub use dropped::Dropped;
pub use elf_model::GroupFault;
pub use groups::Groups;
