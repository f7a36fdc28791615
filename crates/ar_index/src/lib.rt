//! Reads archives of object files (ar(5)): accepts exactly those of the profile, and says of the others
//! why they are none.
//!
//! Begin with `Archive::read`.
#![tactic(auto)]

mod archive;
mod fields;
mod file_bytes;
mod index;
mod members;
mod names;
mod part_file;
mod part_member;
mod stored_members;

pub use archive::Archive;
pub use elf_model::ArFault;
pub use file_bytes::FileBytes;
pub use index::IndexEntry;
pub use members::Member;
pub use part_file::PartFile;
pub use part_member::PartMember;
