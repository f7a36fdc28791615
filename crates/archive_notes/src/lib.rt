//! What archives of a command have to do with names that nothing defines: why a member that an index names for one of them did not
//! help.
//!
//! Begin with `archive_notes`.
#![tactic(auto)]

mod members;
mod note;
mod notes;

pub use note::{ArchiveFact, ArchiveNote};
pub use notes::{archive_note, archive_notes};
