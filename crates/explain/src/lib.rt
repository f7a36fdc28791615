//! Why a link is refused: the places of its inputs at which something is wrong, each with what is wrong there.
//!
//! Begin with `explain`.
#![tactic(auto)]

mod archive_text;
mod archives;
mod files;
mod flaw_places;
mod hint_text;
mod hints;
mod lines;
mod link;
mod note_text;
mod notes;
mod place;
mod reference_places;
mod source_lines;
mod text;
mod unlike_sections;
mod wanted;
mod word_text;

pub use hints::Hint;
pub use lines::{write_more, write_places};
pub use link::explain;
pub use notes::{Fact, Note};
pub use place::{EntryPlace, Found, Place, SymbolFault};
pub use text::Inputs;
pub use unlike_sections::KeptSection;
