//! Reads the words of another linker's command, as compilers hand them on (ld(1)), by one closed table of what they may say. Words
//! of which one has no row, or a value that its row doesn't take, are those of no command that is judged.
//!
//! Begin with `read_foreign_words`, and go on with `Spoken::plan` and `Spoken::wider`.
#![tactic(auto)]

mod numbers;
mod rows;
mod said;
mod says;
mod spelling;
mod spoken;
mod wider;

pub use says::Start;
pub use spoken::{Spoken, read_foreign_words};
pub use wider::Wider;
