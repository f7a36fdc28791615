//! All that the program `ld-debug` does: it links as `ld` does, and writes the image with sections, symbols and debug data for
//! tools; and it checks such images.
//!
//! Begin with `run_debug`.
#![tactic(auto)]

mod checking;
mod comparing;
mod debug_file;
mod laws;
mod linking;
mod parts;
mod program;
mod read_back;
mod reports;
mod verdict;
mod words;

pub use checking::judged_whole;
pub use comparing::Comparing;
pub use debug_file::{DebugFile, write_debug_file};
pub use laws::no_tables_excludes_yes;
pub use program::{run_args, run_debug, wanted};
pub use verdict::{DebugVerdict, Difference};
pub use words::{plain_words, stands_alone, stripped};
