//! What `ld-judge` does: it reads the files that the words of another linker's command name, the image that this linker made, and a
//! certificate, and says whether the image is a right link of the files.
//!
//! Begin with `run`.
#![tactic(auto)]

mod answer;
mod certificate;
mod fault;
mod given;
mod opinion;
mod program;

pub use answer::Answer;
pub use program::{run, run_args};
