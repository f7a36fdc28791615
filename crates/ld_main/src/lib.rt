//! The calls of the linker and of the checker, and the whole program over both: an image and a map from files and words,
//! `ld` from its words on, and the files that it writes.
//!
//! Begin with `link` for the calls, `run_ld` for the program.
#![tactic(auto)]

mod command_line;
mod content;
mod failure;
mod held_files;
mod inputs;
mod new_file;
mod outcome;
mod output;
mod output_files;
mod program;
mod refusal_texts;
mod writing;

pub use checker::{Clause, Verdict, check, check_in, check_parts};
pub use command_line::{given_words, run_args};
pub use content::{Content, ImageOf, MapOf};
pub use elf_model::LinkError;
pub use failure::{Failure, refused};
pub use file_io::{FetchFault, FileSource, GatherFault, RealFiles, gather};
pub use held_files::HeldFiles;
pub use image_write::{Linkage, Sink, SinkFault, WriteFault, image, write_image};
pub use inputs::{outputs, read_file, read_files, read_other_files};
pub use linker::{
    definitions, link_map, map_text, prepare, prepare_in, prepare_parts, prepare_seeded,
};
pub use new_file::NewFile;
pub use outcome::Outcome;
pub use output::{Output, link};
pub use output_files::{OutputFiles, Pending};
pub use program::{
    Task, name_seed, read_held_input, read_input, read_parts, read_whole_files, run_ld,
};
pub use writing::{Outputs, write_outputs};
