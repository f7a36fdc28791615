//! Decides whether an image and a map are a right link of given files and words, clause by clause. It stands on the
//! readers, the command, its own loading of objects, the map and the loader model only, and shares no loading, layout,
//! resolution or relocation code with the linker.
#![tactic(auto)]

pub mod c02_loaded;
pub mod c07_got;
pub mod c08_thread_block;
pub mod c09_relocations;
pub mod c10_bytes;
pub mod c11_fill;
mod object_fields;
mod observer;
mod rising_fields;
mod same_runs;
mod verdict;

pub use check_stages::{BoundLink, LoadedLink, PlacedLink};
pub use elf_model::{Clause, Verdict};
pub use observer::{Observer, Unobserved};
pub use verdict::{check, check_in, check_parts, judge};
