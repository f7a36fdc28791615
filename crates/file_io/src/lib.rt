//! Files as a link meets them: those that it reads, each of which is known again by its device and number, and the one that
//! takes an image, in which pages of zeros are passed over.
//!
//! Begin with `gather` and `RealFiles` for input, `FileSink` for the image.
#![tactic(auto)]

mod file_ids;
mod file_sink;
mod file_source;
mod placed_bytes;
mod real_files;
mod sparse;
mod zero_pages;

pub use file_ids::{FileId, OutputPath, file_id, overwritten};
pub use file_sink::{FileSink, put_zeros};
pub use file_source::{FetchFault, FileSource, GatherFault, gather};
pub use placed_bytes::{PlacedBytes, PlacedFile, read_members, read_parts};
pub use real_files::{LargeArchive, RealFiles, make_executable, read_whole};
pub use sparse::{SparseFile, SparseWrite};
