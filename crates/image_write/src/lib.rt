//! The bytes of the image file: the headers, the pieces at their offsets with their relocated bytes, and fill
//! between them.
#![tactic(auto)]

mod buffer;
mod entries;
mod fill_bytes;
mod got;
mod headers;
mod image_file;
mod linkage;
mod listed;
mod memory_sink;
mod pieces;
mod sink;
mod stream;
mod symbol_table;
mod tables;
mod values;
mod written_image;

pub use image_file::file_end;
pub use linkage::{Linkage, Parts};
pub use listed::Listed;
pub use memory_sink::MemorySink;
pub use sink::{HoleSink, Sink, SinkFault, WriteFault};
pub use stream::put_all;
pub use symbol_table::SymbolTable;
pub use values::{block_address, definition_value, symbol_value};
pub use written_image::{image, write_image};
