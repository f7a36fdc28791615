//! A debuggable image of a link: its image, with the sections and the symbols that tools ask for behind it.
#![tactic(auto)]

mod chunks;
mod data_index;
mod data_places;
mod debug_bytes;
mod debug_data;
mod debug_file;
mod debug_sections;
mod debug_values;
mod faults;
mod fields;
mod headers;
mod joined;
mod kept_groups;
mod laws;
mod left_objects;
mod link_tables;
mod lists;
mod long_names;
mod marks;
mod plain_part;
mod reports;
mod row;
mod section_numbers;
mod sections;
mod stand_ins;
mod symbol_rows;
mod symbol_table;
mod symbol_values;
mod tables;
mod used_names;

pub use chunks::Chunk;
pub use data_places::{DataPlaces, Used};
pub use debug_bytes::{ChunkBytes, chunk_data};
pub use debug_data::DebugData;
pub use debug_file::{DebugParts, Wanted, data_layout, debug_image, debug_parts};
pub use debug_values::DataLayout;
pub use faults::DebugFault;
pub use joined::Joined;
pub use laws::fields_have_their_values;
pub use long_names::long_named;
pub use plain_part::plain_image;
pub use reports::LeftData;
pub use symbol_values::SymbolValue;
