//! The headers of an image that another linker made, and memory as its PT_LOAD segments make it (System V gABI 5): any
//! layout that the system maps, where the profile's images have their own (`loader_model`).
//!
//! Begin with `ForeignImage::read`.
#![tactic(auto)]

mod frame_tables;
mod header;
mod image;
mod segments;
mod table;

pub use frame_tables::{has_frame_table, is_frame_table, table_stretch};
pub use image::ForeignImage;
