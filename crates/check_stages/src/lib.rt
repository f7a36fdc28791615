//! The values that a check goes through: the link when its objects are loaded, when the image is mapped and all is placed,
//! and when names and slots are bound; and the segments of its image.
//!
//! Begin with `LoadedLink`.
#![tactic(auto)]

mod bound_link;
mod loaded_link;
mod placed_link;
mod segments;

pub use bound_link::BoundLink;
pub use loaded_link::LoadedLink;
pub use placed_link::PlacedLink;
pub use segments::{encloses, enclosing, file_end, file_part, same_padded, sub_part};
