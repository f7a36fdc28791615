//! Where the linker itself lays out: which kept sections are lawful, in which order they stand, at which
//! addresses, and in which segments.
//!
//! Begin with `place`.
#![tactic(auto)]

mod addresses;
mod array_order;
mod bounds;
mod got_size;
mod mixed_outputs;
mod order;
mod output_sections;
mod pieces;
mod placed_pieces;
mod placement;
mod section_kinds;
mod segments;
mod threads;

pub use got_size::GotSize;
pub use mixed_outputs::mixed_names;
pub use placement::{Placement, place};
pub use placing::{LayoutFault, Piece, Place};
pub use section_kinds::{is_lawful_if_kept, kinds};
