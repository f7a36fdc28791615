//! What is known of a link that is judged, by the stages in which it becomes known: what is claimed of it, its objects with the
//! sections that the image has, and these at the addresses of the certificate.
//!
//! Begin with `Claim`.
#![tactic(auto)]

mod bound_claim;
mod claim;
mod commons;
mod keys;
mod lines;
mod loaded_claim;
mod pieces;
mod placed_claim;
mod stretches;

pub use bound_claim::BoundClaim;
pub use claim::Claim;
pub use lines::borrowed_commons;
pub use loaded_claim::{
    LoadedClaim, framed_pieces, has_own_frames, is_mixed, merged_pieces, plain_pieces,
};
pub use placed_claim::PlacedClaim;
pub use stretches::{part_stretches, stretches_of, table_stretches};
