//! What is wrong with the items of a plan, of which nothing is loaded: items without files; where each has one, archives that can't
//! be searched; where all can, the objects that can't be read. Of each kind all are told, in the order of items.
//!
//! Begin with `missing_items`.
#![tactic(auto)]

mod archives;
mod flaw;
mod items;
mod missing;
mod objects;

pub use archives::unsearchable_items;
pub use flaw::ItemFlaw;
pub use missing::missing_items;
pub use objects::bad_objects;
