//! Whether the names that a linker defines where no object does have values that they may have (ld(1) and the default scripts
//! of GNU ld): `_etext`, `_end`, `__init_array_start`, `__start_N` and their kin.
#![tactic(auto)]

mod bounds;
mod gaps;
mod marks;
mod names;
mod nonempty;
mod rows;
mod slot_ends;
mod unmixed;

pub use names::are_names_right;
pub use slot_ends::do_bounds_spare_slots;
pub use unmixed::are_names_unmixed;
