//! Runs: sections that stand one behind the other, so that programs can walk over them (ld(1), SORT_BY_INIT_PRIORITY; System V
//! gABI 4, SHF_LINK_ORDER), and the gaps between them (docs/DEFINITIONS.md).
//!
//! Begin with `run_pairs`, which lists the neighbours of all runs; `are_runs_right` decides of these whether they are near each
//! other with nothing else between them, `run_gaps` tells the gaps of runs of code, and `taken_of` where no slot may be.
#![tactic(auto)]

mod clear;
mod gaps;
mod names;
mod near;
mod order;
mod pairs;
mod ranks;
mod stretches;

pub use gaps::{run_gaps, taken_of};
pub use near::are_runs_right;
pub use pairs::{RunPair, run_pairs};
