//! Tests of the crates that judge other linkers' links: images, and what fills the gaps of code.
#![tactic(auto)]

#[cfg(test)]
mod tests;
