//! Tests of where checks fail: links after a change or a few, and the lines that say what is wrong.
#![tactic(auto)]

#[cfg(test)]
mod tests;
