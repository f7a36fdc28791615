//! Tests of source lines: line tables that compilers made, one made by hand, and changed ones.
#![tactic(auto)]

#[cfg(test)]
mod tests;
