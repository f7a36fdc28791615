//! Tests of `ld-judge` on a system in memory: what it reads, and in which order, what it prints, its status.
#![tactic(auto)]

#[cfg(test)]
mod tests;
