//! Tests of the program on a system in memory: what it reads and writes, and in which order, what it prints, its status.
#![tactic(auto)]

#[cfg(test)]
mod tests;
