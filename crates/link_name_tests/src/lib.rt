//! Tests of links by their names: strong, weak and common symbols, archives, groups, the linker's own names.
#![tactic(auto)]

#[cfg(test)]
mod tests;
