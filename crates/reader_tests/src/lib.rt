//! Tests of the crates that read and describe: bytes, records, objects, archives, words, maps, memory, tables of
//! names, groups of sections, what a plan loads.
#![tactic(auto)]

#[cfg(test)]
mod tests;
