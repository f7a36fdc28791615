//! Tests of links by their tables: the global offset table, thread-local storage, output sections with bounds.
#![tactic(auto)]

#[cfg(test)]
mod tests;
