//! Tests of the linker's layers: loading, what names mean, the layout, relocations.
#![tactic(auto)]

#[cfg(test)]
mod tests;
