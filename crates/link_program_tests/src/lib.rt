//! Tests of whole links: links of one object and of two, the bytes between pieces, the order of arrays, symbol tables, the
//! clause that a wrong link fails, and the program.
#![tactic(auto)]

#[cfg(test)]
mod tests;
