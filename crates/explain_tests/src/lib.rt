//! Tests of explanations: what they say of each refusal of a link.
#![tactic(auto)]

#[cfg(test)]
mod tests;
