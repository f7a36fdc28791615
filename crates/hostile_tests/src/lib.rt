//! Tests of hostile input: files, images and maps that are cut off, or of which a byte is changed, and numbers at
//! which a sum or a product would wrap.
#![tactic(auto)]

#[cfg(test)]
mod tests;
