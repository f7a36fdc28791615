//! Tests of debuggable images: what they have behind the image, byte for byte, and the image that they begin with.
#![tactic(auto)]

#[cfg(test)]
mod tests;
