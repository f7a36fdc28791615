//! The size of the GOT.

/// The size of the GOT in bytes, 0 without one.
#[derive(Clone, Copy, Debug, PartialEq, Eq)]
pub struct GotSize(pub u64);
