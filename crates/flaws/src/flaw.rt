//! A flaw: what is wrong, and the numbers that say where.

use std::alloc::AllocError;

/// What refuses the link of loaded objects, by the number of an object in load order and that of its section or symbol, from 0.
#[derive(Clone, Copy, Debug, PartialEq, Eq)]
pub enum Flaw {
    /// A kept section whose type or flags are none of the profile's.
    Section(u64, u64),
    /// A common symbol that isn't sound.
    Common(u64, u64),
    /// A symbol that isn't sound.
    Symbol(u64, u64),
    /// A strong definition of a name that has two or more.
    Definition(u64, u64),
}

/// Whether there was memory for what was to be added.
pub(crate) type Added = Result<(), AllocError>;
