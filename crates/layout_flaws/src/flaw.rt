//! A flaw of a layout: what is wrong, and the numbers that say where.

use std::alloc::AllocError;
use wrong_references::EntryNumber;

/// What refuses the link of loaded objects by their layout. Objects go by their numbers in load order, from 0.
#[derive(Clone, Copy, Debug, PartialEq, Eq)]
pub enum LayoutFlaw {
    /// A kept section, by its object and its number there, that takes up more than all addresses from the base on.
    Large(u64, u64),
    /// A kept relocation of an object; its value, which doesn't fit its field; and the address of the field.
    Unfit(u64, EntryNumber, u64, u64),
}

/// Whether there was memory for what was to be added.
pub(crate) type Added = Result<(), AllocError>;
