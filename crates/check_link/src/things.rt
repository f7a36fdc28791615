//! What the checker looks at: the pieces, the symbols and the common blocks of loaded objects.

use elf_model::{Bound, SectionHeader, Symbol};

/// A kept section of a loaded object: its object's and its own number, its header, its name and its input
/// bytes (none for NOBITS); or a common block as one.
#[derive(Clone, Copy, Debug)]
pub struct Piece<'a> {
    pub object: u64,
    pub section: u64,
    pub header: SectionHeader,
    pub name: &'a [u8],
    pub bytes: &'a [u8],
}

/// A piece at the address that the map gives it.
#[derive(Clone, Copy, Debug)]
pub struct Placed<'a> {
    pub at: u64,
    pub piece: Piece<'a>,
}

/// A symbol of a loaded object: its object's and its own number, its name, its entry, and whether it stands in a
/// section that is dropped.
#[derive(Clone, Copy, Debug)]
pub struct SymbolOf<'a> {
    pub object: u64,
    pub number: u64,
    pub name: &'a [u8],
    pub entry: Symbol,
    pub dropped: bool,
}

/// The common block of a name: the numbers that it has as a piece, its name, its size and its alignment in bytes,
/// where 0 means 1.
#[derive(Clone, Copy, Debug)]
pub struct Block<'a> {
    pub object: u64,
    pub number: u64,
    pub name: &'a [u8],
    pub size: u64,
    pub align: u64,
}

/// What a name means: a symbol of an object, its common block, or one of the linker's own names with what it stands
/// for.
#[derive(Clone, Copy, Debug)]
pub enum Meaning<'a> {
    Symbol(SymbolOf<'a>),
    Common(Block<'a>),
    Linker(&'a [u8], Bound),
}
