//! Objects, sections and symbols of a link, by number.

/// The number of a loaded object, from 0 in load order.
#[derive(Clone, Copy, Debug, PartialEq, Eq)]
pub struct ObjectId(pub u64);

/// A section of a loaded object, by its number in the object's section header table.
#[derive(Clone, Copy, Debug, PartialEq, Eq)]
pub struct SectionRef {
    pub object: ObjectId,
    pub section: u64,
}

/// A symbol of a loaded object, by its number in the object's symbol table.
#[derive(Clone, Copy, Debug, PartialEq, Eq)]
pub struct SymbolRef {
    pub object: ObjectId,
    pub symbol: u64,
}

/// What a relocation refers to: a GLOBAL or WEAK name, or a LOCAL symbol (number 0 too).
#[derive(Clone, Copy, Debug)]
pub enum Target<'a> {
    Name(&'a [u8]),
    Local(SymbolRef),
}
