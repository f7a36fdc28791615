//! A map as it is read in place: a name whose bytes all stand for themselves is borrowed from the text.
ghost use Rattle.std.specs.Prelude.{◌≡◌};
ghost use Rattle.linkmap.specs.Borrowed.{kept_row, symbol_row};

use crate::symbol_lines::SymbolLines;
use elf_model::{Definition, DropLine, GotLine, SlotKind, SymtabLine};
use std::borrow::CowSlice;

/// An `ObjectLine` with its path as it is read.
#[derive(Debug, Drop)]
pub struct BorrowedObject<'t> {
    pub object: u64,
    pub item: u64,
    pub offset: u64,
    pub path: CowSlice<'t, u8>,
}

/// A `PlaceLine` with its name as it is read.
#[derive(Debug, Drop)]
pub struct BorrowedPlace<'t> {
    pub address: u64,
    pub size: u64,
    pub object: u64,
    pub section: u64,
    pub name: CowSlice<'t, u8>,
}

/// A `CommonLine` with its name as it is read.
#[derive(Debug, Drop)]
pub struct BorrowedCommon<'t> {
    pub address: u64,
    pub size: u64,
    pub align: u64,
    pub name: CowSlice<'t, u8>,
}

/// A `SlotTarget` with its name as it is read.
#[derive(Debug, Drop)]
pub enum BorrowedTarget<'t> {
    Name(CowSlice<'t, u8>),
    Local { object: u64, symbol: u64 },
}

/// A `SlotLine` with its target as it is read.
#[derive(Debug, Drop)]
pub struct BorrowedSlot<'t> {
    pub address: u64,
    pub kind: SlotKind,
    pub target: BorrowedTarget<'t>,
}

/// A `SymbolLine` with its name as it is read.
#[derive(Debug, Drop)]
pub struct KeptSymbol<'t> {
    pub address: u64,
    pub definition: Definition,
    pub name: CowSlice<'t, u8>,
}

impl<'t> KeptSymbol<'t> {
    /// The line with its name borrowed.
    pub(crate) fn borrowed(&self) -> BorrowedSymbol<'_>
        ensures { symbol_row result ≡ kept_row self.now }
    {
        BorrowedSymbol {
            address: self.address,
            definition: self.definition,
            name: self.name.as_slice(),
        }
    }
}

/// A `SymbolLine` with its name borrowed.
#[derive(Clone, Copy, Debug)]
pub struct BorrowedSymbol<'s> {
    pub address: u64,
    pub definition: Definition,
    pub name: &'s [u8],
}

impl<'s> BorrowedSymbol<'s> {
    /// The line as it is kept.
    pub(crate) fn kept(self) -> KeptSymbol<'s>
        ensures { kept_row result ≡ symbol_row self.entry }
    {
        KeptSymbol {
            address: self.address,
            definition: self.definition,
            name: CowSlice::Borrowed(self.name),
        }
    }
}

/// A `LinkMap` with its names as they are read.
#[derive(Debug, Drop)]
pub struct BorrowedMap<'t> {
    pub version: u64,
    pub objects: Vec<BorrowedObject<'t>>,
    pub drops: Vec<DropLine>,
    pub places: Vec<BorrowedPlace<'t>>,
    pub commons: Vec<BorrowedCommon<'t>>,
    pub got: Option<GotLine>,
    pub slots: Vec<BorrowedSlot<'t>>,
    pub symbols: SymbolLines<'t>,
    pub symtab: Option<SymtabLine>,
}
