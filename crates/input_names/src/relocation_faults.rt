//! How relocations read: their entries, their symbols, and what is wrong with them.

use crate::number_names::RelocationType;
use crate::relocation_places::RelocationPlace;
use crate::text::{Called, Name};
use std::fmt;
use std::fmt::{Formatter, Write};
use thiserror::Error;

/// A relocation, which reads as its number, that of its section, its type, the number of its symbol and, where this is wanted,
/// the name of that.
#[derive(Clone, Copy)]
pub struct RelocationEntry<'p, 'a>(pub &'p RelocationPlace<'a>, pub bool);

impl fmt::Display for RelocationEntry<'_, '_> {
    fn fmt<W: Write>(&self, f: &mut Formatter<W>) -> fmt::Result {
        let place = self.0;
        let (table, number, symbol) = (place.table, place.number, place.entry.symbol());
        let kind = RelocationType(place.entry.kind());
        let name = Called("", self.1.then_some(place.symbol_name));
        write!(
            f,
            "relocation {number} of section {table}, {kind}, to symbol {symbol}{name}"
        )
    }
}

/// The symbol of a relocation, by its name, or by its number where it has none.
#[derive(Clone, Copy)]
pub struct RelocationSymbol<'p, 'a>(pub &'p RelocationPlace<'a>);

impl fmt::Display for RelocationSymbol<'_, '_> {
    fn fmt<W: Write>(&self, f: &mut Formatter<W>) -> fmt::Result {
        if self.0.symbol_name.is_empty() {
            return write!(f, "symbol {}", self.0.entry.symbol());
        }
        write!(f, "{}", Name(self.0.symbol_name))
    }
}

/// Why a relocation isn't lawful.
#[derive(Clone, Copy, Debug, PartialEq, Eq, Error)]
pub enum RelocationFault {
    /// Its symbol has no definition, and needs one.
    #[error("not defined")]
    Undefined,
    /// It names a LOCAL symbol of a section that isn't kept.
    #[error("LOCAL in a section that is not loaded")]
    RefToDropped,
    /// Its type is no kind.
    #[error("not a type of relocation that is linked")]
    RelocKind,
    /// Its field isn't inside its section.
    #[error("the field is not inside its section")]
    FieldOutside,
    /// Its kind isn't for what its symbol is, of thread-local storage or not.
    #[error("thread-local, or not, against the relocation's type")]
    TlsMismatch,
    /// It uses a bound of an output name of several output sections.
    #[error("a bound of an output name of several output sections")]
    MixedSection,
}

/// What is wrong with a relocation, which is at a place; where it is about the symbol, with that in front.
#[derive(Clone, Copy)]
pub struct FaultOf<'p, 'a>(pub RelocationFault, pub &'p RelocationPlace<'a>);

impl fmt::Display for FaultOf<'_, '_> {
    fn fmt<W: Write>(&self, f: &mut Formatter<W>) -> fmt::Result {
        match self.0 {
            RelocationFault::RelocKind | RelocationFault::FieldOutside => write!(f, "{}", self.0),
            fault => write!(f, "{} is {fault}", RelocationSymbol(self.1)),
        }
    }
}
