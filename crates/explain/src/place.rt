//! The places that an explanation names, of which errors they are, and the first of them that were found.
ghost use Rattle.std.specs.Prelude.{◌≡◌, ◌≢◌, ◌↔◌, ◌<◌, ◌≤◌, All, IfOk, IfSome, IsTrue, List, OnOk, length, ℕ};
ghost use Rattle.elf_model.specs.Inputs.Files.{File};
ghost use Rattle.elf_model.specs.Own.Causes.{Cause};
ghost use Rattle.elf_model.specs.declared.faults.LinkError.TheVariants as link_error;
ghost use Rattle.explain.specs.Flawed.{IsOfReferences, IsOfResolution, IsToldOf};
ghost use Rattle.explain.specs.Places.{AreSo, Ground, Holds, IsOf, IsSo, Says};

use crate::hints::Hint;
use crate::notes::Note;
use archive_notes::ArchiveNote;
use bad_parts::BadPart;
use command::Source;
use elf_model::{ArFault, CmdFault, GroupFault, LinkError, ObjFault, SectionHeader, Symbol};
use input_names::RelocationPlace;
use relocate::RelocationFault;
use search::Reached;
use std::alloc::{AllocError, Global};
use thiserror::Error;

/// A section or a symbol of a loaded object, by its number in the object's table and by its header or entry there.
#[derive(Clone, Copy, Debug)]
pub struct EntryPlace<'a, E> {
    /// The number of the object, from 0 in load order.
    pub object: u64,
    pub number: u64,
    pub entry: E,
    pub name: &'a [u8],
}

/// What is wrong with a symbol.
#[derive(Clone, Copy, Debug, Error)]
pub enum SymbolFault {
    /// It is common, and unlawfully so.
    #[error("a common symbol must be GLOBAL, not of type TLS, and aligned to a power of two up to 2^21")]
    BadCommon,
    /// It isn't LOCAL and has no name or stands in a section that takes up no memory; or it stands behind its section's end.
    #[error("a symbol that isn't LOCAL needs a name and a section that is loaded, and any symbol lies within its section")]
    BadSymbol,
    /// It is a strong definition of a name that has another one.
    #[error("defined here")]
    Duplicate,
}

/// Where something is wrong, and what. Of an object it has where loading comes to it, of an archive the same
/// with the offset of the header of the member that is at fault, or 0.
#[derive(Clone, Copy, Debug)]
pub enum Place<'a> {
    /// A word of the command, by its number from 0; None where all of them together are refused.
    Word(Option<u64>, CmdFault),
    /// An item of the command, by its number from 0, of which there is no file.
    Missing(u64, Source<'a>),
    /// An item that is read as an archive, and is none.
    Archive(Reached<'a>, ArFault),
    /// An archive that has no index of its members' names, and is searched by it.
    NoIndex(Reached<'a>),
    /// An object file that is none of the profile's, and the first part of it that has the fault, where one is found.
    Object(Reached<'a>, ObjFault, Option<BadPart<'a>>),
    /// An object whose groups of sections are refused.
    Groups(Reached<'a>, GroupFault),
    /// A kept section whose type or flags are none of the profile's.
    Section(Reached<'a>, EntryPlace<'a, SectionHeader>),
    /// A kept section that takes up more than all addresses from the base on.
    Large(Reached<'a>, EntryPlace<'a, SectionHeader>),
    Symbol(Reached<'a>, EntryPlace<'a, Symbol>, SymbolFault),
    /// A kept relocation. Where its symbol's name is undefined, it is the first one to that name, and the number is how many
    /// others there are; else that is 0.
    Relocation(Reached<'a>, RelocationPlace<'a>, RelocationFault, u64),
    /// Two relocations of an object whose fields share a byte.
    Overlap(Reached<'a>, RelocationPlace<'a>, RelocationPlace<'a>),
    /// A relocation whose value, the first number, doesn't fit its field; the second number is the field's address.
    Value(Reached<'a>, RelocationPlace<'a>, u64, u64),
    /// The entry's name, which has no definition, or one in thread-local storage.
    Entry(&'a str),
    /// The inputs as a whole have an error, and no single place of it is told.
    Refused(&'a LinkError),
}

/// Whether an error is of the phase of resolution.
fn is_of_resolution(error: &LinkError) -> bool
    ensures { IsTrue result ↔ IsOfResolution error.now }
{
    match error {
        LinkError::SectionKind | LinkError::Duplicate(_) => true,
        LinkError::BadCommon | LinkError::BadSymbol => true,
        _ => false,
    }
}

/// Whether an error is of the phase of references.
fn is_of_references(error: &LinkError) -> bool
    ensures { IsTrue result ↔ IsOfReferences error.now }
{
    match error {
        LinkError::Undefined(_) | LinkError::RefToDropped => true,
        LinkError::RelocKind | LinkError::FieldOutside => true,
        LinkError::OverlappingFields | LinkError::TlsMismatch => true,
        LinkError::MixedSection | LinkError::NoEntry => true,
        _ => false,
    }
}

impl<'a> Place<'a> {
    /// Whether a place is told of an error: it is of this one, or of another one of the same phase.
    pub fn is_of(&self, error: &LinkError) -> bool
        ensures of { IsTrue result → IsOf error.now self.now }
        ensures flaws { IsToldOf error.now self.now → IsTrue result }
    {
        match self {
            Place::Section(_, _) | Place::Symbol(_, _, _) => is_of_resolution(error),
            Place::Relocation(_, _, _, _) => is_of_references(error),
            Place::Overlap(_, _, _) | Place::Entry(_) => is_of_references(error),
            _ => self.is_of_other(error),
        }
    }

    /// The same of a place that is no flaw of a phase.
    fn is_of_other(&self, error: &LinkError) -> bool
        ensures { IsTrue result → IsOf error.now self.now }
    {
        match (self, error) {
            (Place::Word(_, _), LinkError::Command(_)) => true,
            (Place::Missing(_, _), LinkError::FileMissing) => true,
            (Place::Archive(_, _), LinkError::BadArchive(_) | LinkError::NoIndex) => true,
            (Place::NoIndex(_), LinkError::BadArchive(_) | LinkError::NoIndex) => true,
            (Place::Object(_, _, _), LinkError::BadObject(_) | LinkError::BadGroup(_)) => true,
            (Place::Groups(_, _), LinkError::BadObject(_) | LinkError::BadGroup(_)) => true,
            (Place::Large(_, _), LinkError::TooLarge) => true,
            (Place::Value(_, _, _, _), LinkError::Overflow) => true,
            _ => false,
        }
    }
}

/// Whether there was memory for what was to be added.
pub(crate) type Added = Result<(), AllocError>;

/// The first places that were found, in the order in which they were found, and how many more.
#[derive(Drop)]
pub struct Found<'a> {
    pub(crate) alloc: Global,
    pub places: Vec<Place<'a>>,
    pub more: u64,
    /// Definitions whose names are like those that places ask for.
    pub hints: Vec<Hint<'a>>,
    /// What is told beside places.
    pub notes: Vec<Note<'a>>,
    /// What archives have to do with the names that places ask for.
    pub archives: Vec<ArchiveNote<'a>>,
    pub(crate) most: usize,
}

impl<'a> Found<'a> {
    /// No places; at most so many are kept.
    pub(crate) fn new(alloc: Global, most: usize) -> Found<'a>
        ensures none { (g : Ground) → AreSo g result.places.items }
        ensures most { result.most ≡ most }
    {
        Found {
            alloc,
            places: Vec::new(alloc),
            more: 0,
            hints: Vec::new(alloc),
            notes: Vec::new(alloc),
            archives: Vec::new(alloc),
            most,
        }
    }

    /// Takes in a place, where there is one: keeps it, or counts it where as many are kept as may be.
    pub(crate) fn add(&mut self, place: Option<Place<'a>>) -> Added
        ensures { (g : Ground) → AreSo g self.old.places.items → IfSome place.entry (IsSo g)
            → OnOk result (AreSo g self.new.places.items) }
    {
        let Some(place) = place else {
            return Ok(());
        };
        if self.is_full() {
            self.count();
            return Ok(());
        }
        self.places.push(place)?;
        Ok(())
    }

    /// Whether as many places are kept as may be, so that one more would only be counted.
    pub(crate) fn is_full(&self) -> bool {
        self.places.len() >= self.most
    }

    /// Counts a place that isn't kept.
    pub(crate) fn count(&mut self)
        ensures { self.new.places ≡ self.old.places }
    {
        self.more = self.more.saturating_add(1);
    }

    /// The places that are told of an error, at most so many; where there is none, the error as a whole.
    pub(crate) fn told(self, error: &'a LinkError, most: usize) -> Result<Found<'a>, AllocError>
        ensures holds { (files : List File) (words : List (List ℕ)) →
            error.entry.now ≢ link_error.Memory → Cause files words error.entry.now
            → All (Says files words) self.entry.places.items
            → IfOk result (λ f. All (Holds files words) f.places.items) }
        ensures flaws { All (IsToldOf error.entry.now) self.entry.places.items
            → length self.entry.places.items ≤ most
            → (0 < most → 0 < length self.entry.places.items)
            → IfOk result (λ f. (f.places.items ≡ self.entry.places.items)
            × (f.more ≡ self.entry.more)) }
        ensures few { IfOk result (λ f. length f.places.items ≤ most) }
        ensures some { IfOk result (λ f. 0 < most → 0 < length f.places.items) }
    {
        let mut found = self;
        found.places.retain(|place| place.is_of(error));
        found.places.truncate(most);
        if !found.places.is_empty() || most == 0 {
            return Ok(found);
        }
        found.places.push(Place::Refused(error))?;
        Ok(found)
    }
}
