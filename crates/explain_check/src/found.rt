//! The places that were found so far: the first of them, and how many more there are.
ghost use Rattle.std.specs.Prelude.{◌≡◌, ◌<◌, ◌≤◌, [], All, IfOk, IfSome, IsTrue, OnErr, OnOk, length};
ghost use Rattle.elf_model.specs.Image.RightLink.{Holds, Subject};
ghost use Rattle.elf_model.specs.declared.verdict.Clause as verdict;
ghost use Rattle.explain_check.specs.Places.{AreFailures, FailsIn, IsOf, clause_of};

use crate::place::{ByteOf, CheckPlace, Failure, LineKey, NumberName};
use elf_model::Clause;
use std::alloc::{AllocError, Global};

/// The clause of the kind of a place.
pub fn kind_of(place: &CheckPlace<'_>) -> Clause
    ensures { result ≡ clause_of place.now }
{
    match place {
        CheckPlace::Line(LineKey::Object(_), _) => Clause::C2,
        CheckPlace::Line(LineKey::Symbol(_), _) => Clause::C13,
        CheckPlace::Line(_, _) => Clause::C3,
        CheckPlace::Unaligned(_)
        | CheckPlace::Outside(_)
        | CheckPlace::Shared(_, _)
        | CheckPlace::Far(_, _) => Clause::C5,
        CheckPlace::Unheld(_, _) | CheckPlace::First(_) => Clause::C6,
        CheckPlace::Got(_)
        | CheckPlace::SlotLine(_, _, _)
        | CheckPlace::NoSlot(_, _)
        | CheckPlace::Number(NumberName::GotSize | NumberName::SlotAddress(_), _, _)
        | CheckPlace::Byte(ByteOf::Got(_), _) => Clause::C7,
        CheckPlace::ThreadHeader(_, _)
        | CheckPlace::InThreadBlock(_, _, _, _)
        | CheckPlace::ThreadBytes(_) => Clause::C8,
        CheckPlace::Relocation(_, _) | CheckPlace::Overlap(_, _) | CheckPlace::Value(_, _, _) =>
            Clause::C9,
        CheckPlace::Byte(ByteOf::Piece(_, _, _), _) => Clause::C10,
        CheckPlace::SegmentEnd(_, _, _, _)
        | CheckPlace::Number(NumberName::Length, _, _)
        | CheckPlace::Byte(ByteOf::Fill(_) | ByteOf::Gap, _) => Clause::C11,
        CheckPlace::Entry(_, _) => Clause::C12,
        CheckPlace::Symtab(_)
        | CheckPlace::Number(_, _, _)
        | CheckPlace::Byte(ByteOf::Tail(_, _), _) => Clause::C14,
        CheckPlace::Whole(clause) => *clause,
    }
}

/// The clause that fails at a place: what the place says of a link denies it.
#[tactic(auto, using(crate::proofs::Denials::denies))]
pub fn clause_of(place: &CheckPlace<'_>) -> Clause
    ensures clause { result ≡ clause_of place.now }
    ensures fails { (s : Subject) → FailsIn s place.now → ¬ Holds result s }
{
    kind_of(place)
}

/// Whether there was memory for what was to be added.
pub(crate) type Added = Result<(), AllocError>;

/// Whether places are all of a clause.
fn are_of(places: &[CheckPlace<'_>], clause: Clause) -> bool
    ensures { IsTrue result → All (λ p. clause_of p ≡ clause) places.now }
{
    places.iter().all(|p| kind_of(p) == clause)
}

/// The first places that were found, and how many more.
#[derive(Drop)]
pub struct Found<'a> {
    pub(crate) alloc: Global,
    places: Vec<CheckPlace<'a>>,
    more: u64,
    most: usize,
}

impl<'a> Found<'a> {
    /// No places; at most so many are kept.
    pub fn new(alloc: Global, most: usize) -> Found<'a>
        ensures none { result.places.items ≡ [] }
        ensures most { result.most ≡ most }
    {
        Found {
            alloc,
            places: Vec::new(alloc),
            more: 0,
            most,
        }
    }

    /// Whether as many places are kept as may be.
    pub fn is_full(&self) -> bool {
        self.places.len() >= self.most
    }

    /// Counts a place that isn't kept.
    pub fn count(&mut self)
        ensures { self.new.places ≡ self.old.places }
    {
        self.more = self.more.saturating_add(1);
    }

    /// Takes in a place: keeps it, or counts it where as many are kept as may be.
    pub fn add(&mut self, place: CheckPlace<'a>) -> Result<(), AllocError>
        ensures fails { (s : Subject) →
            AreFailures s self.old.places.items → FailsIn s place.entry
            → OnOk result (AreFailures s self.new.places.items) }
        ensures of { (s : Subject) (c : verdict.Clause) →
            All (IsOf s c) self.old.places.items → IsOf s c place.entry
            → OnOk result (All (IsOf s c) self.new.places.items) }
        ensures most { self.new.most ≡ self.old.most }
        ensures few { length self.old.places.items ≤ self.old.most
            → length self.new.places.items ≤ self.old.most }
        ensures some { OnOk result (0 < self.old.most → 0 < length self.new.places.items) }
        ensures refused { OnErr result ((self.new.places.items ≡ self.old.places.items)
            × (self.new.more ≡ self.old.more)) }
    {
        if self.places.len() >= self.most {
            self.more = self.more.saturating_add(1);
            return Ok(());
        }
        self.places.push(place)?;
        Ok(())
    }

    /// Takes in a place, where there is one.
    pub fn add_some(&mut self, place: Failure<'a>) -> Added
        ensures { (s : Subject) →
            AreFailures s self.old.places.items → IfSome place.entry (FailsIn s) →
            OnOk result (AreFailures s self.new.places.items) }
    {
        match place {
            Some(place) => self.add(place),
            None => Ok(()),
        }
    }

    /// Takes in the place of a row, where there is one, and answers whether the rows behind it are to be looked at: not where
    /// it is wrong and there aren't as many rows as there should be, since they then differ only because they are shifted.
    pub(crate) fn add_row(&mut self, place: Failure<'a>, as_many: bool) -> Result<bool, AllocError>
        ensures { (s : Subject) →
            AreFailures s self.old.places.items → IfSome place.entry (FailsIn s) →
            OnOk result (AreFailures s self.new.places.items) }
    {
        let more = as_many || place.is_none();
        self.add_some(place)?;
        Ok(more)
    }

    /// The places, if all are of a clause, at most so many; where there are none, the clause as a whole.
    pub(crate) fn of_clause(self, clause: Clause, most: usize) -> Result<Found<'a>, AllocError>
        ensures of { (s : Subject) →
            AreFailures s self.entry.places.items → (¬ Holds clause s)
            → IfOk result (λ f. All (IsOf s clause) f.places.items) }
        ensures few { IfOk result (λ f. length f.places.items ≤ most) }
        ensures some { IfOk result (λ f. 0 < most → 0 < length f.places.items) }
    {
        let mut found = self;
        found.places.truncate(most);
        if !are_of(&found.places, clause) {
            found.places.clear();
        }
        if found.places.is_empty() && most > 0 {
            found.places.push(CheckPlace::Whole(clause))?;
        }
        Ok(found)
    }

    /// The places that are kept, in the order in which they were found.
    pub fn places(&self) -> &[CheckPlace<'a>]
        ensures { result.now ≡ self.now.places.items }
    {
        self.places.as_slice()
    }

    /// How many more were found.
    pub fn more(&self) -> u64 {
        self.more
    }
}
