//! Positions of lines of slots, by what these are slots of: those of names that have a number stand at it, the others in an
//! ordered table. No choice of names makes them slow to find.
ghost use Rattle.std.specs.Prelude.{◌≡◌, ◌==◌, ◌&&◌, ℕ, IfOk, List, None, OnOk, Some, cond, is_some, not};
ghost use Rattle.std.specs.Option.{option_or};
ghost use Rattle.elf_model.specs.Link.Slots as slots;
ghost use Rattle.elf_model.specs.Link.Slots.{same_kind, same_request};
ghost use Rattle.elf_model.specs.declared.link_map.SlotKind.{SlotKind};
ghost use Rattle.check_link.specs.Chosen.{position_at};
ghost use Rattle.check_link.specs.Slots.{in_table, kind_view, number_for, place_at, place_in, positions_of, request_view};

use crate::chosen_definitions::{keep_first, position_at, reach};
use crate::requests::Request;
use std::alloc::{AllocError, Global};
use std::collections::BTreeMap;

/// Positions: at the numbers of names those of slots for their values, and of slots for their offsets from the thread pointer;
/// and those of other slots.
#[derive(Drop)]
pub struct SlotPositions<'m> {
    pub values: Vec<Option<usize>>,
    pub threads: Vec<Option<usize>>,
    pub others: BTreeMap<Request<'m>, usize>,
}

/// Keeps a position at a number, unless there is one. True where there was none.
fn add_numbered(
    positions: &mut Vec<Option<usize>>,
    number: usize,
    position: usize,
) -> Result<bool, AllocError>
    ensures positions { OnOk result ((k : ℕ) →
        position_at positions.new.items k
        ≡ option_or (position_at positions.old.items k)
        (cond (k == number) (Some position) None)) }
    ensures fresh { IfOk result (λ b. b
        ≡ not (is_some (position_at positions.old.items number))) }
{
    reach(positions, number)?;
    let fresh = positions[number].is_none();
    keep_first(&mut positions[number], position);
    Ok(fresh)
}

/// Puts the position of a request into an ordered table, unless one is there. True where none was.
fn add_other<'m>(
    table: &mut BTreeMap<Request<'m>, usize>,
    request: Request<'m>,
    position: usize,
) -> Result<bool, AllocError>
    ensures positions { OnOk result ((q : slots.Request) →
        in_table table.new q
        ≡ option_or (in_table table.old q)
        (cond (same_request q (request_view request.entry)) (Some position) None)) }
    ensures fresh { IfOk result (λ b. b
        ≡ not (is_some (in_table table.old (request_view request.entry)))) }
{
    if table.contains_key(&request) {
        return Ok(false);
    }
    table.insert(request, position)?;
    Ok(true)
}

impl<'m> SlotPositions<'m> {
    /// None. Takes no memory.
    pub fn new(alloc: Global) -> SlotPositions<'m>
        ensures { (names : List (List ℕ)) (q : slots.Request) → place_in names result q ≡ None }
    {
        SlotPositions {
            values: Vec::new(alloc),
            threads: Vec::new(alloc),
            others: BTreeMap::new(alloc),
        }
    }

    /// The position at the number of a name, of its slot of a kind.
    pub fn at(&self, number: usize, thread: bool) -> Option<usize>
        ensures { result ≡ position_at (positions_of (kind_view thread) self.now) number }
    {
        if thread {
            position_at(&self.threads, number)
        } else {
            position_at(&self.values, number)
        }
    }

    /// The position of a request, given the number of its name where it has one; None where there is none.
    pub fn get(&self, number: Option<usize>, request: &Request<'m>) -> Option<usize>
        ensures { result ≡ place_at self.now (request_view request.now) number }
    {
        match number {
            Some(number) => self.at(number, request.thread),
            None => self.others.get(request).copied(),
        }
    }

    /// Adds a position of the slot of a kind for the name that has a number, unless it has one. True where it had none.
    fn add_at(&mut self, number: usize, thread: bool, position: usize) -> Result<bool, AllocError>
        ensures positions { OnOk result ((kind : SlotKind) (k : ℕ) →
            position_at (positions_of kind self.new) k
            ≡ option_or (position_at (positions_of kind self.old) k)
            (cond (same_kind kind (kind_view thread) && k == number) (Some position) None)) }
        ensures others { self.new.others ≡ self.old.others }
        ensures fresh { IfOk result (λ b. b
            ≡ not (is_some (position_at (positions_of (kind_view thread) self.old) number))) }
    {
        if thread {
            add_numbered(&mut self.threads, number, position)
        } else {
            add_numbered(&mut self.values, number, position)
        }
    }

    /// Gives a request a position, unless it has one, given the number of its name where that has one. True where it had none.
    pub fn add(
        &mut self,
        number: Option<usize>,
        request: Request<'m>,
        position: usize,
    ) -> Result<bool, AllocError>
        ensures positions { OnOk result ((names : List (List ℕ)) →
            number ≡ number_for names (request_view request.entry).target
            → (q : slots.Request)
            → place_in names self.new q
            ≡ option_or (place_in names self.old q)
            (cond (same_request q (request_view request.entry)) (Some position) None)) }
        ensures fresh { IfOk result (λ b. (names : List (List ℕ)) →
            number ≡ number_for names (request_view request.entry).target
            → b ≡ not (is_some (place_in names self.old (request_view request.entry)))) }
    {
        match number {
            Some(number) => {
                let numbered = self.add_at(number, request.thread, position)?;
                Ok(numbered)
            }
            None => {
                let other = add_other(&mut self.others, request, position)?;
                Ok(other)
            }
        }
    }
}
