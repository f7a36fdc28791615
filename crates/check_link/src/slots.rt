//! The map's slot lines, found by what they are slots of.
ghost use Rattle.std.specs.Prelude.{◌≡◌, IfOk, IfSome, Some, map, slice_get};
ghost use Rattle.std.specs.List.{list_any};
ghost use Rattle.std.specs.Option.{option_map_or};
ghost use Rattle.linkmap.specs.Borrowed.{slot_row};
ghost use Rattle.elf_model.specs.Link.Loading.{LoadedObject};
ghost use Rattle.elf_model.specs.Link.Slots.{is_slot_of, requested_address, row_request};
ghost use Rattle.check_load.specs.Views.{loaded_views};
ghost use Rattle.check_link.specs.Slots.{IsSlotIndex, are_distinct, line_of, name_request, number_for, request_view};

use crate::names::Names;
use crate::numbering::Numbering;
use crate::requests::{Request, Wanted, request_of_line};
use crate::slot_positions::SlotPositions;
use linkmap::BorrowedSlot;
use std::alloc::{AllocError, Global};
use std::marker::Model;

/// Slot lines, with the position of the first one for each request, and whether there is at most one for each.
#[derive(Drop)]
pub struct SlotTable<'l, 'm> {
    lines: &'m [BorrowedSlot<'m>],
    numbering: Numbering<'l, 'm>,
    positions: SlotPositions<'m>,
    distinct: bool,
}

impl<'l, 'm> Model for SlotTable<'l, 'm> {
    ghost use Rattle.std.specs.Prelude.{map};
    ghost use Rattle.check_load.specs.Views.{loaded_views};
    ghost use Rattle.linkmap.specs.Borrowed.{slot_row};
    ghost use Rattle.check_link.specs.Slots.{IsSlotTable, Slots};

    ghost Value = { Slots };

    ghost view = { λ t. record { rows = map slot_row t.lines.now; objects = loaded_views t.numbering.objects.now } };

    ghost invariant = { λ t. IsSlotTable t.numbering.names.now (map slot_row t.lines.now) t.positions t.distinct };
}

/// The number of the name that a request is for; None where it is for none that has a number.
fn number_for(numbering: &Numbering<'_, '_>, request: &Request<'_>) -> Option<usize>
    ensures { result
        ≡ number_for numbering.now.names.now (request_view request.now).target }
{
    match request.target {
        Wanted::Name(name) => numbering.of_name(name),
        Wanted::Local(_, _) => None,
    }
}

/// The position of the first slot for each request, and whether no two lines are for the same.
fn index_slots<'m>(
    alloc: Global,
    numbering: &Numbering<'_, 'm>,
    lines: &'m [BorrowedSlot<'m>],
) -> Result<(SlotPositions<'m>, bool), AllocError>
    ensures index { IfOk result (λ r.
        IsSlotIndex numbering.now.names.now (map slot_row lines.entry.now) r.0) }
    ensures distinct { IfOk result (λ r. r.1
        ≡ are_distinct (map row_request (map slot_row lines.entry.now))) }
{
    let mut positions = SlotPositions::new(alloc);
    let mut distinct = true;
    for (i, line) in lines.iter().enumerate() {
        let request = request_of_line(line);
        let fresh = positions.add(number_for(numbering, &request), request, i)?;
        distinct &= fresh;
    }
    Ok((positions, distinct))
}

impl<'l, 'm> SlotTable<'l, 'm> {
    /// A table of slot lines, where names have the numbers that loading gave them.
    pub fn new(
        alloc: Global,
        lines: &'m [BorrowedSlot<'m>],
        names: &'l Names<'_, 'm>,
    ) -> Result<SlotTable<'l, 'm>, AllocError>
        ensures rows { IfOk result (λ t. t.rows ≡ map slot_row lines.entry.now) }
        ensures objects { IfOk result (λ t. t.objects ≡ names.entry.now) }
    {
        let numbering = names.numbering();
        let (positions, distinct) = index_slots(alloc, &numbering, lines)?;
        Ok(SlotTable {
            lines,
            numbering,
            positions,
            distinct,
        })
    }

    /// The position of the first slot for a request; None where there is none.
    pub fn position(&self, request: &Request<'m>) -> Option<usize>
        ensures { result ≡ line_of self.now.rows (request_view request.now) }
    {
        self.positions
            .get(number_for(&self.numbering, request), request)
    }

    /// The position of the first slot of a kind for the name of a symbol that isn't LOCAL, given its object's and its own number, where
    /// loading noted the name. The name isn't read.
    pub fn noted(&self, object: u64, symbol: u64, thread: bool) -> Option<usize>
        ensures { IfSome result (λ i. (o : LoadedObject)
            → slice_get self.now.objects object ≡ Some o
            → line_of self.now.rows (name_request thread o symbol) ≡ Some i) }
    {
        let number = self.numbering.of_symbol(object, symbol)?;
        self.positions.at(number, thread)
    }

    /// The address of the slot that has a position; 0 where there is none.
    pub fn address_at(&self, position: usize) -> u64
        ensures { result
            ≡ option_map_or (λ row. row.address) (slice_get self.now.rows position) 0 }
    {
        match self.lines.get(position) {
            Some(line) => line.address,
            None => 0,
        }
    }

    /// The address of the first slot for a request, 0 without one.
    pub fn address(&self, request: &Request<'m>) -> u64
        ensures { result ≡ requested_address self.now.rows (request_view request.now) }
    {
        match self.position(request) {
            Some(position) => self.address_at(position),
            None => 0,
        }
    }

    /// Whether there is a slot for a request.
    pub fn has(&self, request: &Request<'m>) -> bool
        ensures { result ≡ list_any (is_slot_of (request_view request.now)) self.now.rows }
    {
        self.position(request).is_some()
    }

    /// Whether no two lines are for the same request.
    pub fn are_distinct(&self) -> bool
        ensures { result ≡ are_distinct (map row_request self.now.rows) }
    {
        self.distinct
    }

    /// The lines.
    pub fn lines(&self) -> &'m [BorrowedSlot<'m>]
        ensures { map slot_row result.now ≡ self.now.rows }
    {
        self.lines
    }
}
