//! Slots in the order of first request. Where a slot of a name stands is noted by the number of the name, so that those who
//! ask for it again find it without reading the name; a slot is hashed only where it isn't noted.
ghost use Rattle.std.specs.Prelude.{◌≡◌, ◌<◌, ◌≤◌, ℕ, [], IfOk, IfSome, OnOk, Some, length, position};
ghost use Rattle.std.specs.List.{slice_get};
ghost use Rattle.elf_model.specs.Link.Loading as loading;
ghost use Rattle.elf_model.specs.Link.Slots.{same_request};
ghost use Rattle.indexmap.specs.IndexSet.{insert_key};
ghost use Rattle.search.specs.Views.{loaded_view};
ghost use Rattle.got_tls.specs.Asking.{request_for};
ghost use Rattle.got_tls.specs.Positions.{AreNoted, IsNoted};
ghost use Rattle.got_tls.specs.Views.{slot_view, slot_views};

use crate::slot::Slot;
use elf_model::{NameSeed, SlotKind, SymbolRef};
use indexmap::IndexSet;
use resolve::target_of;
use search::{Loaded, LoadedObject};
use std::alloc::{AllocError, Global};
use std::marker::Model;

/// The position that stands for none.
const NO_POSITION: u32 = 0xffff_ffff;

/// Slots of what is loaded, each once, and where those of names stand, by the names' numbers, as far as that is noted.
#[derive(Drop)]
pub struct SlotIndex<'a> {
    loaded: Loaded<'a>,
    slots: IndexSet<Slot<'a>, NameSeed>,
    positions: Vec<u32>,
}

impl<'a> Model for SlotIndex<'a> {
    ghost use Rattle.got_tls.specs.Positions.{ArePositions};
    ghost use Rattle.got_tls.specs.Views.{Listed, slot_views};

    ghost Value = { Listed };

    ghost view = { λ x. record { slots = slot_views x.slots.keys; objects = x.loaded.objects } };

    ghost invariant = { λ x. ArePositions x.loaded.names x.slots.keys x.positions.items };
}

/// The position that is noted for a number; None where there is none.
fn noted(positions: &[u32], number: usize) -> Option<usize>
    ensures { IfSome result (λ p. IsNoted positions.now number p) }
{
    let position = *positions.get(number)?;
    if position == NO_POSITION {
        return None;
    }
    Some(position as usize)
}

/// Makes room for a position for each of `count` numbers, as far as there is none.
fn make_room(positions: &mut Vec<u32>, count: usize) -> Result<(), AllocError>
    ensures same { (n p : ℕ) → IsNoted positions.new.items n p → IsNoted positions.old.items n p }
    ensures room { OnOk result (count ≤ length positions.new.items) }
{
    if positions.len() >= count {
        return Ok(());
    }
    positions.resize(count, NO_POSITION)
}

/// Notes a position for the number of a name, one of `count` names, unless it is past those that are noted.
fn note(
    positions: &mut Vec<u32>,
    count: usize,
    number: usize,
    position: usize,
) -> Result<(), AllocError>
    requires { number < count }
    ensures { AreNoted number position positions.old.items positions.new.items }
{
    make_room(positions, count)?;
    if let Ok(position) = u32::try_from(position) {
        positions[number] = position;
    }
    Ok(())
}

impl<'a> SlotIndex<'a> {
    /// No slots yet of what is loaded.
    pub fn new(alloc: Global, loaded: &Loaded<'a>) -> Result<SlotIndex<'a>, AllocError>
        ensures objects { IfOk result (λ x. x.objects ≡ loaded.now.objects) }
        ensures slots { IfOk result (λ x. x.slots ≡ []) }
    {
        Ok(SlotIndex {
            loaded: loaded.clone()?,
            slots: IndexSet::with_hasher(alloc, loaded.name_seed()),
            positions: Vec::new(alloc),
        })
    }

    /// How many slots there are.
    pub fn len(&self) -> usize
        ensures { result ≡ length self.now.slots }
    {
        self.slots.len()
    }

    /// The slots, in the order of first request.
    pub fn slots(&self) -> &[Slot<'a>]
        ensures { slot_views result.now ≡ self.now.slots }
    {
        self.slots.as_slice()
    }

    /// The position of the slot of a kind for the name of a symbol, where it is noted. Reads no name.
    fn told(&self, kind: SlotKind, symbol: SymbolRef) -> Option<usize>
        ensures { IfSome result (λ i. (o : loading.LoadedObject)
            → slice_get self.now.objects symbol.object.0 ≡ Some o
            → position (same_request (request_for kind symbol.object.0 o symbol.symbol)) self.now.slots
            ≡ Some i) }
    {
        let _named = self.loaded.name_count();
        let number = self.loaded.name_number(symbol)?;
        let position = noted(&self.positions, number)?;
        let known = self.slots.as_slice().get(position)?;
        if !known.is_of(kind) {
            return None;
        }
        Some(position)
    }

    /// The position of a slot; None where there is no such slot.
    pub fn find(&self, slot: &Slot<'a>) -> Option<usize>
        ensures { result ≡ position (same_request (slot_view slot.now)) self.now.slots }
    {
        self.slots.get_index_of(slot)
    }

    /// The position of the slot of a kind for a symbol of a loaded object; None where there is none.
    pub fn position(
        &self,
        kind: SlotKind,
        symbol: SymbolRef,
        loaded: &LoadedObject<'a>,
    ) -> Option<usize>
        requires { slice_get self.now.objects symbol.object.0 ≡ Some (loaded_view loaded.now) }
        ensures { result ≡ position
            (same_request
            (request_for kind symbol.object.0 (loaded_view loaded.now) symbol.symbol))
            self.now.slots }
    {
        match self.told(kind, symbol) {
            Some(position) => Some(position),
            None => self.find(&Slot::new(kind, &target_of(symbol, loaded))),
        }
    }

    /// Adds the slot of a kind for a symbol of a loaded object, unless it is there.
    ///
    /// # Errors
    ///
    /// Only where memory is refused.
    pub fn add(
        &mut self,
        kind: SlotKind,
        symbol: SymbolRef,
        loaded: &LoadedObject<'a>,
    ) -> Result<(), AllocError>
        requires { slice_get self.old.objects symbol.object.0 ≡ Some (loaded_view loaded.now) }
        ensures objects { self.new.objects ≡ self.old.objects }
        ensures slots { OnOk result (self.new.slots
            ≡ insert_key same_request self.old.slots
            (request_for kind symbol.object.0 (loaded_view loaded.now) symbol.symbol)) }
    {
        if let Some(_position) = self.told(kind, symbol) {
            return Ok(());
        }
        let slot = Slot::new(kind, &target_of(symbol, loaded));
        let (position, _is_new) = self.slots.insert_full(slot)?;
        let count = self.loaded.name_count();
        if let Some(number) = self.loaded.name_number(symbol) {
            note(&mut self.positions, count, number, position)?;
        }
        Ok(())
    }
}
