//! The GOT as it is handed out: its size, and whose value or thread offset each slot holds.
ghost use Rattle.std.specs.Prelude.{◌≡◌, ◌+◌, ◌*◌, ◌%◌, ◌^◌, IfOk, Some, cond, length};
ghost use Rattle.std.specs.List.{slice_get};
ghost use Rattle.std.specs.Option.{option_map_or};
ghost use Rattle.elf_model.specs.Link.Slots as wanted;
ghost use Rattle.search.specs.Views.{loaded_view};
ghost use Rattle.got_tls.specs.Asking.{offset_of, request_for};
ghost use Rattle.got_tls.specs.Views.{slot_view, slot_views};

use crate::asked_slots::Asked;
use crate::slot::Slot;
use crate::slot_index::SlotIndex;
use elf_model::{SlotKind, SymbolRef};
use layout::GotSize;
use search::LoadedObject;
use std::alloc::AllocError;
use std::marker::Model;

/// The GOT: its size in bytes, 0 where there is none, and its slots of 8 bytes each, in the order in which
/// they stand behind its first word.
#[derive(Drop)]
pub struct Slots<'a> {
    got: u64,
    listed: SlotIndex<'a>,
}

impl<'a> Model for Slots<'a> {
    ghost use Rattle.got_tls.specs.Views.{Got};

    ghost Value = { Got };

    ghost view = { λ s. record { got = s.got; slots = s.listed.slots; objects = s.listed.objects } };
}

/// The size in bytes of a GOT of so many slots. As where memory is refused, if that isn't a number of 64 bits.
fn size_with(count: usize) -> Result<u64, AllocError>
    ensures { IfOk result (λ n. n ≡ wanted.size_with count) }
{
    let Some(size) = (count as u64).checked_mul(8) else {
        return Err(AllocError);
    };
    match size.checked_add(8) {
        Some(size) => Ok(size),
        None => Err(AllocError),
    }
}

/// How far behind the GOT's beginning slot number `position` stands, modulo 2 to the 64: behind its first word.
fn offset_at(position: usize) -> u64
    ensures { result ≡ (8 + 8 * position) % 2 ^ 64 }
{
    (position as u64).wrapping_mul(8).wrapping_add(8)
}

/// The same of a position that there may be; 0 without one.
fn offset_or_none(position: Option<usize>) -> u64
    ensures { result ≡ option_map_or (λ i. 8 + 8 * i) position 0 % 2 ^ 64 }
{
    match position {
        Some(position) => offset_at(position),
        None => 0,
    }
}

impl<'a> Slots<'a> {
    /// The GOT that was asked for.
    ///
    /// # Errors
    ///
    /// Where the GOT's size isn't a number of 64 bits, for which there is no memory either.
    pub(crate) fn new(asked: Asked<'a>) -> Result<Slots<'a>, AllocError>
        ensures objects { IfOk result (λ s. s.objects ≡ asked.entry.listed.objects) }
        ensures slots { IfOk result (λ s. s.slots ≡ asked.entry.listed.slots) }
        ensures got { IfOk result (λ s. s.got
            ≡ cond asked.entry.got (wanted.size_with (length asked.entry.listed.slots)) 0) }
    {
        let got = if asked.got {
            size_with(asked.listed.len())?
        } else {
            0
        };
        Ok(Slots {
            got,
            listed: asked.listed,
        })
    }

    /// The GOT's size, 0 where there is none.
    pub fn got(&self) -> GotSize
        ensures { result.0 ≡ self.now.got }
    {
        GotSize(self.got)
    }

    /// The slots of 8 bytes each, in the order in which they stand behind the GOT's first word.
    pub fn slots(&self) -> &[Slot<'a>]
        ensures { slot_views result.now ≡ self.now.slots }
    {
        self.listed.slots()
    }

    /// How far behind the GOT's beginning a slot stands, modulo 2 to the 64; 0 where there is no such slot.
    pub fn offset(&self, slot: Slot<'a>) -> u64
        ensures { result ≡ offset_of self.now.slots (slot_view slot.entry) % 2 ^ 64 }
    {
        offset_or_none(self.listed.find(&slot))
    }

    /// The same of the slot of a kind for a symbol of a loaded object. It mostly is found without reading the symbol's name.
    pub fn symbol_offset(&self, kind: SlotKind, symbol: SymbolRef, loaded: &LoadedObject<'a>) -> u64
        requires { slice_get self.now.objects symbol.object.0 ≡ Some (loaded_view loaded.now) }
        ensures { result ≡ offset_of self.now.slots
            (request_for kind symbol.object.0 (loaded_view loaded.now) symbol.symbol) % 2 ^ 64 }
    {
        offset_or_none(self.listed.position(kind, symbol, loaded))
    }
}
