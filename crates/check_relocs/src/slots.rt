//! Where the slots are for which relocations ask, each looked up once for a symbol of an object.
ghost use Rattle.std.specs.Prelude.{◌≡◌, IfSome, Some};
ghost use Rattle.elf_model.specs.Link.Relocation.{relocation_kind};
ghost use Rattle.elf_model.specs.Link.Slots.{requested_address, slot_address};
ghost use Rattle.check_link.specs.Slots.{line_of};
ghost use Rattle.check_relocs.specs.Known.{known_at};
ghost use Rattle.check_relocs.specs.Kinds.{kind_view};
ghost use Rattle.check_relocs.specs.KnownSlots.{AreSlots, request_here, rows_here};
ghost use Rattle.check_relocs.specs.Referrers.{relocation_here};

use crate::answers::{keep_answer, known_answer};
use crate::entry_requests::{slot_kind_of, target_at};
use crate::kinds::Kind;
use crate::referrer::Referrer;
use crate::targets::is_local_at;
use check_link::{Request, is_thread};
use check_load::KeptRelocation;

/// A slot of a symbol: whether it is for the offset from the thread pointer, else for the value, and its address, 0 where
/// there is none.
#[derive(Clone, Copy, Debug)]
pub struct SymbolSlot {
    pub thread: bool,
    pub address: u64,
}

/// The address of symbol `j`'s slot of a kind, where that is known.
fn known_address(slots: &[Option<SymbolSlot>], j: usize, thread: bool) -> Option<u64>
    ensures { IfSome result (λ address.
        known_at slots.now j ≡ Some (record { thread = thread; address = address })) }
{
    match known_answer(slots, j) {
        Some(slot) if slot.thread == thread => Some(slot.address),
        _ => None,
    }
}

/// The position of the line of the slot of a kind for symbol `j` of an object, as far as loading noted the symbol's name. The name
/// isn't read.
fn noted_position(here: &Referrer<'_, '_, '_, '_>, j: usize, thread: bool) -> Option<usize>
    ensures { IfSome result (λ i.
        line_of (rows_here here.now) (request_here here.now j thread) ≡ Some i) }
{
    if is_local_at(here.loaded, j) {
        return None;
    }
    here.bindings.slots().noted(here.number, j as u64, thread)
}

/// The position of the line of the slot of a kind for symbol `j` of an object; None without one.
pub fn position_at(here: &Referrer<'_, '_, '_, '_>, j: usize, thread: bool) -> Option<usize>
    ensures { result ≡ line_of (rows_here here.now) (request_here here.now j thread) }
{
    if let Some(position) = noted_position(here, j, thread) {
        return Some(position);
    }
    let target = target_at(here.loaded, here.number, j);
    here.bindings.slots().position(&Request { thread, target })
}

/// The address of that slot, 0 without one.
fn found_address(here: &Referrer<'_, '_, '_, '_>, j: usize, thread: bool) -> u64
    ensures { result ≡ requested_address (rows_here here.now) (request_here here.now j thread) }
{
    match position_at(here, j, thread) {
        Some(position) => here.bindings.slots().address_at(position),
        None => 0,
    }
}

/// The address of the slot of a kind for symbol `j` of an object, 0 without one. It is looked up where that isn't known.
fn address_at(
    here: &Referrer<'_, '_, '_, '_>,
    slots: &mut Vec<Option<SymbolSlot>>,
    j: usize,
    thread: bool,
) -> u64
    requires { AreSlots here.now slots.old.items }
    ensures kept { AreSlots here.now slots.new.items }
    ensures address { result
        ≡ requested_address here.now.bindings.now.places.slots (request_here here.now j thread) }
{
    if let Some(address) = known_address(slots, j, thread) {
        return address;
    }
    let address = found_address(here, j, thread);
    keep_answer(slots, j, SymbolSlot { thread, address });
    address
}

/// The address of the slot for which a relocation of a kind asks, 0 where it asks for none and where there is none.
pub fn slot_at(
    here: &Referrer<'_, '_, '_, '_>,
    slots: &mut Vec<Option<SymbolSlot>>,
    relocation: &KeptRelocation,
    kind: &Kind,
) -> u64
    requires slots { AreSlots here.now slots.old.items }
    requires kind { relocation_kind (relocation_here here.now relocation.now)
        ≡ Some (kind_view kind.now) }
    ensures kept { AreSlots here.now slots.new.items }
    ensures address { result ≡ slot_address here.now.bindings.now.places.slots
        (relocation_here here.now relocation.now) }
{
    let Some(asked) = slot_kind_of(kind.formula) else {
        return 0;
    };
    let j = relocation.entry.symbol() as usize;
    address_at(here, slots, j, is_thread(asked))
}
