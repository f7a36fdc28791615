//! What the slots of the GOT hold where objects are laid out.
ghost use Rattle.std.specs.Prelude.{◌≡◌, ◌%◌, ◌^◌, IfOk, map};
ghost use Rattle.elf_model.specs.Link.Pieces.{AreLawfulKinds};
ghost use Rattle.elf_model.specs.Image.MapRecord.{OfLocal};
ghost use Rattle.elf_model.specs.Link.Slots as wanted;
ghost use Rattle.got_tls.specs.Views.{slot_view};
ghost use Rattle.relocate.specs.Values.{pointer_in, slot_value_of, where_in};

use crate::symbol_values::local_value;
use crate::thread_pointer::{offset_from, pointer_of};
use crate::values::value_or_none;
use elf_model::{SlotKind, SymbolRef, Target};
use got_tls::{Slot, Slots};
use layout::Placement;
use resolve::Resolved;
use search::Loaded;
use std::alloc::{AllocError, Global};

/// The value of a symbol of an object as a target, modulo 2 to the 64: of a LOCAL one its own, without its name.
fn symbol_target_value(
    loaded: &Loaded<'_>,
    resolved: &Resolved<'_>,
    placement: &Placement<'_>,
    symbol: SymbolRef,
) -> u64
    requires loaded { resolved.now ≡ loaded.now.objects }
    requires kinds { AreLawfulKinds placement.now.objects }
    ensures { result ≡ wanted.target_value resolved.now (where_in placement.now)
        (OfLocal symbol.object.0 symbol.symbol) % 2 ^ 64 }
{
    let (number, j) = (symbol.object.0 as usize, symbol.symbol as usize);
    let Some(object) = loaded.objects().get(number) else {
        return 0;
    };
    if object.object.symbol(j).is_local() {
        return local_value(resolved, placement, number, object, j).value;
    }
    value_or_none(placement, &resolved.target_meaning(&Target::Local(symbol)))
}

/// The value of a slot's target modulo 2 to the 64, 0 where that means nothing.
fn target_value<'a>(
    loaded: &Loaded<'a>,
    resolved: &Resolved<'a>,
    placement: &Placement<'_>,
    slot: Slot<'a>,
) -> u64
    requires loaded { resolved.now ≡ loaded.now.objects }
    requires kinds { AreLawfulKinds placement.now.objects }
    ensures { result ≡ wanted.target_value resolved.now (where_in placement.now)
        (slot_view slot.entry).target % 2 ^ 64 }
{
    match slot.target() {
        Target::Name(name) => {
            value_or_none(placement, &resolved.target_meaning(&Target::Name(name)))
        }
        Target::Local(symbol) => symbol_target_value(loaded, resolved, placement, symbol),
    }
}

/// What a slot holds: the value of its target, or that one's offset from the thread pointer, modulo 2 to the 64.
fn slot_value<'a>(
    loaded: &Loaded<'a>,
    resolved: &Resolved<'a>,
    placement: &Placement<'_>,
    pointer: u64,
    slot: Slot<'a>,
) -> u64
    requires loaded { resolved.now ≡ loaded.now.objects }
    requires kinds { AreLawfulKinds placement.now.objects }
    requires pointer { pointer ≡ pointer_in (where_in placement.now) }
    ensures { result ≡ slot_value_of resolved.now (where_in placement.now) (slot_view slot.entry) }
{
    let value = target_value(loaded, resolved, placement, slot);
    match slot.kind() {
        SlotKind::Value => value,
        SlotKind::Thread => offset_from(pointer, value),
    }
}

/// The values of the slots of a GOT, in their order, where objects are laid out.
///
/// # Errors
///
/// Only where memory is refused.
pub fn slot_values<'a>(
    alloc: Global,
    loaded: &Loaded<'a>,
    resolved: &Resolved<'a>,
    placement: &Placement<'_>,
    slots: &Slots<'a>,
) -> Result<Vec<u64>, AllocError>
    requires loaded { resolved.now ≡ loaded.now.objects }
    requires kinds { AreLawfulKinds placement.now.objects }
    ensures { IfOk result (λ v. v.items
        ≡ map (slot_value_of resolved.now (where_in placement.now)) slots.now.slots) }
{
    let pointer = pointer_of(placement);
    let listed = slots.slots();
    let mut values = Vec::with_capacity(alloc, listed.len())?;
    for slot in listed {
        values.push(slot_value(loaded, resolved, placement, pointer, *slot))?;
    }
    Ok(values)
}
