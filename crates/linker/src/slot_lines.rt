//! The lines of the GOT and of its slots, where objects are laid out.
ghost use Rattle.std.specs.Prelude.{◌≡◌, ◌+◌, ◌*◌, ◌≤◌, ◌^◌, IfOk, length, map};
ghost use Rattle.elf_model.specs.Image.MapRecord.{slot_row, target_row};
ghost use Rattle.elf_model.specs.Own.OwnLayout.{IsNotTooLarge, own_got, own_slots, slot_at, slots_from};
ghost use Rattle.elf_model.specs.Link.Pieces.{AreLawfulKinds};
ghost use Rattle.resolve.specs.Views.{target_view};
ghost use Rattle.got_tls.specs.Views.{slot_view, slot_views};
ghost use Rattle.image_write.specs.Maps.{own_table};

use elf_model::{GotLine, SlotLine, SlotTarget, Target};
use got_tls::{Slot, Slots};
use layout::Placement;
use std::alloc::{AllocError, Global};

/// The line of the GOT, where there is one.
pub fn got_line(placement: &Placement<'_>, slots: &Slots<'_>) -> Option<GotLine>
    requires { slots.now ≡ own_table placement.now.objects }
    ensures { result ≡ own_got placement.now.base placement.now.objects }
{
    match placement.got() {
        Some(address) => Some(GotLine {
            address,
            size: slots.got().0,
        }),
        None => None,
    }
}

/// A target as a map names it.
fn slot_target(alloc: Global, target: &Target<'_>) -> Result<SlotTarget, AllocError>
    ensures { IfOk result (λ t. target_row t ≡ target_view target.now) }
{
    match target {
        Target::Name(name) => Ok(SlotTarget::Name(Vec::from_slice(alloc, name)?)),
        Target::Local(symbol) => Ok(SlotTarget::Local {
            object: symbol.object.0,
            symbol: symbol.symbol,
        }),
    }
}

/// The line of a slot at an address.
fn slot_line(alloc: Global, address: u64, slot: Slot<'_>) -> Result<SlotLine, AllocError>
    ensures { IfOk result (λ l. slot_row l ≡ slot_at address (slot_view slot.entry)) }
{
    let target = slot.target();
    Ok(SlotLine {
        address,
        kind: slot.kind(),
        target: slot_target(alloc, &target)?,
    })
}

/// The lines of the slots of a GOT at an address, which ends within the addresses.
fn lines_from(alloc: Global, got: u64, slots: &[Slot<'_>]) -> Result<Vec<SlotLine>, AllocError>
    requires { got + 8 * length slots.now ≤ 2 ^ 46 }
    ensures { IfOk result (λ v. map slot_row v.items
        ≡ slots_from (got + 8) (slot_views slots.now)) }
{
    let mut lines = Vec::with_capacity(alloc, slots.len())?;
    let mut address = got;
    for slot in slots {
        address += 8;
        lines.push(slot_line(alloc, address, *slot)?)?;
    }
    Ok(lines)
}

/// The lines of the slots, in the order in which they stand.
pub fn slot_lines(
    alloc: Global,
    placement: &Placement<'_>,
    slots: &Slots<'_>,
) -> Result<Vec<SlotLine>, AllocError>
    requires made { slots.now ≡ own_table placement.now.objects }
    requires kinds { AreLawfulKinds placement.now.objects }
    requires fits { IsNotTooLarge placement.now.base placement.now.objects }
    ensures { IfOk result (λ v. map slot_row v.items
        ≡ own_slots placement.now.base placement.now.objects) }
{
    let Some(got) = placement.got() else {
        return Ok(Vec::new(alloc));
    };
    let lines = lines_from(alloc, got, slots.slots())?;
    Ok(lines)
}
