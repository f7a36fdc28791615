//! The slots that the fields of relocations ask for, which their bytes tell.
ghost use Rattle.std.specs.Prelude.{◌≡◌, ◌↔◌, ◌⊎◌, ◌%◌, ◌^◌, ℕ, Any, Contains, IfOk, OnOk, Some};
ghost use Rattle.elf_model.specs.Link.Relocation.{relocations, relocations_from};
ghost use Rattle.check_load.specs.KeptRelocations.{relocation_at};
ghost use Rattle.check_load.specs.Views.{loaded_view};
ghost use Rattle.field_judge.specs.Given.{pointer_of};
ghost use Rattle.judge_model.specs.Links.{ForeignLink};
ghost use Rattle.link_fields.specs.Parts.{AreTaken, parts_of};
ghost use Rattle.link_fields.specs.Slots.{AreSlots, AsksSlotIn, AsksSlotUnlessOut};

use crate::drops::Drops;
use crate::parts::LinkParts;
use crate::relocations::asked_of;
use check_load::{KeptRelocation, Loaded};
use field_judge::{asked_slot, foreign_kind, thread_pointer};
use memory_judge::Taken;
use std::alloc::{AllocError, Global};

/// The address of the slot of a relocation's field of object `number`; None where it has none.
fn slot_of<'a>(
    parts: &LinkParts<'_, '_, 'a>,
    taken: &Taken<'_>,
    number: u64,
    loaded: &Loaded<'a>,
    relocation: &KeptRelocation,
    thread_pointer: u64,
) -> Option<u64>
    requires { thread_pointer ≡ pointer_of parts.now.image % 2 ^ 64 }
    ensures { (at : ℕ) → (result ≡ Some at) ↔ AsksSlotIn parts.now taken.now
        (relocation_at number (loaded_view loaded.now) relocation.now) at }
{
    match foreign_kind(relocation.entry.kind()) {
        Some(kind) => {
            let asked = asked_of(parts, number, loaded, relocation, thread_pointer);
            asked_slot(parts.image, taken, &asked, &kind)
        }
        None => None,
    }
}

/// The same, but for sections that are left out.
fn slot_unless_out<'a>(
    parts: &LinkParts<'_, '_, 'a>,
    taken: &Taken<'_>,
    drops: &Drops<'_>,
    number: u64,
    loaded: &Loaded<'a>,
    relocation: &KeptRelocation,
    thread_pointer: u64,
) -> Option<u64>
    requires { thread_pointer ≡ pointer_of parts.now.image % 2 ^ 64 }
    ensures { (at : ℕ) → (result ≡ Some at)
        ↔ AsksSlotUnlessOut parts.now taken.now drops.now at
        (relocation_at number (loaded_view loaded.now) relocation.now) }
{
    if drops.has(number, relocation.section as u64) {
        return None;
    }
    slot_of(parts, taken, number, loaded, relocation, thread_pointer)
}

/// Puts a slot behind others, where there is one.
fn add_slot(slots: &mut Vec<u64>, slot: Option<u64>) -> Result<(), AllocError>
    ensures { OnOk result ((at : ℕ) →
        Contains slots.new.items at ↔ (Contains slots.old.items at ⊎ (slot ≡ Some at))) }
{
    if let Some(at) = slot {
        slots.push(at)?;
    }
    Ok(())
}

/// Puts the slots of the fields of object `number` behind others.
fn add_slots<'a>(
    slots: &mut Vec<u64>,
    parts: &LinkParts<'_, '_, 'a>,
    taken: &Taken<'_>,
    drops: &Drops<'_>,
    number: u64,
    loaded: &Loaded<'a>,
    thread_pointer: u64,
) -> Result<(), AllocError>
    requires { thread_pointer ≡ pointer_of parts.now.image % 2 ^ 64 }
    ensures { OnOk result ((at : ℕ) → Contains slots.new.items at
        ↔ (Contains slots.old.items at ⊎ Any (AsksSlotUnlessOut parts.now taken.now drops.now at)
        (relocations_from number (loaded_view loaded.now)))) }
{
    for relocation in loaded.relocations() {
        let slot = slot_unless_out(
            parts,
            taken,
            drops,
            number,
            loaded,
            &relocation,
            thread_pointer,
        );
        add_slot(slots, slot)?;
    }
    Ok(())
}

/// The slots of the fields of all objects.
fn all_slots(
    alloc: Global,
    parts: &LinkParts<'_, '_, '_>,
    taken: &Taken<'_>,
    drops: &Drops<'_>,
) -> Result<Vec<u64>, AllocError>
    ensures { IfOk result (λ v. (at : ℕ) → Contains v.items at
        ↔ Any (AsksSlotUnlessOut parts.now taken.now drops.now at)
        (relocations parts.now.objects)) }
{
    let objects = parts.names.objects();
    let pointer = thread_pointer(parts.image);
    let mut slots = Vec::new(alloc);
    for k in 0..objects.len() {
        add_slots(
            &mut slots,
            parts,
            taken,
            drops,
            k as u64,
            &objects[k],
            pointer,
        )?;
    }
    Ok(slots)
}

/// The addresses of the slots that the fields of a link ask for, one for each field that has one, given what
/// `wrong_field` is given.
///
/// # Errors
///
/// Only where memory is refused.
pub fn slots_of(
    alloc: Global,
    parts: &LinkParts<'_, '_, '_>,
    taken: &Taken<'_>,
    drops: &Drops<'_>,
) -> Result<Vec<u64>, AllocError>
    ensures { (l : ForeignLink) → parts_of l ≡ parts.now → l.certificate.drops ≡ drops.now
        → AreTaken l taken.now → IfOk result (λ v. AreSlots l v.items) }
{
    all_slots(alloc, parts, taken, drops)
}
