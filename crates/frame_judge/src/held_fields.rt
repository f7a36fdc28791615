//! Whether the field of a relocation of call frames holds, in the linker's list, what its kind asks for.
ghost use Rattle.std.specs.Prelude.{◌≡◌, ◌==◌, ◌↔◌, ◌%◌, ◌^◌, ℕ, List, IsSomeAnd, IsTrue, None, find};
ghost use Rattle.check_load.specs.KeptRelocations.{relocation_at};
ghost use Rattle.check_load.specs.Views.{loaded_view};
ghost use Rattle.elf_model.specs.Link.Slots as slots;
ghost use Rattle.field_judge.specs.Given.{Given, IsGiven, pointer_of};
ghost use Rattle.field_judge.specs.Kinds.{IsWidth, TellsSlots, formula_view, kind_view};
ghost use Rattle.frame_judge.specs.Held.{IsFieldHeld, IsHeldBy, moved_to};
ghost use Rattle.judge_model.specs.Fields.{foreign_kinds};
ghost use Rattle.link_fields.specs.Parts.{given};

use check_load::{KeptRelocation, Loaded};
use field_judge::{Asked, Formula, Kind, foreign_kind, is_right, slot_kind_of};
use link_fields::{LinkParts, asked_of};
use memory_judge::Taken;

/// What a relocation asks of its field where this is at an address.
fn asked_at(asked: Asked, at: u64) -> Asked
    ensures { (image : List ℕ) (g : Given) → IsGiven image asked g → IsGiven image result (moved_to g at) }
{
    Asked {
        value: asked.value,
        addend: asked.addend,
        at,
        offset: 0,
        size: asked.size,
        got: asked.got,
        thread: asked.thread,
        thread_pointer: asked.thread_pointer,
    }
}

/// Whether a formula asks for no slot.
fn is_free(formula: Formula) -> bool
    ensures { IsTrue result ↔ (slots.slot_kind_of (formula_view formula) ≡ None) }
{
    slot_kind_of(formula).is_none()
}

/// Whether the field of a kind holds what is asked, and asks for no slot.
fn is_held_by(parts: &LinkParts<'_, '_, '_>, taken: &Taken<'_>, asked: &Asked, kind: &Kind) -> bool
    requires width { IsWidth kind.now.width }
    requires tells { TellsSlots (kind_view kind.now) }
    ensures { (g : Given) → IsGiven parts.now.image asked.now g
        → IsTrue result ↔ IsHeldBy parts.now.image taken.now g (kind_view kind.now) }
{
    if !is_free(kind.formula) {
        return false;
    }
    is_right(parts.image, taken, asked, kind)
}

/// Whether the field of a kind holds what is asked at an address of any size.
fn is_kind_held(
    parts: &LinkParts<'_, '_, '_>,
    taken: &Taken<'_>,
    asked: Asked,
    kind: &Kind,
    at: u128,
) -> bool
    requires width { IsWidth kind.now.width }
    requires tells { TellsSlots (kind_view kind.now) }
    ensures { (g : Given) → IsGiven parts.now.image asked g → IsTrue result
        ↔ IsHeldBy parts.now.image taken.now (moved_to g at) (kind_view kind.now) }
{
    let _program = parts.image.image();
    if at > u64::MAX as u128 {
        return false;
    }
    is_held_by(parts, taken, &asked_at(asked, at as u64), kind)
}

/// Whether the field of a relocation of a type holds what is asked at an address.
fn is_held_at(
    parts: &LinkParts<'_, '_, '_>,
    taken: &Taken<'_>,
    asked: Asked,
    number: u32,
    at: u128,
) -> bool
    ensures { (g : Given) → IsGiven parts.now.image asked g → IsTrue result
        ↔ IsSomeAnd (find (λ k. k.number == number) foreign_kinds)
        (IsHeldBy parts.now.image taken.now (moved_to g at)) }
{
    match foreign_kind(number) {
        Some(kind) => is_kind_held(parts, taken, asked, &kind, at),
        None => false,
    }
}

/// Whether the field at an address of a relocation of object `number` holds what its kind asks for.
pub fn is_field_held<'a>(
    parts: &LinkParts<'_, '_, 'a>,
    taken: &Taken<'_>,
    number: u64,
    loaded: &Loaded<'a>,
    relocation: &KeptRelocation,
    thread_pointer: u64,
    at: u128,
) -> bool
    requires { thread_pointer ≡ pointer_of parts.now.image % 2 ^ 64 }
    ensures { IsTrue result ↔ IsFieldHeld parts.now taken.now
        (relocation_at number (loaded_view loaded.now) relocation.now) at }
{
    let asked = asked_of(parts, number, loaded, relocation, thread_pointer);
    is_held_at(parts, taken, asked, relocation.entry.kind(), at)
}

/// Whether the symbol of a relocation of object `number` means nothing that the image has.
pub fn means_nothing<'a>(
    parts: &LinkParts<'_, '_, 'a>,
    number: u64,
    loaded: &Loaded<'a>,
    relocation: &KeptRelocation,
    thread_pointer: u64,
) -> bool
    requires { thread_pointer ≡ pointer_of parts.now.image % 2 ^ 64 }
    ensures { IsTrue result ↔ ((given parts.now
        (relocation_at number (loaded_view loaded.now) relocation.now)).value ≡ None) }
{
    let asked = asked_of(parts, number, loaded, relocation, thread_pointer);
    match asked.value {
        Some(_) => false,
        None => true,
    }
}
