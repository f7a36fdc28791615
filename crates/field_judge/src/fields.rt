//! One field, given what its relocation's symbol means.
ghost use Rattle.std.specs.Prelude.{◌≡◌, ◌≢◌, ◌↔◌, ◌%◌, ◌<◌, ◌^◌, ℕ, List, IsTrue, None, Some, is_some, true};
ghost use Rattle.elf_model.specs.Link.Relocation.{IsMismatch};
ghost use Rattle.elf_model.specs.Link.Slots as slots;
ghost use Rattle.judge_model.specs.Fields as fields;
ghost use Rattle.field_judge.specs.Given.{AsksSlotAt, Given, HasSlotIn, HoldsPlainIn, HoldsValueIn, IsGiven, IsRightIn, letters_in, pointer_of, slot_value};
ghost use Rattle.field_judge.specs.Kinds.{IsWidth, TellsSlots, formula_view, kind_view};
ghost use Rattle.field_judge.specs.Letters.{AreTerms};

use crate::formulas::{Terms, less_of, shifted, value_of};
use crate::kinds::{Formula, Kind};
use crate::ranges::fits;
use elf_model::SlotKind;
use foreign_image::ForeignImage;
use memory_judge::{Taken, holds_number, is_slot, number_at, shown, slot_address};

/// What a field asks: the value of its relocation's symbol modulo 2^64, where it has one, the addend, the address of the section, 0
/// where it has none, the field's place in it, the symbol's size, the GOT's address, whether the symbol is in thread-local storage, and
/// the thread pointer modulo 2^64.
#[derive(Clone, Copy, Debug)]
pub struct Asked {
    pub value: Option<u64>,
    pub addend: i64,
    pub at: u64,
    pub offset: u64,
    pub size: u64,
    pub got: Option<u64>,
    pub thread: bool,
    pub thread_pointer: u64,
}

/// Whether a formula needs the GOT's address.
fn needs_got(formula: Formula) -> bool
    ensures { result ≡ fields.needs_got (formula_view formula) }
{
    match formula {
        Formula::SymbolFromGot | Formula::Slot | Formula::GotFromPlace => true,
        Formula::Symbol
        | Formula::SymbolFromPlace
        | Formula::SlotFromPlace
        | Formula::Size
        | Formula::ThreadOffset
        | Formula::ThreadSlotFromPlace => false,
    }
}

/// Whether the GOT has an address where a formula needs it.
fn has_got(formula: Formula, got: Option<u64>) -> bool
    ensures { IsTrue result ↔ (fields.needs_got (formula_view formula) ≡ true → is_some got ≡ true) }
{
    if !needs_got(formula) {
        return true;
    }
    got.is_some()
}

/// Whether a formula doesn't suit a symbol that is in thread-local storage, or one that isn't.
fn is_mismatch(formula: Formula, thread: bool) -> bool
    ensures { IsTrue result ↔ IsMismatch (formula_view formula) thread }
{
    match formula {
        Formula::ThreadOffset | Formula::ThreadSlotFromPlace => !thread,
        Formula::Size => false,
        Formula::Symbol
        | Formula::SymbolFromPlace
        | Formula::SymbolFromGot
        | Formula::Slot
        | Formula::SlotFromPlace
        | Formula::GotFromPlace => thread,
    }
}

/// What the slot of a formula holds; None of one without.
pub fn slot_kind_of(formula: Formula) -> Option<SlotKind>
    ensures { result ≡ slots.slot_kind_of (formula_view formula) }
{
    match formula {
        Formula::Slot | Formula::SlotFromPlace => Some(SlotKind::Value),
        Formula::ThreadSlotFromPlace => Some(SlotKind::Thread),
        Formula::Symbol
        | Formula::SymbolFromPlace
        | Formula::SymbolFromGot
        | Formula::GotFromPlace
        | Formula::Size
        | Formula::ThreadOffset => None,
    }
}

/// The terms of a field's value.
fn terms_of(asked: Asked, value: u64) -> Terms
    ensures { (image : List ℕ) (g : Given) (v at : ℕ) → IsGiven image asked g → value ≡ v % 2 ^ 64
        → AreTerms result (letters_in image g v at) (pointer_of image) }
{
    Terms {
        symbol: value,
        addend: asked.addend,
        place: asked.at.wrapping_add(asked.offset),
        got: asked.got.unwrap_or(0),
        size: asked.size,
        thread_pointer: asked.thread_pointer,
    }
}

/// Whether a field holds its formula's value for a symbol's value, with a slot at an address, and this fits.
fn holds_value(image: &ForeignImage<'_>, asked: &Asked, kind: &Kind, value: u64, slot: u64) -> bool
    requires { IsWidth kind.now.width }
    ensures { (g : Given) (v : ℕ) → IsGiven image.now asked.now g → value ≡ v % 2 ^ 64
        → IsTrue result ↔ HoldsValueIn image.now g (kind_view kind.now) v slot }
{
    let wanted = value_of(kind.formula, terms_of(*asked, value), slot);
    if !fits(kind.range, kind.width as u64, wanted) {
        return false;
    }
    holds_number(image, asked.at, asked.offset, kind.width, wanted)
}

/// The one address at which a field can have its slot, as its bytes tell; None where it has none.
fn slot_of(image: &ForeignImage<'_>, asked: Asked, kind: &Kind) -> Option<u64>
    requires width { IsWidth kind.now.width }
    requires tells { TellsSlots (kind_view kind.now) }
    requires slot { slots.slot_kind_of (formula_view kind.now.formula) ≢ None }
    ensures { (g : Given) (v at : ℕ) → IsGiven image.now asked g → at < 2 ^ 64
        → HoldsValueIn image.now g (kind_view kind.now) v at → result ≡ Some at }
{
    match number_at(image, asked.at, asked.offset, kind.width) {
        Some(number) => {
            let less = less_of(kind.formula, terms_of(asked, 0));
            Some(slot_address(shown(kind.width, number), asked.addend, less))
        }
        None => None,
    }
}

/// What a slot holds for a symbol's value.
fn slot_value(kind: SlotKind, value: u64, thread_pointer: u64) -> u64
    ensures { (image : List ℕ) (v : ℕ) → value ≡ v % 2 ^ 64 → thread_pointer ≡ pointer_of image % 2 ^ 64
        → result ≡ slot_value image kind v }
{
    match kind {
        SlotKind::Value => value,
        SlotKind::Thread => shifted(value, 0, thread_pointer),
    }
}

/// Whether a field has a slot that is right for a symbol's value, among things that take up memory.
fn has_slot(
    image: &ForeignImage<'_>,
    taken: &Taken<'_>,
    asked: &Asked,
    kind: &Kind,
    slot_kind: SlotKind,
    value: u64,
) -> bool
    requires width { IsWidth kind.now.width }
    requires tells { TellsSlots (kind_view kind.now) }
    requires slot { slots.slot_kind_of (formula_view kind.now.formula) ≡ Some slot_kind }
    ensures { (g : Given) (v : ℕ) → IsGiven image.now asked.now g → g.value ≡ Some v → value ≡ v % 2 ^ 64
        → IsTrue result ↔ ((at : ℕ) × HasSlotIn image.now taken.now g (kind_view kind.now) slot_kind at) }
{
    let _program = image.image();
    match slot_of(image, *asked, kind) {
        Some(at) => {
            holds_value(image, asked, kind, value, at)
                && is_slot(
                    image,
                    taken,
                    at,
                    slot_value(slot_kind, value, asked.thread_pointer),
                )
        }
        None => false,
    }
}

/// The address of a field's slot, where it has one that is right for a symbol's value, among things that take up memory.
fn right_slot(
    image: &ForeignImage<'_>,
    taken: &Taken<'_>,
    asked: &Asked,
    kind: &Kind,
    slot_kind: SlotKind,
    value: u64,
) -> Option<u64>
    requires width { IsWidth kind.now.width }
    requires tells { TellsSlots (kind_view kind.now) }
    requires slot { slots.slot_kind_of (formula_view kind.now.formula) ≡ Some slot_kind }
    ensures { (g : Given) (v at : ℕ) → IsGiven image.now asked.now g → g.value ≡ Some v → value ≡ v % 2 ^ 64
        → (result ≡ Some at) ↔ HasSlotIn image.now taken.now g (kind_view kind.now) slot_kind at }
{
    let _program = image.image();
    if has_slot(image, taken, asked, kind, slot_kind, value) {
        slot_of(image, *asked, kind)
    } else {
        None
    }
}

/// The address of the slot of a field of a kind; None where it has none that is right, among things that take up memory.
pub fn asked_slot(
    image: &ForeignImage<'_>,
    taken: &Taken<'_>,
    asked: &Asked,
    kind: &Kind,
) -> Option<u64>
    requires width { IsWidth kind.now.width }
    requires tells { TellsSlots (kind_view kind.now) }
    ensures { (g : Given) (at : ℕ) → IsGiven image.now asked.now g
        → (result ≡ Some at) ↔ AsksSlotAt image.now taken.now g (kind_view kind.now) at }
{
    match slot_kind_of(kind.formula) {
        Some(slot_kind) => match asked.value {
            Some(value) => right_slot(image, taken, asked, kind, slot_kind, value),
            None => None,
        },
        None => None,
    }
}

/// Whether a field holds what its formula says for a symbol's value, among things that take up memory.
fn holds_plain(
    image: &ForeignImage<'_>,
    taken: &Taken<'_>,
    asked: &Asked,
    kind: &Kind,
    value: u64,
) -> bool
    requires width { IsWidth kind.now.width }
    requires tells { TellsSlots (kind_view kind.now) }
    ensures { (g : Given) (v : ℕ) → IsGiven image.now asked.now g → g.value ≡ Some v → value ≡ v % 2 ^ 64
        → IsTrue result ↔ HoldsPlainIn image.now taken.now g (kind_view kind.now)
        (slots.slot_kind_of (formula_view kind.now.formula)) }
{
    match slot_kind_of(kind.formula) {
        Some(slot_kind) => has_slot(image, taken, asked, kind, slot_kind, value),
        None => holds_value(image, asked, kind, value, 0),
    }
}

/// Whether a field of a kind is right, among things that take up memory.
pub fn is_right(image: &ForeignImage<'_>, taken: &Taken<'_>, asked: &Asked, kind: &Kind) -> bool
    requires width { IsWidth kind.now.width }
    requires tells { TellsSlots (kind_view kind.now) }
    ensures { (g : Given) → IsGiven image.now asked.now g
        → IsTrue result ↔ IsRightIn image.now taken.now g (kind_view kind.now) }
{
    if is_mismatch(kind.formula, asked.thread) {
        return false;
    }
    if !has_got(kind.formula, asked.got) {
        return false;
    }
    match asked.value {
        Some(value) => holds_plain(image, taken, asked, kind, value),
        None => false,
    }
}
