//! Whether one relocation is lawful and its value fits, and its field.
ghost use Rattle.std.specs.Prelude.{◌≡◌, ◌-◌, ◌↔◌, ℕ, IsTrue, Some, SomeIff};
ghost use Rattle.elf_model.specs.Link.Placement.{got_start};
ghost use Rattle.elf_model.specs.Link.Relocation.{IsMismatch, relocation_kind, relocation_of};
ghost use Rattle.elf_model.specs.Link.Slots.{slot_address};
ghost use Rattle.check_load.specs.Views.{loaded_view};
ghost use Rattle.check_relocs.specs.KnownSlots.{AreSymbolsKnown};
ghost use Rattle.check_relocs.specs.Fields.{IsRight, field_of};
ghost use Rattle.check_relocs.specs.LawfulFields.{IsRelocated, IsRightWith, field_with, refers_to_dropped};
ghost use Rattle.check_relocs.specs.Kinds.{formula_view, kind_view};
ghost use Rattle.check_relocs.specs.Referrers.{objects_here, relocation_here};
ghost use Rattle.check_link.specs.ThreadStorage.{thread_pointer};
ghost use Rattle.check_relocs.specs.Widths.{IsWidth};

use crate::bindings::Bindings;
use crate::entry_requests::request_of;
use crate::fields::Field;
use crate::kinds::{Formula, Kind, kind_of};
use crate::known_symbols::KnownSymbols;
use crate::known_targets::own_target_at;
use crate::referrer::Referrer;
use crate::slots::slot_at;
use crate::targets::Target;
use crate::values::{Terms, fits, value_of};
use check_load::{KeptRelocation, Loaded};
use elf_model::Rela;

/// What entries relocate: a section's number, its size in bytes, its address, and whether it is `.eh_frame`.
#[derive(Clone, Copy, Debug)]
pub struct Relocated {
    pub section: u32,
    pub size: u64,
    pub address: u64,
    pub frames: bool,
}

/// What the GOT and the block of thread-local storage give a value: the offset in the GOT of an entry's slot, 0 where it
/// asks for none, the GOT's address, 0 without one, and the thread pointer, modulo 2^64.
#[derive(Clone, Copy, Debug)]
pub struct LinkTerms {
    pub slot: u64,
    pub got: u64,
    pub thread_pointer: u64,
}

/// Whether a formula doesn't suit a symbol that stands in thread-local storage, or one that doesn't.
pub fn is_mismatch(formula: Formula, thread_local: bool) -> bool
    ensures { IsTrue result ↔ IsMismatch (formula_view formula) thread_local }
{
    match formula {
        Formula::ThreadOffset | Formula::ThreadSlotFromPlace => !thread_local,
        Formula::Size => false,
        Formula::Symbol
        | Formula::SymbolFromPlace
        | Formula::SymbolFromGot
        | Formula::Slot
        | Formula::SlotFromPlace
        | Formula::GotFromPlace => thread_local,
    }
}

/// Whether entries refer to what isn't kept: they name a LOCAL symbol of a section that isn't, and aren't those of
/// `.eh_frame`, which may name one of a dropped section.
pub fn refers_to_dropped(target: &Target, to: &Relocated) -> bool
    ensures { result ≡ refers_to_dropped target.now to.now }
{
    if to.frames && target.dropped {
        return false;
    }
    target.unkept
}

/// The field of an entry of a kind; None where it isn't lawful, and where its value doesn't fit.
fn field_with(
    kind: &Kind,
    target: &Target,
    to: &Relocated,
    given: &LinkTerms,
    entry: &Rela,
) -> Option<Field>
    requires { IsWidth kind.now.width }
    ensures { SomeIff result
        (IsRightWith (Some (kind_view kind.now)) target.now to.now given.now entry.now)
        (field_with (Some (kind_view kind.now)) target.now to.now given.now entry.now) }
{
    if target.undefined || target.mixed || refers_to_dropped(target, to) {
        return None;
    }
    if is_mismatch(kind.formula, target.thread_local) {
        return None;
    }
    let at = entry.r_offset;
    if at > to.size || kind.width as u64 > to.size - at {
        return None;
    }
    let terms = Terms {
        symbol: target.value,
        place: to.address.wrapping_add(at),
        slot: given.slot,
        got: given.got,
        size: target.size,
        thread_pointer: given.thread_pointer,
    };
    let value = value_of(kind.formula, entry.r_addend, terms);
    if !fits(kind.range, kind.width as u64, value) {
        return None;
    }
    Some(Field {
        section: to.section,
        at,
        width: kind.width,
        value,
    })
}

/// The address of the slot for which an entry asks, 0 where it asks for none and where there is none.
fn slot_address<'a>(
    bindings: &Bindings<'_, '_, 'a>,
    number: u64,
    loaded: &Loaded<'a>,
    entry: &Rela,
) -> u64
    ensures { (section : ℕ) →
        result ≡ slot_address bindings.now.places.slots
        (relocation_of number (loaded_view loaded.now) section entry.now) }
{
    match request_of(loaded, number, entry) {
        Some(request) => bindings.slots().address(&request),
        None => 0,
    }
}

/// What the GOT and the block of thread-local storage give a value, for a slot at an address, 0 for none.
fn terms_with_slot(bindings: &Bindings<'_, '_, '_>, address: u64) -> LinkTerms
    ensures slot { result.slot ≡ address - got_start bindings.now.places.got }
    ensures got { result.got ≡ got_start bindings.now.places.got }
    ensures pointer { result.thread_pointer ≡ thread_pointer bindings.now.places.placed }
{
    let got = bindings.got_start();
    LinkTerms {
        slot: address.saturating_sub(got),
        got,
        thread_pointer: bindings.thread_pointer(),
    }
}

/// What the GOT and the block of thread-local storage give the value of an entry.
pub fn link_terms<'a>(
    bindings: &Bindings<'_, '_, 'a>,
    number: u64,
    loaded: &Loaded<'a>,
    entry: &Rela,
) -> LinkTerms
    ensures slot { (section : ℕ) →
        result.slot ≡ slot_address bindings.now.places.slots
        (relocation_of number
        (loaded_view loaded.now) section entry.now) - got_start bindings.now.places.got }
    ensures got { result.got ≡ got_start bindings.now.places.got }
    ensures pointer { result.thread_pointer ≡ thread_pointer bindings.now.places.placed }
{
    let address = slot_address(bindings, number, loaded, entry);
    terms_with_slot(bindings, address)
}

/// The field of a relocation of a kind, given what it relocates; None where it isn't lawful, and where its value doesn't fit.
fn right_field_of<'a>(
    here: &Referrer<'_, '_, '_, 'a>,
    known: &mut KnownSymbols,
    to: &Relocated,
    relocation: &KeptRelocation,
    kind: &Kind,
) -> Option<Field>
    requires known { AreSymbolsKnown here.now known.old }
    requires to { IsRelocated here.now to.now }
    requires section { to.now.section ≡ relocation.now.section }
    requires kind { relocation_kind (relocation_here here.now relocation.now)
        ≡ Some (kind_view kind.now) }
    requires width { IsWidth kind.now.width }
    ensures kept { AreSymbolsKnown here.now known.new }
    ensures field { SomeIff result
        (IsRight (objects_here here.now) here.now.bindings.now.places
        (relocation_here here.now relocation.now))
        (field_of (objects_here here.now) here.now.bindings.now.places
        (relocation_here here.now relocation.now)) }
{
    let j = relocation.entry.symbol() as usize;
    let target = own_target_at(here, &mut known.targets, j);
    let address = slot_at(here, &mut known.slots, relocation, kind);
    let given = terms_with_slot(here.bindings, address);
    field_with(kind, &target, to, &given, &relocation.entry)
}

/// The field of a relocation, given what it relocates; None where it isn't lawful, and where its value doesn't fit.
pub fn right_field<'a>(
    here: &Referrer<'_, '_, '_, 'a>,
    known: &mut KnownSymbols,
    to: &Relocated,
    relocation: &KeptRelocation,
) -> Option<Field>
    requires known { AreSymbolsKnown here.now known.old }
    requires to { IsRelocated here.now to.now }
    requires section { to.now.section ≡ relocation.now.section }
    ensures kept { AreSymbolsKnown here.now known.new }
    ensures field { SomeIff result
        (IsRight (objects_here here.now) here.now.bindings.now.places
        (relocation_here here.now relocation.now))
        (field_of (objects_here here.now) here.now.bindings.now.places
        (relocation_here here.now relocation.now)) }
{
    match kind_of(relocation.entry.kind()) {
        Some(kind) => right_field_of(here, known, to, relocation, &kind),
        None => None,
    }
}
