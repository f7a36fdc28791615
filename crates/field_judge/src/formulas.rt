//! What a formula's value is modulo 2^64.
ghost use Rattle.std.specs.Prelude.{◌≡◌, ◌%◌, ◌^◌, ◌+ℤ◌, ◌-ℤ◌, ℕ, pos};
ghost use Rattle.elf_model.specs.Link.Relocation.{modulo_64};
ghost use Rattle.judge_model.specs.Fields.{Letters, whole_value};
ghost use Rattle.field_judge.specs.Kinds.{formula_view};
ghost use Rattle.field_judge.specs.Letters.{AreTerms, base_in, less_in};

use crate::kinds::Formula;

/// The terms of a value but for the slot's address: the symbol's value, the addend, the field's address, the GOT's address, the
/// symbol's size and the thread pointer. All but the addend are modulo 2^64.
#[derive(Clone, Copy, Debug)]
pub struct Terms {
    pub symbol: u64,
    pub addend: i64,
    pub place: u64,
    pub got: u64,
    pub size: u64,
    pub thread_pointer: u64,
}

/// A sum with an addend, less a number, modulo 2^64.
pub fn shifted(base: u64, addend: i64, less: u64) -> u64
    ensures { (b l : ℕ) → base ≡ b % 2 ^ 64 → less ≡ l % 2 ^ 64
        → result ≡ modulo_64 ((pos b +ℤ addend) -ℤ pos l) }
{
    base.wrapping_add(addend.cast_unsigned()).wrapping_sub(less)
}

/// What a formula adds the addend to, modulo 2^64, with a slot at an address.
fn base_of(formula: Formula, terms: Terms, slot: u64) -> u64
    ensures { (x : Letters) (pointer : ℕ) → AreTerms terms x pointer → x.slot ≡ slot
        → result ≡ base_in formula x % 2 ^ 64 }
{
    match formula {
        Formula::Symbol
        | Formula::SymbolFromPlace
        | Formula::SymbolFromGot
        | Formula::ThreadOffset => terms.symbol,
        Formula::Slot | Formula::SlotFromPlace | Formula::ThreadSlotFromPlace => slot,
        Formula::GotFromPlace => terms.got,
        Formula::Size => terms.size,
    }
}

/// What a formula takes away, modulo 2^64: the field's address, the GOT's, the thread pointer, or 0.
pub fn less_of(formula: Formula, terms: Terms) -> u64
    ensures { (x : Letters) (pointer : ℕ) → AreTerms terms x pointer
        → result ≡ less_in formula x pointer % 2 ^ 64 }
{
    match formula {
        Formula::SymbolFromPlace
        | Formula::SlotFromPlace
        | Formula::GotFromPlace
        | Formula::ThreadSlotFromPlace => terms.place,
        Formula::SymbolFromGot | Formula::Slot => terms.got,
        Formula::ThreadOffset => terms.thread_pointer,
        Formula::Symbol | Formula::Size => 0,
    }
}

/// The value of a formula modulo 2^64, with a slot at an address.
pub fn value_of(formula: Formula, terms: Terms, slot: u64) -> u64
    ensures { (x : Letters) (pointer : ℕ) → AreTerms terms x pointer → x.slot ≡ slot
        → result ≡ modulo_64 (whole_value (formula_view formula) x) }
{
    shifted(
        base_of(formula, terms, slot),
        terms.addend,
        less_of(formula, terms),
    )
}
