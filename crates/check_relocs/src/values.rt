//! What the value of a relocation is modulo 2^64, and whether it fits its field.
ghost use Rattle.std.specs.Prelude.{◌≡◌, ◌↔◌, ◌*◌, ◌+◌, ◌-◌, ◌%◌, ◌≤◌, ◌<◌, ◌^◌, ◌⊎◌, ◌+ℤ◌, ◌-ℤ◌, ℕ, ℤ, IsTrue, pos};
ghost use Rattle.elf_model.specs.Link.Relocation.{IsInRange, IsSigned, modulo_64, whole_value};
ghost use Rattle.check_relocs.specs.Kinds.{base_in, formula_view, less_in, range_view, terms_view};
ghost use Rattle.check_relocs.specs.Widths.{IsWidth};

use crate::kinds::{Formula, Range};

/// The terms of a value but for the addend: the symbol's value, the field's address, the slot's offset in the GOT, the GOT's
/// address, the symbol's size and the thread pointer, each 0 where there is none. All are modulo 2^64.
#[derive(Clone, Copy, Debug)]
pub struct Terms {
    pub symbol: u64,
    pub place: u64,
    pub slot: u64,
    pub got: u64,
    pub size: u64,
    pub thread_pointer: u64,
}

/// What a formula adds the addend to, modulo 2^64.
fn base_of(formula: Formula, terms: Terms) -> u64
    ensures { result ≡ base_in formula terms % 2 ^ 64 }
{
    match formula {
        Formula::Symbol
        | Formula::SymbolFromPlace
        | Formula::SymbolFromGot
        | Formula::ThreadOffset => terms.symbol,
        Formula::Slot => terms.slot,
        Formula::SlotFromPlace | Formula::ThreadSlotFromPlace => {
            terms.slot.wrapping_add(terms.got)
        }
        Formula::GotFromPlace => terms.got,
        Formula::Size => terms.size,
    }
}

/// What a formula takes away, modulo 2^64: the field's address, the GOT's, the thread pointer, or 0.
fn less_of(formula: Formula, terms: Terms) -> u64
    ensures { result ≡ less_in formula terms % 2 ^ 64 }
{
    match formula {
        Formula::SymbolFromPlace
        | Formula::SlotFromPlace
        | Formula::GotFromPlace
        | Formula::ThreadSlotFromPlace => terms.place,
        Formula::SymbolFromGot => terms.got,
        Formula::ThreadOffset => terms.thread_pointer,
        Formula::Symbol | Formula::Slot | Formula::Size => 0,
    }
}

/// A sum with an addend, less a number, modulo 2^64.
#[inline(always)]
fn shifted(base: u64, addend: i64, less: u64) -> u64
    ensures { (b l : ℕ) → base ≡ b % 2 ^ 64 → less ≡ l % 2 ^ 64
        → result ≡ modulo_64 ((pos b +ℤ addend) -ℤ pos l) }
{
    base.wrapping_add(addend.cast_unsigned()).wrapping_sub(less)
}

/// A value modulo 2^64, of an addend and the other terms.
#[inline(always)]
pub fn value_of(formula: Formula, addend: i64, terms: Terms) -> u64
    ensures { result ≡ modulo_64 (whole_value (formula_view formula) (terms_view terms addend)) }
{
    shifted(base_of(formula, terms), addend, less_of(formula, terms))
}

/// The least number that is negative in a field of a width.
fn half_of(width: u64) -> u64
    requires { IsWidth width }
    ensures some { 0 < result }
    ensures half { result ≡ 2 ^ (8 * width - 1) }
    ensures whole { result + result ≡ 2 ^ (8 * width) }
{
    match width {
        1 => 0x80,
        2 => 0x8000,
        4 => 0x8000_0000,
        _ => 0x8000_0000_0000_0000,
    }
}

/// Whether a value of 64 bits is a signed number below a half.
fn is_signed(half: u64, value: u64) -> bool
    ensures { IsTrue result ↔ ((value < half) ⊎ (2 ^ 64 - half ≤ value)) }
{
    value < half || value > u64::MAX - half
}

/// Whether a value is below twice a half.
fn is_unsigned(half: u64, value: u64) -> bool
    requires { 0 < half }
    ensures { IsTrue result ↔ (value < half + half) }
{
    value < half || value - half < half
}

/// Whether a value of 64 bits fits a field of a width.
#[inline(always)]
pub fn fits(range: Range, width: u64, value: u64) -> bool
    requires { IsWidth width }
    ensures { IsTrue result ↔ IsInRange (range_view range) (8 * width) value }
{
    let half = half_of(width);
    match range {
        Range::Always => true,
        Range::Signed => is_signed(half, value),
        Range::Unsigned => is_unsigned(half, value),
        Range::Either => is_unsigned(half, value) || is_signed(half, value),
    }
}
