//! The values of relocations by their kinds, and which of them fit (AMD64 psABI 4.4, "Relocation Types"; the ranges of all
//! kinds but 32 and 32S are the profile's).
ghost use Rattle.std.specs.Prelude.{◌≡◌, ◌↔◌, ◌+◌, ◌-◌, ◌*◌, ◌%◌, ◌<◌, ◌^◌, ◌-ℤ◌, ◌+ℤ◌, ℕ, ℤ, IsTrue, pos};
ghost use Rattle.elf_model.specs.Link.Relocation as relocation;
ghost use Rattle.reloc_values.specs.Kinds.{formula_view, range_view};
ghost use Rattle.reloc_values.specs.Terms.{Reduces};

use crate::kinds::{Formula, Kind, Range};

/// What the letters of the formulas stand for (AMD64 psABI 4.4), modulo 2 to the 64 but for the addend. Where
/// there is no GOT its letters stand for 0, and where there is no thread-local storage the thread pointer is 0.
#[derive(Clone, Copy, Debug)]
pub struct Terms {
    /// S: the value of the symbol.
    pub symbol: u64,
    /// A: the addend.
    pub addend: i64,
    /// P: the address of the field's first byte.
    pub place: u64,
    /// G: the slot's offset from the beginning of the GOT.
    pub slot: u64,
    /// GOT: the address of the GOT.
    pub got: u64,
    /// Z: the size of the symbol.
    pub size: u64,
    /// The offset of S from the thread pointer (`ELF Handling For Thread-Local Storage`, variant II).
    pub thread: u64,
}

/// The value of a relocation of a kind, modulo 2 to the 64, from what whole terms leave modulo 2 to the 64.
pub fn value(kind: Kind, terms: Terms) -> u64
    ensures { (x : relocation.Terms) →
        Reduces terms x
        → result ≡ relocation.modulo_64 (relocation.whole_value (formula_view kind.formula) x) }
{
    match kind.formula {
        Formula::Symbol => sum(terms.symbol, terms.addend),
        Formula::SymbolFromPlace => difference(terms.symbol, terms.addend, terms.place),
        Formula::SymbolFromGot => difference(terms.symbol, terms.addend, terms.got),
        Formula::Slot => sum(terms.slot, terms.addend),
        Formula::SlotFromPlace => slot_difference(terms),
        Formula::GotFromPlace => difference(terms.got, terms.addend, terms.place),
        Formula::Size => sum(terms.size, terms.addend),
        Formula::ThreadOffset => thread_sum(terms.thread, terms.addend),
        Formula::ThreadSlotFromPlace => slot_difference(terms),
    }
}

/// G + GOT + A - P
fn slot_difference(terms: Terms) -> u64
    ensures { (x : relocation.Terms) →
        Reduces terms x → result ≡ relocation.modulo_64 ((pos (x.g + x.got) +ℤ x.a) -ℤ pos x.p) }
{
    difference(
        terms.slot.wrapping_add(terms.got),
        terms.addend,
        terms.place,
    )
}

fn thread_sum(offset: u64, addend: i64) -> u64
    ensures { (t : ℤ) → offset ≡ relocation.modulo_64 t
        → result ≡ relocation.modulo_64 (t +ℤ addend) }
{
    sum(offset, addend)
}

fn sum(n: u64, addend: i64) -> u64
    ensures { (m : ℕ) → n ≡ m % 2 ^ 64 → result ≡ relocation.modulo_64 (pos m +ℤ addend) }
{
    n.wrapping_add(addend.cast_unsigned())
}

fn difference(n: u64, addend: i64, place: u64) -> u64
    ensures { (m p : ℕ) → n ≡ m % 2 ^ 64 → place ≡ p % 2 ^ 64
        → result ≡ relocation.modulo_64 ((pos m +ℤ addend) -ℤ pos p) }
{
    n.wrapping_add(addend.cast_unsigned()).wrapping_sub(place)
}

/// Whether a kind isn't for what its symbol is: a thread offset is asked of what stands in thread-local
/// storage alone, a size of anything, every other value of what stands outside.
pub fn is_mismatch(formula: Formula, inside: bool) -> bool
    ensures { IsTrue result ↔ relocation.IsMismatch (formula_view formula) inside }
{
    match formula {
        Formula::ThreadOffset => !inside,
        Formula::ThreadSlotFromPlace => !inside,
        Formula::Size => false,
        _ => inside,
    }
}

/// Whether a value of 64 bits fits the field of a kind.
pub fn fits(kind: Kind, value: u64) -> bool
    ensures { IsTrue result ↔ relocation.IsInRange (range_view kind.range) (8 * kind.width) value }
{
    let bits = 8 * kind.width as u32;
    match kind.range {
        Range::Always => true,
        Range::Signed => is_signed(bits, value),
        Range::Unsigned => is_unsigned(bits, value),
        Range::Either => is_unsigned(bits, value) || is_signed(bits, value),
    }
}

/// Whether a value of 64 bits is a signed number of so many bits.
fn is_signed(bits: u32, value: u64) -> bool
    ensures { IsTrue result ↔ relocation.IsSigned bits value }
{
    if bits > 64 {
        return true;
    }
    let half = 1u64 << bits.saturating_sub(1);
    value < half || value >= half.wrapping_neg()
}

/// Whether a value of 64 bits is an unsigned number of so many bits.
fn is_unsigned(bits: u32, value: u64) -> bool
    ensures { IsTrue result ↔ (value < 2 ^ bits) }
{
    if bits >= 64 {
        return true;
    }
    value < 1u64 << bits
}
