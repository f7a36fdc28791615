//! Whether a value of 64 bits fits its field.
ghost use Rattle.std.specs.Prelude.{◌≡◌, ◌↔◌, ◌*◌, ◌+◌, ◌-◌, ◌≤◌, ◌<◌, ◌^◌, ◌⊎◌, IsTrue};
ghost use Rattle.elf_model.specs.Link.Relocation.{IsInRange};
ghost use Rattle.field_judge.specs.Kinds.{IsWidth, range_view};

use crate::kinds::Range;

/// The least number that is negative in a field of a width.
fn half_of(width: u64) -> u64
    requires { IsWidth width }
    ensures some { 0 < result }
    ensures half { result ≡ 2 ^ (8 * width - 1) }
    ensures whole { result + result ≡ 2 ^ (8 * width) }
{
    match width {
        1 => 0x80,
        2 => 0x8000,
        4 => 0x8000_0000,
        _ => 0x8000_0000_0000_0000,
    }
}

/// Whether a value of 64 bits is a signed number below a half.
fn is_signed(half: u64, value: u64) -> bool
    ensures { IsTrue result ↔ ((value < half) ⊎ (2 ^ 64 - half ≤ value)) }
{
    value < half || value > u64::MAX - half
}

/// Whether a value is below twice a half.
fn is_unsigned(half: u64, value: u64) -> bool
    requires { 0 < half }
    ensures { IsTrue result ↔ (value < half + half) }
{
    value < half || value - half < half
}

/// Whether a value of 64 bits fits a field of a width in bytes.
pub fn fits(range: Range, width: u64, value: u64) -> bool
    requires { IsWidth width }
    ensures { IsTrue result ↔ IsInRange (range_view range) (8 * width) value }
{
    let half = half_of(width);
    match range {
        Range::Always => true,
        Range::Signed => is_signed(half, value),
        Range::Unsigned => is_unsigned(half, value),
        Range::Either => is_unsigned(half, value) || is_signed(half, value),
    }
}
