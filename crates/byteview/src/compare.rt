//! Runs of bytes compared with others, or with one byte: vector by vector, and what is left of them as it is.
ghost use Rattle.std.specs.Prelude.{◌≡◌, ◌↔◌, ℕ, ◌<◌, IsTrue, length, slice_index};
ghost use Rattle.byteview.specs.Runs.{IsAll};

use std::simd::prelude::*;

/// Whether the two runs have the same length and the same bytes.
pub fn equal_run(a: &[u8], b: &[u8]) -> bool
    ensures { IsTrue result ↔ (a.now ≡ b.now) }
{
    if a.len() != b.len() {
        return false;
    }
    let mut a_rest = a;
    let mut b_rest = b;
    'vectors: while a_rest.len() >= 32 {
        if !agree(u8x32::from_slice(a_rest), u8x32::from_slice(b_rest)) {
            return false;
        }
        (_, a_rest) = a_rest.split_at(32);
        (_, b_rest) = b_rest.split_at(32);
    }
    a_rest == b_rest
}

/// Whether every byte of the run is `x`, which holds of an empty one.
pub fn all_byte(a: &[u8], x: u8) -> bool
    ensures { IsTrue result ↔ ((k : ℕ) → k < length a.now → slice_index a.now k ≡ x) }
{
    let mut rest = a;
    'vectors: while rest.len() >= 16 {
        if !is_all(u8x16::from_slice(rest), x) {
            return false;
        }
        (_, rest) = rest.split_at(16);
    }
    rest.iter().all(|byte| *byte == x)
}

/// Whether two vectors have the same lanes.
fn agree(a: u8x32, b: u8x32) -> bool
    ensures { IsTrue result ↔ (a ≡ b) }
{
    a.simd_ne(b).to_bitmask() == 0
}

/// Whether each lane of a vector is `x`.
fn is_all(a: u8x16, x: u8) -> bool
    ensures { IsTrue result ↔ IsAll x a }
{
    a.simd_ne(u8x16::splat(x)).to_bitmask() == 0
}
