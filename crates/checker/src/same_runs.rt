//! Words of bytes compared in one go, where a run has them.
ghost use Rattle.std.specs.Prelude.{◌≡◌, ◌+◌, ◌<◌, ◌↔◌, ℕ, IsTrue, slice_index};
ghost use Rattle.byteview.specs.Numbers.{IsInside, le_bytes, part};
ghost use Rattle.byteview.proofs.NumberLaws.{AreBytes};

use byteview::View;

/// What a run has are bytes.
fn are_bytes(bytes: &[u8])
    ensures { AreBytes bytes.now }
{}

/// Whether four bytes of a run are the first four of another one.
fn has_word(held: &[u8], at: usize, spelled: &[u8]) -> bool
    requires held { IsInside held.now at 4 }
    requires spelled { IsInside spelled.now 0 4 }
    ensures { IsTrue result ↔ (part held.now at 4 ≡ part spelled.now 0 4) }
{
    are_bytes(held);
    are_bytes(spelled);
    View::new(held).u32_inside(at) == View::new(spelled).u32_inside(0)
}

/// Whether a run has the four bytes of a value at a place inside it, the least significant first.
pub fn has_word_value(held: &[u8], at: usize, value: u64) -> bool
    requires { IsInside held.now at 4 }
    ensures { IsTrue result ↔ ((j : ℕ) →
        j < 4 → slice_index held.now (at + j) ≡ slice_index (le_bytes 4 value) j) }
{
    let spelled = value.to_le_bytes();
    has_word(held, at, &spelled)
}

/// Whether eight bytes of a run are the first eight of another one.
fn has_long(held: &[u8], at: usize, spelled: &[u8]) -> bool
    requires held { IsInside held.now at 8 }
    requires spelled { IsInside spelled.now 0 8 }
    ensures { IsTrue result ↔ (part held.now at 8 ≡ part spelled.now 0 8) }
{
    are_bytes(held);
    are_bytes(spelled);
    View::new(held).u64_inside(at) == View::new(spelled).u64_inside(0)
}

/// Whether a run has the eight bytes of a value at a place inside it, the least significant first.
pub fn has_long_value(held: &[u8], at: usize, value: u64) -> bool
    requires { IsInside held.now at 8 }
    ensures { IsTrue result ↔ ((j : ℕ) →
        j < 8 → slice_index held.now (at + j) ≡ slice_index (le_bytes 8 value) j) }
{
    let spelled = value.to_le_bytes();
    has_long(held, at, &spelled)
}
