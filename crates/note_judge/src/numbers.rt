//! Numbers of four bytes in a note, the least significant byte first; bytes past the end count as 0.
ghost use Rattle.std.specs.Prelude.{◌≡◌, ◌<◌, ◌^◌, slice_index};
ghost use Rattle.byteview.specs.Numbers.{le_at};

use byteview::View;

/// A byte, 0 past the end.
fn byte_of(bytes: &[u8], k: usize) -> u64
    ensures exact { result ≡ slice_index bytes.now k }
    ensures small { result < 256 }
{
    match bytes.get(k) {
        Some(byte) => u64::from(*byte),
        None => 0,
    }
}

/// The number of the four bytes at an offset.
pub fn four_at(bytes: &[u8], at: usize) -> u64
    ensures exact { result ≡ le_at 4 bytes.now at }
    ensures small { result < 2 ^ 32 }
{
    let four = View::new(bytes).part(at, 4);
    byte_of(four, 0)
        + byte_of(four, 1) * 0x100
        + byte_of(four, 2) * 0x1_0000
        + byte_of(four, 3) * 0x100_0000
}
