//! The bytes of a section between its fields.
ghost use Rattle.std.specs.Prelude.{◌≡◌, ◌↔◌, ◌<◌, ◌≤◌, ◌+◌, ◌-◌, ◌^◌, ℕ, Any, IsTrue, length, min, slice_index};
ghost use Rattle.std.specs.List.Sorted.{IsNonDecreasingBy};
ghost use Rattle.elf_model.specs.Image.MemoryImage.{Encloses, loads};
ghost use Rattle.memory_judge.specs.Rests.{AreEqual, HoldsBetween, IsRestFrom};

use byteview::{all_byte, equal_run};
use foreign_image::ForeignImage;

/// Where a field lies in its section, and its width, in bytes.
#[derive(Clone, Copy, Debug)]
pub struct FieldSpan {
    pub at: u64,
    pub width: u8,
}

/// The bytes from `from` on and below `to`, as far as the run has them.
fn sub_run(bytes: &[u8], from: u64, to: u64) -> &[u8]
    requires { from ≤ to }
    ensures short { from + length result.now ≤ to }
    ensures same { (k : ℕ) → from + k < to
        → slice_index bytes.entry.now (from + k) ≡ slice_index result.now k }
{
    let len = bytes.len() as u64;
    let (_before, rest) = bytes.split_at(from.min(len) as usize);
    let (run, _after) = rest.split_at((to - from).min(rest.len() as u64) as usize);
    run
}

/// Whether two runs are equal where bytes past an end count as 0.
fn are_equal_padded(a: &[u8], b: &[u8]) -> bool
    ensures { IsTrue result ↔ ((k : ℕ) → slice_index a.now k ≡ slice_index b.now k) }
{
    let common = a.len().min(b.len());
    let (a_front, a_rest) = a.split_at(common);
    let (b_front, b_rest) = b.split_at(common);
    if !equal_run(a_front, b_front) {
        return false;
    }
    if !all_byte(a_rest, 0) {
        return false;
    }
    all_byte(b_rest, 0)
}

/// Whether two runs are equal from one byte on and below another; bytes past an end count as 0.
pub fn are_equal(a: &[u8], b: &[u8], from: u64, to: u64) -> bool
    requires { from ≤ to }
    ensures { IsTrue result ↔ AreEqual a.now b.now from to }
{
    are_equal_padded(sub_run(a, from, to), sub_run(b, from, to))
}

/// Where a field ends, as far as 64 bits reach.
fn end_of(span: &FieldSpan) -> u64
    ensures { result ≡ min (span.now.at + span.now.width) (2 ^ 64 - 1) }
{
    match span.at.checked_add(span.width as u64) {
        Some(end) => end,
        None => u64::MAX,
    }
}

/// Whether two runs are equal below a size but for fields, of which each begins where the one in front of it does, or behind.
fn are_equal_beside(held: &[u8], bytes: &[u8], spans: &[FieldSpan], size: u64) -> bool
    requires { IsNonDecreasingBy (λ s. s.at) spans.now }
    ensures { IsTrue result ↔ IsRestFrom held.now bytes.now spans.now 0 size }
{
    let mut from = 0;
    for span in spans {
        let to = span.at.min(size).max(from);
        if !are_equal(held, bytes, from, to) {
            return false;
        }
        from = end_of(span).max(from);
    }
    are_equal(held, bytes, from, size.max(from))
}

/// Whether memory holds a section's bytes at an address but for its fields, given how many bytes it takes up, in one segment. The
/// fields come by rising places.
pub fn holds_rest(
    image: &ForeignImage<'_>,
    at: u64,
    size: u64,
    bytes: &[u8],
    spans: &[FieldSpan],
) -> bool
    requires rising { IsNonDecreasingBy (λ s. s.at) spans.now }
    requires enclosed { 0 < size → Any (λ h. Encloses h at size) (loads image.now) }
    ensures { IsTrue result ↔ HoldsBetween image.now at size bytes.now spans.now }
{
    if size == 0 {
        return true;
    }
    match image.run(at, size) {
        Some(held) => are_equal_beside(held.bytes, bytes, spans, size),
        None => false,
    }
}
