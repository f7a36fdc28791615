//! The parts of a row of patches, which stand in the order of their places, that reach into a part of a section.
ghost use Rattle.std.specs.Prelude.{◌≡◌, ◌+◌, ◌<◌, ◌≤◌, ℕ, find, length, nat_le, nat_lt, slice_index_or};
ghost use Rattle.std.specs.List.Sorted.{IsNonDecreasingBy};
ghost use Rattle.reloc_values.specs.Patches.{IsRising, begin_of, covers, end_of};

use crate::patch::Patch;

/// Whether a field ends at a byte of its section or before.
fn ends_by(patch: &Patch, byte: u64) -> bool
    ensures { result ≡ nat_le (end_of patch.now) byte }
{
    patch.at as u64 + patch.width as u64 <= byte
}

/// Whether a field begins before the end of a part of its section, which begins at byte `from` and has so many bytes.
fn begins_in(patch: &Patch, from: u64, count: usize) -> bool
    ensures { result ≡ nat_lt (begin_of patch.now) (from + count) }
{
    let at = patch.at as u64;
    at < from || at - from < count as u64
}

/// How many fields end at a byte or before.
fn count_ended(row: &[Patch], byte: u64) -> usize
    requires { IsNonDecreasingBy end_of row.now }
    ensures within { result ≤ length row.now }
    ensures ended { (k : ℕ) (d : Patch) → k < result → end_of (slice_index_or row.now k d) ≤ byte }
    ensures not_yet { (k : ℕ) (d : Patch) →
        result ≤ k → k < length row.now → byte < end_of (slice_index_or row.now k d) }
{
    row.partition_point(|patch| ends_by(patch, byte))
}

/// How many fields begin before the end of a part.
fn count_begun(row: &[Patch], from: u64, count: usize) -> usize
    requires { IsNonDecreasingBy begin_of row.now }
    ensures within { result ≤ length row.now }
    ensures begun { (k : ℕ) (d : Patch) →
        k < result → begin_of (slice_index_or row.now k d) < from + count }
    ensures not_yet { (k : ℕ) (d : Patch) →
        result ≤ k → k < length row.now → from + count ≤ begin_of (slice_index_or row.now k d) }
{
    row.partition_point(|patch| begins_in(patch, from, count))
}

/// The patches of a row from the first one on whose field ends after a byte: all that have that byte or a later one.
pub fn ending_after(row: &[Patch], byte: u64) -> &[Patch]
    requires { IsRising row.now }
    ensures rising { IsRising result.now }
    ensures after { (k : ℕ) (d : Patch) →
        k < length result.now → byte < end_of (slice_index_or result.now k d) }
    ensures found { (k : ℕ) → byte ≤ k
        → find (covers k) result.now ≡ find (covers k) row.entry.now }
{
    let (_ended, rest) = row.split_at(count_ended(row, byte));
    rest
}

/// The patches of a row whose fields have bytes in a part of the section, which begins at byte `from` and has so
/// many bytes.
pub fn reaching(row: &[Patch], from: u64, count: usize) -> &[Patch]
    requires { IsRising row.now }
    ensures rising { IsRising result.now }
    ensures found { (k : ℕ) → k < count
        → find (covers (from + k)) result.now ≡ find (covers (from + k)) row.entry.now }
{
    let (begun, _later) = row.split_at(count_begun(row, from, count));
    ending_after(begun, from)
}
