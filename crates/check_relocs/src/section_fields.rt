//! The fields of one section among the rows of all objects, found by bisection.
ghost use Rattle.std.specs.Prelude.{◌≡◌, ◌≤◌, ◌<◌, ℕ, AllPairs, filter, length, slice_index_or};
ghost use Rattle.check_relocs.specs.Bytes.{AreRising, EndsBefore, fields_in, is_of};
ghost use Rattle.check_relocs.specs.Fields.{IsBefore};
ghost use Rattle.std.specs.List.Sorted.{IsNonDecreasingBy};

use crate::fields::Field;

/// How many of the fields, which stand by section, are of sections before one.
fn count_before(row: &[Field], section: u64) -> usize
    requires { IsNonDecreasingBy (λ f. f.section) row.now }
    ensures within { result ≤ length row.now }
    ensures before { (k : ℕ) (d : Field) →
        k < result → (slice_index_or row.now k d).section < section }
    ensures from { (k : ℕ) (d : Field) →
        result ≤ k → k < length row.now → section ≤ (slice_index_or row.now k d).section }
{
    row.partition_point(|f| (f.section as u64) < section)
}

/// How many of the fields, which stand by section, are of sections up to one.
fn count_through(row: &[Field], section: u64) -> usize
    requires { IsNonDecreasingBy (λ f. f.section) row.now }
    ensures within { result ≤ length row.now }
    ensures through { (k : ℕ) (d : Field) →
        k < result → (slice_index_or row.now k d).section ≤ section }
    ensures behind { (k : ℕ) (d : Field) →
        result ≤ k → k < length row.now → section < (slice_index_or row.now k d).section }
{
    row.partition_point(|f| f.section as u64 <= section)
}

/// The fields of a section in a row.
pub fn part_of(row: &[Field], section: u64) -> &[Field]
    requires { AllPairs IsBefore row.now }
    ensures fields { result.now ≡ filter (is_of section) row.entry.now }
    ensures rising { AllPairs EndsBefore result.now }
{
    let (through, _later) = row.split_at(count_through(row, section));
    let (_earlier, part) = through.split_at(count_before(through, section));
    part
}

/// The fields of a section of an object, each of which ends before the next begins.
pub fn fields_in(rows: &[Vec<Field>], object: u64, section: u64) -> &[Field]
    requires { AreRising rows.now }
    ensures fields { result.now ≡ fields_in rows.entry.now object section }
    ensures rising { AllPairs EndsBefore result.now }
{
    match rows.get(object as usize) {
        Some(row) => part_of(row, section),
        None => &[],
    }
}
