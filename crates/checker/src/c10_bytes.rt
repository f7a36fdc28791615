//! C10: whether memory holds the wanted bytes of the pieces of an object.
ghost use Rattle.std.specs.Prelude.{◌≡◌, ◌+◌, ◌≤◌, ◌<◌, ◌↔◌, ℕ, All, AllPairs, IsTrue, find, slice_index, true};
ghost use Rattle.byteview.specs.Numbers.{IsInside, le_bytes};
ghost use Rattle.check_link.specs.SameRuns.{AreSame};
ghost use Rattle.check_link.specs.Views.{placed_view, placed_views};
ghost use Rattle.check_relocs.specs.Bytes.{EndsBefore, FitsIn, HasFieldsInside, HoldsFields, LiesWhole, WantedFrom, byte_of, covers};
ghost use Rattle.check_relocs.specs.Fields.{IsBefore};
ghost use Rattle.checker.specs.Comparing.{AreHeld, AreOwn, IsRowAt};
ghost use Rattle.elf_model.specs.Image.RightLink.{HoldsBefore};
ghost use Rattle.elf_model.specs.declared.verdict.Clause.TheVariants as clause;

use crate::same_runs::{has_long_value, has_word_value};
use check_link::{Placed, load_size, same_inside};
use check_relocs::{Field, part_of};
use check_stages::{BoundLink, same_padded, sub_part};
use loader_model::Memory;

/// Whether memory holds the wanted bytes of pieces of object `number`, given the row of its fields. The pieces
/// of common blocks are of no object, and have no fields.
pub fn holds_own(bound: &BoundLink<'_, '_>, number: u64, row: &[Field], own: &[Placed<'_>]) -> bool
    requires before { HoldsBefore clause.C9 bound.now }
    requires row { IsRowAt bound.now number row.now }
    requires own { AreOwn bound.now number (placed_views own.now) }
    ensures { IsTrue result ↔ AreHeld bound.now (placed_views own.now) }
{
    all_held(bound.memory(), row, own)
}

/// Whether two runs, one of which ends between two places, are equal from the one on and below the other; bytes past an end
/// count as 0.
fn same_past_end(a: &[u8], b: &[u8], from: u64, to: u64) -> bool
    requires { from ≤ to }
    ensures { IsTrue result ↔ AreSame a.now b.now from to }
{
    let start = from as usize;
    let len = (to - from) as usize;
    same_padded(sub_part(a, start, len), sub_part(b, start, len))
}

/// Whether two runs are equal from one byte on and below another; bytes past an end count as 0.
pub(crate) fn same_between(a: &[u8], b: &[u8], from: u64, to: u64) -> bool
    requires { from ≤ to }
    ensures { IsTrue result ↔ AreSame a.now b.now from to }
{
    if from == to {
        return true;
    }
    if to <= a.len() as u64 && to <= b.len() as u64 {
        return same_inside(a, b, from as usize, to as usize);
    }
    same_past_end(a, b, from, to)
}

/// Whether a field has the bytes of its value, spelled out.
fn has_spelled_value(held: &[u8], field: &Field) -> bool
    requires { field.now.width ≤ 8 }
    ensures { IsTrue result ↔ ((j : ℕ) →
        j < field.now.width
        → slice_index held.now (field.now.at + j)
        ≡ slice_index (le_bytes field.now.width field.now.value) j) }
{
    let spelled = field.value.to_le_bytes();
    let width = field.width as usize;
    let (low, _high) = spelled.split_at(width);
    same_padded(sub_part(held, field.at as usize, width), low)
}

/// Whether a run has four bytes from a place on.
fn has_four(held: &[u8], at: u64) -> bool
    ensures { result ≡ true → IsInside held.now at 4 }
{
    held.len() >= 4 && at <= held.len() as u64 - 4
}

/// Whether a run has eight bytes from a place on.
fn has_eight(held: &[u8], at: u64) -> bool
    ensures { result ≡ true → IsInside held.now at 8 }
{
    held.len() >= 8 && at <= held.len() as u64 - 8
}

/// Whether a field has the bytes of its value, the least significant first.
pub(crate) fn has_value_at(held: &[u8], field: &Field) -> bool
    requires { field.now.width ≤ 8 }
    ensures { IsTrue result ↔ ((j : ℕ) →
        j < field.now.width
        → slice_index held.now (field.now.at + j)
        ≡ slice_index (le_bytes field.now.width field.now.value) j) }
{
    if field.width == 4 && has_four(held, field.at) {
        return has_word_value(held, field.at as usize, field.value);
    }
    if field.width == 8 && has_eight(held, field.at) {
        return has_long_value(held, field.at as usize, field.value);
    }
    has_spelled_value(held, field)
}

/// Whether the bytes of a section of a size are the wanted ones: each field's value, and between the fields,
/// which stand in order, the input's.
fn are_wanted(held: &[u8], bytes: &[u8], fields: &[Field], size: u64) -> bool
    requires inside { All (FitsIn size) fields.now }
    requires rising { AllPairs EndsBefore fields.now }
    ensures { IsTrue result ↔ WantedFrom held.now bytes.now fields.now 0 size }
{
    let mut from = 0;
    for field in fields {
        if !same_between(held, bytes, from, field.at) {
            return false;
        }
        if !has_value_at(held, field) {
            return false;
        }
        from = field.at + field.width as u64;
    }
    same_between(held, bytes, from, size)
}

/// Whether what memory has for a piece of a size are the piece's wanted bytes.
fn has_wanted(held: &[u8], placed: &Placed<'_>, size: u64, fields: &[Field]) -> bool
    requires inside { All (FitsIn size) fields.now }
    requires rising { AllPairs EndsBefore fields.now }
    ensures { IsTrue result ↔ ((k : ℕ) →
        k < size → slice_index held.now k
        ≡ byte_of placed.now.piece.bytes.now k (find (covers k) fields.now)) }
{
    are_wanted(held, placed.piece.bytes, fields, size)
}

/// Whether memory holds a piece's wanted bytes at its address, as far as the piece takes up memory, given the row of its
/// object.
fn holds_piece(memory: &Memory<'_>, row: &[Field], placed: &Placed<'_>) -> bool
    requires whole { LiesWhole memory.now placed.now }
    requires rising { AllPairs IsBefore row.now }
    requires inside { HasFieldsInside row.now placed.now }
    ensures { IsTrue result ↔ HoldsFields memory.now row.now (placed_view placed.now) }
{
    let piece = &placed.piece;
    let size = load_size(piece);
    if size == 0 {
        return true;
    }
    let fields = part_of(row, piece.section);
    match memory.run(placed.at, size) {
        Some(held) => has_wanted(held.bytes, placed, size, fields),
        None => false,
    }
}

/// Whether memory holds the wanted bytes of pieces, given the row of their object.
fn all_held(memory: &Memory<'_>, row: &[Field], placed: &[Placed<'_>]) -> bool
    requires whole { All (LiesWhole memory.now) placed.now }
    requires rising { AllPairs IsBefore row.now }
    requires inside { All (HasFieldsInside row.now) placed.now }
    ensures { IsTrue result ↔ All
        (λ q. HoldsFields memory.now row.now (placed_view q)) placed.now }
{
    for q in placed {
        if !holds_piece(memory, row, q) {
            return false;
        }
    }
    true
}
