//! Strings and constants in a section's bytes.
ghost use Rattle.std.specs.Prelude.{◌≡◌, ◌+◌, ◌*◌, ◌<◌, ◌≤◌, ◌↔◌, ℕ, IsTrue, length, suc};
ghost use Rattle.check_link.specs.Views.{piece_view};
ghost use Rattle.judge_model.specs.Merged.{IsConstant, IsPiece, IsString, IsZeroUnit};
ghost use Rattle.merge_judge.specs.Units.{BeginsString, EndsString};

use byteview::{View, all_byte};
use check_link::Piece;
use elf_model::SHF_STRINGS;

/// Whether the `e` bytes at an offset are zeros, as far as there are any.
fn is_zero_unit(bytes: &[u8], e: u64, at: u64) -> bool
    ensures { IsTrue result ↔ IsZeroUnit bytes.now e at }
{
    all_byte(View::new(bytes).part(at as usize, e as usize), 0)
}

/// Whether none of the characters of a string but its last one is zero, given how many there are before that.
fn has_no_zero(bytes: &[u8], e: u64, offset: u64, count: u64) -> bool
    requires { offset + count * e ≤ length bytes.now }
    ensures { IsTrue result
        ↔ ((j : ℕ) → j < count → ¬ IsZeroUnit bytes.now e (offset + j * e)) }
{
    for j in 0..count {
        if is_zero_unit(bytes, e, offset + j * e) {
            return false;
        }
    }
    true
}

/// Whether a string may begin at an offset: at the first byte, or behind a zero.
fn begins_string(bytes: &[u8], e: u64, offset: u64) -> bool
    requires { 0 < e }
    ensures { IsTrue result ↔ BeginsString bytes.now e offset }
{
    if offset % e != 0 {
        return false;
    }
    offset == 0 || is_zero_unit(bytes, e, offset - e)
}

/// Whether so many bytes are whole characters of a string, of which the last one alone is zero.
fn ends_string(bytes: &[u8], e: u64, offset: u64, size: u64) -> bool
    requires some { 0 < e }
    requires inside { offset + size ≤ length bytes.now }
    ensures { IsTrue result ↔ EndsString bytes.now e offset size }
{
    if size == 0 {
        return false;
    }
    if size % e != 0 {
        return false;
    }
    if !is_zero_unit(bytes, e, offset + size - e) {
        return false;
    }
    has_no_zero(bytes, e, offset, size / e - 1)
}

/// Whether bytes have so many at an offset.
fn is_inside(bytes: &[u8], offset: u64, size: u64) -> bool
    ensures { IsTrue result ↔ (offset + size ≤ length bytes.now) }
{
    let len = bytes.len() as u64;
    offset <= len && size <= len - offset
}

fn is_string(bytes: &[u8], e: u64, offset: u64, size: u64) -> bool
    requires { 0 < e }
    ensures { IsTrue result ↔ IsString bytes.now e offset size }
{
    if !is_inside(bytes, offset, size) {
        return false;
    }
    if !begins_string(bytes, e, offset) {
        return false;
    }
    ends_string(bytes, e, offset, size)
}

fn is_constant(bytes: &[u8], e: u64, offset: u64, size: u64) -> bool
    requires { 0 < e }
    ensures { IsTrue result ↔ IsConstant bytes.now e offset size }
{
    if size != e || offset % e != 0 {
        return false;
    }
    is_inside(bytes, offset, size)
}

/// Whether a section whose entries have a size has a whole string or constant of so many bytes at an offset.
pub fn is_piece(piece: &Piece<'_>, offset: u64, size: u64) -> bool
    requires { 0 < (piece_view piece.now).header.sh_entsize }
    ensures { IsTrue result ↔ IsPiece (piece_view piece.now) offset size }
{
    let e = piece.header.sh_entsize;
    if piece.header.sh_flags & SHF_STRINGS != 0 {
        is_string(piece.bytes, e, offset, size)
    } else {
        is_constant(piece.bytes, e, offset, size)
    }
}
