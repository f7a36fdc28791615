//! Runs of bytes compared word by word, where both have them.
ghost use Rattle.std.specs.Prelude.{◌≡◌, ◌+◌, ◌≤◌, ◌<◌, ◌↔◌, IsTrue, length};
ghost use Rattle.std.specs.Str.{bytes_eq};
ghost use Rattle.byteview.specs.Numbers.{IsInside};
ghost use Rattle.byteview.proofs.NumberLaws.{AreBytes};
ghost use Rattle.check_link.specs.SameRuns.{AreSame};

use byteview::View;
use std::simd::prelude::*;

/// What a run has are bytes.
fn are_bytes(bytes: &[u8])
    ensures { AreBytes bytes.now }
{}

/// Whether two runs have the same two bytes at a place.
fn same_two(a: &[u8], b: &[u8], at: usize) -> bool
    requires a { IsInside a.now at 2 }
    requires b { IsInside b.now at 2 }
    ensures { IsTrue result ↔ AreSame a.now b.now at (at + 2) }
{
    are_bytes(a);
    are_bytes(b);
    View::new(a).u16_inside(at) == View::new(b).u16_inside(at)
}

/// Whether two runs have the same four bytes at a place.
fn same_four(a: &[u8], b: &[u8], at: usize) -> bool
    requires a { IsInside a.now at 4 }
    requires b { IsInside b.now at 4 }
    ensures { IsTrue result ↔ AreSame a.now b.now at (at + 4) }
{
    are_bytes(a);
    are_bytes(b);
    View::new(a).u32_inside(at) == View::new(b).u32_inside(at)
}

/// Whether two runs have the same eight bytes at a place.
fn same_eight(a: &[u8], b: &[u8], at: usize) -> bool
    requires a { IsInside a.now at 8 }
    requires b { IsInside b.now at 8 }
    ensures { IsTrue result ↔ AreSame a.now b.now at (at + 8) }
{
    are_bytes(a);
    are_bytes(b);
    View::new(a).u64_inside(at) == View::new(b).u64_inside(at)
}

/// Whether two vectors have the same lanes.
fn agree(a: u8x32, b: u8x32) -> bool
    ensures { IsTrue result ↔ (a ≡ b) }
{
    a.simd_ne(b).to_bitmask() == 0
}

/// Whether two runs have the same 32 bytes at a place.
fn same_block(a: &[u8], b: &[u8], at: usize) -> bool
    requires a { IsInside a.now at 32 }
    requires b { IsInside b.now at 32 }
    ensures { IsTrue result ↔ AreSame a.now b.now at (at + 32) }
{
    let (_, a_rest) = a.split_at(at);
    let (_, b_rest) = b.split_at(at);
    agree(u8x32::from_slice(a_rest), u8x32::from_slice(b_rest))
}

/// Whether two runs are the same between places that are fewer than eight bytes apart, by the words at both ends, which
/// may overlap.
fn same_few(a: &[u8], b: &[u8], from: usize, to: usize) -> bool
    requires order { from ≤ to }
    requires a { to ≤ length a.now }
    requires b { to ≤ length b.now }
    requires few { to < from + 8 }
    ensures { IsTrue result ↔ AreSame a.now b.now from to }
{
    let len = to - from;
    if len >= 4 {
        return same_four(a, b, from) && same_four(a, b, to - 4);
    }
    if len >= 2 {
        return same_two(a, b, from) && same_two(a, b, to - 2);
    }
    len == 0 || a[from] == b[from]
}

/// Whether two runs are the same between places that are eight bytes apart or more, by words, of which the last one may
/// overlap the one before it.
fn same_words(a: &[u8], b: &[u8], from: usize, to: usize) -> bool
    requires a { to ≤ length a.now }
    requires b { to ≤ length b.now }
    requires long { from + 8 ≤ to }
    ensures { IsTrue result ↔ AreSame a.now b.now from to }
{
    let last = to - 8;
    let mut at = from;
    'words: while at < last {
        if !same_eight(a, b, at) {
            return false;
        }
        at += 8;
    }
    same_eight(a, b, last)
}

/// Whether two runs are the same between places that are 32 bytes apart or more, by blocks, of which the last one may
/// overlap the one before it.
fn same_blocks(a: &[u8], b: &[u8], from: usize, to: usize) -> bool
    requires a { to ≤ length a.now }
    requires b { to ≤ length b.now }
    requires long { from + 32 ≤ to }
    ensures { IsTrue result ↔ AreSame a.now b.now from to }
{
    let last = to - 32;
    let mut at = from;
    'vectors: while at < last {
        if !same_block(a, b, at) {
            return false;
        }
        at += 32;
    }
    same_block(a, b, last)
}

/// Whether two runs that reach to a place are the same from another one on and below it.
pub fn same_inside(a: &[u8], b: &[u8], from: usize, to: usize) -> bool
    requires order { from ≤ to }
    requires a { to ≤ length a.now }
    requires b { to ≤ length b.now }
    ensures { IsTrue result ↔ AreSame a.now b.now from to }
{
    let len = to - from;
    if len < 8 {
        return same_few(a, b, from, to);
    }
    if len < 32 {
        return same_words(a, b, from, to);
    }
    same_blocks(a, b, from, to)
}

/// Whether two texts are the same.
pub fn same_text(a: &[u8], b: &[u8]) -> bool
    ensures { result ≡ bytes_eq a.now b.now }
{
    a.len() == b.len() && same_inside(a, b, 0, a.len())
}
