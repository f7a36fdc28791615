//! The names in a map: visible ASCII but the backslash stands for itself, every other byte is `\x` and two
//! hexadecimal digits.
ghost use Rattle.std.specs.Prelude.{All, IsTrue, true, false, ◌≡◌, ◌≢◌, ◌<◌, ◌≤◌, ◌++◌, IfOk, OnOk, length, take, drop, option_map};
ghost use Rattle.std.specs.Cow.{cow_slice_items};
ghost use Rattle.std.specs.List.{prefix_len};
ghost use Rattle.elf_model.specs.Image.MapText as map_text;
ghost use Rattle.linkmap.specs.Reading as reading;
ghost use Rattle.linkmap.specs.SymbolRuns as runs;

use crate::digits::{LineFault, put_pair, read_pair, strip};
use std::alloc::{AllocError, Global};
use std::borrow::CowSlice;
use std::simd::prelude::*;

/// Whether a byte of a name stands for itself.
fn is_plain(byte: u8) -> bool
    ensures { result ≡ map_text.is_plain byte }
{
    33 <= byte && byte <= 126 && byte != b'\\'
}

/// Whether no byte of a vector is below a number.
fn none_below(bytes: u8x16, least: u8) -> bool
    ensures { IsTrue result → All (λ b. least ≤ b) bytes }
{
    bytes.simd_lt(u8x16::splat(least)).to_bitmask() == 0
}

/// Whether no byte of a vector is above a number.
fn none_above(bytes: u8x16, most: u8) -> bool
    ensures { IsTrue result → All (λ b. b ≤ most) bytes }
{
    u8x16::splat(most).simd_lt(bytes).to_bitmask() == 0
}

/// Whether no byte of a vector is a certain one.
fn none_is(bytes: u8x16, other: u8) -> bool
    ensures { IsTrue result → All (λ b. b ≢ other) bytes }
{
    bytes.simd_eq(u8x16::splat(other)).to_bitmask() == 0
}

/// Whether each byte of a vector stands for itself.
fn are_plain(bytes: u8x16) -> bool
    ensures { IsTrue result → All (λ b. map_text.is_plain b ≡ true) bytes }
{
    none_below(bytes, 33) && none_above(bytes, 126) && none_is(bytes, b'\\')
}

/// How many of the first bytes stand for themselves, byte by byte.
fn plain_count(bytes: &[u8]) -> usize
    ensures value { result ≡ prefix_len map_text.is_plain bytes.now }
    ensures within { result ≤ length bytes.now }
{
    bytes.iter().take_while(|b| is_plain(**b)).count()
}

/// How many of the first bytes stand for themselves: vector by vector, and what is left of them byte by byte.
fn plain_len(bytes: &[u8]) -> usize
    ensures value { result ≡ prefix_len map_text.is_plain bytes.now }
    ensures within { result ≤ length bytes.now }
{
    let mut rest = bytes;
    'vectors: while rest.len() >= 16 {
        if !are_plain(u8x16::from_slice(rest)) {
            break 'vectors;
        }
        (_, rest) = rest.split_at(16);
    }
    bytes.len() - rest.len() + plain_count(rest)
}

/// The first bytes that stand for themselves, and the bytes behind them.
fn split_plain(bytes: &[u8]) -> (&[u8], &[u8])
    ensures front { result.0.now ≡ take (prefix_len map_text.is_plain bytes.now) bytes.now }
    ensures back { result.1.now ≡ drop (prefix_len map_text.is_plain bytes.now) bytes.now }
{
    bytes.split_at(plain_len(bytes))
}

/// The spelling of a name in a map.
pub fn escape(alloc: Global, name: &[u8]) -> Result<Vec<u8>, AllocError>
    ensures { IfOk result (λ spelling. spelling.items ≡ map_text.escaped name.now) }
{
    let mut spelling = Vec::with_capacity(alloc, name.len())?;
    put_escaped(&mut spelling, name)?;
    Ok(spelling)
}

/// Appends a byte that does not stand for itself.
#[tactic(auto, unfolding(elf_model::specs::Image::MapText::spelled))]
fn put_escape(out: &mut Vec<u8>, byte: u8) -> Result<(), AllocError>
    requires { map_text.is_plain byte ≡ false }
    ensures { OnOk result (out.new.items ≡ out.old.items ++ map_text.spelled byte) }
{
    out.extend_from_slice(b"\\x")?;
    put_pair(out, byte)?;
    Ok(())
}

/// Appends the spelling of a name.
fn put_escaped(out: &mut Vec<u8>, name: &[u8]) -> Result<(), AllocError>
    ensures { OnOk result (out.new.items ≡ out.old.items ++ map_text.escaped name.now) }
{
    let mut rest = name;
    'runs: loop {
        let (plain, after) = split_plain(rest);
        out.extend_from_slice(plain)?;
        let Some((byte, after)) = after.split_first() else {
            return Ok(());
        };
        put_escape(out, *byte)?;
        rest = after;
    }
}

/// Appends a name and the newline that ends its line.
#[tactic(auto, unfolding(elf_model::specs::Image::MapText::name))]
pub fn put_name(out: &mut Vec<u8>, name: &[u8]) -> Result<(), AllocError>
    ensures text { OnOk result (out.new.items ≡ out.old.items ++ map_text.name name.now) }
    ensures fits { map_text.AreBytes name.now }
{
    put_escaped(out, name)?;
    out.push(b'\n')?;
    Ok(())
}

/// A byte that is spelled with `\x`, and the bytes behind it.
#[tactic(auto, unfolding(crate::specs::Reading::escape_at))]
fn read_escape(bytes: &[u8]) -> Option<(u8, &[u8])>
    ensures { option_map (λ x. (x.0, x.1.now)) result ≡ reading.escape_at bytes.now }
{
    let rest = strip(bytes, b"\\x")?;
    let (byte, rest) = read_pair(rest)?;
    if is_plain(byte) {
        None
    } else {
        Some((byte, rest))
    }
}

/// A name with the newline that ends its line, and the bytes behind it, where not all of its bytes may stand for themselves.
fn read_spelled(alloc: Global, bytes: &[u8]) -> Result<(Vec<u8>, &[u8]), LineFault>
    ensures { reading.Gives (λ x. (x.0.items, x.1.now)) result (reading.name_at bytes.now) }
{
    let mut name = Vec::new(alloc);
    let mut rest = bytes;
    'runs: loop {
        let (plain, after) = split_plain(rest);
        name.extend_from_slice(plain)?;
        let Some((byte, left)) = read_escape(after) else {
            let Some(left) = strip(after, b"\n") else {
                return Err(LineFault::Bad);
            };
            return Ok((name, left));
        };
        name.extend_from_slice(&[byte])?;
        rest = left;
    }
}

/// A name of bytes that stand for themselves with the newline that ends its line, and the bytes behind it.
#[tactic(auto, unfolding(crate::specs::SymbolRuns::plain_name_at))]
pub fn read_plain_name(bytes: &[u8]) -> Option<(&[u8], &[u8])>
    ensures { option_map (λ x. (x.0.now, x.1.now)) result ≡ runs.plain_name_at bytes.now }
{
    let (plain, after) = split_plain(bytes);
    let rest = strip(after, b"\n")?;
    Some((plain, rest))
}

/// A name with the newline that ends its line, and the bytes behind it. It is borrowed where each of its bytes stands for
/// itself.
pub fn read_name(alloc: Global, bytes: &[u8]) -> Result<(CowSlice<'_, u8>, &[u8]), LineFault>
    ensures { reading.Gives (λ x. (cow_slice_items x.0, x.1.now)) result (reading.name_at bytes.now) }
{
    if let Some((plain, rest)) = read_plain_name(bytes) {
        return Ok((CowSlice::Borrowed(plain), rest));
    }
    let (name, rest) = read_spelled(alloc, bytes)?;
    Ok((CowSlice::Owned(name), rest))
}
