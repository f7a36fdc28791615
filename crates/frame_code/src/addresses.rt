//! How many bytes an address has, and which it is, by its encoding (LSB Core 10.5, "DWARF Extensions").
ghost use Rattle.std.specs.Prelude.{◌≡◌, option_copied, ◌≤◌, ◌%◌, ◌+◌, ◌^◌, ◌<◌, IfSome};
ghost use Rattle.judge_model.specs.FrameCode.{address_by, base_by, behind_address, front_number, number_by, signed_32, width_of, width_of_bits};

use crate::operands::{behind, is_among};
use byteview::View;

fn width_of_bits(bits: u8) -> Option<usize>
    ensures exact { result ≡ width_of_bits bits }
{
    if is_among(&[2, 10], bits) {
        return Some(2);
    }
    if is_among(&[3, 11], bits) {
        return Some(4);
    }
    if is_among(&[0, 4, 12], bits) {
        return Some(8);
    }
    None
}

/// The width in bytes of an address, by its encoding; None where it has none that is always the same.
pub fn width_of(encoding: u8) -> Option<usize>
    ensures exact { result ≡ width_of encoding }
{
    width_of_bits(encoding % 16)
}

/// What is behind an encoding and an address of that; None where the bytes end before.
pub fn behind_address(bytes: &[u8]) -> Option<&[u8]>
    ensures { option_copied result ≡ behind_address bytes.now }
{
    match bytes {
        [] => None,
        [encoding, rest @ ..] => {
            let width = width_of(*encoding)?;
            behind(width, rest)
        }
    }
}

/// A number of 4 bytes with a sign, as one of 8.
pub fn signed_32(n: u32) -> u64
    ensures { result ≡ signed_32 n }
{
    if n < 0x8000_0000 {
        return n as u64;
    }
    n as u64 + 0xffff_ffff_0000_0000
}

/// The 8 bytes at the front of fields as a number; None where there are fewer.
fn front_u64(fields: &[u8]) -> Option<u64>
    ensures { result ≡ front_number 8 fields.now }
{
    View::new(fields).u64le(0)
}

/// The 4 bytes at the front.
fn front_u32(fields: &[u8]) -> Option<u32>
    ensures { result ≡ front_number 4 fields.now }
{
    View::new(fields).u32le(0)
}

/// The number at the front of fields, by the four low bits of its encoding.
fn number_by(bits: u8, fields: &[u8]) -> Option<u64>
    ensures { result ≡ number_by bits fields.now }
{
    if is_among(&[0, 4, 12], bits) {
        return front_u64(fields);
    }
    if bits == 3 {
        let n = front_u32(fields)?;
        return Some(n as u64);
    }
    if bits == 11 {
        let n = front_u32(fields)?;
        return Some(signed_32(n));
    }
    None
}

/// What an address is counted from, by the four high bits of its encoding, where it stands at a place.
fn base_by(bits: u8, place: u128) -> Option<u128>
    ensures { result ≡ base_by bits place }
{
    if bits == 0 {
        return Some(0);
    }
    if bits == 1 {
        return Some(place);
    }
    None
}

/// The sum of two numbers, modulo 2^64.
pub fn sum_modulo(base: u128, n: u64) -> u64
    requires { base < 2 ^ 66 }
    ensures { result ≡ (base + n) % 2 ^ 64 }
{
    ((base + n as u128) % 0x1_0000_0000_0000_0000) as u64
}

/// The address at the front of fields, which begin at a place; None where its encoding isn't read.
pub fn address_by(encoding: u8, fields: &[u8], place: u128) -> Option<u64>
    requires { place < 2 ^ 66 }
    ensures { result ≡ address_by encoding fields.now place }
{
    let base = base_by(encoding / 16, place)?;
    let n = number_by(encoding % 16, fields)?;
    Some(sum_modulo(base, n))
}
