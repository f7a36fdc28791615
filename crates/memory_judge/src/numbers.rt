//! Numbers that memory holds, the least significant byte first.
ghost use Rattle.std.specs.Prelude.{◌≡◌, ◌↔◌, ◌+◌, ◌≤◌, ◌<◌, ◌^◌, ℕ, IfSome, IsTrue, Some, SomeIff};
ghost use Rattle.byteview.proofs.NumberLaws.{AreBytes};
ghost use Rattle.byteview.specs.Numbers.{le, le_bytes};
ghost use Rattle.elf_model.specs.Image.RightLink.{byte_at};
ghost use Rattle.judge_model.specs.Memory.{Holds};
ghost use Rattle.memory_judge.specs.Numbers.{IsShown, IsWord};

use byteview::View;
use foreign_image::ForeignImage;

/// The sum of three numbers, where 64 bits have it.
fn sum_of(a: u64, b: u64, c: u64) -> Option<u64>
    ensures { SomeIff result (a + b + c < 2 ^ 64) (a + b + c) }
{
    match a.checked_add(b) {
        Some(sum) => sum.checked_add(c),
        None => None,
    }
}

/// The byte that memory has at an offset behind another one of an address; None where nothing is there.
fn byte_behind(image: &ForeignImage<'_>, at: u64, offset: u64, index: u64) -> Option<u8>
    ensures { result ≡ byte_at image.now (at + offset + index) }
{
    let _program = image.image();
    match sum_of(at, offset, index) {
        Some(sum) => image.byte(sum),
        None => None,
    }
}

/// What a run has are bytes.
fn are_bytes(bytes: &[u8])
    ensures { AreBytes bytes.now }
{}

/// The number in eight bytes.
fn number_in(bytes: &[u8; 8]) -> u64
    ensures number { result ≡ le bytes.now }
    ensures are { AreBytes bytes.now }
{
    are_bytes(bytes);
    View::new(bytes).u64_inside(0)
}

/// The number of a width in bytes that memory holds at an offset behind an address; None where not all of it is there.
pub fn number_at(image: &ForeignImage<'_>, at: u64, offset: u64, width: u8) -> Option<u64>
    requires { width ≤ 8 }
    ensures held { IfSome result (λ v. Holds image.now (at + offset) (le_bytes width v)) }
    ensures only { (v : ℕ) → Holds image.now (at + offset) (le_bytes width v)
        → result ≡ Some (le (le_bytes width v)) }
{
    let mut bytes = [0u8; 8];
    for k in 0..width as usize {
        let Some(byte) = byte_behind(image, at, offset, k as u64) else {
            return None;
        };
        bytes[k] = byte;
    }
    Some(number_in(&bytes))
}

/// Whether memory has a byte at an offset behind another one of an address.
pub fn has_byte(image: &ForeignImage<'_>, at: u64, offset: u64, index: u64, byte: u8) -> bool
    ensures { IsTrue result ↔ (byte_at image.now (at + offset + index) ≡ Some byte) }
{
    match byte_behind(image, at, offset, index) {
        Some(held) => held == byte,
        None => false,
    }
}

/// Whether memory holds bytes at an offset behind an address.
pub fn holds_bytes(image: &ForeignImage<'_>, at: u64, offset: u64, bytes: &[u8]) -> bool
    ensures { IsTrue result ↔ Holds image.now (at + offset) bytes.now }
{
    for k in 0..bytes.len() {
        if !has_byte(image, at, offset, k as u64, bytes[k]) {
            return false;
        }
    }
    true
}

/// Whether memory holds a number of a width in bytes at an offset behind an address.
pub fn holds_number(image: &ForeignImage<'_>, at: u64, offset: u64, width: u8, number: u64) -> bool
    requires { width ≤ 8 }
    ensures { IsTrue result ↔ Holds image.now (at + offset) (le_bytes width number) }
{
    let bytes = number.to_le_bytes();
    for k in 0..width as usize {
        if !has_byte(image, at, offset, k as u64, bytes[k]) {
            return false;
        }
    }
    true
}

/// The value of 64 bits that four bytes show which hold a number: a signed one.
fn extended(number: u64) -> u64
    ensures { (v : ℕ) → IsWord v → number ≡ le (le_bytes 4 v) → result ≡ v }
{
    if number >= 0x8000_0000 {
        number.wrapping_add(0xffff_ffff_0000_0000)
    } else {
        number
    }
}

/// The value of 64 bits that a field of a width in bytes shows which holds a number: in four bytes a signed one.
pub fn shown(width: u8, number: u64) -> u64
    ensures { (v : ℕ) → IsShown width v → number ≡ le (le_bytes width v) → result ≡ v }
{
    if width == 4 {
        return extended(number);
    }
    number
}
