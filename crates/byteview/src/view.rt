//! A part of a file's bytes, and the numbers and texts in it; nothing outside of it is read.
ghost use Rattle.std.specs.Prelude.{◌≡◌, ◌↔◌, ℕ, ◌+◌, ◌<◌, ◌≤◌, ◌==◌, List, length, drop, IfSome, IsTrue, SomeIff, option_copied};
ghost use Rattle.std.specs.List.{position_or_len};
ghost use Rattle.byteview.specs.Numbers.{IsInside, HasText, part, text, is_nul, le_at, be_at, signed_at};

use byteorder::{BigEndian, ByteOrder, LittleEndian};
use memchr::{memchr, memrchr};
use std::marker::Model;

/// A part of a file's bytes. Offsets and lengths are in bytes, counted from the beginning of the
/// view; whatever they are, nothing outside of it is read.
#[derive(Drop)]
pub struct View<'a> {
    bytes: &'a [u8],
}

impl<'a> Model for View<'a> {
    ghost Value = { List ℕ };

    ghost view = { λ v. v.bytes.now };
}

impl<'a> View<'a> {
    /// The view of all of `bytes`.
    pub fn new(bytes: &'a [u8]) -> View<'a>
        ensures { result ≡ bytes.now }
    {
        View { bytes }
    }

    /// The number of bytes.
    pub fn len(&self) -> usize
        ensures { result ≡ length self.now }
    {
        self.bytes.len()
    }

    /// Whether there are no bytes.
    pub fn is_empty(&self) -> bool
        ensures { result ≡ (length self.now == 0) }
    {
        self.bytes.is_empty()
    }

    /// All bytes of the view.
    pub fn bytes(&self) -> &'a [u8]
        ensures { result.now ≡ self.now }
    {
        self.bytes
    }

    /// The `len` bytes from `offset` on, or None where they run past the end.
    pub fn sub(&self, offset: usize, len: usize) -> Option<View<'a>>
        ensures exact { SomeIff result (IsInside self.now offset len) (part self.now offset len) }
        ensures len { IfSome result (λ v. length v ≡ len) }
    {
        Some(View::new(self.run(offset, len)?))
    }

    /// The 16-bit number at `at`, least significant byte first; None past the end.
    pub fn u16le(&self, at: usize) -> Option<u16>
        ensures { SomeIff result (IsInside self.now at 2) (le_at 2 self.now at) }
    {
        if !self.holds(at, 2) {
            return None;
        }
        Some(self.u16_inside(at))
    }

    /// The 32-bit number at `at`, least significant byte first; None past the end.
    pub fn u32le(&self, at: usize) -> Option<u32>
        ensures { SomeIff result (IsInside self.now at 4) (le_at 4 self.now at) }
    {
        if !self.holds(at, 4) {
            return None;
        }
        Some(self.u32_inside(at))
    }

    /// The 64-bit number at `at`, least significant byte first; None past the end.
    pub fn u64le(&self, at: usize) -> Option<u64>
        ensures { SomeIff result (IsInside self.now at 8) (le_at 8 self.now at) }
    {
        if !self.holds(at, 8) {
            return None;
        }
        Some(self.u64_inside(at))
    }

    /// The 64-bit two's complement number at `at`, least significant byte first; None past the end.
    pub fn i64le(&self, at: usize) -> Option<i64>
        ensures { SomeIff result (IsInside self.now at 8) (signed_at self.now at) }
    {
        Some(self.u64le(at)?.cast_signed())
    }

    /// The 32-bit number at `at`, most significant byte first; None past the end.
    pub fn u32be(&self, at: usize) -> Option<u32>
        ensures { SomeIff result (IsInside self.now at 4) (be_at 4 self.now at) }
    {
        Some(BigEndian::read_u32(self.run(at, 4)?))
    }

    /// The 64-bit number at `at`, most significant byte first; None past the end.
    pub fn u64be(&self, at: usize) -> Option<u64>
        ensures { SomeIff result (IsInside self.now at 8) (be_at 8 self.now at) }
    {
        Some(BigEndian::read_u64(self.run(at, 8)?))
    }

    /// The byte at `at`, which the caller has found to be inside.
    pub fn u8_inside(&self, at: usize) -> u8
        requires { IsInside self.now at 1 }
        ensures { result ≡ le_at 1 self.now at }
    {
        self.bytes[at]
    }

    /// The 16-bit number at `at`, least significant byte first, which the caller has found to be
    /// inside.
    pub fn u16_inside(&self, at: usize) -> u16
        requires { IsInside self.now at 2 }
        ensures { result ≡ le_at 2 self.now at }
    {
        LittleEndian::read_u16(self.from(at))
    }

    /// The 32-bit number at `at`, least significant byte first, which the caller has found to be
    /// inside.
    pub fn u32_inside(&self, at: usize) -> u32
        requires { IsInside self.now at 4 }
        ensures { result ≡ le_at 4 self.now at }
    {
        LittleEndian::read_u32(self.from(at))
    }

    /// The 64-bit number at `at`, least significant byte first, which the caller has found to be
    /// inside.
    pub fn u64_inside(&self, at: usize) -> u64
        requires { IsInside self.now at 8 }
        ensures { result ≡ le_at 8 self.now at }
    {
        LittleEndian::read_u64(self.from(at))
    }

    /// The text at `at` up to the NUL that ends it, which is left out; None where there is no NUL.
    pub fn text_at(&self, at: usize) -> Option<&'a [u8]>
        ensures { SomeIff (option_copied result) (HasText self.now at) (text self.now at) }
    {
        if !self.holds(at, 0) {
            return None;
        }
        text_before_nul(self.from(at))
    }

    /// The number of offsets at which a text that a NUL ends begins: all up to the last NUL.
    pub fn text_limit(&self) -> usize
        ensures { (at : ℕ) → HasText self.now at ↔ at < result }
    {
        match memrchr(0, self.bytes) {
            Some(last) => last + 1,
            None => 0,
        }
    }

    /// The `len` bytes from `offset` on, as far as the view has them.
    pub fn part(&self, offset: usize, len: usize) -> &'a [u8]
        ensures exact { result.now ≡ part self.now offset len }
        ensures len { IsInside self.now offset len → length result.now ≡ len }
    {
        let rest = self.from(offset.min(self.bytes.len()));
        let (part, _after) = rest.split_at(len.min(rest.len()));
        part
    }

    /// The `len` bytes from `offset` on, or None where they run past the end.
    fn run(&self, offset: usize, len: usize) -> Option<&'a [u8]>
        ensures exact { SomeIff (option_copied result) (IsInside self.now offset len) (part self.now offset len) }
        ensures len { IfSome result (λ bytes. length bytes.now ≡ len) }
    {
        if !self.holds(offset, len) {
            return None;
        }
        let (run, _after) = self.from(offset).split_at(len);
        Some(run)
    }

    /// Whether the `len` bytes from `offset` on lie inside.
    fn holds(&self, offset: usize, len: usize) -> bool
        ensures { IsTrue result ↔ IsInside self.now offset len }
    {
        offset <= self.bytes.len() && len <= self.bytes.len() - offset
    }

    /// The bytes from `at` on.
    fn from(&self, at: usize) -> &'a [u8]
        requires { at ≤ length self.now }
        ensures exact { result.now ≡ drop at self.now }
        ensures len { length result.now + at ≡ length self.now }
    {
        let (_before, rest) = self.bytes.split_at(at);
        rest
    }
}

/// The bytes up to the first NUL; None where there is none.
fn text_before_nul(bytes: &[u8]) -> Option<&[u8]>
    ensures { SomeIff (option_copied result) (HasText bytes.now 0) (text bytes.now 0) }
{
    let (text, _after) = bytes.split_at(first_nul(bytes)?);
    Some(text)
}

/// Where the first NUL stands.
fn first_nul(bytes: &[u8]) -> Option<usize>
    ensures { SomeIff result (HasText bytes.now 0) (position_or_len is_nul bytes.now) }
{
    memchr(0, bytes)
}
