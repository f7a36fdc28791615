//! The common part of records: its fields up to the augmentation's data, and what the augmentation says of the records.
ghost use Rattle.std.specs.Prelude.{◌≡◌, option_copied};
ghost use Rattle.judge_model.specs.FrameCode.{address_encoding, address_width, augmentation_of, behind_data, behind_head, behind_letter, behind_register, encoding_behind, encoding_by, encoding_in};

use crate::addresses::{behind_address, width_of};
use crate::operands::{
    behind, behind_block, behind_number, behind_text, behind_two_numbers, in_block, is_among,
    text_at_front,
};

fn behind_register(version: u8, bytes: &[u8]) -> Option<&[u8]>
    ensures { option_copied result ≡ behind_register version bytes.now }
{
    if version == 1 {
        return behind(1, bytes);
    }
    behind_number(bytes)
}

/// What is behind the register of return addresses, given a common part's fields; None where they aren't read.
pub fn behind_head(fields: &[u8]) -> Option<&[u8]>
    ensures { option_copied result ≡ behind_head fields.now }
{
    match fields {
        [] => None,
        [version, bytes @ ..] => {
            if !is_among(&[1, 3], *version) {
                return None;
            }
            let numbers = behind_text(bytes)?;
            let register = behind_two_numbers(numbers)?;
            behind_register(*version, register)
        }
    }
}

/// The letters of the augmentation.
pub fn augmentation_of(fields: &[u8]) -> &[u8]
    ensures { result.now ≡ augmentation_of fields.now }
{
    match fields {
        [] => fields,
        [_version, bytes @ ..] => text_at_front(bytes),
    }
}

/// What is behind that of the augmentation's data which is a letter's; None where it isn't known, or the data end before.
fn behind_letter(letter: u8, bytes: &[u8]) -> Option<&[u8]>
    ensures { option_copied result ≡ behind_letter letter bytes.now }
{
    if is_among(b"RL", letter) {
        return behind(1, bytes);
    }
    if is_among(b"P", letter) {
        return behind_address(bytes);
    }
    if is_among(b"SB", letter) {
        return Some(bytes);
    }
    None
}

/// The encoding of addresses of functions that is known behind a letter.
fn encoding_behind(letter: u8, bytes: &[u8], encoding: u8) -> Option<u8>
    ensures { result ≡ encoding_behind letter bytes.now encoding }
{
    if is_among(b"R", letter) {
        return bytes.get(0).copied();
    }
    Some(encoding)
}

/// That encoding, given the letters behind the first, their data, and the encoding without them.
fn encoding_by(letters: &[u8], bytes: &[u8], encoding: u8) -> Option<u8>
    ensures { result ≡ encoding_by letters.now bytes.now encoding }
{
    let mut rest = bytes;
    let mut known = encoding;
    for letter in letters {
        known = encoding_behind(*letter, rest, known)?;
        rest = behind_letter(*letter, rest)?;
    }
    Some(known)
}

/// The same, given all letters, and what is behind the register.
fn encoding_in(augmentation: &[u8], bytes: &[u8]) -> Option<u8>
    ensures { result ≡ encoding_in augmentation.now bytes.now }
{
    match augmentation {
        [] => Some(0),
        [z, letters @ ..] => {
            if !is_among(b"z", *z) {
                return None;
            }
            let data = in_block(bytes)?;
            encoding_by(letters, data, 0)
        }
    }
}

/// How the address of a function is encoded in the records of a common part, given its fields; None where they aren't read.
pub fn address_encoding(fields: &[u8]) -> Option<u8>
    ensures { result ≡ address_encoding fields.now }
{
    let bytes = behind_head(fields)?;
    encoding_in(augmentation_of(fields), bytes)
}

/// How many bytes it has; None where that isn't always the same.
pub fn address_width(fields: &[u8]) -> Option<usize>
    ensures { result ≡ address_width fields.now }
{
    let encoding = address_encoding(fields)?;
    width_of(encoding)
}

/// What is behind the data of an augmentation.
pub fn behind_data<'a>(augmentation: &[u8], bytes: &'a [u8]) -> Option<&'a [u8]>
    ensures { option_copied result ≡ behind_data augmentation.entry.now bytes.entry.now }
{
    if augmentation.is_empty() {
        return Some(bytes);
    }
    behind_block(bytes)
}
