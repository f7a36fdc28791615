//! The order of the sections of a run: each has a rank.
ghost use Rattle.std.specs.Prelude.{◌≡◌, ◌≤◌, ◌<◌, ◌^◌, IfSome, IsTrue, SomeIff, drop, length, option_copied, option_map, true, unwrap_or};
ghost use Rattle.std.specs.Char.{is_ascii_digit};
ghost use Rattle.std.specs.List.{list_all};
ghost use Rattle.std.specs.Str.Parse.{digits_value};
ghost use Rattle.elf_model.specs.Link.ArrayOrder as order;
ghost use Rattle.elf_model.specs.Link.Placement.{section_address};
ghost use Rattle.check_link.specs.Views.{placed_view};
ghost use Rattle.judge_model.specs.Runs as runs;

use crate::names::is_of_constructors;
use check_link::Placed;
use elf_model::SHF_LINK_ORDER;
use link_fields::Addresses;

/// The rank of an array that has no number: above all numbers of up to five digits.
const NO_NUMBER: u64 = 100_000;

fn are_digits(bytes: &[u8]) -> bool
    ensures { result ≡ list_all is_ascii_digit bytes.now }
{
    bytes.iter().all(|b| b.is_ascii_digit())
}

/// Whether bytes are 1 to 5 decimal digits.
fn is_short_number(bytes: &[u8]) -> bool
    ensures value { result ≡ order.is_short_number bytes.now }
    ensures few { IsTrue result → length bytes.now ≤ 5 }
    ensures digits { IsTrue result → list_all is_ascii_digit bytes.now ≡ true }
{
    if bytes.is_empty() || bytes.len() > 5 {
        return false;
    }
    are_digits(bytes)
}

/// The number that a few decimal digits spell.
fn value_of(digits: &[u8]) -> u64
    requires digits { list_all is_ascii_digit digits.now ≡ true }
    requires few { length digits.now ≤ 5 }
    ensures value { result ≡ digits_value 10 digits.now }
    ensures low { result < 10 ^ 16 }
{
    let mut value = 0;
    for digit in digits {
        value = value * 10 + u64::from(*digit - b'0');
    }
    value
}

/// The number with which a name ends from a byte on; None where it doesn't have 1 to 5 digits there.
fn number_from(name: &[u8], at: usize) -> Option<u64>
    ensures number { SomeIff result (order.is_short_number (drop at name.now) ≡ true)
        (digits_value 10 (drop at name.now)) }
    ensures low { IfSome result (λ n. n < 10 ^ 16) }
{
    if name.len() <= at {
        return None;
    }
    let (_front, digits) = name.split_at(at);
    if !is_short_number(digits) {
        return None;
    }
    Some(value_of(digits))
}

/// Whether a name begins as those of numbered arrays do, in 12 bytes.
fn is_array_prefixed(name: &[u8]) -> bool
    ensures { result ≡ order.is_array_prefixed name.now }
{
    name.starts_with(b".init_array.") || name.starts_with(b".fini_array.")
}

/// The rank of an array by its name: its number, or one above all numbers.
fn array_rank(name: &[u8]) -> u64
    ensures { result ≡ order.array_rank name.now }
{
    if !is_array_prefixed(name) {
        return NO_NUMBER;
    }
    match number_from(name, 12) {
        Some(number) => number,
        None => NO_NUMBER,
    }
}

/// The rank of constructors by their name: those without a number come first.
fn constructor_rank(name: &[u8]) -> u64
    ensures { result ≡ runs.constructor_rank name.now }
{
    match number_from(name, 7) {
        Some(number) => 1 + number,
        None => 0,
    }
}

/// The address of a section of an object; 0 where there is none.
fn linked_address(addresses: &Addresses<'_, '_>, object: u64, section: u64) -> u64
    ensures { result ≡ section_address addresses.now object section }
{
    match addresses.address(object, section) {
        Some(at) => at,
        None => 0,
    }
}

/// The rank of a section in its run, given the addresses of all.
pub fn run_rank(addresses: &Addresses<'_, '_>, q: &Placed<'_>) -> u64
    ensures { result ≡ runs.run_rank addresses.now (placed_view q.now) }
{
    let header = &q.piece.header;
    if header.sh_flags & SHF_LINK_ORDER != 0 {
        return linked_address(addresses, q.piece.object, header.sh_link as u64);
    }
    if is_of_constructors(q.piece.name) {
        return constructor_rank(q.piece.name);
    }
    array_rank(q.piece.name)
}
