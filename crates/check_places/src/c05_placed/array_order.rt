//! The order of the pieces of an output section: those of numbered arrays first, by their numbers.
ghost use Rattle.std.specs.Prelude.{◌≡◌, ◌≤◌, ◌↔◌, All, IfOk, IfSome, IsTrue, SomeIff, drop, length, option_copied, true};
ghost use Rattle.std.specs.Char.{is_ascii_digit};
ghost use Rattle.std.specs.List.{list_all};
ghost use Rattle.std.specs.Str.Parse.{digits_value};
ghost use Rattle.elf_model.specs.Link.ArrayOrder as order;
ghost use Rattle.check_places.specs.Neighbours.{AreNear};
ghost use Rattle.check_link.specs.Views.{placed_view, placed_views};

use crate::c05_placed::neighbours::are_near;
use check_link::Placed;
use std::alloc::{AllocError, Global};

/// The rank of a section that has no number: above all numbers of up to five digits.
const NO_NUMBER: u64 = 100_000;

/// Whether a name begins as those of numbered arrays do, in 12 bytes.
#[tactic(auto, using(crate::proofs::ArrayRanks::short_name))]
fn is_array_prefixed(name: &[u8]) -> bool
    ensures value { result ≡ order.is_array_prefixed name.now }
    ensures long { IsTrue result → 12 ≤ length name.now }
{
    if name.len() < 12 {
        return false;
    }
    name.starts_with(b".init_array.") || name.starts_with(b".fini_array.")
}

fn are_digits(bytes: &[u8]) -> bool
    ensures { result ≡ list_all is_ascii_digit bytes.now }
{
    bytes.iter().all(|b| b.is_ascii_digit())
}

/// Whether bytes are 1 to 5 decimal digits.
fn is_short_number(bytes: &[u8]) -> bool
    ensures value { result ≡ order.is_short_number bytes.now }
    ensures few { IsTrue result → length bytes.now ≤ 5 }
    ensures digits { IsTrue result → list_all is_ascii_digit bytes.now ≡ true }
{
    if bytes.is_empty() || bytes.len() > 5 {
        return false;
    }
    are_digits(bytes)
}

/// The digits of a numbered array's name; None of another name.
fn digits_of(name: &[u8]) -> Option<&[u8]>
    ensures number { SomeIff (option_copied result) (order.is_numbered name.entry.now ≡ true)
        (drop 12 name.entry.now) }
    ensures few { IfSome result (λ ds. length ds.now ≤ 5) }
    ensures digits { IfSome result (λ ds. list_all is_ascii_digit ds.now ≡ true) }
{
    if !is_array_prefixed(name) {
        return None;
    }
    let (_prefix, digits) = name.split_at(12);
    if !is_short_number(digits) {
        return None;
    }
    Some(digits)
}

/// The number that a few decimal digits spell.
fn value_of(digits: &[u8]) -> u64
    requires digits { list_all is_ascii_digit digits.now ≡ true }
    requires few { length digits.now ≤ 5 }
    ensures { result ≡ digits_value 10 digits.now }
{
    let mut value = 0;
    for digit in digits {
        value = value * 10 + u64::from(*digit - b'0');
    }
    value
}

/// The rank of a section by its name: the number of its array, or one above all numbers.
#[tactic(auto, using(crate::proofs::ArrayRanks::rank_of_number, crate::proofs::ArrayRanks::rank_of_other))]
fn array_rank(name: &[u8]) -> u64
    ensures { result ≡ order.array_rank name.now }
{
    match digits_of(name) {
        Some(digits) => value_of(digits),
        None => NO_NUMBER,
    }
}

/// Whether no piece is of a numbered array.
fn are_unnumbered(placed: &[Placed<'_>]) -> bool
    ensures { IsTrue result ↔ All (λ q. order.placed_rank (placed_view q) ≡ 100000) placed.now }
{
    placed.iter().all(|q| array_rank(q.piece.name) == NO_NUMBER)
}

/// The pieces in the order of their ranks, those of one rank as they stood.
pub fn in_array_order<'a>(
    alloc: Global,
    placed: &[Placed<'a>],
) -> Result<Vec<Placed<'a>>, AllocError>
    ensures { IfOk result (λ v. placed_views v.items
        ≡ order.placed_in_array_order (placed_views placed.now)) }
{
    let mut ordered = Vec::from_slice(alloc, placed)?;
    ordered.sort_by_key(|q| array_rank(q.piece.name))?;
    Ok(ordered)
}

/// Whether each piece is near the one before it in its output section, where those of numbered arrays come first. Mostly
/// there are none of these, and the pieces stand in that order already.
pub fn are_near_in_array_order(alloc: Global, placed: &[Placed<'_>]) -> Result<bool, AllocError>
    ensures { IfOk result (λ b. IsTrue b
        ↔ AreNear (order.placed_in_array_order (placed_views placed.now))) }
{
    if are_unnumbered(placed) {
        let near = are_near(alloc, placed)?;
        return Ok(near);
    }
    let ordered = in_array_order(alloc, placed)?;
    let near = are_near(alloc, &ordered)?;
    Ok(near)
}
