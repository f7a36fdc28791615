//! The order of the sections of arrays of functions: those with a number in their name stand first, by their number.
ghost use Rattle.std.specs.Prelude.{◌≡◌, ◌≤◌, IfOk, drop, length, true};
ghost use Rattle.std.specs.Char.{is_ascii_digit};
ghost use Rattle.std.specs.List.{list_all, list_any};
ghost use Rattle.std.specs.Str.Parse.{digits_value};
ghost use Rattle.elf_model.specs.Link.ArrayOrder as order;
ghost use Rattle.layout.specs.Arrays.{has_number};
ghost use Rattle.placing.specs.Views.{borrowed_views, piece_view};

use placing::Piece;
use std::alloc::{AllocError, Global};

/// The rank of sections without a number: above all numbers of five digits.
const UNNUMBERED: u64 = 100_000;

/// How many bytes stand before the number in a name, as in `.init_array.` and in `.fini_array.`.
const PREFIX: usize = 12;

/// What stands in a name where a number may stand.
fn behind_prefix(name: &[u8]) -> &[u8]
    ensures { result.now ≡ drop 12 name.now }
{
    if name.len() < PREFIX {
        return &[];
    }
    let (_, rest) = name.split_at(PREFIX);
    rest
}

fn are_digits(bytes: &[u8]) -> bool
    ensures { result ≡ list_all is_ascii_digit bytes.now }
{
    bytes.iter().all(|b| b.is_ascii_digit())
}

/// Whether bytes are a number of 1 to 5 decimal digits.
fn is_short_number(bytes: &[u8]) -> bool
    ensures { result ≡ order.is_short_number bytes.now }
{
    if bytes.is_empty() {
        return false;
    }
    if bytes.len() > 5 {
        return false;
    }
    are_digits(bytes)
}

/// Whether a name begins as those of numbered sections do.
fn is_array_prefixed(name: &[u8]) -> bool
    ensures { result ≡ order.is_array_prefixed name.now }
{
    name.starts_with(b".init_array.") || name.starts_with(b".fini_array.")
}

/// Whether a section is a numbered one of an array of functions by its name.
fn is_numbered(name: &[u8]) -> bool
    ensures { result ≡ order.is_numbered name.now }
{
    if !is_array_prefixed(name) {
        return false;
    }
    is_short_number(behind_prefix(name))
}

/// The number that up to five decimal digits spell.
fn digits_value(digits: &[u8]) -> u64
    requires digits { list_all is_ascii_digit digits.now ≡ true }
    requires short { length digits.now ≤ 5 }
    ensures { result ≡ digits_value 10 digits.now }
{
    let mut value = 0;
    for digit in digits {
        value = value * 10 + u64::from(*digit - b'0');
    }
    value
}

/// The rank of a section by its name: its number, or what is above all numbers (profile; GNU ld's
/// SORT_BY_INIT_PRIORITY ranks them alike).
#[tactic(auto, unfolding(elf_model::specs::Link::ArrayOrder::array_rank))]
fn array_rank(name: &[u8]) -> u64
    ensures { result ≡ order.array_rank name.now }
{
    if !is_numbered(name) {
        return UNNUMBERED;
    }
    digits_value(behind_prefix(name))
}

fn has_number(piece: &Piece<'_>) -> bool
    ensures { result ≡ has_number (piece_view piece.now) }
{
    is_numbered(piece.name)
}

/// Whether a numbered section is among pieces.
pub fn any_numbered(pieces: &[&Piece<'_>]) -> bool
    ensures { result ≡ list_any has_number (borrowed_views pieces.now) }
{
    for piece in pieces {
        if has_number(piece) {
            return true;
        }
    }
    false
}

/// The pieces of an output section by their ranks; those of one rank keep their order.
pub fn sorted_by_rank<'p, 'a>(
    alloc: Global,
    pieces: &[&'p Piece<'a>],
) -> Result<Vec<&'p Piece<'a>>, AllocError>
    ensures { IfOk result (λ v. borrowed_views v.items
        ≡ order.in_array_order (borrowed_views pieces.now)) }
{
    let mut sorted = Vec::from_slice(alloc, pieces)?;
    sorted.sort_by_key(|p| array_rank(p.name))?;
    Ok(sorted)
}
