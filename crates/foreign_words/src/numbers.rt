//! Addresses in hexadecimal digits.
ghost use Rattle.std.specs.Prelude.{◌≡◌, option_copied, option_map};
ghost use Rattle.std.specs.Char.{is_ascii_hexdigit};
ghost use Rattle.std.specs.List.{list_all};
ghost use Rattle.elf_model.specs.Inputs.Command.{address_of, after, is_hexadecimal, number_of};
ghost use Rattle.foreign_words.specs.Says.{start_view};
ghost use Rattle.judge_model.specs.Words as spec;

use crate::says::Start;

/// The rest of a word behind a text at its front.
pub fn after<'a>(text: &str, word: &'a str) -> Option<&'a str>
    ensures { option_copied result ≡ after text.entry.now word.entry.now }
{
    word.strip_prefix(text)
}

fn all_hexadecimal(bytes: &[u8]) -> bool
    ensures { result ≡ list_all is_ascii_hexdigit bytes.now }
{
    bytes.iter().all(|b| b.is_ascii_hexdigit())
}

/// The bytes are 1 to 16 hexadecimal digits of either case.
fn is_hexadecimal(bytes: &[u8]) -> bool
    ensures { result ≡ is_hexadecimal bytes.now }
{
    if bytes.is_empty() || bytes.len() > 16 {
        return false;
    }
    all_hexadecimal(bytes)
}

/// The number that 1 to 16 hexadecimal digits of either case spell.
fn number_of(digits: &str) -> Option<u64>
    ensures { result ≡ number_of digits.now }
{
    if !is_hexadecimal(digits.as_bytes()) {
        return None;
    }
    u64::from_str_radix(digits, 16).ok()
}

/// The number that `0x` and such digits spell.
fn address_of(value: &str) -> Option<u64>
    ensures { result ≡ address_of value.now }
{
    number_of(after("0x", value)?)
}

/// The number that such digits spell, with or without `0x` before them.
pub fn hexadecimal(value: &str) -> Option<u64>
    ensures { result ≡ spec.hexadecimal value.now }
{
    match address_of(value) {
        Some(address) => Some(address),
        None => number_of(value),
    }
}

/// The output section and the address of `NAME=ADDRESS`.
pub fn section_start<'w>(value: &'w str) -> Option<Start<'w>>
    ensures { option_map (λ s. spec.Begins (start_view s)) result
        ≡ spec.section_start value.entry.now }
{
    let (name, digits) = value.split_once('=')?;
    let address = hexadecimal(digits)?;
    Some(Start { name, address })
}
