//! Fields of text in a member's header: digits, and the spaces behind them.
ghost use Rattle.std.specs.Prelude.{◌≡◌, ◌≤◌, ◌<◌, ◌^◌, length, true, IfSome, IsTrue, SomeIff};
ghost use Rattle.std.specs.List.{list_all};
ghost use Rattle.std.specs.Str.{all_ascii_digits};
ghost use Rattle.std.specs.Str.Parse.{digits_value};
ghost use Rattle.elf_model.specs.Inputs.ArchiveFile as archive;

/// How many of the first bytes are decimal digits.
fn digit_count(field: &[u8]) -> usize
    ensures value { result ≡ archive.digit_count field.now }
    ensures within { result ≤ length field.now }
{
    field.iter().take_while(|b| b.is_ascii_digit()).count()
}

/// Whether there are no bytes but spaces.
pub fn are_spaces(bytes: &[u8]) -> bool
    ensures { result ≡ list_all archive.is_space bytes.now }
{
    bytes.iter().all(|b| *b == b' ')
}

/// The number that decimal digits spell, of which there are few enough for a u64.
fn digits_value(digits: &[u8]) -> u64
    requires few { length digits.now ≤ 16 }
    requires digits { all_ascii_digits digits.now ≡ true }
    ensures value { result ≡ digits_value 10 digits.now }
    ensures small { result < 10 ^ 16 }
{
    let mut value: u64 = 0;
    for digit in digits {
        value = value * 10 + u64::from(*digit - b'0');
    }
    value
}

/// The number in a field of one or more decimal digits and spaces behind them; None in another one.
pub fn number_in(field: &[u8]) -> Option<u64>
    requires { length field.now ≤ 16 }
    ensures exact { SomeIff result (IsTrue (archive.is_number field.now))
        (archive.number field.now) }
    ensures small { IfSome result (λ n. n < 10 ^ 16) }
{
    let (digits, rest) = field.split_at(digit_count(field));
    if digits.is_empty() || !are_spaces(rest) {
        return None;
    }
    Some(digits_value(digits))
}
