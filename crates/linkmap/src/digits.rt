//! Numbers in the fields of a line, read and printed.
ghost use Rattle.std.specs.Prelude.{true, take, ◌≡◌, ◌<◌, ◌≤◌, ◌^◌, ◌++◌, IsTrue, ◌↔◌, IfSome, IfOk, OnOk, SomeIff, length, option_map, option_copied};
ghost use Rattle.std.specs.Str.{all_ascii_digits};
ghost use Rattle.std.specs.Str.Parse.{digits_value};
ghost use Rattle.elf_model.specs.Image.MapText.{hex_digit, pair, word, hex, address, number, last_number};
ghost use Rattle.linkmap.specs.Reading as reading;
ghost use Rattle.linkmap.specs.declared.digits.LineFault.TheVariants as line_fault;

use itoa::Buffer;
use std::alloc::AllocError;

/// Why bytes do not begin with a line, or with a field: a growth was refused, or they are none.
#[derive(Clone, Copy, Debug)]
pub enum LineFault {
    Memory,
    Bad,
}

impl From<AllocError> for LineFault {
    ghost from_gives = { λ _ fault. fault ≡ line_fault.Memory };

    fn from(_error: AllocError) -> LineFault {
        LineFault::Memory
    }
}

/// The bytes behind a text that they begin with.
pub fn strip<'a>(bytes: &'a [u8], text: &[u8]) -> Option<&'a [u8]>
    ensures { option_copied result ≡ reading.tag text.now bytes.now }
{
    bytes.strip_prefix(text)
}

/// A hexadecimal digit in lower case, and the bytes behind it.
fn digit(bytes: &[u8]) -> Option<(u8, &[u8])>
    ensures value { option_map (λ x. (x.0, x.1.now)) result ≡ reading.digit_at bytes.now }
    ensures small { IfSome result (λ x. x.0 < 16) }
{
    let (first, rest) = bytes.split_first()?;
    match *first {
        b'0'..=b'9' => Some((*first - b'0', rest)),
        b'a'..=b'f' => Some((*first - 87, rest)),
        _ => None,
    }
}

/// A number in two hexadecimal digits, and the bytes behind them.
#[tactic(auto, unfolding(crate::specs::Reading::pair_at))]
pub fn read_pair(bytes: &[u8]) -> Option<(u8, &[u8])>
    ensures { option_map (λ x. (x.0, x.1.now)) result ≡ reading.pair_at bytes.now }
{
    let (high, rest) = digit(bytes)?;
    let (low, rest) = digit(rest)?;
    Some((high * 16 + low, rest))
}

#[tactic(auto, unfolding(crate::specs::Reading::quad_at))]
fn read_quad(bytes: &[u8]) -> Option<(u16, &[u8])>
    ensures { option_map (λ x. (x.0, x.1.now)) result ≡ reading.quad_at bytes.now }
{
    let (high, rest) = read_pair(bytes)?;
    let (low, rest) = read_pair(rest)?;
    Some((u16::from(high) * 256 + u16::from(low), rest))
}

#[tactic(auto, unfolding(crate::specs::Reading::word_at))]
fn read_word(bytes: &[u8]) -> Option<(u32, &[u8])>
    ensures { option_map (λ x. (x.0, x.1.now)) result ≡ reading.word_at bytes.now }
{
    let (high, rest) = read_quad(bytes)?;
    let (low, rest) = read_quad(rest)?;
    Some((u32::from(high) * 65536 + u32::from(low), rest))
}

#[tactic(auto, unfolding(crate::specs::Reading::hex_at))]
fn read_hex(bytes: &[u8]) -> Option<(u64, &[u8])>
    ensures { option_map (λ x. (x.0, x.1.now)) result ≡ reading.hex_at bytes.now }
{
    let (high, rest) = read_word(bytes)?;
    let (low, rest) = read_word(rest)?;
    Some((u64::from(high) * 4294967296 + u64::from(low), rest))
}

/// An address in 16 hexadecimal digits with its space, and the bytes behind it.
#[tactic(auto, unfolding(crate::specs::Reading::address_at))]
pub fn read_address(bytes: &[u8]) -> Option<(u64, &[u8])>
    ensures { option_map (λ x. (x.0, x.1.now)) result ≡ reading.address_at bytes.now }
{
    let (value, rest) = read_hex(bytes)?;
    Some((value, strip(rest, b" ")?))
}

/// How many of the first bytes are decimal digits.
fn digits_len(bytes: &[u8]) -> usize
    ensures value { result ≡ reading.digits_len bytes.now }
    ensures within { result ≤ length bytes.now }
{
    bytes.iter().take_while(|b| b.is_ascii_digit()).count()
}

/// The number that decimal digits spell, where it is below 2^64.
fn digits_value(digits: &[u8]) -> Option<u64>
    requires { all_ascii_digits digits.now ≡ true }
    ensures { SomeIff result (digits_value 10 digits.now < 2 ^ 64) (digits_value 10 digits.now) }
{
    let mut value: u64 = 0;
    for digit in digits {
        value = value
            .checked_mul(10)?
            .checked_add(u64::from(*digit - b'0'))?;
    }
    Some(value)
}

/// A decimal number without a zero in front, and the bytes behind it.
#[tactic(auto, unfolding(crate::specs::Reading::decimal_at))]
fn read_decimal(bytes: &[u8]) -> Option<(u64, &[u8])>
    ensures { option_map (λ x. (x.0, x.1.now)) result ≡ reading.decimal_at bytes.now }
{
    let (digits, rest) = bytes.split_at(digits_len(bytes));
    if digits.is_empty() || digits[0] == b'0' && digits.len() > 1 {
        return None;
    }
    Some((digits_value(digits)?, rest))
}

/// A decimal number with its space, and the bytes behind it.
#[tactic(auto, unfolding(crate::specs::Reading::number_at))]
pub fn read_number(bytes: &[u8]) -> Option<(u64, &[u8])>
    ensures { option_map (λ x. (x.0, x.1.now)) result ≡ reading.number_at bytes.now }
{
    let (value, rest) = read_decimal(bytes)?;
    Some((value, strip(rest, b" ")?))
}

/// A decimal number with the newline that ends its line, and the bytes behind it.
#[tactic(auto, unfolding(crate::specs::Reading::last_number_at))]
pub fn read_last_number(bytes: &[u8]) -> Option<(u64, &[u8])>
    ensures { option_map (λ x. (x.0, x.1.now)) result ≡ reading.last_number_at bytes.now }
{
    let (value, rest) = read_decimal(bytes)?;
    Some((value, strip(rest, b"\n")?))
}

/// The hexadecimal digit of a number below 16.
fn glyph(digit: u8) -> u8
    requires { digit < 16 }
    ensures { result ≡ hex_digit digit }
{
    if digit < 10 { b'0' + digit } else { 87 + digit }
}

/// Appends a number in two hexadecimal digits.
#[tactic(auto, unfolding(elf_model::specs::Image::MapText::pair))]
pub fn put_pair(out: &mut Vec<u8>, n: u8) -> Result<(), AllocError>
    ensures { OnOk result (out.new.items ≡ out.old.items ++ pair n) }
{
    out.extend_from_slice(&[glyph(n / 16), glyph(n % 16)])?;
    Ok(())
}

/// Appends a number in eight hexadecimal digits, all at once.
#[tactic(auto, unfolding(elf_model::specs::Image::MapText::word, elf_model::specs::Image::MapText::quad, elf_model::specs::Image::MapText::pair))]
fn put_word(out: &mut Vec<u8>, n: u32) -> Result<(), AllocError>
    ensures { OnOk result (out.new.items ≡ out.old.items ++ word n) }
{
    let (high, low) = (n / 65536, n % 65536);
    let (a, b) = ((high / 256) as u8, (high % 256) as u8);
    let (c, d) = ((low / 256) as u8, (low % 256) as u8);
    out.extend_from_slice(&[
        glyph(a / 16),
        glyph(a % 16),
        glyph(b / 16),
        glyph(b % 16),
        glyph(c / 16),
        glyph(c % 16),
        glyph(d / 16),
        glyph(d % 16),
    ])?;
    Ok(())
}

#[tactic(auto, unfolding(elf_model::specs::Image::MapText::hex))]
fn put_hex(out: &mut Vec<u8>, n: u64) -> Result<(), AllocError>
    ensures { OnOk result (out.new.items ≡ out.old.items ++ hex n) }
{
    put_word(out, (n / 4294967296) as u32)?;
    put_word(out, (n % 4294967296) as u32)?;
    Ok(())
}

/// Appends an address in 16 hexadecimal digits, and a space.
#[tactic(auto, unfolding(elf_model::specs::Image::MapText::address))]
pub fn put_address(out: &mut Vec<u8>, n: u64) -> Result<(), AllocError>
    ensures { OnOk result (out.new.items ≡ out.old.items ++ address n) }
{
    put_hex(out, n)?;
    out.push(b' ')?;
    Ok(())
}

/// Appends a decimal number and a space.
#[tactic(auto, unfolding(elf_model::specs::Image::MapText::number))]
pub fn put_number(out: &mut Vec<u8>, n: u64) -> Result<(), AllocError>
    ensures { OnOk result (out.new.items ≡ out.old.items ++ number n) }
{
    let mut buffer = Buffer::new();
    out.extend_from_slice(buffer.format(n).as_bytes())?;
    out.push(b' ')?;
    Ok(())
}

/// Appends a decimal number and a newline.
#[tactic(auto, unfolding(elf_model::specs::Image::MapText::last_number))]
pub fn put_last_number(out: &mut Vec<u8>, n: u64) -> Result<(), AllocError>
    ensures { OnOk result (out.new.items ≡ out.old.items ++ last_number n) }
{
    let mut buffer = Buffer::new();
    out.extend_from_slice(buffer.format(n).as_bytes())?;
    out.push(b'\n')?;
    Ok(())
}
