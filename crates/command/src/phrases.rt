//! The phrases of a command: one word, or an option and the word that is its value.
ghost use Rattle.std.specs.Prelude.{◌≡◌, ◌≤◌, length, IfOk, MatchResult, Ok, Err};
ghost use Rattle.std.specs.Option.{option_copied, option_map};
ghost use Rattle.std.specs.Char.{is_ascii_hexdigit};
ghost use Rattle.std.specs.List.{list_all};
ghost use Rattle.elf_model.specs.Inputs.Command.{after, setting_of, joined_of, switch_of, is_hexadecimal, number_of, base_of, meaning, given, input, of_word};
ghost use Rattle.elf_model.specs.Inputs.Files.{words_of};
ghost use Rattle.command.specs.PhraseViews.{option_of, said_of};
ghost use Rattle.command.specs.Steps.{phrase_at};

use crate::items::Source;
use elf_model::CmdFault;

/// An option that takes a value.
#[derive(Clone, Copy, Debug)]
pub enum Setting {
    OutputFile,
    EntrySymbol,
    UndefinedSymbol,
    SearchDirectory,
    LibraryName,
    Machine,
    MapPath,
    TextSegment,
}

/// What a phrase says.
#[derive(Clone, Copy, Debug)]
pub enum Phrase<'a> {
    Output(&'a str),
    Entry(&'a str),
    Undefined(&'a str),
    Directory(&'a str),
    Input(Source<'a>),
    MapFile(&'a str),
    Base(u64),
    GroupStart,
    GroupEnd,
    WholeStart,
    WholeEnd,
    Check,
    Strip,
    NoEffect,
}

/// The option whose value is the next word.
fn setting_of(word: &str) -> Option<Setting>
    ensures { option_map option_of result ≡ setting_of word.now }
{
    match word {
        "-o" => Some(Setting::OutputFile),
        "-e" => Some(Setting::EntrySymbol),
        "-u" => Some(Setting::UndefinedSymbol),
        "-L" => Some(Setting::SearchDirectory),
        "-l" => Some(Setting::LibraryName),
        "-m" => Some(Setting::Machine),
        _ => None,
    }
}

/// The rest of a word behind a text at its front.
fn after<'a>(text: &str, word: &'a str) -> Option<&'a str>
    ensures { option_copied result ≡ after text.entry.now word.entry.now }
{
    word.strip_prefix(text)
}

/// The option whose value follows in the same word, and that value.
fn joined_of<'a>(word: &'a str) -> Option<(Setting, &'a str)>
    ensures { option_map (λ p. (option_of p.0, p.1.now)) result ≡ joined_of word.entry.now }
{
    if let Some(directory) = after("-L", word) {
        return Some((Setting::SearchDirectory, directory));
    }
    if let Some(name) = after("-l", word) {
        return Some((Setting::LibraryName, name));
    }
    if let Some(path) = after("-Map=", word) {
        return Some((Setting::MapPath, path));
    }
    let address = after("-Ttext-segment=", word)?;
    Some((Setting::TextSegment, address))
}

/// The phrase of an option without a value.
fn switch_of<'a>(word: &str) -> Option<Phrase<'a>>
    ensures { option_map said_of result ≡ switch_of word.entry.now }
{
    match word {
        "--start-group" | "-(" => Some(Phrase::GroupStart),
        "--end-group" | "-)" => Some(Phrase::GroupEnd),
        "--whole-archive" => Some(Phrase::WholeStart),
        "--no-whole-archive" => Some(Phrase::WholeEnd),
        "--check" => Some(Phrase::Check),
        "-s" => Some(Phrase::Strip),
        "-static" | "-nostdlib" => Some(Phrase::NoEffect),
        _ => None,
    }
}

fn all_hexadecimal(bytes: &[u8]) -> bool
    ensures { result ≡ list_all is_ascii_hexdigit bytes.now }
{
    bytes.iter().all(|b| b.is_ascii_hexdigit())
}

/// The bytes are 1 to 16 hexadecimal digits of either case.
fn is_hexadecimal(bytes: &[u8]) -> bool
    ensures { result ≡ is_hexadecimal bytes.now }
{
    if bytes.is_empty() || bytes.len() > 16 {
        return false;
    }
    all_hexadecimal(bytes)
}

/// The number that 1 to 16 hexadecimal digits of either case spell.
fn number_of(digits: &str) -> Option<u64>
    ensures { result ≡ number_of digits.now }
{
    if !is_hexadecimal(digits.as_bytes()) {
        return None;
    }
    u64::from_str_radix(digits, 16).ok()
}

/// The address of a value of `-Ttext-segment=`, where an image may begin at it.
fn base_of(value: &str) -> Option<u64>
    ensures { result ≡ base_of value.now }
{
    let address = number_of(after("0x", value)?)?;
    if address >= 4096 && address < 1 << 46 && address % 4096 == 0 {
        Some(address)
    } else {
        None
    }
}

/// What an option with a nonempty value says.
fn meaning<'a>(setting: Setting, value: &'a str) -> Result<Phrase<'a>, CmdFault>
    ensures { MatchResult result (λ p. meaning (option_of setting) value.entry.now ≡ Ok (said_of p))
        (λ f. meaning (option_of setting) value.entry.now ≡ Err f) }
{
    match setting {
        Setting::OutputFile => Ok(Phrase::Output(value)),
        Setting::EntrySymbol => Ok(Phrase::Entry(value)),
        Setting::UndefinedSymbol => Ok(Phrase::Undefined(value)),
        Setting::SearchDirectory => Ok(Phrase::Directory(value)),
        Setting::LibraryName => Ok(Phrase::Input(Source::Library(value))),
        Setting::Machine if value == "elf_x86_64" => Ok(Phrase::NoEffect),
        Setting::Machine => Err(CmdFault::UnknownOption),
        Setting::MapPath => Ok(Phrase::MapFile(value)),
        Setting::TextSegment => Ok(Phrase::Base(base_of(value).ok_or(CmdFault::BadNumber)?)),
    }
}

/// What an option says with its value, which must not be empty.
fn given<'a>(setting: Setting, value: &'a str) -> Result<Phrase<'a>, CmdFault>
    ensures { MatchResult result (λ p. given (option_of setting) value.entry.now ≡ Ok (said_of p))
        (λ f. given (option_of setting) value.entry.now ≡ Err f) }
{
    if value.is_empty() {
        return Err(CmdFault::MissingValue);
    }
    meaning(setting, value)
}

/// What a word that is a phrase says.
fn of_word<'a>(word: &'a str) -> Result<Phrase<'a>, CmdFault>
    ensures { MatchResult result (λ p. of_word word.entry.now ≡ Ok (said_of p))
        (λ f. of_word word.entry.now ≡ Err f) }
{
    if let Some(phrase) = switch_of(word) {
        return Ok(phrase);
    }
    if let Some((setting, value)) = joined_of(word) {
        return given(setting, value);
    }
    if word.is_empty() || after("-", word).is_some() {
        return Err(CmdFault::UnknownOption);
    }
    Ok(Phrase::Input(Source::Path(word)))
}

/// What the phrase that a word begins says, and the words behind it.
pub fn phrase_at<'a>(
    word: &'a str,
    rest: &'a [String],
) -> Result<(Phrase<'a>, &'a [String]), CmdFault>
    ensures shorter { IfOk result (λ p. length p.1.now ≤ length rest.entry.now) }
    ensures phrase { MatchResult result
        (λ p. phrase_at word.entry.now (words_of rest.entry.now)
        ≡ Ok (said_of p.0, words_of p.1.now))
        (λ f. phrase_at word.entry.now (words_of rest.entry.now) ≡ Err f) }
{
    let Some(setting) = setting_of(word) else {
        return Ok((of_word(word)?, rest));
    };
    let Some((value, behind)) = rest.split_first() else {
        return Err(CmdFault::MissingValue);
    };
    Ok((given(setting, value.as_str())?, behind))
}
