//! What words say, by the table.
ghost use Rattle.std.specs.Prelude.{◌≡◌, ◌≤◌, ◌∷◌, All, IfNone, IfOk, IfSome, None, Some, cond, length, option_map};
ghost use Rattle.elf_model.specs.Inputs.Command.{is_empty};
ghost use Rattle.elf_model.specs.Inputs.Files.{words_of};
ghost use Rattle.judge_model.specs.Words as spec;
ghost use Rattle.foreign_words.specs.Says.{row_view, row_views, says_view, says_views, text_view, value_view};
ghost use Rattle.foreign_words.specs.Sound.{IsSound};

use crate::numbers::{after, hexadecimal, section_start};
use crate::rows::{Form, Row, Text, Value, keywords, rows};
use crate::says::{Says, Start, Switch};
use std::alloc::{AllocError, Global};

/// What a text says that may not be empty.
fn named<'w>(says: Says<'w>, text: &str) -> Option<Says<'w>>
    ensures { result ≡ cond (is_empty text.now) None (Some says.entry) }
{
    if text.is_empty() { None } else { Some(says) }
}

/// That an output section is to begin at the address of a text.
fn begins<'w>(name: &'w str, text: &str) -> Option<Says<'w>>
    ensures exact { option_map says_view result
        ≡ spec.at_address (spec.section_at name.entry.now) text.now }
    ensures sound { IfSome result (λ s. IsSound (says_view s)) }
{
    let address = hexadecimal(text)?;
    Some(Says::Begins(Start { name, address }))
}

/// What a text says as a value.
fn text_says<'w>(text: Text, value: &'w str) -> Option<Says<'w>>
    ensures exact { option_map says_view result ≡ text_view text value.entry.now }
    ensures sound { IfSome result (λ s. IsSound (says_view s)) }
{
    match text {
        Text::Output => named(Says::Output(value), value),
        Text::Entry => named(Says::Entry(value), value),
        Text::Undefined => named(Says::Undefined(value), value),
        Text::Directory => named(Says::Directory(value), value),
        Text::Library => named(Says::Library(value), value),
        Text::Segment => Some(Says::Segment(hexadecimal(value)?)),
        Text::TextSection => begins(".text", value),
        Text::DataSection => begins(".data", value),
        Text::BssSection => begins(".bss", value),
        Text::AnySection => Some(Says::Begins(section_start(value)?)),
        Text::Any => Some(Says::Switch(Switch::Nothing)),
    }
}

/// What a word says alone by a row.
fn says_alone<'w>(word: &'w str, row: &Row) -> Option<Says<'w>>
    ensures exact { option_map says_view result
        ≡ spec.says_alone word.entry.now (row_view row.now) }
    ensures sound { IfSome result (λ s. IsSound (says_view s)) }
{
    match row.form {
        Form::Alone(switch) if word == row.text => Some(Says::Switch(switch)),
        Form::Alone(_) | Form::Next(_) => None,
        Form::Joined(text) => text_says(text, after(row.text, word)?),
    }
}

/// What a word says alone by the first row that takes it.
fn first_said<'w>(rows: &[Row], word: &'w str) -> Option<Says<'w>>
    ensures exact { option_map says_view result
        ≡ spec.first_said (row_views rows.now) word.entry.now }
    ensures sound { IfSome result (λ s. IsSound (says_view s)) }
{
    for row in rows {
        if let Some(says) = says_alone(word, row) {
            return Some(says);
        }
    }
    None
}

/// What the next word says as a value.
fn value_says<'w>(value: Value, word: &'w str) -> Option<Says<'w>>
    ensures exact { option_map says_view result ≡ value_view value word.entry.now }
    ensures sound { IfSome result (λ s. IsSound (says_view s)) }
{
    match value {
        Value::Text(text) => text_says(text, word),
        Value::Machine if word == "elf_x86_64" => Some(Says::Switch(Switch::Nothing)),
        Value::Machine => None,
        Value::Keyword => first_said(keywords(), word),
    }
}

/// The value of a word by a row, where that is the next word.
fn takes_next(word: &str, row: &Row) -> Option<Value>
    ensures { option_map value_view result ≡ spec.takes_next word.now (row_view row.now) }
{
    match row.form {
        Form::Next(value) if word == row.text => Some(value),
        _ => None,
    }
}

/// The same by the first row that has one.
fn next_value(rows: &[Row], word: &str) -> Option<Value>
    ensures { option_map value_view result ≡ spec.next_value (row_views rows.now) word.now }
{
    for row in rows {
        if let Some(value) = takes_next(word, row) {
            return Some(value);
        }
    }
    None
}

/// What a word says alone, which is a file's path where it doesn't begin with `-`.
fn word_says<'w>(word: &'w str) -> Option<Says<'w>>
    ensures exact { option_map says_view result ≡ spec.says_word word.entry.now }
    ensures sound { IfSome result (λ s. IsSound (says_view s)) }
{
    if let Some(says) = first_said(rows(), word) {
        return Some(says);
    }
    if word.is_empty() || after("-", word).is_some() {
        return None;
    }
    Some(Says::Path(word))
}

/// What the first of some words says, with its value, and the words behind that.
fn first_says<'w>(word: &'w str, rest: &'w [String]) -> Option<(Says<'w>, &'w [String])>
    ensures some { IfSome result (λ p. spec.said (word.entry.now ∷ words_of rest.entry.now)
        ≡ spec.in_front (Some (says_view p.0)) (spec.said (words_of p.1.now))) }
    ensures none { IfNone result (spec.said (word.entry.now ∷ words_of rest.entry.now) ≡ None) }
    ensures sound { IfSome result (λ p. IsSound (says_view p.0)) }
    ensures shorter { IfSome result (λ p. length p.1.now ≤ length rest.entry.now) }
{
    let Some(value) = next_value(rows(), word) else {
        return Some((word_says(word)?, rest));
    };
    let Some((next, behind)) = rest.split_first() else {
        return Some((word_says(word)?, rest));
    };
    Some((value_says(value, next.as_str())?, behind))
}

/// What words say, in their order; None where one of them isn't in the table.
///
/// # Errors
///
/// Only where memory is refused.
pub fn words_say<'w>(
    alloc: Global,
    words: &'w [String],
) -> Result<Option<Vec<Says<'w>>>, AllocError>
    ensures exact { IfOk result (λ o. option_map (λ v. says_views v.items) o
        ≡ spec.said (words_of words.entry.now)) }
    ensures sound { IfOk result (λ o. IfSome o (λ v. All IsSound (says_views v.items))) }
{
    let mut said = Vec::new(alloc);
    let mut rest = words;
    'words: while let Some((word, behind)) = rest.split_first() {
        let Some((says, after)) = first_says(word.as_str(), behind) else {
            return Ok(None);
        };
        said.push(says)?;
        rest = after;
    }
    Ok(Some(said))
}
