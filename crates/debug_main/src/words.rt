//! The words of a command: with which the image in front of the tables is linked and checked, and what that is to have besides.
ghost use Rattle.std.specs.Prelude.{◌≡◌, ◌<◌, ◌++◌, ◌∷◌, [], IfOk, IfSome, None, OnOk, codes, is_some, length, string_bytes};
ghost use Rattle.std.specs.Str.{bytes_eq};
ghost use Rattle.elf_model.specs.Inputs.Command.{command_of, setting_of, split};
ghost use Rattle.elf_model.specs.Inputs.Files.{words_of};
ghost use Rattle.debug_main.specs.Phrases.{said_of};
ghost use Rattle.debug_main.specs.Words as spec;
ghost use Rattle.debug_main.specs.Words.{said_words};

use std::alloc::{AllocError, Global};

/// The word that asks for an image without a symbol table.
const STRIP: &str = "-s";

/// The word that asks for an image without debug data.
const NO_DEBUG: &str = "-S";

/// Whether a word is an option whose value is the next word.
fn takes_value(word: &str) -> bool
    ensures { result ≡ is_some (setting_of word.now) }
{
    word == "-o" || word == "-e" || word == "-u" || word == "-L" || word == "-l" || word == "-m"
}

/// Whether a word is one, as an option by itself.
fn is_word(word: &String, wanted: &str) -> bool
    ensures { result ≡ bytes_eq (string_bytes word.now) wanted.now }
{
    word.as_str() == wanted
}

/// A phrase of one or two words, and the words behind it.
#[derive(Clone, Copy)]
struct First<'w> {
    word: &'w String,
    value: Option<&'w String>,
    rest: &'w [String],
}

/// The first phrase of some words; None where there are none.
fn first_phrase<'w>(words: &'w [String]) -> Option<First<'w>>
    ensures none { result ≡ None → words.entry.now ≡ [] }
    ensures some { IfSome result (λ f. split (words_of words.entry.now)
        ≡ said_of f ∷ split (words_of f.rest.now)) }
    ensures shorter { IfSome result (λ f. length f.rest.now < length words.entry.now) }
{
    let (word, behind) = words.split_first()?;
    if takes_value(word.as_str()) {
        if let Some((value, rest)) = behind.split_first() {
            return Some(First {
                word,
                value: Some(value),
                rest,
            });
        }
    }
    Some(First {
        word,
        value: None,
        rest: behind,
    })
}

/// Whether a phrase is a word by itself, and this one.
fn is_alone(first: &First<'_>, wanted: &str) -> bool
    ensures { result ≡ spec.is_alone wanted.now (said_of first.now) }
{
    first.value.is_none() && is_word(first.word, wanted)
}

/// Whether a word is among words, and no option's value.
pub fn stands_alone(words: &[String], wanted: &str) -> bool
    ensures { result ≡ spec.stands_alone wanted.now (words_of words.now) }
{
    let mut rest = words;
    while let Some(first) = first_phrase(rest) {
        if is_alone(&first, wanted) {
            return true;
        }
        rest = first.rest;
    }
    false
}

/// Adds a word.
fn add(alloc: Global, all: &mut Vec<String>, word: &String) -> Result<(), AllocError>
    ensures { OnOk result (words_of all.new.items
        ≡ words_of all.old.items ++ string_bytes word.now ∷ []) }
{
    all.push(String::from_str(alloc, word)?)?;
    Ok(())
}

/// Adds the words of a phrase.
fn add_phrase(alloc: Global, all: &mut Vec<String>, first: &First<'_>) -> Result<(), AllocError>
    ensures { OnOk result (words_of all.new.items
        ≡ words_of all.old.items ++ said_words (said_of first.now)) }
{
    add(alloc, all, first.word)?;
    if let Some(value) = first.value {
        add(alloc, all, value)?;
    }
    Ok(())
}

/// Adds words but for each -S that is no option's value.
fn add_plain(alloc: Global, all: &mut Vec<String>, words: &[String]) -> Result<(), AllocError>
    ensures { OnOk result (words_of all.new.items
        ≡ words_of all.old.items ++ spec.plain_words (words_of words.now)) }
{
    let mut rest = words;
    while let Some(first) = first_phrase(rest) {
        if !is_alone(&first, NO_DEBUG) {
            add_phrase(alloc, all, &first)?;
        }
        rest = first.rest;
    }
    Ok(())
}

/// The words but for each -S that is no option's value: those of the linker's command.
///
/// # Errors
///
/// Only where memory is refused.
pub fn plain_words(alloc: Global, words: &[String]) -> Result<Vec<String>, AllocError>
    ensures { IfOk result (λ v. words_of v.items ≡ spec.plain_words (words_of words.now)) }
{
    let mut all = Vec::with_capacity(alloc, words.len())?;
    add_plain(alloc, &mut all, words)?;
    Ok(all)
}

/// The same with a word in front that asks for no symbol table: those with which the image in front of the tables is linked and
/// checked. They are refused as the words without it are, and their plan is that of these but for the symbol table.
///
/// # Errors
///
/// Only where memory is refused.
pub fn stripped(alloc: Global, words: &[String]) -> Result<Vec<String>, AllocError>
    ensures words { IfOk result (λ v. words_of v.items
        ≡ codes "-s" ∷ spec.plain_words (words_of words.now)) }
    ensures plan { IfOk result (λ v. command_of (words_of v.items)
        ≡ spec.stripped (command_of (spec.plain_words (words_of words.now)))) }
    ensures strip { IfOk result (λ v. spec.IsStripped (words_of v.items)) }
{
    let mut all = Vec::with_capacity(alloc, words.len().saturating_add(1))?;
    all.push(String::from_str(alloc, STRIP)?)?;
    add_plain(alloc, &mut all, words)?;
    Ok(all)
}
