//! The profile's part of what words say as words of the profile.
ghost use Rattle.std.specs.Prelude.{◌≡◌, ◌++◌, ◌∷◌, [], IfOk, OnOk, codes, false, nat_eq};
ghost use Rattle.std.specs.List.{ends_with};
ghost use Rattle.elf_model.specs.Inputs.Files.{words_of};
ghost use Rattle.foreign_words.specs.Says.{says_view, says_views, switch_view};
ghost use Rattle.foreign_words.specs.Spelled as spec;

use crate::says::{Says, Switch};
use std::alloc::{AllocError, Global};

fn add_word(alloc: Global, words: &mut Vec<String>, word: &str) -> Result<(), AllocError>
    ensures { OnOk result (words_of words.new.items
        ≡ words_of words.old.items ++ word.now ∷ []) }
{
    words.push(String::from_str(alloc, word)?)?;
    Ok(())
}

/// Adds an option and its value.
fn add_option(
    alloc: Global,
    words: &mut Vec<String>,
    option: &str,
    value: &str,
) -> Result<(), AllocError>
    ensures { OnOk result (words_of words.new.items
        ≡ words_of words.old.items ++ option.now ∷ value.now ∷ []) }
{
    add_word(alloc, words, option)?;
    add_word(alloc, words, value)
}

/// Adds what the profile has of a switch.
fn add_switch(alloc: Global, words: &mut Vec<String>, switch: Switch) -> Result<(), AllocError>
    ensures { OnOk result (words_of words.new.items
        ≡ words_of words.old.items ++ spec.words_for (switch_view switch)) }
{
    match switch {
        Switch::GroupStart => add_word(alloc, words, "-("),
        Switch::GroupEnd => add_word(alloc, words, "-)"),
        Switch::WholeStart => add_word(alloc, words, "--whole-archive"),
        Switch::WholeEnd => add_word(alloc, words, "--no-whole-archive"),
        Switch::Strip => add_word(alloc, words, "-s"),
        _ => Ok(()),
    }
}

/// Adds what the profile has of what a word says.
fn add_words(alloc: Global, words: &mut Vec<String>, says: &Says<'_>) -> Result<(), AllocError>
    ensures { OnOk result (words_of words.new.items
        ≡ words_of words.old.items ++ spec.words_for (says_view says.now)) }
{
    match says {
        Says::Switch(switch) => add_switch(alloc, words, *switch),
        Says::Output(path) => add_option(alloc, words, "-o", path),
        Says::Entry(name) => add_option(alloc, words, "-e", name),
        Says::Undefined(name) => add_option(alloc, words, "-u", name),
        Says::Directory(path) => add_option(alloc, words, "-L", path),
        Says::Library(name) => add_option(alloc, words, "-l", name),
        Says::Path(path) => add_word(alloc, words, path),
        Says::Segment(_) | Says::Begins(_) => Ok(()),
    }
}

/// The words of the profile for what words say.
pub fn spelled_words(alloc: Global, all: &[Says<'_>]) -> Result<Vec<String>, AllocError>
    ensures { IfOk result (λ v. words_of v.items ≡ spec.spelling (says_views all.now)) }
{
    let mut words = Vec::new(alloc);
    for says in all {
        add_words(alloc, &mut words, says)?;
    }
    Ok(words)
}

/// Whether a path is an archive's.
fn ends_in_a(path: &str) -> bool
    ensures { result ≡ ends_with nat_eq path.now (codes ".a") }
{
    path.ends_with(".a")
}

/// Whether what a word says may stand where a group is open, or isn't.
fn may_stand(in_group: bool, says: &Says<'_>) -> bool
    ensures { result ≡ spec.may_stand in_group (says_view says.now) }
{
    match says {
        Says::Switch(Switch::GroupStart) => !in_group,
        Says::Switch(Switch::GroupEnd) => in_group,
        Says::Path(path) => !in_group || ends_in_a(path),
        _ => true,
    }
}

/// Whether a group is open behind it.
fn is_open_after(in_group: bool, says: &Says<'_>) -> bool
    ensures { result ≡ spec.is_open_after in_group (says_view says.now) }
{
    match says {
        Says::Switch(Switch::GroupStart) => true,
        Says::Switch(Switch::GroupEnd) => false,
        _ => in_group,
    }
}

/// Whether groups are closed, aren't nested and have archives alone.
fn are_grouped(all: &[Says<'_>]) -> bool
    ensures { result ≡ spec.are_grouped false (says_views all.now) }
{
    let mut in_group = false;
    for says in all {
        if !may_stand(in_group, says) {
            return false;
        }
        in_group = is_open_after(in_group, says);
    }
    !in_group
}

fn is_item(says: &Says<'_>) -> bool
    ensures { result ≡ spec.is_item (says_view says.now) }
{
    match says {
        Says::Path(_) | Says::Library(_) => true,
        _ => false,
    }
}

/// Whether there is something to link.
fn has_item(all: &[Says<'_>]) -> bool
    ensures { result ≡ spec.has_item (says_views all.now) }
{
    for says in all {
        if is_item(says) {
            return true;
        }
    }
    false
}

/// Whether what words say is a command: its groups are right, and there is something to link.
pub fn is_command(all: &[Says<'_>]) -> bool
    ensures { result ≡ spec.is_command (says_views all.now) }
{
    are_grouped(all) && has_item(all)
}
