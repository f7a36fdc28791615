//! Reads a command's words phrase by phrase.
ghost use Rattle.std.specs.Prelude.{◌≡◌, ◌≢◌, ◌+◌, ◌<◌, ◌≤◌, ◌^◌, MatchResult, IfErr, OnOk, Ok, Err};
ghost use Rattle.std.specs.Prelude.{nat_eq, codes, [], IfOk, List};
ghost use Rattle.std.specs.List.{ends_with};
ghost use Rattle.elf_model.specs.Inputs.Command as command;
ghost use Rattle.elf_model.specs.Inputs.Command.{is_archive, plan_of_phrases, command_of, read_behind, split, IsRefusal, HasPlan, IsBase, IsNamed};
ghost use Rattle.elf_model.specs.Inputs.Files.{words_of};
ghost use Rattle.command.specs.Views.{source_of, item_of};
ghost use Rattle.command.specs.PhraseViews.{said_of};
ghost use Rattle.command.specs.PlaceViews.{state_of};
ghost use Rattle.command.specs.RefusedWords.{AreRefused, IsRefusedAt};
ghost use Rattle.command.specs.Steps.{accept, finish, item_at, Fails};

use crate::items::{Item, Plan, Source};
use crate::phrases::{Phrase, phrase_at};
use elf_model::CmdFault;
use std::alloc::{AllocError, Global};

/// What the phrases so far say of how later ones are read.
#[derive(Clone, Copy, Debug)]
struct Place {
    /// Under `--whole-archive`.
    whole: bool,
    /// The number of the group that is open.
    group: Option<u64>,
    /// How many groups have begun.
    groups: u64,
}

/// A path is an archive's.
fn ends_in_a(path: &str) -> bool
    ensures { result ≡ ends_with nat_eq path.now (codes ".a") }
{
    path.ends_with(".a")
}

/// A source is read as an archive.
fn is_archive(source: Source<'_>) -> bool
    ensures { result ≡ is_archive (source_of source.entry) }
{
    match source {
        Source::Path(path) => ends_in_a(path),
        Source::Library(_) => true,
    }
}

/// The item that names a source where it stands; in a group it must be an archive.
fn item_at<'a>(place: Place, source: Source<'a>) -> Result<Item<'a>, CmdFault>
    ensures { MatchResult result
        (λ i. item_at place.whole place.group (source_of source.entry) ≡ Ok (item_of i))
        (λ f. item_at place.whole place.group (source_of source.entry) ≡ Err f) }
{
    let archive = is_archive(source);
    if place.group.is_some() && !archive {
        return Err(CmdFault::NotArchiveInGroup);
    }
    Ok(Item {
        source,
        archive,
        whole: place.whole,
        group: place.group,
    })
}

fn accept<'a>(plan: &mut Plan<'a>, place: &mut Place, phrase: Phrase<'a>) -> Result<(), CmdFault>
    requires { place.old.groups + 1 < 2 ^ 64 }
    ensures taken { MatchResult result
        (λ _. accept (state_of plan.old place.old) (said_of phrase.entry)
        ≡ Ok (state_of plan.new place.new))
        (λ f. Fails f (accept (state_of plan.old place.old) (said_of phrase.entry))) }
    ensures groups { place.new.groups ≤ place.old.groups + 1 }
{
    match phrase {
        Phrase::Output(path) => plan.output = path,
        Phrase::Entry(name) => plan.entry = name,
        Phrase::Undefined(name) => plan.undefined.push(name)?,
        Phrase::Directory(path) => plan.directories.push(path)?,
        Phrase::Input(source) => plan.items.push(item_at(*place, source)?)?,
        Phrase::MapFile(path) => plan.map = Some(path),
        Phrase::Base(address) => plan.base = address,
        Phrase::GroupStart => {
            if place.group.is_some() {
                return Err(CmdFault::GroupNesting);
            }
            place.group = Some(place.groups);
            place.groups += 1;
        }
        Phrase::GroupEnd => {
            if place.group.is_none() {
                return Err(CmdFault::GroupNesting);
            }
            place.group = None;
        }
        Phrase::WholeStart => place.whole = true,
        Phrase::WholeEnd => place.whole = false,
        Phrase::Check => plan.check = true,
        Phrase::Strip => plan.strip = true,
        Phrase::NoEffect => {}
    }
    Ok(())
}

/// The plan that holds before any phrase.
fn default_plan<'a>(alloc: Global) -> Plan<'a>
    ensures { result ≡ plan_of_phrases [] }
{
    Plan {
        items: Vec::new(alloc),
        directories: Vec::new(alloc),
        undefined: Vec::new(alloc),
        entry: "_start",
        base: 0x40_0000,
        output: "a.out",
        map: None,
        check: false,
        strip: false,
    }
}

/// The plan after all phrases, or a fault of the whole line.
fn finish(plan: Plan<'_>, place: Place) -> Result<Plan<'_>, CmdFault>
    ensures { result ≡ finish (state_of plan.entry place) }
{
    if place.group.is_some() {
        return Err(CmdFault::GroupNesting);
    }
    if plan.items.is_empty() {
        return Err(CmdFault::NoInput);
    }
    if plan.check && plan.map.is_none() {
        return Err(CmdFault::MissingValue);
    }
    Ok(plan)
}

/// Takes in the phrases of a command's words, from left to right; `at` is the number of the word that it has come to.
fn read_phrases<'a>(
    alloc: Global,
    words: &'a [String],
    at: &mut usize,
) -> Result<(Plan<'a>, Place), CmdFault>
    ensures plan { IfOk result (λ r. command_of (words_of words.entry.now)
        ≡ finish (state_of r.0 r.1)) }
    ensures read { OnOk result ((ps : List command.Phrase)
        × (read_behind [] (split (words_of words.entry.now)) ≡ Ok ps)) }
    ensures word { IfErr result (λ f. f ≢ CmdFault.Memory →
        IsRefusedAt (words_of words.entry.now) at.new f) }
{
    let mut plan = default_plan(alloc);
    let mut place = Place {
        whole: false,
        group: None,
        groups: 0,
    };
    let mut rest = words;
    'phrases: while let Some((word, behind)) = rest.split_first() {
        *at = words.len().saturating_sub(rest.len());
        let (phrase, after) = phrase_at(word.as_str(), behind)?;
        accept(&mut plan, &mut place, phrase)?;
        rest = after;
    }
    Ok((plan, place))
}

/// Reads the words of a command from left to right.
///
/// # Errors
/// The first fault met; faults of the whole line come after all words. Memory where a list of the plan
/// can't grow.
pub fn read_words<'a>(alloc: Global, words: &'a [String]) -> Result<Plan<'a>, CmdFault>
    ensures plan { IfOk result (λ p. command_of (words_of words.entry.now) ≡ Ok p) }
    ensures fault { IfErr result (IsRefusal (words_of words.entry.now)) }
    ensures phrases { IfOk result (HasPlan (words_of words.entry.now)) }
    ensures only { (p : command.Plan) →
        HasPlan (words_of words.entry.now) p
        → MatchResult result (λ q. q ≡ p) (λ f. f ≡ CmdFault.Memory) }
    ensures base { IfOk result (λ p. IsBase p.base) }
    ensures named { IfOk result IsNamed }
{
    let mut at = 0;
    let (plan, place) = read_phrases(alloc, words, &mut at)?;
    finish(plan, place)
}

/// The number of the word, from 0, at which a command's words are refused; None where only all of them together are, or none is.
///
/// # Errors
///
/// Only where memory is refused.
pub fn refused_word(alloc: Global, words: &[String]) -> Result<Option<u64>, AllocError>
    ensures { (f : CmdFault) →
        command_of (words_of words.now) ≡ Err f → IfOk result (AreRefused (words_of words.now) f) }
{
    let mut at = 0;
    let Err(fault) = read_phrases(alloc, words, &mut at) else {
        return Ok(None);
    };
    match fault {
        CmdFault::Memory => Err(AllocError),
        _ => Ok(Some(at as u64)),
    }
}
