//! The words of a command that is judged, as they were read.
ghost use Rattle.std.specs.Prelude.{◌≡◌, List, ℕ, None, IfOk, IfSome};
ghost use Rattle.elf_model.specs.Inputs.Command as command;
ghost use Rattle.elf_model.specs.Inputs.Command.{HasPlan};
ghost use Rattle.elf_model.specs.Inputs.Files.{words_of};
ghost use Rattle.judge_model.specs.Plans.{ForeignPlan};
ghost use Rattle.judge_model.specs.Words.{IsAsked};
ghost use Rattle.foreign_words.specs.Spoken.{IsSpokenBy, IsWhole};
ghost use Rattle.foreign_words.specs.Wider.{plan_with};

use crate::said::words_say;
use crate::spelling::{is_command, spelled_words};
use crate::wider::{Wider, wider_of};
use command::Plan;
use std::alloc::{AllocError, Global};

/// What the words of a command ask for: the profile's part, as words of the profile, and the rest.
#[derive(Debug, Drop)]
pub struct Spoken<'w> {
    words: Vec<String>,
    wider: Wider<'w>,
}

impl<'w> Spoken<'w> {
    /// What the words ask for beside the profile's part.
    pub fn wider(&self) -> &Wider<'w>
        ensures { result.now ≡ self.now.wider }
    {
        &self.wider
    }

    /// The profile's part: items, directories, names of `-u` and the entry.
    ///
    /// # Errors
    ///
    /// Only where memory is refused.
    pub fn plan<'s>(&'s self, alloc: Global) -> Result<Plan<'s>, AllocError>
        requires { IsWhole self.now }
        ensures { IfOk result (λ p. (words : List (List ℕ)) → IsSpokenBy words self.entry.now
            → IsAsked words (plan_with p self.entry.now.wider)) }
    {
        match command::read_words(alloc, &self.words) {
            Ok(plan) => Ok(plan),
            Err(_) => Err(AllocError),
        }
    }
}

/// Reads the words of another linker's command; None where they are none that is judged: a word isn't in the table, or has a value
/// that its row doesn't take, groups are nested, left open or have an object, or there is nothing to link.
///
/// # Errors
///
/// Only where memory is refused.
pub fn read_foreign_words<'w>(
    alloc: Global,
    words: &'w [String],
) -> Result<Option<Spoken<'w>>, AllocError>
    ensures whole { IfOk result (λ o. IfSome o IsWhole) }
    ensures some { IfOk result (λ o. IfSome o (IsSpokenBy (words_of words.entry.now))) }
    ensures none { IfOk result (λ o. o ≡ None
        → (p : ForeignPlan) → IsAsked (words_of words.entry.now) p → ⊥) }
{
    let Some(all) = words_say(alloc, words)? else {
        return Ok(None);
    };
    if !is_command(&all) {
        return Ok(None);
    }
    Ok(Some(Spoken {
        words: spelled_words(alloc, &all)?,
        wider: wider_of(alloc, &all)?,
    }))
}
