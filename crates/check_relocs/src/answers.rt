//! Answers about the symbols of an object, by their numbers: each is kept once a relocation that names its symbol was seen.
ghost use Rattle.std.specs.Prelude.{◌≡◌, ℕ, IfOk, None, Some, slice_set};
ghost use Rattle.check_relocs.specs.Known.{known_at};

use crate::targets::entry_count;
use check_load::{Loaded, filled};
use std::alloc::{AllocError, Global};

/// So few kept relocations look up what they ask of their symbols each for itself. More of them might all name one symbol with
/// a long name, which must not be read once for each.
const FEW: usize = 8;

/// Where answers about the symbols of an object will be kept, none yet. There is no room where the object has few relocations.
pub fn no_answers<T: Copy + Drop>(
    alloc: Global,
    loaded: &Loaded<'_>,
) -> Result<Vec<Option<T>>, AllocError>
    ensures { IfOk result (λ v. (j : ℕ) → known_at v.items j ≡ None) }
{
    if entry_count(loaded) <= FEW {
        return Ok(Vec::new(alloc));
    }
    let room = filled(alloc, None, loaded.object.symbols().len())?;
    Ok(room)
}

/// Keeps an answer about symbol `j`, where there is room for it.
pub fn keep_answer<T: Copy + Drop>(answers: &mut Vec<Option<T>>, j: usize, answer: T)
    ensures { answers.new.items ≡ slice_set answers.old.items j (Some answer) }
{
    if j < answers.len() {
        answers[j] = Some(answer);
    }
}

/// The answer about symbol `j`, where it is known.
pub fn known_answer<T: Copy>(answers: &[Option<T>], j: usize) -> Option<T>
    ensures { result ≡ known_at answers.now j }
{
    match answers.get(j) {
        Some(answer) => *answer,
        None => None,
    }
}
