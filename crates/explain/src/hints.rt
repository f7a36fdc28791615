//! Definitions whose names are like those that are asked for and not defined.
ghost use Rattle.std.specs.Prelude.{All, IfOk, IfSome, OnOk};
ghost use Rattle.search.specs.Loads.{LoadedPlan};
ghost use Rattle.explain.specs.Hints.{IsHint};

use crate::place::{Added, EntryPlace, Place};
use crate::wanted::{object_at, reached};
use elf_model::Symbol;
use like_names::{Likeness, liken};
use relocate::RelocationFault;
use search::{Loaded, Reached};
use std::alloc::{AllocError, Global};

/// For how many names definitions are looked for: there are no more lines.
const NAMES: usize = 20;

/// A definition in a loaded object, whose name is like one that is wanted.
#[derive(Clone, Copy, Debug)]
pub struct Hint<'a> {
    pub wanted: &'a [u8],
    pub object: Reached<'a>,
    pub symbol: EntryPlace<'a, Symbol>,
    pub likeness: Likeness,
}

/// The name that a place asks for, where no object defines it.
pub(crate) fn undefined_name<'a>(place: &Place<'a>) -> Option<&'a [u8]> {
    match place {
        Place::Relocation(_, place, RelocationFault::Undefined, _) => Some(place.symbol_name),
        _ => None,
    }
}

/// The first names that places ask for; no two ask for one.
pub(crate) fn undefined_names<'a>(
    alloc: Global,
    places: &[Place<'a>],
) -> Result<Vec<&'a [u8]>, AllocError> {
    let mut names = Vec::new(alloc);
    for place in places {
        if let Some(name) = undefined_name(place)
            && names.len() < NAMES
        {
            names.push(name)?;
        }
    }
    Ok(names)
}

/// Symbol `j` of object `k`, where it is a definition for other objects too, whose name is like a wanted one.
fn like_symbol<'a>(loaded: &Loaded<'a>, wanted: &'a [u8], k: usize, j: usize) -> Option<Hint<'a>>
    ensures { IfSome result (IsHint loaded.now) }
{
    let one = object_at(loaded, k)?;
    let entry = one.object.symbols().get(j)?;
    if entry.binding() == 0 {
        return None;
    }
    if entry.is_undefined() {
        return None;
    }
    let name = one.object.symbol_name(j);
    let likeness = liken(wanted, name)?;
    Some(Hint {
        wanted,
        object: reached(one),
        symbol: EntryPlace {
            object: k as u64,
            number: j as u64,
            entry,
            name,
        },
        likeness,
    })
}

/// Of two hints the one that tells more: a name of C++ before one edit, else the first.
fn better<'a>(first: Option<Hint<'a>>, second: Option<Hint<'a>>) -> Option<Hint<'a>>
    ensures { (l : LoadedPlan) → IfSome first.entry (IsHint l) → IfSome second.entry (IsHint l)
        → IfSome result (IsHint l) }
{
    match (first, second) {
        (Some(hint), Some(other))
            if hint.likeness == Likeness::OneEdit && other.likeness != Likeness::OneEdit => {
            Some(other)
        }
        (Some(hint), _) => Some(hint),
        (None, other) => other,
    }
}

/// The definition of object `k` that is most like a wanted name.
fn like_in_object<'a>(loaded: &Loaded<'a>, wanted: &'a [u8], k: usize) -> Option<Hint<'a>>
    ensures { IfSome result (IsHint loaded.now) }
{
    let symbols = object_at(loaded, k)?.object.symbols().len();
    let mut best = None;
    for j in 0..symbols {
        best = better(best, like_symbol(loaded, wanted, k, j));
    }
    best
}

/// The definition that is most like a wanted name.
fn like_in_all<'a>(loaded: &Loaded<'a>, wanted: &'a [u8]) -> Option<Hint<'a>>
    ensures { IfSome result (IsHint loaded.now) }
{
    let mut best = None;
    for k in 0..loaded.objects().len() {
        best = better(best, like_in_object(loaded, wanted, k));
    }
    best
}

/// Takes in a hint, where there is one.
fn keep<'a>(hints: &mut Vec<Hint<'a>>, hint: Option<Hint<'a>>) -> Added
    ensures { (l : LoadedPlan) → All (IsHint l) hints.old.items → IfSome hint.entry (IsHint l)
        → OnOk result (All (IsHint l) hints.new.items) }
{
    let Some(hint) = hint else {
        return Ok(());
    };
    hints.push(hint)?;
    Ok(())
}

/// Of each name that places ask for and nothing defines the definition that is most like it, where there is one.
pub fn hints_of<'a>(
    alloc: Global,
    loaded: &Loaded<'a>,
    places: &[Place<'a>],
) -> Result<Vec<Hint<'a>>, AllocError>
    ensures { IfOk result (λ hs. All (IsHint loaded.now) hs.items) }
{
    let names = undefined_names(alloc, places)?;
    let mut hints = Vec::new(alloc);
    for name in &names {
        keep(&mut hints, like_in_all(loaded, *name))?;
    }
    Ok(hints)
}
