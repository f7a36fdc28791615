//! What is told beside relocations that aren't lawful: that a symbol has no definition, which symbol defines its name, or which
//! sections are of the output name whose bound its name is.
ghost use Rattle.std.specs.Prelude.{◌≡◌, All, IfOk, IfSome, OnOk};
ghost use Rattle.search.specs.Loads.{LoadedPlan};
ghost use Rattle.explain.specs.Notes.{IsFact, IsNote};

use crate::place::{Added, Place};
use crate::unlike_sections::{KeptSection, find_section};
use crate::wanted::{object_at, reached};
use elf_model::{ObjectId, STB_WEAK, SymbolRef};
use input_names::RelocationPlace;
use relocate::RelocationFault;
use resolve::{Definition, Resolved, SymbolOf, named_output};
use search::{Loaded, Reached};
use std::alloc::{AllocError, Global};

/// How many notes are told: there are no more lines.
const NOTES: usize = 20;

/// A fact of the symbol that a relocation names.
#[derive(Clone, Copy, Debug)]
pub enum Fact<'a> {
    /// It has no definition, and needs one.
    Undefined,
    /// The symbol of an object that its name means, which isn't LOCAL; and whether that is in thread-local storage.
    Defined(Reached<'a>, SymbolOf<'a>, bool),
    /// Two kept sections of the output name whose bound its name is, which are of two output sections.
    Bounds(KeptSection<'a>, KeptSection<'a>),
}

/// A fact that is told beside a relocation.
#[derive(Clone, Copy, Debug)]
pub struct Note<'a> {
    pub beside: RelocationPlace<'a>,
    pub fact: Fact<'a>,
}

impl Note<'_> {
    /// Whether it is told beside the relocation of a place.
    pub(crate) fn is_beside(&self, place: &RelocationPlace<'_>) -> bool {
        let beside = &self.beside;
        beside.object == place.object
            && beside.table == place.table
            && beside.number == place.number
    }
}

/// That the symbol of a relocation has no definition, and needs one.
fn undefined<'a>(
    loaded: &Loaded<'a>,
    resolved: &Resolved<'a>,
    place: &RelocationPlace<'a>,
) -> Option<Fact<'a>>
    requires { resolved.now ≡ loaded.now.objects }
    ensures { IfSome result (IsFact loaded.now.objects place.now) }
{
    let one = object_at(loaded, place.object as usize)?;
    let number = place.entry.symbol();
    if number == 0 || one.object.symbol(number as usize).binding() == STB_WEAK {
        return None;
    }
    let symbol = SymbolRef {
        object: ObjectId(place.object),
        symbol: u64::from(number),
    };
    if resolved.used(symbol).is_some() {
        return None;
    }
    Some(Fact::Undefined)
}

/// The symbol that the name of a relocation's symbol means, which isn't LOCAL.
fn defined<'a>(
    loaded: &Loaded<'a>,
    resolved: &Resolved<'a>,
    place: &RelocationPlace<'a>,
) -> Option<Fact<'a>>
    requires { resolved.now ≡ loaded.now.objects }
    ensures { IfSome result (IsFact loaded.now.objects place.now) }
{
    let one = object_at(loaded, place.object as usize)?;
    let number = place.entry.symbol() as usize;
    if one.object.symbol(number).is_local() {
        return None;
    }
    let symbol = resolved.symbol(one.object.symbol_name(number))?;
    let object = object_at(loaded, symbol.object as usize)?;
    let inside = resolved.is_in_thread_storage(&Definition::Symbol(symbol));
    Some(Fact::Defined(reached(object), symbol, inside))
}

/// Two kept sections of the output name whose bound the name of a relocation's symbol is: the first one, and the first one that
/// is of another output section.
fn bounds<'a>(loaded: &Loaded<'a>, place: &RelocationPlace<'a>) -> Option<Fact<'a>>
    ensures { IfSome result (IsFact loaded.now.objects place.now) }
{
    let one = object_at(loaded, place.object as usize)?;
    let name = one.object.symbol_name(place.entry.symbol() as usize);
    let output = named_output(name);
    let first = find_section(loaded, output, None)?;
    let second = find_section(loaded, output, Some(first.place.entry))?;
    Some(Fact::Bounds(first, second))
}

/// What is told beside a relocation that isn't lawful.
fn fact_of<'a>(
    loaded: &Loaded<'a>,
    resolved: &Resolved<'a>,
    place: &RelocationPlace<'a>,
    fault: RelocationFault,
) -> Option<Fact<'a>>
    requires { resolved.now ≡ loaded.now.objects }
    ensures { IfSome result (IsFact loaded.now.objects place.now) }
{
    match fault {
        RelocationFault::RelocKind => undefined(loaded, resolved, place),
        RelocationFault::TlsMismatch => defined(loaded, resolved, place),
        RelocationFault::MixedSection => bounds(loaded, place),
        _ => None,
    }
}

/// What is told beside a place.
fn note_of<'a>(loaded: &Loaded<'a>, resolved: &Resolved<'a>, place: &Place<'a>) -> Option<Note<'a>>
    requires { resolved.now ≡ loaded.now.objects }
    ensures { IfSome result (IsNote loaded.now) }
{
    let Place::Relocation(_, beside, fault, _) = place else {
        return None;
    };
    let fact = fact_of(loaded, resolved, beside, *fault)?;
    Some(Note {
        beside: *beside,
        fact,
    })
}

/// Takes in a note, where there is one, and the name of its relocation's symbol has none yet.
fn keep<'a>(notes: &mut Vec<Note<'a>>, note: Option<Note<'a>>) -> Added
    ensures { (l : LoadedPlan) → All (IsNote l) notes.old.items → IfSome note.entry (IsNote l)
        → OnOk result (All (IsNote l) notes.new.items) }
{
    let Some(note) = note else {
        return Ok(());
    };
    let name = note.beside.symbol_name;
    if notes.iter().any(|other| other.beside.symbol_name == name) {
        return Ok(());
    }
    notes.push(note)?;
    Ok(())
}

/// What is told beside the places of relocations that aren't lawful: of each name once, beside the first of its places.
pub fn notes_of<'a>(
    alloc: Global,
    loaded: &Loaded<'a>,
    resolved: &Resolved<'a>,
    places: &[Place<'a>],
) -> Result<Vec<Note<'a>>, AllocError>
    requires { resolved.now ≡ loaded.now.objects }
    ensures { IfOk result (λ ns. All (IsNote loaded.now) ns.items) }
{
    let mut notes = Vec::new(alloc);
    for place in places {
        if notes.len() >= NOTES {
            return Ok(notes);
        }
        keep(&mut notes, note_of(loaded, resolved, place))?;
    }
    Ok(notes)
}
