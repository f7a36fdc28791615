//! Which archive's index names a member for a name, and what is told of that.
ghost use Rattle.std.specs.Prelude.{◌≡◌, ◌↔◌, ◌<◌, All, IfNone, IfOk, IfSome, IsTrue, List, OnOk, length, option_copied, true, unwrap_or, []};
ghost use Rattle.elf_model.specs.Inputs.Opening.{Opened, archive_entries};
ghost use Rattle.elf_model.specs.Link.Loading as loading;
ghost use Rattle.search.specs.Views.{loaded_views};
ghost use Rattle.archive_notes.specs.ArchiveNotes.{IsNamedBy, IsNoteIn, IsNoteOf, IsTold, NamesObject};

use crate::members::fact_of_member;
use crate::note::ArchiveNote;
use ar_index::IndexEntry;
use opening::Input;
use search::LoadedObject;
use std::alloc::{AllocError, Global};

/// Whether an entry of an index is of a name.
fn is_of(entry: &IndexEntry<'_>, name: &[u8]) -> bool
    ensures { IsTrue result ↔ (entry.now.name ≡ name.now) }
{
    entry.name() == name
}

/// What entry `i` of an archive's index says of a name; None where it is of another name, or names no object.
fn note_at<'a>(
    alloc: Global,
    objects: &[LoadedObject<'a>],
    archive: &Input<'a>,
    entries: &[IndexEntry<'a>],
    i: usize,
    name: &'a [u8],
) -> Result<Option<ArchiveNote<'a>>, AllocError>
    requires archive { archive.now.archive ≡ true }
    requires entries { entries.now ≡ archive_entries archive.now.bytes }
    requires inside { i < length entries.now }
    ensures so { IfOk result (λ o. IfSome o (λ n. (n.name.now ≡ name.now)
        × IsNoteOf (loaded_views objects.now) archive.now n)) }
    ensures none { IfOk result (λ o. IfNone o (¬ NamesObject archive.now.bytes name.now i)) }
{
    let entry = &entries[i];
    let offset = entry.offset();
    if !is_of(entry, name) {
        return Ok(None);
    }
    let Some(fact) = fact_of_member(alloc, objects, archive, name, offset)? else {
        return Ok(None);
    };
    let item = archive.item();
    Ok(Some(ArchiveNote {
        name,
        item: item.number,
        path: item.path,
        offset,
        fact,
    }))
}

/// What an archive says of a name: by the first entry of its index that names an object for it.
fn note_of<'a>(
    alloc: Global,
    objects: &[LoadedObject<'a>],
    archive: &Input<'a>,
    name: &'a [u8],
) -> Result<Option<ArchiveNote<'a>>, AllocError>
    requires archive { archive.now.archive ≡ true }
    ensures so { IfOk result (λ o. IfSome o (λ n. (n.name.now ≡ name.now)
        × IsNoteOf (loaded_views objects.now) archive.now n)) }
    ensures none { IfOk result (λ o. IfNone o (¬ IsNamedBy name.now archive.now)) }
{
    let entries = archive.entries().unwrap_or(&[]);
    for i in 0..entries.len() {
        let note = note_at(alloc, objects, archive, entries, i, name)?;
        if note.is_some() {
            return Ok(note);
        }
    }
    Ok(None)
}

/// What an item says of a name: nothing where it is no archive.
fn note_of_item<'a>(
    alloc: Global,
    objects: &[LoadedObject<'a>],
    item: &Input<'a>,
    name: &'a [u8],
) -> Result<Option<ArchiveNote<'a>>, AllocError>
    ensures so { IfOk result (λ o. IfSome o (λ n. (n.name.now ≡ name.now)
        × IsNoteOf (loaded_views objects.now) item.now n)) }
    ensures none { IfOk result (λ o. IfNone o (¬ IsNamedBy name.now item.now)) }
{
    if item.item().archive {
        return note_of(alloc, objects, item, name);
    }
    Ok(None)
}

/// What the archives among opened items say of a name that nothing defines: the first of them whose index names an object for it.
///
/// # Errors
///
/// Only where memory is refused.
pub fn archive_note<'a>(
    alloc: Global,
    objects: &[LoadedObject<'a>],
    items: &[Input<'a>],
    name: &'a [u8],
) -> Result<Option<ArchiveNote<'a>>, AllocError>
    ensures { IfOk result (IsTold (loaded_views objects.now) items.now name.now) }
{
    for k in 0..items.len() {
        let note = note_of_item(alloc, objects, &items[k], name)?;
        if note.is_some() {
            return Ok(note);
        }
    }
    Ok(None)
}

/// Takes in a note, where there is one.
fn keep<'a>(
    notes: &mut Vec<ArchiveNote<'a>>,
    note: Option<ArchiveNote<'a>>,
) -> Result<(), AllocError>
    ensures { (objects : List loading.LoadedObject) (items : List Opened) →
        All (IsNoteIn objects items) notes.old.items → IfSome note.entry (IsNoteIn objects items)
        → OnOk result (All (IsNoteIn objects items) notes.new.items) }
{
    let Some(note) = note else {
        return Ok(());
    };
    notes.push(note)?;
    Ok(())
}

/// What the archives among opened items say of names that nothing defines, of each name once.
///
/// # Errors
///
/// Only where memory is refused.
pub fn archive_notes<'a>(
    alloc: Global,
    objects: &[LoadedObject<'a>],
    items: &[Input<'a>],
    names: &[&'a [u8]],
) -> Result<Vec<ArchiveNote<'a>>, AllocError>
    ensures { IfOk result (λ v. All (IsNoteIn (loaded_views objects.now) items.now) v.items) }
{
    let mut notes = Vec::new(alloc);
    for name in names {
        keep(&mut notes, archive_note(alloc, objects, items, *name)?)?;
    }
    Ok(notes)
}
