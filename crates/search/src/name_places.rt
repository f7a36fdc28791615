//! The places of names in the indexes of the archives of a group.
ghost use Rattle.std.specs.Prelude.{◌≡◌, ◌||◌, ◌++◌, ◌∷◌, [], ℕ, All, List, Some, true, cond, IfOk, OnOk, slice_get};
ghost use Rattle.std.specs.List.{list_any};
ghost use Rattle.std.specs.Str.{bytes_eq};
ghost use Rattle.elf_model.specs.Inputs.ArchiveFile as archive_file;
ghost use Rattle.search.specs.Places.{ArePlaced, IsPlaced, has_place, is_place, is_waiting, places_in};

use crate::waiting_places::WaitingPlaces;
use ar_index::IndexEntry;
use elf_model::{Name, NameSeed};
use indexmap::IndexMap;
use opening::Input;
use std::alloc::{AllocError, Global};

/// Adds a place of a name.
fn add_place<'a>(
    alloc: Global,
    names: &mut IndexMap<Name<'a>, Vec<(usize, usize)>, NameSeed>,
    name: &'a [u8],
    place: (usize, usize),
) -> Result<(), AllocError>
    ensures { OnOk result ((n : List ℕ) →
        places_in names.new.entries n
        ≡ cond (bytes_eq name.now n) (places_in names.old.entries n ++ place ∷ [])
        (places_in names.old.entries n)) }
{
    let places = names.entry(Name(name))?.or_insert(Vec::new(alloc));
    places.push(place)?;
    Ok(())
}

/// Adds the places of the entries of an archive's index.
fn add_entries<'a>(
    alloc: Global,
    names: &mut IndexMap<Name<'a>, Vec<(usize, usize)>, NameSeed>,
    archive: usize,
    entries: &[IndexEntry<'a>],
) -> Result<(), AllocError>
    ensures placed { OnOk result ((q : ℕ) (e : archive_file.IndexEntry) →
        slice_get entries.now q ≡ Some e → has_place names.new.entries e.name archive q ≡ true) }
    ensures stays { OnOk result ((n : List ℕ) (k q : ℕ) →
        has_place names.old.entries n k q ≡ true → has_place names.new.entries n k q ≡ true) }
{
    for (i, entry) in entries.iter().enumerate() {
        add_place(alloc, names, entry.name(), (archive, i))?;
    }
    Ok(())
}

/// Adds the places of the entries of an archive, where it is searched.
fn add_archive<'a>(
    alloc: Global,
    names: &mut IndexMap<Name<'a>, Vec<(usize, usize)>, NameSeed>,
    archive: usize,
    input: &Input<'a>,
) -> Result<(), AllocError>
    requires { input.now.archive ≡ true }
    ensures placed { OnOk result (IsPlaced names.new.entries archive input.now) }
    ensures stays { OnOk result ((n : List ℕ) (k q : ℕ) →
        has_place names.old.entries n k q ≡ true → has_place names.new.entries n k q ≡ true) }
{
    if input.item().whole {
        return Ok(());
    }
    let Some(entries) = input.entries() else {
        return Ok(());
    };
    add_entries(alloc, names, archive, entries)
}

/// The places of all names in the indexes of archives that are searched, hashed from a seed.
pub fn places_of<'a>(
    alloc: Global,
    seed: NameSeed,
    inputs: &[Input<'a>],
) -> Result<IndexMap<Name<'a>, Vec<(usize, usize)>, NameSeed>, AllocError>
    requires { All (λ i. i.archive ≡ true) inputs.now }
    ensures { IfOk result (λ m. ArePlaced m.entries inputs.now) }
{
    let mut names = IndexMap::with_hasher(alloc, seed);
    for (i, input) in inputs.iter().enumerate() {
        add_archive(alloc, &mut names, i, input)?;
    }
    Ok(names)
}

/// Lets the places of a name wait.
pub fn wake<'a>(
    names: &IndexMap<Name<'a>, Vec<(usize, usize)>, NameSeed>,
    waiting: &mut WaitingPlaces,
    name: &'a [u8],
) -> Result<(), AllocError>
    ensures { OnOk result ((k q : ℕ) →
        is_waiting waiting.new k q
        ≡ (list_any (is_place k q) (places_in names.now.entries name.now)
        || is_waiting waiting.old k q)) }
{
    let Some(places) = names.get(&Name(name)) else {
        return Ok(());
    };
    waiting.add_all(places)
}
