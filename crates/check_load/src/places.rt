//! Where the names stand in the indexes of the archives that are searched.
ghost use Rattle.std.specs.Prelude.{◌≡◌, ◌≤◌, ◌<◌, ◌+◌, ◌++◌, ◌∷◌, [], ℕ, All, IfOk, List, OnOk, Some, cond, length, max, option_map, slice_get, true, unwrap_or};
ghost use Rattle.std.specs.Str.{bytes_eq};
ghost use Rattle.elf_model.specs.Inputs.ArchiveFile as archive;
ghost use Rattle.check_load.specs.Awake.{is_awake};
ghost use Rattle.check_load.specs.Places.{IsWoken, ArePlaced, IsPlaced, IsSized, has_place, list_at, places_in};

use crate::awake_entries::Awake;
use crate::name_table::NameTable;
use ar_index::IndexEntry;
use elf_model::NameSeed;
use opening::Input;
use std::alloc::{AllocError, Global};
use std::marker::Model;

/// Names, and the places of each at its number: the numbers of the item and of the entry.
#[derive(Drop)]
pub struct NamePlaces<'a> {
    pub names: NameTable<'a>,
    pub lists: Vec<Vec<(u64, usize)>>,
}

/// The inputs of a command, and the places of the names in the indexes of the archives among them that are searched.
#[derive(Drop)]
pub struct Places<'i, 'a> {
    inputs: &'i [Input<'a>],
    names: NamePlaces<'a>,
}

impl<'i, 'a> Model for Places<'i, 'a> {
    ghost use Rattle.std.specs.Prelude.{List};
    ghost use Rattle.elf_model.specs.Inputs.Opening.{Opened};
    ghost use Rattle.check_load.specs.Places.{ArePlaced, IsSized};

    ghost Value = { List Opened };

    ghost view = { λ p. p.inputs.now };

    ghost invariant = { λ p. IsSized p.names × ArePlaced p.names p.inputs.now };
}

/// Lets there be a list at a number: those that come are empty.
fn reach(alloc: Global, lists: &mut Vec<Vec<(u64, usize)>>, number: usize) -> Result<(), AllocError>
    ensures same { (i : ℕ) → list_at lists.new.items i ≡ list_at lists.old.items i }
    ensures there { OnOk result (number < length lists.new.items) }
    ensures size { length lists.new.items ≤ max (length lists.old.items) (number + 1) }
{
    while lists.len() <= number {
        lists.push(Vec::new(alloc))?;
    }
    Ok(())
}

/// Adds a place of a name.
fn add_place<'a>(
    alloc: Global,
    names: &mut NamePlaces<'a>,
    name: &'a [u8],
    place: (u64, usize),
) -> Result<(), AllocError>
    requires { IsSized names.old }
    ensures sized { OnOk result (IsSized names.new) }
    ensures places { OnOk result ((n : List ℕ) →
        places_in names.new n
        ≡ cond (bytes_eq name.now n) (places_in names.old n ++ place ∷ [])
        (places_in names.old n)) }
{
    let (number, _is_new) = names.names.add(name)?;
    reach(alloc, &mut names.lists, number)?;
    names.lists[number].push(place)?;
    Ok(())
}

/// Adds the places of the entries of an item's index.
fn add_entries<'a>(
    alloc: Global,
    names: &mut NamePlaces<'a>,
    item: u64,
    entries: &[IndexEntry<'a>],
) -> Result<(), AllocError>
    requires { IsSized names.old }
    ensures sized { OnOk result (IsSized names.new) }
    ensures placed { OnOk result ((q : ℕ) (e : archive.IndexEntry) →
        slice_get entries.now q ≡ Some e → has_place names.new e.name item q ≡ true) }
    ensures stays { OnOk result ((n : List ℕ) (i q : ℕ) →
        has_place names.old n i q ≡ true → has_place names.new n i q ≡ true) }
{
    for (i, entry) in entries.iter().enumerate() {
        add_place(alloc, names, entry.name(), (item, i))?;
    }
    Ok(())
}

/// Adds the places of the entries of an input, where it is an archive that is searched.
fn add_input<'a>(
    alloc: Global,
    names: &mut NamePlaces<'a>,
    input: &Input<'a>,
) -> Result<(), AllocError>
    requires { IsSized names.old }
    ensures sized { OnOk result (IsSized names.new) }
    ensures placed { OnOk result (IsPlaced names.new input.now) }
    ensures stays { OnOk result ((n : List ℕ) (i q : ℕ) →
        has_place names.old n i q ≡ true → has_place names.new n i q ≡ true) }
{
    let item = input.item();
    if !item.archive || item.whole {
        return Ok(());
    }
    let Some(entries) = input.entries() else {
        return Ok(());
    };
    add_entries(alloc, names, item.number, entries)
}

/// The places of the names of inputs.
fn names_of<'a>(
    alloc: Global,
    inputs: &[Input<'a>],
    seed: Option<NameSeed>,
) -> Result<NamePlaces<'a>, AllocError>
    ensures sized { IfOk result IsSized }
    ensures placed { IfOk result (λ m. ArePlaced m inputs.now) }
{
    let mut names = NamePlaces {
        names: NameTable::new(alloc, seed),
        lists: Vec::new(alloc),
    };
    for input in inputs {
        add_input(alloc, &mut names, input)?;
    }
    Ok(names)
}

impl<'a> NamePlaces<'a> {
    /// The places of a name that has any.
    fn places(&self, name: &[u8]) -> Option<&Vec<(u64, usize)>>
        requires { IsSized self.now }
        ensures { unwrap_or (option_map (λ v. v.now.items) result) []
            ≡ places_in self.now name.now }
    {
        let number = self.names.find(name)?;
        self.lists.get(number)
    }
}

impl<'i, 'a> Places<'i, 'a> {
    /// The places of the names of inputs, which are to be hashed from a seed, or found by their order without one.
    pub fn new(
        alloc: Global,
        inputs: &'i [Input<'a>],
        seed: Option<NameSeed>,
    ) -> Result<Places<'i, 'a>, AllocError>
        ensures { IfOk result (λ p. p ≡ inputs.entry.now) }
    {
        let names = names_of(alloc, inputs, seed)?;
        Ok(Places { inputs, names })
    }

    /// Wakes the entries of a name.
    pub fn wake(&self, awake: &mut Awake, name: &[u8]) -> Result<(), AllocError>
        ensures woken { OnOk result (IsWoken self.now name.now awake.new) }
        ensures stays { OnOk result ((i q : ℕ) →
            is_awake awake.old i q ≡ true → is_awake awake.new i q ≡ true) }
    {
        let Some(places) = self.names.places(name) else {
            return Ok(());
        };
        awake.wake_all(places)?;
        Ok(())
    }
}
