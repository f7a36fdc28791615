//! The objects that are loaded so far, and what loading has to know of them.
ghost use Rattle.std.specs.Prelude.{true, false, ◌≡◌, ◌≤◌, ◌<◌, List, [], ℕ, IfErr, IfNone, IfOk, IfSome, IsSomeAnd, OnOk, Some, length, option_map, slice_get};
ghost use Rattle.std.specs.List.{find};
ghost use Rattle.elf_model.specs.Inputs.ArchiveFile as archive;
ghost use Rattle.elf_model.specs.Link.Loading.{is_begun, is_defined, is_requested, needed, next, with_object};
ghost use Rattle.elf_model.specs.Inputs.ObjectFile.{IsObject};
ghost use Rattle.check_load.specs.Loaders.{AreFreeAwake, IsLoadable, Knows, is_free, loaded};
ghost use Rattle.check_load.specs.Awake.{is_awake};
ghost use Rattle.check_load.specs.Names.{defines_name, requests_name};
ghost use Rattle.opening.specs.Opened.{item_view};
ghost use Rattle.check_load.specs.Places.{IsAt};
ghost use Rattle.check_load.specs.Rounds.{AreAsleep, AreSideBySide};
ghost use Rattle.check_load.specs.Stops.{Refutes};
ghost use Rattle.check_load.specs.Taken.{has_item};

use crate::awake_entries::Awake;
use crate::kept_sections::kept_of;
use crate::known_names::KnownNames;
use crate::loaded::Loaded;
use crate::name_table::NameTable;
use crate::names::{note_object, roots};
use crate::places::Places;
use crate::signatures::admit;
use crate::stops::Stop;
use crate::taken_members::Taken;
use ar_index::IndexEntry;
use byteview::View;
use command::Plan;
use elf_model::{NameSeed, ObjFault};
use elf_read::ObjectFile;
use opening::{Input, OpenedItem};
use std::alloc::{AllocError, Global};

/// Loaded objects in load order, and the names whose numbers their symbols have.
#[derive(Drop)]
pub struct NamedObjects<'a> {
    pub objects: Vec<Loaded<'a>>,
    pub names: NameTable<'a>,
}

/// The loaded objects of a plan so far.
#[derive(Drop)]
pub struct Loader<'p, 'a> {
    plan: &'p Plan<'a>,
    objects: Vec<Loaded<'a>>,
    seen: NameTable<'a>,
    names: KnownNames<'a>,
    taken: Taken,
    awake: Awake,
}

/// Reads an object.
fn read_object<'a>(alloc: Global, bytes: &'a [u8]) -> Result<ObjectFile<'a>, Stop>
    ensures exact { IfOk result (λ o. o ≡ bytes.entry.now) }
    ensures object { OnOk result (IsObject bytes.entry.now) }
    ensures stop { IfErr result (Refutes (IsObject bytes.entry.now)) }
{
    match ObjectFile::read(alloc, View::new(bytes)) {
        Ok(object) => Ok(object),
        Err(ObjFault::Memory) => Err(Stop::Memory),
        Err(_) => Err(Stop::Unlawful),
    }
}

/// Whether an entry of an item gives a member: its name is asked for and not defined, and its member isn't taken.
fn is_free(names: &KnownNames<'_>, taken: &Taken, item: u64, entry: &IndexEntry<'_>) -> bool
    ensures { result ≡ is_free names.now taken.now item entry.now }
{
    let state = names.state_of(entry.name());
    if !state.requested || state.defined {
        return false;
    }
    !taken.has_member(item, entry.offset())
}

/// The offset of the member that entry `i` gives, where there is such an entry and it gives one.
fn free_at(
    names: &KnownNames<'_>,
    taken: &Taken,
    item: u64,
    entries: &[IndexEntry<'_>],
    i: usize,
) -> Option<u64>
    ensures found { IfSome result (λ k.
        IsSomeAnd (slice_get entries.now i)
        (λ e. (is_free names.now taken.now item e ≡ true) × (k ≡ e.offset))) }
    ensures none { IfNone result ((e : archive.IndexEntry) →
        slice_get entries.now i ≡ Some e → is_free names.now taken.now item e ≡ false) }
{
    let Some(entry) = entries.get(i) else {
        return None;
    };
    if !is_free(names, taken, item, entry) {
        return None;
    }
    Some(entry.offset())
}

/// The offset of the member that the first of an item's entries gives that gives one. Each that does is awake, and
/// stays so; those that are awake before it go to sleep.
fn first_free(
    names: &KnownNames<'_>,
    taken: &Taken,
    awake: &mut Awake,
    item: u64,
    entries: &[IndexEntry<'_>],
) -> Option<u64>
    requires { AreFreeAwake names.now taken.now item entries.now awake.old }
    ensures exact { result ≡ option_map (λ e. e.offset)
        (find (is_free names.now taken.now item) entries.now) }
    ensures awake { AreFreeAwake names.now taken.now item entries.now awake.new }
    ensures others { (i q : ℕ) → (i ≡ item → ⊥) →
        is_awake awake.old i q ≡ true → is_awake awake.new i q ≡ true }
{
    while let Some(i) = awake.first(item) {
        if let Some(offset) = free_at(names, taken, item, entries, i) {
            return Some(offset);
        }
        awake.lull(item, i);
    }
    None
}

impl<'p, 'a> Loader<'p, 'a> {
    /// Nothing of a plan is loaded. Names are to be hashed from a seed, or found by their order without one.
    pub fn new(
        alloc: Global,
        places: &Places<'_, '_>,
        plan: &'p Plan<'a>,
        seed: Option<NameSeed>,
    ) -> Result<Loader<'p, 'a>, AllocError>
        ensures plan { IfOk result (λ l. l.plan.now ≡ plan.entry.now) }
        ensures loaded { IfOk result (λ l. loaded l ≡ []) }
        ensures known { IfOk result (Knows places.now) }
    {
        let mut awake = Awake::new(alloc);
        let names = roots(alloc, places, &mut awake, plan.entry, &plan.undefined, seed)?;
        Ok(Loader {
            plan,
            objects: Vec::new(alloc),
            seen: NameTable::new(alloc, seed),
            names,
            taken: Taken::new(alloc),
            awake,
        })
    }

    /// Loads an object of an item, from the offset of its member's header.
    pub fn add(
        &mut self,
        alloc: Global,
        places: &Places<'_, '_>,
        item: &OpenedItem<'a>,
        offset: u64,
        bytes: &'a [u8],
    ) -> Result<(), Stop>
        requires { Knows places.now self.old }
        ensures plan { OnOk result (self.new.plan.now ≡ self.old.plan.now) }
        ensures loaded { OnOk result (loaded self.new
            ≡ with_object (loaded self.old) (item_view item.now) offset bytes.now) }
        ensures known { OnOk result (Knows places.now self.new) }
        ensures stop { IfErr result (Refutes (IsLoadable bytes.now)) }
    {
        let object = read_object(alloc, bytes)?;
        let dropped = admit(alloc, &mut self.seen, &object)?;
        let numbers = note_object(
            alloc,
            places,
            &mut self.awake,
            &mut self.names,
            &object,
            &dropped,
        )?;
        let kept = kept_of(alloc, &object, &dropped)?;
        self.taken.add(item.number, offset)?;
        self.objects.push(Loaded {
            object,
            item: item.number,
            offset,
            path: item.path,
            dropped,
            numbers,
            kept,
        })?;
        Ok(())
    }

    /// The offset of the member of an archive that is next. Its entries that are awake, give none and stand before
    /// the one that gives it go to sleep.
    pub fn next_member(&mut self, places: &Places<'_, '_>, input: &Input<'a>) -> Option<u64>
        requires known { Knows places.now self.old }
        requires at { IsAt places.now input.now }
        requires archive { input.now.archive ≡ true }
        requires searched { input.now.whole ≡ false }
        ensures plan { self.new.plan.now ≡ self.old.plan.now }
        ensures loaded { loaded self.new ≡ loaded self.old }
        ensures known { Knows places.now self.new }
        ensures exact { result ≡ option_map (λ e. e.offset)
            (next self.old.plan.now (loaded self.old) input.now) }
    {
        let Some(entries) = input.entries() else {
            return None;
        };
        let item = input.item().number;
        first_free(&self.names, &self.taken, &mut self.awake, item, entries)
    }

    /// The number of the first of inputs from one on, which have numbers side by side, with an entry that is awake.
    pub fn next_awake(&self, inputs: &[Input<'a>], from: usize) -> Option<usize>
        requires { AreSideBySide inputs.now }
        ensures inside { IfSome result (λ i. (from ≤ i) × (i < length inputs.now)) }
        ensures least { IfSome result (λ i. AreAsleep self.now inputs.now from i) }
        ensures none { IfNone result (AreAsleep self.now inputs.now from (length inputs.now)) }
    {
        let first = inputs.get(from)?.item().number;
        let item = self.awake.first_item(first)?;
        let behind = item - first;
        if behind >= (inputs.len() - from) as u64 {
            return None;
        }
        Some(from + behind as usize)
    }

    /// Whether an object of an item is loaded.
    pub fn has_begun(&self, item: u64) -> bool
        requires { (i : ℕ) → has_item self.now.taken i ≡ is_begun (loaded self.now) i }
        ensures { result ≡ is_begun (loaded self.now) item }
    {
        self.taken.has_item(item)
    }

    /// Whether a name is asked for by the command or by what is loaded, and not defined by what is loaded.
    pub fn needs(&self, name: &[u8]) -> bool
        requires requested { (n : List ℕ) →
            requests_name self.now.names n ≡ is_requested self.now.plan.now (loaded self.now) n }
        requires defined { (n : List ℕ) →
            defines_name self.now.names n ≡ is_defined (loaded self.now) n }
        ensures { result ≡ needed self.now.plan.now (loaded self.now) name.now }
    {
        let state = self.names.state_of(name);
        state.requested && !state.defined
    }

    /// How many objects are loaded.
    pub fn count(&self) -> usize
        ensures { result ≡ length (loaded self.now) }
    {
        self.objects.len()
    }

    /// What was loaded.
    pub fn finish(self) -> NamedObjects<'a>
        ensures objects { result.objects ≡ self.entry.objects }
        ensures names { result.names ≡ self.entry.names.names }
    {
        let Loader { objects, names, .. } = self;
        NamedObjects {
            objects,
            names: names.into_names(),
        }
    }
}
