//! Which entries of the indexes of a group's archives may give a member, so that a round looks at no others: an
//! entry waits from when its name is asked for until it is found to give none. An archive by itself is a group of one.
ghost use Rattle.std.specs.Prelude.{◌≡◌, ◌≤◌, ◌<◌, ◌&&◌, [], ℕ, List, Some, All, true, false, not, IfNone, IfOk, IfSome, IsSomeAnd, OnOk, length, option_map, slice_get, unwrap_or};
ghost use Rattle.std.specs.List.{find};
ghost use Rattle.elf_model.specs.Inputs.ArchiveFile as archive_file;
ghost use Rattle.elf_model.specs.Link.Loading.{next};
ghost use Rattle.elf_model.specs.Inputs.Opening.{Opened};
ghost use Rattle.search.specs.Loaders.{Knows, is_next_of, loaded};
ghost use Rattle.search.specs.Places.{is_place, is_waiting};
ghost use Rattle.search.specs.Waiting.{AllAwait, AreIdle, Awaits, Covers, NextWait};

use crate::loader::Loader;
use crate::name_places::{places_of, wake};
use crate::names::NameNumbers;
use crate::waiting_places::WaitingPlaces;
use ar_index::IndexEntry;
use elf_model::{Name, NameSeed};
use indexmap::IndexMap;
use opening::Input;
use std::alloc::{AllocError, Global};

/// What may give the next members of the archives of a group.
#[derive(Drop)]
pub struct Waits<'a> {
    /// The places of each name in the indexes of the archives that are searched.
    places: IndexMap<Name<'a>, Vec<(usize, usize)>, NameSeed>,
    /// The places that may give a member; of a whole archive its place 0, for all its members.
    waiting: WaitingPlaces,
    /// How many of the names that are asked for have been looked at.
    seen: usize,
}

/// Lets the entries of an archive wait that give a next member.
fn add_next<'a, N: NameNumbers<'a>>(
    waiting: &mut WaitingPlaces,
    loader: &Loader<'_, 'a, N>,
    archive: usize,
    item: u64,
    entries: &[IndexEntry<'a>],
) -> Result<(), AllocError>
    requires { Knows N.names loader.now }
    ensures wait { OnOk result (NextWait loader.now item entries.now archive waiting.new) }
    ensures stays { OnOk result ((k q : ℕ) →
        is_waiting waiting.old k q ≡ true → is_waiting waiting.new k q ≡ true) }
{
    for (i, entry) in entries.iter().enumerate() {
        if loader.is_next(item, entry.name(), entry.offset()) {
            waiting.add((archive, i))?;
        }
    }
    Ok(())
}

/// Lets wait what an archive may give.
fn add_waiting<'a, N: NameNumbers<'a>>(
    waiting: &mut WaitingPlaces,
    loader: &Loader<'_, 'a, N>,
    archive: usize,
    input: &Input<'a>,
) -> Result<(), AllocError>
    requires known { Knows N.names loader.now }
    requires archive { input.now.archive ≡ true }
    ensures awaited { OnOk result (Awaits loader.now [] archive input.now waiting.new) }
    ensures stays { OnOk result ((k q : ℕ) →
        is_waiting waiting.old k q ≡ true → is_waiting waiting.new k q ≡ true) }
{
    let item = input.item();
    if item.whole {
        return waiting.add((archive, 0));
    }
    let Some(entries) = input.entries() else {
        return Ok(());
    };
    add_next(waiting, loader, archive, item.number, entries)
}

/// What the archives of a group may give now.
fn waiting_now<'a, N: NameNumbers<'a>>(
    alloc: Global,
    loader: &Loader<'_, 'a, N>,
    inputs: &[Input<'a>],
) -> Result<WaitingPlaces, AllocError>
    requires known { Knows N.names loader.now }
    requires archives { All (λ i. i.archive ≡ true) inputs.now }
    ensures { IfOk result (AllAwait loader.now [] inputs.now) }
{
    let mut waiting = WaitingPlaces::new(alloc);
    for (i, input) in inputs.iter().enumerate() {
        add_waiting(&mut waiting, loader, i, input)?;
    }
    Ok(waiting)
}

/// The offset of the member of an archive's entry that is next; None where it is not, or where there is no such entry.
fn next_at<'a, N: NameNumbers<'a>>(
    loader: &Loader<'_, 'a, N>,
    item: u64,
    entries: &[IndexEntry<'a>],
    i: usize,
) -> Option<u64>
    requires { Knows N.names loader.now }
    ensures found { IfSome result (λ k.
        IsSomeAnd (slice_get entries.now i)
        (λ e. (is_next_of loader.now.plan.now (loaded loader.now) item e ≡ true)
        × (k ≡ e.offset))) }
    ensures none { IfNone result ((e : archive_file.IndexEntry) →
        slice_get entries.now i ≡ Some e
        → is_next_of loader.now.plan.now (loaded loader.now) item e ≡ false) }
{
    let Some(entry) = entries.get(i) else {
        return None;
    };
    if !loader.is_next(item, entry.name(), entry.offset()) {
        return None;
    }
    Some(entry.offset())
}

/// The offset of the member that the first of an archive's entries gives that gives a next one. The places before it
/// wait no longer.
fn first_next<'a, N: NameNumbers<'a>>(
    waiting: &mut WaitingPlaces,
    loader: &Loader<'_, 'a, N>,
    archive: usize,
    item: u64,
    entries: &[IndexEntry<'a>],
) -> Option<u64>
    requires known { Knows N.names loader.now }
    requires wait { NextWait loader.now item entries.now archive waiting.old }
    ensures exact { result ≡ option_map (λ e. e.offset)
        (find (is_next_of loader.now.plan.now (loaded loader.now) item) entries.now) }
    ensures wait { NextWait loader.now item entries.now archive waiting.new }
    ensures others { (k q : ℕ) → (k ≡ archive → ⊥) →
        is_waiting waiting.old k q ≡ true → is_waiting waiting.new k q ≡ true }
{
    while let Some(i) = waiting.first_entry(archive) {
        if let Some(offset) = next_at(loader, item, entries, i) {
            return Some(offset);
        }
        waiting.remove((archive, i));
    }
    None
}

impl<'a> Waits<'a> {
    /// What may give the next members of archives now.
    pub fn new<N: NameNumbers<'a>>(
        alloc: Global,
        loader: &Loader<'_, 'a, N>,
        inputs: &[Input<'a>],
    ) -> Result<Waits<'a>, AllocError>
        requires known { Knows N.names loader.now }
        requires archives { All (λ i. i.archive ≡ true) inputs.now }
        ensures { IfOk result (Covers loader.now inputs.now) }
    {
        Ok(Waits {
            places: places_of(alloc, loader.seed(), inputs)?,
            waiting: waiting_now(alloc, loader, inputs)?,
            seen: loader.request_count(),
        })
    }

    /// Lets the places wait whose names were asked for meanwhile.
    fn catch_up<N: NameNumbers<'a>>(&mut self, loader: &Loader<'_, 'a, N>) -> Result<(), AllocError>
        ensures covers { OnOk result ((os : List Opened) →
            Covers loader.now os self.old → Covers loader.now os self.new) }
        ensures seen { OnOk result (length loader.now.names.requested ≤ self.new.seen) }
    {
        let count = loader.request_count();
        while self.seen < count {
            let Some(name) = loader.request(self.seen) else {
                unreachable!()
            };
            wake(&self.places, &mut self.waiting, name)?;
            self.seen += 1;
        }
        Ok(())
    }

    /// The offset of the member of an archive that is searched, and has a number in the group, that is next.
    pub fn next<N: NameNumbers<'a>>(
        &mut self,
        loader: &Loader<'_, 'a, N>,
        inputs: &[Input<'a>],
        archive: usize,
        input: &Input<'a>,
    ) -> Result<Option<u64>, AllocError>
        requires known { Knows N.names loader.now }
        requires archive { input.now.archive ≡ true }
        requires searched { input.now.whole ≡ false }
        requires at { slice_get inputs.now archive ≡ Some input.now }
        requires covers { Covers loader.now inputs.now self.old }
        ensures exact { IfOk result (λ r. r
            ≡ option_map (λ e. e.offset) (next loader.now.plan.now (loaded loader.now) input.now)) }
        ensures covers { OnOk result (Covers loader.now inputs.now self.new) }
    {
        self.catch_up(loader)?;
        let Some(entries) = input.entries() else {
            return Ok(None);
        };
        let item = input.item().number;
        Ok(first_next(&mut self.waiting, loader, archive, item, entries))
    }

    /// The number of the first archive, of those with at least this number, that may take something; the turns of
    /// those before it take nothing.
    pub fn next_archive<N: NameNumbers<'a>>(
        &mut self,
        loader: &Loader<'_, 'a, N>,
        inputs: &[Input<'a>],
        from: usize,
    ) -> Result<Option<usize>, AllocError>
        requires { Covers loader.now inputs.now self.old }
        ensures within { IfOk result (λ r. IfSome r (λ k. (from ≤ k) × (k < length inputs.now))) }
        ensures idle { IfOk result (λ r.
            AreIdle loader.now inputs.now from (unwrap_or r (length inputs.now))) }
        ensures covers { OnOk result (Covers loader.now inputs.now self.new) }
    {
        self.catch_up(loader)?;
        let Some(archive) = self.waiting.first_archive(from) else {
            return Ok(None);
        };
        if archive >= inputs.len() {
            return Ok(None);
        }
        Ok(Some(archive))
    }

    /// Lets a whole archive wait no longer.
    pub fn settle(&mut self, archive: usize)
        ensures places { self.new.places ≡ self.old.places }
        ensures seen { self.new.seen ≡ self.old.seen }
        ensures waiting { (k q : ℕ) → is_waiting self.new.waiting k q
            ≡ (not (is_place k q (archive, 0)) && is_waiting self.old.waiting k q) }
    {
        self.waiting.remove((archive, 0));
    }
}
