//! The names of an archive's index by the members for which they stand, so that the entries of a member are found without a
//! pass over the index.
ghost use Rattle.std.specs.Prelude.{◌≡◌, ◌≤◌, ◌<◌, ◌↔◌, ℕ, true, false, Any, IfOk, IsPermutation, IsSomeAnd, IsTrue, List, filter, length, map, slice_get, slice_index_or};
ghost use Rattle.std.specs.List.Sorted.{IsNonDecreasingBy};
ghost use Rattle.check_load.specs.Loaders.{loaded};
ghost use Rattle.check_load.specs.Names.{defines_name, requests_name};
ghost use Rattle.elf_model.specs.Inputs.Opening.{archive_entries};
ghost use Rattle.elf_model.specs.Link.Loading.{is_defined, is_requested};
ghost use Rattle.judge_model.specs.Loaded.{is_named_by};
ghost use Rattle.order_judge.specs.MemberNames.{IsAskedFor, entry_of, is_at, is_name_needed};

use crate::turns::is_named_by;
use ar_index::IndexEntry;
use check_load::Loader;
use opening::Input;
use std::alloc::{AllocError, Global};
use std::marker::Model;

/// A name of an archive's index, and the offset of the header of the member for which it stands.
#[derive(Clone, Copy, Debug)]
pub struct MemberName<'a> {
    pub offset: u64,
    pub name: &'a [u8],
}

/// The names of entries.
fn names_of<'a>(
    alloc: Global,
    entries: &[IndexEntry<'a>],
) -> Result<Vec<MemberName<'a>>, AllocError>
    ensures { IfOk result (λ v. map entry_of v.items ≡ entries.now) }
{
    let mut names = Vec::new(alloc);
    for entry in entries {
        names.push(MemberName {
            offset: entry.offset(),
            name: entry.name(),
        })?;
    }
    Ok(names)
}

/// Names by rising offset.
fn by_offset<'a>(names: Vec<MemberName<'a>>) -> Result<Vec<MemberName<'a>>, AllocError>
    ensures same { IfOk result (λ v. IsPermutation names.entry.items v.items) }
    ensures rising { IfOk result (λ v. IsNonDecreasingBy (λ n. n.offset) v.items) }
{
    let mut names = names;
    names.sort_by_key(|n| n.offset)?;
    Ok(names)
}

/// How many of the names are of members before an offset.
fn count_before(names: &[MemberName<'_>], offset: u64) -> usize
    requires { IsNonDecreasingBy (λ n. n.offset) names.now }
    ensures within { result ≤ length names.now }
    ensures before { (k : ℕ) (d : MemberName) →
        k < result → (slice_index_or names.now k d).offset < offset }
    ensures from { (k : ℕ) (d : MemberName) →
        result ≤ k → k < length names.now → offset ≤ (slice_index_or names.now k d).offset }
{
    names.partition_point(|n| n.offset < offset)
}

/// How many of the names are of members up to an offset.
fn count_through(names: &[MemberName<'_>], offset: u64) -> usize
    requires { IsNonDecreasingBy (λ n. n.offset) names.now }
    ensures within { result ≤ length names.now }
    ensures through { (k : ℕ) (d : MemberName) →
        k < result → (slice_index_or names.now k d).offset ≤ offset }
    ensures behind { (k : ℕ) (d : MemberName) →
        result ≤ k → k < length names.now → offset < (slice_index_or names.now k d).offset }
{
    names.partition_point(|n| n.offset <= offset)
}

/// The names of the member whose header is at an offset.
fn names_at<'n, 'a>(names: &'n [MemberName<'a>], offset: u64) -> &'n [MemberName<'a>]
    requires { IsNonDecreasingBy (λ n. n.offset) names.now }
    ensures { result.now ≡ filter (is_at offset) names.entry.now }
{
    let (through, _later) = names.split_at(count_through(names, offset));
    let (_earlier, here) = through.split_at(count_before(through, offset));
    here
}

/// Whether one of the names is needed.
fn is_one_needed(loader: &Loader<'_, '_>, names: &[MemberName<'_>]) -> bool
    requires requested { (n : List ℕ) →
        requests_name loader.now.names n ≡ is_requested loader.now.plan.now (loaded loader.now) n }
    requires defined { (n : List ℕ) →
        defines_name loader.now.names n ≡ is_defined (loaded loader.now) n }
    ensures { IsTrue result
        ↔ Any (λ n. is_name_needed loader.now.plan.now (loaded loader.now) n ≡ true) names.now }
{
    for name in names {
        if loader.needs(name.name) {
            return true;
        }
    }
    false
}

/// An input, and the names of its archive's index by rising offsets, where it is searched.
#[derive(Drop)]
pub struct IndexedInput<'i, 'a> {
    input: &'i Input<'a>,
    names: Vec<MemberName<'a>>,
}

impl<'i, 'a> Model for IndexedInput<'i, 'a> {
    ghost use Rattle.elf_model.specs.Inputs.Opening.{Opened};
    ghost use Rattle.judge_model.specs.Loaded.{is_named_by};
    ghost use Rattle.order_judge.specs.MemberNames.{HasNames};

    ghost Value = { Opened };

    ghost view = { λ i. i.input.now };

    ghost invariant = { λ i. HasNames i.input.now i.names.items };
}

/// The names of the index of an input, in its order; none of one that the command names, or without an index.
fn names_in<'a>(alloc: Global, input: &Input<'a>) -> Result<Vec<MemberName<'a>>, AllocError>
    ensures { IfOk result (λ v. is_named_by input.now ≡ false
        → map entry_of v.items ≡ archive_entries input.now.bytes) }
{
    if is_named_by(input) {
        return Ok(Vec::new(alloc));
    }
    match input.entries() {
        Some(entries) => names_of(alloc, entries),
        None => Ok(Vec::new(alloc)),
    }
}

impl<'i, 'a> IndexedInput<'i, 'a> {
    /// Sorts the names of the index of an input.
    fn new(alloc: Global, input: &'i Input<'a>) -> Result<IndexedInput<'i, 'a>, AllocError>
        ensures { IfOk result (λ i. i ≡ input.entry.now) }
    {
        let names = by_offset(names_in(alloc, input)?)?;
        Ok(IndexedInput { input, names })
    }

    /// Whether the command names the input's objects, or a name of the index is needed that stands for the member whose header
    /// is at an offset.
    fn asks_for(&self, loader: &Loader<'_, '_>, offset: u64) -> bool
        requires requested { (n : List ℕ) →
            requests_name loader.now.names n ≡ is_requested loader.now.plan.now (loaded loader.now) n }
        requires defined { (n : List ℕ) →
            defines_name loader.now.names n ≡ is_defined (loaded loader.now) n }
        ensures { IsTrue result
            ↔ IsAskedFor loader.now.plan.now (loaded loader.now) offset self.now }
    {
        if is_named_by(self.input) {
            return true;
        }
        is_one_needed(loader, names_at(&self.names, offset))
    }
}

/// Inputs with the names of their indexes. It takes the count of all entries times its logarithm.
pub fn indexed<'i, 'a>(
    alloc: Global,
    inputs: &'i [Input<'a>],
) -> Result<Vec<IndexedInput<'i, 'a>>, AllocError>
    ensures { IfOk result (λ v. v.items ≡ inputs.entry.now) }
{
    let mut all = Vec::new(alloc);
    for input in inputs {
        all.push(IndexedInput::new(alloc, input)?)?;
    }
    Ok(all)
}

/// Whether the object of an item at an offset is named by the command, or needed by what is loaded; that of no item isn't.
pub fn is_asked_for(
    loader: &Loader<'_, '_>,
    inputs: &[IndexedInput<'_, '_>],
    item: u64,
    offset: u64,
) -> bool
    requires requested { (n : List ℕ) →
        requests_name loader.now.names n ≡ is_requested loader.now.plan.now (loaded loader.now) n }
    requires defined { (n : List ℕ) →
        defines_name loader.now.names n ≡ is_defined (loaded loader.now) n }
    ensures { IsTrue result ↔ IsSomeAnd (slice_get inputs.now item)
        (IsAskedFor loader.now.plan.now (loaded loader.now) offset) }
{
    match inputs.get(item as usize) {
        Some(input) => input.asks_for(loader, offset),
        None => false,
    }
}
