//! Kept relocations of an object whose fields share a byte: by one sweep over the fields in order, which keeps the one that
//! reaches furthest.
ghost use Rattle.std.specs.Prelude.{◌≡◌, ◌↔◌, ◌⊎◌, ◌+◌, [], ◌∷◌, ◌++◌, AllPairs, IfOk, IsPermutation, IsTrue, OnOk, length, map};
ghost use Rattle.elf_model.specs.Link.Relocation as relocation;
ghost use Rattle.search.specs.KeptLists.{IsKeptRela};
ghost use Rattle.search.specs.Views.{loaded_view, loaded_views};
ghost use Rattle.flaws.specs.Flaws.{AreAdded};
ghost use Rattle.wrong_references.specs.Entries.{entries_in, entry_of, rela_entries};
ghost use Rattle.wrong_references.specs.Overlaps.{AddsField, AddsOverlaps, AreApart, IsBehind, came, field_at, fields_of, numbered};
ghost use Rattle.wrong_references.specs.Sweep.{Reaches};
ghost use Rattle.wrong_references.specs.declared.flaw.ReferenceFlaw.TheVariants as flaw;

use crate::flaw::{Added, EntryNumber, ReferenceFlaw};
use elf_model::Rela;
use relocate::Kind;
use search::{KeptRela, LoadedObject};
use std::alloc::{AllocError, Global};

/// The field of an entry of a kept RELA section.
#[derive(Clone, Copy, Debug)]
pub struct FieldAt {
    /// The number of the section that the entry relocates.
    pub section: u64,
    /// The offset in there of the first byte.
    pub start: u64,
    /// How many bytes; 0 where the entry's type isn't one that is linked.
    pub width: u64,
    pub entry: EntryNumber,
}

/// The width of an entry's field.
fn width(entry: &Rela) -> u64
    ensures { (r : relocation.Relocation) → r.entry ≡ entry.now → result ≡ relocation.width_of r }
{
    match Kind::of(entry.kind()) {
        Some(kind) => u64::from(kind.width),
        None => 0,
    }
}

/// The field of entry `number` of a kept RELA section of object `_object`.
fn field_of(
    _object: usize,
    _one: &LoadedObject<'_>,
    rela: KeptRela,
    number: usize,
    entry: &Rela,
) -> FieldAt
    ensures { result ≡ field_at (entry_of _object (loaded_view _one.now) rela number entry.now) }
{
    FieldAt {
        section: u64::from(rela.target),
        start: entry.r_offset,
        width: width(entry),
        entry: EntryNumber {
            table: u64::from(rela.number),
            number: number as u64,
        },
    }
}

/// Lists the fields of the entries of a kept RELA section of object `object`.
fn list_entries(
    fields: &mut Vec<FieldAt>,
    object: usize,
    one: &LoadedObject<'_>,
    rela: KeptRela,
) -> Added
    requires { IsKeptRela (loaded_view one.now) rela }
    ensures { OnOk result (fields.new.items
        ≡ fields.old.items
        ++ map field_at
        (entries_in object (loaded_view one.now) rela 0
        (rela_entries (loaded_view one.now) rela))) }
{
    let run = one.all_entries(rela);
    for number in 0..run.len() {
        fields.push(field_of(object, one, rela, number, &run.at(number)))?;
    }
    Ok(())
}

/// The fields of the entries of the kept RELA sections of object `object`.
fn list_fields(
    alloc: Global,
    object: usize,
    one: &LoadedObject<'_>,
) -> Result<Vec<FieldAt>, AllocError>
    ensures { IfOk result (λ fields. fields.items ≡ fields_of object (loaded_view one.now)) }
{
    let relas = one.kept_relas();
    let mut fields = Vec::new(alloc);
    for rela in relas {
        list_entries(&mut fields, object, one, *rela)?;
    }
    Ok(fields)
}

/// Puts fields in the order of their sections and of their beginnings.
fn put_in_order(fields: &mut Vec<FieldAt>) -> Added
    ensures same { OnOk result (IsPermutation fields.old.items fields.new.items) }
    ensures ordered { OnOk result (AllPairs IsBehind fields.new.items) }
{
    fields.sort_by_key(|f| (f.section, f.start))?;
    Ok(())
}

/// Whether no byte is in both of two fields, of which the second one doesn't begin before the first one.
fn are_apart(first: &FieldAt, second: &FieldAt) -> bool
    requires { IsBehind first.now second.now }
    ensures { IsTrue result ↔ AreApart first.now second.now }
{
    if first.section != second.section {
        return true;
    }
    if second.width == 0 {
        return true;
    }
    second.start - first.start >= first.width
}

/// Of two fields, of which the second one doesn't begin before the first one, one that reaches as far as both.
fn furthest_of(first: FieldAt, second: FieldAt) -> FieldAt
    requires { IsBehind first second }
    ensures one { (result ≡ first) ⊎ (result ≡ second) }
    ensures first { Reaches result first }
    ensures second { Reaches result second }
{
    if first.section != second.section {
        return second;
    }
    let apart = second.start - first.start;
    if apart < first.width && second.width <= first.width - apart {
        return first;
    }
    second
}

/// Adds two fields of object `object`, of which the second one doesn't begin before the first one, where they share a byte.
fn add_two(
    flaws: &mut Vec<ReferenceFlaw>,
    object: usize,
    first: &FieldAt,
    second: &FieldAt,
) -> Added
    requires { IsBehind first.now second.now }
    ensures { OnOk result ((AreApart first.now second.now × (flaws.new.items ≡ flaws.old.items))
        ⊎ ((AreApart first.now second.now → ⊥)
        × (flaws.new.items
        ≡ flaws.old.items ++ flaw.Overlap object first.now.entry second.now.entry ∷ []))) }
{
    if are_apart(first, second) {
        return Ok(());
    }
    flaws.push(ReferenceFlaw::Overlap(object as u64, first.entry, second.entry))?;
    Ok(())
}

/// Adds the overlaps of fields of object `object`, which are in order.
fn add_in_order(flaws: &mut Vec<ReferenceFlaw>, object: usize, fields: &[FieldAt]) -> Added
    requires { AllPairs IsBehind fields.now }
    ensures { OnOk result (AreAdded (AddsField object) fields.now (came [] flaws.old.items)
        (came fields.now flaws.new.items)) }
{
    if fields.is_empty() {
        return Ok(());
    }
    let mut furthest = fields[0];
    for i in 1..fields.len() {
        add_two(flaws, object, &furthest, &fields[i])?;
        furthest = furthest_of(furthest, fields[i]);
    }
    Ok(())
}

/// Adds the overlaps of object `object`.
fn add_overlaps(
    alloc: Global,
    flaws: &mut Vec<ReferenceFlaw>,
    object: usize,
    one: &LoadedObject<'_>,
) -> Added
    ensures { OnOk result (AddsOverlaps (object, loaded_view one.now)
        flaws.old.items flaws.new.items) }
{
    let mut fields = list_fields(alloc, object, one)?;
    put_in_order(&mut fields)?;
    add_in_order(flaws, object, &fields)?;
    Ok(())
}

/// Adds the overlaps of all objects.
pub(crate) fn add_all_overlaps(
    alloc: Global,
    flaws: &mut Vec<ReferenceFlaw>,
    objects: &[LoadedObject<'_>],
) -> Added
    ensures { OnOk result (AreAdded AddsOverlaps (numbered 0 (loaded_views objects.now))
        flaws.old.items flaws.new.items) }
{
    for k in 0..objects.len() {
        add_overlaps(alloc, flaws, k, &objects[k])?;
    }
    Ok(())
}
