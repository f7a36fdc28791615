//! The debug data of a link as they are found in its objects.
ghost use Rattle.std.specs.Prelude.{◌≡◌, ◌≤◌, [], All, IfErr, IfOk, length};
ghost use Rattle.search.specs.Views.{loaded_views};
ghost use Rattle.debug_image.specs.DebugImage as spec;
ghost use Rattle.debug_image.specs.DebugSections as sections;
ghost use Rattle.debug_image.specs.DebugViews.{joined_views, row_views};
ghost use Rattle.debug_image.specs.DataIndexes.{AreAll};
ghost use Rattle.debug_image.specs.DebugLayouts.{IsFound};
ghost use Rattle.debug_image.specs.KeptGroups.{groups_from};
ghost use Rattle.debug_image.specs.KeptTables.{AreKept};
ghost use Rattle.debug_image.specs.Reports as reports;
ghost use Rattle.debug_image.specs.declared.faults.DebugFault.TheVariants as fault;

use crate::data_index::DataSection;
use crate::debug_file::Wanted;
use crate::faults::DebugFault;
use crate::joined::{Joined, JoinedData, joined_data};
use crate::kept_groups::{KeptGroups, kept_groups};
use crate::left_objects::left_flags;
use crate::reports::{LeftData, left_data};
use crate::stand_ins::{StandIns, stand_ins};
use elf_model::NameSeed;
use layout::Place;
use search::LoadedObject;
use std::alloc::{AllocError, Global};
use std::collections::BTreeMap;

/// The sections of all objects that go into the image, at their offsets in what is joined of their names, in a row for each
/// object; what is joined; an index of each row; what stands for the dropped sections of each object; and how much is left out.
#[derive(Drop)]
pub struct DebugData<'a> {
    pub rows: Vec<Vec<Place<'a>>>,
    pub joined: Vec<Joined<'a>>,
    pub index: Vec<BTreeMap<u64, DataSection>>,
    pub stand_ins: Vec<StandIns>,
    pub left: LeftData,
}

/// The debug data of objects, where none are wanted.
fn no_data<'a>(alloc: Global, stand_ins: Vec<StandIns>) -> DebugData<'a>
    ensures rows { result.rows.items ≡ [] }
    ensures joined { result.joined.items ≡ [] }
    ensures index { result.index.items ≡ [] }
    ensures stand_ins { result.stand_ins ≡ stand_ins }
    ensures left { result.left ≡ reports.none_left }
{
    DebugData {
        rows: Vec::new(alloc),
        joined: Vec::new(alloc),
        index: Vec::new(alloc),
        stand_ins,
        left: LeftData::NONE,
    }
}

/// Joined debug data, with what else is found.
fn data_with<'a>(found: JoinedData<'a>, stand_ins: Vec<StandIns>, left: LeftData) -> DebugData<'a>
    ensures rows { result.rows ≡ found.entry.rows }
    ensures joined { result.joined ≡ found.entry.joined }
    ensures index { result.index ≡ found.entry.index }
    ensures stand_ins { result.stand_ins ≡ stand_ins }
    ensures left { result.left ≡ left }
{
    let JoinedData {
        rows,
        joined,
        index,
    } = found;
    DebugData {
        rows,
        joined,
        index,
        stand_ins,
        left,
    }
}

/// The debug data of objects, whose kept groups are known.
fn data_of<'a>(
    alloc: Global,
    kept: &KeptGroups<'a>,
    objects: &[LoadedObject<'a>],
    stand_ins: Vec<StandIns>,
) -> Result<DebugData<'a>, DebugFault>
    requires { AreKept (groups_from 0 (loaded_views objects.now)) kept.now }
    ensures rows { IfOk result (λ d. row_views d.rows.items
        ≡ sections.debug_rows (loaded_views objects.now)) }
    ensures joined { IfOk result (λ d. joined_views d.joined.items
        ≡ sections.joined_of (loaded_views objects.now)) }
    ensures left { IfOk result (λ d. d.left ≡ reports.left_data (loaded_views objects.now)) }
    ensures low { IfOk result (λ d. All sections.IsLow (joined_views d.joined.items)) }
    ensures ends { IfOk result (λ d. sections.AreLow (row_views d.rows.items)) }
    ensures few { IfOk result (λ d. length d.joined.items ≤ sections.most_names) }
    ensures large { IfErr result (λ f. f ≡ fault.TooLarge
        → ¬ sections.AreFew (sections.debug_rows (loaded_views objects.now))
        (sections.joined_of (loaded_views objects.now))) }
    ensures index { IfOk result (λ d. AreAll (loaded_views objects.now)
        (row_views d.rows.items) d.index.items) }
    ensures stand_ins { IfOk result (λ d. d.stand_ins ≡ stand_ins) }
{
    let flags = left_flags(alloc, kept, objects)?;
    let left = left_data(&flags, objects);
    match joined_data(alloc, &flags, objects) {
        Ok(found) => Ok(data_with(found, stand_ins, left)),
        Err(fault) => Err(fault),
    }
}

/// The debug data of objects, where they are wanted; signatures of groups are hashed from a seed.
///
/// # Errors
///
/// As `joined_data`.
pub fn debug_data<'a>(
    alloc: Global,
    seed: NameSeed,
    objects: &[LoadedObject<'a>],
    wanted: Wanted,
) -> Result<DebugData<'a>, DebugFault>
    ensures rows { IfOk result (λ d. row_views d.rows.items
        ≡ spec.rows_in wanted (loaded_views objects.now)) }
    ensures joined { IfOk result (λ d. joined_views d.joined.items
        ≡ spec.joined_in wanted (loaded_views objects.now)) }
    ensures left { IfOk result (λ d. d.left ≡ spec.left_in wanted (loaded_views objects.now)) }
    ensures low { IfOk result (λ d. All sections.IsLow (joined_views d.joined.items)) }
    ensures ends { IfOk result (λ d. sections.AreLow (row_views d.rows.items)) }
    ensures few { IfOk result (λ d. length d.joined.items ≤ sections.most_names) }
    ensures large { IfErr result (λ f. f ≡ fault.TooLarge
        → ¬ sections.AreFew (spec.rows_in wanted (loaded_views objects.now))
        (spec.joined_in wanted (loaded_views objects.now))) }
    ensures found { IfOk result (IsFound (loaded_views objects.now)) }
{
    let kept = kept_groups(alloc, seed, objects)?;
    let stand_ins = stand_ins(alloc, &kept, objects)?;
    if !wanted.debug {
        return Ok(no_data(alloc, stand_ins));
    }
    match data_of(alloc, &kept, objects, stand_ins) {
        Ok(data) => Ok(data),
        Err(fault) => Err(fault),
    }
}
