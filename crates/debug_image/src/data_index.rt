//! The sections of debug data of an object by their numbers: where each stands, and which sections hold relocations for it.
ghost use Rattle.std.specs.Prelude.{◌≡◌, ◌+◌, ◌++◌, ◌∷◌, [], IfOk, List, OnOk};
ghost use Rattle.std.specs.BTreeMap.{get};
ghost use Rattle.std.specs.Ordering.{nat_cmp};
ghost use Rattle.elf_model.specs.Link.Placement.{Placed};
ghost use Rattle.placing.specs.PlaceViews.{place_view, place_views};
ghost use Rattle.search.specs.Views.{loaded_view};
ghost use Rattle.debug_image.specs.DataIndexes.{AreOffsets, AreRelas, HasNoRelas, IsIndex};

use layout::Place;
use search::LoadedObject;
use std::alloc::{AllocError, Global};
use std::collections::BTreeMap;

/// A section of debug data: its offset in what is joined of its name, and the numbers of the sections, none of them dropped,
/// that hold relocations for it.
#[derive(Drop)]
pub struct DataSection {
    pub at: u64,
    pub relas: Vec<usize>,
}

/// Adds a section at its offset, without relocations.
fn add_place(
    alloc: Global,
    index: &mut BTreeMap<u64, DataSection>,
    place: &Place<'_>,
) -> Result<(), AllocError>
    ensures offsets { OnOk result ((row : List Placed) → AreOffsets row index.old
        → AreOffsets (row ++ place_view place.now ∷ []) index.new) }
    ensures relas { OnOk result (HasNoRelas index.old → HasNoRelas index.new) }
{
    let number = place.piece.section;
    if index.contains_key(&number) {
        return Ok(());
    }
    let section = DataSection {
        at: place.at,
        relas: Vec::new(alloc),
    };
    index.insert(number, section)?;
    Ok(())
}

/// The sections of a row, without relocations.
fn places_of(alloc: Global, row: &[Place<'_>]) -> Result<BTreeMap<u64, DataSection>, AllocError>
    ensures offsets { IfOk result (AreOffsets (place_views row.now)) }
    ensures relas { IfOk result HasNoRelas }
{
    let mut index = BTreeMap::new(alloc);
    for place in row {
        add_place(alloc, &mut index, place)?;
    }
    Ok(index)
}

/// Adds section `i` of an object to those that hold relocations for the one that it names, unless it is dropped.
fn add_section(
    index: &mut BTreeMap<u64, DataSection>,
    loaded: &LoadedObject<'_>,
    i: usize,
) -> Result<(), AllocError>
    ensures offsets { OnOk result ((row : List Placed) → AreOffsets row index.old
        → AreOffsets row index.new) }
    ensures relas { OnOk result (AreRelas (loaded_view loaded.now) i index.old
        → AreRelas (loaded_view loaded.now) (i + 1) index.new) }
{
    if loaded.is_dropped(i) {
        return Ok(());
    }
    let target = loaded.object.section(i).sh_info as u64;
    if let Some(section) = index.get_mut(&target) {
        section.relas.push(i)?;
    }
    Ok(())
}

/// The sections of a row, with the sections of the object that hold relocations for them.
pub fn index_of(
    alloc: Global,
    loaded: &LoadedObject<'_>,
    row: &[Place<'_>],
) -> Result<BTreeMap<u64, DataSection>, AllocError>
    ensures { IfOk result (IsIndex (loaded_view loaded.now) (place_views row.now)) }
{
    let mut index = places_of(alloc, row)?;
    for i in 0..loaded.object.sections().len() {
        add_section(&mut index, loaded, i)?;
    }
    Ok(index)
}
