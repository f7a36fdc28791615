//! The address of each kept section, of each common block and of the GOT, by the numbers of its object and of its own.
ghost use Rattle.std.specs.Prelude.{◌≡◌, ◌<◌, ◌++◌, ◌∷◌, ℕ, [], All, IfOk, None, OnOk, Option, Some, cond, find, option_map};
ghost use Rattle.elf_model.specs.Link.Placement.{is_of_section};
ghost use Rattle.search.specs.Views.{loaded_views};
ghost use Rattle.layout.specs.Addresses.{HasEntry, HasPlace, entry, piece_counts, shape_of, told};
ghost use Rattle.placing.specs.PlaceViews.{place_view, place_views};

use placing::Place;
use search::LoadedObject;
use std::alloc::{AllocError, Global};

/// What stands for no address: no piece is at 0.
const NO_ADDRESS: u64 = 0;

/// Puts a row of no addresses behind the rows.
fn add_row(alloc: Global, table: &mut Vec<Vec<u64>>, count: usize) -> Result<(), AllocError>
    ensures shape { OnOk result (shape_of table.new.items
        ≡ shape_of table.old.items ++ count ∷ []) }
    ensures empty { OnOk result (((object section : ℕ) →
        entry table.old.items object section ≡ None) → (object section : ℕ) →
        entry table.new.items object section ≡ None) }
{
    let row: Vec<u64> = Vec::from_elem(alloc, NO_ADDRESS, count)?;
    table.push(row)?;
    Ok(())
}

/// A row for each object with no address for any of its sections, one for so many blocks, and one for the GOT.
fn empty_table(
    alloc: Global,
    objects: &[LoadedObject<'_>],
    blocks: usize,
) -> Result<Vec<Vec<u64>>, AllocError>
    ensures shape { IfOk result (λ t. shape_of t.items
        ≡ piece_counts (loaded_views objects.now) blocks) }
    ensures empty { IfOk result (λ t. (object section : ℕ) → entry t.items object section ≡ None) }
{
    let mut table = Vec::with_capacity(alloc, objects.len())?;
    for loaded in objects {
        let count = loaded.object.sections().len();
        add_row(alloc, &mut table, count)?;
    }
    add_row(alloc, &mut table, blocks)?;
    add_row(alloc, &mut table, 1)?;
    Ok(table)
}

/// Puts the address of a place into the table.
fn put_address(table: &mut Vec<Vec<u64>>, place: &Place<'_>)
    requires there { HasEntry (shape_of table.old.items) place.now.piece.object
        place.now.piece.section }
    requires some { 0 < place.now.at }
    ensures shape { shape_of table.new.items ≡ shape_of table.old.items }
    ensures put { (object section : ℕ) →
        entry table.new.items object section
        ≡ cond {A = Option ℕ} (is_of_section object section (place_view place.now))
        (Some place.now.at) (entry table.old.items object section) }
{
    let row = &mut table[place.piece.object as usize];
    row[place.piece.section as usize] = place.at;
}

/// The addresses of places of objects, of so many blocks and of the GOT, that of the first where there are several of a
/// section.
pub fn address_table(
    alloc: Global,
    objects: &[LoadedObject<'_>],
    blocks: usize,
    places: &[Place<'_>],
) -> Result<Vec<Vec<u64>>, AllocError>
    requires there { All (HasPlace (piece_counts (loaded_views objects.now) blocks))
        (place_views places.now) }
    requires some { All (λ q. 0 < q.at) (place_views places.now) }
    ensures { IfOk result (λ t. (object section : ℕ) →
        entry t.items object section
        ≡ option_map (λ q. q.at) (find (is_of_section object section) (place_views places.now))) }
{
    let mut table = empty_table(alloc, objects, blocks)?;
    let mut left = places.len();
    while left > 0 {
        left -= 1;
        put_address(&mut table, &places[left]);
    }
    Ok(table)
}

/// The address that an entry tells.
fn told(at: u64) -> Option<u64>
    ensures { result ≡ told at }
{
    if at == NO_ADDRESS {
        return None;
    }
    Some(at)
}

/// The address that a table has for a section of an object.
pub fn address_in(table: &[Vec<u64>], object: usize, section: usize) -> Option<u64>
    ensures { result ≡ entry table.now object section }
{
    let row = table.get(object)?;
    told(*row.get(section)?)
}
