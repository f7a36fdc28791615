//! The bytes of debug data: those of the input, and over them what entries want.
ghost use Rattle.std.specs.Prelude.{◌≡◌, ◌<◌, ◌&&◌, ℕ, IfOk, Option, false, length, not, option_map, slice_index};
ghost use Rattle.std.specs.List.{filter_map, list_any};
ghost use Rattle.std.specs.Option.{option_map_or};
ghost use Rattle.elf_model.specs.Link.Relocation.{is_some_kind};
ghost use Rattle.placing.specs.PlaceViews.{place_view};
ghost use Rattle.search.specs.Views.{loaded_view};
ghost use Rattle.debug_image.specs.DataIndexes.{listed_entries};
ghost use Rattle.debug_image.specs.DebugLayouts.{IsDataLayout, IsHere, data_in, object_here, placed_here};
ghost use Rattle.debug_image.specs.DebugValues as spec;
ghost use Rattle.debug_image.specs.DebugViews.{field_view};
ghost use Rattle.debug_image.specs.Marks.{mark_under};

use crate::chunks::Chunk;
use crate::data_index::DataSection;
use crate::data_places::data_section;
use crate::debug_values::{DataLayout, Here};
use crate::fields::{Field, entry_field, write_some};
use crate::lists::either;
use crate::marks::{has_twice, mark_some};
use elf_model::Rela;
use elf_read::RelaRun;
use layout::Place;
use search::{LoadedObject, is_some_kind};
use std::alloc::{AllocError, Global};

/// The bytes of a section as they stand in the image; and whether it isn't relocated as its entries say: an entry's type isn't
/// known, its field isn't inside the section, it wants a value that doesn't fit, or a place in data that aren't in the image, or
/// two of them have a byte in common. A field without a value is of all ones, a byte in two fields is that of the last entry, and
/// all else are bytes of the input.
#[derive(Drop)]
pub struct ChunkBytes {
    pub bytes: Vec<u8>,
    pub has_left: bool,
}

/// Whether an entry relocates, and has no field with the value that it wants.
fn is_left(entry: &Rela, field: &Option<Field>) -> bool
    ensures { (f : Option spec.Field) → option_map field_view field.now ≡ f
        → result ≡ (is_some_kind entry.now && not (option_map_or (λ x. x.done) f false)) }
{
    match field {
        Some(field) => is_some_kind(entry) && !field.done,
        None => is_some_kind(entry),
    }
}

/// Writes what entries want, and marks it; answers whether one of them isn't done.
fn write_run(
    layout: &DataLayout<'_, '_>,
    here: &Here<'_, '_, '_>,
    entries: &RelaRun<'_>,
    bytes: &mut [u8],
    marks: &mut [u8],
) -> bool
    requires layout { IsDataLayout layout.now }
    requires here { IsHere layout.now here.now }
    requires whole { length bytes.old ≡ length (placed_here here.now).piece.bytes }
    requires marked { length marks.old ≡ length bytes.old }
    ensures bytes { (k : ℕ) → k < length bytes.old
        → slice_index bytes.new k
        ≡ spec.byte_under k (slice_index bytes.old k)
        (filter_map (spec.entry_field (data_in layout.now) (placed_here here.now)
        (object_here here.now)) entries.now) }
    ensures marks { (k : ℕ) → k < length marks.old
        → slice_index marks.new k
        ≡ mark_under k (slice_index marks.old k)
        (filter_map (spec.entry_field (data_in layout.now) (placed_here here.now)
        (object_here here.now)) entries.now) }
    ensures left { result ≡ list_any (spec.is_left (data_in layout.now) (placed_here here.now)
        (object_here here.now)) entries.now }
{
    let count = entries.len();
    let mut left = false;
    for i in 0..count {
        let entry = entries.at(i);
        let field = entry_field(layout, here, &entry);
        write_some(&field, bytes);
        mark_some(&field, marks);
        left = either(left, is_left(&entry, &field));
    }
    left
}

/// Whether section `i` of an object, if it holds relocations, holds those of a section, and isn't dropped.
fn is_rela_for(loaded: &LoadedObject<'_>, target: u64, i: usize) -> bool
    ensures { result ≡ spec.is_rela_for (loaded_view loaded.now) target i }
{
    loaded.object.section(i).sh_info as u64 == target && !loaded.is_dropped(i)
}

/// The entries of section `i` of an object for a section; none where it holds none for that.
fn entries_at<'a>(loaded: &LoadedObject<'a>, target: u64, i: usize) -> RelaRun<'a>
    ensures { result ≡ spec.entries_at (loaded_view loaded.now) target i }
{
    if is_rela_for(loaded, target, i) {
        loaded.object.entries(i)
    } else {
        RelaRun::none()
    }
}

/// Writes what the entries of the sections that are listed for a section want, and marks it; answers whether one of them isn't
/// done.
fn write_listed(
    layout: &DataLayout<'_, '_>,
    here: &Here<'_, '_, '_>,
    section: &DataSection,
    bytes: &mut [u8],
    marks: &mut [u8],
) -> bool
    requires layout { IsDataLayout layout.now }
    requires here { IsHere layout.now here.now }
    requires whole { length bytes.old ≡ length (placed_here here.now).piece.bytes }
    requires marked { length marks.old ≡ length bytes.old }
    ensures bytes { (k : ℕ) → k < length bytes.old
        → slice_index bytes.new k
        ≡ spec.byte_under k (slice_index bytes.old k)
        (filter_map (spec.entry_field (data_in layout.now) (placed_here here.now)
        (object_here here.now)) (listed_entries (object_here here.now) section.now)) }
    ensures marks { (k : ℕ) → k < length marks.old
        → slice_index marks.new k
        ≡ mark_under k (slice_index marks.old k)
        (filter_map (spec.entry_field (data_in layout.now) (placed_here here.now)
        (object_here here.now)) (listed_entries (object_here here.now) section.now)) }
    ensures left { result ≡ list_any (spec.is_left (data_in layout.now) (placed_here here.now)
        (object_here here.now)) (listed_entries (object_here here.now) section.now) }
{
    let loaded = here.loaded;
    let mut left = false;
    for number in &section.relas {
        let entries = loaded.object.entries(*number);
        left = either(left, write_run(layout, here, &entries, bytes, marks));
    }
    left
}

/// Writes what the entries of all sections for a section want, as `write_listed` of what isn't in the index.
fn write_each(
    layout: &DataLayout<'_, '_>,
    here: &Here<'_, '_, '_>,
    bytes: &mut [u8],
    marks: &mut [u8],
) -> bool
    requires layout { IsDataLayout layout.now }
    requires here { IsHere layout.now here.now }
    requires whole { length bytes.old ≡ length (placed_here here.now).piece.bytes }
    requires marked { length marks.old ≡ length bytes.old }
    ensures bytes { (k : ℕ) → k < length bytes.old
        → slice_index bytes.new k
        ≡ spec.byte_under k (slice_index bytes.old k)
        (spec.fields_for (data_in layout.now) (placed_here here.now) (object_here here.now)) }
    ensures marks { (k : ℕ) → k < length marks.old
        → slice_index marks.new k
        ≡ mark_under k (slice_index marks.old k)
        (spec.fields_for (data_in layout.now) (placed_here here.now) (object_here here.now)) }
    ensures left { result ≡ list_any (spec.is_left (data_in layout.now) (placed_here here.now)
        (object_here here.now))
        (spec.entries_for (object_here here.now) here.now.place.now.piece.section) }
{
    let place = here.place;
    let loaded = here.loaded;
    let count = loaded.object.sections().len();
    let mut left = false;
    for i in 0..count {
        let entries = entries_at(loaded, place.piece.section, i);
        left = either(left, write_run(layout, here, &entries, bytes, marks));
    }
    left
}

/// Writes what all entries for a section want, and marks it; answers whether one of them isn't done.
fn write_all(
    layout: &DataLayout<'_, '_>,
    here: &Here<'_, '_, '_>,
    bytes: &mut [u8],
    marks: &mut [u8],
) -> bool
    requires layout { IsDataLayout layout.now }
    requires here { IsHere layout.now here.now }
    requires whole { length bytes.old ≡ length (placed_here here.now).piece.bytes }
    requires marked { length marks.old ≡ length bytes.old }
    ensures bytes { (k : ℕ) → k < length bytes.old
        → slice_index bytes.new k
        ≡ spec.byte_under k (slice_index bytes.old k)
        (spec.fields_for (data_in layout.now) (placed_here here.now) (object_here here.now)) }
    ensures marks { (k : ℕ) → k < length marks.old
        → slice_index marks.new k
        ≡ mark_under k (slice_index marks.old k)
        (spec.fields_for (data_in layout.now) (placed_here here.now) (object_here here.now)) }
    ensures left { result ≡ list_any (spec.is_left (data_in layout.now) (placed_here here.now)
        (object_here here.now))
        (spec.entries_for (object_here here.now) here.now.place.now.piece.section) }
{
    let place = here.place;
    match data_section(&layout.places, place.piece.object, place.piece.section) {
        Some(section) => write_listed(layout, here, section, bytes, marks),
        None => write_each(layout, here, bytes, marks),
    }
}

/// Writes what is wanted over the bytes of a section, and marks it; answers whether an entry for it isn't done.
fn write_wanted(
    layout: &DataLayout<'_, '_>,
    place: &Place<'_>,
    bytes: &mut [u8],
    marks: &mut [u8],
) -> bool
    requires layout { IsDataLayout layout.now }
    requires whole { length bytes.old ≡ length (place_view place.now).piece.bytes }
    requires marked { length marks.old ≡ length bytes.old }
    ensures bytes { (k : ℕ) → k < length bytes.old
        → slice_index bytes.new k
        ≡ spec.byte_under k (slice_index bytes.old k)
        (spec.fields (data_in layout.now) (place_view place.now)) }
    ensures marks { (k : ℕ) → k < length marks.old
        → slice_index marks.new k
        ≡ mark_under k (slice_index marks.old k)
        (spec.fields (data_in layout.now) (place_view place.now)) }
    ensures left { result ≡ spec.entries_left (data_in layout.now) (place_view place.now) }
{
    let objects = layout.places.objects;
    match objects.get(place.piece.object as usize) {
        Some(loaded) => write_all(layout, &Here { loaded, place }, bytes, marks),
        None => false,
    }
}

/// The bytes of the section of a chunk as they stand in the image, behind the zeros that are in front of it.
///
/// # Errors
///
/// Only where memory is refused.
pub fn chunk_data<'a>(
    alloc: Global,
    layout: &DataLayout<'_, 'a>,
    chunk: &Chunk<'a>,
) -> Result<ChunkBytes, AllocError>
    requires { IsDataLayout layout.now }
    ensures bytes { IfOk result (λ c. c.bytes.items
        ≡ spec.debug_bytes (data_in layout.now) (place_view chunk.now.place)) }
    ensures left { IfOk result (λ c. c.has_left
        ≡ spec.has_left (data_in layout.now) (place_view chunk.now.place)) }
{
    let place = &chunk.place;
    let mut bytes = Vec::from_slice(alloc, place.piece.bytes)?;
    let mut marks = vec![in alloc; 0u8; bytes.len()]?;
    let left = write_wanted(layout, place, &mut bytes, &mut marks);
    let has_left = either(left, has_twice(&marks));
    Ok(ChunkBytes { bytes, has_left })
}
