//! The file of a debuggable image.
ghost use Rattle.std.specs.Prelude.{◌≡◌, ◌≤◌, ◌<◌, ◌^◌, ◌%◌, ◌++◌, ℕ, All, List, true, IfErr, IfOk, OnOk, drop, length, replicate};
ghost use Rattle.elf_model.specs.Own.ImageFile.{own_end, own_entry};
ghost use Rattle.elf_model.specs.Inputs.Records.{file_header, file_header_bytes};
ghost use Rattle.image_write.specs.Linkages.{own_image};
ghost use Rattle.elf_model.specs.Link.Placement as placements;
ghost use Rattle.relocate.specs.Values.{where_in};
ghost use Rattle.resolve.specs.Views.{meaning_views};
ghost use Rattle.debug_image.specs.DebugImage as spec;
ghost use Rattle.debug_image.specs.PlainImages.{plain_of, with_sections};
ghost use Rattle.debug_image.specs.DebugLayouts.{IsDataLayout, IsFound, data_in};
ghost use Rattle.debug_image.specs.DebugPlaces.{AreDataPlaces, data_at};
ghost use Rattle.debug_image.specs.DebugSections as sections;
ghost use Rattle.debug_image.specs.DebugValues as values;
ghost use Rattle.debug_image.specs.DebugViews.{chunk_views, joined_views, row_views};
ghost use Rattle.debug_image.specs.MappedSections.{AreMapped, in_memory};
ghost use Rattle.debug_image.specs.Tables.{IsSmall, tail};
ghost use Rattle.debug_image.specs.Views.{tables_view};
ghost use Rattle.debug_image.specs.declared.faults.DebugFault.TheVariants as fault;

use crate::chunks::{Chunk, chunks, data_end};
use crate::data_places::DataPlaces;
use crate::debug_bytes::chunk_data;
use crate::debug_data::{DebugData, debug_data};
use crate::debug_values::DataLayout;
use crate::faults::DebugFault;
use crate::link_tables::{tables_of, thread_start};
use crate::tables::Tables;
use crate::used_names::used_names;
use byteview::View;
use elf_model::FileHeader;
use image_write::{Linkage, file_end, image};
use layout::Placement;
use relocate::pointer_of;
use resolve::{Definition, Resolved};
use std::alloc::{AllocError, Global};

/// What a debuggable image is to have besides its sections and what names mean.
#[derive(Clone, Copy, Debug)]
pub struct Wanted {
    /// The LOCAL symbols of all objects.
    pub locals: bool,
    /// The debug data of all objects.
    pub debug: bool,
}

/// A debuggable image, but for the bytes of its debug data: what stands in front of them, the sections that hold them as they
/// stand there, and what stands behind them.
#[derive(Drop)]
pub struct DebugParts<'a> {
    pub data: DebugData<'a>,
    pub front: Vec<u8>,
    pub chunks: Vec<Chunk<'a>>,
    pub tail: Vec<u8>,
}

/// Where the last file part of a link's image ends, in bytes of the file.
pub fn end_of(linkage: &Linkage<'_>) -> u64
    ensures end { result ≡ own_end linkage.now.plan.base linkage.now.objects }
    ensures low { result ≤ 2 ^ 46 }
    ensures long { 64 ≤ result }
{
    file_end(linkage.parts().placement.segments())
}

/// The file header of an image, with so many sections in front of that of the sections' names, whose headers are at an offset.
fn header_of(image: &[u8], headers: u64, sections: u16) -> FileHeader
    requires long { 64 ≤ length image.now }
    requires few { sections < 0xff00 }
    ensures { result ≡ with_sections headers sections (file_header image.now) }
{
    let Some(header) = FileHeader::read(View::new(image)) else {
        unreachable!()
    };
    FileHeader {
        e_shoff: headers,
        e_shnum: sections + 1,
        e_shstrndx: sections,
        ..header
    }
}

/// Puts a file header over the one that a file begins with.
fn put_header(file: &mut Vec<u8>, header: &FileHeader)
    requires { 64 ≤ length file.old.items }
    ensures { file.new.items ≡ file_header_bytes header.now ++ drop 64 file.old.items }
{
    let (head, _) = file.split_at_mut(64);
    header.write_to(head);
}

/// The address of the GOT; 0 without one.
fn got_start(placement: &Placement<'_>) -> u64
    ensures { result ≡ placements.got_start (where_in placement.now).got % 2 ^ 64 }
{
    match placement.got() {
        Some(at) => at,
        None => 0,
    }
}

/// The image of a link up to the end of its last file part, with the fields of the file header that tell where the section
/// headers of tables are, which stand behind an offset.
fn plain_part(
    alloc: Global,
    linkage: &Linkage<'_>,
    tables: &Tables<'_>,
    behind: u64,
) -> Result<Vec<u8>, AllocError>
    requires small { IsSmall (tables_view tables.now) }
    requires low { behind ≤ 2 ^ 58 }
    ensures { IfOk result (λ v. v.items
        ≡ spec.front_of linkage.now (tables_view tables.now) behind) }
{
    let headers = tables.offsets(behind).headers;
    let last = tables.last();
    let end = end_of(linkage);
    let _parts = linkage.parts();
    let mut file = image(alloc, linkage)?;
    let header = header_of(&file, headers, last);
    file.truncate(end as usize);
    put_header(&mut file, &header);
    Ok(file)
}

/// The tables of a link and their headers, which stand behind an offset.
fn tail_of(alloc: Global, tables: &Tables<'_>, behind: u64) -> Result<Vec<u8>, AllocError>
    requires small { IsSmall (tables_view tables.now) }
    requires low { behind ≤ 2 ^ 58 }
    ensures { IfOk result (λ v. v.items ≡ tail behind (tables_view tables.now)) }
{
    let mut bytes = Vec::new(alloc);
    tables.add_to(alloc, &mut bytes, behind)?;
    Ok(bytes)
}

/// The parts of a link with tables, which are small, and with debug data.
fn parts_of<'a>(
    alloc: Global,
    linkage: &Linkage<'a>,
    tables: &Tables<'a>,
    found: DebugData<'a>,
) -> Result<DebugParts<'a>, AllocError>
    requires small { IsSmall (tables_view tables.now) }
    requires joined { All sections.IsLow (joined_views found.joined.items) }
    requires rows { sections.AreLow (row_views found.rows.items) }
    requires few { length found.joined.items ≤ sections.most_names }
    ensures front { IfOk result (λ p. p.front.items
        ≡ spec.front_of linkage.now (tables_view tables.now)
        (sections.data_end (spec.end_in linkage.now) (joined_views found.entry.joined.items))) }
    ensures chunks { IfOk result (λ p. chunk_views p.chunks.items
        ≡ sections.chunks_of (row_views found.entry.rows.items) (spec.end_in linkage.now)
        (joined_views found.entry.joined.items)) }
    ensures tail { IfOk result (λ p. p.tail.items
        ≡ tail (sections.data_end (spec.end_in linkage.now)
        (joined_views found.entry.joined.items)) (tables_view tables.now)) }
    ensures data { IfOk result (λ p. p.data ≡ found.entry) }
    ensures low { OnOk result (sections.data_end (spec.end_in linkage.now)
        (joined_views found.entry.joined.items) ≤ 2 ^ 58) }
{
    let end = end_of(linkage);
    let behind = data_end(end, &found.joined);
    let front = plain_part(alloc, linkage, tables, behind)?;
    let tail = tail_of(alloc, tables, behind)?;
    let chunks = chunks(alloc, &found.rows, end, &found.joined)?;
    Ok(DebugParts {
        data: found,
        front,
        chunks,
        tail,
    })
}

/// The parts of the debuggable image of a link: its image up to the end of the last file part, and behind that the debug data,
/// where they are wanted, `.symtab`, `.strtab`, `.shstrtab` and the section headers. Its symbols are what names mean, and the
/// LOCAL symbols of all objects in front of them, where they are wanted. `chunk_data` answers the bytes of debug data.
///
/// # Errors
///
/// `TooLarge` where there are 65,280 section headers or more, 2^32 bytes of a table or more, more than 2^40 bytes of debug data
/// of a name, or more than 256 names of debug data; `Memory`.
pub fn debug_parts<'a>(
    alloc: Global,
    linkage: &Linkage<'a>,
    names: &[Definition<'a>],
    wanted: Wanted,
) -> Result<DebugParts<'a>, DebugFault>
    ensures said { OnOk result (spec.CanBeSaid wanted linkage.now (meaning_views names.now)) }
    ensures front { IfOk result (λ p. p.front.items
        ≡ spec.front_of linkage.now
        (spec.tables_in wanted linkage.now (meaning_views names.now))
        (spec.data_end_in wanted linkage.now)) }
    ensures chunks { IfOk result (λ p. chunk_views p.chunks.items
        ≡ spec.chunks_in wanted linkage.now) }
    ensures tail { IfOk result (λ p. p.tail.items
        ≡ tail (spec.data_end_in wanted linkage.now)
        (spec.tables_in wanted linkage.now (meaning_views names.now))) }
    ensures rows { IfOk result (λ p. row_views p.data.rows.items
        ≡ spec.rows_in wanted linkage.now.objects) }
    ensures left { IfOk result (λ p. p.data.left ≡ spec.left_in wanted linkage.now.objects) }
    ensures found { IfOk result (λ p. IsFound linkage.now.objects p.data) }
    ensures plain { IfOk result (λ p. linkage.now.plan.strip ≡ true
        → (rest : List ℕ) → plain_of (p.front.items ++ rest) ≡ own_image linkage.now) }
    ensures mapped { OnOk result
        (AreMapped (spec.debug_file wanted linkage.now (meaning_views names.now))
        (in_memory (spec.headers_in wanted linkage.now (meaning_views names.now)))) }
    ensures large { IfErr result (λ f. f ≡ fault.TooLarge
        → ¬ spec.CanBeSaid wanted linkage.now (meaning_views names.now)) }
{
    let loaded = linkage.loaded();
    let data = debug_data(alloc, loaded.name_seed(), loaded.objects(), wanted)?;
    let tables = tables_of(alloc, linkage, &data.joined, names, wanted.locals)?;
    if !tables.are_small() {
        return Err(DebugFault::TooLarge);
    }
    let _parts = linkage.parts();
    let parts = parts_of(alloc, linkage, &tables, data)?;
    Ok(parts)
}

/// Where the things of a link are, whose debug data were found.
fn places_of<'c, 'a>(linkage: &'c Linkage<'a>, found: &'c DebugData<'a>) -> DataPlaces<'c, 'a>
    requires { IsFound linkage.now.objects found.now }
    ensures places { AreDataPlaces result }
    ensures data { data_at result
        ≡ record {
          base = linkage.now.plan.base;
          objects = linkage.now.objects;
          rows = row_views found.now.rows.items;
        } }
{
    let parts = linkage.parts();
    DataPlaces {
        objects: linkage.loaded().objects(),
        placement: &parts.placement,
        rows: &found.rows,
        index: &found.index,
        stand_ins: &found.stand_ins,
    }
}

/// Where a link is laid out whose debug data were found.
///
/// # Errors
///
/// Only where memory is refused.
pub fn data_layout<'c, 'a>(
    alloc: Global,
    linkage: &'c Linkage<'a>,
    resolved: &'c Resolved<'a>,
    found: &'c DebugData<'a>,
) -> Result<DataLayout<'c, 'a>, AllocError>
    requires resolved { resolved.now ≡ linkage.now.objects }
    requires found { IsFound linkage.now.objects found.now }
    ensures layout { IfOk result IsDataLayout }
    ensures data { IfOk result (λ l. data_in l
        ≡ record {
          base = linkage.now.plan.base;
          objects = linkage.now.objects;
          rows = row_views found.now.rows.items;
        }) }
{
    let places = places_of(linkage, found);
    let placement = places.placement;
    let loaded = linkage.loaded();
    let names = used_names(alloc, &places, resolved, loaded)?;
    Ok(DataLayout {
        places,
        loaded,
        names,
        pointer: pointer_of(placement),
        thread_start: thread_start(placement),
        got: got_start(placement),
    })
}

/// Adds so many zeros.
fn add_zeros(file: &mut Vec<u8>, count: u64) -> Result<(), AllocError>
    ensures { OnOk result (file.new.items ≡ file.old.items ++ replicate count 0) }
{
    let Some(end) = file.len().checked_add(count as usize) else {
        return Err(AllocError);
    };
    file.resize(end, 0)
}

/// Adds the bytes of debug data.
fn add_chunks<'a>(
    alloc: Global,
    file: &mut Vec<u8>,
    layout: &DataLayout<'_, 'a>,
    chunks: &[Chunk<'a>],
) -> Result<(), AllocError>
    requires { IsDataLayout layout.now }
    ensures { OnOk result (file.new.items
        ≡ file.old.items ++ values.all_bytes (data_in layout.now) (chunk_views chunks.now)) }
{
    for chunk in chunks {
        add_zeros(file, chunk.pad)?;
        let made = chunk_data(alloc, layout, chunk)?;
        file.extend_from_slice(&made.bytes)?;
    }
    Ok(())
}

/// The debuggable image of a link, in memory: its parts, one behind the other.
///
/// # Errors
///
/// As `debug_parts`.
pub fn debug_image<'a>(
    alloc: Global,
    linkage: &Linkage<'a>,
    resolved: &Resolved<'a>,
    names: &[Definition<'a>],
    wanted: Wanted,
) -> Result<Vec<u8>, DebugFault>
    requires { resolved.now ≡ linkage.now.objects }
    ensures said { OnOk result (spec.CanBeSaid wanted linkage.now (meaning_views names.now)) }
    ensures file { IfOk result (λ v. v.items
        ≡ spec.debug_file wanted linkage.now (meaning_views names.now)) }
    ensures plain { IfOk result (λ v. linkage.now.plan.strip ≡ true
        → plain_of v.items ≡ own_image linkage.now) }
    ensures mapped { IfOk result (λ v. AreMapped v.items
        (in_memory (spec.headers_in wanted linkage.now (meaning_views names.now)))) }
    ensures large { IfErr result (λ f. f ≡ fault.TooLarge
        → ¬ spec.CanBeSaid wanted linkage.now (meaning_views names.now)) }
{
    let parts = debug_parts(alloc, linkage, names, wanted)?;
    let layout = data_layout(alloc, linkage, resolved, &parts.data)?;
    let mut file = Vec::from_slice(alloc, &parts.front)?;
    add_chunks(alloc, &mut file, &layout, &parts.chunks)?;
    file.extend_from_slice(&parts.tail)?;
    Ok(file)
}
