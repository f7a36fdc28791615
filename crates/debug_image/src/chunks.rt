//! Debug data as they stand in the file, one section behind the other.
ghost use Rattle.std.specs.Prelude.{◌≡◌, ◌+◌, ◌≤◌, ◌^◌, ◌++◌, All, IfOk, OnOk, length};
ghost use Rattle.placing.specs.PlaceViews.{place_view, place_views};
ghost use Rattle.debug_image.specs.DebugSections as spec;
ghost use Rattle.debug_image.specs.DebugViews.{chunk_view, chunk_views, joined_view, joined_views, row_views};
ghost use Rattle.debug_image.specs.Views.{header_view, header_views};

use crate::headers::HeaderRow;
use crate::joined::{Joined, round_up};
use elf_model::{SHT_PROGBITS, SectionHeader};
use layout::Place;
use std::alloc::{AllocError, Global};

/// A section of debug data at its offset in what is joined of its name, and how many zeros stand in front of it in the file.
#[derive(Clone, Copy, Debug)]
pub struct Chunk<'a> {
    pub pad: u64,
    pub place: Place<'a>,
}

/// A section that begins at an offset in what begins at an offset of the file, behind another one.
fn chunk_at<'a>(start: u64, at: u64, place: &Place<'a>) -> Chunk<'a>
    requires low { spec.EndsLow (place_view place.now) }
    requires start { start ≤ 2 ^ 60 }
    ensures { chunk_view result ≡ spec.chunk_at start at (place_view place.now) }
{
    Chunk {
        pad: (start + place.at).saturating_sub(at),
        place: *place,
    }
}

/// Where it ends.
fn end_of(start: u64, place: &Place<'_>) -> u64
    requires low { spec.EndsLow (place_view place.now) }
    requires start { start ≤ 2 ^ 60 }
    ensures { result ≡ start + spec.debug_end (place_view place.now) }
{
    start + (place.at + place.piece.bytes.len() as u64)
}

/// Adds the sections of a name of one object, which begin at an offset of the file, behind another one; answers where the last
/// one ends.
fn add_row<'a>(
    chunks: &mut Vec<Chunk<'a>>,
    title: &[u8],
    start: u64,
    at: u64,
    row: &[Place<'a>],
) -> Result<u64, AllocError>
    requires low { All spec.EndsLow (place_views row.now) }
    requires start { start ≤ 2 ^ 60 }
    ensures chunks { OnOk result (chunk_views chunks.new.items
        ≡ chunk_views chunks.old.items ++ spec.row_chunks title.now start at (place_views row.now)) }
    ensures end { IfOk result (λ n. n ≡ spec.row_end title.now start at (place_views row.now)) }
{
    let mut end = at;
    for place in row {
        if place.piece.name == title {
            chunks.push(chunk_at(start, end, place))?;
            end = end_of(start, place);
        }
    }
    Ok(end)
}

/// Adds the sections of a name of all objects.
fn add_named<'a>(
    chunks: &mut Vec<Chunk<'a>>,
    title: &[u8],
    start: u64,
    at: u64,
    rows: &[Vec<Place<'a>>],
) -> Result<(), AllocError>
    requires low { spec.AreLow (row_views rows.now) }
    requires start { start ≤ 2 ^ 60 }
    ensures { OnOk result (chunk_views chunks.new.items
        ≡ chunk_views chunks.old.items ++ spec.named_chunks title.now start at (row_views rows.now)) }
{
    let mut end = at;
    for row in rows {
        end = add_row(chunks, title, start, end, row)?;
    }
    Ok(())
}

/// Where joined data begin behind an offset of the file.
fn start_of(at: u64, joined: &Joined<'_>) -> u64
    requires low { spec.IsLow (joined_view joined.now) }
    requires at { at ≤ 2 ^ 59 }
    ensures exact { result ≡ spec.start_of at (joined_view joined.now) }
    ensures near { result ≤ at + 2 ^ 21 }
{
    round_up(joined.align, at)
}

/// Where joined data end behind an offset of the file.
fn end_behind(at: u64, joined: &Joined<'_>) -> u64
    requires low { spec.IsLow (joined_view joined.now) }
    requires at { at ≤ 2 ^ 59 }
    ensures exact { result ≡ spec.start_of at (joined_view joined.now) + joined.now.end }
    ensures near { result ≤ at + 2 ^ 41 }
{
    start_of(at, joined) + joined.end
}

/// All sections of debug data, as they stand in the file behind an offset.
pub fn chunks<'a>(
    alloc: Global,
    rows: &[Vec<Place<'a>>],
    end: u64,
    joined: &[Joined<'a>],
) -> Result<Vec<Chunk<'a>>, AllocError>
    requires rows { spec.AreLow (row_views rows.now) }
    requires joined { All spec.IsLow (joined_views joined.now) }
    requires few { length joined.now ≤ spec.most_names }
    requires end { end ≤ 2 ^ 46 }
    ensures { IfOk result (λ v. chunk_views v.items
        ≡ spec.chunks_of (row_views rows.now) end (joined_views joined.now)) }
{
    let mut chunks = Vec::new(alloc);
    let mut at = end;
    for one in joined {
        add_named(&mut chunks, one.title, start_of(at, one), at, rows)?;
        at = end_behind(at, one);
    }
    Ok(chunks)
}

/// Where debug data end behind an offset of the file.
pub fn data_end(end: u64, joined: &[Joined<'_>]) -> u64
    requires joined { All spec.IsLow (joined_views joined.now) }
    requires few { length joined.now ≤ spec.most_names }
    requires end { end ≤ 2 ^ 46 }
    ensures exact { result ≡ spec.data_end end (joined_views joined.now) }
    ensures low { result ≤ 2 ^ 58 }
{
    let mut at = end;
    for one in joined {
        at = end_behind(at, one);
    }
    at
}

/// The flags of tables of strings: MERGE and STRINGS (System V gABI 4, "Section Attribute Flags").
const STRING_FLAGS: u64 = 0x30;

/// Whether joined data are a table of strings.
fn holds_strings(joined: &Joined<'_>) -> bool
    ensures { result ≡ spec.holds_strings (joined_view joined.now) }
{
    joined.title == b".debug_str".as_slice() || joined.title == b".debug_line_str".as_slice()
}

/// The row of joined data at an offset of the file.
fn joined_row<'a>(start: u64, joined: &Joined<'a>) -> HeaderRow<'a>
    ensures { header_view result ≡ spec.row_of start (joined_view joined.now) }
{
    let is_strings = holds_strings(joined);
    HeaderRow {
        title: joined.title,
        header: SectionHeader {
            sh_name: 0,
            sh_type: SHT_PROGBITS,
            sh_flags: if is_strings { STRING_FLAGS } else { 0 },
            sh_addr: 0,
            sh_offset: start,
            sh_size: joined.end,
            sh_link: 0,
            sh_info: 0,
            sh_addralign: joined.align,
            sh_entsize: if is_strings { 1 } else { 0 },
        },
    }
}

/// Adds the rows of joined data behind an offset of the file.
pub fn add_joined_rows<'a>(
    rows: &mut Vec<HeaderRow<'a>>,
    end: u64,
    joined: &[Joined<'a>],
) -> Result<(), AllocError>
    requires joined { All spec.IsLow (joined_views joined.now) }
    requires few { length joined.now ≤ spec.most_names }
    requires end { end ≤ 2 ^ 46 }
    ensures { OnOk result (header_views rows.new.items
        ≡ header_views rows.old.items ++ spec.joined_rows end (joined_views joined.now)) }
{
    let mut at = end;
    for one in joined {
        rows.push(joined_row(start_of(at, one), one))?;
        at = end_behind(at, one);
    }
    Ok(())
}
