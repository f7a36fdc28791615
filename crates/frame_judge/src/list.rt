//! Whether memory has a linker's list of call frames, each record of it as a copy.
ghost use Rattle.std.specs.Prelude.{◌≡◌, ◌↔◌, ◌+◌, List, All, Any, Contains, IfOk, IsTrue, find, option_copied, option_map};
ghost use Rattle.std.specs.List.Sorted.{IsNonDecreasingBy};
ghost use Rattle.check_link.specs.Views.{piece_view};
ghost use Rattle.check_load.specs.Views.{loaded_views};
ghost use Rattle.elf_model.specs.Link.Loading.{LoadedObject};
ghost use Rattle.frame_judge.specs.List.{AreRecordsRight};
ghost use Rattle.judge_model.specs.Frames as words;
ghost use Rattle.judge_model.specs.Frames.{HasRightList, IsCopiedBeside, IsEnded, IsListRight, has_stretch, records_of, stretch_bytes, stretch_in};
ghost use Rattle.link_fields.specs.Fields.{HasFields};
ghost use Rattle.link_fields.specs.Rests.{kept_in};

use crate::addresses::{has_address, rising_addresses};
use crate::copies::is_section_copied;
use crate::sections::FramedSections;
use byteview::View;
use call_frames::{CallFrames, SectionFields, is_ended};
use check_link::Piece;
use check_load::Loaded;
use elf_model::ProgramHeader;
use foreign_image::ForeignImage;
use judge_model::StretchLine;
use link_fields::{Drops, MergedLines, ObjectFields, fields_of_object, kept_spans, turned_to};
use std::alloc::{AllocError, Global};

/// Whether the file part of a segment has a stretch.
fn has_stretch(h: &ProgramHeader, s: &StretchLine) -> bool
    ensures { result ≡ has_stretch s.now h.now }
{
    h.p_vaddr <= s.address
        && s.address as u128 + s.size as u128 <= h.p_vaddr as u128 + h.p_filesz as u128
}

fn find_segment<'h>(segments: &'h [ProgramHeader], s: &StretchLine) -> Option<&'h ProgramHeader>
    ensures { option_copied result ≡ find (has_stretch s.now) segments.now }
{
    segments.iter().find(|h| has_stretch(h, s))
}

/// What a segment has of the file where a stretch is.
fn stretch_in<'a>(file: &'a [u8], h: &ProgramHeader, s: &StretchLine) -> &'a [u8]
    ensures { result.now ≡ stretch_in file.entry.now s.now h.now }
{
    let offset = h
        .p_offset
        .saturating_add(s.address.saturating_sub(h.p_vaddr));
    View::new(file).part(offset as usize, s.size as usize)
}

/// What the file has where a stretch of memory is; None where no segment's file part has it.
pub fn stretch_bytes<'a>(image: &ForeignImage<'a>, s: &StretchLine) -> Option<&'a [u8]>
    ensures { option_map (λ b. b.now) result ≡ stretch_bytes image.now s.now }
{
    let file = image.image();
    match find_segment(image.segments(), s) {
        Some(h) => Some(stretch_in(file, h, s)),
        None => None,
    }
}

/// Whether an area has a stretch.
fn is_list_in(s: &StretchLine, area: &StretchLine) -> bool
    ensures { IsTrue result ↔ words.IsListIn s.now area.now }
{
    area.address <= s.address
        && s.address as u128 + s.size as u128 <= area.address as u128 + area.size as u128
}

pub fn has_area(areas: &[StretchLine], s: &StretchLine) -> bool
    ensures { IsTrue result ↔ Any (words.IsListIn s.now) areas.now }
{
    areas.iter().any(|area| is_list_in(s, area))
}

/// Whether one of the lines has the address of a record of a list that begins at an address.
fn is_listed(addresses: &[u64], address: u64, offset: u64) -> bool
    requires { IsNonDecreasingBy (λ a. a) addresses.now }
    ensures { IsTrue result ↔ Contains addresses.now (address + offset) }
{
    match address.checked_add(offset) {
        Some(sum) => has_address(addresses, sum),
        None => false,
    }
}

/// Whether each record of a list that begins at an address has a line, given the addresses of these.
fn are_listed(list: &CallFrames<'_>, address: u64, addresses: &[u64]) -> bool
    requires { IsNonDecreasingBy (λ a. a) addresses.now }
    ensures { IsTrue result
        ↔ All (λ t. Contains addresses.now (address + t.offset)) (records_of list.now) }
{
    for record in list.records() {
        if !is_listed(addresses, address, record.offset) {
            return false;
        }
    }
    true
}

/// Whether a list that begins at an address has the copies of the records of a section where lines say so, given the fields of the
/// section's object.
fn is_copied(
    alloc: Global,
    row: &ObjectFields,
    drops: &Drops<'_>,
    piece: &Piece<'_>,
    frames: &CallFrames<'_>,
    lines: &MergedLines<'_>,
    list: &CallFrames<'_>,
    address: u64,
) -> Result<bool, AllocError>
    requires section { frames.now ≡ (piece_view piece.now).bytes }
    requires rising { IsNonDecreasingBy (λ f. f.section) row.now.row.items }
    requires object { row.now.object ≡ piece.now.object }
    ensures { IfOk result (λ b. (objects : List LoadedObject)
        → HasFields objects row.now.object row.now.row.items
        → IsTrue b ↔ IsCopiedBeside lines.now (kept_in drops.now objects) address list.now
        (piece_view piece.now)) }
{
    let spans = kept_spans(alloc, row, drops, piece.section)?;
    let fields = SectionFields::new(&spans);
    Ok(is_section_copied(piece, frames, &fields, lines, list, address))
}

/// Whether a list that begins at an address has the copies of the records of sections where lines say so. It goes once over the
/// relocations of each object where the sections of an object stand together.
fn are_copied(
    alloc: Global,
    objects: &[Loaded<'_>],
    drops: &Drops<'_>,
    framed: &FramedSections<'_, '_>,
    lines: &MergedLines<'_>,
    list: &CallFrames<'_>,
    address: u64,
) -> Result<bool, AllocError>
    ensures { IfOk result (λ b. IsTrue b ↔ All (IsCopiedBeside lines.now
        (kept_in drops.now (loaded_views objects.now)) address list.now) framed.now) }
{
    let pieces = framed.pieces();
    let frames = framed.frames();
    let mut row = fields_of_object(alloc, objects, 0)?;
    for k in 0..pieces.len() {
        let piece = &pieces[k];
        row = turned_to(alloc, objects, row, piece.object)?;
        if !is_copied(alloc, &row, drops, piece, &frames[k], lines, list, address)? {
            return Ok(false);
        }
    }
    Ok(true)
}

/// Whether a length of 0 ends none of some lists.
fn are_open(all: &[CallFrames<'_>]) -> bool
    ensures { IsTrue result ↔ All (λ b. ¬ IsEnded b) all.now }
{
    for frames in all {
        if is_ended(frames) {
            return false;
        }
    }
    true
}

/// Whether a length of 0 ends a list, if one ends a section's.
fn is_ended_as(framed: &FramedSections<'_, '_>, list: &CallFrames<'_>) -> bool
    ensures { IsTrue result ↔ (Any (λ p. IsEnded p.bytes) framed.now → IsEnded list.now) }
{
    is_ended(list) || are_open(framed.frames())
}

/// Whether a list at an address has a line for each of its records, the copies of those of sections where lines say so, and an end if a
/// section has one.
fn is_read_right(
    alloc: Global,
    objects: &[Loaded<'_>],
    drops: &Drops<'_>,
    framed: &FramedSections<'_, '_>,
    lines: &MergedLines<'_>,
    list: &CallFrames<'_>,
    address: u64,
) -> Result<bool, AllocError>
    ensures { IfOk result (λ b. IsTrue b ↔ AreRecordsRight framed.now
        (kept_in drops.now (loaded_views objects.now)) lines.now address list.now) }
{
    let addresses = rising_addresses(alloc, lines.lines())?;
    if !are_listed(list, address, &addresses) {
        return Ok(false);
    }
    if !is_ended_as(framed, list) {
        return Ok(false);
    }
    are_copied(alloc, objects, drops, framed, lines, list, address)
}

/// Whether the bytes of a stretch are a list of call frames of which each record is a copy, in one of the areas.
fn is_list_right(
    alloc: Global,
    objects: &[Loaded<'_>],
    drops: &Drops<'_>,
    framed: &FramedSections<'_, '_>,
    lines: &MergedLines<'_>,
    areas: &[StretchLine],
    s: &StretchLine,
    bytes: &[u8],
) -> Result<bool, AllocError>
    ensures { IfOk result (λ b. IsTrue b ↔ IsListRight framed.now
        (kept_in drops.now (loaded_views objects.now)) lines.now areas.now s.now bytes.now) }
{
    if !has_area(areas, s) {
        return Ok(false);
    }
    let Some(list) = CallFrames::read(alloc, bytes)? else {
        return Ok(false);
    };
    is_read_right(alloc, objects, drops, framed, lines, &list, s.address)
}

/// Whether memory has the list of call frames at a stretch, or there are no lines of records where there is none.
pub fn has_right_list(
    alloc: Global,
    image: &ForeignImage<'_>,
    objects: &[Loaded<'_>],
    drops: &Drops<'_>,
    framed: &FramedSections<'_, '_>,
    lines: &MergedLines<'_>,
    areas: &[StretchLine],
    list: Option<StretchLine>,
) -> Result<bool, AllocError>
    ensures { IfOk result (λ b. IsTrue b ↔ HasRightList image.now framed.now
        (kept_in drops.now (loaded_views objects.now)) lines.now areas.now list) }
{
    let Some(s) = list else {
        return Ok(lines.lines().is_empty());
    };
    match stretch_bytes(image, &s) {
        Some(bytes) => is_list_right(alloc, objects, drops, framed, lines, areas, &s, bytes),
        None => Ok(false),
    }
}
