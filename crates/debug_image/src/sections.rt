//! The output sections of an image: runs of neighbouring places that are of one output section, but for empty ones.
ghost use Rattle.std.specs.Prelude.{◌≡◌, ◌≤◌, ◌^◌, ◌++◌, ◌∷◌, [], All, IfOk, List, OnOk, filter};
ghost use Rattle.elf_model.specs.Own.OwnLayout.{placed_end};
ghost use Rattle.elf_model.specs.Link.Placement.{Placed};
ghost use Rattle.placing.specs.PlaceViews.{place_view, place_views};
ghost use Rattle.placing.specs.Views.{piece_view};
ghost use Rattle.debug_image.specs.Sections as spec;
ghost use Rattle.debug_image.specs.Views.{header_views};
ghost use Rattle.debug_image.specs.SectionViews.{section_view, section_views};

use crate::headers::HeaderRow;
use elf_model::SectionHeader;
use layout::{Piece, Place};
use resolve::output_name;
use std::alloc::{AllocError, Global};

/// An output section: its first piece, the end of the last one that isn't empty, and the greatest alignment of all, in bytes.
/// Where all are empty, it ends where it begins.
#[derive(Clone, Copy, Debug)]
pub struct Section<'a> {
    pub first: Place<'a>,
    pub end: u64,
    pub align: u64,
}

/// Whether two headers are alike in WRITE, EXECINSTR, TLS and NOBITS.
fn are_alike(one: &SectionHeader, other: &SectionHeader) -> bool
    ensures { result ≡ spec.are_alike one.now other.now }
{
    one.is_writable() == other.is_writable()
        && one.is_executable() == other.is_executable()
        && one.is_thread_local() == other.is_thread_local()
        && one.is_nobits() == other.is_nobits()
}

/// Whether two pieces of so many objects are of one output section; a common block or the GOT isn't with a section of an object.
fn is_same_section(count: u64, one: &Piece<'_>, other: &Piece<'_>) -> bool
    ensures { result ≡ spec.same_section count (piece_view one.now) (piece_view other.now) }
{
    are_alike(&one.header, &other.header)
        && (count <= one.object) == (count <= other.object)
        && output_name(one.name) == output_name(other.name)
}

fn end_of(place: &Place<'_>) -> u64
    requires { placed_end (place_view place.now) ≤ 2 ^ 46 }
    ensures { result ≡ placed_end (place_view place.now) }
{
    place.at + place.piece.header.sh_size
}

/// The end of a section that ended at an address, with one more piece, which moves it where it isn't empty.
fn end_with(end: u64, place: &Place<'_>) -> u64
    requires { placed_end (place_view place.now) ≤ 2 ^ 46 }
    ensures { result ≡ spec.end_with end (place_view place.now) }
{
    if place.piece.header.sh_size == 0 {
        return end;
    }
    end.max(end_of(place))
}

/// The section that begins with a piece.
fn begun<'a>(place: &Place<'a>) -> Section<'a>
    requires { placed_end (place_view place.now) ≤ 2 ^ 46 }
    ensures { section_view result ≡ spec.begun (place_view place.now) }
{
    Section {
        first: *place,
        end: end_of(place),
        align: place.piece.header.sh_addralign.max(1),
    }
}

/// The section with one more piece.
fn grown<'a>(section: &Section<'a>, place: &Place<'_>) -> Section<'a>
    requires { placed_end (place_view place.now) ≤ 2 ^ 46 }
    ensures { section_view result ≡ spec.grown (section_view section.now) (place_view place.now) }
{
    Section {
        first: section.first,
        end: end_with(section.end, place),
        align: section.align.max(place.piece.header.sh_addralign.max(1)),
    }
}

/// Puts a section behind others, if it isn't empty.
fn add_section<'a>(found: &mut Vec<Section<'a>>, section: &Section<'a>) -> Result<(), AllocError>
    ensures { OnOk result (section_views found.new.items
        ≡ section_views found.old.items ++ filter spec.has_memory (section_view section.now ∷ [])) }
{
    if section.first.at < section.end {
        found.push(*section)?;
    }
    Ok(())
}

/// The section that a piece belongs to: the current one, or else a new one, where the current one is put behind the others.
fn next<'a>(
    found: &mut Vec<Section<'a>>,
    count: u64,
    current: &Section<'a>,
    place: &Place<'a>,
) -> Result<Section<'a>, AllocError>
    requires { placed_end (place_view place.now) ≤ 2 ^ 46 }
    ensures { IfOk result (λ s. (qs : List Placed) →
        section_views found.new.items ++ spec.sections_from count (section_view s) qs
        ≡ section_views found.old.items
        ++ spec.sections_from count (section_view current.now) (place_view place.now ∷ qs)) }
{
    if is_same_section(count, &current.first.piece, &place.piece) {
        return Ok(grown(current, place));
    }
    add_section(found, current)?;
    Ok(begun(place))
}

/// Adds a section that may go on with further places, and the sections behind it.
fn add_sections<'a>(
    found: &mut Vec<Section<'a>>,
    count: u64,
    first: Section<'a>,
    places: &[Place<'a>],
) -> Result<(), AllocError>
    requires { All (λ q. placed_end q ≤ 2 ^ 46) (place_views places.now) }
    ensures { OnOk result (section_views found.new.items
        ≡ section_views found.old.items
        ++ spec.sections_from count (section_view first.entry) (place_views places.now)) }
{
    let mut current = first;
    for place in places {
        current = next(found, count, &current, place)?;
    }
    add_section(found, &current)
}

/// The sections of places of so many objects, but for empty ones.
pub fn sections<'a>(
    alloc: Global,
    count: u64,
    places: &[Place<'a>],
) -> Result<Vec<Section<'a>>, AllocError>
    requires { All (λ q. placed_end q ≤ 2 ^ 46) (place_views places.now) }
    ensures { IfOk result (λ v. section_views v.items
        ≡ spec.sections_of count (place_views places.now)) }
{
    let mut found = Vec::new(alloc);
    if places.is_empty() {
        return Ok(found);
    }
    let (_, rest) = places.split_at(1);
    add_sections(&mut found, count, begun(&places[0]), rest)?;
    Ok(found)
}

/// The number of the section of the common blocks of so many objects.
pub fn blocks_number(count: u64, sections: &[Section<'_>]) -> Option<usize>
    ensures { result ≡ spec.blocks_number count (section_views sections.now) }
{
    for (k, section) in sections.iter().enumerate() {
        if section.first.piece.object == count {
            return Some(k);
        }
    }
    None
}

impl<'a> Section<'a> {
    /// Its name: that of the output section; COMMON for the blocks of so many objects, and .got.
    pub fn title(&self, count: u64) -> &'a [u8]
        ensures { result.now ≡ spec.title_of count (section_view self.now).first.piece }
    {
        let piece = &self.first.piece;
        if piece.object == count {
            return b"COMMON";
        }
        if piece.object > count {
            return b".got";
        }
        output_name(piece.name)
    }

    /// Its alignment: the greatest one of its pieces, where its address is a multiple of that, and else that of its first piece
    /// (System V gABI 4, "Sections", sh_addralign).
    fn alignment(&self) -> u64
        ensures { result ≡ spec.alignment_of (section_view self.now) }
    {
        if self.align > 0 && self.first.at % self.align == 0 {
            return self.align;
        }
        self.first.piece.header.sh_addralign.max(1)
    }

    /// Its header, but for its name, in an image that is mapped from a base on.
    pub fn header(&self, base: u64) -> SectionHeader
        ensures { result ≡ spec.header_of base (section_view self.now) }
    {
        let first = &self.first;
        SectionHeader {
            sh_name: 0,
            sh_type: first.piece.header.sh_type,
            sh_flags: first.piece.header.sh_flags & 0x407,
            sh_addr: first.at,
            sh_offset: first.at.saturating_sub(base),
            sh_size: self.end.saturating_sub(first.at),
            sh_link: 0,
            sh_info: 0,
            sh_addralign: self.alignment(),
            sh_entsize: 0,
        }
    }
}

/// The rows of sections of so many objects, in an image that is mapped from a base on.
pub fn section_rows<'a>(
    alloc: Global,
    base: u64,
    count: u64,
    sections: &[Section<'a>],
) -> Result<Vec<HeaderRow<'a>>, AllocError>
    ensures { IfOk result (λ v. header_views v.items
        ≡ spec.section_rows base count (section_views sections.now)) }
{
    let mut rows = Vec::with_capacity(alloc, sections.len())?;
    for section in sections {
        rows.push(HeaderRow {
            title: section.title(count),
            header: section.header(base),
        })?;
    }
    Ok(rows)
}
