//! Where code, data and all that memory has a place for end, where what has no bytes begins, and where the pieces of each
//! output name begin and end: what the linker's own names stand for.
ghost use Rattle.std.specs.Prelude.{◌≡◌, ◌+◌, ℕ, List, IfOk, IfSome, OnOk, Some, cond, filter, max, option_map, unwrap_or};
ghost use Rattle.std.specs.Str.{bytes_eq};
ghost use Rattle.std.specs.Option.{option_map_or};
ghost use Rattle.elf_model.specs.Link.LinkerValues.{end_of_pieces, is_code_piece, is_file_data, is_loaded_piece, is_zero_data, least_of, start_of_pieces};
ghost use Rattle.elf_model.proofs.PieceBounds.{earlier, further};
ghost use Rattle.elf_model.specs.Link.Pieces.{is_of_output};
ghost use Rattle.placing.specs.Limits.{AreInLimit, IsInLimit};
ghost use Rattle.layout.specs.PieceParts.{AreBounds, AreExtents, IsLast, bound_at, end_in, end_with, extent_in, extent_with, is_nonempty_thread_data, is_other, part_test, start_in, start_with};
ghost use Rattle.placing.specs.PlaceViews.{place_view, place_views};
ghost use Rattle.placing.specs.Views.{piece_view};

use elf_model::{Bound, SectionHeader};
use placing::{Piece, Place};
use resolve::{named_output, output_name};
use std::alloc::{AllocError, Global};
use std::collections::BTreeMap;

/// The pieces that a bound is of: all but thread-local ones without bytes, those of code, those of data in the file, those
/// without bytes in it that aren't thread-local, thread-local ones, and the nonempty ones of these with bytes.
#[derive(Clone, Copy, Debug)]
pub enum Bounded {
    Loaded,
    Code,
    FileData,
    Zeros,
    Threads,
    ThreadData,
}

/// The least address and the greatest end of pieces, in bytes.
#[derive(Clone, Copy, Debug)]
pub struct Extent {
    pub start: u64,
    pub end: u64,
}

/// The greatest ends of parts, in bytes, and the least address of what has no bytes; None without any.
#[derive(Clone, Copy, Debug)]
struct PartBounds {
    code_end: u64,
    data_end: u64,
    image_end: u64,
    zero_start: Option<u64>,
}

/// The bounds of parts, and the extents of the pieces of each output name.
#[derive(Drop)]
struct AllBounds<'a> {
    parts: PartBounds,
    outputs: BTreeMap<&'a [u8], Extent>,
}

/// The output name of the piece that was seen last, and the extent of its pieces so far.
#[derive(Clone, Copy, Debug)]
struct Last<'a> {
    name: &'a [u8],
    extent: Extent,
}

/// The greatest ends of parts, in bytes; the least address of what has no bytes, 0 without any; and the extents of the
/// pieces of each output name.
#[derive(Drop)]
pub struct Bounds<'a> {
    pub code_end: u64,
    pub data_end: u64,
    pub zero_start: u64,
    pub image_end: u64,
    pub outputs: BTreeMap<&'a [u8], Extent>,
}

/// Whether a section is thread-local and has some bytes in the file.
fn is_thread_data(header: &SectionHeader) -> bool
    ensures { result ≡ is_nonempty_thread_data header.now }
{
    header.is_thread_local() && !header.is_nobits() && header.sh_size > 0
}

fn is_of(part: Bounded, piece: &Piece<'_>) -> bool
    ensures { result ≡ part_test part (piece_view piece.now) }
{
    let header = &piece.header;
    match part {
        Bounded::Loaded => !(header.is_thread_local() && header.is_nobits()),
        Bounded::Code => header.is_executable(),
        Bounded::FileData => header.is_writable() && !header.is_nobits(),
        Bounded::Zeros => header.is_nobits() && !header.is_thread_local(),
        Bounded::Threads => header.is_thread_local(),
        Bounded::ThreadData => is_thread_data(header),
    }
}

/// The end of a piece of the part, where it is above another end.
fn further(part: Bounded, end: u64, place: &Place<'_>) -> u64
    requires { IsInLimit (place_view place.now) }
    ensures { result ≡ further (part_test part) end (place_view place.now) }
{
    if is_of(part, &place.piece) {
        return end.max(place.at + place.piece.header.sh_size);
    }
    end
}

/// The greatest end of the pieces of a part; 0 without any.
pub fn end_of(part: Bounded, places: &[Place<'_>]) -> u64
    requires { AreInLimit (place_views places.now) }
    ensures { result ≡ end_of_pieces (part_test part) (place_views places.now) }
{
    let mut end = 0;
    for place in places {
        end = further(part, end, place);
    }
    end
}

/// The address of a piece of the part, where it is below another one.
fn earlier(part: Bounded, start: Option<u64>, place: &Place<'_>) -> Option<u64>
    ensures { result ≡ earlier (part_test part) start (place_view place.now) }
{
    if !is_of(part, &place.piece) {
        return start;
    }
    match start {
        Some(at) => Some(place.at.min(at)),
        None => Some(place.at),
    }
}

/// The least address of the pieces of a part; None without any.
pub fn start_of(part: Bounded, places: &[Place<'_>]) -> Option<u64>
    ensures { result ≡ start_of_pieces (part_test part) (place_views places.now) }
{
    let mut start = None;
    for place in places {
        start = earlier(part, start, place);
    }
    start
}

/// What an extent is with one more piece.
fn grown(extent: Option<Extent>, place: &Place<'_>) -> Extent
    requires { IsInLimit (place_view place.now) }
    ensures start { result.start ≡ least_of place.now.at (option_map (λ e. e.start) extent) }
    ensures end { result.end ≡ max (option_map_or (λ e. e.end) extent 0)
        (place.now.at + place.now.piece.header.sh_size) }
{
    let end = place.at + place.piece.header.sh_size;
    match extent {
        Some(old) => Extent {
            start: place.at.min(old.start),
            end: old.end.max(end),
        },
        None => Extent {
            start: place.at,
            end,
        },
    }
}

/// The extent of the pieces of an output name; None without any.
fn extent_of(extents: &BTreeMap<&[u8], Extent>, name: &[u8]) -> Option<Extent>
    ensures { result ≡ extent_in extents.now name.now }
{
    extents.get(name).copied()
}

/// Puts an output name's extent into the table.
fn put_extent<'a>(
    extents: &mut BTreeMap<&'a [u8], Extent>,
    last: &Last<'a>,
) -> Result<(), AllocError>
    ensures { OnOk result ((name : List ℕ) →
        extent_in extents.new name
        ≡ cond (bytes_eq last.now.name.now name) (Some last.now.extent)
        (extent_in extents.old name)) }
{
    extents.insert(last.name, last.extent)?;
    Ok(())
}

/// Puts an output name's extent into the table, where there is one.
fn put_last<'a>(
    extents: &mut BTreeMap<&'a [u8], Extent>,
    last: &Option<Last<'a>>,
) -> Result<(), AllocError>
    ensures { OnOk result ((name : List ℕ) →
        extent_in extents.new name ≡ extent_with last.now extents.old name) }
{
    let Some(known) = last else {
        return Ok(());
    };
    put_extent(extents, known)?;
    Ok(())
}

/// The extent of the last output name, where it is this one.
fn extent_last(last: &Option<Last<'_>>, name: &[u8]) -> Option<Extent>
    ensures { IfSome result (λ e. IsLast last.now name.now e) }
{
    let Some(known) = last else {
        return None;
    };
    if known.name != name {
        return None;
    }
    Some(known.extent)
}

/// The extent of the output name of a place, with that: the last one where it is of the same name; else that of the table,
/// into which the last one is put.
fn taken<'a>(
    extents: &mut BTreeMap<&'a [u8], Extent>,
    last: &Option<Last<'a>>,
    place: &Place<'a>,
) -> Result<Last<'a>, AllocError>
    requires { IsInLimit (place_view place.now) }
    ensures start { IfOk result (λ l. (name : List ℕ) →
        start_with (Some l) extents.new name
        ≡ earlier (is_of_output name) (start_with last.now extents.old name)
        (place_view place.now)) }
    ensures end { IfOk result (λ l. (name : List ℕ) →
        end_with (Some l) extents.new name
        ≡ further (is_of_output name) (end_with last.now extents.old name)
        (place_view place.now)) }
{
    let name = output_name(place.piece.name);
    if let Some(extent) = extent_last(last, name) {
        return Ok(Last {
            name,
            extent: grown(Some(extent), place),
        });
    }
    put_last(extents, last)?;
    Ok(Last {
        name,
        extent: grown(extent_of(extents, name), place),
    })
}

/// Whether a place is of another object than the one with a number.
fn is_other(number: u64, place: &Place<'_>) -> bool
    ensures { result ≡ is_other number (place_view place.now) }
{
    place.piece.object != number
}

/// The bounds of the parts with one more place.
fn parts_with(parts: &PartBounds, place: &Place<'_>) -> PartBounds
    requires { IsInLimit (place_view place.now) }
    ensures code { result.code_end
        ≡ further is_code_piece parts.now.code_end (place_view place.now) }
    ensures file_data { result.data_end
        ≡ further is_file_data parts.now.data_end (place_view place.now) }
    ensures image { result.image_end
        ≡ further is_loaded_piece parts.now.image_end (place_view place.now) }
    ensures zeros { result.zero_start
        ≡ earlier is_zero_data parts.now.zero_start (place_view place.now) }
{
    PartBounds {
        code_end: further(Bounded::Code, parts.code_end, place),
        data_end: further(Bounded::FileData, parts.data_end, place),
        image_end: further(Bounded::Loaded, parts.image_end, place),
        zero_start: earlier(Bounded::Zeros, parts.zero_start, place),
    }
}

/// The bounds of the parts, and the extents of the pieces of each output name, but for the GOT, which has this number; in
/// one pass.
fn all_bounds<'a>(
    alloc: Global,
    got: u64,
    places: &[Place<'a>],
) -> Result<AllBounds<'a>, AllocError>
    requires { AreInLimit (place_views places.now) }
    ensures code { IfOk result (λ b. b.parts.code_end
        ≡ end_of_pieces is_code_piece (place_views places.now)) }
    ensures file_data { IfOk result (λ b. b.parts.data_end
        ≡ end_of_pieces is_file_data (place_views places.now)) }
    ensures image { IfOk result (λ b. b.parts.image_end
        ≡ end_of_pieces is_loaded_piece (place_views places.now)) }
    ensures zeros { IfOk result (λ b. b.parts.zero_start
        ≡ start_of_pieces is_zero_data (place_views places.now)) }
    ensures outputs { IfOk result (λ b. AreExtents (filter (is_other got) (place_views places.now))
        b.outputs) }
{
    let mut parts = PartBounds {
        code_end: 0,
        data_end: 0,
        image_end: 0,
        zero_start: None,
    };
    let mut outputs = BTreeMap::new(alloc);
    let mut last = None;
    for place in places {
        parts = parts_with(&parts, place);
        if !is_other(got, place) {
            continue;
        }
        let next = taken(&mut outputs, &last, place)?;
        last = Some(next);
    }
    put_last(&mut outputs, &last)?;
    Ok(AllBounds { parts, outputs })
}

/// The bounds of pieces at their places, of which the GOT has this number.
pub fn bounds_of<'a>(
    alloc: Global,
    got: u64,
    places: &[Place<'a>],
) -> Result<Bounds<'a>, AllocError>
    requires { AreInLimit (place_views places.now) }
    ensures { IfOk result (AreBounds got (place_views places.now)) }
{
    let AllBounds { parts, outputs } = all_bounds(alloc, got, places)?;
    Ok(Bounds {
        code_end: parts.code_end,
        data_end: parts.data_end,
        zero_start: parts.zero_start.unwrap_or(0),
        image_end: parts.image_end,
        outputs,
    })
}

/// The least address of the pieces of an output name; 0 without any.
fn output_start(extents: &BTreeMap<&[u8], Extent>, name: &[u8]) -> u64
    ensures { result ≡ unwrap_or (start_in extents.now name.now) 0 }
{
    match extent_of(extents, name) {
        Some(extent) => extent.start,
        None => 0,
    }
}

/// The greatest end of the pieces of an output name; 0 without any.
fn output_end(extents: &BTreeMap<&[u8], Extent>, name: &[u8]) -> u64
    ensures { result ≡ end_in extents.now name.now }
{
    match extent_of(extents, name) {
        Some(extent) => extent.end,
        None => 0,
    }
}

/// What one of the linker's own names stands for, in an image that is mapped from a base on, with its GOT at an address.
pub fn bound_in(base: u64, got: u64, bounds: &Bounds<'_>, name: &[u8], bound: Bound) -> u64
    ensures { result ≡ bound_at base got bounds.now name.now bound }
{
    match bound {
        Bound::ImageStart => base,
        Bound::CodeEnd => bounds.code_end,
        Bound::DataEnd => bounds.data_end,
        Bound::ZeroStart => bounds.zero_start,
        Bound::ImageEnd => bounds.image_end,
        Bound::GotStart => got,
        Bound::OutputStart => output_start(&bounds.outputs, named_output(name)),
        Bound::OutputEnd => output_end(&bounds.outputs, named_output(name)),
    }
}
