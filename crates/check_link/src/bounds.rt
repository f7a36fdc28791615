//! Where parts of the pieces begin and end, and where the pieces of each output name do: what the linker's own names
//! stand for, and the block of thread-local storage.
ghost use Rattle.std.specs.Prelude.{◌≡◌, ◌+◌, IfOk, OnOk, max, option_map, unwrap_or};
ghost use Rattle.elf_model.specs.Link.LinkerValues.{end_of_pieces, least_of, start_of_pieces};
ghost use Rattle.elf_model.specs.Link.Placement.{got_end};
ghost use Rattle.elf_model.specs.Link.ThreadStorage.{is_thread_data};
ghost use Rattle.elf_model.proofs.PieceBounds.{earlier, further};
ghost use Rattle.check_link.specs.PieceParts.{AreBounds, AreInLimit, IsGotInLimit, IsInLimit, part_test};
ghost use Rattle.check_link.specs.ByName.{IsKept};
ghost use Rattle.check_link.specs.Outputs.{AreSpans, HasSpanned};
ghost use Rattle.check_link.specs.Views.{piece_view, placed_view, placed_views};

use crate::by_name::ByName;
use crate::output_sections::output_name;
use crate::sizes::is_thread_zero;
use crate::things::{Piece, Placed};
use elf_model::GotLine;
use std::alloc::{AllocError, Global};
use std::collections::BTreeMap;

/// The pieces that a bound is of: those that memory has a place for, those of code, those of data in the file, those
/// without bytes in it that aren't thread-local; the thread-local ones, those of them with bytes, and the nonempty ones
/// of these.
#[derive(Clone, Copy, Debug)]
pub enum Part {
    Loaded,
    Code,
    FileData,
    Zeros,
    Thread,
    ThreadData,
    SomeThreadData,
}

/// The least address and the greatest end of pieces, in bytes.
#[derive(Clone, Copy, Debug)]
pub struct Span {
    pub start: u64,
    pub end: u64,
}

/// The greatest ends of parts, those of the data and of the image with the GOT, in bytes, and the least address of what
/// has no bytes, 0 without any.
#[derive(Clone, Copy, Debug)]
pub struct Bounds {
    pub code_end: u64,
    pub data_end: u64,
    pub zero_start: u64,
    pub image_end: u64,
}

/// Whether a piece is thread-local and has bytes in the file.
fn is_thread_data(piece: &Piece<'_>) -> bool
    ensures { result ≡ is_thread_data (piece_view piece.now) }
{
    piece.header.is_thread_local() && !piece.header.is_nobits()
}

fn is_of(part: Part, piece: &Piece<'_>) -> bool
    ensures { result ≡ part_test part (piece_view piece.now) }
{
    let header = &piece.header;
    match part {
        Part::Loaded => !is_thread_zero(piece),
        Part::Code => header.is_executable(),
        Part::FileData => header.is_writable() && !header.is_nobits(),
        Part::Zeros => header.is_nobits() && !header.is_thread_local(),
        Part::Thread => header.is_thread_local(),
        Part::ThreadData => is_thread_data(piece),
        Part::SomeThreadData => is_thread_data(piece) && header.sh_size > 0,
    }
}

/// The end of a piece of the part, where it is above another end.
fn further(part: Part, end: u64, placed: &Placed<'_>) -> u64
    requires { IsInLimit (placed_view placed.now) }
    ensures { result ≡ further (part_test part) end (placed_view placed.now) }
{
    if is_of(part, &placed.piece) {
        return end.max(placed.at + placed.piece.header.sh_size);
    }
    end
}

/// The greatest end of the pieces of a part; 0 without any.
pub fn end_of(part: Part, placed: &[Placed<'_>]) -> u64
    requires { AreInLimit (placed_views placed.now) }
    ensures { result ≡ end_of_pieces (part_test part) (placed_views placed.now) }
{
    let mut end = 0;
    for q in placed {
        end = further(part, end, q);
    }
    end
}

/// The address of a piece of the part, where it is below another one.
fn earlier(part: Part, start: Option<u64>, placed: &Placed<'_>) -> Option<u64>
    ensures { result ≡ earlier (part_test part) start (placed_view placed.now) }
{
    if !is_of(part, &placed.piece) {
        return start;
    }
    match start {
        Some(at) => Some(placed.at.min(at)),
        None => Some(placed.at),
    }
}

/// The least address of the pieces of a part; None without any.
pub fn start_of(part: Part, placed: &[Placed<'_>]) -> Option<u64>
    ensures { result ≡ start_of_pieces (part_test part) (placed_views placed.now) }
{
    let mut start = None;
    for q in placed {
        start = earlier(part, start, q);
    }
    start
}

/// The span of an output name, once one more piece of it is seen.
fn with_piece(before: Option<Span>, placed: &Placed<'_>) -> Span
    requires { IsInLimit (placed_view placed.now) }
    ensures start { result.start ≡ least_of placed.now.at (option_map (λ s. s.start) before) }
    ensures end { result.end ≡ max (unwrap_or (option_map (λ s. s.end) before) 0)
        (placed.now.at + placed.now.piece.header.sh_size) }
{
    let end = placed.at + placed.piece.header.sh_size;
    match before {
        Some(span) => Span {
            start: placed.at.min(span.start),
            end: span.end.max(end),
        },
        None => Span {
            start: placed.at,
            end,
        },
    }
}

/// Adds a piece to a table of the spans of output names.
fn add_span<'a>(spans: &mut ByName<'a, Span>, placed: &Placed<'a>) -> Result<(), AllocError>
    requires limit { IsInLimit (placed_view placed.now) }
    requires kept { IsKept spans.old }
    ensures kept { OnOk result (IsKept spans.new) }
    ensures spanned { OnOk result (HasSpanned spans.old spans.new (placed_view placed.now)) }
{
    spans.turn_to(output_name(placed.piece.name))?;
    spans.value = Some(with_piece(spans.value, placed));
    Ok(())
}

/// The spans of the output names of placed pieces.
pub fn spans_of<'a>(
    alloc: Global,
    placed: &[Placed<'a>],
) -> Result<BTreeMap<&'a [u8], Span>, AllocError>
    requires { AreInLimit (placed_views placed.now) }
    ensures { IfOk result (AreSpans (placed_views placed.now)) }
{
    let mut spans = ByName::new(alloc);
    for q in placed {
        add_span(&mut spans, q)?;
    }
    spans.into_table()
}

/// Where the GOT ends, 0 without one.
fn got_end(got: Option<GotLine>) -> u64
    requires { IsGotInLimit got }
    ensures { result ≡ got_end got }
{
    match got {
        Some(got) => got.address + got.size,
        None => 0,
    }
}

/// The bounds of placed pieces and of the GOT, which stands with the data.
pub fn bounds_of(placed: &[Placed<'_>], got: Option<GotLine>) -> Bounds
    requires pieces { AreInLimit (placed_views placed.now) }
    requires got { IsGotInLimit got }
    ensures { AreBounds (placed_views placed.now) got result }
{
    let got_end = got_end(got);
    Bounds {
        code_end: end_of(Part::Code, placed),
        data_end: end_of(Part::FileData, placed).max(got_end),
        zero_start: start_of(Part::Zeros, placed).unwrap_or(0),
        image_end: end_of(Part::Loaded, placed).max(got_end),
    }
}
