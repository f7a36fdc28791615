//! The pieces at their addresses, and the segments that hold them.
ghost use Rattle.std.specs.Prelude.{◌≡◌, ◌+◌, ◌≤◌, ◌^◌, ◌++◌, ◌∷◌, IfErr, IfOk, OnOk};
ghost use Rattle.elf_model.specs.Inputs.Command.{IsBase};
ghost use Rattle.elf_model.specs.Link.Loading.{AreObjects};
ghost use Rattle.elf_model.specs.Own.OwnLayout as own;
ghost use Rattle.elf_model.specs.Own.OwnLayout.{IsNotTooLarge, own_placed, own_segments, placed_from};
ghost use Rattle.elf_model.specs.Link.Resolution.{AreSoundCommons};
ghost use Rattle.layout.specs.Laid.{IsLaid, IsLayout, LayoutFails, plain_start};
ghost use Rattle.placing.specs.Limits.{AreAligned, AreInLimit, RunFails};
ghost use Rattle.layout.specs.Orders.{IsOrder, objects_of};
ghost use Rattle.placing.specs.PlaceViews.{place_views};
ghost use Rattle.layout.specs.Threads.{header_in};
ghost use Rattle.placing.specs.Views.{borrowed_views};

use crate::order::{Order, any_writable, headers_size};
use crate::segments::{any_nonempty, are_short, segment_of};
use crate::threads::thread_header;
use elf_model::{PF_R, PF_W, PF_X, ProgramHeader};
use placing::{ADDRESS_LIMIT, LayoutFault, Piece, Place, page_up, place_run, round_up};
use std::alloc::{AllocError, Global};

/// Where the pieces of a segment end, and the segment itself.
#[derive(Clone, Copy, Debug)]
pub struct Run {
    pub end: u64,
    pub segment: ProgramHeader,
}

/// The segment of what may be written, and where its thread-local pieces end.
#[derive(Clone, Copy, Debug)]
pub struct Writable {
    pub thread_end: u64,
    pub segment: ProgramHeader,
}

/// The pieces at their addresses, how many of them memory has a place for, which stand first, and the segments for each
/// part, be it empty.
#[derive(Drop)]
pub struct Laid<'a> {
    pub places: Vec<Place<'a>>,
    pub loaded: usize,
    pub read_only: ProgramHeader,
    pub code: ProgramHeader,
    pub writable: ProgramHeader,
}

/// The pieces at their addresses, how many of them memory has a place for, which stand first, the segments that are
/// needed, and the program header of thread-local storage.
#[derive(Drop)]
pub struct Layout<'a> {
    pub places: Vec<Place<'a>>,
    pub loaded: usize,
    pub segments: Vec<ProgramHeader>,
    pub thread_header: Option<ProgramHeader>,
}

/// Places the pieces of a segment behind the places that are there.
fn lay_segment<'a>(
    out: &mut Vec<Place<'a>>,
    pieces: &[&Piece<'a>],
    base: u64,
    rights: u32,
    start: u64,
    from: u64,
) -> Result<Run, LayoutFault>
    requires start { base ≤ start }
    requires from { start ≤ from }
    requires low { from ≤ 2 ^ 46 }
    requires aligned { AreAligned (borrowed_views pieces.now) }
    ensures placed { OnOk result (place_views out.new.items
        ≡ place_views out.old.items ++ placed_from from (borrowed_views pieces.now)) }
    ensures end { IfOk result (λ r. r.end ≡ own.end_of from (borrowed_views pieces.now)) }
    ensures above { IfOk result (λ r. from ≤ r.end) }
    ensures low { IfOk result (λ r. r.end ≤ 2 ^ 46) }
    ensures segment { IfOk result (λ r. r.segment
        ≡ own.segment base rights start from (placed_from from (borrowed_views pieces.now))) }
    ensures limit { OnOk result (AreInLimit (placed_from from (borrowed_views pieces.now))) }
    ensures fault { IfErr result (RunFails (placed_from from (borrowed_views pieces.now))) }
{
    let before = out.len();
    let end = place_run(out, pieces, from)?;
    let (_, places) = out.split_at(before);
    Ok(Run {
        end,
        segment: segment_of(base, rights, start, from, places),
    })
}

/// Where the pieces that aren't thread-local begin: where their segment does, or behind thread-local ones with bytes.
fn plain_start(initial: &[&Piece<'_>], start: u64, thread_end: u64) -> u64
    ensures { result ≡ plain_start (borrowed_views initial.now) start thread_end }
{
    if initial.is_empty() {
        return start;
    }
    thread_end
}

/// Places what may be written, from the beginning of its segment on, behind the places that are there: the thread-local
/// pieces with bytes from a multiple of the greatest alignment of all thread-local ones on, and the others behind them.
fn lay_writable<'a>(
    out: &mut Vec<Place<'a>>,
    order: &Order<'_, 'a>,
    base: u64,
    start: u64,
) -> Result<Writable, LayoutFault>
    requires objects { AreObjects (objects_of order.now) }
    requires commons { AreSoundCommons (objects_of order.now) }
    requires order { IsOrder order.now }
    requires start { start ≡ own.data_start base (objects_of order.now) }
    requires above { base ≤ start }
    requires low { start ≤ 2 ^ 46 }
    ensures placed { OnOk result (place_views out.new.items
        ≡ place_views out.old.items ++ own.own_data base (objects_of order.now)) }
    ensures end { IfOk result (λ w. w.thread_end
        ≡ own.thread_rest_start base (objects_of order.now)) }
    ensures low { IfOk result (λ w. w.thread_end ≤ 2 ^ 47) }
    ensures segment { IfOk result (λ w. w.segment
        ≡ own.segment base 6 start start (own.own_data base (objects_of order.now))) }
    ensures limit { OnOk result (AreInLimit (own.own_data base (objects_of order.now))) }
    ensures fault { IfErr result (RunFails (own.own_data base (objects_of order.now))) }
{
    let before = out.len();
    let thread_start = round_up(order.thread_align, start);
    let thread_end = place_run(out, &order.initial, thread_start)?;
    let from = plain_start(&order.initial, start, thread_end);
    place_run(out, &order.data, from)?;
    let (_, places) = out.split_at(before);
    Ok(Writable {
        thread_end,
        segment: segment_of(base, PF_R | PF_W, start, start, places),
    })
}

/// Places all pieces, from the end of the headers on.
fn lay_pieces<'a>(
    alloc: Global,
    order: &Order<'_, 'a>,
    base: u64,
    headers_end: u64,
) -> Result<Laid<'a>, LayoutFault>
    requires objects { AreObjects (objects_of order.now) }
    requires commons { AreSoundCommons (objects_of order.now) }
    requires order { IsOrder order.now }
    requires start { headers_end ≡ own.read_only_start base (objects_of order.now) }
    requires above { base ≤ headers_end }
    requires low { headers_end ≤ 2 ^ 46 }
    ensures laid { IfOk result (λ l. IsLaid base (objects_of order.now) l) }
    ensures fault { IfErr result (RunFails (own_placed base (objects_of order.now))) }
{
    let mut places = Vec::with_capacity(alloc, order.count)?;
    let read_only = lay_segment(&mut places, &order.read_only, base, PF_R, base, headers_end)?;
    let code_start = page_up(read_only.end);
    let code = lay_segment(
        &mut places,
        &order.code,
        base,
        PF_R | PF_X,
        code_start,
        code_start,
    )?;
    let data_start = page_up(code.end);
    let writable = lay_writable(&mut places, order, base, data_start)?;
    let loaded = places.len();
    place_run(&mut places, &order.thread_rest, writable.thread_end)?;
    Ok(Laid {
        places,
        loaded,
        read_only: read_only.segment,
        code: code.segment,
        writable: writable.segment,
    })
}

/// The segments that are needed: that of what may only be read, and the others where a piece takes up memory.
fn segments_of(
    alloc: Global,
    order: &Order<'_, '_>,
    laid: &Laid<'_>,
) -> Result<Vec<ProgramHeader>, AllocError>
    requires order { IsOrder order.now }
    ensures { IfOk result (λ v. v.items
        ≡ laid.now.read_only
        ∷ (own.segment_if (own.code_pieces (objects_of order.now)) laid.now.code
        ++ own.segment_if (own.data_pieces (objects_of order.now)) laid.now.writable)) }
{
    let mut segments = Vec::with_capacity(alloc, 3)?;
    segments.push(laid.read_only)?;
    if any_nonempty(&order.code) {
        segments.push(laid.code)?;
    }
    if any_writable(order) {
        segments.push(laid.writable)?;
    }
    Ok(segments)
}

/// The program header of thread-local storage of pieces in own order, at their places.
fn header_of(order: &Order<'_, '_>, base: u64, places: &[Place<'_>]) -> Option<ProgramHeader>
    requires order { IsOrder order.now }
    requires places { place_views places.now ≡ own_placed base (objects_of order.now) }
    requires limit { AreInLimit (place_views places.now) }
    ensures { result ≡ header_in base (place_views places.now) }
{
    if !order.has_threads {
        return None;
    }
    thread_header(base, order.thread_align, places)
}

/// Places all pieces and makes the segments that hold them. TooLarge where they, or the file, reach too far.
pub fn lay_out<'a>(
    alloc: Global,
    order: &Order<'_, 'a>,
    base: u64,
) -> Result<Layout<'a>, LayoutFault>
    requires base { IsBase base }
    requires objects { AreObjects (objects_of order.now) }
    requires commons { AreSoundCommons (objects_of order.now) }
    requires order { IsOrder order.now }
    ensures layout { IfOk result (λ l. IsLayout base (objects_of order.now) l) }
    ensures fits { OnOk result (IsNotTooLarge base (objects_of order.now)) }
    ensures fault { IfErr result (LayoutFails base (objects_of order.now)) }
{
    let headers_end = base + headers_size(order);
    if headers_end > ADDRESS_LIMIT {
        return Err(LayoutFault::TooLarge);
    }
    let laid = lay_pieces(alloc, order, base, headers_end)?;
    let segments = segments_of(alloc, order, &laid)?;
    if !are_short(&segments) {
        return Err(LayoutFault::TooLarge);
    }
    Ok(Layout {
        thread_header: header_of(order, base, &laid.places),
        places: laid.places,
        loaded: laid.loaded,
        segments,
    })
}
