//! Whether an address is where a bound may be.
ghost use Rattle.std.specs.Prelude.{◌≡◌, ◌↔◌, Any, IsTrue};
ghost use Rattle.elf_model.specs.Image.MemoryImage.{Encloses, first_address, loads};
ghost use Rattle.judge_model.specs.Names.{EndsSegment, HasPages};
ghost use Rattle.name_judge.specs.Bounds.{BeginsAt, CodeEndsAt, DataEndsAt, EndsAt, IsAtNone, IsBehindData, IsBehindMark, IsBoundBy, IsEndOfAll, IsNoEnd, IsNowhereIn, IsReached, SpanEnds, SpanStarts, StartsNoZeros, ZerosStart};
ghost use Rattle.name_judge.specs.Clear.{IsFrom, IsUpTo};

use crate::marks::Marks;
use check_link::Span;
use elf_model::{Bound, PF_W, ProgramHeader};
use foreign_image::ForeignImage;

/// The size of a page on x86-64.
const PAGE: u64 = 4096;

/// Whether a range of addresses lies in one segment.
fn is_inside(image: &ForeignImage<'_>, from: u64, len: u64) -> bool
    ensures { IsTrue result ↔ Any (λ h. Encloses h from len) (loads image.now) }
{
    image.run(from, len).is_some()
}

/// Whether an address is among those of the segments, or not far behind them.
fn is_reached(image: &ForeignImage<'_>, marks: &Marks, value: u64) -> bool
    ensures { IsTrue result ↔ IsReached (loads image.now) marks.now value }
{
    let first = first_address(image.segments());
    first <= value && value <= marks.limit
}

fn is_nowhere(image: &ForeignImage<'_>, marks: &Marks, value: u64) -> bool
    ensures { IsTrue result ↔ IsNowhereIn (loads image.now) marks.now value }
{
    value == 0 || is_reached(image, marks, value)
}

fn is_up_to(value: u64, next: Option<u64>) -> bool
    ensures { IsTrue result ↔ IsUpTo value next }
{
    match next {
        Some(at) => value <= at,
        None => true,
    }
}

fn is_from(value: u64, last: Option<u64>) -> bool
    ensures { IsTrue result ↔ IsFrom value last }
{
    match last {
        Some(at) => at <= value,
        None => true,
    }
}

/// Whether an address is behind an end, in its segment and not behind whatever comes next.
fn is_behind(image: &ForeignImage<'_>, end: u64, next: Option<u64>, value: u64) -> bool
    ensures { IsTrue result ↔ IsBehindMark (loads image.now) end next value }
{
    if value < end || !is_up_to(value, next) {
        return false;
    }
    is_inside(image, end, value - end)
}

/// Whether an address is near, where an end is that of nothing.
fn is_no_end(image: &ForeignImage<'_>, marks: &Marks, end: u64, value: u64) -> bool
    ensures { IsTrue result ↔ IsNoEnd (loads image.now) marks.now end value }
{
    if end != 0 {
        return false;
    }
    is_reached(image, marks, value)
}

/// Whether an address is at an end, or behind it and not behind whatever comes next; or near, where it is the end of nothing.
fn ends_at(image: &ForeignImage<'_>, marks: &Marks, end: u64, next: Option<u64>, value: u64) -> bool
    ensures { IsTrue result ↔ EndsAt (loads image.now) marks.now end next value }
{
    if value == end || is_behind(image, end, next, value) {
        return true;
    }
    is_no_end(image, marks, end, value)
}

/// Whether an address is the end of a segment that can't be written, in which an end is.
fn ends_segment(h: &ProgramHeader, end: u64, value: u64) -> bool
    ensures { IsTrue result ↔ EndsSegment end value h.now }
{
    if end <= h.p_vaddr || value < end || h.p_flags & PF_W != 0 {
        return false;
    }
    value - h.p_vaddr == h.p_memsz
}

fn ends_a_segment(segments: &[ProgramHeader], end: u64, value: u64) -> bool
    ensures { IsTrue result ↔ Any (EndsSegment end value) segments.now }
{
    segments.iter().any(|h| ends_segment(h, end, value))
}

/// Whether an address is at the end of code, or of its segment.
fn code_ends_at(image: &ForeignImage<'_>, marks: &Marks, value: u64) -> bool
    ensures { IsTrue result ↔ CodeEndsAt (loads image.now) marks.now value }
{
    if ends_at(image, marks, marks.code_end, marks.code_next, value) {
        return true;
    }
    ends_a_segment(image.segments(), marks.code_end, value)
}

/// Whether an address is at the end of data, or of what isn't large of it.
fn data_ends_at(image: &ForeignImage<'_>, marks: &Marks, value: u64) -> bool
    ensures { IsTrue result ↔ DataEndsAt (loads image.now) marks.now value }
{
    if ends_at(image, marks, marks.data_end, marks.data_next, value) {
        return true;
    }
    ends_at(image, marks, marks.small_end, marks.small_next, value)
}

/// Whether the pages of a segment that is written reach down to an address, and the segment up to a start.
fn has_pages(h: &ProgramHeader, start: u64, value: u64) -> bool
    ensures { IsTrue result ↔ HasPages start value h.now }
{
    if value < h.p_vaddr / PAGE * PAGE || h.p_flags & PF_W != PF_W {
        return false;
    }
    start <= h.p_vaddr || start - h.p_vaddr <= h.p_memsz
}

fn is_on_pages(segments: &[ProgramHeader], start: u64, value: u64) -> bool
    ensures { IsTrue result ↔ Any (HasPages start value) segments.now }
{
    segments.iter().any(|h| has_pages(h, start, value))
}

/// Whether an address is at a start, or before it on the pages of its segment and not before whatever comes in front.
fn begins_at(image: &ForeignImage<'_>, start: u64, last: Option<u64>, value: u64) -> bool
    ensures { IsTrue result ↔ BeginsAt (loads image.now) start last value }
{
    if value == start {
        return true;
    }
    if start < value || !is_from(value, last) {
        return false;
    }
    is_on_pages(image.segments(), start, value)
}

/// Whether an address is behind all data that aren't empty, and behind all sections and what the linker filled where there are no such
/// data.
fn is_behind_data(marks: &Marks, value: u64) -> bool
    ensures { IsTrue result ↔ IsBehindData marks.now value }
{
    if value < marks.some_end {
        return false;
    }
    if marks.some_end != 0 {
        return true;
    }
    marks.image_end <= value && marks.filled_end <= value as u128
}

/// Whether an address is at the end of data, or where an empty section of zeros is.
fn is_at_none(image: &ForeignImage<'_>, marks: &Marks, value: u64) -> bool
    ensures { IsTrue result ↔ IsAtNone (loads image.now) marks.now value }
{
    if marks.empty_start == Some(value) {
        return true;
    }
    data_ends_at(image, marks, value)
}

/// Whether an address is where zeros that are none begin.
fn starts_no_zeros(image: &ForeignImage<'_>, marks: &Marks, value: u64) -> bool
    ensures { IsTrue result ↔ StartsNoZeros (loads image.now) marks.now value }
{
    if !is_behind_data(marks, value) {
        return false;
    }
    is_at_none(image, marks, value)
}

/// Whether an address is where zeros begin, and at the end of data where there are none.
fn zeros_start(image: &ForeignImage<'_>, marks: &Marks, value: u64) -> bool
    ensures { IsTrue result ↔ ZerosStart (loads image.now) marks.now marks.now.zero_start value }
{
    match marks.zero_start {
        Some(at) => begins_at(image, at, marks.zero_last, value),
        None => starts_no_zeros(image, marks, value),
    }
}

fn is_end_of_all(marks: &Marks, value: u64) -> bool
    ensures { IsTrue result ↔ IsEndOfAll marks.now value }
{
    if value < marks.image_end || marks.limit < value {
        return false;
    }
    marks.filled_end <= value as u128
}

fn span_starts(image: &ForeignImage<'_>, marks: &Marks, span: Option<Span>, value: u64) -> bool
    ensures { IsTrue result ↔ SpanStarts (loads image.now) marks.now span value }
{
    match span {
        Some(span) => value == span.start,
        None => is_nowhere(image, marks, value),
    }
}

fn span_ends(image: &ForeignImage<'_>, marks: &Marks, span: Option<Span>, value: u64) -> bool
    ensures { IsTrue result ↔ SpanEnds (loads image.now) marks.now span value }
{
    match span {
        Some(span) => value == span.end,
        None => is_nowhere(image, marks, value),
    }
}

/// The address of the first segment; 0 without any.
fn first_address(segments: &[ProgramHeader]) -> u64
    ensures { result ≡ first_address segments.now }
{
    match segments {
        [] => 0,
        [first, ..] => first.p_vaddr,
    }
}

/// Whether a bound may have a value, where its name speaks of an output name that has a span.
pub fn is_bound_at(
    image: &ForeignImage<'_>,
    marks: &Marks,
    got: Option<u64>,
    span: Option<Span>,
    value: u64,
    bound: Bound,
) -> bool
    ensures { IsTrue result ↔ IsBoundBy (loads image.now) marks.now got span value bound }
{
    match bound {
        Bound::ImageStart => value == first_address(image.segments()),
        Bound::CodeEnd => code_ends_at(image, marks, value),
        Bound::DataEnd => data_ends_at(image, marks, value),
        Bound::ZeroStart => zeros_start(image, marks, value),
        Bound::ImageEnd => is_end_of_all(marks, value),
        Bound::GotStart => got == Some(value),
        Bound::OutputStart => span_starts(image, marks, span, value),
        Bound::OutputEnd => span_ends(image, marks, span, value),
    }
}
