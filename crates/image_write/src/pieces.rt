//! The pieces at their places, with their relocated bytes, and the GOT among them.
ghost use Rattle.std.specs.Prelude.{◌≡◌, ◌+◌, ◌-◌, ◌<◌, ◌≤◌, ◌^◌, IfOk, OnErr, drop, false, length, take};
ghost use Rattle.elf_model.specs.Own.ImageFile.{is_got_piece};
ghost use Rattle.elf_model.specs.Own.OwnLayout.{own_where};
ghost use Rattle.placing.specs.PlaceViews.{place_view, place_views};
ghost use Rattle.placing.specs.Views.{piece_view};
ghost use Rattle.image_write.specs.Parts.{AreContents, AreFilled, HasContents, Rise, all_body, all_bytes, bytes_of, is_written};
ghost use Rattle.image_write.specs.Sections.{IsOfSection, wanted_run};
ghost use Rattle.image_write.specs.Streams.{Breaks, Grows, Puts, stream};

use crate::buffer::{BUFFER_SIZE, Buffer};
use crate::fill_bytes::{Code, fill};
use crate::got::put_got;
use crate::sink::{Sink, SinkFault};
use crate::stream::{make_room, put};
use elf_model::{ObjectId, SectionRef};
use layout::{Piece, Place, Placement};
use relocate::{Patches, next_field};

/// What the pieces of a layout hold: the values of relocations, and those of the slots of the GOT, in their order.
#[derive(Clone, Copy)]
pub struct Contents<'c, 'a> {
    pub placement: &'c Placement<'a>,
    pub patches: &'c Patches<'a>,
    pub slots: &'c [u64],
}

/// Whether a place has bytes in the file.
fn has_bytes(place: &Place<'_>) -> bool
    ensures { result ≡ is_written (place_view place.now) }
{
    !place.piece.header.is_nobits() && place.piece.header.sh_size > 0
}

/// The section that a piece is.
fn section_of(piece: &Piece<'_>) -> SectionRef
    ensures { IsOfSection result (piece_view piece.now) }
{
    SectionRef {
        object: ObjectId(piece.object),
        section: piece.section,
    }
}

/// Some bytes of a section, from byte `from` on.
fn part_of<'b>(bytes: &'b [u8], from: usize, count: usize) -> &'b [u8]
    requires { from + count ≤ length bytes.now }
    ensures part { result.now ≡ take count (drop from bytes.entry.now) }
    ensures len { length result.now ≡ count }
{
    let (_, rest) = bytes.split_at(from);
    let (part, _) = rest.split_at(count);
    part
}

/// Puts the bytes of a section from one on to before another, straight from the input, which no relocation touches.
fn put_untouched<S: Sink>(
    sink: &mut S,
    buffer: &mut Buffer,
    piece: &Piece<'_>,
    from: usize,
    next: usize,
) -> Result<(), SinkFault>
    requires inside { (from ≤ next) × (next ≤ length piece.now.bytes.now) }
    requires whole { S.failed sink.old ≡ 0 }
    ensures { Puts (stream (S.told sink.old) buffer.old (S.failed sink.old))
        (take (next - from) (drop from piece.now.bytes.now)) result
        (stream (S.told sink.new) buffer.new (S.failed sink.new)) }
{
    put(sink, buffer, part_of(piece.bytes, from, next - from))
}

/// Puts some bytes of a section, from byte `from` on: those up to the next field of a relocation straight from the input
/// where they are many, else as many as the buffer has room for, with the values of relocations over their fields.
/// Answers the number of the byte behind them.
fn put_part<S: Sink>(
    sink: &mut S,
    buffer: &mut Buffer,
    patches: &Patches<'_>,
    piece: &Piece<'_>,
    from: usize,
) -> Result<usize, SinkFault>
    requires inside { from < length piece.now.bytes.now }
    requires whole { S.failed sink.old ≡ 0 }
    ensures further { IfOk result (λ n. (from < n) × (n ≤ length piece.now.bytes.now)) }
    ensures grows { IfOk result (λ n.
        Grows (stream (S.told sink.old) buffer.old (S.failed sink.old))
        (wanted_run patches.now.objects (own_where patches.now.base patches.now.objects)
        (piece_view piece.now) from (n - from))
        (stream (S.told sink.new) buffer.new (S.failed sink.new))) }
    ensures breaks { OnErr result (Breaks (stream (S.told sink.old) buffer.old (S.failed sink.old))
        (wanted_run patches.now.objects (own_where patches.now.base patches.now.objects)
        (piece_view piece.now) from (length piece.now.bytes.now - from))
        (stream (S.told sink.new) buffer.new (S.failed sink.new))) }
{
    let section = section_of(piece);
    let size = piece.bytes.len();
    let next = next_field(patches, section, from as u64).min(size as u64) as usize;
    if next - from >= BUFFER_SIZE {
        put_untouched(sink, buffer, piece, from, next)?;
        return Ok(next);
    }
    make_room(sink, buffer)?;
    let count = buffer.room().min(size - from);
    buffer.add_relocated(
        patches,
        section,
        from as u64,
        part_of(piece.bytes, from, count),
    );
    Ok(from + count)
}

/// Puts the bytes of a section, with the values of its relocations over their fields.
fn put_section<S: Sink>(
    sink: &mut S,
    buffer: &mut Buffer,
    patches: &Patches<'_>,
    piece: &Piece<'_>,
) -> Result<(), SinkFault>
    requires other { is_got_piece patches.now.objects (piece_view piece.now) ≡ false }
    requires bytes { length piece.now.bytes.now ≡ (piece_view piece.now).size }
    requires whole { S.failed sink.old ≡ 0 }
    ensures { Puts (stream (S.told sink.old) buffer.old (S.failed sink.old))
        (bytes_of patches.now.objects (own_where patches.now.base patches.now.objects)
        (piece_view piece.now)) result (stream (S.told sink.new) buffer.new (S.failed sink.new)) }
{
    let mut from = 0;
    while from < piece.bytes.len() {
        from = put_part(sink, buffer, patches, piece, from)?;
    }
    Ok(())
}

/// Puts the bytes of a piece, be it the GOT.
fn put_piece<S: Sink>(
    sink: &mut S,
    buffer: &mut Buffer,
    contents: &Contents<'_, '_>,
    piece: &Piece<'_>,
) -> Result<(), SinkFault>
    requires contents { AreContents contents.now }
    requires full { HasContents contents.now (piece_view piece.now) }
    requires whole { S.failed sink.old ≡ 0 }
    ensures { Puts (stream (S.told sink.old) buffer.old (S.failed sink.old))
        (all_bytes contents.now (piece_view piece.now)) result
        (stream (S.told sink.new) buffer.new (S.failed sink.new)) }
{
    if contents.placement.is_got(piece) {
        return put_got(sink, buffer, contents.slots);
    }
    put_section(sink, buffer, contents.patches, piece)
}

/// Puts the bytes of the addresses from one to before another: those of the places that have bytes in the
/// file, which rise from the first to the last, and fill between them.
pub fn put_places<S: Sink>(
    sink: &mut S,
    buffer: &mut Buffer,
    contents: &Contents<'_, '_>,
    code: &Code,
    places: &[Place<'_>],
    from: u64,
    to: u64,
) -> Result<(), SinkFault>
    requires contents { AreContents contents.now }
    requires rise { Rise from to (place_views places.now) }
    requires low { to ≤ 2 ^ 46 }
    requires full { AreFilled contents.now (place_views places.now) }
    requires whole { S.failed sink.old ≡ 0 }
    ensures { Puts (stream (S.told sink.old) buffer.old (S.failed sink.old))
        (all_body contents.now code.now to from (place_views places.now)) result
        (stream (S.told sink.new) buffer.new (S.failed sink.new)) }
{
    let mut next = from;
    for place in places {
        if !has_bytes(place) {
            continue;
        }
        fill(sink, buffer, code, next, place.at)?;
        put_piece(sink, buffer, contents, &place.piece)?;
        next = place.at + place.piece.header.sh_size;
    }
    fill(sink, buffer, code, next, to)
}
