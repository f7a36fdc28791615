//! The segments that hold the pieces at their places.
ghost use Rattle.std.specs.Prelude.{◌≡◌, ◌+◌, ◌-◌, ◌<◌, ◌≤◌, ◌^◌, ◌∷◌, [], ◌↔◌, All, IsTrue};
ghost use Rattle.std.specs.List.{list_any};
ghost use Rattle.elf_model.specs.Image.MemoryImage as memory;
ghost use Rattle.elf_model.specs.Own.OwnLayout as own;
ghost use Rattle.elf_model.specs.Own.OwnLayout.{any_placed, greatest_end, is_nonempty, placed_has_bytes};
ghost use Rattle.placing.specs.Limits.{AreInLimit, IsInLimit, IsShort};
ghost use Rattle.placing.specs.PlaceViews.{place_view, place_views};
ghost use Rattle.placing.specs.Views.{borrowed_views, piece_view};

use elf_model::{PT_LOAD, ProgramHeader};
use placing::{PAGE, Piece, Place};

/// Where the pieces of a segment end in memory, and where those do that have bytes in the file.
#[derive(Clone, Copy, Debug)]
struct Ends {
    memory: u64,
    file: u64,
}

/// Whether a piece takes up memory.
fn is_some(piece: &Piece<'_>) -> bool
    ensures { result ≡ is_nonempty (piece_view piece.now) }
{
    piece.header.sh_size > 0
}

/// Whether there is a piece that takes up memory.
pub fn any_nonempty(pieces: &[&Piece<'_>]) -> bool
    ensures { result ≡ list_any is_nonempty (borrowed_views pieces.now) }
{
    for piece in pieces {
        if is_some(piece) {
            return true;
        }
    }
    false
}

/// The end of a place that takes up memory, where it is above another end.
fn further(end: u64, place: &Place<'_>) -> u64
    requires limit { IsInLimit (place_view place.now) }
    ensures end { result ≡ greatest_end any_placed end (place_view place.now ∷ []) }
    ensures above { end ≤ result }
    ensures limit { end ≤ 2 ^ 46 → result ≤ 2 ^ 46 }
{
    if is_some(&place.piece) {
        return end.max(place.at + place.piece.header.sh_size);
    }
    end
}

/// The end of a place that takes up memory and has bytes in the file, where it is above another end.
fn further_in_file(end: u64, place: &Place<'_>) -> u64
    requires limit { IsInLimit (place_view place.now) }
    ensures end { result ≡ greatest_end placed_has_bytes end (place_view place.now ∷ []) }
    ensures above { end ≤ result }
    ensures limit { end ≤ 2 ^ 46 → result ≤ 2 ^ 46 }
{
    if place.piece.header.is_nobits() {
        return end;
    }
    further(end, place)
}

/// The greatest end of places that take up memory, and that of those that have bytes in the file; or where their segment's
/// pieces begin.
fn ends_of(places: &[Place<'_>], from: u64) -> Ends
    requires low { from ≤ 2 ^ 46 }
    requires limit { AreInLimit (place_views places.now) }
    ensures memory { result.memory ≡ greatest_end any_placed from (place_views places.now) }
    ensures file { result.file ≡ greatest_end placed_has_bytes from (place_views places.now) }
    ensures memory_above { from ≤ result.memory }
    ensures file_above { from ≤ result.file }
{
    let mut memory = from;
    let mut file = from;
    for place in places {
        memory = further(memory, place);
        file = further_in_file(file, place);
    }
    Ends { memory, file }
}

/// The PT_LOAD from an address on, with rights, of pieces that begin at another.
pub fn segment_of(
    base: u64,
    rights: u32,
    start: u64,
    from: u64,
    places: &[Place<'_>],
) -> ProgramHeader
    requires start { base ≤ start }
    requires from { start ≤ from }
    requires low { from ≤ 2 ^ 46 }
    requires limit { AreInLimit (place_views places.now) }
    ensures { result ≡ own.segment base rights start from (place_views places.now) }
{
    let ends = ends_of(places, from);
    ProgramHeader {
        p_type: PT_LOAD,
        p_flags: rights,
        p_offset: start - base,
        p_vaddr: start,
        p_paddr: start,
        p_filesz: ends.file - start,
        p_memsz: ends.memory - start,
        p_align: PAGE,
    }
}

/// The number of bytes from which on a file is too large.
const FILE_LIMIT: u64 = 1 << 32;

fn is_short(header: &ProgramHeader) -> bool
    ensures { IsTrue result ↔ IsShort header.now }
{
    if header.p_filesz == 0 {
        return true;
    }
    header.p_offset < FILE_LIMIT && header.p_filesz < FILE_LIMIT - header.p_offset
}

fn are_all_short(segments: &[ProgramHeader]) -> bool
    ensures { IsTrue result ↔ All IsShort segments.now }
{
    segments.iter().all(|h| is_short(h))
}

/// Whether a file with these segments is none that is too large.
pub fn are_short(segments: &[ProgramHeader]) -> bool
    ensures { IsTrue result ↔ (memory.file_end segments.now < 2 ^ 32) }
{
    are_all_short(segments)
}
