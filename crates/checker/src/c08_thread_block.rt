//! C8: whether PT_TLS says where the thread-local pieces are, and whether a loader finds their initial bytes there.
ghost use Rattle.std.specs.Prelude.{◌≡◌, ◌↔◌, [], ◌∷◌, All, IsTrue};
ghost use Rattle.std.specs.List.{slice_get};
ghost use Rattle.elf_model.specs.Image.MemoryImage.{loads};
ghost use Rattle.elf_model.specs.Link.Placement.{got_things};
ghost use Rattle.elf_model.specs.Image.RightLink.{Holds, HoldsBefore, HoldsInitial, IsClearOf};
ghost use Rattle.elf_model.specs.Link.ThreadStorage.{thread_header, thread_headers};
ghost use Rattle.check_link.specs.PieceParts.{AreInLimit, IsGotInLimit, IsInLimit};
ghost use Rattle.check_places.specs.Sweeps.{EndFits};
ghost use Rattle.checker.specs.ThreadBlock.{AreOthersClear, BeginsAfter, IsBlockRight, IsPlaceClear};
ghost use Rattle.check_link.specs.Views.{placed_view, placed_views};
ghost use Rattle.elf_model.specs.declared.verdict.Clause.TheVariants as clause;

use check_link::{
    Part, Placed, base_of, end_of, got_thing, is_thread_zero, thing_of_placed, thread_block,
};
use check_stages::{BoundLink, enclosing};
use elf_model::{GotLine, PF_R, PT_TLS, ProgramHeader, Thing, TlsBlock};
use loader_model::Memory;

/// Whether the eighth clause holds of a link.
pub fn holds(bound: &BoundLink<'_, '_>) -> bool
    requires { HoldsBefore clause.C8 bound.now }
    ensures { IsTrue result ↔ Holds clause.C8 bound.now }
{
    let link = bound.link();
    let base = base_of(&link.plan);
    is_thread_block_right(bound.memory(), base, &link.map.got, bound.placed())
}

/// The PT_TLS header of the block of placed pieces, in an image that begins at the base.
fn header_of(base: u64, placed: &[Placed<'_>], block: &TlsBlock) -> ProgramHeader
    requires { AreInLimit (placed_views placed.now) }
    ensures { result ≡ thread_header base (placed_views placed.now) block.now }
{
    let data_end = end_of(Part::SomeThreadData, placed);
    ProgramHeader {
        p_type: PT_TLS,
        p_flags: PF_R,
        p_offset: block.start.saturating_sub(base),
        p_vaddr: block.start,
        p_paddr: block.start,
        p_filesz: data_end.saturating_sub(block.start),
        p_memsz: block.size,
        p_align: block.align,
    }
}

/// The PT_TLS header that placed pieces ask for, in an image that begins at the base; None without thread-local ones.
pub fn wanted_header(base: u64, placed: &[Placed<'_>]) -> Option<ProgramHeader>
    requires { AreInLimit (placed_views placed.now) }
    ensures { result ≡ slice_get (thread_headers base (placed_views placed.now)) 0 }
{
    match thread_block(placed) {
        Some(block) => Some(header_of(base, placed, &block)),
        None => None,
    }
}

fn is_header(header: &ProgramHeader, wanted: &ProgramHeader) -> bool
    ensures { IsTrue result ↔ (header.now ≡ wanted.now) }
{
    header == wanted
}

/// Whether there is one header, which is the wanted one.
fn are_only(headers: &[ProgramHeader], wanted: &ProgramHeader) -> bool
    ensures { IsTrue result ↔ (headers.now ≡ wanted.now ∷ []) }
{
    match headers {
        [header] => is_header(header, wanted),
        _ => false,
    }
}

/// Whether PT_TLS headers are those that the placed pieces ask for: one where there are thread-local ones, else none.
pub fn are_headers_right(headers: &[ProgramHeader], base: u64, placed: &[Placed<'_>]) -> bool
    requires { AreInLimit (placed_views placed.now) }
    ensures { IsTrue result ↔ (headers.now ≡ thread_headers base (placed_views placed.now)) }
{
    match thread_block(placed) {
        Some(block) => are_only(headers, &header_of(base, placed, &block)),
        None => headers.is_empty(),
    }
}

/// Whether a piece begins at or after an address if it is thread-local and has no bytes.
pub fn begins_after(end: u64, placed: &Placed<'_>) -> bool
    ensures { IsTrue result ↔ BeginsAfter end (placed_view placed.now) }
{
    !is_thread_zero(&placed.piece) || end <= placed.at
}

/// Whether all thread-local pieces without bytes begin at or after an address.
fn begin_after(end: u64, placed: &[Placed<'_>]) -> bool
    ensures { IsTrue result ↔ All (λ q. BeginsAfter end (placed_view q)) placed.now }
{
    placed.iter().all(|q| begins_after(end, q))
}

/// Whether a thing has no address from `start` on and below `end`.
fn is_clear_of(start: u64, end: u64, thing: &Thing) -> bool
    requires { EndFits thing.now }
    ensures { IsTrue result ↔ IsClearOf start end thing.now }
{
    thing.size == 0 || end <= start || thing.at + thing.size <= start || end <= thing.at
}

/// Whether the GOT, if there is one, has no address from `start` on and below `end`.
pub fn is_got_clear_of(start: u64, end: u64, got: &Option<GotLine>) -> bool
    requires { IsGotInLimit got.now }
    ensures { IsTrue result ↔ All (IsClearOf start end) (got_things got.now) }
{
    match got {
        Some(line) => is_clear_of(start, end, &got_thing(*line)),
        None => true,
    }
}

/// Whether a piece that isn't thread-local has no address from `start` on and below `end`.
pub fn is_place_clear_of(start: u64, end: u64, placed: &Placed<'_>) -> bool
    requires { IsInLimit (placed_view placed.now) }
    ensures { IsTrue result ↔ IsPlaceClear start end (placed_view placed.now) }
{
    if placed.piece.header.is_thread_local() {
        return true;
    }
    is_clear_of(start, end, &thing_of_placed(placed))
}

/// Whether none of the pieces that aren't thread-local has an address from `start` on and below `end`.
fn are_places_clear_of(start: u64, end: u64, placed: &[Placed<'_>]) -> bool
    requires { AreInLimit (placed_views placed.now) }
    ensures { IsTrue result ↔ All (λ q. IsPlaceClear start end (placed_view q)) placed.now }
{
    for q in placed {
        if !is_place_clear_of(start, end, q) {
            return false;
        }
    }
    true
}

/// Whether neither the GOT nor a piece that isn't thread-local has an address from `start` on and below `end`.
fn are_others_clear_of(start: u64, end: u64, got: &Option<GotLine>, placed: &[Placed<'_>]) -> bool
    requires got { IsGotInLimit got.now }
    requires pieces { AreInLimit (placed_views placed.now) }
    ensures { IsTrue result ↔ AreOthersClear start end got.now (placed_views placed.now) }
{
    if !is_got_clear_of(start, end, got) {
        return false;
    }
    are_places_clear_of(start, end, placed)
}

/// Whether nothing else stands between the beginning of each of the headers' blocks, of which an image has one at most,
/// and an address.
fn are_clear_to(
    headers: &[ProgramHeader],
    end: u64,
    got: &Option<GotLine>,
    placed: &[Placed<'_>],
) -> bool
    requires got { IsGotInLimit got.now }
    requires pieces { AreInLimit (placed_views placed.now) }
    ensures { IsTrue result ↔ All
        (λ h. AreOthersClear h.p_vaddr end got.now (placed_views placed.now)) headers.now }
{
    for header in headers {
        if !are_others_clear_of(header.p_vaddr, end, got, placed) {
            return false;
        }
    }
    true
}

/// Whether one PT_LOAD holds all initial bytes of a block, if there are any.
pub fn holds_initial(memory: &Memory<'_>, header: &ProgramHeader) -> bool
    ensures { IsTrue result ↔ HoldsInitial (loads memory.now) header.now }
{
    if header.p_filesz == 0 {
        return true;
    }
    enclosing(memory, header.p_vaddr, header.p_filesz).is_some()
}

/// Whether this holds of the blocks of all headers.
fn hold_initial(memory: &Memory<'_>, headers: &[ProgramHeader]) -> bool
    ensures { IsTrue result ↔ All (HoldsInitial (loads memory.now)) headers.now }
{
    for header in headers {
        if !holds_initial(memory, header) {
            return false;
        }
    }
    true
}

/// Whether an image that begins at the base has the PT_TLS header that its placed pieces ask for; their bytes come
/// first, with nothing else among them; and one PT_LOAD holds them.
fn is_thread_block_right(
    memory: &Memory<'_>,
    base: u64,
    got: &Option<GotLine>,
    placed: &[Placed<'_>],
) -> bool
    requires got { IsGotInLimit got.now }
    requires pieces { AreInLimit (placed_views placed.now) }
    ensures { IsTrue result ↔ IsBlockRight base got.now (placed_views placed.now) memory.now }
{
    let headers = memory.thread_blocks();
    if !are_headers_right(headers, base, placed) {
        return false;
    }
    let end = end_of(Part::ThreadData, placed);
    if !begin_after(end, placed) {
        return false;
    }
    if !are_clear_to(headers, end, got, placed) {
        return false;
    }
    hold_initial(memory, headers)
}
