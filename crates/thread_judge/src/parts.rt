//! Where the thread-local pieces of a link begin and end, and their alignment.
ghost use Rattle.std.specs.Prelude.{◌≡◌, ◌↔◌, All, IsTrue, map};
ghost use Rattle.elf_model.specs.Link.LinkerValues.{end_of_pieces, start_of_pieces};
ghost use Rattle.elf_model.specs.Link.ThreadStorage as storage;
ghost use Rattle.elf_model.proofs.PieceBounds.{earlier, further};
ghost use Rattle.check_link.specs.Views.{piece_view, placed_view, placed_views};
ghost use Rattle.judge_model.specs.Placed.{IsLow};
ghost use Rattle.thread_judge.specs.Parts.{AreLow, greater, part_test};

use check_link::{Piece, Placed};

/// The thread-local pieces of which something is asked: all of them, those that aren't empty; those with bytes in the file,
/// and the nonempty ones of these; and those without.
#[derive(Clone, Copy, Debug)]
pub enum Part {
    All,
    Some,
    Data,
    SomeData,
    Zeros,
}

/// Where the addresses of a program end.
pub const ADDRESS_END: u64 = 1 << 47;

/// Whether a piece ends within the addresses of a program.
fn is_low(placed: &Placed<'_>) -> bool
    ensures { IsTrue result ↔ IsLow (placed_view placed.now) }
{
    let size = placed.piece.header.sh_size;
    placed.at <= ADDRESS_END && size <= ADDRESS_END - placed.at
}

fn are_all_low(placed: &[Placed<'_>]) -> bool
    ensures { IsTrue result ↔ All (λ q. IsLow (placed_view q)) placed.now }
{
    placed.iter().all(|q| is_low(q))
}

/// Whether all pieces end within the addresses of a program.
pub fn are_low(placed: &[Placed<'_>]) -> bool
    ensures { IsTrue result ↔ AreLow (placed_views placed.now) }
{
    are_all_low(placed)
}

/// Whether a piece is of a part.
pub fn is_of(part: Part, piece: &Piece<'_>) -> bool
    ensures { result ≡ part_test part (piece_view piece.now) }
{
    let header = &piece.header;
    if !header.is_thread_local() {
        return false;
    }
    match part {
        Part::All => true,
        Part::Some => header.sh_size > 0,
        Part::Data => !header.is_nobits(),
        Part::SomeData => !header.is_nobits() && header.sh_size > 0,
        Part::Zeros => header.is_nobits(),
    }
}

/// The end of a piece of the part, where it is above another end.
fn further(part: Part, end: u64, placed: &Placed<'_>) -> u64
    requires { IsLow (placed_view placed.now) }
    ensures { result ≡ further (part_test part) end (placed_view placed.now) }
{
    if is_of(part, &placed.piece) {
        return end.max(placed.at + placed.piece.header.sh_size);
    }
    end
}

/// The greatest end of the pieces of a part; 0 without any.
pub fn end_of(part: Part, placed: &[Placed<'_>]) -> u64
    requires { AreLow (placed_views placed.now) }
    ensures { result ≡ end_of_pieces (part_test part) (placed_views placed.now) }
{
    let mut end = 0;
    for q in placed {
        end = further(part, end, q);
    }
    end
}

/// The address of a piece of the part, where it is below another one.
fn earlier(part: Part, start: Option<u64>, placed: &Placed<'_>) -> Option<u64>
    ensures { result ≡ earlier (part_test part) start (placed_view placed.now) }
{
    if !is_of(part, &placed.piece) {
        return start;
    }
    match start {
        Some(at) => Some(placed.at.min(at)),
        None => Some(placed.at),
    }
}

/// The least address of the pieces of a part; None without any.
pub fn start_of(part: Part, placed: &[Placed<'_>]) -> Option<u64>
    ensures { result ≡ start_of_pieces (part_test part) (placed_views placed.now) }
{
    let mut start = None;
    for q in placed {
        start = earlier(part, start, q);
    }
    start
}

/// An alignment, or that of a piece of the part where it is greater.
fn greater(part: Part, align: u64, placed: &Placed<'_>) -> u64
    ensures { result ≡ greater (part_test part) align (placed_view placed.now) }
{
    if is_of(part, &placed.piece) {
        return align.max(placed.piece.header.sh_addralign.max(1));
    }
    align
}

/// The greatest alignment of the pieces of a part; 1 without any.
pub fn alignment_of(part: Part, placed: &[Placed<'_>]) -> u64
    ensures { result ≡ storage.alignment_of (part_test part)
        (map (λ q. q.piece) (placed_views placed.now)) }
{
    let mut align = 1;
    for q in placed {
        align = greater(part, align, q);
    }
    align
}
