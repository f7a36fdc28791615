//! The addresses of a link by which the values of its names are judged.
ghost use Rattle.std.specs.Prelude.{◌≡◌, ◌+◌, ◌^◌, ◌≤◌, All, IfSome, max};
ghost use Rattle.elf_model.specs.Image.MemoryImage.{loads};
ghost use Rattle.elf_model.specs.Link.LinkerValues.{end_of_pieces};
ghost use Rattle.elf_model.proofs.PieceBounds.{further};
ghost use Rattle.check_link.specs.PieceParts.{AreInLimit, IsInLimit};
ghost use Rattle.check_link.specs.Views.{piece_view, placed_view, placed_views};
ghost use Rattle.judge_model.specs.Memory.{address_limit, memory_end};
ghost use Rattle.judge_model.specs.Names.{is_small_data};
ghost use Rattle.name_judge.specs.Bounds.{AreMarks};
ghost use Rattle.name_judge.specs.Clear.{IsEndOfStretches, IsLastIn, IsLowEnd};

use crate::gaps::{last_in, next_in};
use crate::nonempty::{end_of_data, start_of_zeros};
use check_link::{Part, Piece, Placed, end_of, start_of};
use elf_model::{ProgramHeader, Thing};
use foreign_image::ForeignImage;
use judge_model::StretchLine;

/// How far behind the last segment names may be: twice the largest page that linkers align to.
const MARGIN: u64 = 2 * (1 << 21);

/// The flag of sections that need not be near others (AMD64 psABI, "Large code models").
const SHF_X86_64_LARGE: u64 = 0x1000_0000;

/// The greatest ends of code, of data in the file and of what isn't large of these, and the least address behind each that
/// anything covers; where zeros begin, and the end of what comes before; the least address of sections of zeros, empty ones too; the
/// greatest end of data that aren't empty; the greatest ends of all and of what the linker filled; and the greatest address that a
/// name may have.
#[derive(Clone, Copy, Debug)]
pub struct Marks {
    pub code_end: u64,
    pub code_next: Option<u64>,
    pub data_end: u64,
    pub data_next: Option<u64>,
    pub small_end: u64,
    pub small_next: Option<u64>,
    pub zero_start: Option<u64>,
    pub zero_last: Option<u64>,
    pub empty_start: Option<u64>,
    pub some_end: u64,
    pub image_end: u64,
    pub filled_end: u128,
    pub limit: u64,
}

/// The greatest end of stretches; 0 without any.
fn end_of_stretches(stretches: &[StretchLine]) -> u128
    ensures { IsEndOfStretches stretches.now result }
{
    let mut end = 0u128;
    for stretch in stretches {
        end = end.max(stretch.address as u128 + stretch.size as u128);
    }
    end
}

/// Whether a piece is of data in the file that isn't large.
pub fn is_small_data(piece: &Piece<'_>) -> bool
    ensures { result ≡ is_small_data (piece_view piece.now) }
{
    let header = &piece.header;
    header.is_writable() && !header.is_nobits() && header.sh_flags & SHF_X86_64_LARGE == 0
}

/// The greater of an end and that of such a piece.
fn further_small(end: u64, placed: &Placed<'_>) -> u64
    requires { IsInLimit (placed_view placed.now) }
    ensures { result ≡ further is_small_data end (placed_view placed.now) }
{
    if is_small_data(&placed.piece) {
        return end.max(placed.at + placed.piece.header.sh_size);
    }
    end
}

/// The greatest end of data in the file that isn't large; 0 without any.
fn end_of_small(placed: &[Placed<'_>]) -> u64
    requires { AreInLimit (placed_views placed.now) }
    ensures { result ≡ end_of_pieces is_small_data (placed_views placed.now) }
{
    let mut end = 0;
    for q in placed {
        end = further_small(end, q);
    }
    end
}

/// The greater of an end and a segment's.
fn further(end: u64, h: &ProgramHeader) -> u64
    requires { IsLowEnd h.now }
    ensures { result ≡ max end (h.now.p_vaddr + h.now.p_memsz) }
{
    end.max(h.p_vaddr + h.p_memsz)
}

/// The greatest end of segments; 0 without any.
fn end_of_memory(segments: &[ProgramHeader]) -> u64
    requires { All IsLowEnd segments.now }
    ensures end { result ≡ memory_end segments.now }
    ensures low { result ≤ 2 ^ 47 }
{
    let mut end = 0;
    for h in segments {
        end = further(end, h);
    }
    end
}

/// Where zeros may begin that begin at an address.
fn last_before(things: &[Thing], start: Option<u64>) -> Option<u64>
    ensures { IfSome start (λ a. IsLastIn things.now a result) }
{
    match start {
        Some(at) => last_in(things, at),
        None => None,
    }
}

/// The greatest address that a name may have in an image.
fn limit_of(image: &ForeignImage<'_>) -> u64
    ensures { result ≡ address_limit (loads image.now) }
{
    let _program = image.image();
    end_of_memory(image.segments()) + MARGIN
}

/// The addresses of a link's pieces, of all that takes up memory, and of what the linker filled.
pub fn marks_of(
    image: &ForeignImage<'_>,
    placed: &[Placed<'_>],
    things: &[Thing],
    filled: &[StretchLine],
) -> Marks
    requires { AreInLimit (placed_views placed.now) }
    ensures { AreMarks (loads image.now) (placed_views placed.now) things.now filled.now result }
{
    let code_end = end_of(Part::Code, placed);
    let data_end = end_of(Part::FileData, placed);
    let small_end = end_of_small(placed);
    let zero_start = start_of_zeros(placed);
    Marks {
        code_end,
        code_next: next_in(things, code_end),
        data_end,
        data_next: next_in(things, data_end),
        small_end,
        small_next: next_in(things, small_end),
        zero_start,
        zero_last: last_before(things, zero_start),
        empty_start: start_of(Part::Zeros, placed),
        some_end: end_of_data(placed),
        image_end: end_of(Part::Loaded, placed),
        filled_end: end_of_stretches(filled),
        limit: limit_of(image),
    }
}
