//! Words that place: where the first segment and output sections are to begin (ld(1)).
ghost use Rattle.std.specs.Prelude.{◌≡◌, ◌↔◌, All, IfOk, IfSome, IsTrue};
ghost use Rattle.elf_model.specs.Image.MemoryImage.{first_address};
ghost use Rattle.check_link.specs.ByName.{found_in};
ghost use Rattle.check_link.specs.Outputs.{start_of};
ghost use Rattle.check_link.specs.PieceParts.{AreInLimit};
ghost use Rattle.check_link.specs.Views.{placed_views};
ghost use Rattle.place_judge.specs.Places.{IsStartIn, StartsAt, start_view};

use check_link::{Placed, Span, spans_of};
use elf_model::ProgramHeader;
use std::alloc::{AllocError, Global};
use std::collections::BTreeMap;

/// An output section that is to begin at an address.
#[derive(Clone, Copy, Debug)]
pub struct Start<'w> {
    pub name: &'w [u8],
    pub address: u64,
}

/// Where an output section begins; None where there is none of the name.
fn start_of(spans: &BTreeMap<&[u8], Span>, name: &[u8]) -> Option<u64>
    ensures { result ≡ start_of (found_in spans.now name.now) }
{
    match spans.get(name) {
        Some(span) => Some(span.start),
        None => None,
    }
}

fn starts_right(spans: &BTreeMap<&[u8], Span>, start: &Start<'_>) -> bool
    ensures { IsTrue result ↔ IsStartIn spans.now start.now }
{
    match start_of(spans, start.name) {
        Some(at) => at == start.address,
        None => true,
    }
}

fn do_all_start(spans: &BTreeMap<&[u8], Span>, starts: &[Start<'_>]) -> bool
    ensures { IsTrue result ↔ All (IsStartIn spans.now) starts.now }
{
    for start in starts {
        if !starts_right(spans, start) {
            return false;
        }
    }
    true
}

/// Whether each output section that is to begin at an address does so, where there is anything of it.
///
/// # Errors
///
/// Only where memory is refused.
pub fn are_starts_right(
    alloc: Global,
    placed: &[Placed<'_>],
    starts: &[Start<'_>],
) -> Result<bool, AllocError>
    requires { AreInLimit (placed_views placed.now) }
    ensures { IfOk result (λ b. IsTrue b
        ↔ All (λ s. StartsAt (placed_views placed.now) (start_view s)) starts.now) }
{
    let spans = spans_of(alloc, placed)?;
    Ok(do_all_start(&spans, starts))
}

/// Whether the first segment begins at an address, where one is given.
pub fn begins_at(segments: &[ProgramHeader], address: Option<u64>) -> bool
    ensures { IsTrue result ↔ IfSome address (λ a. first_address segments.now ≡ a) }
{
    let Some(address) = address else {
        return true;
    };
    match segments {
        [] => address == 0,
        [first, ..] => first.p_vaddr == address,
    }
}
