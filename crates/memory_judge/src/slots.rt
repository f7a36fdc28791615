//! Slots of a GOT, which a field tells the place of.
ghost use Rattle.std.specs.Prelude.{◌≡◌, ◌↔◌, ◌+◌, ◌<◌, ◌≤◌, ◌%◌, ◌^◌, ◌+ℤ◌, ◌-ℤ◌, ℕ, All, AllPairs, Any, IsTrue, pos};
ghost use Rattle.elf_model.specs.Image.MemoryImage.{loads};
ghost use Rattle.elf_model.specs.Link.Relocation.{modulo_64};
ghost use Rattle.judge_model.specs.Fields.{IsInFile};
ghost use Rattle.memory_judge.specs.Slots.{IsApartFrom, IsClear, IsSlotAmong};
ghost use Rattle.memory_judge.specs.Spans.{IsSpanBefore};

use crate::numbers::holds_number;
use crate::spans::{Span, Taken, count_ended};
use elf_model::ProgramHeader;
use foreign_image::ForeignImage;

/// The address below 2^64 that, with an addend and less a number, is a value modulo 2^64.
pub fn slot_address(value: u64, addend: i64, less: u64) -> u64
    ensures { (at n : ℕ) → at < 2 ^ 64 → less ≡ n % 2 ^ 64
        → modulo_64 ((pos at +ℤ addend) -ℤ pos n) ≡ value → result ≡ at }
{
    value
        .wrapping_sub(addend.cast_unsigned())
        .wrapping_add(less)
}

/// Whether the eight bytes from an address on lie in the file part of a segment.
fn is_in_file(at: u64, h: &ProgramHeader) -> bool
    ensures { IsTrue result ↔ IsInFile h.now at 8 }
{
    if at < h.p_vaddr || h.p_filesz < 8 {
        return false;
    }
    at - h.p_vaddr <= h.p_filesz - 8
}

fn is_in_some_file(at: u64, segments: &[ProgramHeader]) -> bool
    ensures { IsTrue result ↔ Any (λ h. IsInFile h at 8) segments.now }
{
    segments.iter().any(|h| is_in_file(at, h))
}

/// Whether a span begins behind the eight bytes from an address on.
fn begins_behind(at: u64, span: &Span) -> bool
    ensures { IsTrue result ↔ (at + 8 ≤ span.now.from) }
{
    span.from >= at && span.from - at >= 8
}

/// Whether none of the spans, which rise apart, has one of the eight bytes from an address on.
fn is_apart_from_spans(at: u64, spans: &[Span]) -> bool
    requires some { All (λ s. s.from < s.to) spans.now }
    requires rising { AllPairs IsSpanBefore spans.now }
    ensures { IsTrue result ↔ All (IsApartFrom at) spans.now }
{
    match spans.get(count_ended(spans, at)) {
        Some(next) => begins_behind(at, next),
        None => true,
    }
}

/// Whether no thing has one of the eight bytes from an address on, all of them below 2^64 - 1. It takes the logarithm of the number
/// of things.
fn is_apart_from_all(at: u64, taken: &Taken<'_>) -> bool
    requires { at + 8 < 2 ^ 64 }
    ensures { IsTrue result ↔ All (IsClear at) taken.now }
{
    is_apart_from_spans(at, taken.spans())
}

/// Whether there may be a slot at an address, and it holds a value: it is aligned, lies in the file part of a segment, and apart
/// from things that take up memory.
pub fn is_slot(image: &ForeignImage<'_>, taken: &Taken<'_>, at: u64, value: u64) -> bool
    ensures { IsTrue result ↔ IsSlotAmong image.now taken.now at value }
{
    let _program = image.image();
    if at % 8 != 0 || !is_in_some_file(at, image.segments()) {
        return false;
    }
    if !holds_number(image, at, 0, 8, value) {
        return false;
    }
    is_apart_from_all(at, taken)
}
