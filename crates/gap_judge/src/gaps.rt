//! The gaps that spans leave in segments, and whether these have fill.
ghost use Rattle.std.specs.Prelude.{◌≡◌, ◌↔◌, ◌+◌, ◌^◌, ◌<◌, ◌≤◌, [], All, AllPairs, Any, Contains, IsTrue, true};
ghost use Rattle.code_fill.specs.Padded.{whole};
ghost use Rattle.elf_model.specs.Image.MemoryImage.{loads};
ghost use Rattle.judge_model.specs.Fill as fill;
ghost use Rattle.memory_judge.specs.Spans.{IsInSpan, IsSpanBefore, with_span};
ghost use Rattle.gap_judge.specs.Fill.{HoldsFill, HoldsFillIn, IsFill, IsSegmentFilled};

use code_fill::{are_nops, are_zeros, is_code_fill};
use elf_model::{PF_X, ProgramHeader};
use foreign_image::ForeignImage;
use loader_model::Run;
use memory_judge::{Span, has_address};

/// Whether a segment can be executed.
fn is_executed(segment: &ProgramHeader) -> bool
    ensures { result ≡ fill.is_executed segment.now }
{
    segment.p_flags & PF_X == PF_X
}

/// Whether bytes are fill: of a segment that can be executed, or of another; and in the gap of a run of code, or elsewhere.
fn is_fill(run: Run<'_>, executed: bool, through: bool) -> bool
    ensures { IsTrue result ↔ IsFill executed (through ≡ true) (whole run.entry) }
{
    if through && !are_nops(run) {
        return false;
    }
    if executed {
        is_code_fill(run)
    } else {
        are_zeros(run)
    }
}

/// Whether memory of a segment has fill from one address on and below another, given the gaps of runs of code.
fn holds_fill(
    image: &ForeignImage<'_>,
    segment: &ProgramHeader,
    runs: &[Span],
    from: u64,
    to: u64,
) -> bool
    requires there { Contains (loads image.now) segment.now }
    requires some { from < to }
    requires inside { (segment.now.p_vaddr ≤ from)
        × (to ≤ segment.now.p_vaddr + segment.now.p_memsz) }
    requires runs { All (λ s. s.from < s.to) runs.now }
    requires rising { AllPairs IsSpanBefore runs.now }
    ensures { IsTrue result ↔ HoldsFill image.now runs.now segment.now from to }
{
    match image.run(from, to - from) {
        Some(held) => is_fill(held, is_executed(segment), has_address(runs, from)),
        None => false,
    }
}

/// The same where there may be no address between.
fn holds_fill_if_any(
    image: &ForeignImage<'_>,
    segment: &ProgramHeader,
    runs: &[Span],
    from: u64,
    to: u64,
) -> bool
    requires there { Contains (loads image.now) segment.now }
    requires inside { (segment.now.p_vaddr ≤ from)
        × (to ≤ segment.now.p_vaddr + segment.now.p_memsz) }
    requires runs { All (λ s. s.from < s.to) runs.now }
    requires rising { AllPairs IsSpanBefore runs.now }
    ensures { IsTrue result
        ↔ All (HoldsFillIn image.now runs.now segment.now) (with_span from to []) }
{
    if from >= to {
        return true;
    }
    holds_fill(image, segment, runs, from, to)
}

/// Whether memory of a segment has fill where spans leave it, given the gaps of runs of code.
fn is_segment_filled(
    image: &ForeignImage<'_>,
    segment: &ProgramHeader,
    spans: &[Span],
    runs: &[Span],
) -> bool
    requires there { Contains (loads image.now) segment.now }
    requires low { segment.now.p_vaddr + segment.now.p_memsz < 2 ^ 64 }
    requires runs { All (λ s. s.from < s.to) runs.now }
    requires rising { AllPairs IsSpanBefore runs.now }
    ensures { IsTrue result ↔ IsSegmentFilled image.now spans.now runs.now segment.now }
{
    let top = segment.p_vaddr + segment.p_memsz;
    let mut from = segment.p_vaddr;
    for span in spans {
        if !holds_fill_if_any(image, segment, runs, from, span.from.min(top)) {
            return false;
        }
        from = from.max(span.to);
    }
    holds_fill_if_any(image, segment, runs, from, top)
}

fn are_all_filled(
    image: &ForeignImage<'_>,
    segments: &[ProgramHeader],
    spans: &[Span],
    runs: &[Span],
) -> bool
    requires there { All (Contains (loads image.now)) segments.now }
    requires low { All (λ h. h.p_vaddr + h.p_memsz < 2 ^ 64) segments.now }
    requires runs { All (λ s. s.from < s.to) runs.now }
    requires rising { AllPairs IsSpanBefore runs.now }
    ensures { IsTrue result ↔ All (IsSegmentFilled image.now spans.now runs.now) segments.now }
{
    for segment in segments {
        if !is_segment_filled(image, segment, spans, runs) {
            return false;
        }
    }
    true
}

/// Whether memory of each segment has fill where spans leave it, given the gaps of runs of code. It takes time by the number of spans
/// for each segment, of which programs have few.
pub fn are_segments_filled(image: &ForeignImage<'_>, spans: &[Span], runs: &[Span]) -> bool
    requires runs { All (λ s. s.from < s.to) runs.now }
    requires rising { AllPairs IsSpanBefore runs.now }
    ensures { IsTrue result
        ↔ All (IsSegmentFilled image.now spans.now runs.now) (loads image.now) }
{
    let _program = image.image();
    are_all_filled(image, image.segments(), spans, runs)
}
