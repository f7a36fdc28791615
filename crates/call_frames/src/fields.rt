//! The fields of a section, by rising places: those that may touch a record are found by bisection.
ghost use Rattle.std.specs.Prelude.{◌≡◌, ◌↔◌, ◌<◌, ◌≤◌, ℕ, All, drop, length, take};
ghost use Rattle.std.specs.List.Sorted.{IsNonDecreasingBy};
ghost use Rattle.memory_judge.specs.Rests.{IsBeside};
ghost use Rattle.call_frames.specs.Fields.{IsNarrow};

use memory_judge::FieldSpan;
use std::marker::Model;

/// The fields of a section, of which each begins where the one in front of it does, or behind.
#[derive(Drop)]
pub struct SectionFields<'s> {
    spans: &'s [FieldSpan],
}

impl<'s> Model for SectionFields<'s> {
    ghost use Rattle.std.specs.Prelude.{List};
    ghost use Rattle.memory_judge.specs.declared.rests.FieldSpan.{FieldSpan};
    ghost use Rattle.call_frames.specs.Fields.{AreFields};

    ghost Value = { List FieldSpan };

    ghost view = { λ f. f.spans.now };

    ghost invariant = { λ f. AreFields f.spans.now };
}

/// A field has at most 255 bytes, as the type of its width says: what reads the width knows it.
fn narrow(span: &FieldSpan)
    ensures { IsNarrow span.now }
{
    let _width = span.width;
}

/// So has each of some, which are read one by one.
fn all_narrow(spans: &[FieldSpan])
    ensures { All IsNarrow spans.now }
{
    for span in spans {
        narrow(span);
    }
}

/// How many of the fields begin below a byte.
fn count_below(spans: &[FieldSpan], at: u64) -> usize
    requires { IsNonDecreasingBy (λ s. s.at) spans.now }
    ensures within { result ≤ length spans.now }
    ensures below { All (λ s. s.at < at) (take result spans.now) }
    ensures behind { All (λ s. at ≤ s.at) (drop result spans.now) }
{
    spans.partition_point(|s| s.at < at)
}

impl<'s> SectionFields<'s> {
    /// The fields of a section, given by rising places. It takes their number, so it is made once for a section.
    pub fn new(spans: &'s [FieldSpan]) -> SectionFields<'s>
        requires { IsNonDecreasingBy (λ s. s.at) spans.now }
        ensures { result ≡ spans.entry.now }
    {
        all_narrow(spans);
        SectionFields { spans }
    }

    /// Those of the fields that may have bytes from one on and below another. It takes the logarithm of their number.
    pub fn near(&self, from: u64, to: u64) -> &'s [FieldSpan]
        ensures rising { IsNonDecreasingBy (λ s. s.at) result.now }
        ensures same { (k : ℕ) → from ≤ k → k < to → IsBeside result.now k ↔ IsBeside self.now k }
    {
        let (_before, rest) = self
            .spans
            .split_at(count_below(self.spans, from.saturating_sub(255)));
        let (near, _behind) = rest.split_at(count_below(rest, to));
        near
    }
}
