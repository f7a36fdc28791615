//! The addresses that things take up, as spans that stand apart: by these an address is found by bisection.
ghost use Rattle.std.specs.Prelude.{◌≡◌, ◌↔◌, ◌++◌, ◌<◌, ◌≤◌, ℕ, [], All, AllPairs, Any, IfOk, IsPermutation, IsTrue, OnOk, length, slice_index_or};
ghost use Rattle.std.specs.List.Sorted.{IsNonDecreasingBy};
ghost use Rattle.memory_judge.specs.Spans.{AreSpansOf, IsInSpan, IsSpanBefore, end_of, merged, with_span};

use elf_model::Thing;
use loader_model::by_address;
use std::alloc::{AllocError, Global};
use std::marker::Model;

/// The addresses from one on and below another.
#[derive(Clone, Copy, Debug)]
pub struct Span {
    pub from: u64,
    pub to: u64,
}

/// Where a thing ends, at most at 2^64 - 1.
pub fn end_of(thing: &Thing) -> u64
    ensures { result ≡ end_of thing.now }
{
    match thing.at.checked_add(thing.size) {
        Some(end) => end,
        None => u64::MAX,
    }
}

/// Puts a span behind others, where it has anything.
fn add_span(spans: &mut Vec<Span>, from: u64, to: u64) -> Result<(), AllocError>
    ensures { OnOk result (spans.new.items ≡ spans.old.items ++ with_span from to []) }
{
    if from < to {
        spans.push(Span { from, to })?;
    }
    Ok(())
}

/// Spans of things by their addresses: each thing that one reaches lengthens it.
fn merged(alloc: Global, sorted: &[Thing]) -> Result<Vec<Span>, AllocError>
    ensures { IfOk result (λ v. v.items ≡ merged 0 0 sorted.now) }
{
    let mut spans = Vec::new(alloc);
    let mut from = 0;
    let mut to = 0;
    for thing in sorted {
        let end = end_of(thing);
        if thing.at <= to {
            to = to.max(end);
            continue;
        }
        add_span(&mut spans, from, to)?;
        from = thing.at;
        to = end;
    }
    add_span(&mut spans, from, to)?;
    Ok(spans)
}

/// The addresses below 2^64 - 1 that things take up, as spans by rising addresses, of which each has something and ends before
/// the next begins.
///
/// # Errors
///
/// Only where memory is refused.
pub fn spans_of(alloc: Global, things: &[Thing]) -> Result<Vec<Span>, AllocError>
    ensures { IfOk result (λ v. AreSpansOf things.now v.items) }
{
    let sorted = by_address(alloc, things)?;
    merged(alloc, &sorted)
}

/// How many of the spans end at or below an address.
pub fn count_ended(spans: &[Span], at: u64) -> usize
    requires { IsNonDecreasingBy (λ s. s.to) spans.now }
    ensures within { result ≤ length spans.now }
    ensures ended { (k : ℕ) (d : Span) → k < result → (slice_index_or spans.now k d).to ≤ at }
    ensures not_yet { (k : ℕ) (d : Span) →
        result ≤ k → k < length spans.now → at < (slice_index_or spans.now k d).to }
{
    spans.partition_point(|s| s.to <= at)
}

fn begins_by(span: &Span, at: u64) -> bool
    ensures { IsTrue result ↔ (span.now.from ≤ at) }
{
    span.from <= at
}

/// Whether an address lies in one of spans that rise apart. It takes the logarithm of their number.
pub fn has_address(spans: &[Span], at: u64) -> bool
    requires some { All (λ s. s.from < s.to) spans.now }
    requires rising { AllPairs IsSpanBefore spans.now }
    ensures { IsTrue result ↔ Any (IsInSpan at) spans.now }
{
    match spans.get(count_ended(spans, at)) {
        Some(next) => begins_by(next, at),
        None => false,
    }
}

/// Things that take up memory, and the spans of their addresses.
#[derive(Drop)]
pub struct Taken<'t> {
    things: &'t [Thing],
    spans: Vec<Span>,
}

impl<'t> Model for Taken<'t> {
    ghost use Rattle.std.specs.Prelude.{List};
    ghost use Rattle.elf_model.specs.declared.thing.Thing.{Thing};
    ghost use Rattle.memory_judge.specs.Spans.{AreSpansOf};

    ghost Value = { List Thing };

    ghost view = { λ t. t.things.now };

    ghost invariant = { λ t. AreSpansOf t.things.now t.spans.items };
}

impl<'t> Taken<'t> {
    /// Finds the spans of things.
    ///
    /// # Errors
    ///
    /// Only where memory is refused.
    pub fn new(alloc: Global, things: &'t [Thing]) -> Result<Taken<'t>, AllocError>
        ensures { IfOk result (λ t. t ≡ things.entry.now) }
    {
        let spans = spans_of(alloc, things)?;
        Ok(Taken { things, spans })
    }

    /// The spans of the addresses below 2^64 - 1 that the things take up.
    pub fn spans(&self) -> &[Span]
        ensures { AreSpansOf self.now result.now }
    {
        &self.spans
    }
}
