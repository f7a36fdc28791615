//! C5 and C6: things that aren't aligned, lie outside of the addresses, share one or lie in no segment with their rights, sections
//! that aren't close after the one before them, and a first segment that doesn't begin at the base.
ghost use Rattle.std.specs.Prelude.{◌≡◌, All, Contains, IfNone, IfSome, IsTrue, OnOk, false, option_map, true};
ghost use Rattle.std.specs.List.{slice_get};
ghost use Rattle.elf_model.specs.Image.MemoryImage.{Encloses, loads};
ghost use Rattle.elf_model.specs.Link.Placement.{AreApart, LiesInSegment};
ghost use Rattle.check_link.specs.Views.{placed_view, placed_views};
ghost use Rattle.explain_check.specs.Places.{AreFailures, FailsIn, IsPart, IsThing, MustLie, piece_of};

use crate::bytes::placed_at;
use crate::found::{Added, Found};
use crate::place::{CheckPlace, Failure, Part};
use check_link::{Placed, base_of, first_address, range_of_placed};
use check_places::c05_placed::array_order::in_array_order;
use check_places::c05_placed::neighbours::far_pairs;
use check_places::c05_placed::{is_aligned, is_within};
use check_places::c06_rights::{lies_if_nonempty, lies_in_segment};
use check_stages::encloses;
use checker::PlacedLink;
use elf_model::{ProgramHeader, Thing};
use std::alloc::{AllocError, Global};

/// The piece that the thing with a number is: none where it is the headers or the GOT.
fn piece_at<'a>(placed: &PlacedLink<'_, 'a>, k: usize) -> Option<Placed<'a>>
    ensures { piece_of placed.now k ≡ option_map placed_view result }
{
    let gots = placed.gots().len();
    if k <= gots {
        return None;
    }
    placed_at(placed.placed(), k - 1 - gots)
}

/// The thing that has a number, or the thread-local section that has it, with all its addresses.
fn thing_at(placed: &PlacedLink<'_, '_>, thread: bool, k: usize) -> Option<Thing>
    ensures { IfSome result (IsThing placed.now thread k) }
{
    if !thread {
        return placed.things().get(k).copied();
    }
    let piece = piece_at(placed, k)?;
    if !piece.piece.header.is_thread_local() {
        return None;
    }
    Some(range_of_placed(&piece))
}

/// It as a part.
fn part_at<'a>(placed: &PlacedLink<'_, 'a>, thread: bool, k: usize) -> Option<Part<'a>>
    ensures part { IfSome result (IsPart placed.now) }
    ensures list { IfSome result (λ p. p.thread ≡ thread) }
{
    Some(Part {
        thread,
        number: k as u64,
        thing: thing_at(placed, thread, k)?,
        piece: piece_at(placed, k),
    })
}

/// A thing that isn't aligned.
fn unaligned<'a>(placed: &PlacedLink<'_, 'a>, k: usize) -> Failure<'a>
    ensures { IfSome result (FailsIn placed.now) }
{
    let part = part_at(placed, false, k)?;
    if is_aligned(&part.thing) {
        return None;
    }
    Some(CheckPlace::Unaligned(part))
}

/// A part that doesn't lie from the base on and below 2^46.
fn outside<'a>(placed: &PlacedLink<'_, 'a>, thread: bool, k: usize) -> Failure<'a>
    ensures { IfSome result (FailsIn placed.now) }
{
    let part = part_at(placed, thread, k)?;
    let link = placed.link();
    if is_within(base_of(&link.plan), &part.thing) {
        return None;
    }
    Some(CheckPlace::Outside(part))
}

/// Whether the second one of two things begins in the first one, and takes up some addresses.
fn begins_in(first: &Thing, second: &Thing) -> bool
    ensures { IsTrue result → ¬ AreApart first.now second.now }
{
    if second.size == 0 || second.at < first.at {
        return false;
    }
    second.at - first.at < first.size
}

/// Two parts, both things or both thread-local sections, of which the second one begins in the first one.
fn shared<'a>(placed: &PlacedLink<'_, 'a>, thread: bool, i: usize, j: usize) -> Failure<'a>
    ensures { IfSome result (FailsIn placed.now) }
{
    let first = part_at(placed, thread, i)?;
    let second = part_at(placed, thread, j)?;
    if first.number == second.number || !begins_in(&first.thing, &second.thing) {
        return None;
    }
    Some(CheckPlace::Shared(first, second))
}

/// The pairs of parts, by their numbers, of which the second one begins below where the one ends that reaches furthest of those
/// before it, in the order of their addresses.
fn overlapping(
    alloc: Global,
    placed: &PlacedLink<'_, '_>,
    thread: bool,
) -> Result<Vec<(usize, usize)>, AllocError> {
    let mut ordered = Vec::new(alloc);
    for k in 0..placed.things().len() {
        if let Some(thing) = thing_at(placed, thread, k) {
            ordered.push((thing.at, thing.at.saturating_add(thing.size), k))?;
        }
    }
    ordered.sort_by_key(|t| t.0)?;
    let mut pairs = Vec::new(alloc);
    let mut furthest = (0, 0);
    for (at, end, k) in &ordered {
        if *at < furthest.0 {
            pairs.push((furthest.1, *k))?;
        }
        if furthest.0 < *end {
            furthest = (*end, *k);
        }
    }
    Ok(pairs)
}

/// Whether the thing with a number, which is empty and not the GOT, or lies whole in a segment with exactly its rights.
fn is_held(placed: &PlacedLink<'_, '_>, number: u64, thing: &Thing) -> bool
    ensures must { result ≡ false → MustLie placed.now number thing.now }
    ensures lies { LiesInSegment (loads placed.now.image) thing.now → IsTrue result }
{
    if number == 1 && !placed.gots().is_empty() {
        return lies_in_segment(placed.memory().segments(), thing);
    }
    lies_if_nonempty(placed.memory(), thing)
}

/// The first segment that a thing lies whole in.
fn segment_of(placed: &PlacedLink<'_, '_>, thing: &Thing) -> Option<ProgramHeader>
    ensures some { IfSome result (λ h. Contains (loads placed.now.image) h
        × Encloses h thing.now.at thing.now.size) }
    ensures none { IfNone result
        (All (λ h. ¬ Encloses h thing.now.at thing.now.size) (loads placed.now.image)) }
{
    let mut segments = placed.memory().segments().iter();
    segments
        .find(|h| encloses(h, thing.at, thing.size))
        .copied()
}

/// A thing that doesn't lie in a segment with its rights.
fn unheld<'a>(placed: &PlacedLink<'_, 'a>, k: usize) -> Failure<'a>
    ensures { IfSome result (FailsIn placed.now) }
{
    let part = part_at(placed, false, k)?;
    if is_held(placed, part.number, &part.thing) {
        return None;
    }
    let segment = segment_of(placed, &part.thing);
    Some(CheckPlace::Unheld(part, segment))
}

/// The first segment, where it doesn't begin at the base.
fn wrong_first<'a>(placed: &PlacedLink<'_, 'a>) -> Failure<'a>
    ensures { IfSome result (FailsIn placed.now) }
{
    let link = placed.link();
    let first = first_address(placed.memory());
    if first == base_of(&link.plan) {
        return None;
    }
    Some(CheckPlace::First(first))
}

impl<'a> Found<'a> {
    /// Adds the things, or the thread-local sections, that lie outside of the addresses or share one.
    fn add_parts(&mut self, placed: &PlacedLink<'_, 'a>, thread: bool) -> Added
        requires { AreFailures placed.now self.old.places.items }
        ensures { OnOk result (AreFailures placed.now self.new.places.items) }
    {
        for k in 0..placed.things().len() {
            self.add_some(outside(placed, thread, k))?;
        }
        for (i, j) in &overlapping(self.alloc, placed, thread)? {
            self.add_some(shared(placed, thread, *i, *j))?;
        }
        Ok(())
    }

    /// Adds where the fifth clause fails: also the sections that aren't close after the one before them in the order of their
    /// output sections.
    pub(crate) fn add_c5(&mut self, placed: &PlacedLink<'_, 'a>) -> Added
        requires { AreFailures placed.now self.old.places.items }
        ensures { OnOk result (AreFailures placed.now self.new.places.items) }
    {
        for k in 0..placed.things().len() {
            self.add_some(unaligned(placed, k))?;
        }
        self.add_parts(placed, false)?;
        self.add_parts(placed, true)?;
        let sections = in_array_order(self.alloc, placed.sections())?;
        for (first, second) in &far_pairs(self.alloc, &sections)? {
            self.add(CheckPlace::Far(*first, *second))?;
        }
        Ok(())
    }

    /// Adds where the sixth clause fails.
    pub(crate) fn add_c6(&mut self, placed: &PlacedLink<'_, 'a>) -> Added
        requires { AreFailures placed.now self.old.places.items }
        ensures { OnOk result (AreFailures placed.now self.new.places.items) }
    {
        self.add_some(wrong_first(placed))?;
        for (k, thing) in placed.things().iter().enumerate() {
            if is_held(placed, k as u64, thing) {
                continue;
            }
            if self.is_full() {
                self.count();
                continue;
            }
            self.add_some(unheld(placed, k))?;
        }
        Ok(())
    }
}
