//! C5: whether all things are aligned, within the addresses and apart, and the pieces of an output section near one another.
ghost use Rattle.std.specs.Prelude.{◌≡◌, ◌<◌, ◌^◌, ◌%◌, ◌↔◌, All, AllPairs, IfOk, IsPermutation, IsTrue};
ghost use Rattle.std.specs.List.Sorted.{IsNonDecreasingBy};
ghost use Rattle.elf_model.specs.Link.ArrayOrder.{placed_in_array_order};
ghost use Rattle.elf_model.specs.Link.Placement.{AreApart, IsPlaced, IsWithin};
ghost use Rattle.check_link.specs.Views.{placed_views};
ghost use Rattle.elf_model.specs.Image.RightLink.{Holds};
ghost use Rattle.elf_model.specs.declared.verdict.Clause.TheVariants as clause;

use crate::c05_placed::apart::are_apart;
use crate::c05_placed::array_order::are_near_in_array_order;
use check_link::{Placed, base_of, thread_ranges_of};
use check_stages::PlacedLink;
use elf_model::Thing;
use loader_model::by_address;
use std::alloc::{AllocError, Global};

pub mod apart;
pub mod array_order;
pub mod neighbours;

/// Whether the fifth clause holds of a link.
pub fn holds(alloc: Global, placed: &PlacedLink<'_, '_>) -> Result<bool, AllocError>
    ensures { IfOk result (λ b. IsTrue b ↔ Holds clause.C5 placed.now) }
{
    let link = placed.link();
    let threads = thread_ranges_of(alloc, placed.placed())?;
    let right = is_placed(
        alloc,
        base_of(&link.plan),
        placed.things(),
        placed.things_by_address(),
        &threads,
        placed.sections(),
    )?;
    Ok(right)
}

/// Addresses end here.
const ADDRESS_END: u64 = 1 << 46;

/// Whether a thing lies from the base on and below 2^46.
pub fn is_within(base: u64, thing: &Thing) -> bool
    ensures { IsTrue result ↔ IsWithin base thing.now }
{
    base <= thing.at && thing.at <= ADDRESS_END && thing.size <= ADDRESS_END - thing.at
}

fn are_within(base: u64, things: &[Thing]) -> bool
    ensures { IsTrue result ↔ All (IsWithin base) things.now }
{
    things.iter().all(|t| is_within(base, t))
}

/// Whether a thing's address is a multiple of its alignment.
pub fn is_aligned(thing: &Thing) -> bool
    ensures { IsTrue result ↔ (thing.now.at % thing.now.align ≡ 0) }
{
    if thing.align == 0 {
        return thing.at == 0;
    }
    thing.at % thing.align == 0
}

fn are_aligned(things: &[Thing]) -> bool
    ensures { IsTrue result ↔ All (λ t. t.at % t.align ≡ 0) things.now }
{
    things.iter().all(|t| is_aligned(t))
}

/// Whether all things lie from the base on below 2^46, and no two share an address, given them by address too.
fn lie_apart(base: u64, things: &[Thing], sorted: &[Thing]) -> bool
    requires same { IsPermutation things.now sorted.now }
    requires rising { IsNonDecreasingBy (λ t. t.at) sorted.now }
    ensures { IsTrue result
        ↔ (All (IsWithin base) things.now × AllPairs AreApart things.now) }
{
    if !are_within(base, things) {
        return false;
    }
    are_apart(sorted)
}

/// Whether thread-local ranges do.
fn do_threads_lie_apart(alloc: Global, base: u64, threads: &[Thing]) -> Result<bool, AllocError>
    ensures { IfOk result (λ b. IsTrue b
        ↔ (All (IsWithin base) threads.now × AllPairs AreApart threads.now)) }
{
    let sorted = by_address(alloc, threads)?;
    Ok(lie_apart(base, threads, &sorted))
}

/// Whether each thing has an address that is a multiple of its alignment, all lie from the base on below 2^46, no two share
/// an address, nor do two thread-local pieces; and each of the sections stands close after the one before it in its
/// output section. The things are given by address too.
fn is_placed(
    alloc: Global,
    base: u64,
    things: &[Thing],
    sorted: &[Thing],
    threads: &[Thing],
    sections: &[Placed<'_>],
) -> Result<bool, AllocError>
    requires same { IsPermutation things.now sorted.now }
    requires rising { IsNonDecreasingBy (λ t. t.at) sorted.now }
    ensures { IfOk result (λ b. IsTrue b
        ↔ IsPlaced base things.now threads.now
        (placed_in_array_order (placed_views sections.now))) }
{
    if !are_aligned(things) {
        return Ok(false);
    }
    if !lie_apart(base, things, sorted) {
        return Ok(false);
    }
    if !do_threads_lie_apart(alloc, base, threads)? {
        return Ok(false);
    }
    let near = are_near_in_array_order(alloc, sections)?;
    Ok(near)
}
