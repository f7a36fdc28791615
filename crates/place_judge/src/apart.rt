//! Whether things share no address.
ghost use Rattle.std.specs.Prelude.{◌↔◌, AllPairs, IfOk, IsTrue};
ghost use Rattle.elf_model.specs.Link.Placement.{AreApart};
ghost use Rattle.check_link.specs.Views.{placed_views};
ghost use Rattle.elf_model.specs.Link.Placement.{thread_ranges};

use check_link::{Placed, thread_ranges_of};
use check_places::c05_placed::apart::are_apart as are_sorted_apart;
use elf_model::Thing;
use loader_model::by_address;
use std::alloc::{AllocError, Global};

/// Whether no address lies in two of the things. An empty one covers nothing.
///
/// # Errors
///
/// Only where memory is refused.
pub fn are_apart(alloc: Global, things: &[Thing]) -> Result<bool, AllocError>
    ensures { IfOk result (λ b. IsTrue b ↔ AllPairs AreApart things.now) }
{
    let sorted = by_address(alloc, things)?;
    Ok(are_sorted_apart(&sorted))
}

/// Whether no address lies in two of the thread-local pieces, those without bytes too.
///
/// # Errors
///
/// Only where memory is refused.
pub fn are_threads_apart(alloc: Global, placed: &[Placed<'_>]) -> Result<bool, AllocError>
    ensures { IfOk result (λ b. IsTrue b
        ↔ AllPairs AreApart (thread_ranges (placed_views placed.now))) }
{
    let ranges = thread_ranges_of(alloc, placed)?;
    are_apart(alloc, &ranges)
}
