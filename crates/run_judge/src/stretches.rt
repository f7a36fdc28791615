//! The stretches of addresses that sections, common blocks, headers and notes take up, with the run names of the first.
ghost use Rattle.std.specs.Prelude.{◌≡◌, ◌↔◌, ◌≤◌, ◌<◌, ℕ, All, IfOk, List, OnOk};
ghost use Rattle.std.specs.List.Sorted.{IsNonDecreasingBy};
ghost use Rattle.check_link.specs.Views.{placed_view, placed_views};
ghost use Rattle.memory_judge.specs.Spans.{far};
ghost use Rattle.run_judge.specs.Clear.{AreStretches, IsBesideGap, IsBesideIfStrange, Misses};

use crate::names::run_name;
use check_link::{Placed, thing_of_placed};
use elf_model::Thing;
use memory_judge::end_of;
use std::alloc::{AllocError, Global};

/// The addresses that a thing takes up, and the run name of its section, if it is one.
#[derive(Clone, Copy, Debug)]
pub struct Stretch<'a> {
    pub from: u64,
    pub to: u64,
    pub name: Option<&'a [u8]>,
}

/// Where a thing ends that covers something, at most at 2^64 - 1; 0 where it covers nothing.
fn end_if_any(thing: &Thing) -> u64
    ensures { (from to : ℕ) → from < to → to ≤ far →
        (thing.now.at < to → result ≤ from) ↔ IsBesideGap from to thing.now }
{
    if thing.size == 0 {
        return 0;
    }
    end_of(thing)
}

/// The stretch of a thing that is no section.
fn made_stretch<'a>(thing: &Thing) -> Stretch<'a>
    ensures { (name : List ℕ) (from to : ℕ) → from < to → to ≤ far →
        Misses name from to result ↔ IsBesideGap from to thing.now }
{
    Stretch {
        from: thing.at,
        to: end_if_any(thing),
        name: None,
    }
}

/// The stretch of a section or of a common block.
fn placed_stretch<'a>(q: &Placed<'a>) -> Stretch<'a>
    ensures { (name : List ℕ) (from to : ℕ) → from < to → to ≤ far →
        Misses name from to result ↔ IsBesideIfStrange name from to (placed_view q.now) }
{
    let thing = thing_of_placed(q);
    Stretch {
        from: thing.at,
        to: end_if_any(&thing),
        name: Some(run_name(q.piece.name)),
    }
}

/// Adds the stretches of things.
fn add_made<'a>(stretches: &mut Vec<Stretch<'a>>, made: &[Thing]) -> Result<(), AllocError>
    ensures { OnOk result ((name : List ℕ) (from to : ℕ) → from < to → to ≤ far →
        All (Misses name from to) stretches.new.items
        ↔ (All (Misses name from to) stretches.old.items × All (IsBesideGap from to) made.now)) }
{
    for thing in made {
        stretches.push(made_stretch(thing))?;
    }
    Ok(())
}

/// Adds the stretches of sections and common blocks.
fn add_placed<'a>(stretches: &mut Vec<Stretch<'a>>, placed: &[Placed<'a>]) -> Result<(), AllocError>
    ensures { OnOk result ((name : List ℕ) (from to : ℕ) → from < to → to ≤ far →
        All (Misses name from to) stretches.new.items
        ↔ (All (Misses name from to) stretches.old.items
        × All (IsBesideIfStrange name from to) (placed_views placed.now))) }
{
    for q in placed {
        stretches.push(placed_stretch(q))?;
    }
    Ok(())
}

/// The stretches of things that are no sections, and of sections and common blocks, by their beginnings.
pub fn stretches_of<'a>(
    alloc: Global,
    made: &[Thing],
    placed: &[Placed<'a>],
) -> Result<Vec<Stretch<'a>>, AllocError>
    ensures told { IfOk result (λ v. AreStretches made.now (placed_views placed.now) v.items) }
    ensures rising { IfOk result (λ v. IsNonDecreasingBy (λ s. s.from) v.items) }
{
    let mut stretches = Vec::new(alloc);
    add_made(&mut stretches, made)?;
    add_placed(&mut stretches, placed)?;
    stretches.sort_by_key(|s| s.from)?;
    Ok(stretches)
}
