//! Whether the neighbours of runs are near each other, with nothing but sections of their name between them.
ghost use Rattle.std.specs.Prelude.{◌≡◌, ◌↔◌, All, IfOk, IsTrue};
ghost use Rattle.elf_model.specs.Link.Placement.{IsNear};
ghost use Rattle.check_link.specs.Views.{placed_view, placed_views};
ghost use Rattle.judge_model.specs.Links.{ForeignLink, placed_of, sections_of};
ghost use Rattle.judge_model.specs.Placed.{AreRuns, made_things};
ghost use Rattle.run_judge.specs.Pairs.{AreRunPairs};

use crate::clear::{are_gaps_clear, tops_of};
use crate::gaps::are_low;
use crate::pairs::RunPair;
use crate::stretches::stretches_of;
use check_link::Placed;
use elf_model::Thing;
use std::alloc::{AllocError, Global};

/// Whether the second of two sections stands behind the first, with a gap that is smaller than its own alignment.
fn is_near(pair: &RunPair<'_>) -> bool
    ensures { IsTrue result ↔ IsNear (placed_view pair.now.first) (placed_view pair.now.second) }
{
    let (first, second) = (&pair.first, &pair.second);
    if second.at < first.at {
        return false;
    }
    let distance = second.at - first.at;
    if distance < first.piece.header.sh_size {
        return false;
    }
    distance - first.piece.header.sh_size < second.piece.header.sh_addralign.max(1)
}

fn are_near(pairs: &[RunPair<'_>]) -> bool
    ensures { IsTrue result
        ↔ All (λ n. IsNear (placed_view n.first) (placed_view n.second)) pairs.now }
{
    pairs.iter().all(|pair| is_near(pair))
}

/// Whether the runs of a link are right, given the neighbours in them: these are near each other, and between them is nothing but
/// sections of their name. `made` has the headers and the linker's notes, `placed` all sections and common blocks.
///
/// # Errors
///
/// Only where memory is refused.
pub fn are_runs_right(
    alloc: Global,
    pairs: &[RunPair<'_>],
    made: &[Thing],
    placed: &[Placed<'_>],
) -> Result<bool, AllocError>
    ensures { (l : ForeignLink) → AreRunPairs (sections_of l) pairs.now
        → placed_of l ≡ placed_views placed.now → made_things l ≡ made.now
        → IfOk result (λ b. IsTrue b ↔ AreRuns l) }
{
    are_low(pairs);
    if !are_near(pairs) {
        return Ok(false);
    }
    let stretches = stretches_of(alloc, made, placed)?;
    let tops = tops_of(alloc, &stretches)?;
    Ok(are_gaps_clear(&stretches, &tops, pairs))
}
