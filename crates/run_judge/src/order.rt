//! Sections in the order of their runs.
ghost use Rattle.std.specs.Prelude.{◌≡◌, IfOk, map};
ghost use Rattle.check_link.specs.Views.{placed_views};
ghost use Rattle.judge_model.specs.Runs as runs;
ghost use Rattle.run_judge.specs.Pairs.{with_rank};

use crate::ranks::run_rank;
use check_link::Placed;
use link_fields::Addresses;
use std::alloc::{AllocError, Global};

/// A section with its rank.
#[derive(Clone, Copy, Debug)]
pub struct Ranked<'a> {
    pub rank: u64,
    pub placed: Placed<'a>,
}

/// Sections with their ranks, which need the addresses of all.
fn with_ranks<'a>(
    alloc: Global,
    addresses: &Addresses<'_, '_>,
    sections: &[Placed<'a>],
) -> Result<Vec<Ranked<'a>>, AllocError>
    ensures { IfOk result (λ v. v.items ≡ map (with_rank addresses.now) sections.now) }
{
    let mut all = Vec::with_capacity(alloc, sections.len())?;
    for q in sections {
        all.push(Ranked {
            rank: run_rank(addresses, q),
            placed: *q,
        })?;
    }
    Ok(all)
}

/// The sections alone.
fn unranked<'a>(alloc: Global, all: &[Ranked<'a>]) -> Result<Vec<Placed<'a>>, AllocError>
    ensures { IfOk result (λ v. v.items ≡ map (λ r. r.placed) all.now) }
{
    let mut sections = Vec::with_capacity(alloc, all.len())?;
    for r in all {
        sections.push(r.placed)?;
    }
    Ok(sections)
}

/// The sections by their ranks, those of one rank as they stood.
pub fn in_run_order<'a>(
    alloc: Global,
    sections: &[Placed<'a>],
) -> Result<Vec<Placed<'a>>, AllocError>
    ensures { IfOk result (λ v. placed_views v.items
        ≡ runs.in_run_order (placed_views sections.now)) }
{
    let addresses = Addresses::new(alloc, sections)?;
    let mut all = with_ranks(alloc, &addresses, sections)?;
    all.sort_by_key(|r| r.rank)?;
    unranked(alloc, &all)
}
