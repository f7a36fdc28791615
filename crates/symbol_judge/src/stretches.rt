//! Whether each piece that takes up memory lies in one section of an image.
ghost use Rattle.std.specs.Prelude.{◌≡◌, ◌↔◌, ◌+◌, ◌<◌, ◌≤◌, ℕ, All, Any, IfOk, IsPermutation, IsTrue, length, slice_index_or};
ghost use Rattle.std.specs.List.Sorted.{IsNonDecreasingBy};
ghost use Rattle.check_link.specs.Views.{placed_view, placed_views};
ghost use Rattle.symbol_judge.specs.Stretches.{AreCoveredBy, Has, IsCovered, reach_among, reached, stretch_of, stretches_of};

use check_link::{Placed, load_size};
use elf_model::SectionHeader;
use std::alloc::{AllocError, Global};
use std::marker::Model;
use table_judge::is_in_memory;

/// The addresses from one on and below another.
#[derive(Clone, Copy, Debug)]
pub struct Stretch {
    pub from: u64,
    pub to: u128,
}

/// The addresses that a section takes up.
fn stretch_of(section: &SectionHeader) -> Stretch
    ensures { result ≡ stretch_of section.now }
{
    Stretch {
        from: section.sh_addr,
        to: section.sh_addr as u128 + section.sh_size as u128,
    }
}

/// The addresses of the sections that take up memory.
fn stretches_of(alloc: Global, sections: &[SectionHeader]) -> Result<Vec<Stretch>, AllocError>
    ensures { IfOk result (λ v. v.items ≡ stretches_of sections.now) }
{
    let mut found = Vec::new(alloc);
    for section in sections {
        if is_in_memory(section) {
            found.push(stretch_of(section))?;
        }
    }
    Ok(found)
}

/// Stretches by rising beginnings.
fn by_start(found: Vec<Stretch>) -> Result<Vec<Stretch>, AllocError>
    ensures same { IfOk result (λ v. IsPermutation found.items v.items) }
    ensures rising { IfOk result (λ v. IsNonDecreasingBy (λ s. s.from) v.items) }
{
    let mut found = found;
    found.sort_by_key(|s| s.from)?;
    Ok(found)
}

/// Stretches of which each one reaches as far as any before it.
fn reached_of(alloc: Global, sorted: &[Stretch]) -> Result<Vec<Stretch>, AllocError>
    ensures { IfOk result (λ v. v.items ≡ reached 0 sorted.now) }
{
    let mut found = Vec::with_capacity(alloc, sorted.len())?;
    let mut far = 0u128;
    for stretch in sorted {
        far = far.max(stretch.to);
        found.push(Stretch {
            from: stretch.from,
            to: far,
        })?;
    }
    Ok(found)
}

/// How many stretches begin at or below an address.
fn count_begun(sorted: &[Stretch], at: u64) -> usize
    requires { IsNonDecreasingBy (λ s. s.from) sorted.now }
    ensures within { result ≤ length sorted.now }
    ensures begun { (k : ℕ) (d : Stretch) →
        k < result → (slice_index_or sorted.now k d).from ≤ at }
    ensures behind { (k : ℕ) (d : Stretch) →
        result ≤ k → k < length sorted.now → at < (slice_index_or sorted.now k d).from }
{
    sorted.partition_point(|s| s.from <= at)
}

/// How far the stretches reach among the first `count`; 0 of none.
fn reach_of(reached: &[Stretch], count: usize) -> u128
    requires { count ≤ length reached.now }
    ensures { result ≡ reach_among reached.now count }
{
    if count == 0 {
        return 0;
    }
    reached[count - 1].to
}

/// Stretches by rising beginnings, and how far those up to each one reach.
#[derive(Drop)]
pub struct Stretches {
    sorted: Vec<Stretch>,
    reached: Vec<Stretch>,
}

impl Model for Stretches {
    ghost use Rattle.std.specs.Prelude.{List};
    ghost use Rattle.symbol_judge.specs.Stretches.{AreReached};
    ghost use Rattle.symbol_judge.specs.declared.stretches.Stretch.{Stretch};

    ghost Value = { List Stretch };

    ghost view = { λ s. s.sorted.items };

    ghost invariant = { λ s. AreReached s.sorted.items s.reached.items };
}

impl Stretches {
    /// The addresses of the sections that take up memory.
    pub fn new(alloc: Global, sections: &[SectionHeader]) -> Result<Stretches, AllocError>
        ensures { IfOk result (λ s. IsPermutation (stretches_of sections.now) s) }
    {
        let sorted = by_start(stretches_of(alloc, sections)?)?;
        let reached = reached_of(alloc, &sorted)?;
        Ok(Stretches { sorted, reached })
    }

    /// Whether there are none.
    fn is_empty(&self) -> bool
        ensures { IsTrue result ↔ (length self.now ≡ 0) }
    {
        self.sorted.is_empty()
    }

    /// Whether a stretch has the addresses from one on and below another. It takes the logarithm of their number.
    fn has(&self, at: u64, end: u128) -> bool
        requires { 0 < end }
        ensures { IsTrue result ↔ Any (Has at end) self.now }
    {
        end <= reach_of(&self.reached, count_begun(&self.sorted, at))
    }

    /// Whether a piece lies in one of them, where it takes up memory.
    fn covers(&self, placed: &Placed<'_>) -> bool
        ensures { IsTrue result ↔ IsCovered self.now (placed_view placed.now) }
    {
        let size = load_size(&placed.piece);
        if size == 0 {
            return true;
        }
        self.has(placed.at, placed.at as u128 + size as u128)
    }

    /// Whether each of placed pieces does so.
    fn cover_all(&self, placed: &[Placed<'_>]) -> bool
        ensures { IsTrue result ↔ All (λ q. IsCovered self.now (placed_view q)) placed.now }
    {
        for q in placed {
            if !self.covers(q) {
                return false;
            }
        }
        true
    }
}

/// Whether each piece that takes up memory lies in one section that does so, where there are any.
pub fn are_covered(
    alloc: Global,
    sections: &[SectionHeader],
    placed: &[Placed<'_>],
) -> Result<bool, AllocError>
    ensures { IfOk result (λ b. IsTrue b
        ↔ AreCoveredBy (stretches_of sections.now) (placed_views placed.now)) }
{
    let stretches = Stretches::new(alloc, sections)?;
    if stretches.is_empty() {
        return Ok(true);
    }
    Ok(stretches.cover_all(placed))
}
