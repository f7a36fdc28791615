//! Whether each piece stands close behind the one before it in its output section: a part of the fifth clause.
ghost use Rattle.std.specs.Prelude.{◌≡◌, ◌<◌, ◌↔◌, All, IfOk, IfSome, IsTrue, None, OnOk, length, option_map, slice_index_or};
ghost use Rattle.std.specs.BTreeMap.{get};
ghost use Rattle.std.specs.List.{slice_get};
ghost use Rattle.std.specs.Option.{option_or};
ghost use Rattle.elf_model.specs.Link.Placement as placement;
ghost use Rattle.elf_model.specs.Link.Placement.{IsNear, IsNext};
ghost use Rattle.check_places.specs.Far.{AreFar};
ghost use Rattle.check_places.specs.Neighbours.{AreNear, last_at, last_known, over_last};
ghost use Rattle.check_link.specs.OutputSections.{section_order};
ghost use Rattle.check_link.specs.Views.{placed_view, placed_views};
ghost use Rattle.check_link.specs.declared.output_sections.OutputSection.{OutputSection};

use check_link::{OutputSection, Placed, output_section, same_section};
use std::alloc::{AllocError, Global};
use std::collections::BTreeMap;

/// Whether a piece stands behind another with a gap that is smaller than its own alignment.
pub fn is_near(before: &Placed<'_>, next: &Placed<'_>) -> bool
    ensures { IsTrue result ↔ IsNear (placed_view before.now) (placed_view next.now) }
{
    if next.at < before.at {
        return false;
    }
    let distance = next.at - before.at;
    if distance < before.piece.header.sh_size {
        return false;
    }
    distance - before.piece.header.sh_size < next.piece.header.sh_addralign.max(1)
}

/// Whether a piece is near the last one of its output section, where there is one.
fn is_near_last(placed: &[Placed<'_>], last: Option<usize>, next: &Placed<'_>) -> bool
    requires { IfSome last (λ i. i < length placed.now) }
    ensures { IsTrue result ↔ IfSome last
        (λ i. IsNear (placed_view (slice_index_or placed.now i next.now)) (placed_view next.now)) }
{
    match last {
        Some(i) => is_near(&placed[i], next),
        None => true,
    }
}

/// An output section and the last piece that was seen of it.
#[derive(Clone, Copy, Debug)]
pub struct Last<'a> {
    section: OutputSection<'a>,
    at: usize,
}

/// The last piece of an output section, where this is the one of another or the same.
fn last_at(last: Option<Last<'_>>, section: &OutputSection<'_>) -> Option<usize>
    ensures { result ≡ last_at last.entry section.now }
{
    let last = last?;
    if same_section(&last.section, section) {
        return Some(last.at);
    }
    None
}

/// Puts the last piece of an output section into a map, where there is one.
fn settle<'a>(
    map: &mut BTreeMap<OutputSection<'a>, usize>,
    last: Option<Last<'a>>,
) -> Result<(), AllocError>
    ensures { OnOk result ((t : OutputSection) → get section_order map.new t
        ≡ option_or (last_at last.entry t) (get section_order map.old t)) }
{
    if let Some(last) = last {
        map.insert(last.section, last.at)?;
    }
    Ok(())
}

/// The last pieces that were seen of output sections: of the two latest output sections at hand, of others in a map, since mostly
/// the next piece is of one of these two.
#[derive(Drop)]
pub struct Lasts<'a> {
    latest: Option<Last<'a>>,
    other: Option<Last<'a>>,
    map: BTreeMap<OutputSection<'a>, usize>,
}

impl<'a> Lasts<'a> {
    /// None at all.
    pub fn new(alloc: Global) -> Lasts<'a>
        ensures { (t : OutputSection) → last_known result t ≡ None }
    {
        Lasts {
            latest: None,
            other: None,
            map: BTreeMap::new(alloc),
        }
    }

    /// Takes in the next piece of an output section, and answers the one before it, if there is one.
    pub fn replace(
        &mut self,
        section: &OutputSection<'a>,
        at: usize,
    ) -> Result<Option<usize>, AllocError>
        ensures before { IfOk result (λ i. i ≡ last_known self.old section.now) }
        ensures known { OnOk result ((t : OutputSection) →
            last_known self.new t ≡ over_last section.now at (last_known self.old) t) }
    {
        let (latest, other) = (self.latest, self.other);
        self.latest = Some(Last {
            section: *section,
            at,
        });
        if let Some(before) = last_at(latest, section) {
            return Ok(Some(before));
        }
        self.other = latest;
        if let Some(before) = last_at(other, section) {
            return Ok(Some(before));
        }
        settle(&mut self.map, other)?;
        Ok(self.map.get(section).copied())
    }
}

/// Whether each piece is near the one before it in its output section, in one pass that keeps the last
/// piece of each.
pub fn are_near(alloc: Global, placed: &[Placed<'_>]) -> Result<bool, AllocError>
    ensures { IfOk result (λ b. IsTrue b ↔ AreNear (placed_views placed.now)) }
{
    let mut lasts = Lasts::new(alloc);
    for (j, next) in placed.iter().enumerate() {
        let section = output_section(&next.piece);
        let last = lasts.replace(&section, j)?;
        if !is_near_last(placed, last, next) {
            return Ok(false);
        }
    }
    Ok(true)
}

/// The piece that has a number.
fn piece_at<'a>(placed: &[Placed<'a>], k: usize) -> Option<Placed<'a>>
    ensures { slice_get (placed_views placed.now) k ≡ option_map placed_view result }
{
    placed.get(k).copied()
}

/// The last piece of an output section, if there is one, and the next one of it, by their numbers, where they aren't near.
fn far_pair<'a>(
    placed: &[Placed<'a>],
    last: Option<usize>,
    next: usize,
) -> Option<(Placed<'a>, Placed<'a>)>
    requires { IfSome last (λ i. (d : placement.Placed) → IsNext (placed_views placed.now) i next d) }
    ensures { IfSome result (λ p. AreFar (placed_views placed.now) p.0 p.1) }
{
    let first = piece_at(placed, last?)?;
    let second = piece_at(placed, next)?;
    if is_near(&first, &second) {
        return None;
    }
    Some((first, second))
}

/// The pieces that aren't near the one before them in their output section, each behind that one.
pub fn far_pairs<'a>(
    alloc: Global,
    placed: &[Placed<'a>],
) -> Result<Vec<(Placed<'a>, Placed<'a>)>, AllocError>
    ensures { IfOk result (λ v. All (λ p. AreFar (placed_views placed.now) p.0 p.1) v.items) }
{
    let mut lasts = Lasts::new(alloc);
    let mut pairs = Vec::new(alloc);
    for (j, next) in placed.iter().enumerate() {
        let last = lasts.replace(&output_section(&next.piece), j)?;
        if let Some(pair) = far_pair(placed, last, j) {
            pairs.push(pair)?;
        }
    }
    Ok(pairs)
}
