//! C6: whether each thing lies in a segment with exactly its rights.
ghost use Rattle.std.specs.Prelude.{◌≡◌, ◌<◌, ◌↔◌, All, IsTrue};
ghost use Rattle.elf_model.specs.Image.MemoryImage.{Encloses, loads};
ghost use Rattle.elf_model.specs.Link.Placement.{HasRights, LiesInSegment};
ghost use Rattle.elf_model.specs.Image.RightLink.{Holds};
ghost use Rattle.elf_model.specs.declared.verdict.Clause.TheVariants as clause;

use check_link::{base_of, first_address};
use check_stages::{PlacedLink, encloses, enclosing};
use elf_model::{ProgramHeader, Thing};
use loader_model::Memory;

/// Whether the sixth clause holds of a link.
pub fn holds(placed: &PlacedLink<'_, '_>) -> bool
    ensures { IsTrue result ↔ Holds clause.C6 placed.now }
{
    let link = placed.link();
    let base = base_of(&link.plan);
    has_rights(placed.memory(), base, placed.things(), placed.gots())
}

/// Whether a nonempty thing lies whole in a segment with exactly its rights.
pub fn lies_if_nonempty(memory: &Memory<'_>, thing: &Thing) -> bool
    ensures { IsTrue result ↔ (0 < thing.now.size → LiesInSegment (loads memory.now) thing.now) }
{
    if thing.size == 0 {
        return true;
    }
    match enclosing(memory, thing.at, thing.size) {
        Some(segment) => segment.p_flags as u64 == thing.rights,
        None => false,
    }
}

fn nonempty_lie(memory: &Memory<'_>, things: &[Thing]) -> bool
    ensures { IsTrue result ↔ All
        (λ t. 0 < t.size → LiesInSegment (loads memory.now) t) things.now }
{
    for thing in things {
        if !lies_if_nonempty(memory, thing) {
            return false;
        }
    }
    true
}

fn lies_in(segment: &ProgramHeader, thing: &Thing) -> bool
    ensures { IsTrue result ↔ (Encloses segment.now thing.now.at thing.now.size
        × (segment.now.p_flags ≡ thing.now.rights)) }
{
    if !encloses(segment, thing.at, thing.size) {
        return false;
    }
    segment.p_flags as u64 == thing.rights
}

pub fn lies_in_segment(segments: &[ProgramHeader], thing: &Thing) -> bool
    ensures { IsTrue result ↔ LiesInSegment segments.now thing.now }
{
    segments.iter().any(|h| lies_in(h, thing))
}

/// Whether each thing, empty ones too, lies in a segment with exactly its rights. It looks at each segment
/// for each thing, and is asked of the GOT alone.
fn all_lie(segments: &[ProgramHeader], things: &[Thing]) -> bool
    ensures { IsTrue result ↔ All (LiesInSegment segments.now) things.now }
{
    for thing in things {
        if !lies_in_segment(segments, thing) {
            return false;
        }
    }
    true
}

/// Whether the first segment of an image begins at the base, and each nonempty thing, and the GOT, lies
/// whole in one segment with exactly its rights.
fn has_rights(memory: &Memory<'_>, base: u64, things: &[Thing], gots: &[Thing]) -> bool
    ensures { IsTrue result ↔ HasRights base (loads memory.now) things.now gots.now }
{
    if first_address(memory) != base {
        return false;
    }
    if !nonempty_lie(memory, things) {
        return false;
    }
    all_lie(memory.segments(), gots)
}
