//! How much of debug data is left out of an image.
ghost use Rattle.std.specs.Prelude.{◌≡◌, ◌≤◌, ◌%◌, ◌^◌, cond, count_by, length};
ghost use Rattle.elf_model.specs.Inputs.ObjectFile.{sections};
ghost use Rattle.search.specs.Views.{loaded_view, loaded_views};
ghost use Rattle.debug_image.specs.DebugSections.{left_flags};
ghost use Rattle.debug_image.specs.Reports as spec;

use crate::debug_sections::{holds_debug_data, is_compressed};
use crate::left_objects::is_flagged;
use search::LoadedObject;

/// Debug data that are left out of an image.
#[derive(Clone, Copy, Debug)]
pub struct LeftData {
    /// The objects whose debug data are left out.
    pub objects: u64,
    /// The sections of debug data that these have, modulo 2 to the 64.
    pub sections: u64,
    /// The objects with compressed debug data, which are left out for that.
    pub compressed: u64,
}

impl LeftData {
    /// Nothing is left out.
    pub const NONE: LeftData = LeftData {
        objects: 0,
        sections: 0,
        compressed: 0,
    };
}

/// How much is counted for what is so, or isn't.
fn one_if(holds: bool) -> u64
    ensures { result ≡ cond holds 1 0 }
{
    if holds { 1 } else { 0 }
}

/// How many sections of debug data an object has.
fn sections_in(loaded: &LoadedObject<'_>) -> u64
    ensures exact { result ≡ spec.sections_in (loaded_view loaded.now) }
    ensures most { result ≤ length (sections loaded.now.object) }
{
    let mut count = 0;
    for i in 0..loaded.object.sections().len() {
        count += one_if(holds_debug_data(loaded, i));
    }
    count
}

/// How many sections of debug data an object has, where it is left out.
fn sections_if(left_out: bool, loaded: &LoadedObject<'_>) -> u64
    ensures { result ≡ cond left_out (spec.sections_in (loaded_view loaded.now)) 0 }
{
    if left_out { sections_in(loaded) } else { 0 }
}

/// How many sections of debug data the objects have that are left out, modulo 2 to the 64.
fn left_sections(flags: &[bool], objects: &[LoadedObject<'_>]) -> u64
    ensures { result ≡ spec.left_sections flags.now 0 (loaded_views objects.now) % 2 ^ 64 }
{
    let mut count = 0u64;
    for (k, loaded) in objects.iter().enumerate() {
        count = count.wrapping_add(sections_if(is_flagged(flags, k as u64), loaded));
    }
    count
}

/// Whether section `i` of an object holds compressed debug data.
fn holds_compressed(loaded: &LoadedObject<'_>, i: usize) -> bool
    ensures { result ≡ spec.holds_compressed (loaded_view loaded.now) i }
{
    holds_debug_data(loaded, i) && is_compressed(loaded, i)
}

/// Whether an object has compressed debug data.
fn has_compressed(loaded: &LoadedObject<'_>) -> bool
    ensures { result ≡ spec.has_compressed (loaded_view loaded.now) }
{
    for i in 0..loaded.object.sections().len() {
        if holds_compressed(loaded, i) {
            return true;
        }
    }
    false
}

/// How many of some flags are set.
fn count_set(flags: &[bool]) -> u64
    ensures { result ≡ spec.left_objects flags.now }
{
    flags.iter().filter(|flag| **flag).count() as u64
}

/// How many objects have compressed debug data.
fn count_compressed(objects: &[LoadedObject<'_>]) -> u64
    ensures { result ≡ count_by spec.has_compressed (loaded_views objects.now) }
{
    objects
        .iter()
        .filter(|loaded| has_compressed(loaded))
        .count() as u64
}

/// The debug data of objects that are left out, of which there is a flag for each object.
pub fn left_data(flags: &[bool], objects: &[LoadedObject<'_>]) -> LeftData
    ensures { flags.now ≡ left_flags (loaded_views objects.now)
        → result ≡ spec.left_data (loaded_views objects.now) }
{
    LeftData {
        objects: count_set(flags),
        sections: left_sections(flags, objects),
        compressed: count_compressed(objects),
    }
}
