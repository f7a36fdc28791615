//! Kept sections of an output name, and such as are of two output sections.
ghost use Rattle.std.specs.Prelude.{IfSome, IsTrue};
ghost use Rattle.explain.specs.Notes.{AreAlike, IsSought};

use crate::place::EntryPlace;
use crate::wanted::{object_at, reached};
use elf_model::SectionHeader;
use input_names::section_name;
use resolve::output_name;
use search::{Loaded, Reached};

/// A kept section of a loaded object, with where the object is.
#[derive(Clone, Copy, Debug)]
pub struct KeptSection<'a> {
    pub object: Reached<'a>,
    pub place: EntryPlace<'a, SectionHeader>,
}

/// Whether sections of one output name are of one output section: they are alike in WRITE, EXECINSTR, TLS and NOBITS.
fn are_alike(one: &SectionHeader, other: &SectionHeader) -> bool
    ensures { AreAlike one.now other.now → IsTrue result }
{
    one.is_writable() == other.is_writable()
        && one.is_executable() == other.is_executable()
        && one.is_thread_local() == other.is_thread_local()
        && one.is_nobits() == other.is_nobits()
}

/// Whether a section is unlike another one, where there is that one.
fn is_unlike(header: &SectionHeader, other: Option<SectionHeader>) -> bool
    ensures { IsTrue result → IfSome other (λ h. ¬ AreAlike h header.now) }
{
    match other {
        Some(other) => !are_alike(&other, header),
        None => true,
    }
}

/// Kept section `n` of object `k`, where it is of an output name, and unlike another section, where there is that one.
fn section_at<'a>(
    loaded: &Loaded<'a>,
    output: &[u8],
    other: Option<SectionHeader>,
    k: usize,
    n: usize,
) -> Option<KeptSection<'a>>
    ensures { IfSome result (IsSought loaded.now.objects output.now other) }
{
    let one = object_at(loaded, k)?;
    let i = *one.kept_sections().get(n)? as usize;
    let entry = one.object.sections().get(i)?;
    if !one.is_kept(i, &entry) || !is_unlike(&entry, other) {
        return None;
    }
    let name = section_name(&one.object, i);
    if output_name(name) != output {
        return None;
    }
    let place = EntryPlace {
        object: k as u64,
        number: i as u64,
        entry,
        name,
    };
    Some(KeptSection {
        object: reached(one),
        place,
    })
}

/// The first such section of object `k`.
fn section_in<'a>(
    loaded: &Loaded<'a>,
    output: &[u8],
    other: Option<SectionHeader>,
    k: usize,
) -> Option<KeptSection<'a>>
    ensures { IfSome result (IsSought loaded.now.objects output.now other) }
{
    for n in 0..object_at(loaded, k)?.kept_sections().len() {
        if let Some(section) = section_at(loaded, output, other, k, n) {
            return Some(section);
        }
    }
    None
}

/// The first kept section of an output name, in load order, that is unlike another section, where there is that one.
pub fn find_section<'a>(
    loaded: &Loaded<'a>,
    output: &[u8],
    other: Option<SectionHeader>,
) -> Option<KeptSection<'a>>
    ensures { IfSome result (IsSought loaded.now.objects output.now other) }
{
    for k in 0..loaded.objects().len() {
        if let Some(section) = section_in(loaded, output, other, k) {
            return Some(section);
        }
    }
    None
}
