//! The output names whose kept sections are of several output sections: the names that come twice among output sections.
ghost use Rattle.std.specs.Prelude.{◌≡◌, ◌&&◌, ◌||◌, ℕ, List, IfOk, OnOk, false, map};
ghost use Rattle.std.specs.Str.{bytes_eq};
ghost use Rattle.elf_model.specs.Link.UsedNames.{is_among};
ghost use Rattle.resolve.specs.OutputSections.{output_view};
ghost use Rattle.layout.specs.Mixed.{AreMixed, is_twice_from};

use resolve::{OutputSection, Resolved};
use std::alloc::{AllocError, Global};
use std::collections::BTreeSet;

fn has_name(names: &BTreeSet<&[u8]>, name: &[u8]) -> bool
    ensures { result ≡ is_among names.now name.now }
{
    names.contains(name)
}

fn put_name<'a>(names: &mut BTreeSet<&'a [u8]>, name: &'a [u8]) -> Result<(), AllocError>
    ensures { OnOk result ((n : List ℕ) →
        is_among names.new n ≡ (bytes_eq name.entry.now n || is_among names.old n)) }
{
    names.insert(name)?;
    Ok(())
}

/// Takes the name of an output section in: it is a name that comes twice where it was seen before.
fn add_name<'a>(
    seen: &mut BTreeSet<&'a [u8]>,
    twice: &mut BTreeSet<&'a [u8]>,
    name: &'a [u8],
) -> Result<(), AllocError>
    ensures seen { OnOk result ((n : List ℕ) →
        is_among seen.new n ≡ (bytes_eq name.entry.now n || is_among seen.old n)) }
    ensures twice { OnOk result ((n : List ℕ) →
        is_among twice.new n
        ≡ ((bytes_eq name.entry.now n && is_among seen.old n) || is_among twice.old n)) }
{
    if has_name(seen, name) {
        put_name(twice, name)?;
        return Ok(());
    }
    put_name(seen, name)?;
    Ok(())
}

/// The names that come twice among output sections.
fn twice_named<'a>(
    alloc: Global,
    sections: &[OutputSection<'a>],
) -> Result<BTreeSet<&'a [u8]>, AllocError>
    ensures { IfOk result (λ names. (n : List ℕ) →
        is_among names n ≡ is_twice_from n false (map output_view sections.now)) }
{
    let mut seen = BTreeSet::new(alloc);
    let mut twice = BTreeSet::new(alloc);
    for section in sections {
        add_name(&mut seen, &mut twice, section.name.0)?;
    }
    Ok(twice)
}

/// The output names whose kept sections are of several output sections.
///
/// # Errors
///
/// Only where memory is refused.
pub fn mixed_names<'a>(
    alloc: Global,
    resolved: &Resolved<'a>,
) -> Result<BTreeSet<&'a [u8]>, AllocError>
    ensures { IfOk result (AreMixed resolved.now) }
{
    let outputs = resolved.output_sections();
    let names = twice_named(alloc, &outputs.sections)?;
    Ok(names)
}
