//! The output names of the kept sections of all objects.
ghost use Rattle.std.specs.Prelude.{◌≡◌, ◌||◌, ℕ, List, IfOk, OnOk};
ghost use Rattle.std.specs.List.{list_any};
ghost use Rattle.std.specs.Str.{bytes_eq};
ghost use Rattle.elf_model.specs.Link.Loading.{LoadedObject};
ghost use Rattle.elf_model.specs.Link.UsedNames.{is_among};
ghost use Rattle.resolve.specs.OutputSections.{AreOutputSections, is_named};
ghost use Rattle.resolve.specs.Outputs.{AreOutputs};

use crate::output_sections::{OutputSection, OutputSections};
use std::alloc::{AllocError, Global};
use std::collections::BTreeSet;

/// Whether a set has a name.
pub fn is_among(name: &[u8], names: &BTreeSet<&[u8]>) -> bool
    ensures { result ≡ is_among names.now name.now }
{
    names.contains(name)
}

/// Adds a name to a set.
pub fn add_name<'a>(names: &mut BTreeSet<&'a [u8]>, name: &'a [u8]) -> Result<(), AllocError>
    ensures { OnOk result ((n : List ℕ) →
        is_among names.new n ≡ (bytes_eq name.entry.now n || is_among names.old n)) }
{
    names.insert(name)?;
    Ok(())
}

/// The names of output sections.
fn names_of<'a>(
    alloc: Global,
    sections: &[OutputSection<'a>],
) -> Result<BTreeSet<&'a [u8]>, AllocError>
    ensures { IfOk result (λ names. (n : List ℕ) →
        is_among names n ≡ list_any (is_named n) sections.now) }
{
    let mut names = BTreeSet::new(alloc);
    for section in sections {
        add_name(&mut names, section.name.0)?;
    }
    Ok(names)
}

/// The output names of the kept sections of which these are the output sections.
pub fn output_names_of<'a>(
    alloc: Global,
    outputs: &OutputSections<'a>,
) -> Result<BTreeSet<&'a [u8]>, AllocError>
    ensures { IfOk result (λ names. (objects : List LoadedObject) →
        AreOutputSections objects outputs.now → AreOutputs objects names) }
{
    let names = names_of(alloc, &outputs.sections)?;
    Ok(names)
}
