//! Kept sections of unlawful kinds.
ghost use Rattle.std.specs.Prelude.{OnOk};
ghost use Rattle.elf_model.specs.Inputs.ObjectFile.{sections};
ghost use Rattle.elf_model.specs.Link.Pieces.{kept_sections, pieces_from};
ghost use Rattle.search.specs.KeptLists.{IsKeptSection, piece_at};
ghost use Rattle.search.specs.Views.{loaded_view, loaded_views};
ghost use Rattle.flaws.specs.Flaws.{AddsSection, AreAdded};

use crate::flaw::{Added, Flaw};
use layout::is_lawful_if_kept;
use search::LoadedObject;

/// Adds a kept section of object `object`, where its kind isn't lawful.
fn add_section(flaws: &mut Vec<Flaw>, object: usize, one: &LoadedObject<'_>, section: u32) -> Added
    requires { IsKeptSection (loaded_view one.now) section }
    ensures { OnOk result (AddsSection (piece_at object (loaded_view one.now) section)
        flaws.old.items flaws.new.items) }
{
    let number = section as usize;
    if is_lawful_if_kept(one, number, &one.object.section(number)) {
        return Ok(());
    }
    flaws.push(Flaw::Section(object as u64, u64::from(section)))?;
    Ok(())
}

/// Adds the kept sections of object `object` whose kinds aren't lawful.
fn add_sections(flaws: &mut Vec<Flaw>, object: usize, one: &LoadedObject<'_>) -> Added
    ensures { OnOk result (AreAdded AddsSection
        (pieces_from object (loaded_view one.now) 0 (sections one.now.object))
        flaws.old.items flaws.new.items) }
{
    let sections = one.kept_sections();
    for section in sections {
        add_section(flaws, object, one, *section)?;
    }
    Ok(())
}

/// Adds the kept sections of all objects whose kinds aren't lawful.
pub(crate) fn add_all_sections(flaws: &mut Vec<Flaw>, objects: &[LoadedObject<'_>]) -> Added
    ensures { OnOk result (AreAdded AddsSection (kept_sections (loaded_views objects.now))
        flaws.old.items flaws.new.items) }
{
    for k in 0..objects.len() {
        add_sections(flaws, k, &objects[k])?;
    }
    Ok(())
}
