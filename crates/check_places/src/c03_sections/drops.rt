//! The sections that are dropped with their groups, as the map's drop lines have them: a part of the third clause.
ghost use Rattle.std.specs.Prelude.{[], ◌≡◌, ◌↔◌, ◌∷◌, ◌++◌, IfOk, IsTrue, OnOk, cond};
ghost use Rattle.elf_model.specs.Inputs.ObjectFile.{sections};
ghost use Rattle.elf_model.specs.Image.RightLink.{drop_rows, drops_from, is_dropped_line};
ghost use Rattle.check_load.specs.Views.{loaded_view, loaded_views};

use check_load::Loaded;
use elf_model::{DropLine, SectionHeader};
use std::alloc::{AllocError, Global};

/// Whether section `i`, which has the header, has SHF_ALLOC and is dropped.
fn is_dropped_line(loaded: &Loaded<'_>, i: usize, header: &SectionHeader) -> bool
    ensures { result ≡ is_dropped_line (loaded_view loaded.now) i header.now }
{
    header.is_alloc() && loaded.is_dropped(i)
}

/// Puts the line of section `i` of object `number`, which has the header, behind the others, where it is dropped.
fn add_drop(
    out: &mut Vec<DropLine>,
    number: u64,
    loaded: &Loaded<'_>,
    i: usize,
    header: &SectionHeader,
) -> Result<(), AllocError>
    ensures { OnOk result (out.new.items
        ≡ out.old.items
        ++ cond (is_dropped_line (loaded_view loaded.now) i header.now)
        (record { object = number; section = i } ∷ []) []) }
{
    if !is_dropped_line(loaded, i, header) {
        return Ok(());
    }
    out.push(DropLine {
        object: number,
        section: i as u64,
    })?;
    Ok(())
}

/// Puts the lines of the dropped sections of object `number` behind the others.
fn add_drops(out: &mut Vec<DropLine>, number: u64, loaded: &Loaded<'_>) -> Result<(), AllocError>
    ensures { OnOk result (out.new.items
        ≡ out.old.items
        ++ drops_from number (loaded_view loaded.now) 0 (sections loaded.now.object)) }
{
    let headers = loaded.object.sections();
    for i in 0..headers.len() {
        let header = headers.at(i);
        add_drop(out, number, loaded, i, &header)?;
    }
    Ok(())
}

/// The lines of the dropped sections of all objects with SHF_ALLOC, in load order.
pub fn drops_of(alloc: Global, objects: &[Loaded<'_>]) -> Result<Vec<DropLine>, AllocError>
    ensures { IfOk result (λ v. v.items ≡ drop_rows 0 (loaded_views objects.now)) }
{
    let mut found = Vec::new(alloc);
    for (k, loaded) in objects.iter().enumerate() {
        add_drops(&mut found, k as u64, loaded)?;
    }
    Ok(found)
}

/// Whether two lines are the same.
pub fn is_drop(line: &DropLine, drop: &DropLine) -> bool
    ensures { IsTrue result ↔ (line.now ≡ drop.now) }
{
    line.object == drop.object && line.section == drop.section
}

/// Whether lines are these, one for one.
pub fn are_drops(lines: &[DropLine], drops: &[DropLine]) -> bool
    ensures { IsTrue result ↔ (lines.now ≡ drops.now) }
{
    if lines.len() != drops.len() {
        return false;
    }
    for k in 0..lines.len() {
        if !is_drop(&lines[k], &drops[k]) {
            return false;
        }
    }
    true
}
