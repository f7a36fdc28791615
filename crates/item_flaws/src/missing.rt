//! Items of which there is no file.
ghost use Rattle.std.specs.Prelude.{◌≡◌, All, IfOk, OnOk, length, map};
ghost use Rattle.command.specs.Views.{item_of, texts_of};
ghost use Rattle.elf_model.specs.Inputs.Files.{files_of};
ghost use Rattle.elf_model.specs.Inputs.Opening.{AreFilesThere};
ghost use Rattle.opening.specs.Held.{all_files};
ghost use Rattle.flaws.specs.Flaws.{AreAdded};
ghost use Rattle.item_flaws.specs.ItemFlaws.{AddsMissing, AreMissingItems, IsMissingItem, numbered};

use crate::flaw::{Added, ItemFlaw};
use command::{Item, Plan};
use elf_model::InputFile;
use opening::{FileSet, find_source};
use std::alloc::{AllocError, Global};

/// Adds item `i`, where there is no file of it.
fn add_item<'a>(
    alloc: Global,
    flaws: &mut Vec<ItemFlaw<'a>>,
    files: &FileSet<'_>,
    directories: &[&str],
    i: usize,
    item: &Item<'a>,
) -> Added
    ensures { OnOk result (AddsMissing (all_files files.now) (texts_of directories.now)
        (i, item_of item.now) flaws.old.items flaws.new.items) }
{
    let None = find_source(alloc, files, directories, item.source)? else {
        return Ok(());
    };
    flaws.push(ItemFlaw::Missing(i as u64, item.source))?;
    Ok(())
}

/// Adds the items of which there is no file.
fn add_items<'a>(
    alloc: Global,
    flaws: &mut Vec<ItemFlaw<'a>>,
    files: &FileSet<'_>,
    directories: &[&str],
    items: &[Item<'a>],
) -> Added
    ensures { OnOk result (AreAdded (AddsMissing (all_files files.now) (texts_of directories.now))
        (numbered 0 (map item_of items.now)) flaws.old.items flaws.new.items) }
{
    for i in 0..items.len() {
        add_item(alloc, flaws, files, directories, i, &items[i])?;
    }
    Ok(())
}

/// The items of a plan of which there is no file, in their order. There are none exactly where each has one.
///
/// # Errors
///
/// Only where memory is refused.
pub fn missing_items<'a>(
    alloc: Global,
    files: &[InputFile],
    plan: &Plan<'a>,
) -> Result<Vec<ItemFlaw<'a>>, AllocError>
    ensures all { IfOk result (λ flaws.
        AreMissingItems (files_of files.now) plan.now flaws.items) }
    ensures each { IfOk result (λ flaws.
        All (IsMissingItem (files_of files.now) plan.now) flaws.items) }
    ensures none { IfOk result (λ flaws.
        length flaws.items ≡ 0 → AreFilesThere (files_of files.now) plan.now) }
{
    let index = FileSet::new(alloc, &[], files)?;
    let mut flaws = Vec::new(alloc);
    add_items(alloc, &mut flaws, &index, &plan.directories, &plan.items)?;
    Ok(flaws)
}
