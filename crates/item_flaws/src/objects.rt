//! Objects that can't be loaded: the one at which loading stops, and the other items that are no objects of the profile.
ghost use Rattle.std.specs.Prelude.{◌≡◌, ◌≢◌, [], All, IfOk, IfSome, IsTrue, None, OnOk, length, map};
ghost use Rattle.ar_index.specs.FileBytes.{is_whole};
ghost use Rattle.command.specs.Views.{item_of, texts_of};
ghost use Rattle.elf_model.specs.Inputs.Files.{files_of};
ghost use Rattle.elf_model.specs.Inputs.ObjectFile.{IsObject, ObjFaultStands};
ghost use Rattle.elf_model.specs.declared.faults.ObjFault.TheVariants as object_fault;
ghost use Rattle.elf_model.specs.Inputs.Opening.{AreFilesThere, HasFile, opened_from, opened_item};
ghost use Rattle.elf_model.specs.Link.Loading.{AreObjects, HaveLawfulGroups, loaded_objects};
ghost use Rattle.opening.specs.Faults.{IsSearchable};
ghost use Rattle.opening.specs.Held.{all_files};
ghost use Rattle.opening.specs.Opened.{item_view};
ghost use Rattle.flaws.specs.Flaws.{AreAdded};
ghost use Rattle.item_flaws.specs.ItemFlaws.{AddsStopped, AddsUnreadable, AreBadObjects, IsBadObjectFlaw, IsLoadable};

use crate::flaw::{Added, ItemFlaw};
use crate::items::{opened_item, reached};
use byteview::View;
use command::{Item, Plan};
use elf_model::{InputFile, ObjFault};
use elf_read::ObjectFile;
use opening::{FileSet, OpenedItem};
use search::{SearchFault, refused_object};
use std::alloc::{AllocError, Global};

/// Adds the object at which loading stops, where it stops at one. Answers the number of its item.
fn add_stopped<'a>(
    alloc: Global,
    flaws: &mut Vec<ItemFlaw<'a>>,
    files: &'a [InputFile],
    plan: &Plan<'a>,
) -> Result<Option<u64>, AllocError>
    ensures { IfOk result (λ stop. AddsStopped (files_of files.entry.now) plan.now stop
        flaws.old.items flaws.new.items) }
{
    let Some(object) = refused_object(alloc, plan, files)? else {
        return Ok(None);
    };
    match object.fault {
        SearchFault::BadObject(fault) => flaws.push(ItemFlaw::Object(object.at, fault))?,
        SearchFault::Group(fault) => flaws.push(ItemFlaw::Groups(object.at, fault))?,
        _ => unreachable!(),
    }
    Ok(Some(object.at.item))
}

/// The fault for which bytes are no object of the profile, where they are none.
fn fault_of(alloc: Global, bytes: &[u8]) -> Result<Option<ObjFault>, AllocError>
    ensures none { IfOk result (λ o. o ≡ None → IsObject bytes.now) }
    ensures some { IfOk result (λ o.
        IfSome o (λ f. (f ≢ object_fault.Memory) × ObjFaultStands bytes.now f)) }
{
    let fault = match ObjectFile::read(alloc, View::new(bytes)) {
        Ok(_) => return Ok(None),
        Err(fault) => fault,
    };
    if let ObjFault::Memory = fault {
        return Err(AllocError);
    }
    Ok(Some(fault))
}

/// Adds an opened item, where it is to be an object and is none of the profile's; but not the item at which loading stops.
fn add_opened<'a>(
    alloc: Global,
    flaws: &mut Vec<ItemFlaw<'a>>,
    item: &OpenedItem<'a>,
    stop: Option<u64>,
) -> Added
    requires { IsTrue (is_whole item.now.bytes) }
    ensures { OnOk result (AddsUnreadable stop (item_view item.now) flaws.old.items flaws.new.items) }
{
    if item.archive {
        return Ok(());
    }
    if stop == Some(item.number) {
        return Ok(());
    }
    let at = reached(item);
    let Some(fault) = fault_of(alloc, at.bytes)? else {
        return Ok(());
    };
    flaws.push(ItemFlaw::Object(at, fault))?;
    Ok(())
}

/// Adds item `i`, which has a file, where it is to be an object and is none of the profile's; but not the item at which loading
/// stops.
fn add_item<'a>(
    alloc: Global,
    flaws: &mut Vec<ItemFlaw<'a>>,
    files: &FileSet<'a>,
    directories: &[&str],
    stop: Option<u64>,
    i: usize,
    item: &Item<'_>,
) -> Added
    requires whole { files.now.parts ≡ [] }
    requires there { HasFile (all_files files.now) (texts_of directories.now) (item_of item.now) }
    ensures { OnOk result (AddsUnreadable stop
        (opened_item (all_files files.now) (texts_of directories.now) i (item_of item.now))
        flaws.old.items flaws.new.items) }
{
    let opened = opened_item(alloc, files, directories, i, item)?;
    add_opened(alloc, flaws, &opened, stop)
}

/// Adds the items, each of which has a file, that are to be objects and are none of the profile's; but not the item at which
/// loading stops.
fn add_items<'a>(
    alloc: Global,
    flaws: &mut Vec<ItemFlaw<'a>>,
    files: &FileSet<'a>,
    directories: &[&str],
    stop: Option<u64>,
    items: &[Item<'_>],
) -> Added
    requires whole { files.now.parts ≡ [] }
    requires there { All (HasFile (all_files files.now) (texts_of directories.now))
        (map item_of items.now) }
    ensures { OnOk result (AreAdded (AddsUnreadable stop)
        (opened_from (all_files files.now) (texts_of directories.now) 0 (map item_of items.now))
        flaws.old.items flaws.new.items) }
{
    for i in 0..items.len() {
        add_item(alloc, flaws, files, directories, stop, i, &items[i])?;
    }
    Ok(())
}

/// The objects of a plan, each item of which has a file, that can't be loaded: the one at which loading stops; then the other items
/// that are to be objects and are none of the profile's, in their order. Where archives can be searched, there are none exactly
/// where all is loaded.
///
/// # Errors
///
/// Only where memory is refused.
pub fn bad_objects<'a>(
    alloc: Global,
    files: &'a [InputFile],
    plan: &Plan<'a>,
) -> Result<Vec<ItemFlaw<'a>>, AllocError>
    requires { AreFilesThere (files_of files.now) plan.now }
    ensures all { IfOk result (λ flaws.
        AreBadObjects (files_of files.entry.now) plan.now flaws.items) }
    ensures each { IfOk result (λ flaws.
        All (IsBadObjectFlaw (files_of files.entry.now) plan.now) flaws.items) }
    ensures none { IfOk result (λ flaws.
        length flaws.items ≡ 0 → IsLoadable (files_of files.entry.now) plan.now) }
{
    let index = FileSet::new(alloc, &[], files)?;
    let mut flaws = Vec::new(alloc);
    let stop = add_stopped(alloc, &mut flaws, files, plan)?;
    add_items(
        alloc,
        &mut flaws,
        &index,
        &plan.directories,
        stop,
        &plan.items,
    )?;
    Ok(flaws)
}
