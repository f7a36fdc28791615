//! Archives among the items that are none, or can't be searched.
ghost use Rattle.std.specs.Prelude.{◌≡◌, [], All, IfOk, IsTrue, OnOk, length, map};
ghost use Rattle.ar_index.specs.FileBytes.{is_whole};
ghost use Rattle.command.specs.Views.{item_of, texts_of};
ghost use Rattle.elf_model.specs.Inputs.Files.{files_of};
ghost use Rattle.elf_model.specs.Inputs.Opening.{AreFilesThere, HasFile, opened_from, opened_item};
ghost use Rattle.opening.specs.Faults.{IsSearchable, IsUnsearchable};
ghost use Rattle.opening.specs.Held.{all_files};
ghost use Rattle.opening.specs.Opened.{item_view};
ghost use Rattle.flaws.specs.Flaws.{AreAdded};
ghost use Rattle.item_flaws.specs.ItemFlaws.{AddsUnsearchable, AreUnsearchableItems, IsArchiveFlaw, IsOffsetOf, IsUnsearchableItem};

use crate::flaw::{Added, ItemFlaw, add};
use crate::items::{opened_item, reached};
use bad_members::bad_member;
use command::{Item, Plan};
use elf_model::{ArFault, InputFile};
use opening::{FileSet, OpenFault, OpenedItem, read_input};
use search::Reached;
use std::alloc::{AllocError, Global};

/// The offset of the header of the member at which a file is no archive; 0 where the fault is none of a member.
fn member_offset(bytes: &[u8], fault: ArFault) -> u64
    ensures { IsOffsetOf bytes.now fault result }
{
    match bad_member(bytes, fault) {
        Some(at) => at,
        None => 0,
    }
}

/// An item that is read as an archive, and is none, as a flaw.
fn bad_archive<'a>(item: &OpenedItem<'a>, fault: ArFault) -> ItemFlaw<'a>
    requires { IsTrue (is_whole item.now.bytes) }
    ensures { IsArchiveFlaw (item_view item.now) fault result }
{
    let whole = reached(item);
    let offset = member_offset(whole.bytes, fault);
    ItemFlaw::Archive(Reached { offset, ..whole }, fault)
}

/// Adds an opened item that can't be searched, by its fault.
fn add_fault<'a>(flaws: &mut Vec<ItemFlaw<'a>>, item: &OpenedItem<'a>, fault: OpenFault) -> Added
    requires whole { IsTrue (is_whole item.now.bytes) }
    requires fault { IsUnsearchable fault (item_view item.now) }
    ensures { OnOk result (AddsUnsearchable (item_view item.now) flaws.old.items flaws.new.items) }
{
    match fault {
        OpenFault::BadArchive(fault) => add(flaws, bad_archive(item, fault)),
        OpenFault::NoIndex => add(flaws, ItemFlaw::NoIndex(reached(item))),
        _ => Err(AllocError),
    }
}

/// Adds an opened item, where it is read as an archive, and can't be searched.
fn add_opened<'a>(alloc: Global, flaws: &mut Vec<ItemFlaw<'a>>, item: &OpenedItem<'a>) -> Added
    requires { IsTrue (is_whole item.now.bytes) }
    ensures { OnOk result (AddsUnsearchable (item_view item.now) flaws.old.items flaws.new.items) }
{
    match read_input(alloc, item) {
        Ok(_) => Ok(()),
        Err(fault) => add_fault(flaws, item, fault),
    }
}

/// Adds item `i`, which has a file, where it is read as an archive, and can't be searched.
fn add_item<'a>(
    alloc: Global,
    flaws: &mut Vec<ItemFlaw<'a>>,
    files: &FileSet<'a>,
    directories: &[&str],
    i: usize,
    item: &Item<'_>,
) -> Added
    requires whole { files.now.parts ≡ [] }
    requires there { HasFile (all_files files.now) (texts_of directories.now) (item_of item.now) }
    ensures { OnOk result (AddsUnsearchable
        (opened_item (all_files files.now) (texts_of directories.now) i (item_of item.now))
        flaws.old.items flaws.new.items) }
{
    let opened = opened_item(alloc, files, directories, i, item)?;
    add_opened(alloc, flaws, &opened)
}

/// Adds the items, each of which has a file, that are read as archives, and can't be searched.
fn add_items<'a>(
    alloc: Global,
    flaws: &mut Vec<ItemFlaw<'a>>,
    files: &FileSet<'a>,
    directories: &[&str],
    items: &[Item<'_>],
) -> Added
    requires whole { files.now.parts ≡ [] }
    requires there { All (HasFile (all_files files.now) (texts_of directories.now))
        (map item_of items.now) }
    ensures { OnOk result (AreAdded AddsUnsearchable
        (opened_from (all_files files.now) (texts_of directories.now) 0 (map item_of items.now))
        flaws.old.items flaws.new.items) }
{
    for i in 0..items.len() {
        add_item(alloc, flaws, files, directories, i, &items[i])?;
    }
    Ok(())
}

/// The items of a plan, each of which has a file, that are read as archives and are none, or are searched and have no index, in
/// their order. There are none exactly where all archives can be searched.
///
/// # Errors
///
/// Only where memory is refused.
pub fn unsearchable_items<'a>(
    alloc: Global,
    files: &'a [InputFile],
    plan: &Plan<'_>,
) -> Result<Vec<ItemFlaw<'a>>, AllocError>
    requires { AreFilesThere (files_of files.now) plan.now }
    ensures all { IfOk result (λ flaws.
        AreUnsearchableItems (files_of files.entry.now) plan.now flaws.items) }
    ensures each { IfOk result (λ flaws.
        All (IsUnsearchableItem (files_of files.entry.now) plan.now) flaws.items) }
    ensures none { IfOk result (λ flaws.
        length flaws.items ≡ 0 → IsSearchable (files_of files.entry.now) plan.now) }
{
    let index = FileSet::new(alloc, &[], files)?;
    let mut flaws = Vec::new(alloc);
    add_items(alloc, &mut flaws, &index, &plan.directories, &plan.items)?;
    Ok(flaws)
}
