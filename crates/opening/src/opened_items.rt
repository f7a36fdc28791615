//! Finds the file of each item of a plan.
ghost use Rattle.std.specs.Prelude.{◌≡◌, ℕ, ◌↔◌, All, IfErr, IfOk, IfSome, IsSome, IsTrue, OnOk, map, option_map};
ghost use Rattle.command.specs.Views.{item_of, source_of, texts_of};
ghost use Rattle.elf_model.specs.Inputs.Command.{library_paths, paths_of};
ghost use Rattle.elf_model.specs.Inputs.Opening.{AreFilesThere, HasFile, opened, opened_from};
ghost use Rattle.ar_index.specs.FileBytes.{is_whole};
ghost use Rattle.opening.specs.Held.{AreSearched, IsApart, IsSearchedOrWhole, all_files};
ghost use Rattle.opening.specs.Opened.{HasWholeObject, found_view, first_found, item_view};
ghost use Rattle.opening.specs.Faults.{OpensBadly};

use crate::faults::OpenFault;
use crate::files::FileSet;
use ar_index::FileBytes;
use command::{Item, Plan, Source, library_path};
use std::alloc::{AllocError, Global};

/// An item of a plan and its file.
#[derive(Clone, Copy)]
pub struct OpenedItem<'a> {
    /// Its number in the command, from 0.
    pub number: u64,
    /// The path of its file.
    pub path: &'a str,
    /// The bytes of its file.
    pub bytes: FileBytes<'a>,
    pub archive: bool,
    pub whole: bool,
    pub group: Option<u64>,
}

/// The path and the bytes of the first `DIRECTORY/libNAME.a` that is a file.
fn find_library<'a>(
    alloc: Global,
    files: &FileSet<'a>,
    directories: &[&str],
    name: &str,
) -> Result<Option<(&'a str, FileBytes<'a>)>, AllocError>
    ensures found { IfOk result (λ f. option_map found_view f
        ≡ first_found (all_files files.now) (library_paths (texts_of directories.now) name.now)) }
    ensures whole { IsApart files.now.parts (library_paths (texts_of directories.now) name.now)
        → IfOk result (λ o. IfSome o (λ f. IsTrue (is_whole f.1))) }
{
    for directory in directories {
        let path = library_path(alloc, directory, name)?;
        if let Some(found) = files.find(&path) {
            return Ok(Some(found));
        }
    }
    Ok(None)
}

/// The path and the bytes of the file of an item.
pub fn find_source<'a>(
    alloc: Global,
    files: &FileSet<'a>,
    directories: &[&str],
    source: Source<'_>,
) -> Result<Option<(&'a str, FileBytes<'a>)>, AllocError>
    ensures found { IfOk result (λ f. option_map found_view f
        ≡ first_found (all_files files.now)
        (paths_of (texts_of directories.now) (source_of source.entry))) }
    ensures whole { IsApart files.now.parts
        (paths_of (texts_of directories.now) (source_of source.entry))
        → IfOk result (λ o. IfSome o (λ f. IsTrue (is_whole f.1))) }
{
    match source {
        Source::Path(path) => Ok(files.find(path)),
        Source::Library(name) => find_library(alloc, files, directories, name),
    }
}

/// Opens items, in order.
fn open_items<'a>(
    alloc: Global,
    files: &FileSet<'a>,
    directories: &[&str],
    items: &[Item<'_>],
) -> Result<Option<Vec<OpenedItem<'a>>>, AllocError>
    ensures some { IfOk result (λ o.
        IfSome o (λ v. map item_view v.items
        ≡ opened_from (all_files files.now) (texts_of directories.now) 0 (map item_of items.now))) }
    ensures files { IfOk result (λ o. IsSome o
        ↔ All (HasFile (all_files files.now) (texts_of directories.now)) (map item_of items.now)) }
    ensures objects { All (IsSearchedOrWhole files.now.parts (texts_of directories.now))
        (map item_of items.now) → IfOk result (λ o. IfSome o (λ v. All HasWholeObject v.items)) }
{
    let mut opened = Vec::new(alloc);
    for (i, item) in items.iter().enumerate() {
        let Some((path, bytes)) = find_source(alloc, files, directories, item.source)? else {
            return Ok(None);
        };
        opened.push(OpenedItem {
            number: i as u64,
            path,
            bytes,
            archive: item.archive,
            whole: item.whole,
            group: item.group,
        })?;
    }
    Ok(Some(opened))
}

/// The items of a plan with their files, in order.
pub fn open<'a>(
    alloc: Global,
    files: &FileSet<'a>,
    plan: &Plan<'_>,
) -> Result<Vec<OpenedItem<'a>>, OpenFault>
    requires { AreSearched files.now.parts plan.now }
    ensures opened { IfOk result (λ v. map item_view v.items
        ≡ opened (all_files files.now) plan.now) }
    ensures objects { IfOk result (λ v. All HasWholeObject v.items) }
    ensures files { OnOk result (AreFilesThere (all_files files.now) plan.now) }
    ensures fault { IfErr result (OpensBadly (all_files files.now) plan.now) }
{
    match open_items(alloc, files, &plan.directories, &plan.items)? {
        Some(opened) => Ok(opened),
        None => Err(OpenFault::FileMissing),
    }
}
