//! Items without files, archives that are none, and the object at which loading stops.
ghost use Rattle.std.specs.Prelude.{◌≡◌, List, IfOk, IfSome, OnOk, Some};
ghost use Rattle.std.specs.List.{slice_get};
ghost use Rattle.command.specs.Views.{item_of};
ghost use Rattle.elf_model.specs.Inputs.Command as command;
ghost use Rattle.elf_model.specs.Inputs.Files.{File, files_of};
ghost use Rattle.opening.specs.Held.{all_files};
ghost use Rattle.explain.specs.Places.{AreSo, HoldsOf, IsOffsetOf, IsOpened, OfPlan};

use crate::place::{Added, Found, Place};
use bad_members::bad_member;
use bad_parts::bad_part;
use command::{Item, Plan};
use elf_model::{ArFault, InputFile};
use opening::{FileSet, OpenFault, OpenedItem, find_source, read_input};
use search::{Reached, SearchFault, refused_object};
use std::alloc::{AllocError, Global};

/// A place at which something is wrong, where there is one.
type Wrong<'a> = Result<Option<Place<'a>>, AllocError>;

/// The offset of the header of the member at which a file is no archive; 0 where the fault is none of a member.
fn member_offset(bytes: &[u8], fault: ArFault) -> u64
    ensures { IsOffsetOf bytes.now fault result }
{
    match bad_member(bytes, fault) {
        Some(at) => at,
        None => 0,
    }
}

/// An opened item, where it is read as an archive, and can't be searched.
fn bad_archive<'a>(alloc: Global, item: &OpenedItem<'a>) -> Wrong<'a>
    ensures { (files : List File) (plan : command.Plan) →
        IsOpened files plan item.now → IfOk result (λ o. IfSome o (HoldsOf files plan)) }
{
    let Some(bytes) = item.bytes.whole() else {
        return Ok(None);
    };
    let whole = Reached {
        item: item.number,
        path: item.path,
        offset: 0,
        bytes,
    };
    match read_input(alloc, item) {
        Ok(_) => Ok(None),
        Err(OpenFault::BadArchive(fault)) => {
            let offset = member_offset(bytes, fault);
            Ok(Some(Place::Archive(Reached { offset, ..whole }, fault)))
        }
        Err(OpenFault::NoIndex) => Ok(Some(Place::NoIndex(whole))),
        Err(_) => Err(AllocError),
    }
}

/// The item of a plan that has a number.
fn item_at<'p, 'a>(plan: &'p Plan<'a>, i: usize) -> Option<&'p Item<'a>>
    ensures { IfSome result (λ item. slice_get plan.now.items i ≡ Some (item_of item.now)) }
{
    plan.items.get(i)
}

/// Item `i` of a plan, where it has no file; where files are opened, also where it can't be searched.
fn wrong_item<'a>(
    alloc: Global,
    files: &FileSet<'a>,
    plan: &Plan<'a>,
    i: usize,
    open: bool,
) -> Wrong<'a>
    ensures { IfOk result (λ o. IfSome o (HoldsOf (all_files files.now) plan.now)) }
{
    let Some(item) = item_at(plan, i) else {
        return Ok(None);
    };
    let Some((path, bytes)) = find_source(alloc, files, &plan.directories, item.source)? else {
        return Ok(Some(Place::Missing(i as u64, item.source)));
    };
    if !open {
        return Ok(None);
    }
    let opened = OpenedItem {
        number: i as u64,
        path,
        bytes,
        archive: item.archive,
        whole: item.whole,
        group: item.group,
    };
    bad_archive(alloc, &opened)
}

/// The object of a plan at which loading stops, where it stops at one.
fn refused_place<'a>(alloc: Global, files: &'a [InputFile], plan: &Plan<'a>) -> Wrong<'a>
    ensures { IfOk result (λ o. IfSome o (HoldsOf (files_of files.entry.now) plan.now)) }
{
    let Some(object) = refused_object(alloc, plan, files)? else {
        return Ok(None);
    };
    match object.fault {
        SearchFault::BadObject(fault) => {
            let part = bad_part(alloc, object.at.bytes, fault)?;
            Ok(Some(Place::Object(object.at, fault, part)))
        }
        SearchFault::Group(fault) => Ok(Some(Place::Groups(object.at, fault))),
        _ => Ok(None),
    }
}

/// Adds why a plan isn't loaded: the items that have no file, where each has one the archives that are none or can't be searched,
/// and the object at which loading stops, where it stops at one.
pub fn add_unloaded<'a>(
    found: &mut Found<'a>,
    files: &'a [InputFile],
    plan: &Plan<'a>,
    fault: SearchFault,
) -> Added
    requires { AreSo (OfPlan (files_of files.now) plan.now) found.old.places.items }
    ensures { OnOk result (AreSo (OfPlan (files_of files.now) plan.now) found.new.places.items) }
{
    let open = match fault {
        SearchFault::Memory => return Err(AllocError),
        SearchFault::FileMissing => false,
        _ => true,
    };
    let alloc = found.alloc;
    let index = FileSet::new(alloc, &[], files)?;
    for i in 0..plan.items.len() {
        found.add(wrong_item(alloc, &index, plan, i, open)?)?;
    }
    found.add(refused_place(alloc, files, plan)?)
}
