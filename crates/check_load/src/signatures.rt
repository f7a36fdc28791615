//! The signatures of COMDAT groups that were seen, and the sections that the next object loses by them.
ghost use Rattle.std.specs.Prelude.{◌≡◌, ◌==◌, ◌<◌, ◌&&◌, All, IfErr, IfOk, OnOk, if◌then◌else◌, length};
ghost use Rattle.std.specs.List.{list_any};
ghost use Rattle.elf_model.specs.Link.Groups.{AreLawfulGroups, is_comdat};
ghost use Rattle.elf_model.specs.Inputs.ObjectFile.{groups};
ghost use Rattle.check_load.specs.Marks.{marked};
ghost use Rattle.check_load.specs.NameNumbers.{is_among};
ghost use Rattle.check_load.specs.Signatures.{lost_by, lost_members, seen_by, seen_then};
ghost use Rattle.check_load.specs.Stops.{Refutes};

use crate::copies::filled;
use crate::lawfulness::{are_lawful, is_comdat};
use crate::marks::{is_marked, mark};
use crate::name_table::NameTable;
use crate::stops::Stop;
use elf_read::{Group, ObjectFile};
use std::alloc::{AllocError, Global};
use std::marker::Model;

/// The sections of an object that are dropped with their groups: a mark for each section.
#[derive(Drop)]
pub struct Dropped {
    marks: Vec<bool>,
}

impl Model for Dropped {
    ghost use Rattle.std.specs.Prelude.{List, ℕ};
    ghost use Rattle.check_load.specs.Marks.{marked_numbers};

    ghost Value = { List ℕ };

    ghost view = { λ d. marked_numbers d.marks.items };
}

impl Dropped {
    /// Whether a section is dropped.
    pub fn has(&self, section: usize) -> bool
        ensures { result ≡ list_any (λ k. k == section) self.now }
    {
        is_marked(&self.marks, section)
    }
}

/// Adds the signature of a group that is seen, and marks its members where it is dropped.
fn admit_group<'a>(
    seen: &mut NameTable<'a>,
    marks: &mut [bool],
    group: &Group<'a>,
) -> Result<(), AllocError>
    ensures marks { OnOk result (marks.new
        ≡ (if is_comdat group.now
        && is_among seen.old group.now.signature then marked marks.old group.now.members else marks.old)) }
    ensures seen { OnOk result (is_among seen.new ≡ seen_then (is_among seen.old) group.now) }
{
    if !is_comdat(group) {
        return Ok(());
    }
    let (_number, is_new) = seen.add(group.signature())?;
    if is_new {
        return Ok(());
    }
    mark(marks, group.members());
    Ok(())
}

/// Adds the signatures of groups, and marks the members of those that are dropped.
fn mark_lost<'a>(
    seen: &mut NameTable<'a>,
    marks: &mut Vec<bool>,
    groups: &[Group<'a>],
) -> Result<(), AllocError>
    ensures marks { OnOk result (marks.new.items
        ≡ marked marks.old.items (lost_members (is_among seen.old) groups.now)) }
    ensures seen { OnOk result (is_among seen.new ≡ seen_by (is_among seen.old) groups.now) }
{
    for group in groups {
        admit_group(seen, marks, group)?;
    }
    Ok(())
}

/// Adds the signatures of an object's groups, and tells which of its `count` sections are dropped.
fn admit_groups<'a>(
    alloc: Global,
    seen: &mut NameTable<'a>,
    groups: &[Group<'a>],
    count: usize,
) -> Result<Dropped, AllocError>
    requires { All (λ g. All (λ k. k < count) g.members) groups.now }
    ensures dropped { IfOk result (λ d. d ≡ lost_by (is_among seen.old) groups.now) }
    ensures seen { OnOk result (is_among seen.new ≡ seen_by (is_among seen.old) groups.now) }
{
    let mut marks = filled(alloc, false, count)?;
    mark_lost(seen, &mut marks, groups)?;
    Ok(Dropped { marks })
}

/// Admits the groups of the object that is loaded next, where they are lawful, and tells which of its
/// sections are dropped.
pub fn admit<'a>(
    alloc: Global,
    seen: &mut NameTable<'a>,
    object: &ObjectFile<'a>,
) -> Result<Dropped, Stop>
    ensures lawful { OnOk result (AreLawfulGroups (groups object.now)) }
    ensures dropped { IfOk result (λ d. d ≡ lost_by (is_among seen.old) (groups object.now)) }
    ensures seen { OnOk result (is_among seen.new
        ≡ seen_by (is_among seen.old) (groups object.now)) }
    ensures stop { IfErr result (Refutes (AreLawfulGroups (groups object.now))) }
{
    let groups = object.groups();
    let count = object.sections().len();
    if !are_lawful(alloc, groups, count)? {
        return Err(Stop::Unlawful);
    }
    let dropped = admit_groups(alloc, seen, groups, count)?;
    Ok(dropped)
}
