//! The sections that an object loses, as its groups are admitted one by one.
ghost use Rattle.std.specs.Prelude.{◌≡◌, ◌==◌, ◌<◌, All, IfOk, OnOk};
ghost use Rattle.std.specs.List.{list_any};
ghost use Rattle.elf_model.specs.Link.Groups.{dropped, seen_after, seen_with};
ghost use Rattle.comdat.specs.Marks.{marks_after};
ghost use Rattle.comdat.specs.Signatures.{Begins, names_of};

use crate::lawfulness::is_comdat;
use crate::marks::{is_marked, mark, marked_numbers};
use elf_model::{Name, NameSeed};
use elf_read::Group;
use indexmap::IndexSet;
use std::alloc::{AllocError, Global};
use std::marker::Model;

/// The sections of an object that are dropped with their groups: their numbers, and a mark for each section.
#[derive(Drop)]
pub struct Dropped {
    sections: Vec<usize>,
    marks: Vec<bool>,
}

impl Model for Dropped {
    ghost use Rattle.std.specs.Prelude.{List, ℕ};

    ghost Value = { List ℕ };

    ghost use Rattle.std.specs.Prelude.{◌≡◌};
    ghost use Rattle.comdat.specs.Marks.{marked_numbers};

    ghost view = { λ d. d.sections.items };

    ghost invariant = { λ d. d.sections.items ≡ marked_numbers d.marks.items };
}

impl Dropped {
    /// The numbers of the dropped sections, ascending, each once.
    pub fn sections(&self) -> &[usize]
        ensures { result.now ≡ self.now }
    {
        self.sections.as_slice()
    }

    /// Whether a section is dropped. Takes the same time for each.
    pub fn has(&self, section: usize) -> bool
        ensures { result ≡ list_any (λ k. k == section) self.now }
    {
        is_marked(&self.marks, section)
    }
}

/// Admits the groups of an object, which has `count` sections, and tells which of these are dropped.
/// Signatures that were seen stay where they are, also where memory is refused.
pub fn admit_groups<'a>(
    alloc: Global,
    signatures: &mut IndexSet<Name<'a>, NameSeed>,
    groups: &[Group<'a>],
    count: usize,
) -> Result<Dropped, AllocError>
    requires { All (λ g. All (λ k. k < count) g.members) groups.now }
    ensures dropped { IfOk result (λ d. d ≡ dropped (names_of signatures.old.keys) groups.now) }
    ensures seen { OnOk result (names_of signatures.new.keys
        ≡ seen_after (names_of signatures.old.keys) groups.now) }
    ensures begins { Begins signatures.old.keys signatures.new.keys }
{
    if groups.is_empty() {
        return Ok(Dropped {
            sections: Vec::new(alloc),
            marks: Vec::new(alloc),
        });
    }
    let mut marks = vec![in alloc; false; count]?;
    for group in groups {
        admit_group(signatures, &mut marks, group)?;
    }
    let sections = marked_numbers(alloc, &marks)?;
    Ok(Dropped { sections, marks })
}

/// Admits one group, and marks its members where it is dropped.
fn admit_group<'a>(
    signatures: &mut IndexSet<Name<'a>, NameSeed>,
    marks: &mut [bool],
    group: &Group<'a>,
) -> Result<(), AllocError>
    ensures marks { OnOk result (marks.new
        ≡ marks_after (names_of signatures.old.keys) marks.old group.now) }
    ensures seen { OnOk result (names_of signatures.new.keys
        ≡ seen_with (names_of signatures.old.keys) group.now) }
    ensures begins { Begins signatures.old.keys signatures.new.keys }
{
    if !is_comdat(group) {
        return Ok(());
    }
    if signatures.insert(Name(group.signature()))? {
        return Ok(());
    }
    mark(marks, group.members());
    Ok(())
}
