//! The archives among the items of a plan, and what they hold.
ghost use Rattle.std.specs.Prelude.{◌≡◌, true, false, [], unwrap_or, All, IfErr, IfOk, IfSome, IsTrue, OnOk, is_some, map, option_copied};
ghost use Rattle.ar_index.specs.FileBytes.{held_bytes};
ghost use Rattle.elf_model.specs.Inputs.ArchiveFile.{ArFaultStands, IsArchive};
ghost use Rattle.elf_model.specs.Inputs.Opening.{AreArchives, HaveIndexes, archive_data, archive_entries, archive_members, is_unindexed, lacks_index};
ghost use Rattle.opening.specs.Opened.{HasWholeObject, item_view};
ghost use Rattle.opening.specs.Faults.{AreUnsearchable, IsUnsearchable};

use crate::faults::{OpenFault, archive_fault};
use crate::opened_items::OpenedItem;
use ar_index::{ArFault, Archive, FileBytes, IndexEntry, Member};
use byteview::View;
use std::alloc::Global;
use std::marker::Model;

/// An opened item, and what it holds where it is an archive.
#[derive(Drop)]
pub struct Input<'a> {
    item: OpenedItem<'a>,
    archive: Option<Archive<'a>>,
}

impl<'a> Model for Input<'a> {
    ghost use Rattle.elf_model.specs.Inputs.Opening.{Opened};
    ghost use Rattle.opening.specs.Opened.{HasWholeObject, IsInput, item_view};

    ghost Value = { Opened };

    ghost view = { λ i. item_view i.item };

    ghost invariant = { λ i. IsInput (item_view i.item) i.archive × HasWholeObject i.item };
}

impl<'a> Input<'a> {
    /// The item.
    pub fn item(&self) -> OpenedItem<'a>
        ensures { item_view result ≡ self.now }
    {
        self.item
    }

    /// The bytes of an object.
    pub fn object_bytes(&self) -> &'a [u8]
        requires { self.now.archive ≡ false }
        ensures { result.now ≡ self.now.bytes }
    {
        match self.item.bytes {
            FileBytes::Whole(bytes) => bytes,
            FileBytes::Parts(_) => unreachable!(),
        }
    }

    /// What it holds; None of an object.
    fn archive(&self) -> Option<&Archive<'a>>
        ensures some { is_some result ≡ self.now.archive }
        ensures same { IfSome result (λ a. a.now ≡ self.now.bytes) }
    {
        self.archive.as_ref()
    }

    /// The ordinary members of an archive, in the file's order.
    #[tactic(auto, unfolding(elf_model::specs::Inputs::Opening::archive_members))]
    pub fn members(&self) -> &[Member<'a>]
        requires { self.now.archive ≡ true }
        ensures { result.now ≡ archive_members self.now.bytes }
    {
        let Some(archive) = self.archive() else {
            unreachable!()
        };
        archive.members()
    }

    /// The entries of an archive's index, in its order; None without one.
    #[tactic(auto, unfolding(elf_model::specs::Inputs::Opening::archive_entries))]
    pub fn entries(&self) -> Option<&[IndexEntry<'a>]>
        requires { self.now.archive ≡ true }
        ensures { unwrap_or (option_copied result) [] ≡ archive_entries self.now.bytes }
    {
        let Some(archive) = self.archive() else {
            unreachable!()
        };
        archive.index()
    }

    /// The data of the ordinary member of an archive whose header is at an offset; none where there is
    /// no such header.
    #[tactic(auto, unfolding(elf_model::specs::Inputs::Opening::archive_data))]
    pub fn data_at(&self, offset: u64) -> &'a [u8]
        requires { self.now.archive ≡ true }
        ensures { result.now ≡ archive_data self.now.bytes offset }
    {
        let Some(archive) = self.archive() else {
            unreachable!()
        };
        match archive.member_at(offset) {
            Some(data) => data.bytes(),
            None => &[],
        }
    }
}

/// Whether an archive has members, and no index of their names.
#[tactic(auto, unfolding(elf_model::specs::Inputs::Opening::is_unindexed))]
fn is_unindexed(archive: &Archive<'_>) -> bool
    ensures { result ≡ is_unindexed archive.now }
{
    !archive.members().is_empty() && archive.index().is_none()
}

/// Reads the archive in a file's bytes.
fn archive_in<'a>(alloc: Global, bytes: FileBytes<'a>) -> Result<Archive<'a>, ArFault>
    ensures exact { IfOk result (λ a. a ≡ held_bytes bytes.entry) }
    ensures archive { OnOk result (IsArchive (held_bytes bytes.entry)) }
    ensures fault { IfErr result (ArFaultStands (held_bytes bytes.entry)) }
{
    match bytes {
        FileBytes::Whole(bytes) => Archive::read(alloc, View::new(bytes)),
        FileBytes::Parts(file) => Archive::read_parts(alloc, file),
    }
}

/// Reads the archive of an item, and judges whether it can be searched.
fn read_archive<'a>(alloc: Global, item: &OpenedItem<'a>) -> Result<Archive<'a>, OpenFault>
    requires { item.now.archive ≡ true }
    ensures exact { IfOk result (λ a. a ≡ held_bytes item.now.bytes) }
    ensures archive { OnOk result (IsArchive (held_bytes item.now.bytes)) }
    ensures index { OnOk result (lacks_index (item_view item.now) ≡ false) }
    ensures fault { IfErr result (λ e. IsUnsearchable e (item_view item.now)) }
{
    let archive = match archive_in(alloc, item.bytes) {
        Ok(archive) => archive,
        Err(fault) => return Err(archive_fault(fault)),
    };
    if !item.whole && is_unindexed(&archive) {
        return Err(OpenFault::NoIndex);
    }
    Ok(archive)
}

/// Reads what an item holds where it is an archive.
pub fn read_input<'a>(alloc: Global, item: &OpenedItem<'a>) -> Result<Input<'a>, OpenFault>
    requires { HasWholeObject item.now }
    ensures exact { IfOk result (λ i. i ≡ item_view item.now) }
    ensures archive { OnOk result (item.now.archive ≡ true → IsArchive (held_bytes item.now.bytes)) }
    ensures index { OnOk result (item.now.archive ≡ true
        → lacks_index (item_view item.now) ≡ false) }
    ensures fault { IfErr result (λ e. IsUnsearchable e (item_view item.now)) }
{
    if !item.archive {
        return Ok(Input {
            item: *item,
            archive: None,
        });
    }
    let archive = read_archive(alloc, item)?;
    Ok(Input {
        item: *item,
        archive: Some(archive),
    })
}

/// Reads what items hold, in order.
pub fn read_inputs<'a>(alloc: Global, items: &[OpenedItem<'a>]) -> Result<Vec<Input<'a>>, OpenFault>
    requires { All HasWholeObject items.now }
    ensures exact { IfOk result (λ v. v.items ≡ map item_view items.now) }
    ensures archives { OnOk result (AreArchives (map item_view items.now)) }
    ensures indexes { OnOk result (HaveIndexes (map item_view items.now)) }
    ensures fault { IfErr result (AreUnsearchable (map item_view items.now)) }
{
    let mut inputs = Vec::new(alloc);
    for item in items {
        inputs.push(read_input(alloc, item)?)?;
    }
    Ok(inputs)
}
