//! An archive of object files (ar(5)): its ordinary members, and the symbol index that finds them by name.
ghost use Rattle.std.specs.Prelude.{◌≡◌, ◌<◌, ◌^◌, length, option_copied, IfErr, IfOk, OnOk};
ghost use Rattle.elf_model.specs.Inputs.ArchiveFile.{ArFaultStands, HasMagic, IsArchive, index, member_at, members};
ghost use Rattle.elf_model.specs.declared.faults.ArFault.TheVariants as fault;
ghost use Rattle.ar_index.specs.FileBytes.{held_bytes};
ghost use Rattle.ar_index.specs.Parts.{part_bytes};
ghost use Rattle.ar_index.specs.Reading.{IsPassed};

use crate::file_bytes::FileBytes;
use crate::index::{IndexEntry, is_index_first, names_members, read_index};
use crate::members::{Member, data_at, ordinary_members};
use crate::names::have_good_names;
use crate::part_file::{PartFile, stored_parts};
use crate::stored_members::{FILE_LIMIT, StoredMember, read_members};
use byteview::{View, equal_run};
use elf_model::ArFault;
use std::alloc::Global;
use std::marker::Model;

/// An archive of object files, read from its bytes, which it borrows.
#[derive(Drop)]
pub struct Archive<'a> {
    file: FileBytes<'a>,
    members: Vec<Member<'a>>,
    index: Option<Vec<IndexEntry<'a>>>,
}

impl<'a> Model for Archive<'a> {
    ghost use Rattle.std.specs.Prelude.{List, ℕ, option_map};

    ghost Value = { List ℕ };

    ghost use Rattle.ar_index.specs.Reading.{IsRead};
    ghost use Rattle.ar_index.specs.FileBytes.{held_bytes};

    ghost view = { λ a. held_bytes a.file };

    ghost invariant = { λ a.
        IsRead (held_bytes a.file) a.members.items (option_map (λ v. v.items) a.index) };
}

/// Judges how a file begins, and its length.
fn judge_beginning(file: &View<'_>) -> Result<(), ArFault>
    ensures magic { OnOk result (HasMagic file.now) }
    ensures size { OnOk result (length file.now < 2 ^ 32) }
    ensures fault { IfErr result (ArFaultStands file.now) }
{
    if !equal_run(file.part(0, 8), b"!<arch>\n") {
        return Err(ArFault::NotArchive);
    }
    if file.len() >= FILE_LIMIT {
        return Err(ArFault::TooMany);
    }
    Ok(())
}

/// The archive in the bytes of a file whose members were passed without a fault.
fn archive_of<'a>(
    alloc: Global,
    file: FileBytes<'a>,
    stored: &[StoredMember<'a>],
) -> Result<Archive<'a>, ArFault>
    requires magic { HasMagic (held_bytes file) }
    requires size { length (held_bytes file) < 2 ^ 32 }
    requires passed { IsPassed (held_bytes file) stored.now }
    ensures exact { IfOk result (λ a. a ≡ held_bytes file.entry) }
    ensures archive { OnOk result (IsArchive (held_bytes file.entry)) }
    ensures fault { IfErr result (ArFaultStands (held_bytes file.entry)) }
{
    if !is_index_first(stored) {
        return Err(ArFault::BadIndex);
    }
    if !have_good_names(stored) {
        return Err(ArFault::BadName);
    }
    let members = ordinary_members(alloc, stored)?;
    let index = read_index(alloc, stored)?;
    if !names_members(&index, &members) {
        return Err(ArFault::BadIndex);
    }
    Ok(Archive {
        file,
        members,
        index,
    })
}

impl<'a> Archive<'a> {
    /// The archive in a file's bytes, or a fault of them.
    ///
    /// # Errors
    ///
    /// `ArFault` says what stands against the bytes (docs/PROFILE.md); only `Memory` may be answered
    /// of an archive.
    pub fn read(alloc: Global, view: View<'a>) -> Result<Archive<'a>, ArFault>
        ensures exact { IfOk result (λ a. a ≡ view.entry) }
        ensures archive { OnOk result (IsArchive view.entry) }
        ensures fault { IfErr result (ArFaultStands view.entry) }
        ensures only { IsArchive view.entry → IfErr result (λ f. f ≡ fault.Memory) }
    {
        judge_beginning(&view)?;
        let stored = read_members(alloc, &view)?;
        archive_of(alloc, FileBytes::Whole(view.bytes()), &stored)
    }

    /// The archive in a file's bytes, where zeros stand for data of its members that weren't read, or a fault of them.
    ///
    /// # Errors
    ///
    /// As `read`.
    pub fn read_parts(alloc: Global, file: &'a PartFile) -> Result<Archive<'a>, ArFault>
        ensures exact { IfOk result (λ a. a ≡ part_bytes file.entry.now.members) }
        ensures archive { OnOk result (IsArchive (part_bytes file.entry.now.members)) }
        ensures fault { IfErr result (ArFaultStands (part_bytes file.entry.now.members)) }
        ensures only { IsArchive (part_bytes file.entry.now.members)
            → IfErr result (λ f. f ≡ fault.Memory) }
    {
        let stored = stored_parts(alloc, file)?;
        archive_of(alloc, FileBytes::Parts(file), &stored)
    }

    /// The ordinary members, in the file's order.
    pub fn members(&self) -> &[Member<'a>]
        ensures { result.now ≡ members self.now }
    {
        self.members.as_slice()
    }

    /// The entries of the symbol index in its order; None where the archive has no index.
    pub fn index(&self) -> Option<&[IndexEntry<'a>]>
        ensures { option_copied result ≡ index self.now }
    {
        Some(self.index.as_ref()?.as_slice())
    }

    /// The data of the ordinary member whose header is at `offset`, in bytes from the beginning of the
    /// file; None where no such header is.
    pub fn member_at(&self, offset: u64) -> Option<View<'a>>
        ensures { result ≡ member_at self.now offset }
    {
        data_at(&self.members, offset)
    }
}
