//! An archive's file of which the data of some members weren't read: zeros stand for these, the same ones for all members.
ghost use Rattle.std.specs.Prelude.{◌≡◌, ◌<◌, ◌≤◌, ◌^◌, ◌++◌, ◌∷◌, [], All, IfErr, IfOk, OnOk, length, replicate, slice_index_or, string_bytes};
ghost use Rattle.elf_model.specs.Inputs.ArchiveFile.{ArFaultStands};
ghost use Rattle.ar_index.specs.Parts as parts;
ghost use Rattle.ar_index.specs.Parts.{HasZerosFor, IsPart, no_part, part_bytes, part_data, part_size, with_content};

use crate::part_member::PartMember;
use crate::stored_members::{FILE_LIMIT, HEADER_SIZE, StoredMember};
use elf_model::ArFault;
use std::alloc::{AllocError, Global};
use std::marker::Model;

/// An archive's file: its name, and its members, of which the data of some weren't read.
#[derive(Drop)]
pub struct PartFile {
    name: String,
    members: Vec<PartMember>,
    zeros: Vec<u8>,
}

impl Model for PartFile {
    ghost use Rattle.std.specs.Prelude.{string_bytes};
    ghost use Rattle.ar_index.specs.Parts.{AreKeptParts, PartialFile};

    ghost Value = { PartialFile };

    ghost view = { λ f. record { name = string_bytes f.name; members = f.members.items } };

    ghost invariant = { λ f. AreKeptParts f.members.items f.zeros.items };
}

/// The first of some zeros, or the data of a member that were read.
fn data_of<'a>(member: &'a PartMember, zeros: &'a [u8]) -> &'a [u8]
    requires zeros { zeros.now ≡ replicate (length zeros.now) 0 }
    requires enough { HasZerosFor (length zeros.now) member.now }
    ensures { result.now ≡ part_data member.entry.now }
{
    match member.content() {
        Some(content) => content,
        None => {
            let (run, _) = zeros.split_at(member.size());
            run
        }
    }
}

/// Has zeros enough for the data of a member.
fn make_zeros(zeros: &mut Vec<u8>, member: &PartMember) -> Result<(), AllocError>
    requires { zeros.old.items ≡ replicate (length zeros.old.items) 0 }
    ensures zeros { zeros.new.items ≡ replicate (length zeros.new.items) 0 }
    ensures grows { length zeros.old.items ≤ length zeros.new.items }
    ensures enough { OnOk result (HasZerosFor (length zeros.new.items) member.now) }
{
    if member.is_read() || member.size() <= zeros.len() {
        return Ok(());
    }
    zeros.resize(member.size(), 0)
}

impl PartFile {
    /// A file without members.
    pub fn new(alloc: Global, name: String) -> PartFile
        ensures { result ≡ record { name = string_bytes name; members = [] } }
    {
        PartFile {
            name,
            members: Vec::new(alloc),
            zeros: Vec::new(alloc),
        }
    }

    /// The file's name.
    pub fn name(&self) -> &str
        ensures { result.now ≡ self.now.name }
    {
        self.name.as_str()
    }

    /// Its members, in its order.
    pub fn members(&self) -> &[PartMember]
        ensures { result.now ≡ self.now.members }
    {
        self.members.as_slice()
    }

    /// The zeros that stand for data which weren't read, enough for each of its members.
    fn zeros(&self) -> &[u8]
        ensures zeros { result.now ≡ replicate (length result.now) 0 }
        ensures enough { All (HasZerosFor (length result.now)) self.now.members }
        ensures parts { All IsPart self.now.members }
    {
        self.zeros.as_slice()
    }

    /// Adds a member behind the others.
    pub fn add(&mut self, member: PartMember) -> Result<(), AllocError>
        ensures added { OnOk result (self.new ≡ record {
          name = self.old.name;
          members = self.old.members ++ member ∷ [];
        }) }
    {
        member.show();
        make_zeros(&mut self.zeros, &member)?;
        self.members.push(member)?;
        Ok(())
    }

    /// Gives a member its data.
    pub fn fill(&mut self, i: usize, content: Vec<u8>)
        requires inside { i < length self.old.members }
        requires count { length content.items
            ≡ part_size (slice_index_or self.old.members i no_part) }
        ensures { self.new ≡ record {
          name = self.old.name;
          members = with_content self.old.members i content.items;
        } }
    {
        self.members[i].fill(content);
    }
}

/// All members of a file, as they are stored.
pub fn stored_parts<'a>(alloc: Global, file: &'a PartFile) -> Result<Vec<StoredMember<'a>>, ArFault>
    ensures members { IfOk result (λ v. v.items ≡ parts.stored_parts 8 file.entry.now.members) }
    ensures parts { OnOk result (All IsPart file.entry.now.members) }
    ensures size { OnOk result (length (part_bytes file.entry.now.members) < 2 ^ 32) }
    ensures fault { IfErr result (ArFaultStands (part_bytes file.entry.now.members)) }
{
    let members = file.members();
    let zeros = file.zeros();
    let mut stored = Vec::with_capacity(alloc, members.len())?;
    let mut at = 8;
    for member in members {
        member.show();
        let size = member.size();
        stored.push(StoredMember::new(at, member.name(), data_of(member, zeros)))?;
        at = at + HEADER_SIZE + size + size % 2;
        if at >= FILE_LIMIT {
            return Err(ArFault::TooMany);
        }
    }
    Ok(stored)
}
