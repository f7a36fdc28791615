//! The ordinary members, and the one at an offset.
ghost use Rattle.std.specs.Prelude.{◌≡◌, ◌<◌, ◌≤◌, ℕ, length, slice_index_or, AllPairs, IfOk};
ghost use Rattle.elf_model.specs.Inputs.ArchiveFile as archive;
ghost use Rattle.ar_index.specs.Reading.{AreAscending};

use crate::names::is_ordinary;
use crate::stored_members::StoredMember;
use byteview::View;
use std::alloc::{AllocError, Global};
use std::marker::Model;

/// An ordinary member of an archive.
#[derive(Drop)]
pub struct Member<'a> {
    offset: u64,
    bytes: &'a [u8],
}

impl<'a> Model for Member<'a> {
    ghost use Rattle.elf_model.specs.Inputs.ArchiveFile.{Member};

    ghost Value = { Member };

    ghost view = { λ m. record { offset = m.offset; bytes = m.bytes.now } };
}

impl<'a> Member<'a> {
    /// The offset of the member's header, in bytes from the archive's beginning.
    pub fn offset(&self) -> u64
        ensures { result ≡ self.now.offset }
    {
        self.offset
    }

    /// The member's data, which are a part of the archive's bytes.
    pub fn bytes(&self) -> &'a [u8]
        ensures { result.now ≡ self.now.bytes }
    {
        self.bytes
    }
}

/// The ordinary members among those that are stored, in their order.
pub fn ordinary_members<'a>(
    alloc: Global,
    stored: &[StoredMember<'a>],
) -> Result<Vec<Member<'a>>, AllocError>
    ensures { IfOk result (λ v. v.items ≡ archive.ordinary stored.now) }
{
    let mut members = Vec::new(alloc);
    for member in stored {
        if is_ordinary(member) {
            members.push(Member {
                offset: member.offset() as u64,
                bytes: member.bytes(),
            })?;
        }
    }
    Ok(members)
}

/// How many of the members, which stand by offset, begin before an offset.
fn begun_before(members: &[Member<'_>], offset: u64) -> usize
    requires { AreAscending members.now }
    ensures within { result ≤ length members.now }
    ensures before { (k : ℕ) (d : archive.Member) →
        k < result → (slice_index_or members.now k d).offset < offset }
    ensures from { (k : ℕ) (d : archive.Member) →
        result ≤ k → k < length members.now → offset ≤ (slice_index_or members.now k d).offset }
{
    members.partition_point(|m| m.offset() < offset)
}

/// The data of the member at an offset; None where none begins there.
pub fn data_at<'a>(members: &[Member<'a>], offset: u64) -> Option<View<'a>>
    requires { AreAscending members.now }
    ensures { result ≡ archive.data_of members.now offset }
{
    let member = members.get(begun_before(members, offset))?;
    if member.offset() != offset {
        return None;
    }
    Some(View::new(member.bytes()))
}
