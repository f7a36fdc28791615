//! Members as they are stored, one after the other, the index and the long names among them.
ghost use Rattle.std.specs.Prelude.{◌≡◌, ◌≤◌, ◌<◌, ◌+◌, ◌-◌, ◌%◌, ◌^◌, All, length, true, IfErr, IfOk};
ghost use Rattle.elf_model.specs.Inputs.ArchiveFile as archive;
ghost use Rattle.elf_model.specs.Inputs.ArchiveFile.{ArFaultStands, HasMagic, IsGoodHeader, IsWhole, header_offsets, is_readable, next_header, size_at, stored_member, stored_members};
ghost use Rattle.ar_index.specs.Reading.{IsFaultAt, IsPadFault, IsPadded, IsPassed};

use crate::fields::number_in;
use byteview::{View, equal_run};
use elf_model::ArFault;
use std::alloc::Global;
use std::marker::Model;

/// How many bytes a member's header has (ar(5), struct ar_hdr).
pub const HEADER_SIZE: usize = 60;

/// Files of this many bytes and more are refused.
pub const FILE_LIMIT: usize = 1 << 32;

/// A member as it is stored: the offset of its header in the file, its name field of 16 bytes, its data.
#[derive(Drop)]
pub struct StoredMember<'a> {
    offset: usize,
    name: &'a [u8],
    bytes: &'a [u8],
}

impl<'a> Model for StoredMember<'a> {
    ghost use Rattle.std.specs.Prelude.{◌≤◌, length};
    ghost use Rattle.elf_model.specs.Inputs.ArchiveFile.{StoredMember};

    ghost Value = { StoredMember };

    ghost view = { λ m. record { offset = m.offset; name = m.name.now; bytes = m.bytes.now } };

    ghost invariant = { λ m. length m.name.now ≤ 16 };
}

impl<'a> StoredMember<'a> {
    /// The member whose header is at an offset, by its name field and its data.
    pub fn new(offset: usize, name: &'a [u8], bytes: &'a [u8]) -> StoredMember<'a>
        requires { length name.now ≤ 16 }
        ensures { result ≡ record {
          offset = offset;
          name = name.entry.now;
          bytes = bytes.entry.now;
        } }
    {
        StoredMember {
            offset,
            name,
            bytes,
        }
    }

    /// The offset of the member's header in the file.
    pub fn offset(&self) -> usize
        ensures { result ≡ self.now.offset }
    {
        self.offset
    }

    /// The member's name field, with the spaces behind the name.
    pub fn name(&self) -> &'a [u8]
        ensures exact { result.now ≡ self.now.name }
        ensures len { length result.now ≤ 16 }
    {
        self.name
    }

    /// The member's data.
    pub fn bytes(&self) -> &'a [u8]
        ensures { result.now ≡ self.now.bytes }
    {
        self.bytes
    }
}

/// The number of bytes of the member whose header begins at an offset, by its header.
fn read_size(file: &View<'_>, at: usize) -> Result<usize, ArFault>
    requires { at ≤ length file.now }
    ensures size { IfOk result (λ n. n ≡ size_at file.now at) }
    ensures inside { IfOk result (λ _. at + 60 ≤ length file.now) }
    ensures readable { IfOk result (λ _. is_readable file.now at ≡ true) }
    ensures small { IfOk result (λ n. n < 10 ^ 16) }
    ensures fault { IfErr result (IsFaultAt file.now at) }
{
    if file.len() - at < HEADER_SIZE {
        return Err(ArFault::Truncated);
    }
    if !equal_run(file.part(at + 58, 2), b"`\n") {
        return Err(ArFault::BadHeader);
    }
    let Some(size) = number_in(file.part(at + 48, 10)) else {
        return Err(ArFault::BadHeader);
    };
    Ok(size as usize)
}

/// Judges the byte that makes the number of a member's bytes even: a line feed after an odd number.
fn judge_pad(file: &View<'_>, end: usize, size: usize) -> Result<(), ArFault>
    requires { end ≤ length file.now }
    ensures good { IfOk result (λ _. IsPadded file.now end size) }
    ensures fault { IfErr result (IsPadFault file.now end size) }
{
    if size % 2 == 0 {
        return Ok(());
    }
    if end == file.len() {
        return Err(ArFault::Truncated);
    }
    if file.bytes()[end] != b'\n' {
        return Err(ArFault::BadHeader);
    }
    Ok(())
}

/// The member whose header begins at an offset.
fn read_member<'a>(file: &View<'a>, at: usize) -> Result<StoredMember<'a>, ArFault>
    requires { at ≤ length file.now }
    ensures member { IfOk result (λ m. m ≡ stored_member file.now at) }
    ensures readable { IfOk result (λ _. is_readable file.now at ≡ true) }
    ensures whole { IfOk result (λ _. IsWhole file.now at) }
    ensures good { IfOk result (λ _. IsGoodHeader file.now at) }
    ensures next { IfOk result (λ m. at + 60 + length m.bytes + length m.bytes % 2
        ≡ next_header file.now at) }
    ensures inside { IfOk result (λ _. next_header file.now at ≤ length file.now) }
    ensures fault { IfErr result (IsFaultAt file.now at) }
{
    let len = file.len();
    let size = read_size(file, at)?;
    let begin = at + HEADER_SIZE;
    if size > len - begin {
        return Err(ArFault::Truncated);
    }
    judge_pad(file, begin + size, size)?;
    Ok(StoredMember {
        offset: at,
        name: file.part(at, 16),
        bytes: file.part(begin, size),
    })
}

/// All members of a file that begins as an archive, in its order.
pub fn read_members<'a>(alloc: Global, file: &View<'a>) -> Result<Vec<StoredMember<'a>>, ArFault>
    requires magic { HasMagic file.now }
    requires small { length file.now < 2 ^ 32 }
    ensures passed { IfOk result (λ v. IsPassed file.now v.items) }
    ensures fault { IfErr result (ArFaultStands file.now) }
{
    let mut members = Vec::new(alloc);
    let mut at = 8;
    while at < file.len() {
        let member = read_member(file, at)?;
        let size = member.bytes().len();
        at = at + HEADER_SIZE + size + size % 2;
        members.push(member)?;
    }
    Ok(members)
}
