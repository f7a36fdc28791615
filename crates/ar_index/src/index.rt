//! The symbol index: names, and the members that define them (ar(5)).
ghost use Rattle.std.specs.Prelude.{◌≡◌, ◌⊎◌, ◌↔◌, ◌≤◌, ◌<◌, ◌+◌, ◌*◌, ◌^◌, ℕ, List, [], All, drop, length, option_map, IfErr, IfOk, IfSome, IsSome, IsTrue, SomeIff, unwrap_or};
ghost use Rattle.byteview.specs.Numbers.{HasText, IsInside, be_at, text};
ghost use Rattle.elf_model.specs.Inputs.ArchiveFile as archive;
ghost use Rattle.elf_model.specs.Inputs.ArchiveFile.{AreTexts, HasIndexData, IsIndexData, IsIndexFirst, after_text};
ghost use Rattle.ar_index.specs.Reading.{AreAscending, HasNumbers, IsIndexFault};

use crate::members::{Member, data_at};
use crate::names::{is_index, is_wide_index};
use crate::stored_members::StoredMember;
use byteview::{View, all_byte};
use elf_model::ArFault;
use std::alloc::Global;
use std::marker::Model;

/// An entry of an archive's symbol index.
#[derive(Drop)]
pub struct IndexEntry<'a> {
    name: &'a [u8],
    offset: u64,
}

impl<'a> Model for IndexEntry<'a> {
    ghost use Rattle.elf_model.specs.Inputs.ArchiveFile.{IndexEntry};

    ghost Value = { IndexEntry };

    ghost view = { λ e. record { name = e.name.now; offset = e.offset } };
}

impl<'a> IndexEntry<'a> {
    /// The symbol's name, which may be empty.
    pub fn name(&self) -> &'a [u8]
        ensures { result.now ≡ self.now.name }
    {
        self.name
    }

    /// The offset of the header of the member that defines the symbol.
    pub fn offset(&self) -> u64
        ensures { result ≡ self.now.offset }
    {
        self.offset
    }
}

/// The number of 4 or of 8 bytes at an offset; None where it runs past the end.
fn number_at(bytes: &View<'_>, width: usize, at: usize) -> Option<u64>
    requires { (width ≡ 4) ⊎ (width ≡ 8) }
    ensures { SomeIff result (IsInside bytes.now at width) (be_at width bytes.now at) }
{
    if width == 8 {
        return bytes.u64be(at);
    }
    Some(u64::from(bytes.u32be(at)?))
}

/// How many entries an index has; None where it hasn't a number for each.
fn entry_count(index: &View<'_>, width: usize) -> Option<usize>
    requires { (width ≡ 4) ⊎ (width ≡ 8) }
    ensures { SomeIff result (HasNumbers width index.now) (archive.entry_count width index.now) }
{
    let count = number_at(index, width, 0)? as usize;
    if count > (index.len() - width) / width {
        return None;
    }
    Some(count)
}

/// The text at the beginning of strings, and what follows the NUL that ends it.
fn first_text(strings: &[u8]) -> Option<(&[u8], &[u8])>
    ensures { SomeIff {T = List ℕ × List ℕ} (option_map (λ t. (t.0.now, t.1.now)) result)
        (HasText strings.now 0) (text strings.now 0, after_text strings.now) }
{
    let name = View::new(strings).text_at(0)?;
    let (_name_and_nul, rest) = strings.split_at(name.len() + 1);
    Some((name, rest))
}

/// The entries of an index, which has a number for each.
fn read_entries<'a>(
    alloc: Global,
    index: &View<'a>,
    width: usize,
    count: usize,
) -> Result<Vec<IndexEntry<'a>>, ArFault>
    requires width { (width ≡ 4) ⊎ (width ≡ 8) }
    requires count { count ≡ archive.entry_count width index.now }
    requires numbers { width + width * count ≤ length index.now }
    ensures entries { IfOk result (λ v. v.items ≡ archive.index_entries width index.now) }
    ensures texts { IfOk result (λ _. AreTexts count (archive.index_strings width index.now)) }
    ensures fault { IfErr result (IsIndexFault
        (AreTexts count (archive.index_strings width index.now))) }
{
    let mut entries = Vec::with_capacity(alloc, count)?;
    let (_numbers, strings) = index.bytes().split_at(width + width * count);
    let mut rest = strings;
    for i in 0..count {
        let Some(offset) = number_at(index, width, width + width * i) else {
            unreachable!()
        };
        let Some((name, after)) = first_text(rest) else {
            return Err(ArFault::BadIndex);
        };
        entries.push(IndexEntry { name, offset })?;
        rest = after;
    }
    if !all_byte(rest, 0) {
        return Err(ArFault::BadIndex);
    }
    Ok(entries)
}

/// The entries of a member that is an index.
fn read_data<'a>(alloc: Global, member: &StoredMember<'a>) -> Result<Vec<IndexEntry<'a>>, ArFault>
    ensures entries { IfOk result (λ v. v.items
        ≡ archive.index_entries (archive.width_of member.now) member.now.bytes) }
    ensures form { IfOk result (λ _. IsIndexData (archive.width_of member.now) member.now.bytes) }
    ensures fault { IfErr result (IsIndexFault
        (IsIndexData (archive.width_of member.now) member.now.bytes)) }
{
    let width = if is_wide_index(member) { 8 } else { 4 };
    let index = View::new(member.bytes());
    let Some(count) = entry_count(&index, width) else {
        return Err(ArFault::BadIndex);
    };
    read_entries(alloc, &index, width, count)
}

/// The index of an archive, where its first member is one.
pub fn read_index<'a>(
    alloc: Global,
    stored: &[StoredMember<'a>],
) -> Result<Option<Vec<IndexEntry<'a>>>, ArFault>
    ensures index { IfOk result (λ o. option_map (λ v. v.items) o ≡ archive.index_in stored.now) }
    ensures form { IfOk result (λ _. HasIndexData stored.now) }
    ensures fault { IfErr result (IsIndexFault (HasIndexData stored.now)) }
{
    let Some(first) = stored.first() else {
        return Ok(None);
    };
    if !is_index(first) {
        return Ok(None);
    }
    Ok(Some(read_data(alloc, first)?))
}

/// Whether no member but the first is an index.
pub fn is_index_first(stored: &[StoredMember<'_>]) -> bool
    ensures { IsTrue result ↔ IsIndexFirst stored.now }
{
    match stored.split_first() {
        Some((_first, others)) => others.iter().all(|m| !is_index(m)),
        None => true,
    }
}

/// Whether every entry names one of the members, which stand by offset. Those that name the same one mostly follow each other,
/// and it is looked up once for them.
fn are_of_members(members: &[Member<'_>], entries: &[IndexEntry<'_>]) -> bool
    requires { AreAscending members.now }
    ensures { IsTrue result ↔ All (λ e. IsSome (archive.data_of members.now e.offset)) entries.now }
{
    let mut known = None;
    for entry in entries {
        let offset = entry.offset();
        if known == Some(offset) {
            continue;
        }
        if data_at(members, offset).is_none() {
            return false;
        }
        known = Some(offset);
    }
    true
}

/// Whether every entry of the index, where there is one, names one of the members, which stand by offset.
pub fn names_members(index: &Option<Vec<IndexEntry<'_>>>, members: &[Member<'_>]) -> bool
    requires { AreAscending members.now }
    ensures { IsTrue result ↔ All (λ e. IsSome (archive.data_of members.now e.offset))
        (unwrap_or (option_map (λ v. v.items) index.now) []) }
{
    match index {
        Some(entries) => are_of_members(members, entries),
        None => true,
    }
}
