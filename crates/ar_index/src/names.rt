//! Names of members: the index, the long names, short names, and long names by the offset of their text.
ghost use Rattle.std.specs.Prelude.{◌≡◌, ◌↔◌, ◌≤◌, ◌<◌, ℕ, List, codes, drop, length, take, IsTrue, SomeIff};
ghost use Rattle.std.specs.Str.{bytes_eq};
ghost use Rattle.elf_model.specs.Inputs.ArchiveFile as archive;
ghost use Rattle.elf_model.specs.Inputs.ArchiveFile.{HasGoodNames, HasLongText, IsNamed, IsShortName};
ghost use Rattle.ar_index.specs.Reading.{IsLimit, IsLongNameField};

use crate::fields::{are_spaces, number_in};
use crate::stored_members::StoredMember;
use byteview::{View, equal_run};

fn has_name(member: &StoredMember<'_>, name: &[u8]) -> bool
    ensures { result ≡ bytes_eq member.now.name name.now }
{
    member.name() == name
}

/// Whether a member is the symbol index with numbers of 8 bytes.
#[tactic(auto, unfolding(elf_model::specs::Inputs::ArchiveFile::padded))]
pub fn is_wide_index(member: &StoredMember<'_>) -> bool
    ensures { result ≡ archive.is_wide_index member.now }
{
    has_name(member, b"/SYM64/         ")
}

/// Whether a member is the symbol index, with numbers of 4 bytes or of 8.
#[tactic(auto, unfolding(elf_model::specs::Inputs::ArchiveFile::padded))]
pub fn is_index(member: &StoredMember<'_>) -> bool
    ensures { result ≡ archive.is_index member.now }
{
    has_name(member, b"/               ") || is_wide_index(member)
}

/// Whether a member holds the long names.
#[tactic(auto, unfolding(elf_model::specs::Inputs::ArchiveFile::padded))]
pub fn is_long_names(member: &StoredMember<'_>) -> bool
    ensures { result ≡ archive.is_long_names member.now }
{
    has_name(member, b"//              ")
}

/// Whether a member is an ordinary one.
pub fn is_ordinary(member: &StoredMember<'_>) -> bool
    ensures { result ≡ archive.is_ordinary member.now }
{
    !(is_index(member) || is_long_names(member))
}

/// How many bytes stand before the first slash; all, where there is none.
fn slash_at(name: &[u8]) -> usize
    ensures value { result ≡ archive.slash_at name.now }
    ensures within { result ≤ length name.now }
{
    name.iter().take_while(|b| **b != b'/').count()
}

/// Whether a name field holds a short name.
fn is_short_name(name: &[u8]) -> bool
    ensures { IsTrue result ↔ IsShortName name.now }
{
    let slash = slash_at(name);
    if slash == 0 || slash == name.len() {
        return false;
    }
    let (_name_and_slash, rest) = name.split_at(slash + 1);
    are_spaces(rest)
}

/// The offset of a long name's text; None where a name field holds no long name.
fn long_name_offset(name: &[u8]) -> Option<u64>
    requires { length name.now ≤ 16 }
    ensures { SomeIff result (IsLongNameField name.now) (archive.number (drop 1 name.now)) }
{
    let (slash, rest) = name.split_at_checked(1)?;
    if !equal_run(slash, b"/") {
        return None;
    }
    number_in(rest)
}

/// How many offsets of the long names have a text: all up to the last slash that a line feed follows.
fn text_limit(names: &[u8]) -> usize
    ensures { IsLimit names.now result }
{
    let view = View::new(names);
    let mut end = names.len();
    while end >= 2 {
        if equal_run(view.part(end - 2, 2), b"/\n") {
            return end - 1;
        }
        end -= 1;
    }
    0
}

/// Whether a member has a name, where long names begin at offsets below `limit`.
fn is_named(member: &StoredMember<'_>, limit: usize) -> bool
    ensures { (names : List ℕ) → IsLimit names limit → IsTrue result ↔ IsNamed names member.now }
{
    let name = member.name();
    if is_index(member) || is_long_names(member) || is_short_name(name) {
        return true;
    }
    match long_name_offset(name) {
        Some(offset) => (offset as usize) < limit,
        None => false,
    }
}

/// Whether the members' names are good.
pub fn have_good_names(members: &[StoredMember<'_>]) -> bool
    ensures { IsTrue result ↔ HasGoodNames members.now }
{
    let mut limit = 0;
    let mut has_long_names = false;
    for member in members {
        if !is_named(member, limit) {
            return false;
        }
        if is_long_names(member) {
            if has_long_names {
                return false;
            }
            has_long_names = true;
            limit = text_limit(member.bytes());
        }
    }
    true
}
