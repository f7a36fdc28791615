//! Names of members that are at fault: an index that isn't the first member, and what is no name.
ghost use Rattle.std.specs.Prelude.{◌≡◌, ◌↔◌, ◌≤◌, ◌+◌, codes, drop, length, take, IsTrue, SomeIff};
ghost use Rattle.byteview.specs.Numbers.{part};
ghost use Rattle.elf_model.specs.Inputs.ArchiveFile as archive;
ghost use Rattle.elf_model.specs.Inputs.ArchiveFile.{IsShortName, stored_member};
ghost use Rattle.ar_index.specs.Reading.{IsLongNameField};
ghost use Rattle.std.specs.Str.{bytes_eq};
ghost use Rattle.bad_members.specs.BadMembers.{IsMisnamed, IsNameless, named};

use crate::fields::{are_spaces, number_in};
use byteview::{View, equal_run};
use elf_model::ArFault;

/// How many bytes a member's name field has (ar(5), struct ar_hdr).
const NAME_SIZE: usize = 16;

fn is(field: &[u8], name: &[u8]) -> bool
    ensures { result ≡ bytes_eq field.now name.now }
{
    field == name
}

/// Whether a name field is that of a symbol index, with numbers of 4 bytes or of 8.
#[tactic(auto, unfolding(elf_model::specs::Inputs::ArchiveFile::padded))]
fn is_index(name: &[u8]) -> bool
    ensures { result ≡ archive.is_index (named name.now) }
{
    is(name, b"/               ") || is(name, b"/SYM64/         ")
}

/// Whether a name field is that of the long names.
#[tactic(auto, unfolding(elf_model::specs::Inputs::ArchiveFile::padded))]
fn is_long_names(name: &[u8]) -> bool
    ensures { result ≡ archive.is_long_names (named name.now) }
{
    is(name, b"//              ")
}

/// How many bytes are before the first slash; all, where there is none.
fn slash_at(name: &[u8]) -> usize
    ensures value { result ≡ archive.slash_at name.now }
    ensures within { result ≤ length name.now }
{
    name.iter().take_while(|b| **b != b'/').count()
}

/// Whether a name field holds a short name.
fn is_short_name(name: &[u8]) -> bool
    ensures { IsTrue result ↔ IsShortName name.now }
{
    let slash = slash_at(name);
    if slash == 0 || slash == name.len() {
        return false;
    }
    let (_name_and_slash, rest) = name.split_at(slash + 1);
    are_spaces(rest)
}

/// The offset of a long name's text; None where a name field holds no long name.
fn long_name_offset(name: &[u8]) -> Option<u64>
    requires { length name.now ≤ 16 }
    ensures { SomeIff result (IsLongNameField name.now) (archive.number (drop 1 name.now)) }
{
    let (slash, rest) = name.split_at_checked(1)?;
    if !equal_run(slash, b"/") {
        return None;
    }
    number_in(rest)
}

/// The name field of the member whose header is at an offset.
fn name_field<'a>(file: &View<'a>, at: usize) -> &'a [u8]
    requires { at + 60 ≤ length file.now }
    ensures name { result.now ≡ (stored_member file.now at).name }
    ensures len { length result.now ≤ 16 }
{
    file.part(at, NAME_SIZE)
}

/// Whether the member whose header is at an offset has no name.
fn is_nameless(file: &View<'_>, at: usize) -> bool
    requires { at + 60 ≤ length file.now }
    ensures { IsTrue result → IsNameless (stored_member file.now at) }
{
    let name = name_field(file, at);
    if is_index(name) || is_long_names(name) {
        return false;
    }
    if is_short_name(name) {
        return false;
    }
    long_name_offset(name).is_none()
}

/// Whether the name of the member whose header is at an offset is at fault: it is a second index, or no name.
pub fn is_misnamed(file: &View<'_>, at: usize, fault: ArFault) -> bool
    requires { at + 60 ≤ length file.now }
    ensures { IsTrue result → IsMisnamed file.now at fault }
{
    match fault {
        ArFault::BadIndex if at > 8 => is_index(name_field(file, at)),
        ArFault::BadName => is_nameless(file, at),
        _ => false,
    }
}
