//! Which groups of an object are lawful.
ghost use Rattle.std.specs.Prelude.{◌≡◌, ◌↔◌, ◌<◌, All, AllPairs, IfErr, IfOk, IsTrue, OnOk};
ghost use Rattle.elf_model.specs.Link.Groups.{AreLawfulGroups, GroupFaultStands, HasKnownFlags, HasNamedSignature, ShareNoSection, is_comdat};

use crate::marks::{are_unmarked, mark};
use elf_model::{GRP_COMDAT, GroupFault};
use elf_read::Group;
use std::alloc::{AllocError, Global};

/// Judges the groups of an object, which has `count` sections.
///
/// # Errors
///
/// `GroupFault` says what stands against the groups.
pub fn judge(alloc: Global, groups: &[Group<'_>], count: usize) -> Result<(), GroupFault>
    requires { All (λ g. All (λ k. k < count) g.members) groups.now }
    ensures lawful { OnOk result (AreLawfulGroups groups.now) }
    ensures fault { IfErr result (GroupFaultStands groups.now) }
{
    if !have_known_flags(groups) {
        return Err(GroupFault::BadFlags);
    }
    if !are_named(groups) {
        return Err(GroupFault::NamelessSignature);
    }
    if !share_no_section(alloc, groups, count)? {
        return Err(GroupFault::TwoGroups);
    }
    Ok(())
}

/// Whether a group has the flag GRP_COMDAT alone.
pub fn is_comdat(group: &Group<'_>) -> bool
    ensures { result ≡ is_comdat group.now }
{
    group.flags() == GRP_COMDAT
}

fn have_known_flags(groups: &[Group<'_>]) -> bool
    ensures { IsTrue result ↔ All HasKnownFlags groups.now }
{
    groups.iter().all(|group| has_known_flags(group))
}

fn are_named(groups: &[Group<'_>]) -> bool
    ensures { IsTrue result ↔ All HasNamedSignature groups.now }
{
    groups.iter().all(|group| is_named(group))
}

fn has_known_flags(group: &Group<'_>) -> bool
    ensures { IsTrue result ↔ HasKnownFlags group.now }
{
    group.flags() == 0 || is_comdat(group)
}

fn is_named(group: &Group<'_>) -> bool
    ensures { IsTrue result ↔ HasNamedSignature group.now }
{
    !is_comdat(group) || !group.signature().is_empty()
}

/// Whether no section is a member of two of the groups, whose members are below `count`.
fn share_no_section(alloc: Global, groups: &[Group<'_>], count: usize) -> Result<bool, AllocError>
    requires { All (λ g. All (λ k. k < count) g.members) groups.now }
    ensures { IfOk result (λ b. IsTrue b ↔ AllPairs ShareNoSection groups.now) }
{
    let mut marks = vec![in alloc; false; count]?;
    for group in groups {
        if !are_unmarked(&marks, group.members()) {
            return Ok(false);
        }
        mark(&mut marks, group.members());
    }
    Ok(true)
}
