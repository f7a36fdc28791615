//! The kept groups of COMDAT groups, found by their signatures, and the members of each, found by their sizes and names. Each
//! signature and each name is hashed once, from the seed of the link.
ghost use Rattle.std.specs.Prelude.{◌≡◌, ◌++◌, ◌∷◌, [], IfOk, List, None, OnOk, Some, cond, option_map};
ghost use Rattle.std.specs.Option.{option_or};
ghost use Rattle.indexmap.specs.IndexMap.{get};
ghost use Rattle.elf_model.specs.Link.Groups as link_groups;
ghost use Rattle.search.specs.Views.{loaded_view, loaded_views};
ghost use Rattle.debug_image.specs.KeptGroups as spec;
ghost use Rattle.debug_image.specs.KeptTables as tables;
ghost use Rattle.debug_image.specs.ObjectSections.{header_in, name_in, section_ref};

use crate::debug_sections::name_of;
use elf_model::{GRP_COMDAT, Name, NameSeed, ObjectId, SectionRef};
use elf_read::Group;
use indexmap::IndexMap;
use search::LoadedObject;
use std::alloc::{AllocError, Global};

/// A kept group: its number among the kept ones, and that of its object.
#[derive(Clone, Copy, Debug)]
pub struct KeptGroup {
    pub number: usize,
    pub object: u64,
}

/// What a member of a kept group is found by.
#[derive(Clone, Copy, Debug, PartialEq, Eq, Hash)]
pub struct MemberKey<'a> {
    pub group: usize,
    pub size: u64,
    pub name: Name<'a>,
}

/// The kept groups by their signatures, and their members.
#[derive(Drop)]
pub struct KeptGroups<'a> {
    pub groups: IndexMap<Name<'a>, KeptGroup, NameSeed>,
    pub members: IndexMap<MemberKey<'a>, SectionRef, NameSeed>,
}

/// Whether a group is a COMDAT one.
pub fn is_comdat(group: &Group<'_>) -> bool
    ensures { result ≡ link_groups.is_comdat group.now }
{
    group.flags() == GRP_COMDAT
}

/// What section `n` of an object is found by among the members of a kept group.
pub fn key_of<'a>(group: usize, loaded: &LoadedObject<'a>, n: usize) -> MemberKey<'a>
    ensures group { result.group ≡ group }
    ensures size { result.size ≡ (header_in (loaded_view loaded.now) n).sh_size }
    ensures name { result.name.0.now ≡ name_in (loaded_view loaded.now) n }
{
    MemberKey {
        group,
        size: loaded.object.section(n).sh_size,
        name: Name(name_of(loaded, n)),
    }
}

/// Adds member `n` of kept group `group`, of object `number`, where none of its size and name is there.
fn add_member<'a>(
    members: &mut IndexMap<MemberKey<'a>, SectionRef, NameSeed>,
    group: usize,
    number: u64,
    loaded: &LoadedObject<'a>,
    n: usize,
) -> Result<(), AllocError>
    ensures { OnOk result ((key : MemberKey) → get tables.key_eq members.new key
        ≡ option_or (get tables.key_eq members.old key)
        (cond (tables.is_key_of group (loaded_view loaded.now) n key)
        (Some (section_ref number n)) None)) }
{
    let key = key_of(group, loaded, n);
    if members.get(&key).is_some() {
        return Ok(());
    }
    members.insert(
        key,
        SectionRef {
            object: ObjectId(number),
            section: n as u64,
        },
    )?;
    Ok(())
}

/// Adds the members of kept group `group`, of object `number`.
fn add_members<'a>(
    members: &mut IndexMap<MemberKey<'a>, SectionRef, NameSeed>,
    group: usize,
    number: u64,
    loaded: &LoadedObject<'a>,
    listed: &[u32],
) -> Result<(), AllocError>
    ensures { OnOk result ((key : MemberKey) → get tables.key_eq members.new key
        ≡ tables.member_behind members.old group number (loaded_view loaded.now) listed.now key) }
{
    for member in listed {
        add_member(members, group, number, loaded, *member as usize)?;
    }
    Ok(())
}

/// Adds a group of object `number`, where it is the first COMDAT one of its signature.
fn add_group<'a>(
    kept: &mut KeptGroups<'a>,
    number: u64,
    loaded: &LoadedObject<'a>,
    group: &Group<'a>,
) -> Result<(), AllocError>
    ensures { OnOk result ((seen : List spec.ObjectGroup) → tables.AreKept seen kept.old
        → tables.AreKept
        (seen ++ spec.group_in number (loaded_view loaded.now) group.now ∷ []) kept.new) }
{
    if !is_comdat(group) {
        return Ok(());
    }
    let signature = Name(group.signature());
    if kept.groups.get(&signature).is_some() {
        return Ok(());
    }
    let count = kept.groups.len();
    kept.groups.insert(
        signature,
        KeptGroup {
            number: count,
            object: number,
        },
    )?;
    add_members(&mut kept.members, count, number, loaded, group.members())?;
    Ok(())
}

/// Adds the groups of object `number`.
fn add_groups<'a>(
    kept: &mut KeptGroups<'a>,
    number: u64,
    loaded: &LoadedObject<'a>,
) -> Result<(), AllocError>
    ensures { OnOk result ((seen : List spec.ObjectGroup) → tables.AreKept seen kept.old
        → tables.AreKept (seen ++ spec.groups_in number (loaded_view loaded.now)) kept.new) }
{
    for group in loaded.object.groups() {
        add_group(kept, number, loaded, group)?;
    }
    Ok(())
}

/// The kept groups of objects; signatures and names are hashed from a seed.
pub fn kept_groups<'a>(
    alloc: Global,
    seed: NameSeed,
    objects: &[LoadedObject<'a>],
) -> Result<KeptGroups<'a>, AllocError>
    ensures { IfOk result (tables.AreKept (spec.groups_from 0 (loaded_views objects.now))) }
{
    let mut kept = KeptGroups {
        groups: IndexMap::with_hasher(alloc, seed),
        members: IndexMap::with_hasher(alloc, seed),
    };
    for (k, loaded) in objects.iter().enumerate() {
        add_groups(&mut kept, k as u64, loaded)?;
    }
    Ok(kept)
}

/// The kept group of a group's signature.
pub fn kept_of(kept: &KeptGroups<'_>, group: &Group<'_>) -> Option<KeptGroup>
    ensures found { (seen : List spec.ObjectGroup) (a : tables.AreKept seen kept.now)
        → tables.kept_found a result ≡ spec.kept_among seen group.now.signature }
    ensures object { (seen : List spec.ObjectGroup) → tables.AreKept seen kept.now
        → option_map (λ r. r.object) result
        ≡ option_map (λ g. g.object) (spec.kept_among seen group.now.signature) }
{
    kept.groups.get(&Name(group.signature())).copied()
}
