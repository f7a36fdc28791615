//! What stands for the sections that are dropped with their groups: a table for each object, by the numbers of its sections.
ghost use Rattle.std.specs.Prelude.{◌≡◌, ℕ, IfOk, List, None, OnOk, Some, cond, nat_eq, true};
ghost use Rattle.std.specs.BTreeMap.{get};
ghost use Rattle.std.specs.List.{list_any};
ghost use Rattle.std.specs.Option.{option_and_then, option_or};
ghost use Rattle.std.specs.Ordering.{nat_cmp};
ghost use Rattle.elf_model.specs.Link.Loading.{is_dropped};
ghost use Rattle.search.specs.Views.{loaded_view, loaded_views};
ghost use Rattle.debug_image.specs.KeptGroups as spec;
ghost use Rattle.debug_image.specs.KeptTables as tables;

use crate::kept_groups::{KeptGroup, KeptGroups, is_comdat, kept_of, key_of};
use elf_model::SectionRef;
use elf_read::Group;
use search::LoadedObject;
use std::alloc::{AllocError, Global};
use std::collections::BTreeMap;

/// What stands for the dropped sections of an object, by their numbers; None where nothing does.
pub type StandIns = BTreeMap<u64, Option<SectionRef>>;

/// The member of a kept group that stands for section `n` of an object; None without one.
fn member_for<'a>(
    kept: &KeptGroups<'a>,
    found: &Option<KeptGroup>,
    loaded: &LoadedObject<'a>,
    n: usize,
) -> Option<SectionRef>
    ensures { (seen : List spec.ObjectGroup) (a : tables.AreKept seen kept.now)
        → result
        ≡ option_and_then (spec.member_like (loaded_view loaded.now) n)
        (tables.kept_found a found.now) }
{
    match found {
        Some(group) => kept.members.get(&key_of(group.number, loaded, n)).copied(),
        None => None,
    }
}

/// Adds what stands for section `n` of an object, where that is dropped and isn't there.
fn add_stand_in<'a>(
    table: &mut StandIns,
    kept: &KeptGroups<'a>,
    found: &Option<KeptGroup>,
    loaded: &LoadedObject<'a>,
    n: usize,
) -> Result<(), AllocError>
    ensures { OnOk result ((seen : List spec.ObjectGroup) (a : tables.AreKept seen kept.now)
        (m : ℕ) → is_dropped (loaded_view loaded.now) m ≡ true
        → get nat_cmp table.new m
        ≡ option_or (get nat_cmp table.old m)
        (cond (nat_eq m n) (Some (option_and_then (spec.member_like (loaded_view loaded.now) m)
        (tables.kept_found a found.now))) None)) }
{
    let number = n as u64;
    if !loaded.is_dropped(n) {
        return Ok(());
    }
    if table.contains_key(&number) {
        return Ok(());
    }
    table.insert(number, member_for(kept, found, loaded, n))?;
    Ok(())
}

/// Adds what stands for the dropped members of a COMDAT group, whose kept group was found.
fn add_members<'a>(
    table: &mut StandIns,
    kept: &KeptGroups<'a>,
    found: &Option<KeptGroup>,
    loaded: &LoadedObject<'a>,
    members: &[u32],
) -> Result<(), AllocError>
    ensures { OnOk result ((seen : List spec.ObjectGroup) (a : tables.AreKept seen kept.now)
        (m : ℕ) → is_dropped (loaded_view loaded.now) m ≡ true
        → get nat_cmp table.new m
        ≡ option_or (get nat_cmp table.old m)
        (cond (list_any (nat_eq m) members.now)
        (Some (option_and_then (spec.member_like (loaded_view loaded.now) m)
        (tables.kept_found a found.now))) None)) }
{
    for member in members {
        add_stand_in(table, kept, found, loaded, *member as usize)?;
    }
    Ok(())
}

/// Adds what stands for the dropped members of a group.
fn add_group<'a>(
    table: &mut StandIns,
    kept: &KeptGroups<'a>,
    loaded: &LoadedObject<'a>,
    group: &Group<'a>,
) -> Result<(), AllocError>
    ensures { OnOk result ((seen : List spec.ObjectGroup) → tables.AreKept seen kept.now
        → (m : ℕ) → is_dropped (loaded_view loaded.now) m ≡ true
        → get nat_cmp table.new m
        ≡ option_or (get nat_cmp table.old m) (cond (spec.lists m group.now)
        (Some (spec.stand_in_among seen (loaded_view loaded.now) m group.now)) None)) }
{
    if !is_comdat(group) {
        return Ok(());
    }
    let found = kept_of(kept, group);
    add_members(table, kept, &found, loaded, group.members())?;
    Ok(())
}

/// What stands for the dropped sections of an object.
fn stand_ins_of<'a>(
    alloc: Global,
    kept: &KeptGroups<'a>,
    loaded: &LoadedObject<'a>,
) -> Result<StandIns, AllocError>
    ensures { IfOk result (λ t. (seen : List spec.ObjectGroup) → tables.AreKept seen kept.now
        → (m : ℕ) → is_dropped (loaded_view loaded.now) m ≡ true
        → tables.stand_in_at t m
        ≡ option_and_then (spec.stand_in_among seen (loaded_view loaded.now) m)
        (spec.group_of (loaded_view loaded.now) m)) }
{
    let mut table = BTreeMap::new(alloc);
    for group in loaded.object.groups() {
        add_group(&mut table, kept, loaded, group)?;
    }
    Ok(table)
}

/// What stands for the dropped sections of objects, a table for each.
pub fn stand_ins<'a>(
    alloc: Global,
    kept: &KeptGroups<'a>,
    objects: &[LoadedObject<'a>],
) -> Result<Vec<StandIns>, AllocError>
    requires { tables.AreKept (spec.groups_from 0 (loaded_views objects.now)) kept.now }
    ensures { IfOk result (λ v. tables.AreStandIns (loaded_views objects.now) v.items) }
{
    let mut tables = Vec::new(alloc);
    for loaded in objects {
        tables.push(stand_ins_of(alloc, kept, loaded)?)?;
    }
    Ok(tables)
}
