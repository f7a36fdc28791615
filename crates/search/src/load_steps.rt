//! The whole command: its items in order, groups of archives as one.
ghost use Rattle.std.specs.Prelude.{◌≡◌, IfErr, IfOk, List, OnOk, [], drop, length, ◌≤◌, ◌<◌};
ghost use Rattle.std.specs.List.{prefix_len};
ghost use Rattle.elf_model.specs.Inputs.Command as command;
ghost use Rattle.elf_model.specs.Inputs.Files.{File, files_of};
ghost use Rattle.elf_model.specs.Link.Loading.{AreObjects, HaveLawfulGroups, LoadedObject, Single, group_of, loaded_objects, loaded_step, loaded_steps, steps};
ghost use Rattle.elf_model.specs.Link.LoadingRules.{FollowsRules};
ghost use Rattle.elf_model.specs.Inputs.Opening.{AreArchives, AreFilesThere, HaveIndexes, opened};
ghost use Rattle.opening.specs.Faults.{ReadsBadly};
ghost use Rattle.opening.specs.Held.{AreSearched, held_files};
ghost use Rattle.search.specs.Faults.{FailsOn, IsRefusedIn, IsRefusedOf, LoadFails};
ghost use Rattle.search.specs.Loaders.{IsLater, Knows, loaded};
ghost use Rattle.search.specs.Loads.{AreDroppedInOrder};
ghost use Rattle.opening.specs.Steps.{in_group};
ghost use Rattle.search.specs.Views.{loaded_views};
ghost use Rattle.symbols.specs.Rows.{no_rows};

use crate::faults::SearchFault;
use crate::loaded::Loaded;
use crate::loader::{Loader, Reached, RefusedObject};
use crate::names::{NameNumbers, NameSet};
use crate::rounds::{run_round, run_rounds};
use crate::waits::Waits;
use ar_index::PartFile;
use command::Plan;
use elf_model::{InputFile, NameSeed};
use opening::{Input, OpenFault, inputs_of, inputs_of_parts};
use std::alloc::{AllocError, Global};
use std::slice;
use symbols::NameTable;

/// The number of an archive's group; None of one that is in none, and of an object.
fn group_of(input: &Input<'_>) -> Option<u64>
    ensures { result ≡ group_of input.now }
{
    let item = input.item();
    if item.archive { item.group } else { None }
}

/// Whether an input is an archive of a group.
fn is_in_group(input: &Input<'_>, group: u64) -> bool
    ensures { result ≡ in_group group input.now }
{
    match group_of(input) {
        Some(other) => other == group,
        None => false,
    }
}

/// How many of the first inputs are archives of a group.
fn run_length(inputs: &[Input<'_>], group: u64) -> usize
    ensures { result ≡ prefix_len (in_group group) inputs.now }
{
    inputs.iter().take_while(|i| is_in_group(i, group)).count()
}

/// Loads an item that is in no group.
fn load_single<'a, N: NameNumbers<'a>>(
    alloc: Global,
    loader: &mut Loader<'_, 'a, N>,
    input: &Input<'a>,
) -> Result<(), SearchFault>
    requires known { Knows N.names loader.old }
    ensures later { OnOk result (IsLater loader.old loader.new) }
    ensures known { OnOk result (Knows N.names loader.new) }
    ensures loaded { OnOk result (loaded loader.new
        ≡ loaded_step loader.old.plan.now (Single input.now) (loaded loader.old)) }
    ensures fault { IfErr result (FailsOn loader.new.reached
        (loaded_step loader.old.plan.now (Single input.now) (loaded loader.old))) }
{
    let item = input.item();
    if !item.archive {
        return loader.add(alloc, &item, 0, input.object_bytes());
    }
    let alone = slice::from_ref(input);
    let mut waits = Waits::new(alloc, loader, alone)?;
    run_round(alloc, loader, &mut waits, alone)
}

/// Loads the first step of inputs, and answers how many these are.
fn load_step<'a, N: NameNumbers<'a>>(
    alloc: Global,
    loader: &mut Loader<'_, 'a, N>,
    inputs: &[Input<'a>],
) -> Result<usize, SearchFault>
    requires known { Knows N.names loader.old }
    requires some { 0 < length inputs.now }
    ensures later { OnOk result (IsLater loader.old loader.new) }
    ensures known { OnOk result (Knows N.names loader.new) }
    ensures count { IfOk result (λ n. (0 < n) × (n ≤ length inputs.now)) }
    ensures loaded { IfOk result (λ n.
        loaded_steps loader.old.plan.now (steps (drop n inputs.now)) (loaded loader.new)
        ≡ loaded_steps loader.old.plan.now (steps inputs.now) (loaded loader.old)) }
    ensures fault { IfErr result (FailsOn loader.new.reached
        (loaded_steps loader.old.plan.now (steps inputs.now) (loaded loader.old))) }
{
    let Some(group) = group_of(&inputs[0]) else {
        load_single(alloc, loader, &inputs[0])?;
        return Ok(1);
    };
    let count = run_length(inputs, group);
    let (run, _rest) = inputs.split_at(count);
    run_rounds(alloc, loader, run)?;
    Ok(count)
}

/// Loads inputs, in order.
pub fn load_inputs<'a, N: NameNumbers<'a>>(
    alloc: Global,
    loader: &mut Loader<'_, 'a, N>,
    inputs: &[Input<'a>],
) -> Result<(), SearchFault>
    requires known { Knows N.names loader.old }
    ensures known { OnOk result (Knows N.names loader.new) }
    ensures loaded { OnOk result (loaded loader.new
        ≡ loaded_steps loader.old.plan.now (steps inputs.now) (loaded loader.old)) }
    ensures fault { IfErr result (FailsOn loader.new.reached
        (loaded_steps loader.old.plan.now (steps inputs.now) (loaded loader.old))) }
{
    let mut at = 0;
    while at < inputs.len() {
        let (_done, rest) = inputs.split_at(at);
        at += load_step(alloc, loader, rest)?;
    }
    Ok(())
}

/// The plan, and the objects that it loads, in load order (ld(1)).
///
/// An object item is loaded where it stands. An archive has one turn: the first entry of its index, in the
/// index's order, whose name is needed and whose member isn't loaded gives its member, again and again until
/// there is none. A name is needed where the entry, a `-u` or an undefined GLOBAL symbol of a loaded object
/// asks for it, and no loaded object defines it. A group of archives has rounds of turns until a whole round
/// takes nothing, and an archive under `--whole-archive` gives all its members at its first turn. A COMDAT
/// group whose signature a loaded object has already is dropped (System V gABI 4, "Section Groups").
///
/// Names are found by hash, from a seed: who picks the names can make them collide only where the seed is known.
///
/// Of archives that are searched the data of some members may not have been read: zeros stand for these, which are no object, so
/// that none of these members is loaded.
///
/// # Errors
///
/// FileMissing where an item has no file, before all others. BadArchive and NoIndex of an archive item, of
/// whichever; then BadObject and Group of an object that loading comes to. Memory where memory is refused.
pub fn load_parts<'a>(
    alloc: Global,
    plan: &Plan<'a>,
    parts: &'a [PartFile],
    files: &'a [InputFile],
    seed: NameSeed,
) -> Result<Loaded<'a>, SearchFault>
    requires { AreSearched parts.now plan.now }
    ensures plan { IfOk result (λ l. l.plan ≡ plan.now) }
    ensures loaded { IfOk result (λ l. l.objects
        ≡ loaded_objects (held_files parts.entry.now files.entry.now) plan.now) }
    ensures rules { OnOk result (FollowsRules (held_files parts.entry.now files.entry.now) plan.now) }
    ensures files { OnOk result (AreFilesThere (held_files parts.entry.now files.entry.now) plan.now) }
    ensures archives { OnOk result (AreArchives (opened (held_files parts.entry.now files.entry.now) plan.now)) }
    ensures indexes { OnOk result (HaveIndexes (opened (held_files parts.entry.now files.entry.now) plan.now)) }
    ensures objects { OnOk result (AreObjects
        (loaded_objects (held_files parts.entry.now files.entry.now) plan.now)) }
    ensures groups { OnOk result (HaveLawfulGroups
        (loaded_objects (held_files parts.entry.now files.entry.now) plan.now)) }
    ensures dropped { OnOk result (AreDroppedInOrder
        (loaded_objects (held_files parts.entry.now files.entry.now) plan.now)) }
    ensures fault { IfErr result (LoadFails (held_files parts.entry.now files.entry.now) plan.now) }
{
    let inputs = inputs_of_parts(alloc, plan, parts, files)?;
    let mut loader = Loader::new(alloc, plan, seed, NameSet::new(alloc, seed))?;
    match load_inputs(alloc, &mut loader, &inputs) {
        Ok(()) => {
            let (objects, names) = loader.into_parts();
            let loaded = Loaded::new(alloc, plan, objects, names)?;
            Ok(loaded)
        }
        Err(fault) => {
            drop(loader);
            Err(fault)
        }
    }
}

/// The plan, and the objects that it loads, in load order (ld(1)).
///
/// As `load_parts`, of files that were read whole.
///
/// # Errors
///
/// As `load_parts`.
pub fn load_seeded<'a>(
    alloc: Global,
    plan: &Plan<'a>,
    files: &'a [InputFile],
    seed: NameSeed,
) -> Result<Loaded<'a>, SearchFault>
    ensures plan { IfOk result (λ l. l.plan ≡ plan.now) }
    ensures loaded { IfOk result (λ l. l.objects
        ≡ loaded_objects (files_of files.entry.now) plan.now) }
    ensures rules { OnOk result (FollowsRules (files_of files.entry.now) plan.now) }
    ensures files { OnOk result (AreFilesThere (files_of files.entry.now) plan.now) }
    ensures archives { OnOk result (AreArchives (opened (files_of files.entry.now) plan.now)) }
    ensures indexes { OnOk result (HaveIndexes (opened (files_of files.entry.now) plan.now)) }
    ensures objects { OnOk result (AreObjects
        (loaded_objects (files_of files.entry.now) plan.now)) }
    ensures groups { OnOk result (HaveLawfulGroups
        (loaded_objects (files_of files.entry.now) plan.now)) }
    ensures dropped { OnOk result (AreDroppedInOrder
        (loaded_objects (files_of files.entry.now) plan.now)) }
    ensures fault { IfErr result (LoadFails (files_of files.entry.now) plan.now) }
{
    load_parts(alloc, plan, &[], files, seed)
}

/// The object that loading has come to, where it can't be loaded, and why.
fn refused_at<'a>(
    reached: Option<Reached<'a>>,
    fault: SearchFault,
) -> Result<Option<RefusedObject<'a>>, AllocError>
    ensures { (objects : List LoadedObject) →
        FailsOn reached.entry objects fault → IfOk result (IsRefusedOf objects) }
{
    if let SearchFault::Memory = fault {
        return Err(AllocError);
    }
    match reached {
        Some(at) => Ok(Some(RefusedObject { at, fault })),
        None => Ok(None),
    }
}

/// The first object of inputs at which loading stops, and why; None where all are loaded.
fn first_refused<'a>(
    alloc: Global,
    plan: &Plan<'a>,
    inputs: &[Input<'a>],
) -> Result<Option<RefusedObject<'a>>, AllocError>
    ensures { IfOk result (IsRefusedOf (loaded_steps plan.now (steps inputs.now) [])) }
{
    let seed = NameSeed::fixed();
    let mut loader = Loader::new(alloc, plan, seed, NameSet::new(alloc, seed))?;
    match load_inputs(alloc, &mut loader, inputs) {
        Ok(()) => Ok(None),
        Err(fault) => refused_at(loader.reached(), fault),
    }
}

/// That loading comes to no object where items can't be read.
fn none_reached<'a>(fault: OpenFault) -> Result<Option<RefusedObject<'a>>, AllocError>
    ensures { (files : List File) (plan : command.Plan) →
        ReadsBadly files plan fault → IfOk result (IsRefusedIn files plan) }
{
    match fault {
        OpenFault::Memory => Err(AllocError),
        _ => Ok(None),
    }
}

/// The object of a plan at which loading stops, the first that is refused, and why; None where its items are refused, or all is
/// loaded.
///
/// # Errors
///
/// Only where memory is refused.
pub fn refused_object<'a>(
    alloc: Global,
    plan: &Plan<'a>,
    files: &'a [InputFile],
) -> Result<Option<RefusedObject<'a>>, AllocError>
    ensures { IfOk result (IsRefusedIn (files_of files.entry.now) plan.now) }
{
    match inputs_of(alloc, plan, files) {
        Ok(inputs) => first_refused(alloc, plan, &inputs),
        Err(fault) => none_reached(fault),
    }
}

/// The plan, and the objects that it loads, in load order (ld(1)).
///
/// As `load_seeded`, with a seed that is always the same. Numbers of names leave the table nothing to do; it is used up.
///
/// # Errors
///
/// As `load_seeded`.
pub fn load_in<'a, T: NameTable<'a> + Drop>(
    alloc: Global,
    plan: &Plan<'a>,
    files: &'a [InputFile],
    _table: T,
) -> Result<Loaded<'a>, SearchFault>
    requires { T.rows _table ≡ no_rows }
    ensures plan { IfOk result (λ l. l.plan ≡ plan.now) }
    ensures loaded { IfOk result (λ l. l.objects
        ≡ loaded_objects (files_of files.entry.now) plan.now) }
    ensures rules { OnOk result (FollowsRules (files_of files.entry.now) plan.now) }
    ensures files { OnOk result (AreFilesThere (files_of files.entry.now) plan.now) }
    ensures archives { OnOk result (AreArchives (opened (files_of files.entry.now) plan.now)) }
    ensures indexes { OnOk result (HaveIndexes (opened (files_of files.entry.now) plan.now)) }
    ensures objects { OnOk result (AreObjects
        (loaded_objects (files_of files.entry.now) plan.now)) }
    ensures groups { OnOk result (HaveLawfulGroups
        (loaded_objects (files_of files.entry.now) plan.now)) }
    ensures dropped { OnOk result (AreDroppedInOrder
        (loaded_objects (files_of files.entry.now) plan.now)) }
    ensures fault { IfErr result (LoadFails (files_of files.entry.now) plan.now) }
{
    load_seeded(alloc, plan, files, NameSeed::fixed())
}

/// The plan, and the objects that it loads, in load order (ld(1)).
///
/// As `load_seeded`, with a seed that is always the same.
///
/// # Errors
///
/// FileMissing where an item has no file, before all others. BadArchive and NoIndex of an archive item, of
/// whichever; then BadObject and Group of an object that loading comes to. Memory where memory is refused.
pub fn load<'a>(
    alloc: Global,
    plan: &Plan<'a>,
    files: &'a [InputFile],
) -> Result<Loaded<'a>, SearchFault>
    ensures plan { IfOk result (λ l. l.plan ≡ plan.now) }
    ensures loaded { IfOk result (λ l. l.objects
        ≡ loaded_objects (files_of files.entry.now) plan.now) }
    ensures rules { OnOk result (FollowsRules (files_of files.entry.now) plan.now) }
    ensures files { OnOk result (AreFilesThere (files_of files.entry.now) plan.now) }
    ensures archives { OnOk result (AreArchives (opened (files_of files.entry.now) plan.now)) }
    ensures indexes { OnOk result (HaveIndexes (opened (files_of files.entry.now) plan.now)) }
    ensures objects { OnOk result (AreObjects
        (loaded_objects (files_of files.entry.now) plan.now)) }
    ensures groups { OnOk result (HaveLawfulGroups
        (loaded_objects (files_of files.entry.now) plan.now)) }
    ensures dropped { OnOk result (AreDroppedInOrder
        (loaded_objects (files_of files.entry.now) plan.now)) }
    ensures fault { IfErr result (LoadFails (files_of files.entry.now) plan.now) }
{
    load_seeded(alloc, plan, files, NameSeed::fixed())
}
