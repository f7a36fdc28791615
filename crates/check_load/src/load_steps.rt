//! The whole command: its items in order, groups of archives as one.
ghost use Rattle.std.specs.Prelude.{◌≡◌, ◌↔◌, [], All, IfErr, IfOk, IfSome, IsSome, OnOk, drop, length, ◌≤◌, ◌<◌};
ghost use Rattle.std.specs.List.{prefix_len};
ghost use Rattle.elf_model.specs.Inputs.Files.{files_of};
ghost use Rattle.elf_model.specs.Link.Loading.{Single, group_of, loaded_objects, loaded_step, loaded_steps, steps};
ghost use Rattle.check_load.specs.Loaders.{AreLoadable, Knows, loaded};
ghost use Rattle.check_load.specs.Numbered.{AreNumbered};
ghost use Rattle.check_load.specs.Places.{IsAt};
ghost use Rattle.check_load.specs.Plans.{CanLoad};
ghost use Rattle.check_load.specs.Rounds.{AreSideBySide};
ghost use Rattle.opening.specs.Held.{AreSearched, held_files};
ghost use Rattle.opening.specs.Steps.{in_group};
ghost use Rattle.check_load.specs.Stops.{Refutes};
ghost use Rattle.check_load.specs.Views.{loaded_views};

use crate::loaded::Loaded;
use crate::loader::{Loader, NamedObjects};
use crate::places::Places;
use crate::rounds::run_rounds;
use crate::stops::Stop;
use crate::turns::turn;
use ar_index::PartFile;
use command::Plan;
use elf_model::{InputFile, NameSeed};
use opening::{Input, inputs_of_parts};
use std::alloc::{AllocError, Global};

/// The number of an archive's group; None of one that is in none, and of an object.
fn group_of(input: &Input<'_>) -> Option<u64>
    ensures { result ≡ group_of input.now }
{
    let item = input.item();
    if item.archive { item.group } else { None }
}

/// Whether an input is an archive of a group.
fn is_in_group(input: &Input<'_>, group: u64) -> bool
    ensures { result ≡ in_group group input.now }
{
    match group_of(input) {
        Some(other) => other == group,
        None => false,
    }
}

/// How many of the first inputs are archives of a group.
fn run_length(inputs: &[Input<'_>], group: u64) -> usize
    ensures { result ≡ prefix_len (in_group group) inputs.now }
{
    inputs.iter().take_while(|i| is_in_group(i, group)).count()
}

/// Loads an item that is in no group.
fn load_single<'a>(
    alloc: Global,
    places: &Places<'_, '_>,
    loader: &mut Loader<'_, 'a>,
    input: &Input<'a>,
) -> Result<(), Stop>
    requires known { Knows places.now loader.old }
    requires at { IsAt places.now input.now }
    ensures plan { OnOk result (loader.new.plan.now ≡ loader.old.plan.now) }
    ensures known { OnOk result (Knows places.now loader.new) }
    ensures loaded { OnOk result (loaded loader.new
        ≡ loaded_step loader.old.plan.now (Single input.now) (loaded loader.old)) }
    ensures stop { IfErr result (Refutes
        (AreLoadable (loaded_step loader.old.plan.now (Single input.now) (loaded loader.old)))) }
{
    let item = input.item();
    if item.archive {
        return turn(alloc, places, loader, input);
    }
    loader.add(alloc, places, &item, 0, input.object_bytes())
}

/// Loads the first step of inputs, and answers how many these are.
fn load_step<'a>(
    alloc: Global,
    places: &Places<'_, '_>,
    loader: &mut Loader<'_, 'a>,
    inputs: &[Input<'a>],
) -> Result<usize, Stop>
    requires known { Knows places.now loader.old }
    requires at { All (IsAt places.now) inputs.now }
    requires numbers { AreSideBySide inputs.now }
    requires some { 0 < length inputs.now }
    ensures plan { OnOk result (loader.new.plan.now ≡ loader.old.plan.now) }
    ensures known { OnOk result (Knows places.now loader.new) }
    ensures count { IfOk result (λ n. (0 < n) × (n ≤ length inputs.now)) }
    ensures loaded { IfOk result (λ n.
        loaded_steps loader.old.plan.now (steps (drop n inputs.now)) (loaded loader.new)
        ≡ loaded_steps loader.old.plan.now (steps inputs.now) (loaded loader.old)) }
    ensures stop { IfErr result (Refutes
        (AreLoadable (loaded_steps loader.old.plan.now (steps inputs.now) (loaded loader.old)))) }
{
    let Some(group) = group_of(&inputs[0]) else {
        load_single(alloc, places, loader, &inputs[0])?;
        return Ok(1);
    };
    let count = run_length(inputs, group);
    let (run, _rest) = inputs.split_at(count);
    run_rounds(alloc, places, loader, run)?;
    Ok(count)
}

/// Loads inputs, in order.
fn load_inputs<'a>(
    alloc: Global,
    places: &Places<'_, '_>,
    loader: &mut Loader<'_, 'a>,
    inputs: &[Input<'a>],
) -> Result<(), Stop>
    requires known { Knows places.now loader.old }
    requires at { All (IsAt places.now) inputs.now }
    requires numbers { AreSideBySide inputs.now }
    ensures known { OnOk result (Knows places.now loader.new) }
    ensures loaded { OnOk result (loaded loader.new
        ≡ loaded_steps loader.old.plan.now (steps inputs.now) (loaded loader.old)) }
    ensures stop { IfErr result (Refutes
        (AreLoadable (loaded_steps loader.old.plan.now (steps inputs.now) (loaded loader.old)))) }
{
    let mut at = 0;
    while at < inputs.len() {
        let (_done, rest) = inputs.split_at(at);
        at += load_step(alloc, places, loader, rest)?;
    }
    Ok(())
}

/// Loads inputs, the places of whose names are known, from nothing.
fn load_at<'a>(
    alloc: Global,
    places: &Places<'_, '_>,
    plan: &Plan<'a>,
    inputs: &[Input<'a>],
    seed: Option<NameSeed>,
) -> Result<NamedObjects<'a>, Stop>
    requires at { All (IsAt places.now) inputs.now }
    requires numbers { AreSideBySide inputs.now }
    ensures loaded { IfOk result (λ v. loaded_views v.objects.items
        ≡ loaded_steps plan.now (steps inputs.now) []) }
    ensures numbered { IfOk result (λ v. AreNumbered v.names v.objects.items) }
    ensures good { OnOk result (AreLoadable (loaded_steps plan.now (steps inputs.now) [])) }
    ensures stop { IfErr result (Refutes
        (AreLoadable (loaded_steps plan.now (steps inputs.now) []))) }
{
    let mut loader = Loader::new(alloc, places, plan, seed)?;
    match load_inputs(alloc, places, &mut loader, inputs) {
        Ok(()) => Ok(loader.finish()),
        Err(stop) => {
            drop(loader);
            Err(stop)
        }
    }
}

/// Loads inputs from nothing.
fn load_all<'a>(
    alloc: Global,
    plan: &Plan<'a>,
    inputs: &[Input<'a>],
    seed: Option<NameSeed>,
) -> Result<NamedObjects<'a>, Stop>
    requires at { All (IsAt inputs.now) inputs.now }
    requires numbers { AreSideBySide inputs.now }
    ensures loaded { IfOk result (λ v. loaded_views v.objects.items
        ≡ loaded_steps plan.now (steps inputs.now) []) }
    ensures numbered { IfOk result (λ v. AreNumbered v.names v.objects.items) }
    ensures good { OnOk result (AreLoadable (loaded_steps plan.now (steps inputs.now) [])) }
    ensures stop { IfErr result (Refutes
        (AreLoadable (loaded_steps plan.now (steps inputs.now) []))) }
{
    let places = Places::new(alloc, inputs, seed)?;
    let named = load_at(alloc, &places, plan, inputs, seed);
    drop(places);
    named
}

/// Loads a plan.
fn load<'a>(
    alloc: Global,
    plan: &Plan<'a>,
    parts: &'a [PartFile],
    files: &'a [InputFile],
    seed: Option<NameSeed>,
) -> Result<NamedObjects<'a>, Stop>
    requires { AreSearched parts.now plan.now }
    ensures loaded { IfOk result (λ v. loaded_views v.objects.items
        ≡ loaded_objects (held_files parts.entry.now files.entry.now) plan.now) }
    ensures numbered { IfOk result (λ v. AreNumbered v.names v.objects.items) }
    ensures good { OnOk result (CanLoad (held_files parts.entry.now files.entry.now) plan.now) }
    ensures stop { IfErr result (Refutes (CanLoad (held_files parts.entry.now files.entry.now) plan.now)) }
{
    let inputs = inputs_of_parts(alloc, plan, parts, files)?;
    load_all(alloc, plan, &inputs, seed)
}

/// The loaded objects of a plan, in load order (ld(1)); None where it can't be loaded: an item has no
/// file, an archive item is no archive or, where it would be searched, has members and no index, or what
/// loading comes to is no object or has groups that aren't lawful.
///
/// An object item is loaded where it stands. An archive has one turn: the first entry of its index, in the
/// index's order, whose name is needed and whose member isn't loaded gives its member, again and again until
/// there is none. A group of archives has rounds of turns until a whole round takes nothing, and an archive
/// under `--whole-archive` gives all its members at its first turn. A COMDAT group whose signature a loaded
/// object has already is dropped (System V gABI 4, "Section Groups").
///
/// Names are hashed from the seed, which whoever picks them mustn't know, or found by their order without one.
///
/// # Errors
///
/// AllocError where memory is refused.
pub fn open<'a>(
    alloc: Global,
    plan: &Plan<'a>,
    files: &'a [InputFile],
    seed: Option<NameSeed>,
) -> Result<Option<Vec<Loaded<'a>>>, AllocError>
    ensures loaded { IfOk result (λ o.
        IfSome o (λ v. loaded_views v.items ≡ loaded_objects (files_of files.entry.now) plan.now)) }
    ensures some { IfOk result (λ o. IsSome o ↔ CanLoad (files_of files.entry.now) plan.now) }
{
    match open_named(alloc, plan, &[], files, seed)? {
        Some(named) => Ok(Some(named.objects)),
        None => Ok(None),
    }
}

/// The loaded objects as `open` tells them, and the names of their symbols with their numbers. Of archives that are searched the data
/// of some members may not have been read: zeros stand for them.
///
/// # Errors
///
/// AllocError where memory is refused.
pub fn open_named<'a>(
    alloc: Global,
    plan: &Plan<'a>,
    parts: &'a [PartFile],
    files: &'a [InputFile],
    seed: Option<NameSeed>,
) -> Result<Option<NamedObjects<'a>>, AllocError>
    requires { AreSearched parts.now plan.now }
    ensures loaded { IfOk result (λ o.
        IfSome o (λ v. loaded_views v.objects.items
        ≡ loaded_objects (held_files parts.entry.now files.entry.now) plan.now)) }
    ensures numbered { IfOk result (λ o. IfSome o (λ v. AreNumbered v.names v.objects.items)) }
    ensures some { IfOk result (λ o. IsSome o ↔ CanLoad (held_files parts.entry.now files.entry.now) plan.now) }
{
    match load(alloc, plan, parts, files, seed) {
        Ok(named) => Ok(Some(named)),
        Err(Stop::Memory) => Err(AllocError),
        Err(Stop::Unlawful) => Ok(None),
    }
}
