//! Loads the objects of lines, each of which is to be asked for by the command or by what is loaded before it.
ghost use Rattle.std.specs.Prelude.{◌≡◌, ◌↔◌, [], All, IfErr, IfOk, IfSome, IsSome, IsTrue, OnOk, map};
ghost use Rattle.elf_model.specs.Image.MapRecord.{object_row};
ghost use Rattle.elf_model.specs.Inputs.Files.{files_of};
ghost use Rattle.elf_model.specs.Inputs.Opening.{opened};
ghost use Rattle.check_load.specs.Loaders.{AreLoadable, Knows, loaded};
ghost use Rattle.check_load.specs.Numbered.{AreNumbered};
ghost use Rattle.check_load.specs.Stops.{Refutes};
ghost use Rattle.check_load.specs.Views.{loaded_views};
ghost use Rattle.judge_model.specs.Loaded.{AreReadable, IsLoaded, objects_behind, objects_in_order};
ghost use Rattle.order_judge.specs.Asked.{AreAskedFor};
ghost use Rattle.order_judge.specs.Faults.{AreRefused, Says};
ghost use Rattle.order_judge.specs.Listed.{AreListed};

use crate::faults::OrderFault;
use crate::lines::are_lines;
use crate::member_names::{IndexedInput, indexed, is_asked_for};
use crate::origins::are_loaded;
use crate::turns::are_in_turn;
use check_load::{Loader, NamedObjects, Places, Stop};
use command::Plan;
use elf_model::{InputFile, NameSeed, ObjectLine};
use judge_load::load_row;
use opening::{Input, inputs_of};
use std::alloc::{AllocError, Global};

/// Loads the objects of lines, up to the first that nothing asks for; whether there is none of these.
fn load_rows<'a>(
    alloc: Global,
    places: &Places<'_, '_>,
    loader: &mut Loader<'_, 'a>,
    inputs: &[Input<'a>],
    names: &[IndexedInput<'_, 'a>],
    rows: &[ObjectLine],
) -> Result<bool, Stop>
    requires known { Knows places.now loader.old }
    requires indexed { names.now ≡ inputs.now }
    ensures known { OnOk result (Knows places.now loader.new) }
    ensures loaded { IfOk result (λ b. IsTrue b → loaded loader.new
        ≡ objects_behind inputs.now (loaded loader.old) (map object_row rows.now)) }
    ensures asked { IfOk result (λ b. IsTrue b
        ↔ AreAskedFor inputs.now loader.old.plan.now (loaded loader.old) (map object_row rows.now)) }
    ensures stop { IfErr result (Refutes
        (AreLoadable (objects_behind inputs.now (loaded loader.old) (map object_row rows.now)))) }
{
    for row in rows {
        if !is_asked_for(loader, names, row.item, row.offset) {
            return Ok(false);
        }
        load_row(alloc, places, loader, inputs, row)?;
    }
    Ok(true)
}

/// Loads the objects of lines from nothing; None where one isn't asked for.
fn load_at<'a>(
    alloc: Global,
    places: &Places<'_, '_>,
    plan: &Plan<'a>,
    inputs: &[Input<'a>],
    rows: &[ObjectLine],
    seed: Option<NameSeed>,
) -> Result<Option<NamedObjects<'a>>, Stop>
    ensures loaded { IfOk result (λ o. IfSome o (λ v. loaded_views v.objects.items
        ≡ objects_behind inputs.now [] (map object_row rows.now))) }
    ensures numbered { IfOk result (λ o. IfSome o (λ v. AreNumbered v.names v.objects.items)) }
    ensures asked { IfOk result (λ o. IsSome o
        ↔ AreAskedFor inputs.now plan.now [] (map object_row rows.now)) }
    ensures stop { IfErr result (Refutes
        (AreLoadable (objects_behind inputs.now [] (map object_row rows.now)))) }
{
    let names = indexed(alloc, inputs)?;
    let mut loader = Loader::new(alloc, places, plan, seed)?;
    match load_rows(alloc, places, &mut loader, inputs, &names, rows) {
        Ok(true) => Ok(Some(loader.finish())),
        Ok(false) => {
            drop(loader);
            Ok(None)
        }
        Err(stop) => {
            drop(loader);
            Err(stop)
        }
    }
}

/// Loads the objects of lines from nothing, where the places of names in indexes aren't looked for.
fn load_from_nothing<'a>(
    alloc: Global,
    plan: &Plan<'a>,
    inputs: &[Input<'a>],
    rows: &[ObjectLine],
    seed: Option<NameSeed>,
) -> Result<Option<NamedObjects<'a>>, Stop>
    ensures loaded { IfOk result (λ o. IfSome o (λ v. loaded_views v.objects.items
        ≡ objects_behind inputs.now [] (map object_row rows.now))) }
    ensures numbered { IfOk result (λ o. IfSome o (λ v. AreNumbered v.names v.objects.items)) }
    ensures asked { IfOk result (λ o. IsSome o
        ↔ AreAskedFor inputs.now plan.now [] (map object_row rows.now)) }
    ensures stop { IfErr result (Refutes
        (AreLoadable (objects_behind inputs.now [] (map object_row rows.now)))) }
{
    let places = Places::new(alloc, &[], seed)?;
    let named = load_at(alloc, &places, plan, inputs, rows, seed);
    drop(places);
    named
}

/// Whether lines are those of the objects that the command loads, and those that it names are in its order.
fn are_listed<'a>(
    alloc: Global,
    plan: &Plan<'a>,
    files: &'a [InputFile],
    inputs: &[Input<'a>],
    rows: &[ObjectLine],
    seed: Option<NameSeed>,
) -> Result<bool, OrderFault>
    requires { inputs.now ≡ opened (files_of files.now) plan.now }
    ensures listed { IfOk result (λ b. IsTrue b
        ↔ AreListed (files_of files.entry.now) plan.now (map object_row rows.now)) }
    ensures readable { OnOk result (AreReadable (files_of files.entry.now) plan.now) }
    ensures fault { IfErr result (AreRefused (files_of files.entry.now) plan.now) }
{
    if !are_loaded(alloc, plan, files, rows, seed)? {
        return Ok(false);
    }
    if !are_lines(inputs, rows) {
        return Ok(false);
    }
    Ok(are_in_turn(inputs, rows))
}

/// The objects of lines, in their order, and the names of their symbols with their numbers, where these are the objects that the
/// command loads, in an order that a linker may come to (ld(1)): what the command names stands in its order, and each member of
/// an archive that is searched behind what asks for it. Each line has its number, its item, the offset of its member's header
/// (0 of an item that is an object), and its item's path.
///
/// The objects of lines are loaded only once it is known that they are the right ones. Names are hashed from the seed, which
/// whoever picks them mustn't know, or found by their order without one.
///
/// # Errors
///
/// Memory where a growth is refused; Unreadable where the inputs can't be read, so that no link of them is judged; Unordered
/// where they can, and the lines aren't right.
pub fn load_in_order<'a>(
    alloc: Global,
    plan: &Plan<'a>,
    files: &'a [InputFile],
    rows: &[ObjectLine],
    seed: Option<NameSeed>,
) -> Result<NamedObjects<'a>, OrderFault>
    ensures loaded { IfOk result (λ v. loaded_views v.objects.items
        ≡ objects_in_order (files_of files.entry.now) plan.now (map object_row rows.now)) }
    ensures numbered { IfOk result (λ v. AreNumbered v.names v.objects.items) }
    ensures readable { OnOk result (AreReadable (files_of files.entry.now) plan.now) }
    ensures right { OnOk result (IsLoaded (files_of files.entry.now) plan.now
        (map object_row rows.now)) }
    ensures fault { IfErr result (Says (files_of files.entry.now) plan.now
        (map object_row rows.now)) }
{
    let inputs = inputs_of(alloc, plan, files)?;
    if !are_listed(alloc, plan, files, &inputs, rows, seed)? {
        return Err(OrderFault::Unordered);
    }
    match load_from_nothing(alloc, plan, &inputs, rows, seed) {
        Ok(Some(named)) => Ok(named),
        Ok(None) => Err(OrderFault::Unordered),
        Err(Stop::Memory) => Err(OrderFault::Memory),
        Err(Stop::Unlawful) => Err(OrderFault::Unordered),
    }
}
