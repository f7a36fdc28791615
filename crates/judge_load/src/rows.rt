//! The objects of lines: each line names a member of its item's archive, or its item itself.
ghost use Rattle.std.specs.Prelude.{◌≡◌, ◌↔◌, [], All, IfErr, IfOk, IfSome, IsSome, OnOk, map, option_copied, slice_get};
ghost use Rattle.elf_model.specs.Image.MapRecord.{object_row};
ghost use Rattle.elf_model.specs.Inputs.Files.{files_of};
ghost use Rattle.check_load.specs.Loaders.{AreLoadable, Knows, loaded};
ghost use Rattle.check_load.specs.Numbered.{AreNumbered};
ghost use Rattle.check_load.specs.Stops.{Refutes};
ghost use Rattle.check_load.specs.Views.{loaded_views};
ghost use Rattle.judge_load.specs.Rows.{CanLoadRows};
ghost use Rattle.judge_model.specs.Loaded.{objects_behind, objects_in_order, row_bytes, with_row};

use check_load::{Loader, NamedObjects, Places, Stop};
use command::Plan;
use elf_model::{InputFile, NameSeed, ObjectLine};
use opening::{Input, inputs_of};
use std::alloc::{AllocError, Global};

/// The input that has a number.
fn input_at<'s, 'a>(inputs: &'s [Input<'a>], item: u64) -> Option<&'s Input<'a>>
    ensures { option_copied result ≡ slice_get inputs.now item }
{
    inputs.get(item as usize)
}

/// The bytes of the object of a line: of the member whose header is at its offset, or of its item.
fn bytes_of<'a>(input: &Input<'a>, row: &ObjectLine) -> &'a [u8]
    ensures { result.now ≡ row_bytes input.now (object_row row.now) }
{
    if input.item().archive {
        return input.data_at(row.offset);
    }
    input.object_bytes()
}

/// Loads the object of a line: the member of its item whose header is at its offset, or its item itself; nothing where there is
/// no such item.
///
/// # Errors
///
/// Memory where a growth is refused; Unlawful where it is no object, or has groups that aren't lawful.
pub fn load_row<'a>(
    alloc: Global,
    places: &Places<'_, '_>,
    loader: &mut Loader<'_, 'a>,
    inputs: &[Input<'a>],
    row: &ObjectLine,
) -> Result<(), Stop>
    requires known { Knows places.now loader.old }
    ensures plan { OnOk result (loader.new.plan.now ≡ loader.old.plan.now) }
    ensures known { OnOk result (Knows places.now loader.new) }
    ensures loaded { OnOk result (loaded loader.new
        ≡ with_row inputs.now (loaded loader.old) (object_row row.now)) }
    ensures stop { IfErr result (Refutes
        (AreLoadable (with_row inputs.now (loaded loader.old) (object_row row.now)))) }
{
    let Some(input) = input_at(inputs, row.item) else {
        return Ok(());
    };
    loader.add(
        alloc,
        places,
        &input.item(),
        row.offset,
        bytes_of(input, row),
    )
}

/// Loads the objects of lines, in order.
fn load_rows<'a>(
    alloc: Global,
    places: &Places<'_, '_>,
    loader: &mut Loader<'_, 'a>,
    inputs: &[Input<'a>],
    rows: &[ObjectLine],
) -> Result<(), Stop>
    requires known { Knows places.now loader.old }
    ensures known { OnOk result (Knows places.now loader.new) }
    ensures loaded { OnOk result (loaded loader.new
        ≡ objects_behind inputs.now (loaded loader.old) (map object_row rows.now)) }
    ensures stop { IfErr result (Refutes
        (AreLoadable (objects_behind inputs.now (loaded loader.old) (map object_row rows.now)))) }
{
    for row in rows {
        load_row(alloc, places, loader, inputs, row)?;
    }
    Ok(())
}

/// Loads the objects of lines from nothing, where the places of the names of inputs are known.
fn load_at<'a>(
    alloc: Global,
    places: &Places<'_, '_>,
    plan: &Plan<'a>,
    inputs: &[Input<'a>],
    rows: &[ObjectLine],
    seed: Option<NameSeed>,
) -> Result<NamedObjects<'a>, Stop>
    ensures loaded { IfOk result (λ v. loaded_views v.objects.items
        ≡ objects_behind inputs.now [] (map object_row rows.now)) }
    ensures numbered { IfOk result (λ v. AreNumbered v.names v.objects.items) }
    ensures good { OnOk result (AreLoadable
        (objects_behind inputs.now [] (map object_row rows.now))) }
    ensures stop { IfErr result (Refutes
        (AreLoadable (objects_behind inputs.now [] (map object_row rows.now)))) }
{
    let mut loader = Loader::new(alloc, places, plan, seed)?;
    match load_rows(alloc, places, &mut loader, inputs, rows) {
        Ok(()) => Ok(loader.finish()),
        Err(stop) => {
            drop(loader);
            Err(stop)
        }
    }
}

/// Loads the objects of lines.
fn load<'a>(
    alloc: Global,
    plan: &Plan<'a>,
    files: &'a [InputFile],
    rows: &[ObjectLine],
    seed: Option<NameSeed>,
) -> Result<NamedObjects<'a>, Stop>
    ensures loaded { IfOk result (λ v. loaded_views v.objects.items
        ≡ objects_in_order (files_of files.entry.now) plan.now (map object_row rows.now)) }
    ensures numbered { IfOk result (λ v. AreNumbered v.names v.objects.items) }
    ensures good { OnOk result (CanLoadRows (files_of files.entry.now) plan.now
        (map object_row rows.now)) }
    ensures stop { IfErr result (Refutes (CanLoadRows (files_of files.entry.now) plan.now
        (map object_row rows.now))) }
{
    let inputs = inputs_of(alloc, plan, files)?;
    let places = Places::new(alloc, &inputs, seed)?;
    let named = load_at(alloc, &places, plan, &inputs, rows, seed);
    drop(places);
    named
}

/// The objects of lines, in their order, and the names of their symbols with their numbers; None where they can't be loaded:
/// an item has no file, an archive item is no archive or, where it would be searched, has members and no index, or what is
/// loaded is no object or has groups that aren't lawful. A line loads the member of its item whose header is at its offset, or
/// its item itself where this is an object; one of no item loads nothing. A COMDAT group whose signature an object before it has
/// is dropped (System V gABI 4, "Section Groups").
///
/// Names are hashed from the seed, which whoever picks them mustn't know, or found by their order without one.
///
/// # Errors
///
/// Only where memory is refused.
pub fn open_rows<'a>(
    alloc: Global,
    plan: &Plan<'a>,
    files: &'a [InputFile],
    rows: &[ObjectLine],
    seed: Option<NameSeed>,
) -> Result<Option<NamedObjects<'a>>, AllocError>
    ensures loaded { IfOk result (λ o. IfSome o (λ v. loaded_views v.objects.items
        ≡ objects_in_order (files_of files.entry.now) plan.now (map object_row rows.now))) }
    ensures numbered { IfOk result (λ o. IfSome o (λ v. AreNumbered v.names v.objects.items)) }
    ensures some { IfOk result (λ o. IsSome o
        ↔ CanLoadRows (files_of files.entry.now) plan.now (map object_row rows.now)) }
{
    match load(alloc, plan, files, rows, seed) {
        Ok(named) => Ok(Some(named)),
        Err(Stop::Memory) => Err(AllocError),
        Err(Stop::Unlawful) => Ok(None),
    }
}
