//! A turn of an archive.
ghost use Rattle.std.specs.Prelude.{◌≡◌, true, false, IfErr, OnOk};
ghost use Rattle.elf_model.specs.Link.Loading.{turn, with_members};
ghost use Rattle.elf_model.specs.Inputs.Opening.{archive_members};
ghost use Rattle.check_load.specs.Places.{IsAt};
ghost use Rattle.check_load.specs.Stops.{Refutes};
ghost use Rattle.check_load.specs.Loaders.{AreLoadable, Knows, loaded};

use crate::loader::Loader;
use crate::places::Places;
use crate::stops::Stop;
use opening::Input;
use std::alloc::Global;

/// Takes members of an archive, until none is next.
fn take_members<'a>(
    alloc: Global,
    places: &Places<'_, '_>,
    loader: &mut Loader<'_, 'a>,
    input: &Input<'a>,
) -> Result<(), Stop>
    requires known { Knows places.now loader.old }
    requires at { IsAt places.now input.now }
    requires archive { input.now.archive ≡ true }
    requires searched { input.now.whole ≡ false }
    ensures plan { OnOk result (loader.new.plan.now ≡ loader.old.plan.now) }
    ensures known { OnOk result (Knows places.now loader.new) }
    ensures loaded { OnOk result (loaded loader.new
        ≡ turn loader.old.plan.now input.now (loaded loader.old)) }
    ensures stop { IfErr result (Refutes
        (AreLoadable (turn loader.old.plan.now input.now (loaded loader.old)))) }
{
    let item = input.item();
    while let Some(offset) = loader.next_member(places, input) {
        loader.add(alloc, places, &item, offset, input.data_at(offset))?;
    }
    Ok(())
}

/// Loads all members of an archive, in the file's order.
fn take_all<'a>(
    alloc: Global,
    places: &Places<'_, '_>,
    loader: &mut Loader<'_, 'a>,
    input: &Input<'a>,
) -> Result<(), Stop>
    requires known { Knows places.now loader.old }
    requires archive { input.now.archive ≡ true }
    ensures plan { OnOk result (loader.new.plan.now ≡ loader.old.plan.now) }
    ensures known { OnOk result (Knows places.now loader.new) }
    ensures loaded { OnOk result (loaded loader.new
        ≡ with_members (loaded loader.old) input.now (archive_members input.now.bytes)) }
    ensures stop { IfErr result (Refutes
        (AreLoadable (with_members (loaded loader.old) input.now
        (archive_members input.now.bytes)))) }
{
    let item = input.item();
    for member in input.members() {
        loader.add(alloc, places, &item, member.offset(), member.bytes())?;
    }
    Ok(())
}

/// A turn of an archive.
pub fn turn<'a>(
    alloc: Global,
    places: &Places<'_, '_>,
    loader: &mut Loader<'_, 'a>,
    input: &Input<'a>,
) -> Result<(), Stop>
    requires known { Knows places.now loader.old }
    requires at { IsAt places.now input.now }
    requires archive { input.now.archive ≡ true }
    ensures plan { OnOk result (loader.new.plan.now ≡ loader.old.plan.now) }
    ensures known { OnOk result (Knows places.now loader.new) }
    ensures loaded { OnOk result (loaded loader.new
        ≡ turn loader.old.plan.now input.now (loaded loader.old)) }
    ensures stop { IfErr result (Refutes
        (AreLoadable (turn loader.old.plan.now input.now (loaded loader.old)))) }
{
    let item = input.item();
    if !item.whole {
        return take_members(alloc, places, loader, input);
    }
    if loader.has_begun(item.number) {
        return Ok(());
    }
    take_all(alloc, places, loader, input)
}
