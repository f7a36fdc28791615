//! A turn of an archive.
ghost use Rattle.std.specs.Prelude.{◌≡◌, true, false, IfErr, OnOk, Some, slice_get};
ghost use Rattle.elf_model.specs.Link.Loading.{turn, turn_of_whole, with_members};
ghost use Rattle.elf_model.specs.Inputs.Opening.{archive_members};
ghost use Rattle.search.specs.Faults.{FailsOn};
ghost use Rattle.search.specs.Loaders.{IsLater, Knows, loaded};
ghost use Rattle.search.specs.Waiting.{Covers, IsSpent};

use crate::faults::SearchFault;
use crate::loader::Loader;
use crate::names::NameNumbers;
use crate::waits::Waits;
use opening::Input;
use std::alloc::Global;

/// Takes members of an archive that is searched, and has a number in the group, until none is next.
fn take_members<'a, N: NameNumbers<'a>>(
    alloc: Global,
    loader: &mut Loader<'_, 'a, N>,
    waits: &mut Waits<'a>,
    inputs: &[Input<'a>],
    archive: usize,
    input: &Input<'a>,
) -> Result<(), SearchFault>
    requires known { Knows N.names loader.old }
    requires archive { input.now.archive ≡ true }
    requires searched { input.now.whole ≡ false }
    requires at { slice_get inputs.now archive ≡ Some input.now }
    requires covers { Covers loader.old inputs.now waits.old }
    ensures later { OnOk result (IsLater loader.old loader.new) }
    ensures known { OnOk result (Knows N.names loader.new) }
    ensures covers { OnOk result (Covers loader.new inputs.now waits.new) }
    ensures loaded { OnOk result (loaded loader.new
        ≡ turn loader.old.plan.now input.now (loaded loader.old)) }
    ensures fault { IfErr result (FailsOn loader.new.reached
        (turn loader.old.plan.now input.now (loaded loader.old))) }
{
    let item = input.item();
    while let Some(offset) = waits.next(loader, inputs, archive, input)? {
        loader.add(alloc, &item, offset, input.data_at(offset))?;
    }
    Ok(())
}

/// Loads all members of an archive, in the file's order.
fn take_all<'a, N: NameNumbers<'a>>(
    alloc: Global,
    loader: &mut Loader<'_, 'a, N>,
    input: &Input<'a>,
) -> Result<(), SearchFault>
    requires known { Knows N.names loader.old }
    requires archive { input.now.archive ≡ true }
    ensures later { OnOk result (IsLater loader.old loader.new) }
    ensures known { OnOk result (Knows N.names loader.new) }
    ensures loaded { OnOk result (loaded loader.new
        ≡ with_members (loaded loader.old) input.now (archive_members input.now.bytes)) }
    ensures fault { IfErr result (FailsOn loader.new.reached
        (with_members (loaded loader.old) input.now (archive_members input.now.bytes))) }
{
    let item = input.item();
    for member in input.members() {
        loader.add(alloc, &item, member.offset(), member.bytes())?;
    }
    Ok(())
}

/// A turn of a whole archive.
fn take_whole<'a, N: NameNumbers<'a>>(
    alloc: Global,
    loader: &mut Loader<'_, 'a, N>,
    input: &Input<'a>,
) -> Result<(), SearchFault>
    requires known { Knows N.names loader.old }
    requires archive { input.now.archive ≡ true }
    ensures later { OnOk result (IsLater loader.old loader.new) }
    ensures known { OnOk result (Knows N.names loader.new) }
    ensures spent { OnOk result (IsSpent (loaded loader.new) input.now) }
    ensures loaded { OnOk result (loaded loader.new ≡ turn_of_whole input.now (loaded loader.old)) }
    ensures fault { IfErr result (FailsOn loader.new.reached
        (turn_of_whole input.now (loaded loader.old))) }
{
    if loader.has_begun(input.item().number) {
        return Ok(());
    }
    take_all(alloc, loader, input)
}

/// A turn of an archive, which has a number in the group.
pub fn turn<'a, N: NameNumbers<'a>>(
    alloc: Global,
    loader: &mut Loader<'_, 'a, N>,
    waits: &mut Waits<'a>,
    inputs: &[Input<'a>],
    archive: usize,
    input: &Input<'a>,
) -> Result<(), SearchFault>
    requires known { Knows N.names loader.old }
    requires archive { input.now.archive ≡ true }
    requires at { slice_get inputs.now archive ≡ Some input.now }
    requires covers { Covers loader.old inputs.now waits.old }
    ensures later { OnOk result (IsLater loader.old loader.new) }
    ensures known { OnOk result (Knows N.names loader.new) }
    ensures covers { OnOk result (Covers loader.new inputs.now waits.new) }
    ensures loaded { OnOk result (loaded loader.new
        ≡ turn loader.old.plan.now input.now (loaded loader.old)) }
    ensures fault { IfErr result (FailsOn loader.new.reached
        (turn loader.old.plan.now input.now (loaded loader.old))) }
{
    if !input.item().whole {
        return take_members(alloc, loader, waits, inputs, archive, input);
    }
    take_whole(alloc, loader, input)?;
    waits.settle(archive);
    Ok(())
}
