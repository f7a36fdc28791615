//! Groups of archives: rounds, until one takes nothing. After the first round an archive may take something only where an
//! entry of its index is awake, and only such archives have turns.
ghost use Rattle.std.specs.Prelude.{◌≡◌, true, All, IfErr, OnOk};
ghost use Rattle.elf_model.specs.Link.Loading.{round, rounds};
ghost use Rattle.check_load.specs.Places.{IsAt};
ghost use Rattle.check_load.specs.Rounds.{AreSideBySide, AreSpent};
ghost use Rattle.check_load.specs.Stops.{Refutes};
ghost use Rattle.check_load.specs.Loaders.{AreLoadable, Knows, loaded};

use crate::loader::Loader;
use crate::places::Places;
use crate::stops::Stop;
use crate::turns::turn;
use opening::Input;
use std::alloc::Global;

/// The first round: a turn of each archive, in order.
fn run_first<'a>(
    alloc: Global,
    places: &Places<'_, '_>,
    loader: &mut Loader<'_, 'a>,
    inputs: &[Input<'a>],
) -> Result<(), Stop>
    requires known { Knows places.now loader.old }
    requires at { All (IsAt places.now) inputs.now }
    requires archives { All (λ i. i.archive ≡ true) inputs.now }
    ensures plan { OnOk result (loader.new.plan.now ≡ loader.old.plan.now) }
    ensures known { OnOk result (Knows places.now loader.new) }
    ensures spent { OnOk result (AreSpent (loaded loader.new) inputs.now) }
    ensures loaded { OnOk result (loaded loader.new
        ≡ round loader.old.plan.now inputs.now (loaded loader.old)) }
    ensures stop { IfErr result (Refutes
        (AreLoadable (round loader.old.plan.now inputs.now (loaded loader.old)))) }
{
    for input in inputs {
        turn(alloc, places, loader, input)?;
    }
    Ok(())
}

/// A later round: turns of the archives that may take something, in order.
fn run_round<'a>(
    alloc: Global,
    places: &Places<'_, '_>,
    loader: &mut Loader<'_, 'a>,
    inputs: &[Input<'a>],
) -> Result<(), Stop>
    requires known { Knows places.now loader.old }
    requires at { All (IsAt places.now) inputs.now }
    requires archives { All (λ i. i.archive ≡ true) inputs.now }
    requires numbers { AreSideBySide inputs.now }
    requires spent { AreSpent (loaded loader.old) inputs.now }
    ensures plan { OnOk result (loader.new.plan.now ≡ loader.old.plan.now) }
    ensures known { OnOk result (Knows places.now loader.new) }
    ensures loaded { OnOk result (loaded loader.new
        ≡ round loader.old.plan.now inputs.now (loaded loader.old)) }
    ensures stop { IfErr result (Refutes
        (AreLoadable (round loader.old.plan.now inputs.now (loaded loader.old)))) }
{
    let mut from = 0;
    while let Some(i) = loader.next_awake(inputs, from) {
        turn(alloc, places, loader, &inputs[i])?;
        from = i + 1;
    }
    Ok(())
}

/// Rounds of a group of archives, which have numbers side by side, until a whole round takes nothing.
pub fn run_rounds<'a>(
    alloc: Global,
    places: &Places<'_, '_>,
    loader: &mut Loader<'_, 'a>,
    inputs: &[Input<'a>],
) -> Result<(), Stop>
    requires known { Knows places.now loader.old }
    requires at { All (IsAt places.now) inputs.now }
    requires archives { All (λ i. i.archive ≡ true) inputs.now }
    requires numbers { AreSideBySide inputs.now }
    ensures plan { OnOk result (loader.new.plan.now ≡ loader.old.plan.now) }
    ensures known { OnOk result (Knows places.now loader.new) }
    ensures loaded { OnOk result (loaded loader.new
        ≡ rounds loader.old.plan.now inputs.now (loaded loader.old)) }
    ensures stop { IfErr result (Refutes
        (AreLoadable (rounds loader.old.plan.now inputs.now (loaded loader.old)))) }
{
    run_first(alloc, places, loader, inputs)?;
    loop {
        let before = loader.count();
        run_round(alloc, places, loader, inputs)?;
        if loader.count() == before {
            return Ok(());
        }
    }
}
