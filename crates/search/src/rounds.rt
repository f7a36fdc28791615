//! Groups of archives: rounds, until one takes nothing.
ghost use Rattle.std.specs.Prelude.{◌≡◌, true, All, IfErr, OnOk};
ghost use Rattle.elf_model.specs.Link.Loading.{round, rounds};
ghost use Rattle.search.specs.Faults.{FailsOn};
ghost use Rattle.search.specs.Loaders.{IsLater, Knows, loaded};
ghost use Rattle.search.specs.Waiting.{Covers};

use crate::faults::SearchFault;
use crate::loader::Loader;
use crate::names::NameNumbers;
use crate::turns::turn;
use crate::waits::Waits;
use opening::Input;
use std::alloc::Global;

/// A round: a turn of each archive, in order, but for those whose turns take nothing.
pub fn run_round<'a, N: NameNumbers<'a>>(
    alloc: Global,
    loader: &mut Loader<'_, 'a, N>,
    waits: &mut Waits<'a>,
    inputs: &[Input<'a>],
) -> Result<(), SearchFault>
    requires known { Knows N.names loader.old }
    requires archives { All (λ i. i.archive ≡ true) inputs.now }
    requires covers { Covers loader.old inputs.now waits.old }
    ensures later { OnOk result (IsLater loader.old loader.new) }
    ensures known { OnOk result (Knows N.names loader.new) }
    ensures covers { OnOk result (Covers loader.new inputs.now waits.new) }
    ensures loaded { OnOk result (loaded loader.new
        ≡ round loader.old.plan.now inputs.now (loaded loader.old)) }
    ensures fault { IfErr result (FailsOn loader.new.reached
        (round loader.old.plan.now inputs.now (loaded loader.old))) }
{
    let mut from = 0;
    while let Some(i) = waits.next_archive(loader, inputs, from)? {
        turn(alloc, loader, waits, inputs, i, &inputs[i])?;
        from = i + 1;
    }
    Ok(())
}

/// Rounds of a group of archives, until a whole round takes nothing.
pub fn run_rounds<'a, N: NameNumbers<'a>>(
    alloc: Global,
    loader: &mut Loader<'_, 'a, N>,
    inputs: &[Input<'a>],
) -> Result<(), SearchFault>
    requires known { Knows N.names loader.old }
    requires archives { All (λ i. i.archive ≡ true) inputs.now }
    ensures later { OnOk result (IsLater loader.old loader.new) }
    ensures known { OnOk result (Knows N.names loader.new) }
    ensures loaded { OnOk result (loaded loader.new
        ≡ rounds loader.old.plan.now inputs.now (loaded loader.old)) }
    ensures fault { IfErr result (FailsOn loader.new.reached
        (rounds loader.old.plan.now inputs.now (loaded loader.old))) }
{
    let mut waits = Waits::new(alloc, loader, inputs)?;
    loop {
        let before = loader.count();
        run_round(alloc, loader, &mut waits, inputs)?;
        if loader.count() == before {
            return Ok(());
        }
    }
}
