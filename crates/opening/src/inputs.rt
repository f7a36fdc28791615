//! The items of a plan, opened and read.
ghost use Rattle.std.specs.Prelude.{◌≡◌, IfErr, IfOk, OnOk};
ghost use Rattle.elf_model.specs.Inputs.Files.{files_of};
ghost use Rattle.elf_model.specs.Inputs.Opening.{opened};
ghost use Rattle.opening.specs.Faults.{IsSearchable, ReadsBadly};
ghost use Rattle.opening.specs.Held.{AreSearched, held_files};

use crate::archives::{Input, read_inputs};
use crate::faults::OpenFault;
use crate::files::FileSet;
use crate::opened_items::open;
use ar_index::PartFile;
use command::Plan;
use elf_model::InputFile;
use std::alloc::Global;

/// What the items of a plan hold, in order, where only archives that it searches were read in part.
pub fn inputs_of_parts<'a>(
    alloc: Global,
    plan: &Plan<'a>,
    parts: &'a [PartFile],
    files: &'a [InputFile],
) -> Result<Vec<Input<'a>>, OpenFault>
    requires { AreSearched parts.now plan.now }
    ensures exact { IfOk result (λ v. v.items
        ≡ opened (held_files parts.entry.now files.entry.now) plan.now) }
    ensures searchable { OnOk result
        (IsSearchable (held_files parts.entry.now files.entry.now) plan.now) }
    ensures fault { IfErr result
        (ReadsBadly (held_files parts.entry.now files.entry.now) plan.now) }
{
    let files = FileSet::new(alloc, parts, files)?;
    let items = open(alloc, &files, plan)?;
    let inputs = read_inputs(alloc, &items)?;
    Ok(inputs)
}

/// What the items of a plan hold, in order.
pub fn inputs_of<'a>(
    alloc: Global,
    plan: &Plan<'a>,
    files: &'a [InputFile],
) -> Result<Vec<Input<'a>>, OpenFault>
    ensures exact { IfOk result (λ v. v.items ≡ opened (files_of files.entry.now) plan.now) }
    ensures searchable { OnOk result (IsSearchable (files_of files.entry.now) plan.now) }
    ensures fault { IfErr result (ReadsBadly (files_of files.entry.now) plan.now) }
{
    inputs_of_parts(alloc, plan, &[], files)
}
