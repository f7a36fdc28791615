//! The members whose names are asked for where loading stops, since their data weren't read.

use crate::load_steps::load_inputs;
use crate::loader::Loader;
use crate::names::{NameNumbers, NameSet};
use ar_index::{IndexEntry, PartFile};
use command::Plan;
use elf_model::{InputFile, NameSeed};
use opening::{Input, are_searched, inputs_of_parts};
use std::alloc::{AllocError, Global};

/// A member of an archive: the archive's path, and the offset of the member's header.
#[derive(Clone, Copy, Debug)]
pub struct WantedMember<'a> {
    pub path: &'a str,
    pub offset: u64,
}

/// The names that were asked for.
fn names_asked_for<'a>(
    alloc: Global,
    loader: &Loader<'_, 'a, NameSet<'a>>,
    seed: NameSeed,
) -> Result<NameSet<'a>, AllocError> {
    let mut asked = NameSet::new(alloc, seed);
    for i in 0..loader.request_count() {
        if let Some(name) = loader.request(i) {
            asked.add(name)?;
        }
    }
    Ok(asked)
}

/// The entries of the index of an archive; None of an object, and without an index.
fn entries_of<'s, 'a>(input: &'s Input<'a>) -> Option<&'s [IndexEntry<'a>]> {
    if !input.item().archive {
        return None;
    }
    input.entries()
}

/// Adds the members of an input whose names are asked for.
fn add_members<'a>(
    wanted: &mut Vec<WantedMember<'a>>,
    input: &Input<'a>,
    asked: &NameSet<'a>,
) -> Result<(), AllocError> {
    let path = input.item().path;
    let Some(entries) = entries_of(input) else {
        return Ok(());
    };
    for entry in entries {
        if asked.find(entry.name()).is_some() {
            wanted.push(WantedMember {
                path,
                offset: entry.offset(),
            })?;
        }
    }
    Ok(())
}

/// The members of inputs whose names are asked for.
fn members_asked_for<'a>(
    alloc: Global,
    inputs: &[Input<'a>],
    asked: &NameSet<'a>,
) -> Result<Vec<WantedMember<'a>>, AllocError> {
    let mut wanted = Vec::new(alloc);
    for input in inputs {
        add_members(&mut wanted, input, asked)?;
    }
    Ok(wanted)
}

/// The members of archives whose names are asked for, by the command or by an object that is loaded, where loading stops; none where
/// it doesn't, and where an object or a whole archive was read in part. Where it stops at a member whose data weren't read, that one is
/// among them.
///
/// # Errors
///
/// Only where memory is refused.
pub fn wanted_members<'a>(
    alloc: Global,
    plan: &Plan<'a>,
    parts: &'a [PartFile],
    files: &'a [InputFile],
    seed: NameSeed,
) -> Result<Vec<WantedMember<'a>>, AllocError> {
    if !are_searched(plan, parts) {
        return Ok(Vec::new(alloc));
    }
    let Ok(inputs) = inputs_of_parts(alloc, plan, parts, files) else {
        return Ok(Vec::new(alloc));
    };
    let mut loader = Loader::new(alloc, plan, seed, NameSet::new(alloc, seed))?;
    match load_inputs(alloc, &mut loader, &inputs) {
        Ok(()) => Ok(Vec::new(alloc)),
        Err(_) => {
            let asked = names_asked_for(alloc, &loader, seed)?;
            members_asked_for(alloc, &inputs, &asked)
        }
    }
}
