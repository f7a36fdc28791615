//! Whether lines name the very objects that the command loads, in whatever order: by items and offsets, which are sorted.
//! No object of a line is read for that.
ghost use Rattle.std.specs.Prelude.{◌≡◌, ◌↔◌, IfErr, IfOk, IsPermutation, IsTrue, OnOk, map};
ghost use Rattle.elf_model.specs.Inputs.Files.{files_of};
ghost use Rattle.elf_model.specs.Link.Loading.{loaded_objects};
ghost use Rattle.check_load.specs.Views.{loaded_views};
ghost use Rattle.judge_model.specs.Loaded.{AreReadable, origin_of};
ghost use Rattle.order_judge.specs.Faults.{AreRefused};
ghost use Rattle.order_judge.specs.Origins.{origin_of_line, origin_of_pair};
ghost use Rattle.order_judge.specs.Pairs.{pair_cmp};
ghost use Rattle.std.specs.List.Sorted.{IsSorted};

use crate::faults::OrderFault;
use check_load::{Loaded, open};
use command::Plan;
use elf_model::{InputFile, NameSeed, ObjectLine};
use std::alloc::{AllocError, Global};

/// The items and offsets of objects.
fn origins_of(alloc: Global, objects: &[Loaded<'_>]) -> Result<Vec<(u64, u64)>, AllocError>
    ensures { IfOk result (λ v. map origin_of_pair v.items
        ≡ map origin_of (loaded_views objects.now)) }
{
    let mut origins = Vec::new(alloc);
    for object in objects {
        origins.push((object.item, object.offset))?;
    }
    Ok(origins)
}

/// The items and offsets of lines.
fn origins_of_lines(alloc: Global, rows: &[ObjectLine]) -> Result<Vec<(u64, u64)>, AllocError>
    ensures { IfOk result (λ v. map origin_of_pair v.items ≡ map origin_of_line rows.now) }
{
    let mut origins = Vec::new(alloc);
    for row in rows {
        origins.push((row.item, row.offset))?;
    }
    Ok(origins)
}

/// Pairs by rising order.
fn sorted(pairs: Vec<(u64, u64)>) -> Result<Vec<(u64, u64)>, AllocError>
    ensures same { IfOk result (λ v. IsPermutation pairs.items v.items) }
    ensures rising { IfOk result (λ v. IsSorted pair_cmp v.items) }
{
    let mut pairs = pairs;
    pairs.sort()?;
    Ok(pairs)
}

/// Whether two lists have the same pairs, in whatever order. It takes their length times its logarithm.
fn have_same(left: Vec<(u64, u64)>, right: Vec<(u64, u64)>) -> Result<bool, AllocError>
    ensures { IfOk result (λ b. IsTrue b ↔ IsPermutation left.items right.items) }
{
    let left = sorted(left)?;
    let right = sorted(right)?;
    Ok(left == right)
}

/// The items and offsets of the objects that the command loads.
fn loaded_origins<'a>(
    alloc: Global,
    plan: &Plan<'a>,
    files: &'a [InputFile],
    seed: Option<NameSeed>,
) -> Result<Vec<(u64, u64)>, OrderFault>
    ensures origins { IfOk result (λ v. map origin_of_pair v.items
        ≡ map origin_of (loaded_objects (files_of files.entry.now) plan.now)) }
    ensures readable { OnOk result (AreReadable (files_of files.entry.now) plan.now) }
    ensures fault { IfErr result (AreRefused (files_of files.entry.now) plan.now) }
{
    let Some(objects) = open(alloc, plan, files, seed)? else {
        return Err(OrderFault::Unreadable);
    };
    let origins = origins_of(alloc, &objects)?;
    Ok(origins)
}

/// Whether lines name the objects that the command loads, in whatever order.
pub fn are_loaded<'a>(
    alloc: Global,
    plan: &Plan<'a>,
    files: &'a [InputFile],
    rows: &[ObjectLine],
    seed: Option<NameSeed>,
) -> Result<bool, OrderFault>
    ensures same { IfOk result (λ b. IsTrue b
        ↔ IsPermutation (map origin_of (loaded_objects (files_of files.entry.now) plan.now))
        (map origin_of_line rows.now)) }
    ensures readable { OnOk result (AreReadable (files_of files.entry.now) plan.now) }
    ensures fault { IfErr result (AreRefused (files_of files.entry.now) plan.now) }
{
    let loaded = loaded_origins(alloc, plan, files, seed)?;
    let named = origins_of_lines(alloc, rows)?;
    let same = have_same(loaded, named)?;
    Ok(same)
}
