//! Stretches of memory that the linker filled.
ghost use Rattle.std.specs.Prelude.{◌≡◌, ◌++◌, IfOk, OnOk, filter, map};
ghost use Rattle.judge_model.specs.Headers.{is_of_type, pt_gnu_eh_frame, table_stretch, table_stretches};
ghost use Rattle.judge_model.specs.Placed.{listed, stretch_of};

use elf_model::ProgramHeader;
use foreign_image::{ForeignImage, is_frame_table, table_stretch};
use judge_model::{MergedLine, StretchLine};
use std::alloc::{AllocError, Global};

/// Stretches and others behind them.
pub fn stretches_of(
    alloc: Global,
    first: &[StretchLine],
    others: &[StretchLine],
) -> Result<Vec<StretchLine>, AllocError>
    ensures { IfOk result (λ v. v.items ≡ first.now ++ others.now) }
{
    let mut all = Vec::with_capacity(alloc, first.len().saturating_add(others.len()))?;
    all.extend_from_slice(first)?;
    all.extend_from_slice(others)?;
    Ok(all)
}

/// Where a string or a constant is.
fn stretch_of(line: &MergedLine) -> StretchLine
    ensures { result ≡ stretch_of line.now }
{
    StretchLine {
        address: line.address,
        size: line.size,
    }
}

/// Adds those of lines behind others.
fn add_stretches(all: &mut Vec<StretchLine>, lines: &[MergedLine]) -> Result<(), AllocError>
    ensures { OnOk result (all.new.items ≡ all.old.items ++ map stretch_of lines.now) }
{
    for line in lines {
        all.push(stretch_of(line))?;
    }
    Ok(())
}

/// Adds a stretch, where there is one.
fn add_listed(all: &mut Vec<StretchLine>, list: Option<StretchLine>) -> Result<(), AllocError>
    ensures { OnOk result (all.new.items ≡ all.old.items ++ listed list) }
{
    if let Some(stretch) = list {
        all.push(stretch)?;
    }
    Ok(())
}

/// Where headers say that tables of call frames are.
fn tables_among(alloc: Global, headers: &[ProgramHeader]) -> Result<Vec<StretchLine>, AllocError>
    ensures { IfOk result (λ v. v.items
        ≡ map table_stretch (filter (is_of_type pt_gnu_eh_frame) headers.now)) }
{
    let mut tables = Vec::new(alloc);
    for h in headers {
        if is_frame_table(h) {
            tables.push(table_stretch(h))?;
        }
    }
    Ok(tables)
}

/// Where the tables of call frames of an image are.
pub fn table_stretches(
    alloc: Global,
    image: &ForeignImage<'_>,
) -> Result<Vec<StretchLine>, AllocError>
    ensures { IfOk result (λ v. v.items ≡ table_stretches image.now) }
{
    tables_among(alloc, image.headers())
}

/// Stretches, and behind them those of merged strings and constants, the list of call frames, and its tables.
pub fn part_stretches(
    alloc: Global,
    first: &[StretchLine],
    lines: &[MergedLine],
    list: Option<StretchLine>,
    tables: &[StretchLine],
) -> Result<Vec<StretchLine>, AllocError>
    ensures { IfOk result (λ v. v.items
        ≡ first.now ++ (map stretch_of lines.now ++ (listed list ++ tables.now))) }
{
    let count = first.len().saturating_add(lines.len());
    let more = tables.len().saturating_add(1);
    let mut all = Vec::with_capacity(alloc, count.saturating_add(more))?;
    all.extend_from_slice(first)?;
    add_stretches(&mut all, lines)?;
    add_listed(&mut all, list)?;
    all.extend_from_slice(tables)?;
    Ok(all)
}
