//! The lines of a certificate, with their names where they are.
ghost use Rattle.std.specs.Prelude.{◌≡◌, IfOk, map};
ghost use Rattle.elf_model.specs.Image.MapRecord as record_of_line;
ghost use Rattle.linkmap.specs.Borrowed.{common_row, place_row};

use elf_model::{CommonLine, PlaceLine};
use linkmap::{BorrowedCommon, BorrowedPlace};
use std::alloc::{AllocError, Global};
use std::borrow::CowSlice;

fn borrowed_common<'m>(line: &'m CommonLine) -> BorrowedCommon<'m>
    ensures { common_row result ≡ record_of_line.common_row line.entry.now }
{
    BorrowedCommon {
        address: line.address,
        size: line.size,
        align: line.align,
        name: CowSlice::Borrowed(&line.name),
    }
}

/// Common lines, with their names where they are.
///
/// # Errors
///
/// Only where memory is refused.
pub fn borrowed_commons<'m>(
    alloc: Global,
    lines: &'m [CommonLine],
) -> Result<Vec<BorrowedCommon<'m>>, AllocError>
    ensures { IfOk result (λ v. map common_row v.items
        ≡ map record_of_line.common_row lines.entry.now) }
{
    let mut all = Vec::with_capacity(alloc, lines.len())?;
    for line in lines {
        all.push(borrowed_common(line))?;
    }
    Ok(all)
}

fn borrowed_place<'m>(line: &'m PlaceLine) -> BorrowedPlace<'m>
    ensures { place_row result ≡ record_of_line.place_row line.entry.now }
{
    BorrowedPlace {
        address: line.address,
        size: line.size,
        object: line.object,
        section: line.section,
        name: CowSlice::Borrowed(&line.name),
    }
}

/// Place lines, with their names where they are.
pub fn borrowed_places<'m>(
    alloc: Global,
    lines: &'m [PlaceLine],
) -> Result<Vec<BorrowedPlace<'m>>, AllocError>
    ensures { IfOk result (λ v. map place_row v.items
        ≡ map record_of_line.place_row lines.entry.now) }
{
    let mut all = Vec::with_capacity(alloc, lines.len())?;
    for line in lines {
        all.push(borrowed_place(line))?;
    }
    Ok(all)
}
