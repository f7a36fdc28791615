//! Pieces by output section: output sections by first appearance, as they are numbered, the pieces of each in load order, but
//! for arrays of functions, where numbered ones stand first. Pieces stay where they are, and groups and parts borrow them.
ghost use Rattle.std.specs.Prelude.{◌≡◌, ◌<◌, ◌++◌, [], IfOk, OnOk, length, replicate};
ghost use Rattle.resolve.specs.OutputSections.{AreOutputsOf};
ghost use Rattle.layout.specs.Groups.{AreGathered, group_part, group_views, part_test, parts, put_at};
ghost use Rattle.placing.specs.Views.{borrowed_views, piece_view, piece_views};

use crate::array_order::{any_numbered, sorted_by_rank};
use placing::Piece;
use resolve::OutputSections;
use std::alloc::{AllocError, Global};

/// The parts of the own order: what may only be read, and code; of what may be written, thread-local data with bytes, other
/// data with bytes and without, and thread-local data without.
#[derive(Clone, Copy, Debug)]
pub enum Part {
    ReadOnly,
    Code,
    Initial,
    Data,
    Zero,
    ThreadRest,
}

/// Whether a piece with this header belongs to a part.
fn is_of_part(part: Part, piece: &Piece<'_>) -> bool
    ensures { result ≡ part_test part (piece_view piece.now) }
{
    let writable = piece.header.is_writable();
    let executable = piece.header.is_executable();
    let thread_local = piece.header.is_thread_local();
    let nobits = piece.header.is_nobits();
    match part {
        Part::ReadOnly => !writable && !executable,
        Part::Code => executable,
        Part::Initial => writable && thread_local && !nobits,
        Part::Data => writable && !thread_local && !nobits,
        Part::Zero => writable && !thread_local && nobits,
        Part::ThreadRest => writable && thread_local && nobits,
    }
}

/// Puts so many groups without pieces behind the groups.
fn add_groups<'p, 'a>(
    alloc: Global,
    groups: &mut Vec<Vec<&'p Piece<'a>>>,
    count: usize,
) -> Result<(), AllocError>
    ensures { OnOk result (group_views groups.new.items
        ≡ group_views groups.old.items ++ replicate count []) }
{
    groups.reserve(count)?;
    for _i in 0..count {
        groups.push(Vec::new(alloc))?;
    }
    Ok(())
}

/// Puts a piece into the group that has a number.
fn add_piece<'p, 'a>(
    groups: &mut Vec<Vec<&'p Piece<'a>>>,
    number: usize,
    piece: &'p Piece<'a>,
) -> Result<(), AllocError>
    requires { number < length groups.old.items }
    ensures { OnOk result (group_views groups.new.items
        ≡ put_at (group_views groups.old.items) number (piece_view piece.entry.now)) }
{
    groups[number].push(piece)?;
    Ok(())
}

/// Pieces by output section, in one pass: each goes to the group that has the number of its output section.
pub fn groups_of<'p, 'a>(
    alloc: Global,
    outputs: &OutputSections<'a>,
    pieces: &'p [Piece<'a>],
) -> Result<Vec<Vec<&'p Piece<'a>>>, AllocError>
    requires { AreOutputsOf (piece_views pieces.now)
        outputs.now.sections.items outputs.now.numbers.items }
    ensures { IfOk result (λ v. AreGathered v.items (piece_views pieces.entry.now)) }
{
    let mut groups = Vec::new(alloc);
    add_groups(alloc, &mut groups, outputs.sections.len())?;
    for k in 0..pieces.len() {
        add_piece(&mut groups, outputs.numbers[k], &pieces[k])?;
    }
    Ok(groups)
}

/// Puts the pieces of a group behind others, in their order, where it belongs to a part, as its first one does.
fn add_group<'p, 'a>(
    alloc: Global,
    out: &mut Vec<&'p Piece<'a>>,
    group: &[&'p Piece<'a>],
    part: Part,
) -> Result<(), AllocError>
    ensures { OnOk result (borrowed_views out.new.items
        ≡ borrowed_views out.old.items ++ group_part part (borrowed_views group.now)) }
{
    let Some(first) = group.first() else {
        return Ok(());
    };
    if !is_of_part(part, first) {
        return Ok(());
    }
    if !any_numbered(group) {
        out.extend_from_slice(group)?;
        return Ok(());
    }
    let sorted = sorted_by_rank(alloc, group)?;
    out.extend_from_slice(sorted.as_slice())?;
    Ok(())
}

/// Puts the pieces of a part behind others, output section by output section, those of each in their order.
pub fn add_part<'p, 'a>(
    alloc: Global,
    out: &mut Vec<&'p Piece<'a>>,
    groups: &[Vec<&'p Piece<'a>>],
    part: Part,
) -> Result<(), AllocError>
    ensures { OnOk result (borrowed_views out.new.items
        ≡ borrowed_views out.old.items ++ parts part groups.now) }
{
    for group in groups {
        add_group(alloc, out, group.as_slice(), part)?;
    }
    Ok(())
}

/// The pieces of a part, output section by output section, those of each in their order.
pub fn part_of<'p, 'a>(
    alloc: Global,
    groups: &[Vec<&'p Piece<'a>>],
    part: Part,
) -> Result<Vec<&'p Piece<'a>>, AllocError>
    ensures { IfOk result (λ v. borrowed_views v.items ≡ parts part groups.now) }
{
    let mut pieces = Vec::new(alloc);
    add_part(alloc, &mut pieces, groups, part)?;
    Ok(pieces)
}
