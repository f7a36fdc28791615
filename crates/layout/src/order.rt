//! The pieces of loaded objects in the order in which they stand.
ghost use Rattle.std.specs.Prelude.{◌≡◌, ◌≤◌, ◌++◌, IfOk, OnOk};
ghost use Rattle.std.specs.List.{list_any};
ghost use Rattle.elf_model.specs.Own.OwnLayout as own;
ghost use Rattle.search.specs.Views.{loaded_views};
ghost use Rattle.resolve.specs.OutputSections.{AreOutputSections};
ghost use Rattle.layout.specs.Orders.{IsOrder, data_in, objects_of};
ghost use Rattle.layout.specs.PieceLists.{ArePieces, if_sized};
ghost use Rattle.placing.specs.Views.{borrowed_views, piece_view, piece_views};

use crate::output_sections::{Part, add_part, groups_of, part_of};
use crate::pieces::Pieces;
use crate::segments::any_nonempty;
use crate::threads::threads_of;
use placing::Piece;
use resolve::OutputSections;
use search::LoadedObject;
use std::alloc::{AllocError, Global};

/// The pieces of objects in own order: those that may only be read, code, and what may be written: thread-local ones with
/// bytes, data, of which those with bytes come first, then the GOT, then those without bytes, and behind them the common
/// blocks, and thread-local ones without bytes. How many they are, the greatest alignment of the thread-local ones, and
/// whether there are any. The pieces themselves are borrowed.
#[derive(Drop)]
pub struct Order<'b, 'a> {
    pub objects: &'b [LoadedObject<'a>],
    pub count: usize,
    pub read_only: Vec<&'b Piece<'a>>,
    pub code: Vec<&'b Piece<'a>>,
    pub initial: Vec<&'b Piece<'a>>,
    pub data: Vec<&'b Piece<'a>>,
    pub thread_rest: Vec<&'b Piece<'a>>,
    pub thread_align: u64,
    pub has_threads: bool,
}

/// Puts a piece behind others where it has a size.
fn add_sized<'p, 'a>(out: &mut Vec<&'p Piece<'a>>, piece: &'p Piece<'a>) -> Result<(), AllocError>
    ensures { OnOk result (borrowed_views out.new.items
        ≡ borrowed_views out.old.items ++ if_sized (piece_view piece.entry.now)) }
{
    if piece.header.sh_size > 0 {
        out.push(piece)?;
    }
    Ok(())
}

/// Puts pieces behind others.
fn add_all<'p, 'a>(out: &mut Vec<&'p Piece<'a>>, pieces: &'p [Piece<'a>]) -> Result<(), AllocError>
    ensures { OnOk result (borrowed_views out.new.items
        ≡ borrowed_views out.old.items ++ piece_views pieces.entry.now) }
{
    for piece in pieces {
        out.push(piece)?;
    }
    Ok(())
}

/// The pieces that may be written and aren't thread-local: those with bytes, then the GOT, then those without bytes, then
/// the common blocks.
fn data_of<'b, 'a>(
    alloc: Global,
    groups: &[Vec<&'b Piece<'a>>],
    pieces: &'b Pieces<'a>,
) -> Result<Vec<&'b Piece<'a>>, AllocError>
    ensures { IfOk result (λ v. borrowed_views v.items ≡ data_in groups.now pieces.entry.now) }
{
    let mut data = part_of(alloc, groups, Part::Data)?;
    add_sized(&mut data, &pieces.got)?;
    add_part(alloc, &mut data, groups, Part::Zero)?;
    add_all(&mut data, &pieces.blocks)?;
    Ok(data)
}

/// All pieces of objects, which have these output sections, in own order.
pub fn order_of<'b, 'a>(
    alloc: Global,
    outputs: &OutputSections<'a>,
    objects: &'b [LoadedObject<'a>],
    pieces: &'b Pieces<'a>,
) -> Result<Order<'b, 'a>, AllocError>
    requires pieces { ArePieces (loaded_views objects.now) pieces.now }
    requires outputs { AreOutputSections (loaded_views objects.now) outputs.now }
    ensures objects { IfOk result (λ o. objects_of o ≡ loaded_views objects.entry.now) }
    ensures order { IfOk result (λ o. IsOrder o) }
{
    let groups = groups_of(alloc, outputs, &pieces.kept)?;
    let threads = threads_of(&pieces.kept);
    let count = pieces.kept.len().saturating_add(pieces.blocks.len());
    Ok(Order {
        objects,
        count: count.saturating_add(1),
        read_only: part_of(alloc, &groups, Part::ReadOnly)?,
        code: part_of(alloc, &groups, Part::Code)?,
        initial: part_of(alloc, &groups, Part::Initial)?,
        data: data_of(alloc, &groups, pieces)?,
        thread_rest: part_of(alloc, &groups, Part::ThreadRest)?,
        thread_align: threads.align,
        has_threads: threads.any,
    })
}

/// Whether a piece that may be written, or the GOT, takes up memory.
pub fn any_writable(order: &Order<'_, '_>) -> bool
    requires { IsOrder order.now }
    ensures { result ≡ list_any own.is_nonempty (own.data_pieces (objects_of order.now)) }
{
    any_nonempty(&order.initial) || any_nonempty(&order.data)
}

/// The size of the file header and the program headers, in bytes: a header for the segment of what may only
/// be read and one for the stack, and one each where there is code, where something may be written, and where
/// something is thread-local, be it empty.
pub fn headers_size(order: &Order<'_, '_>) -> u64
    requires { IsOrder order.now }
    ensures size { result ≡ own.own_headers_size (objects_of order.now) }
    ensures small { result ≤ 344 }
{
    let code = if any_nonempty(&order.code) { 56 } else { 0 };
    let writable = if any_writable(order) { 56 } else { 0 };
    let threads = if order.has_threads { 56 } else { 0 };
    176 + code + writable + threads
}
