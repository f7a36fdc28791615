//! The output names of the kept sections, and whether the sections of one are of one output section.
ghost use Rattle.std.specs.Prelude.{◌≡◌, ◌↔◌, ℕ, IfOk, IsTrue, List, OnOk, option_map};
ghost use Rattle.std.specs.List.{list_any};
ghost use Rattle.elf_model.specs.Link.Pieces.{is_of_output};
ghost use Rattle.check_link.specs.ByName.{IsKept};
ghost use Rattle.check_link.specs.Outputs.{AreOne, AreOutputs, seen_more, seen_now, seen_view, with_piece};
ghost use Rattle.check_link.specs.Views.{piece_view, piece_views};

use crate::by_name::ByName;
use crate::output_sections::{output_name, same_flags};
use crate::things::Piece;
use std::alloc::{AllocError, Global};
use std::collections::BTreeMap;
use std::marker::Model;

/// What is known of an output name: the first piece of it, and whether all pieces of it are of that one's output
/// section.
#[derive(Clone, Copy, Debug)]
pub struct Output<'a> {
    pub first: Piece<'a>,
    pub alike: bool,
}

/// Pieces, with a table of their output names.
#[derive(Drop)]
pub struct Outputs<'l, 'a> {
    pieces: &'l [Piece<'a>],
    table: BTreeMap<&'a [u8], Output<'a>>,
}

impl<'l, 'a> Model for Outputs<'l, 'a> {
    ghost use Rattle.std.specs.Prelude.{List};
    ghost use Rattle.elf_model.specs.Link.Pieces as piece_words;
    ghost use Rattle.check_link.specs.Outputs.{AreOutputs};
    ghost use Rattle.check_link.specs.Views.{piece_views};

    ghost Value = { List piece_words.Piece };

    ghost view = { λ o. piece_views o.pieces.now };

    ghost invariant = { λ o. AreOutputs (piece_views o.pieces.now) o.table };
}

/// What is known of an output name, once one more piece of it is seen.
fn with_piece<'a>(before: Option<Output<'a>>, piece: &Piece<'a>) -> Output<'a>
    ensures { seen_view result
        ≡ with_piece (piece_view piece.now) (option_map seen_view before.entry) }
{
    match before {
        Some(output) => Output {
            first: output.first,
            alike: output.alike && same_flags(&output.first, piece),
        },
        None => Output {
            first: *piece,
            alike: true,
        },
    }
}

/// Adds a piece to a table of output names.
fn add_piece<'a>(table: &mut ByName<'a, Output<'a>>, piece: &Piece<'a>) -> Result<(), AllocError>
    requires { IsKept table.old }
    ensures kept { OnOk result (IsKept table.new) }
    ensures seen { OnOk result ((name : List ℕ) →
        seen_now table.new name ≡ seen_more name (piece_view piece.now) (seen_now table.old name)) }
{
    table.turn_to(output_name(piece.name))?;
    table.value = Some(with_piece(table.value, piece));
    Ok(())
}

/// The table of the output names of pieces.
fn table_of<'a>(
    alloc: Global,
    pieces: &[Piece<'a>],
) -> Result<BTreeMap<&'a [u8], Output<'a>>, AllocError>
    ensures { IfOk result (AreOutputs (piece_views pieces.now)) }
{
    let mut table = ByName::new(alloc);
    for piece in pieces {
        add_piece(&mut table, piece)?;
    }
    table.into_table()
}

impl<'l, 'a> Outputs<'l, 'a> {
    /// The output names of pieces.
    pub fn new(alloc: Global, pieces: &'l [Piece<'a>]) -> Result<Outputs<'l, 'a>, AllocError>
        ensures { IfOk result (λ o. o ≡ piece_views pieces.entry.now) }
    {
        let table = table_of(alloc, pieces)?;
        Ok(Outputs { pieces, table })
    }

    /// Whether there are pieces of an output name.
    pub fn has(&self, name: &[u8]) -> bool
        ensures { result ≡ list_any (is_of_output name.now) self.now }
    {
        self.table.contains_key(name)
    }

    /// Whether all pieces of an output name are of one output section.
    pub fn are_one(&self, name: &[u8]) -> bool
        ensures { IsTrue result ↔ AreOne self.now name.now }
    {
        match self.table.get(name) {
            Some(output) => output.alike,
            None => true,
        }
    }
}
