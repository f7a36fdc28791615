//! The sections that a linker merged, found by the numbers of their objects and their own.
ghost use Rattle.std.specs.Prelude.{◌≡◌, ℕ, IfOk, None, OnOk, Some, cond, find, option_map};
ghost use Rattle.std.specs.Option.{option_or};
ghost use Rattle.check_link.specs.PlaceIndex.{address_in};
ghost use Rattle.check_link.specs.Views.{piece_view, piece_views};
ghost use Rattle.merge_judge.specs.Sections as sections;
ghost use Rattle.merge_judge.specs.Sections.{IsSectionIndex, is_numbered};

use check_link::Piece;
use std::alloc::{AllocError, Global};
use std::collections::HashMap;
use std::marker::Model;

/// Sections, with a table of their places among these.
#[derive(Drop)]
pub struct Sections<'s, 'a> {
    pieces: &'s [Piece<'a>],
    index: HashMap<(u64, u64), u64>,
}

impl<'s, 'a> Model for Sections<'s, 'a> {
    ghost use Rattle.std.specs.Prelude.{List};
    ghost use Rattle.elf_model.specs.Link.Pieces as link_pieces;
    ghost use Rattle.check_link.specs.Views.{piece_views};
    ghost use Rattle.merge_judge.specs.Sections.{IsSectionIndex};

    ghost Value = { List link_pieces.Piece };

    ghost view = { λ s. piece_views s.pieces.now };

    ghost invariant = { λ s. IsSectionIndex (piece_views s.pieces.now) s.index };
}

/// Puts the place of a section into an index, unless one of its numbers is there.
fn add_section(
    index: &mut HashMap<(u64, u64), u64>,
    place: u64,
    piece: &Piece<'_>,
) -> Result<(), AllocError>
    ensures { OnOk result ((object section : ℕ) →
        address_in index.new object section
        ≡ option_or (address_in index.old object section)
        (cond (is_numbered object section (piece_view piece.now)) (Some place) None)) }
{
    let key = (piece.object, piece.section);
    if !index.contains_key(&key) {
        index.insert(key, place)?;
    }
    Ok(())
}

/// The place of the first section of each pair of numbers.
fn index_sections(
    alloc: Global,
    pieces: &[Piece<'_>],
) -> Result<HashMap<(u64, u64), u64>, AllocError>
    ensures { IfOk result (IsSectionIndex (piece_views pieces.now)) }
{
    let mut index = HashMap::with_capacity(alloc, pieces.len())?;
    for k in 0..pieces.len() {
        add_section(&mut index, k as u64, &pieces[k])?;
    }
    Ok(index)
}

/// The section at a place, where there is one.
fn piece_at<'s, 'a>(pieces: &'s [Piece<'a>], place: Option<u64>) -> Option<&'s Piece<'a>>
    ensures { option_map (λ p. piece_view p.now) result
        ≡ sections.piece_at (piece_views pieces.entry.now) place }
{
    match place {
        Some(place) => pieces.get(place as usize),
        None => None,
    }
}

impl<'s, 'a> Sections<'s, 'a> {
    /// Sections, found by their numbers.
    pub fn new(alloc: Global, pieces: &'s [Piece<'a>]) -> Result<Sections<'s, 'a>, AllocError>
        ensures { IfOk result (λ s. s ≡ piece_views pieces.entry.now) }
    {
        let index = index_sections(alloc, pieces)?;
        Ok(Sections { pieces, index })
    }

    /// The place among these of the section of a number of an object; None where it isn't among them.
    pub fn place(&self, object: u64, section: u64) -> Option<u64>
        ensures { sections.piece_at self.now result ≡ find (is_numbered object section) self.now }
    {
        self.index.get(&(object, section)).copied()
    }

    /// The sections.
    pub fn pieces(&self) -> &'s [Piece<'a>]
        ensures { piece_views result.now ≡ self.entry.now }
    {
        self.pieces
    }

    /// The section of a number of an object; None where it isn't among these.
    pub fn find(&self, object: u64, section: u64) -> Option<&'s Piece<'a>>
        ensures { option_map (λ p. piece_view p.now) result
            ≡ find (is_numbered object section) self.now }
    {
        piece_at(self.pieces, self.place(object, section))
    }
}
