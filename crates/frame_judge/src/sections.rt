//! The sections of call frames of which a linker made one list, with their records, found by their numbers.
ghost use Rattle.std.specs.Prelude.{◌≡◌, All, IfOk, IfSome, IsSome, SomeIff, option_copied, option_map};
ghost use Rattle.check_link.specs.Views.{piece_view, piece_views};
ghost use Rattle.frame_judge.specs.Sections.{bytes_at, piece_bytes};
ghost use Rattle.judge_model.specs.Frames.{IsReadable, frames_at};

use call_frames::{CallFrames, are_commons_there};
use check_link::Piece;
use frame_table::have_addresses;
use merge_judge::Sections;
use std::alloc::{AllocError, Global};
use std::marker::Model;

/// Sections of call frames, each with its records.
#[derive(Drop)]
pub struct FramedSections<'s, 'a> {
    sections: Sections<'s, 'a>,
    frames: Vec<CallFrames<'a>>,
}

impl<'s, 'a> Model for FramedSections<'s, 'a> {
    ghost use Rattle.std.specs.Prelude.{◌≡◌, List};
    ghost use Rattle.elf_model.specs.Link.Pieces as link_pieces;
    ghost use Rattle.frame_judge.specs.Sections.{piece_bytes};

    ghost Value = { List link_pieces.Piece };

    ghost view = { λ f. f.sections };

    ghost invariant = { λ f. f.frames.items ≡ piece_bytes f.sections };
}

/// The records of a section; None where it has no list of records, or a record lacks its common part, or an address that can be read.
fn read_section<'a>(alloc: Global, piece: &Piece<'a>) -> Result<Option<CallFrames<'a>>, AllocError>
    ensures { IfOk result (λ o. SomeIff o (IsReadable (piece_view piece.now))
        (piece_view piece.now).bytes) }
{
    let Some(frames) = CallFrames::read(alloc, piece.bytes)? else {
        return Ok(None);
    };
    if !are_commons_there(&frames) || !have_addresses(&frames) {
        return Ok(None);
    }
    Ok(Some(frames))
}

/// The records of sections; None where one can't be read.
fn read_sections<'a>(
    alloc: Global,
    pieces: &[Piece<'a>],
) -> Result<Option<Vec<CallFrames<'a>>>, AllocError>
    ensures all { IfOk result (λ o. IfSome o (λ v. All IsReadable (piece_views pieces.now))) }
    ensures only { IfOk result (λ o. All IsReadable (piece_views pieces.now) → IsSome o) }
    ensures same { IfOk result (λ o. IfSome o (λ v. v.items
        ≡ piece_bytes (piece_views pieces.now))) }
{
    let mut all = Vec::with_capacity(alloc, pieces.len())?;
    for piece in pieces {
        let Some(frames) = read_section(alloc, piece)? else {
            return Ok(None);
        };
        all.push(frames)?;
    }
    Ok(Some(all))
}

/// The records of the section at a place, where there is one.
fn frames_at<'f, 'a>(frames: &'f [CallFrames<'a>], place: Option<u64>) -> Option<&'f CallFrames<'a>>
    ensures { option_copied result ≡ bytes_at frames.entry.now place }
{
    match place {
        Some(place) => frames.get(place as usize),
        None => None,
    }
}

impl<'s, 'a> FramedSections<'s, 'a> {
    /// Sections with their records; None where one has no list of records, or a record lacks its common part, or an address that can be
    /// read.
    ///
    /// # Errors
    ///
    /// Only where memory is refused.
    pub fn read(
        alloc: Global,
        pieces: &'s [Piece<'a>],
    ) -> Result<Option<FramedSections<'s, 'a>>, AllocError>
        ensures { IfOk result (λ o. SomeIff o
            (All IsReadable (piece_views pieces.entry.now)) (piece_views pieces.entry.now)) }
    {
        let Some(frames) = read_sections(alloc, pieces)? else {
            return Ok(None);
        };
        let sections = Sections::new(alloc, pieces)?;
        Ok(Some(FramedSections { sections, frames }))
    }

    /// The sections.
    pub fn pieces(&self) -> &'s [Piece<'a>]
        ensures { piece_views result.now ≡ self.entry.now }
    {
        self.sections.pieces()
    }

    /// The records of the sections, in their order.
    pub fn frames(&self) -> &[CallFrames<'a>]
        ensures { result.now ≡ piece_bytes self.now }
    {
        &self.frames
    }

    /// The records of the section that has a number of an object; None where it isn't one of these.
    pub fn find(&self, object: u64, section: u64) -> Option<&CallFrames<'a>>
        ensures { option_copied result
            ≡ option_map (λ p. p.bytes) (frames_at self.now object section) }
    {
        frames_at(&self.frames, self.sections.place(object, section))
    }
}
