//! A link that is judged whose sections and common blocks are at the addresses of its certificate.
ghost use Rattle.std.specs.Prelude.{◌≡◌, ◌≤◌, ◌++◌, IfOk, length, take};
ghost use Rattle.check_link.specs.Views.{piece_views, placed_views};
ghost use Rattle.judge_model.specs.Links.{objects_of, pieces_of, placed_of, plain_pieces, sections_of};
ghost use Rattle.judge_model.specs.Placed.{things_of};

use crate::claim::Claim;
use crate::commons::lined_blocks;
use crate::lines::borrowed_places;
use crate::loaded_claim::LoadedClaim;
use crate::stretches::stretches_of;
use check_link::{CommonLines, Names, Piece, Placed, place_all};
use elf_model::Thing;
use foreign_image::ForeignImage;
use judge_model::StretchLine;
use link_fields::Drops;
use place_judge::things_of;
use std::alloc::{AllocError, Global};
use std::marker::Model;

/// A link with its image, the sections that its linker didn't edit, and these and its common blocks at their addresses, beside
/// what the linker filled, notes and areas of merged strings and constants, and all that takes up memory.
#[derive(Drop)]
pub struct PlacedClaim<'o, 'a> {
    loaded: &'o LoadedClaim<'o, 'a>,
    image: ForeignImage<'a>,
    plain: Vec<Piece<'a>>,
    placed: Vec<Placed<'a>>,
    section_count: usize,
    filled: Vec<StretchLine>,
    things: Vec<Thing>,
}

impl<'o, 'a> Model for PlacedClaim<'o, 'a> {
    ghost use Rattle.check_link.specs.Views.{piece_views};
    ghost use Rattle.judge_model.specs.Links.{ForeignLink};
    ghost use Rattle.judge_stages.specs.Stages.{IsPlacedClaim};

    ghost Value = { ForeignLink };

    ghost view = { λ c. c.loaded.now };

    ghost invariant = { λ c. IsPlacedClaim c.loaded.now c.image (piece_views c.plain.items) c.placed.items
        c.section_count c.filled.items c.things.items };
}

/// The sections and behind them the common blocks that have a line, at their addresses; and how many are sections.
fn place_parts<'a>(
    alloc: Global,
    loaded: &LoadedClaim<'_, 'a>,
    plain: &[Piece<'a>],
    lines: &CommonLines<'_>,
) -> Result<(Vec<Placed<'a>>, usize), AllocError>
    requires plain { piece_views plain.now ≡ plain_pieces loaded.now }
    requires lines { lines.now ≡ loaded.now.certificate.commons }
    ensures count { IfOk result (λ r. r.1 ≤ length r.0.items) }
    ensures sections { IfOk result (λ r. placed_views (take r.1 r.0.items) ≡ sections_of loaded.now) }
    ensures placed { IfOk result (λ r. placed_views r.0.items ≡ placed_of loaded.now) }
{
    let places = &loaded.claim().certificate.places;
    let blocks = lined_blocks(alloc, lines, loaded.names().blocks())?;
    let rows = borrowed_places(alloc, places)?;
    let (placed, count) = place_all(alloc, &rows, plain, lines, &blocks)?;
    Ok((placed, count))
}

impl<'o, 'a> PlacedClaim<'o, 'a> {
    /// A loaded link, with its image, the sections that its linker didn't edit, and the common lines of its certificate.
    ///
    /// # Errors
    ///
    /// Only where memory is refused.
    pub fn new(
        alloc: Global,
        loaded: &'o LoadedClaim<'o, 'a>,
        image: ForeignImage<'a>,
        plain: Vec<Piece<'a>>,
        lines: &CommonLines<'_>,
    ) -> Result<PlacedClaim<'o, 'a>, AllocError>
        requires image { image ≡ loaded.now.image }
        requires plain { piece_views plain.items ≡ plain_pieces loaded.now }
        requires lines { lines.now ≡ loaded.now.certificate.commons }
        ensures { IfOk result (λ c. c ≡ loaded.entry.now) }
    {
        let (placed, section_count) = place_parts(alloc, loaded, &plain, lines)?;
        let certificate = loaded.claim().certificate;
        let filled = stretches_of(alloc, &certificate.notes, &certificate.areas)?;
        let things = things_of(alloc, &image, &filled, &placed)?;
        Ok(PlacedClaim {
            loaded,
            image,
            plain,
            placed,
            section_count,
            filled,
            things,
        })
    }

    /// What is claimed.
    pub fn claim(&self) -> &'a Claim<'a>
        ensures { result.now ≡ self.entry.now }
    {
        self.loaded.claim()
    }

    /// The names of the loaded objects.
    pub fn names(&self) -> &'o Names<'o, 'a>
        ensures { result.now ≡ objects_of self.entry.now }
    {
        self.loaded.names()
    }

    /// The lines of the sections that are left out.
    pub fn drops(&self) -> &'o Drops<'a>
        ensures { result.now ≡ self.entry.now.certificate.drops }
    {
        self.loaded.drops()
    }

    /// The sections that the image has.
    pub fn pieces(&self) -> &'o [Piece<'a>]
        ensures { piece_views result.now ≡ pieces_of self.entry.now }
    {
        self.loaded.pieces()
    }

    /// The image.
    pub fn image(&self) -> &ForeignImage<'a>
        ensures { result.now ≡ self.entry.now.image }
    {
        &self.image
    }

    /// The sections that the linker didn't edit.
    pub fn plain(&self) -> &[Piece<'a>]
        ensures { piece_views result.now ≡ plain_pieces self.entry.now }
    {
        &self.plain
    }

    /// The sections and the common blocks at their addresses.
    pub fn placed(&self) -> &[Placed<'a>]
        ensures { placed_views result.now ≡ placed_of self.entry.now }
    {
        &self.placed
    }

    /// The sections alone.
    pub fn sections(&self) -> &[Placed<'a>]
        ensures { placed_views result.now ≡ sections_of self.entry.now }
    {
        let (sections, _blocks) = self.placed.split_at(self.section_count);
        sections
    }

    /// What the linker filled: its notes, and behind these the areas of merged strings and constants.
    pub fn filled(&self) -> &[StretchLine]
        ensures { result.now
            ≡ self.entry.now.certificate.notes ++ self.entry.now.certificate.areas }
    {
        &self.filled
    }

    /// The link as it was loaded.
    pub fn loaded(&self) -> &'o LoadedClaim<'o, 'a>
        ensures { result.now ≡ self.entry.now }
    {
        self.loaded
    }

    /// All that takes up memory: headers, notes, areas, sections and common blocks.
    pub fn things(&self) -> &[Thing]
        ensures { result.now ≡ things_of self.entry.now }
    {
        &self.things
    }
}
