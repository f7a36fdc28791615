//! A link whose image is mapped, with what its map places in it: what the fifth and the sixth clause judge.
ghost use Rattle.std.specs.Prelude.{◌≡◌, IfOk, IsPermutation};
ghost use Rattle.std.specs.List.Sorted.{IsNonDecreasingBy};
ghost use Rattle.elf_model.specs.Link.Placement.{got_things};
ghost use Rattle.elf_model.specs.Image.RightLink.{objects_of, placed_of, sections_of, things_of};
ghost use Rattle.elf_model.specs.Link.Pieces.{kept_sections};
ghost use Rattle.check_link.specs.Views.{piece_views, placed_views};

use crate::loaded_link::LoadedLink;
use check_link::{Link, Names, Piece, Placed, got_things_of, place_all, things_of};
use elf_model::Thing;
use loader_model::{Memory, by_address};
use std::alloc::{AllocError, Global};
use std::marker::Model;

/// A link with the memory of its image, and its sections, its common blocks and its things at the addresses that its map
/// gives them, the things by these addresses too.
#[derive(Drop)]
pub struct PlacedLink<'o, 'a> {
    loaded: &'o LoadedLink<'o, 'a>,
    memory: Memory<'a>,
    placed: Vec<Placed<'a>>,
    section_count: usize,
    gots: Vec<Thing>,
    things: Vec<Thing>,
    sorted: Vec<Thing>,
}

impl<'o, 'a> Model for PlacedLink<'o, 'a> {
    ghost use Rattle.elf_model.specs.Image.RightLink.{Subject};
    ghost use Rattle.check_link.specs.declared.things.Placed.{Placed};
    ghost use Rattle.check_stages.specs.Links.{IsPlacedLink};

    ghost Value = { Subject };

    ghost view = { λ p. p.loaded.now };

    ghost invariant = { λ p. IsPlacedLink p.loaded.now p.memory p.placed.items p.section_count p.gots.items p.things.items p.sorted.items };
}

impl<'o, 'a> PlacedLink<'o, 'a> {
    /// A loaded link, whose image has this memory.
    pub fn new(
        alloc: Global,
        loaded: &'o LoadedLink<'o, 'a>,
        memory: Memory<'a>,
    ) -> Result<PlacedLink<'o, 'a>, AllocError>
        requires { memory ≡ loaded.now.image }
        ensures { IfOk result (λ p. p ≡ loaded.entry.now) }
    {
        let link = loaded.link();
        let blocks = loaded.names().blocks();
        let (placed, section_count) = place_all(
            alloc,
            &link.map.places,
            loaded.pieces(),
            loaded.lines(),
            blocks,
        )?;
        let gots = got_things_of(alloc, link.map.got)?;
        let things = things_of(alloc, &memory, &gots, &placed)?;
        let sorted = by_address(alloc, &things)?;
        Ok(PlacedLink {
            loaded,
            memory,
            placed,
            section_count,
            gots,
            things,
            sorted,
        })
    }

    /// The link itself.
    pub fn link(&self) -> &'a Link<'a>
        ensures { result.now ≡ self.entry.now }
    {
        self.loaded.link()
    }

    /// The names of the loaded objects.
    pub fn names(&self) -> &'o Names<'o, 'a>
        ensures { result.now ≡ objects_of self.entry.now }
    {
        self.loaded.names()
    }

    /// The kept sections.
    pub fn pieces(&self) -> &'o [Piece<'a>]
        ensures { piece_views result.now ≡ kept_sections (objects_of self.entry.now) }
    {
        self.loaded.pieces()
    }

    /// What the image has in memory.
    pub fn memory(&self) -> &Memory<'a>
        ensures { result.now ≡ self.entry.now.image }
    {
        &self.memory
    }

    /// The sections and the common blocks at their addresses.
    pub fn placed(&self) -> &[Placed<'a>]
        ensures { placed_views result.now ≡ placed_of self.entry.now }
    {
        &self.placed
    }

    /// The sections alone.
    pub fn sections(&self) -> &[Placed<'a>]
        ensures { placed_views result.now ≡ sections_of self.entry.now }
    {
        let (sections, _blocks) = self.placed.split_at(self.section_count);
        sections
    }

    /// The GOT as a thing, where the map has one.
    pub fn gots(&self) -> &[Thing]
        ensures { result.now ≡ got_things self.entry.now.map.got }
    {
        &self.gots
    }

    /// All things.
    pub fn things(&self) -> &[Thing]
        ensures { result.now ≡ things_of self.entry.now }
    {
        &self.things
    }
    /// All things in the order of their addresses.
    pub fn things_by_address(&self) -> &[Thing]
        ensures same { IsPermutation (things_of self.entry.now) result.now }
        ensures rising { IsNonDecreasingBy (λ t. t.at) result.now }
    {
        &self.sorted
    }
}
