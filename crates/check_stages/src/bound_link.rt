//! A placed link with what its names mean: what the clauses from the seventh on judge.
ghost use Rattle.std.specs.Prelude.{◌≡◌, IsPermutation};
ghost use Rattle.std.specs.List.Sorted.{IsNonDecreasingBy};
ghost use Rattle.elf_model.specs.Image.RightLink.{placed_of, things_of};
ghost use Rattle.check_link.specs.Views.{placed_views};
ghost use Rattle.check_relocs.specs.Bindings.{bound_of};

use crate::placed_link::PlacedLink;
use check_link::{Link, Placed, SlotTable};
use check_relocs::Bindings;
use elf_model::Thing;
use loader_model::Memory;
use std::marker::Model;

/// A placed link with what its names mean.
#[derive(Drop)]
pub struct BoundLink<'o, 'a> {
    placed: &'o PlacedLink<'o, 'a>,
    bindings: Bindings<'o, 'o, 'a>,
}

impl<'o, 'a> Model for BoundLink<'o, 'a> {
    ghost use Rattle.elf_model.specs.Image.RightLink.{Subject};
    ghost use Rattle.std.specs.Prelude.{◌≡◌};
    ghost use Rattle.check_relocs.specs.Bindings.{bound_of};

    ghost Value = { Subject };

    ghost view = { λ b. b.placed.now };

    ghost invariant = { λ b. b.bindings ≡ bound_of b.placed.now };
}

impl<'o, 'a> BoundLink<'o, 'a> {
    /// A placed link whose names mean this.
    pub fn new(placed: &'o PlacedLink<'o, 'a>, bindings: Bindings<'o, 'o, 'a>) -> BoundLink<'o, 'a>
        requires { bindings ≡ bound_of placed.now }
        ensures { result ≡ placed.entry.now }
    {
        BoundLink { placed, bindings }
    }

    /// The link itself.
    pub fn link(&self) -> &'a Link<'a>
        ensures { result.now ≡ self.entry.now }
    {
        self.placed.link()
    }

    /// What the image has in memory.
    pub fn memory(&self) -> &'o Memory<'a>
        ensures { result.now ≡ self.entry.now.image }
    {
        self.placed.memory()
    }

    /// The sections and the common blocks at their addresses.
    pub fn placed(&self) -> &'o [Placed<'a>]
        ensures { placed_views result.now ≡ placed_of self.entry.now }
    {
        self.placed.placed()
    }

    /// All things.
    pub fn things(&self) -> &'o [Thing]
        ensures { result.now ≡ things_of self.entry.now }
    {
        self.placed.things()
    }

    /// All things in the order of their addresses.
    pub fn things_by_address(&self) -> &'o [Thing]
        ensures same { IsPermutation (things_of self.entry.now) result.now }
        ensures rising { IsNonDecreasingBy (λ t. t.at) result.now }
    {
        self.placed.things_by_address()
    }

    /// The slots of the map.
    pub fn slots(&self) -> &SlotTable<'o, 'a>
        ensures { result.now.rows ≡ self.entry.now.map.slots }
    {
        self.bindings.slots()
    }

    /// What names mean.
    pub fn bindings(&self) -> &Bindings<'o, 'o, 'a>
        ensures { result.now ≡ bound_of self.entry.now }
    {
        &self.bindings
    }
}
