//! The addresses of sections and common blocks, found by their numbers.
ghost use Rattle.std.specs.Prelude.{◌≡◌, ◌==◌, ◌&&◌, ℕ, IfOk, None, OnOk, Some, cond, find, option_map};
ghost use Rattle.std.specs.Option.{option_or};
ghost use Rattle.elf_model.specs.Link.Placement.{is_of_section};
ghost use Rattle.check_link.specs.PlaceIndex.{IsPlaceIndex, address_in};
ghost use Rattle.check_link.specs.Views.{placed_view, placed_views};

use check_link::Placed;
use std::alloc::{AllocError, Global};
use std::collections::HashMap;
use std::marker::Model;

/// Sections and common blocks at their addresses, with a table of these.
#[derive(Drop)]
pub struct Addresses<'p, 'a> {
    placed: &'p [Placed<'a>],
    table: HashMap<(u64, u64), u64>,
}

impl<'p, 'a> Model for Addresses<'p, 'a> {
    ghost use Rattle.std.specs.Prelude.{List};
    ghost use Rattle.elf_model.specs.Link.Placement as placement;
    ghost use Rattle.check_link.specs.PlaceIndex.{IsPlaceIndex};
    ghost use Rattle.check_link.specs.Views.{placed_views};

    ghost Value = { List placement.Placed };

    ghost view = { λ a. placed_views a.placed.now };

    ghost invariant = { λ a. IsPlaceIndex (placed_views a.placed.now) a.table };
}

/// Puts a placed piece into the table, unless one of its section is there.
fn add_place(table: &mut HashMap<(u64, u64), u64>, placed: &Placed<'_>) -> Result<(), AllocError>
    ensures { OnOk result ((object section : ℕ) →
        address_in table.new object section
        ≡ option_or (address_in table.old object section)
        (cond (is_of_section object section (placed_view placed.now)) (Some placed.now.at) None)) }
{
    let key = (placed.piece.object, placed.piece.section);
    if !table.contains_key(&key) {
        table.insert(key, placed.at)?;
    }
    Ok(())
}

/// The address of the first piece of each section.
fn index_places(
    alloc: Global,
    placed: &[Placed<'_>],
) -> Result<HashMap<(u64, u64), u64>, AllocError>
    ensures { IfOk result (IsPlaceIndex (placed_views placed.now)) }
{
    let mut table = HashMap::with_capacity(alloc, placed.len())?;
    for q in placed {
        add_place(&mut table, q)?;
    }
    Ok(table)
}

impl<'p, 'a> Addresses<'p, 'a> {
    /// The addresses of placed sections and common blocks.
    pub fn new(alloc: Global, placed: &'p [Placed<'a>]) -> Result<Addresses<'p, 'a>, AllocError>
        ensures { IfOk result (λ a. a ≡ placed_views placed.entry.now) }
    {
        let table = index_places(alloc, placed)?;
        Ok(Addresses { placed, table })
    }

    /// The placed sections and common blocks.
    pub fn placed(&self) -> &'p [Placed<'a>]
        ensures { placed_views result.now ≡ self.entry.now }
    {
        self.placed
    }

    /// The address of a section of an object, or of a common block; None where it has none.
    pub fn address(&self, object: u64, section: u64) -> Option<u64>
        ensures { result ≡ option_map (λ q. q.at) (find (is_of_section object section) self.now) }
    {
        self.table.get(&(object, section)).copied()
    }
}
