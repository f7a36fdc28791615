//! The sizes of placed pieces, found by their sections.
ghost use Rattle.std.specs.Prelude.{◌≡◌, ℕ, IfOk, None, OnOk, Some, cond};
ghost use Rattle.std.specs.Option.{option_or};
ghost use Rattle.elf_model.specs.Link.Placement.{is_of_section};
ghost use Rattle.check_link.specs.PlaceIndex.{address_in};
ghost use Rattle.check_link.specs.Views.{placed_view, placed_views};
ghost use Rattle.symbol_judge.specs.Indexes.{IsSizeIndex};

use check_link::Placed;
use std::alloc::{AllocError, Global};
use std::collections::HashMap;

/// Puts the size of a placed piece into an index, unless one of its section is there.
fn add_size(index: &mut HashMap<(u64, u64), u64>, placed: &Placed<'_>) -> Result<(), AllocError>
    ensures { OnOk result ((object section : ℕ) →
        address_in index.new object section
        ≡ option_or (address_in index.old object section)
        (cond (is_of_section object section (placed_view placed.now))
        (Some (placed_view placed.now).piece.size) None)) }
{
    let key = (placed.piece.object, placed.piece.section);
    if !index.contains_key(&key) {
        index.insert(key, placed.piece.header.sh_size)?;
    }
    Ok(())
}

/// The size of the first piece of each section.
pub fn index_sizes(
    alloc: Global,
    placed: &[Placed<'_>],
) -> Result<HashMap<(u64, u64), u64>, AllocError>
    ensures { IfOk result (IsSizeIndex (placed_views placed.now)) }
{
    let mut index = HashMap::with_capacity(alloc, placed.len())?;
    for q in placed {
        add_size(&mut index, q)?;
    }
    Ok(index)
}
