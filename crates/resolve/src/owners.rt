//! Which symbols are what their names mean, by the names' numbers.
ghost use Rattle.std.specs.Prelude.{◌≡◌, ◌==◌, ◌&&◌, false};
ghost use Rattle.std.specs.Option.{option_map_or};
ghost use Rattle.resolve.specs.Owned.{owner_numbered};
ghost use Rattle.symbols.specs.Owners.{owner_ref};

use crate::entries::symbol_ref;
use search::Loaded;
use symbols::{Owner, owner_of_name};

/// Whether symbol `j` of object `number` is the owner of its name.
pub fn is_owner(loaded: &Loaded<'_>, owners: &[Owner], number: u64, j: usize) -> bool
    ensures { result ≡ option_map_or (λ r. number == r.object.0 && j == r.symbol)
        (owner_ref (owner_numbered loaded.now owners.now number j)) false }
{
    let Some(named) = loaded.name_number(symbol_ref(number, j)) else {
        return false;
    };
    match owner_of_name(owners, named).symbol() {
        Some(chosen) => number == chosen.object.0 && j as u64 == chosen.symbol,
        None => false,
    }
}
