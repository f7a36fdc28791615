//! Names that the linker defines and no object does, by their numbers.
ghost use Rattle.std.specs.Prelude.{◌≡◌, ◌<◌, ℕ, false, length};
ghost use Rattle.resolve.specs.Left.{is_linkers};

use crate::bounds::bound_of;
use crate::places::is_unplaced;
use elf_model::SymbolRef;
use search::Loaded;
use std::collections::BTreeSet;

/// Whether the name that has a number is one that no definition has, and that the linker defines.
fn is_linkers(
    loaded: &Loaded<'_>,
    chosen: &[SymbolRef],
    places: &[usize],
    outputs: &BTreeSet<&[u8]>,
    number: usize,
) -> bool
    ensures { result ≡ is_linkers chosen.now places.now outputs.now loaded.now.names number }
{
    if !is_unplaced(chosen, places, number) {
        return false;
    }
    bound_of(outputs, loaded.name(number)).is_some()
}

/// Whether there is such a name.
pub fn any_linkers(
    loaded: &Loaded<'_>,
    chosen: &[SymbolRef],
    places: &[usize],
    outputs: &BTreeSet<&[u8]>,
) -> bool
    ensures { result ≡ false → (n : ℕ) → n < length loaded.now.names
        → is_linkers chosen.now places.now outputs.now loaded.now.names n ≡ false }
{
    for number in 0..loaded.name_count() {
        if is_linkers(loaded, chosen, places, outputs, number) {
            return true;
        }
    }
    false
}
