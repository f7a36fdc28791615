//! Whether a symbol table has the names that it has to have.
ghost use Rattle.std.specs.Prelude.{◌≡◌, ◌↔◌, All, IsTrue};
ghost use Rattle.elf_model.specs.Inputs.ObjectFile.{symbols};
ghost use Rattle.elf_model.specs.Link.Resolution.{all_symbols, symbols_from};
ghost use Rattle.check_link.specs.Views.{symbol_view};
ghost use Rattle.check_load.specs.NameNumbers.{is_among};
ghost use Rattle.check_load.specs.Views.{loaded_view};
ghost use Rattle.symbol_judge.specs.There.{HasNames, IsThere};

use crate::locals::symbol_of;
use crate::meanings::Meanings;
use check_link::SymbolOf;
use check_load::{Loaded, NameTable};

/// Whether a name is among names.
fn has_name(names: &NameTable<'_>, name: &[u8]) -> bool
    ensures { result ≡ is_among names.now name.now }
{
    names.find(name).is_some()
}

/// Whether the name of a symbol, where the table has to have it, is among names.
fn is_there<'a>(
    meanings: &Meanings<'_, '_, 'a>,
    names: &NameTable<'_>,
    symbol: &SymbolOf<'a>,
) -> bool
    ensures { IsTrue result ↔ IsThere meanings.now.objects meanings.now.placed meanings.now.merged names.now
        (symbol_view symbol.now) }
{
    if !meanings.is_tabled(symbol) {
        return true;
    }
    has_name(names, symbol.name)
}

/// Whether the names of object `number` are there.
fn are_own_there<'a>(
    meanings: &Meanings<'_, '_, 'a>,
    names: &NameTable<'_>,
    number: u64,
    loaded: &Loaded<'a>,
) -> bool
    ensures { IsTrue result
        ↔ All (IsThere meanings.now.objects meanings.now.placed meanings.now.merged names.now)
        (symbols_from number (loaded_view loaded.now) 0 (symbols loaded.now.object)) }
{
    let entries = loaded.object.symbols();
    for j in 0..entries.len() {
        let symbol = symbol_of(number, loaded, j, entries.at(j));
        if !is_there(meanings, names, &symbol) {
            return false;
        }
    }
    true
}

/// Whether the names of all objects are there.
fn are_there(meanings: &Meanings<'_, '_, '_>, names: &NameTable<'_>) -> bool
    ensures { IsTrue result
        ↔ All (IsThere meanings.now.objects meanings.now.placed meanings.now.merged names.now)
        (all_symbols meanings.now.objects) }
{
    let objects = meanings.objects();
    for k in 0..objects.len() {
        if !are_own_there(meanings, names, k as u64, &objects[k]) {
            return false;
        }
    }
    true
}

/// Whether the names of all objects are there, unless words strip.
pub fn has_names(strips: bool, meanings: &Meanings<'_, '_, '_>, names: &NameTable<'_>) -> bool
    ensures { IsTrue result ↔ HasNames strips meanings.now names.now }
{
    if strips {
        return true;
    }
    are_there(meanings, names)
}
