//! The index of each name's definition among the definitions, by the name's number.
ghost use Rattle.std.specs.Prelude.{◌≡◌, ◌<◌, IfOk, length, set};
ghost use Rattle.resolve.specs.Defined.{AreChosen};
ghost use Rattle.resolve.specs.Places.{ArePlaces, is_unplaced, place_at, place_named};

use elf_model::SymbolRef;
use search::Loaded;
use std::alloc::{AllocError, Global};

/// The index that stands for none.
const NO_PLACE: usize = 0xffff_ffff_ffff_ffff;

/// The index of the definition of a symbol's name; None where the symbol is LOCAL, or where there is no such symbol.
pub fn place_at(loaded: &Loaded<'_>, places: &[usize], symbol: SymbolRef) -> Option<usize>
    ensures { result ≡ place_at loaded.now places.now symbol.object.0 symbol.symbol }
{
    let number = loaded.name_number(symbol)?;
    places.get(number).copied()
}

/// The index of the definition of a name; None where the name has no number.
pub fn place_named(loaded: &Loaded<'_>, places: &[usize], name: &[u8]) -> Option<usize>
    ensures { result ≡ place_named loaded.now places.now name.now }
{
    let number = loaded.find_name(name)?;
    places.get(number).copied()
}

/// Whether no definition stands where the indices say for the name that has a number.
pub fn is_unplaced(chosen: &[SymbolRef], places: &[usize], number: usize) -> bool
    ensures { result ≡ is_unplaced chosen.now places.now number }
{
    match places.get(number) {
        Some(place) => chosen.get(*place).is_none(),
        None => true,
    }
}

/// Writes the index of a definition for the number of its name.
fn put(places: &mut Vec<usize>, number: usize, index: usize)
    requires { number < length places.old.items }
    ensures { places.new.items ≡ set places.old.items number index }
{
    places[number] = index;
}

/// The indices of all names' definitions.
pub fn places_of(
    alloc: Global,
    loaded: &Loaded<'_>,
    chosen: &[SymbolRef],
) -> Result<Vec<usize>, AllocError>
    requires { AreChosen loaded.now.objects chosen.now }
    ensures { IfOk result (λ v. ArePlaces loaded.now v.items) }
{
    let _objects = loaded.objects();
    let mut places = vec![in alloc; NO_PLACE; loaded.name_count()]?;
    for (index, symbol) in chosen.iter().enumerate() {
        if let Some(number) = loaded.name_number(*symbol) {
            put(&mut places, number, index);
        }
    }
    Ok(places)
}
