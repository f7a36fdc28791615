//! The chosen definitions, in load order: each is kept by its numbers, and what else is told of it is read where its object
//! has it.
ghost use Rattle.std.specs.Prelude.{◌≡◌, ◌<◌, [], Some, length, map, option_map, slice_index_or};
ghost use Rattle.std.specs.List.{slice_get};
ghost use Rattle.std.specs.Option.{option_map_or};
ghost use Rattle.elf_model.specs.Link.ChosenSymbols.{chosen_symbols};
ghost use Rattle.search.specs.Numbers.{name_number};
ghost use Rattle.resolve.specs.Defined.{AreChosen};
ghost use Rattle.resolve.specs.Views.{symbol_view};

use crate::entries::{SymbolOf, symbol_numbered};
use elf_model::SymbolRef;
use search::Loaded;

/// The numbers at a place; None past the end.
fn numbers_at(chosen: &[SymbolRef], place: usize) -> Option<SymbolRef>
    ensures { result ≡ slice_get chosen.now place }
{
    chosen.get(place).copied()
}

/// The name of a symbol that isn't LOCAL, by its numbers; an empty one where there is none.
fn numbered_name<'a>(loaded: &Loaded<'a>, symbol: SymbolRef) -> &'a [u8]
    ensures { result.now ≡ option_map_or (λ n. slice_index_or loaded.now.names n [])
        (name_number loaded.now symbol.object.0 symbol.symbol) [] }
{
    match loaded.name_number(symbol) {
        Some(named) => loaded.name(named),
        None => &[],
    }
}

/// The chosen definitions of loaded objects, in load order, by their places from 0 on.
#[derive(Clone, Copy)]
pub struct Definitions<'r, 'a> {
    loaded: &'r Loaded<'a>,
    chosen: &'r [SymbolRef],
    ghost are: { AreChosen loaded.now.objects chosen.now },
}

impl<'r, 'a> Definitions<'r, 'a> {
    /// Those of loaded objects, by their numbers.
    pub(crate) fn of(loaded: &'r Loaded<'a>, chosen: &'r [SymbolRef]) -> Definitions<'r, 'a>
        requires { AreChosen loaded.now.objects chosen.now }
        ensures { result.loaded.now ≡ loaded.now }
    {
        Definitions { loaded, chosen }
    }

    /// How many they are.
    pub fn len(&self) -> usize
        ensures { result ≡ length (chosen_symbols self.now.loaded.now.objects) }
    {
        self.chosen.len()
    }

    /// The one at a place; None past the end.
    pub fn get(&self, place: usize) -> Option<SymbolOf<'a>>
        ensures { option_map symbol_view result
            ≡ slice_get (chosen_symbols self.now.loaded.now.objects) place }
    {
        let numbers = numbers_at(self.chosen, place)?;
        symbol_numbered(self.loaded, numbers)
    }

    /// The name of the one at a place; an empty one past the end.
    pub fn name(&self, place: usize) -> &'a [u8]
        ensures { result.now ≡ slice_index_or
            (map (λ s. s.name) (chosen_symbols self.now.loaded.now.objects)) place [] }
    {
        let _named = self.loaded.name_count();
        match numbers_at(self.chosen, place) {
            Some(numbers) => numbered_name(self.loaded, numbers),
            None => &[],
        }
    }

    /// The one at a place.
    pub fn at(&self, place: usize) -> SymbolOf<'a>
        requires { place < length (chosen_symbols self.now.loaded.now.objects) }
        ensures { slice_get (chosen_symbols self.now.loaded.now.objects) place
            ≡ Some (symbol_view result) }
    {
        let Some(symbol) = self.get(place) else {
            unreachable!()
        };
        symbol
    }
}
