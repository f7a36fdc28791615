//! Definitions that are the chosen ones of their own names, found by the numbers by which lines of the map name them: for
//! these no name is looked up.
ghost use Rattle.std.specs.Prelude.{◌≡◌, IfOk, IfSome, IsTrue, Some, filter, option_copied, slice_get, true};
ghost use Rattle.elf_model.specs.Link.ChosenSymbols.{is_definition};
ghost use Rattle.elf_model.specs.Link.Resolution.{all_symbols, chosen};
ghost use Rattle.check_link.specs.Views.{symbol_view};
ghost use Rattle.check_link.specs.Chosen.{AreOwnChoices};

use check_link::{Definitions, SymbolOf};
use check_load::{Loaded, filled};
use check_relocs::Bindings;
use elf_model::{Definition, SymbolRef};
use linkmap::BorrowedSymbol;
use std::alloc::{AllocError, Global};
use std::marker::Model;

/// Definitions of objects, with a mark for each: one that has it is the chosen one of its name. By the numbers of objects
/// and symbols positions in the list, which are only tried: a wrong one leads to no definition of a line's name.
#[derive(Drop)]
pub struct OwnChoices<'b, 'a> {
    objects: &'b [Loaded<'a>],
    definitions: &'b Definitions<'b, 'a>,
    own: Vec<bool>,
    positions: Vec<Vec<u32>>,
}

impl<'b, 'a> Model for OwnChoices<'b, 'a> {
    ghost use Rattle.std.specs.Prelude.{List};
    ghost use Rattle.elf_model.specs.Link.Loading.{LoadedObject};
    ghost use Rattle.check_link.specs.Views.{symbol_views};
    ghost use Rattle.check_load.specs.Views.{loaded_views};
    ghost use Rattle.check_link.specs.Chosen.{AreOwnChoices};

    ghost Value = { List LoadedObject };

    ghost view = { λ c. loaded_views c.objects.now };

    ghost invariant = { λ c. AreOwnChoices (loaded_views c.objects.now) c.definitions.now c.own.items };
}

/// Notes the position of a symbol at its numbers.
fn note_position(positions: &mut [Vec<u32>], symbol: SymbolRef, position: u32) {
    let (object, number) = (symbol.object.0 as usize, symbol.symbol as usize);
    if object < positions.len() && number < positions[object].len() {
        positions[object][number] = position;
    }
}

/// The positions of symbols in a list, by their numbers.
fn positions_of(
    alloc: Global,
    objects: &[Loaded<'_>],
    definitions: &Definitions<'_, '_>,
) -> Result<Vec<Vec<u32>>, AllocError> {
    let mut positions = Vec::with_capacity(alloc, objects.len())?;
    for loaded in objects {
        positions.push(filled(alloc, u32::MAX, loaded.object.symbols().len())?)?;
    }
    for i in 0..definitions.len() {
        if let (Some(symbol), Ok(position)) = (definitions.numbers(i), u32::try_from(i)) {
            note_position(&mut positions, symbol, position);
        }
    }
    Ok(positions)
}

/// The numbers of the object and of the symbol that a line of the map names.
fn numbers_in(definition: Definition) -> Option<(usize, usize)> {
    match definition {
        Definition::Strong { object, symbol } | Definition::Weak { object, symbol } => {
            Some((object as usize, symbol as usize))
        }
        Definition::Common | Definition::Linker => None,
    }
}

/// Whether a position has a mark.
fn is_marked(own: &[bool], position: usize) -> bool
    ensures { IsTrue result → slice_get own.now position ≡ Some true }
{
    match own.get(position) {
        Some(mark) => *mark,
        None => false,
    }
}

impl<'b, 'a> OwnChoices<'b, 'a> {
    /// The definitions that names have, with marks for them.
    pub fn new(
        alloc: Global,
        bindings: &'b Bindings<'_, '_, 'a>,
        own: Vec<bool>,
    ) -> Result<OwnChoices<'b, 'a>, AllocError>
        requires { AreOwnChoices bindings.now.objects
            (filter is_definition (all_symbols bindings.now.objects)) own.items }
        ensures { IfOk result (λ c. c ≡ bindings.now.objects) }
    {
        let objects = bindings.objects();
        let definitions = bindings.definitions();
        let positions = positions_of(alloc, objects, definitions)?;
        Ok(OwnChoices {
            objects,
            definitions,
            own,
            positions,
        })
    }

    /// The position that is noted for what a line names.
    fn position(&self, line: &BorrowedSymbol<'_>) -> Option<usize> {
        let (object, number) = numbers_in(line.definition)?;
        let position = self.positions.get(object)?.get(number)?;
        Some(*position as usize)
    }

    /// The chosen definition of a line's name, where the line names it; None where that isn't known.
    pub fn find(&self, line: &BorrowedSymbol<'_>) -> Option<SymbolOf<'a>>
        ensures { IfSome result (λ s. chosen self.now line.now.name.now
            ≡ Some (symbol_view s)) }
    {
        let position = self.position(line)?;
        if !is_marked(&self.own, position) {
            return None;
        }
        let symbol = self.definitions.get(position)?;
        if symbol.name != line.name {
            return None;
        }
        Some(symbol)
    }
}
