//! The index of the chosen definitions by their names: of each name the position of its chosen one in the list of the
//! definitions.
ghost use Rattle.std.specs.Prelude.{◌≡◌, ◌≤◌, ◌<◌, ◌+◌, ◌&&◌, ℕ, IfOk, IfSome, IsSomeAnd, List, None, OnOk, Some, cond, false, filter, is_some, length, max, option_map, slice_get, slice_set, true};
ghost use Rattle.std.specs.Option.{option_and_then, option_map_or, option_or};
ghost use Rattle.std.specs.Str.{bytes_eq};
ghost use Rattle.elf_model.specs.Link.ChosenSymbols.{is_definition};
ghost use Rattle.elf_model.specs.Link.Resolution.{all_symbols, has_name};
ghost use Rattle.check_load.specs.NameNumbers.{KeepNumbers, number_of, with_name};
ghost use Rattle.check_load.specs.Numbered.{AreNumbered};
ghost use Rattle.check_load.specs.Views.{loaded_views};
ghost use Rattle.check_link.specs.Chosen.{AreChosen, AreHinted, AreOwnIn, HaveMarks, IsOwn, IsSized, definition_in, first_from, hint_at, is_found, is_of_rank, marked_by, position_at, position_in};
ghost use Rattle.check_link.specs.DefinitionList.{name_in, unnamed};
ghost use Rattle.check_link.specs.Views.{symbol_view};

use crate::definition_list::Definitions;
use crate::definitions::{is_common_definition, is_strong, is_weak_definition};
use crate::things::SymbolOf;
use check_load::{Loaded, NameTable, filled};
use std::alloc::{AllocError, Global};

/// Names, and the position of the chosen definition of each at its number. Names that have no place in the list have none.
#[derive(Drop)]
pub struct Chosen<'a> {
    pub names: NameTable<'a>,
    pub positions: Vec<Option<usize>>,
}

/// Lets there be a place at a number: those that come have no position.
pub fn reach(positions: &mut Vec<Option<usize>>, number: usize) -> Result<(), AllocError>
    ensures same { (i : ℕ) → position_at positions.new.items i ≡ position_at positions.old.items i }
    ensures there { OnOk result (number < length positions.new.items) }
    ensures size { length positions.new.items ≤ max (length positions.old.items) (number + 1) }
{
    while positions.len() <= number {
        positions.push(None)?;
    }
    Ok(())
}

/// The number of the name of a symbol, by its object's and its own number; None where none is kept.
pub fn number_at(objects: &[Loaded<'_>], object: u64, symbol: u64) -> Option<usize>
    ensures { result ≡ hint_at objects.now object symbol }
{
    let loaded = objects.get(object as usize)?;
    loaded.numbers.at(symbol as usize)
}

/// The number of the name of the definition at a position, as loading noted it; None where it noted none.
fn noted_number<'a>(
    objects: &[Loaded<'a>],
    definitions: &Definitions<'_, 'a>,
    position: usize,
) -> Option<usize>
    ensures { IfSome result (λ k. IsSomeAnd (slice_get definitions.now position)
        (λ s. hint_at objects.now s.object s.number ≡ Some k)) }
{
    match definitions.numbers(position) {
        Some(symbol) => number_at(objects, symbol.object.0, symbol.symbol),
        None => None,
    }
}

/// The number of the name of the definition at a position, which gets one unless it has one: only then it is read.
fn number_for<'a>(
    objects: &[Loaded<'a>],
    names: &mut NameTable<'a>,
    definitions: &Definitions<'_, 'a>,
    position: usize,
) -> Result<usize, AllocError>
    requires { AreHinted names.old objects.now definitions.now }
    ensures added { OnOk result (names.new
        ≡ with_name names.old (name_in definitions.now position)) }
    ensures number { IfOk result (λ k. k
        ≡ number_of names.old (name_in definitions.now position)) }
{
    if let Some(known) = noted_number(objects, definitions, position) {
        return Ok(known);
    }
    let (number, _is_new) = names.add(definitions.name(position))?;
    Ok(number)
}

/// Keeps a position, unless there is one.
pub fn keep_first(place: &mut Option<usize>, position: usize)
    ensures { place.new ≡ option_or place.old (Some position) }
{
    if place.is_none() {
        *place = Some(position);
    }
}

/// Puts the position of a definition into the index, unless one of its name is there.
fn add_position<'a>(
    objects: &[Loaded<'a>],
    index: &mut Chosen<'a>,
    definitions: &Definitions<'_, 'a>,
    position: usize,
) -> Result<(), AllocError>
    requires sized { IsSized index.old }
    requires hinted { AreHinted index.old.names objects.now definitions.now }
    ensures sized { OnOk result (IsSized index.new) }
    ensures kept { OnOk result (KeepNumbers index.old.names index.new.names) }
    ensures positions { OnOk result ((n : List ℕ) →
        position_in index.new n
        ≡ option_or (position_in index.old n)
        (cond (bytes_eq (name_in definitions.now position) n) (Some position) None)) }
    ensures own { OnOk result (IsOwn definitions.now index.old → IsOwn definitions.now index.new) }
{
    let number = number_for(objects, &mut index.names, definitions, position)?;
    reach(&mut index.positions, number)?;
    keep_first(&mut index.positions[number], position);
    Ok(())
}

/// Which definitions of a name count before others (System V gABI 4, "Symbol Table"): a strong one before a common one, and
/// that before a weak one.
#[derive(Clone, Copy, Debug)]
pub enum Rank {
    Strong,
    Common,
    Weak,
}

/// Whether a definition is of a rank.
fn is_of(rank: Rank, symbol: &SymbolOf<'_>) -> bool
    ensures { result ≡ is_of_rank rank (symbol_view symbol.now) }
{
    match rank {
        Rank::Strong => is_strong(symbol),
        Rank::Common => is_common_definition(symbol),
        Rank::Weak => is_weak_definition(symbol),
    }
}

/// Whether the definition at a position is of a rank.
fn is_ranked(definitions: &Definitions<'_, '_>, rank: Rank, position: usize) -> bool
    ensures { result
        ≡ option_map_or (is_of_rank rank) (slice_get definitions.now position) false }
{
    match definitions.unnamed(position) {
        Some(symbol) => is_of(rank, &symbol),
        None => false,
    }
}

/// Adds the first one of a rank among definitions of each name that the index hasn't got.
fn add_first<'a>(
    objects: &[Loaded<'a>],
    index: &mut Chosen<'a>,
    definitions: &Definitions<'_, 'a>,
    rank: Rank,
) -> Result<(), AllocError>
    requires sized { IsSized index.old }
    requires hinted { AreHinted index.old.names objects.now definitions.now }
    ensures sized { OnOk result (IsSized index.new) }
    ensures kept { OnOk result (KeepNumbers index.old.names index.new.names) }
    ensures hinted { OnOk result (AreHinted index.new.names objects.now definitions.now) }
    ensures positions { OnOk result ((name : List ℕ) →
        position_in index.new name
        ≡ option_or (position_in index.old name)
        (first_from (λ s. is_of_rank rank s && has_name name s) 0 definitions.now)) }
    ensures own { OnOk result (IsOwn definitions.now index.old → IsOwn definitions.now index.new) }
{
    for i in 0..definitions.len() {
        if !is_ranked(definitions, rank, i) {
            continue;
        }
        add_position(objects, index, definitions, i)?;
    }
    Ok(())
}

/// The chosen definition of each name, by its position. The definitions are those of the objects, whose symbols have numbers of
/// the names.
pub fn index_names<'a>(
    alloc: Global,
    objects: &[Loaded<'a>],
    definitions: &Definitions<'_, 'a>,
    names: NameTable<'a>,
) -> Result<Chosen<'a>, AllocError>
    requires definitions { definitions.now
        ≡ filter is_definition (all_symbols (loaded_views objects.now)) }
    requires numbered { AreNumbered names objects.now }
    ensures sized { IfOk result IsSized }
    ensures numbered { IfOk result (λ c. AreNumbered c.names objects.now) }
    ensures chosen { IfOk result (AreChosen (loaded_views objects.now)
        definitions.now) }
    ensures own { IfOk result (IsOwn definitions.now) }
{
    let mut index = Chosen {
        names,
        positions: Vec::new(alloc),
    };
    add_first(objects, &mut index, definitions, Rank::Strong)?;
    add_first(objects, &mut index, definitions, Rank::Common)?;
    add_first(objects, &mut index, definitions, Rank::Weak)?;
    Ok(index)
}

/// The definition that an index has for a name; None where it has none.
pub fn definition_of<'a>(
    index: &Chosen<'a>,
    definitions: &Definitions<'_, 'a>,
    name: &[u8],
) -> Option<SymbolOf<'a>>
    requires { IsSized index.now }
    ensures { option_map symbol_view result
        ≡ definition_in index.now definitions.now name.now }
{
    let number = index.names.find(name)?;
    definition_at(index, definitions, number)
}

/// The definition that an index has for the name that has a number; None where it has none.
pub fn definition_at<'a>(
    index: &Chosen<'a>,
    definitions: &Definitions<'_, 'a>,
    number: usize,
) -> Option<SymbolOf<'a>>
    ensures { option_map symbol_view result
        ≡ option_and_then (slice_get definitions.now)
        (position_at index.now.positions.items number) }
{
    let position = position_at(&index.positions, number)?;
    definitions.get(position)
}

/// The same without its name, which isn't read.
pub fn unnamed_at<'a>(
    index: &Chosen<'a>,
    definitions: &Definitions<'_, 'a>,
    number: usize,
) -> Option<SymbolOf<'a>>
    ensures { option_map symbol_view result ≡ option_map unnamed
        (option_and_then (slice_get definitions.now)
        (position_at index.now.positions.items number)) }
{
    let position = position_at(&index.positions, number)?;
    definitions.unnamed(position)
}

/// Whether an index has a definition for the name that has a number. It isn't read.
pub fn has_definition(index: &Chosen<'_>, definitions: &Definitions<'_, '_>, number: usize) -> bool
    ensures { result ≡ is_some (option_and_then (slice_get definitions.now)
        (position_at index.now.positions.items number)) }
{
    match position_at(&index.positions, number) {
        Some(position) => definitions.numbers(position).is_some(),
        None => false,
    }
}

/// The position at a number; None where there is none.
pub fn position_at(positions: &[Option<usize>], number: usize) -> Option<usize>
    ensures { result ≡ position_at positions.now number }
{
    match positions.get(number) {
        Some(position) => *position,
        None => None,
    }
}

/// Whether a symbol is the one that an index has for its name.
pub fn is_chosen<'a>(
    index: &Chosen<'a>,
    definitions: &Definitions<'_, 'a>,
    symbol: &SymbolOf<'a>,
) -> bool
    requires { IsSized index.now }
    ensures { result ≡ is_found index.now definitions.now (symbol_view symbol.now) }
{
    match definition_of(index, definitions, symbol.name) {
        Some(chosen) => symbol.object == chosen.object && symbol.number == chosen.number,
        None => false,
    }
}

/// Sets the mark at a position, where there is one.
fn set_mark(marks: &mut [bool], position: usize)
    ensures { marks.new ≡ slice_set marks.old position true }
{
    if position < marks.len() {
        marks[position] = true;
    }
}

/// Sets the mark at a position, if there is one.
fn set_mark_of(marks: &mut [bool], position: Option<usize>)
    ensures { marks.new ≡ marked_by marks.old position }
{
    if let Some(position) = position {
        set_mark(marks, position);
    }
}

/// Marks of definitions that are the chosen ones of their names.
pub fn own_choices(
    alloc: Global,
    index: &Chosen<'_>,
    definitions: &Definitions<'_, '_>,
) -> Result<Vec<bool>, AllocError>
    requires { IsOwn definitions.now index.now }
    ensures own { IfOk result (λ v. AreOwnIn definitions.now index.now v.items) }
    ensures all { IfOk result (λ v. HaveMarks index.now v.items) }
{
    let mut marks = filled(alloc, false, definitions.len())?;
    for position in &index.positions {
        set_mark_of(&mut marks, *position);
    }
    Ok(marks)
}
