//! Symbols that aren't sound, and strong definitions of one name.
ghost use Rattle.std.specs.Prelude.{◌≡◌, OnOk};
ghost use Rattle.elf_model.specs.Inputs.ObjectFile.{symbols};
ghost use Rattle.elf_model.specs.Link.Resolution.{all_symbols, strong_definitions, symbol_of, symbols_from};
ghost use Rattle.search.specs.Views.{loaded_view, loaded_views};
ghost use Rattle.resolve.specs.Offered.{rows_of};
ghost use Rattle.flaws.specs.Flaws.{AddsCommon, AddsDefinition, AddsSymbol, AddsUnsound, AreAdded};

use crate::flaw::{Added, Flaw};
use crate::strong_names::is_twice;
use elf_model::Symbol;
use resolve::{is_dropped, is_sound, is_sound_common, is_strong};
use search::LoadedObject;
use symbols::NameTable;

/// Adds symbol `j` of object `object`, where it isn't sound as a common one.
fn add_common(
    flaws: &mut Vec<Flaw>,
    object: usize,
    one: &LoadedObject<'_>,
    j: usize,
    entry: &Symbol,
) -> Added
    ensures { OnOk result (AddsCommon (symbol_of object (loaded_view one.now) j entry.now)
        flaws.old.items flaws.new.items) }
{
    if is_sound_common(object as u64, one, j, entry) {
        return Ok(());
    }
    flaws.push(Flaw::Common(object as u64, j as u64))?;
    Ok(())
}

/// Adds symbol `j` of object `object`, where it isn't sound.
fn add_unsound(
    flaws: &mut Vec<Flaw>,
    objects: &[LoadedObject<'_>],
    object: usize,
    one: &LoadedObject<'_>,
    j: usize,
    entry: &Symbol,
) -> Added
    ensures { OnOk result (AddsUnsound (loaded_views objects.now)
        (symbol_of object (loaded_view one.now) j entry.now) flaws.old.items flaws.new.items) }
{
    if is_sound(objects, object as u64, one, j, entry) {
        return Ok(());
    }
    flaws.push(Flaw::Symbol(object as u64, j as u64))?;
    Ok(())
}

/// Adds symbol `j` of object `object`, where it is a strong definition of a name that has two. A table has the strong definitions
/// of all objects.
fn add_definition<'a, T: NameTable<'a>>(
    flaws: &mut Vec<Flaw>,
    table: &T,
    _objects: &[LoadedObject<'a>],
    object: usize,
    one: &LoadedObject<'a>,
    j: usize,
    entry: &Symbol,
) -> Added
    requires { T.rows table.now ≡ rows_of (strong_definitions (loaded_views _objects.now)) }
    ensures { OnOk result (AddsDefinition (loaded_views _objects.now)
        (symbol_of object (loaded_view one.now) j entry.now) flaws.old.items flaws.new.items) }
{
    if !is_strong(entry, is_dropped(one, entry)) {
        return Ok(());
    }
    if !is_twice(table, one.object.symbol_name(j)) {
        return Ok(());
    }
    flaws.push(Flaw::Definition(object as u64, j as u64))?;
    Ok(())
}

/// Adds what is wrong with symbol `j` of object `object`.
fn add_symbol<'a, T: NameTable<'a>>(
    flaws: &mut Vec<Flaw>,
    table: &T,
    objects: &[LoadedObject<'a>],
    object: usize,
    one: &LoadedObject<'a>,
    j: usize,
    entry: &Symbol,
) -> Added
    requires { T.rows table.now ≡ rows_of (strong_definitions (loaded_views objects.now)) }
    ensures { OnOk result (AddsSymbol (loaded_views objects.now)
        (symbol_of object (loaded_view one.now) j entry.now) flaws.old.items flaws.new.items) }
{
    add_common(flaws, object, one, j, entry)?;
    add_unsound(flaws, objects, object, one, j, entry)?;
    add_definition(flaws, table, objects, object, one, j, entry)?;
    Ok(())
}

/// Adds what is wrong with the symbols of object `object`.
fn add_symbols<'a, T: NameTable<'a>>(
    flaws: &mut Vec<Flaw>,
    table: &T,
    objects: &[LoadedObject<'a>],
    object: usize,
    one: &LoadedObject<'a>,
) -> Added
    requires { T.rows table.now ≡ rows_of (strong_definitions (loaded_views objects.now)) }
    ensures { OnOk result (AreAdded (AddsSymbol (loaded_views objects.now))
        (symbols_from object (loaded_view one.now) 0 (symbols one.now.object))
        flaws.old.items flaws.new.items) }
{
    let entries = one.object.symbols();
    for j in 0..entries.len() {
        add_symbol(flaws, table, objects, object, one, j, &entries.at(j))?;
    }
    Ok(())
}

/// Adds what is wrong with the symbols of all objects, of which a table has the strong definitions.
pub(crate) fn add_all_symbols<'a, T: NameTable<'a>>(
    flaws: &mut Vec<Flaw>,
    table: &T,
    objects: &[LoadedObject<'a>],
) -> Added
    requires { T.rows table.now ≡ rows_of (strong_definitions (loaded_views objects.now)) }
    ensures { OnOk result (AreAdded (AddsSymbol (loaded_views objects.now))
        (all_symbols (loaded_views objects.now)) flaws.old.items flaws.new.items) }
{
    for k in 0..objects.len() {
        add_symbols(flaws, table, objects, k, &objects[k])?;
    }
    Ok(())
}
