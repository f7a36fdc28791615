//! The definitions of loaded objects: each is kept by its numbers, and what else is told of it is read where its object has
//! it.
ghost use Rattle.std.specs.Prelude.{◌≡◌, ◌++◌, IfOk, OnOk, false, filter, length, map, option_map};
ghost use Rattle.std.specs.List.{slice_get};
ghost use Rattle.std.specs.Option.{option_map_or};
ghost use Rattle.elf_model.specs.Inputs.ObjectFile.{symbols};
ghost use Rattle.elf_model.specs.Link.ChosenSymbols.{definitions, is_definition};
ghost use Rattle.elf_model.specs.Link.Commons.{is_common_symbol};
ghost use Rattle.elf_model.specs.Link.Resolution.{is_strong, symbol_of, symbols_from};
ghost use Rattle.check_load.specs.Views.{loaded_view, loaded_views};
ghost use Rattle.check_link.specs.DefinitionList.{name_in, name_there, ref_of, symbol_at, unnamed};
ghost use Rattle.check_link.specs.Views.{symbol_view};

use crate::definitions::{is_common, is_definition, is_strong};
use crate::things::SymbolOf;
use check_load::Loaded;
use elf_model::{ObjectId, Symbol, SymbolRef};
use std::alloc::{AllocError, Global};
use std::marker::Model;

/// The definitions of loaded objects, strong, common and weak, in load order, by their positions from 0 on.
#[derive(Drop)]
pub struct Definitions<'l, 'a> {
    objects: &'l [Loaded<'a>],
    numbers: Vec<SymbolRef>,
}

impl<'l, 'a> Model for Definitions<'l, 'a> {
    ghost use Rattle.std.specs.Prelude.{◌≡◌, List, map};
    ghost use Rattle.elf_model.specs.Link.ChosenSymbols.{definitions};
    ghost use Rattle.elf_model.specs.Link.Resolution.{SymbolOf};
    ghost use Rattle.check_load.specs.Views.{loaded_views};
    ghost use Rattle.check_link.specs.DefinitionList.{ref_of};

    ghost Value = { List SymbolOf };

    ghost view = { λ d. definitions (loaded_views d.objects.now) };

    ghost invariant = { λ d. d.numbers.items ≡ map ref_of (definitions (loaded_views d.objects.now)) };
}

/// Symbol `j` of object `number`, which has the entry, without its name.
fn unnamed<'a>(number: u64, loaded: &Loaded<'_>, j: usize, entry: Symbol) -> SymbolOf<'a>
    ensures { symbol_view result ≡ unnamed (symbol_of number (loaded_view loaded.now) j entry) }
{
    SymbolOf {
        object: number,
        number: j as u64,
        name: &[],
        entry,
        dropped: loaded.is_dropped(entry.st_shndx as usize),
    }
}

/// Symbol `j` of object `number`, which has the entry.
fn named<'a>(number: u64, loaded: &Loaded<'a>, j: usize, entry: Symbol) -> SymbolOf<'a>
    ensures { symbol_view result ≡ symbol_of number (loaded_view loaded.now) j entry }
{
    SymbolOf {
        object: number,
        number: j as u64,
        name: loaded.object.symbol_name(j),
        entry,
        dropped: loaded.is_dropped(entry.st_shndx as usize),
    }
}

/// The symbol that has an object's and its own number, without its name; None where there is none.
fn unnamed_at<'a>(objects: &[Loaded<'_>], symbol: SymbolRef) -> Option<SymbolOf<'a>>
    ensures { option_map symbol_view result ≡ option_map unnamed
        (symbol_at (loaded_views objects.now) symbol.object.0 symbol.symbol) }
{
    let j = symbol.symbol as usize;
    let loaded = objects.get(symbol.object.0 as usize)?;
    let entry = loaded.object.symbols().get(j)?;
    Some(unnamed(symbol.object.0, loaded, j, entry))
}

/// The symbol that has an object's and its own number; None where there is none.
fn named_at<'a>(objects: &[Loaded<'a>], symbol: SymbolRef) -> Option<SymbolOf<'a>>
    ensures { option_map symbol_view result
        ≡ symbol_at (loaded_views objects.now) symbol.object.0 symbol.symbol }
{
    let j = symbol.symbol as usize;
    let loaded = objects.get(symbol.object.0 as usize)?;
    let entry = loaded.object.symbols().get(j)?;
    Some(named(symbol.object.0, loaded, j, entry))
}

/// The name of the symbol that has an object's and its own number; an empty one where there is none.
fn name_at<'a>(objects: &[Loaded<'a>], symbol: SymbolRef) -> &'a [u8]
    ensures { result.now ≡ name_there (loaded_views objects.now) symbol.object.0 symbol.symbol }
{
    match objects.get(symbol.object.0 as usize) {
        Some(loaded) => loaded.object.symbol_name(symbol.symbol as usize),
        None => &[],
    }
}

/// Adds the numbers of the definitions of object `number`.
fn add_numbers(
    found: &mut Vec<SymbolRef>,
    number: u64,
    loaded: &Loaded<'_>,
) -> Result<(), AllocError>
    ensures { OnOk result (found.new.items
        ≡ found.old.items
        ++ map ref_of (filter is_definition
        (symbols_from number (loaded_view loaded.now) 0 (symbols loaded.now.object)))) }
{
    let entries = loaded.object.symbols();
    for j in 0..entries.len() {
        let symbol = unnamed(number, loaded, j, entries.at(j));
        if is_definition(&symbol) {
            found.push(SymbolRef {
                object: ObjectId(number),
                symbol: j as u64,
            })?;
        }
    }
    Ok(())
}

/// The numbers of the definitions of objects, in load order.
fn numbers_of(alloc: Global, objects: &[Loaded<'_>]) -> Result<Vec<SymbolRef>, AllocError>
    ensures { IfOk result (λ v. v.items ≡ map ref_of (definitions (loaded_views objects.now))) }
{
    let mut found = Vec::new(alloc);
    for (k, loaded) in objects.iter().enumerate() {
        add_numbers(&mut found, k as u64, loaded)?;
    }
    found.shrink_to_fit();
    Ok(found)
}

impl<'l, 'a> Definitions<'l, 'a> {
    /// Those of objects.
    pub fn new(alloc: Global, objects: &'l [Loaded<'a>]) -> Result<Definitions<'l, 'a>, AllocError>
        ensures { IfOk result (λ d. d ≡ definitions (loaded_views objects.entry.now)) }
    {
        let numbers = numbers_of(alloc, objects)?;
        Ok(Definitions { objects, numbers })
    }

    /// How many they are.
    pub fn len(&self) -> usize
        ensures { result ≡ length self.now }
    {
        self.numbers.len()
    }

    /// The numbers of the one at a position; None past the end.
    pub fn numbers(&self, position: usize) -> Option<SymbolRef>
        ensures { result ≡ option_map ref_of (slice_get self.now position) }
    {
        self.numbers.get(position).copied()
    }

    /// The one at a position without its name, which isn't read; None past the end.
    pub fn unnamed(&self, position: usize) -> Option<SymbolOf<'a>>
        ensures { option_map symbol_view result ≡ option_map unnamed (slice_get self.now position) }
    {
        match self.numbers(position) {
            Some(symbol) => unnamed_at(self.objects, symbol),
            None => None,
        }
    }

    /// Whether the one at a position is a strong one.
    pub fn is_strong(&self, position: usize) -> bool
        ensures { result ≡ option_map_or is_strong (slice_get self.now position) false }
    {
        match self.unnamed(position) {
            Some(symbol) => is_strong(&symbol),
            None => false,
        }
    }

    /// Whether the one at a position is a common one.
    pub fn is_common(&self, position: usize) -> bool
        ensures { result ≡ option_map_or is_common_symbol (slice_get self.now position) false }
    {
        match self.unnamed(position) {
            Some(symbol) => is_common(&symbol),
            None => false,
        }
    }

    /// The one at a position; None past the end.
    pub fn get(&self, position: usize) -> Option<SymbolOf<'a>>
        ensures { option_map symbol_view result ≡ slice_get self.now position }
    {
        match self.numbers(position) {
            Some(symbol) => named_at(self.objects, symbol),
            None => None,
        }
    }

    /// The name of the one at a position; an empty one past the end.
    pub fn name(&self, position: usize) -> &'a [u8]
        ensures { result.now ≡ name_in self.now position }
    {
        match self.numbers(position) {
            Some(symbol) => name_at(self.objects, symbol),
            None => &[],
        }
    }
}
