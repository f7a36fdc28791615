//! The LOCAL symbols of objects, found by their names and by the values that their entries have to have.
ghost use Rattle.std.specs.Prelude.{◌≡◌, ◌↔◌, ◌<◌, ◌≤◌, ◌++◌, ℕ, All, Any, IfOk, IsPermutation, IsTrue, OnOk, length, slice_index_or};
ghost use Rattle.std.specs.List.Sorted.{IsNonDecreasingBy};
ghost use Rattle.elf_model.specs.Inputs.ObjectFile.{symbols};
ghost use Rattle.elf_model.specs.Link.Resolution.{all_symbols, symbol_of, symbols_from};
ghost use Rattle.check_link.specs.Views.{symbol_view};
ghost use Rattle.check_load.specs.Views.{loaded_view};
ghost use Rattle.symbol_judge.specs.Locals.{IsKeyed, IsLocalBy, key_of, listed, local_in, locals_in};

use crate::meanings::Meanings;
use crate::wanted::{VALUES, Wanted, fits};
use check_link::{Meaning, SymbolOf};
use check_load::{Loaded, NameTable};
use elf_model::{SHN_UNDEF, SectionHeader, Symbol};
use std::alloc::{AllocError, Global};
use std::marker::Model;

/// A LOCAL symbol of an object: what its entry has to be, the number of its name, and by what it is found.
#[derive(Clone, Copy, Debug)]
pub struct Local {
    pub key: u128,
    pub number: usize,
    pub wanted: Wanted,
}

/// By what a symbol is found whose name has a number and whose entry has a value.
fn key_of(number: usize, value: u128) -> u128
    ensures { result ≡ key_of number value }
{
    number as u128 * VALUES + value % VALUES
}

/// Symbol `j` of object `number`, which has the entry.
pub fn symbol_of<'a>(number: u64, loaded: &Loaded<'a>, j: usize, entry: Symbol) -> SymbolOf<'a>
    ensures { symbol_view result ≡ symbol_of number (loaded_view loaded.now) j entry }
{
    SymbolOf {
        object: number,
        number: j as u64,
        name: loaded.object.symbol_name(j),
        entry,
        dropped: loaded.is_dropped(entry.st_shndx as usize),
    }
}

/// What is kept of a symbol: None of one that isn't LOCAL, that isn't defined, whose name no entry has, or that the image lacks.
fn local_of<'a>(
    meanings: &Meanings<'_, '_, 'a>,
    names: &NameTable<'_>,
    symbol: &SymbolOf<'a>,
) -> Option<Local>
    ensures { result ≡ local_in meanings.now names.now (symbol_view symbol.now) }
{
    if !symbol.entry.is_local() || symbol.entry.st_shndx == SHN_UNDEF {
        return None;
    }
    let Some(number) = names.find(symbol.name) else {
        return None;
    };
    match meanings.wanted_at(&Meaning::Symbol(*symbol)) {
        Some(wanted) => Some(Local {
            key: key_of(number, wanted.value),
            number,
            wanted,
        }),
        None => None,
    }
}

/// Puts one behind others, where there is one.
fn add_local(found: &mut Vec<Local>, local: Option<Local>) -> Result<(), AllocError>
    ensures { OnOk result (found.new.items ≡ found.old.items ++ listed local) }
{
    if let Some(local) = local {
        found.push(local)?;
    }
    Ok(())
}

/// Adds those of object `number`.
fn add_locals<'a>(
    found: &mut Vec<Local>,
    meanings: &Meanings<'_, '_, 'a>,
    names: &NameTable<'_>,
    number: u64,
    loaded: &Loaded<'a>,
) -> Result<(), AllocError>
    ensures { OnOk result (found.new.items
        ≡ found.old.items
        ++ locals_in meanings.now names.now
        (symbols_from number (loaded_view loaded.now) 0 (symbols loaded.now.object))) }
{
    let entries = loaded.object.symbols();
    for j in 0..entries.len() {
        let symbol = symbol_of(number, loaded, j, entries.at(j));
        add_local(found, local_of(meanings, names, &symbol))?;
    }
    Ok(())
}

/// Those of all objects.
fn found_locals(
    alloc: Global,
    meanings: &Meanings<'_, '_, '_>,
    names: &NameTable<'_>,
) -> Result<Vec<Local>, AllocError>
    ensures { IfOk result (λ v. v.items
        ≡ locals_in meanings.now names.now (all_symbols meanings.now.objects)) }
{
    let objects = meanings.objects();
    let mut found = Vec::new(alloc);
    for k in 0..objects.len() {
        add_locals(&mut found, meanings, names, k as u64, &objects[k])?;
    }
    Ok(found)
}

/// Symbols by rising keys.
fn by_key(found: Vec<Local>) -> Result<Vec<Local>, AllocError>
    ensures same { IfOk result (λ v. IsPermutation found.items v.items) }
    ensures rising { IfOk result (λ v. IsNonDecreasingBy (λ x. x.key) v.items) }
{
    let mut found = found;
    found.sort_by_key(|x| x.key)?;
    Ok(found)
}

/// How many of the symbols have keys below one.
fn count_before(table: &[Local], key: u128) -> usize
    requires { IsNonDecreasingBy (λ x. x.key) table.now }
    ensures within { result ≤ length table.now }
    ensures before { (k : ℕ) (d : Local) →
        k < result → (slice_index_or table.now k d).key < key }
    ensures from { (k : ℕ) (d : Local) →
        result ≤ k → k < length table.now → key ≤ (slice_index_or table.now k d).key }
{
    table.partition_point(|x| x.key < key)
}

/// How many of the symbols have keys up to one.
fn count_through(table: &[Local], key: u128) -> usize
    requires { IsNonDecreasingBy (λ x. x.key) table.now }
    ensures within { result ≤ length table.now }
    ensures through { (k : ℕ) (d : Local) →
        k < result → (slice_index_or table.now k d).key ≤ key }
    ensures behind { (k : ℕ) (d : Local) →
        result ≤ k → k < length table.now → key < (slice_index_or table.now k d).key }
{
    table.partition_point(|x| x.key <= key)
}

/// Whether a symbol's name has a number, and an entry is what the symbol asks for.
fn is_local_by(sections: &[SectionHeader], number: usize, entry: &Symbol, local: &Local) -> bool
    ensures { IsTrue result ↔ IsLocalBy sections.now number entry.now local.now }
{
    local.number == number && fits(sections, entry, &local.wanted)
}

fn any_local(sections: &[SectionHeader], number: usize, entry: &Symbol, part: &[Local]) -> bool
    ensures { IsTrue result ↔ Any (IsLocalBy sections.now number entry.now) part.now }
{
    for local in part {
        if is_local_by(sections, number, entry, local) {
            return true;
        }
    }
    false
}

/// Whether an entry is what one of the symbols of a name asks for. It looks at those alone that have its value.
fn has_local(sections: &[SectionHeader], number: usize, entry: &Symbol, table: &[Local]) -> bool
    requires { IsKeyed table.now }
    ensures { IsTrue result ↔ Any (IsLocalBy sections.now number entry.now) table.now }
{
    let key = key_of(number, entry.st_value as u128);
    let (through, _later) = table.split_at(count_through(table, key));
    let (_earlier, part) = through.split_at(count_before(through, key));
    any_local(sections, number, entry, part)
}

/// The LOCAL symbols of objects whose names entries have.
#[derive(Drop)]
pub struct Locals {
    table: Vec<Local>,
}

impl Model for Locals {
    ghost use Rattle.std.specs.Prelude.{List};
    ghost use Rattle.symbol_judge.specs.Locals.{IsKeyed};
    ghost use Rattle.symbol_judge.specs.declared.locals.Local.{Local};

    ghost Value = { List Local };

    ghost view = { λ l. l.table.items };

    ghost invariant = { λ l. IsKeyed l.table.items };
}

impl Locals {
    /// Those whose names are among names.
    pub fn new(
        alloc: Global,
        meanings: &Meanings<'_, '_, '_>,
        names: &NameTable<'_>,
    ) -> Result<Locals, AllocError>
        ensures { IfOk result (λ t. IsPermutation
            (locals_in meanings.now names.now (all_symbols meanings.now.objects)) t) }
    {
        let table = by_key(found_locals(alloc, meanings, names)?)?;
        Ok(Locals { table })
    }

    /// Whether an entry is what one of the symbols asks for whose name has a number.
    pub fn has(&self, sections: &[SectionHeader], number: usize, entry: &Symbol) -> bool
        ensures { IsTrue result ↔ Any (IsLocalBy sections.now number entry.now) self.now }
    {
        has_local(sections, number, entry, &self.table)
    }
}
