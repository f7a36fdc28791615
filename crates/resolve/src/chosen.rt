//! The definitions that their names mean, found among the symbols of objects, in load order.
ghost use Rattle.std.specs.Prelude.{◌≡◌, ◌∷◌, ◌++◌, [], IfOk, OnOk, Some, filter, map};
ghost use Rattle.std.specs.List.{slice_get};
ghost use Rattle.elf_model.specs.Link.Commons.{is_common_symbol};
ghost use Rattle.elf_model.specs.Inputs.ObjectFile.{symbols};
ghost use Rattle.elf_model.specs.Link.Resolution.{all_symbols, symbol_of, symbols_from};
ghost use Rattle.search.specs.Views.{loaded_view, loaded_views};
ghost use Rattle.resolve.specs.Offered.{ref_of};
ghost use Rattle.resolve.specs.Owned.{is_kept};
ghost use Rattle.resolve.specs.Threads.{is_thread_chosen};
ghost use Rattle.resolve.specs.Views.{symbol_view, symbol_views};

use crate::entries::{SymbolOf, is_dropped, named_symbol, symbol_ref};
use crate::owners::is_owner;
use crate::sections::is_in_thread_section;
use elf_model::{Symbol, SymbolRef};
use search::{Loaded, LoadedObject};
use std::alloc::{AllocError, Global};
use symbols::{Owner, is_definition};

/// The chosen definitions, in load order.
#[derive(Drop)]
pub struct Chosen<'a> {
    /// Their numbers.
    pub symbols: Vec<SymbolRef>,
    /// Whether each is thread-local.
    pub threads: Vec<bool>,
    /// Those that are common.
    pub commons: Vec<SymbolOf<'a>>,
}

/// Whether symbol `j` of object `number` is a definition, and the one that its name means.
fn is_kept(
    loaded: &Loaded<'_>,
    owners: &[Owner],
    number: u64,
    own: &LoadedObject<'_>,
    j: usize,
    entry: &Symbol,
) -> bool
    ensures { result
        ≡ is_kept loaded.now owners.now (symbol_of number (loaded_view own.now) j entry.now) }
{
    is_owner(loaded, owners, number, j) && is_definition(entry, is_dropped(own, entry))
}

/// Whether what a chosen symbol means stands in a section with SHF_TLS; a common block doesn't.
fn is_thread_chosen(objects: &[LoadedObject<'_>], symbol: &SymbolOf<'_>) -> bool
    ensures { result ≡ is_thread_chosen (loaded_views objects.now) (symbol_view symbol.now) }
{
    if symbol.entry.is_common() {
        return false;
    }
    is_in_thread_section(objects, symbol)
}

impl<'a> Chosen<'a> {
    /// Adds a definition.
    fn add(&mut self, objects: &[LoadedObject<'a>], symbol: &SymbolOf<'a>) -> Result<(), AllocError>
        ensures symbols { OnOk result (self.new.symbols.items
            ≡ self.old.symbols.items ++ ref_of (symbol_view symbol.now) ∷ []) }
        ensures threads { OnOk result (self.new.threads.items
            ≡ self.old.threads.items
            ++ is_thread_chosen (loaded_views objects.now) (symbol_view symbol.now) ∷ []) }
        ensures commons { OnOk result (symbol_views self.new.commons.items
            ≡ symbol_views self.old.commons.items
            ++ filter is_common_symbol (symbol_view symbol.now ∷ [])) }
    {
        self.symbols
            .push(symbol_ref(symbol.object, symbol.number as usize))?;
        self.threads.push(is_thread_chosen(objects, symbol))?;
        if symbol.entry.is_common() {
            self.commons.push(*symbol)?;
        }
        Ok(())
    }

    /// Adds those of object `number`.
    fn add_object(
        &mut self,
        loaded: &Loaded<'a>,
        owners: &[Owner],
        number: u64,
        own: &LoadedObject<'a>,
    ) -> Result<(), AllocError>
        requires { slice_get loaded.now.objects number ≡ Some (loaded_view own.now) }
        ensures symbols { OnOk result (self.new.symbols.items
            ≡ self.old.symbols.items
            ++ map ref_of (filter (is_kept loaded.now owners.now)
            (symbols_from number (loaded_view own.now) 0 (symbols own.now.object)))) }
        ensures threads { OnOk result (self.new.threads.items
            ≡ self.old.threads.items
            ++ map (is_thread_chosen loaded.now.objects) (filter (is_kept loaded.now owners.now)
            (symbols_from number (loaded_view own.now) 0 (symbols own.now.object)))) }
        ensures commons { OnOk result (symbol_views self.new.commons.items
            ≡ symbol_views self.old.commons.items
            ++ filter is_common_symbol (filter (is_kept loaded.now owners.now)
            (symbols_from number (loaded_view own.now) 0 (symbols own.now.object)))) }
    {
        let objects = loaded.objects();
        let entries = own.object.symbols();
        for j in 0..entries.len() {
            let entry = entries.at(j);
            if is_kept(loaded, owners, number, own, j, &entry) {
                self.add(objects, &named_symbol(loaded, number, own, j, &entry))?;
            }
        }
        Ok(())
    }
}

/// The chosen definitions of all objects.
pub fn chosen_of<'a>(
    alloc: Global,
    loaded: &Loaded<'a>,
    owners: &[Owner],
) -> Result<Chosen<'a>, AllocError>
    ensures symbols { IfOk result (λ c. c.symbols.items
        ≡ map ref_of (filter (is_kept loaded.now owners.now) (all_symbols loaded.now.objects))) }
    ensures threads { IfOk result (λ c. c.threads.items
        ≡ map (is_thread_chosen loaded.now.objects)
        (filter (is_kept loaded.now owners.now) (all_symbols loaded.now.objects))) }
    ensures commons { IfOk result (λ c. symbol_views c.commons.items
        ≡ filter is_common_symbol
        (filter (is_kept loaded.now owners.now) (all_symbols loaded.now.objects))) }
{
    let mut chosen = Chosen {
        symbols: Vec::with_capacity(alloc, loaded.name_count())?,
        threads: Vec::with_capacity(alloc, loaded.name_count())?,
        commons: Vec::new(alloc),
    };
    let all = loaded.objects();
    for (k, own) in all.iter().enumerate() {
        chosen.add_object(loaded, owners, k as u64, own)?;
    }
    Ok(chosen)
}
