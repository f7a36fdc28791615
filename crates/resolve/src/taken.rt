//! The definitions of objects, taken in one after the other: what each name means by them, and which name has two strong ones.
ghost use Rattle.std.specs.Prelude.{◌≡◌, ◌<◌, [], IfOk, None, OnOk, Some, cond, filter, length, option_map, set, slice_index_or};
ghost use Rattle.std.specs.List.{slice_get};
ghost use Rattle.std.specs.Option.{option_or};
ghost use Rattle.elf_model.specs.Link.ChosenSymbols.{is_definition};
ghost use Rattle.elf_model.specs.Link.Loading as loading;
ghost use Rattle.elf_model.specs.Inputs.ObjectFile.{symbols};
ghost use Rattle.elf_model.specs.Link.Resolution.{is_common_definition, symbol_of, symbols_from};
ghost use Rattle.search.specs.Views.{loaded_view};
ghost use Rattle.resolve.specs.Offered.{offers_of};
ghost use Rattle.resolve.specs.Taken.{nothing_taken, taken_after, taken_view, taken_with};
ghost use Rattle.symbols.specs.Offers.{all_offered};
ghost use Rattle.symbols.specs.Owners.{is_second, owner_after};
ghost use Rattle.symbols.specs.declared.owner.Owner.TheVariants as variant;

use crate::candidates::candidate_in;
use crate::entries::{is_dropped, named_symbol, symbol_ref};
use elf_model::Symbol;
use search::{Loaded, LoadedObject};
use std::alloc::{AllocError, Global};
use symbols::{Candidate, NameTable, Owner, is_common_definition, is_definition, take_in};

/// What names mean by the definitions that were taken in.
#[derive(Drop)]
pub struct Taken<'a> {
    /// The definition that each name means, by the name's number.
    pub owners: Vec<Owner>,
    /// The first name of which a second strong definition came.
    pub twin: Option<&'a [u8]>,
}

impl<'a> Taken<'a> {
    /// No definition, of objects whose names have numbers.
    pub fn nothing(alloc: Global, loaded: &Loaded<'a>) -> Result<Taken<'a>, AllocError>
        ensures { IfOk result (λ t. taken_view t ≡ nothing_taken loaded.now) }
    {
        Ok(Taken {
            owners: vec![in alloc; Owner::Nobody; loaded.name_count()]?,
            twin: None,
        })
    }

    /// Takes in a candidate for the name that has a number.
    fn take_named(&mut self, loaded: &Loaded<'a>, named: usize, candidate: Candidate)
        requires { named < length self.old.owners.items }
        ensures owners { self.new.owners.items
            ≡ set self.old.owners.items named
            (owner_after (slice_index_or self.old.owners.items named variant.Nobody) candidate) }
        ensures twin { option_map (λ n. n.now) self.new.twin
            ≡ option_or (option_map (λ n. n.now) self.old.twin)
            (cond (is_second (slice_index_or self.old.owners.items named variant.Nobody) candidate)
            (Some (slice_index_or loaded.now.names named [])) None) }
    {
        if take_in(&mut self.owners, named, candidate) && self.twin.is_none() {
            self.twin = Some(loaded.name(named));
        }
    }

    /// Takes in symbol `j` of object `number`, which is a definition.
    fn take(
        &mut self,
        loaded: &Loaded<'a>,
        number: u64,
        own: &LoadedObject<'a>,
        j: usize,
        entry: &Symbol,
        dropped: bool,
    )
        requires here { slice_get loaded.now.objects number ≡ Some (loaded_view own.now) }
        requires dropped { dropped ≡ loading.is_dropped (loaded_view own.now) entry.now.st_shndx }
        requires sized { length self.old.owners.items ≡ length loaded.now.names }
        ensures taken { taken_view self.new
            ≡ taken_with loaded.now (taken_view self.old)
            (symbol_of number (loaded_view own.now) j entry.now) }
        ensures sized { length self.new.owners.items ≡ length loaded.now.names }
    {
        let _named = loaded.name_count();
        if let Some(named) = loaded.name_number(symbol_ref(number, j)) {
            self.take_named(loaded, named, candidate_in(number, own, j, entry, dropped));
        }
    }

    /// Takes in the definitions of object `number`. The common ones are offered to a table, which finds what each block asks
    /// for.
    pub fn take_object<T: NameTable<'a>>(
        &mut self,
        table: &mut T,
        loaded: &Loaded<'a>,
        number: u64,
        own: &LoadedObject<'a>,
    ) -> Result<(), AllocError>
        requires here { slice_get loaded.now.objects number ≡ Some (loaded_view own.now) }
        requires sized { length self.old.owners.items ≡ length loaded.now.names }
        ensures taken { OnOk result (taken_view self.new
            ≡ taken_after loaded.now (taken_view self.old)
            (filter is_definition
            (symbols_from number (loaded_view own.now) 0 (symbols own.now.object)))) }
        ensures sized { OnOk result (length self.new.owners.items ≡ length loaded.now.names) }
        ensures rows { OnOk result (T.rows table.new
            ≡ all_offered
            (offers_of
            (filter is_common_definition
            (filter is_definition
            (symbols_from number (loaded_view own.now) 0 (symbols own.now.object)))))
            (T.rows table.old)) }
    {
        let entries = own.object.symbols();
        for j in 0..entries.len() {
            let entry = entries.at(j);
            let dropped = is_dropped(own, &entry);
            if is_definition(&entry, dropped) {
                self.take(loaded, number, own, j, &entry, dropped);
                if is_common_definition(&entry, dropped) {
                    let symbol = named_symbol(loaded, number, own, j, &entry);
                    table.offer(symbol.name, candidate_in(number, own, j, &entry, dropped))?;
                }
            }
        }
        Ok(())
    }
}
