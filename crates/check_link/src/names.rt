//! The definitions and the common blocks of loaded objects, found by their names.
ghost use Rattle.std.specs.Prelude.{◌≡◌, ◌↔◌, IfOk, IfSome, IsSome, IsTrue, Some, filter, option_map, slice_get};
ghost use Rattle.elf_model.specs.Link.ChosenSymbols.{is_chosen, is_definition};
ghost use Rattle.elf_model.specs.Link.Commons.{block_named, blocks};
ghost use Rattle.elf_model.specs.Link.Loading.{LoadedObject};
ghost use Rattle.elf_model.specs.Link.Meaning.{meant};
ghost use Rattle.elf_model.specs.Link.Resolution.{AreSoundCommons, all_symbols, chosen};
ghost use Rattle.check_load.specs.Numbered.{AreNumbered, name_at};
ghost use Rattle.check_load.specs.Views.{loaded_views};
ghost use Rattle.check_link.specs.Chosen.{AreChosen, AreOtherChoices, AreOwnChoices, IsSized};
ghost use Rattle.check_link.specs.DefinitionList.{unnamed};
ghost use Rattle.check_link.specs.NameIndex.{IsBlockIndex};
ghost use Rattle.check_link.specs.Views.{block_view, block_views, meaning_view, symbol_view};

use crate::chosen_definitions::{
    Chosen, definition_of, has_definition, index_names, is_chosen, number_at, own_choices,
    unnamed_at,
};
use crate::commons::{are_sound_commons, blocks_of, index_blocks};
use crate::definition_list::Definitions;
use crate::definitions::is_common;
use crate::numbering::Numbering;
use crate::things::{Block, Meaning, SymbolOf};
use check_load::{Loaded, NameTable};
use std::alloc::{AllocError, Global};
use std::collections::BTreeMap;
use std::marker::Model;

/// The loaded objects with their definitions and their common blocks in load order, and by their names the positions of
/// the chosen definitions and the blocks.
#[derive(Drop)]
pub struct Names<'l, 'a> {
    objects: &'l [Loaded<'a>],
    definitions: Definitions<'l, 'a>,
    chosen: Chosen<'a>,
    blocks: Vec<Block<'a>>,
    blocks_by_name: BTreeMap<&'a [u8], Block<'a>>,
}

impl<'l, 'a> Model for Names<'l, 'a> {
    ghost use Rattle.std.specs.Prelude.{List};
    ghost use Rattle.elf_model.specs.Link.Loading.{LoadedObject};
    ghost use Rattle.check_load.specs.Views.{loaded_views};
    ghost use Rattle.check_link.specs.NameIndex.{AreNames};

    ghost Value = { List LoadedObject };

    ghost view = { λ n. loaded_views n.objects.now };

    ghost invariant = { λ n. AreNames n.objects.now (loaded_views n.objects.now) n.definitions n.chosen n.blocks.items n.blocks_by_name };
}

/// The common blocks, in load order and by their names.
fn found_blocks<'a>(
    alloc: Global,
    objects: &[Loaded<'a>],
    chosen: &Chosen<'a>,
    definitions: &Definitions<'_, 'a>,
) -> Result<(Vec<Block<'a>>, BTreeMap<&'a [u8], Block<'a>>), AllocError>
    requires sized { IsSized chosen.now }
    requires definitions { definitions.now
        ≡ filter is_definition (all_symbols (loaded_views objects.now)) }
    requires chosen { AreChosen (loaded_views objects.now)
        definitions.now chosen.now }
    ensures blocks { IfOk result (λ r. block_views r.0.items ≡ blocks (loaded_views objects.now)) }
    ensures index { IfOk result (λ r. IsBlockIndex (loaded_views objects.now) r.1) }
{
    let blocks = blocks_of(alloc, objects, chosen, definitions)?;
    let by_name = index_blocks(alloc, &blocks)?;
    Ok((blocks, by_name))
}

impl<'l, 'a> Names<'l, 'a> {
    /// What loaded objects define, given the names whose numbers their symbols have.
    pub fn new(
        alloc: Global,
        objects: &'l [Loaded<'a>],
        names: NameTable<'a>,
    ) -> Result<Names<'l, 'a>, AllocError>
        requires { AreNumbered names objects.now }
        ensures { IfOk result (λ n. n ≡ loaded_views objects.entry.now) }
    {
        let definitions = Definitions::new(alloc, objects)?;
        let chosen = index_names(alloc, objects, &definitions, names)?;
        let (blocks, blocks_by_name) = found_blocks(alloc, objects, &chosen, &definitions)?;
        Ok(Names {
            objects,
            definitions,
            chosen,
            blocks,
            blocks_by_name,
        })
    }

    /// The objects with the names whose numbers their symbols have.
    pub fn numbering(&self) -> Numbering<'_, 'a>
        ensures { loaded_views result.objects.now ≡ self.entry.now }
    {
        Numbering {
            objects: self.objects,
            names: &self.chosen.names,
        }
    }

    /// The loaded objects.
    pub fn objects(&self) -> &[Loaded<'a>]
        ensures { loaded_views result.now ≡ self.entry.now }
    {
        self.objects
    }

    /// The definitions of the objects, strong, common and weak, in load order.
    pub fn definitions(&self) -> &Definitions<'l, 'a>
        ensures { result.now ≡ filter is_definition (all_symbols self.entry.now) }
    {
        &self.definitions
    }

    /// The common blocks, in load order.
    pub fn blocks(&self) -> &[Block<'a>]
        ensures { block_views result.now ≡ blocks self.entry.now }
    {
        &self.blocks
    }

    /// Whether all common symbols are sound.
    pub fn are_sound_commons(&self) -> bool
        ensures { IsTrue result ↔ AreSoundCommons self.now }
    {
        are_sound_commons(self.objects)
    }

    /// The chosen definition of a name; None where it has none.
    pub fn chosen(&self, name: &[u8]) -> Option<SymbolOf<'a>>
        ensures { option_map symbol_view result ≡ chosen self.now name.now }
    {
        definition_of(&self.chosen, &self.definitions, name)
    }

    /// The chosen definition of a symbol's name, without that name, given the symbol's object's and its own number, where loading
    /// noted the name. It isn't read.
    pub fn noted_choice(&self, object: u64, number: u64) -> Option<SymbolOf<'a>>
        ensures { IfSome result (λ s. (o : LoadedObject) → slice_get self.now object ≡ Some o
            → option_map unnamed (chosen self.now (name_at o.bytes number)) ≡ Some (symbol_view s)) }
    {
        let known = number_at(self.objects, object, number)?;
        unnamed_at(&self.chosen, &self.definitions, known)
    }

    /// Whether the name of a symbol has a chosen definition, given the symbol's object's and its own number, where loading noted
    /// the name. Neither of them is read.
    pub fn has_noted_choice(&self, object: u64, number: u64) -> bool
        ensures { IsTrue result → (o : LoadedObject) → slice_get self.now object ≡ Some o
            → IsSome (chosen self.now (name_at o.bytes number)) }
    {
        match number_at(self.objects, object, number) {
            Some(known) => has_definition(&self.chosen, &self.definitions, known),
            None => false,
        }
    }

    /// Whether a symbol is the chosen definition of its name.
    pub fn is_chosen(&self, symbol: &SymbolOf<'a>) -> bool
        ensures { result ≡ is_chosen self.now (symbol_view symbol.now) }
    {
        is_chosen(&self.chosen, &self.definitions, symbol)
    }

    /// A mark for each definition: whether it is the chosen one of its name.
    pub fn own_choices(&self, alloc: Global) -> Result<Vec<bool>, AllocError>
        ensures own { IfOk result (λ v. AreOwnChoices self.now
            (filter is_definition (all_symbols self.now)) v.items) }
        ensures others { IfOk result (λ v. AreOtherChoices self.now
            (filter is_definition (all_symbols self.now)) v.items) }
    {
        let marks = own_choices(alloc, &self.chosen, &self.definitions)?;
        Ok(marks)
    }

    /// The common block of a name; None where it has none.
    pub fn block(&self, name: &[u8]) -> Option<Block<'a>>
        ensures { option_map block_view result ≡ block_named self.now name.now }
    {
        self.blocks_by_name.get(name).copied()
    }

    /// What a chosen definition means: a common one, its name's block; another one, itself.
    pub fn meant(&self, symbol: &SymbolOf<'a>) -> Option<Meaning<'a>>
        ensures { option_map meaning_view result ≡ meant self.now (symbol_view symbol.now) }
    {
        if !is_common(symbol) {
            return Some(Meaning::Symbol(*symbol));
        }
        let block = self.block(symbol.name)?;
        Some(Meaning::Common(block))
    }
}
