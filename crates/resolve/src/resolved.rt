//! What names and symbols mean among the loaded objects.
ghost use Rattle.std.specs.Prelude.{◌≡◌, ℕ, List, IfErr, IfNone, IfOk, IfSome, OnOk, OnSome, None, Some, cond, false, is_some};
ghost use Rattle.std.specs.List.{slice_get};
ghost use Rattle.std.specs.Option.{option_and_then, option_map, option_map_or};
ghost use Rattle.elf_model.specs.Link.ChosenSymbols.{chosen_symbols};
ghost use Rattle.elf_model.specs.Link.Commons.{block_named, blocks};
ghost use Rattle.elf_model.specs.Link.LinkerNames.{bound_of};
ghost use Rattle.elf_model.specs.Link.Meaning as meaning;
ghost use Rattle.elf_model.specs.Link.Meaning.{is_in_thread_storage, object_meaning};
ghost use Rattle.elf_model.specs.Link.Resolution.{AreSoundCommons, AreSoundSymbols, AreUnique, IsEntry, chosen, is_undefined, symbol_of};
ghost use Rattle.elf_model.specs.Link.Slots.{target_meaning};
ghost use Rattle.search.specs.Views.{loaded_view};
ghost use Rattle.resolve.specs.Blocks.{block_in, block_view, block_views};
ghost use Rattle.resolve.specs.Chosen.{defined_in};
ghost use Rattle.resolve.specs.Defined.{AreDefined};
ghost use Rattle.resolve.specs.Left.{HasNoLinkerNames, HasNoneLeft};
ghost use Rattle.resolve.specs.OutputSections.{AreOutputSections};
ghost use Rattle.resolve.specs.Meaning.{chosen_definition, definition_at, itself_at, named_at, target_at, unchosen_at};
ghost use Rattle.resolve.specs.Refusals.{ResolvingFails};
ghost use Rattle.resolve.specs.Threads.{is_thread_chosen};
ghost use Rattle.resolve.specs.Views.{meaning_view, symbol_view, target_view};
ghost use Rattle.symbols.specs.Rows.{no_rows};

use crate::blocks::{Block, index_of};
use crate::bounds::bound_of;
use crate::definition::Definition;
use crate::definition_list::define;
use crate::definitions::Definitions;
use crate::entries::{SymbolOf, symbol_in};
use crate::faults::ResolveFault;
use crate::linker_names::any_linkers;
use crate::output_sections::{OutputSections, output_sections_of};
use crate::outputs::output_names_of;
use crate::places::{place_at, place_named, places_of};
use crate::sections::is_in_thread_section;
use crate::targets::target_of;
use elf_model::{Bound, NameSeed, Symbol, SymbolRef, Target};
use search::{Loaded, LoadedObject};
use std::alloc::{AllocError, Global};
use std::collections::{BTreeMap, BTreeSet};
use std::marker::Model;
use std::rc::Rc;
use symbols::{IndexedTable, NameTable};

/// The loaded objects, whose symbols are sound and whose names have one strong definition at most, with
/// the definitions that their names and symbols mean.
#[derive(Drop)]
pub struct Resolved<'a> {
    loaded: Loaded<'a>,
    chosen: Vec<SymbolRef>,
    threads: Vec<bool>,
    places: Vec<usize>,
    blocks: Vec<Block<'a>>,
    named_blocks: Rc<BTreeMap<&'a [u8], Block<'a>>>,
    outputs: BTreeSet<&'a [u8]>,
    sections: OutputSections<'a>,
}

impl<'a> Model for Resolved<'a> {
    ghost use Rattle.std.specs.Prelude.{List};
    ghost use Rattle.elf_model.specs.Link.Loading as loading;

    ghost Value = { List loading.LoadedObject };

    ghost use Rattle.resolve.specs.Tables.{AreTables};

    ghost view = { λ r. r.loaded.objects };

    ghost invariant = { λ r. AreTables r.loaded r.chosen.items r.threads.items r.places.items r.blocks.items r.named_blocks.value r.outputs r.sections };
}

/// An index of common blocks that several values hold.
fn shared<'a>(
    alloc: Global,
    index: BTreeMap<&'a [u8], Block<'a>>,
) -> Result<Rc<BTreeMap<&'a [u8], Block<'a>>>, AllocError>
    ensures { IfOk result (λ r. r.value ≡ index.entry) }
{
    match Rc::new(alloc, index) {
        Ok(index) => Ok(index),
        Err(_refused) => Err(AllocError),
    }
}

/// Resolves the names of what is loaded, by their numbers. A table of names, which is empty at the start, finds the common
/// symbols of each block, and is used up.
///
/// # Errors
///
/// As `resolve`.
pub fn resolve_in<'a, T: NameTable<'a> + Drop>(
    alloc: Global,
    loaded: &Loaded<'a>,
    table: T,
) -> Result<Resolved<'a>, ResolveFault>
    requires { T.rows table ≡ no_rows }
    ensures exact { IfOk result (λ r. r ≡ loaded.now.objects) }
    ensures resolved { OnOk result (AreSoundCommons loaded.now.objects
        × AreSoundSymbols loaded.now.objects × AreUnique loaded.now.objects) }
    ensures fault { IfErr result (ResolvingFails loaded.now.objects) }
{
    let objects = loaded.objects();
    let mut offered = table;
    let defined = define(alloc, loaded, &mut offered)?;
    let places = places_of(alloc, loaded, &defined.symbols)?;
    let named_blocks = index_of(alloc, &defined.blocks)?;
    let sections = output_sections_of(alloc, loaded.name_seed(), objects)?;
    let outputs = output_names_of(alloc, &sections)?;
    Ok(Resolved {
        loaded: loaded.clone()?,
        chosen: defined.symbols,
        threads: defined.threads,
        places,
        blocks: defined.blocks,
        named_blocks: shared(alloc, named_blocks)?,
        outputs,
        sections,
    })
}

/// Resolves the names of what is loaded, as `resolve_in` with a table that finds names by hash.
///
/// # Errors
///
/// BadCommon where a common symbol isn't sound, BadSymbol where another one isn't, Duplicate where a name has two
/// strong definitions, Memory.
pub fn resolve<'a>(alloc: Global, loaded: &Loaded<'a>) -> Result<Resolved<'a>, ResolveFault>
    ensures exact { IfOk result (λ r. r ≡ loaded.now.objects) }
    ensures resolved { OnOk result (AreSoundCommons loaded.now.objects
        × AreSoundSymbols loaded.now.objects × AreUnique loaded.now.objects) }
    ensures fault { IfErr result (ResolvingFails loaded.now.objects) }
{
    let table = IndexedTable::with_hasher(alloc, NameSeed::fixed());
    resolve_in(alloc, loaded, table)
}

/// Symbol `j` of an object itself, where it is defined.
fn itself<'a>(
    number: u64,
    loaded: &LoadedObject<'a>,
    j: usize,
    entry: &Symbol,
) -> Option<Definition<'a>>
    ensures { option_map meaning_view result
        ≡ cond (is_undefined entry.now) None
        (Some (meaning.Symbol (symbol_of number (loaded_view loaded.now) j entry.now))) }
{
    if entry.is_undefined() {
        return None;
    }
    Some(Definition::Symbol(symbol_in(number, loaded, j, entry)))
}

impl<'a> Resolved<'a> {
    /// The chosen definitions, in load order.
    pub fn definitions(&self) -> Definitions<'_, 'a>
        ensures exact { defined_in result ≡ chosen_symbols self.now }
        ensures defined { AreDefined self.now }
    {
        Definitions::of(&self.loaded, &self.chosen)
    }

    /// The symbol that defines a name; None where no object does.
    pub fn symbol(&self, name: &[u8]) -> Option<SymbolOf<'a>>
        ensures { option_map symbol_view result ≡ chosen self.now name.now }
    {
        let place = place_named(&self.loaded, &self.places, name)?;
        self.definitions().get(place)
    }

    /// The common blocks, in load order.
    pub fn blocks(&self) -> &[Block<'a>]
        ensures exact { block_views result.now ≡ blocks self.now }
        ensures sound { AreSoundCommons self.now }
    {
        self.blocks.as_slice()
    }

    /// The common blocks by their names, as several values may hold them.
    pub fn named_blocks(&self) -> &Rc<BTreeMap<&'a [u8], Block<'a>>>
        ensures { (name : List ℕ) → block_in result.now.value name ≡ block_named self.now name }
    {
        &self.named_blocks
    }

    /// The common block of a name; None where it has none.
    fn block(&self, name: &[u8]) -> Option<Block<'a>>
        ensures { option_map block_view result ≡ block_named self.now name.now }
    {
        self.named_blocks.get(name).copied()
    }

    /// What a chosen symbol means: a common one, its name's block; another one, itself.
    pub fn meant(&self, symbol: &SymbolOf<'a>) -> Option<Definition<'a>>
        ensures { option_map meaning_view result ≡ meaning.meant self.now (symbol_view symbol.now) }
    {
        if !symbol.entry.is_common() {
            return Some(Definition::Symbol(*symbol));
        }
        let block = self.block(symbol.name)?;
        Some(Definition::Common(block))
    }

    /// The target of a reference to a symbol: the symbol itself where that is LOCAL, or where there is no such symbol; else
    /// its name.
    pub fn definition(&self, symbol: SymbolRef) -> Target<'a>
        ensures { target_view result ≡ target_at self.now symbol.object.0 symbol.symbol }
    {
        match self.loaded.objects().get(symbol.object.0 as usize) {
            Some(loaded) => target_of(symbol, loaded),
            None => Target::Local(symbol),
        }
    }

    /// The definition that a reference to a symbol uses: as `chosen` of its target, found by the symbol's number, without a
    /// look-up of its name.
    pub fn used(&self, symbol: SymbolRef) -> Option<Definition<'a>>
        ensures { option_map meaning_view result
            ≡ definition_at self.now symbol.object.0 symbol.symbol }
    {
        let object = symbol.object.0 as usize;
        let number = symbol.symbol as usize;
        match self.chosen_meaning(symbol) {
            Some(meaning) => Some(meaning),
            None => self.unchosen(object, number),
        }
    }

    /// What the chosen definition of a symbol's name means, for one that isn't LOCAL.
    fn chosen_meaning(&self, symbol: SymbolRef) -> Option<Definition<'a>>
        ensures { option_map meaning_view result
            ≡ option_and_then (meaning.meant self.now)
            (named_at self.now symbol.object.0 symbol.symbol) }
    {
        let chosen = self.named(symbol)?;
        self.meant(&chosen)
    }

    /// The chosen definition of a symbol's name, for one that isn't LOCAL.
    fn named(&self, symbol: SymbolRef) -> Option<SymbolOf<'a>>
        ensures { option_map symbol_view result ≡ named_at self.now symbol.object.0 symbol.symbol }
    {
        let place = place_at(&self.loaded, &self.places, symbol)?;
        self.definitions().get(place)
    }

    /// The place among the chosen definitions of that of a symbol's name, for a symbol that isn't LOCAL; none of them stands
    /// there where no object defines the name. Reads no name.
    pub fn chosen_place(&self, symbol: SymbolRef) -> Option<usize>
        ensures { option_and_then (slice_get (chosen_symbols self.now)) result
            ≡ named_at self.now symbol.object.0 symbol.symbol }
    {
        place_at(&self.loaded, &self.places, symbol)
    }

    /// Whether an object defines the name of a symbol that isn't LOCAL. Reads no name.
    pub fn is_chosen(&self, symbol: SymbolRef) -> bool
        ensures { result ≡ is_some (named_at self.now symbol.object.0 symbol.symbol) }
    {
        match place_at(&self.loaded, &self.places, symbol) {
            Some(place) => self.chosen.get(place).is_some(),
            None => false,
        }
    }

    /// Whether what an object defines the name of a symbol as, which isn't LOCAL, stands in a section with SHF_TLS; None
    /// where no object defines the name. Reads no name and no section.
    #[tactic(auto, using(crate::proofs::ThreadFlags::flag_at))]
    pub fn chosen_thread(&self, symbol: SymbolRef) -> Option<bool>
        ensures { result ≡ option_map (is_thread_chosen self.now)
            (named_at self.now symbol.object.0 symbol.symbol) }
    {
        let place = place_at(&self.loaded, &self.places, symbol)?;
        self.threads.get(place).copied()
    }

    /// Whether symbols that aren't LOCAL may have a name that no object defines. Where it is false, none has it.
    pub fn is_left(&self, name: &[u8]) -> bool
        ensures { result ≡ false → HasNoneLeft self.now name.now }
    {
        let _objects = self.loaded.objects();
        let _named = self.loaded.name_count();
        match self.loaded.find_name(name) {
            Some(_number) => self.symbol(name).is_none(),
            None => false,
        }
    }

    /// Whether a name that a symbol may have, which isn't LOCAL, is one that the linker defines and no object does. Where it
    /// is false, no symbol has such a name. Reads names that no object defines, and no others.
    pub fn has_linker_names(&self) -> bool
        ensures { result ≡ false → HasNoLinkerNames self.now }
    {
        let _objects = self.loaded.objects();
        let _named = self.loaded.name_count();
        any_linkers(&self.loaded, &self.chosen, &self.places, &self.outputs)
    }

    /// The output sections of the kept sections, and which one each of these is of.
    pub fn output_sections(&self) -> &OutputSections<'a>
        ensures { AreOutputSections self.now result.now }
    {
        &self.sections
    }

    /// What the linker itself defines a name as, whether or not an object does.
    pub fn bound(&self, name: &[u8]) -> Option<Bound>
        ensures { result ≡ bound_of self.now name.now }
    {
        bound_of(&self.outputs, name)
    }

    /// What the linker defines for a name.
    fn linker_meaning(&self, name: &'a [u8]) -> Option<Definition<'a>>
        ensures { option_map meaning_view result
            ≡ option_map (meaning.Linker name.now) (bound_of self.now name.now) }
    {
        let bound = self.bound(name)?;
        Some(Definition::Linker(name, bound))
    }

    /// The loaded object that has a number.
    fn object_at(&self, object: usize) -> Option<&LoadedObject<'a>>
        ensures { option_map (λ o. loaded_view o.now) result ≡ slice_get self.now object }
    {
        self.loaded.objects().get(object)
    }

    /// A symbol itself, for a LOCAL one that is defined; what the linker defines for the name of another one.
    fn unchosen(&self, object: usize, number: usize) -> Option<Definition<'a>>
        ensures { option_map meaning_view result ≡ unchosen_at self.now object number }
    {
        let loaded = self.object_at(object)?;
        let entry = loaded.object.symbol(number);
        if entry.is_local() {
            return itself(object as u64, loaded, number, &entry);
        }
        self.linker_meaning(loaded.object.symbol_name(number))
    }

    /// What the chosen definition of a name means.
    fn object_meaning(&self, name: &[u8]) -> Option<Definition<'a>>
        ensures { option_map meaning_view result ≡ object_meaning self.now name.now }
    {
        let defining = self.symbol(name)?;
        self.meant(&defining)
    }

    /// What a name means: what its chosen definition does, or else the linker's.
    fn named_meaning(&self, name: &'a [u8]) -> Option<Definition<'a>>
        ensures { option_map meaning_view result ≡ meaning.meaning self.now name.now }
    {
        match self.object_meaning(name) {
            Some(meaning) => Some(meaning),
            None => self.linker_meaning(name),
        }
    }

    /// A symbol itself; None where it is undefined (as number 0 is), or where there is no such symbol.
    fn own(&self, symbol: SymbolRef) -> Option<Definition<'a>>
        ensures { option_map meaning_view result
            ≡ itself_at self.now symbol.object.0 symbol.symbol }
    {
        let number = symbol.symbol as usize;
        let loaded = self.loaded.objects().get(symbol.object.0 as usize)?;
        let entry = loaded.object.symbol(number);
        itself(symbol.object.0, loaded, number, &entry)
    }

    /// The chosen definition of a target: of a name what its strong, common or weak definition is, or else the linker's; of
    /// a LOCAL symbol that itself, whatever it is; None where that is undefined (as number 0 is), or where there is no such
    /// symbol.
    pub fn chosen(&self, target: &Target<'a>) -> Option<Definition<'a>>
        ensures { option_map meaning_view result
            ≡ chosen_definition self.now (target_view target.now) }
    {
        match target {
            Target::Name(name) => self.named_meaning(name),
            Target::Local(symbol) => self.own(*symbol),
        }
    }

    /// What a slot's target means: of a name as `chosen`; of a symbol what a reference to it uses.
    pub fn target_meaning(&self, target: &Target<'a>) -> Option<Definition<'a>>
        ensures { option_map meaning_view result
            ≡ target_meaning self.now (target_view target.now) }
    {
        match target {
            Target::Name(name) => self.named_meaning(name),
            Target::Local(symbol) => self.used(*symbol),
        }
    }

    /// Whether what a name means stands in a section with SHF_TLS; a common block doesn't, nor does the linker's.
    pub fn is_in_thread_storage(&self, meaning: &Definition<'a>) -> bool
        ensures { result ≡ is_in_thread_storage self.now (meaning_view meaning.now) }
    {
        meaning.is_in_thread_storage(self.loaded.objects())
    }

    /// Whether what a reference to a symbol uses stands in a section with SHF_TLS; one that has no definition doesn't.
    pub fn is_thread_local(&self, symbol: SymbolRef) -> bool
        ensures { result ≡ option_map_or (is_in_thread_storage self.now)
            (definition_at self.now symbol.object.0 symbol.symbol) false }
    {
        match self.used(symbol) {
            Some(meaning) => self.is_in_thread_storage(&meaning),
            None => false,
        }
    }

    /// What the entry's name means by its chosen definition, which stands in no section with SHF_TLS.
    pub fn entry(&self, name: &[u8]) -> Option<Definition<'a>>
        ensures meaning { IfSome result (λ m. object_meaning self.now name.now
            ≡ Some (meaning_view m)) }
        ensures entry { OnSome result (IsEntry self.now name.now) }
        ensures none { IfNone result (¬ IsEntry self.now name.now) }
    {
        let symbol = self.symbol(name)?;
        if is_in_thread_section(self.loaded.objects(), &symbol) {
            return None;
        }
        self.meant(&symbol)
    }
}
