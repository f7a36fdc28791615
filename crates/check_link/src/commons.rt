//! Common symbols: whether they are sound, and the blocks that they ask for, name by name.
ghost use Rattle.std.specs.Prelude.{◌≡◌, ◌∷◌, ◌++◌, ◌↔◌, ℕ, [], All, IfOk, IsTrue, List, None, OnOk, Some, cond, filter, find, length, max, option_map, unwrap_or};
ghost use Rattle.std.specs.List.{slice_get};
ghost use Rattle.std.specs.Option.{option_or};
ghost use Rattle.elf_model.specs.Link.ChosenSymbols.{is_definition};
ghost use Rattle.elf_model.specs.Link.Commons as commons;
ghost use Rattle.elf_model.specs.Link.Commons.{blocks, blocks_from, is_block_of, is_common_symbol};
ghost use Rattle.elf_model.specs.Inputs.ObjectFile.{symbols};
ghost use Rattle.elf_model.specs.Link.Resolution.{AreSoundCommons, all_symbols};
ghost use Rattle.check_load.specs.Views.{loaded_views};
ghost use Rattle.check_link.specs.Chosen.{AreChosen, IsSized};
ghost use Rattle.check_link.specs.Commons.{HasAsked, HasGained, asked_in, block_in, is_block_symbol};
ghost use Rattle.check_link.specs.DefinitionList.{if_there};
ghost use Rattle.check_link.specs.Soundness.{IsSoundEntry};
ghost use Rattle.check_link.specs.Views.{block_view, block_views, symbol_view, symbol_views};

use crate::chosen_definitions::{Chosen, is_chosen};
use crate::definition_list::Definitions;
use crate::definitions::{is_common, is_common_definition};
use crate::things::{Block, SymbolOf};
use check_load::Loaded;
use elf_model::{SHN_COMMON, STB_GLOBAL, STT_TLS, Symbol};
use elf_read::{Run, is_power_of_two};
use std::alloc::{AllocError, Global};
use std::collections::BTreeMap;

/// The greatest alignment that a common symbol may ask for, in bytes.
const GREATEST_ALIGN: u64 = 0x20_0000;

/// What the common symbols of a name ask for: the greatest size and the greatest alignment, in bytes.
#[derive(Clone, Copy, Debug)]
pub struct Asked {
    pub size: u64,
    pub align: u64,
}

/// Whether an entry is sound where it is that of a common symbol: GLOBAL, not of type TLS, and with an alignment that is
/// a power of two up to 2^21.
fn is_sound(entry: &Symbol) -> bool
    ensures { IsTrue result ↔ IsSoundEntry entry.now }
{
    if entry.st_shndx != SHN_COMMON {
        return true;
    }
    if entry.binding() != STB_GLOBAL || entry.symbol_type() == STT_TLS {
        return false;
    }
    is_power_of_two(entry.st_value) && entry.st_value <= GREATEST_ALIGN
}

/// Whether all common ones among entries are sound.
fn all_sound(entries: &Run<'_, Symbol>) -> bool
    ensures { IsTrue result ↔ All IsSoundEntry entries.now }
{
    for j in 0..entries.len() {
        if !is_sound(&entries.at(j)) {
            return false;
        }
    }
    true
}

/// Whether all common symbols of an object are sound.
fn are_sound_in(loaded: &Loaded<'_>) -> bool
    ensures { IsTrue result ↔ All IsSoundEntry (symbols loaded.now.object) }
{
    all_sound(loaded.object.symbols())
}

/// Whether all common symbols of objects are sound.
pub fn are_sound_commons(objects: &[Loaded<'_>]) -> bool
    ensures { IsTrue result ↔ AreSoundCommons (loaded_views objects.now) }
{
    for loaded in objects {
        if !are_sound_in(loaded) {
            return false;
        }
    }
    true
}

/// What a name's common symbols ask for, given what those before one asked for.
fn greater(before: Option<Asked>, entry: &Symbol) -> Asked
    ensures size { result.size ≡ max
        (unwrap_or (option_map (λ a. a.size) before) 0) entry.now.st_size }
    ensures align { result.align ≡ max
        (unwrap_or (option_map (λ a. a.align) before) 0) entry.now.st_value }
{
    match before {
        Some(asked) => Asked {
            size: asked.size.max(entry.st_size),
            align: asked.align.max(entry.st_value),
        },
        None => Asked {
            size: entry.st_size,
            align: entry.st_value,
        },
    }
}

/// Adds what a symbol asks for, where it is a common definition.
fn add_asked<'a>(
    asked: &mut BTreeMap<&'a [u8], Asked>,
    symbol: &SymbolOf<'a>,
) -> Result<(), AllocError>
    ensures { OnOk result (HasGained asked.old asked.new (symbol_view symbol.now)) }
{
    if !is_common_definition(symbol) {
        return Ok(());
    }
    let before = asked.get(symbol.name).copied();
    asked.insert(symbol.name, greater(before, &symbol.entry))?;
    Ok(())
}

/// What common symbols among definitions ask for, name by name.
fn asked_of<'a>(
    alloc: Global,
    commons: &[SymbolOf<'a>],
) -> Result<BTreeMap<&'a [u8], Asked>, AllocError>
    ensures { IfOk result (λ m. HasAsked m (symbol_views commons.now)) }
{
    let mut asked = BTreeMap::new(alloc);
    for symbol in commons {
        add_asked(&mut asked, symbol)?;
    }
    Ok(asked)
}

/// Whether a symbol is a common one, and the one that an index has for its name.
fn is_block_symbol<'a>(
    chosen: &Chosen<'a>,
    definitions: &Definitions<'_, 'a>,
    symbol: &SymbolOf<'a>,
) -> bool
    requires { IsSized chosen.now }
    ensures { result ≡ is_block_symbol chosen.now definitions.now
        (symbol_view symbol.now) }
{
    is_common(symbol) && is_chosen(chosen, definitions, symbol)
}

fn asked_for(asked: &BTreeMap<&[u8], Asked>, name: &[u8]) -> Asked
    ensures size { result.size ≡ asked_in (λ a. a.size) asked.now name.now }
    ensures align { result.align ≡ asked_in (λ a. a.align) asked.now name.now }
{
    match asked.get(name) {
        Some(most) => *most,
        None => Asked { size: 0, align: 0 },
    }
}

/// The block of a common definition's name that has a number, given what all of objects ask for.
fn block_of<'a>(
    objects: &[Loaded<'a>],
    asked: &BTreeMap<&'a [u8], Asked>,
    number: u64,
    symbol: &SymbolOf<'a>,
) -> Block<'a>
    requires { HasAsked asked.now (all_symbols (loaded_views objects.now)) }
    ensures { block_view result
        ≡ commons.block_of (loaded_views objects.now) number (symbol_view symbol.now) }
{
    let most = asked_for(asked, symbol.name);
    Block {
        object: objects.len() as u64,
        number,
        name: symbol.name,
        size: most.size,
        align: most.align,
    }
}

/// Puts the block of a symbol behind the others, where it has one.
fn add_block<'a>(
    objects: &[Loaded<'a>],
    asked: &BTreeMap<&'a [u8], Asked>,
    wanted: bool,
    symbol: &SymbolOf<'a>,
    blocks: &mut Vec<Block<'a>>,
) -> Result<(), AllocError>
    requires { HasAsked asked.now (all_symbols (loaded_views objects.now)) }
    ensures { OnOk result (block_views blocks.new.items
        ≡ block_views blocks.old.items
        ++ blocks_from (loaded_views objects.now) (length blocks.old.items)
        (cond wanted (symbol_view symbol.now ∷ []) [])) }
{
    if !wanted {
        return Ok(());
    }
    let number = blocks.len() as u64;
    blocks.push(block_of(objects, asked, number, symbol))?;
    Ok(())
}

/// The blocks of those common ones among definitions that an index has for their names.
fn add_blocks<'a>(
    alloc: Global,
    objects: &[Loaded<'a>],
    asked: &BTreeMap<&'a [u8], Asked>,
    chosen: &Chosen<'a>,
    definitions: &Definitions<'_, 'a>,
    commons: &[SymbolOf<'a>],
) -> Result<Vec<Block<'a>>, AllocError>
    requires sized { IsSized chosen.now }
    requires asked { HasAsked asked.now (all_symbols (loaded_views objects.now)) }
    ensures { IfOk result (λ v. block_views v.items
        ≡ blocks_from (loaded_views objects.now) 0
        (filter (is_block_symbol chosen.now definitions.now) (symbol_views commons.now))) }
{
    let mut blocks = Vec::new(alloc);
    for symbol in commons {
        let wanted = is_block_symbol(chosen, definitions, symbol);
        add_block(objects, asked, wanted, symbol, &mut blocks)?;
    }
    Ok(blocks)
}

/// The definition at a position, where it is a common one: of no other one the name is read.
fn common_at<'a>(definitions: &Definitions<'_, 'a>, position: usize) -> Option<SymbolOf<'a>>
    ensures { if_there (option_map symbol_view result)
        ≡ filter is_common_symbol (if_there (slice_get definitions.now position)) }
{
    if !definitions.is_common(position) {
        return None;
    }
    definitions.get(position)
}

/// Adds the definition at a position, where it is a common one.
fn add_common<'a>(
    found: &mut Vec<SymbolOf<'a>>,
    definitions: &Definitions<'_, 'a>,
    position: usize,
) -> Result<(), AllocError>
    ensures { OnOk result (symbol_views found.new.items
        ≡ symbol_views found.old.items
        ++ filter is_common_symbol (if_there (slice_get definitions.now position))) }
{
    if let Some(common) = common_at(definitions, position) {
        found.push(common)?;
    }
    Ok(())
}

/// The common ones among definitions.
fn commons_of<'a>(
    alloc: Global,
    definitions: &Definitions<'_, 'a>,
) -> Result<Vec<SymbolOf<'a>>, AllocError>
    ensures { IfOk result (λ v. symbol_views v.items ≡ filter is_common_symbol definitions.now) }
{
    let mut found = Vec::new(alloc);
    for i in 0..definitions.len() {
        add_common(&mut found, definitions, i)?;
    }
    Ok(found)
}

/// The common blocks of objects, given their definitions and an index of the chosen ones.
pub fn blocks_of<'a>(
    alloc: Global,
    objects: &[Loaded<'a>],
    chosen: &Chosen<'a>,
    definitions: &Definitions<'_, 'a>,
) -> Result<Vec<Block<'a>>, AllocError>
    requires sized { IsSized chosen.now }
    requires definitions { definitions.now
        ≡ filter is_definition (all_symbols (loaded_views objects.now)) }
    requires chosen { AreChosen (loaded_views objects.now) definitions.now chosen.now }
    ensures { IfOk result (λ v. block_views v.items ≡ blocks (loaded_views objects.now)) }
{
    let commons = commons_of(alloc, definitions)?;
    let asked = asked_of(alloc, &commons)?;
    let blocks = add_blocks(alloc, objects, &asked, chosen, definitions, &commons)?;
    Ok(blocks)
}

/// Puts a block into an index by names, unless one of its name is there.
fn add_named<'a>(
    index: &mut BTreeMap<&'a [u8], Block<'a>>,
    block: &Block<'a>,
) -> Result<(), AllocError>
    ensures { OnOk result ((name : List ℕ) →
        block_in index.new name
        ≡ option_or (block_in index.old name)
        (cond (is_block_of name (block_view block.now)) (Some (block_view block.now)) None)) }
{
    if !index.contains_key(block.name) {
        index.insert(block.name, *block)?;
    }
    Ok(())
}

/// The first of blocks of each name.
pub fn index_blocks<'a>(
    alloc: Global,
    blocks: &[Block<'a>],
) -> Result<BTreeMap<&'a [u8], Block<'a>>, AllocError>
    ensures { IfOk result (λ m. (name : List ℕ) →
        block_in m name ≡ find (is_block_of name) (block_views blocks.now)) }
{
    let mut index = BTreeMap::new(alloc);
    for block in blocks {
        add_named(&mut index, block)?;
    }
    Ok(index)
}
