//! The chosen definitions of the objects, and their common blocks.
ghost use Rattle.std.specs.Prelude.{◌≡◌, IfErr, IfOk, OnOk, filter};
ghost use Rattle.elf_model.specs.Link.ChosenSymbols.{definitions};
ghost use Rattle.elf_model.specs.Link.Commons.{blocks};
ghost use Rattle.elf_model.specs.Link.Resolution.{is_common_definition};
ghost use Rattle.search.specs.Views.{loaded_views};
ghost use Rattle.resolve.specs.Blocks.{block_views};
ghost use Rattle.resolve.specs.Defined.{AreChosen, AreDefined};
ghost use Rattle.resolve.specs.Offered.{offers_of};
ghost use Rattle.resolve.specs.Refusals.{IsDuplicateOf, ResolvingFails};
ghost use Rattle.resolve.specs.Sound.{AreWhollySound};
ghost use Rattle.resolve.specs.Taken.{nothing_taken, taken_after, taken_view};
ghost use Rattle.resolve.specs.Threads.{AreThreads};
ghost use Rattle.symbols.specs.Offers.{all_offered};
ghost use Rattle.symbols.specs.Rows.{no_rows};

use crate::blocks::{Block, blocks_of};
use crate::chosen::chosen_of;
use crate::faults::ResolveFault;
use crate::soundness::{are_sound_commons, has_wholly_sound};
use crate::taken::Taken;
use elf_model::SymbolRef;
use search::{Loaded, LoadedObject};
use std::alloc::Global;
use symbols::NameTable;

/// The fault of objects of which a symbol isn't sound: whether that is a common one.
fn unsound(objects: &[LoadedObject<'_>]) -> ResolveFault
    requires { ¬ AreWhollySound (loaded_views objects.now) }
    ensures { ResolvingFails (loaded_views objects.now) result }
{
    if !are_sound_commons(objects) {
        return ResolveFault::BadCommon;
    }
    ResolveFault::BadSymbol
}

/// The refusal for a name with two strong definitions.
fn duplicate(alloc: Global, name: &[u8]) -> ResolveFault
    ensures { IsDuplicateOf name.now result }
{
    match Vec::from_slice(alloc, name) {
        Ok(copy) => ResolveFault::Duplicate(copy),
        Err(error) => ResolveFault::from(error),
    }
}

/// What the definitions of all objects, strong, common and weak, mean where they are taken in in load order; symbols are
/// judged object by object before. The common ones are offered to a table.
fn taken_of<'a, T: NameTable<'a>>(
    alloc: Global,
    table: &mut T,
    loaded: &Loaded<'a>,
) -> Result<Taken<'a>, ResolveFault>
    ensures taken { IfOk result (λ t. taken_view t
        ≡ taken_after loaded.now (nothing_taken loaded.now) (definitions loaded.now.objects)) }
    ensures rows { OnOk result (T.rows table.new
        ≡ all_offered
        (offers_of (filter is_common_definition (definitions loaded.now.objects)))
        (T.rows table.old)) }
    ensures sound { OnOk result (AreWhollySound loaded.now.objects) }
    ensures fault { IfErr result (ResolvingFails loaded.now.objects) }
{
    let objects = loaded.objects();
    let mut taken = Taken::nothing(alloc, loaded)?;
    for (k, own) in objects.iter().enumerate() {
        if !has_wholly_sound(objects, k as u64, own) {
            return Err(unsound(objects));
        }
        taken.take_object(table, loaded, k as u64, own)?;
    }
    Ok(taken)
}

/// The chosen definitions of the objects, in load order, and the common blocks.
#[derive(Drop)]
pub struct Defined<'a> {
    /// The numbers of the definitions.
    pub symbols: Vec<SymbolRef>,
    /// Whether each of them is thread-local.
    pub threads: Vec<bool>,
    pub blocks: Vec<Block<'a>>,
}

/// The chosen definitions of the objects and their common blocks. The common ones are offered to a table that was empty, which
/// finds the size and the alignment of each block. BadCommon and BadSymbol where a symbol isn't sound, Duplicate where a name
/// has two strong definitions, Memory where memory is refused.
pub fn define<'a, T: NameTable<'a>>(
    alloc: Global,
    loaded: &Loaded<'a>,
    table: &mut T,
) -> Result<Defined<'a>, ResolveFault>
    requires { T.rows table.old ≡ no_rows }
    ensures chosen { IfOk result (λ d. AreChosen loaded.now.objects d.symbols.items) }
    ensures threads { IfOk result (λ d. AreThreads loaded.now.objects d.threads.items) }
    ensures blocks { IfOk result (λ d. block_views d.blocks.items ≡ blocks loaded.now.objects) }
    ensures defined { OnOk result (AreDefined loaded.now.objects) }
    ensures fault { IfErr result (ResolvingFails loaded.now.objects) }
{
    let objects = loaded.objects();
    let _named = loaded.name_count();
    let taken = taken_of(alloc, table, loaded)?;
    if let Some(name) = taken.twin {
        return Err(duplicate(alloc, name));
    }
    let chosen = chosen_of(alloc, loaded, &taken.owners)?;
    let blocks = blocks_of(alloc, table, objects.len() as u64, &chosen.commons)?;
    Ok(Defined {
        symbols: chosen.symbols,
        threads: chosen.threads,
        blocks,
    })
}
