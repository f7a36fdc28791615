//! The flaws of the phase of resolution.
ghost use Rattle.std.specs.Prelude.{◌≡◌, All, IfOk, length};
ghost use Rattle.flaws.specs.Flaws.{AreResolutionFlaws, AreResolvable, IsFlaw};

use crate::flaw::Flaw;
use crate::section_flaws::add_all_sections;
use crate::strong_names::offer_all;
use crate::symbol_flaws::add_all_symbols;
use search::Loaded;
use std::alloc::{AllocError, Global};
use symbols::IndexedTable;

/// What is wrong with the kept sections and the symbols of what is loaded: the sections of unlawful kinds, then of each symbol that
/// it isn't sound as a common one, that it isn't sound, and that it is a strong definition of a name that has two; all of
/// them in load order. There are none exactly where the phase of resolution refuses nothing. Names are found by hash, from the
/// seed of what is loaded.
///
/// # Errors
///
/// Only where memory is refused.
pub fn resolution_flaws(alloc: Global, loaded: &Loaded<'_>) -> Result<Vec<Flaw>, AllocError>
    ensures all { IfOk result (λ flaws. AreResolutionFlaws loaded.now.objects flaws.items) }
    ensures each { IfOk result (λ flaws. All (IsFlaw loaded.now.objects) flaws.items) }
    ensures none { IfOk result (λ flaws. length flaws.items ≡ 0 → AreResolvable loaded.now.objects) }
{
    let objects = loaded.objects();
    let mut flaws = Vec::new(alloc);
    add_all_sections(&mut flaws, objects)?;
    let mut table = IndexedTable::with_hasher(alloc, loaded.name_seed());
    offer_all(&mut table, objects)?;
    add_all_symbols(&mut flaws, &table, objects)?;
    Ok(flaws)
}
