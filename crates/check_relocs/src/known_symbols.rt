//! What is known of the symbols of an object while its relocations are gone through.
ghost use Rattle.std.specs.Prelude.{IfOk};
ghost use Rattle.check_relocs.specs.KnownSlots.{AreSymbolsKnown};

use crate::answers::no_answers;
use crate::referrer::Referrer;
use crate::slots::SymbolSlot;
use crate::targets::Target;
use std::alloc::{AllocError, Global};

/// What the symbols of an object mean, and where their slots are: each once a relocation asked.
#[derive(Drop)]
pub struct KnownSymbols {
    pub targets: Vec<Option<Target>>,
    pub slots: Vec<Option<SymbolSlot>>,
}

/// Nothing is known of the symbols of an object.
pub fn unknown_symbols(
    alloc: Global,
    here: &Referrer<'_, '_, '_, '_>,
) -> Result<KnownSymbols, AllocError>
    ensures { IfOk result (AreSymbolsKnown here.now) }
{
    let targets = no_answers(alloc, here.loaded)?;
    let slots = no_answers(alloc, here.loaded)?;
    Ok(KnownSymbols { targets, slots })
}
