//! The symbol that a relocation refers to.
ghost use Rattle.std.specs.Prelude.{◌≡◌};
ghost use Rattle.elf_model.specs.Inputs.ObjectFile.{rela_symbol};

use elf_model::{ObjectId, Rela, SymbolRef};

/// The symbol that an entry of object `number` names.
pub fn referred(number: usize, entry: &Rela) -> SymbolRef
    ensures object { result.object.0 ≡ number }
    ensures symbol { result.symbol ≡ rela_symbol entry.now }
{
    SymbolRef {
        object: ObjectId(number as u64),
        symbol: entry.symbol() as u64,
    }
}
