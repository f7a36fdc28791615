//! The targets of references: a LOCAL symbol, or a name.
ghost use Rattle.std.specs.Prelude.{◌≡◌};
ghost use Rattle.elf_model.specs.Link.Relocation.{symbol_at};
ghost use Rattle.elf_model.specs.Link.Slots as wanted;
ghost use Rattle.search.specs.Views.{loaded_view};
ghost use Rattle.resolve.specs.Views.{target_view};

use elf_model::{SymbolRef, Target};
use search::LoadedObject;

/// The target of a reference to a symbol, whose object is loaded: the symbol itself where that is LOCAL, or where there is
/// no such symbol; else its name.
pub fn target_of<'a>(symbol: SymbolRef, loaded: &LoadedObject<'a>) -> Target<'a>
    ensures { target_view result
        ≡ wanted.target_of (symbol_at symbol.object.0 (loaded_view loaded.now) symbol.symbol) }
{
    let j = symbol.symbol as usize;
    if loaded.object.symbol(j).is_local() {
        return Target::Local(symbol);
    }
    Target::Name(loaded.object.symbol_name(j))
}
