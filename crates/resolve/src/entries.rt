//! The symbols of loaded objects.
ghost use Rattle.std.specs.Prelude.{◌≡◌, [], Some, option_map, unwrap_or};
ghost use Rattle.std.specs.List.{slice_get};
ghost use Rattle.elf_model.specs.Link.Loading.{is_dropped};
ghost use Rattle.elf_model.specs.Inputs.ObjectFile.{symbol_name};
ghost use Rattle.elf_model.specs.Link.Resolution.{symbol_of};
ghost use Rattle.search.specs.Views.{loaded_view};
ghost use Rattle.resolve.specs.Places.{symbol_numbered};
ghost use Rattle.resolve.specs.Views.{symbol_view};

use elf_model::{ObjectId, Symbol, SymbolRef};
use search::{Loaded, LoadedObject};

/// A symbol of a loaded object: its object's and its own number, its name, its entry, and whether it stands in a
/// section that is dropped.
#[derive(Clone, Copy, Debug)]
pub struct SymbolOf<'a> {
    pub object: u64,
    pub number: u64,
    pub name: &'a [u8],
    pub entry: Symbol,
    pub dropped: bool,
}

/// Symbol `j` of object `number`, with its entry.
pub fn symbol_in<'a>(
    number: u64,
    loaded: &LoadedObject<'a>,
    j: usize,
    entry: &Symbol,
) -> SymbolOf<'a>
    ensures { symbol_view result ≡ symbol_of number (loaded_view loaded.now) j entry.now }
{
    SymbolOf {
        object: number,
        number: j as u64,
        name: loaded.object.symbol_name(j),
        entry: *entry,
        dropped: is_dropped(loaded, entry),
    }
}

/// The numbers of symbol `j` of object `number`.
pub fn symbol_ref(number: u64, j: usize) -> SymbolRef
    ensures object { result.object.0 ≡ number }
    ensures symbol { result.symbol ≡ j }
{
    SymbolRef {
        object: ObjectId(number),
        symbol: j as u64,
    }
}

/// The name of symbol `j` of object `number`, as its number tells it where it has one: so it isn't read again.
fn name_of<'a>(loaded: &Loaded<'a>, number: u64, own: &LoadedObject<'a>, j: usize) -> &'a [u8]
    requires { slice_get loaded.now.objects number ≡ Some (loaded_view own.now) }
    ensures { result.now ≡ unwrap_or (symbol_name own.now.object j) [] }
{
    let _named = loaded.name_count();
    match loaded.name_number(symbol_ref(number, j)) {
        Some(named) => loaded.name(named),
        None => own.object.symbol_name(j),
    }
}

/// Symbol `j` of object `number`, which has the entry and the name that its number tells.
pub fn named_symbol<'a>(
    loaded: &Loaded<'a>,
    number: u64,
    own: &LoadedObject<'a>,
    j: usize,
    entry: &Symbol,
) -> SymbolOf<'a>
    requires { slice_get loaded.now.objects number ≡ Some (loaded_view own.now) }
    ensures { symbol_view result ≡ symbol_of number (loaded_view own.now) j entry.now }
{
    SymbolOf {
        object: number,
        number: j as u64,
        name: name_of(loaded, number, own, j),
        entry: *entry,
        dropped: is_dropped(own, entry),
    }
}

/// The symbol that has an object's and its own number; None where there is none.
pub fn symbol_numbered<'a>(loaded: &Loaded<'a>, symbol: SymbolRef) -> Option<SymbolOf<'a>>
    ensures { option_map symbol_view result
        ≡ symbol_numbered loaded.now.objects symbol.object.0 symbol.symbol }
{
    let j = symbol.symbol as usize;
    let own = loaded.objects().get(symbol.object.0 as usize)?;
    let entry = own.object.symbols().get(j)?;
    Some(named_symbol(loaded, symbol.object.0, own, j, &entry))
}

/// Whether a symbol of an object stands in a section that is dropped.
pub fn is_dropped(loaded: &LoadedObject<'_>, entry: &Symbol) -> bool
    ensures { result ≡ is_dropped (loaded_view loaded.now) entry.now.st_shndx }
{
    loaded.is_dropped(entry.st_shndx as usize)
}
