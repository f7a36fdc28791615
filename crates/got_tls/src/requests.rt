//! What one relocation asks of the GOT.
ghost use Rattle.std.specs.Prelude.{◌≡◌, Some};
ghost use Rattle.std.specs.List.{slice_get};
ghost use Rattle.elf_model.specs.Inputs.ObjectFile.{rela_symbol};
ghost use Rattle.elf_model.specs.Link.Relocation.{relocation_of, symbol_at};
ghost use Rattle.elf_model.specs.Link.Slots as wanted;
ghost use Rattle.search.specs.Views.{loaded_view};
ghost use Rattle.got_tls.specs.Asking.{TellsOfGot};
ghost use Rattle.got_tls.specs.Askers.{IsAsker, all_asked, asking};

use elf_model::{ObjectId, Rela, SymbolRef};
use reloc_values::{asks_of_got, referred};
use resolve::Resolved;
use search::LoadedObject;

/// An object whose relocations ask, with its number, and whether one of its symbols names the GOT at all.
#[derive(Clone, Copy)]
pub struct Asker<'k, 'a> {
    pub resolved: &'k Resolved<'a>,
    pub number: usize,
    pub loaded: &'k LoadedObject<'a>,
    pub named: bool,
}

/// The name of the GOT.
const GOT_NAME: &[u8] = b"_GLOBAL_OFFSET_TABLE_";

/// Whether symbol `j` of object `number` isn't LOCAL and has the GOT's name, and no object defines that. Reads
/// no name that an object defines.
fn names_got(resolved: &Resolved<'_>, number: usize, loaded: &LoadedObject<'_>, j: usize) -> bool
    requires { slice_get resolved.now number ≡ Some (loaded_view loaded.now) }
    ensures { result ≡ wanted.names_got resolved.now (symbol_at number (loaded_view loaded.now) j) }
{
    if loaded.object.symbol(j).is_local() {
        return false;
    }
    let symbol = SymbolRef {
        object: ObjectId(number as u64),
        symbol: j as u64,
    };
    if resolved.is_chosen(symbol) {
        return false;
    }
    loaded.object.symbol_name(j) == GOT_NAME
}

/// Whether a symbol of object `number` names the GOT so. Where none does, none need be looked at for each
/// relocation; where an object defines the name, or none has it, no symbol is looked at at all.
fn tells_of_got(resolved: &Resolved<'_>, number: usize, loaded: &LoadedObject<'_>) -> bool
    requires { slice_get resolved.now number ≡ Some (loaded_view loaded.now) }
    ensures { TellsOfGot resolved.now number (loaded_view loaded.now) result }
{
    if !resolved.is_left(GOT_NAME) {
        return false;
    }
    for j in 0..loaded.object.symbols().len() {
        if names_got(resolved, number, loaded, j) {
            return true;
        }
    }
    false
}

impl<'k, 'a> Asker<'k, 'a> {
    /// Object `number`.
    pub fn new(
        resolved: &'k Resolved<'a>,
        number: usize,
        loaded: &'k LoadedObject<'a>,
    ) -> Asker<'k, 'a>
        requires { slice_get resolved.now number ≡ Some (loaded_view loaded.now) }
        ensures asker { IsAsker result }
        ensures all { all_asked result ≡ resolved.entry.now }
        ensures number { result.number ≡ number }
        ensures own { asking result ≡ loaded_view loaded.entry.now }
    {
        Asker {
            resolved,
            number,
            loaded,
            named: tells_of_got(resolved, number, loaded),
        }
    }

    /// The symbol that an entry names.
    pub fn symbol(&self, entry: &Rela) -> SymbolRef
        ensures object { result.object.0 ≡ self.now.number }
        ensures symbol { result.symbol ≡ rela_symbol entry.now }
    {
        referred(self.number, entry)
    }

    /// Whether symbol `j` names the GOT.
    fn names_got(&self, j: usize) -> bool
        requires { IsAsker self.now }
        ensures { result ≡ wanted.names_got (all_asked self.now)
            (symbol_at self.now.number (asking self.now) j) }
    {
        if !self.named {
            return false;
        }
        names_got(self.resolved, self.number, self.loaded, j)
    }

    /// Whether an entry, which relocates the section `target`, asks for a GOT.
    pub fn asks_for_got(&self, target: u64, entry: &Rela) -> bool
        requires { IsAsker self.now }
        ensures { result ≡ wanted.asks_for_got (all_asked self.now)
            (relocation_of self.now.number (asking self.now) target entry.now) }
    {
        asks_of_got(entry.kind()) || self.names_got(entry.symbol() as usize)
    }
}
