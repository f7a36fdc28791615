//! The definition of a name: what an object defines, or what the linker itself defines for it.
ghost use Rattle.std.specs.Prelude.{◌≡◌};
ghost use Rattle.elf_model.specs.Link.Meaning.{is_in_thread_storage};
ghost use Rattle.search.specs.Views.{loaded_views};
ghost use Rattle.resolve.specs.Views.{held_name, meaning_view};

use crate::blocks::Block;
use crate::entries::SymbolOf;
use crate::sections::is_in_thread_section;
use elf_model::Bound;
use search::LoadedObject;

/// The definition of a name: a symbol of an object, the name's common block, or one of the linker's own names with what it
/// stands for.
#[derive(Clone, Copy, Debug)]
pub enum Definition<'a> {
    Symbol(SymbolOf<'a>),
    Common(Block<'a>),
    Linker(&'a [u8], Bound),
}

impl<'a> Definition<'a> {
    /// The name that it defines.
    pub fn name(&self) -> &'a [u8]
        ensures { result ≡ held_name self.now }
    {
        match self {
            Definition::Symbol(symbol) => symbol.name,
            Definition::Common(block) => block.name,
            Definition::Linker(name, _) => name,
        }
    }

    /// Whether it stands in a section with SHF_TLS, of objects that are loaded; a common block doesn't, nor does what the
    /// linker defines.
    pub fn is_in_thread_storage(&self, objects: &[LoadedObject<'_>]) -> bool
        ensures { result ≡ is_in_thread_storage (loaded_views objects.now) (meaning_view self.now) }
    {
        match self {
            Definition::Symbol(symbol) => is_in_thread_section(objects, symbol),
            Definition::Common(_) => false,
            Definition::Linker(_, _) => false,
        }
    }
}
