//! The definitions that have a line in the map, as a link keeps them.
ghost use Rattle.std.specs.Prelude.{◌≡◌};
ghost use Rattle.image_write.specs.Listings.{in_order, table_in};

use crate::symbol_table::SymbolTable;
use elf_model::Bound;
use resolve::{Definition, Resolved};

/// The definitions that have a line in the map. Where the image has a symbol table, they are listed in the order of their
/// names, with that table. Else they are listed only where a map is asked for: of the resolved names, and of what the linker
/// defines the names as that only relocations use.
#[derive(Drop)]
pub enum Listed<'a> {
    InOrder(Vec<Definition<'a>>, SymbolTable),
    Unlisted(Resolved<'a>, Vec<(&'a [u8], Bound)>),
}

impl<'a> Listed<'a> {
    /// Those of the symbol table, in the order of their names; none where there is no table.
    pub fn in_order(&self) -> &[Definition<'a>]
        ensures { result.now ≡ in_order self.now }
    {
        match self {
            Listed::InOrder(listed, _) => listed.as_slice(),
            Listed::Unlisted(_, _) => &[],
        }
    }

    /// The symbol table.
    pub fn table(&self) -> Option<SymbolTable>
        ensures { result ≡ table_in self.now }
    {
        match self {
            Listed::InOrder(_, table) => Some(*table),
            Listed::Unlisted(_, _) => None,
        }
    }
}
