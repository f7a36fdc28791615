//! The numbers that loading gave the names of the symbols of objects.
ghost use Rattle.std.specs.Prelude.{◌≡◌, IfSome, slice_get};
ghost use Rattle.std.specs.List.{position};
ghost use Rattle.std.specs.Str.{bytes_eq};
ghost use Rattle.elf_model.specs.Link.Loading.{LoadedObject};
ghost use Rattle.check_load.specs.NameNumbers.{IsNumberOf};
ghost use Rattle.check_load.specs.Numbered.{AreNumbered, name_at};
ghost use Rattle.check_load.specs.Views.{loaded_views};

use crate::chosen_definitions::number_at;
use check_load::{Loaded, NameTable};

/// Loaded objects, and the names whose numbers their symbols have.
#[derive(Drop)]
pub struct Numbering<'l, 'a> {
    pub objects: &'l [Loaded<'a>],
    pub names: &'l NameTable<'a>,
    ghost numbered: { AreNumbered names.now objects.now },
}

impl<'l, 'a> Numbering<'l, 'a> {
    /// The number of a name; None where it has none.
    pub fn of_name(&self, name: &[u8]) -> Option<usize>
        ensures { result ≡ position (bytes_eq name.now) self.now.names.now }
    {
        self.names.find(name)
    }

    /// The number of a symbol's name, given its object's and its own number, where loading noted the name. The name isn't read.
    pub fn of_symbol(&self, object: u64, symbol: u64) -> Option<usize>
        ensures { IfSome result (λ k. (o : LoadedObject)
            → slice_get (loaded_views self.now.objects.now) object ≡ Some o
            → IsNumberOf self.now.names.now (name_at o.bytes symbol) k) }
    {
        number_at(self.objects, object, symbol)
    }
}
