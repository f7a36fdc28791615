//! Whether the sections that define the entry and the names of -u are in an image.
ghost use Rattle.std.specs.Prelude.{◌≡◌, ◌↔◌, IsTrue, Some, false, option_map};
ghost use Rattle.std.specs.List.{slice_get};
ghost use Rattle.check_link.specs.Views.{symbol_view};
ghost use Rattle.check_load.specs.Views.{loaded_view, loaded_views};
ghost use Rattle.keep_judge.specs.Collected.{IsDefinitionThere, IsNameThere, presence};

use crate::presence::presence;
use check_link::{Names, SymbolOf};
use check_load::Loaded;
use link_fields::Drops;

/// The object that has a number.
fn object_at<'o, 'a>(objects: &'o [Loaded<'a>], number: u64) -> Option<&'o Loaded<'a>>
    ensures { option_map (λ o. loaded_view o.now) result
        ≡ slice_get (loaded_views objects.now) number }
{
    objects.get(number as usize)
}

/// Whether a section of object `number` isn't left out, where an image may have it.
fn is_not_out(drops: &Drops<'_>, number: u64, loaded: &Loaded<'_>, section: u32) -> bool
    ensures { IsTrue result
        ↔ (presence drops.now number (loaded_view loaded.now) section ≡ Some false → ⊥) }
{
    presence(drops, number, loaded, section) != Some(false)
}

/// Whether the section of a definition isn't left out.
fn is_definition_there(objects: &[Loaded<'_>], drops: &Drops<'_>, symbol: &SymbolOf<'_>) -> bool
    ensures { IsTrue result ↔ IsDefinitionThere (loaded_views objects.now) drops.now
        (symbol_view symbol.now) }
{
    match object_at(objects, symbol.object) {
        Some(loaded) => is_not_out(drops, symbol.object, loaded, symbol.entry.st_shndx as u32),
        None => true,
    }
}

/// Whether the section that defines a name isn't left out.
pub fn is_name_there(names: &Names<'_, '_>, drops: &Drops<'_>, name: &[u8]) -> bool
    ensures { IsTrue result ↔ IsNameThere names.now drops.now name.now }
{
    match names.chosen(name) {
        Some(symbol) => is_definition_there(names.objects(), drops, &symbol),
        None => true,
    }
}
