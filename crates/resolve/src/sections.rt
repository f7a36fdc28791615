//! The sections in which symbols are defined.
ghost use Rattle.std.specs.Prelude.{◌≡◌};
ghost use Rattle.std.specs.List.{slice_get};
ghost use Rattle.elf_model.specs.Link.Resolution.{is_in_thread_section, sections_of_object};
ghost use Rattle.search.specs.Views.{loaded_views};
ghost use Rattle.resolve.specs.Sound.{section_by};
ghost use Rattle.resolve.specs.Views.{symbol_view};

use crate::entries::SymbolOf;
use elf_model::{SectionHeader, Symbol};
use search::LoadedObject;

/// The section in which a symbol of object `number` is defined; None where it is undefined,
/// absolute or common.
pub fn section_of(
    objects: &[LoadedObject<'_>],
    number: usize,
    entry: &Symbol,
) -> Option<SectionHeader>
    ensures { result ≡ section_by (loaded_views objects.now) number entry.now }
{
    if entry.is_undefined() {
        return None;
    }
    let loaded = objects.get(number)?;
    loaded.object.sections().get(entry.st_shndx as usize)
}

/// Whether a symbol stands in a section with SHF_TLS.
pub fn is_in_thread_section(objects: &[LoadedObject<'_>], symbol: &SymbolOf<'_>) -> bool
    ensures { result ≡ is_in_thread_section (loaded_views objects.now) (symbol_view symbol.now) }
{
    match section_of(objects, symbol.object as usize, &symbol.entry) {
        Some(section) => section.is_thread_local(),
        None => false,
    }
}
