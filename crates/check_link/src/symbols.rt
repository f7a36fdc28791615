//! Where the symbols of the loaded objects stand, and whether they are sound: a part of the thirteenth clause.
ghost use Rattle.std.specs.Prelude.{◌≡◌, ◌≤◌, ◌/◌, ◌↔◌, All, IfSome, IsTrue, true};
ghost use Rattle.std.specs.List.{slice_get};
ghost use Rattle.elf_model.specs.Inputs.ObjectFile.{symbols};
ghost use Rattle.elf_model.specs.Link.Resolution.{AreSoundSymbols, IsSoundSymbol, StandsWell, binding, section_of, sections_of_object, symbol_of, symbols_from};
ghost use Rattle.check_load.specs.Views.{loaded_view, loaded_views};
ghost use Rattle.check_link.specs.Soundness.{section_in};
ghost use Rattle.check_link.specs.Views.{symbol_view};

use crate::things::SymbolOf;
use check_load::Loaded;
use elf_model::{SHN_UNDEF, SectionHeader, Symbol};

/// The section in which an entry of object `number` is defined; None where it is undefined, absolute or
/// common.
fn section_in(objects: &[Loaded<'_>], number: u64, entry: &Symbol) -> Option<SectionHeader>
    ensures { result ≡ section_in (loaded_views objects.now) number entry.now }
{
    if entry.st_shndx == SHN_UNDEF {
        return None;
    }
    let loaded = objects.get(number as usize)?;
    loaded.object.sections().get(entry.st_shndx as usize)
}

/// The section in which a symbol is defined; None where it is undefined, absolute or common.
pub fn section_of(objects: &[Loaded<'_>], symbol: &SymbolOf<'_>) -> Option<SectionHeader>
    ensures { result ≡ section_of (loaded_views objects.now) (symbol_view symbol.now) }
{
    section_in(objects, symbol.object, &symbol.entry)
}

fn is_visible(entry: &Symbol) -> bool
    ensures { IsTrue result ↔ (1 ≤ binding entry.now) }
{
    entry.binding() >= 1
}

/// Whether a symbol may stand in its section: a GLOBAL or WEAK one only in a kept one, and one of any
/// binding in a kept one only within it or at its end.
fn stands_well(entry: &Symbol, section: &SectionHeader) -> bool
    ensures { IsTrue result ↔ StandsWell entry.now section.now }
{
    if section.is_alloc() {
        return entry.st_value <= section.sh_size;
    }
    !is_visible(entry)
}

/// Whether an entry of object `number` stands well in its section where it has one.
fn is_placed_well(objects: &[Loaded<'_>], number: u64, entry: &Symbol) -> bool
    ensures { IsTrue result ↔ IfSome (section_in (loaded_views objects.now) number entry.now)
        (StandsWell entry.now) }
{
    match section_in(objects, number, entry) {
        Some(section) => stands_well(entry, &section),
        None => true,
    }
}

/// Whether symbol `j` of object `number` is sound: a GLOBAL or WEAK one has a name, and each
/// stands well in its section where it has one that isn't dropped.
fn is_sound(
    objects: &[Loaded<'_>],
    number: u64,
    loaded: &Loaded<'_>,
    j: usize,
    entry: &Symbol,
) -> bool
    ensures { IsTrue result ↔ IsSoundSymbol (loaded_views objects.now)
        (symbol_of number (loaded_view loaded.now) j entry.now) }
{
    if is_visible(entry) && !loaded.object.is_named(j) {
        return false;
    }
    loaded.is_dropped(entry.st_shndx as usize) || is_placed_well(objects, number, entry)
}

/// Whether the symbols of object `number` are sound.
fn are_sound_in(objects: &[Loaded<'_>], number: u64, loaded: &Loaded<'_>) -> bool
    ensures { IsTrue result ↔ All (IsSoundSymbol (loaded_views objects.now))
        (symbols_from number (loaded_view loaded.now) 0 (symbols loaded.now.object)) }
{
    let entries = loaded.object.symbols();
    for j in 0..entries.len() {
        let entry = entries.at(j);
        if !is_sound(objects, number, loaded, j, &entry) {
            return false;
        }
    }
    true
}

/// Whether all symbols of objects are sound.
pub fn are_sound(objects: &[Loaded<'_>]) -> bool
    ensures { IsTrue result ↔ AreSoundSymbols (loaded_views objects.now) }
{
    for (k, loaded) in objects.iter().enumerate() {
        if !are_sound_in(objects, k as u64, loaded) {
            return false;
        }
    }
    true
}
