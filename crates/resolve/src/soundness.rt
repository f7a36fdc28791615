//! Whether the symbols of the loaded objects are sound.
ghost use Rattle.std.specs.Prelude.{◌≤◌, ◌^◌, ◌↔◌, All, IsTrue};
ghost use Rattle.std.specs.Int.{IsPowerOfTwo};
ghost use Rattle.elf_model.specs.Inputs.ObjectFile.{symbols};
ghost use Rattle.elf_model.specs.Link.Resolution.{AreSoundCommons, IsSoundCommon, IsSoundSymbol, StandsWell, binding, symbol_of, symbols_from};
ghost use Rattle.search.specs.Views.{loaded_view, loaded_views};
ghost use Rattle.resolve.specs.Sound.{IsWhollySound};

use crate::entries::is_dropped;
use crate::sections::section_of;
use elf_model::{STB_GLOBAL, STT_TLS, SectionHeader, Symbol};
use elf_read::is_power_of_two;
use search::LoadedObject;

fn is_visible(entry: &Symbol) -> bool
    ensures { IsTrue result ↔ (1 ≤ binding entry.now) }
{
    entry.binding() >= STB_GLOBAL
}

/// Whether a symbol may stand in its section: a GLOBAL or WEAK one only in a kept one, and one of any
/// binding in a kept one only within it or at its end.
fn stands_well(entry: &Symbol, section: &SectionHeader) -> bool
    ensures { IsTrue result ↔ StandsWell entry.now section.now }
{
    if section.is_alloc() {
        return entry.st_value <= section.sh_size;
    }
    !is_visible(entry)
}

/// Whether symbol `j` of object `number` is sound, by its entry: a GLOBAL or WEAK one has a
/// name, and each stands well in its section where it has one that isn't dropped.
pub fn is_sound(
    objects: &[LoadedObject<'_>],
    number: u64,
    loaded: &LoadedObject<'_>,
    j: usize,
    entry: &Symbol,
) -> bool
    ensures { IsTrue result ↔ IsSoundSymbol (loaded_views objects.now)
        (symbol_of number (loaded_view loaded.now) j entry.now) }
{
    if is_visible(entry) && !loaded.object.is_named(j) {
        return false;
    }
    if is_dropped(loaded, entry) {
        return true;
    }
    match section_of(objects, number as usize, entry) {
        Some(section) => stands_well(entry, &section),
        None => true,
    }
}

/// The greatest alignment of a common symbol, in bytes.
const ALIGN_LIMIT: u64 = 1 << 21;

fn is_block_alignment(align: u64) -> bool
    ensures { IsTrue result ↔ (IsPowerOfTwo align × (align ≤ 2 ^ 21)) }
{
    is_power_of_two(align) && align <= ALIGN_LIMIT
}

/// Whether a symbol is sound as a common one, by its entry: where it is common, it is GLOBAL, not of type TLS, and its
/// st_value is a power of two up to 2 ^ 21.
pub fn is_sound_common(number: u64, loaded: &LoadedObject<'_>, j: usize, entry: &Symbol) -> bool
    ensures { IsTrue result ↔ IsSoundCommon
        (symbol_of number (loaded_view loaded.now) j entry.now) }
{
    let _numbers = (number, j);
    if !entry.is_common() {
        return true;
    }
    if !entry.is_global() || entry.symbol_type() == STT_TLS {
        return false;
    }
    is_block_alignment(entry.st_value)
}

/// Whether the common symbols of object `number` are sound.
fn has_sound_commons(number: u64, loaded: &LoadedObject<'_>) -> bool
    ensures { IsTrue result ↔ All IsSoundCommon
        (symbols_from number (loaded_view loaded.now) 0 (symbols loaded.now.object)) }
{
    let entries = loaded.object.symbols();
    for j in 0..entries.len() {
        let entry = entries.at(j);
        if !is_sound_common(number, loaded, j, &entry) {
            return false;
        }
    }
    true
}

/// Whether all common symbols of the objects are sound.
pub fn are_sound_commons(objects: &[LoadedObject<'_>]) -> bool
    ensures { IsTrue result ↔ AreSoundCommons (loaded_views objects.now) }
{
    for (k, loaded) in objects.iter().enumerate() {
        if !has_sound_commons(k as u64, loaded) {
            return false;
        }
    }
    true
}

/// Whether symbol `j` of object `number` is sound, as a common one and as any.
fn is_wholly_sound(
    objects: &[LoadedObject<'_>],
    number: u64,
    loaded: &LoadedObject<'_>,
    j: usize,
    entry: &Symbol,
) -> bool
    ensures { IsTrue result ↔ IsWhollySound (loaded_views objects.now)
        (symbol_of number (loaded_view loaded.now) j entry.now) }
{
    is_sound(objects, number, loaded, j, entry) && is_sound_common(number, loaded, j, entry)
}

/// Whether the symbols of object `number` are sound, its common ones too.
pub fn has_wholly_sound(
    objects: &[LoadedObject<'_>],
    number: u64,
    loaded: &LoadedObject<'_>,
) -> bool
    ensures { IsTrue result ↔ All (IsWhollySound (loaded_views objects.now))
        (symbols_from number (loaded_view loaded.now) 0 (symbols loaded.now.object)) }
{
    let entries = loaded.object.symbols();
    for j in 0..entries.len() {
        let entry = entries.at(j);
        if !is_wholly_sound(objects, number, loaded, j, &entry) {
            return false;
        }
    }
    true
}
