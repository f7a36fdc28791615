//! What a relocation refers to, and what is asked of that: the symbols and sections of one object.
ghost use Rattle.std.specs.Prelude.{◌≡◌, ◌≢◌, ◌↔◌, ◌&&◌, [], ◌==◌, List, IsSomeAnd, IsTrue, codes, false, not, option_map, true, unwrap_or};
ghost use Rattle.std.specs.Str.{bytes_eq};
ghost use Rattle.elf_model.specs.Link.Meaning.{is_in_thread_storage};
ghost use Rattle.elf_model.specs.Inputs.ObjectFile.{section, section_name, sections, symbols};
ghost use Rattle.elf_model.specs.Link.Pieces.{is_alloc, is_kept, is_thread_local};
ghost use Rattle.elf_model.specs.Link.Loading as loading;
ghost use Rattle.elf_model.specs.Link.Loading.{is_dropped};
ghost use Rattle.elf_model.specs.Link.Relocation.{IsMixed, IsMixedBound, definition_of, symbol_at};
ghost use Rattle.elf_model.specs.Link.Resolution.{is_undefined};
ghost use Rattle.std.specs.Prelude.{Some};
ghost use Rattle.std.specs.Option.{option_map_or};
ghost use Rattle.search.specs.Views.{loaded_view};
ghost use Rattle.resolve.specs.Views.{meaning_view};
ghost use Rattle.layout.specs.Mixed.{AreMixed};
ghost use Rattle.relocate.specs.LocalUses.{AreAlike, local_use, unnamed};
ghost use Rattle.relocate.specs.References.{IsNamedUndefined, IsObjectAt, LacksDefinition, section_in};
ghost use Rattle.resolve.specs.Views.{symbol_view};

use crate::faults::RelocFault;
use elf_model::{Bound, ObjectId, Rela, SectionHeader, Symbol, SymbolRef};
use elf_read::ObjectFile;
use resolve::{Definition, Resolved, SymbolOf, named_output};
use search::LoadedObject;
use std::alloc::Global;
use std::collections::BTreeSet;

/// The section in which a symbol is defined; None where it is undefined, absolute or common.
pub fn section_of(object: &ObjectFile<'_>, entry: &Symbol) -> Option<SectionHeader>
    ensures { result ≡ section_in object.now entry.now }
{
    if entry.is_undefined() {
        return None;
    }
    object.sections().get(entry.st_shndx as usize)
}

/// Whether a symbol of an object stands in a section that isn't kept.
pub fn stands_in_unkept(loaded: &LoadedObject<'_>, entry: &Symbol) -> bool
    ensures { IsTrue result ↔ IsSomeAnd (section_in loaded.now.object entry.now)
        (λ h. is_kept (loaded_view loaded.now) entry.now.st_shndx h ≡ false) }
{
    match section_of(&loaded.object, entry) {
        Some(header) => !loaded.is_kept(entry.st_shndx as usize, &header),
        None => false,
    }
}

/// Whether a section isn't kept, which is dropped or not.
pub fn is_unkept(section: &Option<SectionHeader>, dropped: bool) -> bool
    ensures { IsTrue result ↔ IsSomeAnd section.now
        (λ h. (is_alloc h && not dropped) ≡ false) }
{
    match section {
        Some(header) => dropped || !header.is_alloc(),
        None => false,
    }
}

/// Whether a section has SHF_TLS.
pub fn is_thread_section(section: &Option<SectionHeader>) -> bool
    ensures { result ≡ option_map_or is_thread_local section.now false }
{
    match section {
        Some(header) => header.is_thread_local(),
        None => false,
    }
}

/// Whether a symbol of an object stands in a section that is dropped with its group.
pub fn is_dropped(loaded: &LoadedObject<'_>, entry: &Symbol) -> bool
    ensures { result ≡ is_dropped (loaded_view loaded.now) entry.now.st_shndx }
{
    loaded.is_dropped(entry.st_shndx as usize)
}

/// The name of a section, empty where there is no such section.
fn section_name_at<'a>(object: &ObjectFile<'a>, number: usize) -> &'a [u8]
    ensures { result.now ≡ unwrap_or (section_name object.now number) [] }
{
    match object.section_name(number) {
        Some(name) => name,
        None => &[],
    }
}

/// The section of the frames of code, for unwinding (AMD64 psABI 4.2.4).
const FRAME_SECTION: &[u8] = b".eh_frame";

/// Whether a section holds frames: those of dropped code are left in it, and may refer to what is dropped.
pub fn holds_frames(object: &ObjectFile<'_>, number: usize) -> bool
    ensures { result ≡ bytes_eq (unwrap_or (section_name object.now number) [])
        (codes ".eh_frame") }
{
    section_name_at(object, number) == FRAME_SECTION
}

/// Symbol `j` of object `number`, without its name.
pub fn unnamed_at<'a>(number: usize, loaded: &LoadedObject<'_>, j: usize) -> SymbolOf<'a>
    ensures { symbol_view result ≡ unnamed (symbol_at number (loaded_view loaded.now) j) }
{
    let entry = loaded.object.symbol(j);
    SymbolOf {
        object: number as u64,
        number: j as u64,
        name: &[],
        entry,
        dropped: is_dropped(loaded, &entry),
    }
}

/// What a reference to symbol `j`, which is LOCAL, of object `number` uses, without its name.
fn local_use<'a>(number: usize, loaded: &LoadedObject<'_>, j: usize) -> Option<Definition<'a>>
    ensures { option_map meaning_view result
        ≡ local_use (symbol_at number (loaded_view loaded.now) j) }
{
    let symbol = unnamed_at(number, loaded, j);
    if symbol.entry.is_undefined() {
        return None;
    }
    Some(Definition::Symbol(symbol))
}

/// What a reference to symbol `j` of object `number` uses, a LOCAL symbol without its name. That means
/// nothing to relocations, and isn't read: names that share bytes can be longer by far than the file that holds them.
pub fn use_of<'a>(
    resolved: &Resolved<'a>,
    number: usize,
    loaded: &LoadedObject<'a>,
    j: usize,
) -> Option<Definition<'a>>
    requires { IsObjectAt resolved.now number (loaded_view loaded.now) }
    ensures { AreAlike resolved.now (option_map meaning_view result)
        (definition_of resolved.now (symbol_at number (loaded_view loaded.now) j)) }
{
    if loaded.object.symbol(j).is_local() {
        return local_use(number, loaded, j);
    }
    definition_of(resolved, number, loaded, j)
}

/// What a reference to symbol `j` of object `number` uses.
fn definition_of<'a>(
    resolved: &Resolved<'a>,
    number: usize,
    _loaded: &LoadedObject<'_>,
    j: usize,
) -> Option<Definition<'a>>
    requires { IsObjectAt resolved.now number (loaded_view _loaded.now) }
    ensures { option_map meaning_view result
        ≡ definition_of resolved.now (symbol_at number (loaded_view _loaded.now) j) }
{
    resolved.used(SymbolRef {
        object: ObjectId(number as u64),
        symbol: j as u64,
    })
}

/// Whether a reference to symbol number `j`, which has the entry and uses a definition if there is one, lacks it:
/// symbol 0 stands for none, and a WEAK one needs none.
pub fn is_undefined(j: usize, entry: &Symbol, definition: &Option<Definition<'_>>) -> bool
    ensures { IsTrue result ↔ LacksDefinition j entry.now (option_map meaning_view definition.now) }
{
    if j == 0 || entry.is_weak() {
        return false;
    }
    definition.is_none()
}

/// Whether a reference to symbol number `j`, which is LOCAL and has the entry, lacks a definition: symbol 0 stands
/// for none.
pub fn is_undefined_local(j: usize, entry: &Symbol) -> bool
    ensures { IsTrue result ↔ ((j ≢ 0) × (is_undefined entry.now ≡ true)) }
{
    if j == 0 {
        return false;
    }
    entry.is_undefined()
}

/// Whether what a reference uses stands in a section with SHF_TLS.
pub fn is_thread_local<'a>(resolved: &Resolved<'a>, definition: &Option<Definition<'a>>) -> bool
    ensures { result ≡ option_map_or (is_in_thread_storage resolved.now)
        (option_map meaning_view definition.now) false }
{
    match definition {
        Some(meaning) => resolved.is_in_thread_storage(meaning),
        None => false,
    }
}

/// Whether one of the linker's names, which stands for a bound, speaks of an output name of several output sections.
fn is_mixed_bound(mixed: &BTreeSet<&[u8]>, name: &[u8], bound: Bound) -> bool
    ensures { (objects : List loading.LoadedObject) →
        AreMixed objects mixed.now → IsTrue result ↔ IsMixedBound objects name.now bound }
{
    match bound {
        Bound::OutputStart => mixed.contains(named_output(name)),
        Bound::OutputEnd => mixed.contains(named_output(name)),
        _ => false,
    }
}

/// Whether what a reference uses is such a name of the linker's.
pub fn is_mixed(mixed: &BTreeSet<&[u8]>, definition: &Option<Definition<'_>>) -> bool
    ensures { (objects : List loading.LoadedObject) →
        AreMixed objects mixed.now
        → IsTrue result ↔ IsSomeAnd (option_map meaning_view definition.now) (IsMixed objects) }
{
    match definition {
        Some(Definition::Linker(name, bound)) => is_mixed_bound(mixed, name, *bound),
        Some(Definition::Symbol(_)) => false,
        Some(Definition::Common(_)) => false,
        None => false,
    }
}

/// The refusal of a symbol that has no definition.
pub fn undefined(alloc: Global, name: &[u8]) -> RelocFault
    ensures { IsNamedUndefined name.now result }
{
    match Vec::from_slice(alloc, name) {
        Ok(copy) => RelocFault::Undefined(copy),
        Err(_) => RelocFault::Memory,
    }
}
