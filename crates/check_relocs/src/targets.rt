//! What the symbols of an object mean to its relocations.
ghost use Rattle.std.specs.Prelude.{◌≡◌, ℕ, [], false, true};
ghost use Rattle.elf_model.specs.Link.Relocation.{is_local, symbol_at};
ghost use Rattle.check_relocs.specs.Bindings.{IsTargetOf};
ghost use Rattle.check_relocs.specs.Referrers.{symbol_here};
ghost use Rattle.check_load.specs.Views.{loaded_view};
ghost use Rattle.check_link.specs.Views.{symbol_view};

use crate::bindings::Bindings;
use crate::referrer::Referrer;
use check_link::SymbolOf;
use check_load::Loaded;
use elf_model::{SHN_COMMON, STB_LOCAL};

/// What a symbol means to relocations: whether it lacks a definition, whether it is a LOCAL one of a
/// section that isn't kept, whether it stands in a dropped section, whether its definition is a bound of sections of
/// several output sections, and whether that is thread-local; and the definition's value modulo 2^64 and its size,
/// both 0 without one.
#[derive(Clone, Copy, Debug)]
pub struct Target {
    pub undefined: bool,
    pub unkept: bool,
    pub dropped: bool,
    pub mixed: bool,
    pub thread_local: bool,
    pub value: u64,
    pub size: u64,
}

/// Symbol `j` of object `number`; the null symbol where there is no such symbol.
pub fn symbol_at<'a>(loaded: &Loaded<'a>, number: u64, j: usize) -> SymbolOf<'a>
    ensures { symbol_view result ≡ symbol_at number (loaded_view loaded.now) j }
{
    let entry = loaded.object.symbol(j);
    SymbolOf {
        object: number,
        number: j as u64,
        name: loaded.object.symbol_name(j),
        entry,
        dropped: loaded.is_dropped(entry.st_shndx as usize),
    }
}

/// Whether symbol `j` of an object is LOCAL. Its name means nothing to relocations, and isn't read: names that share
/// bytes can be longer by far than the file that holds them.
pub fn is_local_at(loaded: &Loaded<'_>, j: usize) -> bool
    ensures { (number : ℕ) → result ≡ is_local (symbol_at number (loaded_view loaded.now) j) }
{
    loaded.object.symbol(j).binding() == STB_LOCAL
}

/// Symbol `j` of object `number`, without its name.
fn unnamed_at<'a>(loaded: &Loaded<'a>, number: u64, j: usize) -> SymbolOf<'a>
    ensures { symbol_view result
        ≡ record (symbol_at number (loaded_view loaded.now) j) { name = [] } }
{
    let entry = loaded.object.symbol(j);
    SymbolOf {
        object: number,
        number: j as u64,
        name: &[],
        entry,
        dropped: loaded.is_dropped(entry.st_shndx as usize),
    }
}

/// What symbol `j` of object `number` means. Of a LOCAL one the name isn't read.
pub fn target_of_symbol<'a>(
    bindings: &Bindings<'_, '_, 'a>,
    number: u64,
    loaded: &Loaded<'a>,
    j: usize,
) -> Target
    ensures { IsTargetOf bindings.now (symbol_at number (loaded_view loaded.now) j) result }
{
    if is_local_at(loaded, j) {
        return bindings.local_target(&unnamed_at(loaded, number, j));
    }
    bindings.target(&symbol_at(loaded, number, j))
}

/// How many entries the kept RELA sections of an object have.
pub fn entry_count(loaded: &Loaded<'_>) -> usize {
    let mut count: usize = 0;
    for rela in loaded.kept_relas() {
        count = count.saturating_add(loaded.object.entries(rela.number as usize).len());
    }
    count
}

/// What symbol `j` of an object means, a LOCAL one. Its name isn't read.
#[inline(never)]
fn own_local_target<'a>(here: &Referrer<'_, '_, '_, 'a>, j: usize) -> Target
    requires { is_local (symbol_here here.now j) ≡ true }
    ensures { IsTargetOf here.now.bindings.now (symbol_here here.now j) result }
{
    here.bindings
        .local_target(&unnamed_at(here.loaded, here.number, j))
}

/// What symbol `j` of an object means, one that isn't LOCAL. Its name isn't read where loading noted it and an object defines it
/// otherwise than as a common one.
#[inline(never)]
fn own_visible_target<'a>(here: &Referrer<'_, '_, '_, 'a>, j: usize) -> Target
    requires { is_local (symbol_here here.now j) ≡ false }
    ensures { IsTargetOf here.now.bindings.now (symbol_here here.now j) result }
{
    let (bindings, number, loaded) = (here.bindings, here.number, here.loaded);
    match bindings.noted_choice(number, j as u64) {
        Some(chosen) if chosen.entry.st_shndx != SHN_COMMON => {
            bindings.target_defined(&unnamed_at(loaded, number, j), &chosen)
        }
        _ => bindings.target(&symbol_at(loaded, number, j)),
    }
}

/// What symbol `j` of an object means.
pub fn own_target_of<'a>(here: &Referrer<'_, '_, '_, 'a>, j: usize) -> Target
    ensures { IsTargetOf here.now.bindings.now (symbol_here here.now j) result }
{
    if is_local_at(here.loaded, j) {
        return own_local_target(here, j);
    }
    own_visible_target(here, j)
}
