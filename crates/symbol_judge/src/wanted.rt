//! What an entry of a symbol table has to be, and whether one is that.
ghost use Rattle.std.specs.Prelude.{◌≡◌, ◌↔◌, IsTrue};
ghost use Rattle.elf_model.specs.Link.Resolution.{binding, symbol_type};
ghost use Rattle.symbol_judge.specs.Wanted.{Fits, HasAddress, HasBinding, HasKind, HasSize, IsBound, IsSized, IsOfSectionIn, IsOfSomeIn, StandsIn, is_beyond};

use elf_model::{SHN_ABS, SHN_LORESERVE, SHN_UNDEF, STB_LOCAL, STT_NOTYPE, SectionHeader, Symbol};

/// `st_shndx` where it has no room for a section's number (System V gABI 4, SHN_XINDEX).
const SHN_XINDEX: u16 = 0xffff;

/// How many values 64 bits tell apart.
pub const VALUES: u128 = 0x1_0000_0000_0000_0000;

/// What an entry has to be: its address, which isn't taken modulo 2^64; its `st_value`, which may be too large for one; its
/// `st_size` in bytes and its binding, None where it may have any; its type; and whether it may stand in any section.
#[derive(Clone, Copy, Debug)]
pub struct Wanted {
    pub at: u128,
    pub value: u128,
    pub size: Option<u64>,
    pub kind: u8,
    pub binding: Option<u8>,
    pub anywhere: bool,
}

/// Whether an entry has a size, or none.
fn is_sized(entry: &Symbol, size: u64) -> bool
    ensures { IsTrue result ↔ IsSized entry.now size }
{
    entry.st_size == size || entry.st_size == 0
}

fn has_size(entry: &Symbol, size: Option<u64>) -> bool
    ensures { IsTrue result ↔ HasSize entry.now size }
{
    match size {
        Some(size) => is_sized(entry, size),
        None => true,
    }
}

/// Whether an entry is of a type, or of none.
fn has_kind(entry: &Symbol, kind: u8) -> bool
    ensures { IsTrue result ↔ HasKind entry.now kind }
{
    entry.symbol_type() == kind || entry.symbol_type() == STT_NOTYPE
}

/// Whether an entry has a binding, or is LOCAL.
fn is_bound(entry: &Symbol, binding: u8) -> bool
    ensures { IsTrue result ↔ IsBound entry.now binding }
{
    entry.binding() == binding || entry.binding() == STB_LOCAL
}

fn has_binding(entry: &Symbol, binding: Option<u8>) -> bool
    ensures { IsTrue result ↔ HasBinding entry.now binding }
{
    match binding {
        Some(binding) => is_bound(entry, binding),
        None => true,
    }
}

/// Whether an address is in a section that takes up memory, or at its end.
fn has_address(section: &SectionHeader, at: u128) -> bool
    ensures { IsTrue result ↔ HasAddress at section.now }
{
    if !section.is_alloc() {
        return false;
    }
    section.sh_addr as u128 <= at && at <= section.sh_addr as u128 + section.sh_size as u128
}

/// Whether `st_shndx` of an entry has no room for its section's number, where there are so many sections.
fn is_beyond(sections: &[SectionHeader], entry: &Symbol) -> bool
    ensures { result ≡ is_beyond sections.now entry.now }
{
    entry.st_shndx == SHN_XINDEX && SHN_LORESERVE as usize <= sections.len()
}

/// Whether an entry stands in the section that has an address, or names none.
fn is_of_section(sections: &[SectionHeader], entry: &Symbol, at: u128) -> bool
    ensures { IsTrue result ↔ IsOfSectionIn sections.now entry.now at }
{
    if entry.st_shndx == SHN_ABS || is_beyond(sections, entry) {
        return true;
    }
    match sections.get(entry.st_shndx as usize) {
        Some(section) => has_address(section, at),
        None => false,
    }
}

/// Whether an entry stands in a section.
fn is_of_some(sections: &[SectionHeader], entry: &Symbol) -> bool
    ensures { IsTrue result ↔ IsOfSomeIn sections.now entry.now }
{
    entry.st_shndx != SHN_UNDEF && (entry.st_shndx as usize) < sections.len()
}

/// Whether an entry stands in the section that has an address, or in any, where it may.
fn stands_in(sections: &[SectionHeader], entry: &Symbol, at: u128, anywhere: bool) -> bool
    ensures { IsTrue result ↔ StandsIn sections.now entry.now at anywhere }
{
    if is_of_section(sections, entry, at) {
        return true;
    }
    anywhere && is_of_some(sections, entry)
}

/// Whether an entry is what it has to be.
pub fn fits(sections: &[SectionHeader], entry: &Symbol, wanted: &Wanted) -> bool
    ensures { IsTrue result ↔ Fits sections.now entry.now wanted.now }
{
    if entry.st_value as u128 != wanted.value || !has_size(entry, wanted.size) {
        return false;
    }
    if !has_kind(entry, wanted.kind) || !has_binding(entry, wanted.binding) {
        return false;
    }
    stands_in(sections, entry, wanted.at, wanted.anywhere)
}
