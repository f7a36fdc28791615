//! Whether the entries of a symbol table are right, by what their names mean.
ghost use Rattle.std.specs.Prelude.{◌≡◌, ◌↔◌, All, IsSomeAnd, IsTrue};
ghost use Rattle.symbol_judge.specs.Entries.{IsLocalEntryBy, IsMadeBy, IsRightBy, IsRightNamed, named_by};
ghost use Rattle.symbol_judge.specs.Wanted.{Fits};

use crate::entry_names::name_at;
use crate::locals::Locals;
use crate::made_names::is_made_name;
use crate::meanings::Meanings;
use crate::simple_entries::{is_file, is_missing, is_section};
use crate::wanted::{Wanted, fits};
use byteview::View;
use check_load::NameTable;
use elf_model::{STT_OBJECT, SectionHeader, Symbol};

/// What is known of the name at an offset of a string table: its number among the names of entries, whether objects or the linker
/// define it, what its entry has to be, where the image has what it means, and whether it is one that linkers make of themselves.
#[derive(Clone, Copy, Debug)]
pub struct Named {
    pub offset: u32,
    pub number: Option<usize>,
    pub defined: bool,
    pub wanted: Option<Wanted>,
    pub made: bool,
}

/// What is known of the name at an offset.
fn named_at<'a>(
    meanings: &Meanings<'_, '_, 'a>,
    strings: &View<'a>,
    names: &NameTable<'_>,
    offset: u32,
) -> Named
    ensures { result ≡ named_by meanings.now strings.now names.now offset }
{
    let name = name_at(strings, offset);
    let number = names.find(name);
    let made = is_made_name(name);
    match meanings.definition(name) {
        Some(meaning) => Named {
            offset,
            number,
            defined: true,
            wanted: meanings.wanted_at(&meaning),
            made,
        },
        None => Named {
            offset,
            number,
            defined: false,
            wanted: None,
            made,
        },
    }
}

/// What is known of the name at an offset, given what is known of one at an offset that may be this one.
fn turned_to<'a>(
    meanings: &Meanings<'_, '_, 'a>,
    strings: &View<'a>,
    names: &NameTable<'_>,
    named: &Named,
    offset: u32,
) -> Named
    requires { named.now ≡ named_by meanings.now strings.now names.now named.now.offset }
    ensures { result ≡ named_by meanings.now strings.now names.now offset }
{
    if named.offset == offset {
        return *named;
    }
    named_at(meanings, strings, names, offset)
}

/// Whether an entry is what its name asks for.
fn fits_name(sections: &[SectionHeader], wanted: Option<Wanted>, entry: &Symbol) -> bool
    ensures { IsTrue result ↔ IsSomeAnd wanted (Fits sections.now entry.now) }
{
    match wanted {
        Some(wanted) => fits(sections, entry, &wanted),
        None => false,
    }
}

/// Whether an entry is LOCAL, and what a LOCAL symbol of its name asks for.
fn fits_local(sections: &[SectionHeader], locals: &Locals, named: &Named, entry: &Symbol) -> bool
    ensures { IsTrue result ↔ IsLocalEntryBy sections.now locals.now named.now entry.now }
{
    if !entry.is_local() {
        return false;
    }
    match named.number {
        Some(number) => locals.has(sections, number, entry),
        None => false,
    }
}

/// Whether an entry is of a name that the linker made of itself, and nothing defines: LOCAL, without a size, of an object or no type.
fn is_made(named: &Named, entry: &Symbol) -> bool
    ensures { IsTrue result ↔ IsMadeBy named.now entry.now }
{
    if !named.made || named.defined || !entry.is_local() {
        return false;
    }
    entry.symbol_type() <= STT_OBJECT && entry.st_size == 0
}

/// Whether an entry is right, by what is known of its name.
fn is_right_by(sections: &[SectionHeader], locals: &Locals, named: &Named, entry: &Symbol) -> bool
    ensures { IsTrue result ↔ IsRightBy sections.now locals.now named.now entry.now }
{
    if fits_name(sections, named.wanted, entry) {
        return true;
    }
    if is_file(entry) || is_section(sections, entry) {
        return true;
    }
    if is_missing(named.defined, entry) || is_made(named, entry) {
        return true;
    }
    fits_local(sections, locals, named, entry)
}

/// Whether entries are right. Where they stand by the offsets of their names, each name is looked up once.
pub fn are_entries_right<'a>(
    meanings: &Meanings<'_, '_, 'a>,
    sections: &[SectionHeader],
    strings: &View<'a>,
    names: &NameTable<'_>,
    locals: &Locals,
    entries: &[Symbol],
) -> bool
    ensures { IsTrue result ↔ All
        (IsRightNamed meanings.now sections.now strings.now names.now locals.now) entries.now }
{
    let mut named = named_at(meanings, strings, names, 0);
    for entry in entries {
        named = turned_to(meanings, strings, names, &named, entry.st_name);
        if !is_right_by(sections, locals, &named, entry) {
            return false;
        }
    }
    true
}
