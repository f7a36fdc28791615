//! C14: whether the map tells of a symbol table where it has to, and the image has that table and its sections after
//! its last file part, or no sections. All is compared in place, and no name is looked up whose line names its chosen
//! definition.
ghost use Rattle.std.specs.Prelude.{◌≡◌, ◌↔◌, ◌*◌, ◌<◌, ◌≤◌, ◌^◌, ℕ, All, List, IfSome, IsSome, IsSomeAnd, IsTrue, is_some, length, map, not};
ghost use Rattle.elf_model.specs.Image.MemoryImage.{HasNoSections, loads, file_end};
ghost use Rattle.elf_model.specs.Inputs.Records.{file_header};
ghost use Rattle.elf_model.specs.Image.RightLink.{Holds, HoldsBefore, HoldsTables, objects_of, tabled_of};
ghost use Rattle.elf_model.specs.Image.SymbolTable.{name_section, tabled};
ghost use Rattle.elf_model.specs.declared.verdict.Clause.TheVariants as clause;
ghost use Rattle.check_tables.specs.Listed.{IsLine};
ghost use Rattle.check_tables.specs.Tabled.{AreAt, AreTables, AreWanted};

use crate::c13_symbols::own_choices::OwnChoices;
use crate::c14_tables::lines::{Tables, strip_lines, tables_of};
use crate::c14_tables::places::{Places, are_end, eight_up, places_of};
use crate::c14_tables::strip::strip_zeros;
use check_relocs::Bindings;
use check_stages::{BoundLink, file_end};
use elf_model::{FileHeader, SymtabLine};
use linkmap::SymbolLines;

pub mod entries;
pub mod lines;
pub mod places;
pub mod strip;
pub mod wanted;

/// Whether the fourteenth clause holds of a link.
pub fn holds<'a>(bound: &BoundLink<'_, 'a>, choices: &OwnChoices<'_, 'a>) -> bool
    requires clauses { HoldsBefore clause.C14 bound.now }
    requires choices { choices.now ≡ objects_of bound.now }
    ensures { IsTrue result ↔ Holds clause.C14 bound.now }
{
    let map = &bound.link().map;
    if !is_told_as_asked(map.version, map.symtab, bound.link().plan.strip) {
        return false;
    }
    match map.symtab {
        Some(line) => holds_tables(bound, choices, line),
        None => has_no_sections(&bound.memory().header()),
    }
}

/// Whether a map of version 2 has the line of a symbol table just where the command doesn't strip it.
fn is_told_as_asked(version: u64, symtab: Option<SymtabLine>, strip: bool) -> bool
    ensures { IsTrue result ↔ (version ≡ 2 → is_some symtab ≡ not strip) }
{
    version != 2 || symtab.is_some() != strip
}

/// Whether a file header tells of no sections.
pub fn has_no_sections(header: &FileHeader) -> bool
    ensures { IsTrue result ↔ HasNoSections header.now }
{
    header.e_shoff == 0 && header.e_shnum == 0 && header.e_shstrndx == 0
}

/// What is left of the bytes after the last file part once zeros, the entries and the names of all lines are
/// stripped.
fn strip_tables<'a, 'b>(
    bindings: &Bindings<'_, '_, 'a>,
    choices: &OwnChoices<'_, 'a>,
    lines: &SymbolLines<'_>,
    bytes: &'b [u8],
    padding: usize,
    count: u64,
) -> Option<Tables<'b>>
    requires lines { All (IsLine bindings.now.objects bindings.now.places) lines.now.rows }
    requires choices { choices.now ≡ bindings.now.objects }
    requires padding { padding ≤ 8 }
    ensures left { (others : List ℕ) →
        (AreTables bindings.now.places
        (tabled bindings.now.objects lines.now.rows) padding bytes.entry.now count others
        ↔ IsSomeAnd result (λ t. t.names.now ≡ others)) }
    ensures offset { IfSome result (λ t. t.name_at
        ≡ length (name_section (tabled bindings.now.objects lines.now.rows))) }
    ensures room { IfSome result (λ _. 24 * count < 2 ^ 63) }
{
    let bytes = strip_zeros(bytes, padding)?;
    let tables = tables_of(bytes, count)?;
    strip_lines(bindings, choices, lines, tables)
}

/// Where the parts are of the table of the definitions of the map's symbol lines, where bytes are those that this table
/// and its sections ask for after the last file part, which ends at `end`, and its number of entries is this.
pub fn places_if_tables<'a>(
    bound: &BoundLink<'_, 'a>,
    choices: &OwnChoices<'_, 'a>,
    end: u64,
    bytes: &[u8],
    count: u64,
) -> Option<Places>
    requires clauses { HoldsBefore clause.C14 bound.now }
    requires choices { choices.now ≡ objects_of bound.now }
    requires end { end ≡ file_end (loads bound.now.image) }
    requires low { end ≤ 2 ^ 46 }
    ensures tables { IsSome result ↔ AreWanted bound.now bytes.now count }
    ensures places { IfSome result (AreAt end (tabled_of bound.now)) }
{
    let lines = &bound.link().map.symbols;
    let padding = (eight_up(end) - end) as usize;
    let left = strip_tables(bound.bindings(), choices, lines, bytes, padding, count)?;
    let places = places_of(end, count, left.name_at);
    if are_end(left.names, &places) {
        Some(places)
    } else {
        None
    }
}

/// Whether the header and the bytes after the last file part are those of the table that the line tells of.
fn holds_tables<'a>(
    bound: &BoundLink<'_, 'a>,
    choices: &OwnChoices<'_, 'a>,
    line: SymtabLine,
) -> bool
    requires clauses { HoldsBefore clause.C14 bound.now }
    requires choices { choices.now ≡ objects_of bound.now }
    ensures { IsTrue result ↔ HoldsTables bound.now line }
{
    let memory = bound.memory();
    let header = memory.header();
    if header.e_shnum != 4 || header.e_shstrndx != 3 {
        return false;
    }
    let end = file_end(memory);
    if line.offset != eight_up(end) {
        return false;
    }
    let (_parts, bytes) = memory.image().split_at(end as usize);
    match places_if_tables(bound, choices, end, bytes, line.count) {
        Some(places) => header.e_shoff == places.headers,
        None => false,
    }
}
