//! The symbol table and its sections as they should follow an image's last file part.
ghost use Rattle.std.specs.Prelude.{◌≡◌, ◌*◌, ◌<◌, ◌≤◌, ◌^◌, All, IfOk, IfSome};
ghost use Rattle.elf_model.specs.Image.MemoryImage.{file_end, loads};
ghost use Rattle.elf_model.specs.Image.RightLink.{HoldsBefore, objects_of, tabled_of};
ghost use Rattle.elf_model.specs.declared.verdict.Clause.TheVariants as clause;
ghost use Rattle.check_tables.specs.Listed.{IsLine};
ghost use Rattle.check_tables.specs.Tabled.{AreAt, AreWanted};

use crate::c13_symbols::own_choices::OwnChoices;
use crate::c14_tables::entries::entry_by;
use crate::c14_tables::places::{Places, SECTION_NAMES, headers_of, places_of};
use crate::c14_tables::places_if_tables;
use check_relocs::Bindings;
use check_stages::BoundLink;
use elf_model::{SHDR_SIZE, SYM_SIZE};
use linkmap::SymbolLines;
use std::alloc::{AllocError, Global};

/// The contents of `.symtab` and of `.strtab`, and the names of the entries from the second on.
#[derive(Drop)]
struct Table<'a> {
    symbols: Vec<u8>,
    strings: Vec<u8>,
    names: Vec<&'a [u8]>,
}

/// The number of a table's entries.
fn entry_count(table: &Table<'_>) -> u64
    ensures { 24 * result < 2 ^ 63 }
{
    (table.symbols.len() / SYM_SIZE) as u64
}

/// The table of the definitions of lines. Its first entry is of zeros, its first name empty.
fn table_of<'a>(
    alloc: Global,
    bindings: &Bindings<'_, '_, 'a>,
    choices: &OwnChoices<'_, 'a>,
    lines: &'a SymbolLines<'a>,
) -> Result<Table<'a>, AllocError>
    requires lines { All (IsLine bindings.now.objects bindings.now.places) lines.now.rows }
    requires choices { choices.now ≡ bindings.now.objects }
{
    let mut table = Table {
        symbols: Vec::new(alloc),
        strings: Vec::new(alloc),
        names: Vec::new(alloc),
    };
    table.symbols.resize(SYM_SIZE, 0)?;
    table.strings.push(0)?;
    for line in lines.iter() {
        let name_at = table.strings.len().min(u32::MAX as usize) as u32;
        if let Some(entry) = entry_by(bindings, choices, &line, name_at) {
            let mut record = [0; SYM_SIZE];
            entry.write_to(&mut record);
            table.symbols.extend_from_slice(&record)?;
            table.strings.extend_from_slice(line.name)?;
            table.strings.push(0)?;
            table.names.push(line.name)?;
        }
    }
    Ok(table)
}

/// The bytes of a table and its sections after the last file part, which ends at `end`.
fn tail_with(alloc: Global, end: u64, table: &Table<'_>) -> Result<Vec<u8>, AllocError>
    requires { end ≤ 2 ^ 46 }
{
    let names = table.strings.len().min(u32::MAX as usize) as u32;
    let places = places_of(end, entry_count(table), names);
    let mut bytes = Vec::new(alloc);
    bytes.resize(places.symtab.saturating_sub(end) as usize, 0)?;
    bytes.extend_from_slice(&table.symbols)?;
    bytes.extend_from_slice(&table.strings)?;
    bytes.extend_from_slice(SECTION_NAMES)?;
    bytes.resize(places.headers.saturating_sub(end) as usize, 0)?;
    for header in &headers_of(&places) {
        let mut record = [0; SHDR_SIZE];
        header.write_to(&mut record);
        bytes.extend_from_slice(&record)?;
    }
    Ok(bytes)
}

/// What should follow the last file part of an image.
#[derive(Drop)]
pub struct Wanted<'a> {
    /// The bytes of the table and its sections, with what pads them.
    pub bytes: Vec<u8>,
    /// The number of the table's entries.
    pub count: u64,
    /// Where its parts are in the file.
    pub places: Places,
    /// The names of its entries, from the second on.
    pub names: Vec<&'a [u8]>,
}

/// What should follow the last file part of the image of a link, which ends at `end`. They are made by themselves, and answered
/// where the walk that compares such bytes finds them right.
pub fn wanted_tables<'a>(
    alloc: Global,
    bound: &BoundLink<'_, 'a>,
    choices: &OwnChoices<'_, 'a>,
    end: u64,
) -> Result<Option<Wanted<'a>>, AllocError>
    requires clauses { HoldsBefore clause.C14 bound.now }
    requires choices { choices.now ≡ objects_of bound.now }
    requires end { end ≡ file_end (loads bound.now.image) }
    requires low { end ≤ 2 ^ 46 }
    ensures wanted { IfOk result (λ o. IfSome o (λ w. AreWanted bound.now w.bytes.items w.count)) }
    ensures places { IfOk result (λ o. IfSome o (λ w. AreAt end (tabled_of bound.now) w.places)) }
{
    let table = table_of(alloc, bound.bindings(), choices, &bound.link().map.symbols)?;
    let bytes = tail_with(alloc, end, &table)?;
    let count = entry_count(&table);
    let Some(places) = places_if_tables(bound, choices, end, &bytes, count) else {
        return Ok(None);
    };
    Ok(Some(Wanted {
        bytes,
        count,
        places,
        names: table.names,
    }))
}
