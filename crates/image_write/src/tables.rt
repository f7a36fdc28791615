//! The symbol table behind the last file part: `.symtab`, `.strtab` and `.shstrtab`, and the headers of these sections.
ghost use Rattle.std.specs.Prelude.{◌≡◌, ◌+◌, ◌<◌, ◌^◌, ◌∷◌, ◌++◌, [], IfOk, length};
ghost use Rattle.std.specs.List.{flat_map};
ghost use Rattle.elf_model.specs.Inputs.Records.{section_header_bytes, symbol_bytes};
ghost use Rattle.elf_model.specs.Image.SymbolTable as table;
ghost use Rattle.resolve.specs.Views.{meaning_view};
ghost use Rattle.search.specs.Views.{loaded_views};
ghost use Rattle.image_write.specs.Maps.{LiesWithin};
ghost use Rattle.image_write.specs.Streams.{Puts, stream};
ghost use Rattle.image_write.specs.Tables.{AreNames, IsInRange, IsTableOf, entered_of, entry_bytes, listed_of, name_bytes, objects_of, places_of, table_headers_of, symbols_header_of, where_of};

use crate::buffer::Buffer;
use crate::entries::entry_of;
use crate::sink::{Sink, SinkFault};
use crate::stream::{put, put_run};
use crate::symbol_table::{SECTION_NAMES, SymbolTable};
use elf_model::{SHDR_SIZE, SHT_NULL, SHT_STRTAB, SHT_SYMTAB, SYM_SIZE, SectionHeader, Symbol};
use layout::Placement;
use resolve::Definition;
use search::LoadedObject;

/// What a symbol table is made from: the objects, where they stand, and the definitions that have a line in the map.
#[derive(Clone, Copy)]
pub struct Names<'c, 'a> {
    pub objects: &'c [LoadedObject<'a>],
    pub placement: &'c Placement<'a>,
    pub listed: &'c [Definition<'a>],
}

fn put_symbol<S: Sink>(sink: &mut S, buffer: &mut Buffer, symbol: &Symbol) -> Result<(), SinkFault>
    requires { S.failed sink.old ≡ 0 }
    ensures { Puts (stream (S.told sink.old) buffer.old (S.failed sink.old))
        (symbol_bytes symbol.now) result (stream (S.told sink.new) buffer.new (S.failed sink.new)) }
{
    let mut bytes = [0; SYM_SIZE];
    symbol.write_to(&mut bytes);
    put(sink, buffer, &bytes)
}

/// Puts the entry of a definition whose name stands at an offset of `.strtab`, where it has one, and answers where the next
/// name stands.
fn put_entry<S: Sink>(
    sink: &mut S,
    buffer: &mut Buffer,
    names: &Names<'_, '_>,
    definition: &Definition<'_>,
    at: u64,
) -> Result<u64, SinkFault>
    requires names { AreNames names.now }
    requires within { LiesWithin (places_of names.now) (meaning_view definition.now) }
    requires room { at + length (name_bytes (objects_of names.now)
        (meaning_view definition.now ∷ [])) < 2 ^ 32 }
    requires whole { S.failed sink.old ≡ 0 }
    ensures puts { Puts (stream (S.told sink.old) buffer.old (S.failed sink.old))
        (entry_bytes (where_of names.now) (objects_of names.now) at
        (meaning_view definition.now ∷ [])) result
        (stream (S.told sink.new) buffer.new (S.failed sink.new)) }
    ensures next { IfOk result (λ n. n
        ≡ at + length (name_bytes (objects_of names.now) (meaning_view definition.now ∷ []))) }
{
    if definition.is_in_thread_storage(names.objects) {
        return Ok(at);
    }
    let entry = entry_of(names.placement, definition, at as u32);
    put_symbol(sink, buffer, &entry)?;
    Ok(at + definition.name().len() as u64 + 1)
}

/// Puts the entries of the definitions that have one.
fn put_entries<S: Sink>(
    sink: &mut S,
    buffer: &mut Buffer,
    names: &Names<'_, '_>,
) -> Result<(), SinkFault>
    requires names { AreNames names.now }
    requires room { 1 + length (name_bytes (objects_of names.now) (listed_of names.now)) < 2 ^ 32 }
    requires whole { S.failed sink.old ≡ 0 }
    ensures { Puts (stream (S.told sink.old) buffer.old (S.failed sink.old))
        (entry_bytes (where_of names.now) (objects_of names.now) 1 (listed_of names.now)) result
        (stream (S.told sink.new) buffer.new (S.failed sink.new)) }
{
    let mut at = 1;
    for definition in names.listed {
        at = put_entry(sink, buffer, names, definition, at)?;
    }
    Ok(())
}

/// Puts the name of a definition that has an entry, with its NUL.
fn put_name<S: Sink>(
    sink: &mut S,
    buffer: &mut Buffer,
    names: &Names<'_, '_>,
    definition: &Definition<'_>,
) -> Result<(), SinkFault>
    requires { S.failed sink.old ≡ 0 }
    ensures { Puts (stream (S.told sink.old) buffer.old (S.failed sink.old))
        (name_bytes (loaded_views names.now.objects.now) (meaning_view definition.now ∷ [])) result
        (stream (S.told sink.new) buffer.new (S.failed sink.new)) }
{
    if definition.is_in_thread_storage(names.objects) {
        return Ok(());
    }
    put(sink, buffer, definition.name())?;
    put(sink, buffer, b"\0")
}

/// Puts the names of the definitions that have an entry.
fn put_names<S: Sink>(
    sink: &mut S,
    buffer: &mut Buffer,
    names: &Names<'_, '_>,
) -> Result<(), SinkFault>
    requires { S.failed sink.old ≡ 0 }
    ensures { Puts (stream (S.told sink.old) buffer.old (S.failed sink.old))
        (name_bytes (loaded_views names.now.objects.now) (listed_of names.now)) result
        (stream (S.told sink.new) buffer.new (S.failed sink.new)) }
{
    for definition in names.listed {
        put_name(sink, buffer, names, definition)?;
    }
    Ok(())
}

/// The header of `.symtab`: its names stand in section 2, and only the entry of number 0 is LOCAL.
fn symbols_header(symbols: &SymbolTable) -> SectionHeader
    requires { IsInRange symbols.now }
    ensures { result ≡ symbols_header_of symbols.now }
{
    SectionHeader {
        sh_name: 1,
        sh_type: SHT_SYMTAB,
        sh_flags: 0,
        sh_addr: 0,
        sh_offset: symbols.symbols(),
        sh_size: SYM_SIZE as u64 * symbols.count,
        sh_link: 2,
        sh_info: 1,
        sh_addralign: 8,
        sh_entsize: SYM_SIZE as u64,
    }
}

/// The header of a string table whose own name stands at an offset of `.shstrtab`.
fn strings_header(name_at: u32, offset: u64, size: u64) -> SectionHeader
    ensures { result ≡ table.strings_header name_at offset size }
{
    SectionHeader {
        sh_name: name_at,
        sh_type: SHT_STRTAB,
        sh_flags: 0,
        sh_addr: 0,
        sh_offset: offset,
        sh_size: size,
        sh_link: 0,
        sh_info: 0,
        sh_addralign: 1,
        sh_entsize: 0,
    }
}

fn put_header<S: Sink>(
    sink: &mut S,
    buffer: &mut Buffer,
    header: &SectionHeader,
) -> Result<(), SinkFault>
    requires { S.failed sink.old ≡ 0 }
    ensures { Puts (stream (S.told sink.old) buffer.old (S.failed sink.old))
        (section_header_bytes header.now) result
        (stream (S.told sink.new) buffer.new (S.failed sink.new)) }
{
    let mut bytes = [0; SHDR_SIZE];
    header.write_to(&mut bytes);
    put(sink, buffer, &bytes)
}

/// Puts section headers.
fn put_headers<S: Sink>(
    sink: &mut S,
    buffer: &mut Buffer,
    headers: &[SectionHeader],
) -> Result<(), SinkFault>
    requires { S.failed sink.old ≡ 0 }
    ensures { Puts (stream (S.told sink.old) buffer.old (S.failed sink.old))
        (flat_map section_header_bytes headers.now) result
        (stream (S.told sink.new) buffer.new (S.failed sink.new)) }
{
    for header in headers {
        put_header(sink, buffer, header)?;
    }
    Ok(())
}

/// The headers of the sections.
fn section_headers(symbols: &SymbolTable) -> [SectionHeader; 4]
    requires { IsInRange symbols.now }
    ensures { result ≡ table_headers_of symbols.now }
{
    [
        SectionHeader::NULL,
        symbols_header(symbols),
        strings_header(9, symbols.strings(), symbols.names),
        strings_header(17, symbols.section_names(), SECTION_NAMES.len() as u64),
    ]
}

/// Puts `.symtab` and `.strtab`.
fn put_symbols<S: Sink>(
    sink: &mut S,
    buffer: &mut Buffer,
    names: &Names<'_, '_>,
) -> Result<(), SinkFault>
    requires names { AreNames names.now }
    requires room { 1 + length (name_bytes (objects_of names.now) (listed_of names.now)) < 2 ^ 32 }
    requires whole { S.failed sink.old ≡ 0 }
    ensures { Puts (stream (S.told sink.old) buffer.old (S.failed sink.old))
        (table.symbol_section (where_of names.now) (entered_of names.now)
        ++ table.name_section (entered_of names.now)) result
        (stream (S.told sink.new) buffer.new (S.failed sink.new)) }
{
    put_symbol(sink, buffer, &Symbol::NULL)?;
    put_entries(sink, buffer, names)?;
    put(sink, buffer, b"\0")?;
    put_names(sink, buffer, names)
}

/// Puts all that stands behind the last file part of an image with a symbol table.
pub fn put_tables<S: Sink>(
    sink: &mut S,
    buffer: &mut Buffer,
    names: &Names<'_, '_>,
    symbols: &SymbolTable,
) -> Result<(), SinkFault>
    requires names { AreNames names.now }
    requires table { IsTableOf (objects_of names.now) symbols.now.start
        (listed_of names.now) symbols.now }
    requires whole { S.failed sink.old ≡ 0 }
    ensures { Puts (stream (S.told sink.old) buffer.old (S.failed sink.old))
        (table.tables (where_of names.now) symbols.now.start (entered_of names.now)) result
        (stream (S.told sink.new) buffer.new (S.failed sink.new)) }
{
    put_run(sink, buffer, symbols.symbols() - symbols.start, 0)?;
    put_symbols(sink, buffer, names)?;
    put(sink, buffer, SECTION_NAMES)?;
    put_run(
        sink,
        buffer,
        symbols.headers() - symbols.section_names_end(),
        0,
    )?;
    put_headers(sink, buffer, &section_headers(symbols))
}
