//! Bytes that must stand in front of others: what follows them, or nothing where they are others.
ghost use Rattle.std.specs.Prelude.{◌≤◌, replicate};
ghost use Rattle.std.specs.List.{flat_map};
ghost use Rattle.elf_model.specs.Inputs.Records.{section_header_bytes, symbol_bytes};
ghost use Rattle.elf_model.specs.Image.SymbolTable.{ended};
ghost use Rattle.check_tables.specs.Tabled.{Strips};

use elf_model::{SHDR_SIZE, SYM_SIZE, SectionHeader, Symbol};

const ZEROS: &[u8; 8] = &[0; 8];

/// What follows bytes in front of others.
pub fn strip<'b>(bytes: &'b [u8], front: &[u8]) -> Option<&'b [u8]>
    ensures { Strips front.now bytes.entry.now result }
{
    bytes.strip_prefix(front)
}

/// What follows a number of zeros, fewer than 8.
pub fn strip_zeros<'b>(bytes: &'b [u8], count: usize) -> Option<&'b [u8]>
    requires { count ≤ 8 }
    ensures { Strips (replicate count 0) bytes.entry.now result }
{
    let (zeros, _more) = ZEROS.split_at(count);
    strip(bytes, zeros)
}

/// What follows a symbol (System V gABI 4, "Symbol Table").
pub fn strip_symbol<'b>(bytes: &'b [u8], symbol: &Symbol) -> Option<&'b [u8]>
    ensures { Strips (symbol_bytes symbol.now) bytes.entry.now result }
{
    let mut record = [0; SYM_SIZE];
    symbol.write_to(&mut record);
    strip(bytes, &record)
}

/// What follows a name and its NUL (System V gABI 4, "String Table").
pub fn strip_name<'b>(bytes: &'b [u8], name: &[u8]) -> Option<&'b [u8]>
    ensures { Strips (ended name.now) bytes.entry.now result }
{
    strip(strip(bytes, name)?, b"\0")
}

/// What follows a section header (System V gABI 4, "Sections").
fn strip_header<'b>(bytes: &'b [u8], header: &SectionHeader) -> Option<&'b [u8]>
    ensures { Strips (section_header_bytes header.now) bytes.entry.now result }
{
    let mut record = [0; SHDR_SIZE];
    header.write_to(&mut record);
    strip(bytes, &record)
}

/// What follows section headers, one after the other.
pub fn strip_headers<'b>(bytes: &'b [u8], headers: &[SectionHeader]) -> Option<&'b [u8]>
    ensures { Strips (flat_map section_header_bytes headers.now) bytes.entry.now result }
{
    let mut left = bytes;
    for header in headers {
        left = strip_header(left, header)?;
    }
    Some(left)
}
