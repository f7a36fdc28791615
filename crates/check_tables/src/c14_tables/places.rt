//! Where the parts of an image's symbol table are, and the headers of its sections (System V gABI 4, "Sections").
ghost use Rattle.std.specs.Prelude.{◌≡◌, ◌↔◌, ◌+◌, ◌-◌, ◌*◌, ◌<◌, ◌≤◌, ◌^◌, List, IsTrue, length};
ghost use Rattle.elf_model.specs.Link.Meaning.{Meaning};
ghost use Rattle.elf_model.specs.Link.Placement.{round_up};
ghost use Rattle.elf_model.specs.Image.SymbolTable.{entry_count, name_section, strings_header};
ghost use Rattle.check_tables.specs.Tabled.{AreAt, Strips, end_bytes, headers_of, symtab_header_of};

use crate::c14_tables::strip::{strip, strip_headers, strip_zeros};
use elf_model::{SHT_STRTAB, SHT_SYMTAB, SYM_SIZE, SectionHeader};

/// The names of the sections, each with its NUL.
pub const SECTION_NAMES: &[u8; 27] = b"\0.symtab\0.strtab\0.shstrtab\0";

/// Where the parts of a symbol table are in the file, and the sizes of the first two, in bytes.
#[derive(Clone, Copy)]
pub struct Places {
    pub symtab: u64,
    pub symtab_size: u64,
    pub strtab: u64,
    pub strtab_size: u64,
    pub shstrtab: u64,
    pub shstrtab_end: u64,
    pub headers: u64,
}

/// The least multiple of 8 that isn't below a number.
pub fn eight_up(x: u64) -> u64
    requires { x < 2 ^ 64 - 8 }
    ensures { result ≡ round_up 8 x }
{
    (x + 7) / 8 * 8
}

/// Where the parts are of a table of `count` entries and `strtab_size` bytes of names, in a file whose last file part
/// ends at `end`.
pub fn places_of(end: u64, count: u64, strtab_size: u32) -> Places
    requires end { end ≤ 2 ^ 46 }
    requires count { 24 * count < 2 ^ 63 }
    ensures places { (ms : List Meaning) →
        count ≡ entry_count ms → strtab_size ≡ length (name_section ms) → AreAt end ms result }
    ensures padded { result.headers ≡ round_up 8 result.shstrtab_end }
{
    let symtab = eight_up(end);
    let symtab_size = SYM_SIZE as u64 * count;
    let strtab = symtab + symtab_size;
    let shstrtab = strtab + strtab_size as u64;
    let shstrtab_end = shstrtab + SECTION_NAMES.len() as u64;
    Places {
        symtab,
        symtab_size,
        strtab,
        strtab_size: strtab_size as u64,
        shstrtab,
        shstrtab_end,
        headers: eight_up(shstrtab_end),
    }
}

/// The header of `.symtab`. Its names are in section 2, and no symbol but the first is LOCAL.
fn symtab_header(places: &Places) -> SectionHeader
    ensures { result ≡ symtab_header_of places.now }
{
    SectionHeader {
        sh_name: 1,
        sh_type: SHT_SYMTAB,
        sh_offset: places.symtab,
        sh_size: places.symtab_size,
        sh_link: 2,
        sh_info: 1,
        sh_addralign: 8,
        sh_entsize: SYM_SIZE as u64,
        ..SectionHeader::NULL
    }
}

/// The header of a string table.
fn strings_header(sh_name: u32, sh_offset: u64, sh_size: u64) -> SectionHeader
    ensures { result ≡ strings_header sh_name sh_offset sh_size }
{
    SectionHeader {
        sh_name,
        sh_type: SHT_STRTAB,
        sh_offset,
        sh_size,
        sh_addralign: 1,
        ..SectionHeader::NULL
    }
}

/// The headers of the sections; their names begin at 1, 9 and 17 of `.shstrtab`.
pub fn headers_of(places: &Places) -> [SectionHeader; 4]
    ensures { result ≡ headers_of places.now }
{
    [
        SectionHeader::NULL,
        symtab_header(places),
        strings_header(9, places.strtab, places.strtab_size),
        strings_header(17, places.shstrtab, SECTION_NAMES.len() as u64),
    ]
}

/// What follows the names of the sections, zeros up to the headers, and the headers.
fn strip_end<'b>(bytes: &'b [u8], places: &Places) -> Option<&'b [u8]>
    requires { places.now.headers ≡ round_up 8 places.now.shstrtab_end }
    ensures { Strips (end_bytes places.now) bytes.entry.now result }
{
    let rest = strip(bytes, SECTION_NAMES)?;
    let rest = strip_zeros(rest, (places.headers - places.shstrtab_end) as usize)?;
    strip_headers(rest, &headers_of(places))
}

/// Whether bytes are the names of the sections, zeros up to the headers, and the headers.
pub fn are_end(bytes: &[u8], places: &Places) -> bool
    requires { places.now.headers ≡ round_up 8 places.now.shstrtab_end }
    ensures { IsTrue result ↔ (bytes.now ≡ end_bytes places.now) }
{
    match strip_end(bytes, places) {
        Some(rest) => rest.is_empty(),
        None => false,
    }
}
