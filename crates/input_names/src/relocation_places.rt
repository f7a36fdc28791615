//! Places of kept relocations, and whether the fields of two share a byte.
ghost use Rattle.std.specs.Prelude.{◌≡◌, [], IsTrue, unwrap_or};
ghost use Rattle.elf_model.specs.Inputs.ObjectFile.{section_name};
ghost use Rattle.input_names.specs.RelocationPlaces.{BeginsIn, HasNumbers};

use elf_model::{Rela, SectionHeader};
use elf_read::ObjectFile;

/// A kept relocation of a loaded object (System V gABI 4, "Relocation").
#[derive(Clone, Copy, Debug)]
pub struct RelocationPlace<'a> {
    /// The number of the object, from 0 in load order.
    pub object: u64,
    /// The number of the RELA section that the entry is in.
    pub table: u64,
    /// The number of the entry in there, from 0.
    pub number: u64,
    pub entry: Rela,
    /// The number of the section that it relocates.
    pub section: u32,
    pub section_name: &'a [u8],
    pub symbol_name: &'a [u8],
}

/// The name of section `i`; empty where it has none.
pub fn section_name<'a>(object: &ObjectFile<'a>, i: usize) -> &'a [u8]
    ensures { result.now ≡ unwrap_or (section_name object.now i) [] }
{
    object.section_name(i).unwrap_or(&[])
}

/// The place of entry `e` of RELA section `i`, which has the header, of object `number`.
pub fn relocation_place<'a>(
    number: usize,
    object: &ObjectFile<'a>,
    i: usize,
    header: &SectionHeader,
    e: usize,
    entry: &Rela,
) -> RelocationPlace<'a>
    ensures { HasNumbers result object.now header.now number i e entry.now }
{
    RelocationPlace {
        object: number as u64,
        table: i as u64,
        number: e as u64,
        entry: *entry,
        section: header.sh_info,
        section_name: section_name(object, header.sh_info as usize),
        symbol_name: object.symbol_name(entry.symbol() as usize),
    }
}

/// Whether the field of a relocation begins inside that of another one, in the same section; both have widths in bytes.
pub fn begins_in(
    first: &RelocationPlace<'_>,
    width: u64,
    second: &RelocationPlace<'_>,
    second_width: u64,
) -> bool
    ensures { IsTrue result → BeginsIn first.now width second.now second_width }
{
    if first.object != second.object || first.section != second.section {
        return false;
    }
    if first.table == second.table && first.number == second.number {
        return false;
    }
    let from = first.entry.r_offset;
    let to = second.entry.r_offset;
    second_width > 0 && from <= to && to - from < width
}
