//! The section of an object that has its line tables, and what its relocations say: in a relocatable object addresses and
//! offsets of texts are theirs (System V gABI 4, "Relocation").
ghost use Rattle.std.specs.Prelude.{◌≡◌, IfSome};
ghost use Rattle.line_tables.specs.Texts.{IsTextOf};

use byteview::View;
use elf_model::{R_X86_64_32, R_X86_64_64, Rela, SHF_COMPRESSED, SHT_RELA};
use elf_read::{ObjectFile, RelaRun};

/// A place of an object: a section, by its number, and an offset in there.
#[derive(Clone, Copy, PartialEq, Eq)]
pub struct Spot {
    pub section: usize,
    pub offset: u64,
}

/// The line tables of an object.
#[derive(Drop)]
pub struct Lines<'o, 'a> {
    pub object: &'o ObjectFile<'a>,
    /// The number of the section that has them, its bytes and its relocations.
    number: usize,
    pub bytes: &'a [u8],
    relocations: RelaRun<'a>,
}

/// Whether the bytes of a section are packed (System V gABI 4, "Section Compression").
fn is_compressed(object: &ObjectFile<'_>, number: usize) -> bool {
    object.section(number).sh_flags & SHF_COMPRESSED != 0
}

/// The relocations of a section: the first table of them.
fn relocations_of<'a>(object: &ObjectFile<'a>, number: usize) -> Option<RelaRun<'a>> {
    for i in 0..object.sections().len() {
        let header = object.section(i);
        if header.sh_type == SHT_RELA && header.sh_info as usize == number {
            return object.relas(i);
        }
    }
    None
}

/// The number of the section that has line tables.
fn number_of(object: &ObjectFile<'_>) -> Option<usize> {
    for i in 0..object.sections().len() {
        if let Some(name) = object.section_name(i)
            && name == b".debug_line".as_slice()
        {
            return Some(i);
        }
    }
    None
}

/// The entry whose field is at an offset, among those that are in the order of their fields, as compilers write them.
fn entry_at(entries: &RelaRun<'_>, at: u64) -> Option<Rela> {
    let (mut low, mut high) = (0, entries.len());
    'halves: while low < high {
        let middle = low + (high - low) / 2;
        if entries.at(middle).r_offset < at {
            low = middle + 1;
        } else {
            high = middle;
        }
    }
    let entry = entries.get(low)?;
    if entry.r_offset != at {
        return None;
    }
    Some(entry)
}

/// The text at a place of an object, up to its NUL.
fn text_in<'a>(object: &ObjectFile<'a>, spot: Spot) -> Option<&'a [u8]>
    ensures { IfSome result (λ t. IsTextOf object.now t.now) }
{
    View::new(object.section_bytes(spot.section)?).text_at(spot.offset as usize)
}

impl<'o, 'a> Lines<'o, 'a> {
    /// The line tables of an object; None where it has none with relocations, or they are compressed.
    pub fn of(object: &'o ObjectFile<'a>) -> Option<Lines<'o, 'a>>
        ensures { IfSome result (λ l. l.object.now ≡ object.entry.now) }
    {
        let number = number_of(object)?;
        if is_compressed(object, number) {
            return None;
        }
        Some(Lines {
            object,
            number,
            bytes: object.section_bytes(number)?,
            relocations: relocations_of(object, number)?,
        })
    }

    /// An offset of the line tables as a place of the object.
    pub fn spot(&self, at: usize) -> Spot {
        Spot {
            section: self.number,
            offset: at as u64,
        }
    }

    /// What the field at an offset holds once it is relocated: the place of a symbol and an addend.
    pub fn target(&self, at: usize) -> Option<Spot> {
        let entry = entry_at(&self.relocations, at as u64)?;
        if entry.kind() != R_X86_64_64 && entry.kind() != R_X86_64_32 {
            return None;
        }
        let symbol = self.object.symbol(entry.symbol() as usize);
        Some(Spot {
            section: usize::from(symbol.st_shndx),
            offset: symbol.st_value.wrapping_add_signed(entry.r_addend),
        })
    }

    /// The text at a place of the object, where that isn't compressed.
    pub fn text(&self, spot: Spot) -> Option<&'a [u8]>
        ensures { IfSome result (λ t. IsTextOf self.now.object.now t.now) }
    {
        if is_compressed(self.object, spot.section) {
            return None;
        }
        text_in(self.object, spot)
    }
}
