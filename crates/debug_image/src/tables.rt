//! The tables behind an image, and where they stand in the file.
ghost use Rattle.std.specs.Prelude.{◌≡◌, ◌↔◌, ◌≤◌, ◌+◌, ◌-◌, ◌<◌, ◌^◌, ◌++◌, IfOk, IsTrue, OnOk, length, replicate};
ghost use Rattle.elf_model.specs.Link.Placement.{round_up};
ghost use Rattle.debug_image.specs.Offsets.{AreOffsets};
ghost use Rattle.debug_image.specs.Tables as spec;
ghost use Rattle.debug_image.specs.Views.{header_views, tables_view};

use crate::headers::{HeaderRow, header_bytes, strings_row, symtab_row};
use std::alloc::{AllocError, Global};

/// The bytes of .symtab, of .strtab and of .shstrtab, how many symbols are LOCAL, with that of number 0, and the sections that
/// hold the image.
#[derive(Drop)]
pub struct Tables<'a> {
    pub symbols: Vec<u8>,
    pub names: Vec<u8>,
    pub titles: Vec<u8>,
    pub locals: u64,
    pub sections: Vec<HeaderRow<'a>>,
}

/// Where the tables begin, in bytes of the file, where .shstrtab ends, and where the section headers begin.
#[derive(Clone, Copy, Debug)]
pub struct Offsets {
    pub symtab: u64,
    pub strtab: u64,
    pub shstrtab: u64,
    pub end: u64,
    pub headers: u64,
}

/// The bytes of a table that there may be.
const MOST_BYTES: usize = 1 << 32;

/// The section headers that there may be.
const MOST_HEADERS: usize = 0xff00;

/// The least multiple of 8 that isn't below a number.
fn eight_up(x: u64) -> u64
    requires { x < 2 ^ 63 }
    ensures multiple { result ≡ round_up 8 x }
    ensures above { x ≤ result }
    ensures near { result < x + 8 }
{
    (x + 7) / 8 * 8
}

impl<'a> Tables<'a> {
    /// Whether the numbers of the tables can be said: fewer than 65,280 sections, and less than 2^32 bytes of each table.
    pub fn are_small(&self) -> bool
        ensures { IsTrue result ↔ spec.IsSmall (tables_view self.now) }
    {
        if self.sections.len() >= MOST_HEADERS - 4 || self.locals >= 1 << 32 {
            return false;
        }
        self.symbols.len() < MOST_BYTES
            && self.names.len() < MOST_BYTES
            && self.titles.len() < MOST_BYTES
    }

    /// The number of the section of the sections' names, which is the last one.
    pub fn last(&self) -> u16
        requires { spec.IsSmall (tables_view self.now) }
        ensures { result ≡ length (tables_view self.now).sections + 3 }
    {
        self.sections.len() as u16 + 3
    }

    /// Where the tables stand behind an image whose last file part ends at an offset.
    pub fn offsets(&self, end: u64) -> Offsets
        requires small { spec.IsSmall (tables_view self.now) }
        requires low { end ≤ 2 ^ 58 }
        ensures { AreOffsets end (tables_view self.now) result }
    {
        let symtab = eight_up(end);
        let strtab = symtab + self.symbols.len() as u64;
        let shstrtab = strtab + self.names.len() as u64;
        let last = shstrtab + self.titles.len() as u64;
        Offsets {
            symtab,
            strtab,
            shstrtab,
            end: last,
            headers: eight_up(last),
        }
    }

    /// All section headers but that of number 0.
    fn rows(&self, alloc: Global, end: u64) -> Result<Vec<HeaderRow<'a>>, AllocError>
        requires small { spec.IsSmall (tables_view self.now) }
        requires low { end ≤ 2 ^ 58 }
        ensures { IfOk result (λ v. header_views v.items
            ≡ spec.header_rows end (tables_view self.now)) }
    {
        let offsets = self.offsets(end);
        let symbols = self.symbols.len() as u64;
        let names = self.names.len() as u64;
        let titles = self.titles.len() as u64;
        let link = self.sections.len() as u32 + 2;
        let mut rows = Vec::from_slice(alloc, &self.sections)?;
        rows.push(symtab_row(offsets.symtab, symbols, link, self.locals as u32))?;
        rows.push(strings_row(b".strtab", offsets.strtab, names))?;
        rows.push(strings_row(b".shstrtab", offsets.shstrtab, titles))?;
        Ok(rows)
    }

    /// Puts the tables and the section headers behind an image whose last file part ends at an offset.
    pub fn add_to(&self, alloc: Global, file: &mut Vec<u8>, end: u64) -> Result<(), AllocError>
        requires small { spec.IsSmall (tables_view self.now) }
        requires low { end ≤ 2 ^ 58 }
        ensures { OnOk result (file.new.items
            ≡ file.old.items ++ spec.tail end (tables_view self.now)) }
    {
        let offsets = self.offsets(end);
        let rows = self.rows(alloc, end)?;
        let headers = header_bytes(alloc, &rows)?;
        pad(file, offsets.symtab - end)?;
        file.extend_from_slice(&self.symbols)?;
        file.extend_from_slice(&self.names)?;
        file.extend_from_slice(&self.titles)?;
        pad(file, offsets.headers - offsets.end)?;
        file.extend_from_slice(&headers)?;
        Ok(())
    }
}

/// Adds zeros, fewer than 8.
fn pad(file: &mut Vec<u8>, count: u64) -> Result<(), AllocError>
    requires { count < 8 }
    ensures { OnOk result (file.new.items ≡ file.old.items ++ replicate count 0) }
{
    let len = file.len();
    file.resize(len + count as usize, 0)?;
    Ok(())
}
