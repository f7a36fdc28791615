//! Tables of records of one size (System V gABI 4): section headers, symbols and relocation entries, which stay where
//! they are in the file.
ghost use Rattle.std.specs.Prelude.{◌≡◌, ◌+◌, ◌*◌, ◌<◌, ◌≤◌, [], ℕ, List, IfOk, length, slice_index_or};
ghost use Rattle.std.specs.List.{slice_get};
ghost use Rattle.byteview.specs.Numbers.{IsInside, part};
ghost use Rattle.elf_model.specs.Inputs.ObjectFile.{entries, null_section, null_symbol};
ghost use Rattle.elf_model.specs.Inputs.Records.{rela, section_header, symbol};
ghost use Rattle.elf_read.specs.Reading.{null_rela};

use byteview::View;
use elf_model::{RELA_SIZE, Rela, SHDR_SIZE, SYM_SIZE, SectionHeader, Symbol};
use std::alloc::{AllocError, Global};
use std::marker::{Model, PhantomData};

/// A record of a table: its bytes are of one size.
pub trait Record: Copy + Drop {
    ghost SIZE: { ℕ };

    ghost spelled: { List ℕ → Self };

    ghost null: { Self };

    /// How many bytes spell it.
    const SIZE: usize;

    /// The record that bytes of a file spell, from an offset on.
    fn inside(file: &[u8], at: usize) -> Self
        requires { IsInside file.now at SIZE }
        ensures { result ≡ spelled (part file.now at SIZE) };
}

impl Record for SectionHeader {
    ghost SIZE = { 64 };

    ghost spelled = { section_header };

    ghost null = { null_section };

    const SIZE: usize = SHDR_SIZE;

    fn inside(file: &[u8], at: usize) -> SectionHeader {
        let Some(section) = SectionHeader::read(View::new(View::new(file).part(at, SHDR_SIZE)))
        else {
            unreachable!()
        };
        section
    }
}

impl Record for Symbol {
    ghost SIZE = { 24 };

    ghost spelled = { symbol };

    ghost null = { null_symbol };

    const SIZE: usize = SYM_SIZE;

    fn inside(file: &[u8], at: usize) -> Symbol {
        let Some(symbol) = Symbol::read(View::new(View::new(file).part(at, SYM_SIZE))) else {
            unreachable!()
        };
        symbol
    }
}

impl Record for Rela {
    ghost SIZE = { 24 };

    ghost spelled = { rela };

    ghost null = { null_rela };

    const SIZE: usize = RELA_SIZE;

    fn inside(file: &[u8], at: usize) -> Rela {
        let Some(entry) = Rela::read(View::new(View::new(file).part(at, RELA_SIZE))) else {
            unreachable!()
        };
        entry
    }
}

/// Records of one table, where they are in the file.
#[derive(Drop)]
pub struct Run<'a, T: Record> {
    file: &'a [u8],
    start: usize,
    count: usize,
    of: PhantomData<T>,
}

impl<'a, T: Record> Model for Run<'a, T> {
    ghost use Rattle.std.specs.Prelude.{◌+◌, ◌*◌, ◌≤◌, List, length};
    ghost use Rattle.elf_model.specs.Inputs.ObjectFile.{entries};

    ghost Value = { List T };

    ghost view = { λ r. entries T.spelled T.SIZE r.file.now r.start r.count };

    ghost invariant = { λ r. r.start + T.SIZE * r.count ≤ length r.file.now };
}

impl<'a, T: Record> Run<'a, T> {
    /// No records.
    pub fn none() -> Run<'a, T>
        ensures { result ≡ [] }
    {
        Run {
            file: &[],
            start: 0,
            count: 0,
            of: PhantomData,
        }
    }

    /// So many records from an offset on, which lie inside the file.
    pub fn new(file: &'a [u8], start: usize, count: usize) -> Run<'a, T>
        requires { start + T.SIZE * count ≤ length file.now }
        ensures { result ≡ entries T.spelled T.SIZE file.now start count }
    {
        Run {
            file,
            start,
            count,
            of: PhantomData,
        }
    }

    /// How many records there are.
    pub fn len(&self) -> usize
        ensures { result ≡ length self.now }
    {
        self.count
    }

    /// The record of a number, from 0.
    pub fn at(&self, i: usize) -> T
        requires { i < length self.now }
        ensures { result ≡ slice_index_or self.now i T.null }
    {
        T::inside(self.file, self.start + T::SIZE * i)
    }

    /// The record of a number, from 0; None past the end.
    pub fn get(&self, i: usize) -> Option<T>
        ensures { result ≡ slice_get self.now i }
    {
        if i >= self.len() {
            return None;
        }
        Some(self.at(i))
    }

    /// The records as a table of their own.
    pub fn to_vec(&self, alloc: Global) -> Result<Vec<T>, AllocError>
        ensures { IfOk result (λ v. v.items ≡ self.now) }
    {
        let mut records = Vec::with_capacity(alloc, self.len())?;
        for i in 0..self.len() {
            records.push(self.at(i))?;
        }
        Ok(records)
    }
}
