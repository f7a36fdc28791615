//! The table of names by hash.
ghost use Rattle.std.specs.Prelude.{◌≡◌};
ghost use Rattle.symbols.specs.Rows.{no_rows};
ghost use Rattle.symbols.specs.Lists.{row_in};

use crate::candidate::Candidate;
use crate::name_table::NameTable;
use crate::row::{NO_ROW, Row, take_in};
use elf_model::Name;
use indexmap::IndexMap;
use std::alloc::{AllocError, Global};
use std::hash::BuildHasher;
use std::marker::Model;

/// A table of names that finds them by hash, keyed by the names themselves, which it borrows.
#[derive(Drop)]
pub struct IndexedTable<'a, S: BuildHasher> {
    rows: IndexMap<Name<'a>, Row, S>,
}

impl<'a, S: BuildHasher> Model for IndexedTable<'a, S> {
    ghost use Rattle.std.specs.Prelude.{List};
    ghost use Rattle.symbols.specs.Lists.{NamedRow};

    ghost Value = { List NamedRow };

    ghost view = { λ t. t.rows.entries };
}

impl<'a, S: BuildHasher> IndexedTable<'a, S> {
    /// A table without names, which hashes by `hash_builder` and takes no memory.
    pub fn with_hasher(alloc: Global, hash_builder: S) -> Self
        ensures { ⟦<IndexedTable<'a, S> as NameTable<'a>>⟧.rows result ≡ no_rows }
    {
        IndexedTable {
            rows: IndexMap::with_hasher(alloc, hash_builder),
        }
    }
}

impl<'a, S: BuildHasher> NameTable<'a> for IndexedTable<'a, S> {
    ghost rows = { row_in };

    fn get(&self, name: &'a [u8]) -> Option<Row> {
        self.rows.get(&Name(name)).copied()
    }

    fn offer(&mut self, name: &'a [u8], candidate: Candidate) -> Result<(), AllocError> {
        let row = self.rows.entry(Name(name))?.or_insert(NO_ROW);
        take_in(row, candidate);
        Ok(())
    }
}
