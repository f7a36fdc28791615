//! The table of names as a list.
ghost use Rattle.std.specs.Prelude.{◌≡◌};
ghost use Rattle.symbols.specs.Rows.{no_rows};
ghost use Rattle.symbols.specs.Lists.{place_in, row_in};

use crate::candidate::Candidate;
use crate::name_table::NameTable;
use crate::row::{NO_ROW, Row, take_in};
use elf_model::Name;
use std::alloc::{AllocError, Global};
use std::marker::Model;

/// A table of names that searches a list from its front: the plain program of the definition.
#[derive(Drop)]
pub struct ListTable<'a> {
    rows: Vec<(Name<'a>, Row)>,
}

impl<'a> Model for ListTable<'a> {
    ghost use Rattle.std.specs.Prelude.{List};
    ghost use Rattle.symbols.specs.Lists.{HasNamesOnce, NamedRow};

    ghost Value = { List NamedRow };

    ghost view = { λ t. t.rows.items };

    ghost invariant = { λ t. HasNamesOnce t.rows.items };
}

/// The place of a name in a list; None where the list hasn't got it.
fn place_of(rows: &[(Name<'_>, Row)], name: &[u8]) -> Option<usize>
    ensures { result ≡ place_in rows.now name.now }
{
    rows.iter().position(|entry| name == entry.0.0)
}

impl<'a> ListTable<'a> {
    /// A table without names, which takes no memory.
    pub fn new(alloc: Global) -> Self
        ensures { ⟦<ListTable<'a> as NameTable<'a>>⟧.rows result ≡ no_rows }
    {
        ListTable {
            rows: Vec::new(alloc),
        }
    }
}

impl<'a> NameTable<'a> for ListTable<'a> {
    ghost rows = { row_in };

    fn get(&self, name: &'a [u8]) -> Option<Row> {
        let place = place_of(&self.rows, name)?;
        Some(self.rows[place].1)
    }

    fn offer(&mut self, name: &'a [u8], candidate: Candidate) -> Result<(), AllocError> {
        if let Some(place) = place_of(&self.rows, name) {
            take_in(&mut self.rows[place].1, candidate);
            return Ok(());
        }
        let mut row = NO_ROW;
        take_in(&mut row, candidate);
        self.rows.push((Name(name), row))?;
        Ok(())
    }
}
