//! What every table of names promises.
ghost use Rattle.std.specs.Prelude.{◌≡◌, ℕ, List, Option, OnErr, OnOk};
ghost use Rattle.symbols.specs.Rows.{offered};
ghost use Rattle.symbols.specs.declared.row.Row.{Row as RowOfName};

use crate::candidate::Candidate;
use crate::row::Row;
use std::alloc::AllocError;

/// A finite map from names to rows, to which candidates are offered. The names are borrowed.
pub trait NameTable<'a> {
    // The row of each name, None for one that was never offered.
    ghost rows: { Self → List ℕ → Option RowOfName };

    /// The row of a name; None where it was never offered. Takes no memory.
    fn get(&self, name: &'a [u8]) -> Option<Row>
        ensures { result ≡ rows self.now name.now };

    /// Offers a candidate for a name, whose row takes it in.
    ///
    /// # Errors
    ///
    /// Where memory is refused; the table is then as before.
    fn offer(&mut self, name: &'a [u8], candidate: Candidate) -> Result<(), AllocError>
        // The offered name's row has taken the candidate in, and every other name's is as before.
        ensures taken { OnOk result (rows self.new ≡ offered name.now candidate (rows self.old)) }
        ensures refused { OnErr result (rows self.new ≡ rows self.old) };
}
