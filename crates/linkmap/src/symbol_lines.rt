//! The symbol lines of a map. Those up to the first whose name has an escape are read again from the text where they are
//! asked for, so that a million of them take no memory; that one and those behind it are kept.
ghost use Rattle.std.specs.Prelude.{◌≡◌, ◌<◌, ◌↔◌, ◌-◌, ◌++◌, ◌∷◌, [], Bool, IsTrue, OnOk, Some, false, length, option_map, slice_get, true};
ghost use Rattle.elf_model.specs.Image.MapRecord.{SymbolRow};
ghost use Rattle.linkmap.specs.Borrowed.{kept_row, symbol_row};
ghost use Rattle.linkmap.specs.SymbolRuns.{plain_line_at};

use crate::borrowed::{BorrowedSymbol, KeptSymbol};
use crate::fields::read_plain_line;
use crate::plain_run::PlainRun;
use std::alloc::{AllocError, Global};
use std::marker::Model;

/// The symbol lines of a map, in their order: those that are read again, and those behind them.
#[derive(Debug, Drop)]
pub struct SymbolLines<'t> {
    run: PlainRun<'t>,
    kept: Vec<KeptSymbol<'t>>,
}

impl<'t> Model for SymbolLines<'t> {
    ghost use Rattle.std.specs.Prelude.{◌++◌, ◌==◌, length, map};
    ghost use Rattle.linkmap.specs.Borrowed.{kept_row};
    ghost use Rattle.linkmap.specs.PlainRuns.{IsRun, rows_of};
    ghost use Rattle.linkmap.specs.SymbolRuns.{SymbolRun};

    ghost Value = { SymbolRun };

    ghost view = { λ l. record {
      rows = rows_of l.run ++ map kept_row l.kept.items;
      unkept = length l.kept.items == 0;
      rest = l.run.rest.now;
    } };

    ghost invariant = { λ l. IsRun l.run };
}

impl<'t> SymbolLines<'t> {
    /// No lines.
    pub(crate) fn new(alloc: Global) -> SymbolLines<'t>
        ensures { result.rows ≡ [] }
    {
        SymbolLines {
            run: PlainRun::empty(),
            kept: Vec::new(alloc),
        }
    }

    /// How many lines there are.
    pub fn len(&self) -> usize
        ensures { result ≡ length self.now.rows }
    {
        self.run.total(self.kept.as_slice())
    }

    /// Whether there are none.
    pub fn is_empty(&self) -> bool
        ensures { IsTrue result ↔ (length self.now.rows ≡ 0) }
    {
        self.len() == 0
    }

    /// The last line.
    pub(crate) fn last(&self) -> Option<BorrowedSymbol<'_>>
        ensures { option_map symbol_row result
            ≡ slice_get self.now.rows (length self.now.rows - 1) }
    {
        match self.kept.last() {
            Some(line) => Some(line.borrowed()),
            None => self.run.last,
        }
    }

    /// Adds a line with which a text begins, and behind which there is a rest.
    pub(crate) fn add(
        &mut self,
        line: BorrowedSymbol<'t>,
        text: &'t [u8],
        rest: &'t [u8],
    ) -> Result<(), AllocError>
        requires line { plain_line_at text.now ≡ Some (symbol_row line, rest.now) }
        requires here { 0 < length self.old.rows → self.old.unkept ≡ true → self.old.rest ≡ text.now }
        ensures rows { OnOk result (self.new.rows ≡ self.old.rows ++ symbol_row line.entry ∷ []) }
        ensures rest { OnOk result (self.new.unkept ≡ true → self.new.rest ≡ rest.entry.now) }
    {
        if !self.kept.is_empty() {
            return self.keep(line.kept());
        }
        self.run = self.run.with(line, text, rest);
        Ok(())
    }

    /// Adds a line that is kept.
    pub(crate) fn keep(&mut self, line: KeptSymbol<'t>) -> Result<(), AllocError>
        ensures rows { OnOk result (self.new.rows ≡ self.old.rows ++ kept_row line.entry ∷ []) }
        ensures closed { OnOk result (self.new.unkept ≡ false) }
    {
        self.kept.push(line)?;
        Ok(())
    }

    /// The lines, one after the other.
    pub fn iter(&self) -> SymbolWalk<'_, 't>
        ensures { result ≡ self.now.rows }
    {
        SymbolWalk {
            text: self.run.text,
            count: self.run.count,
            kept: self.kept.as_slice(),
            next: 0,
        }
    }
}

/// The symbol lines that are left of a map.
#[derive(Drop)]
pub struct SymbolWalk<'s, 't> {
    text: &'s [u8],
    count: usize,
    kept: &'s [KeptSymbol<'t>],
    next: usize,
}

impl<'s, 't> Model for SymbolWalk<'s, 't> {
    ghost use Rattle.std.specs.Prelude.{◌≡◌, ◌++◌, List, drop, length, map};
    ghost use Rattle.elf_model.specs.Image.MapRecord.{SymbolRow};
    ghost use Rattle.linkmap.specs.Borrowed.{kept_row};
    ghost use Rattle.linkmap.specs.SymbolRuns.{lines_in};

    ghost Value = { List SymbolRow };

    ghost view = { λ w. lines_in w.count w.text.now ++ map kept_row (drop w.next w.kept.now) };

    ghost invariant = { λ w. length (lines_in w.count w.text.now) ≡ w.count };
}

impl<'s, 't> Iterator for SymbolWalk<'s, 't> {
    ghost use Rattle.std.specs.Iterator.{YieldsFirstBy, item_count};
    ghost use Rattle.linkmap.specs.Borrowed.{symbol_row};

    type Item = BorrowedSymbol<'s>;

    ghost next_gives = { YieldsFirstBy symbol_row (λ left. left) };

    ghost remaining = { item_count (λ left. left) };

    fn next(&mut self) -> Option<BorrowedSymbol<'s>> {
        if self.count > 0 {
            let (line, rest) = read_plain_line(self.text)?;
            self.text = rest;
            self.count -= 1;
            return Some(line);
        }
        let line = self.kept.get(self.next)?;
        self.next += 1;
        Some(line.borrowed())
    }
}
