//! Symbol lines that are read again from the text of a map, each of which has a name without an escape.
ghost use Rattle.std.specs.Prelude.{◌≡◌, ◌<◌, ◌+◌, ◌++◌, ◌∷◌, [], Some, length};
ghost use Rattle.linkmap.specs.Borrowed.{symbol_row};
ghost use Rattle.linkmap.specs.PlainRuns.{IsRun, rows_of};
ghost use Rattle.linkmap.specs.SymbolRuns.{plain_line_at};

use crate::borrowed::{BorrowedSymbol, KeptSymbol};

/// The text that begins with the lines, how many they are, what is behind them, and the last of them.
#[derive(Clone, Copy, Debug)]
pub struct PlainRun<'t> {
    pub text: &'t [u8],
    pub count: usize,
    pub rest: &'t [u8],
    pub last: Option<BorrowedSymbol<'t>>,
}

impl<'t> PlainRun<'t> {
    /// No lines.
    #[tactic(auto, unfolding(crate::specs::SymbolRuns::lines_in, crate::specs::SymbolRuns::behind))]
    pub fn empty() -> PlainRun<'t>
        ensures run { IsRun result }
        ensures none { rows_of result ≡ [] }
    {
        PlainRun {
            text: &[],
            count: 0,
            rest: &[],
            last: None,
        }
    }

    /// How many lines there are, with some more.
    pub fn total(self, more: &[KeptSymbol<'_>]) -> usize
        requires { IsRun self }
        ensures { result ≡ length (rows_of self.entry) + length more.now }
    {
        self.count + more.len()
    }

    /// The lines with one more, with which a text begins, and behind which there is a rest.
    pub fn with(self, line: BorrowedSymbol<'t>, text: &'t [u8], rest: &'t [u8]) -> PlainRun<'t>
        requires run { IsRun self }
        requires line { plain_line_at text.now ≡ Some (symbol_row line, rest.now) }
        requires here { 0 < self.count → self.rest.now ≡ text.now }
        ensures run { IsRun result }
        ensures rows { rows_of result ≡ rows_of self.entry ++ symbol_row line.entry ∷ [] }
        ensures rest { result.rest.now ≡ rest.entry.now }
    {
        let last = Some(line);
        match self.count {
            0 => PlainRun {
                text,
                count: 1,
                rest,
                last,
            },
            count => PlainRun {
                text: self.text,
                count: count + 1,
                rest,
                last,
            },
        }
    }
}
