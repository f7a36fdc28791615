//! The numbers of the names of an object's symbols, as loading gave them.
ghost use Rattle.std.specs.Prelude.{◌≡◌, [], IfOk, IfSome, OnOk, Some};
ghost use Rattle.check_load.specs.Numbered.{HasOneMore, number_in};

use std::alloc::{AllocError, Global};
use std::marker::Model;

/// The numbers of the names of an object's symbols, at the symbols' numbers. None is kept for a symbol that neither asks for a
/// definition nor is one, and for a number that takes more than 32 bits.
#[derive(Drop)]
pub struct SymbolNumbers {
    numbers: Vec<Option<u32>>,
}

impl Model for SymbolNumbers {
    ghost use Rattle.std.specs.Prelude.{List, Option, ℕ};

    ghost Value = { List (Option ℕ) };

    ghost view = { λ s. s.numbers.items };
}

/// A number, where it takes at most 32 bits.
fn short(number: Option<usize>) -> Option<u32>
    ensures { IfSome result (λ k. number ≡ Some k) }
{
    let number = number?;
    if number > 0xffff_ffff {
        return None;
    }
    Some(number as u32)
}

impl SymbolNumbers {
    /// Those of no symbols, with room for a number of them.
    pub fn new(alloc: Global, count: usize) -> Result<SymbolNumbers, AllocError>
        ensures { IfOk result (λ s. s ≡ []) }
    {
        let numbers = Vec::with_capacity(alloc, count)?;
        Ok(SymbolNumbers { numbers })
    }

    /// Adds that of the next symbol.
    pub fn push(&mut self, number: Option<usize>) -> Result<(), AllocError>
        ensures { OnOk result (HasOneMore number self.old self.new) }
    {
        self.numbers.push(short(number))?;
        Ok(())
    }

    /// What is kept for symbol `j`.
    fn kept(&self, j: usize) -> Option<u32>
        ensures { result ≡ number_in self.now j }
    {
        match self.numbers.get(j) {
            Some(number) => *number,
            None => None,
        }
    }

    /// The number of the name of symbol `j`, where it is known.
    pub fn at(&self, j: usize) -> Option<usize>
        ensures { result ≡ number_in self.now j }
    {
        let number = self.kept(j)?;
        Some(number as usize)
    }
}
