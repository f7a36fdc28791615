//! Numbers of names: each name that came has one, from 0 on, in the order in which they came.
ghost use Rattle.std.specs.Prelude.{◌≡◌, ℕ, List, [], IfOk, OnOk, length, option_copied, slice_get, slice_index_or, ◌++◌, ◌∷◌};
ghost use Rattle.std.specs.List.{position};
ghost use Rattle.std.specs.Str.{bytes_eq};
ghost use Rattle.search.specs.Names.{number_of, with_name};

use elf_model::{Name, NameSeed};
use indexmap::IndexSet;
use std::alloc::{AllocError, Global};
use std::marker::Model;

/// What gives names numbers. The names are borrowed.
pub trait NameNumbers<'a> {
    // The names that have numbers, in the order of these.
    ghost names: { Self → List (List ℕ) };

    /// The number of a name; None where it has none. Takes no memory.
    fn number(&self, name: &'a [u8]) -> Option<usize>
        ensures { result ≡ position (bytes_eq name.now) (names self.now) };

    /// Gives a name a number, unless it has one, and answers it.
    ///
    /// # Errors
    ///
    /// Where memory is refused.
    fn add(&mut self, name: &'a [u8]) -> Result<usize, AllocError>
        ensures added { OnOk result (names self.new ≡ with_name (names self.old) name.now) }
        ensures number { IfOk result (λ i. i ≡ number_of (names self.old) name.now) };
}

/// Numbers of names that are found by hash.
#[derive(Drop)]
pub struct NameSet<'a> {
    names: IndexSet<Name<'a>, NameSeed>,
}

impl<'a> Model for NameSet<'a> {
    ghost use Rattle.std.specs.Prelude.{List, ℕ, map};

    ghost Value = { List (List ℕ) };

    ghost view = { λ s. map (λ n. n.0.now) s.names.keys };
}

impl<'a> NameSet<'a> {
    /// No names, which are to be hashed from a seed. Takes no memory.
    pub fn new(alloc: Global, seed: NameSeed) -> NameSet<'a>
        ensures { result ≡ [] }
    {
        NameSet {
            names: IndexSet::with_hasher(alloc, seed),
        }
    }

    /// The seed from which the names are hashed.
    pub fn seed(&self) -> NameSeed {
        *self.names.hasher()
    }

    /// How many names have numbers.
    pub fn len(&self) -> usize
        ensures { result ≡ length self.now }
    {
        self.names.len()
    }

    /// The name that has a number; the empty one where none has it.
    pub fn get(&self, number: usize) -> &'a [u8]
        ensures { result.now ≡ slice_index_or self.now number [] }
    {
        match self.names.get_index(number) {
            Some(name) => name.0,
            None => &[],
        }
    }

    /// The number of a name; None where it has none. Takes no memory.
    pub fn find(&self, name: &[u8]) -> Option<usize>
        ensures { result ≡ position (bytes_eq name.now) self.now }
    {
        self.names.get_index_of(&Name(name))
    }
}

impl<'a> NameNumbers<'a> for NameSet<'a> {
    ghost names = { λ s. s };

    fn number(&self, name: &'a [u8]) -> Option<usize> {
        self.find(name)
    }

    fn add(&mut self, name: &'a [u8]) -> Result<usize, AllocError> {
        let (number, _is_new) = self.names.insert_full(Name(name))?;
        Ok(number)
    }
}

/// Names in the order in which they came.
#[derive(Drop)]
pub struct NameList<'a> {
    names: Vec<&'a [u8]>,
}

impl<'a> Model for NameList<'a> {
    ghost use Rattle.std.specs.Prelude.{List, ℕ, map};

    ghost Value = { List (List ℕ) };

    ghost view = { λ s. map (λ n. n.now) s.names.items };
}

impl<'a> NameList<'a> {
    /// No names. Takes no memory.
    pub fn new(alloc: Global) -> NameList<'a>
        ensures { result ≡ [] }
    {
        NameList {
            names: Vec::new(alloc),
        }
    }

    /// Adds a name.
    pub fn push(&mut self, name: &'a [u8]) -> Result<(), AllocError>
        ensures { OnOk result (self.new ≡ self.old ++ name.now ∷ []) }
    {
        self.names.push(name)?;
        Ok(())
    }

    /// How many names there are.
    pub fn len(&self) -> usize
        ensures { result ≡ length self.now }
    {
        self.names.len()
    }

    /// The name that was added as number `i`, from 0; None where there are no more than `i`.
    pub fn get(&self, i: usize) -> Option<&'a [u8]>
        ensures { option_copied result ≡ slice_get self.now i }
    {
        self.names.get(i).copied()
    }
}
