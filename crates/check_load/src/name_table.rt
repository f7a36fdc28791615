//! Names with numbers, from 0 on in the order in which they come. They are found by a hash from a seed, which whoever
//! picks the names doesn't know, or without a seed by their order: no choice of names makes them slow to find.
ghost use Rattle.std.specs.Prelude.{◌≡◌, ◌++◌, ◌∷◌, [], IfOk, None, OnErr, OnOk, length, not};
ghost use Rattle.std.specs.List.{position};
ghost use Rattle.std.specs.Str.{bytes_eq};
ghost use Rattle.check_load.specs.NameNumbers.{is_among, number_of, with_name};

use elf_model::{Name, NameSeed};
use indexmap::IndexSet;
use std::alloc::{AllocError, Global};
use std::collections::BTreeMap;
use std::marker::Model;

/// Names that are found by hash.
#[derive(Drop)]
pub struct HashedNames<'a> {
    names: IndexSet<Name<'a>, NameSeed>,
}

impl<'a> Model for HashedNames<'a> {
    ghost use Rattle.std.specs.Prelude.{List, ℕ, map};

    ghost Value = { List (List ℕ) };

    ghost view = { λ s. map (λ n. n.0.now) s.names.keys };
}

impl<'a> HashedNames<'a> {
    fn new(alloc: Global, seed: NameSeed) -> HashedNames<'a>
        ensures { result ≡ [] }
    {
        HashedNames {
            names: IndexSet::with_hasher(alloc, seed),
        }
    }

    /// Makes room for a number of names more.
    fn reserve(&mut self, count: usize) -> Result<(), AllocError>
        ensures { self.new ≡ self.old }
    {
        self.names.reserve(count)
    }

    fn find(&self, name: &[u8]) -> Option<usize>
        ensures { result ≡ position (bytes_eq name.now) self.now }
    {
        self.names.get_index_of(&Name(name))
    }

    fn add(&mut self, name: &'a [u8]) -> Result<(usize, bool), AllocError>
        ensures added { OnOk result (self.new ≡ with_name self.old name.now) }
        ensures number { IfOk result (λ r. r.0 ≡ number_of self.old name.now) }
        ensures fresh { IfOk result (λ r. r.1 ≡ not (is_among self.old name.now)) }
        ensures same { OnErr result (self.new ≡ self.old) }
    {
        let found = self.names.insert_full(Name(name))?;
        Ok(found)
    }
}

/// Names that are found by their order, by which an ordered table has their numbers.
#[derive(Drop)]
pub struct OrderedNames<'a> {
    names: Vec<&'a [u8]>,
    numbers: BTreeMap<&'a [u8], usize>,
}

impl<'a> Model for OrderedNames<'a> {
    ghost use Rattle.std.specs.Prelude.{List, ℕ, map};
    ghost use Rattle.check_load.specs.NameNumbers.{AreNumbers};

    ghost Value = { List (List ℕ) };

    ghost view = { λ s. map (λ n. n.now) s.names.items };

    ghost invariant = { λ s. AreNumbers (map (λ n. n.now) s.names.items) s.numbers };
}

impl<'a> OrderedNames<'a> {
    fn new(alloc: Global) -> OrderedNames<'a>
        ensures { result ≡ [] }
    {
        OrderedNames {
            names: Vec::new(alloc),
            numbers: BTreeMap::new(alloc),
        }
    }

    /// Makes room for a number of names more, as far as that can be done.
    fn reserve(&mut self, count: usize) -> Result<(), AllocError>
        ensures { self.new ≡ self.old }
    {
        self.names.reserve(count)
    }

    fn find(&self, name: &[u8]) -> Option<usize>
        ensures { result ≡ position (bytes_eq name.now) self.now }
    {
        self.numbers.get(name).copied()
    }

    /// Adds a name that isn't there, and answers its number.
    fn push(&mut self, name: &'a [u8]) -> Result<usize, AllocError>
        requires { position (bytes_eq name.now) self.old ≡ None }
        ensures added { OnOk result (self.new ≡ self.old ++ name.now ∷ []) }
        ensures number { IfOk result (λ i. i ≡ length self.old) }
        ensures same { OnErr result (self.new ≡ self.old) }
    {
        let number = self.names.len();
        self.names.push(name)?;
        match self.numbers.insert(name, number) {
            Ok(_) => Ok(number),
            Err(_) => {
                self.names.pop();
                Err(AllocError)
            }
        }
    }

    fn add(&mut self, name: &'a [u8]) -> Result<(usize, bool), AllocError>
        ensures added { OnOk result (self.new ≡ with_name self.old name.now) }
        ensures number { IfOk result (λ r. r.0 ≡ number_of self.old name.now) }
        ensures fresh { IfOk result (λ r. r.1 ≡ not (is_among self.old name.now)) }
        ensures same { OnErr result (self.new ≡ self.old) }
    {
        if let Some(number) = self.find(name) {
            return Ok((number, false));
        }
        let number = self.push(name)?;
        Ok((number, true))
    }
}

/// Where names are found.
#[derive(Drop)]
pub enum Finder<'a> {
    Hashed(HashedNames<'a>),
    Ordered(OrderedNames<'a>),
}

/// Names that have numbers.
#[derive(Drop)]
pub struct NameTable<'a> {
    finder: Finder<'a>,
}

impl<'a> Model for NameTable<'a> {
    ghost use Rattle.std.specs.Prelude.{List, ℕ};
    ghost use Rattle.check_load.specs.NameFinders.{names_of};

    ghost Value = { List (List ℕ) };

    ghost view = { λ t. names_of t.finder };
}

impl<'a> NameTable<'a> {
    /// No names, which are to be hashed from a seed, or found by their order without one. Takes no memory.
    pub fn new(alloc: Global, seed: Option<NameSeed>) -> NameTable<'a>
        ensures { result ≡ [] }
    {
        let finder = match seed {
            Some(seed) => Finder::Hashed(HashedNames::new(alloc, seed)),
            None => Finder::Ordered(OrderedNames::new(alloc)),
        };
        NameTable { finder }
    }

    /// Makes room for a number of names more, so that fewer of those that come need memory.
    ///
    /// # Errors
    ///
    /// Where memory is refused.
    pub fn reserve(&mut self, count: usize) -> Result<(), AllocError>
        ensures { self.new ≡ self.old }
    {
        match &mut self.finder {
            Finder::Hashed(names) => names.reserve(count),
            Finder::Ordered(names) => names.reserve(count),
        }
    }

    /// The number of a name; None where it has none. Takes no memory.
    pub fn find(&self, name: &[u8]) -> Option<usize>
        ensures { result ≡ position (bytes_eq name.now) self.now }
    {
        match &self.finder {
            Finder::Hashed(names) => names.find(name),
            Finder::Ordered(names) => names.find(name),
        }
    }

    /// Gives a name a number, unless it has one: the number, and whether the name is new.
    ///
    /// # Errors
    ///
    /// Where memory is refused; the names are those before then.
    pub fn add(&mut self, name: &'a [u8]) -> Result<(usize, bool), AllocError>
        ensures added { OnOk result (self.new ≡ with_name self.old name.now) }
        ensures number { IfOk result (λ r. r.0 ≡ number_of self.old name.now) }
        ensures fresh { IfOk result (λ r. r.1 ≡ not (is_among self.old name.now)) }
        ensures same { OnErr result (self.new ≡ self.old) }
    {
        match &mut self.finder {
            Finder::Hashed(names) => names.add(name),
            Finder::Ordered(names) => names.add(name),
        }
    }
}
