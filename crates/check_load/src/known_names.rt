//! What is known of names, each at its number: which are asked for, and which are defined.
ghost use Rattle.std.specs.Prelude.{◌≡◌, ◌≤◌, ◌<◌, ◌+◌, ◌&&◌, ◌||◌, ℕ, IfOk, List, OnOk, false, length, max, option_copied, slice_get};
ghost use Rattle.std.specs.Str.{bytes_eq};
ghost use Rattle.check_load.specs.NameNumbers.{IsNumberOf, KeepNumbers, number_of};
ghost use Rattle.check_load.specs.Names.{defines_name, requests_name, state_at};

use crate::name_table::NameTable;
use elf_model::NameSeed;
use std::alloc::{AllocError, Global};
use std::marker::Model;

/// What is known of a name.
#[derive(Clone, Copy)]
pub struct NameState {
    /// The command or an object asks for its definition.
    pub requested: bool,
    /// An object defines it.
    pub defined: bool,
}

/// What is known of a name that was never noted.
const UNKNOWN: NameState = NameState {
    requested: false,
    defined: false,
};

/// What is told of a name that is noted: its number, and whether it was asked for before.
#[derive(Clone, Copy)]
pub struct Noted {
    pub number: usize,
    pub before: bool,
}

/// Adds what is said of a name to its state, and answers whether it was asked for before.
fn take_in(state: &mut NameState, said: NameState) -> bool
    ensures before { result ≡ state.old.requested }
    ensures requested { state.new.requested ≡ (said.requested || state.old.requested) }
    ensures defined { state.new.defined ≡ (said.defined || state.old.defined) }
{
    let before = state.requested;
    state.requested = said.requested || before;
    state.defined = said.defined || state.defined;
    before
}

/// Lets there be a state at a number: of those that come, nothing is known.
fn reach(states: &mut Vec<NameState>, number: usize) -> Result<(), AllocError>
    ensures same { (i : ℕ) → state_at states.new.items i ≡ state_at states.old.items i }
    ensures there { OnOk result (number < length states.new.items) }
    ensures size { length states.new.items ≤ max (length states.old.items) (number + 1) }
{
    while states.len() <= number {
        states.push(UNKNOWN)?;
    }
    Ok(())
}

/// The names that were noted, with what is known of them. Names whose states are missing were never noted.
#[derive(Drop)]
pub struct KnownNames<'a> {
    names: NameTable<'a>,
    states: Vec<NameState>,
}

impl<'a> Model for KnownNames<'a> {
    ghost use Rattle.std.specs.Prelude.{◌≤◌, length};
    ghost use Rattle.check_load.specs.Names.{Names};

    ghost Value = { Names };

    ghost view = { λ n. record { names = n.names; states = n.states.items } };

    ghost invariant = { λ n. length n.states.items ≤ length n.names };
}

impl<'a> KnownNames<'a> {
    /// No names, which are to be hashed from a seed, or found by their order without one. Takes no memory.
    pub fn new(alloc: Global, seed: Option<NameSeed>) -> KnownNames<'a>
        ensures requested { (n : List ℕ) → requests_name result n ≡ false }
        ensures defined { (n : List ℕ) → defines_name result n ≡ false }
    {
        KnownNames {
            names: NameTable::new(alloc, seed),
            states: Vec::new(alloc),
        }
    }

    /// The state of a name that was noted.
    fn found(&self, name: &[u8]) -> Option<&NameState>
        ensures { option_copied result
            ≡ slice_get self.now.states (number_of self.now.names name.now) }
    {
        let number = self.names.find(name)?;
        self.states.get(number)
    }

    /// What is known of a name; nothing of one that wasn't noted.
    pub fn state_of(&self, name: &[u8]) -> NameState
        ensures requested { result.requested ≡ requests_name self.now name.now }
        ensures defined { result.defined ≡ defines_name self.now name.now }
    {
        match self.found(name) {
            Some(state) => *state,
            None => UNKNOWN,
        }
    }

    /// Notes what is said of a name, and answers its number and whether it was asked for before.
    pub fn note(&mut self, name: &'a [u8], said: NameState) -> Result<Noted, AllocError>
        ensures before { IfOk result (λ r. r.before ≡ requests_name self.old name.entry.now) }
        ensures number { IfOk result (λ r. IsNumberOf self.new.names name.entry.now r.number) }
        ensures kept { OnOk result (KeepNumbers self.old.names self.new.names) }
        ensures requested { OnOk result ((n : List ℕ) →
            requests_name self.new n
            ≡ (bytes_eq name.entry.now n && said.requested || requests_name self.old n)) }
        ensures defined { OnOk result ((n : List ℕ) →
            defines_name self.new n
            ≡ (bytes_eq name.entry.now n && said.defined || defines_name self.old n)) }
    {
        let (number, _is_new) = self.names.add(name)?;
        reach(&mut self.states, number)?;
        let before = take_in(&mut self.states[number], said);
        Ok(Noted { number, before })
    }

    /// The names by their numbers, of which nothing more is known then.
    pub fn into_names(self) -> NameTable<'a>
        ensures { result ≡ self.entry.names }
    {
        self.names
    }
}
