//! A table by names, with what it has for the two latest names at hand: mostly the next name is one of these.
ghost use Rattle.std.specs.Prelude.{◌≡◌, ℕ, IfOk, List, None, OnOk};
ghost use Rattle.check_link.specs.ByName.{HasNone, IsKept, found_in, known, over};

use crate::same_runs::same_text;
use std::alloc::{AllocError, Global};
use std::collections::BTreeMap;

/// A table by names, and two names with their values, of which the table may have older ones: the latest name and the one
/// before it.
#[derive(Drop)]
pub struct ByName<'a, V> {
    pub table: BTreeMap<&'a [u8], V>,
    pub other: &'a [u8],
    pub held: Option<V>,
    pub name: &'a [u8],
    pub value: Option<V>,
}

/// Puts the value of a name, where it has one, into a table.
fn settle<'a, V: Copy + Drop>(
    table: &mut BTreeMap<&'a [u8], V>,
    name: &'a [u8],
    value: Option<V>,
) -> Result<(), AllocError>
    requires { HasNone (found_in table.old) name.now value }
    ensures { OnOk result ((n : List ℕ) →
        found_in table.new n ≡ over name.now value (found_in table.old) n) }
{
    if let Some(value) = value {
        table.insert(name, value)?;
    }
    Ok(())
}

impl<'a, V: Copy + Drop> ByName<'a, V> {
    /// A table that has no names.
    pub fn new(alloc: Global) -> ByName<'a, V>
        ensures kept { IsKept result }
        ensures empty { (name : List ℕ) → known result name ≡ None }
    {
        ByName {
            table: BTreeMap::new(alloc),
            other: b"",
            held: None,
            name: b"",
            value: None,
        }
    }

    /// Takes the value of a name to hand.
    pub fn turn_to(&mut self, name: &'a [u8]) -> Result<(), AllocError>
        requires { IsKept self.old }
        ensures kept { OnOk result (IsKept self.new) }
        ensures turned { OnOk result (self.new.name.now ≡ name.now) }
        ensures same { OnOk result ((n : List ℕ) → known self.new n ≡ known self.old n) }
    {
        if same_text(name, self.name) {
            return Ok(());
        }
        let (latest, value) = (self.name, self.value);
        let (other, held) = (self.other, self.held);
        self.other = latest;
        self.held = value;
        self.name = name;
        if same_text(name, other) {
            self.value = held;
            return Ok(());
        }
        settle(&mut self.table, other, held)?;
        self.value = self.table.get(name).copied();
        Ok(())
    }

    /// The whole table.
    pub fn into_table(mut self) -> Result<BTreeMap<&'a [u8], V>, AllocError>
        requires { IsKept self }
        ensures { IfOk result (λ table. (name : List ℕ) → found_in table name ≡ known self.entry name) }
    {
        let (other, held) = (self.other, self.held);
        settle(&mut self.table, other, held)?;
        let (latest, value) = (self.name, self.value);
        settle(&mut self.table, latest, value)?;
        Ok(self.table)
    }
}
