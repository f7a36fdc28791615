//! C14: where the map's line of a symbol table, the file header and the bytes after the last file part are others than they
//! should be.
ghost use Rattle.std.specs.Prelude.{◌≡◌, ◌≤◌, IfSome, IsSome, OnOk, length};
ghost use Rattle.elf_model.specs.Image.RightLink.{HoldsBefore, tabled_of};
ghost use Rattle.elf_model.specs.declared.verdict.Clause.TheVariants as clause;
ghost use Rattle.check_tables.specs.Tabled.{AreAt, AreWanted};
ghost use Rattle.explain_check.specs.Places.{AreFailures, FailsIn, IsInEntry, parts_end, tail_of};

use crate::bytes::{at, other_number, wrong_byte, wrong_number};
use crate::found::{Added, Found};
use crate::place::NumberName::{HeadersCount, HeadersOffset, NamesSection};
use crate::place::{ByteOf, CheckPlace, Failure, NumberName, TableEntry};
use byteview::View;
use check_stages::file_end;
use check_tables::c13_symbols::choices;
use check_tables::c14_tables::wanted::{Wanted, wanted_tables};
use checker::BoundLink;
use elf_model::SYM_SIZE;

/// The line of a table, or that there is none, where it must be otherwise.
fn wrongly_told<'a>(bound: &BoundLink<'_, 'a>) -> Failure<'a>
    ensures { IfSome result (FailsIn bound.now) }
{
    let link = bound.link();
    let there = link.map.symtab.is_some();
    if link.map.version != 2 || there != link.plan.strip {
        return None;
    }
    Some(CheckPlace::Symtab(there))
}

/// The entry that byte `i` is in, where a table's entries and its names begin at these bytes; its name is one of `names`.
fn entry_at<'a>(
    bytes: &[u8],
    entries: usize,
    strings: usize,
    names: &[&'a [u8]],
    i: usize,
) -> Option<TableEntry<'a>>
    ensures { IfSome result (IsInEntry bytes.now entries strings i) }
{
    let number = i.checked_sub(entries)? / SYM_SIZE;
    let name = names.get(number.checked_sub(1)?).copied()?;
    let view = View::new(bytes);
    let name_at = view.u32le(entries + SYM_SIZE * number)? as usize;
    if view.text_at(strings.checked_add(name_at)?)? != name {
        return None;
    }
    Some(TableEntry {
        number: number as u64,
        name,
    })
}

/// The bytes of an image after its last file part, which ends at `end`.
fn tail_of<'o>(bound: &BoundLink<'o, '_>, end: u64) -> &'o [u8]
    requires end { end ≡ parts_end bound.now }
    requires inside { end ≤ length bound.now.image }
    ensures { result.now ≡ tail_of bound.entry.now }
{
    let (_parts, bytes) = bound.memory().image().split_at(end as usize);
    bytes
}

/// The first byte after the last file part, which ends at `end`, that is another one than it should be.
fn wrong_tail<'a>(bound: &BoundLink<'_, 'a>, end: u64, wanted: &Wanted<'a>) -> Failure<'a>
    requires told { IsSome bound.now.map.symtab }
    requires end { end ≡ parts_end bound.now }
    requires inside { end ≤ length bound.now.image }
    requires wanted { AreWanted bound.now wanted.now.bytes.items wanted.now.count }
    requires places { AreAt end (tabled_of bound.now) wanted.now.places }
    ensures { IfSome result (FailsIn bound.now) }
{
    let (there, bytes) = (tail_of(bound, end), wanted.bytes.as_slice());
    let i = (0..there.len().max(bytes.len())).find(|i| there.get(*i) != bytes.get(*i))?;
    let entries = wanted.places.symtab - end;
    let strings = wanted.places.strtab - end;
    let entry = entry_at(bytes, entries as usize, strings as usize, &wanted.names, i);
    let of = ByteOf::Tail(end, entry);
    wrong_byte(bound, of, i as u64, at(there, i), at(bytes, i))
}

impl<'a> Found<'a> {
    /// Adds what is wrong with the table that the map tells of.
    fn add_table(&mut self, bound: &BoundLink<'_, 'a>) -> Added
        requires before { AreFailures bound.now self.old.places.items }
        requires clauses { HoldsBefore clause.C14 bound.now }
        requires told { IsSome bound.now.map.symtab }
        ensures { OnOk result (AreFailures bound.now self.new.places.items) }
    {
        let end = file_end(bound.memory());
        let Some(choices) = choices(self.alloc, bound)? else {
            return Ok(());
        };
        let Some(wanted) = wanted_tables(self.alloc, bound, &choices, end)? else {
            return Ok(());
        };
        let (symtab, headers) = (wanted.places.symtab, wanted.places.headers);
        self.add_some(other_number(bound, NumberName::TableOffset, symtab))?;
        self.add_some(other_number(bound, NumberName::TableCount, wanted.count))?;
        self.add_some(other_number(bound, NumberName::HeadersOffset, headers))?;
        self.add_some(wrong_tail(bound, end, &wanted))
    }

    /// Adds where the fourteenth clause fails.
    pub(crate) fn add_c14(&mut self, bound: &BoundLink<'_, 'a>) -> Added
        requires before { AreFailures bound.now self.old.places.items }
        requires clauses { HoldsBefore clause.C14 bound.now }
        ensures { OnOk result (AreFailures bound.now self.new.places.items) }
    {
        self.add_some(wrongly_told(bound))?;
        for name in [HeadersCount, NamesSection, HeadersOffset] {
            self.add_some(wrong_number(bound, name))?;
        }
        match bound.link().map.symtab {
            Some(_) => self.add_table(bound),
            None => Ok(()),
        }
    }
}
