//! The entries of a kept RELA section that relocate, one after the other: the one walk over entries in the linker.
ghost use Rattle.std.specs.Prelude.{◌≡◌, filter};
ghost use Rattle.elf_model.specs.Link.Relocation.{is_some_kind};

use elf_model::Rela;
use elf_read::RelaRun;
use std::marker::Model;

/// Whether an entry relocates at all: its type isn't NONE.
pub fn is_some_kind(entry: &Rela) -> bool
    ensures { result ≡ is_some_kind entry.now }
{
    entry.kind() != 0
}

/// The entries that are left of a RELA section, but for those of type NONE.
#[derive(Drop)]
pub struct KeptEntries<'a> {
    entries: RelaRun<'a>,
    next: usize,
}

impl<'a> Model for KeptEntries<'a> {
    ghost use Rattle.std.specs.Prelude.{List, drop, filter};
    ghost use Rattle.elf_model.specs.Link.Relocation.{is_some_kind};
    ghost use Rattle.elf_model.specs.declared.records.Rela.{Rela};

    ghost Value = { List Rela };

    ghost view = { λ e. filter is_some_kind (drop e.next e.entries) };
}

impl<'a> KeptEntries<'a> {
    /// All of a RELA section.
    pub fn of(entries: RelaRun<'a>) -> KeptEntries<'a>
        ensures { result ≡ filter is_some_kind entries.entry }
    {
        KeptEntries { entries, next: 0 }
    }
}

impl<'a> Iterator for KeptEntries<'a> {
    ghost use Rattle.std.specs.Iterator.{YieldsFirst, item_count};

    type Item = Rela;

    ghost next_gives = { YieldsFirst (λ left. left) };

    ghost remaining = { item_count (λ left. left) };

    #[inline(always)]
    fn next(&mut self) -> Option<Rela> {
        while self.next < self.entries.len() {
            let entry = self.entries.at(self.next);
            self.next += 1;
            if is_some_kind(&entry) {
                return Some(entry);
            }
        }
        None
    }
}
