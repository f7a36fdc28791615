//! The kept relocations of a loaded object, one after the other: the one walk over them.
ghost use Rattle.std.specs.Prelude.{◌≡◌, ◌++◌, [], ℕ, All, map};
ghost use Rattle.elf_model.specs.Link.Relocation.{is_some_kind, relocations_from};
ghost use Rattle.check_load.specs.KeptRelocations.{IsKeptRelocation, kept_relocations, relocation_at, relocations_of_rela, relocations_of_relas};
ghost use Rattle.check_load.specs.Views.{loaded_view};

use crate::kept_sections::KeptRela;
use crate::loaded::Loaded;
use elf_model::Rela;
use elf_read::{ObjectFile, RelaRun};
use std::marker::Model;

/// A kept relocation of an object: the number of the section that it relocates, that of the RELA section which it is in, its own
/// number there, and its entry, whose type isn't NONE.
#[derive(Clone, Copy, Debug)]
pub struct KeptRelocation {
    pub section: u32,
    pub table: u32,
    pub number: usize,
    pub entry: Rela,
}

/// Whether an entry relocates at all: its type isn't NONE.
pub fn is_some_kind(entry: &Rela) -> bool
    ensures { result ≡ is_some_kind entry.now }
{
    entry.kind() != 0
}

/// The relocations of a RELA section, from an entry on.
#[derive(Drop)]
struct Entries<'a> {
    rela: KeptRela,
    entries: RelaRun<'a>,
    next: usize,
}

impl<'a> Model for Entries<'a> {
    ghost use Rattle.std.specs.Prelude.{List, drop};
    ghost use Rattle.check_load.specs.KeptRelocations.{entries_behind};
    ghost use Rattle.check_load.specs.declared.kept_relocations.KeptRelocation.{KeptRelocation};

    ghost Value = { List KeptRelocation };

    ghost view = { λ e. entries_behind e.rela e.next (drop e.next e.entries) };
}

impl<'a> Entries<'a> {
    /// The relocations of a RELA section of an object.
    fn new(object: &ObjectFile<'a>, rela: KeptRela) -> Entries<'a>
        ensures { result ≡ relocations_of_rela object.now rela }
    {
        Entries {
            rela,
            entries: object.entries(rela.number as usize),
            next: 0,
        }
    }
}

impl<'a> Iterator for Entries<'a> {
    ghost use Rattle.std.specs.Iterator.{YieldsFirst, item_count};

    type Item = KeptRelocation;

    ghost next_gives = { YieldsFirst (λ left. left) };

    ghost remaining = { item_count (λ left. left) };

    #[inline(always)]
    fn next(&mut self) -> Option<KeptRelocation> {
        while self.next < self.entries.len() {
            let number = self.next;
            let entry = self.entries.at(number);
            self.next = number + 1;
            if is_some_kind(&entry) {
                return Some(KeptRelocation {
                    section: self.rela.target,
                    table: self.rela.number,
                    number,
                    entry,
                });
            }
        }
        None
    }
}

/// The kept relocations of an object that are left, seen as their list.
#[derive(Drop)]
pub struct Relocations<'l, 'a> {
    object: &'l ObjectFile<'a>,
    entries: Entries<'a>,
    relas: &'l [KeptRela],
}

impl<'l, 'a> Model for Relocations<'l, 'a> {
    ghost use Rattle.std.specs.Prelude.{◌++◌, List};
    ghost use Rattle.check_load.specs.KeptRelocations.{relocations_of_relas};
    ghost use Rattle.check_load.specs.declared.kept_relocations.KeptRelocation.{KeptRelocation};

    ghost Value = { List KeptRelocation };

    ghost view = { λ r. r.entries ++ relocations_of_relas r.object.now r.relas.now };
}

impl<'l, 'a> Iterator for Relocations<'l, 'a> {
    ghost use Rattle.std.specs.Iterator.{YieldsFirst, item_count};

    type Item = KeptRelocation;

    ghost next_gives = { YieldsFirst (λ left. left) };

    ghost remaining = { item_count (λ left. left) };

    #[inline(always)]
    fn next(&mut self) -> Option<KeptRelocation> {
        loop {
            if let Some(relocation) = self.entries.next() {
                return Some(relocation);
            }
            let (first, others) = self.relas.split_first()?;
            self.entries = Entries::new(self.object, *first);
            self.relas = others;
        }
    }
}

/// The relocations of no RELA section.
fn no_entries<'a>() -> Entries<'a>
    ensures { result ≡ [] }
{
    Entries {
        rela: KeptRela {
            number: 0,
            target: 0,
        },
        entries: RelaRun::none(),
        next: 0,
    }
}

/// The relocations of RELA sections of an object.
fn relocations_of<'l, 'a>(object: &'l ObjectFile<'a>, relas: &'l [KeptRela]) -> Relocations<'l, 'a>
    ensures { result ≡ relocations_of_relas object.now relas.now }
{
    Relocations {
        object,
        entries: no_entries(),
        relas,
    }
}

impl<'a> Loaded<'a> {
    /// Its kept relocations: those of its kept RELA sections in order, and in each the entries in order, but for those of type
    /// NONE.
    pub fn relocations<'l>(&'l self) -> Relocations<'l, 'a>
        ensures exact { result ≡ kept_relocations (loaded_view self.now) }
        ensures relocations { (n : ℕ) → map (relocation_at n (loaded_view self.now)) result
            ≡ relocations_from n (loaded_view self.now) }
        ensures kept { All (IsKeptRelocation (loaded_view self.now)) result }
    {
        relocations_of(&self.object, self.kept_relas())
    }
}
