//! What is judged: a plan, the files, and what came out.
ghost use Rattle.std.specs.Prelude.{◌≡◌};

use ar_index::PartFile;
use command::Plan;
use elf_model::InputFile;
use linkmap::BorrowedMap;
use std::marker::Model;

/// A link that is checked: its plan, the files that were read, of which archives that it searches may have been read in part, and
/// what came out. Its map is one that has a text.
#[derive(Drop)]
pub struct Link<'a> {
    pub plan: Plan<'a>,
    pub parts: &'a [PartFile],
    pub files: &'a [InputFile],
    pub image: &'a [u8],
    pub map: BorrowedMap<'a>,
}

impl<'a> Model for Link<'a> {
    ghost use Rattle.opening.specs.Held.{AreSearched, held_files};
    ghost use Rattle.linkmap.specs.Record.{record_of};
    ghost use Rattle.elf_model.specs.Image.MapText.{IsMap};
    ghost use Rattle.elf_model.specs.Image.RightLink.{Subject};

    ghost Value = { Subject };

    ghost view = { λ l. record { plan = l.plan; files = held_files l.parts.now l.files.now; image = l.image.now; map = record_of l.map } };

    ghost invariant = { λ l. IsMap (record_of l.map) × AreSearched l.parts.now l.plan };
}

/// The address at which a plan's image begins.
pub fn base_of(plan: &Plan<'_>) -> u64
    ensures { result ≡ plan.now.base }
{
    plan.base
}

/// The name of a plan's entry.
pub fn entry_of<'a>(plan: &Plan<'a>) -> &'a [u8]
    ensures { result.now ≡ plan.now.entry }
{
    plan.entry.as_bytes()
}
