//! A flaw of an item: what is wrong, and where.
ghost use Rattle.std.specs.Prelude.{◌≡◌, ◌++◌, ◌∷◌, [], OnOk};

use command::Source;
use elf_model::{ArFault, GroupFault, ObjFault};
use search::Reached;
use std::alloc::AllocError;

/// Why nothing is loaded of the items of a plan. Of an object it has where loading comes to it, of an archive the same with the
/// offset of the header of the member that is at fault, or 0.
#[derive(Clone, Copy, Debug)]
pub enum ItemFlaw<'a> {
    /// An item, by its number from 0, of which there is no file.
    Missing(u64, Source<'a>),
    /// An item that is read as an archive, and is none.
    Archive(Reached<'a>, ArFault),
    /// An archive that has no index of its members' names, and is searched by it.
    NoIndex(Reached<'a>),
    /// An object file that is none of the profile's.
    Object(Reached<'a>, ObjFault),
    /// An object whose groups of sections are refused.
    Groups(Reached<'a>, GroupFault),
}

/// Whether there was memory for what was to be added.
pub(crate) type Added = Result<(), AllocError>;

/// Adds a flaw.
pub(crate) fn add<'a>(flaws: &mut Vec<ItemFlaw<'a>>, flaw: ItemFlaw<'a>) -> Added
    ensures { OnOk result (flaws.new.items ≡ flaws.old.items ++ flaw.entry ∷ []) }
{
    flaws.push(flaw)?;
    Ok(())
}
