//! How a note of an archive reads, after the place that asks for a name.

use crate::text::Inputs;
use archive_notes::{ArchiveFact, ArchiveNote};
use input_names::{Name, ObjectName};
use std::io;
use std::io::Write;

/// Writes what an archive has to do with a name that nothing defines, where something is told of one.
pub fn write_archive<W: Write>(
    out: &mut W,
    inputs: Inputs<'_>,
    notes: &[ArchiveNote<'_>],
    name: &[u8],
) -> io::Result<()> {
    let mut notes = notes.iter();
    let Some(note) = notes.find(|note| note.name == name) else {
        return Ok(());
    };
    let (path, item, name) = (Name(note.path.as_bytes()), note.item, Name(name));
    let member = ObjectName::new(inputs.files, note.path, note.offset);
    match note.fact {
        ArchiveFact::Passed => write!(
            out,
            "; {path} (item {item}) defines {name}, but was searched before it was needed: name it later, or in a group"
        ),
        ArchiveFact::Dropped => write!(
            out,
            "; {member} defines {name}, in a section that is dropped with its group, as an earlier object has the group"
        ),
        ArchiveFact::Slim => write!(
            out,
            "; {member} has {name} only for optimization at link time: compile it without -flto, or with -ffat-lto-objects"
        ),
        ArchiveFact::Stale => write!(
            out,
            "; {path} (item {item}) names {name} in its index, but {member} doesn't define it: make the index anew by ranlib"
        ),
    }
}
