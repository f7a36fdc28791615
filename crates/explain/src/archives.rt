//! What archives of a command have to do with the names that places ask for and nothing defines.
ghost use Rattle.std.specs.Prelude.{All, IfOk};
ghost use Rattle.elf_model.specs.Inputs.Files.{files_of};
ghost use Rattle.explain.specs.Archives.{IsArchiveNote};

use crate::hints::undefined_names;
use crate::place::Place;
use archive_notes::{ArchiveNote, archive_notes};
use elf_model::InputFile;
use opening::{OpenFault, inputs_of};
use search::Loaded;
use std::alloc::{AllocError, Global};

/// What archives of the plan of what is loaded have to do with the first names that places ask for, of each name once.
pub fn archives_of<'a>(
    alloc: Global,
    files: &'a [InputFile],
    loaded: &Loaded<'a>,
    places: &[Place<'a>],
) -> Result<Vec<ArchiveNote<'a>>, AllocError>
    ensures { IfOk result (λ ns.
        All (IsArchiveNote (files_of files.entry.now) loaded.now) ns.items) }
{
    let names = undefined_names(alloc, places)?;
    match inputs_of(alloc, loaded.plan(), files) {
        Ok(items) => archive_notes(alloc, loaded.objects(), &items, &names),
        Err(OpenFault::Memory) => Err(AllocError),
        Err(_) => Ok(Vec::new(alloc)),
    }
}
