//! The files that a link or its check reads: of large archives only what a link looks at.
ghost use Rattle.std.specs.Prelude.{◌≡◌, ◌≤◌, None, IfErr};
ghost use Rattle.ld_main.specs.Program.{failure_status, unwritten_path};

use crate::failure::Failure;
use crate::inputs::unless_overwritten;
use crate::writing::Outputs;
use ar_index::PartFile;
use command::Plan;
use elf_model::{InputFile, NameSeed};
use file_io::{LargeArchive, OutputPath, PlacedFile, RealFiles, gather, read_members};
use search::{WantedMember, wanted_members};
use std::alloc::{AllocError, Global};
use std::io::{Read, Seek};
use std::rt::Files;

/// The files of a link: large archives that were read in part, each with the file from which more of it is read, and the others.
#[derive(Drop)]
pub struct HeldFiles<F: Read + Seek + Drop> {
    pub parts: Vec<PartFile>,
    sources: Vec<PlacedFile<F>>,
    pub files: Vec<InputFile>,
}

/// How often members are read whose names are asked for where loading stops.
const ROUNDS: u32 = 64;

/// The offsets of the members of an archive among those that are wanted, which ascend.
fn offsets_in(
    alloc: Global,
    wanted: &[WantedMember<'_>],
    path: &str,
) -> Result<Vec<u64>, AllocError> {
    let mut offsets = Vec::new(alloc);
    for member in wanted {
        if member.path == path {
            offsets.push(member.offset)?;
        }
    }
    offsets.sort_unstable();
    Ok(offsets)
}

/// The offsets of wanted members in each of some archives.
fn offsets_by_archive(
    alloc: Global,
    parts: &[PartFile],
    wanted: &[WantedMember<'_>],
) -> Result<Vec<Vec<u64>>, AllocError> {
    let mut offsets = Vec::new(alloc);
    for part in parts {
        offsets.push(offsets_in(alloc, wanted, part.name())?)?;
    }
    Ok(offsets)
}

impl<F: Read + Seek + Drop> HeldFiles<F> {
    /// Large archives, and the other files.
    fn new(
        alloc: Global,
        large: Vec<LargeArchive<F>>,
        files: Vec<InputFile>,
    ) -> Result<HeldFiles<F>, AllocError> {
        let mut parts = Vec::new(alloc);
        let mut sources = Vec::new(alloc);
        for archive in large {
            let LargeArchive { parts: part, file } = archive;
            parts.push(part)?;
            sources.push(file)?;
        }
        Ok(HeldFiles {
            parts,
            sources,
            files,
        })
    }

    /// Reads the members at some offsets of each archive, where they weren't read; whether any was. None can be read where the
    /// system refuses it.
    fn read_at(&mut self, alloc: Global, offsets: &[Vec<u64>]) -> bool {
        let mut any = false;
        for (i, at) in offsets.iter().enumerate() {
            let Some(file) = self.sources.get_mut(i) else {
                return any;
            };
            let Some(part) = self.parts.get_mut(i) else {
                return any;
            };
            let read = read_members(alloc, file, part, at);
            any = any || read.unwrap_or(false);
        }
        any
    }

    /// The offsets, in each archive, of the members whose names are asked for where loading stops.
    fn offsets_wanted(
        &self,
        alloc: Global,
        plan: &Plan<'_>,
        seed: NameSeed,
    ) -> Result<Vec<Vec<u64>>, AllocError> {
        let wanted = wanted_members(alloc, plan, &self.parts, &self.files, seed)?;
        offsets_by_archive(alloc, &self.parts, &wanted)
    }

    /// Reads the members whose names are asked for where loading stops, until it doesn't, or nothing more can be read.
    ///
    /// # Errors
    ///
    /// Only where memory is refused.
    pub fn read_wanted(
        &mut self,
        alloc: Global,
        plan: &Plan<'_>,
        seed: NameSeed,
    ) -> Result<(), AllocError> {
        for _ in 0..ROUNDS {
            let offsets = self.offsets_wanted(alloc, plan, seed)?;
            if !self.read_at(alloc, &offsets) {
                return Ok(());
            }
        }
        Ok(())
    }
}

/// Reads the files that a plan names, none of which may be one that will be written, and of large archives only what a link looks at
/// before it takes members.
fn read_apart<'a, R: Files + AllocGlobal>(
    rt: &R,
    plan: &Plan<'_>,
    written: &[OutputPath<'a>],
) -> Result<HeldFiles<R::File>, Failure<'a>>
    ensures fault { IfErr result (λ f. 3 ≤ failure_status f) }
    ensures unwritten { IfErr result (λ f. unwritten_path f ≡ None) }
{
    let mut source = RealFiles::in_part(rt, written);
    let files = gather(rt.alloc(), plan, &mut source)?;
    let files = unless_overwritten(source.overwritten(), files)?;
    let held = HeldFiles::new(rt.alloc(), source.into_large(), files)?;
    Ok(held)
}

/// Reads the files that a plan names, of which the files of the image and of the map may be none, and of large archives only what
/// a link looks at before it takes members.
pub fn read_held_files<'a, R: Files + AllocGlobal>(
    rt: &R,
    plan: &Plan<'_>,
    outputs: &Outputs<'a>,
) -> Result<HeldFiles<R::File>, Failure<'a>>
    ensures fault { IfErr result (λ f. 3 ≤ failure_status f) }
    ensures unwritten { IfErr result (λ f. unwritten_path f ≡ None) }
{
    match outputs.map {
        Some(map) => read_apart(rt, plan, &[outputs.image, map]),
        None => read_apart(rt, plan, &[outputs.image]),
    }
}

/// Reads the files that a plan names, and of large archives only what a link looks at before it takes members.
pub fn read_checked_files<'a, R: Files + AllocGlobal>(
    rt: &R,
    plan: &Plan<'_>,
) -> Result<HeldFiles<R::File>, Failure<'a>>
    ensures fault { IfErr result (λ f. 3 ≤ failure_status f) }
    ensures unwritten { IfErr result (λ f. unwritten_path f ≡ None) }
{
    read_apart(rt, plan, &[])
}
