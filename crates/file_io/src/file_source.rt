//! Where input files come from, and the gathering of those that a plan may read.
ghost use Rattle.std.specs.Prelude.{◌≡◌, ℕ, List, Option, IfErr, IfOk, OnOk, option_map, string_bytes};
ghost use Rattle.elf_model.specs.Inputs.Command.{candidates_of};
ghost use Rattle.elf_model.specs.Inputs.Files.{files_of, words_of};
ghost use Rattle.file_io.specs.Sources.{AddFails, AddsFile, Answers, AreGathered, FetchFails, GatherFails};
ghost use Rattle.file_io.specs.declared.file_source.GatherFault.TheVariants as gather_fault;

use command::{Plan, candidates};
use elf_model::InputFile;
use std::alloc::{AllocError, AllocFailed, Global};
use thiserror::Error;

/// Why a file was not fetched.
#[derive(Clone, Copy, Debug, Error)]
pub enum FetchFault {
    /// Memory was refused.
    #[error("Memory (1)")]
    Memory,
    /// The file may be there, and can't be read.
    #[error("Device (2)")]
    Device,
}

/// Why files were not gathered.
#[derive(Debug, Drop, Error)]
pub enum GatherFault {
    /// Memory was refused.
    #[error("Memory (1)")]
    Memory,
    /// The path of a file that may be there, and can't be read.
    #[error("CannotRead (2): {0}")]
    CannotRead(String),
}

impl From<AllocError> for GatherFault {
    ghost from_gives = { λ _ fault. fault ≡ gather_fault.Memory };

    fn from(_error: AllocError) -> GatherFault {
        GatherFault::Memory
    }
}

impl<T: Drop> From<AllocFailed<T>> for GatherFault {
    ghost from_gives = { λ _ fault. fault ≡ gather_fault.Memory };

    fn from(_error: AllocFailed<T>) -> GatherFault {
        GatherFault::from(AllocError)
    }
}

/// Something that has files, as a disk does. It counts its failures, and may tell its files: one over memory does, one
/// over a disk doesn't.
pub trait FileSource {
    // The bytes of the file at each path, None where there is none; None where the source doesn't tell.
    ghost files: { Self → Option (List ℕ → Option (List ℕ)) };
    // How many calls of `fetch` have failed for another reason than memory.
    ghost failed: { Self → ℕ };

    /// The bytes of the file at a path; None where there is no such file.
    ///
    /// # Errors
    ///
    /// Memory where memory is refused. Device where the file can't be read: one failure more is then counted. It is not
    /// called again after that.
    fn fetch(&mut self, path: &str) -> Result<Option<Vec<u8>>, FetchFault>
        requires { failed self.old ≡ 0 }
        ensures answer { IfOk result (λ f.
            Answers (files self.old) path.now (option_map (λ v. v.items) f)) }
        ensures same { files self.new ≡ files self.old }
        ensures kept { OnOk result (failed self.new ≡ failed self.old) }
        ensures fault { IfErr result (λ f. FetchFails f (failed self.old) (failed self.new)) };

    /// How many calls of `fetch` have failed for another reason than memory.
    fn failures(&self) -> u64
        ensures { result ≡ failed self.now };
}

/// Fetches the file at a path, and adds it where it is there.
fn add_file<F: FileSource>(
    source: &mut F,
    name: String,
    found: &mut Vec<InputFile>,
) -> Result<(), GatherFault>
    requires { F.failed source.old ≡ 0 }
    ensures added { OnOk result (AddsFile (F.files source.old) (string_bytes name)
        (files_of found.old.items) (files_of found.new.items)) }
    ensures same { F.files source.new ≡ F.files source.old }
    ensures kept { OnOk result (F.failed source.new ≡ F.failed source.old) }
    ensures fault { IfErr result (λ f.
        AddFails (string_bytes name) f (F.failed source.old) (F.failed source.new)) }
{
    match source.fetch(name.as_str()) {
        Ok(Some(bytes)) => {
            found.push(InputFile { name, bytes })?;
            Ok(())
        }
        Ok(None) => Ok(()),
        Err(FetchFault::Memory) => Err(GatherFault::Memory),
        Err(FetchFault::Device) => Err(GatherFault::CannotRead(name)),
    }
}

/// The files at some paths, in their order; those that aren't there are left out.
fn gather_paths<F: FileSource>(
    alloc: Global,
    paths: Vec<String>,
    source: &mut F,
) -> Result<Vec<InputFile>, GatherFault>
    requires { F.failed source.old ≡ 0 }
    ensures files { IfOk result (λ v.
        AreGathered (F.files source.old) (words_of paths.items) (files_of v.items)) }
    ensures same { F.files source.new ≡ F.files source.old }
    ensures kept { OnOk result (F.failed source.new ≡ F.failed source.old) }
    ensures fault { IfErr result (λ f.
        GatherFails (words_of paths.items) f (F.failed source.old) (F.failed source.new)) }
{
    let mut found = Vec::new(alloc);
    for name in paths {
        add_file(source, name, &mut found)?;
    }
    Ok(found)
}

/// The files that a plan may read, in its order; those that aren't there are left out.
///
/// # Errors
///
/// Memory where memory is refused. CannotRead, with the path of one of them, where the source failed; it is not asked
/// again then.
pub fn gather<F: FileSource>(
    alloc: Global,
    plan: &Plan<'_>,
    source: &mut F,
) -> Result<Vec<InputFile>, GatherFault>
    requires { F.failed source.old ≡ 0 }
    ensures files { IfOk result (λ v.
        AreGathered (F.files source.old) (candidates_of plan.now) (files_of v.items)) }
    ensures same { F.files source.new ≡ F.files source.old }
    ensures kept { OnOk result (F.failed source.new ≡ F.failed source.old) }
    ensures fault { IfErr result (λ f.
        GatherFails (candidates_of plan.now) f (F.failed source.old) (F.failed source.new)) }
{
    let Ok(paths) = candidates(alloc, plan) else {
        return Err(GatherFault::Memory);
    };
    gather_paths(alloc, paths, source)
}
