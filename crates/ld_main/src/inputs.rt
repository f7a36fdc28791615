//! The files that a run reads.
ghost use Rattle.std.specs.Prelude.{◌≡◌, ◌≤◌, None, IfErr, IfOk, OnOk, option_copied};
ghost use Rattle.ld_main.specs.Program.{IsUnread, failure_status, overwriting_path, unwritten_path};
ghost use Rattle.ld_main.specs.Tasks.{AreOutputsOf};

use crate::failure::{Failure, unread};
use crate::writing::Outputs;
use command::Plan;
use elf_model::InputFile;
use file_io::{OutputPath, RealFiles, gather, read_whole};
use std::borrow::CowStr;
use std::rt::Files;

/// Reads a file that must be there.
pub fn read_file<'a, R: Files + AllocGlobal>(rt: &R, path: &'a str) -> Result<Vec<u8>, Failure<'a>>
    ensures fault { IfErr result (λ f. 3 ≤ failure_status f) }
    ensures which { IfErr result (IsUnread path.entry.now) }
    ensures unwritten { IfErr result (λ f. unwritten_path f ≡ None) }
{
    match read_whole(rt, path) {
        Ok(Some(bytes)) => Ok(bytes),
        Ok(None) => Err(Failure::CannotRead(CowStr::Borrowed(path))),
        Err(error) => Err(unread(path, &error)),
    }
}

/// The paths that a plan has for the image and the map, with the files that are there.
pub fn outputs<'a, R: Files>(rt: &R, plan: &Plan<'a>) -> Outputs<'a>
    ensures { AreOutputsOf plan.now result }
{
    Outputs {
        image: OutputPath::new(rt, plan.output),
        map: match plan.map {
            Some(path) => Some(OutputPath::new(rt, path)),
            None => None,
        },
    }
}

/// Files that were read; refused where one of them is at a path that will be written.
pub fn unless_overwritten<'a>(
    overwritten: Option<&'a str>,
    files: Vec<InputFile>,
) -> Result<Vec<InputFile>, Failure<'a>>
    ensures apart { OnOk result (overwritten.entry ≡ None) }
    ensures files { IfOk result (λ v. v ≡ files) }
    ensures fault { IfErr result (λ f. failure_status f ≡ 3) }
    ensures which { IfErr result (λ f. overwriting_path f ≡ option_copied overwritten.entry) }
    ensures unwritten { IfErr result (λ f. unwritten_path f ≡ None) }
{
    match overwritten {
        Some(path) => Err(Failure::Overwrites(path)),
        None => Ok(files),
    }
}

/// Reads the files that a plan names, none of which may be one that will be written.
fn read_apart<'a, R: Files + AllocGlobal>(
    rt: &R,
    plan: &Plan<'_>,
    written: &[OutputPath<'a>],
) -> Result<Vec<InputFile>, Failure<'a>>
    ensures fault { IfErr result (λ f. 3 ≤ failure_status f) }
    ensures unwritten { IfErr result (λ f. unwritten_path f ≡ None) }
{
    let mut source = RealFiles::new(rt, written);
    let files = gather(rt.alloc(), plan, &mut source)?;
    unless_overwritten(source.overwritten(), files)
}

/// Reads the files that a plan names.
pub fn read_files<'a, R: Files + AllocGlobal>(
    rt: &R,
    plan: &Plan<'_>,
) -> Result<Vec<InputFile>, Failure<'a>>
    ensures fault { IfErr result (λ f. 3 ≤ failure_status f) }
    ensures unwritten { IfErr result (λ f. unwritten_path f ≡ None) }
{
    read_apart(rt, plan, &[])
}

/// Reads the files that a plan names, of which the files of the image and of the map may be none.
pub fn read_other_files<'a, R: Files + AllocGlobal>(
    rt: &R,
    plan: &Plan<'_>,
    outputs: &Outputs<'a>,
) -> Result<Vec<InputFile>, Failure<'a>>
    ensures fault { IfErr result (λ f. 3 ≤ failure_status f) }
    ensures unwritten { IfErr result (λ f. unwritten_path f ≡ None) }
{
    match outputs.map {
        Some(map) => read_apart(rt, plan, &[outputs.image, map]),
        None => read_apart(rt, plan, &[outputs.image]),
    }
}
