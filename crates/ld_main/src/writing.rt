//! The writing of a link's outputs: both are whole before either has its name.
ghost use Rattle.std.specs.Prelude.{◌≡◌, ◌⊎◌, ◌≤◌, IfErr, OnOk};
ghost use Rattle.ld_main.specs.Program.{AreNamed, IsUnwrittenAt, IsUnwrittenBehind, IsUnwrittenOf, TellsUnwritten, failure_status};

use crate::content::Content;
use crate::failure::{Failure, unwritten};
use crate::output_files::{OutputFiles, Pending};
use file_io::OutputPath;
use image_write::WriteFault;
use std::random::RandomSource;
use std::rt::Files;

/// The paths of the image and of the map, and the files that were there before the input was read.
#[derive(Clone, Copy, Debug)]
pub struct Outputs<'a> {
    pub image: OutputPath<'a>,
    pub map: Option<OutputPath<'a>>,
}

/// Gives a content its name, and hands it back.
fn named<'a, R: OutputFiles, C: Content + Drop>(
    rt: &R,
    path: OutputPath<'a>,
    written: Pending<'a, C>,
) -> Result<C, Failure<'a>>
    requires { written.file.output ≡ path }
    ensures named { OnOk result (R.named rt.now path.entry.path.now) }
    ensures fault { IfErr result (IsUnwrittenAt (R.failed rt.now) path.entry.path.now) }
{
    match rt.name_content(written) {
        Ok(content) => Ok(content),
        Err(fault) => Err(unwritten(path.path(), fault)),
    }
}

/// Writes a content at a path.
fn write_one<'a, R: OutputFiles, C: Content + Drop>(
    rt: &R,
    path: OutputPath<'a>,
    content: C,
) -> Result<C, Failure<'a>>
    requires { C.ready content }
    ensures named { OnOk result (R.named rt.now path.entry.path.now) }
    ensures fault { IfErr result (IsUnwrittenAt (R.failed rt.now) path.entry.path.now) }
{
    match rt.write_content(path, content) {
        Ok(written) => named(rt, path, written),
        Err(fault) => Err(unwritten(path.path(), fault)),
    }
}

/// What becomes of an image whose map can't be written: it gets its name where the map's device failed, and is removed where
/// memory was refused.
fn without_map<'a, R: OutputFiles, I: Content + Drop>(
    rt: &R,
    image_path: OutputPath<'a>,
    map_path: OutputPath<'a>,
    image: Pending<'a, I>,
    fault: WriteFault,
) -> Failure<'a>
    requires path { image.file.output ≡ image_path }
    requires fault { R.failed rt.now map_path.path.now fault }
    ensures { IsUnwrittenAt (R.failed rt.now) image_path.entry.path.now result
        ⊎ IsUnwrittenBehind (R.failed rt.now) (R.named rt.now)
        image_path.entry.path.now map_path.entry.path.now result }
{
    match fault {
        WriteFault::Memory => {
            image.file.discard(rt);
            unwritten(map_path.path(), fault)
        }
        WriteFault::Device => match named(rt, image_path, image) {
            Ok(_) => unwritten(map_path.path(), fault),
            Err(failure) => failure,
        },
    }
}

/// Writes the image and the map before either has its name.
fn write_both<'a, R: OutputFiles, I: Content + Drop, M: Content + Drop>(
    rt: &R,
    image_path: OutputPath<'a>,
    map_path: OutputPath<'a>,
    image: I,
    map: M,
) -> Result<I, Failure<'a>>
    requires image { I.ready image }
    requires map { M.ready map }
    ensures which { IfErr result (λ f. IsUnwrittenAt (R.failed rt.now) image_path.entry.path.now f
        ⊎ IsUnwrittenBehind (R.failed rt.now) (R.named rt.now)
        image_path.entry.path.now map_path.entry.path.now f) }
    ensures named { OnOk result (R.named rt.now image_path.entry.path.now
        × R.named rt.now map_path.entry.path.now) }
{
    let image = match rt.write_content(image_path, image) {
        Ok(image) => image,
        Err(fault) => return Err(unwritten(image_path.path(), fault)),
    };
    let map = match rt.write_content(map_path, map) {
        Ok(map) => map,
        Err(fault) => return Err(without_map(rt, image_path, map_path, image, fault)),
    };
    let image = match named(rt, image_path, image) {
        Ok(image) => image,
        Err(failure) => {
            map.file.discard(rt);
            return Err(failure);
        }
    };
    match named(rt, map_path, map) {
        Ok(_) => Ok(image),
        Err(failure) => Err(failure),
    }
}

/// Writes an image, and a map where it has a path, and hands the image back.
///
/// # Errors
///
/// Memory, after which neither is there, but where only the map's name was refused for it. CannotWrite with the path of the
/// image, after which neither is there, or with that of the map, after which the image is there. A device may have taken a part.
pub fn write_outputs<'a, R: OutputFiles, I: Content + Drop, M: Content + Drop>(
    rt: &R,
    outputs: &Outputs<'a>,
    image: I,
    map: M,
) -> Result<I, Failure<'a>>
    requires image { I.ready image }
    requires map { M.ready map }
    ensures which { IfErr result (IsUnwrittenOf (R.failed rt.now) (R.named rt.now) outputs.now) }
    ensures named { OnOk result (AreNamed (R.named rt.now) outputs.now) }
    ensures told { IfErr result (TellsUnwritten (R.failed rt.now)) }
    ensures least { IfErr result (λ f. 3 ≤ failure_status f) }
{
    match outputs.map {
        Some(path) => write_both(rt, outputs.image, path, image, map),
        None => write_one(rt, outputs.image, image),
    }
}
