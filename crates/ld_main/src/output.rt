//! The link: from files and the words of a command to an image and a map, or the refusal that stands.
ghost use Rattle.std.specs.Prelude.{IfErr, IfOk};
ghost use Rattle.elf_model.specs.Own.Causes.{Cause};
ghost use Rattle.elf_model.specs.Inputs.Files.{files_of, words_of};
ghost use Rattle.elf_model.specs.Image.RightLink.{IsRightLink};
ghost use Rattle.linker.specs.FinalRefusals.{DeniesLinks};
ghost use Rattle.linker.specs.Outputs.{IsOwnLink};

use elf_model::{InputFile, LinkError};
use image_write::{Linkage, image};
use linker::{map_text, prepare};
use std::alloc::{AllocError, Global};

/// What a link makes: the bytes of the image and of the map.
#[derive(Debug, Drop)]
pub struct Output {
    pub image: Vec<u8>,
    pub map: Vec<u8>,
}

/// Links the files that a command's words name: the image and the map of the linker's own layout.
///
/// # Errors
///
/// As `prepare`: a fault of the first phase that has one, or Memory.
pub fn link(alloc: Global, files: &[InputFile], words: &[String]) -> Result<Output, LinkError>
    ensures right { IfOk result (λ o.
        IsRightLink (files_of files.now) (words_of words.now) o.image.items o.map.items) }
    ensures own { IfOk result (λ o.
        IsOwnLink (files_of files.now) (words_of words.now) o.image.items o.map.items) }
    ensures cause { IfErr result (Cause (files_of files.now) (words_of words.now)) }
    ensures no_link { IfErr result (DeniesLinks (files_of files.now) (words_of words.now)) }
{
    let linkage = match prepare(alloc, files, words) {
        Ok(linkage) => linkage,
        Err(error) => return Err(error),
    };
    let image = image(alloc, &linkage)?;
    let map = map_text(alloc, &linkage)?;
    Ok(Output { image, map })
}
