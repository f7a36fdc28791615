//! The check of an image for tools: the image at its beginning is checked, with the words that ask for no symbol table, and what
//! tools read is made again from the inputs and compared.
ghost use Rattle.std.specs.Prelude.{◌≡◌, ◌⊎◌, ◌≤◌, List, None, Ok, Some, true, false, IfErr, IfOk, IfSome, IsErr};
ghost use Rattle.debug_image.specs.DebugImage.{CanBeSaid, debug_file};
ghost use Rattle.debug_image.specs.PlainImages.{plain_of};
ghost use Rattle.elf_model.specs.Inputs.Command as command;
ghost use Rattle.elf_model.specs.Inputs.Command.{command_of};
ghost use Rattle.elf_model.specs.Inputs.Files.{File, files_of, words_of};
ghost use Rattle.elf_model.specs.Image.RightLink.{IsRightLink};
ghost use Rattle.opening.specs.Held.{AreSearched, held_files};
ghost use Rattle.unread_law.specs.PartFiles.{AreFilesOf};
ghost use Rattle.ld_main.specs.Program.{failure_status, unwritten_path};
ghost use Rattle.image_write.specs.Listings.{IsListing};
ghost use Rattle.resolve.specs.Views.{meaning_views};
ghost use Rattle.resolve.specs.declared.definition.Definition.{Definition};
ghost use Rattle.debug_main.specs.Comparisons.{taken_of};
ghost use Rattle.debug_main.specs.Verdicts.{Compares, IsFirstWrong, LacksSections, Says, SaysSome, TellsTables, is_memory};
ghost use Rattle.debug_main.specs.declared.verdict.DebugVerdict.TheVariants.{NoTables, Yes};
ghost use Rattle.debug_main.specs.Words.{IsStripped};

use crate::comparing::Comparing;
use crate::debug_file::write_debug_file;
use crate::parts::{made, resolved_of};
use crate::verdict::{DebugVerdict, Difference};
use ar_index::PartFile;
use byteview::View;
use command::read_words;
use debug_image::{Wanted, data_layout, plain_image};
use elf_model::{EHDR_SIZE, FileHeader, InputFile, LinkError, NameSeed};
use image_write::{Linkage, WriteFault};
use ld_main::{
    Failure, HeldFiles, Verdict, check_parts, definitions, name_seed, prepare_parts, read_file,
    read_files, read_parts,
};
use std::alloc::{AllocError, Global};
use std::random::RandomSource;
use std::rt::Files;

/// How many section headers an image has at most that has no sections for tools: one without a name, and those of the symbol
/// table and of its names.
const PLAIN_SECTIONS: u16 = 4;

/// Whether an image has sections for tools.
fn has_sections(image: &[u8]) -> bool
    ensures { result ≡ false → LacksSections image.now }
{
    match FileHeader::read(View::new(image)) {
        Some(header) => header.e_shnum > PLAIN_SECTIONS,
        None => false,
    }
}

/// Where what was compared with an image isn't the image; None where it is.
fn difference(image: &[u8], compared: &Comparing<'_>) -> Option<Difference>
    requires { compared.now.image.now ≡ image.now }
    ensures same { result ≡ None → taken_of image.now compared.now.same compared.now.wrong ≡ image.now }
    ensures none { result ≡ None → compared.now.wrong ≡ None }
    ensures other { IfSome result (IsFirstWrong image.now compared.now.same compared.now.wrong) }
{
    let at = compared.same();
    let there = image.get(at).copied();
    let wanted = compared.wrong();
    if there.is_none() && wanted.is_none() {
        return None;
    }
    Some(Difference {
        offset: at as u64,
        there,
        wanted,
    })
}

/// Compares an image with the file of the image for tools of a link.
fn compared(
    alloc: Global,
    linkage: &Linkage<'_>,
    wanted: Wanted,
    image: &[u8],
) -> Result<Option<Difference>, LinkError>
    requires { linkage.now.plan.strip ≡ true }
    ensures compared { IfOk result (λ d. (names : List Definition)
        × IsListing linkage.now.objects names
        × CanBeSaid wanted linkage.now (meaning_views names)
        × Compares image.now (debug_file wanted linkage.now (meaning_views names)) d) }
    ensures large { IfErr result (λ e. is_memory e ≡ false → (names : List Definition)
        × IsListing linkage.now.objects names
        × (¬ CanBeSaid wanted linkage.now (meaning_views names))) }
{
    let names = definitions(alloc, linkage)?;
    let parts = made(alloc, linkage, &names, wanted)?;
    let layout = data_layout(alloc, linkage, resolved_of(linkage), &parts.data)?;
    let mut left = Vec::new(alloc);
    let mut sink = Comparing::new(image);
    match write_debug_file(alloc, &layout, &parts, &mut left, &mut sink) {
        Ok(()) => Ok(difference(image, &sink)),
        Err(WriteFault::Device) => Ok(difference(image, &sink)),
        Err(WriteFault::Memory) => Err(LinkError::Memory),
    }
}

/// The verdict where there is no image for tools to compare with; a refusal for want of memory stays one.
fn without_tables(error: LinkError) -> Result<DebugVerdict, AllocError>
    ensures { IfOk result (λ v. (v ≡ NoTables None) × (is_memory error ≡ false)) }
{
    match error {
        LinkError::Memory => Err(AllocError),
        _ => Ok(DebugVerdict::NoTables(None)),
    }
}

/// What is told of an image that differs from the one for tools: where, or that it has no sections for tools.
fn told(image: &[u8], at: Difference) -> Option<Difference>
    ensures { (result ≡ Some at) ⊎ ((result ≡ None) × LacksSections image.now) }
{
    if has_sections(image) { Some(at) } else { None }
}

/// Makes what tools read of a link again, and compares.
fn tables_judged(
    alloc: Global,
    seed: NameSeed,
    parts: &[PartFile],
    files: &[InputFile],
    words: &[String],
    wanted: Wanted,
    image: &[u8],
) -> Result<DebugVerdict, AllocError>
    requires stripped { IsStripped (words_of words.now) }
    requires searched { (plan : command.Plan) → command_of (words_of words.now) ≡ Ok plan
        → AreSearched parts.now plan }
    ensures { IfOk result (TellsTables (held_files parts.now files.now) (words_of words.now) wanted
        image.now) }
{
    let linkage = match prepare_parts(alloc, parts, files, words, seed) {
        Ok(linkage) => linkage,
        Err(error) => return without_tables(error),
    };
    match compared(alloc, &linkage, wanted, image) {
        Ok(None) => Ok(DebugVerdict::Yes),
        Ok(Some(at)) => Ok(DebugVerdict::NoTables(told(image, at))),
        Err(error) => without_tables(error),
    }
}

/// What the check of an image for tools and a map comes to, with names hashed from a seed, where of archives that are searched the data
/// of some members may not have been read: zeros stand for them. The image at the beginning of what is right is right of all files
/// of which these were read.
fn judged(
    alloc: Global,
    seed: NameSeed,
    parts: &[PartFile],
    files: &[InputFile],
    words: &[String],
    wanted: Wanted,
    image: &[u8],
    map: &[u8],
) -> Result<DebugVerdict, AllocError>
    requires stripped { IsStripped (words_of words.now) }
    requires searched { (plan : command.Plan) → command_of (words_of words.now) ≡ Ok plan
        → AreSearched parts.now plan }
    ensures judged { IfOk result (Says (held_files parts.now files.now) (words_of words.now) wanted
        image.now map.now) }
    ensures all { IfOk result (λ v. v ≡ Yes → (whole : List File) → AreFilesOf (record {
      parts = parts.now;
      wholes = files_of files.now;
    }) whole → IsRightLink whole (words_of words.now) (plain_of image.now) map.now) }
{
    let plain = plain_image(alloc, image)?;
    if let Verdict::No(clause) = check_parts(alloc, parts, files, words, &plain, map, seed)? {
        return Ok(DebugVerdict::No(clause));
    }
    tables_judged(alloc, seed, parts, files, words, wanted, image)
}

/// What the check of an image for tools and a map comes to where archives that are searched were read in part; None where it isn't
/// right, perhaps for what wasn't read.
fn judged_in_part<'a, R: Files + AllocGlobal + RandomSource>(
    rt: &R,
    files: HeldFiles<R::File>,
    words: &[String],
    wanted: Wanted,
    image: &[u8],
    map: &[u8],
) -> Result<Option<DebugVerdict>, Failure<'a>>
    requires { IsStripped (words_of words.now) }
    ensures judged { IfOk result (λ r. IfSome r (λ v. (files : List File)
        × Says files (words_of words.now) wanted image.now map.now v)) }
    ensures right { IfOk result (λ r. IfSome r (λ v. v ≡ Yes)) }
    ensures words_alone { IfErr result (λ f. failure_status f ≡ 2
        → IsErr (command_of (words_of words.now))) }
    ensures fault { IfErr result (λ f. 2 ≤ failure_status f) }
    ensures unwritten { IfErr result (λ f. unwritten_path f ≡ None) }
{
    let seed = name_seed(rt);
    let Some(files) = read_parts(rt, files, words, seed)? else {
        return Ok(None);
    };
    match judged(
        rt.alloc(),
        seed,
        &files.parts,
        &files.files,
        words,
        wanted,
        image,
        map,
    )? {
        DebugVerdict::Yes => Ok(Some(DebugVerdict::Yes)),
        _ => Ok(None),
    }
}

/// What the check of an image for tools and a map comes to, of files that were read whole.
///
/// # Errors
///
/// Only where memory is refused.
pub fn judged_whole(
    alloc: Global,
    seed: NameSeed,
    files: &[InputFile],
    words: &[String],
    wanted: Wanted,
    image: &[u8],
    map: &[u8],
) -> Result<DebugVerdict, AllocError>
    requires { IsStripped (words_of words.now) }
    ensures { IfOk result (Says (files_of files.now) (words_of words.now) wanted image.now map.now) }
{
    judged(alloc, seed, &[], files, words, wanted, image, map)
}

/// Reads the image and then the map, and checks them: without members of large archives that the link doesn't take, where that is
/// enough.
pub fn check_held<'a, R: Files + AllocGlobal + RandomSource>(
    rt: &R,
    image: &'a str,
    map: &'a str,
    files: HeldFiles<R::File>,
    words: &[String],
    wanted: Wanted,
) -> Result<DebugVerdict, Failure<'a>>
    requires { IsStripped (words_of words.now) }
    ensures judged { IfOk result (λ v. (files : List File)
        × SaysSome files (words_of words.now) wanted v) }
    ensures words_alone { IfErr result (λ f. failure_status f ≡ 2
        → IsErr (command_of (words_of words.now))) }
    ensures fault { IfErr result (λ f. 2 ≤ failure_status f) }
    ensures unwritten { IfErr result (λ f. unwritten_path f ≡ None) }
{
    let image = read_file(rt, image)?;
    let map = read_file(rt, map)?;
    let seed = name_seed(rt);
    if files.parts.is_empty() {
        let verdict = judged_whole(rt.alloc(), seed, &files.files, words, wanted, &image, &map)?;
        return Ok(verdict);
    }
    if let Some(verdict) = judged_in_part(rt, files, words, wanted, &image, &map)? {
        return Ok(verdict);
    }
    let plan = read_words(rt.alloc(), words)?;
    let files = read_files(rt, &plan)?;
    let verdict = judged_whole(rt.alloc(), seed, &files, words, wanted, &image, &map)?;
    Ok(verdict)
}
