//! The link with an image for tools.
ghost use Rattle.std.specs.Prelude.{◌≡◌, ◌≢◌, ◌≤◌, List, Ok, true, false, IfErr, IfOk, IsErr, OnOk, cond};
ghost use Rattle.debug_image.specs.LongNames.{long_named};
ghost use Rattle.elf_model.specs.Inputs.Command as command;
ghost use Rattle.elf_model.specs.Inputs.Command.{command_of};
ghost use Rattle.elf_model.specs.Inputs.Files.{File, files_of, words_of};
ghost use Rattle.opening.specs.Held.{AreSearched, held_files};
ghost use Rattle.unread_law.specs.PartFiles.{AreFilesOf};
ghost use Rattle.ld_main.specs.Program.{AreNamed, HasRightLink, LinksRight, TellsUnwritten, failure_status};
ghost use Rattle.debug_main.specs.Ready.{IsReady, IsToolFile};
ghost use Rattle.debug_main.specs.Words.{IsStripped};

use crate::debug_file::DebugFile;
use crate::parts::{made, resolved_of};
use crate::read_back::show_read_back;
use crate::reports::{print_left, print_long_named, print_unrelocated};
use ar_index::PartFile;
use debug_image::{Wanted, data_layout, long_named};
use elf_model::{InputFile, NameSeed, SectionRef};
use ld_main::{
    Failure, HeldFiles, Linkage, MapOf, OutputFiles, Outputs, definitions, name_seed,
    prepare_parts, prepare_seeded, read_parts, read_whole_files, refused, write_outputs,
};
use std::io::Write;

/// Writes an image for tools and the map of its link, and answers the sections of debug data that aren't as they should be.
fn write_file<'a, 'b, R: OutputFiles>(
    rt: &R,
    outputs: &Outputs<'a>,
    linkage: &Linkage<'b>,
    wanted: Wanted,
    file: DebugFile<'_, 'b>,
) -> Result<Vec<SectionRef>, Failure<'a>>
    requires ready { IsReady file }
    requires file { IsToolFile wanted linkage.now file }
    ensures fault { IfErr result (λ f. 3 ≤ failure_status f) }
    ensures named { OnOk result (AreNamed (R.named rt.now) outputs.now) }
    ensures unwritten { IfErr result (TellsUnwritten (R.failed rt.now)) }
{
    match write_outputs(rt, outputs, file, MapOf { linkage }) {
        Ok(file) => Ok(file.into_left()),
        Err(failure) => Err(failure),
    }
}

/// How many objects' LOCAL symbols aren't in an image for their long names; none where no LOCAL symbols are wanted.
fn long_named_in(wanted: Wanted, linkage: &Linkage<'_>) -> u64
    ensures { result ≡ cond wanted.locals (long_named linkage.now.objects) 0 }
{
    if wanted.locals {
        long_named(linkage.loaded().objects())
    } else {
        0
    }
}

/// Makes the debug data and tables of a link, and writes its outputs.
fn write_link<'a, 'b, R: OutputFiles, E: Write>(
    rt: &R,
    outputs: &Outputs<'a>,
    files: &[InputFile],
    linkage: &Linkage<'b>,
    wanted: Wanted,
    err: &mut E,
) -> Result<(), Failure<'a>>
    requires { linkage.now.plan.strip ≡ true }
    ensures status { IfErr result (λ f. failure_status f ≢ 2) }
    ensures named { OnOk result (AreNamed (R.named rt.now) outputs.now) }
    ensures unwritten { IfErr result (TellsUnwritten (R.failed rt.now)) }
    ensures quiet { IsErr result → err.new ≡ err.old }
{
    let alloc = rt.alloc();
    let names = definitions(alloc, &*linkage)?;
    let parts = made(alloc, &*linkage, &names, wanted)?;
    show_read_back(&*linkage, &names, wanted);
    let layout = data_layout(alloc, &*linkage, resolved_of(&*linkage), &parts.data)?;
    let file = DebugFile {
        layout: &layout,
        parts: &parts,
        left: Vec::new(alloc),
    };
    let left = write_file(rt, outputs, &*linkage, wanted, file)?;
    let _ = print_long_named(err, long_named_in(wanted, &*linkage));
    let _ = print_left(err, parts.data.left);
    let _ = print_unrelocated(err, files, linkage.loaded().objects(), &left);
    Ok(())
}

/// Links files, and writes what comes of it: an image for tools, and the map.
fn link_files<'a, R: OutputFiles, E: Write>(
    rt: &R,
    seed: NameSeed,
    outputs: &Outputs<'a>,
    files: &[InputFile],
    words: &[String],
    wanted: Wanted,
    err: &mut E,
) -> Result<(), Failure<'a>>
    requires { IsStripped (words_of words.now) }
    ensures right { OnOk result (LinksRight (files_of files.now) (words_of words.now)) }
    ensures named { OnOk result (AreNamed (R.named rt.now) outputs.now) }
    ensures unwritten { IfErr result (TellsUnwritten (R.failed rt.now)) }
    ensures words_alone { IfErr result (λ f. failure_status f ≡ 2
        → IsErr (command_of (words_of words.now))) }
    ensures quiet { IsErr result → err.new ≡ err.old }
{
    let linkage = match prepare_seeded(rt.alloc(), files, words, seed) {
        Ok(linkage) => linkage,
        Err(error) => return Err(refused(rt.alloc(), error)),
    };
    write_link(rt, outputs, files, &linkage, wanted, err)?;
    Ok(())
}

/// Links files of which archives that are searched were read in part, and writes what comes of it; whether they were linked: not where
/// the link is refused, perhaps for what wasn't read. What is written is right of all files of which these were read.
fn link_parts<'a, R: OutputFiles, E: Write>(
    rt: &R,
    seed: NameSeed,
    outputs: &Outputs<'a>,
    parts: &[PartFile],
    files: &[InputFile],
    words: &[String],
    wanted: Wanted,
    err: &mut E,
) -> Result<bool, Failure<'a>>
    requires stripped { IsStripped (words_of words.now) }
    requires searched { (plan : command.Plan) → command_of (words_of words.now) ≡ Ok plan
        → AreSearched parts.now plan }
    ensures right { IfOk result (λ b. b ≡ true
        → LinksRight (held_files parts.now files.now) (words_of words.now)) }
    ensures all { IfOk result (λ b. b ≡ true → (whole : List File) → AreFilesOf (record {
      parts = parts.now;
      wholes = files_of files.now;
    }) whole → LinksRight whole (words_of words.now)) }
    ensures status { IfErr result (λ f. failure_status f ≢ 2) }
    ensures named { IfOk result (λ b. b ≡ true → AreNamed (R.named rt.now) outputs.now) }
    ensures unwritten { IfErr result (TellsUnwritten (R.failed rt.now)) }
    ensures quiet { IsErr result → err.new ≡ err.old }
    ensures refused_is_quiet { IfOk result (λ b. b ≡ false → err.new ≡ err.old) }
{
    let linkage = match prepare_parts(rt.alloc(), parts, files, words, seed) {
        Ok(linkage) => linkage,
        Err(_) => return Ok(false),
    };
    write_link(rt, outputs, files, &linkage, wanted, err)?;
    Ok(true)
}

/// Reads the members of large archives that a link takes, and links, where no others are needed; whether it was linked.
fn link_in_part<'a, R: OutputFiles, E: Write>(
    rt: &R,
    outputs: &Outputs<'a>,
    files: HeldFiles<R::File>,
    words: &[String],
    wanted: Wanted,
    err: &mut E,
) -> Result<bool, Failure<'a>>
    requires { IsStripped (words_of words.now) }
    ensures right { IfOk result (λ b. b ≡ true → HasRightLink (words_of words.now)) }
    ensures words_alone { IfErr result (λ f. failure_status f ≡ 2
        → IsErr (command_of (words_of words.now))) }
    ensures named { IfOk result (λ b. b ≡ true → AreNamed (R.named rt.now) outputs.now) }
    ensures unwritten { IfErr result (TellsUnwritten (R.failed rt.now)) }
    ensures quiet { IsErr result → err.new ≡ err.old }
    ensures refused_is_quiet { IfOk result (λ b. b ≡ false → err.new ≡ err.old) }
{
    let seed = name_seed(rt);
    let Some(files) = read_parts(rt, files, words, seed)? else {
        return Ok(false);
    };
    link_parts(
        rt,
        seed,
        outputs,
        &files.parts,
        &files.files,
        words,
        wanted,
        err,
    )
}

/// Links files that were read whole, and writes what comes of it.
fn link_whole<'a, R: OutputFiles, E: Write>(
    rt: &R,
    outputs: &Outputs<'a>,
    files: &[InputFile],
    words: &[String],
    wanted: Wanted,
    err: &mut E,
) -> Result<(), Failure<'a>>
    requires { IsStripped (words_of words.now) }
    ensures right { OnOk result (HasRightLink (words_of words.now)) }
    ensures named { OnOk result (AreNamed (R.named rt.now) outputs.now) }
    ensures unwritten { IfErr result (TellsUnwritten (R.failed rt.now)) }
    ensures words_alone { IfErr result (λ f. failure_status f ≡ 2
        → IsErr (command_of (words_of words.now))) }
    ensures quiet { IsErr result → err.new ≡ err.old }
{
    link_files(rt, name_seed(rt), outputs, files, words, wanted, err)
}

/// Links files, without members of large archives that the link doesn't take where that can be, and writes what comes of it: an image
/// for tools, and the map.
pub fn link_held<'a, R: OutputFiles, E: Write>(
    rt: &R,
    outputs: &Outputs<'a>,
    files: HeldFiles<R::File>,
    words: &[String],
    wanted: Wanted,
    err: &mut E,
) -> Result<(), Failure<'a>>
    requires { IsStripped (words_of words.now) }
    ensures right { OnOk result (HasRightLink (words_of words.now)) }
    ensures named { OnOk result (AreNamed (R.named rt.now) outputs.now) }
    ensures unwritten { IfErr result (TellsUnwritten (R.failed rt.now)) }
    ensures words_alone { IfErr result (λ f. failure_status f ≡ 2
        → IsErr (command_of (words_of words.now))) }
    ensures quiet { IsErr result → err.new ≡ err.old }
{
    if files.parts.is_empty() {
        return link_whole(rt, outputs, &files.files, words, wanted, err);
    }
    if link_in_part(rt, outputs, files, words, wanted, err)? {
        return Ok(());
    }
    let files = read_whole_files(rt, outputs, words)?;
    link_whole(rt, outputs, &files, words, wanted, err)
}
