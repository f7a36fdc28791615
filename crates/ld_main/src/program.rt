//! The program: reads the files that the words name, links or checks them, writes or prints the answer.
ghost use Rattle.std.specs.Prelude.{◌≡◌, ◌≢◌, ◌⊎◌, ◌≤◌, List, true, false, None, Ok, IfErr, IfOk, IfSome, IsErr, IsErrAnd, IsOk, OnOk};
ghost use Rattle.elf_model.specs.Own.Causes.{Cause};
ghost use Rattle.elf_model.specs.Inputs.Command as command;
ghost use Rattle.elf_model.specs.Inputs.Command.{command_of};
ghost use Rattle.elf_model.specs.Inputs.Files.{File, files_of, words_of};
ghost use Rattle.elf_model.specs.Image.RightLink.{IsRightLink};
ghost use Rattle.opening.specs.Held.{AreSearched, held_files};
ghost use Rattle.unread_law.specs.PartFiles.{AreFilesOf};
ghost use Rattle.linker.specs.Linkages.{HasOwnLink};
ghost use Rattle.ld_main.specs.Program.{AreNamed, Asks, HasRightLink, IsUnread, Judges, JudgesSome, LinksRight, Prints, TellsFailure, TellsUnwritten, failure_status, is_checked, outcome_status, unwritten_path};
ghost use Rattle.ld_main.specs.Tasks.{AreNamedBy, IsTaskBy, IsTaskOf, is_check};

use crate::content::{ImageOf, MapOf};
use crate::failure::{Failure, refused};
use crate::held_files::{HeldFiles, read_checked_files, read_held_files};
use crate::inputs::{outputs, read_file, read_files, read_other_files};
use crate::outcome::Outcome;
use crate::output_files::OutputFiles;
use crate::writing::{Outputs, write_outputs};
use ar_index::PartFile;
use checker::check_parts;
use command::{Plan, read_words};
use elf_model::{InputFile, LinkError, NameSeed, Verdict};
use image_write::Linkage;
use linker::{prepare_parts, prepare_seeded};
use opening::are_searched;
use std::alloc::{AllocError, Global};
use std::hash::RandomState;
use std::io;
use std::io::Write;
use std::random::RandomSource;
use std::rt::Files;

/// What the words ask for, beside the files that they name.
#[derive(Clone, Copy, Debug)]
pub enum Task<'a> {
    /// A link, and its outputs.
    Link(Outputs<'a>),
    /// The check of the image and of the map at these paths.
    Check(&'a str, &'a str),
}

/// A seed for the hashes of names that no input can know; the fixed one where the system gives no random bytes.
pub fn name_seed<R: RandomSource>(rt: &R) -> NameSeed {
    match RandomState::new(rt) {
        Ok(state) => NameSeed::drawn(&state),
        Err(_) => NameSeed::fixed(),
    }
}

/// Prepares the link of files, with its names hashed from a seed.
fn prepared<'a>(
    alloc: Global,
    seed: NameSeed,
    files: &'a [InputFile],
    words: &'a [String],
) -> Result<Linkage<'a>, LinkError>
    ensures right { IfOk result (HasOwnLink (files_of files.entry.now) (words_of words.entry.now)) }
    ensures cause { IfErr result (Cause (files_of files.entry.now) (words_of words.entry.now)) }
{
    prepare_seeded(alloc, files, words, seed)
}

/// Links, and writes what comes of it.
fn link_files<'a, R: OutputFiles>(
    rt: &R,
    outputs: &Outputs<'a>,
    files: &[InputFile],
    words: &[String],
) -> Result<Outcome, Failure<'a>>
    ensures right { IfOk result (λ o. outcome_status o ≡ 0
        → LinksRight (files_of files.now) (words_of words.now)) }
    ensures words_alone { IfErr result (λ f. failure_status f ≡ 2
        → IsErr (command_of (words_of words.now))) }
    ensures linked { IfOk result (λ o. is_checked o ≡ false) }
    ensures named { OnOk result (AreNamed (R.named rt.now) outputs.now) }
    ensures unwritten { IfErr result (TellsUnwritten (R.failed rt.now)) }
{
    let linkage = match prepared(rt.alloc(), name_seed(rt), files, words) {
        Ok(linkage) => linkage,
        Err(error) => return Err(refused(rt.alloc(), error)),
    };
    let linkage = &linkage;
    write_outputs(rt, outputs, ImageOf { linkage }, MapOf { linkage })?;
    Ok(Outcome::Linked)
}

/// What a check of an image and a map comes to, with names hashed from a seed, where of archives that are searched the data of some
/// members may not have been read: zeros stand for them. What is right is right of all files of which these were read.
fn judged(
    alloc: Global,
    seed: NameSeed,
    parts: &[PartFile],
    files: &[InputFile],
    words: &[String],
    image: &[u8],
    map: &[u8],
) -> Result<Outcome, AllocError>
    requires { (plan : command.Plan) → command_of (words_of words.now) ≡ Ok plan
        → AreSearched parts.now plan }
    ensures judged { IfOk result (Judges (held_files parts.now files.now) (words_of words.now)
        image.now map.now) }
    ensures all { IfOk result (λ o. outcome_status o ≡ 0
        → (whole : List File) → AreFilesOf (record {
          parts = parts.now;
          wholes = files_of files.now;
        }) whole → IsRightLink whole (words_of words.now) image.now map.now) }
{
    match check_parts(alloc, parts, files, words, image, map, seed)? {
        Verdict::Yes => Ok(Outcome::Right),
        Verdict::No(clause) => Ok(Outcome::Wrong(clause)),
    }
}

/// Reads the image and then the map.
fn read_outputs<'a, R: Files + AllocGlobal>(
    rt: &R,
    image: &'a str,
    map: &'a str,
) -> Result<(Vec<u8>, Vec<u8>), Failure<'a>>
    ensures fault { IfErr result (λ f. 3 ≤ failure_status f) }
    ensures which { IfErr result (λ f. IsUnread image.entry.now f ⊎ IsUnread map.entry.now f) }
    ensures unwritten { IfErr result (λ f. unwritten_path f ≡ None) }
{
    let image = read_file(rt, image)?;
    let map = read_file(rt, map)?;
    Ok((image, map))
}

/// Reads the members of large archives that a link takes, where no others are needed; None where all files are to be read whole.
///
/// # Errors
///
/// Only where memory is refused, for words that are a command.
pub fn read_parts<'a, R: Files + AllocGlobal>(
    rt: &R,
    files: HeldFiles<R::File>,
    words: &[String],
    seed: NameSeed,
) -> Result<Option<HeldFiles<R::File>>, Failure<'a>>
    ensures searched { IfOk result (λ r. IfSome r (λ h. (plan : command.Plan) →
        command_of (words_of words.now) ≡ Ok plan → AreSearched h.parts.items plan)) }
    ensures words_alone { IfErr result (λ f. failure_status f ≡ 2
        → IsErr (command_of (words_of words.now))) }
    ensures fault { IfErr result (λ f. 2 ≤ failure_status f) }
    ensures unwritten { IfErr result (λ f. unwritten_path f ≡ None) }
{
    let plan = read_words(rt.alloc(), words)?;
    let mut files = files;
    files.read_wanted(rt.alloc(), &plan, seed)?;
    if !are_searched(&plan, &files.parts) {
        return Ok(None);
    }
    Ok(Some(files))
}

/// What a check comes to where archives that are searched were read in part; None where it isn't right, perhaps for what wasn't
/// read.
fn judged_in_part<'a, R: Files + AllocGlobal + RandomSource>(
    rt: &R,
    files: HeldFiles<R::File>,
    words: &[String],
    image: &[u8],
    map: &[u8],
) -> Result<Option<Outcome>, Failure<'a>>
    ensures judged { IfOk result (λ r. IfSome r (λ o. (files : List File) × Judges files (words_of words.now)
        image.now map.now o)) }
    ensures right { IfOk result (λ r. IfSome r (λ o. outcome_status o ≡ 0)) }
    ensures words_alone { IfErr result (λ f. failure_status f ≡ 2
        → IsErr (command_of (words_of words.now))) }
    ensures fault { IfErr result (λ f. 2 ≤ failure_status f) }
    ensures unwritten { IfErr result (λ f. unwritten_path f ≡ None) }
{
    let seed = name_seed(rt);
    let Some(files) = read_parts(rt, files, words, seed)? else {
        return Ok(None);
    };
    match judged(
        rt.alloc(),
        seed,
        &files.parts,
        &files.files,
        words,
        image,
        map,
    )? {
        Outcome::Right => Ok(Some(Outcome::Right)),
        _ => Ok(None),
    }
}

/// What a check of files that were read whole comes to.
fn judged_whole(
    alloc: Global,
    seed: NameSeed,
    files: &[InputFile],
    words: &[String],
    image: &[u8],
    map: &[u8],
) -> Result<Outcome, AllocError>
    ensures { IfOk result (Judges (files_of files.now) (words_of words.now) image.now map.now) }
{
    judged(alloc, seed, &[], files, words, image, map)
}

/// Reads the image and then the map, and checks them: without members of large archives that the link doesn't take, where that
/// is enough.
fn check_held<'a, R: Files + AllocGlobal + RandomSource>(
    rt: &R,
    image: &'a str,
    map: &'a str,
    files: HeldFiles<R::File>,
    words: &[String],
) -> Result<Outcome, Failure<'a>>
    ensures judged { IfOk result (λ o. (files : List File) × JudgesSome files (words_of words.now) o) }
    ensures words_alone { IfErr result (λ f. failure_status f ≡ 2
        → IsErr (command_of (words_of words.now))) }
    ensures fault { IfErr result (λ f. 2 ≤ failure_status f) }
    ensures unwritten { IfErr result (λ f. unwritten_path f ≡ None) }
{
    let (image, map) = read_outputs(rt, image, map)?;
    if files.parts.is_empty() {
        return Ok(judged_whole(rt.alloc(), name_seed(rt), &files.files, words, &image, &map)?);
    }
    if let Some(outcome) = judged_in_part(rt, files, words, &image, &map)? {
        return Ok(outcome);
    }
    let plan = read_words(rt.alloc(), words)?;
    let files = read_files(rt, &plan)?;
    Ok(judged_whole(rt.alloc(), name_seed(rt), &files, words, &image, &map)?)
}

/// What a plan asks for.
fn task_of<'a, R: Files>(rt: &R, plan: &Plan<'a>) -> Task<'a>
    requires { plan.now.check ≡ true → plan.now.map ≢ None }
    ensures { IsTaskOf plan.now result }
{
    match plan.map {
        Some(map) if plan.check => Task::Check(plan.output, map),
        _ => Task::Link(outputs(rt, plan)),
    }
}

/// Reads the files that a plan names: where they are linked, the outputs are none of them.
fn read_plan<'a, R: Files + AllocGlobal>(
    rt: &R,
    plan: &Plan<'_>,
    task: &Task<'a>,
) -> Result<Vec<InputFile>, Failure<'a>>
    ensures fault { IfErr result (λ f. 3 ≤ failure_status f) }
    ensures unwritten { IfErr result (λ f. unwritten_path f ≡ None) }
{
    match task {
        Task::Link(outputs) => read_other_files(rt, plan, outputs),
        Task::Check(_, _) => read_files(rt, plan),
    }
}

/// Reads the words, and the files that they name: what is to be done, and these.
///
/// # Errors
///
/// A fault of the words, or of reading a file; Overwrites where an output is one of the files.
pub fn read_input<'a, R: Files + AllocGlobal>(
    rt: &R,
    words: &'a [String],
) -> Result<(Task<'a>, Vec<InputFile>), Failure<'a>>
    ensures task { IfOk result (λ g. IsTaskBy (words_of words.entry.now) g.0) }
    ensures mode { IfOk result (λ g. Asks (is_check g.0) (words_of words.entry.now)) }
    ensures command { OnOk result (IsOk (command_of (words_of words.entry.now))) }
    ensures fault { IfErr result (λ f. 2 ≤ failure_status f) }
    ensures unwritten { IfErr result (λ f. unwritten_path f ≡ None) }
    ensures refused_words { IsErr (command_of (words_of words.entry.now)) →
        IsErrAnd result (λ f. (failure_status f ≡ 2) ⊎ (failure_status f ≡ 4)) }
    ensures words_alone { IfErr result (λ f. failure_status f ≡ 2
        → IsErr (command_of (words_of words.entry.now))) }
{
    let plan = read_words(rt.alloc(), words)?;
    let task = task_of(rt, &plan);
    let files = read_plan(rt, &plan, &task)?;
    Ok((task, files))
}

/// Links files of which archives that are searched were read in part, and writes what comes of it; None where the link is refused,
/// perhaps for what wasn't read. What is written is right of all files of which these were read.
fn link_parts<'a, R: OutputFiles>(
    rt: &R,
    outputs: &Outputs<'a>,
    parts: &[PartFile],
    files: &[InputFile],
    words: &[String],
    seed: NameSeed,
) -> Result<Option<Outcome>, Failure<'a>>
    requires { (plan : command.Plan) → command_of (words_of words.now) ≡ Ok plan
        → AreSearched parts.now plan }
    ensures right { IfOk result (λ r. IfSome r (λ o. outcome_status o ≡ 0
        → LinksRight (held_files parts.now files.now) (words_of words.now))) }
    ensures all { IfOk result (λ r. IfSome r (λ o. outcome_status o ≡ 0
        → (whole : List File) → AreFilesOf (record {
          parts = parts.now;
          wholes = files_of files.now;
        }) whole → LinksRight whole (words_of words.now))) }
    ensures fault { IfErr result (λ f. 3 ≤ failure_status f) }
    ensures linked { IfOk result (λ r. IfSome r (λ o. is_checked o ≡ false)) }
    ensures named { IfOk result (λ r. IfSome r (λ o. AreNamed (R.named rt.now) outputs.now)) }
    ensures unwritten { IfErr result (TellsUnwritten (R.failed rt.now)) }
{
    let linkage = match prepare_parts(rt.alloc(), parts, files, words, seed) {
        Ok(linkage) => linkage,
        Err(_) => return Ok(None),
    };
    let linkage = &linkage;
    write_outputs(rt, outputs, ImageOf { linkage }, MapOf { linkage })?;
    Ok(Some(Outcome::Linked))
}

/// Reads the members of large archives that a link takes, and links, where no others are needed; None where all files are to be read
/// whole.
fn link_in_part<'a, R: OutputFiles>(
    rt: &R,
    outputs: &Outputs<'a>,
    files: HeldFiles<R::File>,
    words: &[String],
) -> Result<Option<Outcome>, Failure<'a>>
    ensures right { IfOk result (λ r. IfSome r (λ o. outcome_status o ≡ 0
        → HasRightLink (words_of words.now))) }
    ensures words_alone { IfErr result (λ f. failure_status f ≡ 2
        → IsErr (command_of (words_of words.now))) }
    ensures linked { IfOk result (λ r. IfSome r (λ o. is_checked o ≡ false)) }
    ensures named { IfOk result (λ r. IfSome r (λ o. AreNamed (R.named rt.now) outputs.now)) }
    ensures unwritten { IfErr result (TellsUnwritten (R.failed rt.now)) }
{
    let seed = name_seed(rt);
    let Some(files) = read_parts(rt, files, words, seed)? else {
        return Ok(None);
    };
    link_parts(rt, outputs, &files.parts, &files.files, words, seed)
}

/// Reads the files that words name, of which the outputs may be none.
///
/// # Errors
///
/// A fault of the words, or of reading a file; Overwrites where an output is one of the files.
pub fn read_whole_files<'a, R: Files + AllocGlobal>(
    rt: &R,
    outputs: &Outputs<'a>,
    words: &[String],
) -> Result<Vec<InputFile>, Failure<'a>>
    ensures words_alone { IfErr result (λ f. failure_status f ≡ 2
        → IsErr (command_of (words_of words.now))) }
    ensures unwritten { IfErr result (λ f. unwritten_path f ≡ None) }
{
    let plan = read_words(rt.alloc(), words)?;
    let files = read_other_files(rt, &plan, outputs)?;
    Ok(files)
}

/// Links files: without members of large archives that the link doesn't take, where that can be.
fn link_held<'a, R: OutputFiles>(
    rt: &R,
    outputs: &Outputs<'a>,
    files: HeldFiles<R::File>,
    words: &[String],
) -> Result<Outcome, Failure<'a>>
    ensures right { IfOk result (λ o. outcome_status o ≡ 0 → HasRightLink (words_of words.now)) }
    ensures words_alone { IfErr result (λ f. failure_status f ≡ 2
        → IsErr (command_of (words_of words.now))) }
    ensures linked { IfOk result (λ o. is_checked o ≡ false) }
    ensures named { OnOk result (AreNamed (R.named rt.now) outputs.now) }
    ensures unwritten { IfErr result (TellsUnwritten (R.failed rt.now)) }
{
    if files.parts.is_empty() {
        return link_files(rt, outputs, &files.files, words);
    }
    if let Some(outcome) = link_in_part(rt, outputs, files, words)? {
        return Ok(outcome);
    }
    let files = read_whole_files(rt, outputs, words)?;
    link_files(rt, outputs, &files, words)
}

/// Reads the files that a plan names, of large archives only what a link looks at before it takes members; where they are linked,
/// the outputs are none of them.
fn read_held_plan<'a, R: Files + AllocGlobal>(
    rt: &R,
    plan: &Plan<'_>,
    task: &Task<'a>,
) -> Result<HeldFiles<R::File>, Failure<'a>>
    ensures fault { IfErr result (λ f. 3 ≤ failure_status f) }
    ensures unwritten { IfErr result (λ f. unwritten_path f ≡ None) }
{
    match task {
        Task::Link(outputs) => read_held_files(rt, plan, outputs),
        Task::Check(_, _) => read_checked_files(rt, plan),
    }
}

/// Reads the words, and the files that they name, as `read_input` does, and of large archives only what a link looks at.
///
/// # Errors
///
/// As `read_input`.
pub fn read_held_input<'a, R: Files + AllocGlobal>(
    rt: &R,
    words: &'a [String],
) -> Result<(Task<'a>, HeldFiles<R::File>), Failure<'a>>
    ensures task { IfOk result (λ g. IsTaskBy (words_of words.entry.now) g.0) }
    ensures mode { IfOk result (λ g. Asks (is_check g.0) (words_of words.entry.now)) }
    ensures command { OnOk result (IsOk (command_of (words_of words.entry.now))) }
    ensures fault { IfErr result (λ f. 2 ≤ failure_status f) }
    ensures unwritten { IfErr result (λ f. unwritten_path f ≡ None) }
    ensures refused_words { IsErr (command_of (words_of words.entry.now)) →
        IsErrAnd result (λ f. (failure_status f ≡ 2) ⊎ (failure_status f ≡ 4)) }
    ensures words_alone { IfErr result (λ f. failure_status f ≡ 2
        → IsErr (command_of (words_of words.entry.now))) }
{
    let plan = read_words(rt.alloc(), words)?;
    let task = task_of(rt, &plan);
    let files = read_held_plan(rt, &plan, &task)?;
    Ok((task, files))
}

fn run<'a, R: OutputFiles>(rt: &R, words: &'a [String]) -> Result<Outcome, Failure<'a>>
    ensures right { IfOk result (λ o. outcome_status o ≡ 0
        → HasRightLink (words_of words.entry.now)) }
    ensures judged { IfOk result (λ o. is_checked o ≡ true
        → (files : List File) × JudgesSome files (words_of words.entry.now) o) }
    ensures refused_words { IsErr (command_of (words_of words.entry.now)) →
        IsErrAnd result (λ f. (failure_status f ≡ 2) ⊎ (failure_status f ≡ 4)) }
    ensures words_alone { IfErr result (λ f. failure_status f ≡ 2
        → IsErr (command_of (words_of words.entry.now))) }
    ensures mode { IfOk result (λ o. Asks (is_checked o) (words_of words.entry.now)) }
    ensures fault { (p : command.Plan) →
        command_of (words_of words.entry.now) ≡ Ok p → p.check ≡ true
        → IfErr result (λ f. 2 ≤ failure_status f) }
    ensures named { IfOk result (λ o. is_checked o ≡ false
        → AreNamedBy (R.named rt.now) (words_of words.entry.now)) }
    ensures unwritten { IfErr result (TellsUnwritten (R.failed rt.now)) }
{
    let (task, files) = read_held_input(rt, words)?;
    match task {
        Task::Link(outputs) => link_held(rt, &outputs, files, words),
        Task::Check(image, map) => check_held(rt, image, map, files, words),
    }
}

/// Runs `ld`, and answers its exit status and whether what was to be printed was.
fn answer<R: OutputFiles, O: Write, E: Write>(
    rt: &R,
    words: &[String],
    out: &mut O,
    err: &mut E,
) -> (u8, io::Result<()>)
    ensures statuses { result.0 ≤ 4 }
    ensures right { result.0 ≡ 0 → HasRightLink (words_of words.now) }
    ensures verdict { (p : command.Plan) →
        command_of (words_of words.now) ≡ Ok p → p.check ≡ true → result.0 ≤ 1
        → OnOk result.1 (Prints (words_of words.now) result.0
        (O.contents out.old) (O.contents out.new)) }
    ensures named { (p : command.Plan) →
        command_of (words_of words.now) ≡ Ok p → p.check ≡ false → result.0 ≡ 0
        → AreNamedBy (R.named rt.now) (words_of words.now) }
    ensures refused_words { IsErr (command_of (words_of words.now))
        → (result.0 ≡ 2) ⊎ (result.0 ≡ 4) }
    ensures words_alone { result.0 ≡ 2 → IsErr (command_of (words_of words.now)) }
    ensures out_quiet { 2 ≤ result.0 → out.new ≡ out.old }
    ensures err_quiet { result.0 ≡ 0 → err.new ≡ err.old }
    ensures link_prints_nothing { (p : command.Plan) →
        command_of (words_of words.now) ≡ Ok p → p.check ≡ false → out.new ≡ out.old }
    ensures check_prints_no_fault { (p : command.Plan) →
        command_of (words_of words.now) ≡ Ok p → p.check ≡ true → result.0 ≤ 1
        → err.new ≡ err.old }
    ensures line { 2 ≤ result.0
        → OnOk result.1 (TellsFailure (R.failed rt.now) result.0
        (E.contents err.old) (E.contents err.new)) }
    ensures link_line { (p : command.Plan) →
        command_of (words_of words.now) ≡ Ok p → p.check ≡ false → 1 ≤ result.0
        → OnOk result.1 (TellsFailure (R.failed rt.now) result.0
        (E.contents err.old) (E.contents err.new)) }
{
    match run(rt, words) {
        Ok(outcome) => (outcome.status(), outcome.print(out)),
        Err(failure) => (failure.status(), failure.print(err)),
    }
}

/// Runs `ld` with `words`, the words behind the program's name, and answers its exit status. A fault of
/// `out` or `err` changes no status.
///
/// - 0: the image is the file at the path of `-o`, and the map at that of `-Map=` if there is one; nothing
///   is printed. Or, with `--check`, these two are a right link: `yes` on `out`.
/// - 1: with `--check`, they are no right link: `no` and the least clause that fails, as `no C11`, on
///   `out`. Without it, the link is refused.
/// - 2: the words are no command.
/// - 3: a file is missing, can't be read or written, or is both an input and an output.
/// - 4: memory can't be had.
///
/// An image or a map that is a regular file is written under another name first, and gets its own when both
/// are whole. So after each of these but 0 the paths have what they had; only where the map can't be written,
/// for another reason than memory, the image has got its name. A device may have taken a part, and so may a
/// file in a folder that takes no new one, or at a path that can't be given to another one: that is written
/// as it is, behind nothing.
///
/// Where nothing is written or checked, `err` has one line: `ld: ` and the error's name and number, as
/// `ld: NoEntry (18)`; behind that `: ` and the name and number of the fault of the words or of an object,
/// or a symbol's name, spelled as in a map; or `ld: cannot read PATH` or `ld: cannot write PATH`.
pub fn run_ld<R: Files + AllocGlobal + RandomSource, O: Write, E: Write>(
    rt: &R,
    words: &[String],
    out: &mut O,
    err: &mut E,
) -> u8
    ensures statuses { result ≤ 4 }
    ensures right { result ≡ 0 → HasRightLink (words_of words.now) }
    ensures refused_words { IsErr (command_of (words_of words.now)) → (result ≡ 2) ⊎ (result ≡ 4) }
    ensures words_alone { result ≡ 2 → IsErr (command_of (words_of words.now)) }
    ensures out_quiet { 2 ≤ result → out.new ≡ out.old }
    ensures err_quiet { result ≡ 0 → err.new ≡ err.old }
    ensures link_prints_nothing { (p : command.Plan) →
        command_of (words_of words.now) ≡ Ok p → p.check ≡ false → out.new ≡ out.old }
    ensures check_prints_no_fault { (p : command.Plan) →
        command_of (words_of words.now) ≡ Ok p → p.check ≡ true → result ≤ 1 → err.new ≡ err.old }
{
    let (status, _printed) = answer(rt, words, out, err);
    status
}
