//! What `ld-why` prints: the line of `ld`, and below it the places at which something is wrong.
//!
//! Begin with `run`.
#![tactic(auto)]

ghost use Rattle.std.specs.Prelude.{◌≡◌, ◌≢◌, ◌⊎◌, ◌≤◌, IfOk, IsErr};
ghost use Rattle.elf_model.specs.Own.Causes.{Cause};
ghost use Rattle.elf_model.specs.Inputs.Command.{command_of};
ghost use Rattle.elf_model.specs.Inputs.Files.{files_of, words_of};
ghost use Rattle.ld_main.specs.Program.{HasRightLink, failure_status};

use byteview::View;
use check_link::Link;
use command::{Plan, read_words};
use elf_model::{Clause, CmdFault, InputFile, LinkError, LoadFault, MapFault, NameSeed};
use explain::{Inputs, explain, write_more, write_places};
use explain_check::{CheckPlace, Found, explain_check, read_link, write_check_place};
use file_io::OutputPath;
use input_names::Name;
use ld_main::{
    Failure, NewFile, Outputs, Verdict, check_in, given_words, name_seed, outputs, prepare_seeded,
    read_file, read_files, read_other_files, refused,
};
use loader_model::Memory;
use std::alloc::{AllocError, Global};
use std::fs::File;
use std::io;
use std::io::{ErrorKind, Read, Write};
use std::random::RandomSource;
use std::rt::{Env, Files};

/// How many places are printed.
const MOST: usize = 20;

/// The status where memory can't be had.
const NO_MEMORY: u8 = 4;

/// The lines that explain why the link of files that words name is refused with an error: the places that were found, a line
/// each, and how many more there are.
fn reasons(
    alloc: Global,
    seed: NameSeed,
    files: &[InputFile],
    words: &[String],
    error: &LinkError,
) -> io::Result<Vec<u8>>
    requires { Cause (files_of files.now) (words_of words.now) error.now }
{
    let found = explain(alloc, files, words, error, MOST, seed)?;
    let inputs = Inputs {
        alloc,
        files,
        words,
    };
    let mut text = Vec::new(alloc);
    write_places(&mut text, inputs, &found)?;
    Ok(text)
}

/// Prints the line of a failure, and answers its status.
fn fail<W: Write>(out: &mut W, failure: &Failure<'_>) -> io::Result<u8>
    ensures { IfOk result (λ n. n ≡ failure_status failure.now) }
{
    failure.print(out)?;
    Ok(failure.status())
}

/// Why a file can't be read, as the system says it; None where it can be.
fn reason<R: Files>(rt: &R, path: &str) -> Option<io::Error> {
    let mut file = match File::open(rt, path) {
        Ok(file) => file,
        Err(error) => return Some(error),
    };
    let mut byte = [0];
    file.read(&mut byte).err()
}

/// Prints the line of a failure of a file, and below it the reason: the system's, where a file can't be read; or that it is an
/// input, where it isn't written. Answers the failure's status.
fn fail_file<R: Files, W: Write>(rt: &R, out: &mut W, failure: &Failure<'_>) -> io::Result<u8>
    requires { 3 ≤ failure_status failure.now }
    ensures low { IfOk result (λ n. 3 ≤ n) }
    ensures statuses { IfOk result (λ n. n ≤ 4) }
{
    let status = fail(out, failure)?;
    match failure {
        Failure::CannotRead(path) => {
            if let Some(error) = reason(rt, path) {
                writeln!(out, "{}: {error}", Name(path.as_bytes()))?;
            }
        }
        Failure::Overwrites(path) => {
            let name = Name(path.as_bytes());
            writeln!(out, "{name}: one of the files that are read")?;
        }
        Failure::CannotWrite(_) | Failure::Refused { .. } => {}
    }
    Ok(status)
}

/// Prints the line of a refusal, and below it why; of want of memory the line alone.
fn refuse<W: Write>(
    alloc: Global,
    seed: NameSeed,
    out: &mut W,
    files: &[InputFile],
    words: &[String],
    error: LinkError,
) -> io::Result<u8>
    requires { Cause (files_of files.now) (words_of words.now) error }
    ensures some { IfOk result (λ n. 1 ≤ n) }
    ensures statuses { IfOk result (λ n. n ≤ 4) }
    ensures words_alone { IfOk result (λ n. n ≡ 2 → IsErr (command_of (words_of words.now))) }
{
    let text = reasons(alloc, seed, files, words, &error)?;
    let status = fail(out, &refused(alloc, error))?;
    if status != NO_MEMORY {
        out.write_all(&text)?;
    }
    Ok(status)
}

/// Links files without writing anything, and explains the refusal where there is one.
fn link<W: Write>(
    alloc: Global,
    seed: NameSeed,
    out: &mut W,
    files: &[InputFile],
    words: &[String],
) -> io::Result<u8>
    ensures statuses { IfOk result (λ n. n ≤ 4) }
    ensures right { IfOk result (λ n. n ≡ 0 → HasRightLink (words_of words.now)) }
    ensures words_alone { IfOk result (λ n. n ≡ 2 → IsErr (command_of (words_of words.now))) }
{
    match prepare_seeded(alloc, files, words, seed) {
        Ok(_) => Ok(0),
        Err(error) => refuse(alloc, seed, out, files, words, error),
    }
}

/// Writes the places at which the check of a link fails, a line each, and how many more there are.
fn write_failures<W: Write>(
    alloc: Global,
    out: &mut W,
    link: &Link<'_>,
    map: &[u8],
    found: &Found<'_>,
) -> io::Result<()> {
    for place in found.places() {
        write_check_place(alloc, out, link, map, place)?;
        out.write_all(b"\n")?;
    }
    write_more(out, found.more())
}

/// Writes which line of a text is none of a map.
fn write_map_fault<W: Write>(
    alloc: Global,
    out: &mut W,
    plan: &Plan<'_>,
    map: &[u8],
) -> io::Result<()> {
    match linkmap::read_borrowed(alloc, map) {
        Ok(_) => Ok(()),
        Err(MapFault::Memory) => Err(io::Error::from(AllocError)),
        Err(MapFault::Line(line)) => {
            let name = Name(plan.map.unwrap_or("").as_bytes());
            writeln!(out, "{name}: line {line} is none of a map")
        }
    }
}

/// Writes why an image is none that a loader maps.
fn write_image_fault<W: Write>(
    alloc: Global,
    out: &mut W,
    plan: &Plan<'_>,
    image: &[u8],
) -> io::Result<()> {
    match Memory::load(alloc, View::new(image)) {
        Ok(_) => Ok(()),
        Err(LoadFault::Memory) => Err(io::Error::from(AllocError)),
        Err(fault) => {
            let name = Name(plan.output.as_bytes());
            writeln!(out, "{name}: {fault}")
        }
    }
}

/// Whether an error of a link is one by which a clause fails of each image and map.
fn is_of(error: &LinkError, clause: Clause) -> bool {
    match error {
        LinkError::FileMissing
        | LinkError::BadArchive(_)
        | LinkError::NoIndex
        | LinkError::BadObject(_)
        | LinkError::BadGroup(_) => clause == Clause::C2,
        LinkError::SectionKind | LinkError::BadCommon => clause == Clause::C3,
        LinkError::BadSymbol | LinkError::Duplicate(_) => clause == Clause::C13,
        _ => false,
    }
}

/// The lines that explain an error of a link, where by it a clause fails of each image and map; else none.
fn error_reasons(
    alloc: Global,
    seed: NameSeed,
    files: &[InputFile],
    words: &[String],
    error: &LinkError,
    clause: Clause,
) -> io::Result<Vec<u8>>
    requires { Cause (files_of files.now) (words_of words.now) error.now }
{
    if is_of(error, clause) {
        return reasons(alloc, seed, files, words, error);
    }
    Ok(Vec::new(alloc))
}

/// The lines that explain why a clause fails of each image and map of files and words, or none.
fn input_reasons(
    alloc: Global,
    seed: NameSeed,
    files: &[InputFile],
    words: &[String],
    clause: Clause,
) -> io::Result<Vec<u8>> {
    match prepare_seeded(alloc, files, words, seed) {
        Ok(_) => Ok(Vec::new(alloc)),
        Err(error) => error_reasons(alloc, seed, files, words, &error, clause),
    }
}

/// Whether no place was found, but that a clause fails as a whole.
fn is_whole(found: &Found<'_>) -> bool {
    match found.places() {
        [CheckPlace::Whole(_)] => true,
        _ => false,
    }
}

/// The lines that explain where the check of a link fails by a clause: why the inputs are refused, where by that no place was
/// found, or the map has no lines; and the places.
fn link_failures(
    alloc: Global,
    seed: NameSeed,
    words: &[String],
    link: &Link<'_>,
    map: &[u8],
    clause: Clause,
) -> io::Result<Vec<u8>> {
    let found = explain_check(alloc, link, MOST)?;
    let whole = is_whole(&found);
    let mut text = Vec::new(alloc);
    if whole || clause == Clause::C3 {
        text = input_reasons(alloc, seed, link.files, words, clause)?;
    }
    if !whole || text.is_empty() {
        write_failures(alloc, &mut text, link, map, &found)?;
    }
    Ok(text)
}

/// The lines that explain why a clause fails of an image and a map.
fn failures(
    alloc: Global,
    seed: NameSeed,
    plan: &Plan<'_>,
    files: &[InputFile],
    words: &[String],
    image: &[u8],
    map: &[u8],
    clause: Clause,
) -> io::Result<Vec<u8>> {
    let mut text = Vec::new(alloc);
    match clause {
        Clause::C1 => write_map_fault(alloc, &mut text, plan, map)?,
        Clause::C4 => write_image_fault(alloc, &mut text, plan, image)?,
        _ => {
            if let Some(link) = read_link(alloc, files, words, image, map)? {
                return link_failures(alloc, seed, words, &link, map, clause);
            }
        }
    }
    Ok(text)
}

/// Checks an image and a map, and explains why they are no right link.
fn judge<W: Write>(
    alloc: Global,
    seed: NameSeed,
    out: &mut W,
    plan: &Plan<'_>,
    files: &[InputFile],
    words: &[String],
    image: &[u8],
    map: &[u8],
) -> io::Result<u8>
    ensures statuses { IfOk result (λ n. n ≤ 1) }
    ensures right { IfOk result (λ n. n ≡ 0 → HasRightLink (words_of words.now)) }
{
    match check_in(alloc, files, words, image, map, seed)? {
        Verdict::Yes => {
            writeln!(out, "yes")?;
            Ok(0)
        }
        Verdict::No(clause) => {
            let text = failures(alloc, seed, plan, files, words, image, map, clause)?;
            writeln!(out, "no C{}", clause as u8)?;
            out.write_all(&text)?;
            Ok(1)
        }
    }
}

/// Reads the image and the map that a plan names, and checks them.
fn check_files<R: Files + AllocGlobal + RandomSource, W: Write>(
    rt: &R,
    out: &mut W,
    plan: &Plan<'_>,
    files: &[InputFile],
    words: &[String],
) -> io::Result<u8>
    ensures statuses { IfOk result (λ n. n ≤ 4) }
    ensures right { IfOk result (λ n. n ≡ 0 → HasRightLink (words_of words.now)) }
    ensures read { IfOk result (λ n. n ≢ 2) }
{
    let image = match read_file(rt, plan.output) {
        Ok(image) => image,
        Err(failure) => return fail_file(rt, out, &failure),
    };
    let map = match read_file(rt, plan.map.unwrap_or("")) {
        Ok(map) => map,
        Err(failure) => return fail_file(rt, out, &failure),
    };
    judge(
        rt.alloc(),
        name_seed(rt),
        out,
        plan,
        files,
        words,
        &image,
        &map,
    )
}

/// Says why an output can't be written, with the system's reason, and answers the status of that; 0 where it can be. Nothing is
/// written: where a link would make a new file, it is made and removed again.
fn probe<R: Files + AllocGlobal + RandomSource, W: Write>(
    rt: &R,
    out: &mut W,
    output: OutputPath<'_>,
) -> io::Result<u8>
    ensures statuses { IfOk result (λ n. n ≤ 4) }
    ensures kinds { IfOk result (λ n. (n ≡ 0) ⊎ (3 ≤ n)) }
{
    let Err(error) = NewFile::probe(rt, output) else {
        return Ok(0);
    };
    if error.kind() == ErrorKind::OutOfMemory {
        return Err(error);
    }
    let status = fail(out, &Failure::CannotWrite(output.path()))?;
    writeln!(out, "{}: {error}", Name(output.path().as_bytes()))?;
    Ok(status)
}

/// The same of the image, and of the map where it has a path.
fn probe_both<R: Files + AllocGlobal + RandomSource, W: Write>(
    rt: &R,
    out: &mut W,
    outputs: &Outputs<'_>,
) -> io::Result<u8>
    ensures statuses { IfOk result (λ n. n ≤ 4) }
    ensures kinds { IfOk result (λ n. (n ≡ 0) ⊎ (3 ≤ n)) }
{
    let status = probe(rt, out, outputs.image)?;
    match outputs.map {
        Some(map) if status == 0 => probe(rt, out, map),
        _ => Ok(status),
    }
}

/// Reads the files that a plan names, and links them without writing anything.
fn link_plan<R: Files + AllocGlobal + RandomSource, W: Write>(
    rt: &R,
    out: &mut W,
    plan: &Plan<'_>,
    words: &[String],
) -> io::Result<u8>
    ensures statuses { IfOk result (λ n. n ≤ 4) }
    ensures right { IfOk result (λ n. n ≡ 0 → HasRightLink (words_of words.now)) }
    ensures words_alone { IfOk result (λ n. n ≡ 2 → IsErr (command_of (words_of words.now))) }
{
    let outputs = outputs(rt, plan);
    let files = match read_other_files(rt, plan, &outputs) {
        Ok(files) => files,
        Err(failure) => return fail_file(rt, out, &failure),
    };
    let status = link(rt.alloc(), name_seed(rt), out, &files, words)?;
    if status != 0 {
        return Ok(status);
    }
    probe_both(rt, out, &outputs)
}

/// Reads the files that a plan names, and links or checks them.
fn run_plan<R: Files + AllocGlobal + RandomSource, W: Write>(
    rt: &R,
    out: &mut W,
    plan: &Plan<'_>,
    words: &[String],
) -> io::Result<u8>
    ensures statuses { IfOk result (λ n. n ≤ 4) }
    ensures right { IfOk result (λ n. n ≡ 0 → HasRightLink (words_of words.now)) }
    ensures words_alone { IfOk result (λ n. n ≡ 2 → IsErr (command_of (words_of words.now))) }
{
    if !plan.check {
        return link_plan(rt, out, plan, words);
    }
    match read_files(rt, plan) {
        Ok(files) => check_files(rt, out, plan, &files, words),
        Err(failure) => fail_file(rt, out, &failure),
    }
}

fn answer<R: Files + AllocGlobal + RandomSource, W: Write>(
    rt: &R,
    words: &[String],
    out: &mut W,
) -> io::Result<u8>
    ensures statuses { IfOk result (λ n. n ≤ 4) }
    ensures right { IfOk result (λ n. n ≡ 0 → HasRightLink (words_of words.now)) }
    ensures words_alone { IfOk result (λ n. n ≡ 2 → IsErr (command_of (words_of words.now))) }
{
    match read_words(rt.alloc(), words) {
        Ok(plan) => run_plan(rt, out, &plan, words),
        Err(CmdFault::Memory) => fail(out, &Failure::from(CmdFault::Memory)),
        Err(fault) => refuse(
            rt.alloc(),
            name_seed(rt),
            out,
            &[],
            words,
            LinkError::Command(fault),
        ),
    }
}

/// Says why `ld` refuses these words or the link that they check, or can't read or write a file, and answers the exit status of
/// `ld`; 3 where a line can't be written, 4 where memory can't be had. It writes no file: where `ld` would make a new one, that is
/// made and removed again.
pub fn run<R: Files + AllocGlobal + RandomSource, W: Write>(
    rt: &R,
    words: &[String],
    out: &mut W,
) -> u8
    ensures statuses { result ≤ 4 }
    ensures right { result ≡ 0 → HasRightLink (words_of words.now) }
    ensures words_alone { result ≡ 2 → IsErr (command_of (words_of words.now)) }
{
    match answer(rt, words, out) {
        Ok(status) => status,
        Err(error) => match error.kind() {
            ErrorKind::OutOfMemory => {
                let _ = writeln!(out, "ld: Memory (1)");
                NO_MEMORY
            }
            _ => 3,
        },
    }
}

/// Runs `ld-why` with the words that a runtime has behind the program's name, as `run` does, and answers its exit status. Where they
/// can't be had, that is 2 or 4, as `given_words` says.
pub fn run_args<R: Env + Files + AllocGlobal + RandomSource, W: Write>(rt: &R, out: &mut W) -> u8
    ensures { result ≤ 4 }
{
    match given_words(rt, out) {
        Ok(words) => run(rt, &words, out),
        Err(status) => status,
    }
}
