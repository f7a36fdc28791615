//! The program `ld-debug`: links as `ld` does, and writes an image for tools; checks such an image.
ghost use Rattle.std.specs.Prelude.{◌≡◌, ◌⊎◌, ◌≤◌, ◌∷◌, List, true, false, Ok, IfErr, IfOk, IfSome, IsErr, IsErrAnd, OnOk, codes, is_some, not};
ghost use Rattle.elf_model.specs.Inputs.Command as command;
ghost use Rattle.elf_model.specs.Inputs.Command.{command_of};
ghost use Rattle.elf_model.specs.Inputs.Files.{File, words_of};
ghost use Rattle.ld_main.specs.Program.{Asks, HasRightLink, TellsFailure, TellsUnwritten, failure_status};
ghost use Rattle.ld_main.specs.Tasks.{AreNamedBy};
ghost use Rattle.debug_main.specs.Verdicts.{Prints, SaysSome, answer_status};
ghost use Rattle.debug_main.specs.Words.{IsStripped, plain_words, stands_alone};

use crate::checking::check_held;
use crate::linking::link_held;
use crate::verdict::DebugVerdict;
use crate::words::{stands_alone, stripped};
use debug_image::Wanted;
use elf_model::LinkError;
use ld_main::{Failure, OutputFiles, Task, given_words, read_held_input};
use std::io;
use std::io::Write;
use std::random::RandomSource;
use std::rt::{Env, Files};

/// What an image is to have besides sections and what names mean: no LOCAL symbols where the words have -s, no debug data where
/// they have -S, as words of their own.
pub fn wanted(words: &[String]) -> Wanted
    ensures locals { result.locals ≡ not (stands_alone (codes "-s") (words_of words.now)) }
    ensures data { result.debug ≡ not (stands_alone (codes "-S") (words_of words.now)) }
{
    Wanted {
        locals: !stands_alone(words, "-s"),
        debug: !stands_alone(words, "-S"),
    }
}

/// Links or checks as words say, those with which the image at the beginning is linked and checked; None after a link.
fn run<'a, R: OutputFiles, E: Write>(
    rt: &R,
    words: &'a [String],
    wanted: Wanted,
    err: &mut E,
) -> Result<Option<DebugVerdict>, Failure<'a>>
    requires { IsStripped (words_of words.now) }
    ensures right { IfOk result (λ o. answer_status o ≡ 0
        → HasRightLink (words_of words.entry.now)) }
    ensures judged { IfOk result (λ o. IfSome o (λ v. (files : List File)
        × SaysSome files (words_of words.entry.now) wanted v)) }
    ensures refused_words { IsErr (command_of (words_of words.entry.now)) →
        IsErrAnd result (λ f. (failure_status f ≡ 2) ⊎ (failure_status f ≡ 4)) }
    ensures words_alone { IfErr result (λ f. failure_status f ≡ 2
        → IsErr (command_of (words_of words.entry.now))) }
    ensures mode { IfOk result (λ o. Asks (is_some o) (words_of words.entry.now)) }
    ensures refused_is_quiet { IsErr result → err.new ≡ err.old }
    ensures check_is_quiet { (p : command.Plan) →
        command_of (words_of words.entry.now) ≡ Ok p → p.check ≡ true → err.new ≡ err.old }
    ensures fault { (p : command.Plan) →
        command_of (words_of words.entry.now) ≡ Ok p → p.check ≡ true
        → IfErr result (λ f. 2 ≤ failure_status f) }
    ensures named { IfOk result (λ o. is_some o ≡ false
        → AreNamedBy (R.named rt.now) (words_of words.entry.now)) }
    ensures unwritten { IfErr result (TellsUnwritten (R.failed rt.now)) }
{
    let (task, files) = read_held_input(rt, words)?;
    match task {
        Task::Link(outputs) => {
            link_held(rt, &outputs, files, words, wanted, err)?;
            Ok(None)
        }
        Task::Check(image, map) => {
            let verdict = check_held(rt, image, map, files, words, wanted)?;
            Ok(Some(verdict))
        }
    }
}

/// Runs `ld-debug` with the words with which the image at the beginning is linked and checked, and answers its exit status and
/// whether what was to be printed was.
fn answer<R: OutputFiles, O: Write, E: Write>(
    rt: &R,
    words: &[String],
    wanted: Wanted,
    out: &mut O,
    err: &mut E,
) -> (u8, io::Result<()>)
    requires { IsStripped (words_of words.now) }
    ensures statuses { result.0 ≤ 4 }
    ensures right { result.0 ≡ 0 → HasRightLink (words_of words.now) }
    ensures verdict { (p : command.Plan) →
        command_of (words_of words.now) ≡ Ok p → p.check ≡ true → result.0 ≤ 1
        → OnOk result.1 (Prints (words_of words.now) wanted result.0
        (O.contents out.old) (O.contents out.new)) }
    ensures named { (p : command.Plan) →
        command_of (words_of words.now) ≡ Ok p → p.check ≡ false → result.0 ≡ 0
        → AreNamedBy (R.named rt.now) (words_of words.now) }
    ensures refused_words { IsErr (command_of (words_of words.now))
        → (result.0 ≡ 2) ⊎ (result.0 ≡ 4) }
    ensures words_alone { result.0 ≡ 2 → IsErr (command_of (words_of words.now)) }
    ensures out_quiet { 2 ≤ result.0 → out.new ≡ out.old }
    ensures link_prints_nothing { (p : command.Plan) →
        command_of (words_of words.now) ≡ Ok p → p.check ≡ false → out.new ≡ out.old }
    ensures check_prints_no_fault { (p : command.Plan) →
        command_of (words_of words.now) ≡ Ok p → p.check ≡ true → result.0 ≤ 1
        → err.new ≡ err.old }
    ensures line { 2 ≤ result.0
        → OnOk result.1 (TellsFailure (R.failed rt.now) result.0
        (E.contents err.old) (E.contents err.new)) }
    ensures link_line { (p : command.Plan) →
        command_of (words_of words.now) ≡ Ok p → p.check ≡ false → 1 ≤ result.0
        → OnOk result.1 (TellsFailure (R.failed rt.now) result.0
        (E.contents err.old) (E.contents err.new)) }
{
    match run(rt, words, wanted, err) {
        Ok(Some(verdict)) => (verdict.status(), verdict.print(out)),
        Ok(None) => (0, Ok(())),
        Err(failure) => (failure.status(), failure.print(err)),
    }
}

/// Runs `ld-debug` with `given`, the words behind the program's name, and answers its exit status, as `run_ld` does. A fault of
/// `out` or `err` changes no status.
///
/// - 0: the image for tools is the file at the path of `-o`, and the map of the link without a symbol table that at `-Map=`. Or,
///   with `--check`, these two are right: `yes` on `out`.
/// - 1: with `--check`, they are not: `no` and the least clause that fails of the image at the beginning, or `no tables`, with the
///   first byte that isn't what it is to be. Without it, the link is refused.
/// - 2, 3, 4: as `run_ld`.
pub fn run_debug<R: Files + AllocGlobal + RandomSource, O: Write, E: Write>(
    rt: &R,
    given: &[String],
    out: &mut O,
    err: &mut E,
) -> u8
    ensures statuses { result ≤ 4 }
    ensures right { result ≡ 0
        → HasRightLink (codes "-s" ∷ plain_words (words_of given.now)) }
    ensures refused_words { IsErr (command_of (plain_words (words_of given.now)))
        → (result ≡ 2) ⊎ (result ≡ 4) }
    ensures words_alone { result ≡ 2 → IsErr (command_of (plain_words (words_of given.now))) }
    ensures out_quiet { 2 ≤ result → out.new ≡ out.old }
    ensures link_prints_nothing { (p : command.Plan) →
        command_of (plain_words (words_of given.now)) ≡ Ok p → p.check ≡ false
        → out.new ≡ out.old }
    ensures check_prints_no_fault { (p : command.Plan) →
        command_of (plain_words (words_of given.now)) ≡ Ok p → p.check ≡ true
        → result ≤ 1 → err.new ≡ err.old }
{
    let Ok(words) = stripped(rt.alloc(), given) else {
        let failure = Failure::from(LinkError::Memory);
        let _ = failure.print(err);
        return failure.status();
    };
    let (status, _printed) = answer(rt, &words, wanted(given), out, err);
    status
}

/// Runs `ld-debug` with the words that a runtime has behind the program's name, as `run_debug` does, and answers its exit status.
/// Where they can't be had, that is 2 or 4, as `given_words` says.
pub fn run_args<R: Env + Files + AllocGlobal + RandomSource, O: Write, E: Write>(
    rt: &R,
    out: &mut O,
    err: &mut E,
) -> u8
    ensures { result ≤ 4 }
{
    match given_words(rt, err) {
        Ok(words) => run_debug(rt, &words, out, err),
        Err(status) => status,
    }
}
