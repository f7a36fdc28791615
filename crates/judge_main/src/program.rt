//! The program: reads what words name, judges it, and prints the answer.
ghost use Rattle.std.specs.Prelude.{◌≡◌, ◌↔◌, ◌≤◌, ℕ, IfOk, List, None, drop, false};
ghost use Rattle.elf_model.specs.Inputs.Files.{File, files_of, words_of};
ghost use Rattle.foreign_words.specs.Spoken.{IsSpokenBy, IsWhole};
ghost use Rattle.judge_model.specs.Certificates.{certificate_of};
ghost use Rattle.judge_model.specs.Plans.{ForeignPlan};
ghost use Rattle.judge_model.specs.RightForeign.{IsShown};
ghost use Rattle.judge_model.specs.Words.{IsAsked};
ghost use Rattle.link_judge.specs.Judged.{link_of};
ghost use Rattle.judge_main.specs.Faults.{IsFailed, IsFaultOf, TellsFault, certificate_path, fault_status};
ghost use Rattle.judge_main.specs.Opinions.{HasRightForeign, IsOpinion, IsSaid, Says, SaysSome, SaysWith, opinion_status};

use crate::answer::{Answer, fail, tell};
use crate::fault::Fault;
use crate::given::{Given, certificate_of, read_given};
use crate::opinion::Opinion;
use elf_model::NameSeed;
use foreign_words::{Spoken, read_foreign_words};
use judge_model::Certificate;
use ld_main::{given_words, name_seed};
use link_judge::judge;
use std::alloc::{AllocError, Global};
use std::io::Write;
use std::random::RandomSource;
use std::rt::{Env, Files};

/// What is said of a link: of the files, the image and the certificate that were read, by words that were read.
fn opinion_of(
    alloc: Global,
    spoken: &Spoken<'_>,
    given: &Given,
    seed: NameSeed,
) -> Result<Opinion, AllocError>
    requires { IsWhole spoken.now }
    ensures { (words : List (List ℕ)) → IsSpokenBy words spoken.now
        → IfOk result (IsOpinion words (files_of given.now.files.items) given.now.image.items
        (certificate_of given.now.certificate)) }
{
    let judgement = judge(
        alloc,
        spoken,
        &given.files,
        &given.image,
        &given.certificate,
        Some(seed),
    )?;
    Ok(Opinion::from(judgement))
}

/// Judges what was read by words that were read, and prints what is said of it.
fn answer_given<O: Write, E: Write>(
    alloc: Global,
    spoken: &Spoken<'_>,
    given: &Given,
    seed: NameSeed,
    out: &mut O,
    err: &mut E,
) -> Answer
    requires { IsWhole spoken.now }
    ensures statuses { result.status ≤ 5 }
    ensures said { (words : List (List ℕ)) → IsSpokenBy words spoken.now → IsSaid result.status
        → Says words (files_of given.now.files.items) given.now.image.items
        (certificate_of given.now.certificate) result (O.contents out.old) (O.contents out.new) }
    ensures right { (words : List (List ℕ)) → IsSpokenBy words spoken.now → IsSaid result.status
        → (plan : ForeignPlan) → IsAsked words plan
        → (result.status ≡ 0) ↔ IsShown (link_of (files_of given.now.files.items) plan
        given.now.image.items (certificate_of given.now.certificate)) }
    ensures fault { 2 ≤ result.status → result.status ≤ 4
        → TellsFault IsFailed result (E.contents err.old) (E.contents err.new) }
    ensures out_quiet { 2 ≤ result.status → result.status ≤ 4 → out.new ≡ out.old }
    ensures err_quiet { IsSaid result.status → err.new ≡ err.old }
{
    match opinion_of(alloc, spoken, given, seed) {
        Ok(opinion) => tell(out, opinion),
        Err(no_memory) => fail(err, &Fault::from(no_memory)),
    }
}

/// Reads the files and the image that words name, and judges them.
fn answer_spoken<R: Files + AllocGlobal + RandomSource, O: Write, E: Write>(
    rt: &R,
    spoken: &Spoken<'_>,
    certificate: Certificate,
    out: &mut O,
    err: &mut E,
) -> Answer
    requires { IsWhole spoken.now }
    ensures statuses { result.status ≤ 5 }
    ensures said { (words : List (List ℕ)) → IsSpokenBy words spoken.now → IsSaid result.status
        → SaysWith words (certificate_of certificate) result
        (O.contents out.old) (O.contents out.new) }
    ensures fault { 2 ≤ result.status → result.status ≤ 4
        → TellsFault IsFailed result (E.contents err.old) (E.contents err.new) }
    ensures out_quiet { 2 ≤ result.status → result.status ≤ 4 → out.new ≡ out.old }
    ensures err_quiet { IsSaid result.status → err.new ≡ err.old }
{
    match read_given(rt, spoken, certificate) {
        Ok(given) => answer_given(rt.alloc(), spoken, &given, name_seed(rt), out, err),
        Err(failure) => fail(err, &Fault::Failed(failure)),
    }
}

/// Judges the link of words.
fn answer_words<R: Files + AllocGlobal + RandomSource, O: Write, E: Write>(
    rt: &R,
    words: &[String],
    certificate: Certificate,
    out: &mut O,
    err: &mut E,
) -> Answer
    ensures statuses { result.status ≤ 5 }
    ensures said { IsSaid result.status → SaysWith (words_of words.now) (certificate_of certificate)
        result (O.contents out.old) (O.contents out.new) }
    ensures fault { 2 ≤ result.status → result.status ≤ 4
        → TellsFault IsFailed result (E.contents err.old) (E.contents err.new) }
    ensures out_quiet { 2 ≤ result.status → result.status ≤ 4 → out.new ≡ out.old }
    ensures err_quiet { IsSaid result.status → err.new ≡ err.old }
{
    match read_foreign_words(rt.alloc(), words) {
        Ok(Some(spoken)) => answer_spoken(rt, &spoken, certificate, out, err),
        Ok(None) => tell(out, Opinion::OtherWords),
        Err(no_memory) => fail(err, &Fault::from(no_memory)),
    }
}

/// All words but the first.
fn others(words: &[String]) -> &[String]
    ensures { words_of result.now ≡ drop 1 (words_of words.entry.now) }
{
    match words.split_first() {
        Some((_first, others)) => others,
        None => &[],
    }
}

/// Runs `ld-judge` with the words behind the program's name: `--certificate=FILE`, and the words of the linker that made the image,
/// which is the file of their `-o`. It answers the exit status, and a fault of `out` or `err` changes none:
///
/// - 0: the image is a right link of its inputs: `yes` on `out`.
/// - 1: it is none by this certificate: `no` and the first requirement that fails, as `no F5`, on `out`.
/// - 2: the first word names no certificate, or its text is none; a line on `err` says so.
/// - 3: a file can't be read; a line on `err` says which.
/// - 4: memory can't be had; a line on `err` says so.
/// - 5: the link isn't judged: `not judged: ` and why on `out`.
///
/// Beside the status it answers whether the line was printed.
pub fn run<R: Files + AllocGlobal + RandomSource, O: Write, E: Write>(
    rt: &R,
    words: &[String],
    out: &mut O,
    err: &mut E,
) -> Answer
    ensures statuses { result.status ≤ 5 }
    ensures said { IsSaid result.status → SaysSome (drop 1 (words_of words.now)) result
        (O.contents out.old) (O.contents out.new) }
    ensures right { result.status ≡ 0 → HasRightForeign (drop 1 (words_of words.now)) }
    ensures fault { 2 ≤ result.status → result.status ≤ 4
        → TellsFault (IsFaultOf (words_of words.now)) result
        (E.contents err.old) (E.contents err.new) }
    ensures unnamed { certificate_path (words_of words.now) ≡ None → result.status ≡ 2 }
    ensures out_quiet { 2 ≤ result.status → result.status ≤ 4 → out.new ≡ out.old }
    ensures err_quiet { IsSaid result.status → err.new ≡ err.old }
{
    match certificate_of(rt, words) {
        Ok(certificate) => answer_words(rt, others(words), certificate, out, err),
        Err(fault) => fail(err, &fault),
    }
}

/// Runs `ld-judge` with the words that a runtime has behind the program's name, as `run` does. Where they can't be had, the status is
/// 2 or 4, as `given_words` says, which prints the line.
pub fn run_args<R: Env + Files + AllocGlobal + RandomSource, O: Write, E: Write>(
    rt: &R,
    out: &mut O,
    err: &mut E,
) -> Answer
    ensures statuses { result.status ≤ 5 }
    ensures said { IsSaid result.status → (words : List (List ℕ))
        × SaysSome words result (O.contents out.old) (O.contents out.new) }
    ensures out_quiet { 2 ≤ result.status → result.status ≤ 4 → out.new ≡ out.old }
    ensures err_quiet { IsSaid result.status → err.new ≡ err.old }
{
    match given_words(rt, err) {
        Ok(words) => run(rt, &words, out, err),
        Err(status) => Answer {
            status,
            printed: Ok(()),
        },
    }
}
