//! What is read for a judgement: the certificate that the first word names, and the files and the image that the others name.
ghost use Rattle.std.specs.Prelude.{◌≡◌, ◌≢◌, ◌≤◌, IfErr, IfOk, None, OnOk, option_copied};
ghost use Rattle.elf_model.specs.Inputs.Command.{after};
ghost use Rattle.elf_model.specs.Inputs.Files.{words_of};
ghost use Rattle.foreign_words.specs.Spoken.{IsWhole};
ghost use Rattle.ld_main.specs.Program.{failure_status};
ghost use Rattle.judge_main.specs.Faults.{IsFaultAt, IsFaultOf, certificate_path, certificate_word, fault_status};

use crate::certificate::read_certificate;
use crate::fault::{CERTIFICATE, Fault};
use elf_model::{InputFile, MapFault};
use foreign_words::Spoken;
use judge_model::Certificate;
use ld_main::{Failure, read_file, read_files};
use std::alloc::AllocError;
use std::rt::Files;

/// What was read for a judgement.
#[derive(Debug, Drop)]
pub struct Given {
    pub certificate: Certificate,
    pub files: Vec<InputFile>,
    pub image: Vec<u8>,
}

/// The path of the certificate that a word names; None where it names none.
fn path_in(word: &str) -> Option<&str>
    ensures { option_copied result ≡ after certificate_word word.entry.now }
{
    word.strip_prefix(CERTIFICATE)
}

/// The path of the certificate that the first word names; None where it names none.
fn certificate_path(words: &[String]) -> Option<&str>
    ensures { option_copied result ≡ certificate_path (words_of words.entry.now) }
{
    match words.split_first() {
        Some((first, _others)) => path_in(first),
        None => None,
    }
}

/// The certificate in a file.
fn certificate_in<'a, R: Files + AllocGlobal>(
    rt: &R,
    path: &'a str,
) -> Result<Certificate, Fault<'a>>
    ensures statuses { IfErr result (λ f. (2 ≤ fault_status f) × (fault_status f ≤ 4)) }
    ensures fault { IfErr result (IsFaultAt path.entry.now) }
{
    let text = match read_file(rt, path) {
        Ok(text) => text,
        Err(failure) => return Err(Fault::Failed(failure)),
    };
    match read_certificate(rt.alloc(), &text) {
        Ok(certificate) => Ok(certificate),
        Err(MapFault::Memory) => Err(Fault::from(AllocError)),
        Err(MapFault::Line(line)) => Err(Fault::BadCertificate(path, line)),
    }
}

/// The certificate that the first of words names.
pub fn certificate_of<'a, R: Files + AllocGlobal>(
    rt: &R,
    words: &'a [String],
) -> Result<Certificate, Fault<'a>>
    ensures statuses { IfErr result (λ f. (2 ≤ fault_status f) × (fault_status f ≤ 4)) }
    ensures named { OnOk result (certificate_path (words_of words.entry.now) ≢ None) }
    ensures fault { IfErr result (IsFaultOf (words_of words.entry.now)) }
{
    match certificate_path(words) {
        Some(path) => certificate_in(rt, path),
        None => Err(Fault::NoCertificate),
    }
}

/// Reads the files and the image that words name, beside a certificate.
pub fn read_given<'s, R: Files + AllocGlobal>(
    rt: &R,
    spoken: &'s Spoken<'_>,
    certificate: Certificate,
) -> Result<Given, Failure<'s>>
    requires { IsWhole spoken.now }
    ensures certificate { IfOk result (λ g. g.certificate ≡ certificate) }
    ensures fault { IfErr result (λ f. 3 ≤ failure_status f) }
{
    let plan = spoken.plan(rt.alloc())?;
    let files = read_files(rt, &plan)?;
    let image = read_file(rt, plan.output)?;
    Ok(Given {
        certificate,
        files,
        image,
    })
}
