//! What is claimed of an image: that it is a right link of files by words, as a certificate shows.

use command::Plan;
use elf_model::InputFile;
use foreign_words::Wider;
use judge_model::Certificate;
use std::marker::Model;

/// A link that is judged: the profile's part of what its words ask for, and the rest; the files that were read; the image; and
/// where the certificate says that its parts are. There is no script.
#[derive(Drop)]
pub struct Claim<'a> {
    pub plan: Plan<'a>,
    pub wider: &'a Wider<'a>,
    pub files: &'a [InputFile],
    pub image: &'a [u8],
    pub certificate: &'a Certificate,
}

impl<'a> Model for Claim<'a> {
    ghost use Rattle.elf_model.specs.Inputs.Files.{files_of};
    ghost use Rattle.judge_model.specs.Certificates.{certificate_of};
    ghost use Rattle.judge_model.specs.Links.{ForeignLink};
    ghost use Rattle.foreign_words.specs.Wider.{plan_with};

    ghost Value = { ForeignLink };

    ghost view = { λ c. record {
      plan = plan_with c.plan c.wider.now;
      files = files_of c.files.now;
      image = c.image.now;
      certificate = certificate_of c.certificate.now;
    } };
}
