//! What `ld-judge` says of a link, its exit status, and what is printed of it.
ghost use Rattle.std.specs.Prelude.{◌≡◌, ◌≤◌, OnOk};
ghost use Rattle.std.specs.Io.KnownBytes.{Appends};
ghost use Rattle.judge_main.specs.Opinions.{opinion_status, opinion_text, subject};

use judge_model::Requirement;
use link_judge::{Judgement, Place, Reason};
use std::io;
use std::io::Write;

/// What is said of a link.
#[derive(Clone, Copy, Debug)]
pub enum Opinion {
    /// The image is a right link of the files.
    Right,
    /// It is none by the certificate: the first requirement that fails.
    Wrong(Requirement),
    /// It is none by the certificate: the first place where the first requirement that fails does.
    WrongAt(Place),
    /// The words are none that are judged.
    OtherWords,
    /// The link isn't judged.
    Unjudged(Reason),
}

impl From<Judgement> for Opinion {
    ghost use Rattle.judge_main.specs.Opinions.{opinion_of};

    ghost from_gives = { λ judgement opinion. opinion ≡ opinion_of judgement };

    fn from(judgement: Judgement) -> Opinion {
        match judgement {
            Judgement::Yes => Opinion::Right,
            Judgement::No(requirement) => Opinion::Wrong(requirement),
            Judgement::NoAt(place) => Opinion::WrongAt(place),
            Judgement::NotJudged(reason) => Opinion::Unjudged(reason),
        }
    }
}

/// What isn't judged of a link.
fn subject(reason: Reason) -> &'static str
    ensures { result.now ≡ subject reason }
{
    match reason {
        Reason::Unreadable => "an input that can't be read",
        Reason::Objects => "objects that leave open what is right",
        Reason::Arrays => "an array of functions that may have gaps",
        Reason::Edited => "strings that the linker edited",
        Reason::Records => "call frames that can't be judged",
        Reason::Joined => "a line for a property note",
        Reason::Mixed => "sections of one name that are of several runs",
        Reason::Fields => "fields that overlap or leave their section",
        Reason::Frames => "a table of frames that the linker made",
        Reason::Code => "code for thread-local storage that the linker may have rewritten",
    }
}

impl Opinion {
    /// 0 for a right link, 1 for one that is none, 5 for one that isn't judged.
    pub fn status(self) -> u8
        ensures { result ≡ opinion_status self }
    {
        match self {
            Opinion::Right => 0,
            Opinion::Wrong(_) | Opinion::WrongAt(_) => 1,
            Opinion::OtherWords | Opinion::Unjudged(_) => 5,
        }
    }

    /// Prints the lines of what is said: of a place the requirement, and then where it is, by the numbers that objects have in the
    /// certificate and sections in their object.
    pub fn print<W: Write>(self, out: &mut W) -> io::Result<()>
        ensures { OnOk result (Appends (W.contents out.old) (W.contents out.new)
            (opinion_text self)) }
    {
        match self {
            Opinion::Right => writeln!(out, "yes"),
            Opinion::Wrong(requirement) => writeln!(out, "no F{}", requirement as u8),
            Opinion::WrongAt(Place::Field(w)) => writeln!(
                out,
                "no F5\n  object {}, section {}, offset {}: the field of a relocation of type {}",
                w.object, w.section, w.offset, w.kind
            ),
            Opinion::WrongAt(Place::Rest(w)) => writeln!(
                out,
                "no F7\n  object {}, section {}: bytes beside the fields of relocations",
                w.object, w.section
            ),
            Opinion::OtherWords => writeln!(out, "not judged: words that aren't known"),
            Opinion::Unjudged(reason) => writeln!(out, "not judged: {}", subject(reason)),
        }
    }
}
