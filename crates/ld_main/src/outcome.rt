//! What a run comes to, its exit status, and what is printed of it.
ghost use Rattle.std.specs.Prelude.{◌≡◌, ◌≤◌, OnOk, false};
ghost use Rattle.std.specs.Io.KnownBytes.{Appends};
ghost use Rattle.ld_main.specs.Program.{is_checked, outcome_status, outcome_text};

use elf_model::Clause;
use std::io;
use std::io::Write;

/// What a run comes to.
#[derive(Clone, Copy, Debug)]
pub enum Outcome {
    /// The image is written, and the map where the words name one.
    Linked,
    /// The image and the map are a right link.
    Right,
    /// They are none; the least clause that fails.
    Wrong(Clause),
}

impl Outcome {
    /// 0 for a link and for a right one, 1 for an image or a map that is wrong.
    pub fn status(self) -> u8
        ensures exact { result ≡ outcome_status self }
        ensures least { result ≤ 1 }
    {
        match self {
            Outcome::Linked | Outcome::Right => 0,
            Outcome::Wrong(_) => 1,
        }
    }

    /// Prints the verdict of a check; a link prints nothing.
    pub fn print<W: Write>(self, out: &mut W) -> io::Result<()>
        ensures text { OnOk result (Appends (W.contents out.old) (W.contents out.new)
            (outcome_text self)) }
        ensures quiet { is_checked self ≡ false → out.new ≡ out.old }
    {
        match self {
            Outcome::Linked => Ok(()),
            Outcome::Right => writeln!(out, "yes"),
            Outcome::Wrong(clause) => writeln!(out, "no C{}", clause as u8),
        }
    }
}
