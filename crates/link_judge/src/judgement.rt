//! What a judge answers: yes, or the first requirement that isn't met; or why a link isn't judged.

use judge_model::Requirement;
use link_fields::{WrongField, WrongRest};

/// Why a link isn't judged.
#[derive(Clone, Copy, Debug, PartialEq, Eq)]
pub enum Reason {
    /// A file is missing, or an archive or an object can't be read.
    Unreadable,
    /// Objects for link-time optimization, two strong definitions of a name, or a common symbol that isn't sound.
    Objects,
    /// An array of functions of which a section isn't aligned to 8, or has no whole entries.
    Arrays,
    /// Strings or constants that its linker edited.
    Edited,
    /// Call frames that can't be read, or of which some have lines of places and others have none.
    Records,
    /// A line for a property note, which linkers join.
    Joined,
    /// A name for where an output name begins or ends, whose sections are of several runs.
    Mixed,
    /// Fields that overlap or leave their section, or a symbol inside an instruction that linkers may rewrite.
    Fields,
    /// A table of call frames that have lines of places.
    Frames,
    /// Fields or bytes aren't right, but its linker may have rewritten code for thread-local storage.
    Code,
}

/// What isn't right of a link, and where.
#[derive(Clone, Copy, Debug, PartialEq, Eq)]
pub enum Place {
    /// F5: a field doesn't hold what its relocation asks for.
    Field(WrongField),
    /// F7: a section hasn't the input's bytes beside its fields.
    Rest(WrongRest),
}

/// What a judge answers.
#[derive(Clone, Copy, Debug, PartialEq, Eq)]
pub enum Judgement {
    /// The image is a right link.
    Yes,
    /// It is none by its certificate: the requirement that isn't met.
    No(Requirement),
    /// It is none by its certificate: the first place where the requirement that isn't met fails.
    NoAt(Place),
    /// It isn't judged.
    NotJudged(Reason),
}
