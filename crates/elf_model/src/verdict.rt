//! What a check answers: yes, or the clause that fails.

/// A clause of a right link (docs/DEFINITIONS.md).
#[derive(Clone, Copy, Debug, PartialEq, Eq)]
pub enum Clause {
    C1 = 1,
    C2,
    C3,
    C4,
    C5,
    C6,
    C7,
    C8,
    C9,
    C10,
    C11,
    C12,
    C13,
    C14,
}

/// What a check answers: a right link, or the least clause that fails.
#[derive(Clone, Copy, Debug, PartialEq, Eq)]
pub enum Verdict {
    Yes,
    No(Clause),
}
