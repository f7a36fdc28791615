//! What a judge answers: yes, or the requirement that isn't met.

/// What a right link of another linker has to meet (docs/DEFINITIONS.md).
#[derive(Clone, Copy, Debug, PartialEq, Eq)]
pub enum Requirement {
    F1 = 1,
    F2,
    F3,
    F4,
    F5,
    F6,
    F7,
    F8,
    F9,
    F10,
    F11,
    F12,
    F13,
}

/// What a judge answers: a right link, or the first requirement that isn't met; or that the words or the inputs are of
/// a kind that it doesn't judge.
#[derive(Clone, Copy, Debug, PartialEq, Eq)]
pub enum Judgement {
    Yes,
    No(Requirement),
    NotJudged,
}
