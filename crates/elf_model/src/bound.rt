//! What the linker's own names stand for (docs/PROFILE.md).

/// Where the image begins; the end of code, of data in the file, and of all; the beginning of what has no bytes in
/// the file; the GOT; and the beginning and the end of the sections of the output name of which the linker's name
/// speaks.
#[derive(Clone, Copy, Debug, PartialEq)]
pub enum Bound {
    ImageStart,
    CodeEnd,
    DataEnd,
    ZeroStart,
    ImageEnd,
    GotStart,
    OutputStart,
    OutputEnd,
}
