//! What a word says, with its value.
ghost use Rattle.std.specs.Prelude.{◌≡◌};

/// An output section that is to begin at an address.
#[derive(Clone, Copy, Debug)]
pub struct Start<'w> {
    pub name: &'w str,
    pub address: u64,
}

/// What a word says that stands alone: that a group or whole archives begin or end, that the image has no names, that sections
/// are collected or not, that call frames get a table or not, that the first of two definitions counts, that code may be written or
/// the stack executed, bits of the property note, that LOCAL names are missing, or nothing that is judged.
#[derive(Clone, Copy, Debug)]
pub enum Switch {
    GroupStart,
    GroupEnd,
    WholeStart,
    WholeEnd,
    Strip,
    Collects(bool),
    Tables(bool),
    TakesFirst,
    WritesCode,
    ExecutesStack(bool),
    Feature(u64),
    StripsLocal,
    Nothing,
}

/// What a word says: a switch; the path of the image, the entry's name, an undefined name, a directory, the name of a library, the
/// path of a file; where the first segment begins, or an output section.
#[derive(Clone, Copy, Debug)]
pub enum Says<'w> {
    Switch(Switch),
    Output(&'w str),
    Entry(&'w str),
    Undefined(&'w str),
    Directory(&'w str),
    Library(&'w str),
    Path(&'w str),
    Segment(u64),
    Begins(Start<'w>),
}
