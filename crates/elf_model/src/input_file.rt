//! A file as the program read it.

/// A file as the program read it: its name as the command spells it, and all its bytes.
#[derive(Debug, Drop)]
pub struct InputFile {
    pub name: String,
    pub bytes: Vec<u8>,
}
