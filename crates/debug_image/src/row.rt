//! A symbol of an image, whose name has no offset yet.

use elf_model::Symbol;

/// A symbol: its name, and its entry but for st_name.
#[derive(Clone, Copy, Debug)]
pub struct Row<'a> {
    pub name: &'a [u8],
    pub entry: Symbol,
}
