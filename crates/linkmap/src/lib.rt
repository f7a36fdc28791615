//! The text of a link map, version 1 or 2 (docs/MAP.md): `print` spells a map, and `read` accepts exactly
//! what `print` spells; `read_borrowed` reads it in place.
#![tactic(auto)]

mod borrowed;
mod digits;
mod fields;
mod followers;
mod keys;
mod line;
mod names;
mod owned;
mod plain_run;
mod printer;
mod reader;
mod symbol_lines;

pub use borrowed::{
    BorrowedCommon, BorrowedMap, BorrowedObject, BorrowedPlace, BorrowedSlot, BorrowedSymbol,
    BorrowedTarget,
};
pub use elf_model::{LinkMap, MapFault};
pub use keys::ordered;
pub use line::Line;
pub use names::escape;
pub use printer::{print, put_line};
pub use reader::{read, read_borrowed};
pub use symbol_lines::{SymbolLines, SymbolWalk};
