//! Parts of objects that are made while a test runs, where a table has none of them.
use crate::objects::{NamedSymbol, Relocation, Section};
pub use crate::parts::R_64;
use crate::parts::{NO_F, TEXT};
use elf_model::{InputFile, SHF_ALLOC};
use std::alloc::Global;
use std::test::Fail;

/// A section with bytes in the file.
pub fn section<'a>(
    name: &'a str,
    sh_flags: u64,
    sh_addralign: u64,
    bytes: &'a [u8],
) -> Section<'a> {
    Section {
        name,
        sh_flags: SHF_ALLOC | sh_flags,
        sh_addralign,
        bytes,
        ..TEXT
    }
}

/// A global symbol that an object doesn't define.
pub fn undefined<'a>(name: &'a str) -> NamedSymbol<'a> {
    NamedSymbol { name, ..NO_F }
}

/// A relocation of the first section.
pub fn in_text(offset: u64, kind: u32, symbol: u32, addend: i64) -> Relocation {
    Relocation(1, offset, kind, symbol, addend)
}

/// Puts a file at the end of a list.
pub fn add_file(files: &mut Vec<InputFile>, name: &str, bytes: &[u8]) -> Result<(), Fail> {
    let alloc: Global = *files.allocator();
    files.push(InputFile {
        name: String::from_str(alloc, name)?,
        bytes: Vec::from_slice(alloc, bytes)?,
    })?;
    Ok(())
}
