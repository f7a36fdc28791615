//! The sections and the symbols of an image, as a reader finds them (System V gABI 4, "Sections", "Symbol Table").
use byteview::View;
use elf_model::{FileHeader, SYM_SIZE, SectionHeader, Symbol};
use std::test::Fail;

/// The header of a section, by its number.
fn section(file: &View<'_>, header: &FileHeader, number: u16) -> Result<SectionHeader, Fail> {
    let at = header.e_shoff.wrapping_add(64 * (number as u64));
    let entry = file.sub(at as usize, 64).ok_or("a section header")?;
    Ok(SectionHeader::read(entry).ok_or("64 bytes")?)
}

/// The bytes of a section.
fn contents<'i>(file: &View<'i>, header: &SectionHeader) -> Result<View<'i>, Fail> {
    Ok(
        file.sub(header.sh_offset as usize, header.sh_size as usize)
            .ok_or("a section's bytes")?,
    )
}

/// Whether a name with its NUL stands at an offset of a table of strings.
fn is_named(strings: &View<'_>, at: usize, name: &str) -> bool {
    let Some(there) = strings.sub(at, name.len()) else {
        return false;
    };
    there.bytes() == name.as_bytes() && strings.bytes().get(at.wrapping_add(name.len())) == Some(&0)
}

/// The header of the first section of a name.
fn found(file: &View<'_>, name: &str) -> Result<Option<SectionHeader>, Fail> {
    let header = FileHeader::read(file.sub(0, 64).ok_or("a file header")?).ok_or("64 bytes")?;
    let strings = contents(file, &section(file, &header, header.e_shstrndx)?)?;
    for number in 1..header.e_shnum {
        let there = section(file, &header, number)?;
        if is_named(&strings, there.sh_name as usize, name) {
            return Ok(Some(there));
        }
    }
    Ok(None)
}

/// Whether there is a section of a name.
pub fn has_section(image: &[u8], name: &str) -> Result<bool, Fail> {
    Ok(found(&View::new(image), name)?.is_some())
}

/// The section of a name.
pub fn find(image: &[u8], name: &str) -> Result<SectionHeader, Fail> {
    Ok(found(&View::new(image), name)?.ok_or("a section")?)
}

/// Its bytes.
pub fn bytes_of<'i>(image: &'i [u8], name: &str) -> Result<&'i [u8], Fail> {
    Ok(contents(&View::new(image), &find(image, name)?)?.bytes())
}

/// How many section headers there are.
pub fn section_count(image: &[u8]) -> Result<u16, Fail> {
    let file = View::new(image);
    let header = FileHeader::read(file.sub(0, 64).ok_or("a file header")?).ok_or("64 bytes")?;
    Ok(header.e_shnum)
}

/// The entry of a symbol, by its number, where its name is another one as None.
pub fn symbol_named(image: &[u8], number: usize, name: &str) -> Result<Option<Symbol>, Fail> {
    let table = View::new(bytes_of(image, ".symtab")?);
    let entry = table
        .sub(SYM_SIZE.wrapping_mul(number), SYM_SIZE)
        .ok_or("a symbol")?;
    let symbol = Symbol::read(entry).ok_or("24 bytes")?;
    let names = View::new(bytes_of(image, ".strtab")?);
    if is_named(&names, symbol.st_name as usize, name) {
        return Ok(Some(symbol));
    }
    Ok(None)
}

/// Where the bytes of a section are in a file, by its number.
pub fn offset_of(file: &[u8], number: u16) -> Result<u64, Fail> {
    let file = View::new(file);
    let header = FileHeader::read(file.sub(0, 64).ok_or("a file header")?).ok_or("64 bytes")?;
    Ok(section(&file, &header, number)?.sh_offset)
}
