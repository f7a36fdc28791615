//! Objects that have the line tables of samples, and what is answered of each of their places.
use crate::tests::samples::Sample;
use byteview::View;
use elf_model::{SHF_ALLOC, SHF_EXECINSTR, SHT_PROGBITS};
use elf_read::ObjectFile;
use line_tables::source_line;
use link_samples::objects::{NamedSymbol, Relocation, Section, relocatable};
use std::alloc::Global;
use std::test::Fail;

/// How many offsets of a section are asked for.
const SIZE: u64 = 64;

const TEXT: Section<'static> = Section {
    name: ".text",
    sh_type: SHT_PROGBITS,
    sh_flags: SHF_ALLOC | SHF_EXECINSTR,
    sh_addralign: 1,
    bytes: &[0; 64],
    memory: 0,
    signature: 0,
};

/// The symbol of a section.
const fn symbol_of(st_shndx: u16) -> NamedSymbol<'static> {
    NamedSymbol {
        name: "",
        st_info: 3,
        st_shndx,
        st_value: 0,
        st_size: 0,
    }
}

/// The object of a sample.
pub fn object_of(alloc: Global, sample: &Sample) -> Result<Vec<u8>, Fail> {
    let sections = [
        TEXT,
        Section {
            name: ".text.two",
            ..TEXT
        },
        Section {
            name: ".debug_line",
            sh_flags: 0,
            bytes: sample.lines,
            ..TEXT
        },
        Section {
            name: ".debug_line_str",
            sh_flags: 0,
            bytes: sample.strings,
            ..TEXT
        },
    ];
    let symbols = [symbol_of(1), symbol_of(2), symbol_of(3), symbol_of(4)];
    let mut relocations = Vec::new(alloc);
    for field in sample.fields {
        relocations.push(Relocation(3, field.0, field.1, field.2, field.3))?;
    }
    relocatable(alloc, &sections, &symbols, &relocations)
}

/// The line of a place as `DIRECTORY/FILE:LINE`.
fn line_at(
    alloc: Global,
    object: &ObjectFile<'_>,
    section: usize,
    at: u64,
) -> Result<String, Fail> {
    let Some(found) = source_line(object, section, at) else {
        return Ok(String::from_str(alloc, "none")?);
    };
    let mut text = Vec::new(alloc);
    if let Some(directory) = found.directory {
        text.extend_from_slice(directory)?;
        text.push(b'/')?;
    }
    text.extend_from_slice(found.file)?;
    let number = format!(in alloc; ":{}", found.line)?;
    text.extend_from_slice(number.as_bytes())?;
    Ok(String::from_utf8(text)?)
}

/// From which offset on of sections 1 and 2 of an object the answer is which one.
pub fn answers(alloc: Global, bytes: &[u8]) -> Result<String, Fail> {
    let object = ObjectFile::read(alloc, View::new(bytes))?;
    let mut text = String::new(alloc);
    for section in 1..3 {
        let mut last = String::new(alloc);
        for at in 0..SIZE {
            let line = line_at(alloc, &object, section, at)?;
            if line != last {
                let between = if text.is_empty() { "" } else { "; " };
                text.push_str(format!(in alloc; "{between}{section}+{at} {line}")?.as_str())?;
                last = line;
            }
        }
    }
    Ok(text)
}
