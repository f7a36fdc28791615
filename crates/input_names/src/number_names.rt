//! The names that numbers in objects have: types and flags of sections (System V gABI 4, "Sections"; AMD64 psABI 4.2; GNU's
//! SHF_GNU_RETAIN), and types of relocations (AMD64 psABI 4.4.1, "Relocation Types").
//!
//! In each table the names stand in the order of their numbers, eight in a row, with `-` for a number that has none.
use std::fmt;

/// Types of sections, by what their names have behind `SHT_`.
static SECTION_TYPES: [&str; 3] = [
    "NULL PROGBITS SYMTAB STRTAB RELA HASH DYNAMIC NOTE",
    "NOBITS REL SHLIB DYNSYM - - INIT_ARRAY FINI_ARRAY",
    "PREINIT_ARRAY GROUP SYMTAB_SHNDX",
];

/// Flags of sections, by what their names have behind `SHF_`; the numbers are those of their bits.
static SECTION_FLAGS: [&str; 4] = [
    "WRITE ALLOC EXECINSTR - MERGE STRINGS INFO_LINK LINK_ORDER",
    "OS_NONCONFORMING GROUP TLS COMPRESSED - - - -",
    "- - - - - GNU_RETAIN - -",
    "- - - - X86_64_LARGE - - EXCLUDE",
];

/// Types of relocations, by what their names have behind `R_X86_64_`.
static RELOCATION_TYPES: [&str; 6] = [
    "NONE 64 PC32 GOT32 PLT32 COPY GLOB_DAT JUMP_SLOT",
    "RELATIVE GOTPCREL 32 32S 16 PC16 8 PC8",
    "DTPMOD64 DTPOFF64 TPOFF64 TLSGD TLSLD DTPOFF32 GOTTPOFF TPOFF32",
    "PC64 GOTOFF64 GOTPC32 GOT64 GOTPCREL64 GOTPC64 GOTPLT64 PLTOFF64",
    "SIZE32 SIZE64 GOTPC32_TLSDESC TLSDESC_CALL TLSDESC IRELATIVE RELATIVE64 PC32_BND",
    "PLT32_BND GOTPCRELX REX_GOTPCRELX",
];

/// The name of a number in a table.
fn name_in(table: &[&'static str], number: u32) -> Option<&'static str> {
    let row = table.get(number as usize / 8)?;
    let name = row.split(' ').nth(number as usize % 8)?;
    if name == "-" { None } else { Some(name) }
}

/// A type of sections, by its name; by its number where none of these has it.
#[derive(Clone, Copy)]
pub struct SectionType(pub u32);

impl fmt::Display for SectionType {
    fn fmt<W: fmt::Write>(&self, f: &mut fmt::Formatter<W>) -> fmt::Result {
        match self.0 {
            0x6fff_4c0b => f.write_str("type LLVM_BB_ADDR_MAP"),
            0x7000_0001 => f.write_str("type X86_64_UNWIND"),
            number => match name_in(&SECTION_TYPES, number) {
                Some(name) => write!(f, "type {name}"),
                None => write!(f, "type {number:#x}"),
            },
        }
    }
}

/// A section's flags, by their names, and the number of those that have none here.
#[derive(Clone, Copy)]
pub struct SectionFlags(pub u64);

impl fmt::Display for SectionFlags {
    fn fmt<W: fmt::Write>(&self, f: &mut fmt::Formatter<W>) -> fmt::Result {
        f.write_str("flags")?;
        let mut rest = self.0;
        for bit in 0..32 {
            let flag = 1 << bit;
            if let Some(name) = name_in(&SECTION_FLAGS, bit)
                && rest & flag != 0
            {
                write!(f, " {name}")?;
                rest &= !flag;
            }
        }
        if rest == 0 && self.0 != 0 {
            return Ok(());
        }
        write!(f, " {rest:#x}")
    }
}

/// A type of relocations, by its name; by its number where the psABI has none.
#[derive(Clone, Copy)]
pub struct RelocationType(pub u32);

impl fmt::Display for RelocationType {
    fn fmt<W: fmt::Write>(&self, f: &mut fmt::Formatter<W>) -> fmt::Result {
        match name_in(&RELOCATION_TYPES, self.0) {
            Some(name) => write!(f, "R_X86_64_{name}"),
            None => write!(f, "type {}", self.0),
        }
    }
}
