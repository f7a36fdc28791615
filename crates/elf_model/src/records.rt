//! The records of ELF-64, read from bytes and written as bytes (System V gABI 4 and 5).
ghost use Rattle.std.specs.Prelude.{◌≡◌, ◌≤◌, length, SomeIff};
ghost use Rattle.elf_model.specs.Inputs.ObjectFile.{rela_symbol, rela_type};
ghost use Rattle.elf_model.specs.Inputs.Records.{file_header, file_header_bytes, section_header, section_header_bytes, symbol, symbol_bytes, rela, rela_bytes, program_header, program_header_bytes};

use crate::constants::{EHDR_SIZE, PHDR_SIZE, RELA_SIZE, SHDR_SIZE, SYM_SIZE};
use crate::fields::{put_bytes, put_i64, put_u8, put_u16, put_u32, put_u64};
use byteview::View;

/// The file header, 64 bytes (System V gABI 4, "ELF Header"). Fields have the standard's names.
#[derive(Clone, Copy, Debug, PartialEq, Eq)]
pub struct FileHeader {
    pub e_ident: [u8; 16],
    pub e_type: u16,
    pub e_machine: u16,
    pub e_version: u32,
    pub e_entry: u64,
    pub e_phoff: u64,
    pub e_shoff: u64,
    pub e_flags: u32,
    pub e_ehsize: u16,
    pub e_phentsize: u16,
    pub e_phnum: u16,
    pub e_shentsize: u16,
    pub e_shnum: u16,
    pub e_shstrndx: u16,
}

/// An entry of the section header table, 64 bytes (System V gABI 4, "Sections").
#[derive(Clone, Copy, Debug, PartialEq, Eq)]
pub struct SectionHeader {
    pub sh_name: u32,
    pub sh_type: u32,
    pub sh_flags: u64,
    pub sh_addr: u64,
    pub sh_offset: u64,
    pub sh_size: u64,
    pub sh_link: u32,
    pub sh_info: u32,
    pub sh_addralign: u64,
    pub sh_entsize: u64,
}

/// An entry of the symbol table, 24 bytes (System V gABI 4, "Symbol Table").
#[derive(Clone, Copy, Debug, PartialEq, Eq)]
pub struct Symbol {
    pub st_name: u32,
    pub st_info: u8,
    pub st_other: u8,
    pub st_shndx: u16,
    pub st_value: u64,
    pub st_size: u64,
}

/// A relocation entry with an addend, 24 bytes (System V gABI 4, "Relocation").
#[derive(Clone, Copy, Debug, PartialEq, Eq)]
pub struct Rela {
    pub r_offset: u64,
    pub r_info: u64,
    pub r_addend: i64,
}

/// An entry of the program header table, 56 bytes (System V gABI 5, "Program Header").
#[derive(Clone, Copy, Debug, PartialEq, Eq)]
pub struct ProgramHeader {
    pub p_type: u32,
    pub p_flags: u32,
    pub p_offset: u64,
    pub p_vaddr: u64,
    pub p_paddr: u64,
    pub p_filesz: u64,
    pub p_memsz: u64,
    pub p_align: u64,
}

impl FileHeader {
    /// The file header that the first 64 bytes spell; None where there are fewer.
    pub fn read(view: View<'_>) -> Option<FileHeader>
        ensures { SomeIff result (64 ≤ length view.entry) (file_header view.entry) }
    {
        if view.len() < EHDR_SIZE {
            return None;
        }
        let mut e_ident = [0; 16];
        let (ident, _rest) = view.bytes().split_at(16);
        e_ident.copy_from_slice(ident);
        Some(FileHeader {
            e_ident,
            e_type: view.u16_inside(16),
            e_machine: view.u16_inside(18),
            e_version: view.u32_inside(20),
            e_entry: view.u64_inside(24),
            e_phoff: view.u64_inside(32),
            e_shoff: view.u64_inside(40),
            e_flags: view.u32_inside(48),
            e_ehsize: view.u16_inside(52),
            e_phentsize: view.u16_inside(54),
            e_phnum: view.u16_inside(56),
            e_shentsize: view.u16_inside(58),
            e_shnum: view.u16_inside(60),
            e_shstrndx: view.u16_inside(62),
        })
    }

    /// Writes the file header over the whole of `out`, which has its 64 bytes.
    pub fn write_to(&self, out: &mut [u8])
        requires { length out.old ≡ 64 }
        ensures bytes { out.new ≡ file_header_bytes self.now }
        ensures again { file_header out.new ≡ self.now }
    {
        put_bytes(out, 0, &self.e_ident);
        put_u16(out, 16, self.e_type);
        put_u16(out, 18, self.e_machine);
        put_u32(out, 20, self.e_version);
        put_u64(out, 24, self.e_entry);
        put_u64(out, 32, self.e_phoff);
        put_u64(out, 40, self.e_shoff);
        put_u32(out, 48, self.e_flags);
        put_u16(out, 52, self.e_ehsize);
        put_u16(out, 54, self.e_phentsize);
        put_u16(out, 56, self.e_phnum);
        put_u16(out, 58, self.e_shentsize);
        put_u16(out, 60, self.e_shnum);
        put_u16(out, 62, self.e_shstrndx);
    }
}

impl SectionHeader {
    /// The section header that the first 64 bytes spell; None where there are fewer.
    pub fn read(view: View<'_>) -> Option<SectionHeader>
        ensures { SomeIff result (64 ≤ length view.entry) (section_header view.entry) }
    {
        if view.len() < SHDR_SIZE {
            return None;
        }
        Some(SectionHeader {
            sh_name: view.u32_inside(0),
            sh_type: view.u32_inside(4),
            sh_flags: view.u64_inside(8),
            sh_addr: view.u64_inside(16),
            sh_offset: view.u64_inside(24),
            sh_size: view.u64_inside(32),
            sh_link: view.u32_inside(40),
            sh_info: view.u32_inside(44),
            sh_addralign: view.u64_inside(48),
            sh_entsize: view.u64_inside(56),
        })
    }

    /// Writes the section header over the whole of `out`, which has its 64 bytes.
    pub fn write_to(&self, out: &mut [u8])
        requires { length out.old ≡ 64 }
        ensures bytes { out.new ≡ section_header_bytes self.now }
        ensures again { section_header out.new ≡ self.now }
    {
        put_u32(out, 0, self.sh_name);
        put_u32(out, 4, self.sh_type);
        put_u64(out, 8, self.sh_flags);
        put_u64(out, 16, self.sh_addr);
        put_u64(out, 24, self.sh_offset);
        put_u64(out, 32, self.sh_size);
        put_u32(out, 40, self.sh_link);
        put_u32(out, 44, self.sh_info);
        put_u64(out, 48, self.sh_addralign);
        put_u64(out, 56, self.sh_entsize);
    }
}

impl Symbol {
    /// The symbol that the first 24 bytes spell; None where there are fewer.
    pub fn read(view: View<'_>) -> Option<Symbol>
        ensures { SomeIff result (24 ≤ length view.entry) (symbol view.entry) }
    {
        if view.len() < SYM_SIZE {
            return None;
        }
        Some(Symbol {
            st_name: view.u32_inside(0),
            st_info: view.u8_inside(4),
            st_other: view.u8_inside(5),
            st_shndx: view.u16_inside(6),
            st_value: view.u64_inside(8),
            st_size: view.u64_inside(16),
        })
    }

    /// Writes the symbol over the whole of `out`, which has its 24 bytes.
    pub fn write_to(&self, out: &mut [u8])
        requires { length out.old ≡ 24 }
        ensures bytes { out.new ≡ symbol_bytes self.now }
        ensures again { symbol out.new ≡ self.now }
    {
        put_u32(out, 0, self.st_name);
        put_u8(out, 4, self.st_info);
        put_u8(out, 5, self.st_other);
        put_u16(out, 6, self.st_shndx);
        put_u64(out, 8, self.st_value);
        put_u64(out, 16, self.st_size);
    }
}

impl Rela {
    /// The relocation entry that the first 24 bytes spell; None where there are fewer.
    pub fn read(view: View<'_>) -> Option<Rela>
        ensures { SomeIff result (24 ≤ length view.entry) (rela view.entry) }
    {
        if view.len() < RELA_SIZE {
            return None;
        }
        Some(Rela {
            r_offset: view.u64_inside(0),
            r_info: view.u64_inside(8),
            r_addend: view.u64_inside(16).cast_signed(),
        })
    }

    /// Writes the relocation entry over the whole of `out`, which has its 24 bytes.
    pub fn write_to(&self, out: &mut [u8])
        requires { length out.old ≡ 24 }
        ensures bytes { out.new ≡ rela_bytes self.now }
        ensures again { rela out.new ≡ self.now }
    {
        put_u64(out, 0, self.r_offset);
        put_u64(out, 8, self.r_info);
        put_i64(out, 16, self.r_addend);
    }

    /// The number of the symbol that the entry names: the upper half of r_info.
    pub fn symbol(&self) -> u32
        ensures { result ≡ rela_symbol self.now }
    {
        (self.r_info >> 32) as u32
    }

    /// The type of the relocation: the lower half of r_info.
    pub fn kind(&self) -> u32
        ensures { result ≡ rela_type self.now }
    {
        (self.r_info & 0xffff_ffff) as u32
    }
}

impl ProgramHeader {
    /// The program header that the first 56 bytes spell; None where there are fewer.
    pub fn read(view: View<'_>) -> Option<ProgramHeader>
        ensures { SomeIff result (56 ≤ length view.entry) (program_header view.entry) }
    {
        if view.len() < PHDR_SIZE {
            return None;
        }
        Some(ProgramHeader {
            p_type: view.u32_inside(0),
            p_flags: view.u32_inside(4),
            p_offset: view.u64_inside(8),
            p_vaddr: view.u64_inside(16),
            p_paddr: view.u64_inside(24),
            p_filesz: view.u64_inside(32),
            p_memsz: view.u64_inside(40),
            p_align: view.u64_inside(48),
        })
    }

    /// Writes the program header over the whole of `out`, which has its 56 bytes.
    pub fn write_to(&self, out: &mut [u8])
        requires { length out.old ≡ 56 }
        ensures bytes { out.new ≡ program_header_bytes self.now }
        ensures again { program_header out.new ≡ self.now }
    {
        put_u32(out, 0, self.p_type);
        put_u32(out, 4, self.p_flags);
        put_u64(out, 8, self.p_offset);
        put_u64(out, 16, self.p_vaddr);
        put_u64(out, 24, self.p_paddr);
        put_u64(out, 32, self.p_filesz);
        put_u64(out, 40, self.p_memsz);
        put_u64(out, 48, self.p_align);
    }
}
