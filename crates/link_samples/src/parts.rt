//! Sections, symbols and relocations that many objects here have, to be varied.
use crate::objects::{NamedSymbol, Section};
use elf_model::{
    SHF_ALLOC, SHF_EXECINSTR, SHF_TLS, SHF_WRITE, SHN_ABS, SHN_COMMON, SHT_GROUP, SHT_NOBITS,
    SHT_PROGBITS,
};

pub const R_64: u32 = 1;

pub const R_PC32: u32 = 2;

pub const R_PLT32: u32 = 4;

/// A `.text` of nine bytes: exit(0) by a system call.
pub const TEXT: Section<'static> = Section {
    name: ".text",
    sh_type: SHT_PROGBITS,
    sh_flags: SHF_ALLOC | SHF_EXECINSTR,
    sh_addralign: 1,
    bytes: &[0xb8, 0x3c, 0, 0, 0, 0x31, 0xff, 0x0f, 0x05],
    memory: 0,
    signature: 0,
};

/// `mov v@GOTPCREL(%rip), %rax`, with a field at 3, and the nine bytes of the plain text.
pub const LOADER: Section<'static> = Section {
    bytes: &[
        0x48, 0x8b, 0x05, 0, 0, 0, 0, 0xb8, 0x3c, 0, 0, 0, 0x31, 0xff, 0x0f, 0x05,
    ],
    ..TEXT
};

/// A `.data` of eight zeros.
pub const DATA: Section<'static> = Section {
    name: ".data",
    sh_flags: SHF_ALLOC | SHF_WRITE,
    sh_addralign: 8,
    bytes: &[0; 8],
    ..TEXT
};

/// A `.rodata` of eight zeros.
pub const RODATA: Section<'static> = Section {
    name: ".rodata",
    sh_flags: SHF_ALLOC,
    ..DATA
};

/// A `.bss` of eight bytes.
pub const BSS: Section<'static> = Section {
    name: ".bss",
    sh_type: SHT_NOBITS,
    bytes: &[],
    memory: 8,
    ..DATA
};

/// A section that takes up no memory.
pub const NOTES: Section<'static> = Section {
    name: ".notes",
    sh_flags: 0,
    ..DATA
};

/// Two sections of one name that are of several output sections.
pub const FOO: Section<'static> = Section {
    name: "foo",
    ..DATA
};

pub const ZEROS_FOO: Section<'static> = Section { name: "foo", ..BSS };

/// `.tdata` of four bytes.
pub const THREAD_DATA: Section<'static> = Section {
    name: ".tdata",
    sh_flags: SHF_ALLOC | SHF_WRITE | SHF_TLS,
    sh_addralign: 4,
    bytes: &[1, 2, 3, 4],
    ..TEXT
};

/// `.tbss` of four bytes, aligned to 8.
pub const THREAD_ZEROS: Section<'static> = Section {
    name: ".tbss",
    sh_flags: SHF_ALLOC | SHF_WRITE | SHF_TLS,
    memory: 4,
    ..BSS
};

/// A COMDAT group whose signature is symbol 2, and whose one member has the number 2.
pub const GROUP: Section<'static> = Section {
    name: ".group",
    sh_type: SHT_GROUP,
    sh_flags: 0,
    sh_addralign: 4,
    bytes: &[1, 0, 0, 0, 2, 0, 0, 0],
    signature: 2,
    ..TEXT
};

/// A global function at the beginning of section 1.
pub const START: NamedSymbol<'static> = NamedSymbol {
    name: "_start",
    st_info: 0x12,
    st_shndx: 1,
    st_value: 0,
    st_size: 9,
};

pub const F: NamedSymbol<'static> = NamedSymbol { name: "f", ..START };

/// A global `f` that an object doesn't define.
pub const NO_F: NamedSymbol<'static> = NamedSymbol {
    st_info: 0x10,
    st_shndx: 0,
    st_size: 0,
    ..F
};

/// A weak one.
pub const WEAK_NO_F: NamedSymbol<'static> = NamedSymbol {
    st_info: 0x20,
    ..NO_F
};

/// `f` as an absolute symbol past 32 bits.
pub const ABSOLUTE_F: NamedSymbol<'static> = NamedSymbol {
    st_shndx: SHN_ABS,
    st_value: 0x1_0000_0000,
    ..NO_F
};

/// A global datum of eight bytes at the beginning of section 2.
pub const V: NamedSymbol<'static> = NamedSymbol {
    name: "v",
    st_info: 0x11,
    st_shndx: 2,
    st_size: 8,
    ..START
};

/// The linker's name for where output section `foo` ends.
pub const STOP_FOO: NamedSymbol<'static> = NamedSymbol {
    name: "__stop_foo",
    ..NO_F
};

/// A LOCAL symbol at the beginning of section 2.
pub const LOCAL: NamedSymbol<'static> = NamedSymbol {
    name: "l",
    st_info: 0,
    st_shndx: 2,
    ..NO_F
};

/// A common `c` of eight bytes, aligned to 8.
pub const COMMON: NamedSymbol<'static> = NamedSymbol {
    name: "c",
    st_info: 0x11,
    st_shndx: SHN_COMMON,
    st_value: 8,
    st_size: 8,
};

/// The symbol of section 2.
pub const SECTION_2: NamedSymbol<'static> = NamedSymbol {
    name: "",
    st_info: 3,
    st_shndx: 2,
    ..NO_F
};
