//! The numbers of the format, under the standard's names (System V gABI 4 and 5; AMD64 psABI 4 for
//! EM_X86_64 and SHT_X86_64_UNWIND). Sizes are in bytes.

/// The size of a file header, of an entry of the section header table, of a symbol, of a relocation
/// entry with an addend, and of an entry of the program header table.
pub const EHDR_SIZE: usize = 64;

pub const SHDR_SIZE: usize = 64;

pub const SYM_SIZE: usize = 24;

pub const RELA_SIZE: usize = 24;

pub const PHDR_SIZE: usize = 56;

/// The length of e_ident, and what this profile asks of its bytes 4 to 6.
pub const EI_NIDENT: usize = 16;

pub const ELFCLASS64: u8 = 2;

pub const ELFDATA2LSB: u8 = 1;

pub const EV_CURRENT: u8 = 1;

/// Kinds of files, and the machine.
pub const ET_REL: u16 = 1;

pub const ET_EXEC: u16 = 2;

pub const EM_X86_64: u16 = 62;

/// Section types.
pub const SHT_NULL: u32 = 0;

pub const SHT_PROGBITS: u32 = 1;

pub const SHT_SYMTAB: u32 = 2;

pub const SHT_STRTAB: u32 = 3;

pub const SHT_RELA: u32 = 4;

pub const SHT_NOTE: u32 = 7;

pub const SHT_NOBITS: u32 = 8;

pub const SHT_REL: u32 = 9;

pub const SHT_INIT_ARRAY: u32 = 14;

pub const SHT_FINI_ARRAY: u32 = 15;

pub const SHT_PREINIT_ARRAY: u32 = 16;

pub const SHT_GROUP: u32 = 17;

pub const SHT_SYMTAB_SHNDX: u32 = 18;

pub const SHT_X86_64_UNWIND: u32 = 0x7000_0001;

/// Section flags.
pub const SHF_WRITE: u64 = 1;

pub const SHF_ALLOC: u64 = 2;

pub const SHF_EXECINSTR: u64 = 4;

pub const SHF_MERGE: u64 = 0x10;

pub const SHF_STRINGS: u64 = 0x20;

pub const SHF_INFO_LINK: u64 = 0x40;

pub const SHF_LINK_ORDER: u64 = 0x80;

pub const SHF_OS_NONCONFORMING: u64 = 0x100;

pub const SHF_GROUP: u64 = 0x200;

pub const SHF_TLS: u64 = 0x400;

pub const SHF_COMPRESSED: u64 = 0x800;

/// Section numbers with a meaning of their own; those from SHN_LORESERVE on name no section.
pub const SHN_UNDEF: u16 = 0;

pub const SHN_LORESERVE: u16 = 0xff00;

pub const SHN_ABS: u16 = 0xfff1;

pub const SHN_COMMON: u16 = 0xfff2;

pub const SHN_XINDEX: u16 = 0xffff;

/// Bindings of symbols.
pub const STB_LOCAL: u8 = 0;

pub const STB_GLOBAL: u8 = 1;

pub const STB_WEAK: u8 = 2;

/// Types of symbols.
pub const STT_NOTYPE: u8 = 0;

pub const STT_OBJECT: u8 = 1;

pub const STT_FUNC: u8 = 2;

pub const STT_SECTION: u8 = 3;

pub const STT_FILE: u8 = 4;

pub const STT_COMMON: u8 = 5;

pub const STT_TLS: u8 = 6;

pub const STT_GNU_IFUNC: u8 = 10;

/// The flag of a section group of which one copy is kept.
pub const GRP_COMDAT: u32 = 1;

/// Kinds of segments, and their rights.
pub const PT_LOAD: u32 = 1;

pub const PT_TLS: u32 = 7;

pub const PT_GNU_STACK: u32 = 0x6474_e551;

pub const PF_X: u32 = 1;

pub const PF_W: u32 = 2;

pub const PF_R: u32 = 4;

/// Types of relocations (AMD64 psABI 4.4, "Relocation Types").
pub const R_X86_64_NONE: u32 = 0;

pub const R_X86_64_64: u32 = 1;

pub const R_X86_64_PC32: u32 = 2;

pub const R_X86_64_GOT32: u32 = 3;

pub const R_X86_64_PLT32: u32 = 4;

pub const R_X86_64_GOTPCREL: u32 = 9;

pub const R_X86_64_32: u32 = 10;

pub const R_X86_64_32S: u32 = 11;

pub const R_X86_64_16: u32 = 12;

pub const R_X86_64_PC16: u32 = 13;

pub const R_X86_64_8: u32 = 14;

pub const R_X86_64_PC8: u32 = 15;

pub const R_X86_64_TPOFF64: u32 = 18;

pub const R_X86_64_GOTTPOFF: u32 = 22;

pub const R_X86_64_TPOFF32: u32 = 23;

pub const R_X86_64_PC64: u32 = 24;

pub const R_X86_64_GOTOFF64: u32 = 25;

pub const R_X86_64_GOTPC32: u32 = 26;

pub const R_X86_64_GOT64: u32 = 27;

pub const R_X86_64_GOTPCREL64: u32 = 28;

pub const R_X86_64_GOTPC64: u32 = 29;

pub const R_X86_64_SIZE32: u32 = 32;

pub const R_X86_64_SIZE64: u32 = 33;

pub const R_X86_64_GOTPCRELX: u32 = 41;

pub const R_X86_64_REX_GOTPCRELX: u32 = 42;
