//! What the flags and the type of a section header say (System V gABI 4, "Sections").
ghost use Rattle.std.specs.Prelude.{◌≡◌};
ghost use Rattle.elf_model.specs.Link.Pieces as pieces;

use crate::constants::{SHF_ALLOC, SHF_EXECINSTR, SHF_TLS, SHF_WRITE, SHT_NOBITS, SHT_NULL};
use crate::records::SectionHeader;

impl SectionHeader {
    /// The header of section number 0, which stands for none (System V gABI 4, "Sections").
    pub const NULL: SectionHeader = SectionHeader {
        sh_name: 0,
        sh_type: SHT_NULL,
        sh_flags: 0,
        sh_addr: 0,
        sh_offset: 0,
        sh_size: 0,
        sh_link: 0,
        sh_info: 0,
        sh_addralign: 0,
        sh_entsize: 0,
    };

    /// Whether the section takes up memory, so is kept: SHF_ALLOC (System V gABI 4, "Sections", "Section
    /// Attribute Flags").
    pub fn is_alloc(&self) -> bool
        ensures { result ≡ pieces.is_alloc self.now }
    {
        self.sh_flags & SHF_ALLOC != 0
    }

    /// Whether the section's memory may be written: SHF_WRITE ("Section Attribute Flags").
    pub fn is_writable(&self) -> bool
        ensures { result ≡ pieces.is_writable self.now }
    {
        self.sh_flags & SHF_WRITE != 0
    }

    /// Whether the section's memory may be executed: SHF_EXECINSTR ("Section Attribute Flags").
    pub fn is_executable(&self) -> bool
        ensures { result ≡ pieces.is_executable self.now }
    {
        self.sh_flags & SHF_EXECINSTR != 0
    }

    /// Whether the section is of thread-local storage: SHF_TLS ("Section Attribute Flags").
    pub fn is_thread_local(&self) -> bool
        ensures { result ≡ pieces.is_thread_local self.now }
    {
        self.sh_flags & SHF_TLS != 0
    }

    /// Whether the section is of type NOBITS, so that its size takes up no bytes of the file (System V gABI
    /// 4, "Sections", "Section Types, sh_type").
    pub fn is_nobits(&self) -> bool
        ensures { result ≡ pieces.is_nobits self.now }
    {
        self.sh_type == SHT_NOBITS
    }
}
