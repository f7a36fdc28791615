//! A loaded object.
ghost use Rattle.std.specs.Prelude.{◌≡◌};
ghost use Rattle.check_load.specs.Kept.{numbers_in, relas_in};

use crate::kept_sections::KeptSections;
use crate::signatures::Dropped;
use crate::symbol_numbers::SymbolNumbers;
use elf_read::ObjectFile;

/// A loaded object.
#[derive(Drop)]
pub struct Loaded<'a> {
    /// What its bytes hold.
    pub object: ObjectFile<'a>,
    /// The number of its item in the command.
    pub item: u64,
    /// The offset of its member's header in the archive; 0 for an object item.
    pub offset: u64,
    /// The path of its file.
    pub path: &'a str,
    /// Its dropped sections.
    pub dropped: Dropped,
    /// The numbers of the names of its symbols.
    pub numbers: SymbolNumbers,
    /// Its kept sections.
    pub(crate) kept: KeptSections,
    ghost numbers_are: { kept.numbers.items ≡ numbers_in dropped object },
    ghost relas_are: { kept.relas.items ≡ relas_in dropped object },
}
