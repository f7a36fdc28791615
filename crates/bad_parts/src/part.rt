//! Parts of a file that is read as an object: what they are, where in the file they are, and what is wrong with them.

use elf_model::{Rela, SectionHeader, Symbol};
use input_names::Called;
use std::fmt;
use std::fmt::{Display, Formatter, Write};
use thiserror::Error;

/// The type of an indirect function, which the gABI leaves to systems (STT_GNU_IFUNC).
const INDIRECT: u8 = 10;

/// The binding of a symbol that is unique in a process (STB_GNU_UNIQUE).
const UNIQUE: u8 = 10;

/// A section or a symbol: its number in its table, where its header or its entry is, in bytes from the file's beginning, and its
/// name where that can be read.
#[derive(Clone, Copy, Debug)]
pub struct Part<'a, E> {
    pub number: u64,
    pub at: u64,
    pub entry: E,
    pub name: Option<&'a [u8]>,
}

/// A section, by its header.
pub type SectionPart<'a> = Part<'a, SectionHeader>;

/// A symbol, by its entry.
pub type SymbolPart<'a> = Part<'a, Symbol>;

/// What a section holds: an entry of a RELA section, or the number of a member of a group; its own number in there, from 0, and
/// where it is.
#[derive(Clone, Copy, Debug)]
pub struct Held<'a, E> {
    pub section: SectionPart<'a>,
    pub number: u64,
    pub at: u64,
    pub entry: E,
}

/// A part of a file that an object may not have (System V gABI 4; docs/PROFILE.md).
#[derive(Clone, Copy, Debug, Error)]
pub enum BadPart<'a> {
    /// BadSectionRange: a section that isn't inside the file, or of an unlawful alignment.
    #[error("{0}: {extent}: not inside the file, or no lawful alignment", extent = Extent(.0.entry))]
    Range(SectionPart<'a>),
    /// BadString: a section whose name is no text of the string table.
    #[error("{0}: its name, from byte {name:#x} of the string table on, doesn't end there", name = .0.entry.sh_name)]
    SectionName(SectionPart<'a>),
    /// BadString: a symbol whose name is no text of its string table.
    #[error("{0}: its name, from byte {name:#x} of the string table on, doesn't end there", name = .0.entry.st_name)]
    SymbolName(SymbolPart<'a>),
    /// BadSymbolTable: two symbol tables, the first one before the second.
    #[error("{1}: a symbol table, as section {first} is", first = .0.number)]
    SecondTable(SectionPart<'a>, SectionPart<'a>),
    /// BadSymbolTable: a section of extended section numbers.
    #[error("{0}: extended section numbers are not linked")]
    Extension(SectionPart<'a>),
    /// BadSymbolTable: a symbol table whose own header is unlawful.
    #[error("{0}: a symbol table {header}", header = Unlawful(.0.entry))]
    SymbolTable(SectionPart<'a>),
    /// BadSymbolTable: the first symbol, which isn't the null symbol.
    #[error("{0}: not the null symbol")]
    NullSymbol(SymbolPart<'a>),
    /// BadSymbolTable: a symbol whose binding, type or section is unlawful.
    #[error("{0}: {entry}", entry = Unlinked(.0.entry))]
    Symbol(SymbolPart<'a>),
    /// BadRela: a section of relocations without addends.
    #[error("{0}: relocations without addends are not linked")]
    Rel(SectionPart<'a>),
    /// BadRela: a RELA section whose own header is unlawful.
    #[error("{0}: a table of relocations {header}", header = Unlawful(.0.entry))]
    Relas(SectionPart<'a>),
    /// BadRela: an entry that names a symbol which isn't there.
    #[error("{0} names symbol {symbol}, which isn't there", symbol = .0.entry.symbol())]
    Entry(Held<'a, Rela>),
    /// BadGroup: a GROUP section whose own header is unlawful.
    #[error("{0}: a group {header}", header = Unlawful(.0.entry))]
    Group(SectionPart<'a>),
    /// BadGroup: a GROUP section whose signature is a symbol that isn't there.
    #[error("{0}: the group's signature is symbol {symbol}, which isn't there", symbol = .0.entry.sh_info)]
    Signature(SectionPart<'a>),
    /// BadGroup: a section that may be no member of a group.
    #[error("{0} is section {member}, which may be in no group", member = .0.entry)]
    Member(Held<'a, u32>),
}

impl Display for Part<'_, SectionHeader> {
    fn fmt<W: Write>(&self, f: &mut Formatter<W>) -> fmt::Result {
        let (number, at, name) = (self.number, self.at, Called("", self.name));
        write!(f, "section {number}{name} (header at byte {at:#x})")
    }
}

impl Display for Part<'_, Symbol> {
    fn fmt<W: Write>(&self, f: &mut Formatter<W>) -> fmt::Result {
        let (number, at, name) = (self.number, self.at, Called("", self.name));
        write!(f, "symbol {number}{name} (entry at byte {at:#x})")
    }
}

impl Display for Held<'_, Rela> {
    fn fmt<W: Write>(&self, f: &mut Formatter<W>) -> fmt::Result {
        let (table, number, at) = (self.section, self.number, self.at);
        write!(f, "{table}: relocation {number} (entry at byte {at:#x})")
    }
}

impl Display for Held<'_, u32> {
    fn fmt<W: Write>(&self, f: &mut Formatter<W>) -> fmt::Result {
        let (group, number, at) = (self.section, self.number, self.at);
        write!(f, "{group}: member {number} of the group ")?;
        write!(f, "(word at byte {at:#x})")
    }
}

/// Where in the file a section is, by its header.
#[derive(Clone, Copy, Debug, Error)]
#[error("{size:#x} bytes from byte {at:#x} on, aligned to {align:#x}", size = .0.sh_size, at = .0.sh_offset, align = .0.sh_addralign)]
struct Extent(SectionHeader);

/// A table that is unlawful, by what its own header says.
#[derive(Clone, Copy)]
struct Unlawful(SectionHeader);

impl Display for Unlawful {
    fn fmt<W: Write>(&self, f: &mut Formatter<W>) -> fmt::Result {
        let (size, link, info) = (self.0.sh_size, self.0.sh_link, self.0.sh_info);
        write!(f, "of {size:#x} bytes, sh_entsize {}", self.0.sh_entsize)?;
        write!(f, ", sh_link {link} and sh_info {info} is unlawful")
    }
}

/// A symbol that isn't linked, by its binding, its type and its section.
#[derive(Clone, Copy)]
struct Unlinked(Symbol);

impl Display for Unlinked {
    fn fmt<W: Write>(&self, f: &mut Formatter<W>) -> fmt::Result {
        let (binding, kind) = (self.0.binding(), self.0.symbol_type());
        write!(f, "binding {binding}")?;
        if binding == UNIQUE {
            f.write_str(" (a unique symbol: -fno-gnu-unique of g++ makes none)")?;
        }
        write!(f, ", type {kind}")?;
        if kind == INDIRECT {
            f.write_str(" (an indirect function, as glibc has: musl has none)")?;
        }
        write!(f, ", section {:#x}: not linked", self.0.st_shndx)
    }
}
