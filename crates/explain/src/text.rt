//! How a place reads: a line that names the object, what is wrong in it, and why.

use crate::place::Place;
use crate::source_lines::write_source_line;
use crate::word_text::WordText;
use byteview::View;
use command::Source;
use elf_model::{ArFault, InputFile, LinkError, ObjFault, SHF_LINK_ORDER, STT_FUNC, Symbol};
use elf_read::ObjectFile;
use input_names::{
    Called, FaultOf, Name, ObjectName, RelocationEntry, RelocationFault as Fault, RelocationPlace,
    RelocationSymbol, SectionFlags, SectionType, file_kind,
};
use relocate::{Kind, Range, RelocationFault};
use search::Reached;
use std::alloc::Global;
use std::fmt;
use std::fmt::{Formatter, Write};

/// What avoids flags that are not linked.
static SECTION_HINTS: [(u64, &str); 3] = [
    (
        0x20_0000,
        ", as of __attribute__((retain)) or Rust's #[used]",
    ),
    (0x1000_0000, ": -mcmodel=small avoids it"),
    (SHF_LINK_ORDER, ", as of -fpatchable-function-entry"),
];

/// Whether a word names a file: its path, or `-lNAME` for a path that ends in `libNAME.a`.
fn names_file(word: &str, path: &str) -> bool {
    let Some(name) = word.strip_prefix("-l") else {
        return word == path;
    };
    let front = path.strip_suffix(".a").and_then(|p| p.strip_suffix(name));
    front.is_some_and(|front| front.ends_with("/lib"))
}

/// What is wrong with a relocation.
fn fault_of(fault: RelocationFault) -> Fault {
    match fault {
        RelocationFault::Undefined => Fault::Undefined,
        RelocationFault::RefToDropped => Fault::RefToDropped,
        RelocationFault::RelocKind => Fault::RelocKind,
        RelocationFault::FieldOutside => Fault::FieldOutside,
        RelocationFault::TlsMismatch => Fault::TlsMismatch,
        RelocationFault::MixedSection => Fault::MixedSection,
    }
}

/// What avoids relocations of thread-local storage in other objects, which a static link needs not.
fn hint(kind: u32, fault: RelocationFault) -> &'static str {
    match (fault, kind) {
        (RelocationFault::RelocKind, 16 | 17 | 19..=21 | 34..=36) => {
            ": -ftls-model=local-exec or -fno-pic avoids it"
        }
        _ => "",
    }
}

/// Writes which values fit the field of a type of relocations.
fn write_fitting<W: Write>(f: &mut Formatter<W>, kind: u32) -> fmt::Result {
    let Some(Kind { width, range, .. }) = Kind::of(kind) else {
        return Ok(());
    };
    let half: u64 = match width {
        1 => 0x80,
        2 => 0x8000,
        _ => 0x8000_0000,
    };
    let (below, top) = (half - 1, half + (half - 1));
    match range {
        Range::Always => Ok(()),
        Range::Signed => write!(f, ", which takes -{half:#x} to {below:#x}"),
        Range::Unsigned => write!(f, ", which takes 0 to {top:#x}"),
        Range::Either => write!(f, ", which takes -{half:#x} to {top:#x}"),
    }?;
    let hint = "; code of -mcmodel=large has no such limit";
    f.write_str(if width == 4 { hint } else { "" })
}

/// What a fault of an object says in short; docs/PROFILE.md says it whole.
fn object_text(fault: ObjFault) -> &'static str {
    match fault {
        ObjFault::Memory => "out of memory",
        ObjFault::Truncated => "shorter than the header of an ELF file",
        ObjFault::NotElf64 => "no ELF file of 64 bits",
        ObjFault::NotRelocatable => "no relocatable object",
        ObjFault::WrongMachine => "not for x86-64",
        ObjFault::BadSectionTable =>
            "its section header table is unlawful, or runs past the end of the file",
        ObjFault::BadSectionRange => "a section is outside the file, or of an unlawful alignment",
        ObjFault::BadString => "a name has no text in its string table",
        ObjFault::BadSymbolTable => {
            "its symbol table is unlawful, or a symbol's binding, type or section is not linked, as of an indirect function"
        }
        ObjFault::BadRela => "a section of relocations is unlawful",
        ObjFault::BadGroup => "a group of sections is unlawful",
        ObjFault::TooMany => "4 GiB or more",
    }
}

/// What a fault of an archive says of the member whose header is at an offset; nothing where that is 0.
fn member_text(fault: ArFault, offset: u64) -> &'static str {
    match fault {
        ArFault::Truncated if offset != 0 => ": the file ends within this member",
        ArFault::BadHeader if offset != 0 => {
            ": this is no header of a member, or no line feed makes its data even"
        }
        _ => "",
    }
}

/// Whether a symbol is a function with a byte at an offset of a section.
fn covers(symbol: &Symbol, section: u32, offset: u64) -> bool {
    symbol.symbol_type() == STT_FUNC
        && u32::from(symbol.st_shndx) == section
        && symbol.st_value <= offset
        && offset - symbol.st_value < symbol.st_size
}

/// The inputs that places are of, and where objects are read into again.
#[derive(Clone, Copy)]
pub struct Inputs<'i> {
    pub alloc: Global,
    pub files: &'i [InputFile],
    pub words: &'i [String],
}

/// An object of inputs, which reads as the path of its file and the member that it is; and the number of its item, where more
/// than one word names the file.
#[derive(Clone, Copy)]
pub(crate) struct At<'i, 'p, 'a> {
    pub(crate) inputs: Inputs<'i>,
    pub(crate) object: &'p Reached<'a>,
}

impl fmt::Display for At<'_, '_, '_> {
    fn fmt<W: Write>(&self, f: &mut Formatter<W>) -> fmt::Result {
        let (inputs, path) = (self.inputs, self.object.path);
        let name = ObjectName::new(inputs.files, path, self.object.offset);
        write!(f, "{name}")?;
        let words = inputs.words.iter();
        if words.filter(|w| names_file(w.as_str(), path)).count() > 1 {
            write!(f, " (item {})", self.object.item)?;
        }
        f.write_str(": ")
    }
}

impl<'a> At<'_, '_, 'a> {
    /// The object; None where it isn't one that is read.
    fn read(self) -> Option<ObjectFile<'a>> {
        ObjectFile::read(self.inputs.alloc, View::new(self.object.bytes)).ok()
    }

    /// The section in which symbol `j` is defined, where it is in one.
    pub(crate) fn section_of(self, j: usize) -> Option<&'a [u8]> {
        let object = self.read()?;
        let symbol = object.symbol(j);
        if symbol.is_undefined() {
            return None;
        }
        object.section_name(symbol.st_shndx as usize)
    }

    /// The function that a byte of a section belongs to, where a symbol says so.
    fn function_at(self, section: u32, offset: u64) -> Option<&'a [u8]> {
        let object = self.read()?;
        let mut symbols = 0..object.symbols().len();
        let j = symbols.find(|j| covers(&object.symbol(*j), section, offset))?;
        Some(object.symbol_name(j))
    }

    /// What a file is that is no object or no archive, where this is wanted and its first bytes tell.
    fn kind<W: Write>(self, f: &mut Formatter<W>, wanted: bool) -> fmt::Result {
        match file_kind(self.object.bytes) {
            Some(kind) if wanted => write!(f, ": {kind}"),
            _ => Ok(()),
        }
    }

    /// Where a relocation is: its section, its offset there, its function and its source line.
    fn field<W: Write>(self, f: &mut Formatter<W>, place: &RelocationPlace<'_>) -> fmt::Result {
        let (section, offset) = (Name(place.section_name), place.entry.r_offset);
        let function = Called("in ", self.function_at(place.section, offset));
        write!(f, "{self}{section}+{offset:#x}{function}")?;
        if let Some(object) = self.read() {
            write_source_line(f, &object, place)?;
        }
        f.write_str(": ")
    }

    /// Which entry a relocation is, its type and its symbol with the section of that.
    fn entry<W: Write>(self, f: &mut Formatter<W>, entry: RelocationEntry<'_, '_>) -> fmt::Result {
        let section = self.section_of(entry.0.entry.symbol() as usize);
        write!(f, "{entry}{}", Called("of ", section))
    }

    /// Which entry a relocation is, behind what is wrong with it.
    fn note<W: Write>(self, f: &mut Formatter<W>, place: &RelocationPlace<'_>) -> fmt::Result {
        f.write_str(" (")?;
        self.entry(f, RelocationEntry(place, false))?;
        f.write_str(")")
    }
}

/// A place of inputs, which reads as a line without its end.
#[derive(Clone, Copy)]
pub struct PlaceText<'i, 'p, 'a> {
    pub inputs: Inputs<'i>,
    pub place: &'p Place<'a>,
}

impl PlaceText<'_, '_, '_> {
    /// A place of files that can't be read as they have to be.
    fn file<W: Write>(&self, f: &mut Formatter<W>) -> fmt::Result {
        let inputs = self.inputs;
        match self.place {
            Place::Missing(number, Source::Path(path)) => {
                let name = Name(path.as_bytes());
                write!(f, "{name}: item {number}: there is no such file")
            }
            Place::Missing(number, Source::Library(name)) => {
                let name = Name(name.as_bytes());
                write!(f, "-l{name}: item {number}: no directory of -L has ")?;
                write!(f, "lib{name}.a")
            }
            Place::Archive(object, fault) => {
                let at = At { inputs, object };
                write!(f, "{at}{fault}{}", member_text(*fault, object.offset))?;
                at.kind(f, *fault == ArFault::NotArchive)
            }
            Place::NoIndex(object) => {
                let at = At { inputs, object };
                write!(f, "{at}the archive has no index: ranlib makes one")
            }
            Place::Object(object, fault, Some(part)) => {
                write!(f, "{}{fault}: {part}", At { inputs, object })
            }
            Place::Object(object, fault, None) => {
                let at = At { inputs, object };
                write!(f, "{at}{fault}: {}", object_text(*fault))?;
                at.kind(f, true)
            }
            Place::Groups(object, fault) => write!(f, "{}{fault}", At { inputs, object }),
            _ => self.table_entry(f),
        }
    }

    /// A place of a section or a symbol.
    fn table_entry<W: Write>(&self, f: &mut Formatter<W>) -> fmt::Result {
        let inputs = self.inputs;
        match self.place {
            Place::Section(object, section) => {
                let (at, header) = (At { inputs, object }, &section.entry);
                let (kind, flags) = (SectionType(header.sh_type), SectionFlags(header.sh_flags));
                let mut hints = SECTION_HINTS.iter();
                let hint = hints.find(|hint| header.sh_flags & hint.0 != 0);
                let hint = hint.map_or("", |hint| hint.1);
                write!(f, "{at}section {} {}: ", section.number, Name(section.name))?;
                write!(f, "{kind}, {flags}: not linked{hint}")
            }
            Place::Large(object, section) => {
                let (at, size) = (At { inputs, object }, section.entry.sh_size);
                write!(f, "{at}section {} {}: ", section.number, Name(section.name))?;
                write!(
                    f,
                    "{size:#x} bytes, more than the addresses from the base on up to 2^46"
                )
            }
            Place::Symbol(object, symbol, fault) => {
                let (at, number) = (At { inputs, object }, symbol.number);
                let section = Called("of ", at.section_of(number as usize));
                let name = Called("", Some(symbol.name));
                write!(f, "{at}symbol {number}{name}{section}: {fault}")
            }
            _ => self.relocation(f),
        }
    }

    /// A place of a relocation, or of two.
    fn relocation<W: Write>(&self, f: &mut Formatter<W>) -> fmt::Result {
        let inputs = self.inputs;
        match self.place {
            Place::Relocation(object, place, fault, _) => {
                let (at, hint) = (At { inputs, object }, hint(place.entry.kind(), *fault));
                at.field(f, place)?;
                write!(f, "{}{hint}", FaultOf(fault_of(*fault), place))?;
                at.note(f, place)
            }
            Place::Overlap(object, first, second) => {
                let at = At { inputs, object };
                at.field(f, first)?;
                at.entry(f, RelocationEntry(first, true))?;
                f.write_str(": its field shares a byte with that of ")?;
                at.field(f, second)?;
                at.entry(f, RelocationEntry(second, true))
            }
            Place::Value(object, place, value, address) => {
                let (at, symbol) = (At { inputs, object }, RelocationSymbol(place));
                at.field(f, place)?;
                write!(f, "the value {value:#x} for {symbol} does not fit the ")?;
                write!(f, "field at {address:#x}")?;
                write_fitting(f, place.entry.kind())?;
                at.note(f, place)
            }
            _ => Ok(()),
        }
    }
}

impl fmt::Display for PlaceText<'_, '_, '_> {
    fn fmt<W: Write>(&self, f: &mut Formatter<W>) -> fmt::Result {
        match self.place {
            Place::Word(number, fault) => {
                let (words, number, fault) = (self.inputs.words, *number, *fault);
                let text = WordText {
                    words,
                    number,
                    fault,
                };
                write!(f, "{text}")
            }
            Place::Entry(name) => {
                write!(f, "the entry {} has no definition ", Name(name.as_bytes()))?;
                f.write_str("outside thread-local storage")
            }
            Place::Refused(LinkError::TooLarge) => f.write_str(
                "all together: the addresses end above 2^46, or the image has 2^32 bytes or more",
            ),
            Place::Refused(error) => write!(f, "all together: {error}"),
            _ => self.file(f),
        }
    }
}
