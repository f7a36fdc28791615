//! How a place of a failed check reads: a line that says what is there, and what should be.

use crate::place::{ByteOf, BytePlace, CheckPlace, LineKey, NumberName, Part, TableEntry};
use check_link::{Link, Placed, base_of, entry_of};
use elf_model::ProgramHeader;
use input_names::{FaultOf, Name, ObjectName, RelocationEntry, RelocationPlace, RelocationSymbol};
use linkmap::{Line, put_line};
use std::alloc::Global;
use std::fmt::{Formatter, Write};
use std::{fmt, io};

/// The object that has a number in the map, which reads as the path of its file and the member that it is.
#[derive(Clone, Copy)]
struct ObjectText<'l>(&'l Link<'l>, u64);

impl fmt::Display for ObjectText<'_> {
    fn fmt<W: Write>(&self, f: &mut Formatter<W>) -> fmt::Result {
        let ObjectText(link, number) = *self;
        let Some(line) = link.map.objects.get(number as usize) else {
            return write!(f, "object {number}");
        };
        match str::from_utf8(&line.path) {
            Ok(path) => write!(f, "{}", ObjectName::new(link.files, path, line.offset)),
            Err(_) => write!(f, "{}", Name(&line.path)),
        }
    }
}

/// What a piece is: a section, which reads as its object, its number and its name, or a common block, which is numbered like one
/// of an object more than there are, and has the name that the map has at its address, with its size; the GOT where there is none.
#[derive(Clone, Copy)]
struct PieceText<'l>(&'l Link<'l>, Option<Placed<'l>>);

impl fmt::Display for PieceText<'_> {
    fn fmt<W: Write>(&self, f: &mut Formatter<W>) -> fmt::Result {
        let PieceText(link, Some(placed)) = *self else {
            return f.write_str("the GOT");
        };
        let (at, piece) = (placed.at, &placed.piece);
        if (piece.object as usize) < link.map.objects.len() {
            let (object, name) = (ObjectText(link, piece.object), Name(piece.name));
            return write!(f, "{object}: section {} {name}", piece.section);
        }
        let size = piece.header.sh_size;
        let mut lines = link.map.commons.iter();
        let line = lines.find(|line| line.address == at && line.size == size);
        let name = Name(line.map_or(&[], |line| &line.name));
        write!(f, "common block {name}")
    }
}

/// What a part is, and which addresses it takes up.
#[derive(Clone, Copy)]
struct PartText<'l>(&'l Link<'l>, &'l Part<'l>);

impl fmt::Display for PartText<'_> {
    fn fmt<W: Write>(&self, f: &mut Formatter<W>) -> fmt::Result {
        match self.1.number {
            0 => f.write_str("the headers"),
            _ => write!(f, "{}", PieceText(self.0, self.1.piece)),
        }?;
        let thing = &self.1.thing;
        write!(f, " at {:#x}, {:#x} bytes", thing.at, thing.size)
    }
}

/// A byte; what there is where there is none.
#[derive(Clone, Copy)]
struct ByteText(Option<u8>, &'static str);

impl fmt::Display for ByteText {
    fn fmt<W: Write>(&self, f: &mut Formatter<W>) -> fmt::Result {
        match self.0 {
            Some(byte) => write!(f, "{byte:#04x}"),
            None => f.write_str(self.1),
        }
    }
}

/// A PT_TLS header, if there is one.
#[derive(Clone, Copy)]
struct HeaderText<'h>(&'h Option<ProgramHeader>);

impl fmt::Display for HeaderText<'_> {
    fn fmt<W: Write>(&self, f: &mut Formatter<W>) -> fmt::Result {
        let Some(h) = self.0 else {
            return f.write_str("none");
        };
        write!(f, "at {:#x}, file offset {:#x}", h.p_vaddr, h.p_offset)?;
        let (file, memory) = (h.p_filesz, h.p_memsz);
        write!(f, ", {file:#x} bytes in the file and {memory:#x} in memory")?;
        write!(f, ", alignment {:#x}", h.p_align)
    }
}

/// The rights that a sum of flags gives, as readelf shows them.
fn rights_text(rights: u64) -> &'static str {
    match rights {
        4 => "R",
        5 => "R E",
        6 => "RW",
        _ => "no lawful rights",
    }
}

/// What a number is, and whether it reads in hexadecimal.
fn number_text(name: NumberName) -> (&'static str, bool) {
    match name {
        NumberName::GotSize => ("the map's got line: the size", false),
        NumberName::SlotAddress(_) => ("the address of the slot", true),
        NumberName::Length => (
            "the size of the image, up to the end of its last file part,",
            true,
        ),
        NumberName::TableOffset => ("the map's symtab line: the offset", false),
        NumberName::TableCount => ("the map's symtab line: the number of entries", false),
        NumberName::HeadersOffset => ("the file header: e_shoff", true),
        NumberName::HeadersCount => ("the file header: e_shnum", false),
        NumberName::NamesSection => ("the file header: e_shstrndx", false),
    }
}

/// The line of a map's text that has a number, from 0, among those that begin with a word: its number among all, from 1, and
/// its text.
fn line_in<'t>(text: &'t [u8], word: &str, k: u64) -> Option<(usize, &'t [u8])> {
    let mut before: u64 = 0;
    for (i, line) in text.split(|byte| *byte == b'\n').enumerate() {
        if !line.starts_with(word.as_bytes()) {
            continue;
        }
        if before == k {
            return Some((i.saturating_add(1), line));
        }
        before = before.saturating_add(1);
    }
    None
}

/// A place of a link, whose map has a text; it reads as a line without its end, but for a line of the map.
#[derive(Clone, Copy)]
struct PlaceText<'t> {
    link: &'t Link<'t>,
    map: &'t [u8],
    place: &'t CheckPlace<'t>,
}

impl PlaceText<'_> {
    /// The number of the line of the map that is the slot line of a number.
    fn slot_line(&self, number: u64) -> usize {
        line_in(self.map, "slot ", number).map_or(0, |(line, _)| line)
    }

    /// Where a relocation is: its section and its offset there.
    fn field<W: Write>(&self, f: &mut Formatter<W>, place: &RelocationPlace<'_>) -> fmt::Result {
        let object = ObjectText(self.link, place.object);
        let (section, offset) = (Name(place.section_name), place.entry.r_offset);
        write!(f, "{object}: {section}+{offset:#x}: ")
    }

    /// Where a relocation is, and which entry.
    fn entry<W: Write>(&self, f: &mut Formatter<W>, place: &RelocationPlace<'_>) -> fmt::Result {
        self.field(f, place)?;
        write!(f, "{}", RelocationEntry(place, true))
    }

    /// A byte and what it is of, what is there and what should be.
    fn byte<W: Write>(&self, f: &mut Formatter<W>, of: &ByteOf<'_>, at: &BytePlace) -> fmt::Result {
        let k = at.offset;
        let none = match of {
            ByteOf::Tail(_, _) => "the end of the file",
            _ => "not mapped",
        };
        let (there, wanted) = (ByteText(at.there, none), ByteText(at.wanted, none));
        match of {
            ByteOf::Got(got) => {
                let at = got.address.saturating_add(k);
                write!(f, "the GOT: byte {k:#x} at {at:#x} is {there}")
            }
            ByteOf::Piece(_, placed, _) => {
                let at = placed.at.saturating_add(k);
                let text = PieceText(self.link, Some(*placed));
                write!(f, "{text}: byte {k:#x} at {at:#x} is {there}")
            }
            ByteOf::Fill(rights) => {
                write!(f, "{k:#x}, in no section and in a segment ")?;
                write!(f, "with {}, is {there}", rights_text(*rights))
            }
            ByteOf::Gap => write!(f, "offset {k:#x} of the image: {there} is in no segment"),
            ByteOf::Tail(end, entry) => {
                let at = end.saturating_add(k);
                write!(f, "the image at byte {at:#x}, after its last segment, ")?;
                if let Some(TableEntry { number, name }) = entry {
                    write!(f, "in entry {number} of the symbol table, ")?;
                    write!(f, "of {}, ", Name(name))?;
                }
                write!(f, "is {there}")
            }
        }?;
        write!(f, ", and should be {wanted}")?;
        match of {
            ByteOf::Piece(_, _, Some(place)) => write!(f, ": {}", RelocationEntry(place, true)),
            _ => Ok(()),
        }
    }

    /// A place of a thing, or of two.
    fn placed<W: Write>(&self, f: &mut Formatter<W>) -> fmt::Result {
        let link = self.link;
        let base = base_of(&link.plan);
        match self.place {
            CheckPlace::Unaligned(part) => {
                let (text, align) = (PartText(link, part), part.thing.align);
                write!(f, "{text}: not aligned to {align}")
            }
            CheckPlace::Outside(part) => {
                let text = PartText(link, part);
                write!(f, "{text}: not from the base {base:#x} on and below 2^46")
            }
            CheckPlace::Shared(first, second) => {
                let (first, second) = (PartText(link, first), PartText(link, second));
                write!(f, "{first}: shares addresses with {second}")
            }
            CheckPlace::Far(last, next) => {
                let (size, align) = (last.piece.header.sh_size, next.piece.header.sh_addralign);
                write!(f, "{} at {:#x}, ", PieceText(link, Some(*next)), next.at)?;
                write!(f, "aligned to {align}: not close after ")?;
                write!(f, "{} at {:#x}, ", PieceText(link, Some(*last)), last.at)?;
                write!(f, "{size:#x} bytes")
            }
            CheckPlace::Unheld(part, segment) => {
                write!(f, "{}: ", PartText(link, part))?;
                match segment {
                    Some(h) => {
                        let rights = rights_text(u64::from(h.p_flags));
                        write!(f, "in a segment with {rights}, and not ")
                    }
                    None => f.write_str("whole in no segment, and should be in one with "),
                }?;
                f.write_str(rights_text(part.thing.rights))
            }
            _ => Ok(()),
        }
    }

    /// A place of a segment, or of the block of thread-local storage.
    fn segment<W: Write>(&self, f: &mut Formatter<W>) -> fmt::Result {
        match self.place {
            CheckPlace::First(at) => {
                let link = self.link;
                let base = base_of(&link.plan);
                write!(f, "the first segment begins at {at:#x}, ")?;
                write!(f, "and not at the base {base:#x}")
            }
            CheckPlace::SegmentEnd(number, h, in_file, wanted) => {
                let (part, size) = match in_file {
                    true => ("file part", h.p_filesz),
                    false => ("memory", h.p_memsz),
                };
                let (at, end) = (h.p_vaddr, h.p_vaddr.saturating_add(size));
                write!(f, "segment {number} at {at:#x}: ")?;
                if *wanted == at && !*in_file {
                    return f.write_str("nothing is in it");
                }
                write!(f, "its {part} ends at {end:#x}, ")?;
                write!(f, "and should end at {wanted:#x}")
            }
            CheckPlace::ThreadHeader(there, wanted) => {
                let (there, wanted) = (HeaderText(there), HeaderText(wanted));
                write!(f, "PT_TLS: {there}; it should be: {wanted}")
            }
            CheckPlace::InThreadBlock(piece, at, start, end) => {
                write!(f, "{} at {at:#x} ", PieceText(self.link, *piece))?;
                f.write_str("begins before the end of the thread-local bytes, ")?;
                write!(f, "from {start:#x} to {end:#x}")
            }
            CheckPlace::ThreadBytes(h) => {
                write!(f, "PT_TLS: no segment holds its {:#x} bytes ", h.p_filesz)?;
                write!(f, "from {:#x} on", h.p_vaddr)
            }
            _ => self.placed(f),
        }
    }

    /// A place of the GOT or of a relocation.
    fn linked<W: Write>(&self, f: &mut Formatter<W>) -> fmt::Result {
        match self.place {
            CheckPlace::Got(true) => f.write_str("the map has a GOT, for which no relocation asks"),
            CheckPlace::Got(false) => {
                f.write_str("the map has no GOT, and a relocation asks for one")
            }
            CheckPlace::SlotLine(number, first, _) => {
                write!(f, "line {} of the map: ", self.slot_line(*number))?;
                match first {
                    Some(k) => write!(f, "the slot of line {} again", self.slot_line(*k)),
                    None => f.write_str("no relocation asks for this slot"),
                }
            }
            CheckPlace::NoSlot(place, _) => {
                self.entry(f, place)?;
                f.write_str(": no line of the map has its slot")
            }
            CheckPlace::Relocation(place, fault) => {
                self.field(f, place)?;
                let entry = RelocationEntry(place, false);
                write!(f, "{} ({entry})", FaultOf(*fault, place))
            }
            CheckPlace::Overlap(first, second) => {
                self.entry(f, first)?;
                f.write_str(": its field shares a byte with that of ")?;
                self.entry(f, second)
            }
            CheckPlace::Value(place, value, address) => {
                self.field(f, place)?;
                let (symbol, entry) = (RelocationSymbol(place), RelocationEntry(place, false));
                write!(f, "the value {value:#x} for {symbol} does not fit the ")?;
                write!(f, "field at {address:#x} ({entry})")
            }
            _ => self.segment(f),
        }
    }
}

impl fmt::Display for PlaceText<'_> {
    fn fmt<W: Write>(&self, f: &mut Formatter<W>) -> fmt::Result {
        let link = self.link;
        match self.place {
            CheckPlace::Whole(clause) => write!(f, "clause C{} as a whole", *clause as u8),
            CheckPlace::Entry(e_entry, value) => {
                write!(f, "the entry {} ", Name(entry_of(&link.plan)))?;
                match value {
                    Some(value) => write!(f, "is at {value:#x}, and e_entry is {e_entry:#x}"),
                    None => f.write_str("has no definition outside thread-local storage"),
                }
            }
            CheckPlace::Number(name, there, wanted) => {
                if let NumberName::SlotAddress(k) = name {
                    write!(f, "line {} of the map: ", self.slot_line(*k))?;
                }
                let (text, hex) = number_text(*name);
                match hex {
                    true => write!(f, "{text} is {there:#x}, and should be {wanted:#x}"),
                    false => write!(f, "{text} is {there}, and should be {wanted}"),
                }?;
                match text.starts_with("the file") && link.map.symtab.is_none() {
                    true => f.write_str(": the map has no symtab line"),
                    false => Ok(()),
                }
            }
            CheckPlace::Byte(of, byte) => self.byte(f, of, byte),
            CheckPlace::Symtab(true) => {
                f.write_str("the map has a symtab line, and -s is among the words")
            }
            CheckPlace::Symtab(false) => {
                f.write_str("the map has no symtab line, and -s is not among the words")
            }
            _ => self.linked(f),
        }
    }
}

/// The number of the symbol line of a name, if there is one, from 0.
fn symbol_number(link: &Link<'_>, name: &[u8]) -> Option<u64> {
    let mut number: u64 = 0;
    for line in link.map.symbols.iter() {
        if line.name == name {
            return Some(number);
        }
        number = number.saturating_add(1);
    }
    None
}

/// Of the lines that a key is of: the word with which they begin, the number of the one that the map has, if it has one, from 0
/// among these, and why it should have none.
fn kind_of_line(link: &Link<'_>, key: &LineKey<'_>) -> (&'static str, Option<u64>, &'static str) {
    match key {
        LineKey::Object(k) => ("object ", Some(*k), "no more objects are loaded"),
        LineKey::Drop(k) => ("drop ", Some(*k), "no more sections are dropped"),
        LineKey::Place(k) => ("place ", Some(*k), "no more sections are kept"),
        LineKey::Common(name) => {
            let number = link
                .map
                .commons
                .iter()
                .position(|line| line.name.as_slice() == *name);
            (
                "common ",
                number.map(|k| k as u64),
                "the name has no common block",
            )
        }
        LineKey::Symbol(name) => ("symbol ", symbol_number(link, name), "the name has no line"),
    }
}

/// Writes a line of a map with this text that is another one than it should be, or that should be there or shouldn't.
fn write_line<W: io::Write>(
    alloc: Global,
    out: &mut W,
    link: &Link<'_>,
    text: &[u8],
    key: &LineKey<'_>,
    wanted: &Option<Line<'_>>,
) -> io::Result<()> {
    let (word, number, reason) = kind_of_line(link, key);
    let mut lead = "the map lacks: ";
    if let Some((number, line)) = number.and_then(|k| line_in(text, word, k)) {
        write!(out, "line {number} of the map: ")?;
        out.write_all(line)?;
        out.write_all(b": ")?;
        lead = "should be ";
    }
    let Some(line) = wanted else {
        return out.write_all(reason.as_bytes());
    };
    let mut spelled = Vec::new(alloc);
    put_line(&mut spelled, line)?;
    spelled.pop();
    out.write_all(lead.as_bytes())?;
    out.write_all(&spelled)?;
    match key {
        LineKey::Place(_) | LineKey::Common(_) => out.write_all(b", at any address"),
        _ => Ok(()),
    }
}

/// Writes a place of a failed check, without the end of the line; the map has this text.
///
/// # Errors
///
/// Where it can't be written, and where memory is refused.
pub fn write_check_place<W: io::Write>(
    alloc: Global,
    out: &mut W,
    link: &Link<'_>,
    map: &[u8],
    place: &CheckPlace<'_>,
) -> io::Result<()> {
    match place {
        CheckPlace::Line(key, wanted) => write_line(alloc, out, link, map, key, wanted),
        _ => write!(out, "{}", PlaceText { link, map, place }),
    }
}
