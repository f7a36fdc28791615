//! The places at which a clause fails.

use check_link::{Placed, Request};
use elf_model::{Clause, GotLine, ProgramHeader, Thing};
use input_names::{RelocationFault, RelocationPlace};
use linkmap::Line;

/// One of the things of a link: the headers, the GOT, a section or a common block; or a thread-local section with all addresses
/// that it takes up, even if it has no bytes in memory.
#[derive(Clone, Copy, Debug)]
pub struct Part<'a> {
    /// Whether it is a thread-local section as such.
    pub thread: bool,
    /// The number among the things, from 0.
    pub number: u64,
    pub thing: Thing,
    /// The section or the common block that it is; None of the headers, the first thing, and of the GOT, the second.
    pub piece: Option<Placed<'a>>,
}

/// A line that a map has or should have: by its number from 0 among those of its kind, which are those of the loaded objects, of
/// dropped sections or of kept ones, or by its name, which is that of a common block or of a symbol.
#[derive(Clone, Copy, Debug)]
pub enum LineKey<'a> {
    Object(u64),
    Drop(u64),
    Place(u64),
    Common(&'a [u8]),
    Symbol(&'a [u8]),
}

/// An entry of the symbol table, by its number, and the name of its definition.
#[derive(Clone, Copy, Debug)]
pub struct TableEntry<'a> {
    pub number: u64,
    pub name: &'a [u8],
}

/// A number of the map or of the image that is determined by others.
#[derive(Clone, Copy, Debug)]
pub enum NumberName {
    /// C7: the size of the GOT in bytes.
    GotSize,
    /// C7: the address of the slot line that has a number, from 0.
    SlotAddress(u64),
    /// C11: the length in bytes of an image without a symbol table.
    Length,
    /// C14: the offset of the symbol table in the map.
    TableOffset,
    /// C14: the number of its entries in the map.
    TableCount,
    /// C14: `e_shoff`.
    HeadersOffset,
    /// C14: `e_shnum`.
    HeadersCount,
    /// C14: `e_shstrndx`.
    NamesSection,
}

/// What a byte of memory or of the file is of.
#[derive(Clone, Copy, Debug)]
pub enum ByteOf<'a> {
    /// C7: the GOT.
    Got(GotLine),
    /// C10: a piece, by its number among all, the sections first, from 0; and the relocation in whose field the byte is,
    /// where it is told.
    Piece(u64, Placed<'a>, Option<RelocationPlace<'a>>),
    /// C11: no thing, in a segment that has the rights X 1, W 2, R 4 in sum.
    Fill(u64),
    /// C11: no file part, in the file before the end of the last one.
    Gap,
    /// C14: the file after its last part, which ends at an offset, and the entry of the symbol table, where it is in one.
    Tail(u64, Option<TableEntry<'a>>),
}

/// A byte that isn't the wanted one.
#[derive(Clone, Copy, Debug)]
pub struct BytePlace {
    /// Which byte of the GOT, of the piece or of the end of the file it is, from 0; of fill its address, of a gap its offset.
    pub offset: u64,
    /// The byte that is there; None where no segment maps the address, or the file has ended.
    pub there: Option<u8>,
    /// None where the file should have ended.
    pub wanted: Option<u8>,
}

/// A place at which a clause fails, where there is one.
pub(crate) type Failure<'a> = Option<CheckPlace<'a>>;

/// Where a clause fails, and what is wrong there.
#[derive(Clone, Copy, Debug)]
pub enum CheckPlace<'a> {
    /// C2, C3, C13: a line of the map that is another one than it should be, or that should be there or shouldn't; and the one
    /// that should be there, if one should. C3 asks for no address: there it is 0.
    Line(LineKey<'a>, Option<Line<'a>>),
    /// C5: a thing whose address is no multiple of its alignment.
    Unaligned(Part<'a>),
    /// C5: a thing that doesn't lie from the base on and below 2^46.
    Outside(Part<'a>),
    /// C5: two things that share an address.
    Shared(Part<'a>, Part<'a>),
    /// C5: two sections, the second one the next of an output section after the first one, and not close after it.
    Far(Placed<'a>, Placed<'a>),
    /// C6: a thing that no segment with exactly its rights holds whole; the segment that it lies in, if there is one.
    Unheld(Part<'a>, Option<ProgramHeader>),
    /// C6: the address of the first segment, which isn't the base.
    First(u64),
    /// C7: whether the map has a GOT, where a relocation asks for one if it hasn't, and none does if it has.
    Got(bool),
    /// C7: the slot line of a number, from 0, for the slot of an earlier one; or for whose slot no relocation asks.
    SlotLine(u64, Option<u64>, Request<'a>),
    /// C7: a kept relocation that asks for a slot that no line has.
    NoSlot(RelocationPlace<'a>, Request<'a>),
    /// A number, and what it should be.
    Number(NumberName, u64, u64),
    /// A byte that isn't the wanted one, the first of its word, piece, gap or table.
    Byte(ByteOf<'a>, BytePlace),
    /// C8: the PT_TLS header that the image has, and the one that the thread-local pieces ask for.
    ThreadHeader(Option<ProgramHeader>, Option<ProgramHeader>),
    /// C8: a piece, or the GOT where it is None, that isn't thread-local and has an address among the initial bytes of
    /// thread-local storage, from the first address on and below the second; or a thread-local piece without bytes that begins
    /// before the second.
    InThreadBlock(Option<Placed<'a>>, u64, u64, u64),
    /// C8: a block of thread-local storage whose initial bytes lie in no PT_LOAD.
    ThreadBytes(ProgramHeader),
    /// C9: a kept relocation that isn't lawful.
    Relocation(RelocationPlace<'a>, RelocationFault),
    /// C9: two kept relocations of one object whose fields share a byte.
    Overlap(RelocationPlace<'a>, RelocationPlace<'a>),
    /// C9: a kept relocation whose value, the first number, doesn't fit its field; the second number is the field's address.
    Value(RelocationPlace<'a>, u64, u64),
    /// C11: a PT_LOAD, by its number among these, whose memory, or whose file part where it is true, doesn't end with the last
    /// thing in it that has bytes there; where that ends, or where the segment begins if nothing in it has bytes there.
    SegmentEnd(u64, ProgramHeader, bool, u64),
    /// C12: `e_entry`, and the value of the entry's definition, if it has a lawful one, which is another.
    Entry(u64, Option<u64>),
    /// C14: whether the map has the line of a symbol table, where it must be otherwise.
    Symtab(bool),
    /// A clause that fails, of which no place is told: where the inputs themselves are refused, and where the image isn't
    /// one.
    Whole(Clause),
}
