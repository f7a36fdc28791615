//! A line of a map whose name is borrowed, as it is printed.
use elf_model::{Definition, DropLine, GotLine, SlotKind, SymtabLine, Target};

/// A line of a map: what the lines of a `LinkMap` have, with their names borrowed; the first line, which tells the version,
/// and the last.
#[derive(Clone, Copy, Debug)]
pub enum Line<'a> {
    Version(u64),
    Object {
        object: u64,
        item: u64,
        offset: u64,
        path: &'a [u8],
    },
    Drop(DropLine),
    Place {
        address: u64,
        size: u64,
        object: u64,
        section: u64,
        name: &'a [u8],
    },
    Common {
        address: u64,
        size: u64,
        align: u64,
        name: &'a [u8],
    },
    Got(GotLine),
    Slot {
        address: u64,
        kind: SlotKind,
        target: Target<'a>,
    },
    Symbol {
        address: u64,
        definition: Definition,
        name: &'a [u8],
    },
    Symtab(SymtabLine),
    End,
}
