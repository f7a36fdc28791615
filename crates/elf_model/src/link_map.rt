//! The map of a link, line by line (docs/MAP.md).

/// A loaded object: its number, the number of its item in the command from 0, the offset of its
/// member's header in bytes (0 for an object item) and the path of its file.
#[derive(Debug, Drop)]
pub struct ObjectLine {
    pub object: u64,
    pub item: u64,
    pub offset: u64,
    pub path: Vec<u8>,
}

/// A dropped section with ALLOC.
#[derive(Clone, Copy, Debug)]
pub struct DropLine {
    pub object: u64,
    pub section: u64,
}

/// A kept section: its address and size in bytes, its object's and its own number, its name.
#[derive(Debug, Drop)]
pub struct PlaceLine {
    pub address: u64,
    pub size: u64,
    pub object: u64,
    pub section: u64,
    pub name: Vec<u8>,
}

/// A common block: its address, size and alignment in bytes, its name.
#[derive(Debug, Drop)]
pub struct CommonLine {
    pub address: u64,
    pub size: u64,
    pub align: u64,
    pub name: Vec<u8>,
}

/// The global offset table: its address and size in bytes.
#[derive(Clone, Copy, Debug)]
pub struct GotLine {
    pub address: u64,
    pub size: u64,
}

/// What a slot of the global offset table holds: a symbol's value, or its offset from the thread
/// pointer.
#[derive(Clone, Copy, Debug)]
pub enum SlotKind {
    Value,
    Thread,
}

/// What a slot stands for: a name, or a LOCAL symbol by its object's and its own number.
#[derive(Debug, Drop)]
pub enum SlotTarget {
    Name(Vec<u8>),
    Local { object: u64, symbol: u64 },
}

/// A slot of the global offset table.
#[derive(Debug, Drop)]
pub struct SlotLine {
    pub address: u64,
    pub kind: SlotKind,
    pub target: SlotTarget,
}

/// Who defines a name: a strong or a weak symbol, by its object's and its own number, a common block,
/// or the linker.
#[derive(Clone, Copy, Debug)]
pub enum Definition {
    Strong { object: u64, symbol: u64 },
    Weak { object: u64, symbol: u64 },
    Common,
    Linker,
}

/// The chosen definition of a name, and its value.
#[derive(Debug, Drop)]
pub struct SymbolLine {
    pub address: u64,
    pub definition: Definition,
    pub name: Vec<u8>,
}

/// The image's symbol table: its offset in the file in bytes, and the number of its entries.
#[derive(Clone, Copy, Debug)]
pub struct SymtabLine {
    pub offset: u64,
    pub count: u64,
}

/// A link map of version 1 or 2: what was loaded, dropped and placed, what each name means, and, in
/// version 2, where the image's symbol table stands. Its lines are in the order of the fields
/// (docs/MAP.md).
#[derive(Debug, Drop)]
pub struct LinkMap {
    pub version: u64,
    pub objects: Vec<ObjectLine>,
    pub drops: Vec<DropLine>,
    pub places: Vec<PlaceLine>,
    pub commons: Vec<CommonLine>,
    pub got: Option<GotLine>,
    pub slots: Vec<SlotLine>,
    pub symbols: Vec<SymbolLine>,
    pub symtab: Option<SymtabLine>,
}
