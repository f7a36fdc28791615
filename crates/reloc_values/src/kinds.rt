//! The kinds of relocations: the width of their fields, how their values are made, which values fit, and what they ask of
//! the GOT (AMD64 psABI 4.4, "Relocation Types"; the ranges of all kinds but 32 and 32S are the profile's).
ghost use Rattle.std.specs.Prelude.{◌≡◌, false, option_map};
ghost use Rattle.std.specs.List.{slice_get};
ghost use Rattle.std.specs.Option.{option_and_then, option_map_or};
ghost use Rattle.elf_model.specs.Link.Relocation as relocation;
ghost use Rattle.elf_model.specs.Link.Slots as wanted;
ghost use Rattle.reloc_values.specs.Kinds.{formula_view, kind_view};

use elf_model::{
    R_X86_64_8, R_X86_64_16, R_X86_64_32, R_X86_64_32S, R_X86_64_64, R_X86_64_GOT32,
    R_X86_64_GOT64, R_X86_64_GOTOFF64, R_X86_64_GOTPC32, R_X86_64_GOTPC64, R_X86_64_GOTPCREL,
    R_X86_64_GOTPCREL64, R_X86_64_GOTPCRELX, R_X86_64_GOTTPOFF, R_X86_64_PC8, R_X86_64_PC16,
    R_X86_64_PC32, R_X86_64_PC64, R_X86_64_PLT32, R_X86_64_REX_GOTPCRELX, R_X86_64_SIZE32,
    R_X86_64_SIZE64, R_X86_64_TPOFF32, R_X86_64_TPOFF64, SlotKind,
};

/// What a value is made of: S the symbol's value, A the addend, P the field's address, G the slot's offset
/// in the GOT, GOT its address, Z the symbol's size, T the offset of S from the thread pointer.
#[derive(Clone, Copy, Debug)]
pub enum Formula {
    /// S + A
    Symbol,
    /// S + A - P
    SymbolFromPlace,
    /// S + A - GOT
    SymbolFromGot,
    /// G + A
    Slot,
    /// G + GOT + A - P
    SlotFromPlace,
    /// GOT + A - P
    GotFromPlace,
    /// Z + A
    Size,
    /// T + A
    ThreadOffset,
    /// G + GOT + A - P for the slot of a thread offset
    ThreadSlotFromPlace,
}

/// Which values of 64 bits fit a field: all; those that are a signed number of the field's bits; an
/// unsigned one; either.
#[derive(Clone, Copy, Debug)]
pub enum Range {
    Always,
    Signed,
    Unsigned,
    Either,
}

/// A kind of relocations: its number, its field's width in bytes (1, 2, 4 or 8), what its value is made of
/// and which values fit.
#[derive(Clone, Copy, Debug)]
pub struct Kind {
    pub number: u32,
    pub width: u8,
    pub formula: Formula,
    pub range: Range,
}

impl Kind {
    /// The kind of a type; None where the table has none, as for type 0, NONE, which relocates nothing.
    pub fn of(number: u32) -> Option<Kind>
        ensures { option_map kind_view result ≡ relocation.kind_of number }
    {
        let row = row_of(&KINDS, number)?;
        Some(Kind {
            number: row.0,
            width: row.1,
            formula: row.2,
            range: row.3,
        })
    }
}

/// The number, width, formula and range of a kind.
type Row = (u32, u8, Formula, Range);

/// The kinds, each at the place of its number.
static KINDS: [Option<Row>; 43] = [
    None,
    Some((R_X86_64_64, 8, Formula::Symbol, Range::Always)),
    Some((R_X86_64_PC32, 4, Formula::SymbolFromPlace, Range::Signed)),
    Some((R_X86_64_GOT32, 4, Formula::Slot, Range::Signed)),
    Some((R_X86_64_PLT32, 4, Formula::SymbolFromPlace, Range::Signed)),
    None,
    None,
    None,
    None,
    Some((R_X86_64_GOTPCREL, 4, Formula::SlotFromPlace, Range::Signed)),
    Some((R_X86_64_32, 4, Formula::Symbol, Range::Unsigned)),
    Some((R_X86_64_32S, 4, Formula::Symbol, Range::Signed)),
    Some((R_X86_64_16, 2, Formula::Symbol, Range::Either)),
    Some((R_X86_64_PC16, 2, Formula::SymbolFromPlace, Range::Signed)),
    Some((R_X86_64_8, 1, Formula::Symbol, Range::Either)),
    Some((R_X86_64_PC8, 1, Formula::SymbolFromPlace, Range::Signed)),
    None,
    None,
    Some((R_X86_64_TPOFF64, 8, Formula::ThreadOffset, Range::Always)),
    None,
    None,
    None,
    Some((
        R_X86_64_GOTTPOFF,
        4,
        Formula::ThreadSlotFromPlace,
        Range::Signed,
    )),
    Some((R_X86_64_TPOFF32, 4, Formula::ThreadOffset, Range::Signed)),
    Some((R_X86_64_PC64, 8, Formula::SymbolFromPlace, Range::Always)),
    Some((R_X86_64_GOTOFF64, 8, Formula::SymbolFromGot, Range::Always)),
    Some((R_X86_64_GOTPC32, 4, Formula::GotFromPlace, Range::Signed)),
    Some((R_X86_64_GOT64, 8, Formula::Slot, Range::Always)),
    Some((
        R_X86_64_GOTPCREL64,
        8,
        Formula::SlotFromPlace,
        Range::Always,
    )),
    Some((R_X86_64_GOTPC64, 8, Formula::GotFromPlace, Range::Always)),
    None,
    None,
    Some((R_X86_64_SIZE32, 4, Formula::Size, Range::Unsigned)),
    Some((R_X86_64_SIZE64, 8, Formula::Size, Range::Always)),
    None,
    None,
    None,
    None,
    None,
    None,
    None,
    Some((R_X86_64_GOTPCRELX, 4, Formula::SlotFromPlace, Range::Signed)),
    Some((
        R_X86_64_REX_GOTPCRELX,
        4,
        Formula::SlotFromPlace,
        Range::Signed,
    )),
];

/// The row of a number.
fn row_of(rows: &[Option<Row>], number: u32) -> Option<Row>
    ensures { result ≡ option_and_then (λ row. row) (slice_get rows.now number) }
{
    match rows.get(number as usize) {
        Some(row) => *row,
        None => None,
    }
}

/// What kind of slot of the GOT a formula asks for: one for a value where it has G, and None where it hasn't.
pub fn slot_kind(formula: Formula) -> Option<SlotKind>
    ensures { result ≡ wanted.slot_kind_of (formula_view formula) }
{
    match formula {
        Formula::Slot => Some(SlotKind::Value),
        Formula::SlotFromPlace => Some(SlotKind::Value),
        Formula::ThreadSlotFromPlace => Some(SlotKind::Thread),
        _ => None,
    }
}

/// Whether a formula asks for a GOT: where it has G or GOT.
fn speaks_of_got(formula: Formula) -> bool
    ensures { result ≡ wanted.speaks_of_got (formula_view formula) }
{
    match formula {
        Formula::Symbol | Formula::SymbolFromPlace | Formula::Size | Formula::ThreadOffset => false,
        _ => true,
    }
}

/// The slot that a type asks for; None where it asks for none, or isn't a type of relocations.
pub fn asked_slot(number: u32) -> Option<SlotKind>
    ensures { result ≡ option_and_then (λ k. wanted.slot_kind_of k.formula)
        (relocation.kind_of number) }
{
    match Kind::of(number) {
        Some(kind) => slot_kind(kind.formula),
        None => None,
    }
}

/// Whether a type asks for a GOT.
pub fn asks_of_got(number: u32) -> bool
    ensures { result ≡ option_map_or (λ k. wanted.speaks_of_got k.formula)
        (relocation.kind_of number) false }
{
    match Kind::of(number) {
        Some(kind) => speaks_of_got(kind.formula),
        None => false,
    }
}
