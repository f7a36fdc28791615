//! The kinds of relocations: the width, the formula and the range of each (AMD64 psABI 4.4, "Relocation
//! Types"; the ranges of all kinds but 32 and 32S are the profile's).
ghost use Rattle.std.specs.Prelude.{◌≡◌, IfSome, option_map};
ghost use Rattle.std.specs.List.{slice_get};
ghost use Rattle.std.specs.Option.{option_and_then};
ghost use Rattle.elf_model.specs.Link.Relocation as relocation;
ghost use Rattle.check_relocs.specs.Kinds.{kind_view};
ghost use Rattle.check_relocs.specs.Widths.{IsWidth};

/// What a value is made of: the symbol's value, the slot's offset in the GOT, the GOT's address, the symbol's size or
/// its offset from the thread pointer, and the addend, less the field's or the GOT's address.
#[derive(Clone, Copy, Debug)]
pub enum Formula {
    Symbol,
    SymbolFromPlace,
    SymbolFromGot,
    Slot,
    SlotFromPlace,
    GotFromPlace,
    Size,
    ThreadOffset,
    ThreadSlotFromPlace,
}

/// Which values fit a field: all; signed numbers of the field's bits; unsigned ones; either.
#[derive(Clone, Copy, Debug)]
pub enum Range {
    Always,
    Signed,
    Unsigned,
    Either,
}

/// A kind: its number, the width of its field in bytes, its formula, its range.
#[derive(Clone, Copy, Debug)]
pub struct Kind {
    pub number: u32,
    pub width: u8,
    pub formula: Formula,
    pub range: Range,
}

/// The number, the width, the formula and the range of a kind.
type Row = (u32, u8, Formula, Range);

/// The kinds, each at the place of its number.
static KINDS: [Option<Row>; 43] = [
    None,
    Some((1, 8, Formula::Symbol, Range::Always)),
    Some((2, 4, Formula::SymbolFromPlace, Range::Signed)),
    Some((3, 4, Formula::Slot, Range::Signed)),
    Some((4, 4, Formula::SymbolFromPlace, Range::Signed)),
    None,
    None,
    None,
    None,
    Some((9, 4, Formula::SlotFromPlace, Range::Signed)),
    Some((10, 4, Formula::Symbol, Range::Unsigned)),
    Some((11, 4, Formula::Symbol, Range::Signed)),
    Some((12, 2, Formula::Symbol, Range::Either)),
    Some((13, 2, Formula::SymbolFromPlace, Range::Signed)),
    Some((14, 1, Formula::Symbol, Range::Either)),
    Some((15, 1, Formula::SymbolFromPlace, Range::Signed)),
    None,
    None,
    Some((18, 8, Formula::ThreadOffset, Range::Always)),
    None,
    None,
    None,
    Some((22, 4, Formula::ThreadSlotFromPlace, Range::Signed)),
    Some((23, 4, Formula::ThreadOffset, Range::Signed)),
    Some((24, 8, Formula::SymbolFromPlace, Range::Always)),
    Some((25, 8, Formula::SymbolFromGot, Range::Always)),
    Some((26, 4, Formula::GotFromPlace, Range::Signed)),
    Some((27, 8, Formula::Slot, Range::Always)),
    Some((28, 8, Formula::SlotFromPlace, Range::Always)),
    Some((29, 8, Formula::GotFromPlace, Range::Always)),
    None,
    None,
    Some((32, 4, Formula::Size, Range::Unsigned)),
    Some((33, 8, Formula::Size, Range::Always)),
    None,
    None,
    None,
    None,
    None,
    None,
    None,
    Some((41, 4, Formula::SlotFromPlace, Range::Signed)),
    Some((42, 4, Formula::SlotFromPlace, Range::Signed)),
];

/// The row of a number.
fn row_of(rows: &[Option<Row>], number: u32) -> Option<Row>
    ensures { result ≡ option_and_then (λ row. row) (slice_get rows.now number) }
{
    match rows.get(number as usize) {
        Some(row) => *row,
        None => None,
    }
}

/// The kind of a type, None where there is none.
pub fn kind_of(number: u32) -> Option<Kind>
    ensures kind { option_map kind_view result ≡ relocation.kind_of number }
    ensures width { IfSome result (λ k. IsWidth k.width) }
{
    let row = row_of(&KINDS, number)?;
    Some(Kind {
        number: row.0,
        width: row.1,
        formula: row.2,
        range: row.3,
    })
}
