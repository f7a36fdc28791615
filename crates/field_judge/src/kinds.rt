//! The kinds of relocations that are judged: the width, the formula and the range of each (AMD64 psABI 4.4, "Relocation
//! Types"; the ranges of all kinds but 32 and 32S are the profile's).
ghost use Rattle.std.specs.Prelude.{◌≡◌, ◌==◌, IfSome, find, option_copied, option_map};
ghost use Rattle.field_judge.specs.Kinds.{IsWidth, TellsSlots, kind_view};
ghost use Rattle.judge_model.specs.Fields.{foreign_kinds};

/// What a value is made of: the symbol's value, the slot's address, the GOT's, the symbol's size or its offset from the thread
/// pointer, and the addend, less the field's or the GOT's address.
#[derive(Clone, Copy, Debug)]
pub enum Formula {
    Symbol,
    SymbolFromPlace,
    SymbolFromGot,
    Slot,
    SlotFromPlace,
    GotFromPlace,
    Size,
    ThreadOffset,
    ThreadSlotFromPlace,
}

/// Which values fit a field: all; signed numbers of the field's bits; unsigned ones; either.
#[derive(Clone, Copy, Debug)]
pub enum Range {
    Always,
    Signed,
    Unsigned,
    Either,
}

/// A kind: its number, the width of its field in bytes, its formula, its range.
#[derive(Clone, Copy, Debug)]
pub struct Kind {
    pub number: u32,
    pub width: u8,
    pub formula: Formula,
    pub range: Range,
}

/// The number, the width, the formula and the range of a kind.
type Row = (u32, u8, Formula, Range);

/// The kinds: R_X86_64_PLTOFF64, for which no procedure linkage table is needed here, and then the profile's.
static KINDS: [Row; 25] = [
    (31, 8, Formula::SymbolFromGot, Range::Always),
    (1, 8, Formula::Symbol, Range::Always),
    (2, 4, Formula::SymbolFromPlace, Range::Signed),
    (3, 4, Formula::Slot, Range::Signed),
    (4, 4, Formula::SymbolFromPlace, Range::Signed),
    (9, 4, Formula::SlotFromPlace, Range::Signed),
    (10, 4, Formula::Symbol, Range::Unsigned),
    (11, 4, Formula::Symbol, Range::Signed),
    (12, 2, Formula::Symbol, Range::Either),
    (13, 2, Formula::SymbolFromPlace, Range::Signed),
    (14, 1, Formula::Symbol, Range::Either),
    (15, 1, Formula::SymbolFromPlace, Range::Signed),
    (18, 8, Formula::ThreadOffset, Range::Always),
    (22, 4, Formula::ThreadSlotFromPlace, Range::Signed),
    (23, 4, Formula::ThreadOffset, Range::Signed),
    (24, 8, Formula::SymbolFromPlace, Range::Always),
    (25, 8, Formula::SymbolFromGot, Range::Always),
    (26, 4, Formula::GotFromPlace, Range::Signed),
    (27, 8, Formula::Slot, Range::Always),
    (28, 8, Formula::SlotFromPlace, Range::Always),
    (29, 8, Formula::GotFromPlace, Range::Always),
    (32, 4, Formula::Size, Range::Unsigned),
    (33, 8, Formula::Size, Range::Always),
    (41, 4, Formula::SlotFromPlace, Range::Signed),
    (42, 4, Formula::SlotFromPlace, Range::Signed),
];

/// The first row of a number.
fn row_of<'s>(rows: &'s [Row], number: u32) -> Option<&'s Row>
    ensures { option_copied result ≡ find (λ row. row.0 == number) rows.now }
{
    rows.iter().find(|row| row.0 == number)
}

/// The kind of a type; None of one that isn't judged.
pub fn foreign_kind(number: u32) -> Option<Kind>
    ensures kind { option_map kind_view result ≡ find (λ k. k.number == number) foreign_kinds }
    ensures width { IfSome result (λ k. IsWidth k.width) }
    ensures slots { IfSome result (λ k. TellsSlots (kind_view k)) }
{
    match row_of(&KINDS, number) {
        Some(row) => Some(Kind {
            number: row.0,
            width: row.1,
            formula: row.2,
            range: row.3,
        }),
        None => None,
    }
}
