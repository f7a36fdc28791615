//! Which line may follow the lines of its kind that were read.
ghost use Rattle.std.specs.Prelude.{◌≡◌, ◌<◌, ◌↔◌, IsTrue};
ghost use Rattle.elf_model.specs.Image.MapText.{DropBefore, PlaceBefore, CommonBefore, SlotBefore, SymbolBefore};
ghost use Rattle.linkmap.specs.Borrowed.{common_row, place_row, slot_row, symbol_row};
ghost use Rattle.linkmap.specs.Order.{IsAboveLast};

use crate::borrowed::{BorrowedCommon, BorrowedPlace, BorrowedSlot, BorrowedSymbol};
use crate::keys::{drop_before, name_before};
use crate::symbol_lines::SymbolLines;
use elf_model::DropLine;

fn place_before(p: &BorrowedPlace<'_>, q: &BorrowedPlace<'_>) -> bool
    ensures { IsTrue result ↔ PlaceBefore (place_row p.now) (place_row q.now) }
{
    p.object < q.object || p.object == q.object && p.section < q.section
}

fn common_before(p: &BorrowedCommon<'_>, q: &BorrowedCommon<'_>) -> bool
    ensures { IsTrue result ↔ CommonBefore (common_row p.now) (common_row q.now) }
{
    name_before(&p.name, &q.name)
}

fn slot_before(p: &BorrowedSlot<'_>, q: &BorrowedSlot<'_>) -> bool
    ensures { IsTrue result ↔ SlotBefore (slot_row p.now) (slot_row q.now) }
{
    p.address < q.address
}

fn symbol_before(p: &BorrowedSymbol<'_>, q: &BorrowedSymbol<'_>) -> bool
    ensures { IsTrue result ↔ SymbolBefore (symbol_row p.now) (symbol_row q.now) }
{
    name_before(p.name, q.name)
}

/// Whether a line may stand behind those of its kind so far.
pub fn may_follow_drops(drops: &[DropLine], d: &DropLine) -> bool
    ensures { IsTrue result ↔ IsAboveLast DropBefore drops.now d.now }
{
    match drops.last() {
        Some(last) => drop_before(last, d),
        None => true,
    }
}

/// Whether a line may stand behind those of its kind so far.
pub fn may_follow_places(places: &[BorrowedPlace<'_>], p: &BorrowedPlace<'_>) -> bool
    ensures { IsTrue result ↔ IsAboveLast
        (λ p q. PlaceBefore (place_row p) (place_row q)) places.now p.now }
{
    match places.last() {
        Some(last) => place_before(last, p),
        None => true,
    }
}

/// Whether a line may stand behind those of its kind so far.
pub fn may_follow_commons(commons: &[BorrowedCommon<'_>], c: &BorrowedCommon<'_>) -> bool
    ensures { IsTrue result ↔ IsAboveLast
        (λ p q. CommonBefore (common_row p) (common_row q)) commons.now c.now }
{
    match commons.last() {
        Some(last) => common_before(last, c),
        None => true,
    }
}

/// Whether a line may stand behind those of its kind so far.
pub fn may_follow_slots(slots: &[BorrowedSlot<'_>], s: &BorrowedSlot<'_>) -> bool
    ensures { IsTrue result ↔ IsAboveLast
        (λ p q. SlotBefore (slot_row p) (slot_row q)) slots.now s.now }
{
    match slots.last() {
        Some(last) => slot_before(last, s),
        None => true,
    }
}

/// Whether a line may stand behind those of its kind so far.
pub fn may_follow_symbols(symbols: &SymbolLines<'_>, s: &BorrowedSymbol<'_>) -> bool
    ensures { IsTrue result ↔ IsAboveLast SymbolBefore symbols.now.rows (symbol_row s.now) }
{
    match symbols.last() {
        Some(last) => symbol_before(&last, s),
        None => true,
    }
}
