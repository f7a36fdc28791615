//! The order of the lines of a map.
ghost use Rattle.std.specs.Prelude.{◌≡◌, ℕ, ◌<◌, ◌↔◌, IsTrue, length, slice_index_or};
ghost use Rattle.elf_model.specs.Image.MapRecord.{map_of, object_row, place_row, common_row, slot_row, symbol_row};
ghost use Rattle.elf_model.specs.Image.MapText.{NameBefore, DropBefore, PlaceBefore, CommonBefore, SlotBefore, SymbolBefore, Ascends, IsVersioned, IsOrdered};
ghost use Rattle.elf_model.specs.declared.link_map.ObjectLine.{ObjectLine};

use elf_model::{CommonLine, DropLine, LinkMap, ObjectLine, PlaceLine, SlotLine, SymbolLine};
use std::cmp::Ordering;

pub fn name_before(a: &[u8], b: &[u8]) -> bool
    ensures { IsTrue result ↔ NameBefore a.now b.now }
{
    match a.cmp(b) {
        Ordering::Less => true,
        Ordering::Equal | Ordering::Greater => false,
    }
}

pub fn drop_before(p: &DropLine, q: &DropLine) -> bool
    ensures { IsTrue result ↔ DropBefore p.now q.now }
{
    p.object < q.object || p.object == q.object && p.section < q.section
}

fn place_before(p: &PlaceLine, q: &PlaceLine) -> bool
    ensures { IsTrue result ↔ PlaceBefore (place_row p.now) (place_row q.now) }
{
    p.object < q.object || p.object == q.object && p.section < q.section
}

fn common_before(p: &CommonLine, q: &CommonLine) -> bool
    ensures { IsTrue result ↔ CommonBefore (common_row p.now) (common_row q.now) }
{
    name_before(&p.name, &q.name)
}

fn slot_before(p: &SlotLine, q: &SlotLine) -> bool
    ensures { IsTrue result ↔ SlotBefore (slot_row p.now) (slot_row q.now) }
{
    p.address < q.address
}

fn symbol_before(p: &SymbolLine, q: &SymbolLine) -> bool
    ensures { IsTrue result ↔ SymbolBefore (symbol_row p.now) (symbol_row q.now) }
{
    name_before(&p.name, &q.name)
}

fn are_numbered(objects: &[ObjectLine]) -> bool
    ensures { IsTrue result ↔ ((k : ℕ) (d : ObjectLine) → k < length objects.now
        → (slice_index_or objects.now k d).object ≡ k) }
{
    objects
        .iter()
        .enumerate()
        .all(|(k, o)| o.object == k as u64)
}

fn drops_ascend(drops: &[DropLine]) -> bool
    ensures { IsTrue result ↔ Ascends DropBefore drops.now }
{
    drops.windows(2).all(|w| drop_before(&w[0], &w[1]))
}

fn places_ascend(places: &[PlaceLine]) -> bool
    ensures { IsTrue result ↔ Ascends (λ p q. PlaceBefore (place_row p) (place_row q)) places.now }
{
    places.windows(2).all(|w| place_before(&w[0], &w[1]))
}

fn commons_ascend(commons: &[CommonLine]) -> bool
    ensures { IsTrue result ↔ Ascends
        (λ p q. CommonBefore (common_row p) (common_row q)) commons.now }
{
    commons.windows(2).all(|w| common_before(&w[0], &w[1]))
}

fn slots_ascend(slots: &[SlotLine]) -> bool
    ensures { IsTrue result ↔ Ascends (λ p q. SlotBefore (slot_row p) (slot_row q)) slots.now }
{
    slots.windows(2).all(|w| slot_before(&w[0], &w[1]))
}

fn symbols_ascend(symbols: &[SymbolLine]) -> bool
    ensures { IsTrue result ↔ Ascends
        (λ p q. SymbolBefore (symbol_row p) (symbol_row q)) symbols.now }
{
    symbols.windows(2).all(|w| symbol_before(&w[0], &w[1]))
}

/// Whether there is such a version, and the line of a symbol table is in version 2 only.
fn is_versioned(map: &LinkMap) -> bool
    ensures { IsTrue result ↔ IsVersioned (map_of map.now) }
{
    match map.version {
        1 => map.symtab.is_none(),
        2 => true,
        _ => false,
    }
}

/// Whether a map's version and keys are as its text needs them: version 1 without the line of a symbol
/// table, or version 2; objects numbered 0, 1, 2, .., the other lines ascending strictly by object and
/// section, by address or by name.
pub fn ordered(map: &LinkMap) -> bool
    ensures { IsTrue result ↔ IsOrdered (map_of map.now) }
{
    if !is_versioned(map) {
        return false;
    }
    if !are_numbered(&map.objects) {
        return false;
    }
    if !drops_ascend(&map.drops) {
        return false;
    }
    if !places_ascend(&map.places) {
        return false;
    }
    if !commons_ascend(&map.commons) {
        return false;
    }
    if !slots_ascend(&map.slots) {
        return false;
    }
    symbols_ascend(&map.symbols)
}
