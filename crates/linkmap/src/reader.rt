//! A map from its text.
ghost use Rattle.std.specs.Prelude.{◌≡◌, ◌↔◌, IsTrue, IfOk, IfErr, OnOk, MatchResult};
ghost use Rattle.elf_model.specs.Image.MapRecord.{MapRecord, map_of};
ghost use Rattle.elf_model.specs.Image.MapText.{End, IsMap, MapFails, text};
ghost use Rattle.linkmap.specs.Record.{AreBehind, IsRead, record_of};
ghost use Rattle.linkmap.specs.Order.{row, EndsBeforeDrops, EndsBeforePlaces, EndsBeforeCommons, EndsBeforeGot, EndsBeforeSlots, EndsBeforeSymbols, MayStand, add, empty_map};
ghost use Rattle.elf_model.specs.declared.faults.MapFault.TheVariants as map_fault;

use crate::borrowed::BorrowedMap;
use crate::digits::LineFault;
use crate::fields::{MapLine, read_line, read_version};
use crate::followers::{
    may_follow_commons, may_follow_drops, may_follow_places, may_follow_slots, may_follow_symbols,
};
use crate::owned::owned;
use crate::symbol_lines::SymbolLines;
use elf_model::{LinkMap, MapFault};
use std::alloc::{AllocError, Global};

fn empty<'t>(alloc: Global, version: u64) -> BorrowedMap<'t>
    ensures { record_of result ≡ empty_map version }
{
    BorrowedMap {
        version,
        objects: Vec::new(alloc),
        drops: Vec::new(alloc),
        places: Vec::new(alloc),
        commons: Vec::new(alloc),
        got: None,
        slots: Vec::new(alloc),
        symbols: SymbolLines::new(alloc),
        symtab: None,
    }
}

fn ends_before_symbols(map: &BorrowedMap<'_>) -> bool
    ensures { IsTrue result ↔ EndsBeforeSymbols (record_of map.now) }
{
    map.symbols.is_empty() && map.symtab.is_none()
}

fn ends_before_slots(map: &BorrowedMap<'_>) -> bool
    ensures { IsTrue result ↔ EndsBeforeSlots (record_of map.now) }
{
    map.slots.is_empty() && ends_before_symbols(map)
}

fn ends_before_got(map: &BorrowedMap<'_>) -> bool
    ensures { IsTrue result ↔ EndsBeforeGot (record_of map.now) }
{
    map.got.is_none() && ends_before_slots(map)
}

fn ends_before_commons(map: &BorrowedMap<'_>) -> bool
    ensures { IsTrue result ↔ EndsBeforeCommons (record_of map.now) }
{
    map.commons.is_empty() && ends_before_got(map)
}

fn ends_before_places(map: &BorrowedMap<'_>) -> bool
    ensures { IsTrue result ↔ EndsBeforePlaces (record_of map.now) }
{
    map.places.is_empty() && ends_before_commons(map)
}

fn ends_before_drops(map: &BorrowedMap<'_>) -> bool
    ensures { IsTrue result ↔ EndsBeforeDrops (record_of map.now) }
{
    map.drops.is_empty() && ends_before_places(map)
}

/// Whether a line may stand behind those of the map so far.
fn may_stand(map: &BorrowedMap<'_>, line: &MapLine<'_>) -> bool
    ensures { IsTrue result ↔ MayStand (record_of map.now) (row line.now) }
{
    match line {
        MapLine::Object(o) => ends_before_drops(map) && o.object == map.objects.len() as u64,
        MapLine::Drop(d) => ends_before_places(map) && may_follow_drops(&map.drops, d),
        MapLine::Place(p) => ends_before_commons(map) && may_follow_places(&map.places, p),
        MapLine::Common(c) => ends_before_got(map) && may_follow_commons(&map.commons, c),
        MapLine::Got(_) => ends_before_got(map),
        MapLine::Slot(s) => ends_before_symbols(map) && may_follow_slots(&map.slots, s),
        MapLine::Plain(s) => map.symtab.is_none() && may_follow_symbols(&map.symbols, s),
        MapLine::Symbol(s) => {
            map.symtab.is_none() && may_follow_symbols(&map.symbols, &s.borrowed())
        }
        MapLine::Symtab(_) => map.symtab.is_none() && map.version == 2,
        MapLine::End => false,
    }
}

/// Adds a line with which a text begins, and behind which there is a rest.
fn add_line<'t>(
    map: &mut BorrowedMap<'t>,
    line: MapLine<'t>,
    text: &'t [u8],
    rest: &'t [u8],
) -> Result<(), AllocError>
    requires stands { MayStand (record_of map.old) (row line) }
    requires plain { IsRead line text.now rest.now }
    requires here { AreBehind map.old text.now }
    ensures added { OnOk result (record_of map.new ≡ add (record_of map.old) (row line.entry)) }
    ensures here { OnOk result (AreBehind map.new rest.entry.now) }
{
    match line {
        MapLine::Object(o) => map.objects.push(o)?,
        MapLine::Drop(d) => map.drops.push(d)?,
        MapLine::Place(p) => map.places.push(p)?,
        MapLine::Common(c) => map.commons.push(c)?,
        MapLine::Got(g) => map.got = Some(g),
        MapLine::Slot(s) => map.slots.push(s)?,
        MapLine::Plain(s) => map.symbols.add(s, text, rest)?,
        MapLine::Symbol(s) => map.symbols.keep(s)?,
        MapLine::Symtab(t) => map.symtab = Some(t),
        MapLine::End => {}
    }
    Ok(())
}

fn is_end(line: &MapLine<'_>) -> bool
    ensures { IsTrue result ↔ (row line.now ≡ End) }
{
    matches!(line, MapLine::End)
}

/// The map that a text spells, with its names as they stand in the text. `Line(n)` is the first line, counted from 1, at
/// which the text is no beginning of a map.
pub fn read_borrowed(alloc: Global, bytes: &[u8]) -> Result<BorrowedMap<'_>, MapFault>
    ensures found { IfOk result (λ map.
        IsMap (record_of map) × (bytes.now ≡ text (record_of map))) }
    ensures fault { IfErr result (MapFails bytes.now) }

    // What `print` wrote is read as the same map, or memory was refused.
    ensures only { (m : MapRecord) → IsMap m → bytes.now ≡ text m
        → MatchResult result (λ map. record_of map ≡ m) (λ fault. fault ≡ map_fault.Memory) }
{
    let Some((version, mut rest)) = read_version(bytes) else {
        return Err(MapFault::Line(1));
    };
    let mut map = empty(alloc, version);
    let mut number = 2;
    'lines: loop {
        let (line, after) = match read_line(alloc, rest) {
            Ok(found) => found,
            Err(LineFault::Memory) => return Err(MapFault::Memory),
            Err(LineFault::Bad) => return Err(MapFault::Line(number)),
        };
        if is_end(&line) {
            if !after.is_empty() {
                return Err(MapFault::Line(number + 1));
            }
            return Ok(map);
        }
        if !may_stand(&map, &line) {
            return Err(MapFault::Line(number));
        }
        add_line(&mut map, line, rest, after)?;
        rest = after;
        number += 1;
    }
}

/// The map that a text spells. `Line(n)` is the first line, counted from 1, at which the text is no beginning
/// of a map.
pub fn read(alloc: Global, bytes: &[u8]) -> Result<LinkMap, MapFault>
    ensures found { IfOk result (λ map. IsMap (map_of map) × (bytes.now ≡ text (map_of map))) }
    ensures fault { IfErr result (MapFails bytes.now) }

    // What `print` wrote is read as the same map, or memory was refused.
    ensures only { (m : MapRecord) → IsMap m → bytes.now ≡ text m
        → MatchResult result (λ map. map_of map ≡ m) (λ fault. fault ≡ map_fault.Memory) }
{
    let borrowed = read_borrowed(alloc, bytes)?;
    let map = owned(alloc, borrowed)?;
    Ok(map)
}
