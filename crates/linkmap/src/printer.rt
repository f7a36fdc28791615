//! A map's text.
ghost use Rattle.std.specs.Prelude.{◌≡◌, ◌<◌, ◌^◌, ◌++◌, IfOk, OnOk, All, option_to_list};
ghost use Rattle.std.specs.List.{flat_map};
ghost use Rattle.elf_model.specs.Image.MapRecord.{map_of, object_row, place_row, common_row, slot_row, target_row, symbol_row};
ghost use Rattle.elf_model.specs.Image.MapText as map_text;
ghost use Rattle.linkmap.specs.Lines.{line_view, target_row_of};

use crate::digits::{put_address, put_last_number, put_number};
use crate::line::Line;
use crate::names::put_name;
use elf_model::{
    CommonLine, Definition, DropLine, GotLine, LinkMap, ObjectId, ObjectLine, PlaceLine, SlotKind,
    SlotLine, SlotTarget, SymbolLine, SymbolRef, SymtabLine, Target,
};
use std::alloc::{AllocError, Global};

#[tactic(auto, unfolding(elf_model::specs::Image::MapText::version_text))]
fn put_version(out: &mut Vec<u8>, version: u64) -> Result<(), AllocError>
    ensures { OnOk result (out.new.items ≡ out.old.items ++ map_text.version_text version) }
{
    out.extend_from_slice(b"ldmap ")?;
    put_last_number(out, version)?;
    Ok(())
}

#[tactic(auto, unfolding(elf_model::specs::Image::MapText::object_text))]
fn put_object_of(
    out: &mut Vec<u8>,
    object: u64,
    item: u64,
    offset: u64,
    path: &[u8],
) -> Result<(), AllocError>
    ensures text { OnOk result (out.new.items
        ≡ out.old.items
        ++ map_text.object_text
        (record { object = object; item = item; offset = offset; path = path.now })) }
    ensures fits { OnOk result (map_text.FitsObject
        (record { object = object; item = item; offset = offset; path = path.now })) }
{
    out.extend_from_slice(b"object ")?;
    put_number(out, object)?;
    put_number(out, item)?;
    put_number(out, offset)?;
    put_name(out, path)?;
    Ok(())
}

fn put_object(out: &mut Vec<u8>, o: &ObjectLine) -> Result<(), AllocError>
    ensures text { OnOk result (out.new.items
        ≡ out.old.items ++ map_text.object_text (object_row o.now)) }
    ensures fits { OnOk result (map_text.FitsObject (object_row o.now)) }
{
    put_object_of(out, o.object, o.item, o.offset, &o.path)
}

#[tactic(auto, unfolding(elf_model::specs::Image::MapText::drop_text))]
fn put_drop(out: &mut Vec<u8>, d: &DropLine) -> Result<(), AllocError>
    ensures text { OnOk result (out.new.items ≡ out.old.items ++ map_text.drop_text d.now) }
    ensures fits { OnOk result (map_text.FitsDrop d.now) }
{
    out.extend_from_slice(b"drop ")?;
    put_number(out, d.object)?;
    put_last_number(out, d.section)?;
    Ok(())
}

#[tactic(auto, unfolding(elf_model::specs::Image::MapText::place_text))]
fn put_place_of(
    out: &mut Vec<u8>,
    address: u64,
    size: u64,
    object: u64,
    section: u64,
    name: &[u8],
) -> Result<(), AllocError>
    ensures text { OnOk result (out.new.items
        ≡ out.old.items
        ++ map_text.place_text
        (record {
          address = address;
          size = size;
          object = object;
          section = section;
          name = name.now;
        })) }
    ensures fits { OnOk result (map_text.FitsPlace
        (record {
          address = address;
          size = size;
          object = object;
          section = section;
          name = name.now;
        })) }
{
    out.extend_from_slice(b"place ")?;
    put_address(out, address)?;
    put_number(out, size)?;
    put_number(out, object)?;
    put_number(out, section)?;
    put_name(out, name)?;
    Ok(())
}

fn put_place(out: &mut Vec<u8>, p: &PlaceLine) -> Result<(), AllocError>
    ensures text { OnOk result (out.new.items
        ≡ out.old.items ++ map_text.place_text (place_row p.now)) }
    ensures fits { OnOk result (map_text.FitsPlace (place_row p.now)) }
{
    put_place_of(out, p.address, p.size, p.object, p.section, &p.name)
}

#[tactic(auto, unfolding(elf_model::specs::Image::MapText::common_text))]
fn put_common_of(
    out: &mut Vec<u8>,
    address: u64,
    size: u64,
    align: u64,
    name: &[u8],
) -> Result<(), AllocError>
    ensures text { OnOk result (out.new.items
        ≡ out.old.items
        ++ map_text.common_text
        (record { address = address; size = size; align = align; name = name.now })) }
    ensures fits { OnOk result (map_text.FitsCommon
        (record { address = address; size = size; align = align; name = name.now })) }
{
    out.extend_from_slice(b"common ")?;
    put_address(out, address)?;
    put_number(out, size)?;
    put_number(out, align)?;
    put_name(out, name)?;
    Ok(())
}

fn put_common(out: &mut Vec<u8>, c: &CommonLine) -> Result<(), AllocError>
    ensures text { OnOk result (out.new.items
        ≡ out.old.items ++ map_text.common_text (common_row c.now)) }
    ensures fits { OnOk result (map_text.FitsCommon (common_row c.now)) }
{
    put_common_of(out, c.address, c.size, c.align, &c.name)
}

#[tactic(auto, unfolding(elf_model::specs::Image::MapText::got_text))]
fn put_got(out: &mut Vec<u8>, g: &GotLine) -> Result<(), AllocError>
    ensures text { OnOk result (out.new.items ≡ out.old.items ++ map_text.got_text g.now) }
    ensures fits { OnOk result (map_text.FitsGot g.now) }
{
    out.extend_from_slice(b"got ")?;
    put_address(out, g.address)?;
    put_last_number(out, g.size)?;
    Ok(())
}

fn put_kind(out: &mut Vec<u8>, kind: SlotKind) -> Result<(), AllocError>
    ensures { OnOk result (out.new.items ≡ out.old.items ++ map_text.kind_text kind) }
{
    match kind {
        SlotKind::Value => out.extend_from_slice(b"value ")?,
        SlotKind::Thread => out.extend_from_slice(b"thread ")?,
    }
    Ok(())
}

fn put_target(out: &mut Vec<u8>, target: &Target<'_>) -> Result<(), AllocError>
    ensures text { OnOk result (out.new.items
        ≡ out.old.items ++ map_text.target_text (target_row_of target.now)) }
    ensures fits { OnOk result (map_text.FitsTarget (target_row_of target.now)) }
{
    match target {
        Target::Name(name) => {
            out.extend_from_slice(b"name ")?;
            put_name(out, name)?;
            Ok(())
        }
        Target::Local(symbol) => {
            out.extend_from_slice(b"local ")?;
            put_number(out, symbol.object.0)?;
            put_last_number(out, symbol.symbol)?;
            Ok(())
        }
    }
}

/// What a slot stands for, with its name borrowed.
fn borrowed_target(target: &SlotTarget) -> Target<'_>
    ensures { target_row_of result ≡ target_row target.now }
{
    match target {
        SlotTarget::Name(name) => Target::Name(name),
        SlotTarget::Local { object, symbol } => Target::Local(SymbolRef {
            object: ObjectId(*object),
            symbol: *symbol,
        }),
    }
}

#[tactic(auto, unfolding(elf_model::specs::Image::MapText::slot_text))]
fn put_slot_of(
    out: &mut Vec<u8>,
    address: u64,
    kind: SlotKind,
    target: &Target<'_>,
) -> Result<(), AllocError>
    ensures text { OnOk result (out.new.items
        ≡ out.old.items
        ++ map_text.slot_text
        (record { address = address; kind = kind; target = target_row_of target.now })) }
    ensures fits { OnOk result (map_text.FitsSlot
        (record { address = address; kind = kind; target = target_row_of target.now })) }
{
    out.extend_from_slice(b"slot ")?;
    put_address(out, address)?;
    put_kind(out, kind)?;
    put_target(out, target)?;
    Ok(())
}

fn put_slot(out: &mut Vec<u8>, s: &SlotLine) -> Result<(), AllocError>
    ensures text { OnOk result (out.new.items
        ≡ out.old.items ++ map_text.slot_text (slot_row s.now)) }
    ensures fits { OnOk result (map_text.FitsSlot (slot_row s.now)) }
{
    put_slot_of(out, s.address, s.kind, &borrowed_target(&s.target))
}

/// Puts a word, and an object with the number of a symbol of it.
fn put_chosen(out: &mut Vec<u8>, word: &[u8], object: u64, symbol: u64) -> Result<(), AllocError>
    ensures text { OnOk result (out.new.items
        ≡ out.old.items ++ (word.now ++ (map_text.number object ++ map_text.number symbol))) }
    ensures fits { OnOk result ((object < 2 ^ 64) × (symbol < 2 ^ 64)) }
{
    out.extend_from_slice(word)?;
    put_number(out, object)?;
    put_number(out, symbol)?;
    Ok(())
}

fn put_definition(out: &mut Vec<u8>, definition: Definition) -> Result<(), AllocError>
    ensures text { OnOk result (out.new.items
        ≡ out.old.items ++ map_text.definition_text definition) }
    ensures fits { OnOk result (map_text.FitsDefinition definition) }
{
    match definition {
        Definition::Strong { object, symbol } => put_chosen(out, b"strong ", object, symbol),
        Definition::Weak { object, symbol } => put_chosen(out, b"weak ", object, symbol),
        Definition::Common => out.extend_from_slice(b"common "),
        Definition::Linker => out.extend_from_slice(b"linker "),
    }
}

#[tactic(auto, unfolding(elf_model::specs::Image::MapText::symbol_text))]
fn put_symbol_of(
    out: &mut Vec<u8>,
    address: u64,
    definition: Definition,
    name: &[u8],
) -> Result<(), AllocError>
    ensures text { OnOk result (out.new.items
        ≡ out.old.items
        ++ map_text.symbol_text
        (record { address = address; definition = definition; name = name.now })) }
    ensures fits { OnOk result (map_text.FitsSymbol
        (record { address = address; definition = definition; name = name.now })) }
{
    out.extend_from_slice(b"symbol ")?;
    put_address(out, address)?;
    put_definition(out, definition)?;
    put_name(out, name)?;
    Ok(())
}

fn put_symbol(out: &mut Vec<u8>, s: &SymbolLine) -> Result<(), AllocError>
    ensures text { OnOk result (out.new.items
        ≡ out.old.items ++ map_text.symbol_text (symbol_row s.now)) }
    ensures fits { OnOk result (map_text.FitsSymbol (symbol_row s.now)) }
{
    put_symbol_of(out, s.address, s.definition, &s.name)
}

#[tactic(auto, unfolding(elf_model::specs::Image::MapText::symtab_text))]
fn put_symtab(out: &mut Vec<u8>, t: SymtabLine) -> Result<(), AllocError>
    ensures text { OnOk result (out.new.items ≡ out.old.items ++ map_text.symtab_text t) }
    ensures fits { OnOk result (map_text.FitsSymtab t) }
{
    out.extend_from_slice(b"symtab ")?;
    put_number(out, t.offset)?;
    put_last_number(out, t.count)?;
    Ok(())
}

fn put_objects(out: &mut Vec<u8>, objects: &[ObjectLine]) -> Result<(), AllocError>
    ensures text { OnOk result (out.new.items
        ≡ out.old.items ++ flat_map (λ o. map_text.object_text (object_row o)) objects.now) }
    ensures fits { OnOk result (All (λ o. map_text.FitsObject (object_row o)) objects.now) }
{
    for o in objects {
        put_object(out, o)?;
    }
    Ok(())
}

fn put_drops(out: &mut Vec<u8>, drops: &[DropLine]) -> Result<(), AllocError>
    ensures text { OnOk result (out.new.items
        ≡ out.old.items ++ flat_map map_text.drop_text drops.now) }
    ensures fits { OnOk result (All map_text.FitsDrop drops.now) }
{
    for d in drops {
        put_drop(out, d)?;
    }
    Ok(())
}

fn put_places(out: &mut Vec<u8>, places: &[PlaceLine]) -> Result<(), AllocError>
    ensures text { OnOk result (out.new.items
        ≡ out.old.items ++ flat_map (λ p. map_text.place_text (place_row p)) places.now) }
    ensures fits { OnOk result (All (λ p. map_text.FitsPlace (place_row p)) places.now) }
{
    for p in places {
        put_place(out, p)?;
    }
    Ok(())
}

fn put_commons(out: &mut Vec<u8>, commons: &[CommonLine]) -> Result<(), AllocError>
    ensures text { OnOk result (out.new.items
        ≡ out.old.items ++ flat_map (λ c. map_text.common_text (common_row c)) commons.now) }
    ensures fits { OnOk result (All (λ c. map_text.FitsCommon (common_row c)) commons.now) }
{
    for c in commons {
        put_common(out, c)?;
    }
    Ok(())
}

fn put_gots(out: &mut Vec<u8>, got: &Option<GotLine>) -> Result<(), AllocError>
    ensures text { OnOk result (out.new.items
        ≡ out.old.items ++ flat_map map_text.got_text (option_to_list got.now)) }
    ensures fits { OnOk result (All map_text.FitsGot (option_to_list got.now)) }
{
    if let Some(g) = got {
        put_got(out, g)?;
    }
    Ok(())
}

fn put_slots(out: &mut Vec<u8>, slots: &[SlotLine]) -> Result<(), AllocError>
    ensures text { OnOk result (out.new.items
        ≡ out.old.items ++ flat_map (λ s. map_text.slot_text (slot_row s)) slots.now) }
    ensures fits { OnOk result (All (λ s. map_text.FitsSlot (slot_row s)) slots.now) }
{
    for s in slots {
        put_slot(out, s)?;
    }
    Ok(())
}

fn put_symbols(out: &mut Vec<u8>, symbols: &[SymbolLine]) -> Result<(), AllocError>
    ensures text { OnOk result (out.new.items
        ≡ out.old.items ++ flat_map (λ s. map_text.symbol_text (symbol_row s)) symbols.now) }
    ensures fits { OnOk result (All (λ s. map_text.FitsSymbol (symbol_row s)) symbols.now) }
{
    for s in symbols {
        put_symbol(out, s)?;
    }
    Ok(())
}

fn put_symtabs(out: &mut Vec<u8>, symtab: Option<SymtabLine>) -> Result<(), AllocError>
    ensures text { OnOk result (out.new.items
        ≡ out.old.items ++ flat_map map_text.symtab_text (option_to_list symtab)) }
    ensures fits { OnOk result (All map_text.FitsSymtab (option_to_list symtab)) }
{
    if let Some(t) = symtab {
        put_symtab(out, t)?;
    }
    Ok(())
}

/// Appends the text of a line.
pub fn put_line(out: &mut Vec<u8>, line: &Line<'_>) -> Result<(), AllocError>
    ensures { OnOk result (out.new.items
        ≡ out.old.items ++ map_text.line_text (line_view line.now)) }
{
    match *line {
        Line::Version(version) => put_version(out, version),
        Line::Object {
            object,
            item,
            offset,
            path,
        } => put_object_of(out, object, item, offset, path),
        Line::Drop(drop) => put_drop(out, &drop),
        Line::Place {
            address,
            size,
            object,
            section,
            name,
        } => put_place_of(out, address, size, object, section, name),
        Line::Common {
            address,
            size,
            align,
            name,
        } => put_common_of(out, address, size, align, name),
        Line::Got(got) => put_got(out, &got),
        Line::Slot {
            address,
            kind,
            target,
        } => put_slot_of(out, address, kind, &target),
        Line::Symbol {
            address,
            definition,
            name,
        } => put_symbol_of(out, address, definition, name),
        Line::Symtab(table) => put_symtab(out, table),
        Line::End => out.extend_from_slice(b"end\n"),
    }
}

/// The text of a map whose version and keys are in order.
pub fn print(alloc: Global, map: &LinkMap) -> Result<Vec<u8>, AllocError>
    requires { map_text.IsOrdered (map_of map.now) }
    ensures text { IfOk result (λ printed. printed.items ≡ map_text.text (map_of map.now)) }

    // So what is printed is read as the same map.
    ensures is_map { OnOk result (map_text.IsMap (map_of map.now)) }
{
    let mut out = Vec::new(alloc);
    put_version(&mut out, map.version)?;
    put_objects(&mut out, &map.objects)?;
    put_drops(&mut out, &map.drops)?;
    put_places(&mut out, &map.places)?;
    put_commons(&mut out, &map.commons)?;
    put_gots(&mut out, &map.got)?;
    put_slots(&mut out, &map.slots)?;
    put_symbols(&mut out, &map.symbols)?;
    put_symtabs(&mut out, map.symtab)?;
    out.extend_from_slice(b"end\n")?;
    Ok(out)
}
