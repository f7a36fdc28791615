//! The text of a link's own map, line by line: the objects, their dropped sections, their kept ones, their common blocks,
//! the GOT and its slots, the definitions with their values.
ghost use Rattle.std.specs.Prelude.{◌≡◌, ◌+◌, ◌*◌, ◌≤◌, ◌++◌, ◌^◌, All, IfOk, IfSome, OnOk, length, map, option_map, option_to_list};
ghost use Rattle.std.specs.Io.KnownBytes.{Appends, append_known};
ghost use Rattle.std.specs.List.{flat_map};
ghost use Rattle.elf_model.specs.Own.ImageFile.{own_end};
ghost use Rattle.elf_model.specs.Image.MapText as map_text;
ghost use Rattle.elf_model.specs.Inputs.ObjectFile.{sections};
ghost use Rattle.elf_model.specs.Own.OwnLayout.{IsNotTooLarge, own_got, own_in_load_order, own_slots, own_where, slots_from};
ghost use Rattle.elf_model.specs.Link.Pieces.{AreLawfulKinds, kept_sections, pieces_from};
ghost use Rattle.elf_model.specs.Image.RightLink.{drop_rows, drops_from, object_rows, symbol_row_of};
ghost use Rattle.resolve.specs.Views.{meaning_view, meaning_views};
ghost use Rattle.search.specs.Views.{loaded_view, loaded_views};
ghost use Rattle.got_tls.specs.Views.{slot_views};
ghost use Rattle.image_write.specs.CommonRows.{common_rows_of, own_commons};
ghost use Rattle.image_write.specs.Maps.{LiesWithin, own_record, own_row, own_table};
ghost use Rattle.image_write.specs.Tables.{HasTable, IsInRange, line_of};
ghost use Rattle.linker.specs.Linkages.{IsOwnText, PutsOwnText};
ghost use Rattle.linker.specs.OwnDefinitions.{meanings_of, table_with};

use crate::line_sink::{LineFile, LineSink, room_for_run};
use crate::own_definitions::{OwnDefinitions, own_definitions, put_own_commons, put_own_symbols};
use crate::own_map::{MAP_VERSION, address_of, has_drop_line, row_definition, symtab_line};
use crate::slot_lines::got_line;
use elf_model::DropLine;
use got_tls::{Slot, Slots};
use image_write::{Linkage, Sink, SymbolTable, WriteFault, definition_value};
use layout::Placement;
use linkmap::Line;
use resolve::Definition;
use search::{Loaded, LoadedObject};
use std::alloc::{AllocError, Global};

/// The lines of loaded objects.
fn put_objects<T: LineSink>(text: &mut T, objects: &[LoadedObject<'_>]) -> Result<(), T::Fault>
    ensures { OnOk result (Appends (T.told text.old) (T.told text.new)
        (flat_map map_text.object_text (object_rows 0 (loaded_views objects.now)))) }
{
    for (k, loaded) in objects.iter().enumerate() {
        let line = Line::Object {
            object: k as u64,
            item: loaded.item,
            offset: loaded.offset,
            path: loaded.path.as_bytes(),
        };
        text.put(&line)?;
    }
    Ok(())
}

/// The drop lines of object `number`.
fn put_object_drops<T: LineSink>(
    text: &mut T,
    number: u64,
    loaded: &LoadedObject<'_>,
) -> Result<(), T::Fault>
    ensures { OnOk result (Appends (T.told text.old) (T.told text.new)
        (flat_map map_text.drop_text
        (drops_from number (loaded_view loaded.now) 0 (sections loaded.now.object)))) }
{
    let headers = loaded.object.sections();
    for i in 0..headers.len() {
        let header = headers.at(i);
        if has_drop_line(loaded, i, &header) {
            let line = DropLine {
                object: number,
                section: i as u64,
            };
            text.put(&Line::Drop(line))?;
        }
    }
    Ok(())
}

/// The lines of all dropped sections, in load order.
fn put_drops<T: LineSink>(text: &mut T, objects: &[LoadedObject<'_>]) -> Result<(), T::Fault>
    ensures { OnOk result (Appends (T.told text.old) (T.told text.new)
        (flat_map map_text.drop_text (drop_rows 0 (loaded_views objects.now)))) }
{
    for (k, loaded) in objects.iter().enumerate() {
        put_object_drops(text, k as u64, loaded)?;
    }
    Ok(())
}

/// The lines of the kept sections of object `number`.
fn put_object_places<T: LineSink>(
    text: &mut T,
    placement: &Placement<'_>,
    number: u64,
    loaded: &LoadedObject<'_>,
) -> Result<(), T::Fault>
    ensures { OnOk result (Appends (T.told text.old) (T.told text.new)
        (flat_map map_text.place_text
        (map (own_row placement.now)
        (pieces_from number (loaded_view loaded.now) 0 (sections loaded.now.object))))) }
{
    let headers = loaded.object.sections();
    for i in 0..headers.len() {
        let header = headers.at(i);
        if loaded.is_kept(i, &header) {
            let line = Line::Place {
                address: address_of(placement, number, i),
                size: header.sh_size,
                object: number,
                section: i as u64,
                name: loaded.object.section_name(i).unwrap_or(&[]),
            };
            text.put(&line)?;
        }
    }
    Ok(())
}

/// The lines of all kept sections, in load order.
fn put_places<T: LineSink>(
    text: &mut T,
    placement: &Placement<'_>,
    objects: &[LoadedObject<'_>],
) -> Result<(), T::Fault>
    ensures { OnOk result (Appends (T.told text.old) (T.told text.new)
        (flat_map map_text.place_text
        (map (own_row placement.now) (kept_sections (loaded_views objects.now))))) }
{
    for (k, loaded) in objects.iter().enumerate() {
        put_object_places(text, placement, k as u64, loaded)?;
    }
    Ok(())
}

/// The line of what a name means where that is a common block.
fn put_common<T: LineSink>(
    text: &mut T,
    placement: &Placement<'_>,
    meaning: &Definition<'_>,
) -> Result<(), T::Fault>
    ensures { OnOk result (Appends (T.told text.old) (T.told text.new)
        (flat_map map_text.common_text
        (common_rows_of placement.now.base placement.now.objects (meaning_view meaning.now)))) }
{
    if let Definition::Common(block) = meaning {
        let line = Line::Common {
            address: address_of(placement, block.object, block.number as usize),
            size: block.size,
            align: block.align,
            name: block.name,
        };
        text.put(&line)?;
    }
    Ok(())
}

/// The lines of the common blocks among definitions, in their order.
pub fn put_commons<T: LineSink>(
    text: &mut T,
    placement: &Placement<'_>,
    listed: &[Definition<'_>],
) -> Result<(), T::Fault>
    ensures { OnOk result (Appends (T.told text.old) (T.told text.new)
        (flat_map map_text.common_text
        (own_commons placement.now.base placement.now.objects (meaning_views listed.now)))) }
{
    for meaning in listed {
        put_common(text, placement, meaning)?;
    }
    Ok(())
}

/// The line of the GOT, where there is one.
fn put_got<T: LineSink>(
    text: &mut T,
    placement: &Placement<'_>,
    slots: &Slots<'_>,
) -> Result<(), T::Fault>
    requires { slots.now ≡ own_table placement.now.objects }
    ensures { OnOk result (Appends (T.told text.old) (T.told text.new)
        (flat_map map_text.got_text
        (option_to_list (own_got placement.now.base placement.now.objects)))) }
{
    if let Some(line) = got_line(placement, slots) {
        text.put(&Line::Got(line))?;
    }
    Ok(())
}

/// The lines of the slots of a GOT at an address, which ends within the addresses.
fn put_slots_from<T: LineSink>(text: &mut T, got: u64, slots: &[Slot<'_>]) -> Result<(), T::Fault>
    requires { got + 8 * length slots.now ≤ 2 ^ 46 }
    ensures { OnOk result (Appends (T.told text.old) (T.told text.new)
        (flat_map map_text.slot_text (slots_from (got + 8) (slot_views slots.now)))) }
{
    let mut address = got;
    for slot in slots {
        address += 8;
        let line = Line::Slot {
            address,
            kind: slot.kind(),
            target: slot.target(),
        };
        text.put(&line)?;
    }
    Ok(())
}

/// The lines of the slots, in the order in which they stand.
fn put_slots<T: LineSink>(
    text: &mut T,
    placement: &Placement<'_>,
    slots: &Slots<'_>,
) -> Result<(), T::Fault>
    requires made { slots.now ≡ own_table placement.now.objects }
    requires kinds { AreLawfulKinds placement.now.objects }
    requires fits { IsNotTooLarge placement.now.base placement.now.objects }
    ensures { OnOk result (Appends (T.told text.old) (T.told text.new)
        (flat_map map_text.slot_text (own_slots placement.now.base placement.now.objects))) }
{
    match placement.got() {
        Some(got) => put_slots_from(text, got, slots.slots()),
        None => Ok(()),
    }
}

/// The line of a definition.
fn put_symbol<T: LineSink>(
    text: &mut T,
    placement: &Placement<'_>,
    meaning: &Definition<'_>,
) -> Result<(), T::Fault>
    requires kinds { AreLawfulKinds placement.now.objects }
    requires within { LiesWithin (own_in_load_order placement.now.base placement.now.objects)
        (meaning_view meaning.now) }
    ensures { OnOk result (Appends (T.told text.old) (T.told text.new)
        (map_text.symbol_text
        (symbol_row_of (own_where placement.now.base placement.now.objects)
        (meaning_view meaning.now)))) }
{
    let line = Line::Symbol {
        address: definition_value(placement, meaning),
        definition: row_definition(meaning),
        name: meaning.name(),
    };
    text.put(&line)
}

/// The lines of definitions, in their order.
pub fn put_symbols<T: LineSink>(
    text: &mut T,
    placement: &Placement<'_>,
    listed: &[Definition<'_>],
) -> Result<(), T::Fault>
    requires kinds { AreLawfulKinds placement.now.objects }
    requires within { All (λ m. LiesWithin
        (own_in_load_order placement.now.base placement.now.objects) (meaning_view m)) listed.now }
    ensures { OnOk result (Appends (T.told text.old) (T.told text.new)
        (flat_map map_text.symbol_text
        (map (symbol_row_of (own_where placement.now.base placement.now.objects))
        (meaning_views listed.now)))) }
{
    for meaning in listed {
        put_symbol(text, placement, meaning)?;
    }
    Ok(())
}

/// The line of a symbol table, where there is one.
fn put_table<T: LineSink>(text: &mut T, table: Option<SymbolTable>) -> Result<(), T::Fault>
    requires { IfSome table IsInRange }
    ensures { OnOk result (Appends (T.told text.old) (T.told text.new)
        (flat_map map_text.symtab_text (option_to_list (option_map line_of table)))) }
{
    if let Some(line) = symtab_line(table) {
        text.put(&Line::Symtab(line))?;
    }
    Ok(())
}

/// The lines of objects where they are laid out with their GOT, of the definitions that have a line, and of the table of these.
fn put_layout<T: LineSink>(
    alloc: Global,
    text: &mut T,
    placement: &Placement<'_>,
    loaded: &Loaded<'_>,
    slots: &Slots<'_>,
    definitions: &OwnDefinitions<'_, '_>,
) -> Result<(), T::Fault>
    requires same { placement.now ≡ record {
      base = loaded.now.plan.base;
      objects = loaded.now.objects;
    } }
    requires slots { slots.now ≡ own_table placement.now.objects }
    requires kinds { AreLawfulKinds placement.now.objects }
    requires fits { IsNotTooLarge placement.now.base placement.now.objects }
    requires inside { All (LiesWithin (own_in_load_order placement.now.base placement.now.objects))
        (meanings_of definitions.now) }
    requires table { HasTable loaded.now.objects (own_end loaded.now.plan.base loaded.now.objects)
        (meanings_of definitions.now) loaded.now.plan.strip (table_with definitions.now) }
    ensures { OnOk result (Appends (T.told text.old) (T.told text.new)
        (map_text.text
        (own_record placement.now loaded.now.plan.strip (meanings_of definitions.now)))) }
{
    let objects = loaded.objects();
    text.put(&Line::Version(MAP_VERSION))?;
    put_objects(text, objects)?;
    put_drops(text, objects)?;
    put_places(text, placement, objects)?;
    put_own_commons(alloc, text, placement, definitions)?;
    put_got(text, placement, slots)?;
    put_slots(text, placement, slots)?;
    put_own_symbols(alloc, text, placement, definitions)?;
    put_table(text, definitions.table())?;
    text.put(&Line::End)?;
    Ok(())
}

/// Puts the text of a link's map.
fn put_map<T: LineSink>(alloc: Global, text: &mut T, linkage: &Linkage<'_>) -> Result<(), T::Fault>
    ensures { OnOk result (PutsOwnText linkage.now (T.told text.old) (T.told text.new)) }
{
    let parts = linkage.parts();
    let definitions = own_definitions(alloc, linkage)?;
    put_layout(
        alloc,
        text,
        &parts.placement,
        linkage.loaded(),
        &parts.slots,
        &definitions,
    )
}

/// The text of a link's map.
pub fn map_text(alloc: Global, linkage: &Linkage<'_>) -> Result<Vec<u8>, AllocError>
    ensures { IfOk result (λ v. IsOwnText linkage.now v.items) }
{
    let mut text = Vec::new(alloc);
    put_map(alloc, &mut text, linkage)?;
    Ok(text)
}

/// Puts the text of a link's map, and gives the device all of it.
fn put_whole_map<S: Sink + Drop>(
    alloc: Global,
    lines: &mut LineFile<S>,
    linkage: &Linkage<'_>,
) -> Result<(), WriteFault>
    ensures { OnOk result (PutsOwnText linkage.now
        (append_known (S.told lines.old.sink) lines.old.run.items) (S.told lines.new.sink)) }
{
    put_map(alloc, lines, linkage)?;
    lines.finish()
}

/// Writes the text of a link's map to a device, by runs of 64 KiB, and hands the device back.
///
/// # Errors
///
/// Memory where memory is refused, Device where the device fails, which isn't called again then: it may have taken a part.
pub fn write_map<S: Sink + Drop>(
    alloc: Global,
    linkage: &Linkage<'_>,
    sink: S,
) -> (S, Result<(), WriteFault>)
    ensures { OnOk result.1 (PutsOwnText linkage.now (S.told sink) (S.told result.0)) }
{
    let run = match room_for_run(alloc) {
        Ok(run) => run,
        Err(_) => return (sink, Err(WriteFault::Memory)),
    };
    let mut lines = LineFile::new(sink, run);
    let done = put_whole_map(alloc, &mut lines, linkage);
    (lines.into_sink(), done)
}
