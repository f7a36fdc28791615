//! The link map of objects where they are laid out: the objects, their dropped sections, their kept ones, their common
//! blocks, the GOT and its slots, the definitions with their values.
ghost use Rattle.std.specs.Prelude.{◌≡◌, ◌++◌, All, IfOk, IfSome, OnOk, find, map, option_map, unwrap_or};
ghost use Rattle.elf_model.specs.Own.ImageFile.{common_row_of, own_end};
ghost use Rattle.elf_model.specs.Image.MapRecord.{common_row, map_of, object_row, place_row, symbol_row};
ghost use Rattle.elf_model.specs.Inputs.ObjectFile.{sections};
ghost use Rattle.elf_model.specs.Link.Meaning.{Symbol};
ghost use Rattle.elf_model.specs.Own.OwnLayout.{IsNotTooLarge, own_in_load_order, own_placed, own_where};
ghost use Rattle.elf_model.specs.Link.Pieces.{AreLawfulKinds, kept_sections, piece_of, pieces_from};
ghost use Rattle.elf_model.specs.Link.Placement.{is_of_section};
ghost use Rattle.elf_model.specs.Image.RightLink.{definition_row, drop_rows, drops_from, is_dropped_line, object_rows, symbol_row_of};
ghost use Rattle.resolve.specs.Blocks.{block_view};
ghost use Rattle.resolve.specs.Views.{meaning_view, meaning_views, symbol_view};
ghost use Rattle.search.specs.Views.{loaded_view, loaded_views};
ghost use Rattle.image_write.specs.CommonRows.{own_commons};
ghost use Rattle.image_write.specs.Maps.{IsMapOf, LiesWithin, own_row, own_table};
ghost use Rattle.image_write.specs.Tables.{HasTable, IsInRange, line_of};

use crate::slot_lines::{got_line, slot_lines};
use elf_model::{
    CommonLine, Definition as Told, DropLine, LinkMap, ObjectId, ObjectLine, PlaceLine, STB_WEAK,
    SectionHeader, SectionRef, SymbolLine, SymtabLine,
};
use elf_read::ObjectFile;
use got_tls::Slots;
use image_write::{SymbolTable, definition_value};
use layout::Placement;
use resolve::{Block, Definition, SymbolOf};
use search::{Loaded, LoadedObject};
use std::alloc::{AllocError, Global};

/// The version of the maps that the linker writes.
pub const MAP_VERSION: u64 = 2;

/// A symbol as a map names it: strong, or weak.
fn definition_of(symbol: &SymbolOf<'_>) -> Told
    ensures { result ≡ definition_row (Symbol (symbol_view symbol.now)) }
{
    let (object, number) = (symbol.object, symbol.number);
    if symbol.entry.binding() == STB_WEAK {
        return Told::Weak {
            object,
            symbol: number,
        };
    }
    Told::Strong {
        object,
        symbol: number,
    }
}

/// What a name means as a map names it.
pub fn row_definition(meaning: &Definition<'_>) -> Told
    ensures { result ≡ definition_row (meaning_view meaning.now) }
{
    match meaning {
        Definition::Symbol(symbol) => definition_of(symbol),
        Definition::Common(_) => Told::Common,
        Definition::Linker(_, _) => Told::Linker,
    }
}

/// The line of a definition.
fn symbol_line(
    alloc: Global,
    placement: &Placement<'_>,
    meaning: &Definition<'_>,
) -> Result<SymbolLine, AllocError>
    requires kinds { AreLawfulKinds placement.now.objects }
    requires within { LiesWithin (own_in_load_order placement.now.base placement.now.objects)
        (meaning_view meaning.now) }
    ensures { IfOk result (λ l. symbol_row l
        ≡ symbol_row_of (own_where placement.now.base placement.now.objects)
        (meaning_view meaning.now)) }
{
    Ok(SymbolLine {
        address: definition_value(placement, meaning),
        definition: row_definition(meaning),
        name: Vec::from_slice(alloc, meaning.name())?,
    })
}

/// The lines of definitions, in their order.
fn symbol_lines(
    alloc: Global,
    placement: &Placement<'_>,
    listed: &[Definition<'_>],
) -> Result<Vec<SymbolLine>, AllocError>
    requires kinds { AreLawfulKinds placement.now.objects }
    requires within { All (λ m. LiesWithin
        (own_in_load_order placement.now.base placement.now.objects) (meaning_view m)) listed.now }
    ensures { IfOk result (λ v. map symbol_row v.items
        ≡ map (symbol_row_of (own_where placement.now.base placement.now.objects))
        (meaning_views listed.now)) }
{
    let mut lines = Vec::with_capacity(alloc, listed.len())?;
    for meaning in listed {
        lines.push(symbol_line(alloc, placement, meaning)?)?;
    }
    Ok(lines)
}

/// The lines of loaded objects.
fn object_lines(alloc: Global, objects: &[LoadedObject<'_>]) -> Result<Vec<ObjectLine>, AllocError>
    ensures { IfOk result (λ v. map object_row v.items ≡ object_rows 0 (loaded_views objects.now)) }
{
    let mut lines = Vec::with_capacity(alloc, objects.len())?;
    for (k, loaded) in objects.iter().enumerate() {
        lines.push(ObjectLine {
            object: k as u64,
            item: loaded.item,
            offset: loaded.offset,
            path: Vec::from_slice(alloc, loaded.path.as_bytes())?,
        })?;
    }
    Ok(lines)
}

/// Whether section `i` of an object has a drop line: it would be kept, were it not dropped.
pub fn has_drop_line(loaded: &LoadedObject<'_>, i: usize, header: &SectionHeader) -> bool
    ensures { result ≡ is_dropped_line (loaded_view loaded.now) i header.now }
{
    header.is_alloc() && loaded.is_dropped(i)
}

/// Adds the drop lines of object `number`.
fn add_drop_lines(
    lines: &mut Vec<DropLine>,
    number: u64,
    loaded: &LoadedObject<'_>,
) -> Result<(), AllocError>
    ensures { OnOk result (lines.new.items
        ≡ lines.old.items
        ++ drops_from number (loaded_view loaded.now) 0 (sections loaded.now.object)) }
{
    let headers = loaded.object.sections();
    for i in 0..headers.len() {
        let header = headers.at(i);
        if has_drop_line(loaded, i, &header) {
            lines.push(DropLine {
                object: number,
                section: i as u64,
            })?;
        }
    }
    Ok(())
}

/// The lines of all dropped sections, in load order.
fn drop_lines(alloc: Global, objects: &[LoadedObject<'_>]) -> Result<Vec<DropLine>, AllocError>
    ensures { IfOk result (λ v. v.items ≡ drop_rows 0 (loaded_views objects.now)) }
{
    let mut lines = Vec::new(alloc);
    for (k, loaded) in objects.iter().enumerate() {
        add_drop_lines(&mut lines, k as u64, loaded)?;
    }
    Ok(lines)
}

/// The address of a section of an object, 0 where it isn't kept.
pub fn address_of(placement: &Placement<'_>, object: u64, section: usize) -> u64
    ensures { result ≡ unwrap_or
        (option_map (λ q. q.at)
        (find (is_of_section object section)
        (own_placed placement.now.base placement.now.objects))) 0 }
{
    match placement.piece_address(SectionRef {
        object: ObjectId(object),
        section: section as u64,
    }) {
        Some(at) => at,
        None => 0,
    }
}

/// The line of section `i` of object `number`.
fn place_line(
    alloc: Global,
    placement: &Placement<'_>,
    number: u64,
    object: &ObjectFile<'_>,
    i: usize,
    header: &SectionHeader,
) -> Result<PlaceLine, AllocError>
    ensures { IfOk result (λ l. place_row l
        ≡ own_row placement.now (piece_of number object.now i header.now)) }
{
    Ok(PlaceLine {
        address: address_of(placement, number, i),
        size: header.sh_size,
        object: number,
        section: i as u64,
        name: Vec::from_slice(alloc, object.section_name(i).unwrap_or(&[]))?,
    })
}

/// Adds the lines of the kept sections of object `number`.
fn add_place_lines(
    alloc: Global,
    lines: &mut Vec<PlaceLine>,
    placement: &Placement<'_>,
    number: u64,
    loaded: &LoadedObject<'_>,
) -> Result<(), AllocError>
    ensures { OnOk result (map place_row lines.new.items
        ≡ map place_row lines.old.items
        ++ map (own_row placement.now)
        (pieces_from number (loaded_view loaded.now) 0 (sections loaded.now.object))) }
{
    let headers = loaded.object.sections();
    for i in 0..headers.len() {
        let header = headers.at(i);
        if loaded.is_kept(i, &header) {
            lines.push(place_line(alloc, placement, number, &loaded.object, i, &header)?)?;
        }
    }
    Ok(())
}

/// The lines of all kept sections, in load order.
fn place_lines(
    alloc: Global,
    placement: &Placement<'_>,
    objects: &[LoadedObject<'_>],
) -> Result<Vec<PlaceLine>, AllocError>
    ensures { IfOk result (λ v. map place_row v.items
        ≡ map (own_row placement.now) (kept_sections (loaded_views objects.now))) }
{
    let mut lines = Vec::with_capacity(alloc, placement.places().len())?;
    for (k, loaded) in objects.iter().enumerate() {
        add_place_lines(alloc, &mut lines, placement, k as u64, loaded)?;
    }
    Ok(lines)
}

/// The line of a common block.
fn common_line(
    alloc: Global,
    placement: &Placement<'_>,
    block: &Block<'_>,
) -> Result<CommonLine, AllocError>
    ensures { IfOk result (λ l. common_row l
        ≡ common_row_of placement.now.base placement.now.objects (block_view block.now)) }
{
    Ok(CommonLine {
        address: address_of(placement, block.object, block.number as usize),
        size: block.size,
        align: block.align,
        name: Vec::from_slice(alloc, block.name)?,
    })
}

/// The lines of the common blocks among definitions, in their order.
fn common_lines(
    alloc: Global,
    placement: &Placement<'_>,
    listed: &[Definition<'_>],
) -> Result<Vec<CommonLine>, AllocError>
    ensures { IfOk result (λ v. map common_row v.items
        ≡ own_commons placement.now.base placement.now.objects (meaning_views listed.now)) }
{
    let mut lines = Vec::new(alloc);
    for meaning in listed {
        if let Definition::Common(block) = meaning {
            lines.push(common_line(alloc, placement, block)?)?;
        }
    }
    Ok(lines)
}

/// The line of a symbol table, where there is one.
pub fn symtab_line(table: Option<SymbolTable>) -> Option<SymtabLine>
    requires { IfSome table IsInRange }
    ensures { result ≡ option_map line_of table }
{
    let table = table?;
    Some(SymtabLine {
        offset: table.symbols(),
        count: table.count,
    })
}

/// The map of objects that are laid out with their GOT and the definitions that have a line, in the order of their names.
pub fn map_of_layout(
    alloc: Global,
    placement: &Placement<'_>,
    loaded: &Loaded<'_>,
    slots: &Slots<'_>,
    listed: &[Definition<'_>],
    table: Option<SymbolTable>,
) -> Result<LinkMap, AllocError>
    requires same { placement.now ≡ record {
      base = loaded.now.plan.base;
      objects = loaded.now.objects;
    } }
    requires slots { slots.now ≡ own_table placement.now.objects }
    requires kinds { AreLawfulKinds placement.now.objects }
    requires fits { IsNotTooLarge placement.now.base placement.now.objects }
    requires inside { All (λ m. LiesWithin
        (own_in_load_order placement.now.base placement.now.objects) (meaning_view m)) listed.now }
    requires table { HasTable loaded.now.objects (own_end loaded.now.plan.base loaded.now.objects)
        (meaning_views listed.now) loaded.now.plan.strip table }
    ensures { IfOk result (λ m.
        IsMapOf placement.now loaded.now.plan.strip (meaning_views listed.now) (map_of m)) }
{
    let objects = loaded.objects();
    Ok(LinkMap {
        version: MAP_VERSION,
        objects: object_lines(alloc, objects)?,
        drops: drop_lines(alloc, objects)?,
        places: place_lines(alloc, placement, objects)?,
        commons: common_lines(alloc, placement, listed)?,
        got: got_line(placement, slots),
        slots: slot_lines(alloc, placement, slots)?,
        symbols: symbol_lines(alloc, placement, listed)?,
        symtab: symtab_line(table),
    })
}
