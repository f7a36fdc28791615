//! The symbols of a debuggable image: which there are, and what each says.
ghost use Rattle.std.specs.Prelude.{◌≡◌, ◌<◌, ◌++◌, IfOk, IfSome, OnOk, length, option_map};
ghost use Rattle.std.specs.Option.{option_and_then};
ghost use Rattle.elf_model.specs.Inputs.ObjectFile.{section, sections};
ghost use Rattle.elf_model.specs.Link.Pieces as pieces;
ghost use Rattle.placing.specs.Views.{piece_view};
ghost use Rattle.resolve.specs.Blocks.{block_view};
ghost use Rattle.resolve.specs.Views.{meaning_view, meaning_views, symbol_view};
ghost use Rattle.search.specs.Views.{loaded_view, loaded_views};
ghost use Rattle.debug_image.specs.Layouts.{IsLayout, laid_in};
ghost use Rattle.debug_image.specs.Symbols as spec;
ghost use Rattle.debug_image.specs.Views.{row_view, row_views};

use crate::long_names::has_long_names;
use crate::row::Row;
use crate::section_numbers::SectionNumbers;
use crate::sections::Section;
use elf_model::{
    ObjectId, SHN_ABS, STB_GLOBAL, STB_LOCAL, STT_FILE, STT_NOTYPE, STT_OBJECT, STT_SECTION,
    SectionRef, Symbol,
};
use layout::{Piece, Placement};
use resolve::{Block, Definition, SymbolOf, is_dropped};
use search::LoadedObject;
use std::alloc::{AllocError, Global};

/// Where a link is laid out: its objects, the places of their pieces, the sections of its image, their numbers, and where
/// thread-local storage begins.
#[derive(Clone, Copy)]
pub struct Layout<'c, 'a> {
    pub objects: &'c [LoadedObject<'a>],
    pub placement: &'c Placement<'a>,
    pub sections: &'c [Section<'a>],
    pub numbers: &'c SectionNumbers<'a>,
    pub thread_start: u64,
}

/// Section `i` of an object as a piece.
fn piece_of<'a>(number: u64, loaded: &LoadedObject<'a>, i: usize) -> Piece<'a>
    ensures { piece_view result
        ≡ pieces.piece_of number loaded.now.object i (section (sections loaded.now.object) i) }
{
    Piece {
        object: number,
        section: i as u64,
        header: loaded.object.section(i),
        name: loaded.object.section_name(i).unwrap_or(&[]),
        bytes: loaded.object.section_bytes(i).unwrap_or(&[]),
    }
}

/// The address of the section of an object in which a symbol is defined, where it is kept.
fn section_address(layout: &Layout<'_, '_>, symbol: &SymbolOf<'_>) -> Option<u64>
    ensures { result ≡ spec.address_of
        (laid_in layout.now) symbol.now.object symbol.now.entry.st_shndx }
{
    layout.placement.numbered_address(SectionRef {
        object: ObjectId(symbol.object),
        section: symbol.entry.st_shndx as u64,
    })
}

/// The value of a symbol in a section at an address: its address, or its offset in thread-local storage.
fn value_at(layout: &Layout<'_, '_>, piece: &Piece<'_>, at: u64, offset: u64) -> u64
    requires { IsLayout layout.now }
    ensures { result ≡ spec.value_at (laid_in layout.now) (piece_view piece.now) at offset }
{
    let address = at.wrapping_add(offset);
    if piece.header.is_thread_local() {
        address.saturating_sub(layout.thread_start)
    } else {
        address
    }
}

/// The number of a section in the table of section headers, where the first of the image has number 1; SHN_ABS for an empty
/// section, which has no header.
fn index_of(number: Option<usize>) -> u16
    ensures { result ≡ spec.index_of number }
{
    match number {
        Some(k) => (k.wrapping_add(1) % 65536) as u16,
        None => SHN_ABS,
    }
}

/// The symbol of a section of the image, of which the first has number 0 here.
fn placed_row<'a>(name: &'a [u8], entry: &Symbol, number: Option<usize>, value: u64) -> Row<'a>
    ensures { row_view result ≡ spec.placed_row name.now entry.now number value }
{
    Row {
        name,
        entry: Symbol {
            st_name: 0,
            st_info: entry.st_info,
            st_other: entry.st_other,
            st_shndx: index_of(number),
            st_value: value,
            st_size: entry.st_size,
        },
    }
}

fn absolute_row<'a>(symbol: &SymbolOf<'a>) -> Row<'a>
    ensures { row_view result ≡ spec.absolute_row symbol.now.name.now symbol.now.entry }
{
    Row {
        name: symbol.name,
        entry: Symbol {
            st_name: 0,
            ..symbol.entry
        },
    }
}

/// The section of an object in which a symbol is defined, as a piece.
fn symbol_piece<'a>(objects: &[LoadedObject<'a>], symbol: &SymbolOf<'_>) -> Option<Piece<'a>>
    ensures exact { option_map piece_view result
        ≡ spec.symbol_piece (loaded_views objects.now) (symbol_view symbol.now) }
    ensures inside { IfSome result (λ p. p.object < length objects.now) }
{
    let loaded = objects.get(symbol.object as usize)?;
    Some(piece_of(symbol.object, loaded, symbol.entry.st_shndx as usize))
}

/// What a symbol becomes that is defined in a piece at an address.
fn row_in<'a>(layout: &Layout<'_, 'a>, symbol: &SymbolOf<'a>, at: u64, piece: &Piece<'a>) -> Row<'a>
    requires layout { IsLayout layout.now }
    requires inside { piece.now.object < length layout.now.objects.now }
    ensures { row_view result
        ≡ spec.row_in (laid_in layout.now) (symbol_view symbol.now) at (piece_view piece.now) }
{
    let number = layout.numbers.of(piece);
    let value = value_at(layout, piece, at, symbol.entry.st_value);
    placed_row(symbol.name, &symbol.entry, number, value)
}

/// What a symbol of an object becomes whose section is at an address.
fn row_at<'a>(layout: &Layout<'_, 'a>, symbol: &SymbolOf<'a>, at: u64) -> Option<Row<'a>>
    requires { IsLayout layout.now }
    ensures { option_map row_view result
        ≡ spec.row_at (laid_in layout.now) (symbol_view symbol.now) at }
{
    let piece = symbol_piece(layout.objects, symbol)?;
    Some(row_in(layout, symbol, at, &piece))
}

/// What a symbol of an object becomes: an absolute one stays what it is; one in a kept section is of the section of the image to
/// which that belongs, and absolute where that is empty; any other one isn't there.
fn symbol_row<'a>(layout: &Layout<'_, 'a>, symbol: &SymbolOf<'a>) -> Option<Row<'a>>
    requires { IsLayout layout.now }
    ensures { option_map row_view result
        ≡ spec.symbol_row (laid_in layout.now) (symbol_view symbol.now) }
{
    if symbol.entry.st_shndx == SHN_ABS {
        return Some(absolute_row(symbol));
    }
    let at = section_address(layout, symbol)?;
    row_at(layout, symbol, at)
}

/// Whether a name isn't one that a compiler made for itself.
fn is_named(name: &[u8]) -> bool
    ensures { result ≡ spec.is_named name.now }
{
    !name.is_empty() && !name.starts_with(b".L")
}

/// Whether tools want a symbol, a LOCAL one: one that names a source file, or one with a name that doesn't begin with `.L`, but
/// for those of sections.
fn is_wanted(symbol: &SymbolOf<'_>) -> bool
    ensures { result ≡ spec.is_wanted (symbol_view symbol.now) }
{
    let kind = symbol.entry.symbol_type();
    if symbol.entry.binding() != STB_LOCAL || kind == STT_SECTION {
        return false;
    }
    kind == STT_FILE || is_named(symbol.name)
}

/// What a symbol of an object becomes that tools want as a LOCAL one.
fn local_row<'a>(layout: &Layout<'_, 'a>, symbol: &SymbolOf<'a>) -> Option<Row<'a>>
    requires { IsLayout layout.now }
    ensures { option_map row_view result
        ≡ spec.local_row (laid_in layout.now) (symbol_view symbol.now) }
{
    if is_wanted(symbol) {
        symbol_row(layout, symbol)
    } else {
        None
    }
}

/// Adds the LOCAL symbols of object `number`.
fn add_locals<'a>(
    rows: &mut Vec<Row<'a>>,
    layout: &Layout<'_, 'a>,
    number: u64,
    loaded: &LoadedObject<'a>,
) -> Result<(), AllocError>
    requires { IsLayout layout.now }
    ensures { OnOk result (row_views rows.new.items
        ≡ row_views rows.old.items
        ++ spec.own_rows (laid_in layout.now) number (loaded_view loaded.now)) }
{
    let entries = loaded.object.symbols();
    for j in 0..entries.len() {
        let entry = entries.at(j);
        let symbol = SymbolOf {
            object: number,
            number: j as u64,
            name: loaded.object.symbol_name(j),
            entry,
            dropped: is_dropped(loaded, &entry),
        };
        if let Some(row) = local_row(layout, &symbol) {
            rows.push(row)?;
        }
    }
    Ok(())
}

/// Adds the LOCAL symbols of object `number`, unless their names come to more bytes than it has.
fn add_object<'a>(
    rows: &mut Vec<Row<'a>>,
    layout: &Layout<'_, 'a>,
    number: u64,
    loaded: &LoadedObject<'a>,
) -> Result<(), AllocError>
    requires { IsLayout layout.now }
    ensures { OnOk result (row_views rows.new.items
        ≡ row_views rows.old.items
        ++ spec.object_rows (laid_in layout.now) number (loaded_view loaded.now)) }
{
    if has_long_names(loaded) {
        return Ok(());
    }
    add_locals(rows, layout, number, loaded)
}

/// The LOCAL symbols of all objects but those whose names come to more bytes than the object has.
pub fn local_rows<'a>(alloc: Global, layout: &Layout<'_, 'a>) -> Result<Vec<Row<'a>>, AllocError>
    requires { IsLayout layout.now }
    ensures { IfOk result (λ v. row_views v.items ≡ spec.local_rows (laid_in layout.now)) }
{
    let mut rows = Vec::new(alloc);
    for (k, loaded) in layout.objects.iter().enumerate() {
        add_object(&mut rows, layout, k as u64, loaded)?;
    }
    Ok(rows)
}

/// A common block as a symbol.
fn block_row<'a>(layout: &Layout<'_, 'a>, block: &Block<'a>) -> Option<Row<'a>>
    requires { IsLayout layout.now }
    ensures { option_map row_view result
        ≡ spec.block_row (laid_in layout.now) (block_view block.now) }
{
    let at = layout.placement.numbered_address(block.section())?;
    let number = layout.numbers.blocks();
    let entry = Symbol {
        st_name: 0,
        st_info: STB_GLOBAL * 16 + STT_OBJECT,
        st_other: 0,
        st_shndx: 0,
        st_value: 0,
        st_size: block.size,
    };
    Some(placed_row(block.name, &entry, number, at))
}

/// One of the linker's own names as a symbol.
fn linker_row<'a>(name: &'a [u8], value: u64) -> Row<'a>
    ensures { row_view result ≡ spec.linker_row name.now value }
{
    Row {
        name,
        entry: Symbol {
            st_name: 0,
            st_info: STB_GLOBAL * 16 + STT_NOTYPE,
            st_other: 0,
            st_shndx: SHN_ABS,
            st_value: value,
            st_size: 0,
        },
    }
}

/// What a symbol that a name means becomes; a LOCAL one has no name outside its object.
fn named_row<'a>(layout: &Layout<'_, 'a>, symbol: &SymbolOf<'a>) -> Option<Row<'a>>
    requires { IsLayout layout.now }
    ensures { option_map row_view result
        ≡ spec.named_row (laid_in layout.now) (symbol_view symbol.now) }
{
    if symbol.entry.binding() == STB_LOCAL {
        return None;
    }
    symbol_row(layout, symbol)
}

/// What a name means as a symbol.
fn meaning_row<'a>(layout: &Layout<'_, 'a>, meaning: &Definition<'a>) -> Option<Row<'a>>
    requires { IsLayout layout.now }
    ensures { option_map row_view result
        ≡ spec.meaning_row (laid_in layout.now) (meaning_view meaning.now) }
{
    match meaning {
        Definition::Symbol(symbol) => named_row(layout, symbol),
        Definition::Common(block) => block_row(layout, block),
        Definition::Linker(name, bound) => {
            Some(linker_row(name, layout.placement.bound(name, *bound)))
        }
    }
}

/// Adds what names mean.
pub fn add_meanings<'a>(
    rows: &mut Vec<Row<'a>>,
    layout: &Layout<'_, 'a>,
    listed: &[Definition<'a>],
) -> Result<(), AllocError>
    requires { IsLayout layout.now }
    ensures { OnOk result (row_views rows.new.items
        ≡ row_views rows.old.items
        ++ spec.meaning_rows (laid_in layout.now) (meaning_views listed.now)) }
{
    for meaning in listed {
        if let Some(row) = meaning_row(layout, meaning) {
            rows.push(row)?;
        }
    }
    Ok(())
}
