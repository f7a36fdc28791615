//! The tables of a link: its sections, its symbols and their names.
ghost use Rattle.std.specs.Prelude.{◌≡◌, ◌+◌, ◌≤◌, ◌++◌, All, IfOk, length};
ghost use Rattle.elf_model.specs.Own.ImageFile.{own_end};
ghost use Rattle.resolve.specs.Views.{meaning_views};
ghost use Rattle.debug_image.specs.DebugImage as spec;
ghost use Rattle.debug_image.specs.DebugSections.{IsLow, joined_rows, most_names};
ghost use Rattle.debug_image.specs.DebugViews.{joined_views};
ghost use Rattle.debug_image.specs.Layouts.{IsLayout, laid_in};
ghost use Rattle.debug_image.specs.SectionNumbers.{AreNumbers};
ghost use Rattle.debug_image.specs.Sections as image_sections;
ghost use Rattle.debug_image.specs.SectionViews.{section_views};
ghost use Rattle.debug_image.specs.Symbols as symbols;
ghost use Rattle.debug_image.specs.Views.{header_views, row_views, tables_view};

use crate::chunks::add_joined_rows;
use crate::debug_file::end_of;
use crate::headers::{HeaderRow, title_bytes};
use crate::joined::Joined;
use crate::row::Row;
use crate::section_numbers::{SectionNumbers, section_numbers};
use crate::sections::{Section, section_rows, sections};
use crate::symbol_rows::{Layout, add_meanings, local_rows};
use crate::symbol_table::symbol_bytes;
use crate::tables::Tables;
use image_write::Linkage;
use layout::Placement;
use resolve::Definition;
use std::alloc::{AllocError, Global};

/// The symbols of an image, and how many are LOCAL, with that of number 0.
#[derive(Drop)]
struct Rows<'a> {
    rows: Vec<Row<'a>>,
    locals: u64,
}

/// Where thread-local storage begins; 0 without any.
pub fn thread_start(placement: &Placement<'_>) -> u64
    ensures { result ≡ symbols.thread_start_of placement.now.base placement.now.objects }
{
    match placement.thread_block() {
        Some(block) => block.start,
        None => 0,
    }
}

/// Where a link is laid out, whose image has these sections, with these numbers.
fn layout_of<'c, 'a>(
    linkage: &'c Linkage<'a>,
    sections: &'c [Section<'a>],
    numbers: &'c SectionNumbers<'a>,
) -> Layout<'c, 'a>
    requires sections { section_views sections.now
        ≡ spec.sections_in linkage.now.plan.base linkage.now.objects }
    requires numbers { AreNumbers (length linkage.now.objects)
        (section_views sections.now) numbers.now }
    ensures layout { IsLayout result }
    ensures laid { laid_in result ≡ spec.laid_of linkage.now.plan.base linkage.now.objects }
{
    let placement = &linkage.parts().placement;
    Layout {
        objects: linkage.loaded().objects(),
        placement,
        sections,
        numbers,
        thread_start: thread_start(placement),
    }
}

/// The LOCAL symbols, where they are wanted.
fn wanted_locals<'a>(
    alloc: Global,
    layout: &Layout<'_, 'a>,
    wanted: bool,
) -> Result<Vec<Row<'a>>, AllocError>
    requires { IsLayout layout.now }
    ensures { IfOk result (λ v. row_views v.items ≡ spec.locals_of wanted (laid_in layout.now)) }
{
    if wanted {
        return local_rows(alloc, layout);
    }
    Ok(Vec::new(alloc))
}

/// The symbols: the LOCAL ones, where they are wanted, and what names mean.
fn all_rows<'a>(
    alloc: Global,
    layout: &Layout<'_, 'a>,
    listed: &[Definition<'a>],
    wanted: bool,
) -> Result<Rows<'a>, AllocError>
    requires { IsLayout layout.now }
    ensures rows { IfOk result (λ r. row_views r.rows.items
        ≡ spec.rows_of wanted (laid_in layout.now) (meaning_views listed.now)) }
    ensures locals { IfOk result (λ r. r.locals
        ≡ length (spec.locals_of wanted (laid_in layout.now)) + 1) }
{
    let mut rows = wanted_locals(alloc, layout, wanted)?;
    let locals = rows.len() as u64 + 1;
    add_meanings(&mut rows, layout, listed)?;
    Ok(Rows { rows, locals })
}

/// The sections of the image of a link.
fn link_sections<'a>(alloc: Global, linkage: &Linkage<'a>) -> Result<Vec<Section<'a>>, AllocError>
    ensures { IfOk result (λ v. section_views v.items
        ≡ spec.sections_in linkage.now.plan.base linkage.now.objects) }
{
    let count = linkage.loaded().objects().len() as u64;
    sections(alloc, count, linkage.parts().placement.places())
}

/// The numbers of the sections of the image of a link.
fn link_numbers<'a>(
    alloc: Global,
    linkage: &Linkage<'a>,
    sections: &[Section<'a>],
) -> Result<SectionNumbers<'a>, AllocError>
    ensures { IfOk result (AreNumbers (length linkage.now.objects) (section_views sections.now)) }
{
    let loaded = linkage.loaded();
    let count = loaded.objects().len() as u64;
    section_numbers(alloc, loaded.name_seed(), count, sections)
}

/// The rows of the sections of an image, and of joined debug data behind them.
fn all_sections<'a>(
    alloc: Global,
    linkage: &Linkage<'a>,
    found: &[Section<'a>],
    joined: &[Joined<'a>],
) -> Result<Vec<HeaderRow<'a>>, AllocError>
    requires low { All IsLow (joined_views joined.now) }
    requires few { length joined.now ≤ most_names }
    ensures { IfOk result (λ v. header_views v.items
        ≡ image_sections.section_rows linkage.now.plan.base (length linkage.now.objects)
        (section_views found.now)
        ++ joined_rows (own_end linkage.now.plan.base linkage.now.objects)
        (joined_views joined.now)) }
{
    let count = linkage.loaded().objects().len() as u64;
    let end = end_of(linkage);
    let base = linkage.parts().placement.base();
    let mut rows = section_rows(alloc, base, count, found)?;
    add_joined_rows(&mut rows, end, joined)?;
    Ok(rows)
}

/// The tables of sections and of symbols.
fn made_tables<'a>(
    alloc: Global,
    linkage: &Linkage<'a>,
    found: &[Section<'a>],
    joined: &[Joined<'a>],
    symbols: &Rows<'a>,
) -> Result<Tables<'a>, AllocError>
    requires low { All IsLow (joined_views joined.now) }
    requires few { length joined.now ≤ most_names }
    ensures { IfOk result (λ t. tables_view t
        ≡ spec.tables_from linkage.now.plan.base (own_end linkage.now.plan.base linkage.now.objects)
        (length linkage.now.objects) (section_views found.now) (joined_views joined.now)
        (row_views symbols.now.rows.items) symbols.now.locals) }
{
    let bytes = symbol_bytes(alloc, &symbols.rows)?;
    let sections = all_sections(alloc, linkage, found, joined)?;
    Ok(Tables {
        symbols: bytes.symbols,
        names: bytes.names,
        titles: title_bytes(alloc, &sections)?,
        locals: symbols.locals,
        sections,
    })
}

/// The tables of a link, of the names that mean what is listed, with the LOCAL symbols where they are wanted, and with joined
/// debug data.
pub fn tables_of<'a>(
    alloc: Global,
    linkage: &Linkage<'a>,
    joined: &[Joined<'a>],
    listed: &[Definition<'a>],
    wanted: bool,
) -> Result<Tables<'a>, AllocError>
    requires low { All IsLow (joined_views joined.now) }
    requires few { length joined.now ≤ most_names }
    ensures { IfOk result (λ t. tables_view t
        ≡ spec.tables_with wanted linkage.now.plan.base linkage.now.objects
        (joined_views joined.now) (meaning_views listed.now)) }
{
    let found = link_sections(alloc, linkage)?;
    let numbers = link_numbers(alloc, linkage, &found)?;
    let layout = layout_of(&*linkage, &found, &numbers);
    let symbols = all_rows(alloc, &layout, listed, wanted)?;
    let tables = made_tables(alloc, linkage, &found, joined, &symbols)?;
    Ok(tables)
}
