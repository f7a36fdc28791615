//! The definitions of a link that have a line, in the order of their names: its list of them, or where it keeps none, the
//! positions at which they are found, so that no list is made.
ghost use Rattle.std.specs.Prelude.{◌≡◌, ◌++◌, All, IfOk, OnOk, map};
ghost use Rattle.std.specs.Io.KnownBytes.{Appends};
ghost use Rattle.std.specs.List.{flat_map};
ghost use Rattle.elf_model.specs.Own.ImageFile.{own_end};
ghost use Rattle.elf_model.specs.Image.MapText as map_text;
ghost use Rattle.elf_model.specs.Own.OwnLayout.{own_in_load_order, own_where};
ghost use Rattle.elf_model.specs.Link.Pieces.{AreLawfulKinds};
ghost use Rattle.elf_model.specs.Link.Resolution.{AreSoundSymbols};
ghost use Rattle.elf_model.specs.Image.RightLink.{symbol_row_of};
ghost use Rattle.image_write.specs.CommonRows.{own_commons};
ghost use Rattle.image_write.specs.Maps.{LiesWithin};
ghost use Rattle.image_write.specs.Tables.{HasTable};
ghost use Rattle.linker.specs.InOrder.{AreInOrder, meanings_in};
ghost use Rattle.linker.specs.OwnDefinitions.{meanings_of, table_with};

use crate::line_sink::LineSink;
use crate::listed_definitions::{InOrder, in_order};
use crate::own_text::{put_commons, put_symbols};
use image_write::{Linkage, Listed, SymbolTable};
use layout::Placement;
use resolve::Definition;
use std::alloc::{AllocError, Global};

/// The definitions that have a line, in order: a list, whose symbol table there is, or what finds them.
#[derive(Drop)]
pub enum OwnDefinitions<'c, 'a> {
    Listed(&'c [Definition<'a>], SymbolTable),
    Found(InOrder<'c, 'a>),
}

/// How many definitions are found before they are printed.
const BATCH: usize = 256;

/// Those of a link.
pub fn own_definitions<'c, 'a>(
    alloc: Global,
    linkage: &'c Linkage<'a>,
) -> Result<OwnDefinitions<'c, 'a>, AllocError>
    ensures order { IfOk result (λ d. AreInOrder linkage.now.objects (meanings_of d)) }
    ensures sound { OnOk result (AreSoundSymbols linkage.now.objects) }
    ensures table { IfOk result (λ d.
        HasTable linkage.now.objects (own_end linkage.now.plan.base linkage.now.objects)
        (meanings_of d) linkage.now.plan.strip (table_with d)) }
{
    let parts = linkage.parts();
    match &parts.listed {
        Listed::InOrder(listed, table) => Ok(OwnDefinitions::Listed(listed, *table)),
        Listed::Unlisted(resolved, linkers) => {
            let found = in_order(alloc, resolved, linkers)?;
            Ok(OwnDefinitions::Found(found))
        }
    }
}

impl OwnDefinitions<'_, '_> {
    /// The symbol table.
    pub fn table(&self) -> Option<SymbolTable>
        ensures { result ≡ table_with self.now }
    {
        match self {
            OwnDefinitions::Listed(_, table) => Some(*table),
            OwnDefinitions::Found(_) => None,
        }
    }
}

/// The lines of the common blocks among definitions that are found, in their order.
fn put_found_commons<T: LineSink>(
    alloc: Global,
    text: &mut T,
    placement: &Placement<'_>,
    found: &InOrder<'_, '_>,
) -> Result<(), T::Fault>
    ensures { OnOk result (Appends (T.told text.old) (T.told text.new)
        (flat_map map_text.common_text
        (own_commons placement.now.base placement.now.objects (meanings_in found.now)))) }
{
    if found.has_no_commons() {
        return Ok(());
    }
    let mut batch = Vec::with_capacity(alloc, BATCH)?;
    let mut rest = found.keys();
    while !rest.is_empty() {
        let (keys, behind) = rest.split_at(rest.len().min(BATCH));
        batch.clear();
        found.add_definitions(&mut batch, keys)?;
        put_commons(text, placement, &batch)?;
        rest = behind;
    }
    Ok(())
}

/// The lines of definitions that are found, in their order.
fn put_found_symbols<T: LineSink>(
    alloc: Global,
    text: &mut T,
    placement: &Placement<'_>,
    found: &InOrder<'_, '_>,
) -> Result<(), T::Fault>
    requires kinds { AreLawfulKinds placement.now.objects }
    requires within { All (LiesWithin (own_in_load_order placement.now.base placement.now.objects))
        (meanings_in found.now) }
    ensures { OnOk result (Appends (T.told text.old) (T.told text.new)
        (flat_map map_text.symbol_text
        (map (symbol_row_of (own_where placement.now.base placement.now.objects))
        (meanings_in found.now)))) }
{
    let mut batch = Vec::with_capacity(alloc, BATCH)?;
    let mut rest = found.keys();
    while !rest.is_empty() {
        let (keys, behind) = rest.split_at(rest.len().min(BATCH));
        batch.clear();
        found.add_definitions(&mut batch, keys)?;
        put_symbols(text, placement, &batch)?;
        rest = behind;
    }
    Ok(())
}

/// The lines of the common blocks among definitions, in their order.
pub fn put_own_commons<T: LineSink>(
    alloc: Global,
    text: &mut T,
    placement: &Placement<'_>,
    definitions: &OwnDefinitions<'_, '_>,
) -> Result<(), T::Fault>
    ensures { OnOk result (Appends (T.told text.old) (T.told text.new)
        (flat_map map_text.common_text
        (own_commons placement.now.base placement.now.objects (meanings_of definitions.now)))) }
{
    match definitions {
        OwnDefinitions::Listed(listed, _) => put_commons(text, placement, listed),
        OwnDefinitions::Found(found) => put_found_commons(alloc, text, placement, found),
    }
}

/// The lines of definitions, in their order.
pub fn put_own_symbols<T: LineSink>(
    alloc: Global,
    text: &mut T,
    placement: &Placement<'_>,
    definitions: &OwnDefinitions<'_, '_>,
) -> Result<(), T::Fault>
    requires kinds { AreLawfulKinds placement.now.objects }
    requires within { All (LiesWithin (own_in_load_order placement.now.base placement.now.objects))
        (meanings_of definitions.now) }
    ensures { OnOk result (Appends (T.told text.old) (T.told text.new)
        (flat_map map_text.symbol_text
        (map (symbol_row_of (own_where placement.now.base placement.now.objects))
        (meanings_of definitions.now)))) }
{
    match definitions {
        OwnDefinitions::Listed(listed, _) => put_symbols(text, placement, listed),
        OwnDefinitions::Found(found) => put_found_symbols(alloc, text, placement, found),
    }
}
