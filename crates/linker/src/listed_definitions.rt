//! The definitions that have a line in the map, in the order of their names: what the chosen symbols mean, and those
//! of the linker's names that relocations use.
ghost use Rattle.std.specs.Prelude.{◌≡◌, [], ◌++◌, IfOk, IsTrue, OnOk, slice_index_or};
ghost use Rattle.elf_model.specs.Link.Listing.{AreLinkerLines};
ghost use Rattle.elf_model.specs.Link.Meaning.{Linker};
ghost use Rattle.elf_model.specs.declared.bound.Bound.TheVariants.{ImageStart};
ghost use Rattle.elf_model.specs.Link.Resolution.{AreSoundSymbols};
ghost use Rattle.resolve.specs.Chosen.{defined_in};
ghost use Rattle.resolve.specs.Views.{meaning_view, meaning_views, symbol_view};
ghost use Rattle.relocate.specs.Uses.{line_views};
ghost use Rattle.image_write.specs.Listings.{IsListing};
ghost use Rattle.linker.specs.InOrder.{AreInOrder, HasNoCommonLine, meaning_at, meanings_at, meanings_in, own_meaning};

use crate::name_order::{Keyed, Names, order};
use elf_model::Bound;
use image_write::{Linkage, Listed};
use resolve::{Definition, Resolved, SymbolOf};
use std::alloc::{AllocError, Global};

/// What a chosen symbol means: a common one, its name's block; another one, itself.
fn meant<'a>(resolved: &Resolved<'a>, symbol: &SymbolOf<'a>) -> Definition<'a>
    ensures { meaning_view result ≡ own_meaning resolved.now (symbol_view symbol.now) }
{
    match resolved.meant(symbol) {
        Some(meaning) => meaning,
        None => Definition::Symbol(*symbol),
    }
}

/// The definition of a name of the linker's by its number; an empty name behind the last.
fn linker_at<'a>(linkers: &[(&'a [u8], Bound)], i: usize) -> Definition<'a>
    ensures { meaning_view result
        ≡ slice_index_or (line_views linkers.now) i (Linker [] ImageStart) }
{
    match linkers.get(i) {
        Some((name, bound)) => Definition::Linker(name, *bound),
        None => Definition::Linker(&[], Bound::ImageStart),
    }
}

/// What has its name at a position.
fn definition_at<'a>(
    resolved: &Resolved<'a>,
    names: Names<'_, 'a>,
    position: usize,
) -> Definition<'a>
    ensures { meaning_view result
        ≡ meaning_at resolved.now (defined_in names.entry.symbols)
        (line_views names.entry.linkers.now) position }
{
    let count = names.symbols.len();
    if position < count {
        return meant(resolved, &names.symbols.at(position));
    }
    linker_at(names.linkers, position - count)
}

/// The definitions that have a line, found by the positions of their names in order.
#[derive(Drop)]
pub struct InOrder<'c, 'a> {
    resolved: &'c Resolved<'a>,
    names: Names<'c, 'a>,
    keys: Vec<Keyed>,
}

/// The definitions of resolved objects that have a line, in the order of their names, given the lines of the linker's
/// names.
pub fn in_order<'c, 'a>(
    alloc: Global,
    resolved: &'c Resolved<'a>,
    linkers: &'c [(&'a [u8], Bound)],
) -> Result<InOrder<'c, 'a>, AllocError>
    requires { AreLinkerLines resolved.now (line_views linkers.now) }
    ensures order { IfOk result (λ o. AreInOrder resolved.now (meanings_in o)) }
    ensures sound { OnOk result (AreSoundSymbols resolved.now) }
{
    let names = Names {
        symbols: resolved.definitions(),
        linkers,
    };
    let keys = order(alloc, names)?;
    Ok(InOrder {
        resolved,
        names,
        keys,
    })
}

impl<'c, 'a> InOrder<'c, 'a> {
    /// The positions of their names.
    pub fn keys(&self) -> &[Keyed]
        ensures { result.now ≡ self.now.keys.items }
    {
        self.keys.as_slice()
    }

    /// Whether none of them can be a common block, for there is none.
    pub fn has_no_commons(&self) -> bool
        ensures { IsTrue result → HasNoCommonLine (meanings_in self.now) }
    {
        self.resolved.blocks().is_empty()
    }

    /// Adds those that have their names at positions.
    pub fn add_definitions(
        &self,
        listed: &mut Vec<Definition<'a>>,
        keys: &[Keyed],
    ) -> Result<(), AllocError>
        ensures { OnOk result (meaning_views listed.new.items
            ≡ meaning_views listed.old.items
            ++ meanings_at self.now.resolved.now (defined_in self.now.names.symbols)
            (line_views self.now.names.linkers.now) keys.now) }
    {
        for key in keys {
            listed.push(definition_at(self.resolved, self.names, key.position))?;
        }
        Ok(())
    }
}

/// The same as a list.
pub fn listed<'a>(
    alloc: Global,
    resolved: &Resolved<'a>,
    linkers: &[(&'a [u8], Bound)],
) -> Result<Vec<Definition<'a>>, AllocError>
    requires { AreLinkerLines resolved.now (line_views linkers.now) }
    ensures { IfOk result (λ v. IsListing resolved.now v.items) }
{
    let order = in_order(alloc, resolved, linkers)?;
    let mut listed = Vec::with_capacity(alloc, order.keys.len())?;
    order.add_definitions(&mut listed, order.keys())?;
    Ok(listed)
}

/// The definitions of a link that have a line in the map, in the order of their names.
pub fn definitions<'a>(
    alloc: Global,
    linkage: &Linkage<'a>,
) -> Result<Vec<Definition<'a>>, AllocError>
    ensures { IfOk result (λ v. IsListing linkage.now.objects v.items) }
{
    let parts = linkage.parts();
    match &parts.listed {
        Listed::InOrder(listed, _) => Vec::from_slice(alloc, listed),
        Listed::Unlisted(resolved, linkers) => listed(alloc, resolved, linkers),
    }
}
