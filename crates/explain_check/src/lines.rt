//! C2, C3, C12 and C13: lines of the map that are others than those of the objects that are loaded, of their sections, of common
//! blocks and of names, or that are missing; and an `e_entry` that isn't the value of a lawful definition.
ghost use Rattle.std.specs.Prelude.{◌≡◌, IfSome, OnOk};
ghost use Rattle.elf_model.specs.Image.RightLink.{Holds, drop_rows, objects_of};
ghost use Rattle.elf_model.specs.declared.verdict.Clause.TheVariants as clause;
ghost use Rattle.check_load.specs.Views.{loaded_views};
ghost use Rattle.check_relocs.specs.LinkerUses.{AreUsed};
ghost use Rattle.explain_check.specs.Places.{AreFailures, FailsIn, IsEntryValue};

use crate::found::{Added, Found};
use crate::place::{CheckPlace, Failure, LineKey};
use check_link::{Link, entry_of};
use check_load::Loaded;
use check_places::c03_sections::drops::{drops_of, is_drop};
use check_places::c03_sections::is_line_of;
use check_relocs::{Bindings, used_names};
use check_tables::c13_symbols;
use checker::{BoundLink, LoadedLink, c02_loaded};
use elf_model::DropLine;
use linkmap::Line;
use std::alloc::{AllocError, Global};
use std::collections::BTreeSet;

/// The object line of a number, where it is another one than the object that is loaded asks for.
fn wrong_object<'a>(link: &Link<'a>, loaded: &[Loaded<'a>], k: usize) -> Failure<'a>
    requires { loaded_views loaded.now ≡ objects_of link.now }
    ensures { IfSome result (FailsIn link.now) }
{
    let number = k as u64;
    let key = LineKey::Object(number);
    match (link.map.objects.get(k), loaded.get(k)) {
        (None, None) => None,
        (Some(_), None) => Some(CheckPlace::Line(key, None)),
        (Some(line), Some(one)) if c02_loaded::is_line_of(line, number, one) => None,
        (_, Some(one)) => {
            let line = Line::Object {
                object: number,
                item: one.item,
                offset: one.offset,
                path: one.path.as_bytes(),
            };
            Some(CheckPlace::Line(key, Some(line)))
        }
    }
}

/// The drop line of a number, where it is another one than among those that should be there.
fn wrong_drop<'a>(loaded: &LoadedLink<'_, 'a>, drops: &[DropLine], k: usize) -> Failure<'a>
    requires { drops.now ≡ drop_rows 0 (objects_of loaded.now) }
    ensures { IfSome result (FailsIn loaded.now) }
{
    let key = LineKey::Drop(k as u64);
    match (loaded.link().map.drops.get(k), drops.get(k)) {
        (None, None) => None,
        (Some(_), None) => Some(CheckPlace::Line(key, None)),
        (Some(line), Some(wanted)) if is_drop(line, wanted) => None,
        (_, Some(wanted)) => Some(CheckPlace::Line(key, Some(Line::Drop(*wanted)))),
    }
}

/// The place line of a number, where the kept section of this number asks for another one.
fn wrong_place<'a>(loaded: &LoadedLink<'_, 'a>, k: usize) -> Failure<'a>
    ensures { IfSome result (FailsIn loaded.now) }
{
    let key = LineKey::Place(k as u64);
    match (loaded.link().map.places.get(k), loaded.pieces().get(k)) {
        (None, None) => None,
        (Some(_), None) => Some(CheckPlace::Line(key, None)),
        (Some(line), Some(piece)) if is_line_of(line, piece) => None,
        (_, Some(piece)) => {
            let line = Line::Place {
                address: 0,
                size: piece.header.sh_size,
                object: piece.object,
                section: piece.section,
                name: piece.name,
            };
            Some(CheckPlace::Line(key, Some(line)))
        }
    }
}

/// The common line of a name, where its block asks for another one.
fn wrong_common<'a>(loaded: &LoadedLink<'_, 'a>, name: &'a [u8]) -> Failure<'a>
    ensures { IfSome result (FailsIn loaded.now) }
{
    let names = loaded.names();
    if loaded.lines().has_line(names, name) {
        return None;
    }
    let key = LineKey::Common(name);
    match names.block(name) {
        Some(block) => {
            let line = Line::Common {
                address: 0,
                size: block.size,
                align: block.align.max(1),
                name: block.name,
            };
            Some(CheckPlace::Line(key, Some(line)))
        }
        None => Some(CheckPlace::Line(key, None)),
    }
}

/// The value of what the entry's name means, where its chosen definition stands in no section with SHF_TLS.
fn entry_value(bindings: &Bindings<'_, '_, '_>, name: &[u8]) -> Option<u64>
    ensures { IsEntryValue bindings.now.objects bindings.now.places name.now result }
{
    let symbol = bindings.chosen(name)?;
    if bindings.is_in_thread_section(&symbol) {
        return None;
    }
    let meaning = bindings.meant(&symbol)?;
    Some(bindings.value_of(&meaning))
}

/// The symbol line of a name, where the name asks for another one, given the linker's names that have one.
fn wrong_symbol<'a>(
    bound: &BoundLink<'_, 'a>,
    names: &BTreeSet<&'a [u8]>,
    name: &'a [u8],
) -> Failure<'a>
    requires { AreUsed (objects_of bound.now) names.now }
    ensures { IfSome result (FailsIn bound.now) }
{
    let bindings = bound.bindings();
    let meaning = c13_symbols::listed_meaning(bindings, names, name);
    if c13_symbols::has_line(bound, name, &meaning) {
        return None;
    }
    let wanted = c13_symbols::line_of(bindings, &meaning);
    Some(CheckPlace::Line(LineKey::Symbol(name), wanted))
}

/// The names of wrong lines, and those without a line that ask for one: of definitions, and the linker's that have one.
fn suspects<'a>(
    alloc: Global,
    bound: &BoundLink<'_, 'a>,
    names: &BTreeSet<&'a [u8]>,
) -> Result<Vec<&'a [u8]>, AllocError>
    requires { AreUsed (objects_of bound.now) names.now }
{
    let link = bound.link();
    let bindings = bound.bindings();
    let definitions = bindings.definitions();
    let mut told = BTreeSet::new(alloc);
    let mut suspects = Vec::new(alloc);
    for line in link.map.symbols.iter() {
        told.insert(line.name)?;
        if !c13_symbols::is_right_line(bindings, names, &line) {
            suspects.push(line.name)?;
        }
    }
    for k in 0..definitions.len() {
        let Some(symbol) = definitions.get(k) else {
            continue;
        };
        if bindings.is_chosen(&symbol) && !told.contains(symbol.name) {
            suspects.push(symbol.name)?;
        }
    }
    for name in names {
        if !told.contains(*name) && c13_symbols::listed_meaning(bindings, names, name).is_some() {
            suspects.push(*name)?;
        }
    }
    Ok(suspects)
}

impl<'a> Found<'a> {
    /// Adds the object lines that are others than those of the objects that are loaded: where the second clause fails.
    pub(crate) fn add_c2(&mut self, link: &'a Link<'a>, loaded: &[Loaded<'a>]) -> Added
        requires before { AreFailures link.now self.old.places.items }
        requires objects { loaded_views loaded.now ≡ objects_of link.now }
        ensures { OnOk result (AreFailures link.entry.now self.new.places.items) }
    {
        let (told, wanted) = (link.map.objects.len(), loaded.len());
        for k in 0..told.max(wanted) {
            if !self.add_row(wrong_object(link, loaded, k), told == wanted)? {
                break;
            }
        }
        Ok(())
    }

    /// Adds the drop lines that are others than these.
    fn add_drops(&mut self, loaded: &LoadedLink<'_, 'a>, drops: &[DropLine]) -> Added
        requires drops { drops.now ≡ drop_rows 0 (objects_of loaded.now) }
        requires before { AreFailures loaded.now self.old.places.items }
        ensures { OnOk result (AreFailures loaded.now self.new.places.items) }
    {
        let (told, wanted) = (loaded.link().map.drops.len(), drops.len());
        for k in 0..told.max(wanted) {
            if !self.add_row(wrong_drop(loaded, drops, k), told == wanted)? {
                break;
            }
        }
        Ok(())
    }

    /// Adds the lines that are others than those of kept sections.
    fn add_places(&mut self, loaded: &LoadedLink<'_, 'a>) -> Added
        requires { AreFailures loaded.now self.old.places.items }
        ensures { OnOk result (AreFailures loaded.now self.new.places.items) }
    {
        let (told, wanted) = (loaded.link().map.places.len(), loaded.pieces().len());
        for k in 0..told.max(wanted) {
            if !self.add_row(wrong_place(loaded, k), told == wanted)? {
                break;
            }
        }
        Ok(())
    }

    /// Adds where the third clause fails, but for kinds of sections and for common symbols that aren't sound.
    pub(crate) fn add_c3(&mut self, loaded: &LoadedLink<'_, 'a>) -> Added
        requires { AreFailures loaded.now self.old.places.items }
        ensures { OnOk result (AreFailures loaded.now self.new.places.items) }
    {
        let drops = drops_of(self.alloc, loaded.names().objects())?;
        self.add_drops(loaded, &drops)?;
        self.add_places(loaded)?;
        for line in &loaded.link().map.commons {
            self.add_some(wrong_common(loaded, &line.name))?;
        }
        for block in loaded.names().blocks() {
            if loaded.lines().line(block.name).is_some() {
                continue;
            }
            self.add_some(wrong_common(loaded, block.name))?;
        }
        Ok(())
    }

    /// Adds that the twelfth clause fails.
    pub(crate) fn add_c12(&mut self, bound: &BoundLink<'_, 'a>) -> Added
        requires before { AreFailures bound.now self.old.places.items }
        requires fails { ¬ Holds clause.C12 bound.now }
        ensures { OnOk result (AreFailures bound.now self.new.places.items) }
    {
        let link = bound.link();
        let value = entry_value(bound.bindings(), entry_of(&link.plan));
        self.add(CheckPlace::Entry(bound.memory().entry(), value))
    }

    /// Adds where the thirteenth clause fails, but for symbols that aren't sound and second strong definitions of a name.
    pub(crate) fn add_c13(&mut self, bound: &BoundLink<'_, 'a>) -> Added
        requires { AreFailures bound.now self.old.places.items }
        ensures { OnOk result (AreFailures bound.now self.new.places.items) }
    {
        let names = used_names(self.alloc, bound.bindings())?;
        for name in &suspects(self.alloc, bound, &names)? {
            if self.is_full() {
                self.count();
                continue;
            }
            self.add_some(wrong_symbol(bound, &names, name))?;
        }
        Ok(())
    }
}
