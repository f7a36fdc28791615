//! An object that refers: what a reference to each of its symbols is, found once a symbol, and read by each relocation
//! that names it.
ghost use Rattle.std.specs.Prelude.{◌≡◌, [], IfOk, Some, codes, option_map, true, unwrap_or};
ghost use Rattle.std.specs.Str.{bytes_eq};
ghost use Rattle.elf_model.specs.Inputs.ObjectFile.{section_name};
ghost use Rattle.elf_model.specs.Link.Relocation.{is_local, symbol_at};
ghost use Rattle.search.specs.Views.{loaded_view};
ghost use Rattle.layout.specs.Mixed.{AreMixed};
ghost use Rattle.resolve.specs.Meaning.{named_at};
ghost use Rattle.resolve.specs.Threads.{is_thread_chosen};
ghost use Rattle.resolve.specs.Views.{meaning_view};
ghost use Rattle.relocate.specs.LocalUses.{IsReferenceBy};
ghost use Rattle.relocate.specs.References.{IsObjectAt};
ghost use Rattle.relocate.specs.SymbolTables.{AreReferences, IsReference, IsReferrer, IsRelocated, all_of, referring};

use crate::targets::{
    holds_frames, is_dropped, is_mixed, is_thread_local, is_thread_section, is_undefined,
    is_undefined_local, is_unkept, section_of, stands_in_unkept, use_of,
};
use elf_model::{ObjectId, SymbolRef};
use got_tls::Asker;
use resolve::{Definition, Resolved};
use search::LoadedObject;
use std::alloc::{AllocError, Global};
use std::collections::BTreeSet;

/// What a reference to a symbol is, whatever the relocation.
#[derive(Clone, Copy, Debug)]
pub struct Reference {
    /// It needs a definition, and has none.
    pub undefined: bool,
    /// Its symbol is LOCAL, and stands in a section that isn't kept.
    pub unkept: bool,
    /// Its symbol stands in a section that is dropped with its group.
    pub dropped: bool,
    /// What it uses stands in a section with SHF_TLS.
    pub thread_local: bool,
    /// What it uses is a bound of an output name of several output sections.
    pub mixed: bool,
}

/// An object whose relocations are judged, with its number. The output names of several output sections are `mixed`.
#[derive(Drop)]
pub struct Referrer<'r, 'm, 'a> {
    pub resolved: &'r Resolved<'a>,
    pub mixed: &'r BTreeSet<&'m [u8]>,
    pub number: usize,
    pub loaded: &'r LoadedObject<'a>,
    /// What its relocations ask of the GOT.
    pub asker: Asker<'r, 'a>,
    /// What a reference to each symbol is, as far as there are rows.
    pub table: Vec<Reference>,
}

/// A section that entries relocate: its number, and its size in bytes.
#[derive(Clone, Copy, Debug)]
pub struct Relocated {
    pub number: u64,
    pub size: u64,
}

/// What a reference to symbol `j` of the object that has a number is, where it uses a definition, or none.
fn reference_by<'a>(
    resolved: &Resolved<'a>,
    mixed: &BTreeSet<&[u8]>,
    _number: usize,
    loaded: &LoadedObject<'a>,
    j: usize,
    definition: &Option<Definition<'a>>,
) -> Reference
    requires here { IsObjectAt resolved.now _number (loaded_view loaded.now) }
    requires mixed { AreMixed resolved.now mixed.now }
    ensures { IsReferenceBy resolved.now (symbol_at _number (loaded_view loaded.now) j)
        (option_map meaning_view definition.now) result }
{
    let entry = loaded.object.symbol(j);
    Reference {
        undefined: is_undefined(j, &entry, definition),
        unkept: entry.is_local() && stands_in_unkept(loaded, &entry),
        dropped: is_dropped(loaded, &entry),
        thread_local: is_thread_local(resolved, definition),
        mixed: is_mixed(mixed, definition),
    }
}

/// What a reference to symbol `j` of the object that has a number is, whose name an object defines, in a section with SHF_TLS
/// or not.
fn reference_chosen(
    resolved: &Resolved<'_>,
    _number: usize,
    loaded: &LoadedObject<'_>,
    j: usize,
    thread_local: bool,
) -> Reference
    requires here { IsObjectAt resolved.now _number (loaded_view loaded.now) }
    requires chosen { option_map (is_thread_chosen resolved.now) (named_at resolved.now _number j)
        ≡ Some thread_local }
    ensures { IsReference resolved.now (symbol_at _number (loaded_view loaded.now) j) result }
{
    let _resolved = resolved;
    Reference {
        undefined: false,
        unkept: false,
        dropped: is_dropped(loaded, &loaded.object.symbol(j)),
        thread_local,
        mixed: false,
    }
}

/// What a reference to symbol `j` of the object that has a number is, which is LOCAL: it uses the symbol itself.
fn reference_local(
    resolved: &Resolved<'_>,
    _number: usize,
    loaded: &LoadedObject<'_>,
    j: usize,
) -> Reference
    requires here { IsObjectAt resolved.now _number (loaded_view loaded.now) }
    requires local { is_local (symbol_at _number (loaded_view loaded.now) j) ≡ true }
    ensures { IsReference resolved.now (symbol_at _number (loaded_view loaded.now) j) result }
{
    let _resolved = resolved;
    let entry = loaded.object.symbol(j);
    let section = section_of(&loaded.object, &entry);
    let dropped = is_dropped(loaded, &entry);
    Reference {
        undefined: is_undefined_local(j, &entry),
        unkept: is_unkept(&section, dropped),
        dropped,
        thread_local: is_thread_section(&section),
        mixed: false,
    }
}

/// What a reference to symbol `j` of object `number` is.
fn reference_to<'a>(
    resolved: &Resolved<'a>,
    mixed: &BTreeSet<&[u8]>,
    number: usize,
    loaded: &LoadedObject<'a>,
    j: usize,
) -> Reference
    requires here { IsObjectAt resolved.now number (loaded_view loaded.now) }
    requires mixed { AreMixed resolved.now mixed.now }
    ensures { IsReference resolved.now (symbol_at number (loaded_view loaded.now) j) result }
{
    let symbol = SymbolRef {
        object: ObjectId(number as u64),
        symbol: j as u64,
    };
    if loaded.object.symbol(j).is_local() {
        return reference_local(resolved, number, loaded, j);
    }
    if let Some(thread_local) = resolved.chosen_thread(symbol) {
        return reference_chosen(resolved, number, loaded, j, thread_local);
    }
    let definition = use_of(resolved, number, loaded, j);
    reference_by(resolved, mixed, number, loaded, j, &definition)
}

/// How many entries the kept RELA sections of an object have; the greatest number where they are more.
pub fn entry_count(loaded: &LoadedObject<'_>) -> usize {
    let mut count: usize = 0;
    for rela in loaded.kept_relas() {
        count = count.saturating_add(loaded.all_entries(*rela).len());
    }
    count
}

/// Whether an object has more kept relocations than symbols, so that a row for each symbol saves work.
pub fn refers_often(loaded: &LoadedObject<'_>) -> bool {
    entry_count(loaded) > loaded.object.symbols().len()
}

/// Whether objects have more kept relocations than a number.
pub fn refer_more_than(objects: &[LoadedObject<'_>], number: usize) -> bool {
    let mut count: usize = 0;
    for loaded in objects {
        count = count.saturating_add(entry_count(loaded));
        if count > number {
            return true;
        }
    }
    false
}

/// A row for each symbol of an object that refers often, and none of another one.
fn table_of<'a>(
    alloc: Global,
    resolved: &Resolved<'a>,
    mixed: &BTreeSet<&[u8]>,
    number: usize,
    loaded: &LoadedObject<'a>,
) -> Result<Vec<Reference>, AllocError>
    requires here { IsObjectAt resolved.now number (loaded_view loaded.now) }
    requires mixed { AreMixed resolved.now mixed.now }
    ensures { IfOk result (λ v.
        AreReferences resolved.now number (loaded_view loaded.now) v.items) }
{
    let mut table = Vec::new(alloc);
    if !refers_often(loaded) {
        return Ok(table);
    }
    let count = loaded.object.symbols().len();
    table.reserve(count)?;
    for j in 0..count {
        table.push(reference_to(resolved, mixed, number, loaded, j))?;
    }
    Ok(table)
}

impl<'r, 'm, 'a> Referrer<'r, 'm, 'a> {
    /// Object `number`.
    pub fn new(
        alloc: Global,
        resolved: &'r Resolved<'a>,
        mixed: &'r BTreeSet<&'m [u8]>,
        number: usize,
        loaded: &'r LoadedObject<'a>,
    ) -> Result<Referrer<'r, 'm, 'a>, AllocError>
        requires here { IsObjectAt resolved.now number (loaded_view loaded.now) }
        requires mixed { AreMixed resolved.now mixed.now }
        ensures known { IfOk result IsReferrer }
        ensures all { IfOk result (λ r. all_of r ≡ resolved.entry.now) }
        ensures number { IfOk result (λ r. r.number ≡ number) }
        ensures own { IfOk result (λ r. referring r ≡ loaded_view loaded.entry.now) }
    {
        let table = table_of(alloc, resolved, mixed, number, loaded)?;
        Ok(Referrer {
            resolved,
            mixed,
            number,
            loaded,
            asker: Asker::new(resolved, number, loaded),
            table,
        })
    }

    /// What a reference to symbol `j` is.
    pub fn reference(&self, j: usize) -> Reference
        requires { IsReferrer self.now }
        ensures { IsReference (all_of self.now)
            (symbol_at self.now.number (referring self.now) j) result }
    {
        match self.table.get(j) {
            Some(reference) => *reference,
            None => reference_to(self.resolved, self.mixed, self.number, self.loaded, j),
        }
    }

    /// The section that has a number, which entries relocate.
    pub fn relocated(&self, number: u64) -> Relocated
        ensures number { result.number ≡ number }
        ensures known { IsRelocated (referring self.now) result }
    {
        Relocated {
            number,
            size: self.loaded.object.section(number as usize).sh_size,
        }
    }

    /// Whether a section, which entries relocate, holds frames of code.
    pub fn holds_frames(&self, number: u64) -> bool
        ensures { result ≡ bytes_eq
            (unwrap_or (section_name (referring self.now).bytes number) []) (codes ".eh_frame") }
    {
        holds_frames(&self.loaded.object, number as usize)
    }
}
