//! What the names and the symbols of a link mean, and what entries of a symbol table have to be for these.
ghost use Rattle.std.specs.Prelude.{◌≡◌, IfOk, None, option_map};
ghost use Rattle.elf_model.specs.Link.Meaning as meaning_words;
ghost use Rattle.check_link.specs.Views.{meaning_view, symbol_view};
ghost use Rattle.check_load.specs.Views.{loaded_views};
ghost use Rattle.judge_model.specs.Certificates.{value_of_name};
ghost use Rattle.link_fields.specs.Parts as words;
ghost use Rattle.symbol_judge.specs.Indexes.{wanted_at};
ghost use Rattle.symbol_judge.specs.There.{is_tabled_in};
ghost use Rattle.symbol_judge.specs.Wanted as wanted_words;

use crate::name_values::index_rows;
use crate::piece_sizes::index_sizes;
use crate::wanted::{VALUES, Wanted};
use check_link::{Meaning, Names, Outputs, Part, SymbolOf, is_in_thread_section, start_of};
use check_load::Loaded;
use elf_model::{SHN_ABS, SHN_UNDEF, STT_OBJECT};
use foreign_image::ForeignImage;
use judge_model::NameLine;
use link_fields::{Addresses, LinkParts, MergedLines, definition_of, merged_value};
use std::alloc::{AllocError, Global};
use std::collections::{BTreeMap, HashMap};
use std::marker::Model;

/// The parts of a link, with indexes of the sizes of its pieces and of the certificate's values of names, and the address at
/// which the block of thread-local storage begins, 0 without one.
#[derive(Drop)]
pub struct Meanings<'l, 'p, 'a> {
    image: &'l ForeignImage<'a>,
    names: &'l Names<'l, 'a>,
    outputs: &'l Outputs<'l, 'a>,
    addresses: &'l Addresses<'p, 'a>,
    merged: &'l MergedLines<'l>,
    rows: &'l [NameLine],
    got: Option<u64>,
    sizes: HashMap<(u64, u64), u64>,
    values: BTreeMap<&'l [u8], u64>,
    start: u64,
}

impl<'l, 'p, 'a> Model for Meanings<'l, 'p, 'a> {
    ghost use Rattle.std.specs.Prelude.{None, map};
    ghost use Rattle.judge_model.specs.Certificates.{name_row};
    ghost use Rattle.link_fields.specs.Parts.{Parts};
    ghost use Rattle.symbol_judge.specs.Indexes.{AreIndexed};

    ghost Value = { Parts };

    ghost view = { λ m. record {
      image = m.image.now;
      objects = m.names.now;
      pieces = m.outputs.now;
      placed = m.addresses.now;
      merged = m.merged.now;
      rows = map name_row m.rows.now;
      got = m.got;
      script = None;
    } };

    ghost invariant = { λ m. AreIndexed m.addresses.now (map name_row m.rows.now) m.sizes m.values m.start };
}

/// The value of a defined symbol: an absolute one's `st_value`, else the address of its section plus `st_value`, which may not
/// fit 64 bits, or of a section that was merged where its string or constant is; None where the image hasn't got it.
fn symbol_value(
    addresses: &Addresses<'_, '_>,
    merged: &MergedLines<'_>,
    symbol: &SymbolOf<'_>,
) -> Option<u128>
    ensures { result ≡ words.symbol_value addresses.now merged.now (symbol_view symbol.now) }
{
    let entry = symbol.entry;
    if entry.st_shndx == SHN_ABS {
        return Some(entry.st_value as u128);
    }
    match addresses.address(symbol.object, entry.st_shndx as u64) {
        Some(at) => Some(at as u128 + entry.st_value as u128),
        None => merged_value(merged, symbol),
    }
}

/// The address of a common block; None where it has none.
fn block_value(addresses: &Addresses<'_, '_>, object: u64, number: u64) -> Option<u128>
    ensures { result ≡ words.address_of addresses.now object number }
{
    match addresses.address(object, number) {
        Some(at) => Some(at as u128),
        None => None,
    }
}

/// Whether a definition stands in a section with SHF_TLS.
fn is_in_thread_storage(objects: &[Loaded<'_>], meaning: &Meaning<'_>) -> bool
    ensures { result ≡ meaning_words.is_in_thread_storage (loaded_views objects.now)
        (meaning_view meaning.now) }
{
    match meaning {
        Meaning::Symbol(symbol) => is_in_thread_section(objects, symbol),
        Meaning::Common(_) => false,
        Meaning::Linker(_, _) => false,
    }
}

/// The size of a definition in bytes; None of a linker's name, which may have any.
fn size_of(meaning: &Meaning<'_>) -> Option<u64>
    ensures { result ≡ wanted_words.size_of (meaning_view meaning.now) }
{
    match meaning {
        Meaning::Symbol(symbol) => Some(symbol.entry.st_size),
        Meaning::Common(block) => Some(block.size),
        Meaning::Linker(_, _) => None,
    }
}

/// The type of a definition: a common block is an object, and a linker's name may be one.
fn type_of(meaning: &Meaning<'_>) -> u8
    ensures { result ≡ wanted_words.type_of (meaning_view meaning.now) }
{
    match meaning {
        Meaning::Symbol(symbol) => symbol.entry.symbol_type(),
        Meaning::Common(_) => STT_OBJECT,
        Meaning::Linker(_, _) => STT_OBJECT,
    }
}

/// The binding of a definition; None where it may have any.
fn binding_of(meaning: &Meaning<'_>) -> Option<u8>
    ensures { result ≡ wanted_words.binding_of (meaning_view meaning.now) }
{
    match meaning {
        Meaning::Symbol(symbol) => Some(symbol.entry.binding()),
        Meaning::Common(_) => None,
        Meaning::Linker(_, _) => None,
    }
}

/// The address at which the block of thread-local storage begins; 0 without one.
fn block_start(addresses: &Addresses<'_, '_>) -> u64
    ensures { result ≡ wanted_words.block_start addresses.now }
{
    match start_of(Part::Thread, addresses.placed()) {
        Some(at) => at,
        None => 0,
    }
}

impl<'l, 'p, 'a> Meanings<'l, 'p, 'a> {
    /// Finds what the parts of a link tell.
    pub fn new(
        alloc: Global,
        parts: &LinkParts<'l, 'p, 'a>,
    ) -> Result<Meanings<'l, 'p, 'a>, AllocError>
        ensures parts { IfOk result (λ m. m ≡ parts.now) }
        ensures script { IfOk result (λ m. m.script ≡ None) }
    {
        let sizes = index_sizes(alloc, parts.addresses.placed())?;
        let values = index_rows(alloc, parts.rows)?;
        let start = block_start(parts.addresses);
        Ok(Meanings {
            image: parts.image,
            names: parts.names,
            outputs: parts.outputs,
            addresses: parts.addresses,
            merged: parts.merged,
            rows: parts.rows,
            got: parts.got,
            sizes,
            values,
            start,
        })
    }

    /// The loaded objects.
    pub fn objects(&self) -> &[Loaded<'a>]
        ensures { loaded_views result.now ≡ self.now.objects }
    {
        self.names.objects()
    }

    /// What a name means: what objects define, or else what the linker does.
    pub fn definition(&self, name: &'a [u8]) -> Option<Meaning<'a>>
        ensures { option_map meaning_view result
            ≡ words.object_or_linker self.now.objects self.now.pieces name.now }
    {
        definition_of(self.names, self.outputs, name)
    }

    /// The certificate's value of a name.
    fn row_value(&self, name: &[u8]) -> Option<u128>
        ensures { result ≡ value_of_name self.now.rows name.now }
    {
        match self.values.get(name) {
            Some(value) => Some(*value as u128),
            None => None,
        }
    }

    /// The value of a definition; None where the image hasn't got it.
    fn value_of(&self, meaning: &Meaning<'_>) -> Option<u128>
        ensures { result
            ≡ words.value_of self.now.placed self.now.merged self.now.rows
            (meaning_view meaning.now) }
    {
        match meaning {
            Meaning::Symbol(symbol) => symbol_value(self.addresses, self.merged, symbol),
            Meaning::Common(block) => block_value(self.addresses, block.object, block.number),
            Meaning::Linker(name, _) => self.row_value(name),
        }
    }

    /// The size of a section of an object; None where it isn't placed.
    fn section_size(&self, object: u64, section: u64) -> Option<u64>
        ensures { result ≡ wanted_words.size_of_section self.now.placed object section }
    {
        self.sizes.get(&(object, section)).copied()
    }

    /// Whether a symbol stands in a section that is placed and has nothing.
    fn is_in_empty(&self, symbol: &SymbolOf<'_>) -> bool
        ensures { result ≡ wanted_words.is_in_empty self.now.placed (symbol_view symbol.now) }
    {
        match self.section_size(symbol.object, symbol.entry.st_shndx as u64) {
            Some(size) => size == 0,
            None => false,
        }
    }

    /// Whether a definition takes up no memory: a linker's, and one in a section that has nothing.
    fn takes_no_memory(&self, meaning: &Meaning<'_>) -> bool
        ensures { result ≡ wanted_words.takes_no_memory self.now.placed (meaning_view meaning.now) }
    {
        match meaning {
            Meaning::Symbol(symbol) => self.is_in_empty(symbol),
            Meaning::Common(_) => false,
            Meaning::Linker(_, _) => true,
        }
    }

    /// The value of the entry of a definition that has a value: of a thread-local one the offset from the block's beginning.
    fn entry_value(&self, meaning: &Meaning<'_>, value: u128) -> u128
        ensures { result ≡ wanted_words.entry_value self.now.objects self.now.placed
            (meaning_view meaning.now) value }
    {
        if is_in_thread_storage(self.objects(), meaning) {
            value.saturating_sub(self.start as u128)
        } else {
            value % VALUES
        }
    }

    /// What the entry of a definition has to be that has a value.
    fn wanted_of(&self, meaning: &Meaning<'_>, value: u128) -> Wanted
        ensures { result ≡ wanted_words.wanted_of self.now.objects self.now.placed
            (meaning_view meaning.now) value }
    {
        Wanted {
            at: value,
            value: self.entry_value(meaning, value),
            size: size_of(meaning),
            kind: type_of(meaning),
            binding: binding_of(meaning),
            anywhere: self.takes_no_memory(meaning),
        }
    }

    /// What the entry of a definition has to be; None where the image hasn't got it.
    pub fn wanted_at(&self, meaning: &Meaning<'_>) -> Option<Wanted>
        ensures { result ≡ wanted_at self.now (meaning_view meaning.now) }
    {
        match self.value_of(meaning) {
            Some(value) => Some(self.wanted_of(meaning, value)),
            None => None,
        }
    }

    /// Whether the table has to have the name of a symbol: one that isn't LOCAL, and that is defined outside of thread-local
    /// storage in what the image has.
    pub fn is_tabled(&self, symbol: &SymbolOf<'_>) -> bool
        ensures { result ≡ is_tabled_in self.now.objects self.now.placed self.now.merged
            (symbol_view symbol.now) }
    {
        if symbol.entry.is_local() || symbol.entry.st_shndx == SHN_UNDEF {
            return false;
        }
        if symbol_value(self.addresses, self.merged, symbol).is_none() {
            return false;
        }
        !is_in_thread_section(self.objects(), symbol)
    }
}
