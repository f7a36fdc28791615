//! What names mean: the names of objects, the linker's own, and the addresses of the placed pieces.
ghost use Rattle.std.specs.Prelude.{◌≡◌, ◌≢◌, ◌↔◌, ◌%◌, ◌^◌, IsSomeAnd, IfOk, IfSome, IsSome, IsTrue, None, Some, false, filter, option_map, slice_get, true, unwrap_or};
ghost use Rattle.std.specs.Option.{option_map_or};
ghost use Rattle.elf_model.specs.Link.ChosenSymbols.{is_chosen, is_definition};
ghost use Rattle.elf_model.specs.Link.LinkerNames.{bound_of, named_output};
ghost use Rattle.elf_model.specs.Link.LinkerValues.{bound_value};
ghost use Rattle.elf_model.specs.Link.Loading.{LoadedObject};
ghost use Rattle.elf_model.specs.Link.Meaning as meanings;
ghost use Rattle.elf_model.specs.Link.Meaning.{is_in_thread_storage, meaning, meaning_size, meaning_value, meant, object_meaning};
ghost use Rattle.elf_model.specs.Link.Pieces.{AreOneOutput, kept_sections};
ghost use Rattle.elf_model.specs.Link.Placement.{got_start, section_address, symbol_value};
ghost use Rattle.elf_model.specs.Link.Relocation.{IsMixed, IsMixedBound, definition_of, is_local};
ghost use Rattle.elf_model.specs.Link.Resolution as resolution;
ghost use Rattle.elf_model.specs.Link.Resolution.{AreSoundSymbols, all_symbols, binding, chosen, is_in_thread_section};
ghost use Rattle.check_load.specs.Numbered.{name_at};
ghost use Rattle.check_load.specs.Views.{loaded_views};
ghost use Rattle.check_relocs.specs.Bindings.{IsOfUnkept, IsTargetOf};
ghost use Rattle.check_link.specs.Chosen.{AreOtherChoices, AreOwnChoices};
ghost use Rattle.check_link.specs.DefinitionList.{unnamed};
ghost use Rattle.check_link.specs.ThreadStorage.{thread_pointer};
ghost use Rattle.check_link.specs.Views.{meaning_view, symbol_view, symbol_views};

use crate::targets::Target;
use check_link::{
    Definitions, Meaning, Names, Outputs, Places, SlotTable, SymbolOf, are_sound, fixed_bound,
    has_value, is_in_thread_section, named_output, output_bound, section_of,
};
use check_load::Loaded;
use elf_model::{Bound, SHN_ABS, SHN_UNDEF, STB_LOCAL, STB_WEAK};
use std::alloc::{AllocError, Global};
use std::marker::Model;

/// What names mean: the names of the loaded objects, the output names of their kept sections, the placed pieces, and the slots.
#[derive(Drop)]
pub struct Bindings<'l, 'p, 'a> {
    names: &'l Names<'l, 'a>,
    outputs: &'l Outputs<'l, 'a>,
    places: &'l Places<'p, 'a>,
    slots: &'l SlotTable<'l, 'a>,
}

impl<'l, 'p, 'a> Model for Bindings<'l, 'p, 'a> {
    ghost use Rattle.check_relocs.specs.Bindings.{AreBindings, Bound};

    ghost Value = { Bound };

    ghost view = { λ b. record { objects = b.names.now; places = b.places.now } };

    ghost invariant = { λ b. AreBindings b.names.now b.outputs.now b.slots.now b.places.now };
}

/// Whether a symbol that isn't number 0 and isn't WEAK has no definition.
fn is_in_want(symbol: &SymbolOf<'_>, definition: &Option<Meaning<'_>>) -> bool
    ensures { IsTrue result ↔ ((symbol.now.number ≢ 0) × (binding symbol.now.entry ≢ 2)
        × (option_map meaning_view definition.now ≡ None)) }
{
    if symbol.number == 0 || symbol.entry.binding() == STB_WEAK {
        return false;
    }
    definition.is_none()
}

/// Whether a symbol is a LOCAL one of a section that isn't kept.
fn is_of_unkept(objects: &[Loaded<'_>], symbol: &SymbolOf<'_>) -> bool
    ensures { IsTrue result ↔ IsOfUnkept (loaded_views objects.now) (symbol_view symbol.now) }
{
    if symbol.entry.binding() != STB_LOCAL {
        return false;
    }
    match section_of(objects, symbol) {
        Some(section) => symbol.dropped || !section.is_alloc(),
        None => false,
    }
}

/// Whether there is a definition, one of a section with SHF_TLS.
fn is_thread_local(objects: &[Loaded<'_>], definition: &Option<Meaning<'_>>) -> bool
    ensures { result ≡ option_map_or (is_in_thread_storage (loaded_views objects.now))
        (option_map meaning_view definition.now) false }
{
    match definition {
        Some(Meaning::Symbol(symbol)) => is_in_thread_section(objects, symbol),
        Some(Meaning::Common(_)) => false,
        Some(Meaning::Linker(_, _)) => false,
        None => false,
    }
}

/// The value of a symbol that is defined, modulo 2^64: an absolute one's `st_value`, else the address of its
/// section plus `st_value`, 0 where the section isn't placed.
fn symbol_value(places: &Places<'_, '_>, symbol: &SymbolOf<'_>) -> u64
    ensures { result ≡ symbol_value places.now.placed (symbol_view symbol.now) % 2 ^ 64 }
{
    let entry = symbol.entry;
    if entry.st_shndx == SHN_ABS {
        return entry.st_value;
    }
    match places.address(symbol.object, entry.st_shndx as u64) {
        Some(at) => at.wrapping_add(entry.st_value),
        None => 0,
    }
}

/// The address of a section of an object, or of a block by its numbers, 0 where it isn't placed.
fn address_of(places: &Places<'_, '_>, object: u64, section: u64) -> u64
    ensures { result ≡ section_address places.now.placed object section }
{
    match places.address(object, section) {
        Some(at) => at,
        None => 0,
    }
}

/// The value of what a name means, modulo 2^64.
fn meaning_value(places: &Places<'_, '_>, meaning: &Meaning<'_>) -> u64
    ensures { result ≡ meaning_value places.now (meaning_view meaning.now) % 2 ^ 64 }
{
    match meaning {
        Meaning::Symbol(symbol) => symbol_value(places, symbol),
        Meaning::Common(block) => address_of(places, block.object, block.number),
        Meaning::Linker(name, bound) => places.bound(name, *bound),
    }
}

fn value_or_none(places: &Places<'_, '_>, definition: &Option<Meaning<'_>>) -> u64
    ensures { result ≡ unwrap_or
        (option_map (meaning_value places.now)
        (option_map meaning_view definition.now)) 0 % 2 ^ 64 }
{
    match definition {
        Some(meaning) => meaning_value(places, meaning),
        None => 0,
    }
}

fn size_or_none(definition: &Option<Meaning<'_>>) -> u64
    ensures { result ≡ unwrap_or
        (option_map meaning_size (option_map meaning_view definition.now)) 0 }
{
    match definition {
        Some(Meaning::Symbol(symbol)) => symbol.entry.st_size,
        Some(Meaning::Common(block)) => block.size,
        Some(Meaning::Linker(_, _)) => 0,
        None => 0,
    }
}

impl<'l, 'p, 'a> Bindings<'l, 'p, 'a> {
    /// What names mean where the pieces of loaded objects are placed. The outputs are those of the objects' kept
    /// sections, and the slots those of the places, found by the objects' symbols.
    pub fn new(
        names: &'l Names<'l, 'a>,
        outputs: &'l Outputs<'l, 'a>,
        places: &'l Places<'p, 'a>,
        slots: &'l SlotTable<'l, 'a>,
    ) -> Bindings<'l, 'p, 'a>
        requires outputs { outputs.now ≡ kept_sections names.now }
        requires rows { slots.now.rows ≡ places.now.slots }
        requires objects { slots.now.objects ≡ names.now }
        ensures objects { result.objects ≡ names.entry.now }
        ensures places { result.places ≡ places.entry.now }
    {
        Bindings {
            names,
            outputs,
            places,
            slots,
        }
    }

    /// The loaded objects.
    pub fn objects(&self) -> &[Loaded<'a>]
        ensures { loaded_views result.now ≡ self.entry.now.objects }
    {
        self.names.objects()
    }

    /// A mark for each definition: whether it is the chosen one of its name.
    pub fn own_choices(&self, alloc: Global) -> Result<Vec<bool>, AllocError>
        ensures own { IfOk result (λ v. AreOwnChoices self.now.objects
            (filter is_definition (all_symbols self.now.objects)) v.items) }
        ensures others { IfOk result (λ v. AreOtherChoices self.now.objects
            (filter is_definition (all_symbols self.now.objects)) v.items) }
    {
        self.names.own_choices(alloc)
    }

    /// The definitions of the objects, strong, common and weak, in load order.
    pub fn definitions(&self) -> &Definitions<'l, 'a>
        ensures { result.now ≡ filter is_definition (all_symbols self.entry.now.objects) }
    {
        self.names.definitions()
    }

    /// The chosen definition of a name; None where it has none.
    pub fn chosen(&self, name: &[u8]) -> Option<SymbolOf<'a>>
        ensures { option_map symbol_view result ≡ chosen self.now.objects name.now }
    {
        self.names.chosen(name)
    }

    /// The chosen definition of the name of a symbol, without that name, given the symbol's object's and its own number, where
    /// loading noted the name. It isn't read.
    pub fn noted_choice(&self, object: u64, number: u64) -> Option<SymbolOf<'a>>
        ensures { IfSome result (λ s. (o : LoadedObject)
            → slice_get self.now.objects object ≡ Some o
            → option_map unnamed (chosen self.now.objects (name_at o.bytes number))
            ≡ Some (symbol_view s)) }
    {
        self.names.noted_choice(object, number)
    }

    /// Whether the name of a symbol has a chosen definition, given its object's and its own number, where loading noted the name.
    /// Neither of them is read.
    pub fn has_noted_choice(&self, object: u64, number: u64) -> bool
        ensures { IsTrue result → (o : LoadedObject) → slice_get self.now.objects object ≡ Some o
            → IsSome (chosen self.now.objects (name_at o.bytes number)) }
    {
        self.names.has_noted_choice(object, number)
    }

    /// What a chosen definition means.
    pub fn meant(&self, symbol: &SymbolOf<'a>) -> Option<Meaning<'a>>
        ensures { option_map meaning_view result ≡ meant self.now.objects (symbol_view symbol.now) }
    {
        self.names.meant(symbol)
    }

    /// What a name means that an object defines.
    pub fn object_meaning(&self, name: &[u8]) -> Option<Meaning<'a>>
        ensures { option_map meaning_view result ≡ object_meaning self.now.objects name.now }
    {
        let symbol = self.chosen(name)?;
        self.meant(&symbol)
    }

    /// What a name of the linker's stands for; None where the linker defines nothing for it.
    pub fn bound_of(&self, name: &[u8]) -> Option<Bound>
        ensures { result ≡ bound_of self.now.objects name.now }
    {
        if let Some(bound) = fixed_bound(name) {
            return Some(bound);
        }
        let bound = output_bound(name)?;
        if self.outputs.has(named_output(name)) {
            Some(bound)
        } else {
            None
        }
    }

    /// Where a bound is for which a name of the linker's stands.
    pub fn bound(&self, name: &[u8], bound: Bound) -> u64
        ensures { result ≡ bound_value self.now.places name.now bound }
    {
        self.places.bound(name, bound)
    }

    /// What the linker defines for a name.
    pub fn linker_meaning(&self, name: &'a [u8]) -> Option<Meaning<'a>>
        ensures { option_map meaning_view result
            ≡ option_map (meanings.Linker name.now) (bound_of self.now.objects name.now) }
    {
        let bound = self.bound_of(name)?;
        Some(Meaning::Linker(name, bound))
    }

    /// What a name means: what objects define, or else what the linker does.
    fn meaning(&self, name: &'a [u8]) -> Option<Meaning<'a>>
        ensures { option_map meaning_view result ≡ meaning self.now.objects name.now }
    {
        match self.object_meaning(name) {
            Some(meaning) => Some(meaning),
            None => self.linker_meaning(name),
        }
    }

    /// Whether all sections of the output name are of one output section of which a name of the linker's speaks.
    fn is_of_one_output(&self, name: &[u8]) -> bool
        ensures { IsTrue result ↔ AreOneOutput self.now.objects (named_output name.now) }
    {
        self.outputs.are_one(named_output(name))
    }

    /// Whether a bound is that of an output name whose sections are of several output sections.
    fn is_mixed_bound(&self, name: &[u8], bound: Bound) -> bool
        ensures { IsTrue result ↔ IsMixedBound self.now.objects name.now bound }
    {
        match bound {
            Bound::OutputStart | Bound::OutputEnd => !self.is_of_one_output(name),
            Bound::ImageStart
            | Bound::CodeEnd
            | Bound::DataEnd
            | Bound::ZeroStart
            | Bound::ImageEnd
            | Bound::GotStart => false,
        }
    }

    /// Whether a definition, if there is one, is such a bound.
    fn is_mixed(&self, definition: &Option<Meaning<'_>>) -> bool
        ensures { IsTrue result ↔ IsSomeAnd (option_map meaning_view definition.now)
            (IsMixed self.now.objects) }
    {
        match definition {
            Some(Meaning::Linker(name, bound)) => self.is_mixed_bound(name, *bound),
            Some(Meaning::Symbol(_)) | Some(Meaning::Common(_)) | None => false,
        }
    }

    /// What a relocation uses which names a symbol: what its name means, or the symbol itself where that is LOCAL.
    fn definition(&self, symbol: &SymbolOf<'a>) -> Option<Meaning<'a>>
        ensures { option_map meaning_view result
            ≡ definition_of self.now.objects (symbol_view symbol.now) }
    {
        if symbol.entry.binding() != STB_LOCAL {
            return self.meaning(symbol.name);
        }
        if symbol.entry.st_shndx == SHN_UNDEF {
            return None;
        }
        Some(Meaning::Symbol(*symbol))
    }

    /// Whether a symbol is the chosen definition of its name.
    pub fn is_chosen(&self, symbol: &SymbolOf<'a>) -> bool
        ensures { result ≡ is_chosen self.now.objects (symbol_view symbol.now) }
    {
        self.names.is_chosen(symbol)
    }

    /// Whether a symbol stands in a section with SHF_TLS.
    pub fn is_in_thread_section(&self, symbol: &SymbolOf<'_>) -> bool
        ensures { result ≡ is_in_thread_section self.now.objects (symbol_view symbol.now) }
    {
        is_in_thread_section(self.names.objects(), symbol)
    }

    /// Whether a defined symbol's value is a number. No sum past 2^64 is one.
    pub fn has_value(&self, symbol: &SymbolOf<'_>, value: u64) -> bool
        ensures { IsTrue result ↔ (value
            ≡ symbol_value self.now.places.placed (symbol_view symbol.now)) }
    {
        has_value(self.places, symbol, value)
    }

    /// The value of what a name means, modulo 2^64.
    pub fn value_of(&self, meaning: &Meaning<'_>) -> u64
        ensures { result ≡ meaning_value self.now.places (meaning_view meaning.now) % 2 ^ 64 }
    {
        meaning_value(self.places, meaning)
    }

    /// Whether the value of what a name means is a number.
    pub fn is_value(&self, meaning: &Meaning<'_>, value: u64) -> bool
        ensures { IsTrue result ↔ (value
            ≡ meaning_value self.now.places (meaning_view meaning.now)) }
    {
        match meaning {
            Meaning::Symbol(symbol) => self.has_value(symbol, value),
            Meaning::Common(block) => value == self.address_of(block.object, block.number),
            Meaning::Linker(name, bound) => value == self.places.bound(name, *bound),
        }
    }

    /// Whether all symbols of the objects are sound.
    pub fn are_sound(&self) -> bool
        ensures { IsTrue result ↔ AreSoundSymbols self.now.objects }
    {
        are_sound(self.names.objects())
    }

    /// What a symbol means to the relocations that name it, given what these use.
    fn target_with(&self, symbol: &SymbolOf<'a>, definition: &Option<Meaning<'a>>) -> Target
        requires { option_map meaning_view definition.now
            ≡ definition_of self.now.objects (symbol_view symbol.now) }
        ensures { IsTargetOf self.now (symbol_view symbol.now) result }
    {
        Target {
            undefined: is_in_want(symbol, definition),
            unkept: is_of_unkept(self.names.objects(), symbol),
            dropped: symbol.dropped,
            mixed: self.is_mixed(definition),
            thread_local: is_thread_local(self.names.objects(), definition),
            value: value_or_none(self.places, definition),
            size: size_or_none(definition),
        }
    }

    /// What a symbol means to the relocations that name it, given the symbol which these use, both whatever their names are.
    pub fn target_defined(&self, symbol: &SymbolOf<'a>, definition: &SymbolOf<'a>) -> Target
        ensures { (s t : resolution.SymbolOf) → unnamed s ≡ unnamed (symbol_view symbol.now)
            → unnamed t ≡ unnamed (symbol_view definition.now)
            → definition_of self.now.objects s ≡ Some (meanings.Symbol t)
            → IsTargetOf self.now s result }
    {
        let objects = self.names.objects();
        Target {
            undefined: false,
            unkept: is_of_unkept(objects, symbol),
            dropped: symbol.dropped,
            mixed: false,
            thread_local: is_in_thread_section(objects, definition),
            value: symbol_value(self.places, definition),
            size: definition.entry.st_size,
        }
    }

    /// What a LOCAL symbol means to the relocations that name it.
    pub fn local_target(&self, symbol: &SymbolOf<'a>) -> Target
        requires { is_local (symbol_view symbol.now) ≡ true }
        ensures { IsTargetOf self.now (symbol_view symbol.now) result }
    {
        if symbol.entry.st_shndx == SHN_UNDEF {
            return self.target_with(symbol, &None);
        }
        self.target_defined(symbol, symbol)
    }

    /// What a symbol means to the relocations that name it.
    pub fn target(&self, symbol: &SymbolOf<'a>) -> Target
        ensures { IsTargetOf self.now (symbol_view symbol.now) result }
    {
        let definition = self.definition(symbol);
        self.target_with(symbol, &definition)
    }

    /// The value of what a name of the linker's stands for, 0 where the linker defines nothing for it.
    fn bound_value(&self, name: &[u8]) -> u64
        ensures { result ≡ unwrap_or
            (option_map (bound_value self.now.places name.now)
            (bound_of self.now.objects name.now)) 0 }
    {
        match self.bound_of(name) {
            Some(bound) => self.places.bound(name, bound),
            None => 0,
        }
    }

    /// The value of what a name means, modulo 2^64, 0 where it means nothing.
    pub fn name_value(&self, name: &[u8]) -> u64
        ensures { result ≡ unwrap_or
            (option_map (meaning_value self.now.places)
            (meaning self.now.objects name.now)) 0 % 2 ^ 64 }
    {
        match self.object_meaning(name) {
            Some(meaning) => meaning_value(self.places, &meaning),
            None => self.bound_value(name),
        }
    }

    /// The address of the GOT, 0 without one.
    pub fn got_start(&self) -> u64
        ensures { result ≡ got_start self.now.places.got }
    {
        self.places.got_start()
    }

    /// The thread pointer, modulo 2^64; 0 without thread-local pieces.
    pub fn thread_pointer(&self) -> u64
        ensures { result ≡ thread_pointer self.now.places.placed }
    {
        self.places.thread_pointer()
    }

    /// The slots of the map.
    pub fn slots(&self) -> &'l SlotTable<'l, 'a>
        ensures rows { result.now.rows ≡ self.entry.now.places.slots }
        ensures objects { result.now.objects ≡ self.entry.now.objects }
    {
        self.slots
    }

    /// The address of a section of an object, 0 where it isn't placed.
    pub fn address_of(&self, object: u64, section: u64) -> u64
        ensures { result ≡ section_address self.now.places.placed object section }
    {
        address_of(self.places, object, section)
    }
}
