//! C13: whether the symbols are sound, no name has two strong definitions, and the symbol lines are those that the names
//! ask for.
ghost use Rattle.std.specs.Prelude.{◌≡◌, ◌+◌, ◌↔◌, ◌≤◌, ℕ, List, All, IfOk, IfSome, IsSome, IsTrue, [], ◌∷◌, false, filter, find, length, map, option_copied, option_map, Some, true};
ghost use Rattle.std.specs.Str.{bytes_eq};
ghost use Rattle.std.specs.Cow.{cow_slice_items};
ghost use Rattle.std.specs.List.{slice_get};
ghost use Rattle.elf_model.specs.Link.ChosenSymbols.{is_chosen};
ghost use Rattle.elf_model.specs.Link.Listing.{linker_line, listed};
ghost use Rattle.linkmap.specs.Borrowed.{symbol_row};
ghost use Rattle.linkmap.specs.Lines.{line_view};
ghost use Rattle.elf_model.specs.Link.Meaning.{Symbol, meaning_name, meanings_of, meant_list, object_meaning};
ghost use Rattle.elf_model.specs.declared.link_map.Definition.TheVariants as definition;
ghost use Rattle.elf_model.specs.Image.MapText.{Ascends, SymbolBefore};
ghost use Rattle.elf_model.specs.Link.Resolution.{AreSoundSymbols, AreUnique};
ghost use Rattle.elf_model.specs.Image.RightLink.{HasLine, Holds, definition_row, objects_of, symbol_row_of, where_of};
ghost use Rattle.check_tables.specs.Listed.{IsChosenIfStrong, IsLine, meaning_line};
ghost use Rattle.check_link.specs.Chosen.{AreOtherChoices, AreOwnChoices};
ghost use Rattle.check_link.specs.Views.{meaning_view, symbol_view};
ghost use Rattle.check_relocs.specs.LinkerUses.{AreUsed};
ghost use Rattle.elf_model.specs.declared.verdict.Clause.TheVariants as clause;

use crate::c13_symbols::own_choices::OwnChoices;
use check_link::{Definitions, Meaning, SymbolOf};
use check_relocs::{Bindings, linker_lines, used_names};
use check_stages::BoundLink;
use elf_model::{Definition, STB_WEAK};
use linkmap::{BorrowedSymbol, Line, SymbolLines};
use std::alloc::{AllocError, Global};
use std::collections::BTreeSet;

pub mod own_choices;

/// The chosen definitions that lines of the map name, where the thirteenth clause holds of a link; None where it doesn't.
pub fn choices<'b, 'a>(
    alloc: Global,
    bound: &'b BoundLink<'_, 'a>,
) -> Result<Option<OwnChoices<'b, 'a>>, AllocError>
    ensures listed { IfOk result (λ o. IsSome o ↔ Holds clause.C13 bound.now) }
    ensures choices { IfOk result (λ o. IfSome o (λ c. c ≡ objects_of bound.now)) }
{
    let link = bound.link();
    let choices = listed_choices(alloc, bound.bindings(), &link.map.symbols)?;
    Ok(choices)
}

/// 1 where a chosen symbol means something, else 0.
fn meaning_count<'a>(bindings: &Bindings<'_, '_, 'a>, symbol: &SymbolOf<'a>) -> usize
    ensures few { result ≤ 1 }
    ensures count { result ≡ length (meant_list bindings.now.objects (symbol_view symbol.now)) }
{
    match bindings.meant(symbol) {
        Some(_) => 1,
        None => 0,
    }
}

/// The same of the chosen definition at a position: only a common one is read whole.
fn meaning_count_at<'a>(
    bindings: &Bindings<'_, '_, 'a>,
    definitions: &Definitions<'_, 'a>,
    position: usize,
) -> usize
    ensures few { result ≤ 1 }
    ensures count { IfSome (slice_get definitions.now position)
        (λ s. result ≡ length (meant_list bindings.now.objects s)) }
{
    if !definitions.is_common(position) {
        return 1;
    }
    match definitions.get(position) {
        Some(symbol) => meaning_count(bindings, &symbol),
        None => 0,
    }
}

/// The mark at a position, where there is one.
fn mark_at(own: &[bool], position: usize) -> Option<bool>
    ensures { result ≡ slice_get own.now position }
{
    own.get(position).copied()
}

/// Whether a definition is the chosen one of its name.
fn is_chosen_at<'a>(
    bindings: &Bindings<'_, '_, 'a>,
    definitions: &Definitions<'_, 'a>,
    position: usize,
) -> bool
    ensures { IfSome (slice_get definitions.now position)
        (λ s. result ≡ is_chosen bindings.now.objects s) }
{
    match definitions.get(position) {
        Some(symbol) => bindings.is_chosen(&symbol),
        None => false,
    }
}

/// The same, which its mark tells. It is looked up where there is none.
fn is_chosen_by<'a>(
    bindings: &Bindings<'_, '_, 'a>,
    definitions: &Definitions<'_, 'a>,
    position: usize,
    mark: Option<bool>,
) -> bool
    requires own { mark ≡ Some true → IfSome (slice_get definitions.now position)
        (λ s. is_chosen bindings.now.objects s ≡ true) }
    requires others { mark ≡ Some false → IfSome (slice_get definitions.now position)
        (λ s. is_chosen bindings.now.objects s ≡ false) }
    ensures { IfSome (slice_get definitions.now position)
        (λ s. result ≡ is_chosen bindings.now.objects s) }
{
    match mark {
        Some(mark) => mark,
        None => is_chosen_at(bindings, definitions, position),
    }
}

/// How many lines the definition at a position has, which may be the chosen one of its name: one where it is. None where it
/// is a strong one that isn't.
fn line_count<'a>(
    bindings: &Bindings<'_, '_, 'a>,
    definitions: &Definitions<'_, 'a>,
    position: usize,
    chosen: bool,
) -> Option<usize>
    requires { IfSome (slice_get definitions.now position)
        (λ s. chosen ≡ is_chosen bindings.now.objects s) }
    ensures few { IfSome result (λ n. n ≤ 1) }
    ensures count { IfSome (slice_get definitions.now position) (λ s. IfSome result (λ n. n
        ≡ length (meanings_of bindings.now.objects
        (filter (is_chosen bindings.now.objects) (s ∷ []))))) }
    ensures lawful { IfSome (slice_get definitions.now position)
        (λ s. IsSome result ↔ IsChosenIfStrong bindings.now.objects s) }
{
    if chosen {
        return Some(meaning_count_at(bindings, definitions, position));
    }
    if definitions.is_strong(position) {
        None
    } else {
        Some(0)
    }
}

/// How many lines all definitions have together; None where a strong one isn't chosen. Those that have a mark are chosen for
/// their own names, and those whose mark isn't set aren't.
fn chosen_count<'a>(
    bindings: &Bindings<'_, '_, 'a>,
    definitions: &Definitions<'_, 'a>,
    own: &[bool],
) -> Option<usize>
    requires own { AreOwnChoices bindings.now.objects definitions.now own.now }
    requires others { AreOtherChoices bindings.now.objects definitions.now own.now }
    ensures count { IfSome result (λ n. n
        ≡ length (meanings_of bindings.now.objects
        (filter (is_chosen bindings.now.objects) definitions.now))) }
    ensures unique { IsSome result
        ↔ All (IsChosenIfStrong bindings.now.objects) definitions.now }
{
    let mut count = 0;
    for i in 0..definitions.len() {
        let chosen = is_chosen_by(bindings, definitions, i, mark_at(own, i));
        let Some(more) = line_count(bindings, definitions, i, chosen) else {
            return None;
        };
        count += more;
    }
    Some(count)
}

/// The name of what a name means.
fn name_of<'a>(meaning: &Meaning<'a>) -> &'a [u8]
    ensures { result.now ≡ meaning_name (meaning_view meaning.now) }
{
    match meaning {
        Meaning::Symbol(symbol) => symbol.name,
        Meaning::Common(block) => block.name,
        Meaning::Linker(name, _) => name,
    }
}

/// What a name means that has a line, given the linker's names that have one.
pub fn listed_meaning<'a>(
    bindings: &Bindings<'_, '_, 'a>,
    names: &BTreeSet<&'a [u8]>,
    name: &'a [u8],
) -> Option<Meaning<'a>>
    requires { AreUsed bindings.now.objects names.now }
    ensures { option_map meaning_view result ≡ listed bindings.now.objects name.entry.now }
{
    match bindings.object_meaning(name) {
        Some(meaning) => Some(meaning),
        None if names.contains(name) => bindings.linker_meaning(name),
        None => None,
    }
}

/// Who defines a name, as its line says.
fn definition_of(meaning: &Meaning<'_>) -> Definition
    ensures { result ≡ definition_row (meaning_view meaning.now) }
{
    match meaning {
        Meaning::Common(_) => Definition::Common,
        Meaning::Linker(_, _) => Definition::Linker,
        Meaning::Symbol(definition) => {
            let (object, symbol) = (definition.object, definition.number);
            match definition.entry.binding() {
                STB_WEAK => Definition::Weak { object, symbol },
                _ => Definition::Strong { object, symbol },
            }
        }
    }
}

/// The line that says what a name means, with its value modulo 2^64, if it means something.
pub fn line_of<'a>(
    bindings: &Bindings<'_, '_, '_>,
    meaning: &Option<Meaning<'a>>,
) -> Option<Line<'a>>
    ensures { option_map line_view result
        ≡ option_map (meaning_line bindings.now.places) (option_map meaning_view meaning.now) }
{
    match meaning {
        Some(meaning) => Some(Line::Symbol {
            address: bindings.value_of(meaning),
            definition: definition_of(meaning),
            name: name_of(meaning),
        }),
        None => None,
    }
}

/// Whether a line names a symbol as a definition of its binding.
fn names_symbol(definition: Definition, symbol: &SymbolOf<'_>) -> bool
    ensures { IsTrue result ↔ (definition ≡ definition_row (Symbol (symbol_view symbol.now))) }
{
    let weak = symbol.entry.binding() == STB_WEAK;
    match definition {
        Definition::Strong {
            object,
            symbol: number,
        } => !weak && object == symbol.object && number == symbol.number,
        Definition::Weak {
            object,
            symbol: number,
        } => weak && object == symbol.object && number == symbol.number,
        Definition::Common | Definition::Linker => false,
    }
}

/// Whether a line names a definition as what it is.
fn names_definition(definition: Definition, meaning: &Meaning<'_>) -> bool
    ensures { IsTrue result ↔ (definition ≡ definition_row (meaning_view meaning.now)) }
{
    match meaning {
        Meaning::Symbol(symbol) => names_symbol(definition, symbol),
        Meaning::Common(_) => is_common(definition),
        Meaning::Linker(_, _) => is_linkers(definition),
    }
}

/// Whether a line says that its name is that of a common block.
fn is_common(told: Definition) -> bool
    ensures { IsTrue result ↔ (told ≡ definition.Common) }
{
    match told {
        Definition::Common => true,
        Definition::Strong { .. } | Definition::Weak { .. } | Definition::Linker => false,
    }
}

/// Whether a line says that the linker defines its name.
fn is_linkers(told: Definition) -> bool
    ensures { IsTrue result ↔ (told ≡ definition.Linker) }
{
    match told {
        Definition::Linker => true,
        Definition::Strong { .. } | Definition::Weak { .. } | Definition::Common => false,
    }
}

/// Whether a line has a definition's name, names it as what it is and gives its value.
fn is_line_of(
    bindings: &Bindings<'_, '_, '_>,
    meaning: &Meaning<'_>,
    line: &BorrowedSymbol<'_>,
) -> bool
    ensures { IsTrue result ↔ (symbol_row line.now
        ≡ symbol_row_of bindings.now.places (meaning_view meaning.now)) }
{
    if line.name != name_of(meaning) {
        return false;
    }
    if !names_definition(line.definition, meaning) {
        return false;
    }
    bindings.is_value(meaning, line.address)
}

/// The first line of a name.
fn line_named<'m>(lines: &'m SymbolLines<'_>, name: &[u8]) -> Option<BorrowedSymbol<'m>>
    ensures { option_map symbol_row result
        ≡ find (λ line. bytes_eq line.name name.now) lines.entry.now.rows }
{
    for line in lines.iter() {
        if line.name == name {
            return Some(line);
        }
    }
    None
}

/// Whether a line, if there is one, is that of a definition, if there is one.
fn is_line_of_some(
    bindings: &Bindings<'_, '_, '_>,
    line: &Option<BorrowedSymbol<'_>>,
    meaning: &Option<Meaning<'_>>,
) -> bool
    ensures { IsTrue result ↔ (option_map symbol_row line.now
        ≡ option_map (symbol_row_of bindings.now.places) (option_map meaning_view meaning.now)) }
{
    match (line, meaning) {
        (None, None) => true,
        (Some(line), Some(meaning)) => is_line_of(bindings, meaning, line),
        (_, _) => false,
    }
}

/// Whether the lines of a link have the one that a name asks for, given what it means that has a line.
pub fn has_line(bound: &BoundLink<'_, '_>, name: &[u8], meaning: &Option<Meaning<'_>>) -> bool
    requires { option_map meaning_view meaning.now ≡ listed (objects_of bound.now) name.now }
    ensures { IsTrue result ↔ HasLine
        bound.now.map.symbols (objects_of bound.now) (where_of bound.now) name.now }
{
    let link = bound.link();
    let line = line_named(&link.map.symbols, name);
    is_line_of_some(bound.bindings(), &line, meaning)
}

/// Whether a line is that of a name that no object defines, and that is one of the linker's with a line.
fn is_linkers_line(
    bindings: &Bindings<'_, '_, '_>,
    names: &BTreeSet<&[u8]>,
    line: &BorrowedSymbol<'_>,
) -> bool
    requires { AreUsed bindings.now.objects names.now }
    ensures { IsTrue result
        ↔ (option_map (symbol_row_of bindings.now.places)
        (linker_line bindings.now.objects line.now.name.now) ≡ Some (symbol_row line.now)) }
{
    if !names.contains(line.name) {
        return false;
    }
    match bindings.bound_of(line.name) {
        Some(bound) => {
            is_linkers(line.definition) && line.address == bindings.bound(line.name, bound)
        }
        None => false,
    }
}

/// Whether a line is that of what objects define for its name, or else of what the linker does, given the linker's names
/// that have one.
fn is_line_of_name(
    bindings: &Bindings<'_, '_, '_>,
    names: &BTreeSet<&[u8]>,
    meaning: &Option<Meaning<'_>>,
    line: &BorrowedSymbol<'_>,
) -> bool
    requires names { AreUsed bindings.now.objects names.now }
    requires meaning { option_map meaning_view meaning.now
        ≡ object_meaning bindings.now.objects line.now.name.now }
    ensures { IsTrue result ↔ IsLine bindings.now.objects bindings.now.places
        (symbol_row line.now) }
{
    match meaning {
        Some(meaning) => is_line_of(bindings, meaning, line),
        None => is_linkers_line(bindings, names, line),
    }
}

/// Whether a line is that of what its name means, given the linker's names that have one.
pub fn is_right_line(
    bindings: &Bindings<'_, '_, '_>,
    names: &BTreeSet<&[u8]>,
    line: &BorrowedSymbol<'_>,
) -> bool
    requires { AreUsed bindings.now.objects names.now }
    ensures { IsTrue result ↔ IsLine bindings.now.objects bindings.now.places
        (symbol_row line.now) }
{
    let meaning = bindings.object_meaning(line.name);
    is_line_of_name(bindings, names, &meaning, line)
}

/// What objects define for a line's name. The name is looked up only where the line doesn't name its chosen definition.
pub fn meaning_of_line<'a>(
    bindings: &Bindings<'_, '_, 'a>,
    choices: &OwnChoices<'_, 'a>,
    line: &BorrowedSymbol<'_>,
) -> Option<Meaning<'a>>
    requires { choices.now ≡ bindings.now.objects }
    ensures { option_map meaning_view result
        ≡ object_meaning bindings.now.objects line.now.name.now }
{
    match choices.find(line) {
        Some(symbol) => bindings.meant(&symbol),
        None => bindings.object_meaning(line.name),
    }
}

/// Whether a line is that of what its name means, with the chosen definitions that lines name.
fn is_right_by<'a>(
    bindings: &Bindings<'_, '_, 'a>,
    names: &BTreeSet<&[u8]>,
    choices: &OwnChoices<'_, 'a>,
    line: &BorrowedSymbol<'_>,
) -> bool
    requires names { AreUsed bindings.now.objects names.now }
    requires choices { choices.now ≡ bindings.now.objects }
    ensures { IsTrue result ↔ IsLine bindings.now.objects bindings.now.places
        (symbol_row line.now) }
{
    let meaning = meaning_of_line(bindings, choices, line);
    is_line_of_name(bindings, names, &meaning, line)
}

fn are_right_lines<'a>(
    bindings: &Bindings<'_, '_, 'a>,
    names: &BTreeSet<&[u8]>,
    choices: &OwnChoices<'_, 'a>,
    lines: &SymbolLines<'_>,
) -> bool
    requires names { AreUsed bindings.now.objects names.now }
    requires choices { choices.now ≡ bindings.now.objects }
    ensures { IsTrue result
        ↔ All (IsLine bindings.now.objects bindings.now.places) lines.now.rows }
{
    for line in lines.iter() {
        if !is_right_by(bindings, names, choices, &line) {
            return false;
        }
    }
    true
}

fn is_sum(whole: usize, a: usize, b: usize) -> bool
    ensures { IsTrue result ↔ (whole ≡ a + b) }
{
    a <= whole && whole - a == b
}

/// The chosen definitions that lines name, which ascend by name, where all symbols are sound, no name has two strong definitions,
/// and the lines are those of the names that have one: each is right, and there are as many. Else None.
fn listed_choices<'b, 'a>(
    alloc: Global,
    bindings: &'b Bindings<'_, '_, 'a>,
    lines: &SymbolLines<'_>,
) -> Result<Option<OwnChoices<'b, 'a>>, AllocError>
    requires { Ascends SymbolBefore lines.now.rows }
    ensures listed { let L = bindings.now.objects in IfOk result
        (λ o. IsSome o
        ↔ (AreSoundSymbols L × AreUnique L
        × ((name : List ℕ) → HasLine lines.now.rows L bindings.now.places name))) }
    ensures choices { IfOk result (λ o. IfSome o (λ c. c ≡ bindings.now.objects)) }
{
    if !bindings.are_sound() {
        return Ok(None);
    }
    let definitions = bindings.definitions();
    let own = bindings.own_choices(alloc)?;
    let Some(count) = chosen_count(bindings, definitions, &own) else {
        return Ok(None);
    };
    let names = used_names(alloc, bindings)?;
    let linkers = linker_lines(alloc, bindings, &names)?;
    if !is_sum(lines.len(), count, linkers.len()) {
        return Ok(None);
    }
    let choices = OwnChoices::new(alloc, bindings, own)?;
    if !are_right_lines(bindings, &names, &choices, lines) {
        return Ok(None);
    }
    Ok(Some(choices))
}
