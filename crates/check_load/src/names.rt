//! The names that the command and the loaded objects ask for and define, as they are noted.
ghost use Rattle.std.specs.Prelude.{◌≡◌, ◌&&◌, ◌||◌, ◌∷◌, ℕ, Bool, IfOk, IfSome, List, OnOk, Some, false, slice_get, true};
ghost use Rattle.std.specs.List.{list_any};
ghost use Rattle.std.specs.Str.{bytes_eq};
ghost use Rattle.command.specs.Views.{texts_of};
ghost use Rattle.elf_model.specs.Link.Loading.{has_name, is_definition, is_global_or_weak, is_global_symbol, is_left_undefined, is_request};
ghost use Rattle.elf_model.specs.Inputs.ObjectFile.{symbols};
ghost use Rattle.check_load.specs.Awake.{is_awake};
ghost use Rattle.check_load.specs.Places.{AreWokenSince, none_asked};
ghost use Rattle.check_load.specs.NameNumbers.{IsNumberOf, KeepNumbers};
ghost use Rattle.check_load.specs.Names.{asked_in, defined_in, defines_name, requests_name};
ghost use Rattle.check_load.specs.Numbered.{AreNumbersOf, name_at};

use crate::awake_entries::Awake;
use crate::known_names::{KnownNames, NameState};
use crate::places::Places;
use crate::signatures::Dropped;
use crate::symbol_numbers::SymbolNumbers;
use elf_model::{NameSeed, SHN_UNDEF, STB_GLOBAL, STB_WEAK, Symbol};
use elf_read::ObjectFile;
use std::alloc::{AllocError, Global};

fn is_global(symbol: &Symbol) -> bool
    ensures { result ≡ is_global_symbol symbol.now }
{
    symbol.binding() == STB_GLOBAL
}

fn is_global_or_weak(symbol: &Symbol) -> bool
    ensures { result ≡ is_global_or_weak symbol.now }
{
    is_global(symbol) || symbol.binding() == STB_WEAK
}

/// Whether a symbol is undefined, or stands in a dropped section.
fn is_left_undefined(dropped: &Dropped, symbol: &Symbol) -> bool
    ensures { result ≡ is_left_undefined dropped.now symbol.now }
{
    symbol.st_shndx == SHN_UNDEF || dropped.has(symbol.st_shndx as usize)
}

fn is_request(dropped: &Dropped, symbol: &Symbol) -> bool
    ensures { result ≡ is_request dropped.now symbol.now }
{
    is_global(symbol) && is_left_undefined(dropped, symbol)
}

fn is_definition(dropped: &Dropped, symbol: &Symbol) -> bool
    ensures { result ≡ is_definition dropped.now symbol.now }
{
    is_global_or_weak(symbol) && !is_left_undefined(dropped, symbol)
}

/// Notes what is said of a name, and wakes its entries where that asks for it and nothing did before.
fn note_name<'a>(
    places: &Places<'_, '_>,
    awake: &mut Awake,
    names: &mut KnownNames<'a>,
    name: &'a [u8],
    said: NameState,
) -> Result<usize, AllocError>
    ensures number { IfOk result (λ k. IsNumberOf names.new.names name.entry.now k) }
    ensures kept { OnOk result (KeepNumbers names.old.names names.new.names) }
    ensures woken { OnOk result ((before : List ℕ → Bool) →
        AreWokenSince places.now before names.old awake.old
        → AreWokenSince places.now before names.new awake.new) }
    ensures stays { OnOk result ((i q : ℕ) →
        is_awake awake.old i q ≡ true → is_awake awake.new i q ≡ true) }
    ensures requested { OnOk result ((n : List ℕ) →
        requests_name names.new n
        ≡ (bytes_eq name.entry.now n && said.requested || requests_name names.old n)) }
    ensures defined { OnOk result ((n : List ℕ) →
        defines_name names.new n
        ≡ (bytes_eq name.entry.now n && said.defined || defines_name names.old n)) }
{
    let noted = names.note(name, said)?;
    if noted.before || !said.requested {
        return Ok(noted.number);
    }
    places.wake(awake, name)?;
    Ok(noted.number)
}

/// Notes the name of symbol `j` of an object, where it asks for a definition or is one, and answers its number then.
fn note_symbol<'a>(
    places: &Places<'_, '_>,
    awake: &mut Awake,
    names: &mut KnownNames<'a>,
    object: &ObjectFile<'a>,
    dropped: &Dropped,
    j: usize,
    symbol: &Symbol,
) -> Result<Option<usize>, AllocError>
    requires { slice_get (symbols object.now) j ≡ Some symbol.now }
    ensures number { IfOk result (λ o. IfSome o (λ k.
        IsNumberOf names.new.names (name_at object.now j) k)) }
    ensures kept { OnOk result (KeepNumbers names.old.names names.new.names) }
    ensures woken { OnOk result ((before : List ℕ → Bool) →
        AreWokenSince places.now before names.old awake.old
        → AreWokenSince places.now before names.new awake.new) }
    ensures stays { OnOk result ((i q : ℕ) →
        is_awake awake.old i q ≡ true → is_awake awake.new i q ≡ true) }
    ensures requested { OnOk result ((n : List ℕ) →
        requests_name names.new n
        ≡ (has_name object.now n symbol.now && is_request dropped.now symbol.now
        || requests_name names.old n)) }
    ensures defined { OnOk result ((n : List ℕ) →
        defines_name names.new n
        ≡ (has_name object.now n symbol.now && is_definition dropped.now symbol.now
        || defines_name names.old n)) }
{
    let said = NameState {
        requested: is_request(dropped, symbol),
        defined: is_definition(dropped, symbol),
    };
    if !said.requested && !said.defined {
        return Ok(None);
    }
    let Some(name) = object.name(j) else {
        unreachable!()
    };
    let number = note_name(places, awake, names, name, said)?;
    Ok(Some(number))
}

/// Notes the names of an object's symbols, and wakes the entries of those that nothing asked for before. Answers the
/// numbers of the names.
pub fn note_object<'a>(
    alloc: Global,
    places: &Places<'_, '_>,
    awake: &mut Awake,
    names: &mut KnownNames<'a>,
    object: &ObjectFile<'a>,
    dropped: &Dropped,
) -> Result<SymbolNumbers, AllocError>
    ensures numbers { IfOk result (λ v. AreNumbersOf names.new.names object.now v) }
    ensures kept { OnOk result (KeepNumbers names.old.names names.new.names) }
    ensures woken { OnOk result (AreWokenSince places.now
        (requests_name names.old) names.new awake.new) }
    ensures stays { OnOk result ((i q : ℕ) →
        is_awake awake.old i q ≡ true → is_awake awake.new i q ≡ true) }
    ensures requested { OnOk result ((n : List ℕ) →
        requests_name names.new n
        ≡ (asked_in object.now dropped.now n || requests_name names.old n)) }
    ensures defined { OnOk result ((n : List ℕ) →
        defines_name names.new n
        ≡ (defined_in object.now dropped.now n || defines_name names.old n)) }
{
    let symbols = object.symbols();
    let mut numbers = SymbolNumbers::new(alloc, symbols.len())?;
    for j in 0..symbols.len() {
        let number = note_symbol(places, awake, names, object, dropped, j, &symbols.at(j))?;
        numbers.push(number)?;
    }
    Ok(numbers)
}

/// Notes a name that the command asks for.
fn note_root<'a>(
    places: &Places<'_, '_>,
    awake: &mut Awake,
    names: &mut KnownNames<'a>,
    name: &'a [u8],
) -> Result<(), AllocError>
    ensures requested { OnOk result ((n : List ℕ) →
        requests_name names.new n
        ≡ (bytes_eq name.entry.now n && true || requests_name names.old n)) }
    ensures defined { OnOk result ((n : List ℕ) →
        defines_name names.new n
        ≡ (bytes_eq name.entry.now n && false || defines_name names.old n)) }
    ensures woken { OnOk result (AreWokenSince places.now none_asked names.old awake.old
        → AreWokenSince places.now none_asked names.new awake.new) }
{
    let root = NameState {
        requested: true,
        defined: false,
    };
    note_name(places, awake, names, name, root)?;
    Ok(())
}

/// The names that a command asks for: its entry's, and those of `-u`. Their entries are woken.
pub fn roots<'a>(
    alloc: Global,
    places: &Places<'_, '_>,
    awake: &mut Awake,
    entry: &'a str,
    undefined: &[&'a str],
    seed: Option<NameSeed>,
) -> Result<KnownNames<'a>, AllocError>
    ensures woken { IfOk result (λ m. AreWokenSince places.now none_asked m awake.new) }
    ensures requested { IfOk result (λ m. (n : List ℕ) →
        requests_name m n
        ≡ list_any (λ root. bytes_eq root n) (entry.entry.now ∷ texts_of undefined.now)) }
    ensures defined { IfOk result (λ m. (n : List ℕ) → defines_name m n ≡ false) }
{
    let mut names = KnownNames::new(alloc, seed);
    note_root(places, awake, &mut names, entry.as_bytes())?;
    for name in undefined {
        note_root(places, awake, &mut names, name.as_bytes())?;
    }
    Ok(names)
}
