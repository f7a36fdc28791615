//! The names of the entries of a symbol table: each offset of the string table that entries tell is looked up once.
ghost use Rattle.std.specs.Prelude.{◌≡◌, ◌∷◌, ◌||◌, [], ℕ, IfOk, IfSome, IsPermutation, List, OnOk};
ghost use Rattle.std.specs.List.{list_any};
ghost use Rattle.std.specs.Str.{bytes_eq};
ghost use Rattle.byteview.specs.Numbers.{text};
ghost use Rattle.check_load.specs.NameNumbers.{is_among};
ghost use Rattle.symbol_judge.specs.Names.{IsNoted, is_name_of};

use byteview::View;
use check_load::NameTable;
use elf_model::{NameSeed, Symbol};
use std::alloc::{AllocError, Global};

/// The text at an offset of a string table, up to a NUL or to the table's end.
pub fn name_at<'a>(strings: &View<'a>, offset: u32) -> &'a [u8]
    ensures { result.now ≡ text strings.now offset }
{
    match strings.text_at(offset as usize) {
        Some(name) => name,
        None => strings.part(offset as usize, strings.len()),
    }
}

/// Adds the name at an offset to names, given an offset whose name they have.
fn note<'a>(
    names: &mut NameTable<'a>,
    strings: &View<'a>,
    noted: Option<u32>,
    offset: u32,
) -> Result<(), AllocError>
    requires { IfSome noted (IsNoted strings.now names.old) }
    ensures among { OnOk result ((n : List ℕ) → is_among names.new n
        ≡ (bytes_eq n (text strings.now offset) || is_among names.old n)) }
    ensures noted { OnOk result (IsNoted strings.now names.new offset) }
{
    if noted == Some(offset) {
        return Ok(());
    }
    names.add(name_at(strings, offset))?;
    Ok(())
}

/// Adds the names of entries, which stand by their offsets, to names.
fn add_names<'a>(
    names: &mut NameTable<'a>,
    strings: &View<'a>,
    entries: &[Symbol],
) -> Result<(), AllocError>
    ensures { OnOk result ((n : List ℕ) → is_among names.new n
        ≡ (list_any (is_name_of strings.now n) entries.now || is_among names.old n)) }
{
    let mut noted = None;
    for entry in entries {
        note(names, strings, noted, entry.st_name)?;
        noted = Some(entry.st_name);
    }
    Ok(())
}

/// The names of a table's first entry and of the others, to be hashed from a seed, or found by their order without one. Where
/// entries stand by their offsets, the name at each offset is added once.
pub fn names_of<'a>(
    alloc: Global,
    strings: &View<'a>,
    first: &[Symbol],
    others: &[Symbol],
    seed: Option<NameSeed>,
) -> Result<NameTable<'a>, AllocError>
    ensures { IfOk result (λ t. (n : List ℕ) → is_among t n
        ≡ (list_any (is_name_of strings.now n) others.now
        || list_any (is_name_of strings.now n) first.now)) }
{
    let mut names = NameTable::new(alloc, seed);
    add_names(&mut names, strings, first)?;
    add_names(&mut names, strings, others)?;
    Ok(names)
}

/// Entries by the offsets of their names.
pub fn by_name(alloc: Global, entries: &[Symbol]) -> Result<Vec<Symbol>, AllocError>
    ensures { IfOk result (λ v. IsPermutation entries.now v.items) }
{
    let mut sorted = Vec::from_slice(alloc, entries)?;
    sorted.sort_by_key(|e| e.st_name)?;
    Ok(sorted)
}
