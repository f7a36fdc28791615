//! The linker's names that kept relocations use and no object defines: which of them have a line in the map.
ghost use Rattle.std.specs.Prelude.{◌≡◌, ◌∷◌, ◌++◌, ◌||◌, ℕ, [], List, IfOk, OnOk, false, option_map, option_to_list};
ghost use Rattle.std.specs.BTreeSet.{IsOrdered};
ghost use Rattle.std.specs.Cmp.Lexicographic.{slice_cmp};
ghost use Rattle.std.specs.List.{list_any};
ghost use Rattle.std.specs.Ordering.{nat_cmp};
ghost use Rattle.std.specs.Str.{bytes_eq};
ghost use Rattle.elf_model.specs.Link.Listing.{AreLinkerLines};
ghost use Rattle.elf_model.specs.Link.Relocation.{relocation_of, relocations, relocations_from, symbol_at};
ghost use Rattle.elf_model.specs.Link.UsedNames.{Gains, is_among, is_linker_use, linker_meaning, linker_meanings, uses_line};
ghost use Rattle.search.specs.KeptLists.{IsKeptRela, relocations_by};
ghost use Rattle.search.specs.Views.{loaded_view, loaded_views};
ghost use Rattle.resolve.specs.Left.{HasNoLinkerNames};
ghost use Rattle.resolve.specs.Views.{meaning_view};
ghost use Rattle.relocate.specs.References.{IsObjectAt};
ghost use Rattle.relocate.specs.Uses.{HasNoLinkerUse, IsUser, is_linkers, line_views, using};

use elf_model::{Bound, ObjectId, Rela, SymbolRef};
use resolve::{Definition, Resolved};
use search::{KeptRela, Loaded, LoadedObject};
use std::alloc::{AllocError, Global};
use std::collections::BTreeSet;

/// Whether what a symbol uses is the linker's.
fn is_linkers(definition: &Option<Definition<'_>>) -> bool
    ensures { result ≡ is_linkers (option_map meaning_view definition.now) }
{
    match definition {
        Some(Definition::Linker(_, _)) => true,
        Some(Definition::Symbol(_)) => false,
        Some(Definition::Common(_)) => false,
        None => false,
    }
}

/// Whether symbol `j` of object `number` isn't LOCAL and has a name that the linker defines and no object
/// does.
fn is_linker_use(
    resolved: &Resolved<'_>,
    number: usize,
    loaded: &LoadedObject<'_>,
    j: usize,
) -> bool
    requires { IsObjectAt resolved.now number (loaded_view loaded.now) }
    ensures { result ≡ is_linker_use resolved.now (symbol_at number (loaded_view loaded.now) j) }
{
    if loaded.object.symbol(j).is_local() {
        return false;
    }
    let symbol = SymbolRef {
        object: ObjectId(number as u64),
        symbol: j as u64,
    };
    if resolved.is_chosen(symbol) {
        return false;
    }
    is_linkers(&resolved.used(symbol))
}

/// Whether a symbol of object `number` is such a one. Where none is, no relocation of the object need be read; where no
/// name is one of them (`named`), no symbol either.
fn has_linker_use(
    resolved: &Resolved<'_>,
    named: bool,
    number: usize,
    loaded: &LoadedObject<'_>,
) -> bool
    requires here { IsObjectAt resolved.now number (loaded_view loaded.now) }
    requires named { named ≡ false → HasNoLinkerNames resolved.now }
    ensures { result ≡ false → HasNoLinkerUse resolved.now number (loaded_view loaded.now) }
{
    if !named {
        return false;
    }
    for j in 0..loaded.object.symbols().len() {
        if is_linker_use(resolved, number, loaded, j) {
            return true;
        }
    }
    false
}

fn add_name<'a>(names: &mut BTreeSet<&'a [u8]>, name: &'a [u8]) -> Result<(), AllocError>
    ensures { OnOk result ((n : List ℕ) →
        is_among names.new n ≡ (bytes_eq name.entry.now n || is_among names.old n)) }
{
    names.insert(name)?;
    Ok(())
}

/// An object whose relocations use names, with its number.
#[derive(Clone, Copy)]
struct User<'u, 'a> {
    resolved: &'u Resolved<'a>,
    number: usize,
    loaded: &'u LoadedObject<'a>,
}

/// Adds the name that an entry uses, where that is a linker's.
fn add_use<'a>(
    names: &mut BTreeSet<&'a [u8]>,
    user: &User<'_, 'a>,
    target: u64,
    entry: &Rela,
) -> Result<(), AllocError>
    requires { IsUser user.now }
    ensures { OnOk result (Gains user.now.resolved.now
        (relocation_of user.now.number (using user.now) target entry.now
        ∷ []) names.old names.new) }
{
    let j = entry.symbol() as usize;
    if !is_linker_use(user.resolved, user.number, user.loaded, j) {
        return Ok(());
    }
    add_name(names, user.loaded.object.symbol_name(j))
}

/// Adds the linker's names that the entries of a kept RELA section use.
fn add_section<'a>(
    names: &mut BTreeSet<&'a [u8]>,
    user: &User<'_, 'a>,
    rela: KeptRela,
) -> Result<(), AllocError>
    requires user { IsUser user.now }
    requires kept { IsKeptRela (using user.now) rela }
    ensures { OnOk result (Gains user.now.resolved.now
        (relocations_by user.now.number (using user.now) rela) names.old names.new) }
{
    for entry in user.loaded.kept_entries(rela) {
        add_use(names, user, rela.target as u64, &entry)?;
    }
    Ok(())
}

/// Adds those that the kept relocations of an object use.
fn add_relocations<'a>(
    names: &mut BTreeSet<&'a [u8]>,
    user: &User<'_, 'a>,
) -> Result<(), AllocError>
    requires { IsUser user.now }
    ensures { OnOk result (Gains user.now.resolved.now
        (relocations_from user.now.number (using user.now)) names.old names.new) }
{
    let relas = user.loaded.kept_relas();
    for rela in relas {
        add_section(names, user, *rela)?;
    }
    Ok(())
}

/// Adds those that the kept relocations of object `number` use.
fn add_object<'a>(
    names: &mut BTreeSet<&'a [u8]>,
    resolved: &Resolved<'a>,
    named: bool,
    number: usize,
    loaded: &LoadedObject<'a>,
) -> Result<(), AllocError>
    requires here { IsObjectAt resolved.now number (loaded_view loaded.now) }
    requires named { named ≡ false → HasNoLinkerNames resolved.now }
    ensures { OnOk result (Gains resolved.now
        (relocations_from number (loaded_view loaded.now)) names.old names.new) }
{
    if !has_linker_use(resolved, named, number, loaded) {
        return Ok(());
    }
    let user = User {
        resolved,
        number,
        loaded,
    };
    add_relocations(names, &user)
}

/// The linker's names that kept relocations use and no object defines.
fn used_names<'a>(
    alloc: Global,
    objects: &[LoadedObject<'a>],
    resolved: &Resolved<'a>,
) -> Result<BTreeSet<&'a [u8]>, AllocError>
    requires { resolved.now ≡ loaded_views objects.now }
    ensures { IfOk result (λ s. (n : List ℕ) →
        is_among s n ≡ list_any (uses_line (loaded_views objects.now) n)
        (relocations (loaded_views objects.now))) }
{
    let named = resolved.has_linker_names();
    let mut names = BTreeSet::new(alloc);
    for k in 0..objects.len() {
        add_object(&mut names, resolved, named, k, &objects[k])?;
    }
    Ok(names)
}

/// Adds a name with what the linker defines it as, where it does.
fn add_line<'a>(
    lines: &mut Vec<(&'a [u8], Bound)>,
    resolved: &Resolved<'_>,
    name: &'a [u8],
) -> Result<(), AllocError>
    ensures { OnOk result (line_views lines.new.items
        ≡ line_views lines.old.items
        ++ option_to_list (linker_meaning resolved.now name.entry.now)) }
{
    if let Some(bound) = resolved.bound(name) {
        lines.push((name, bound))?;
    }
    Ok(())
}

/// What the linker defines the names of a set as, where it does.
fn lines_of<'a>(
    alloc: Global,
    resolved: &Resolved<'_>,
    names: &BTreeSet<&'a [u8]>,
) -> Result<Vec<(&'a [u8], Bound)>, AllocError>
    ensures lines { IfOk result (λ v. line_views v.items
        ≡ linker_meanings resolved.now names.now.keys) }
    ensures ordered { IfOk result (λ v.
        IsOrdered (λ x y. slice_cmp nat_cmp x.now y.now) names.now) }
{
    let mut lines = Vec::new(alloc);
    for name in names {
        add_line(&mut lines, resolved, name)?;
    }
    Ok(lines)
}

/// The lines of the linker's names that kept relocations of objects use.
fn used_lines<'a>(
    alloc: Global,
    objects: &[LoadedObject<'a>],
    resolved: &Resolved<'a>,
) -> Result<Vec<(&'a [u8], Bound)>, AllocError>
    requires { resolved.now ≡ loaded_views objects.now }
    ensures { IfOk result (λ v. AreLinkerLines (loaded_views objects.now) (line_views v.items)) }
{
    let names = used_names(alloc, objects, resolved)?;
    let lines = lines_of(alloc, resolved, &names)?;
    Ok(lines)
}

/// The linker's names that have a line in the map, and what they stand for: those that kept relocations use and no
/// object defines.
///
/// # Errors
///
/// Only where memory is refused.
pub fn linker_lines<'a>(
    alloc: Global,
    loaded: &Loaded<'a>,
    resolved: &Resolved<'a>,
) -> Result<Vec<(&'a [u8], Bound)>, AllocError>
    requires { resolved.now ≡ loaded.now.objects }
    ensures { IfOk result (λ v. AreLinkerLines resolved.now (line_views v.items)) }
{
    used_lines(alloc, loaded.objects(), resolved)
}
