//! The linker's names that kept relocations use: which of them have a line in the map.
ghost use Rattle.std.specs.Prelude.{◌≡◌, ◌∷◌, ◌++◌, ◌||◌, [], List, ℕ, IfOk, OnOk, false, option_to_list, true};
ghost use Rattle.std.specs.Str.{bytes_eq};
ghost use Rattle.std.specs.BTreeSet.{IsOrdered};
ghost use Rattle.std.specs.Cmp.Lexicographic.{slice_cmp};
ghost use Rattle.std.specs.Ordering.{nat_cmp};
ghost use Rattle.elf_model.specs.Link.Listing.{AreLinkerLines};
ghost use Rattle.elf_model.specs.Link.UsedNames.{Gains, is_among, is_linker_use, linker_meaning, linker_meanings};
ghost use Rattle.check_relocs.specs.LinkerUses.{AreUsed, AreUses, HaveNoUses};
ghost use Rattle.check_relocs.specs.Referrers.{object_here, objects_here, relocation_here, relocations_here, symbol_here};
ghost use Rattle.check_link.specs.Views.{meaning_views, symbol_view};

use crate::answers::{keep_answer, known_answer, no_answers};
use crate::bindings::Bindings;
use crate::referrer::Referrer;
use crate::targets::{entry_count, is_local_at, symbol_at};
use check_link::{Meaning, SymbolOf};
use check_load::KeptRelocation;
use elf_model::STB_LOCAL;
use std::alloc::{AllocError, Global};
use std::collections::BTreeSet;

/// Whether a symbol isn't LOCAL and has a name that the linker defines and no object does.
fn is_linker_use(bindings: &Bindings<'_, '_, '_>, symbol: &SymbolOf<'_>) -> bool
    ensures { result ≡ is_linker_use bindings.now.objects (symbol_view symbol.now) }
{
    if symbol.entry.binding() == STB_LOCAL {
        return false;
    }
    bindings.bound_of(symbol.name).is_some() && bindings.chosen(symbol.name).is_none()
}

/// Whether symbol `j` of an object is such a one. Of a LOCAL one the name isn't read, nor of one for whose name loading noted
/// that an object defines it.
fn is_use_of(here: &Referrer<'_, '_, '_, '_>, j: usize) -> bool
    ensures { result ≡ is_linker_use (objects_here here.now) (symbol_here here.now j) }
{
    if is_local_at(here.loaded, j) {
        return false;
    }
    if here.bindings.has_noted_choice(here.number, j as u64) {
        return false;
    }
    is_linker_use(here.bindings, &symbol_at(here.loaded, here.number, j))
}

/// Whether symbol `j` is such a one. It is looked up where that isn't known.
fn is_use(here: &Referrer<'_, '_, '_, '_>, uses: &mut Vec<Option<bool>>, j: usize) -> bool
    requires { AreUses here.now uses.old.items }
    ensures kept { AreUses here.now uses.new.items }
    ensures is_use { result ≡ is_linker_use (objects_here here.now) (symbol_here here.now j) }
{
    if let Some(is_use) = known_answer(uses, j) {
        return is_use;
    }
    let answer = is_use_of(here, j);
    keep_answer(uses, j, answer);
    answer
}

fn add_name<'a>(names: &mut BTreeSet<&'a [u8]>, name: &'a [u8]) -> Result<(), AllocError>
    ensures { OnOk result ((n : List ℕ) →
        is_among names.new n ≡ (bytes_eq name.entry.now n || is_among names.old n)) }
{
    names.insert(name)?;
    Ok(())
}

/// Adds the name that a relocation uses, where that is a linker's.
fn add_use<'a>(
    names: &mut BTreeSet<&'a [u8]>,
    here: &Referrer<'_, '_, '_, 'a>,
    uses: &mut Vec<Option<bool>>,
    relocation: &KeptRelocation,
) -> Result<(), AllocError>
    requires { AreUses here.now uses.old.items }
    ensures kept { OnOk result (AreUses here.now uses.new.items) }
    ensures gains { OnOk result (Gains (objects_here here.now)
        (relocation_here here.now relocation.now ∷ []) names.old names.new) }
{
    let j = relocation.entry.symbol() as usize;
    if !is_use(here, uses, j) {
        return Ok(());
    }
    add_name(names, here.loaded.object.symbol_name(j))
}

/// Whether an object has such a symbol at all. Mostly none does, and then its relocations needn't be read.
fn has_use(here: &Referrer<'_, '_, '_, '_>) -> bool
    ensures { result ≡ false
        → HaveNoUses (objects_here here.now) here.now.number (object_here here.now) }
{
    for j in 0..here.loaded.object.symbols().len() {
        if is_use_of(here, j) {
            return true;
        }
    }
    false
}

/// Whether it is known that no symbol of an object is such. The symbols are asked only where there are no more of them than
/// relocations.
fn has_no_use(here: &Referrer<'_, '_, '_, '_>) -> bool
    ensures { result ≡ true
        → HaveNoUses (objects_here here.now) here.now.number (object_here here.now) }
{
    if entry_count(here.loaded) < here.loaded.object.symbols().len() {
        return false;
    }
    !has_use(here)
}

/// Adds those that the kept relocations of an object use.
fn add_object<'a>(
    alloc: Global,
    names: &mut BTreeSet<&'a [u8]>,
    here: &Referrer<'_, '_, '_, 'a>,
) -> Result<(), AllocError>
    ensures { OnOk result (Gains (objects_here here.now)
        (relocations_here here.now) names.old names.new) }
{
    if has_no_use(here) {
        return Ok(());
    }
    let mut uses = no_answers(alloc, here.loaded)?;
    for relocation in here.loaded.relocations() {
        add_use(names, here, &mut uses, &relocation)?;
    }
    Ok(())
}

/// The linker's names that kept relocations use and no object defines, which have a line in the map.
pub fn used_names<'a>(
    alloc: Global,
    bindings: &Bindings<'_, '_, 'a>,
) -> Result<BTreeSet<&'a [u8]>, AllocError>
    ensures { IfOk result (AreUsed bindings.now.objects) }
{
    let objects = bindings.objects();
    let mut names = BTreeSet::new(alloc);
    for k in 0..objects.len() {
        let here = Referrer {
            bindings,
            number: k as u64,
            loaded: &objects[k],
        };
        add_object(alloc, &mut names, &here)?;
    }
    Ok(names)
}

/// Adds what the linker defines for a name.
fn add_line<'a>(
    bindings: &Bindings<'_, '_, 'a>,
    name: &'a [u8],
    lines: &mut Vec<Meaning<'a>>,
) -> Result<(), AllocError>
    ensures { OnOk result (meaning_views lines.new.items
        ≡ meaning_views lines.old.items
        ++ option_to_list (linker_meaning bindings.now.objects name.entry.now)) }
{
    if let Some(meaning) = bindings.linker_meaning(name) {
        lines.push(meaning)?;
    }
    Ok(())
}

/// What the linker defines for the names of a set.
fn lines_of<'a>(
    alloc: Global,
    bindings: &Bindings<'_, '_, 'a>,
    names: &BTreeSet<&'a [u8]>,
) -> Result<Vec<Meaning<'a>>, AllocError>
    ensures lines { IfOk result (λ v. meaning_views v.items
        ≡ linker_meanings bindings.now.objects names.now.keys) }
    ensures ordered { IfOk result (λ v.
        IsOrdered (λ a b. slice_cmp nat_cmp a.now b.now) names.now) }
{
    let mut lines = Vec::new(alloc);
    for name in names {
        add_line(bindings, name, &mut lines)?;
    }
    Ok(lines)
}

/// What the linker's names mean that have a line in the map, given these names.
pub fn linker_lines<'a>(
    alloc: Global,
    bindings: &Bindings<'_, '_, 'a>,
    names: &BTreeSet<&'a [u8]>,
) -> Result<Vec<Meaning<'a>>, AllocError>
    requires { AreUsed bindings.now.objects names.now }
    ensures { IfOk result (λ v. AreLinkerLines bindings.now.objects (meaning_views v.items)) }
{
    let lines = lines_of(alloc, bindings, names)?;
    Ok(lines)
}
