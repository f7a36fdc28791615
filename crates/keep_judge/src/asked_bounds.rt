//! Whether the sections are in an image of which a name tells where they begin or end (`__start_N`, `__stop_N`).
ghost use Rattle.std.specs.Prelude.{◌≡◌, ◌↔◌, ◌||◌, ℕ, All, IfOk, IsTrue, List, OnOk, false};
ghost use Rattle.elf_model.specs.Link.Pieces.{kept_sections};
ghost use Rattle.elf_model.specs.Inputs.ObjectFile.{rela_symbol};
ghost use Rattle.elf_model.specs.Link.Relocation.{relocations_from, symbol_at};
ghost use Rattle.elf_model.specs.Marks.{is_marked};
ghost use Rattle.check_link.specs.Views.{piece_view, piece_views};
ghost use Rattle.check_load.specs.Views.{loaded_view, loaded_views};
ghost use Rattle.judge_model.specs.Certificates.{is_left_out};
ghost use Rattle.judge_model.specs.Kept as kept;
ghost use Rattle.keep_judge.specs.Collected.{AreLostNames, IsBoundKept, has_name, is_bound_lost, is_lost, is_lost_by};

use crate::kept::is_excluded;
use crate::object_sections::is_marked;
use check_link::{Names, Piece, named_output, output_bound, pieces_of};
use check_load::{KeptRelocation, Loaded};
use elf_model::STB_LOCAL;
use link_fields::Drops;
use std::alloc::{AllocError, Global};
use std::collections::BTreeMap;

/// Whether a section is left out though an image may have it.
fn is_lost(piece: &Piece<'_>, drops: &Drops<'_>) -> bool
    ensures { result ≡ is_lost drops.now (piece_view piece.now) }
{
    drops.has(piece.object, piece.section) && !is_excluded(piece)
}

/// Adds the name of a section, where it is lost.
fn add_lost<'a>(
    lost: &mut BTreeMap<&'a [u8], bool>,
    piece: &Piece<'a>,
    drops: &Drops<'_>,
) -> Result<(), AllocError>
    ensures { OnOk result ((name : List ℕ) → has_name lost.new name
        ≡ (has_name lost.old name || is_lost_by drops.now name (piece_view piece.now))) }
{
    if is_lost(piece, drops) {
        lost.insert(piece.name, true)?;
    }
    Ok(())
}

/// The names of lost sections among some.
fn lost_among<'a>(
    alloc: Global,
    pieces: &[Piece<'a>],
    drops: &Drops<'_>,
) -> Result<BTreeMap<&'a [u8], bool>, AllocError>
    ensures { IfOk result (AreLostNames drops.now (piece_views pieces.now)) }
{
    let mut lost = BTreeMap::new(alloc);
    for piece in pieces {
        add_lost(&mut lost, piece, drops)?;
    }
    Ok(lost)
}

/// Whether a name tells where the sections of an output name begin or end.
fn is_bound_name(name: &[u8]) -> bool
    ensures { result ≡ kept.is_bound_name name.now }
{
    output_bound(name).is_some()
}

/// Whether symbol `j` of object `number` tells where lost sections begin or end, and no object defines its name.
fn is_bound_lost(
    names: &Names<'_, '_>,
    lost: &BTreeMap<&[u8], bool>,
    number: u64,
    loaded: &Loaded<'_>,
    j: usize,
) -> bool
    ensures { result ≡ is_bound_lost names.now (has_name lost.now)
        (symbol_at number (loaded_view loaded.now) j) }
{
    let entry = loaded.object.symbol(j);
    if entry.binding() == STB_LOCAL {
        return false;
    }
    let name = loaded.object.symbol_name(j);
    if !is_bound_name(name) || names.chosen(name).is_some() {
        return false;
    }
    lost.contains_key(named_output(name))
}

/// A mark for each symbol of object `number`: whether it tells so.
fn lost_bounds(
    alloc: Global,
    names: &Names<'_, '_>,
    lost: &BTreeMap<&[u8], bool>,
    number: u64,
    loaded: &Loaded<'_>,
) -> Result<Vec<bool>, AllocError>
    ensures { IfOk result (λ v. (j : ℕ) → is_marked v.items j
        ≡ is_bound_lost names.now (has_name lost.now) (symbol_at number (loaded_view loaded.now) j)) }
{
    let count = loaded.object.symbols().len();
    let mut marks = Vec::with_capacity(alloc, count)?;
    for j in 0..count {
        marks.push(is_bound_lost(names, lost, number, loaded, j))?;
    }
    Ok(marks)
}

/// Whether a relocation of object `number` isn't of the image, or names no marked symbol.
fn is_bound_kept(
    drops: &Drops<'_>,
    marks: &[bool],
    number: u64,
    relocation: &KeptRelocation,
) -> bool
    ensures { IsTrue result ↔ (is_left_out drops.now number relocation.now.section ≡ false
        → is_marked marks.now (rela_symbol relocation.now.entry) ≡ false) }
{
    !is_marked(marks, relocation.entry.symbol()) || drops.has(number, relocation.section as u64)
}

/// Whether no relocation of object `number` in the image asks where lost sections begin or end, given the marks of its symbols.
fn are_marked_kept(
    drops: &Drops<'_>,
    names: &Names<'_, '_>,
    lost: &BTreeMap<&[u8], bool>,
    marks: &[bool],
    number: u64,
    loaded: &Loaded<'_>,
) -> bool
    requires { (j : ℕ) → is_marked marks.now j
        ≡ is_bound_lost names.now (has_name lost.now) (symbol_at number (loaded_view loaded.now) j) }
    ensures { IsTrue result ↔ All (IsBoundKept names.now drops.now (has_name lost.now))
        (relocations_from number (loaded_view loaded.now)) }
{
    for relocation in loaded.relocations() {
        if !is_bound_kept(drops, marks, number, &relocation) {
            return false;
        }
    }
    true
}

/// Whether no relocation of object `number` in the image asks where sections begin or end that are lost, whose names are given.
pub fn are_bounds_kept(
    alloc: Global,
    drops: &Drops<'_>,
    names: &Names<'_, '_>,
    lost: &BTreeMap<&[u8], bool>,
    number: u64,
    loaded: &Loaded<'_>,
) -> Result<bool, AllocError>
    ensures { IfOk result (λ b. IsTrue b ↔ All (IsBoundKept names.now drops.now (has_name lost.now))
        (relocations_from number (loaded_view loaded.now))) }
{
    let marks = lost_bounds(alloc, names, lost, number, loaded)?;
    Ok(are_marked_kept(drops, names, lost, &marks, number, loaded))
}

/// The names of the sections that are left out though an image may have them.
pub fn lost_names<'a>(
    alloc: Global,
    objects: &[Loaded<'a>],
    drops: &Drops<'_>,
) -> Result<BTreeMap<&'a [u8], bool>, AllocError>
    ensures { IfOk result (AreLostNames drops.now (kept_sections (loaded_views objects.now))) }
{
    let pieces = pieces_of(alloc, objects)?;
    lost_among(alloc, &pieces, drops)
}
