//! Whether no symbol is defined inside an instruction that linkers may rewrite: code that goes there would find another one. An
//! object's symbols are put in order once, and found by bisection.
ghost use Rattle.std.specs.Prelude.{◌≡◌, ◌↔◌, ◌<◌, ◌≤◌, ◌^◌, ◌++◌, ℕ, List, All, Any, IfOk, IsPermutation, IsTrue, OnOk, Some, length, slice_index_or};
ghost use Rattle.std.specs.List.{flat_map, slice_get};
ghost use Rattle.std.specs.List.Sorted.{IsNonDecreasingBy};
ghost use Rattle.check_load.specs.KeptRelocations.{relocation_at};
ghost use Rattle.check_load.specs.Views.{loaded_view, loaded_views};
ghost use Rattle.elf_model.specs.Inputs.ObjectFile as object_file;
ghost use Rattle.elf_model.specs.Link.Loading.{LoadedObject};
ghost use Rattle.elf_model.specs.Link.Relocation.{Relocation, relocations, relocations_from};
ghost use Rattle.elf_model.specs.declared.records.Symbol as listed;
ghost use Rattle.input_judge.specs.WholeCode.{ArePoints, IsBetween, IsShort, IsWholeUnlessOut, key_of, points_of};
ghost use Rattle.judge_model.specs.Fields.{IsDefinedInside, IsWholeInstruction};
ghost use Rattle.judge_model.specs.Links.{ForeignLink, objects_of, relocations_of};

use check_load::{KeptRelocation, Loaded};
use elf_model::{Rela, Symbol};
use field_judge::front_of;
use link_fields::{Drops, place_of};
use std::alloc::{AllocError, Global};

/// Where a symbol is defined: its section and its value there, as one number by which symbols are in order.
#[derive(Clone, Copy, Debug)]
pub struct Point {
    pub key: u128,
}

/// The number of a value in a section, or of a byte just past all values.
fn key_of(section: u32, value: u128) -> u128
    requires { value ≤ 2 ^ 64 }
    ensures { result ≡ key_of section value }
{
    section as u128 * 0x1_0000_0000_0000_0000 + value
}

/// Adds where a symbol is defined, unless that is where a section begins, which is inside of nothing.
fn add_point(points: &mut Vec<Point>, symbol: &Symbol) -> Result<(), AllocError>
    ensures points { OnOk result (points.new.items ≡ points.old.items ++ points_of symbol.now) }
    ensures short { IsShort symbol.now }
{
    if symbol.st_value == 0 {
        return Ok(());
    }
    points.push(Point {
        key: key_of(symbol.st_shndx as u32, symbol.st_value as u128),
    })?;
    Ok(())
}

/// Where the symbols of an object are defined.
fn found_points(alloc: Global, loaded: &Loaded<'_>) -> Result<Vec<Point>, AllocError>
    ensures points { IfOk result (λ v. v.items
        ≡ flat_map points_of (object_file.symbols loaded.now.object)) }
    ensures short { IfOk result (λ v. All IsShort (object_file.symbols loaded.now.object)) }
{
    let symbols = loaded.object.symbols();
    let mut points = Vec::new(alloc);
    for j in 0..symbols.len() {
        add_point(&mut points, &symbols.at(j))?;
    }
    Ok(points)
}

/// Points by rising numbers.
fn sorted(points: Vec<Point>) -> Result<Vec<Point>, AllocError>
    ensures same { IfOk result (λ v. IsPermutation points.items v.items) }
    ensures rising { IfOk result (λ v. IsNonDecreasingBy (λ x. x.key) v.items) }
{
    let mut points = points;
    points.sort_by_key(|x| x.key)?;
    Ok(points)
}

/// How many of the points have numbers up to one.
fn count_through(points: &[Point], key: u128) -> usize
    requires { IsNonDecreasingBy (λ x. x.key) points.now }
    ensures within { result ≤ length points.now }
    ensures through { (k : ℕ) (d : Point) →
        k < result → (slice_index_or points.now k d).key ≤ key }
    ensures behind { (k : ℕ) (d : Point) →
        result ≤ k → k < length points.now → key < (slice_index_or points.now k d).key }
{
    points.partition_point(|x| x.key <= key)
}

/// How many of the points have numbers below one.
fn count_before(points: &[Point], key: u128) -> usize
    requires { IsNonDecreasingBy (λ x. x.key) points.now }
    ensures within { result ≤ length points.now }
    ensures before { (k : ℕ) (d : Point) →
        k < result → (slice_index_or points.now k d).key < key }
    ensures from { (k : ℕ) (d : Point) →
        result ≤ k → k < length points.now → key ≤ (slice_index_or points.now k d).key }
{
    points.partition_point(|x| x.key < key)
}

/// Whether a point has a number between two.
fn has_between(points: &[Point], low: u128, high: u128) -> bool
    requires { IsNonDecreasingBy (λ x. x.key) points.now }
    ensures { IsTrue result ↔ Any (IsBetween low high) points.now }
{
    count_through(points, low) < count_before(points, high)
}

/// Whether a symbol is defined inside the place of a relocation of a section, given where those of its object are, in order.
fn is_broken(points: &[Point], section: u32, entry: &Rela) -> bool
    requires { IsNonDecreasingBy (λ x. x.key) points.now }
    ensures { (r : Relocation) (ss : List listed.Symbol) → r.entry ≡ entry.now → r.section ≡ section
        → IsPermutation (flat_map points_of ss) points.now → All IsShort ss
        → IsTrue result ↔ Any (IsDefinedInside r) ss }
{
    let place = place_of(entry);
    let end = place.at as u128 + place.width as u128;
    let low = key_of(section, place.at as u128);
    has_between(
        points,
        low,
        key_of(section, end.min(0x1_0000_0000_0000_0000)),
    )
}

/// Whether the instruction of a relocation of object `number` is whole, or it tells none, or its section is left out, given where the
/// symbols of its object are, in order.
fn is_whole_unless_out(
    points: &[Point],
    drops: &Drops<'_>,
    number: u64,
    relocation: &KeptRelocation,
) -> bool
    requires { IsNonDecreasingBy (λ x. x.key) points.now }
    ensures { (o : LoadedObject) (objects : List LoadedObject) → ArePoints o points.now
        → slice_get objects number ≡ Some o → IsTrue result
        ↔ IsWholeUnlessOut objects drops.now (relocation_at number o relocation.now) }
{
    if front_of(&relocation.entry) == 0 {
        return true;
    }
    if drops.has(number, relocation.section as u64) {
        return true;
    }
    !is_broken(points, relocation.section, &relocation.entry)
}

/// Whether the instructions of the relocations of object `number` are whole, but for those of sections that are left out, given where
/// its symbols are, in order.
fn have_whole(points: &[Point], drops: &Drops<'_>, number: u64, loaded: &Loaded<'_>) -> bool
    requires rising { IsNonDecreasingBy (λ x. x.key) points.now }
    requires points { ArePoints (loaded_view loaded.now) points.now }
    ensures { (objects : List LoadedObject) → slice_get objects number ≡ Some (loaded_view loaded.now)
        → IsTrue result ↔ All (IsWholeUnlessOut objects drops.now)
        (relocations_from number (loaded_view loaded.now)) }
{
    for relocation in loaded.relocations() {
        if !is_whole_unless_out(points, drops, number, &relocation) {
            return false;
        }
    }
    true
}

/// Where the symbols of an object are defined, in order.
fn points_in_order(alloc: Global, loaded: &Loaded<'_>) -> Result<Vec<Point>, AllocError>
    ensures rising { IfOk result (λ v. IsNonDecreasingBy (λ x. x.key) v.items) }
    ensures points { IfOk result (λ v. ArePoints (loaded_view loaded.now) v.items) }
{
    let points = sorted(found_points(alloc, loaded)?)?;
    Ok(points)
}

/// Whether the instructions of object `number` are whole, but for those of sections that are left out.
fn are_own_whole(
    alloc: Global,
    drops: &Drops<'_>,
    number: u64,
    loaded: &Loaded<'_>,
) -> Result<bool, AllocError>
    ensures { (objects : List LoadedObject) → slice_get objects number ≡ Some (loaded_view loaded.now)
        → IfOk result (λ b. IsTrue b ↔ All (IsWholeUnlessOut objects drops.now)
        (relocations_from number (loaded_view loaded.now))) }
{
    let points = points_in_order(alloc, loaded)?;
    Ok(have_whole(&points, drops, number, loaded))
}

fn are_all_whole(
    alloc: Global,
    objects: &[Loaded<'_>],
    drops: &Drops<'_>,
) -> Result<bool, AllocError>
    ensures { IfOk result (λ b. IsTrue b
        ↔ All (IsWholeUnlessOut (loaded_views objects.now) drops.now)
        (relocations (loaded_views objects.now))) }
{
    for k in 0..objects.len() {
        if !are_own_whole(alloc, drops, k as u64, &objects[k])? {
            return Ok(false);
        }
    }
    Ok(true)
}

/// Whether no symbol is defined inside an instruction of a link's objects that linkers may rewrite, but for those of sections that
/// are left out. It takes the counts of an object's symbols and relocations times the logarithm of the symbols'.
///
/// # Errors
///
/// Only where memory is refused.
pub fn are_instructions_whole(
    alloc: Global,
    objects: &[Loaded<'_>],
    drops: &Drops<'_>,
) -> Result<bool, AllocError>
    ensures { (l : ForeignLink) → objects_of l ≡ loaded_views objects.now
        → l.certificate.drops ≡ drops.now
        → IfOk result (λ b. IsTrue b
        ↔ All (IsWholeInstruction (objects_of l)) (relocations_of l)) }
{
    let whole = are_all_whole(alloc, objects, drops)?;
    Ok(whole)
}
