//! The whole check, from the top: the clauses in their order, each judged where all before it hold.
ghost use Rattle.std.specs.Prelude.{◌≡◌, ◌↔◌, IfNone, IfOk, IfSome, Ok, OnOk};
ghost use Rattle.elf_model.specs.Inputs.Command.{Plan, command_of};
ghost use Rattle.elf_model.specs.Inputs.Files.{files_of, words_of};
ghost use Rattle.elf_model.specs.Image.RightLink.{Holds, HoldsBefore, IsRightLink, Least};
ghost use Rattle.elf_model.specs.declared.verdict.Clause.{Clause};
ghost use Rattle.elf_model.specs.declared.verdict.Clause.TheVariants as clause;
ghost use Rattle.opening.specs.Held.{AreSearched, held_files};
ghost use Rattle.checker.specs.Judged.{Judges};

use crate::object_fields::are_held;
use crate::observer::{Observer, Unobserved};
use crate::{c02_loaded, c07_got, c08_thread_block, c09_relocations, c11_fill};
use ar_index::PartFile;
use check_link::{Link, Outputs, Places, SlotTable, base_of, read_map, read_plan};
use check_load::{NamedObjects, open_named};
use check_places::{c03_sections, c04_image, c05_placed, c06_rights, c12_entry};
use check_relocs::Bindings;
use check_stages::{BoundLink, LoadedLink, PlacedLink};
use check_tables::{c13_symbols, c14_tables};
use elf_model::{Clause, InputFile, NameSeed, Verdict};
use std::alloc::{AllocError, Global};

/// Judges the clauses of a link from the second on, with nobody who sees.
fn judge_alone(
    alloc: Global,
    link: &Link<'_>,
    seed: Option<NameSeed>,
) -> Result<Verdict, AllocError>
    ensures { IfOk result (λ v. Judges v link.now) }
{
    judge(alloc, link, seed, &mut Unobserved)
}

/// Decides as `check_parts`, where names are hashed from a seed, or found by their order without one.
fn check_by(
    alloc: Global,
    parts: &[PartFile],
    files: &[InputFile],
    words: &[String],
    image: &[u8],
    map: &[u8],
    seed: Option<NameSeed>,
) -> Result<Verdict, AllocError>
    requires { (plan : Plan) → command_of (words_of words.now) ≡ Ok plan
        → AreSearched parts.now plan }
    ensures yes { IfOk result (λ v. (v ≡ Verdict.Yes)
        ↔ IsRightLink (held_files parts.now files.now) (words_of words.now) image.now map.now) }
    ensures no { IfOk result (λ v. (c : Clause) →
        ((v ≡ Verdict.No c)
        ↔ Least c (held_files parts.now files.now) (words_of words.now) image.now map.now)) }
{
    let Some(plan) = read_plan(alloc, words)? else {
        return Ok(Verdict::No(Clause::C1));
    };
    let Some(map) = read_map(alloc, map)? else {
        return Ok(Verdict::No(Clause::C1));
    };
    let link = Link {
        plan,
        parts,
        files,
        image,
        map,
    };
    judge_alone(alloc, &link, seed)
}

/// Decides whether the image and the map are a right link of the files by the command's words: Yes, or the
/// least clause that fails (docs/DEFINITIONS.md). Names are found by their order, so that no choice of them makes it slow.
///
/// # Errors
///
/// Only where memory is refused.
pub fn check(
    alloc: Global,
    files: &[InputFile],
    words: &[String],
    image: &[u8],
    map: &[u8],
) -> Result<Verdict, AllocError>
    ensures yes { IfOk result (λ v. (v ≡ Verdict.Yes)
        ↔ IsRightLink (files_of files.now) (words_of words.now) image.now map.now) }
    ensures no { IfOk result (λ v. (c : Clause) →
        ((v ≡ Verdict.No c)
        ↔ Least c (files_of files.now) (words_of words.now) image.now map.now)) }
{
    check_by(alloc, &[], files, words, image, map, None)
}

/// Decides as `check_in`, where of archives that are searched the data of some members may not have been read. Zeros stand for
/// these. So a link of which this says yes takes none of these members, and is right whatever their data are; one of which it says
/// no may be right by their data.
///
/// # Errors
///
/// Only where memory is refused.
pub fn check_parts(
    alloc: Global,
    parts: &[PartFile],
    files: &[InputFile],
    words: &[String],
    image: &[u8],
    map: &[u8],
    seed: NameSeed,
) -> Result<Verdict, AllocError>
    requires { (plan : Plan) → command_of (words_of words.now) ≡ Ok plan
        → AreSearched parts.now plan }
    ensures yes { IfOk result (λ v. (v ≡ Verdict.Yes)
        ↔ IsRightLink (held_files parts.now files.now) (words_of words.now) image.now map.now) }
    ensures no { IfOk result (λ v. (c : Clause) →
        ((v ≡ Verdict.No c)
        ↔ Least c (held_files parts.now files.now) (words_of words.now) image.now map.now)) }
{
    check_by(alloc, parts, files, words, image, map, Some(seed))
}

/// Decides as `check`, and is quicker where there are many names: they are hashed from a seed, which whoever picks them
/// mustn't know.
///
/// # Errors
///
/// Only where memory is refused.
pub fn check_in(
    alloc: Global,
    files: &[InputFile],
    words: &[String],
    image: &[u8],
    map: &[u8],
    seed: NameSeed,
) -> Result<Verdict, AllocError>
    ensures yes { IfOk result (λ v. (v ≡ Verdict.Yes)
        ↔ IsRightLink (files_of files.now) (words_of words.now) image.now map.now) }
    ensures no { IfOk result (λ v. (c : Clause) →
        ((v ≡ Verdict.No c)
        ↔ Least c (files_of files.now) (words_of words.now) image.now map.now)) }
{
    check_parts(alloc, &[], files, words, image, map, seed)
}

/// The answer for a clause that fails, where all before it hold.
fn no(clause: Clause, link: &Link<'_>) -> Verdict
    requires before { HoldsBefore clause link.now }
    requires fails { ¬ Holds clause link.now }
    ensures { Judges result link.now }
{
    Verdict::No(clause)
}

/// Judges the clauses of a link in their order, from the second on: yes, or the first that fails, which an observer sees.
///
/// # Errors
///
/// Only where memory is refused.
pub fn judge<'a, O: Observer<'a>>(
    alloc: Global,
    link: &'a Link<'a>,
    seed: Option<NameSeed>,
    observer: &mut O,
) -> Result<Verdict, AllocError>
    requires { O.Saw link.now observer.old }
    ensures verdict { IfOk result (λ v. Judges v link.entry.now) }
    ensures saw { OnOk result (O.Saw link.entry.now observer.new) }
{
    let Some(named) = open_named(alloc, &link.plan, link.parts, link.files, seed)? else {
        return Ok(no(Clause::C2, link));
    };
    let NamedObjects { objects, names } = named;
    if !c02_loaded::holds(link, &objects) {
        observer.see_objects(link, &objects)?;
        return Ok(no(Clause::C2, link));
    }
    let loaded = LoadedLink::new(alloc, link, &objects, names)?;
    judge_loaded(alloc, &loaded, observer)
}

/// Judges the clauses from the third on.
fn judge_loaded<'a, O: Observer<'a>>(
    alloc: Global,
    loaded: &LoadedLink<'_, 'a>,
    observer: &mut O,
) -> Result<Verdict, AllocError>
    requires clauses { HoldsBefore clause.C3 loaded.now }
    requires before { O.Saw loaded.now observer.old }
    ensures verdict { IfOk result (λ v. Judges v loaded.now) }
    ensures saw { OnOk result (O.Saw loaded.now observer.new) }
{
    let link = loaded.link();
    if !c03_sections::holds(alloc, loaded)? {
        observer.see_loaded(loaded)?;
        return Ok(no(Clause::C3, link));
    }
    let Some(memory) = c04_image::load(alloc, link)? else {
        return Ok(no(Clause::C4, link));
    };
    let placed = PlacedLink::new(alloc, loaded, memory)?;
    judge_placed(alloc, &placed, observer)
}

/// The answer for a clause that fails of a link whose image is mapped.
fn no_placed<'a, O: Observer<'a>>(
    clause: Clause,
    placed: &PlacedLink<'_, 'a>,
    observer: &mut O,
) -> Result<Verdict, AllocError>
    requires clauses { HoldsBefore clause placed.now }
    requires fails { ¬ Holds clause placed.now }
    requires before { O.Saw placed.now observer.old }
    ensures verdict { IfOk result (λ v. Judges v placed.now) }
    ensures saw { OnOk result (O.Saw placed.now observer.new) }
{
    observer.see_placed(clause, placed)?;
    Ok(no(clause, placed.link()))
}

/// Judges the clauses from the fifth on.
fn judge_placed<'a, O: Observer<'a>>(
    alloc: Global,
    placed: &PlacedLink<'_, 'a>,
    observer: &mut O,
) -> Result<Verdict, AllocError>
    requires clauses { HoldsBefore clause.C5 placed.now }
    requires before { O.Saw placed.now observer.old }
    ensures verdict { IfOk result (λ v. Judges v placed.now) }
    ensures saw { OnOk result (O.Saw placed.now observer.new) }
{
    if !c05_placed::holds(alloc, placed)? {
        return no_placed(Clause::C5, placed, observer);
    }
    if !c06_rights::holds(placed) {
        return no_placed(Clause::C6, placed, observer);
    }
    judge_names(alloc, placed, observer)
}

/// Judges the clauses from the seventh on, for which names get their meaning.
fn judge_names<'a, O: Observer<'a>>(
    alloc: Global,
    placed: &PlacedLink<'_, 'a>,
    observer: &mut O,
) -> Result<Verdict, AllocError>
    requires clauses { HoldsBefore clause.C7 placed.now }
    requires before { O.Saw placed.now observer.old }
    ensures verdict { IfOk result (λ v. Judges v placed.now) }
    ensures saw { OnOk result (O.Saw placed.now observer.new) }
{
    let link = placed.link();
    let got = link.map.got;
    let outputs = Outputs::new(alloc, placed.pieces())?;
    let names = placed.names();
    let slots = SlotTable::new(alloc, &link.map.slots, names)?;
    let places = Places::new(
        alloc,
        base_of(&link.plan),
        placed.placed(),
        got,
        slots.lines(),
    )?;
    let bindings = Bindings::new(names, &outputs, &places, &slots);
    judge_bound(alloc, &BoundLink::new(placed, bindings), observer)
}

/// The answer for a clause that fails of a link whose names have their meaning.
fn no_bound<'a, O: Observer<'a>>(
    clause: Clause,
    bound: &BoundLink<'_, 'a>,
    observer: &mut O,
) -> Result<Verdict, AllocError>
    requires clauses { HoldsBefore clause bound.now }
    requires fails { ¬ Holds clause bound.now }
    requires before { O.Saw bound.now observer.old }
    ensures verdict { IfOk result (λ v. Judges v bound.now) }
    ensures saw { OnOk result (O.Saw bound.now observer.new) }
{
    observer.see_bound(clause, bound)?;
    Ok(no(clause, bound.link()))
}

/// Judges the clauses from the seventh on.
fn judge_bound<'a, O: Observer<'a>>(
    alloc: Global,
    bound: &BoundLink<'_, 'a>,
    observer: &mut O,
) -> Result<Verdict, AllocError>
    requires clauses { HoldsBefore clause.C7 bound.now }
    requires before { O.Saw bound.now observer.old }
    ensures verdict { IfOk result (λ v. Judges v bound.now) }
    ensures saw { OnOk result (O.Saw bound.now observer.new) }
{
    if !c07_got::holds(alloc, bound)? {
        return no_bound(Clause::C7, bound, observer);
    }
    if !c08_thread_block::holds(bound) {
        return no_bound(Clause::C8, bound, observer);
    }
    judge_relocations(alloc, bound, observer)
}

/// The answer where the tenth clause fails and all before it hold.
fn no_bytes<'a, O: Observer<'a>>(
    alloc: Global,
    bound: &BoundLink<'_, 'a>,
    observer: &mut O,
) -> Result<Verdict, AllocError>
    requires clauses { HoldsBefore clause.C10 bound.now }
    requires ninth { Holds clause.C9 bound.now }
    requires fails { ¬ Holds clause.C10 bound.now }
    requires before { O.Saw bound.now observer.old }
    ensures verdict { IfOk result (λ v. Judges v bound.now) }
    ensures saw { OnOk result (O.Saw bound.now observer.new) }
{
    let Some(rows) = c09_relocations::rows(alloc, bound)? else {
        unreachable!()
    };
    observer.see_fields(bound, &rows)?;
    Ok(no(Clause::C10, bound.link()))
}

/// Judges the ninth and the tenth clause, and then gives the fields of the relocations back: a verdict where one of the
/// two fails.
fn judge_fields<'a, O: Observer<'a>>(
    alloc: Global,
    bound: &BoundLink<'_, 'a>,
    observer: &mut O,
) -> Result<Option<Verdict>, AllocError>
    requires clauses { HoldsBefore clause.C9 bound.now }
    requires before { O.Saw bound.now observer.old }
    ensures fails { IfOk result (λ o. IfSome o (λ v. Judges v bound.now)) }
    ensures holds { IfOk result (λ o. IfNone o (HoldsBefore clause.C11 bound.now)) }
    ensures saw { OnOk result (O.Saw bound.now observer.new) }
{
    match are_held(alloc, bound)? {
        Some(true) => Ok(None),
        Some(false) => Ok(Some(no_bytes(alloc, bound, observer)?)),
        None => Ok(Some(no_bound(Clause::C9, bound, observer)?)),
    }
}

/// Judges the clauses from the ninth on.
fn judge_relocations<'a, O: Observer<'a>>(
    alloc: Global,
    bound: &BoundLink<'_, 'a>,
    observer: &mut O,
) -> Result<Verdict, AllocError>
    requires clauses { HoldsBefore clause.C9 bound.now }
    requires before { O.Saw bound.now observer.old }
    ensures verdict { IfOk result (λ v. Judges v bound.now) }
    ensures saw { OnOk result (O.Saw bound.now observer.new) }
{
    match judge_fields(alloc, bound, observer)? {
        Some(verdict) => Ok(verdict),
        None => judge_fill(alloc, bound, observer),
    }
}

/// Judges the clauses from the eleventh on.
fn judge_fill<'a, O: Observer<'a>>(
    alloc: Global,
    bound: &BoundLink<'_, 'a>,
    observer: &mut O,
) -> Result<Verdict, AllocError>
    requires clauses { HoldsBefore clause.C11 bound.now }
    requires before { O.Saw bound.now observer.old }
    ensures verdict { IfOk result (λ v. Judges v bound.now) }
    ensures saw { OnOk result (O.Saw bound.now observer.new) }
{
    if !c11_fill::holds(alloc, bound)? {
        return no_bound(Clause::C11, bound, observer);
    }
    judge_symbols(alloc, bound, observer)
}

/// Judges the clauses from the twelfth on.
fn judge_symbols<'a, O: Observer<'a>>(
    alloc: Global,
    bound: &BoundLink<'_, 'a>,
    observer: &mut O,
) -> Result<Verdict, AllocError>
    requires clauses { HoldsBefore clause.C12 bound.now }
    requires before { O.Saw bound.now observer.old }
    ensures verdict { IfOk result (λ v. Judges v bound.now) }
    ensures saw { OnOk result (O.Saw bound.now observer.new) }
{
    if !c12_entry::holds(bound) {
        return no_bound(Clause::C12, bound, observer);
    }
    let Some(choices) = c13_symbols::choices(alloc, bound)? else {
        return no_bound(Clause::C13, bound, observer);
    };
    if !c14_tables::holds(bound, &choices) {
        return no_bound(Clause::C14, bound, observer);
    }
    Ok(Verdict::Yes)
}
