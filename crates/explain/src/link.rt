//! Why a link is refused, phase by phase.
ghost use Rattle.std.specs.Prelude.{◌≡◌, ◌<◌, ◌≤◌, ◌↔◌, All, IfOk, IsTrue, OnOk, length};
ghost use Rattle.elf_model.specs.Own.Causes.{Cause};
ghost use Rattle.elf_model.specs.Inputs.Command.{IsBase};
ghost use Rattle.elf_model.specs.Inputs.Files.{files_of, words_of};
ghost use Rattle.elf_model.specs.Link.Pieces.{AreLawfulKinds};
ghost use Rattle.resolve.specs.declared.faults.ResolveFault.TheVariants as resolve_fault;
ghost use Rattle.search.specs.declared.faults.SearchFault.TheVariants as search_fault;
ghost use Rattle.flaws.specs.Flaws.{AreResolvable};
ghost use Rattle.wrong_references.specs.References.{AreReferable};
ghost use Rattle.explain.specs.Archives.{IsArchiveNoteOf};
ghost use Rattle.explain.specs.Flawed.{IsOfReferences, IsOfResolution, TellsReferences, TellsReferencesOf, TellsResolution, TellsResolutionOf, TellsUnreferable, TellsUnresolvable};
ghost use Rattle.explain.specs.Hints.{IsHintOf};
ghost use Rattle.explain.specs.Notes.{IsNote, IsNoteOf};
ghost use Rattle.explain.specs.Places.{AreSo, Ground, Holds, OfLoaded, Says};

use crate::archives::archives_of;
use crate::files::add_unloaded;
use crate::flaw_places::tell_resolution;
use crate::hints::{Hint, hints_of};
use crate::notes::{Note, notes_of};
use crate::place::{Added, Found, Place};
use crate::reference_places::tell_references;
use crate::wanted::{Wanted, add_wanted};
use archive_notes::ArchiveNote;
use command::{Plan, read_words, refused_word};
use elf_model::{CmdFault, InputFile, LinkError, NameSeed};
use got_tls::slots;
use layout::{LayoutFault, kinds, place};
use relocate::pointer_of;
use resolve::{ResolveFault, Resolved, resolve_in};
use search::{Loaded, SearchFault, load_seeded};
use std::alloc::{AllocError, Global};
use symbols::IndexedTable;
use wrong_references::reference_flaws;

/// What is told beside places.
#[derive(Drop)]
struct Beside<'a> {
    hints: Vec<Hint<'a>>,
    notes: Vec<Note<'a>>,
    archives: Vec<ArchiveNote<'a>>,
}

impl Beside<'_> {
    /// Nothing.
    fn nothing(alloc: Global) -> Self
        ensures hints { length result.hints.items ≡ 0 }
        ensures notes { length result.notes.items ≡ 0 }
        ensures archives { length result.archives.items ≡ 0 }
    {
        Beside {
            hints: Vec::new(alloc),
            notes: Vec::new(alloc),
            archives: Vec::new(alloc),
        }
    }
}

/// Adds why what is loaded, whose references are right, isn't linked: by its layout, or its values.
fn add_unplaced<'a>(found: &mut Found<'a>, loaded: &Loaded<'a>, resolved: &Resolved<'a>) -> Added
    requires resolved { resolved.now ≡ loaded.now.objects }
    requires base { IsBase loaded.now.plan.base }
    requires kinds { AreLawfulKinds loaded.now.objects }
    requires before { AreSo (OfLoaded loaded.now) found.old.places.items }
    ensures { OnOk result (AreSo (OfLoaded loaded.now) found.new.places.items) }
{
    let alloc = found.alloc;
    let slots = slots(alloc, loaded, resolved)?;
    match place(alloc, loaded, resolved, slots.got(), loaded.plan().base) {
        Ok(placement) => {
            let pointer = pointer_of(&placement);
            let wanted = Wanted::UnfitEntries(resolved, &placement, &slots, pointer);
            add_wanted(found, wanted, loaded)
        }
        Err(LayoutFault::Memory) => Err(AllocError),
        Err(_) => add_wanted(found, Wanted::LargeSections, loaded),
    }
}

/// Adds why what is loaded, whose names are resolved, isn't linked. Answers what is told beside.
fn add_unlinked<'a>(
    found: &mut Found<'a>,
    loaded: &Loaded<'a>,
    resolved: &Resolved<'a>,
) -> Result<Vec<Note<'a>>, AllocError>
    requires resolved { resolved.now ≡ loaded.now.objects }
    requires base { IsBase loaded.now.plan.base }
    requires kinds { AreLawfulKinds loaded.now.objects }
    requires before { AreSo (OfLoaded loaded.now) found.old.places.items }
    ensures places { OnOk result (AreSo (OfLoaded loaded.now) found.new.places.items) }
    ensures notes { IfOk result (λ ns. All (IsNote loaded.now) ns.items) }
    ensures references { OnOk result
        ((AreReferable loaded.now.objects loaded.now.plan.entry → ⊥)
        → TellsReferencesOf loaded.now.objects loaded.now.plan.entry found.old.most
        found.new.places.items found.new.more) }
{
    let alloc = found.alloc;
    let flaws = reference_flaws(alloc, loaded, resolved)?;
    if flaws.is_empty() {
        add_unplaced(found, loaded, resolved)?;
        return Ok(Vec::new(alloc));
    }
    tell_references(found, loaded, &flaws)?;
    let notes = notes_of(alloc, loaded, resolved, &found.places)?;
    Ok(notes)
}

/// Whether names aren't resolved for want of memory.
fn lacks_memory(fault: &ResolveFault) -> bool
    ensures { IsTrue result ↔ (fault.now ≡ resolve_fault.Memory) }
{
    matches!(fault, ResolveFault::Memory)
}

/// Adds why what is loaded isn't linked. Answers what is told beside.
fn add_loaded<'a>(found: &mut Found<'a>, loaded: &Loaded<'a>) -> Result<Vec<Note<'a>>, AllocError>
    requires base { IsBase loaded.now.plan.base }
    requires before { AreSo (OfLoaded loaded.now) found.old.places.items }
    ensures places { OnOk result (AreSo (OfLoaded loaded.now) found.new.places.items) }
    ensures notes { IfOk result (λ ns. All (IsNote loaded.now) ns.items) }
    ensures resolution { OnOk result ((AreResolvable loaded.now.objects → ⊥)
        → TellsResolutionOf loaded.now.objects found.old.most
        found.new.places.items found.new.more) }
    ensures references { OnOk result (AreResolvable loaded.now.objects
        → (AreReferable loaded.now.objects loaded.now.plan.entry → ⊥)
        → TellsReferencesOf loaded.now.objects loaded.now.plan.entry found.old.most
        found.new.places.items found.new.more) }
{
    let alloc = found.alloc;
    let Ok(()) = kinds(loaded) else {
        tell_resolution(found, loaded)?;
        return Ok(Vec::new(alloc));
    };
    let table = IndexedTable::with_hasher(alloc, loaded.name_seed());
    match resolve_in(alloc, loaded, table) {
        Ok(resolved) => return add_unlinked(found, loaded, &resolved),
        Err(fault) => {
            if lacks_memory(&fault) {
                return Err(AllocError);
            }
            tell_resolution(found, loaded)?;
        }
    }
    Ok(Vec::new(alloc))
}

/// Whether a fault of loading is want of memory.
fn is_memory(fault: SearchFault) -> bool
    ensures { IsTrue result ↔ (fault ≡ search_fault.Memory) }
{
    matches!(&fault, SearchFault::Memory)
}

/// Adds why the link of files that words name is refused, and answers what is told beside.
fn add_reasons<'a>(
    found: &mut Found<'a>,
    files: &'a [InputFile],
    words: &'a [String],
    seed: NameSeed,
) -> Result<Beside<'a>, AllocError>
    requires { (g : Ground) → AreSo g found.old.places.items }
    ensures resolution { OnOk result (TellsUnresolvable (files_of files.entry.now)
        (words_of words.entry.now) found.old.most found.new.places.items found.new.more) }
    ensures references { OnOk result (TellsUnreferable (files_of files.entry.now)
        (words_of words.entry.now) found.old.most found.new.places.items found.new.more) }
    ensures places { OnOk result (All
        (Says (files_of files.now) (words_of words.now)) found.new.places.items) }
    ensures hints { IfOk result (λ b. All
        (IsHintOf (files_of files.entry.now) (words_of words.entry.now)) b.hints.items) }
    ensures notes { IfOk result (λ b. All
        (IsNoteOf (files_of files.entry.now) (words_of words.entry.now)) b.notes.items) }
    ensures archives { IfOk result (λ b. All
        (IsArchiveNoteOf (files_of files.entry.now) (words_of words.entry.now)) b.archives.items) }
{
    let alloc = found.alloc;
    let plan = match read_words(alloc, words) {
        Ok(plan) => plan,
        Err(CmdFault::Memory) => return Err(AllocError),
        Err(fault) => {
            let number = refused_word(alloc, words)?;
            found.add(Some(Place::Word(number, fault)))?;
            return Ok(Beside::nothing(alloc));
        }
    };
    match load_seeded(alloc, &plan, files, seed) {
        Ok(loaded) => {
            let notes = add_loaded(found, &loaded)?;
            let hints = hints_of(alloc, &loaded, &found.places)?;
            let archives = archives_of(alloc, files, &loaded, &found.places)?;
            Ok(Beside {
                hints,
                notes,
                archives,
            })
        }
        Err(fault) => {
            if is_memory(fault) {
                return Err(AllocError);
            }
            add_unloaded(found, files, &plan, fault)?;
            Ok(Beside::nothing(alloc))
        }
    }
}

/// Why the link of files that words name is refused with an error: the first places at which something is wrong, at most so
/// many, and how many more there are. They are of the phase of the error, each with the error's cause or that of an error of the
/// same phase; where none is found, the error as a whole. Hints are definitions whose names are like those that are not defined,
/// notes what is told beside relocations, archives what an archive has to do with a name that nothing defines. Names are found by hash, from a seed: who picks the names can make them collide only
/// where the seed is known.
///
/// # Errors
///
/// Only where memory is refused, now or as the error says.
pub fn explain<'a>(
    alloc: Global,
    files: &'a [InputFile],
    words: &'a [String],
    error: &'a LinkError,
    most: usize,
    seed: NameSeed,
) -> Result<Found<'a>, AllocError>
    requires { Cause (files_of files.now) (words_of words.now) error.now }
    ensures holds { IfOk result (λ f.
        All (Holds (files_of files.entry.now) (words_of words.entry.now)) f.places.items) }
    ensures hints { IfOk result (λ f. All
        (IsHintOf (files_of files.entry.now) (words_of words.entry.now)) f.hints.items) }
    ensures notes { IfOk result (λ f. All
        (IsNoteOf (files_of files.entry.now) (words_of words.entry.now)) f.notes.items) }
    ensures archives { IfOk result (λ f. All
        (IsArchiveNoteOf (files_of files.entry.now) (words_of words.entry.now)) f.archives.items) }
    ensures resolution { IsOfResolution error.entry.now → IfOk result
        (TellsResolution (files_of files.entry.now) (words_of words.entry.now) most) }
    ensures references { IsOfReferences error.entry.now → IfOk result
        (TellsReferences (files_of files.entry.now) (words_of words.entry.now) most) }
    ensures few { IfOk result (λ f. length f.places.items ≤ most) }
    ensures some { IfOk result (λ f. 0 < most → 0 < length f.places.items) }
{
    match error {
        LinkError::Memory => Err(AllocError),
        _ => {
            let mut found = Found::new(alloc, most);
            let beside = add_reasons(&mut found, files, words, seed)?;
            let mut told = found.told(error, most)?;
            told.hints = beside.hints;
            told.notes = beside.notes;
            told.archives = beside.archives;
            Ok(told)
        }
    }
}
