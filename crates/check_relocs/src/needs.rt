//! What the kept relocations ask of the global offset table: whether there is one, and which slots it has.
ghost use Rattle.std.specs.Prelude.{◌≡◌, ◌∷◌, ◌||◌, ℕ, [], false, not, true, IfOk, None, OnOk, Some, length, slice_set};
ghost use Rattle.std.specs.List.{list_any};
ghost use Rattle.std.specs.Option.{is_none, option_map_or};
ghost use Rattle.elf_model.specs.Inputs.ObjectFile.{rela_type};
ghost use Rattle.elf_model.specs.Link.Relocation as relocation;
ghost use Rattle.elf_model.specs.Link.Slots as slots;
ghost use Rattle.elf_model.specs.Link.Slots.{asks_for_got, is_slot_of, names_got, same_request};
ghost use Rattle.check_relocs.specs.Known.{known_at};
ghost use Rattle.check_relocs.specs.KnownSlots.{AreAsked, mark_at, request_here, rows_here};
ghost use Rattle.check_relocs.specs.Needs.{AreGotNames, AreNeeds, AreNeedsKnown, HaveGained, asks_for_slot, is_unserved};
ghost use Rattle.check_relocs.specs.Referrers.{objects_here, relocation_here, relocations_here, symbol_here};
ghost use Rattle.check_link.specs.Chosen.{marked_by};
ghost use Rattle.check_link.specs.Slots.{line_of};
ghost use Rattle.check_link.specs.Views.{symbol_view};

use crate::answers::{keep_answer, known_answer, no_answers};
use crate::bindings::Bindings;
use crate::entry_requests::{kind_asked, speaks_of_got};
use crate::kinds::kind_of;
use crate::referrer::Referrer;
use crate::slots::position_at;
use crate::targets::{is_local_at, symbol_at};
use check_link::{SymbolOf, is_thread};
use check_load::{KeptRelocation, Loaded, filled};
use elf_model::{Rela, STB_LOCAL};
use std::alloc::{AllocError, Global};

/// Whether relocations ask for a GOT, whether one asks for a slot that isn't there, and marks of the lines of slots: whether one
/// asks for the slot. Of several lines for the same slot only the first gets its mark.
#[derive(Drop)]
pub struct Needs {
    pub got: bool,
    pub unserved: bool,
    pub asked: Vec<bool>,
}

/// What is known of the symbols of an object: whether they have the GOT's name, and of which kind their slot is that was
/// asked for last: whether it is for the offset from the thread pointer.
#[derive(Drop)]
pub struct KnownNeeds {
    pub named: Vec<Option<bool>>,
    pub asked: Vec<Option<bool>>,
}

/// Where it will be kept which symbols of an object have the GOT's name; no room where a GOT is asked for already.
fn no_names(alloc: Global, loaded: &Loaded<'_>, got: bool) -> Result<Vec<Option<bool>>, AllocError>
    ensures { IfOk result (λ v. (j : ℕ) → known_at v.items j ≡ None) }
{
    if !got {
        return no_answers(alloc, loaded);
    }
    Ok(Vec::new(alloc))
}

impl KnownNeeds {
    /// Nothing is known of the symbols of an object, where it is told whether a GOT is asked for already.
    fn new(alloc: Global, loaded: &Loaded<'_>, got: bool) -> Result<KnownNeeds, AllocError>
        ensures named { IfOk result (λ known. (j : ℕ) → known_at known.named.items j ≡ None) }
        ensures asked { IfOk result (λ known. (j : ℕ) → known_at known.asked.items j ≡ None) }
    {
        Ok(KnownNeeds {
            named: no_names(alloc, loaded, got)?,
            asked: no_answers(alloc, loaded)?,
        })
    }
}

/// Whether a symbol isn't LOCAL and has the name of the GOT, which no object defines.
fn names_got(bindings: &Bindings<'_, '_, '_>, symbol: &SymbolOf<'_>) -> bool
    ensures { result ≡ names_got bindings.now.objects (symbol_view symbol.now) }
{
    if symbol.entry.binding() == STB_LOCAL {
        return false;
    }
    if symbol.name != b"_GLOBAL_OFFSET_TABLE_".as_slice() {
        return false;
    }
    bindings.chosen(symbol.name).is_none()
}

/// Whether symbol `j` of an object is such a one. Of a LOCAL one the name isn't read, nor of one for whose name loading noted
/// that an object defines it.
fn names_got_of(here: &Referrer<'_, '_, '_, '_>, j: usize) -> bool
    ensures { result ≡ names_got (objects_here here.now) (symbol_here here.now j) }
{
    if is_local_at(here.loaded, j) {
        return false;
    }
    if here.bindings.has_noted_choice(here.number, j as u64) {
        return false;
    }
    names_got(here.bindings, &symbol_at(here.loaded, here.number, j))
}

/// Whether symbol `j` is such a one. It is looked up where that isn't known.
fn names_got_at(here: &Referrer<'_, '_, '_, '_>, named: &mut Vec<Option<bool>>, j: usize) -> bool
    requires { AreGotNames here.now named.old.items }
    ensures kept { AreGotNames here.now named.new.items }
    ensures named { result ≡ names_got (objects_here here.now) (symbol_here here.now j) }
{
    if let Some(named) = known_answer(named, j) {
        return named;
    }
    let answer = names_got_of(here, j);
    keep_answer(named, j, answer);
    answer
}

/// Whether an entry asks for a GOT by its kind.
fn is_of_got(entry: &Rela) -> bool
    ensures { result ≡ option_map_or (λ k. slots.speaks_of_got k.formula)
        (relocation.kind_of (rela_type entry.now)) false }
{
    match kind_of(entry.kind()) {
        Some(kind) => speaks_of_got(kind.formula),
        None => false,
    }
}

/// Whether a relocation asks for a GOT, by its kind or by the name.
fn asks_for_got(
    here: &Referrer<'_, '_, '_, '_>,
    named: &mut Vec<Option<bool>>,
    relocation: &KeptRelocation,
) -> bool
    requires { AreGotNames here.now named.old.items }
    ensures kept { AreGotNames here.now named.new.items }
    ensures asks { result ≡ asks_for_got (objects_here here.now)
        (relocation_here here.now relocation.now) }
{
    if is_of_got(&relocation.entry) {
        return true;
    }
    names_got_at(here, named, relocation.entry.symbol() as usize)
}

/// Whether a GOT is asked for, with one relocation more.
fn got_with(
    got: bool,
    here: &Referrer<'_, '_, '_, '_>,
    named: &mut Vec<Option<bool>>,
    relocation: &KeptRelocation,
) -> bool
    requires { AreGotNames here.now named.old.items }
    ensures kept { AreGotNames here.now named.new.items }
    ensures got { result ≡ (got || asks_for_got (objects_here here.now)
        (relocation_here here.now relocation.now)) }
{
    if got {
        return true;
    }
    asks_for_got(here, named, relocation)
}

/// Whether it is known of symbol `j` that its slot of a kind is asked for.
fn is_known_asked(asked: &[Option<bool>], j: usize, thread: bool) -> bool
    ensures { result ≡ true → known_at asked.now j ≡ Some thread }
{
    match known_answer(asked, j) {
        Some(kind) => kind == thread,
        None => false,
    }
}

/// Sets the mark at a position, where there is one.
fn set_mark(marks: &mut [bool], position: usize)
    ensures { marks.new ≡ slice_set marks.old position true }
{
    if position < marks.len() {
        marks[position] = true;
    }
}

/// Adds a request for the slot whose line has a position; None for one that isn't there.
fn add_position(needs: &mut Needs, position: Option<usize>)
    ensures got { needs.new.got ≡ needs.old.got }
    ensures unserved { needs.new.unserved ≡ (needs.old.unserved || is_none position) }
    ensures asked { needs.new.asked.items ≡ marked_by needs.old.asked.items position }
{
    match position {
        Some(position) => set_mark(&mut needs.asked, position),
        None => needs.unserved = true,
    }
}

/// Adds the request for the slot of a kind for symbol `j`, unless it is known to be noted.
fn add_request(
    needs: &mut Needs,
    asked: &mut Vec<Option<bool>>,
    here: &Referrer<'_, '_, '_, '_>,
    j: usize,
    thread: bool,
)
    requires known { AreAsked needs.old.unserved needs.old.asked.items here.now asked.old.items }
    requires size { length needs.old.asked.items ≡ length (rows_here here.now) }
    ensures kept { AreAsked needs.new.unserved needs.new.asked.items here.now asked.new.items }
    ensures got { needs.new.got ≡ needs.old.got }
    ensures unserved { needs.new.unserved
        ≡ (needs.old.unserved
        || not (list_any (is_slot_of (request_here here.now j thread)) (rows_here here.now))) }
    ensures asked { (q : slots.Request) (i : ℕ) → line_of (rows_here here.now) q ≡ Some i
        → mark_at needs.new.asked.items i
        ≡ (mark_at needs.old.asked.items i || same_request q (request_here here.now j thread)) }
    ensures size { length needs.new.asked.items ≡ length needs.old.asked.items }
{
    if is_known_asked(asked, j, thread) {
        return;
    }
    add_position(needs, position_at(here, j, thread));
    keep_answer(asked, j, thread);
}

/// Adds the request of a relocation, if it asks for a slot.
fn add_if_asked(
    needs: &mut Needs,
    asked: &mut Vec<Option<bool>>,
    here: &Referrer<'_, '_, '_, '_>,
    relocation: &KeptRelocation,
)
    requires known { AreAsked needs.old.unserved needs.old.asked.items here.now asked.old.items }
    requires size { length needs.old.asked.items ≡ length (rows_here here.now) }
    ensures kept { AreAsked needs.new.unserved needs.new.asked.items here.now asked.new.items }
    ensures got { needs.new.got ≡ needs.old.got }
    ensures unserved { needs.new.unserved
        ≡ (needs.old.unserved
        || is_unserved (rows_here here.now) (relocation_here here.now relocation.now)) }
    ensures asked { (q : slots.Request) (i : ℕ) → line_of (rows_here here.now) q ≡ Some i
        → mark_at needs.new.asked.items i
        ≡ (mark_at needs.old.asked.items i
        || asks_for_slot q (relocation_here here.now relocation.now)) }
    ensures size { length needs.new.asked.items ≡ length needs.old.asked.items }
{
    let Some(kind) = kind_asked(&relocation.entry) else {
        return;
    };
    let j = relocation.entry.symbol() as usize;
    add_request(needs, asked, here, j, is_thread(kind));
}

/// Adds what a relocation asks for.
fn add_relocation(
    needs: &mut Needs,
    here: &Referrer<'_, '_, '_, '_>,
    known: &mut KnownNeeds,
    relocation: &KeptRelocation,
)
    requires { AreNeedsKnown here.now needs.old known.old }
    ensures kept { AreNeedsKnown here.now needs.new known.new }
    ensures gained { HaveGained (objects_here here.now) (rows_here here.now)
        (relocation_here here.now relocation.now ∷ []) needs.old needs.new }
{
    needs.got = got_with(needs.got, here, &mut known.named, relocation);
    add_if_asked(needs, &mut known.asked, here, relocation);
}

/// Adds what the kept relocations of an object ask for.
fn add_object(
    alloc: Global,
    needs: &mut Needs,
    here: &Referrer<'_, '_, '_, '_>,
) -> Result<(), AllocError>
    requires { length needs.old.asked.items ≡ length (rows_here here.now) }
    ensures { OnOk result (HaveGained (objects_here here.now) (rows_here here.now)
        (relocations_here here.now) needs.old needs.new) }
{
    let mut known = KnownNeeds::new(alloc, here.loaded, needs.got)?;
    for relocation in here.loaded.relocations() {
        add_relocation(needs, here, &mut known, &relocation);
    }
    Ok(())
}

/// Adds what the kept relocations of all objects ask for.
fn add_objects(
    alloc: Global,
    needs: &mut Needs,
    bindings: &Bindings<'_, '_, '_>,
) -> Result<(), AllocError>
    requires { length needs.old.asked.items ≡ length bindings.now.places.slots }
    ensures { OnOk result (HaveGained bindings.now.objects bindings.now.places.slots
        (relocation.relocations bindings.now.objects) needs.old needs.new) }
{
    let objects = bindings.objects();
    for k in 0..objects.len() {
        let here = Referrer {
            bindings,
            number: k as u64,
            loaded: &objects[k],
        };
        add_object(alloc, needs, &here)?;
    }
    Ok(())
}

/// What the kept relocations of all objects ask of the GOT.
pub fn needs_of(alloc: Global, bindings: &Bindings<'_, '_, '_>) -> Result<Needs, AllocError>
    ensures { IfOk result (AreNeeds bindings.now.objects bindings.now.places.slots) }
{
    let asked = filled(alloc, false, bindings.slots().lines().len())?;
    let mut needs = Needs {
        got: false,
        unserved: false,
        asked,
    };
    add_objects(alloc, &mut needs, bindings)?;
    Ok(needs)
}
