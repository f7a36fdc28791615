//! The places of flaws of references: of each flaw the relocations that have its numbers, with their object, or the entry.
ghost use Rattle.std.specs.Prelude.{◌≡◌, All, IfOk, OnOk, Some, map};
ghost use Rattle.input_names.specs.RelocationPlaces.{IsRelocationAt};
ghost use Rattle.wrong_references.specs.References.{IsFlaw, IsKeptEntry, relocation_at};
ghost use Rattle.wrong_references.specs.declared.flaw.ReferenceFlaw.TheVariants as flaw;
ghost use Rattle.explain.specs.Flawed.{AreTold, IsNumbered, reference_of};
ghost use Rattle.explain.specs.Places.{AreSo, HoldsIn, OfLoaded};

use crate::flaw_places::object_numbered;
use crate::place::{Added, Found, Place};
use crate::wanted::reached;
use input_names::{RelocationPlace, relocation_place};
use relocate::RelocationFault;
use search::Loaded;
use std::alloc::{AllocError, Global};
use wrong_references::{EntryNumber, ReferenceFlaw};

/// The place of an entry of object `k`, which is a kept relocation.
fn place_of_entry<'a>(loaded: &Loaded<'a>, k: u64, at: EntryNumber) -> RelocationPlace<'a>
    requires { IsKeptEntry loaded.now.objects k at }
    ensures numbers { IsNumbered k at result }
    ensures kept { (e : IsKeptEntry loaded.now.objects k at) →
        IsRelocationAt loaded.now.objects result (relocation_at e) }
{
    let one = object_numbered(loaded, k);
    let (i, number) = (at.table as usize, at.number as usize);
    let header = one.object.section(i);
    let entry = one.entries_of(i, &header).at(number);
    relocation_place(k as usize, &one.object, i, &header, number, &entry)
}

/// The place of a relocation that isn't lawful.
fn unlawful_place<'a>(
    loaded: &Loaded<'a>,
    k: u64,
    at: EntryNumber,
    fault: RelocationFault,
    others: u64,
) -> Place<'a>
    requires { IsFlaw loaded.now (flaw.Relocation k at fault others) }
    ensures so { HoldsIn loaded.now result }
    ensures flaw { reference_of result ≡ Some (flaw.Relocation k at fault others) }
{
    let place = place_of_entry(loaded, k, at);
    Place::Relocation(reached(object_numbered(loaded, k)), place, fault, others)
}

/// The place of two relocations whose fields share a byte.
fn overlap_place<'a>(
    loaded: &Loaded<'a>,
    k: u64,
    first: EntryNumber,
    second: EntryNumber,
) -> Place<'a>
    requires { IsFlaw loaded.now (flaw.Overlap k first second) }
    ensures so { HoldsIn loaded.now result }
    ensures flaw { reference_of result ≡ Some (flaw.Overlap k first second) }
{
    let (one, other) = (
        place_of_entry(loaded, k, first),
        place_of_entry(loaded, k, second),
    );
    Place::Overlap(reached(object_numbered(loaded, k)), one, other)
}

/// The place of a flaw.
fn place_of<'a>(loaded: &Loaded<'a>, flaw: ReferenceFlaw) -> Place<'a>
    requires { IsFlaw loaded.now flaw }
    ensures so { HoldsIn loaded.now result }
    ensures flaw { reference_of result ≡ Some flaw }
{
    match flaw {
        ReferenceFlaw::Relocation(k, at, fault, others) => {
            unlawful_place(loaded, k, at, fault, others)
        }
        ReferenceFlaw::Entry => Place::Entry(loaded.plan().entry),
        ReferenceFlaw::Overlap(k, first, second) => overlap_place(loaded, k, first, second),
    }
}

/// The places of flaws, in their order.
fn places_of<'a>(
    alloc: Global,
    loaded: &Loaded<'a>,
    flaws: &[ReferenceFlaw],
) -> Result<Vec<Place<'a>>, AllocError>
    requires { All (IsFlaw loaded.now) flaws.now }
    ensures so { IfOk result (λ places. AreSo (OfLoaded loaded.now) places.items) }
    ensures flaws { IfOk result (λ places. map reference_of places.items ≡ map Some flaws.now) }
{
    let mut places = Vec::new(alloc);
    for flaw in flaws {
        places.push(place_of(loaded, *flaw))?;
    }
    Ok(places)
}

/// Tells the first of some flaws, as many as may be kept, and counts the others.
pub(crate) fn tell_references<'a>(
    found: &mut Found<'a>,
    loaded: &Loaded<'a>,
    flaws: &[ReferenceFlaw],
) -> Added
    requires { All (IsFlaw loaded.now) flaws.now }
    ensures so { OnOk result (AreSo (OfLoaded loaded.now) found.new.places.items) }
    ensures told { OnOk result (AreTold reference_of flaws.now found.old.most
        found.new.places.items found.new.more) }
{
    let (first, others) = flaws.split_at(found.most.min(flaws.len()));
    found.places = places_of(found.alloc, loaded, first)?;
    found.more = others.len() as u64;
    Ok(())
}
