//! The places of flaws: of each flaw the section or the symbol that has its numbers, with its object.
ghost use Rattle.std.specs.Prelude.{◌≡◌, ◌<◌, ℕ, All, IfOk, OnOk, Some, length, map};
ghost use Rattle.std.specs.List.{slice_get};
ghost use Rattle.search.specs.Views.{loaded_view};
ghost use Rattle.flaws.specs.Flaws.{IsFlaw, IsSectionFlaw};
ghost use Rattle.flaws.specs.declared.flaw.Flaw.TheVariants as flaw;
ghost use Rattle.explain.specs.Flawed.{TellsResolutionOf, flaw_of, flaw_of_symbol};
ghost use Rattle.explain.specs.Places.{AreSo, HoldsIn, OfLoaded};

use crate::place::{Added, EntryPlace, Found, Place, SymbolFault};
use crate::wanted::reached;
use flaws::{Flaw, resolution_flaws};
use input_names::section_name;
use search::{Loaded, LoadedObject};
use std::alloc::{AllocError, Global};

/// The loaded object that has a number.
pub(crate) fn object_numbered<'l, 'a>(loaded: &'l Loaded<'a>, k: u64) -> &'l LoadedObject<'a>
    requires { k < length loaded.now.objects }
    ensures { slice_get loaded.now.objects k ≡ Some (loaded_view result.now) }
{
    let objects = loaded.objects();
    &objects[k as usize]
}

/// The place of a flaw of section `i` of object `k`.
fn section_place<'a>(loaded: &Loaded<'a>, k: u64, i: u64) -> Place<'a>
    requires { IsSectionFlaw loaded.now.objects k i }
    ensures so { HoldsIn loaded.now result }
    ensures flaw { flaw_of result ≡ Some (flaw.Section k i) }
{
    let one = object_numbered(loaded, k);
    let place = EntryPlace {
        object: k,
        number: i,
        entry: one.object.section(i as usize),
        name: section_name(&one.object, i as usize),
    };
    Place::Section(reached(one), place)
}

/// The place of a flaw of symbol `j` of object `k`.
fn symbol_place<'a>(loaded: &Loaded<'a>, k: u64, j: u64, fault: SymbolFault) -> Place<'a>
    requires { IsFlaw loaded.now.objects (flaw_of_symbol fault k j) }
    ensures so { HoldsIn loaded.now result }
    ensures flaw { flaw_of result ≡ Some (flaw_of_symbol fault k j) }
{
    let one = object_numbered(loaded, k);
    let place = EntryPlace {
        object: k,
        number: j,
        entry: one.object.symbol(j as usize),
        name: one.object.symbol_name(j as usize),
    };
    Place::Symbol(reached(one), place, fault)
}

/// The place of a flaw.
fn place_of<'a>(loaded: &Loaded<'a>, flaw: Flaw) -> Place<'a>
    requires { IsFlaw loaded.now.objects flaw }
    ensures so { HoldsIn loaded.now result }
    ensures flaw { flaw_of result ≡ Some flaw }
{
    match flaw {
        Flaw::Section(k, i) => section_place(loaded, k, i),
        Flaw::Common(k, j) => symbol_place(loaded, k, j, SymbolFault::BadCommon),
        Flaw::Symbol(k, j) => symbol_place(loaded, k, j, SymbolFault::BadSymbol),
        Flaw::Definition(k, j) => symbol_place(loaded, k, j, SymbolFault::Duplicate),
    }
}

/// The places of flaws, in their order.
fn places_of<'a>(
    alloc: Global,
    loaded: &Loaded<'a>,
    flaws: &[Flaw],
) -> Result<Vec<Place<'a>>, AllocError>
    requires { All (IsFlaw loaded.now.objects) flaws.now }
    ensures so { IfOk result (λ places. AreSo (OfLoaded loaded.now) places.items) }
    ensures flaws { IfOk result (λ places. map flaw_of places.items ≡ map Some flaws.now) }
{
    let mut places = Vec::new(alloc);
    for flaw in flaws {
        places.push(place_of(loaded, *flaw))?;
    }
    Ok(places)
}

/// Tells the first flaws of the phase of resolution, as many as may be kept, and counts the others.
pub(crate) fn tell_resolution<'a>(found: &mut Found<'a>, loaded: &Loaded<'a>) -> Added
    ensures so { OnOk result (AreSo (OfLoaded loaded.now) found.new.places.items) }
    ensures told { OnOk result (TellsResolutionOf loaded.now.objects found.old.most
        found.new.places.items found.new.more) }
{
    let flaws = resolution_flaws(found.alloc, loaded)?;
    let (first, others) = flaws.split_at(found.most.min(flaws.len()));
    found.places = places_of(found.alloc, loaded, first)?;
    found.more = others.len() as u64;
    Ok(())
}
