//! C9: kept relocations that aren't lawful, those whose values don't fit their fields, and those of an object whose fields share a
//! byte: neighbours in the order of their fields. And where any kept relocation is.
ghost use Rattle.std.specs.Prelude.{◌≡◌, ◌↔◌, ◌+◌, ◌<◌, ◌≤◌, IfSome, IsTrue, OnOk, Some};
ghost use Rattle.elf_model.specs.Image.RightLink.{AreRelocationsRight, objects_of};
ghost use Rattle.check_relocs.specs.Kinds.{kind_view};
ghost use Rattle.check_relocs.specs.LawfulFields as fields;
ghost use Rattle.check_relocs.specs.Referrers.{object_here, objects_here};
ghost use Rattle.input_names.specs.RelocationPlaces.{IsKeptOf};
ghost use Rattle.explain_check.specs.Places.{AreFailures, FailsIn, IsFieldOver, IsWrongWith, width_of_entry};

use crate::found::{Added, Found};
use crate::place::{CheckPlace, Failure};
use check_load::{KeptRelocation, Loaded};
use check_relocs::{
    Bindings, Kind, LinkTerms, Referrer, Relocated, Target, Terms, fits, is_mismatch, is_some_kind,
    kind_of, link_terms, refers_to_dropped, relocated, target_of_symbol, value_of,
};
use checker::BoundLink;
use elf_model::Rela;
use input_names::{RelocationFault, RelocationPlace, begins_in, relocation_place};

/// The loaded object that has a number.
pub fn referrer_at<'r, 'l, 'p, 'a>(
    bindings: &'r Bindings<'l, 'p, 'a>,
    k: usize,
) -> Option<Referrer<'r, 'l, 'p, 'a>>
    ensures bindings { IfSome result (λ here. here.bindings.now ≡ bindings.entry.now) }
    ensures number { IfSome result (λ here. here.number ≡ k) }
{
    let loaded = bindings.objects().get(k)?;
    let number = k as u64;
    Some(Referrer {
        bindings,
        number,
        loaded,
    })
}

/// The place of a relocation of an object, where it is a kept one.
pub fn place_at<'a>(
    here: &Referrer<'_, '_, '_, 'a>,
    relocation: &KeptRelocation,
) -> Option<RelocationPlace<'a>>
    ensures { IfSome result (IsKeptOf (objects_here here.now) here.now.number (object_here here.now)) }
{
    let one = here.loaded;
    let (table, number) = (relocation.table as usize, relocation.number);
    let header = one.object.sections().get(table)?;
    if !one.is_kept_rela(table, &header) {
        return None;
    }
    let entry = one.object.relas(table)?.get(number)?;
    if !is_some_kind(&entry) {
        return None;
    }
    let object = here.number as usize;
    let place = relocation_place(object, &one.object, table, &header, number, &entry);
    Some(place)
}

/// The width of an entry's field in bytes; 0 for a type that is no kind.
fn width_of(entry: &Rela) -> u64
    ensures { result ≡ width_of_entry entry.now }
{
    kind_of(entry.kind()).map_or(0, |kind| kind.width as u64)
}

/// Whether byte `k` of a section lies in an entry's field.
fn is_over(entry: &Rela, k: u64) -> bool
    ensures { IsTrue result ↔ ((entry.now.r_offset ≤ k)
        × (k < entry.now.r_offset + width_of_entry entry.now)) }
{
    entry.r_offset <= k && k - entry.r_offset < width_of(entry)
}

/// The first kept relocation of an object in whose field byte `k` of a section lies.
fn relocation_over(one: &Loaded<'_>, section: u64, k: u64) -> Option<KeptRelocation> {
    for relocation in one.relocations() {
        if relocation.section as u64 == section && is_over(&relocation.entry, k) {
            return Some(relocation);
        }
    }
    None
}

/// The first kept relocation in whose field byte `k` of a section of an object of the link lies; None where it isn't asked for.
pub fn field_place<'a>(
    bound: &BoundLink<'_, 'a>,
    object: u64,
    section: u64,
    k: u64,
    asked: bool,
) -> Option<RelocationPlace<'a>>
    ensures { IfSome result (IsFieldOver (objects_of bound.now) object section k) }
{
    if !asked {
        return None;
    }
    let here = referrer_at(bound.bindings(), object as usize)?;
    let place = place_at(&here, &relocation_over(here.loaded, section, k)?)?;
    if place.section as u64 != section || !is_over(&place.entry, k) {
        return None;
    }
    Some(place)
}

/// What is wrong with an entry of a kind, but for its value.
fn fault_with(kind: &Kind, target: &Target, to: &Relocated, entry: &Rela) -> Option<RelocationFault>
    ensures { IfSome result (IsWrongWith (Some (kind_view kind.now)) target.now to.now entry.now) }
{
    if target.undefined {
        return Some(RelocationFault::Undefined);
    }
    if refers_to_dropped(target, to) {
        return Some(RelocationFault::RefToDropped);
    }
    if is_mismatch(kind.formula, target.thread_local) {
        return Some(RelocationFault::TlsMismatch);
    }
    if target.mixed {
        return Some(RelocationFault::MixedSection);
    }
    if entry.r_offset > to.size || kind.width as u64 > to.size - entry.r_offset {
        return Some(RelocationFault::FieldOutside);
    }
    None
}

/// The value of an entry of a kind, modulo 2^64.
fn value_with(kind: &Kind, target: &Target, to: &Relocated, given: &LinkTerms, entry: &Rela) -> u64
    ensures { result ≡ fields.value_with
        (Some (kind_view kind.now)) target.now to.now given.now entry.now }
{
    let terms = Terms {
        symbol: target.value,
        place: to.address.wrapping_add(entry.r_offset),
        slot: given.slot,
        got: given.got,
        size: target.size,
        thread_pointer: given.thread_pointer,
    };
    value_of(kind.formula, entry.r_addend, terms)
}

/// What is wrong with a kept relocation of the object that has a number.
fn wrong_place<'a>(bound: &BoundLink<'_, 'a>, object: usize, kept: &KeptRelocation) -> Failure<'a>
    ensures { IfSome result (FailsIn bound.now) }
{
    let here = referrer_at(bound.bindings(), object)?;
    let place = place_at(&here, kept)?;
    let (bindings, number, one) = (here.bindings, here.number, here.loaded);
    let entry = place.entry;
    let Some(kind) = kind_of(entry.kind()) else {
        return Some(CheckPlace::Relocation(place, RelocationFault::RelocKind));
    };
    let to = relocated(bindings, number, &one.object, place.section);
    let target = target_of_symbol(bindings, number, one, entry.symbol() as usize);
    let given = link_terms(bindings, number, one, &entry);
    if let Some(fault) = fault_with(&kind, &target, &to, &entry) {
        return Some(CheckPlace::Relocation(place, fault));
    }
    let value = value_with(&kind, &target, &to, &given, &entry);
    if fits(kind.range, kind.width as u64, value) {
        return None;
    }
    let address = to.address.wrapping_add(entry.r_offset);
    Some(CheckPlace::Value(place, value, address))
}

/// Two kept relocations of an object, where the field of the second one begins inside that of the first one, in a link whose
/// relocations aren't right.
fn overlap<'a>(
    bound: &BoundLink<'_, 'a>,
    object: usize,
    first: &KeptRelocation,
    second: &KeptRelocation,
) -> Failure<'a>
    requires { ¬ AreRelocationsRight bound.now }
    ensures { IfSome result (FailsIn bound.now) }
{
    let here = referrer_at(bound.bindings(), object)?;
    let first = place_at(&here, first)?;
    let second = place_at(&here, second)?;
    let width = width_of(&first.entry);
    if !begins_in(&first, width, &second, width_of(&second.entry)) {
        return None;
    }
    Some(CheckPlace::Overlap(first, second))
}

impl<'a> Found<'a> {
    /// Adds what is wrong with kept relocations of an object, and neighbours in the order of their sections and fields that
    /// share a byte.
    fn add_object(&mut self, bound: &BoundLink<'_, 'a>, object: usize, one: &Loaded<'a>) -> Added
        requires before { AreFailures bound.now self.old.places.items }
        requires fails { ¬ AreRelocationsRight bound.now }
        ensures { OnOk result (AreFailures bound.now self.new.places.items) }
    {
        let mut relocations = Vec::new(self.alloc);
        for relocation in one.relocations() {
            self.add_some(wrong_place(bound, object, &relocation))?;
            relocations.push(relocation)?;
        }
        relocations.sort_by_key(|r| (r.section, r.entry.r_offset))?;
        for i in 1..relocations.len() {
            let (first, second) = (&relocations[i - 1], &relocations[i]);
            self.add_some(overlap(bound, object, first, second))?;
        }
        Ok(())
    }

    /// Adds the kept relocations of a link that aren't lawful or whose values don't fit: where its ninth clause fails.
    pub(crate) fn add_c9(&mut self, bound: &BoundLink<'_, 'a>) -> Added
        requires before { AreFailures bound.now self.old.places.items }
        requires fails { ¬ AreRelocationsRight bound.now }
        ensures { OnOk result (AreFailures bound.now self.new.places.items) }
    {
        for (object, one) in bound.bindings().objects().iter().enumerate() {
            self.add_object(bound, object, one)?;
        }
        Ok(())
    }
}
