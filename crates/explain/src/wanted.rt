//! What is looked for in the objects that are loaded: large sections, and relocations whose values don't fit.
ghost use Rattle.std.specs.Prelude.{◌≡◌, IfSome, OnOk, Some};
ghost use Rattle.std.specs.List.{slice_get};
ghost use Rattle.elf_model.specs.Inputs.Command.{IsBase};
ghost use Rattle.input_names.specs.RelocationPlaces.{IsKeptOf};
ghost use Rattle.search.specs.Faults.{IsObjectAt};
ghost use Rattle.search.specs.Views.{loaded_view};
ghost use Rattle.relocate.specs.SymbolTables.{IsValued, all_valued};
ghost use Rattle.explain.specs.Places.{AreSo, HoldsIn, MayBeAsked, OfLoaded, basis_of};

use crate::place::{Added, EntryPlace, Found, Place};
use elf_model::Rela;
use got_tls::Slots;
use input_names::{RelocationPlace, relocation_place, section_name};
use layout::Placement;
use relocate::{Kind, Valued, address_or_none, fitting_value, wanted_value};
use resolve::Resolved;
use search::{Loaded, LoadedObject, Reached, is_some_kind};
use std::alloc::{AllocError, Global};

/// All addresses of an image are below this one.
const TOP: u64 = 1 << 46;

/// What is wrong, and looked for.
#[derive(Clone, Copy)]
pub enum Wanted<'w, 'a> {
    /// Kept sections that take up more than all addresses from the base on.
    LargeSections,
    /// Kept relocations whose values don't fit, where objects are laid out, the GOT has slots, and the thread pointer is known.
    UnfitEntries(&'w Resolved<'a>, &'w Placement<'a>, &'w Slots<'a>, u64),
}

/// A place at which something is wrong, where there is one.
type Wrong<'a> = Option<Place<'a>>;

/// The loaded object that has a number.
pub(crate) fn object_at<'l, 'a>(loaded: &'l Loaded<'a>, k: usize) -> Option<&'l LoadedObject<'a>>
    ensures { IfSome result (λ one. slice_get loaded.now.objects k ≡ Some (loaded_view one.now)) }
{
    loaded.objects().get(k)
}

/// Where a loaded object is.
pub(crate) fn reached<'a>(one: &LoadedObject<'a>) -> Reached<'a>
    ensures { IsObjectAt result (loaded_view one.now) }
{
    Reached {
        item: one.item,
        path: one.path,
        offset: one.offset,
        bytes: one.object.bytes(),
    }
}

/// Kept section `n` of object `k`, where it takes up more than all addresses from the base on.
fn large_section<'a>(loaded: &Loaded<'a>, k: usize, n: usize) -> Wrong<'a>
    requires { IsBase loaded.now.plan.base }
    ensures { IfSome result (HoldsIn loaded.now) }
{
    let one = object_at(loaded, k)?;
    let i = *one.kept_sections().get(n)? as usize;
    let entry = one.object.sections().get(i)?;
    if !one.is_kept(i, &entry) || entry.sh_size <= TOP - loaded.plan().base {
        return None;
    }
    let place = EntryPlace {
        object: k as u64,
        number: i as u64,
        entry,
        name: section_name(&one.object, i),
    };
    Some(Place::Large(reached(one), place))
}

/// An entry of a RELA section of an object.
#[derive(Clone, Copy, Debug)]
struct EntryAt {
    /// The number of the section that it relocates, and its offset in there.
    section: u32,
    offset: u64,
    /// The number of the RELA section, and its own in there, from 0.
    table: usize,
    number: usize,
}

/// The entries of the kept RELA sections of an object, in the order of these.
fn kept_entries(alloc: Global, one: &LoadedObject<'_>) -> Result<Vec<EntryAt>, AllocError> {
    let mut entries = Vec::new(alloc);
    for rela in one.kept_relas() {
        let run = one.all_entries(*rela);
        for number in 0..run.len() {
            entries.push(EntryAt {
                section: rela.target,
                offset: run.at(number).r_offset,
                table: rela.number as usize,
                number,
            })?;
        }
    }
    Ok(entries)
}

/// The relocation that an entry of an object is, where it is one. It reads no name.
fn entry_at(one: &LoadedObject<'_>, at: &EntryAt) -> Option<Rela> {
    let header = one.object.sections().get(at.table)?;
    if !one.is_kept_rela(at.table, &header) {
        return None;
    }
    let entry = one.entries_of(at.table, &header).get(at.number)?;
    if !is_some_kind(&entry) {
        return None;
    }
    Some(entry)
}

/// The place of the kept relocation that an entry of object `k` is, where it is one.
fn relocation_at<'a>(
    loaded: &Loaded<'a>,
    k: usize,
    one: &LoadedObject<'a>,
    at: &EntryAt,
) -> Option<RelocationPlace<'a>>
    requires { slice_get loaded.now.objects k ≡ Some (loaded_view one.now) }
    ensures there { IfSome result (λ p.
        slice_get loaded.now.objects p.object ≡ Some (loaded_view one.now)) }
    ensures kept { IfSome result (IsKeptOf loaded.now.objects k (loaded_view one.now)) }
{
    let _loaded = loaded;
    let (object, i) = (&one.object, at.table);
    let header = object.sections().get(i)?;
    if !one.is_kept_rela(i, &header) {
        return None;
    }
    let entry = one.entries_of(i, &header).get(at.number)?;
    if !is_some_kind(&entry) {
        return None;
    }
    Some(relocation_place(k, object, i, &header, at.number, &entry))
}

/// An entry, where its value doesn't fit.
fn unfit_entry<'a>(loaded: &Loaded<'a>, valued: &Valued<'_, 'a>, at: &EntryAt) -> Wrong<'a>
    requires known { IsValued valued.now }
    requires same { all_valued valued.now ≡ loaded.now.objects }
    requires placed { valued.now.placement.now ≡ basis_of loaded.now }
    ensures { IfSome result (HoldsIn loaded.now) }
{
    let place = relocation_at(loaded, valued.number, valued.loaded, at)?;
    let (entry, target) = (place.entry, place.section as u64);
    let kind = Kind::of(entry.kind())?;
    let at = address_or_none(valued.placement, valued.number, target as usize);
    let None = fitting_value(valued, target, at, &entry) else {
        return None;
    };
    let value = wanted_value(valued, target, at, kind, &entry);
    let address = at.wrapping_add(entry.r_offset);
    Some(Place::Value(reached(valued.loaded), place, value, address))
}

/// Whether an entry's value doesn't fit, told without reading its names.
fn is_unfit(valued: &Valued<'_, '_>, at: &EntryAt) -> bool
    requires { IsValued valued.now }
{
    let Some(entry) = entry_at(valued.loaded, at) else {
        return false;
    };
    if Kind::of(entry.kind()).is_none() {
        return false;
    }
    let target = u64::from(at.section);
    let at = address_or_none(valued.placement, valued.number, target as usize);
    fitting_value(valued, target, at, &entry).is_none()
}

/// Adds an entry, where its value doesn't fit: names are read only of what is kept.
fn add_unfit<'a>(
    found: &mut Found<'a>,
    loaded: &Loaded<'a>,
    valued: &Valued<'_, 'a>,
    at: &EntryAt,
) -> Added
    requires known { IsValued valued.now }
    requires same { all_valued valued.now ≡ loaded.now.objects }
    requires placed { valued.now.placement.now ≡ basis_of loaded.now }
    requires before { AreSo (OfLoaded loaded.now) found.old.places.items }
    ensures { OnOk result (AreSo (OfLoaded loaded.now) found.new.places.items) }
{
    if !is_unfit(valued, at) {
        return Ok(());
    }
    if found.is_full() {
        found.count();
        return Ok(());
    }
    found.add(unfit_entry(loaded, valued, at))
}

/// Adds what is wrong with object `k`.
fn add_object<'a>(
    found: &mut Found<'a>,
    wanted: Wanted<'_, 'a>,
    loaded: &Loaded<'a>,
    k: usize,
) -> Added
    requires asked { MayBeAsked loaded.now wanted }
    requires before { AreSo (OfLoaded loaded.now) found.old.places.items }
    ensures { OnOk result (AreSo (OfLoaded loaded.now) found.new.places.items) }
{
    let Some(one) = object_at(loaded, k) else {
        return Ok(());
    };
    let alloc = found.alloc;
    match wanted {
        Wanted::LargeSections => {
            for n in 0..one.kept_sections().len() {
                found.add(large_section(loaded, k, n))?;
            }
        }
        Wanted::UnfitEntries(resolved, placement, slots, pointer) => {
            let valued = Valued::new(alloc, resolved, placement, slots, pointer, k, one)?;
            let entries = kept_entries(alloc, one)?;
            for unfit in &entries {
                add_unfit(found, loaded, &valued, unfit)?;
            }
        }
    }
    Ok(())
}

/// Adds what is wrong with the objects that are loaded.
pub fn add_wanted<'a>(found: &mut Found<'a>, wanted: Wanted<'_, 'a>, loaded: &Loaded<'a>) -> Added
    requires asked { MayBeAsked loaded.now wanted }
    requires before { AreSo (OfLoaded loaded.now) found.old.places.items }
    ensures { OnOk result (AreSo (OfLoaded loaded.now) found.new.places.items) }
{
    for k in 0..loaded.objects().len() {
        add_object(found, wanted, loaded, k)?;
    }
    Ok(())
}
