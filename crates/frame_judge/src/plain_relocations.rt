//! Whether the relocations of call frames can be judged: each field lies in one record, none asks for a symbol of such a section, and the
//! functions that records are for are named by LOCAL symbols.
ghost use Rattle.std.specs.Prelude.{◌≡◌, ◌↔◌, ◌+◌, ℕ, All, Any, IfSome, IsTrue, true};
ghost use Rattle.byteview.specs.Numbers.{part};
ghost use Rattle.check_load.specs.KeptRelocations.{relocation_at};
ghost use Rattle.check_load.specs.Views.{loaded_view, loaded_views};
ghost use Rattle.elf_model.specs.Link.Relocation.{Relocation, is_local, relocations, relocations_from, symbol_at};
ghost use Rattle.elf_model.specs.Inputs.ObjectFile.{rela_symbol};
ghost use Rattle.frame_judge.specs.Plain.{IsPlainUnlessOut};
ghost use Rattle.judge_model.specs.Frames.{IsAround, IsBegin, IsFirstField, IsPlain, LiesInRecord, are_zeros, frames_at, has_bytes, names_frames, records_of};
ghost use Rattle.judge_model.specs.Links.{ForeignLink, framed_of, objects_of, relocations_of};

use crate::sections::FramedSections;
use byteview::View;
use call_frames::CallFrames;
use check_load::{KeptRelocation, Loaded};
use elf_model::{Rela, STB_LOCAL};
use link_fields::{Drops, place_of};
use memory_judge::FieldSpan;

/// Whether the place of a relocation lies in one record, behind its length and its number.
fn lies_in_record(frames: &CallFrames<'_>, entry: &Rela) -> bool
    ensures { (r : Relocation) → r.entry ≡ entry.now
        → IsTrue result ↔ Any (IsAround r) (records_of frames.now) }
{
    let place = place_of(entry);
    frames.lies_in_record(place.at, place.width as u64)
}

/// Whether it does so in a section of call frames; true for all other sections.
fn is_place_plain(framed: &FramedSections<'_, '_>, number: u64, relocation: &KeptRelocation) -> bool
    ensures { (r : Relocation) → r.entry ≡ relocation.now.entry
        → IsTrue result ↔ IfSome (frames_at framed.now number relocation.now.section) (LiesInRecord r) }
{
    match framed.find(number, relocation.section as u64) {
        Some(frames) => lies_in_record(frames, &relocation.entry),
        None => true,
    }
}

/// Whether the symbol that a relocation names is LOCAL.
fn has_local_symbol(loaded: &Loaded<'_>, entry: &Rela) -> bool
    ensures { (number : ℕ) → result
        ≡ is_local (symbol_at number (loaded_view loaded.now) (rela_symbol entry.now)) }
{
    loaded.object.symbol(entry.symbol() as usize).binding() == STB_LOCAL
}

/// Whether the symbol that a relocation of object `number` names is a LOCAL one of a section of call frames.
fn names_frames(
    framed: &FramedSections<'_, '_>,
    number: u64,
    loaded: &Loaded<'_>,
    relocation: &KeptRelocation,
) -> bool
    ensures { result ≡ names_frames framed.now
        (relocation_at number (loaded_view loaded.now) relocation.now) }
{
    let entry = loaded.object.symbol(relocation.entry.symbol() as usize);
    entry.binding() == STB_LOCAL && framed.find(number, entry.st_shndx as u64).is_some()
}

/// Whether a field is the first one behind the number of a record that is no common part.
fn is_first_field(frames: &CallFrames<'_>, offset: u64) -> bool
    ensures { IsTrue result ↔ IsFirstField offset frames.now }
{
    if offset < 8 {
        return false;
    }
    match frames.find(offset - 8) {
        Some(record) => record.id != 0,
        None => false,
    }
}

/// The bytes behind a field, as many as that has.
fn size_behind<'b>(bytes: &'b [u8], place: FieldSpan) -> &'b [u8]
    ensures { result.now ≡ part bytes.entry.now (place.at + place.width) place.width }
{
    let behind = place.at.saturating_add(place.width as u64);
    View::new(bytes).part(behind as usize, place.width as usize)
}

/// Whether all bytes are 0.
fn are_zeros(bytes: &[u8]) -> bool
    ensures { result ≡ are_zeros bytes.now }
{
    for b in bytes {
        if *b != 0 {
            return false;
        }
    }
    true
}

/// Whether bytes have something where the size of a function is whose address a relocation has.
fn has_bytes(bytes: &[u8], entry: &Rela) -> bool
    ensures { (r : Relocation) → r.entry ≡ entry.now → result ≡ has_bytes r bytes.now }
{
    !are_zeros(size_behind(bytes, place_of(entry)))
}

/// Whether a relocation of a section of call frames has the address of the function that a record is for, which has bytes.
fn is_begin_of(frames: &CallFrames<'_>, entry: &Rela) -> bool
    ensures { (r : Relocation) → r.entry ≡ entry.now → IsTrue result
        ↔ (IsFirstField r.entry.r_offset frames.now × (has_bytes r frames.now ≡ true)) }
{
    if !is_first_field(frames, entry.r_offset) {
        return false;
    }
    has_bytes(frames.bytes(), entry)
}

/// Whether a relocation of object `number` has the address of the function that a record is for.
pub fn is_begin(framed: &FramedSections<'_, '_>, number: u64, relocation: &KeptRelocation) -> bool
    ensures { (r : Relocation) → r.entry ≡ relocation.now.entry → r.object ≡ number
        → r.section ≡ relocation.now.section → IsTrue result ↔ IsBegin framed.now r }
{
    match framed.find(number, relocation.section as u64) {
        Some(frames) => is_begin_of(frames, &relocation.entry),
        None => false,
    }
}

/// Whether a relocation of object `number` can be judged.
fn is_plain(
    framed: &FramedSections<'_, '_>,
    number: u64,
    loaded: &Loaded<'_>,
    relocation: &KeptRelocation,
) -> bool
    ensures { IsTrue result ↔ IsPlain framed.now
        (relocation_at number (loaded_view loaded.now) relocation.now) }
{
    if !is_place_plain(framed, number, relocation) {
        return false;
    }
    if names_frames(framed, number, loaded, relocation) {
        return false;
    }
    if !is_begin(framed, number, relocation) {
        return true;
    }
    has_local_symbol(loaded, &relocation.entry)
}

/// Whether it can, or its section is left out.
fn is_plain_unless_out(
    framed: &FramedSections<'_, '_>,
    drops: &Drops<'_>,
    number: u64,
    loaded: &Loaded<'_>,
    relocation: &KeptRelocation,
) -> bool
    ensures { IsTrue result ↔ IsPlainUnlessOut framed.now drops.now
        (relocation_at number (loaded_view loaded.now) relocation.now) }
{
    if drops.has(number, relocation.section as u64) {
        return true;
    }
    is_plain(framed, number, loaded, relocation)
}

/// Whether the relocations of object `number` can be judged, but for those of sections that are left out.
fn are_own_plain(
    framed: &FramedSections<'_, '_>,
    drops: &Drops<'_>,
    number: u64,
    loaded: &Loaded<'_>,
) -> bool
    ensures { IsTrue result ↔ All (IsPlainUnlessOut framed.now drops.now)
        (relocations_from number (loaded_view loaded.now)) }
{
    for relocation in loaded.relocations() {
        if !is_plain_unless_out(framed, drops, number, loaded, &relocation) {
            return false;
        }
    }
    true
}

fn are_all_plain(framed: &FramedSections<'_, '_>, drops: &Drops<'_>, objects: &[Loaded<'_>]) -> bool
    ensures { IsTrue result ↔ All (IsPlainUnlessOut framed.now drops.now)
        (relocations (loaded_views objects.now)) }
{
    for k in 0..objects.len() {
        if !are_own_plain(framed, drops, k as u64, &objects[k]) {
            return false;
        }
    }
    true
}

/// Whether the relocations of a link's objects can be judged, given its sections of call frames and the lines of the sections that are
/// left out.
pub fn are_relocations_plain(
    framed: &FramedSections<'_, '_>,
    drops: &Drops<'_>,
    objects: &[Loaded<'_>],
) -> bool
    ensures { (l : ForeignLink) → objects_of l ≡ loaded_views objects.now
        → l.certificate.drops ≡ drops.now → framed_of l ≡ framed.now
        → IsTrue result ↔ All (IsPlain (framed_of l)) (relocations_of l) }
{
    are_all_plain(framed, drops, objects)
}
