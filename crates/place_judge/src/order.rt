//! Whether the lines of a certificate stand in their order, no two of one thing.
ghost use Rattle.std.specs.Prelude.{◌+◌, ◌<◌, ◌↔◌, ℕ, IsTrue, length, map, slice_index_or};
ghost use Rattle.elf_model.specs.Image.MapRecord.{CommonRow, PlaceRow, common_row, place_row};
ghost use Rattle.elf_model.specs.Image.MapText.{Ascends, CommonBefore, DropBefore, NameBefore, PlaceBefore};
ghost use Rattle.elf_model.specs.declared.link_map.DropLine.{DropLine};
ghost use Rattle.judge_model.specs.Certificates.{IsInOrder, MergedBefore, NameRowBefore, StretchBefore, certificate_of, name_row};
ghost use Rattle.judge_model.specs.declared.certificate.StretchLine.{StretchLine};
ghost use Rattle.place_judge.specs.Places.{AreSectionsInOrder, AreStretchesInOrder, AreTextsInOrder};

use elf_model::{CommonLine, DropLine, PlaceLine};
use judge_model::{Certificate, MergedLine, NameLine, StretchLine};
use std::cmp::Ordering;

/// Whether a name comes before another one, byte by byte.
fn is_name_before(first: &[u8], second: &[u8]) -> bool
    ensures { IsTrue result ↔ NameBefore first.now second.now }
{
    first.cmp(second) == Ordering::Less
}

fn is_drop_before(p: &DropLine, q: &DropLine) -> bool
    ensures { IsTrue result ↔ DropBefore p.now q.now }
{
    p.object < q.object || (p.object == q.object && p.section < q.section)
}

fn are_drops_rising(lines: &[DropLine]) -> bool
    ensures { IsTrue result ↔ Ascends DropBefore lines.now }
{
    lines
        .windows(2)
        .all(|pair| is_drop_before(&pair[0], &pair[1]))
}

fn is_place_before(p: &PlaceLine, q: &PlaceLine) -> bool
    ensures { IsTrue result ↔ PlaceBefore (place_row p.now) (place_row q.now) }
{
    p.object < q.object || (p.object == q.object && p.section < q.section)
}

fn are_places_rising(lines: &[PlaceLine]) -> bool
    ensures { IsTrue result ↔ Ascends (λ p q. PlaceBefore (place_row p) (place_row q)) lines.now }
{
    lines
        .windows(2)
        .all(|pair| is_place_before(&pair[0], &pair[1]))
}

fn is_common_before(p: &CommonLine, q: &CommonLine) -> bool
    ensures { IsTrue result ↔ CommonBefore (common_row p.now) (common_row q.now) }
{
    is_name_before(&p.name, &q.name)
}

fn are_commons_rising(lines: &[CommonLine]) -> bool
    ensures { IsTrue result ↔ Ascends (λ p q. CommonBefore (common_row p) (common_row q)) lines.now }
{
    lines
        .windows(2)
        .all(|pair| is_common_before(&pair[0], &pair[1]))
}

fn is_stretch_before(p: &StretchLine, q: &StretchLine) -> bool
    ensures { IsTrue result ↔ StretchBefore p.now q.now }
{
    p.address <= q.address && p.size <= q.address - p.address
}

fn are_stretches_rising(lines: &[StretchLine]) -> bool
    ensures { IsTrue result ↔ Ascends StretchBefore lines.now }
{
    lines
        .windows(2)
        .all(|pair| is_stretch_before(&pair[0], &pair[1]))
}

fn is_value_before(p: &NameLine, q: &NameLine) -> bool
    ensures { IsTrue result ↔ NameRowBefore (name_row p.now) (name_row q.now) }
{
    is_name_before(&p.name, &q.name)
}

fn are_names_rising(lines: &[NameLine]) -> bool
    ensures { IsTrue result ↔ Ascends (λ p q. NameRowBefore (name_row p) (name_row q)) lines.now }
{
    lines
        .windows(2)
        .all(|pair| is_value_before(&pair[0], &pair[1]))
}

fn is_merged_before(p: &MergedLine, q: &MergedLine) -> bool
    ensures { IsTrue result ↔ MergedBefore p.now q.now }
{
    if p.object != q.object {
        return p.object < q.object;
    }
    if p.section != q.section {
        return p.section < q.section;
    }
    p.offset <= q.offset && p.size <= q.offset - p.offset
}

fn are_merged_rising(lines: &[MergedLine]) -> bool
    ensures { IsTrue result ↔ Ascends MergedBefore lines.now }
{
    lines
        .windows(2)
        .all(|pair| is_merged_before(&pair[0], &pair[1]))
}

/// Whether the lines of sections come by object and section.
fn are_sections_in_order(certificate: &Certificate) -> bool
    ensures { IsTrue result ↔ AreSectionsInOrder (certificate_of certificate.now) }
{
    if !are_drops_rising(&certificate.drops) {
        return false;
    }
    are_places_rising(&certificate.places)
}

/// Whether notes and areas come by address, and merged strings and constants and records of call frames by object, section and offset.
fn are_stretches_in_order(certificate: &Certificate) -> bool
    ensures { IsTrue result ↔ AreStretchesInOrder (certificate_of certificate.now) }
{
    if !are_stretches_rising(&certificate.notes) {
        return false;
    }
    if !are_stretches_rising(&certificate.areas) {
        return false;
    }
    if !are_merged_rising(&certificate.merged) {
        return false;
    }
    are_merged_rising(&certificate.frames)
}

/// Whether the lines of common blocks and of names come by name.
fn are_texts_in_order(certificate: &Certificate) -> bool
    ensures { IsTrue result ↔ AreTextsInOrder (certificate_of certificate.now) }
{
    if !are_commons_rising(&certificate.commons) {
        return false;
    }
    are_names_rising(&certificate.names)
}

/// Whether no two lines of a certificate speak of one thing, and those of a kind come by rising keys.
pub fn is_in_order(certificate: &Certificate) -> bool
    ensures { IsTrue result ↔ IsInOrder (certificate_of certificate.now) }
{
    if !are_sections_in_order(certificate) {
        return false;
    }
    if !are_texts_in_order(certificate) {
        return false;
    }
    are_stretches_in_order(certificate)
}
