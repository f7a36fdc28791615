//! The fields of one object's sections, found by section; each with what its instruction has in front of it.
ghost use Rattle.std.specs.Prelude.{◌≡◌, ◌==◌, ◌≤◌, ◌<◌, ◌↔◌, ℕ, All, IfOk, IsPermutation, find, length, map, option_map, slice_index_or, unwrap_or};
ghost use Rattle.std.specs.List.{slice_get};
ghost use Rattle.std.specs.List.Sorted.{IsNonDecreasingBy};
ghost use Rattle.check_load.specs.KeptRelocations.{relocation_at};
ghost use Rattle.check_load.specs.Views.{loaded_view, loaded_views};
ghost use Rattle.elf_model.specs.Link.Relocation.{Relocation, relocations_from};
ghost use Rattle.judge_model.specs.Fields.{foreign_kinds};
ghost use Rattle.memory_judge.specs.Rests.{IsBeside};
ghost use Rattle.link_fields.specs.Fields.{HasFields, IsFieldOutside, field_of};
ghost use Rattle.link_fields.specs.Rests.{span_of};

use check_load::{KeptRelocation, Loaded};
use elf_model::Rela;
use field_judge::{foreign_kind, front_of};
use memory_judge::FieldSpan;
use std::alloc::{AllocError, Global};

/// A field of a section of an object.
#[derive(Clone, Copy, Debug)]
pub struct SectionField {
    pub section: u32,
    pub span: FieldSpan,
}

/// The fields of the sections of an object that has a number, by rising section.
#[derive(Drop)]
pub struct ObjectFields {
    pub object: u64,
    pub row: Vec<SectionField>,
}

/// The width of the field of a type in bytes; 0 of one that isn't judged.
fn width_of(number: u32) -> u8
    ensures exact { result ≡ unwrap_or (option_map (λ k. k.width)
        (find (λ k. k.number == number) foreign_kinds)) 0 }
    ensures few { result ≤ 8 }
{
    match foreign_kind(number) {
        Some(kind) => kind.width,
        None => 0,
    }
}

/// The place of a relocation: its field, with what its instruction has in front of it where it tells one.
pub fn place_of(entry: &Rela) -> FieldSpan
    ensures { (r : Relocation) → r.entry ≡ entry.now → result ≡ span_of r }
{
    let front = front_of(entry);
    FieldSpan {
        at: entry.r_offset - front as u64,
        width: front + width_of(entry.kind()),
    }
}

/// The place of a relocation of an object.
fn field_of(relocation: &KeptRelocation, loaded: &Loaded<'_>) -> SectionField
    ensures { (number : ℕ) → result
        ≡ field_of (relocation_at number (loaded_view loaded.now) relocation.now) }
{
    let _object = &loaded.object;
    SectionField {
        section: relocation.section,
        span: place_of(&relocation.entry),
    }
}

/// The fields of an object, as its relocations come.
fn collected(
    alloc: Global,
    number: u64,
    loaded: &Loaded<'_>,
) -> Result<Vec<SectionField>, AllocError>
    ensures { IfOk result (λ v. v.items
        ≡ map field_of (relocations_from number (loaded_view loaded.now))) }
{
    let mut row = Vec::new(alloc);
    for relocation in loaded.relocations() {
        row.push(field_of(&relocation, loaded))?;
    }
    Ok(row)
}

/// Fields by rising section.
fn by_section(row: Vec<SectionField>) -> Result<Vec<SectionField>, AllocError>
    ensures same { IfOk result (λ v. IsPermutation row.items v.items) }
    ensures rising { IfOk result (λ v. IsNonDecreasingBy (λ f. f.section) v.items) }
{
    let mut row = row;
    row.sort_by_key(|f| f.section)?;
    Ok(row)
}

/// The object that has a number.
fn object_at<'o, 'a>(objects: &'o [Loaded<'a>], number: u64) -> Option<&'o Loaded<'a>>
    ensures { option_map (λ o. loaded_view o.now) result ≡ slice_get (loaded_views objects.now) number }
{
    objects.get(number as usize)
}

/// The fields of the object that has a number; none where there is no such object, as of common blocks.
fn row_of(
    alloc: Global,
    objects: &[Loaded<'_>],
    number: u64,
) -> Result<Vec<SectionField>, AllocError>
    ensures { IfOk result (λ v. HasFields (loaded_views objects.now) number v.items) }
{
    match object_at(objects, number) {
        Some(loaded) => {
            let row = by_section(collected(alloc, number, loaded)?)?;
            Ok(row)
        }
        None => Ok(Vec::new(alloc)),
    }
}

/// The fields of the object that has a number.
pub fn fields_of_object(
    alloc: Global,
    objects: &[Loaded<'_>],
    number: u64,
) -> Result<ObjectFields, AllocError>
    ensures object { IfOk result (λ f. f.object ≡ number) }
    ensures row { IfOk result (λ f. HasFields (loaded_views objects.now) number f.row.items) }
{
    let row = row_of(alloc, objects, number)?;
    Ok(ObjectFields {
        object: number,
        row,
    })
}

/// The fields of the object that has a number, given those of one, which may be this one.
pub fn turned_to(
    alloc: Global,
    objects: &[Loaded<'_>],
    fields: ObjectFields,
    number: u64,
) -> Result<ObjectFields, AllocError>
    requires { HasFields (loaded_views objects.now) fields.object fields.row.items }
    ensures object { IfOk result (λ f. f.object ≡ number) }
    ensures row { IfOk result (λ f. HasFields (loaded_views objects.now) number f.row.items) }
{
    if fields.object == number {
        return Ok(fields);
    }
    fields_of_object(alloc, objects, number)
}

/// How many of the fields are of sections before one.
fn count_before(row: &[SectionField], section: u64) -> usize
    requires { IsNonDecreasingBy (λ f. f.section) row.now }
    ensures within { result ≤ length row.now }
    ensures before { (k : ℕ) (d : SectionField) →
        k < result → (slice_index_or row.now k d).section < section }
    ensures from { (k : ℕ) (d : SectionField) →
        result ≤ k → k < length row.now → section ≤ (slice_index_or row.now k d).section }
{
    row.partition_point(|f| (f.section as u64) < section)
}

/// How many of the fields are of sections up to one.
fn count_through(row: &[SectionField], section: u64) -> usize
    requires { IsNonDecreasingBy (λ f. f.section) row.now }
    ensures within { result ≤ length row.now }
    ensures through { (k : ℕ) (d : SectionField) →
        k < result → (slice_index_or row.now k d).section ≤ section }
    ensures behind { (k : ℕ) (d : SectionField) →
        result ≤ k → k < length row.now → section < (slice_index_or row.now k d).section }
{
    row.partition_point(|f| f.section as u64 <= section)
}

/// The spans of fields.
fn spans_in(alloc: Global, part: &[SectionField]) -> Result<Vec<FieldSpan>, AllocError>
    ensures { IfOk result (λ v. v.items ≡ map (λ f. f.span) part.now) }
{
    let mut spans = Vec::with_capacity(alloc, part.len())?;
    for field in part {
        spans.push(field.span)?;
    }
    Ok(spans)
}

/// The fields of a section among those of an object, which stand by section.
fn part_of(row: &[SectionField], section: u64) -> &[SectionField]
    requires { IsNonDecreasingBy (λ f. f.section) row.now }
    ensures { (k : ℕ) → IsBeside (map (λ f. f.span) result.now) k
        ↔ All (IsFieldOutside section k) row.entry.now }
{
    let (through, _later) = row.split_at(count_through(row, section));
    let (_earlier, part) = through.split_at(count_before(through, section));
    part
}

/// Fields by rising places.
fn by_place(spans: Vec<FieldSpan>) -> Result<Vec<FieldSpan>, AllocError>
    ensures same { IfOk result (λ v. IsPermutation spans.items v.items) }
    ensures rising { IfOk result (λ v. IsNonDecreasingBy (λ s. s.at) v.items) }
{
    let mut spans = spans;
    spans.sort_by_key(|s| s.at)?;
    Ok(spans)
}

/// The fields of a section of an object by rising places, given those of the object's sections. All sections of an object together
/// take time by the number of its relocations and its logarithm.
pub fn spans_of(
    alloc: Global,
    row: &[SectionField],
    section: u64,
) -> Result<Vec<FieldSpan>, AllocError>
    requires { IsNonDecreasingBy (λ f. f.section) row.now }
    ensures rising { IfOk result (λ v. IsNonDecreasingBy (λ s. s.at) v.items) }
    ensures beside { IfOk result (λ v. (k : ℕ) → IsBeside v.items k
        ↔ All (IsFieldOutside section k) row.now) }
{
    let spans = spans_in(alloc, part_of(row, section))?;
    let rising = by_place(spans)?;
    Ok(rising)
}
