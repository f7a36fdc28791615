//! Whether the fields of relocations lie inside their sections (AMD64 psABI 4.4, "Relocation Types").
ghost use Rattle.std.specs.Prelude.{◌≡◌, ◌↔◌, ◌==◌, ◌+◌, ◌≤◌, ℕ, All, IsTrue, find, option_map, unwrap_or};
ghost use Rattle.check_load.specs.KeptRelocations.{relocation_at};
ghost use Rattle.check_load.specs.Views.{loaded_view, loaded_views};
ghost use Rattle.elf_model.specs.Link.Relocation.{relocations, relocations_from};
ghost use Rattle.input_judge.specs.Inside.{IsInsideUnlessOut};
ghost use Rattle.judge_model.specs.Fields.{IsInside, foreign_kinds};
ghost use Rattle.judge_model.specs.Links.{ForeignLink, objects_of, relocations_of};

use check_load::{KeptRelocation, Loaded};
use field_judge::foreign_kind;
use link_fields::Drops;

/// The width of the field of a type in bytes; 0 of one that isn't judged.
fn width_of(number: u32) -> u8
    ensures { result ≡ unwrap_or (option_map (λ k. k.width)
        (find (λ k. k.number == number) foreign_kinds)) 0 }
{
    match foreign_kind(number) {
        Some(kind) => kind.width,
        None => 0,
    }
}

/// Whether bytes lie below an end.
fn lies_below(offset: u64, width: u8, end: u64) -> bool
    ensures { IsTrue result ↔ (offset + width ≤ end) }
{
    offset <= end && width as u64 <= end - offset
}

/// Whether the field of a relocation lies inside its section.
fn is_inside(loaded: &Loaded<'_>, relocation: &KeptRelocation) -> bool
    ensures { (number : ℕ) → IsTrue result
        ↔ IsInside (relocation_at number (loaded_view loaded.now) relocation.now) }
{
    let section = loaded.object.section(relocation.section as usize);
    lies_below(
        relocation.entry.r_offset,
        width_of(relocation.entry.kind()),
        section.sh_size,
    )
}

/// Whether the field of a relocation of object `number` lies inside its section, or this is left out.
fn is_inside_unless_out(
    drops: &Drops<'_>,
    number: u64,
    loaded: &Loaded<'_>,
    relocation: &KeptRelocation,
) -> bool
    ensures { IsTrue result ↔ IsInsideUnlessOut drops.now
        (relocation_at number (loaded_view loaded.now) relocation.now) }
{
    if drops.has(number, relocation.section as u64) {
        return true;
    }
    is_inside(loaded, relocation)
}

/// Whether the fields of the relocations of object `number` lie inside their sections, but for those that are left out.
fn are_own_inside(drops: &Drops<'_>, number: u64, loaded: &Loaded<'_>) -> bool
    ensures { IsTrue result ↔ All (IsInsideUnlessOut drops.now)
        (relocations_from number (loaded_view loaded.now)) }
{
    for relocation in loaded.relocations() {
        if !is_inside_unless_out(drops, number, loaded, &relocation) {
            return false;
        }
    }
    true
}

fn are_all_inside(objects: &[Loaded<'_>], drops: &Drops<'_>) -> bool
    ensures { IsTrue result ↔ All (IsInsideUnlessOut drops.now)
        (relocations (loaded_views objects.now)) }
{
    for k in 0..objects.len() {
        if !are_own_inside(drops, k as u64, &objects[k]) {
            return false;
        }
    }
    true
}

/// Whether the fields of the relocations of a link's objects lie inside their sections, but for those of sections that are left out.
pub fn are_fields_inside(objects: &[Loaded<'_>], drops: &Drops<'_>) -> bool
    ensures { (l : ForeignLink) → objects_of l ≡ loaded_views objects.now
        → l.certificate.drops ≡ drops.now → IsTrue result ↔ All IsInside (relocations_of l) }
{
    are_all_inside(objects, drops)
}
