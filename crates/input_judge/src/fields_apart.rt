//! Whether no byte lies in the places of two relocations: their fields, with what an instruction has in front of one that linkers
//! may rewrite (AMD64 psABI 4.4, "Relocation Types"). Those of one section may stand in any order in their table, so they are put
//! in order.
ghost use Rattle.std.specs.Prelude.{◌≡◌, ◌↔◌, ◌++◌, ℕ, All, AllPairs, IfOk, IsPermutation, IsTrue, OnOk, filter};
ghost use Rattle.std.specs.List.{flat_map};
ghost use Rattle.check_load.specs.KeptRelocations.{relocation_at};
ghost use Rattle.check_load.specs.Views.{loaded_view, loaded_views};
ghost use Rattle.elf_model.specs.Link.Loading.{LoadedObject};
ghost use Rattle.elf_model.specs.Link.Relocation.{relocations, relocations_from};
ghost use Rattle.input_judge.specs.Apart.{AreApart, HasByte, IsBefore, IsOrdered, Rise, bytes_of_field, is_in_image};
ghost use Rattle.judge_model.specs.Fields.{AreFieldsApart};
ghost use Rattle.judge_model.specs.Links.{ForeignLink, objects_of, relocations_of};

use check_load::{KeptRelocation, Loaded};
use link_fields::{Drops, place_of};
use std::alloc::{AllocError, Global};

/// Bytes of a section that are a relocation's: its number, the first one, counted from its beginning, and how many they are.
#[derive(Clone, Copy, Debug)]
pub struct FieldBytes {
    pub at: u64,
    pub section: u32,
    pub width: u8,
}

/// Whether bytes end before others begin, or lie in an earlier section.
fn is_before(f: &FieldBytes, g: &FieldBytes) -> bool
    ensures { IsTrue result ↔ IsBefore f.now g.now }
{
    if f.section != g.section {
        return f.section < g.section;
    }
    f.at <= g.at && f.width as u64 <= g.at - f.at
}

/// Whether the bytes of each field end before those of the next one begin.
fn rise(fields: &[FieldBytes]) -> bool
    ensures { IsTrue result ↔ Rise fields.now }
{
    fields.windows(2).all(|w| is_before(&w[0], &w[1]))
}

/// Fields in the order of their sections and of their beginnings.
fn sorted(mut fields: Vec<FieldBytes>) -> Result<Vec<FieldBytes>, AllocError>
    ensures same { IfOk result (λ v. IsPermutation fields.items v.items) }
    ensures ordered { IfOk result (λ v. IsOrdered v.items) }
{
    fields.sort_by_key(|f| (f.section, f.at))?;
    Ok(fields)
}

/// Whether no byte lies in two fields. They mostly stand in order already.
fn are_apart(fields: Vec<FieldBytes>) -> Result<bool, AllocError>
    requires { All HasByte fields.items }
    ensures { IfOk result (λ b. IsTrue b ↔ AllPairs AreApart fields.items) }
{
    if rise(&fields) {
        return Ok(true);
    }
    let fields = sorted(fields)?;
    Ok(rise(&fields))
}

/// Puts the bytes of the place of a relocation of object `number` behind others, unless it has none or its section is left out.
fn add_field(
    fields: &mut Vec<FieldBytes>,
    drops: &Drops<'_>,
    number: u64,
    relocation: &KeptRelocation,
) -> Result<(), AllocError>
    ensures { (o : LoadedObject) → OnOk result (fields.new.items
        ≡ fields.old.items ++ bytes_of_field drops.now (relocation_at number o relocation.now)) }
{
    if drops.has(number, relocation.section as u64) {
        return Ok(());
    }
    let place = place_of(&relocation.entry);
    if place.width == 0 {
        return Ok(());
    }
    fields.push(FieldBytes {
        at: place.at,
        section: relocation.section,
        width: place.width,
    })?;
    Ok(())
}

/// The bytes of the places of object `number`, but for those of sections that are left out.
fn fields_of(
    alloc: Global,
    drops: &Drops<'_>,
    number: u64,
    loaded: &Loaded<'_>,
) -> Result<Vec<FieldBytes>, AllocError>
    ensures { IfOk result (λ v. v.items
        ≡ flat_map (bytes_of_field drops.now) (relocations_from number (loaded_view loaded.now))) }
{
    let mut fields = Vec::new(alloc);
    for relocation in loaded.relocations() {
        add_field(&mut fields, drops, number, &relocation)?;
    }
    Ok(fields)
}

/// Whether no byte lies in the places of two relocations of object `number`, but for those of sections that are left out.
fn are_own_apart(
    alloc: Global,
    drops: &Drops<'_>,
    number: u64,
    loaded: &Loaded<'_>,
) -> Result<bool, AllocError>
    ensures { IfOk result (λ b. IsTrue b ↔ AllPairs AreFieldsApart
        (filter (is_in_image drops.now) (relocations_from number (loaded_view loaded.now)))) }
{
    let fields = fields_of(alloc, drops, number, loaded)?;
    let apart = are_apart(fields)?;
    Ok(apart)
}

fn are_all_apart(
    alloc: Global,
    objects: &[Loaded<'_>],
    drops: &Drops<'_>,
) -> Result<bool, AllocError>
    ensures { IfOk result (λ b. IsTrue b ↔ AllPairs AreFieldsApart
        (filter (is_in_image drops.now) (relocations (loaded_views objects.now)))) }
{
    for k in 0..objects.len() {
        if !are_own_apart(alloc, drops, k as u64, &objects[k])? {
            return Ok(false);
        }
    }
    Ok(true)
}

/// Whether no byte lies in the places of two relocations of a link's objects, but for those of sections that are left out. It takes
/// the count of an object's relocations times its logarithm.
///
/// # Errors
///
/// Only where memory is refused.
pub fn are_fields_apart(
    alloc: Global,
    objects: &[Loaded<'_>],
    drops: &Drops<'_>,
) -> Result<bool, AllocError>
    ensures { (l : ForeignLink) → objects_of l ≡ loaded_views objects.now
        → l.certificate.drops ≡ drops.now
        → IfOk result (λ b. IsTrue b ↔ AllPairs AreFieldsApart (relocations_of l)) }
{
    let apart = are_all_apart(alloc, objects, drops)?;
    Ok(apart)
}
