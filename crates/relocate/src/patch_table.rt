//! The patches of all objects by their sections, and their writing into the bytes of one.
ghost use Rattle.std.specs.Prelude.{◌≡◌, ◌≢◌, ◌+◌, ◌<◌, ◌≤◌, ℕ, IfOk, IsSome, find, length, map, slice_index};
ghost use Rattle.std.specs.List.{range_with_len, slice_get};
ghost use Rattle.elf_model.specs.Inputs.ObjectFile as object_file;
ghost use Rattle.elf_model.specs.Link.Pieces.{Piece};
ghost use Rattle.elf_model.specs.Link.Relocation.{is_in_field, relocations};
ghost use Rattle.elf_model.specs.Link.Resolution.{sections_of_object};
ghost use Rattle.elf_model.specs.Link.WantedBytes.{wanted_byte};
ghost use Rattle.reloc_values.specs.Patches.{IsRising};
ghost use Rattle.relocate.specs.Values.{ArePatches, HasFields, where_in, row_in};

use crate::object_rows::ObjectPatches;
use elf_model::SectionRef;
use layout::Placement;
use reloc_values::{Patch, ending_after, reaching, write_all};
use search::Loaded;
use std::alloc::AllocError;
use std::marker::Model;

/// The values that the kept relocations of what is loaded want where it is laid out, over their fields, by
/// their objects.
#[derive(Drop)]
pub struct Patches<'a> {
    base: u64,
    loaded: Loaded<'a>,
    rows: Vec<ObjectPatches>,
}

impl<'a> Model for Patches<'a> {
    ghost use Rattle.layout.specs.Placements.{Basis};
    ghost use Rattle.relocate.specs.Values.{ArePatches};

    ghost Value = { Basis };

    ghost view = { λ p. record { base = p.base; objects = p.loaded.objects } };

    ghost invariant = { λ p. ArePatches (record { base = p.base; objects = p.loaded.objects }) p.rows.items };
}

/// The patches of a section of an object, by their numbers; none where there is no such section.
fn row_in(rows: &[ObjectPatches], object: usize, section: usize) -> &[Patch]
    ensures { result.now ≡ row_in rows.entry.now object section }
{
    match rows.get(object) {
        Some(own) => own.row(section),
        None => &[],
    }
}

impl<'a> Patches<'a> {
    /// The patches of what is loaded and laid out, in their rows.
    pub(crate) fn new(
        loaded: &Loaded<'a>,
        placement: &Placement<'a>,
        rows: Vec<ObjectPatches>,
    ) -> Result<Patches<'a>, AllocError>
        requires placed { placement.now.objects ≡ loaded.now.objects }
        requires rows { ArePatches placement.now rows.items }
        ensures { IfOk result (λ p. p ≡ placement.now) }
    {
        Ok(Patches {
            base: placement.base(),
            loaded: loaded.clone()?,
            rows,
        })
    }
}

/// The patches of a section, in the order of their places.
fn row_of<'p>(patches: &'p Patches<'_>, section: SectionRef) -> &'p [Patch]
    ensures rising { IsRising result.now }
    ensures fields { HasFields patches.entry.now.objects
        (where_in patches.entry.now) section.object.0 section.section result.now }
{
    let object = section.object.0 as usize;
    row_in(&patches.rows, object, section.section as usize)
}

/// Writes the values into the input bytes of a section: each byte is then the wanted one. It takes no memory.
pub fn apply(patches: &Patches<'_>, section: SectionRef, bytes: &mut [u8])
    requires { length bytes.old
        ≡ (object_file.section
        (sections_of_object
        (slice_get patches.now.objects section.object.0)) section.section).sh_size }
    ensures { (p : Piece) → p.object ≡ section.object.0 → p.section ≡ section.section
        → p.bytes ≡ bytes.old
        → bytes.new ≡ map (wanted_byte patches.now.objects (where_in patches.now) p)
        (range_with_len 0 (length bytes.old)) }
{
    apply_part(patches, section, 0, bytes);
}

/// Writes the values into a part of the input bytes of a section, which begins at byte `from` of the section: each byte
/// is then the wanted one. It takes no memory, and of a section's relocations reads only those with a field in the
/// part, but for the steps of a bisection.
pub fn apply_part(patches: &Patches<'_>, section: SectionRef, from: u64, bytes: &mut [u8])
    ensures { (p : Piece) → p.object ≡ section.object.0 → p.section ≡ section.section
        → ((k : ℕ) → k < length bytes.old
        → slice_index bytes.old k ≡ slice_index p.bytes (from + k)) →
        bytes.new ≡ map (wanted_byte patches.now.objects (where_in patches.now) p)
        (range_with_len from (length bytes.old)) }
{
    let row = row_of(patches, section);
    write_all(reaching(row, from, bytes.len()), from, bytes);
}

/// The number of the first byte of a section, from byte `from` on, that lies in the field of a relocation; u64::MAX
/// where there is none. All bytes from `from` to before it are wanted as the input has them. It takes no memory.
pub fn next_field(patches: &Patches<'_>, section: SectionRef, from: u64) -> u64
    ensures from { from ≤ result }
    ensures untouched { (p : Piece) → p.object ≡ section.object.0 → p.section ≡ section.section
        → (k : ℕ) → from ≤ k → k < result
        → wanted_byte patches.now.objects (where_in patches.now) p k ≡ slice_index p.bytes k }
    ensures touched { result ≢ u64.MAX
        → IsSome (find (is_in_field section.object.0 section.section result)
        (relocations patches.now.objects)) }
{
    match ending_after(row_of(patches, section), from) {
        [] => u64::MAX,
        [patch, ..] => (patch.at as u64).max(from),
    }
}
