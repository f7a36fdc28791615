//! The fields of entries in debug data, and their writing.
ghost use Rattle.std.specs.Prelude.{◌≡◌, ◌↔◌, ◌+◌, ◌*◌, ◌<◌, ◌≤◌, ◌∷◌, [], ℕ, IfSome, IsTrue, length, option_map, slice_index};
ghost use Rattle.reloc_values.specs.Kinds.{kind_view};
ghost use Rattle.debug_image.specs.DebugLayouts.{IsDataLayout, IsHere, data_in, object_here, placed_here, relocation_here};
ghost use Rattle.debug_image.specs.DebugValues as spec;
ghost use Rattle.debug_image.specs.DebugViews.{field_view};
ghost use Rattle.debug_image.specs.Lists.{some_list};

use crate::debug_values::{DataLayout, Here, debug_kind, wanted_value};
use elf_model::Rela;
use got_tls::Kind;
use relocate::fits;

/// So many bytes of a section from one on, the value that they get, and whether that is the one that is wanted.
#[derive(Clone, Copy, Debug)]
pub struct Field {
    pub at: usize,
    pub width: usize,
    pub value: u64,
    pub done: bool,
}

/// Whether a value fits the field of a kind.
fn is_in_range(kind: Kind, value: u64) -> bool
    ensures { result ≡ spec.is_in_range (kind_view kind).range (8 * kind.width) value }
{
    fits(kind, value)
}

/// Whether the field of a kind at an offset is inside a section of a size.
fn is_inside(offset: u64, kind: Kind, size: usize) -> bool
    ensures { IsTrue result ↔ (offset + kind.width ≤ size) }
{
    let width = kind.width as u64;
    offset <= size as u64 && width <= size as u64 - offset
}

/// The value that an entry of a kind wants, where it fits the field.
fn fitting_value(
    layout: &DataLayout<'_, '_>,
    here: &Here<'_, '_, '_>,
    kind: Kind,
    entry: &Rela,
) -> Option<u64>
    requires layout { IsDataLayout layout.now }
    requires here { IsHere layout.now here.now }
    ensures { result ≡ spec.fitting_value (data_in layout.now) (placed_here here.now)
        (relocation_here here.now entry.now) (kind_view kind) }
{
    let value = wanted_value(layout, here, kind, entry)?;
    if is_in_range(kind, value) {
        Some(value)
    } else {
        None
    }
}

/// The field of an entry of a kind, which is inside its section: of all ones where there is no value that fits.
fn field_with(kind: Kind, entry: &Rela, value: &Option<u64>) -> Field
    ensures { field_view result ≡ spec.field_with entry.now (kind_view kind) value.now }
{
    let (value, done) = match value {
        Some(value) => (*value, true),
        None => (u64::MAX, false),
    };
    Field {
        at: entry.r_offset as usize,
        width: kind.width as usize,
        value,
        done,
    }
}

/// The field of an entry of a kind; None where it isn't inside its section.
fn field_of(
    layout: &DataLayout<'_, '_>,
    here: &Here<'_, '_, '_>,
    kind: Kind,
    entry: &Rela,
) -> Option<Field>
    requires layout { IsDataLayout layout.now }
    requires here { IsHere layout.now here.now }
    requires narrow { kind.width ≤ 8 }
    ensures exact { option_map field_view result
        ≡ spec.field_of (data_in layout.now) (placed_here here.now)
        (relocation_here here.now entry.now) (kind_view kind) }
    ensures inside { IfSome result (λ f. f.at + f.width
        ≤ length here.now.place.now.piece.bytes.now) }
    ensures narrow { IfSome result (λ f. f.width ≤ 8) }
{
    let place = here.place;
    if !is_inside(entry.r_offset, kind, place.piece.bytes.len()) {
        return None;
    }
    Some(field_with(kind, entry, &fitting_value(layout, here, kind, entry)))
}

/// The field of an entry; None also where its type is none of a kind.
pub fn entry_field(
    layout: &DataLayout<'_, '_>,
    here: &Here<'_, '_, '_>,
    entry: &Rela,
) -> Option<Field>
    requires layout { IsDataLayout layout.now }
    requires here { IsHere layout.now here.now }
    ensures exact { option_map field_view result
        ≡ spec.entry_field (data_in layout.now) (placed_here here.now)
        (object_here here.now) entry.now }
    ensures inside { IfSome result (λ f. f.at + f.width
        ≤ length here.now.place.now.piece.bytes.now) }
    ensures narrow { IfSome result (λ f. f.width ≤ 8) }
{
    match debug_kind(entry.kind()) {
        Some(kind) => field_of(layout, here, kind, entry),
        None => None,
    }
}

/// Writes a value over the bytes of its field, which is inside, least significant byte first.
fn write(field: &Field, bytes: &mut [u8])
    requires inside { field.now.at + field.now.width ≤ length bytes.old }
    requires narrow { field.now.width ≤ 8 }
    ensures { (k : ℕ) → k < length bytes.old
        → slice_index bytes.new k
        ≡ spec.byte_under k (slice_index bytes.old k) (field_view field.now ∷ []) }
{
    let spelled = field.value.to_le_bytes();
    let (here, _) = spelled.split_at(field.width);
    bytes[field.at..field.at + field.width].copy_from_slice(here);
}

/// Does so where there is a field.
pub fn write_some(field: &Option<Field>, bytes: &mut [u8])
    requires inside { IfSome field.now (λ f. f.at + f.width ≤ length bytes.old) }
    requires narrow { IfSome field.now (λ f. f.width ≤ 8) }
    ensures { (k : ℕ) → k < length bytes.old
        → slice_index bytes.new k
        ≡ spec.byte_under k (slice_index bytes.old k)
        (some_list (option_map field_view field.now)) }
{
    if let Some(some) = field {
        write(some, bytes);
    }
}
