//! In how many fields each byte of a section lies: in none, in one, or in more.
ghost use Rattle.std.specs.Prelude.{◌≡◌, ◌+◌, ◌<◌, ◌≤◌, ◌∷◌, [], ℕ, IfSome, length, option_map, slice_index};
ghost use Rattle.debug_image.specs.DebugViews.{field_view};
ghost use Rattle.debug_image.specs.Lists.{some_list};
ghost use Rattle.debug_image.specs.Marks as spec;

use crate::fields::Field;

/// A mark for one field more.
fn one_more(mark: u8) -> u8
    ensures { result ≡ spec.one_more mark }
{
    if mark == 0 { 1 } else { 2 }
}

/// Marks the bytes of a field, which is inside.
fn mark(field: &Field, marks: &mut [u8])
    requires { field.now.at + field.now.width ≤ length marks.old }
    ensures { (k : ℕ) → k < length marks.old
        → slice_index marks.new k
        ≡ spec.mark_under k (slice_index marks.old k) (field_view field.now ∷ []) }
{
    let start = field.at;
    for i in 0..field.width {
        marks[start + i] = one_more(marks[start + i]);
    }
}

/// Does so where there is a field.
pub fn mark_some(field: &Option<Field>, marks: &mut [u8])
    requires { IfSome field.now (λ f. f.at + f.width ≤ length marks.old) }
    ensures { (k : ℕ) → k < length marks.old
        → slice_index marks.new k
        ≡ spec.mark_under k (slice_index marks.old k)
        (some_list (option_map field_view field.now)) }
{
    if let Some(some) = field {
        mark(some, marks);
    }
}

/// Whether a byte lies in two fields.
pub fn has_twice(marks: &[u8]) -> bool
    ensures { result ≡ spec.has_twice marks.now }
{
    marks.iter().any(|mark| *mark >= 2)
}
