//! C9 and C10, object by object. The fields of an object's relocations mostly rise, and are compared with memory as they come; else
//! they are listed, so that at most one object's fields take memory.
ghost use Rattle.std.specs.Prelude.{◌≡◌, ◌==◌, ◌+◌, ◌≤◌, ◌↔◌, IfOk, IfSome, IsSome, IsTrue, Some, length, slice_get};
ghost use Rattle.std.specs.List.{prefix_len};
ghost use Rattle.check_load.specs.Views.{loaded_view};
ghost use Rattle.check_link.specs.Views.{placed_views};
ghost use Rattle.check_relocs.specs.Fields.{AreRight};
ghost use Rattle.checker.specs.Comparing.{AreCompared, IsRowAt};
ghost use Rattle.elf_model.specs.Link.Relocation.{relocations_from};
ghost use Rattle.elf_model.specs.Image.RightLink.{Holds, HoldsBefore, objects_of, where_of};
ghost use Rattle.elf_model.specs.declared.verdict.Clause.TheVariants as clause;

use crate::c10_bytes::holds_own;
use crate::rising_fields::are_held_in_order;
use check_link::Placed;
use check_load::Loaded;
use check_relocs::{Field, own_row};
use check_stages::BoundLink;
use std::alloc::{AllocError, Global};

/// How far the pieces are compared: whether memory holds the wanted bytes of all so far, and the pieces that are left.
#[derive(Clone, Copy)]
pub struct Compared<'p, 'a> {
    held: bool,
    left: &'p [Placed<'a>],
}

/// How many of the first pieces are of object `number`.
fn own_count(left: &[Placed<'_>], number: u64) -> usize
    ensures count { result ≡ prefix_len (λ q. q.piece.object == number) left.now }
    ensures within { result ≤ length left.now }
{
    left.iter().take_while(|q| q.piece.object == number).count()
}

/// Compares the pieces of object `number`, which are the first of those that are left, given the row of its
/// fields.
fn compare_own<'p, 'a>(
    bound: &BoundLink<'_, '_>,
    number: u64,
    row: &[Field],
    so_far: Compared<'p, 'a>,
) -> Compared<'p, 'a>
    requires before { HoldsBefore clause.C9 bound.now }
    requires row { IsRowAt bound.now number row.now }
    requires so_far { AreCompared bound.now number so_far.held (placed_views so_far.left.now) }
    ensures { AreCompared bound.now (number + 1) result.held (placed_views result.left.now) }
{
    let (own, left) = so_far.left.split_at(own_count(so_far.left, number));
    let held = holds_own(bound, number, row, own);
    Compared {
        held: so_far.held & held,
        left,
    }
}

/// Compares the pieces of an object, which has the number, as far as its kept relocations are right; None where they aren't.
fn compare_object<'p, 'a>(
    alloc: Global,
    bound: &BoundLink<'_, 'a>,
    number: u64,
    loaded: &Loaded<'a>,
    so_far: Compared<'p, 'a>,
) -> Result<Option<Compared<'p, 'a>>, AllocError>
    requires before { HoldsBefore clause.C9 bound.now }
    requires there { slice_get (objects_of bound.now) number ≡ Some (loaded_view loaded.now) }
    requires so_far { AreCompared bound.now number so_far.held (placed_views so_far.left.now) }
    ensures right { IfOk result (λ o. IsSome o
        ↔ AreRight (objects_of bound.now) (where_of bound.now)
        (relocations_from number (loaded_view loaded.now))) }
    ensures compared { IfOk result (λ o. IfSome o (λ c.
        AreCompared bound.now (number + 1) c.held (placed_views c.left.now))) }
{
    let (own, left) = so_far.left.split_at(own_count(so_far.left, number));
    if are_held_in_order(alloc, bound, number, loaded, own)? {
        return Ok(Some(Compared {
            held: so_far.held,
            left,
        }));
    }
    let Some(row) = own_row(alloc, bound.bindings(), number, loaded)? else {
        return Ok(None);
    };
    Ok(Some(compare_own(bound, number, &row, so_far)))
}

/// Whether the tenth clause holds of a link; None where the ninth doesn't.
pub fn are_held(alloc: Global, bound: &BoundLink<'_, '_>) -> Result<Option<bool>, AllocError>
    requires { HoldsBefore clause.C9 bound.now }
    ensures ninth { IfOk result (λ o. IsSome o ↔ Holds clause.C9 bound.now) }
    ensures tenth { IfOk result (λ o. IfSome o (λ b. IsTrue b ↔ Holds clause.C10 bound.now)) }
{
    let objects = bound.bindings().objects();
    let mut compared = Compared {
        held: true,
        left: bound.placed(),
    };
    for k in 0..objects.len() {
        let Some(more) = compare_object(alloc, bound, k as u64, &objects[k], compared)? else {
            return Ok(None);
        };
        compared = more;
    }
    let whole = compare_own(bound, objects.len() as u64, &[], compared);
    Ok(Some(whole.held))
}
