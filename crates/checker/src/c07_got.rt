//! C7: whether the global offset table stands where a relocation asks for one, with a slot for each request and no other.
ghost use Rattle.std.specs.Prelude.{◌≡◌, ◌↔◌, All, IfOk, IfSome, IsTrue, true};
ghost use Rattle.elf_model.specs.Image.RightLink.{Holds, HoldsBefore, HoldsGot, objects_of, where_of};
ghost use Rattle.checker.specs.Got.{HaveSlots, LiesInImage};
ghost use Rattle.check_relocs.specs.Needs.{AreNeeds};
ghost use Rattle.elf_model.specs.declared.verdict.Clause.TheVariants as clause;

use crate::c07_got::got_bytes::holds_got;
use check_relocs::{Bindings, Needs, needs_of};
use check_stages::BoundLink;
use std::alloc::{AllocError, Global};

mod got_bytes;

pub use got_bytes::wanted_bytes;

/// Whether the seventh clause holds of a link: the GOT stands exactly where a relocation asks for one, with one slot for
/// each request of a relocation and no other, and memory holds it.
pub fn holds(alloc: Global, bound: &BoundLink<'_, '_>) -> Result<bool, AllocError>
    requires { HoldsBefore clause.C7 bound.now }
    ensures { IfOk result (λ b. IsTrue b ↔ Holds clause.C7 bound.now) }
{
    let link = bound.link();
    let bindings = bound.bindings();
    let needs = needs_of(alloc, bindings)?;
    if link.map.got.is_some() != needs.got {
        return Ok(false);
    }
    if !are_slots_right(bindings, &needs) {
        return Ok(false);
    }
    let held = holds_if_there(alloc, bound)?;
    Ok(held)
}

/// Whether all marks are set.
fn are_set(marks: &[bool]) -> bool
    ensures { IsTrue result ↔ All (λ mark. mark ≡ true) marks.now }
{
    marks.iter().all(|mark| *mark)
}

/// Whether there is one slot for each request of the relocations, and no other.
fn are_slots_right(bindings: &Bindings<'_, '_, '_>, needs: &Needs) -> bool
    requires { AreNeeds bindings.now.objects bindings.now.places.slots needs.now }
    ensures { IsTrue result ↔ HaveSlots bindings.now.places.slots bindings.now.objects }
{
    if !bindings.slots().are_distinct() {
        return false;
    }
    if needs.unserved {
        return false;
    }
    are_set(&needs.asked)
}

/// Whether a GOT, if there is one, holds its slots.
fn holds_if_there(alloc: Global, bound: &BoundLink<'_, '_>) -> Result<bool, AllocError>
    requires { IfSome bound.now.map.got (LiesInImage bound.now.image) }
    ensures { IfOk result (λ b. IsTrue b
        ↔ IfSome bound.now.map.got
        (HoldsGot (objects_of bound.now) (where_of bound.now) bound.now.image)) }
{
    let link = bound.link();
    match &link.map.got {
        Some(got) => holds_got(alloc, bound, got),
        None => Ok(true),
    }
}
