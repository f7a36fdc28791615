//! Whether the headers of an image are right.
ghost use Rattle.std.specs.Prelude.{◌↔◌, All, IsTrue};
ghost use Rattle.check_link.specs.Views.{placed_views};
ghost use Rattle.check_load.specs.Views.{loaded_views};
ghost use Rattle.judge_model.specs.Links.{ForeignLink};
ghost use Rattle.judge_model.specs.RightForeign.{Holds};
ghost use Rattle.judge_model.specs.declared.judgement.Requirement.TheVariants as requirement;
ghost use Rattle.header_judge.specs.Rights.{AreRightBy, HasPhysical, IsOfLink};

use crate::protected::do_all_spare;
use crate::stack::{are_stacks, are_stacks_told, may_execute, must_execute};
use check_link::Placed;
use check_load::Loaded;
use elf_model::ProgramHeader;
use foreign_image::ForeignImage;

fn has_physical(physical: bool, h: &ProgramHeader) -> bool
    ensures { IsTrue result ↔ HasPhysical physical h.now }
{
    h.p_paddr == h.p_vaddr || physical
}

/// Whether the physical addresses are the virtual ones, where no script says others.
fn are_physical(physical: bool, headers: &[ProgramHeader]) -> bool
    ensures { IsTrue result ↔ All (HasPhysical physical) headers.now }
{
    headers.iter().all(|h| has_physical(physical, h))
}

/// Whether the headers are right of placed things, where the stack must be executed or not, and may be or not.
fn are_right_by(
    image: &ForeignImage<'_>,
    physical: bool,
    must: bool,
    may: bool,
    placed: &[Placed<'_>],
) -> bool
    ensures { IsTrue result ↔ AreRightBy image.now physical must may (placed_views placed.now) }
{
    let _program = image.image();
    let headers = image.headers();
    if !are_physical(physical, headers) {
        return false;
    }
    if !are_stacks(may, headers) {
        return false;
    }
    if !are_stacks_told(must, may, headers) {
        return false;
    }
    do_all_spare(placed, headers)
}

/// Whether the headers of a link's image, which is a program, give it no more than the link does: physical addresses are
/// the virtual ones, unless the script has AT (`physical`); PT_GNU_RELRO makes nothing read-only that the program may
/// execute or write; and the stack may be executed only where the words ask for it (`executes`), or they say nothing of it and an
/// object asks: by the flags of its `.note.GNU-stack`, or by having none. And they make the stack executable where the words ask
/// for it, or say nothing of it and the note of an object does; where it may not be executed PT_GNU_STACK is there.
pub fn are_headers_right(
    image: &ForeignImage<'_>,
    objects: &[Loaded<'_>],
    placed: &[Placed<'_>],
    physical: bool,
    executes: Option<bool>,
) -> bool
    ensures { (l : ForeignLink)
        → IsOfLink l image.now (loaded_views objects.now) (placed_views placed.now) physical executes
        → IsTrue result ↔ Holds requirement.F12 l }
{
    let must = must_execute(executes, objects);
    let may = may_execute(executes, objects);
    are_right_by(image, physical, must, may, placed)
}
