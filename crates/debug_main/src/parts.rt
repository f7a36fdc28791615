//! What an image for tools is made of.
ghost use Rattle.std.specs.Prelude.{◌≡◌, ◌≢◌, true, false, IfErr, IfOk, OnOk};
ghost use Rattle.debug_image.specs.DebugImage.{CanBeSaid};
ghost use Rattle.debug_main.specs.DebugFiles.{AreParts};
ghost use Rattle.debug_main.specs.Verdicts.{is_memory};
ghost use Rattle.ld_main.specs.Program.{error_status};
ghost use Rattle.debug_image.specs.declared.faults.DebugFault.TheVariants as debug_fault;
ghost use Rattle.resolve.specs.Views.{meaning_views};

use debug_image::{DebugFault, DebugParts, Wanted, debug_parts};
use elf_model::LinkError;
use image_write::{Linkage, Listed};
use resolve::{Definition, Resolved};
use std::alloc::Global;

/// The resolved names of a link whose image has no symbol table.
pub fn resolved_of<'l, 'a>(linkage: &'l Linkage<'a>) -> &'l Resolved<'a>
    requires { linkage.now.plan.strip ≡ true }
    ensures { result.now ≡ linkage.now.objects }
{
    let parts = linkage.parts();
    match &parts.listed {
        Listed::Unlisted(resolved, _) => resolved,
        Listed::InOrder(_, _) => unreachable!(),
    }
}

/// The error of a link for which no image for tools can be made.
fn error_of(fault: DebugFault) -> LinkError
    ensures status { error_status result ≢ 2 }
    ensures large { is_memory result ≡ false → fault ≡ debug_fault.TooLarge }
{
    match fault {
        DebugFault::Memory => LinkError::Memory,
        DebugFault::TooLarge => LinkError::TooLarge,
    }
}

/// The parts of the image for tools of a link.
///
/// # Errors
///
/// TooLarge where its numbers can't be said; Memory.
pub fn made<'a>(
    alloc: Global,
    linkage: &Linkage<'a>,
    names: &[Definition<'a>],
    wanted: Wanted,
) -> Result<DebugParts<'a>, LinkError>
    ensures parts { IfOk result (AreParts linkage.now (meaning_views names.now) wanted) }
    ensures said { OnOk result (CanBeSaid wanted linkage.now (meaning_views names.now)) }
    ensures status { IfErr result (λ e. error_status e ≢ 2) }
    ensures large { IfErr result (λ e. is_memory e ≡ false
        → ¬ CanBeSaid wanted linkage.now (meaning_views names.now)) }
{
    match debug_parts(alloc, linkage, names, wanted) {
        Ok(parts) => Ok(parts),
        Err(fault) => Err(error_of(fault)),
    }
}
