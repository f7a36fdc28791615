//! C4: maps the image as a loader does.
ghost use Rattle.std.specs.Prelude.{◌≡◌, ◌↔◌, IfOk, IfSome, IsSome, IsTrue};
ghost use Rattle.elf_model.specs.Image.RightLink.{Holds};
ghost use Rattle.elf_model.specs.declared.verdict.Clause.TheVariants as clause;

use byteview::View;
use check_link::Link;
use elf_model::LoadFault;
use loader_model::Memory;
use std::alloc::{AllocError, Global};

fn is_memory(fault: LoadFault) -> bool
    ensures { IsTrue result ↔ (fault ≡ LoadFault.Memory) }
{
    matches!(fault, LoadFault::Memory)
}

/// What the image of a link has in memory; None where a loader of this profile maps it not: the fourth clause.
pub fn load<'a>(alloc: Global, link: &Link<'a>) -> Result<Option<Memory<'a>>, AllocError>
    ensures exact { IfOk result (λ o. IfSome o (λ m. m ≡ link.entry.now.image)) }
    ensures image { IfOk result (λ o. IsSome o ↔ Holds clause.C4 link.entry.now) }
{
    match Memory::load(alloc, View::new(link.image)) {
        Ok(memory) => Ok(Some(memory)),
        Err(fault) => {
            if is_memory(fault) {
                return Err(AllocError);
            }
            Ok(None)
        }
    }
}
