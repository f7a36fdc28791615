//! The GOT that the kept relocations of loaded objects ask for.
ghost use Rattle.std.specs.Prelude.{◌≡◌, IfOk};
ghost use Rattle.elf_model.specs.Link.Relocation.{relocations};
ghost use Rattle.elf_model.specs.Link.Slots as wanted;
ghost use Rattle.got_tls.specs.Asking.{nothing, with_relocations};
ghost use Rattle.got_tls.specs.AskedViews.{wants};

use crate::asked_slots::{Asked, asked_by};
use crate::slot_table::Slots;
use resolve::Resolved;
use search::Loaded;
use std::alloc::{AllocError, Global};

/// The GOT that was asked for, once the kept relocations of all that is loaded are taken in, in load order.
///
/// # Errors
///
/// Only where memory is refused.
#[tactic(auto, using(crate::proofs::AskedOnce::objects_are, crate::proofs::AskedOnce::slots_are, crate::proofs::AskedOnce::got_is))]
pub fn slots_asked<'a>(loaded: &Loaded<'a>, asked: Asked<'a>) -> Result<Slots<'a>, AllocError>
    requires { wants asked
        ≡ with_relocations loaded.now.objects (nothing loaded.now.objects)
        (relocations loaded.now.objects) }
    ensures objects { IfOk result (λ s. s.objects ≡ loaded.now.objects) }
    ensures slots { IfOk result (λ s. s.slots ≡ wanted.slots loaded.now.objects) }
    ensures size { IfOk result (λ s. s.got ≡ wanted.got_size loaded.now.objects) }
{
    let _loaded = loaded;
    Slots::new(asked)
}

/// The GOT's size and its slots: those that the kept relocations of the objects ask for, each once, in the order of first
/// request by load order.
///
/// # Errors
///
/// Only where memory is refused.
pub fn slots<'a>(
    alloc: Global,
    loaded: &Loaded<'a>,
    resolved: &Resolved<'a>,
) -> Result<Slots<'a>, AllocError>
    requires { resolved.now ≡ loaded.now.objects }
    ensures objects { IfOk result (λ s. s.objects ≡ loaded.now.objects) }
    ensures slots { IfOk result (λ s. s.slots ≡ wanted.slots loaded.now.objects) }
    ensures size { IfOk result (λ s. s.got ≡ wanted.got_size loaded.now.objects) }
{
    let asked = asked_by(alloc, loaded, resolved)?;
    slots_asked(loaded, asked)
}
