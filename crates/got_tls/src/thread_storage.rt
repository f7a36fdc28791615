//! The block of thread-local storage.
ghost use Rattle.std.specs.Prelude.{◌≡◌, ◌<◌, IfSome};
ghost use Rattle.elf_model.specs.Own.OwnLayout.{own_in_load_order, own_placed};
ghost use Rattle.elf_model.specs.Link.Pieces.{AreLawfulKinds};
ghost use Rattle.elf_model.specs.Link.ThreadStorage.{thread_block};
ghost use Rattle.got_tls.specs.ThreadStorage.{EndsLow, IsAligned, IsBlockOf, thread_places};

use elf_model::TlsBlock;
use layout::Placement;

/// The block of the pieces with SHF_TLS, which each thread gets a copy of: from their least address to their greatest
/// end, with their greatest alignment. None where there are no such pieces.
#[tactic(auto, using(crate::proofs::Blocks::own_block_law, crate::proofs::Blocks::block_some, crate::proofs::Blocks::block_low, crate::proofs::Blocks::block_aligned))]
pub fn tls_block(placement: &Placement<'_>) -> Option<TlsBlock>
    ensures block { result ≡ thread_block (own_placed placement.now.base placement.now.objects) }
    ensures listed { AreLawfulKinds placement.now.objects
        → result ≡ thread_block (own_in_load_order placement.now.base placement.now.objects) }
    ensures law { IfSome result (IsBlockOf
        (thread_places (own_placed placement.now.base placement.now.objects))) }
    ensures some { IfSome result (λ b. 0 < b.align) }
    ensures low { IfSome result EndsLow }
    ensures aligned { IfSome result IsAligned }
{
    placement.thread_block()
}
