//! Where the thread pointer stands in a layout, and offsets from it (ELF Handling For Thread-Local Storage, variant II).
ghost use Rattle.std.specs.Prelude.{◌≡◌, ◌%◌, ◌^◌, ◌-ℤ◌, ℕ, pos};
ghost use Rattle.elf_model.specs.Link.Pieces.{AreLawfulKinds};
ghost use Rattle.elf_model.specs.Link.Relocation.{modulo_64};
ghost use Rattle.relocate.specs.Values.{pointer_in, where_in};

use got_tls::{thread_pointer, tls_block};
use layout::Placement;

/// The thread pointer where objects are laid out, modulo 2 to the 64; 0 without thread-local storage.
pub fn pointer_of(placement: &Placement<'_>) -> u64
    requires { AreLawfulKinds placement.now.objects }
    ensures { result ≡ pointer_in (where_in placement.now) }
{
    match tls_block(placement) {
        Some(block) => thread_pointer(block),
        None => 0,
    }
}

/// The offset of an address from the thread pointer, both modulo 2 to the 64.
#[tactic(auto, using(reloc_values::proofs::Offsets::offset_of_rest))]
pub fn offset_from(pointer: u64, address: u64) -> u64
    ensures { (a p : ℕ) → address ≡ a % 2 ^ 64 → pointer ≡ p % 2 ^ 64
        → result ≡ modulo_64 (pos a -ℤ pos p) }
{
    address.wrapping_sub(pointer)
}
