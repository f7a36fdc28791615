//! The thread pointer, and offsets from it (ELF Handling For Thread-Local Storage, variant II: the block lies below it).
ghost use Rattle.std.specs.Prelude.{◌≡◌, ◌%◌, ◌<◌, ◌^◌};
ghost use Rattle.elf_model.specs.Link.Relocation.{modulo_64};
ghost use Rattle.elf_model.specs.Link.ThreadStorage.{thread_offset};
ghost use Rattle.reloc_values.specs.ThreadOffsets.{thread_pointer};

use elf_model::TlsBlock;

/// The thread pointer of a block, modulo 2 ^ 64: the end of the block, with its size rounded up to its alignment.
#[tactic(auto, using(crate::proofs::Offsets::pointer_is))]
pub fn thread_pointer(block: TlsBlock) -> u64
    requires { 0 < block.align }
    ensures { result ≡ thread_pointer block % 2 ^ 64 }
{
    let padding = (block.align - block.size % block.align) % block.align;
    block.start.wrapping_add(block.size).wrapping_add(padding)
}

/// The offset of an address from the thread pointer, modulo 2 ^ 64. Offsets inside the block are negative.
#[tactic(auto, using(crate::proofs::Offsets::offset_is))]
pub fn tp_offset(block: TlsBlock, address: u64) -> u64
    requires { 0 < block.align }
    ensures { result ≡ modulo_64 (thread_offset block address) }
{
    address.wrapping_sub(thread_pointer(block))
}
