//! The thread pointer of an image (ELF Handling For Thread-Local Storage, variant II).
ghost use Rattle.std.specs.Prelude.{◌≡◌, ◌%◌, ◌^◌, ◌+◌};
ghost use Rattle.std.specs.List.{slice_get};
ghost use Rattle.elf_model.specs.Image.MemoryImage.{thread_blocks};
ghost use Rattle.elf_model.specs.Link.Placement.{round_up};
ghost use Rattle.judge_model.specs.ThreadBlocks.{thread_pointer};

use elf_model::ProgramHeader;
use foreign_image::ForeignImage;

/// The end of a block, rounded up to its alignment, modulo 2^64.
fn rounded_end(h: &ProgramHeader) -> u64
    ensures { result ≡ round_up h.now.p_align (h.now.p_vaddr + h.now.p_memsz) % 2 ^ 64 }
{
    if h.p_align == 0 {
        return 0;
    }
    let align = h.p_align as u128;
    let end = h.p_vaddr as u128 + h.p_memsz as u128;
    ((end + (align - 1)) / align * align % 0x1_0000_0000_0000_0000) as u64
}

/// The thread pointer modulo 2^64, less which addresses of thread-local storage count; 0 without PT_TLS.
pub fn thread_pointer(image: &ForeignImage<'_>) -> u64
    ensures { result ≡ thread_pointer (slice_get (thread_blocks image.now) 0) % 2 ^ 64 }
{
    match image.thread_blocks().first() {
        Some(h) => rounded_end(h),
        None => 0,
    }
}
