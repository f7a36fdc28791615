//! Tables of call frames, which headers of a type of their own tell (LSB Core 10.6.2, PT_GNU_EH_FRAME).
ghost use Rattle.std.specs.Prelude.{◌≡◌};
ghost use Rattle.std.specs.List.{list_any};
ghost use Rattle.judge_model.specs.Headers.{is_of_type, pt_gnu_eh_frame, table_stretch};

use elf_model::ProgramHeader;
use judge_model::StretchLine;

const PT_GNU_EH_FRAME: u32 = 0x6474_e550;

/// Whether a header is that of a table of call frames.
pub fn is_frame_table(h: &ProgramHeader) -> bool
    ensures { result ≡ is_of_type pt_gnu_eh_frame h.now }
{
    h.p_type == PT_GNU_EH_FRAME
}

/// Whether one of some headers is.
pub fn has_frame_table(headers: &[ProgramHeader]) -> bool
    ensures { result ≡ list_any (is_of_type pt_gnu_eh_frame) headers.now }
{
    headers.iter().any(|h| is_frame_table(h))
}

/// Where a header says that its table is.
pub fn table_stretch(h: &ProgramHeader) -> StretchLine
    ensures { result ≡ table_stretch h.now }
{
    StretchLine {
        address: h.p_vaddr,
        size: h.p_memsz,
    }
}
