//! Which sections stay by their names, types and flags alone.
ghost use Rattle.std.specs.Prelude.{◌≡◌, ◌==◌, ◌&&◌, ◌||◌, not};
ghost use Rattle.std.specs.List.{list_any};
ghost use Rattle.elf_model.specs.Link.Pieces as pieces;
ghost use Rattle.elf_model.specs.Link.Pieces.{has_flag};
ghost use Rattle.judge_model.specs.Kept as kept;
ghost use Rattle.judge_model.specs.Kept.{root_names, shf_gnu_retain};

use check_link::is_gathered_by;
use elf_model::{
    SHT_FINI_ARRAY, SHT_INIT_ARRAY, SHT_NOBITS, SHT_NOTE, SHT_PREINIT_ARRAY, SHT_PROGBITS,
    SHT_X86_64_UNWIND, SectionHeader,
};

/// The flag of a section that stays whatever refers to it (SHF_GNU_RETAIN of GNU ld).
const SHF_GNU_RETAIN: u64 = 0x20_0000;

/// Whether a name is one of those that programs run or walk over.
pub fn is_root_name(name: &[u8]) -> bool
    ensures { result ≡ list_any (pieces.is_gathered_by name.now) root_names }
{
    is_gathered_by(name, b".init")
        || (is_gathered_by(name, b".fini")
            || (is_gathered_by(name, b".ctors")
                || (is_gathered_by(name, b".dtors")
                    || (is_gathered_by(name, b".init_array")
                        || (is_gathered_by(name, b".fini_array")
                            || (is_gathered_by(name, b".preinit_array")
                                || is_gathered_by(name, b".eh_frame")))))))
}

/// Whether a type is that of an array of functions.
fn is_array_type(number: u32) -> bool
    ensures { result ≡ kept.is_array_type number }
{
    number == SHT_INIT_ARRAY || (number == SHT_FINI_ARRAY || number == SHT_PREINIT_ARRAY)
}

/// Whether --gc-sections knows a type.
fn is_known_type(number: u32) -> bool
    ensures { result ≡ kept.is_known_type number }
{
    number == SHT_PROGBITS
        || (number == SHT_NOBITS
            || (number == SHT_NOTE || (number == SHT_X86_64_UNWIND || is_array_type(number))))
}

/// Whether a section stays by its type or its flags, where it is told whether it is in a group.
pub fn is_root_type(header: &SectionHeader, grouped: bool) -> bool
    ensures { result ≡ (kept.is_array_type header.now.sh_type
        || (has_flag shf_gnu_retain header.now
        || ((header.now.sh_type == 7 && not grouped)
        || not (kept.is_known_type header.now.sh_type)))) }
{
    is_array_type(header.sh_type)
        || (header.sh_flags & SHF_GNU_RETAIN != 0
            || ((header.sh_type == SHT_NOTE && !grouped) || !is_known_type(header.sh_type)))
}
