//! Whether sections are in an image, by their numbers.
ghost use Rattle.std.specs.Prelude.{◌≡◌};
ghost use Rattle.elf_model.specs.Link.Pieces.{has_flag};
ghost use Rattle.check_load.specs.Views.{loaded_view};
ghost use Rattle.judge_model.specs.Kept.{shf_exclude};
ghost use Rattle.keep_judge.specs.Collected.{is_there, presence};

use check_load::Loaded;
use elf_model::SectionHeader;
use link_fields::Drops;

/// The flag of a section that is in no image (SHF_EXCLUDE of GNU ld).
const SHF_EXCLUDE: u64 = 0x8000_0000;

/// Whether no image has a section with a header.
pub fn is_never_there(header: &SectionHeader) -> bool
    ensures { result ≡ has_flag shf_exclude header.now }
{
    header.sh_flags & SHF_EXCLUDE != 0
}

/// Whether the image has a section of object `number`; None where COMDAT groups don't leave it, or no image has it.
pub fn presence(drops: &Drops<'_>, number: u64, loaded: &Loaded<'_>, section: u32) -> Option<bool>
    ensures { result ≡ presence drops.now number (loaded_view loaded.now) section }
{
    let header = loaded.object.section(section as usize);
    if !loaded.is_kept(section as usize, &header) || is_never_there(&header) {
        return None;
    }
    Some(!drops.has(number, section as u64))
}

/// Whether the image has a section of object `number`.
pub fn is_there(drops: &Drops<'_>, number: u64, loaded: &Loaded<'_>, section: u32) -> bool
    ensures { result ≡ is_there drops.now number (loaded_view loaded.now) section }
{
    let header = loaded.object.section(section as usize);
    loaded.is_kept(section as usize, &header) && !drops.has(number, section as u64)
}
