//! Relocation entries with addends (System V gABI 4, "Relocation"): the sections that hold them, and
//! their entries, which stay where they are in the file.
ghost use Rattle.std.specs.Prelude.{◌≡◌, ◌↔◌, ◌/◌, ◌+◌, ◌*◌, ◌<◌, ◌≤◌, ◌==◌, ◌^◌, [], IfOk, IsTrue, count_by, length, slice_index_or};
ghost use Rattle.byteview.specs.Numbers.{IsInside, part};
ghost use Rattle.elf_model.specs.Inputs.ObjectFile.{AreGoodRelaSections, AreGoodRelas, IsPlaced, IsRelaSection, LiesInside, MayBeRelocated, relas_of};
ghost use Rattle.elf_model.specs.Inputs.Records.{rela};
ghost use Rattle.std.specs.List.{All, slice_get};
ghost use Rattle.elf_read.specs.Reading.{HaveGoodEntries, null_rela};

use crate::run::Run;
use crate::sections::{links_to_symbols, section};
use byteview::View;
use elf_model::{
    RELA_SIZE, Rela, SHT_GROUP, SHT_NOBITS, SHT_NULL, SHT_REL, SHT_RELA, SHT_STRTAB, SHT_SYMTAB,
    SectionHeader,
};

/// The entries of a RELA section, where they are in the file.
pub type RelaRun<'a> = Run<'a, Rela>;

impl<'a> Run<'a, Rela> {
    /// The entries of a RELA section, which lies inside the file.
    pub fn of_section(file: &View<'a>, section: &SectionHeader) -> RelaRun<'a>
        requires { LiesInside (length file.now) section.now }
        ensures { result ≡ relas_of file.now section.now }
    {
        Run::new(
            file.bytes(),
            section.sh_offset as usize,
            section.sh_size as usize / RELA_SIZE,
        )
    }

    /// Whether each entry names one of `count` symbols.
    fn is_good(&self, count: usize) -> bool
        ensures { IsTrue result ↔ AreGoodRelas count self.now }
    {
        for i in 0..self.len() {
            if self.at(i).symbol() as usize >= count {
                return false;
            }
        }
        true
    }
}

/// Whether no section holds relocations without addends, and the headers of RELA sections are good.
pub fn are_good_rela_sections(sections: &[SectionHeader]) -> bool
    requires one { count_by (λ s. s.sh_type == 2) sections.now ≤ 1 }
    ensures { IsTrue result ↔ AreGoodRelaSections sections.now }
{
    if sections.iter().any(|section| section.sh_type == SHT_REL) {
        return false;
    }
    sections.iter().all(|section| section.sh_type != SHT_RELA || is_rela_section(sections, section))
}

/// Whether the header of a RELA section is a good one.
pub fn is_rela_section(sections: &[SectionHeader], relas: &SectionHeader) -> bool
    requires one { count_by (λ s. s.sh_type == 2) sections.now ≤ 1 }
    ensures { IsTrue result ↔ IsRelaSection sections.now relas.now }
{
    if relas.sh_entsize as usize != RELA_SIZE || relas.sh_size as usize % RELA_SIZE != 0 {
        return false;
    }
    links_to_symbols(sections, relas) && may_be_relocated(sections, relas.sh_info as usize)
}

fn may_be_relocated(sections: &[SectionHeader], number: usize) -> bool
    ensures { IsTrue result ↔ MayBeRelocated sections.now number }
{
    let kind = section(sections, number).sh_type;
    if number >= sections.len() || kind == SHT_NULL || kind == SHT_SYMTAB {
        return false;
    }
    if kind == SHT_STRTAB || kind == SHT_RELA {
        return false;
    }
    kind != SHT_NOBITS && kind != SHT_GROUP
}

/// Whether the entries of a section that lies inside the file name one of `count` symbols each, where
/// it is a RELA section.
fn has_good_entries(file: &View<'_>, section: &SectionHeader, count: usize) -> bool
    requires { IsPlaced (length file.now) section.now }
    ensures { IsTrue result ↔ (section.now.sh_type ≡ 4
        → AreGoodRelas count (relas_of file.now section.now)) }
{
    section.sh_type != SHT_RELA || RelaRun::of_section(file, section).is_good(count)
}

/// Whether each entry of all RELA sections names one of `count` symbols.
pub fn have_good_entries(file: &View<'_>, sections: &[SectionHeader], count: usize) -> bool
    requires { All (IsPlaced (length file.now)) sections.now }
    ensures { IsTrue result ↔ HaveGoodEntries count file.now sections.now }
{
    for section in sections {
        if !has_good_entries(file, section, count) {
            return false;
        }
    }
    true
}
