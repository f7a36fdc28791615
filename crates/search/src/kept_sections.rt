//! What a loaded object keeps: sections with SHF_ALLOC that aren't dropped with their groups, and the relocations of
//! these.
ghost use Rattle.std.specs.Prelude.{◌≡◌, ℕ, All, Some, map};
ghost use Rattle.std.specs.List.{slice_get};
ghost use Rattle.elf_model.specs.Link.Loading.{is_dropped};
ghost use Rattle.elf_model.specs.Inputs.ObjectFile.{relas_of, section, sections};
ghost use Rattle.elf_model.specs.Link.Pieces.{is_kept, pieces_from};
ghost use Rattle.elf_model.specs.Link.Relocation.{is_kept_rela, relocation_of, relocations_from};
ghost use Rattle.search.specs.KeptLists.{IsKeptRela, IsKeptSection, kept_numbers, kept_relas, pieces_at, relocations_by, relocations_of_relas};
ghost use Rattle.search.specs.Views.{loaded_view};

use crate::kept_entries::KeptEntries;
use crate::kept_lists::{KeptRela, is_kept, is_kept_rela};
use crate::loaded::LoadedObject;
use elf_model::SectionHeader;
use elf_read::RelaRun;

impl<'a> LoadedObject<'a> {
    /// Whether a section is dropped with its group, by its number.
    pub fn is_dropped(&self, number: usize) -> bool
        ensures { result ≡ is_dropped (loaded_view self.now) number }
    {
        self.dropped.has(number)
    }

    /// Whether a section, which has the header, is kept: it has SHF_ALLOC, and isn't dropped.
    pub fn is_kept(&self, number: usize, header: &SectionHeader) -> bool
        ensures { result ≡ is_kept (loaded_view self.now) number header.now }
    {
        is_kept(&self.dropped, number, header)
    }

    /// Whether a section, which has the header, holds relocations that are kept: a RELA section that isn't dropped
    /// and relocates a kept one.
    pub fn is_kept_rela(&self, number: usize, header: &SectionHeader) -> bool
        ensures { result ≡ is_kept_rela (loaded_view self.now) number header.now }
    {
        is_kept_rela(&self.object, &self.dropped, number, header)
    }

    /// The numbers of its kept sections, ascending.
    pub fn kept_sections(&self) -> &[u32]
        ensures exact { result.now ≡ kept_numbers (loaded_view self.now) }
        ensures kept { All (IsKeptSection (loaded_view self.now)) result.now }
        ensures pieces { (n : ℕ) → pieces_from n (loaded_view self.now) 0 (sections self.now.object)
            ≡ pieces_at n (loaded_view self.now) result.now }
    {
        self.kept.sections.as_slice()
    }

    /// Its kept RELA sections, by their numbers.
    pub fn kept_relas(&self) -> &[KeptRela]
        ensures exact { result.now ≡ kept_relas (loaded_view self.now) }
        ensures kept { All (IsKeptRela (loaded_view self.now)) result.now }
        ensures relocations { (n : ℕ) → relocations_from n (loaded_view self.now)
            ≡ relocations_of_relas n (loaded_view self.now) result.now }
    {
        self.kept.relas.as_slice()
    }

    /// The entries of a kept RELA section, also those of type NONE.
    pub fn all_entries(&self, rela: KeptRela) -> RelaRun<'a>
        requires { IsKeptRela (loaded_view self.now) rela }
        ensures { result ≡ relas_of self.now.object (section (sections self.now.object) rela.number) }
    {
        self.object.entries(rela.number as usize)
    }

    /// The entries of a kept RELA section, in order, but for those of type NONE: what it tells of kept relocations.
    pub fn kept_entries(&self, rela: KeptRela) -> KeptEntries<'a>
        requires { IsKeptRela (loaded_view self.now) rela }
        ensures { (n : ℕ) → map (relocation_of n (loaded_view self.now) rela.target) result
            ≡ relocations_by n (loaded_view self.now) rela }
    {
        KeptEntries::of(self.all_entries(rela))
    }

    /// The entries of RELA section `i`, which has the header.
    pub fn entries_of(&self, i: usize, header: &SectionHeader) -> RelaRun<'a>
        requires there { slice_get (sections self.now.object) i ≡ Some header.now }
        requires rela { header.now.sh_type ≡ 4 }
        ensures { result ≡ relas_of self.now.object header.now }
    {
        match self.object.relas(i) {
            Some(entries) => entries,
            None => RelaRun::none(),
        }
    }
}
