//! What is kept of a loaded object, listed once when it is loaded: its sections, and the RELA sections of these.
ghost use Rattle.std.specs.Prelude.{◌≡◌, ◌++◌, ℕ, All, IfOk, OnOk, [], map, true};
ghost use Rattle.elf_model.specs.Link.Loading.{is_dropped};
ghost use Rattle.elf_model.specs.Inputs.ObjectFile.{sections};
ghost use Rattle.elf_model.specs.Link.Pieces.{is_kept, pieces_from};
ghost use Rattle.elf_model.specs.Link.Relocation.{is_kept_rela};
ghost use Rattle.check_load.specs.Kept.{IsKeptRela, IsKeptSection, kept_numbers, kept_relas, losing, number_if_kept, numbers_in, piece_at, rela_if_kept, relas_in};
ghost use Rattle.check_load.specs.Views.{loaded_view};

use crate::loaded::Loaded;
use crate::signatures::Dropped;
use elf_model::{SHT_RELA, SectionHeader};
use elf_read::ObjectFile;
use std::alloc::{AllocError, Global};

/// A kept RELA section of an object: its number, and that of the section that it relocates.
#[derive(Clone, Copy, Debug)]
pub struct KeptRela {
    pub number: u32,
    pub target: u32,
}

/// The numbers of an object's kept sections, and its kept RELA sections, both in order.
#[derive(Drop)]
pub struct KeptSections {
    pub numbers: Vec<u32>,
    pub relas: Vec<KeptRela>,
}

/// Whether a section, which has the header, of an object that loses these sections is kept: it has SHF_ALLOC, and isn't dropped.
fn is_kept(dropped: &Dropped, section: usize, header: &SectionHeader) -> bool
    ensures { result ≡ is_kept (losing dropped.now []) section header.now }
{
    header.is_alloc() && !dropped.has(section)
}

/// Whether a section, which has the header, of an object that loses these sections is a RELA section that isn't dropped and
/// relocates one that is kept.
fn is_kept_rela(
    object: &ObjectFile<'_>,
    dropped: &Dropped,
    section: usize,
    header: &SectionHeader,
) -> bool
    ensures value { result ≡ is_kept_rela (losing dropped.now object.now) section header.now }
    ensures rela { result ≡ true → header.now.sh_type ≡ 4 }
{
    if header.sh_type != SHT_RELA || dropped.has(section) {
        return false;
    }
    let target = header.sh_info as usize;
    is_kept(dropped, target, &object.section(target))
}

/// Adds a section, which has the header, of an object that loses these sections, where it is kept.
fn add_section(
    kept: &mut KeptSections,
    object: &ObjectFile<'_>,
    dropped: &Dropped,
    number: u32,
    header: &SectionHeader,
) -> Result<(), AllocError>
    ensures numbers { OnOk result (kept.new.numbers.items
        ≡ kept.old.numbers.items ++ number_if_kept dropped.now number header.now) }
    ensures relas { OnOk result (kept.new.relas.items
        ≡ kept.old.relas.items ++ rela_if_kept dropped.now object.now number header.now) }
{
    if is_kept(dropped, number as usize, header) {
        kept.numbers.push(number)?;
    }
    if is_kept_rela(object, dropped, number as usize, header) {
        kept.relas.push(KeptRela {
            number,
            target: header.sh_info,
        })?;
    }
    Ok(())
}

/// What is kept of an object that loses these sections.
pub fn kept_of(
    alloc: Global,
    object: &ObjectFile<'_>,
    dropped: &Dropped,
) -> Result<KeptSections, AllocError>
    ensures numbers { IfOk result (λ k. k.numbers.items ≡ numbers_in dropped.now object.now) }
    ensures relas { IfOk result (λ k. k.relas.items ≡ relas_in dropped.now object.now) }
{
    let _bytes = object.bytes();
    let headers = object.sections();
    let mut kept = KeptSections {
        numbers: Vec::new(alloc),
        relas: Vec::new(alloc),
    };
    for i in 0..headers.len() {
        let header = headers.at(i);
        add_section(&mut kept, object, dropped, i as u32, &header)?;
    }
    Ok(kept)
}

impl<'a> Loaded<'a> {
    /// Whether a section is dropped with its group. Takes the same time for each.
    pub fn is_dropped(&self, section: usize) -> bool
        ensures { result ≡ is_dropped (loaded_view self.now) section }
    {
        self.dropped.has(section)
    }

    /// Whether a section, which has the header, is kept: it has SHF_ALLOC, and isn't dropped.
    pub fn is_kept(&self, section: usize, header: &SectionHeader) -> bool
        ensures { result ≡ is_kept (loaded_view self.now) section header.now }
    {
        is_kept(&self.dropped, section, header)
    }

    /// Whether a section, which has the header, is a RELA section that isn't dropped and relocates one that is kept.
    pub fn is_kept_rela(&self, section: usize, header: &SectionHeader) -> bool
        ensures value { result ≡ is_kept_rela (loaded_view self.now) section header.now }
        ensures rela { result ≡ true → header.now.sh_type ≡ 4 }
    {
        is_kept_rela(&self.object, &self.dropped, section, header)
    }

    /// The numbers of its kept sections, in order.
    pub fn kept_sections(&self) -> &[u32]
        ensures exact { result.now ≡ kept_numbers (loaded_view self.now) }
        ensures kept { All (IsKeptSection (loaded_view self.now)) result.now }
        ensures pieces { (n : ℕ) → pieces_from n (loaded_view self.now) 0 (sections self.now.object)
            ≡ map (piece_at n (loaded_view self.now)) result.now }
    {
        self.kept.numbers.as_slice()
    }

    /// Its kept RELA sections, in order.
    pub fn kept_relas(&self) -> &[KeptRela]
        ensures exact { result.now ≡ kept_relas (loaded_view self.now) }
        ensures kept { All (IsKeptRela (loaded_view self.now)) result.now }
    {
        self.kept.relas.as_slice()
    }
}
