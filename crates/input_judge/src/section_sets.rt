//! Sets of sections, by the numbers of their objects and their own: those that relocations change, those that have lines.
ghost use Rattle.std.specs.Prelude.{◌≡◌, ◌||◌, ℕ, IfOk, OnOk, false, map};
ghost use Rattle.std.specs.List.{list_any};
ghost use Rattle.check_load.specs.Awake.{is_place};
ghost use Rattle.check_load.specs.Views.{loaded_view, loaded_views};
ghost use Rattle.elf_model.specs.Image.MapRecord.{place_row};
ghost use Rattle.elf_model.specs.Link.Relocation.{relocations, relocations_from};
ghost use Rattle.input_judge.specs.SectionSets.{has_section, is_in};
ghost use Rattle.judge_model.specs.Certificates.{has_place};

use check_load::Loaded;
use elf_model::PlaceLine;
use std::alloc::{AllocError, Global};
use std::collections::BTreeSet;

/// Sections, by the numbers of their objects and their own.
#[derive(Drop)]
pub struct SectionSet {
    sections: BTreeSet<(u64, u64)>,
}

/// Adds the sections that the relocations of object `number` change.
fn add_relocated(set: &mut SectionSet, number: u64, loaded: &Loaded<'_>) -> Result<(), AllocError>
    ensures { OnOk result ((o n : ℕ) → has_section set.new o n
        ≡ (list_any (is_in o n) (relocations_from number (loaded_view loaded.now))
        || has_section set.old o n)) }
{
    for relocation in loaded.relocations() {
        set.add((number, relocation.section as u64))?;
    }
    Ok(())
}

impl SectionSet {
    /// No sections. Takes no memory.
    #[tactic(auto, unfolding(crate::specs::SectionSets::has_section))]
    fn new(alloc: Global) -> SectionSet
        ensures { (o n : ℕ) → has_section result o n ≡ false }
    {
        SectionSet {
            sections: BTreeSet::new(alloc),
        }
    }

    fn add(&mut self, section: (u64, u64)) -> Result<(), AllocError>
        ensures { OnOk result ((o n : ℕ) →
            has_section self.new o n ≡ (is_place o n section || has_section self.old o n)) }
    {
        self.sections.insert(section)?;
        Ok(())
    }

    /// The sections that relocations change.
    pub fn of_relocations(alloc: Global, objects: &[Loaded<'_>]) -> Result<SectionSet, AllocError>
        ensures { IfOk result (λ s. (o n : ℕ) → has_section s o n
            ≡ list_any (is_in o n) (relocations (loaded_views objects.now))) }
    {
        let mut set = SectionSet::new(alloc);
        for k in 0..objects.len() {
            add_relocated(&mut set, k as u64, &objects[k])?;
        }
        Ok(set)
    }

    /// The sections that have place lines.
    pub fn of_places(alloc: Global, places: &[PlaceLine]) -> Result<SectionSet, AllocError>
        ensures { IfOk result (λ s. (o n : ℕ) → has_section s o n
            ≡ has_place (map place_row places.now) o n) }
    {
        let mut set = SectionSet::new(alloc);
        for place in places {
            set.add((place.object, place.section))?;
        }
        Ok(set)
    }

    /// Whether a section is one of them.
    #[tactic(auto, unfolding(crate::specs::SectionSets::has_section))]
    pub fn has(&self, object: u64, section: u64) -> bool
        ensures { result ≡ has_section self.now object section }
    {
        self.sections.contains(&(object, section))
    }
}
