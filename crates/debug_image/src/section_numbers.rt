//! Which section of an image a section of an object belongs to, found by what its output section is.
ghost use Rattle.std.specs.Prelude.{◌≡◌, ◌<◌, ◌++◌, ◌∷◌, [], ℕ, IfOk, List, OnOk, length};
ghost use Rattle.placing.specs.Views.{piece_view};
ghost use Rattle.resolve.specs.OutputSections.{output_of, output_view};
ghost use Rattle.debug_image.specs.SectionNumbers.{AreFirsts, AreNumbers};
ghost use Rattle.debug_image.specs.Sections as spec;
ghost use Rattle.debug_image.specs.SectionViews.{section_view, section_views};

use crate::sections::{Section, blocks_number};
use elf_model::{Name, NameSeed};
use indexmap::IndexMap;
use layout::Piece;
use resolve::{OutputSection, output_name};
use std::alloc::{AllocError, Global};

/// For each output section the number of the first section of an image that is of it; and that of the common blocks.
#[derive(Drop)]
pub struct SectionNumbers<'a> {
    firsts: IndexMap<OutputSection<'a>, usize, NameSeed>,
    blocks: Option<usize>,
}

/// The output section of a piece.
fn output_of<'a>(piece: &Piece<'a>) -> OutputSection<'a>
    ensures { output_view result ≡ output_of (piece_view piece.now) }
{
    let header = &piece.header;
    OutputSection {
        name: Name(output_name(piece.name)),
        writable: header.is_writable(),
        executable: header.is_executable(),
        thread_local: header.is_thread_local(),
        nobits: header.is_nobits(),
    }
}

/// Adds the section that has a number, whose first piece is one of so many objects, where none of its output section is there.
fn add_first<'a>(
    firsts: &mut IndexMap<OutputSection<'a>, usize, NameSeed>,
    count: u64,
    number: usize,
    first: &Piece<'a>,
) -> Result<(), AllocError>
    ensures { OnOk result ((ss : List spec.Section) (s : spec.Section) →
        s.first.piece ≡ piece_view first.now → number ≡ length ss → AreFirsts count ss firsts.old
        → AreFirsts count (ss ++ s ∷ []) firsts.new) }
{
    if first.object >= count {
        return Ok(());
    }
    let output = output_of(first);
    if firsts.get(&output).is_some() {
        return Ok(());
    }
    firsts.insert(output, number)?;
    Ok(())
}

/// The first sections of output sections, among the sections of an image of so many objects.
fn firsts_of<'a>(
    alloc: Global,
    seed: NameSeed,
    count: u64,
    sections: &[Section<'a>],
) -> Result<IndexMap<OutputSection<'a>, usize, NameSeed>, AllocError>
    ensures { IfOk result (AreFirsts count (section_views sections.now)) }
{
    let mut firsts = IndexMap::with_hasher(alloc, seed);
    for (k, section) in sections.iter().enumerate() {
        add_first(&mut firsts, count, k, &section.first.piece)?;
    }
    Ok(firsts)
}

/// The numbers of the sections of an image of so many objects. Output sections are hashed from a seed.
pub fn section_numbers<'a>(
    alloc: Global,
    seed: NameSeed,
    count: u64,
    sections: &[Section<'a>],
) -> Result<SectionNumbers<'a>, AllocError>
    ensures { IfOk result (AreNumbers count (section_views sections.now)) }
{
    Ok(SectionNumbers {
        firsts: firsts_of(alloc, seed, count, sections)?,
        blocks: blocks_number(count, sections),
    })
}

impl<'a> SectionNumbers<'a> {
    /// The number of the first section that a section of an object is of.
    pub fn of(&self, piece: &Piece<'a>) -> Option<usize>
        ensures { (count : ℕ) (ss : List spec.Section) → AreNumbers count ss self.now
            → piece.now.object < count
            → result ≡ spec.section_number count ss (piece_view piece.now) }
    {
        self.firsts.get(&output_of(piece)).copied()
    }

    /// The number of the section of the common blocks.
    pub fn blocks(&self) -> Option<usize>
        ensures { result ≡ self.now.blocks }
    {
        self.blocks
    }
}
