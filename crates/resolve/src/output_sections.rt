//! The output sections of the kept sections of all objects, by first appearance, and which one each kept section is of: a
//! name is read and looked up once a section, and is a number after that.
ghost use Rattle.std.specs.Prelude.{◌≡◌, ◌++◌, ◌∷◌, [], List, IfOk, OnOk, unwrap_or};
ghost use Rattle.elf_model.specs.Inputs.ObjectFile.{section_name, sections};
ghost use Rattle.elf_model.specs.Link.Pieces as pieces;
ghost use Rattle.elf_model.specs.Link.Pieces.{Piece};
ghost use Rattle.search.specs.Views.{loaded_view, loaded_views};
ghost use Rattle.search.specs.KeptLists.{piece_at};
ghost use Rattle.resolve.specs.OutputSections.{AreOutputSections, AreOutputsOf, output_of, output_view};

use crate::output_names::output_name;
use elf_model::{Name, NameSeed, SectionHeader};
use elf_read::ObjectFile;
use indexmap::IndexSet;
use search::LoadedObject;
use std::alloc::{AllocError, Global};

/// What the kept sections of one output section have in common.
#[derive(Clone, Copy, Debug, PartialEq, Eq, Hash)]
pub struct OutputSection<'a> {
    pub name: Name<'a>,
    pub writable: bool,
    pub executable: bool,
    pub thread_local: bool,
    pub nobits: bool,
}

/// The output sections of objects, by first appearance, and for each kept section, in load order, the number of its output
/// section among them, from 0 on.
#[derive(Drop)]
pub struct OutputSections<'a> {
    pub sections: Vec<OutputSection<'a>>,
    pub numbers: Vec<usize>,
}

/// The output name of section `i`, that of the empty name where it has none.
fn output_name_at<'a>(object: &ObjectFile<'a>, i: usize) -> &'a [u8]
    ensures { result.now ≡ pieces.output_name (unwrap_or (section_name object.now i) []) }
{
    output_name(object.section_name(i).unwrap_or(&[]))
}

/// The output section of section `i`, which has the header.
fn output_section_of<'a>(
    object: &ObjectFile<'a>,
    i: usize,
    header: &SectionHeader,
) -> OutputSection<'a>
    ensures { output_view result ≡ output_of (pieces.piece_of 0 object.now i header.now) }
{
    OutputSection {
        name: Name(output_name_at(object, i)),
        writable: header.is_writable(),
        executable: header.is_executable(),
        thread_local: header.is_thread_local(),
        nobits: header.is_nobits(),
    }
}

/// Puts the number of an output section behind the numbers, which is the next one where it is new.
fn add_output<'a>(
    index: &mut IndexSet<OutputSection<'a>, NameSeed>,
    numbers: &mut Vec<usize>,
    section: OutputSection<'a>,
) -> Result<(), AllocError>
    ensures { OnOk result ((p : Piece) (done : List Piece) →
        output_view section.entry ≡ output_of p
        → AreOutputsOf done index.old.keys numbers.old.items
        → AreOutputsOf (done ++ p ∷ []) index.new.keys numbers.new.items) }
{
    let (number, _is_new) = index.insert_full(section)?;
    numbers.push(number)?;
    Ok(())
}

/// Puts the number of the output section of section `i` of object `number` behind the numbers.
fn add_section<'a>(
    index: &mut IndexSet<OutputSection<'a>, NameSeed>,
    numbers: &mut Vec<usize>,
    number: usize,
    loaded: &LoadedObject<'a>,
    i: usize,
) -> Result<(), AllocError>
    ensures { OnOk result ((done : List Piece) →
        AreOutputsOf done index.old.keys numbers.old.items
        → AreOutputsOf (done ++ piece_at number (loaded_view loaded.now) i ∷ [])
        index.new.keys numbers.new.items) }
{
    let _number = number;
    let header = loaded.object.section(i);
    add_output(
        index,
        numbers,
        output_section_of(&loaded.object, i, &header),
    )
}

/// Puts the numbers of the output sections of the kept sections of object `number` behind the numbers.
fn add_object<'a>(
    index: &mut IndexSet<OutputSection<'a>, NameSeed>,
    numbers: &mut Vec<usize>,
    number: usize,
    loaded: &LoadedObject<'a>,
) -> Result<(), AllocError>
    ensures { OnOk result ((done : List Piece) →
        AreOutputsOf done index.old.keys numbers.old.items
        → AreOutputsOf
        (done ++ pieces.pieces_from number (loaded_view loaded.now) 0 (sections loaded.now.object))
        index.new.keys numbers.new.items) }
{
    let sections = loaded.kept_sections();
    for section in sections {
        add_section(index, numbers, number, loaded, *section as usize)?;
    }
    Ok(())
}

/// The output sections of the kept sections of all objects. They are hashed from a seed.
pub fn output_sections_of<'a>(
    alloc: Global,
    seed: NameSeed,
    objects: &[LoadedObject<'a>],
) -> Result<OutputSections<'a>, AllocError>
    ensures { IfOk result (AreOutputSections (loaded_views objects.now)) }
{
    let mut index = IndexSet::with_hasher(alloc, seed);
    let mut numbers = Vec::new(alloc);
    for (k, loaded) in objects.iter().enumerate() {
        add_object(&mut index, &mut numbers, k, loaded)?;
    }
    Ok(OutputSections {
        sections: Vec::from_slice(alloc, index.as_slice())?,
        numbers,
    })
}
