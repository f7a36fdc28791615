//! What takes up memory: the headers of the image, what the linker filled, and all pieces.
ghost use Rattle.std.specs.Prelude.{◌≡◌, ◌*◌, ◌++◌, All, IfOk, OnOk, map, true};
ghost use Rattle.elf_model.specs.Inputs.Records.{file_header};
ghost use Rattle.elf_model.specs.Link.Placement.{thing_of};
ghost use Rattle.check_link.specs.Views.{placed_views};
ghost use Rattle.judge_model.specs.Placed.{has_part, header_things, mapped_parts, stretch_thing, part_in};
ghost use Rattle.place_judge.specs.Places.{Fits};

use check_link::{Placed, thing_of_placed};
use elf_model::{ProgramHeader, Thing};
use foreign_image::ForeignImage;
use judge_model::StretchLine;
use std::alloc::{AllocError, Global};

/// Whether the file part of a segment has a stretch of the file.
fn has_part(offset: u64, size: u64, h: &ProgramHeader) -> bool
    ensures { result ≡ has_part offset size h.now }
{
    if offset < h.p_offset || size > h.p_filesz {
        return false;
    }
    offset - h.p_offset <= h.p_filesz - size
}

/// Where a segment has a stretch of the file in memory.
fn part_in(offset: u64, size: u64, h: &ProgramHeader) -> Thing
    requires part { has_part offset size h.now ≡ true }
    requires low { Fits h.now }
    ensures { result ≡ part_in offset size h.now }
{
    Thing {
        at: h.p_vaddr + (offset - h.p_offset),
        size,
        align: 1,
        rights: 4,
        in_file: true,
    }
}

/// Adds a stretch of the file, in each segment that has it in memory.
fn add_parts(
    things: &mut Vec<Thing>,
    segments: &[ProgramHeader],
    offset: u64,
    size: u64,
) -> Result<(), AllocError>
    requires { All Fits segments.now }
    ensures { OnOk result (things.new.items
        ≡ things.old.items ++ mapped_parts segments.now offset size) }
{
    for h in segments {
        if has_part(offset, size, h) {
            things.push(part_in(offset, size, h))?;
        }
    }
    Ok(())
}

/// What the linker filled.
fn stretch_thing(stretch: &StretchLine) -> Thing
    ensures { result ≡ stretch_thing stretch.now }
{
    Thing {
        at: stretch.address,
        size: stretch.size,
        align: 4,
        rights: 4,
        in_file: true,
    }
}

fn add_stretches(things: &mut Vec<Thing>, stretches: &[StretchLine]) -> Result<(), AllocError>
    ensures { OnOk result (things.new.items ≡ things.old.items ++ map stretch_thing stretches.now) }
{
    for stretch in stretches {
        things.push(stretch_thing(stretch))?;
    }
    Ok(())
}

fn add_pieces(things: &mut Vec<Thing>, placed: &[Placed<'_>]) -> Result<(), AllocError>
    ensures { OnOk result (things.new.items
        ≡ things.old.items ++ map thing_of (placed_views placed.now)) }
{
    for q in placed {
        things.push(thing_of_placed(q))?;
    }
    Ok(())
}

/// Adds the file header and the program headers, where segments have them.
fn add_headers(things: &mut Vec<Thing>, image: &ForeignImage<'_>) -> Result<(), AllocError>
    ensures { OnOk result (things.new.items ≡ things.old.items ++ header_things image.now) }
{
    let _program = image.image();
    let header = image.header();
    add_parts(things, image.segments(), 0, 64)?;
    add_parts(
        things,
        image.segments(),
        header.e_phoff,
        56 * header.e_phnum as u64,
    )
}

/// All that takes up memory: the headers where segments have them, stretches that the linker filled, and the pieces.
pub fn things_of(
    alloc: Global,
    image: &ForeignImage<'_>,
    stretches: &[StretchLine],
    placed: &[Placed<'_>],
) -> Result<Vec<Thing>, AllocError>
    ensures { IfOk result (λ v. v.items
        ≡ (header_things image.now ++ map stretch_thing stretches.now)
        ++ map thing_of (placed_views placed.now)) }
{
    let mut things = Vec::with_capacity(alloc, placed.len().saturating_add(stretches.len()))?;
    add_headers(&mut things, image)?;
    add_stretches(&mut things, stretches)?;
    add_pieces(&mut things, placed)?;
    Ok(things)
}
