//! C11: whether the image has nothing but the things and their fill, in memory and in the file.
ghost use Rattle.std.specs.Prelude.{◌≡◌, ◌+◌, ◌<◌, ◌^◌, ◌↔◌, All, IfOk, IsTrue, length, map};
ghost use Rattle.std.specs.List.Sorted.{IsNonDecreasingBy};
ghost use Rattle.elf_model.specs.Image.MemoryImage.{file_end, loads};
ghost use Rattle.elf_model.specs.Image.RightLink.{EndsRight, HasNothingElse, Holds, HoldsBefore, IsFilled, fill_of};
ghost use Rattle.loader_model.specs.Table.{IsLawful};
ghost use Rattle.checker.specs.Filled.{HasZeroGaps, SegmentFilled, part_of};
ghost use Rattle.check_places.specs.Sweeps.{EndFits, RegionFilled};
ghost use Rattle.elf_model.specs.declared.verdict.Clause.TheVariants as clause;

use crate::c11_fill::ends::{all_end_right, ends_as_told};
use crate::c11_fill::region::{Region, is_filled};
use crate::c11_fill::stretches::{lying_between, stretched};
use check_stages::{BoundLink, file_end, file_part};
use elf_model::{ProgramHeader, SymtabLine, Thing};
use loader_model::Memory;
use std::alloc::{AllocError, Global};

mod ends;
mod region;
mod stretches;

pub use ends::{ends_right, is_of_segment};
pub use stretches::begun_between;

/// Whether the eleventh clause holds of a link.
pub fn holds(alloc: Global, bound: &BoundLink<'_, '_>) -> Result<bool, AllocError>
    requires { HoldsBefore clause.C11 bound.now }
    ensures { IfOk result (λ b. IsTrue b ↔ Holds clause.C11 bound.now) }
{
    let symtab = bound.link().map.symtab;
    let filled = has_nothing_else(alloc, bound.memory(), symtab, bound.things_by_address())?;
    Ok(filled)
}

/// The byte that fills memory of these rights: a `nop` where it may be executed, else 0.
fn fill_byte(rights: u32) -> u8
    ensures { result ≡ fill_of rights }
{
    if rights == 5 { 0x90 } else { 0 }
}

/// Whether each address of a region that no stretch takes up has the fill. It looks at those alone that lie
/// partly in the region.
fn is_region_filled(region: &Region<'_>, stretches: &[Thing]) -> bool
    requires fits { All EndFits stretches.now }
    requires rising { IsNonDecreasingBy (λ t. t.at) stretches.now }
    requires ends { IsNonDecreasingBy (λ t. t.at + t.size) stretches.now }
    ensures { IsTrue result
        ↔ RegionFilled region.now.bytes.now region.now.start region.now.top region.now.fill stretches.now }
{
    is_filled(region, lying_between(stretches, region.start, region.top))
}

/// Whether what a segment maps outside of all stretches is fill.
fn is_segment_filled(image: &[u8], segment: &ProgramHeader, stretches: &[Thing]) -> bool
    requires lawful { IsLawful (length image.now) segment.now }
    requires end { segment.now.p_vaddr + segment.now.p_memsz < 2 ^ 64 }
    requires fits { All EndFits stretches.now }
    requires rising { IsNonDecreasingBy (λ t. t.at) stretches.now }
    requires ends { IsNonDecreasingBy (λ t. t.at + t.size) stretches.now }
    ensures { IsTrue result ↔ SegmentFilled image.now stretches.now segment.now }
{
    let region = Region {
        bytes: file_part(image, segment),
        start: segment.p_vaddr,
        top: segment.p_vaddr + segment.p_memsz,
        fill: fill_byte(segment.p_flags),
    };
    is_region_filled(&region, stretches)
}

/// Whether memory outside of all stretches is fill, segment by segment.
fn are_segments_filled(image: &[u8], segments: &[ProgramHeader], stretches: &[Thing]) -> bool
    requires lawful { All (IsLawful (length image.now)) segments.now }
    requires segments_end { All (λ h. h.p_vaddr + h.p_memsz < 2 ^ 64) segments.now }
    requires fits { All EndFits stretches.now }
    requires rising { IsNonDecreasingBy (λ t. t.at) stretches.now }
    requires ends { IsNonDecreasingBy (λ t. t.at + t.size) stretches.now }
    ensures { IsTrue result ↔ All (SegmentFilled image.now stretches.now) segments.now }
{
    for segment in segments {
        if !is_segment_filled(image, segment, stretches) {
            return false;
        }
    }
    true
}

/// The file parts of segments as stretches of the file.
fn parts_of(alloc: Global, segments: &[ProgramHeader]) -> Result<Vec<Thing>, AllocError>
    ensures { IfOk result (λ v. v.items ≡ map part_of segments.now) }
{
    let mut parts = Vec::with_capacity(alloc, segments.len())?;
    for segment in segments {
        parts.push(Thing {
            at: segment.p_offset,
            size: segment.p_filesz,
            align: 1,
            rights: 4,
            in_file: true,
        })?;
    }
    Ok(parts)
}

/// Whether the file's bytes below an end and outside of all stretches are 0.
fn are_gaps_zero(image: &[u8], end: u64, parts: &[Thing]) -> bool
    requires fits { All EndFits parts.now }
    requires rising { IsNonDecreasingBy (λ t. t.at) parts.now }
    ensures { IsTrue result ↔ RegionFilled image.now 0 end 0 parts.now }
{
    let region = Region {
        bytes: image,
        start: 0,
        top: end,
        fill: 0,
    };
    is_filled(&region, parts)
}

/// Whether the file's bytes in no file part are 0, up to the end of the last one.
fn are_file_gaps_zero(alloc: Global, memory: &Memory<'_>, end: u64) -> Result<bool, AllocError>
    requires { end ≡ file_end (loads memory.now) }
    ensures { IfOk result (λ b. IsTrue b ↔ HasZeroGaps memory.now) }
{
    let image = memory.image();
    let parts = parts_of(alloc, memory.segments())?;
    let zero = are_gaps_zero(image, end, &parts);
    Ok(zero)
}

/// Whether memory outside of all things, which stand by address, is fill.
fn is_memory_filled(
    alloc: Global,
    memory: &Memory<'_>,
    sorted: &[Thing],
) -> Result<bool, AllocError>
    requires fits { All EndFits sorted.now }
    requires rising { IsNonDecreasingBy (λ t. t.at) sorted.now }
    ensures { IfOk result (λ b. IsTrue b ↔ IsFilled memory.now sorted.now) }
{
    let image = memory.image();
    let stretches = stretched(alloc, sorted)?;
    let filled = are_segments_filled(image, memory.segments(), &stretches);
    Ok(filled)
}

/// Whether each segment ends as the things in it do, which stand by address.
fn do_segments_end_right(memory: &Memory<'_>, sorted: &[Thing]) -> bool
    requires { IsNonDecreasingBy (λ t. t.at) sorted.now }
    ensures { IsTrue result ↔ All (EndsRight sorted.now) (loads memory.now) }
{
    let _image = memory.image();
    all_end_right(sorted, memory.segments())
}

/// Whether each byte of memory and of the file's parts outside of all things, which stand by address, is what it must be,
/// segments end as the things in them do, and the file as the map's line of a symbol table tells.
fn has_nothing_else(
    alloc: Global,
    memory: &Memory<'_>,
    symtab: Option<SymtabLine>,
    sorted: &[Thing],
) -> Result<bool, AllocError>
    requires fits { All EndFits sorted.now }
    requires rising { IsNonDecreasingBy (λ t. t.at) sorted.now }
    ensures { IfOk result (λ b. IsTrue b ↔ HasNothingElse memory.now symtab sorted.now) }
{
    if !do_segments_end_right(memory, sorted) {
        return Ok(false);
    }
    let end = file_end(memory);
    if !ends_as_told(symtab, memory.image().len() as u64, end) {
        return Ok(false);
    }
    let zero = are_file_gaps_zero(alloc, memory, end)?;
    if !zero {
        return Ok(false);
    }
    let filled = is_memory_filled(alloc, memory, sorted)?;
    Ok(filled)
}
