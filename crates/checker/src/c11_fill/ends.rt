//! Where segments and the image end.
ghost use Rattle.std.specs.Prelude.{◌≡◌, ◌+◌, ◌≤◌, ◌<◌, ◌^◌, ◌↔◌, true, All, Any, IsTrue, None};
ghost use Rattle.std.specs.List.Sorted.{IsNonDecreasingBy};
ghost use Rattle.elf_model.specs.Image.RightLink.{EndsRight, IsOfSegment};

use crate::c11_fill::stretches::begun_between;
use elf_model::{ProgramHeader, SymtabLine, Thing};

/// Whether a thing is a nonempty one of a segment.
pub fn is_of_segment(segment: &ProgramHeader, thing: &Thing) -> bool
    ensures { IsTrue result ↔ IsOfSegment segment.now thing.now }
{
    if thing.size == 0 || thing.at < segment.p_vaddr || thing.size > segment.p_memsz {
        return false;
    }
    thing.at - segment.p_vaddr <= segment.p_memsz - thing.size
}

/// Whether a nonempty thing of the segment ends where the segment's memory does.
fn ends_memory(segment: &ProgramHeader, thing: &Thing) -> bool
    ensures { IsTrue result ↔ (IsOfSegment segment.now thing.now
        × (thing.now.at + thing.now.size ≡ segment.now.p_vaddr + segment.now.p_memsz)) }
{
    if !is_of_segment(segment, thing) {
        return false;
    }
    thing.at - segment.p_vaddr == segment.p_memsz - thing.size
}

/// Whether a thing of the segment that has bytes in the file ends inside the segment's file part.
fn is_held_by_file(segment: &ProgramHeader, thing: &Thing) -> bool
    ensures { IsTrue result ↔ (IsOfSegment segment.now thing.now → thing.now.in_file ≡ true
        → thing.now.at + thing.now.size ≤ segment.now.p_vaddr + segment.now.p_filesz) }
{
    if !is_of_segment(segment, thing) || !thing.in_file {
        return true;
    }
    thing.at - segment.p_vaddr + thing.size <= segment.p_filesz
}

/// Whether a thing of the segment that has bytes in the file ends where the segment's file part does.
fn ends_file(segment: &ProgramHeader, thing: &Thing) -> bool
    ensures { IsTrue result ↔ (IsOfSegment segment.now thing.now × (thing.now.in_file ≡ true)
        × (thing.now.at + thing.now.size ≡ segment.now.p_vaddr + segment.now.p_filesz)) }
{
    if !is_of_segment(segment, thing) || !thing.in_file {
        return false;
    }
    thing.at - segment.p_vaddr + thing.size == segment.p_filesz
}

/// Whether a segment ends as the things in it do.
pub fn ends_right(things: &[Thing], segment: &ProgramHeader) -> bool
    ensures { IsTrue result ↔ EndsRight things.now segment.now }
{
    if !things.iter().any(|t| ends_memory(segment, t)) {
        return false;
    }
    if !things.iter().all(|t| is_held_by_file(segment, t)) {
        return false;
    }
    segment.p_filesz == 0 || things.iter().any(|t| ends_file(segment, t))
}

/// Whether a segment ends as those of the things do, which stand by address, that are in it.
fn ends_with_its_things(sorted: &[Thing], segment: &ProgramHeader) -> bool
    requires rising { IsNonDecreasingBy (λ t. t.at) sorted.now }
    requires end { segment.now.p_vaddr + segment.now.p_memsz < 2 ^ 64 }
    ensures { IsTrue result ↔ EndsRight sorted.now segment.now }
{
    let end = segment.p_vaddr + segment.p_memsz;
    ends_right(begun_between(sorted, segment.p_vaddr, end), segment)
}

/// Whether each segment ends as those of the things do, which stand by address, that are in it.
pub fn all_end_right(sorted: &[Thing], segments: &[ProgramHeader]) -> bool
    requires rising { IsNonDecreasingBy (λ t. t.at) sorted.now }
    requires ends { All (λ h. h.p_vaddr + h.p_memsz < 2 ^ 64) segments.now }
    ensures { IsTrue result ↔ All (EndsRight sorted.now) segments.now }
{
    for segment in segments {
        if !ends_with_its_things(sorted, segment) {
            return false;
        }
    }
    true
}

/// Whether a file of `len` bytes ends with its last file part, which a map without the line of a symbol table
/// tells.
pub fn ends_as_told(symtab: Option<SymtabLine>, len: u64, end: u64) -> bool
    ensures { IsTrue result ↔ (symtab ≡ None → len ≡ end) }
{
    symtab.is_some() || len == end
}
