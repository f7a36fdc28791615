//! The segment that has an address, and what it has there.
ghost use Rattle.std.specs.Prelude.{◌≡◌, ◌↔◌, ◌+◌, ◌<◌, ◌≤◌, ℕ, AllPairs, Any, Contains, IfSome, IsSome, IsTrue, find, length, option_copied, slice_index, slice_index_or, true};
ghost use Rattle.std.specs.List.Sorted.{IsNonDecreasingBy};
ghost use Rattle.elf_model.specs.Image.MemoryImage.{Encloses, maps, segment_byte};
ghost use Rattle.elf_model.specs.declared.records.ProgramHeader.{ProgramHeader};
ghost use Rattle.judge_model.specs.Headers.{IsLoad};
ghost use Rattle.loader_model.specs.Table.{EndsBefore};

use elf_model::ProgramHeader;
use loader_model::Run;

/// The segment that maps an address.
pub fn find_segment<'s>(segments: &'s [ProgramHeader], addr: u64) -> Option<&'s ProgramHeader>
    ensures found { option_copied result ≡ find (λ h. maps h addr) segments.now }
    ensures maps { IfSome result (λ h. maps h.now addr ≡ true) }
    ensures there { IfSome result (λ h. Contains segments.now h.now) }
{
    segments.iter().find(|h| is_mapped_by(h, addr))
}

fn is_mapped_by(segment: &ProgramHeader, addr: u64) -> bool
    ensures { result ≡ maps segment.now addr }
{
    segment.p_vaddr <= addr && addr - segment.p_vaddr < segment.p_memsz
}

/// The byte of a segment at an address of its memory: the file's, and 0 behind its file part.
pub fn byte_in(file: &[u8], segment: &ProgramHeader, addr: u64) -> u8
    requires lawful { IsLoad (length file.now) segment.now }
    requires mapped { maps segment.now addr ≡ true }
    ensures { result ≡ segment_byte file.now segment.now addr }
{
    let offset = addr - segment.p_vaddr;
    if offset < segment.p_filesz {
        file[(segment.p_offset + offset) as usize]
    } else {
        0
    }
}

/// How many of the segments, which stand by address, begin at or below an address.
fn count_begun(segments: &[ProgramHeader], addr: u64) -> usize
    requires { IsNonDecreasingBy (λ h. h.p_vaddr) segments.now }
    ensures within { result ≤ length segments.now }
    ensures begun { (k : ℕ) (d : ProgramHeader) →
        k < result → (slice_index_or segments.now k d).p_vaddr ≤ addr }
    ensures not_yet { (k : ℕ) (d : ProgramHeader) →
        result ≤ k → k < length segments.now → addr < (slice_index_or segments.now k d).p_vaddr }
{
    segments.partition_point(|h| h.p_vaddr <= addr)
}

/// A segment that encloses a range of addresses. Each segment ends before the next begins.
pub fn find_enclosing<'s>(
    segments: &'s [ProgramHeader],
    addr: u64,
    len: u64,
) -> Option<&'s ProgramHeader>
    requires { AllPairs EndsBefore segments.now }
    ensures found { IsSome result ↔ Any (λ h. Encloses h addr len) segments.now }
    ensures encloses { IfSome result (λ h. Encloses h.now addr len) }
    ensures there { IfSome result (λ h. Contains segments.now h.now) }
{
    let begun = count_begun(segments, addr);
    if begun == 0 {
        return None;
    }
    let last = &segments[begun - 1];
    if !is_enclosed_by(last, addr, len) {
        return None;
    }
    Some(last)
}

fn is_enclosed_by(segment: &ProgramHeader, addr: u64, len: u64) -> bool
    ensures { IsTrue result ↔ Encloses segment.now addr len }
{
    if addr < segment.p_vaddr || len > segment.p_memsz {
        return false;
    }
    addr - segment.p_vaddr <= segment.p_memsz - len
}

/// The run of an enclosed range in its segment.
pub fn run_in<'f>(file: &'f [u8], segment: &ProgramHeader, addr: u64, len: u64) -> Run<'f>
    requires lawful { IsLoad (length file.now) segment.now }
    requires enclosed { Encloses segment.now addr len }
    ensures whole { length result.bytes.now + result.zeros ≡ len }
    ensures same { (k : ℕ) → k < len
        → segment_byte file.now segment.now (addr + k) ≡ slice_index result.bytes.now k }
{
    let offset = addr - segment.p_vaddr;
    if offset >= segment.p_filesz {
        return Run {
            bytes: &[],
            zeros: len,
        };
    }
    let count = len.min(segment.p_filesz - offset);
    let from = (segment.p_offset + offset) as usize;
    let (_before, rest) = file.split_at(from);
    let (bytes, _after) = rest.split_at(count as usize);
    Run {
        bytes,
        zeros: len - count,
    }
}
