//! The segment in which a range of addresses lies, and what the file has for it.
ghost use Rattle.std.specs.Prelude.{◌≡◌, ◌+◌, ◌≤◌, ◌<◌, ◌↔◌, ◌^◌, ℕ, All, AllPairs, IsTrue, length, slice_index, Contains, IfSome, Some, slice_index_or};
ghost use Rattle.elf_model.specs.Image.MemoryImage.{Encloses, file_end, segment_byte, loads};
ghost use Rattle.loader_model.specs.Table.{IsLawful, EndsBefore};
ghost use Rattle.std.specs.List.Sorted.{IsNonDecreasingBy};

use byteview::{all_byte, equal_run};
use elf_model::ProgramHeader;
use loader_model::Memory;

/// Whether a range of addresses lies whole in a segment.
pub fn encloses(segment: &ProgramHeader, at: u64, size: u64) -> bool
    ensures { IsTrue result ↔ Encloses segment.now at size }
{
    if at < segment.p_vaddr || size > segment.p_memsz {
        return false;
    }
    at - segment.p_vaddr <= segment.p_memsz - size
}

/// How many of the segments, which stand by address, begin at or below an address.
fn begun_at(segments: &[ProgramHeader], at: u64) -> usize
    requires { IsNonDecreasingBy (λ h. h.p_vaddr) segments.now }
    ensures within { result ≤ length segments.now }
    ensures begun { (k : ℕ) (d : ProgramHeader) →
        k < result → (slice_index_or segments.now k d).p_vaddr ≤ at }
    ensures not_yet { (k : ℕ) (d : ProgramHeader) →
        result ≤ k → k < length segments.now → at < (slice_index_or segments.now k d).p_vaddr }
{
    segments.partition_point(|h| h.p_vaddr <= at)
}

/// The one of the segments that a nonempty range of addresses lies whole in. Each segment ends before the
/// next begins.
fn find_enclosing(segments: &[ProgramHeader], at: u64, size: u64) -> Option<ProgramHeader>
    requires apart { AllPairs EndsBefore segments.now }
    requires some { 0 < size }
    ensures found { IfSome result (λ h. Contains segments.now h × Encloses h at size) }
    ensures only { All (λ g. Encloses g at size → result ≡ Some g) segments.now }
{
    let count = begun_at(segments, at);
    if count == 0 {
        return None;
    }
    let segment = segments[count - 1];
    if !encloses(&segment, at, size) {
        return None;
    }
    Some(segment)
}

/// The one of an image's segments that a nonempty range of addresses lies whole in.
pub fn enclosing(memory: &Memory<'_>, at: u64, size: u64) -> Option<ProgramHeader>
    requires { 0 < size }
    ensures found { IfSome result (λ h. Contains (loads memory.now) h × Encloses h at size) }
    ensures only { All (λ g. Encloses g at size → result ≡ Some g) (loads memory.now) }
    ensures lawful { IfSome result (λ h. IsLawful (length memory.now) h) }
{
    let _image = memory.image();
    find_enclosing(memory.segments(), at, size)
}

/// The file part of a segment, as much of it as its file has.
pub fn file_part<'f>(image: &'f [u8], segment: &ProgramHeader) -> &'f [u8]
    requires { IsLawful (length image.now) segment.now }
    ensures { (k : ℕ) → slice_index result.now k
        ≡ segment_byte image.now segment.now (segment.now.p_vaddr + k) }
{
    if segment.p_filesz == 0 {
        return &[];
    }
    let (_before, rest) = image.split_at(segment.p_offset as usize);
    let (part, _after) = rest.split_at(segment.p_filesz as usize);
    part
}

/// Where the last file part of segments ends, in bytes of the file.
fn end_of_parts(segments: &[ProgramHeader]) -> u64
    requires { All (λ h. h.p_offset + h.p_filesz < 2 ^ 64) segments.now }
    ensures { result ≡ file_end segments.now }
{
    let mut end = 0;
    for segment in segments {
        if segment.p_filesz > 0 {
            end = end.max(segment.p_offset + segment.p_filesz);
        }
    }
    end
}

/// Where the last file part of an image ends, in bytes of the file.
pub fn file_end(memory: &Memory<'_>) -> u64
    ensures end { result ≡ file_end (loads memory.now) }
    ensures inside { result ≤ length memory.now }
    ensures low { result ≤ 2 ^ 46 }
{
    let _image = memory.image();
    end_of_parts(memory.segments())
}

/// The bytes from `offset` on, `len` at most.
pub fn sub_part<'f>(part: &'f [u8], offset: usize, len: usize) -> &'f [u8]
    ensures short { length result.now ≤ len }
    ensures same { (k : ℕ) → k < len
        → slice_index part.now (offset + k) ≡ slice_index result.now k }
{
    let (_before, rest) = part.split_at(offset.min(part.len()));
    let (bytes, _after) = rest.split_at(len.min(rest.len()));
    bytes
}

/// Whether two runs are equal where bytes past an end count as 0.
pub fn same_padded(a: &[u8], b: &[u8]) -> bool
    ensures { IsTrue result ↔ ((k : ℕ) → slice_index a.now k ≡ slice_index b.now k) }
{
    let common = a.len().min(b.len());
    let (a_front, a_rest) = a.split_at(common);
    let (b_front, b_rest) = b.split_at(common);
    if !equal_run(a_front, b_front) {
        return false;
    }
    if !all_byte(a_rest, 0) {
        return false;
    }
    all_byte(b_rest, 0)
}
