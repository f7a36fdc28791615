//! The rules of a program header table, each a test over the headers alone.
ghost use Rattle.std.specs.Prelude.{◌≡◌, ◌↔◌, ◌⊎◌, ◌+◌, ◌/◌, ◌<◌, ◌≤◌, ◌^◌, ◌||◌, ℕ, All, Any, AllPairs, IsTrue, length, slice_index_or, true};
ghost use Rattle.elf_model.specs.declared.records.ProgramHeader.{ProgramHeader};
ghost use Rattle.elf_model.specs.Image.MemoryImage.{is_load};
ghost use Rattle.judge_model.specs.Headers.{AreLoads, AreTypesRight, BeginsIn, IsLoad, IsPartOf, IsSingle, IsTable, IsTrueOf, is_many_type, is_placed_type, is_single_type};
ghost use Rattle.foreign_image.specs.Images.{HasRights, HoldsTable, PagesBefore};

use elf_model::{PF_R, PF_W, PF_X, PT_GNU_STACK, PT_LOAD, PT_TLS, ProgramHeader};

const PT_NOTE: u32 = 4;

const PT_PHDR: u32 = 6;

const PT_GNU_EH_FRAME: u32 = 0x6474_e550;

const PT_GNU_RELRO: u32 = 0x6474_e552;

const PT_GNU_PROPERTY: u32 = 0x6474_e553;

const SINGLE_TYPES: [u32; 6] = [
    PT_TLS,
    PT_PHDR,
    PT_GNU_EH_FRAME,
    PT_GNU_STACK,
    PT_GNU_RELRO,
    PT_GNU_PROPERTY,
];

/// Where the addresses of a program on Linux end.
const ADDRESS_END: u64 = (1 << 47) - 4096;

const PAGE: u64 = 4096;

/// Whether the header is of a PT_LOAD segment.
pub fn is_a_load(header: &ProgramHeader) -> bool
    ensures { result ≡ is_load header.now }
{
    header.p_type == PT_LOAD
}

/// Whether there may be any number of headers of a type, or one at most.
fn is_known_type(header: &ProgramHeader) -> bool
    ensures { result ≡ (is_many_type header.now.p_type || is_single_type header.now.p_type) }
{
    matches!(
        header.p_type,
        PT_LOAD
            | PT_NOTE
            | PT_TLS
            | PT_PHDR
            | PT_GNU_EH_FRAME
            | PT_GNU_STACK
            | PT_GNU_RELRO
            | PT_GNU_PROPERTY
    )
}

/// Whether a type has one header at most.
fn is_single(headers: &[ProgramHeader], kind: u32) -> bool
    ensures { IsTrue result ↔ IsSingle headers.now kind }
{
    headers.iter().filter(|h| h.p_type == kind).count() <= 1
}

/// Whether each of some types has one header at most.
fn are_single(headers: &[ProgramHeader], types: &[u32]) -> bool
    ensures { IsTrue result ↔ All (IsSingle headers.now) types.now }
{
    for kind in types {
        if !is_single(headers, *kind) {
            return false;
        }
    }
    true
}

/// Whether all headers are of known types.
fn are_known(headers: &[ProgramHeader]) -> bool
    ensures { IsTrue result ↔ All
        (λ h. (is_many_type h.p_type || is_single_type h.p_type) ≡ true) headers.now }
{
    headers.iter().all(|h| is_known_type(h))
}

/// Whether all headers are of known types, and as many of each as there may be.
pub fn are_types_right(headers: &[ProgramHeader]) -> bool
    ensures { IsTrue result ↔ AreTypesRight headers.now }
{
    if !are_known(headers) {
        return false;
    }
    are_single(headers, &SINGLE_TYPES)
}

/// Whether a PT_LOAD has rights that a segment may have, and its tail can be cleared.
fn has_rights(h: &ProgramHeader) -> bool
    requires { h.now.p_vaddr + h.now.p_memsz < 2 ^ 64 }
    ensures { IsTrue result ↔ HasRights h.now }
{
    if h.p_flags & PF_R != PF_R || h.p_flags & (PF_R + (PF_W + PF_X)) != h.p_flags {
        return false;
    }
    if h.p_filesz >= h.p_memsz || h.p_flags & PF_W == PF_W {
        return true;
    }
    (h.p_vaddr + h.p_filesz) % PAGE == 0
}

fn is_good_load(h: &ProgramHeader, len: u64) -> bool
    ensures { IsTrue result ↔ IsLoad len h.now }
{
    if h.p_filesz > h.p_memsz || h.p_vaddr % PAGE != h.p_offset % PAGE {
        return false;
    }
    if h.p_vaddr > ADDRESS_END || h.p_memsz > ADDRESS_END - h.p_vaddr {
        return false;
    }
    if h.p_filesz > 0 && (h.p_offset > len || h.p_filesz > len - h.p_offset) {
        return false;
    }
    has_rights(h)
}

/// Whether a segment's last page comes before another one's first.
fn pages_before(first: &ProgramHeader, second: &ProgramHeader) -> bool
    ensures { IsTrue result ↔ PagesBefore first.now second.now }
{
    let page = second.p_vaddr / PAGE * PAGE;
    first.p_vaddr <= page && first.p_memsz <= page - first.p_vaddr
}

fn are_pages_rising(segments: &[ProgramHeader]) -> bool
    ensures { IsTrue result ↔ ((k : ℕ) (d : ProgramHeader) →
        k + 1 < length segments.now
        → PagesBefore (slice_index_or segments.now k d) (slice_index_or segments.now (k + 1) d)) }
{
    segments
        .windows(2)
        .all(|pair| pages_before(&pair[0], &pair[1]))
}

fn are_lawful(segments: &[ProgramHeader], len: u64) -> bool
    ensures { IsTrue result ↔ All (IsLoad len) segments.now }
{
    segments.iter().all(|h| is_good_load(h, len))
}

/// Whether the PT_LOADs of a file of `len` bytes are some, each is lawful, and no page is touched by two, of which they
/// come in order.
pub fn are_loads(segments: &[ProgramHeader], len: u64) -> bool
    ensures { IsTrue result ↔ AreLoads len segments.now }
{
    if segments.is_empty() || !are_lawful(segments, len) {
        return false;
    }
    are_pages_rising(segments)
}

/// Whether the file's part of a header is a segment's there.
fn is_part_of(h: &ProgramHeader, g: &ProgramHeader) -> bool
    ensures { IsTrue result ↔ IsPartOf h.now g.now }
{
    if h.p_vaddr < g.p_vaddr || h.p_offset < g.p_offset {
        return false;
    }
    let into = h.p_vaddr - g.p_vaddr;
    if h.p_offset - g.p_offset != into || into > g.p_filesz {
        return false;
    }
    h.p_filesz <= g.p_filesz - into
}

/// The number of the page in which a header's memory ends.
fn last_page(h: &ProgramHeader) -> u64
    ensures { result ≡ (h.now.p_vaddr + h.now.p_memsz) / 4096 }
{
    let bytes = h.p_vaddr % PAGE + h.p_memsz % PAGE;
    h.p_vaddr / PAGE + h.p_memsz / PAGE + bytes / PAGE
}

/// The number of the first page behind a segment.
fn end_page(g: &ProgramHeader) -> u64
    ensures { result ≡ (g.now.p_vaddr + g.now.p_memsz + 4095) / 4096 }
{
    let bytes = g.p_vaddr % PAGE + g.p_memsz % PAGE + (PAGE - 1);
    g.p_vaddr / PAGE + g.p_memsz / PAGE + bytes / PAGE
}

/// Whether a header's place in the file is 0, or where a segment says that it is.
fn is_in_file_as(h: &ProgramHeader, g: &ProgramHeader) -> bool
    ensures { IsTrue result ↔ ((h.now.p_offset ≡ 0)
        ⊎ (h.now.p_offset + g.now.p_vaddr ≡ g.now.p_offset + h.now.p_vaddr)) }
{
    h.p_offset == 0
        || h.p_offset as u128 + g.p_vaddr as u128 == g.p_offset as u128 + h.p_vaddr as u128
}

/// Whether a header begins in a segment, at the same place of the file or 0, and ends before whole pages behind it.
fn begins_in(h: &ProgramHeader, g: &ProgramHeader) -> bool
    ensures { IsTrue result ↔ BeginsIn h.now g.now }
{
    if h.p_vaddr < g.p_vaddr || h.p_vaddr - g.p_vaddr > g.p_memsz {
        return false;
    }
    if !is_in_file_as(h, g) {
        return false;
    }
    last_page(h) <= end_page(g)
}

/// Whether a header of this type says where something is in memory and the file.
fn is_placed_type(h: &ProgramHeader) -> bool
    ensures { result ≡ is_placed_type h.now.p_type }
{
    matches!(
        h.p_type,
        PT_NOTE | PT_PHDR | PT_GNU_EH_FRAME | PT_GNU_PROPERTY
    )
}

fn is_part_of_any(h: &ProgramHeader, segments: &[ProgramHeader]) -> bool
    ensures { IsTrue result ↔ Any (IsPartOf h.now) segments.now }
{
    segments.iter().any(|g| is_part_of(h, g))
}

fn begins_in_any(h: &ProgramHeader, segments: &[ProgramHeader]) -> bool
    ensures { IsTrue result ↔ Any (BeginsIn h.now) segments.now }
{
    segments.iter().any(|g| begins_in(h, g))
}

fn is_true_of(segments: &[ProgramHeader], h: &ProgramHeader) -> bool
    ensures { IsTrue result ↔ IsTrueOf segments.now h.now }
{
    if is_placed_type(h) && !is_part_of_any(h, segments) {
        return false;
    }
    h.p_type != PT_GNU_RELRO || begins_in_any(h, segments)
}

/// Whether each header is true of the segments.
pub fn are_true(segments: &[ProgramHeader], headers: &[ProgramHeader]) -> bool
    ensures { IsTrue result ↔ All (IsTrueOf segments.now) headers.now }
{
    headers.iter().all(|h| is_true_of(segments, h))
}

/// Whether PT_PHDR, where it is there, begins where the program headers do.
pub fn are_tables(headers: &[ProgramHeader]) -> bool
    ensures { IsTrue result ↔ All IsTable headers.now }
{
    headers
        .iter()
        .all(|h| h.p_type != PT_PHDR || h.p_offset == 64)
}

fn holds_table(g: &ProgramHeader, end: u64) -> bool
    ensures { IsTrue result ↔ HoldsTable end g.now }
{
    if g.p_offset > 64 {
        return false;
    }
    end <= g.p_filesz || end - g.p_filesz <= g.p_offset
}

/// Whether the program headers, which end at an offset of the file, are in memory.
pub fn are_mapped(segments: &[ProgramHeader], end: u64) -> bool
    ensures { IsTrue result ↔ Any (HoldsTable end) segments.now }
{
    segments.iter().any(|g| holds_table(g, end))
}
