//! The rules of a program header table, each a test over the headers alone.
ghost use Rattle.std.specs.Prelude.{◌≡◌, ◌↔◌, ◌+◌, ◌*◌, ◌<◌, ◌≤◌, ◌^◌, ◌%◌, ℕ, All, AllPairs, IsTrue, length, filter, slice_index_or};
ghost use Rattle.std.specs.List.{prefix_len};
ghost use Rattle.loader_model.specs.Table.{EndsBefore, IsBelow};
ghost use Rattle.elf_model.specs.declared.records.ProgramHeader.{ProgramHeader};
ghost use Rattle.elf_model.specs.Image.MemoryImage.{AreGoodSegments, HoldsHeaders, IsGoodLoad, IsGoodStack, IsGoodThreadBlock, IsInOrder, IsTail, ShareNoPage, first_address, is_load, is_thread_block, loads_in};

use elf_model::ProgramHeader;

pub const PAGE: u64 = 4096;

pub const ADDRESS_END: u64 = 1 << 46;

/// Whether the header is of a PT_LOAD segment.
pub fn is_a_load(header: &ProgramHeader) -> bool
    ensures { result ≡ is_load header.now }
{
    header.p_type == 1
}

fn is_a_tail(rest: &[ProgramHeader]) -> bool
    ensures { IsTrue result ↔ IsTail rest.now }
{
    match rest {
        [stack] => stack.p_type == 0x6474_e551,
        [block, stack] => block.p_type == 7 && stack.p_type == 0x6474_e551,
        _ => false,
    }
}

fn is_good_load(header: &ProgramHeader, first: u64, len: u64) -> bool
    ensures { IsTrue result ↔ IsGoodLoad first len header.now }
{
    let h = header;
    if h.p_flags < 4 || h.p_flags > 6 || h.p_align != PAGE {
        return false;
    }
    if h.p_paddr != h.p_vaddr || h.p_vaddr % PAGE != 0 || h.p_memsz == 0 {
        return false;
    }
    if h.p_filesz > h.p_memsz || h.p_vaddr > ADDRESS_END || h.p_memsz > ADDRESS_END - h.p_vaddr {
        return false;
    }
    if h.p_vaddr < first || h.p_offset != h.p_vaddr - first {
        return false;
    }
    h.p_filesz == 0 || (h.p_offset <= len && h.p_filesz <= len - h.p_offset)
}

fn is_good_thread_block(header: &ProgramHeader, first: u64) -> bool
    ensures { IsTrue result ↔ IsGoodThreadBlock first header.now }
{
    let h = header;
    if h.p_flags != 4 || h.p_paddr != h.p_vaddr || h.p_vaddr < first {
        return false;
    }
    if h.p_offset != h.p_vaddr - first || !h.p_align.is_power_of_two() {
        return false;
    }
    if h.p_vaddr % h.p_align != 0 || h.p_filesz > h.p_memsz {
        return false;
    }
    h.p_vaddr <= ADDRESS_END && h.p_memsz <= ADDRESS_END - h.p_vaddr
}

fn is_good_stack(header: &ProgramHeader) -> bool
    ensures { IsTrue result ↔ IsGoodStack header.now }
{
    let h = header;
    if h.p_flags != 6 || h.p_offset != 0 || h.p_vaddr != 0 || h.p_paddr != 0 {
        return false;
    }
    h.p_filesz == 0 && h.p_memsz == 0 && h.p_align == 0
}

/// The number of PT_LOADs in front of the first other header.
fn leading_loads(headers: &[ProgramHeader]) -> usize
    ensures count { result ≡ prefix_len is_load headers.now }
    ensures within { result ≤ length headers.now }
{
    headers.iter().take_while(|h| is_a_load(h)).count()
}

fn is_ascending(segments: &[ProgramHeader]) -> bool
    ensures { IsTrue result ↔ ((k : ℕ) (d : ProgramHeader) →
        k + 1 < length segments.now
        → IsBelow (slice_index_or segments.now k d) (slice_index_or segments.now (k + 1) d)) }
{
    segments
        .windows(2)
        .all(|pair| pair[0].p_vaddr < pair[1].p_vaddr)
}

/// Whether the headers are one or more PT_LOADs by ascending address, then at most one PT_TLS, then one
/// PT_GNU_STACK.
pub fn is_in_order(headers: &[ProgramHeader]) -> bool
    ensures { IsTrue result ↔ IsInOrder headers.now }
{
    let count = leading_loads(headers);
    if count == 0 {
        return false;
    }
    let (segments, rest) = headers.split_at(count);
    if !is_a_tail(rest) {
        return false;
    }
    is_ascending(segments)
}

/// The address of the first segment, 0 without any.
fn first_of(segments: &[ProgramHeader]) -> u64
    ensures { result ≡ first_address segments.now }
{
    match segments {
        [] => 0,
        [first, ..] => first.p_vaddr,
    }
}

fn holds_headers(segments: &[ProgramHeader], size: u64) -> bool
    ensures { IsTrue result ↔ HoldsHeaders size segments.now }
{
    match segments {
        [] => true,
        [first, ..] => size <= first.p_filesz,
    }
}

/// Whether each header meets the rules of its type; `loads` are the PT_LOADs among the headers, which take
/// up `size` bytes with the file header, in a file of `len` bytes.
pub fn are_good_segments(
    headers: &[ProgramHeader],
    loads: &[ProgramHeader],
    size: u64,
    len: u64,
) -> bool
    requires loads_are { loads.now ≡ loads_in headers.now }
    requires size_is { size ≡ 64 + 56 * length headers.now }
    ensures { IsTrue result ↔ AreGoodSegments len headers.now }
{
    let first = first_of(loads);
    if !loads.iter().all(|h| is_good_load(h, first, len)) {
        return false;
    }
    if !holds_headers(loads, size) {
        return false;
    }
    if !headers
        .iter()
        .all(|h| h.p_type != 7 || is_good_thread_block(h, first))
    {
        return false;
    }
    headers
        .iter()
        .all(|h| h.p_type != 0x6474_e551 || is_good_stack(h))
}

fn ends_before(first: &ProgramHeader, second: &ProgramHeader) -> bool
    ensures { IsTrue result ↔ EndsBefore first.now second.now }
{
    first.p_vaddr <= second.p_vaddr && first.p_memsz <= second.p_vaddr - first.p_vaddr
}

fn end_before_the_next(segments: &[ProgramHeader]) -> bool
    ensures { IsTrue result ↔ ((k : ℕ) (d : ProgramHeader) →
        k + 1 < length segments.now
        → EndsBefore (slice_index_or segments.now k d) (slice_index_or segments.now (k + 1) d)) }
{
    segments
        .windows(2)
        .all(|pair| ends_before(&pair[0], &pair[1]))
}

/// Whether no page is touched by two of the segments, which stand by ascending address.
pub fn share_no_page(segments: &[ProgramHeader]) -> bool
    requires on_pages { All (λ h. (h.p_vaddr % 4096 ≡ 0) × (0 < h.p_memsz)) segments.now }
    requires ascending { AllPairs IsBelow segments.now }
    ensures { IsTrue result ↔ AllPairs ShareNoPage segments.now }
{
    end_before_the_next(segments)
}
