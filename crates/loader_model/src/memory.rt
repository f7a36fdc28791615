//! Memory as a loader makes it of an image (System V gABI 5, "Program Loading").
ghost use Rattle.std.specs.Prelude.{◌≡◌, ◌+◌, ◌*◌, ◌<◌, ◌≤◌, AllPairs, IsTrue, List, ℕ, IfOk, IfErr, IfSome, IsSome, SomeIff, true, option_copied, length, option_map, find, slice_index, slice_index_or, Contains, Any, ◌↔◌, map, filter};
ghost use Rattle.std.specs.List.{range_with_len};
ghost use Rattle.elf_model.specs.Image.MemoryImage.{Encloses, HasImageHeader, HasNoSections, HasSections, image_ident, is_thread_block, segment_byte, IsImage, IsImageHeader, LoadFaultStands, loads, loads_in, maps, memory_of, program_header_at, program_headers, thread_blocks};
ghost use Rattle.elf_model.specs.Inputs.Records.{file_header};
ghost use Rattle.loader_model.specs.Table.{EndsBefore, FaultInTable, IsGoodTable, IsLawful};
ghost use Rattle.std.specs.List.Sorted.{IsNonDecreasingBy};
ghost use Rattle.loader_model.specs.Memory.{IsRun};
ghost use Rattle.loader_model.specs.Rights.{rights_sum};
ghost use Rattle.elf_model.specs.declared.faults.LoadFault.TheVariants as faults;

use crate::table::{are_good_segments, is_a_load, is_in_order, share_no_page};
use byteview::View;
use elf_model::{FileHeader, LoadFault, ProgramHeader};
use std::alloc::{AllocError, Global};
use std::marker::Model;

/// The rights of a segment.
#[derive(Clone, Copy, Debug, PartialEq, Eq)]
pub enum Rights {
    Read,
    ReadExecute,
    ReadWrite,
}

/// What memory has from an address on: bytes of the file, then a number of zeros.
#[derive(Clone, Copy, Debug)]
pub struct Run<'a> {
    pub bytes: &'a [u8],
    pub zeros: u64,
}

/// What an image has in memory once a loader has mapped its PT_LOAD segments: a partial function from
/// addresses to bytes and rights. It borrows the image and keeps its headers.
#[derive(Drop)]
pub struct Memory<'a> {
    file: &'a [u8],
    header: FileHeader,
    segments: Vec<ProgramHeader>,
    thread_blocks: Vec<ProgramHeader>,
}

impl<'a> Model for Memory<'a> {
    ghost use Rattle.std.specs.Prelude.{List, ℕ};
    ghost use Rattle.loader_model.specs.Memory.{IsMemory};

    ghost Value = { List ℕ };

    ghost view = { λ m. m.file.now };

    ghost invariant = { λ m. IsMemory m.file.now m.header m.segments.items m.thread_blocks.items };
}

impl<'a> Memory<'a> {
    /// Reads the headers of an image (System V gABI 5, the profile's rules in docs/PROFILE.md). A fault
    /// other than Memory is one that stands in the image.
    pub fn load(alloc: Global, image: View<'a>) -> Result<Memory<'a>, LoadFault>
        ensures image { IfOk result (λ m. m ≡ image.entry) }
        ensures accepted { IfOk result (λ _. IsImage image.entry) }
        ensures fault { IfErr result (LoadFaultStands image.entry) }
    {
        let file = image.bytes();
        let header = header_of(file)?;
        let headers = table_of(alloc, file, header.e_phnum)?;
        let segments = loads_of(alloc, &headers)?;
        judge(&headers, &segments, file.len())?;
        let thread_blocks = thread_blocks_of(alloc, &headers)?;
        Ok(Memory {
            file,
            header,
            segments,
            thread_blocks,
        })
    }

    /// The bytes of the image, which is one that is accepted.
    pub fn image(&self) -> &'a [u8]
        ensures bytes { result.now ≡ self.now }
        ensures accepted { IsImage self.now }
    {
        self.file
    }

    /// The file header.
    pub fn header(&self) -> FileHeader
        ensures { result ≡ file_header self.now }
    {
        self.header
    }

    /// The PT_LOAD headers, by ascending address.
    pub fn segments(&self) -> &[ProgramHeader]
        ensures { result.now ≡ loads self.now }
    {
        &self.segments
    }

    /// The PT_TLS headers, one at most.
    pub fn thread_blocks(&self) -> &[ProgramHeader]
        ensures { result.now ≡ thread_blocks self.now }
    {
        &self.thread_blocks
    }

    /// The byte that memory has at an address; None where no segment maps it.
    pub fn byte(&self, addr: u64) -> Option<u8>
        ensures { result ≡ option_map (λ c. c.byte) (memory_of self.now addr) }
    {
        let segment = find_segment(&self.segments, addr)?;
        Some(byte_in(self.file, segment, addr))
    }

    /// The rights of an address; None where no segment maps it.
    pub fn rights(&self, addr: u64) -> Option<Rights>
        ensures { option_map rights_sum result
            ≡ option_map (λ c. c.rights) (memory_of self.now addr) }
    {
        let segment = find_segment(&self.segments, addr)?;
        Some(rights_in(segment, self.file.len()))
    }

    /// What memory has from `addr` on for `len` addresses: file bytes, then a number of zeros. None unless
    /// all of them lie in one PT_LOAD.
    pub fn run(&self, addr: u64, len: u64) -> Option<Run<'a>>
        ensures found { IsSome result ↔ Any (λ h. Encloses h addr len) (loads self.now) }
        ensures run { IfSome result (λ r. IsRun self.now addr len r.bytes.now r.zeros) }
    {
        let segment = find_enclosing(&self.segments, addr, len)?;
        Some(run_in(self.file, segment, addr, len))
    }

    /// The address at which the program is entered.
    pub fn entry(&self) -> u64
        ensures { result ≡ (file_header self.now).e_entry }
    {
        self.header.e_entry
    }
}

fn is_image_ident(ident: &[u8]) -> bool
    ensures { IsTrue result ↔ (ident.now ≡ image_ident) }
{
    ident == [0x7f, 0x45, 0x4c, 0x46, 2, 1, 1, 0, 0, 0, 0, 0, 0, 0, 0, 0].as_slice()
}

/// Whether the header is that of an executable of this profile in a file of `len` bytes.
fn is_image_header(header: &FileHeader, len: usize) -> bool
    ensures { IsTrue result ↔ IsImageHeader len header.now }
{
    let h = header;
    if !is_image_ident(&h.e_ident) || h.e_type != 2 || h.e_machine != 62 {
        return false;
    }
    if h.e_version != 1 || h.e_phoff != 64 || h.e_flags != 0 || h.e_ehsize != 64 {
        return false;
    }
    if h.e_phentsize != 56 || h.e_shentsize != 64 {
        return false;
    }
    if !has_no_sections(h) && !has_sections(h, len) {
        return false;
    }
    64 + 56 * h.e_phnum as usize <= len
}

/// Whether the header tells of no section headers.
fn has_no_sections(header: &FileHeader) -> bool
    ensures { IsTrue result ↔ HasNoSections header.now }
{
    header.e_shoff == 0 && header.e_shnum == 0 && header.e_shstrndx == 0
}

/// Whether the header tells of the four section headers of a symbol table, at a multiple of 8 inside a file
/// of `len` bytes.
fn has_sections(header: &FileHeader, len: usize) -> bool
    ensures { IsTrue result ↔ HasSections len header.now }
{
    let len = len as u64;
    if header.e_shnum != 4 || header.e_shstrndx != 3 || header.e_shoff % 8 != 0 {
        return false;
    }
    header.e_shoff <= len && len - header.e_shoff >= 4 * 64
}

fn read_header(file: &[u8]) -> Option<FileHeader>
    ensures { SomeIff result (64 ≤ length file.now) (file_header file.now) }
{
    FileHeader::read(View::new(file))
}

/// The file header, where it is that of an executable of this profile.
fn header_of(file: &[u8]) -> Result<FileHeader, LoadFault>
    ensures header { IfOk result (λ h. h ≡ file_header file.now) }
    ensures good { IfOk result (λ _. HasImageHeader file.now) }
    ensures fault { IfErr result (λ f. (f ≡ faults.BadHeader) × (¬ HasImageHeader file.now)) }
{
    let Some(header) = read_header(file) else {
        return Err(LoadFault::BadHeader);
    };
    if !is_image_header(&header, file.len()) {
        return Err(LoadFault::BadHeader);
    }
    Ok(header)
}

/// The program header table behind a file header that the file has room for.
fn table_of(alloc: Global, file: &[u8], count: u16) -> Result<Vec<ProgramHeader>, AllocError>
    requires { 64 + 56 * count ≤ length file.now }
    ensures { IfOk result (λ v. v.items
        ≡ map (program_header_at file.now) (range_with_len 0 count)) }
{
    let count = count as usize;
    let mut headers = Vec::with_capacity(alloc, count)?;
    for i in 0..count {
        headers.push(header_at(file, i))?;
    }
    Ok(headers)
}

fn header_at(file: &[u8], index: usize) -> ProgramHeader
    requires { 64 + 56 * index + 56 ≤ length file.now }
    ensures { result ≡ program_header_at file.now index }
{
    let (_before, rest) = file.split_at(64 + 56 * index);
    let (record, _after) = rest.split_at(56);
    ProgramHeader::read(View::new(record)).unwrap()
}

fn loads_of(alloc: Global, headers: &[ProgramHeader]) -> Result<Vec<ProgramHeader>, AllocError>
    ensures { IfOk result (λ v. v.items ≡ loads_in headers.now) }
{
    let mut segments = Vec::new(alloc);
    for header in headers {
        if is_a_load(header) {
            segments.push(*header)?;
        }
    }
    Ok(segments)
}

fn thread_blocks_of(
    alloc: Global,
    headers: &[ProgramHeader],
) -> Result<Vec<ProgramHeader>, AllocError>
    ensures { IfOk result (λ v. v.items ≡ filter is_thread_block headers.now) }
{
    let mut blocks = Vec::new(alloc);
    for header in headers {
        if header.p_type == 7 {
            blocks.push(*header)?;
        }
    }
    Ok(blocks)
}

/// Judges the program headers of a file of `len` bytes: their order, each one's rules, the pages.
fn judge(headers: &[ProgramHeader], segments: &[ProgramHeader], len: usize) -> Result<(), LoadFault>
    requires segments_are { segments.now ≡ loads_in headers.now }
    requires inside { 64 + 56 * length headers.now ≤ len }
    ensures good { IfOk result (λ _. IsGoodTable len headers.now) }
    ensures fault { IfErr result (FaultInTable len headers.now) }
{
    if !is_in_order(headers) {
        return Err(LoadFault::Order);
    }
    let size = 64 + 56 * headers.len();
    if !are_good_segments(headers, segments, size as u64, len as u64) {
        return Err(LoadFault::BadSegment);
    }
    if !share_no_page(segments) {
        return Err(LoadFault::SharedPage);
    }
    Ok(())
}

/// The segment that maps an address.
fn find_segment<'s>(segments: &'s [ProgramHeader], addr: u64) -> Option<&'s ProgramHeader>
    ensures found { option_copied result ≡ find (λ h. maps h addr) segments.now }
    ensures maps { IfSome result (λ h. maps h.now addr ≡ true) }
    ensures there { IfSome result (λ h. Contains segments.now h.now) }
{
    segments.iter().find(|h| is_mapped_by(h, addr))
}

fn is_mapped_by(segment: &ProgramHeader, addr: u64) -> bool
    ensures { result ≡ maps segment.now addr }
{
    segment.p_vaddr <= addr && addr - segment.p_vaddr < segment.p_memsz
}

/// The byte of a segment at an address of its memory: the file's, and 0 behind its file part.
fn byte_in(file: &[u8], segment: &ProgramHeader, addr: u64) -> u8
    requires lawful { IsLawful (length file.now) segment.now }
    requires mapped { maps segment.now addr ≡ true }
    ensures { result ≡ segment_byte file.now segment.now addr }
{
    let offset = addr - segment.p_vaddr;
    if offset < segment.p_filesz {
        file[(segment.p_offset + offset) as usize]
    } else {
        0
    }
}

fn rights_in(segment: &ProgramHeader, len: usize) -> Rights
    requires { IsLawful len segment.now }
    ensures { rights_sum result ≡ segment.now.p_flags }
{
    match segment.p_flags {
        5 => Rights::ReadExecute,
        6 => Rights::ReadWrite,
        _ => Rights::Read,
    }
}

/// How many of the segments, which stand by address, begin at or below an address.
fn count_begun(segments: &[ProgramHeader], addr: u64) -> usize
    requires { IsNonDecreasingBy (λ h. h.p_vaddr) segments.now }
    ensures within { result ≤ length segments.now }
    ensures begun { (k : ℕ) (d : ProgramHeader) →
        k < result → (slice_index_or segments.now k d).p_vaddr ≤ addr }
    ensures not_yet { (k : ℕ) (d : ProgramHeader) →
        result ≤ k → k < length segments.now → addr < (slice_index_or segments.now k d).p_vaddr }
{
    segments.partition_point(|h| h.p_vaddr <= addr)
}

/// A segment that encloses a range of addresses. Each segment ends before the next begins.
fn find_enclosing<'s>(
    segments: &'s [ProgramHeader],
    addr: u64,
    len: u64,
) -> Option<&'s ProgramHeader>
    requires { AllPairs EndsBefore segments.now }
    ensures found { IsSome result ↔ Any (λ h. Encloses h addr len) segments.now }
    ensures encloses { IfSome result (λ h. Encloses h.now addr len) }
    ensures there { IfSome result (λ h. Contains segments.now h.now) }
{
    let begun = count_begun(segments, addr);
    if begun == 0 {
        return None;
    }
    let last = &segments[begun - 1];
    if !is_enclosed_by(last, addr, len) {
        return None;
    }
    Some(last)
}

fn is_enclosed_by(segment: &ProgramHeader, addr: u64, len: u64) -> bool
    ensures { IsTrue result ↔ Encloses segment.now addr len }
{
    if addr < segment.p_vaddr || len > segment.p_memsz {
        return false;
    }
    addr - segment.p_vaddr <= segment.p_memsz - len
}

/// The run of an enclosed range in its segment.
fn run_in<'f>(file: &'f [u8], segment: &ProgramHeader, addr: u64, len: u64) -> Run<'f>
    requires lawful { IsLawful (length file.now) segment.now }
    requires enclosed { Encloses segment.now addr len }
    ensures whole { length result.bytes.now + result.zeros ≡ len }
    ensures same { (k : ℕ) → k < len
        → segment_byte file.now segment.now (addr + k) ≡ slice_index result.bytes.now k }
{
    let offset = addr - segment.p_vaddr;
    if offset >= segment.p_filesz {
        return Run {
            bytes: &[],
            zeros: len,
        };
    }
    let count = len.min(segment.p_filesz - offset);
    let from = (segment.p_offset + offset) as usize;
    let (_before, rest) = file.split_at(from);
    let (bytes, _after) = rest.split_at(count as usize);
    Run {
        bytes,
        zeros: len - count,
    }
}
