//! An image that another linker made: its headers, and memory as a loader makes it (System V gABI 5, "Program Loading").
ghost use Rattle.std.specs.Prelude.{◌≡◌, ◌↔◌, ◌+◌, ◌*◌, ◌≤◌, Any, IfOk, IfSome, IsSome, IsTrue, filter, length, map, option_map};
ghost use Rattle.std.specs.List.{range_with_len};
ghost use Rattle.elf_model.specs.Image.MemoryImage.{Encloses, is_thread_block, loads, loads_in, memory_of, program_header_at, program_headers, thread_blocks};
ghost use Rattle.elf_model.specs.Inputs.Records.{file_header};
ghost use Rattle.judge_model.specs.Headers.{IsProgram};
ghost use Rattle.loader_model.specs.Memory.{IsRun};
ghost use Rattle.foreign_image.specs.Images.{AreGoodHeaders};

use crate::header::header_of;
use crate::segments::{byte_in, find_enclosing, find_segment, run_in};
use crate::table::{are_loads, are_mapped, are_tables, are_true, are_types_right, is_a_load};
use byteview::View;
use elf_model::{FileHeader, ProgramHeader};
use loader_model::Run;
use std::alloc::{AllocError, Global};
use std::marker::Model;

/// The headers of an image that the system maps, and what it has in memory then: a partial function from addresses to
/// bytes. It borrows the image.
#[derive(Drop)]
pub struct ForeignImage<'a> {
    file: &'a [u8],
    header: FileHeader,
    headers: Vec<ProgramHeader>,
    segments: Vec<ProgramHeader>,
    thread_blocks: Vec<ProgramHeader>,
}

impl<'a> Model for ForeignImage<'a> {
    ghost use Rattle.std.specs.Prelude.{List, ℕ};
    ghost use Rattle.foreign_image.specs.Images.{IsForeign};

    ghost Value = { List ℕ };

    ghost view = { λ m. m.file.now };

    ghost invariant = { λ m. IsForeign m.file.now m.header m.headers.items m.segments.items m.thread_blocks.items };
}

impl<'a> ForeignImage<'a> {
    /// Reads the headers of an image (System V gABI 4 and 5); None where it is no program that Linux on x86-64 maps, or
    /// one whose headers aren't true.
    ///
    /// # Errors
    ///
    /// Only where memory is refused.
    pub fn read(alloc: Global, image: View<'a>) -> Result<Option<ForeignImage<'a>>, AllocError>
        ensures image { IfOk result (λ o. IfSome o (λ m. m ≡ image.entry)) }
        ensures program { IfOk result (λ o. IsSome o ↔ IsProgram image.entry) }
    {
        let file = image.bytes();
        let Some(header) = header_of(file) else {
            return Ok(None);
        };
        let headers = table_of(alloc, file, header.e_phnum)?;
        let segments = loads_of(alloc, &headers)?;
        if !are_good(&headers, &segments, file.len()) {
            return Ok(None);
        }
        let thread_blocks = thread_blocks_of(alloc, &headers)?;
        Ok(Some(ForeignImage {
            file,
            header,
            headers,
            segments,
            thread_blocks,
        }))
    }

    /// The bytes of the image, which is a program.
    pub fn image(&self) -> &'a [u8]
        ensures bytes { result.now ≡ self.now }
        ensures program { IsProgram self.now }
    {
        self.file
    }

    /// The file header.
    pub fn header(&self) -> FileHeader
        ensures { result ≡ file_header self.now }
    {
        self.header
    }

    /// The program headers, in the table's order.
    pub fn headers(&self) -> &[ProgramHeader]
        ensures { result.now ≡ program_headers self.now }
    {
        &self.headers
    }

    /// The PT_LOAD headers, by ascending address.
    pub fn segments(&self) -> &[ProgramHeader]
        ensures { result.now ≡ loads self.now }
    {
        &self.segments
    }

    /// The PT_TLS headers, one at most.
    pub fn thread_blocks(&self) -> &[ProgramHeader]
        ensures { result.now ≡ thread_blocks self.now }
    {
        &self.thread_blocks
    }

    /// The byte that memory has at an address; None where no segment maps it.
    pub fn byte(&self, addr: u64) -> Option<u8>
        ensures { result ≡ option_map (λ c. c.byte) (memory_of self.now addr) }
    {
        let segment = find_segment(&self.segments, addr)?;
        Some(byte_in(self.file, segment, addr))
    }

    /// What memory has from `addr` on for `len` addresses: file bytes, then a number of zeros. None unless
    /// all of them lie in one PT_LOAD.
    pub fn run(&self, addr: u64, len: u64) -> Option<Run<'a>>
        ensures found { IsSome result ↔ Any (λ h. Encloses h addr len) (loads self.now) }
        ensures run { IfSome result (λ r. IsRun self.now addr len r.bytes.now r.zeros) }
    {
        let segment = find_enclosing(&self.segments, addr, len)?;
        Some(run_in(self.file, segment, addr, len))
    }

    /// The address at which the program is entered.
    pub fn entry(&self) -> u64
        ensures { result ≡ (file_header self.now).e_entry }
    {
        self.header.e_entry
    }
}

/// The program header table behind a file header that the file has room for.
fn table_of(alloc: Global, file: &[u8], count: u16) -> Result<Vec<ProgramHeader>, AllocError>
    requires { 64 + 56 * count ≤ length file.now }
    ensures { IfOk result (λ v. v.items
        ≡ map (program_header_at file.now) (range_with_len 0 count)) }
{
    let count = count as usize;
    let mut headers = Vec::with_capacity(alloc, count)?;
    for i in 0..count {
        headers.push(header_at(file, i))?;
    }
    Ok(headers)
}

fn header_at(file: &[u8], index: usize) -> ProgramHeader
    requires { 64 + 56 * index + 56 ≤ length file.now }
    ensures { result ≡ program_header_at file.now index }
{
    let (_before, rest) = file.split_at(64 + 56 * index);
    let (record, _after) = rest.split_at(56);
    ProgramHeader::read(View::new(record)).unwrap()
}

fn loads_of(alloc: Global, headers: &[ProgramHeader]) -> Result<Vec<ProgramHeader>, AllocError>
    ensures { IfOk result (λ v. v.items ≡ loads_in headers.now) }
{
    let mut segments = Vec::new(alloc);
    for header in headers {
        if is_a_load(header) {
            segments.push(*header)?;
        }
    }
    Ok(segments)
}

fn thread_blocks_of(
    alloc: Global,
    headers: &[ProgramHeader],
) -> Result<Vec<ProgramHeader>, AllocError>
    ensures { IfOk result (λ v. v.items ≡ filter is_thread_block headers.now) }
{
    let mut blocks = Vec::new(alloc);
    for header in headers {
        if header.p_type == 7 {
            blocks.push(*header)?;
        }
    }
    Ok(blocks)
}

/// Whether the program headers of a file of `len` bytes are those of a program.
fn are_good(headers: &[ProgramHeader], segments: &[ProgramHeader], len: usize) -> bool
    requires segments_are { segments.now ≡ loads_in headers.now }
    requires inside { 64 + 56 * length headers.now ≤ len }
    ensures { IsTrue result ↔ AreGoodHeaders len headers.now }
{
    if !are_types_right(headers) || !are_loads(segments, len as u64) {
        return false;
    }
    if !are_true(segments, headers) || !are_tables(headers) {
        return false;
    }
    are_mapped(segments, 64 + 56 * headers.len() as u64)
}
