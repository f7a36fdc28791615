//! The image that a debuggable image begins with.
ghost use Rattle.std.specs.Prelude.{◌≡◌, ◌+◌, ◌*◌, ◌≤◌, ◌<◌, ◌^◌, ◌++◌, IfOk, SomeIff, drop, length, min, take};
ghost use Rattle.elf_model.specs.Image.MemoryImage.{file_end, headers_size, loads, program_header_at};
ghost use Rattle.elf_model.specs.Inputs.Records.{file_header, file_header_bytes};
ghost use Rattle.debug_image.specs.PlainImages.{cleared, end_with, plain_of};

use byteview::View;
use elf_model::{EHDR_SIZE, FileHeader, PHDR_SIZE, PT_LOAD, ProgramHeader};
use std::alloc::{AllocError, Global};

/// The file header of an image that is long enough for it.
fn read_header(image: &[u8]) -> Option<FileHeader>
    ensures { SomeIff result (64 ≤ length image.now) (file_header image.now) }
{
    FileHeader::read(View::new(image))
}

/// Program header `index` of an image that has it.
fn program_header(image: &[u8], index: usize) -> ProgramHeader
    requires { 64 + 56 * (index + 1) ≤ length image.now }
    ensures { result ≡ program_header_at image.now index }
{
    let (_, rest) = image.split_at(EHDR_SIZE + PHDR_SIZE * index);
    let (bytes, _) = rest.split_at(PHDR_SIZE);
    let Some(header) = ProgramHeader::read(View::new(bytes)) else {
        unreachable!()
    };
    header
}

/// Where the file part of a segment ends in a file of a length, if that is behind an offset.
fn end_with(header: &ProgramHeader, len: u64, end: u64) -> u64
    requires { end ≤ len }
    ensures { result ≡ end_with header.now len end }
{
    if header.p_type != PT_LOAD || header.p_filesz == 0 {
        return end;
    }
    end.max(header.p_offset.saturating_add(header.p_filesz).min(len))
}

/// Where the last file part of an image ends, or where the file does, if that comes first.
fn last_end(image: &[u8], count: u16) -> usize
    requires count { count ≡ (file_header image.now).e_phnum }
    requires whole { headers_size image.now ≤ length image.now }
    ensures { result ≡ min (length image.now) (file_end (loads image.now)) }
{
    let mut end: u64 = 0;
    for index in 0..count as usize {
        end = end_with(&program_header(image, index), image.len() as u64, end);
    }
    end as usize
}

/// What stands behind the first 64 bytes up to an end.
fn between(image: &[u8], end: usize) -> &[u8]
    requires { end ≤ length image.now }
    ensures { result.now ≡ drop 64 (take end image.now) }
{
    let (front, _) = image.split_at(end);
    if end < EHDR_SIZE {
        return &[];
    }
    let (_, rest) = front.split_at(EHDR_SIZE);
    rest
}

/// A file header and the bytes behind it.
fn joined(alloc: Global, header: &FileHeader, rest: &[u8]) -> Result<Vec<u8>, AllocError>
    ensures { IfOk result (λ v. v.items ≡ file_header_bytes header.now ++ rest.now) }
{
    let mut bytes = [0; EHDR_SIZE];
    header.write_to(&mut bytes);
    let mut file = Vec::from_slice(alloc, &bytes)?;
    file.extend_from_slice(rest)?;
    Ok(file)
}

/// The image that a debuggable image begins with: its bytes up to the end of the last file part, where the file header speaks of
/// no section headers. A file that is too short for its program headers stays what it is.
pub fn plain_image(alloc: Global, image: &[u8]) -> Result<Vec<u8>, AllocError>
    ensures { IfOk result (λ v. v.items ≡ plain_of image.now) }
{
    let Some(header) = read_header(image) else {
        return Vec::from_slice(alloc, image);
    };
    if EHDR_SIZE + PHDR_SIZE * header.e_phnum as usize > image.len() {
        return Vec::from_slice(alloc, image);
    }
    let end = last_end(image, header.e_phnum);
    let plain = FileHeader {
        e_shoff: 0,
        e_shnum: 0,
        e_shstrndx: 0,
        ..header
    };
    let file = joined(alloc, &plain, between(image, end))?;
    Ok(file)
}
