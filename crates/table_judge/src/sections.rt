//! The section headers of an image, and whether they are true of its memory.
ghost use Rattle.std.specs.Prelude.{◌≡◌, ◌↔◌, ◌+◌, ◌≤◌, All, Any, IfOk, IfSome, IsSome, IsTrue, length};
ghost use Rattle.byteview.specs.Numbers.{part};
ghost use Rattle.elf_model.specs.Image.MemoryImage.{loads};
ghost use Rattle.elf_model.specs.Inputs.ObjectFile.{has_no_bytes};
ghost use Rattle.elf_model.specs.Inputs.Records.{file_header, section_header};
ghost use Rattle.judge_model.specs.Placed.{needed_rights};
ghost use Rattle.judge_model.specs.Tables.{HasTables, IsSectionTrue, has_first, image_sections, is_in_memory, section_count};
ghost use Rattle.table_judge.specs.Sections.{HasFilePart, HasTable, IsMapped, IsTrueIn, LiesInFile, LiesMapped};

use elf_model::{FileHeader, PF_R, PF_W, PF_X, ProgramHeader, SHT_NULL, SectionHeader};
use elf_read::Run;
use foreign_image::ForeignImage;
use std::alloc::{AllocError, Global};

/// Whether a file has room for a section header at the offset where its header says that they begin.
fn has_first(header: &FileHeader, file: &[u8]) -> bool
    requires { header.now ≡ file_header file.now }
    ensures { result ≡ has_first file.now }
{
    let len = file.len() as u64;
    header.e_shoff > 0 && len >= 64 && header.e_shoff <= len - 64
}

/// `sh_size` of the section header at an offset.
fn size_at(file: &[u8], offset: usize) -> u64
    requires { offset + 64 ≤ length file.now }
    ensures { result ≡ (section_header (part file.now offset 64)).sh_size }
{
    let run: Run<'_, SectionHeader> = Run::new(file, offset, 1);
    run.at(0).sh_size
}

/// How many section headers an image has: e_shnum, or, where this is 0 and there are more than it can tell, sh_size of the
/// first one (System V gABI 4, "ELF Header", e_shnum).
fn section_count(image: &ForeignImage<'_>) -> u64
    ensures { result ≡ section_count image.now }
{
    let header = image.header();
    let file = image.image();
    if header.e_shnum == 0 && has_first(&header, file) {
        size_at(file, header.e_shoff as usize)
    } else {
        header.e_shnum as u64
    }
}

/// Whether an image has section headers.
pub fn has_tables(image: &ForeignImage<'_>) -> bool
    ensures { IsTrue result ↔ HasTables image.now }
{
    section_count(image) > 0
}

/// The section headers of an image; None where they don't lie inside it.
///
/// # Errors
///
/// Only where memory is refused.
pub fn sections_of(
    alloc: Global,
    image: &ForeignImage<'_>,
) -> Result<Option<Vec<SectionHeader>>, AllocError>
    ensures sections { IfOk result (λ o. IfSome o (λ v. v.items ≡ image_sections image.now)) }
    ensures some { IfOk result (λ o. IsSome o ↔ HasTable image.now) }
{
    let count = section_count(image);
    let start = image.header().e_shoff;
    let file = image.image();
    if count > file.len() as u64 / 64 || start > file.len() as u64 - 64 * count {
        return Ok(None);
    }
    let run: Run<'_, SectionHeader> = Run::new(file, start as usize, count as usize);
    let table = run.to_vec(alloc)?;
    Ok(Some(table))
}

/// The rights that a section needs: R, and W and X as its flags say.
fn rights_needed(h: &SectionHeader) -> u32
    ensures { result ≡ needed_rights h.now }
{
    let writes = if h.is_writable() { PF_W } else { 0 };
    let executes = if h.is_executable() { PF_X } else { 0 };
    PF_R + (writes + executes)
}

/// Whether a section's bytes, where it has some, are those of a segment that begins at or below it.
fn has_file_part(h: &SectionHeader, g: &ProgramHeader) -> bool
    requires { g.now.p_vaddr ≤ h.now.sh_addr }
    ensures { IsTrue result ↔ HasFilePart h.now g.now }
{
    if h.is_nobits() {
        return true;
    }
    let into = h.sh_addr - g.p_vaddr;
    if h.sh_offset < g.p_offset || h.sh_offset - g.p_offset != into {
        return false;
    }
    into <= g.p_filesz && h.sh_size <= g.p_filesz - into
}

/// Whether a section is in a segment, with its rights.
fn is_mapped(h: &SectionHeader, g: &ProgramHeader) -> bool
    ensures { IsTrue result ↔ IsMapped h.now g.now }
{
    if h.sh_addr < g.p_vaddr || h.sh_size > g.p_memsz {
        return false;
    }
    if h.sh_addr - g.p_vaddr > g.p_memsz - h.sh_size {
        return false;
    }
    let needed = rights_needed(h);
    if g.p_flags & needed != needed {
        return false;
    }
    has_file_part(h, g)
}

fn is_mapped_by_any(h: &SectionHeader, segments: &[ProgramHeader]) -> bool
    ensures { IsTrue result ↔ Any (IsMapped h.now) segments.now }
{
    segments.iter().any(|g| is_mapped(h, g))
}

/// Whether a section takes up memory: the zeros of thread-local storage don't.
pub fn is_in_memory(h: &SectionHeader) -> bool
    ensures { result ≡ is_in_memory h.now }
{
    h.is_alloc() && !(h.is_thread_local() && h.is_nobits())
}

/// Whether a section that takes up memory is in a segment.
fn lies_mapped(h: &SectionHeader, segments: &[ProgramHeader]) -> bool
    ensures { IsTrue result ↔ LiesMapped segments.now h.now }
{
    if !is_in_memory(h) || h.sh_size == 0 {
        return true;
    }
    is_mapped_by_any(h, segments)
}

fn has_no_bytes(h: &SectionHeader) -> bool
    ensures { result ≡ has_no_bytes h.now }
{
    h.sh_type == SHT_NULL || h.is_nobits()
}

/// Whether the bytes of a section are in a file of `len` bytes, where it has some.
fn lies_in_file(h: &SectionHeader, len: usize) -> bool
    ensures { IsTrue result ↔ LiesInFile len h.now }
{
    if has_no_bytes(h) {
        return true;
    }
    let len = len as u64;
    h.sh_size <= len && h.sh_offset <= len - h.sh_size
}

fn is_true_in(h: &SectionHeader, segments: &[ProgramHeader], file: &[u8]) -> bool
    requires { segments.now ≡ loads file.now }
    ensures { IsTrue result ↔ IsTrueIn file.now h.now }
{
    if !lies_in_file(h, file.len()) {
        return false;
    }
    lies_mapped(h, segments)
}

fn are_true_in(headers: &[SectionHeader], segments: &[ProgramHeader], file: &[u8]) -> bool
    requires { segments.now ≡ loads file.now }
    ensures { IsTrue result ↔ All (IsTrueIn file.now) headers.now }
{
    for h in headers {
        if !is_true_in(h, segments, file) {
            return false;
        }
    }
    true
}

/// Whether each of some section headers is true of an image: a section that takes up memory is in a segment with its rights, and
/// where it has bytes they are the segment's there; the bytes of each that has some are in the file. It looks at each segment for
/// each section: programs have few.
pub fn are_sections_true(image: &ForeignImage<'_>, headers: &[SectionHeader]) -> bool
    ensures { IsTrue result ↔ All (IsSectionTrue image.now) headers.now }
{
    are_true_in(headers, image.segments(), image.image())
}
