//! The file header of a program, as a test.
ghost use Rattle.std.specs.Prelude.{◌≡◌, ◌↔◌, ◌≤◌, IfSome, IsSome, IsTrue, SomeIff, length};
ghost use Rattle.elf_model.specs.Inputs.Records.{file_header};
ghost use Rattle.judge_model.specs.Headers.{IsFileHeader, IsIdent};
ghost use Rattle.foreign_image.specs.Images.{HasFileHeader, HasSizes};

use byteview::{View, equal_run};
use elf_model::{EHDR_SIZE, EM_X86_64, ET_EXEC, FileHeader, PHDR_SIZE, SHDR_SIZE};

/// What e_ident begins with: the magic number, 64 bits, least significant byte first, version 1.
const IDENT: [u8; 7] = [0x7f, 0x45, 0x4c, 0x46, 2, 1, 1];

/// The most program headers of a program: those that fit a page.
const MOST_HEADERS: u16 = 73;

/// Whether e_ident says: ELF of 64 bits, least significant byte first, version 1, for System V or GNU.
fn is_ident(ident: &[u8; 16]) -> bool
    ensures { IsTrue result ↔ IsIdent ident.now }
{
    if !equal_run(&ident[..7], &IDENT) {
        return false;
    }
    ident[7] == 0 || ident[7] == 3
}

/// Whether the sizes of a header's records are those of ELF-64: section headers may be none.
fn has_sizes(header: &FileHeader) -> bool
    ensures { IsTrue result ↔ HasSizes header.now }
{
    if header.e_ehsize as usize != EHDR_SIZE || header.e_phentsize as usize != PHDR_SIZE {
        return false;
    }
    header.e_shentsize as usize == SHDR_SIZE || (header.e_shentsize == 0 && header.e_shnum == 0)
}

/// Whether the header is that of a program in a file of `len` bytes.
fn is_file_header(header: &FileHeader, len: usize) -> bool
    ensures { IsTrue result ↔ IsFileHeader len header.now }
{
    let h = header;
    if !is_ident(&h.e_ident) || h.e_type != ET_EXEC || h.e_machine != EM_X86_64 {
        return false;
    }
    if h.e_version != 1 || h.e_flags != 0 || h.e_phoff != 64 {
        return false;
    }
    if !has_sizes(h) || h.e_phnum > MOST_HEADERS {
        return false;
    }
    64 + 56 * h.e_phnum as usize <= len
}

fn read_header(file: &[u8]) -> Option<FileHeader>
    ensures { SomeIff result (64 ≤ length file.now) (file_header file.now) }
{
    FileHeader::read(View::new(file))
}

/// The file header, where it is that of a program; None of another file.
pub fn header_of(file: &[u8]) -> Option<FileHeader>
    ensures header { IfSome result (λ h. h ≡ file_header file.now) }
    ensures good { IsSome result ↔ HasFileHeader file.now }
{
    let header = read_header(file)?;
    if !is_file_header(&header, file.len()) {
        return None;
    }
    Some(header)
}
