//! The file header and the section header table, and whether an object may have them (System V gABI 4, "ELF Header").
ghost use Rattle.std.specs.Prelude.{◌≡◌, ◌↔◌, ◌+◌, ◌*◌, ◌<◌, ◌≤◌, ◌^◌, length, IfErr, IfOk, IsTrue};
ghost use Rattle.byteview.specs.Numbers.{IsInside, part};
ghost use Rattle.elf_model.specs.Inputs.ObjectFile.{HasTable, IsElf64, ObjFaultStands, sections_of};
ghost use Rattle.elf_model.specs.Inputs.Records.{file_header, section_header};

use crate::run::Run;
use byteview::{View, equal_run};
use elf_model::{
    EHDR_SIZE, EM_X86_64, ET_REL, FileHeader, ObjFault, SHDR_SIZE, SHN_LORESERVE, SectionHeader,
};
use std::alloc::{AllocError, Global};

/// What e_ident begins with: the magic number, 64 bits, least significant byte first, version 1.
static IDENT: [u8; 7] = [0x7f, b'E', b'L', b'F', 2, 1, 1];

/// Files of this many bytes and more are refused.
const FILE_LIMIT: usize = 1 << 32;

/// The file header, where it promises a section header table that can be read.
pub fn read_header(file: &View<'_>) -> Result<FileHeader, ObjFault>
    ensures header { IfOk result (λ h. h ≡ file_header file.now) }
    ensures long { IfOk result (λ _. 64 ≤ length file.now) }
    ensures elf64 { IfOk result IsElf64 }
    ensures relocatable { IfOk result (λ h. h.e_type ≡ 1) }
    ensures machine { IfOk result (λ h. h.e_machine ≡ 62) }
    ensures ehsize { IfOk result (λ h. h.e_ehsize ≡ 64) }
    ensures table { IfOk result (HasTable (length file.now)) }
    ensures size { IfOk result (λ _. length file.now < 2 ^ 32) }
    ensures fault { IfErr result (ObjFaultStands file.now) }
{
    let Some(header) = FileHeader::read(View::new(file.bytes())) else {
        return Err(ObjFault::Truncated);
    };
    if !is_elf64(&header) {
        return Err(ObjFault::NotElf64);
    }
    if header.e_type != ET_REL {
        return Err(ObjFault::NotRelocatable);
    }
    if header.e_machine != EM_X86_64 {
        return Err(ObjFault::WrongMachine);
    }
    if file.len() >= FILE_LIMIT {
        return Err(ObjFault::TooMany);
    }
    if header.e_ehsize as usize != EHDR_SIZE || !has_table(&header, file.len()) {
        return Err(ObjFault::BadSectionTable);
    }
    Ok(header)
}

/// The section header table, which lies inside the file.
pub fn section_table<'a>(file: &View<'a>, header: &FileHeader) -> Run<'a, SectionHeader>
    requires { HasTable (length file.now) header.now }
    ensures { result ≡ sections_of file.now header.now }
{
    Run::new(
        file.bytes(),
        header.e_shoff as usize,
        header.e_shnum as usize,
    )
}

/// The section headers of a file, as a table of their own.
pub fn read_sections(
    alloc: Global,
    file: &View<'_>,
    header: &FileHeader,
) -> Result<Vec<SectionHeader>, AllocError>
    requires { HasTable (length file.now) header.now }
    ensures { IfOk result (λ v. v.items ≡ sections_of file.now header.now) }
{
    section_table(file, header).to_vec(alloc)
}

fn is_elf64(header: &FileHeader) -> bool
    ensures { IsTrue result ↔ IsElf64 header.now }
{
    equal_run(&header.e_ident[..7], &IDENT) && header.e_version == 1
}

fn has_table(header: &FileHeader, len: usize) -> bool
    ensures { IsTrue result ↔ HasTable len header.now }
{
    if header.e_shentsize as usize != SHDR_SIZE || header.e_shnum == 0 {
        return false;
    }
    let size = SHDR_SIZE * header.e_shnum as usize;
    header.e_shnum < SHN_LORESERVE
        && header.e_shoff as usize <= len
        && size <= len - header.e_shoff as usize
}
