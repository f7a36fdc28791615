//! The section headers and the bytes of .shstrtab.
ghost use Rattle.std.specs.Prelude.{◌≡◌, ◌++◌, ◌∷◌, IfOk, OnOk, length};
ghost use Rattle.elf_model.specs.Inputs.Records.{section_header_bytes};
ghost use Rattle.elf_model.specs.Image.SymbolTable.{ended};
ghost use Rattle.debug_image.specs.Tables as spec;
ghost use Rattle.debug_image.specs.Tables.{header_at};
ghost use Rattle.debug_image.specs.Views.{header_view, header_views};

use crate::symbol_table::add_name;
use elf_model::{SHDR_SIZE, SHT_STRTAB, SHT_SYMTAB, SYM_SIZE, SectionHeader};
use std::alloc::{AllocError, Global};

/// A section's name and its header but for sh_name.
#[derive(Clone, Copy, Debug)]
pub struct HeaderRow<'a> {
    pub title: &'a [u8],
    pub header: SectionHeader,
}

fn add_header(headers: &mut Vec<u8>, header: &SectionHeader) -> Result<(), AllocError>
    ensures { OnOk result (headers.new.items
        ≡ headers.old.items ++ section_header_bytes header.now) }
{
    let mut bytes = [0; SHDR_SIZE];
    header.write_to(&mut bytes);
    headers.extend_from_slice(&bytes)?;
    Ok(())
}

fn add_row(
    headers: &mut Vec<u8>,
    titles: &mut Vec<u8>,
    row: &HeaderRow<'_>,
) -> Result<(), AllocError>
    ensures headers { OnOk result (headers.new.items
        ≡ headers.old.items
        ++ section_header_bytes (header_at (length titles.old.items) (header_view row.now))) }
    ensures titles { OnOk result (titles.new.items ≡ titles.old.items ++ ended row.now.title.now) }
{
    let header = SectionHeader {
        sh_name: (titles.len() % 0x1_0000_0000) as u32,
        ..row.header
    };
    add_header(headers, &header)?;
    add_name(titles, row.title)
}

/// The bytes of the section headers of rows.
pub fn header_bytes(alloc: Global, rows: &[HeaderRow<'_>]) -> Result<Vec<u8>, AllocError>
    ensures { IfOk result (λ v. v.items ≡ spec.headers (header_views rows.now)) }
{
    let mut headers = Vec::new(alloc);
    let mut titles = Vec::new(alloc);
    add_header(&mut headers, &SectionHeader::NULL)?;
    titles.push(0)?;
    for row in rows {
        add_row(&mut headers, &mut titles, row)?;
    }
    Ok(headers)
}

/// The names of sections, each with its NUL, behind a first NUL.
fn section_titles(alloc: Global, rows: &[HeaderRow<'_>]) -> Result<Vec<u8>, AllocError>
    ensures { IfOk result (λ v. v.items ≡ 0 ∷ spec.row_titles (header_views rows.now)) }
{
    let mut titles = Vec::new(alloc);
    titles.push(0)?;
    for row in rows {
        add_name(&mut titles, row.title)?;
    }
    Ok(titles)
}

/// The bytes of .shstrtab: the names of sections, and those of the three tables.
pub fn title_bytes(alloc: Global, rows: &[HeaderRow<'_>]) -> Result<Vec<u8>, AllocError>
    ensures { IfOk result (λ v. v.items ≡ spec.titles (header_views rows.now)) }
{
    let mut titles = section_titles(alloc, rows)?;
    add_name(&mut titles, b".symtab")?;
    add_name(&mut titles, b".strtab")?;
    add_name(&mut titles, b".shstrtab")?;
    Ok(titles)
}

/// The row of .symtab.
pub fn symtab_row<'a>(offset: u64, size: u64, link: u32, info: u32) -> HeaderRow<'a>
    ensures { header_view result ≡ spec.symtab_row offset size link info }
{
    HeaderRow {
        title: b".symtab",
        header: SectionHeader {
            sh_name: 0,
            sh_type: SHT_SYMTAB,
            sh_flags: 0,
            sh_addr: 0,
            sh_offset: offset,
            sh_size: size,
            sh_link: link,
            sh_info: info,
            sh_addralign: 8,
            sh_entsize: SYM_SIZE as u64,
        },
    }
}

/// The row of a string table.
pub fn strings_row<'a>(title: &'a [u8], offset: u64, size: u64) -> HeaderRow<'a>
    ensures { header_view result ≡ spec.strings_row title.now offset size }
{
    HeaderRow {
        title,
        header: SectionHeader {
            sh_name: 0,
            sh_type: SHT_STRTAB,
            sh_flags: 0,
            sh_addr: 0,
            sh_offset: offset,
            sh_size: size,
            sh_link: 0,
            sh_info: 0,
            sh_addralign: 1,
            sh_entsize: 0,
        },
    }
}
