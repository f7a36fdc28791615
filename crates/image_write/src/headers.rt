//! The file header and the program headers of the image.
ghost use Rattle.std.specs.Prelude.{◌≡◌, ◌+◌, ◌*◌, ◌<◌, ◌^◌, IfSome, length};
ghost use Rattle.std.specs.List.{flat_map};
ghost use Rattle.elf_model.specs.Own.ImageFile as forms;
ghost use Rattle.elf_model.specs.Own.ImageFile.{own_file_header};
ghost use Rattle.elf_model.specs.Inputs.Records.{file_header_bytes, program_header_bytes};
ghost use Rattle.image_write.specs.Parts.{as_list, count_of, headers_of};
ghost use Rattle.image_write.specs.Streams.{Puts, stream};
ghost use Rattle.image_write.specs.Tables.{IsInRange, fields_of};

use crate::buffer::Buffer;
use crate::sink::{Sink, SinkFault};
use crate::stream::put;
use crate::symbol_table::SymbolTable;
use elf_model::{
    EHDR_SIZE, ELFCLASS64, ELFDATA2LSB, EM_X86_64, ET_EXEC, EV_CURRENT, FileHeader, PF_R, PF_W,
    PHDR_SIZE, PT_GNU_STACK, ProgramHeader, SHDR_SIZE,
};

/// The file header of an executable with so many program headers, and with section headers where it has a symbol table
/// (System V gABI 4, "ELF Header").
fn file_header(entry: u64, table: Option<SymbolTable>, count: u16) -> FileHeader
    requires { IfSome table IsInRange }
    ensures { result ≡ own_file_header (fields_of entry table) count }
{
    let (offset, sections, names) = match table {
        Some(table) => (table.headers(), 4, 3),
        None => (0, 0, 0),
    };
    FileHeader {
        e_ident: [
            0x7f,
            b'E',
            b'L',
            b'F',
            ELFCLASS64,
            ELFDATA2LSB,
            EV_CURRENT,
            0,
            0,
            0,
            0,
            0,
            0,
            0,
            0,
            0,
        ],
        e_type: ET_EXEC,
        e_machine: EM_X86_64,
        e_version: EV_CURRENT as u32,
        e_entry: entry,
        e_phoff: EHDR_SIZE as u64,
        e_shoff: offset,
        e_flags: 0,
        e_ehsize: EHDR_SIZE as u16,
        e_phentsize: PHDR_SIZE as u16,
        e_phnum: count,
        e_shentsize: SHDR_SIZE as u16,
        e_shnum: sections,
        e_shstrndx: names,
    }
}

/// The stack may be read and written, and not executed (profile).
fn stack_header() -> ProgramHeader
    ensures { result ≡ forms.stack_header }
{
    ProgramHeader {
        p_type: PT_GNU_STACK,
        p_flags: PF_R | PF_W,
        p_offset: 0,
        p_vaddr: 0,
        p_paddr: 0,
        p_filesz: 0,
        p_memsz: 0,
        p_align: 0,
    }
}

fn put_file_header<S: Sink>(
    sink: &mut S,
    buffer: &mut Buffer,
    header: &FileHeader,
) -> Result<(), SinkFault>
    requires { S.failed sink.old ≡ 0 }
    ensures { Puts (stream (S.told sink.old) buffer.old (S.failed sink.old))
        (file_header_bytes header.now) result
        (stream (S.told sink.new) buffer.new (S.failed sink.new)) }
{
    let mut bytes = [0; EHDR_SIZE];
    header.write_to(&mut bytes);
    put(sink, buffer, &bytes)
}

fn put_program_header<S: Sink>(
    sink: &mut S,
    buffer: &mut Buffer,
    header: &ProgramHeader,
) -> Result<(), SinkFault>
    requires { S.failed sink.old ≡ 0 }
    ensures { Puts (stream (S.told sink.old) buffer.old (S.failed sink.old))
        (program_header_bytes header.now) result
        (stream (S.told sink.new) buffer.new (S.failed sink.new)) }
{
    let mut bytes = [0; PHDR_SIZE];
    header.write_to(&mut bytes);
    put(sink, buffer, &bytes)
}

fn put_segments<S: Sink>(
    sink: &mut S,
    buffer: &mut Buffer,
    segments: &[ProgramHeader],
) -> Result<(), SinkFault>
    requires { S.failed sink.old ≡ 0 }
    ensures { Puts (stream (S.told sink.old) buffer.old (S.failed sink.old))
        (flat_map program_header_bytes segments.now) result
        (stream (S.told sink.new) buffer.new (S.failed sink.new)) }
{
    for segment in segments {
        put_program_header(sink, buffer, segment)?;
    }
    Ok(())
}

/// Puts the program header of thread-local storage, where there is one.
fn put_thread_header<S: Sink>(
    sink: &mut S,
    buffer: &mut Buffer,
    header: Option<ProgramHeader>,
) -> Result<(), SinkFault>
    requires { S.failed sink.old ≡ 0 }
    ensures { Puts (stream (S.told sink.old) buffer.old (S.failed sink.old))
        (flat_map program_header_bytes (as_list header)) result
        (stream (S.told sink.new) buffer.new (S.failed sink.new)) }
{
    match header {
        Some(header) => put_program_header(sink, buffer, &header),
        None => Ok(()),
    }
}

/// The number of program headers: those of the segments, that of thread-local storage, where there is one, and that of
/// the stack.
fn header_count(segments: &[ProgramHeader], threads: Option<ProgramHeader>) -> u16
    requires few { length segments.now + 2 < 2 ^ 16 }
    ensures { result ≡ count_of segments.now (as_list threads) }
{
    let count = segments.len() as u16 + 1;
    if threads.is_some() { count + 1 } else { count }
}

/// Puts the file header, the program headers of the segments, that of thread-local storage, where there is one, and that
/// of the stack.
pub fn put_headers<S: Sink>(
    sink: &mut S,
    buffer: &mut Buffer,
    segments: &[ProgramHeader],
    threads: Option<ProgramHeader>,
    entry: u64,
    table: Option<SymbolTable>,
) -> Result<(), SinkFault>
    requires few { length segments.now + 2 < 2 ^ 16 }
    requires table { IfSome table IsInRange }
    requires whole { S.failed sink.old ≡ 0 }
    ensures { Puts (stream (S.told sink.old) buffer.old (S.failed sink.old))
        (headers_of (fields_of entry table) segments.now (as_list threads)) result
        (stream (S.told sink.new) buffer.new (S.failed sink.new)) }
{
    let header = file_header(entry, table, header_count(segments, threads));
    put_file_header(sink, buffer, &header)?;
    put_segments(sink, buffer, segments)?;
    put_thread_header(sink, buffer, threads)?;
    put_program_header(sink, buffer, &stack_header())
}

/// The size of the headers in bytes.
pub fn headers_size(segments: &[ProgramHeader], threads: Option<ProgramHeader>) -> u64
    requires few { length segments.now + 2 < 2 ^ 16 }
    ensures { result ≡ 64 + 56 * count_of segments.now (as_list threads) }
{
    let count = usize::from(header_count(segments, threads));
    (EHDR_SIZE + PHDR_SIZE * count) as u64
}
