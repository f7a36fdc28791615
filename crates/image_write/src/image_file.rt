//! The image file of a layout.
ghost use Rattle.std.specs.Prelude.{◌≡◌, All, IfSome};
ghost use Rattle.elf_model.specs.Inputs.Command.{IsBase};
ghost use Rattle.elf_model.specs.Link.Loading.{AreObjects};
ghost use Rattle.elf_model.specs.Image.MemoryImage as memory;
ghost use Rattle.elf_model.specs.Own.OwnLayout.{IsNotTooLarge};
ghost use Rattle.elf_model.specs.Link.Pieces.{AreLawfulKinds};
ghost use Rattle.image_write.specs.Parts.{AreContents, EndsLow, basis_of, file_parts};
ghost use Rattle.image_write.specs.Streams.{Puts, stream};
ghost use Rattle.image_write.specs.Tables.{IsInRange, fields_of};

use crate::buffer::Buffer;
use crate::fill_bytes::code_of;
use crate::headers::{headers_size, put_headers};
use crate::pieces::{Contents, put_places};
use crate::sink::{Sink, SinkFault};
use crate::symbol_table::SymbolTable;
use elf_model::ProgramHeader;

/// Where the last file part of segments ends, in bytes of the file.
pub fn file_end(segments: &[ProgramHeader]) -> u64
    requires { All EndsLow segments.now }
    ensures { result ≡ memory.file_end segments.now }
{
    let mut end = 0;
    for segment in segments {
        if segment.p_filesz > 0 {
            end = end.max(segment.p_offset + segment.p_filesz);
        }
    }
    end
}

/// Writes the image file that is entered at an address up to the end of its last file part: the headers, the pieces for
/// which memory has a place at their offsets with their relocated bytes, the GOT with the values of its slots, and fill
/// between them.
pub fn write_file<S: Sink>(
    sink: &mut S,
    buffer: &mut Buffer,
    contents: &Contents<'_, '_>,
    entry: u64,
    table: Option<SymbolTable>,
) -> Result<(), SinkFault>
    requires base { IsBase (basis_of contents.now).base }
    requires objects { AreObjects (basis_of contents.now).objects }
    requires kinds { AreLawfulKinds (basis_of contents.now).objects }
    requires fits { IsNotTooLarge (basis_of contents.now).base (basis_of contents.now).objects }
    requires contents { AreContents contents.now }
    requires table { IfSome table IsInRange }
    requires whole { S.failed sink.old ≡ 0 }
    ensures { Puts (stream (S.told sink.old) buffer.old (S.failed sink.old))
        (file_parts (basis_of contents.now).base (basis_of contents.now).objects
        (fields_of entry table)) result (stream (S.told sink.new) buffer.new (S.failed sink.new)) }
{
    let placement = contents.placement;
    let base = placement.base();
    let segments = placement.segments();
    let threads = placement.thread_header();
    let to = base + file_end(segments);
    let from = base + headers_size(segments, threads);
    put_headers(sink, buffer, segments, threads, entry, table)?;
    let code = code_of(segments);
    put_places(
        sink,
        buffer,
        contents,
        &code,
        placement.loaded_places(),
        from,
        to,
    )
}
