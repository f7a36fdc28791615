//! The image of a link, written to a device or into memory.
ghost use Rattle.std.specs.Prelude.{◌≡◌, IfErr, IfOk, OnOk};
ghost use Rattle.image_write.specs.Linkages.{own_image, tables_in};
ghost use Rattle.image_write.specs.Streams.{Puts, Took, WriteFails, stream};

use crate::buffer::Buffer;
use crate::image_file::{file_end, write_file};
use crate::linkage::Linkage;
use crate::memory_sink::MemorySink;
use crate::pieces::Contents;
use crate::sink::{Sink, SinkFault, WriteFault};
use crate::stream::flush;
use crate::tables::{Names, put_tables};
use std::alloc::{AllocError, Global};

/// Puts what stands behind the last file part of a link's image.
fn write_tables<S: Sink>(
    sink: &mut S,
    buffer: &mut Buffer,
    linkage: &Linkage<'_>,
) -> Result<(), SinkFault>
    requires { S.failed sink.old ≡ 0 }
    ensures { Puts (stream (S.told sink.old) buffer.old (S.failed sink.old))
        (tables_in linkage.now) result (stream (S.told sink.new) buffer.new (S.failed sink.new)) }
{
    let parts = linkage.parts();
    let names = Names {
        objects: linkage.loaded().objects(),
        placement: &parts.placement,
        listed: parts.listed.in_order(),
    };
    match parts.listed.table() {
        Some(table) => put_tables(sink, buffer, &names, &table),
        None => Ok(()),
    }
}

/// Writes the image file of a link to a device, through one buffer of 64 KiB, which is made before the device is
/// given anything; runs of at least so many bytes that no relocation touches are given straight from the input.
///
/// # Errors
///
/// Memory where memory is refused: the device has then taken nothing. Device where it fails: it has then taken a
/// beginning of the image, and is not called again.
pub fn write_image<S: Sink>(
    alloc: Global,
    linkage: &Linkage<'_>,
    sink: &mut S,
) -> Result<(), WriteFault>
    requires { S.failed sink.old ≡ 0 }
    ensures written { OnOk result (Took (S.told sink.old) (own_image linkage.now)
        (S.told sink.new)) }
    ensures kept { OnOk result (S.failed sink.new ≡ S.failed sink.old) }
    ensures fault { IfErr result (WriteFails (S.told sink.old) (S.failed sink.old)
        (own_image linkage.now) (S.told sink.new) (S.failed sink.new)) }
{
    let mut buffer = Buffer::new(alloc)?;
    let parts = linkage.parts();
    let contents = Contents {
        placement: &parts.placement,
        patches: &parts.patches,
        slots: &parts.values,
    };
    write_file(
        sink,
        &mut buffer,
        &contents,
        parts.entry,
        parts.listed.table(),
    )?;
    write_tables(sink, &mut buffer, linkage)?;
    flush(sink, &mut buffer)?;
    Ok(())
}

/// The image file of a link, in memory.
///
/// # Errors
///
/// Only where memory is refused.
pub fn image(alloc: Global, linkage: &Linkage<'_>) -> Result<Vec<u8>, AllocError>
    ensures { IfOk result (λ v. v.items ≡ own_image linkage.now) }
{
    let parts = linkage.parts();
    let size = match parts.listed.table() {
        Some(table) => table.end(),
        None => file_end(parts.placement.segments()),
    };
    let mut sink = MemorySink::new(alloc, size as usize)?;
    match write_image(alloc, linkage, &mut sink) {
        Ok(()) => Ok(sink.into_bytes()),
        Err(_) => Err(AllocError),
    }
}
