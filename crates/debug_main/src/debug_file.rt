//! The file of an image for tools, written part by part: the image, the debug data one section after the other, the tables.
ghost use Rattle.std.specs.Prelude.{◌≡◌, ◌≢◌, ◌++◌, IfErr, OnErr, OnOk};
ghost use Rattle.std.specs.Option.{option_to_list};
ghost use Rattle.image_write.specs.Streams.{Took, TookPart};
ghost use Rattle.debug_image.specs.DebugLayouts.{IsDataLayout, data_in};
ghost use Rattle.debug_image.specs.DebugValues.{all_bytes, chunk_bytes};
ghost use Rattle.debug_image.specs.DebugViews.{chunk_view, chunk_views};
ghost use Rattle.debug_main.specs.DebugFiles.{file_of, left_at, left_if, left_of};
ghost use Rattle.debug_main.specs.Ready.{IsReady};

use debug_image::{Chunk, DataLayout, DebugParts, chunk_data};
use elf_model::{ObjectId, SectionRef};
use image_write::{HoleSink, WriteFault, put_all};
use ld_main::Content;
use std::alloc::{AllocError, Global};

/// Adds a section of debug data to those of which some relocations can't be done, where that is so.
fn add_left(left: &mut Vec<SectionRef>, chunk: &Chunk<'_>, is_left: bool) -> Result<(), AllocError>
    ensures { OnOk result (left.new.items
        ≡ left.old.items ++ option_to_list (left_if is_left (chunk_view chunk.now))) }
{
    if is_left {
        left.push(SectionRef {
            object: ObjectId(chunk.place.piece.object),
            section: chunk.place.piece.section,
        })?;
    }
    Ok(())
}

/// Writes a section of debug data, and the zeros before it.
fn write_chunk<'a, S: HoleSink>(
    alloc: Global,
    layout: &DataLayout<'_, 'a>,
    chunk: &Chunk<'a>,
    left: &mut Vec<SectionRef>,
    sink: &mut S,
) -> Result<(), WriteFault>
    requires layout { IsDataLayout layout.now }
    requires whole { S.failed sink.old ≡ 0 }
    ensures took { OnOk result (Took (S.told sink.old)
        (chunk_bytes (data_in layout.now) (chunk_view chunk.now)) (S.told sink.new)) }
    ensures kept { OnOk result (S.failed sink.new ≡ 0) }
    ensures part { OnErr result (TookPart (S.told sink.old)
        (chunk_bytes (data_in layout.now) (chunk_view chunk.now)) (S.told sink.new)) }
    ensures failure { IfErr result (λ f. f ≡ WriteFault.Device → S.failed sink.new ≢ 0) }
    ensures left { OnOk result (left.new.items ≡ left.old.items
        ++ option_to_list (left_at (data_in layout.now) (chunk_view chunk.now))) }
{
    let made = chunk_data(alloc, layout, chunk)?;
    sink.pass(chunk.pad)?;
    put_all(sink, &made.bytes)?;
    add_left(left, chunk, made.has_left)?;
    Ok(())
}

/// Writes sections of debug data, each with the zeros before it.
fn write_chunks<'a, S: HoleSink>(
    alloc: Global,
    layout: &DataLayout<'_, 'a>,
    chunks: &[Chunk<'a>],
    left: &mut Vec<SectionRef>,
    sink: &mut S,
) -> Result<(), WriteFault>
    requires layout { IsDataLayout layout.now }
    requires whole { S.failed sink.old ≡ 0 }
    ensures took { OnOk result (Took (S.told sink.old)
        (all_bytes (data_in layout.now) (chunk_views chunks.now)) (S.told sink.new)) }
    ensures kept { OnOk result (S.failed sink.new ≡ 0) }
    ensures part { OnErr result (TookPart (S.told sink.old)
        (all_bytes (data_in layout.now) (chunk_views chunks.now)) (S.told sink.new)) }
    ensures failure { IfErr result (λ f. f ≡ WriteFault.Device → S.failed sink.new ≢ 0) }
    ensures left { OnOk result (left.new.items ≡ left.old.items
        ++ left_of (data_in layout.now) (chunk_views chunks.now)) }
{
    for chunk in chunks {
        write_chunk(alloc, layout, chunk, left, sink)?;
    }
    Ok(())
}

/// Writes the file of an image for tools to a device: its parts, one after the other. Adds the sections of debug data of which
/// some relocations can't be done.
///
/// # Errors
///
/// Memory where memory is refused; Device where the device fails. It has then taken a beginning of the file.
pub fn write_debug_file<'a, S: HoleSink>(
    alloc: Global,
    layout: &DataLayout<'_, 'a>,
    parts: &DebugParts<'a>,
    left: &mut Vec<SectionRef>,
    sink: &mut S,
) -> Result<(), WriteFault>
    requires layout { IsDataLayout layout.now }
    requires whole { S.failed sink.old ≡ 0 }
    ensures written { OnOk result (Took (S.told sink.old) (file_of layout.now parts.now)
        (S.told sink.new)) }
    ensures kept { OnOk result (S.failed sink.new ≡ 0) }
    ensures part { OnErr result (TookPart (S.told sink.old) (file_of layout.now parts.now)
        (S.told sink.new)) }
    ensures failure { IfErr result (λ f. f ≡ WriteFault.Device → S.failed sink.new ≢ 0) }
    ensures left { OnOk result (left.new.items ≡ left.old.items
        ++ left_of (data_in layout.now) (chunk_views parts.now.chunks.items)) }
{
    put_all(sink, &parts.front)?;
    write_chunks(alloc, layout, &parts.chunks, left, sink)?;
    put_all(sink, &parts.tail)?;
    Ok(())
}

/// The file of an image for tools of a link, of what it is made; and the sections of debug data of which some relocations can't
/// be done, once it is written.
#[derive(Drop)]
pub struct DebugFile<'c, 'a> {
    pub layout: &'c DataLayout<'c, 'a>,
    pub parts: &'c DebugParts<'a>,
    pub left: Vec<SectionRef>,
}

impl<'c, 'a> DebugFile<'c, 'a> {
    /// The sections of debug data of which some relocations can't be done.
    pub fn into_left(self) -> Vec<SectionRef> {
        self.left
    }
}

impl<'c, 'a> Content for DebugFile<'c, 'a> {
    ghost says = { λ f bytes. bytes ≡ file_of f.layout.now f.parts.now };

    ghost ready = { IsReady };

    ghost leaves = { λ f old new. TookPart old (file_of f.layout.now f.parts.now) new };

    fn put<S: HoleSink + Drop>(self, alloc: Global, sink: S) -> (Self, S, Result<(), WriteFault>) {
        let mut file = self;
        let mut sink = sink;
        let done = write_debug_file(alloc, file.layout, file.parts, &mut file.left, &mut sink);
        (file, sink, done)
    }

    fn is_program(&self) -> bool {
        true
    }
}
