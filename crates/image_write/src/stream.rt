//! Bytes that go to a device through a buffer, and straight where they are many.
ghost use Rattle.std.specs.Prelude.{◌≡◌, ◌+◌, ◌<◌, [], OnErr, OnOk, length, replicate};
ghost use Rattle.image_write.specs.Streams.{Puts, Took, TookPart, stream};

use crate::buffer::{BUFFER_SIZE, Buffer};
use crate::sink::{Sink, SinkFault};

/// Gives a device bytes until it has taken all.
fn hand<S: Sink>(sink: &mut S, bytes: &[u8]) -> Result<(), SinkFault>
    requires { S.failed sink.old ≡ 0 }
    ensures { Puts (stream (S.told sink.old) [] (S.failed sink.old)) bytes.now result
        (stream (S.told sink.new) [] (S.failed sink.new)) }
{
    let mut rest = bytes;
    while !rest.is_empty() {
        let count = sink.put(rest)?;
        let (_, behind) = rest.split_at(count);
        rest = behind;
    }
    Ok(())
}

/// Gives a device bytes until it has taken all.
///
/// # Errors
///
/// Where the device fails: it has then taken a beginning of the bytes, and is given no more.
pub fn put_all<S: Sink>(sink: &mut S, bytes: &[u8]) -> Result<(), SinkFault>
    requires { S.failed sink.old ≡ 0 }
    ensures took { OnOk result (Took (S.told sink.old) bytes.now (S.told sink.new)) }
    ensures kept { OnOk result (S.failed sink.new ≡ 0) }
    ensures part { OnErr result (TookPart (S.told sink.old) bytes.now (S.told sink.new)) }
    ensures failure { OnErr result (S.failed sink.new ≡ S.failed sink.old + 1) }
{
    hand(sink, bytes)
}

/// Gives the device what the buffer holds, which is then empty.
pub fn flush<S: Sink>(sink: &mut S, buffer: &mut Buffer) -> Result<(), SinkFault>
    requires { S.failed sink.old ≡ 0 }
    ensures puts { Puts (stream (S.told sink.old) buffer.old (S.failed sink.old)) [] result
        (stream (S.told sink.new) buffer.new (S.failed sink.new)) }
    ensures empty { OnOk result (buffer.new ≡ []) }
{
    hand(sink, buffer.bytes())?;
    buffer.clear();
    Ok(())
}

/// Puts bytes: into the buffer where it has room for them, else behind what it holds, straight to the device where they
/// are more than it takes.
pub fn put<S: Sink>(sink: &mut S, buffer: &mut Buffer, bytes: &[u8]) -> Result<(), SinkFault>
    requires { S.failed sink.old ≡ 0 }
    ensures { Puts (stream (S.told sink.old) buffer.old (S.failed sink.old)) bytes.now result
        (stream (S.told sink.new) buffer.new (S.failed sink.new)) }
{
    if bytes.len() <= buffer.room() {
        buffer.add(bytes);
        return Ok(());
    }
    flush(sink, buffer)?;
    if bytes.len() < BUFFER_SIZE {
        buffer.add(bytes);
        return Ok(());
    }
    hand(sink, bytes)
}

/// Makes room for a byte at least.
pub fn make_room<S: Sink>(sink: &mut S, buffer: &mut Buffer) -> Result<(), SinkFault>
    requires { S.failed sink.old ≡ 0 }
    ensures puts { Puts (stream (S.told sink.old) buffer.old (S.failed sink.old)) [] result
        (stream (S.told sink.new) buffer.new (S.failed sink.new)) }
    ensures room { OnOk result (length buffer.new < BUFFER_SIZE) }
{
    if buffer.room() > 0 {
        return Ok(());
    }
    flush(sink, buffer)
}

/// Puts a byte so many times.
pub fn put_run<S: Sink>(
    sink: &mut S,
    buffer: &mut Buffer,
    count: u64,
    byte: u8,
) -> Result<(), SinkFault>
    requires { S.failed sink.old ≡ 0 }
    ensures { Puts (stream (S.told sink.old) buffer.old (S.failed sink.old))
        (replicate count byte) result (stream (S.told sink.new) buffer.new (S.failed sink.new)) }
{
    let mut left = count;
    while left > 0 {
        make_room(sink, buffer)?;
        let part = left.min(buffer.room() as u64);
        buffer.add_run(part as usize, byte);
        left -= part;
    }
    Ok(())
}
