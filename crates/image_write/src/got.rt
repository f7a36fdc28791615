//! The bytes of the GOT.
ghost use Rattle.std.specs.Prelude.{◌≡◌};
ghost use Rattle.std.specs.List.{flat_map};
ghost use Rattle.byteview.specs.Numbers.{le_bytes};
ghost use Rattle.image_write.specs.Parts.{got_of};
ghost use Rattle.image_write.specs.Streams.{Puts, stream};

use crate::buffer::Buffer;
use crate::sink::{Sink, SinkFault};
use crate::stream::put;

fn put_value<S: Sink>(sink: &mut S, buffer: &mut Buffer, value: u64) -> Result<(), SinkFault>
    requires { S.failed sink.old ≡ 0 }
    ensures { Puts (stream (S.told sink.old) buffer.old (S.failed sink.old))
        (le_bytes 8 value) result (stream (S.told sink.new) buffer.new (S.failed sink.new)) }
{
    put(sink, buffer, &value.to_le_bytes())
}

fn put_values<S: Sink>(sink: &mut S, buffer: &mut Buffer, values: &[u64]) -> Result<(), SinkFault>
    requires { S.failed sink.old ≡ 0 }
    ensures { Puts (stream (S.told sink.old) buffer.old (S.failed sink.old))
        (flat_map (le_bytes 8) values.now) result
        (stream (S.told sink.new) buffer.new (S.failed sink.new)) }
{
    for value in values {
        put_value(sink, buffer, *value)?;
    }
    Ok(())
}

/// Puts the bytes of a GOT: a first word of zeros, then the values of its slots.
pub fn put_got<S: Sink>(sink: &mut S, buffer: &mut Buffer, slots: &[u64]) -> Result<(), SinkFault>
    requires { S.failed sink.old ≡ 0 }
    ensures { Puts (stream (S.told sink.old) buffer.old (S.failed sink.old))
        (got_of slots.now) result (stream (S.told sink.new) buffer.new (S.failed sink.new)) }
{
    put(sink, buffer, &[0; 8])?;
    put_values(sink, buffer, slots)
}
